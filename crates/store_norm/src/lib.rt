//! The facts of a response, by the plan that normalizes it: the walk of the response along the plan.
#![tactic(auto)]

mod cache;
mod caching;
mod leaves;
mod made;
mod members;
mod pages;
pub mod plans;
pub mod response;
mod taken;
mod taking;
mod types;
mod walk;

pub use plans::is_formed;
pub use response::facts;
pub use store_report::NormFault;
