//! Whether the fields of expanded operations and fragments can merge, and whether the values that
//! stand in them fit (GraphQL, October 2021, sections 5.3.2, 5.6.1 and 5.8.5).
#![tactic(auto)]

mod by_type;
mod cells;
mod check;
mod fault;
mod groups;
pub mod laws;
pub mod least;
mod merging;
mod others;
mod pattern;
mod row;
mod shape;
mod signature;
mod values;
mod variables;

pub use check::check_merge;
pub use fault::{MergeFault, PlaceFault};
