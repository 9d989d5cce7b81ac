//! What a response says, gathered while the response is walked, and taken for facts or a refusal.
#![tactic(auto)]

mod conflict;
pub mod fault;
pub mod gathered;
mod joining;
pub mod laws;
mod object_row;
pub mod object_rows;
mod order;
mod pages;
pub mod path;
mod row_fields;
mod rows;
mod said;
pub mod trail;
pub mod untaken;
mod verdict;

pub use fault::NormFault;
pub use gathered::Gathered;
pub use laws::gathering_is_right;
pub use object_rows::ObjectRows;
pub use path::{Path, Step};
pub use trail::Trail;
pub use untaken::Untaken;
