//! Values as lists of marks (this project's own): how a line holds a value and nests no deeper where the value does.
#![tactic(auto)]

mod flat;
pub mod laws;
mod write;

pub use flat::unflat;
pub use laws::flat_is_read_back;
pub use store_record;
pub use store_record::gql_plain;
pub use write::{write_marks, write_members};
