//! The rules on the names of operations and fragments (GraphQL, October 2021, sections 5.2.1, 5.5.1
//! and 5.5.2).
#![tactic(auto)]

mod check;
mod named;
mod rules;

pub use check::{check_names, check_names_of};
