//! Graphs of names, sets of names that were seen, the least of places, and the first of several rules
//! that does not hold.
#![tactic(auto)]

mod components;
pub mod first;
pub mod graph;
pub mod least;
pub mod ranks;
pub mod seen;

pub use gql_plain;
