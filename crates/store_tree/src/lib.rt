//! A persistent balanced tree from text to shared values.
#![tactic(auto)]

mod balance;
mod branch;
mod change;
mod in_place;
pub mod item;
mod leaf;
mod leaves;
pub mod tree;
mod written;

pub use gql_plain;
pub use item::Item;
pub use tree::Tree;
