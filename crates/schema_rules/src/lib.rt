//! The rules that a schema has to meet (GraphQL, October 2021, section 3), and the names of all rules of
//! projects.
#![tactic(auto)]

pub mod fault;
pub mod first;
mod rules;

pub use gql_graph;
pub use gql_graph::gql_plain;
pub use rules::fields::same_type;
pub use schema_trees;
pub use schema_trees::{gql_ast, schema_tables};
