//! What a schema says (GraphQL, October 2021, section 3), from its definitions, with the tables that
//! its look-ups need. The definitions need not meet any rule.
#![tactic(auto)]

mod building;
pub mod built_in;
pub mod definitions;
pub mod fits;
pub mod index;
pub mod kind;
mod members;
mod part;
mod places;
mod possible;
pub mod tables;
pub mod type_forms;

pub use gql_ast;
pub use gql_ast::gql_plain;
pub use gql_graph;
