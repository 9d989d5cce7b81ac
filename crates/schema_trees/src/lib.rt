//! Definitions of a schema as a tree whose names have numbers, their parts, and names that stand in a
//! list before.
#![tactic(auto)]

pub mod located;
mod named;
pub mod parts_at;
pub mod repeats;

pub use schema_tables;
pub use schema_tables::gql_ast;
