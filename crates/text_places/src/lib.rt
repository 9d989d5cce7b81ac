//! Laws of the places in texts: rules number the nodes of a tree as the text's places are counted.
#![tactic(auto)]

pub mod laws;

pub use gql_parse::parse_document;
pub use gql_sdl::parse_schema;
