//! The texts that a server gets: the text of an expanded operation, and the lines of artifacts
//! (this project's own).
//!
//! A text is written once from left to right, into one buffer.
#![tactic(auto)]

pub mod artifact;
mod directives;
pub mod laws;
pub mod operation;
mod order;
mod selections;
mod separator;
mod types;
mod usage;
mod values;
mod variables;

pub use artifact::{Artifact, artifact_line};
pub use gql_parse::parse_document;
pub use operation::operation_text;
