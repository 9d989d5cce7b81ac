//! What documents and schemas share: a text read token by token with places, and values, arguments,
//! directives and types (GraphQL, October 2021, section 2). Lists that were read keep no spare room.
#![tactic(auto)]

pub mod arguments;
pub mod cursor;
pub mod directives;
pub mod enclosed;
pub mod fault;
pub mod names;
pub mod types;
pub mod values;

pub use arguments::{read_arguments, read_call};
pub use cursor::Cursor;
pub use directives::read_directives;
pub use enclosed::read_members;
pub use fault::{Fault, text_of};
pub use gql_ast;
pub use gql_ast::gql_plain;
pub use gql_lex;
pub use names::{expect, expect_word, kind_of, read_name};
pub use types::{read_type, type_of_text};
pub use values::{read_default, read_value};

/// How deep selection sets, lists and objects, and list types may nest, each by itself. That deeper
/// ones are refused is this project's own.
pub const NESTING_LIMIT: u32 = 60;
