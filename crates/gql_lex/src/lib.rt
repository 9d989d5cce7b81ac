//! The tokens of a GraphQL text (October 2021, section 2), their values and their places.
#![tactic(auto)]

mod block_values;
mod bytes;
mod heads;
mod indents;
pub mod laws;
pub mod lexer;
mod lines;
pub mod locator;
mod numbers;
pub mod places;
mod strings;
mod text_values;
pub mod tokens;
pub mod values;

pub use lexer::Lexer;
pub use locator::Locator;
pub use places::place;
pub use tokens::{LexFault, Place, Token, TokenKind};
pub use values::string_value;
