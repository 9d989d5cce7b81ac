//! What a string says.
ghost use Rattle.std.specs.Prelude.{◌≡◌, IfOk, string_bytes};
ghost use Rattle.gql_lex.specs.Values.{IsString, string_value_of};

use crate::block_values::raw_text;
use crate::indents::block_value;
use crate::text_values::text_value;
use crate::tokens::{Token, TokenKind};
use gql_plain::{NoMemory, Words};
use std::alloc::{AllocError, Global};

/// The value of a Block token's text.
fn block_text(alloc: Global, text: &str) -> Result<String, AllocError>
    requires { IsString TokenKind.Block text.now }
    ensures { IfOk result (λ s. string_bytes s ≡ string_value_of TokenKind.Block text.now) }
{
    let raw = raw_text(alloc, text)?;
    block_value(alloc, raw.as_str())
}

/// What a Text or a Block says (GraphQL, October 2021, section 2.9.4): a Text with its escapes
/// replaced; a Block's raw text without the indent that its lines but the first have in common, and
/// without the lines at both ends that have only spaces and tabs.
pub fn string_value(alloc: Global, token: &Token<'_>) -> Result<Words, NoMemory>
    requires { IsString token.now.kind token.now.text.now }
    ensures { IfOk result (λ w. w ≡ string_value_of token.now.kind token.now.text.now) }
{
    let value = match token.kind {
        TokenKind::Text => text_value(alloc, token.text)?,
        TokenKind::Block => block_text(alloc, token.text)?,
        _ => unreachable!(),
    };
    Ok(Words::from_string(value))
}
