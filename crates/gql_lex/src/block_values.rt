//! What strings say: the raw text of a Block.
ghost use Rattle.std.specs.Prelude.{◌≡◌, ◌≤◌, ◌<◌, ◌++◌, true, IfOk, drop, length, slice_index, string_bytes};
ghost use Rattle.std.specs.List.{between};
ghost use Rattle.gql_lex.specs.declared.tokens.TokenKind.TheVariants.{Block};
ghost use Rattle.gql_lex.specs.Heads.{IsToken};
ghost use Rattle.gql_lex.specs.Values.{IsBlockRest, raw_text, run_before, stops_block};

use crate::bytes::{is_escaped_quotes, is_three_quotes};
use std::alloc::{AllocError, Global};

/// Whether `"""` or `\"""` stands here.
fn stops_block(bytes: &[u8]) -> bool
    ensures { result ≡ stops_block bytes.now }
{
    is_three_quotes(bytes) || is_escaped_quotes(bytes)
}

/// How many bytes stand before the next `"""` or `\"""`.
fn raw_len(bytes: &[u8]) -> usize
    ensures { result ≡ run_before stops_block bytes.now }
{
    'raw: for len in 0..bytes.len() {
        if stops_block(&bytes[len..]) {
            return len;
        }
    }
    bytes.len()
}

/// Where the next `"""` or `\"""` stands in the rest of a Block.
fn raw_end(bytes: &[u8], at: usize) -> usize
    requires within { at ≤ length bytes.now }
    requires rest { IsBlockRest (drop at bytes.now) }
    ensures within { (at ≤ result) × (result < length bytes.now) }
    ensures rest { IsBlockRest (drop result bytes.now) }
    ensures stops { stops_block (drop result bytes.now) ≡ true }
    ensures ascii { slice_index bytes.now result < 128 }
    ensures value { raw_text 0 (drop at bytes.now) ≡ between at result bytes.now ++ raw_text 0 (drop result bytes.now) }
{
    at + raw_len(&bytes[at..])
}

/// The raw text of a Block: `\"""` gives `"""`.
pub fn raw_text(alloc: Global, text: &str) -> Result<String, AllocError>
    requires { IsToken Block text.now }
    ensures { IfOk result (λ s. string_bytes s ≡ raw_text 0 (drop 3 text.now)) }
{
    let bytes = text.as_bytes();
    let mut value = String::new(alloc);
    let mut at = 3;
    'raw: loop {
        let end = raw_end(bytes, at);
        value.push_str(&text[at..end])?;
        if is_three_quotes(&bytes[end..]) {
            return Ok(value);
        }
        value.push_str("\"\"\"")?;
        at = end + 4;
    }
}
