//! What strings say: Text.
ghost use Rattle.std.specs.Prelude.{◌≡◌, ◌≤◌, ◌<◌, ◌-◌, ◌⊎◌, ◌++◌, encode_utf8, IfOk, IsOk, drop, length, slice_index, string_bytes};
ghost use Rattle.std.specs.List.{between};
ghost use Rattle.gql_lex.specs.declared.tokens.TokenKind.TheVariants.{Text};
ghost use Rattle.gql_lex.specs.Heads.{IsToken};
ghost use Rattle.gql_lex.specs.Strings.{escape_len};
ghost use Rattle.gql_lex.specs.Values.{IsTextRest, escape_char, escaped_len, run_before, simple_escape, stops_text, text_value};

use crate::bytes::byte_at;
use crate::strings::code_of_hex;
use std::alloc::{AllocError, Global};

/// What a simple escape stands for.
fn simple_escape(byte: u8) -> u8
    ensures { result ≡ simple_escape byte }
{
    match byte {
        b'b' => 8,
        b'f' => 12,
        b'n' => b'\n',
        b'r' => b'\r',
        b't' => b'\t',
        _ => byte,
    }
}

/// The character that an escape stands for, after its backslash.
fn escape_char(bytes: &[u8]) -> char
    requires { IsOk (escape_len bytes.now) }
    ensures { result ≡ escape_char bytes.now }
{
    let first = byte_at(bytes, 0);
    if first != b'u' {
        return char::from(simple_escape(first));
    }
    match code_of_hex(&bytes[1..]) {
        Some(code) => match char::from_u32(code) {
            Some(character) => character,
            None => unreachable!(),
        },
        None => unreachable!(),
    }
}

/// How many bytes an escape has after its backslash.
fn escaped_len(bytes: &[u8]) -> usize
    ensures { result ≡ escaped_len bytes.now }
{
    if byte_at(bytes, 0) == b'u' { 5 } else { 1 }
}

/// Whether a quote or a backslash stands here.
fn stops_text(bytes: &[u8]) -> bool
    ensures { result ≡ stops_text bytes.now }
{
    byte_at(bytes, 0) == b'"' || byte_at(bytes, 0) == b'\\'
}

/// How many bytes stand before the next quote or backslash.
fn plain_len(bytes: &[u8]) -> usize
    ensures { result ≡ run_before stops_text bytes.now }
{
    'plain: for len in 0..bytes.len() {
        if stops_text(&bytes[len..]) {
            return len;
        }
    }
    bytes.len()
}

/// Where the next quote or backslash stands in the rest of a Text.
fn plain_end(bytes: &[u8], at: usize) -> usize
    requires within { at ≤ length bytes.now }
    requires rest { IsTextRest (drop at bytes.now) }
    ensures within { (at ≤ result) × (result < length bytes.now) }
    ensures rest { IsTextRest (drop result bytes.now) }
    ensures stops { (slice_index bytes.now result ≡ 34) ⊎ (slice_index bytes.now result ≡ 92) }
    ensures value { text_value 0 (drop at bytes.now) ≡ between at result bytes.now ++ text_value 0 (drop result bytes.now) }
{
    at + plain_len(&bytes[at..])
}

/// The character of an escape in the rest of a Text, and where the escape ends.
fn unescape(bytes: &[u8], at: usize) -> (char, usize)
    requires within { at < length bytes.now }
    requires rest { IsTextRest (drop at bytes.now) }
    requires escape { slice_index bytes.now at ≡ 92 }
    ensures within { (at < result.1) × (result.1 < length bytes.now) }
    ensures rest { IsTextRest (drop result.1 bytes.now) }
    ensures ascii { slice_index bytes.now (result.1 - 1) < 128 }
    ensures value { text_value 0 (drop at bytes.now) ≡ encode_utf8 result.0 ++ text_value 0 (drop result.1 bytes.now) }
{
    let escape = &bytes[at + 1..];
    (escape_char(escape), at + (1 + escaped_len(escape)))
}

/// What a Text says.
pub fn text_value(alloc: Global, text: &str) -> Result<String, AllocError>
    requires { IsToken Text text.now }
    ensures { IfOk result (λ s. string_bytes s ≡ text_value 0 (drop 1 text.now)) }
{
    let bytes = text.as_bytes();
    let mut value = String::new(alloc);
    let mut at = 1;
    'text: loop {
        let end = plain_end(bytes, at);
        value.push_str(&text[at..end])?;
        if bytes[end] == b'"' {
            return Ok(value);
        }
        let (character, behind) = unescape(bytes, end);
        value.push(character)?;
        at = behind;
    }
}
