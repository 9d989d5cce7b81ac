//! Where strings end.
ghost use Rattle.std.specs.Prelude.{◌≡◌, ◌≤◌, ◌<◌, cond, Some, None, IfOk, length};
ghost use Rattle.std.specs.Char.{digit_value};
ghost use Rattle.gql_plain.specs.Names.{is_within};
ghost use Rattle.gql_lex.specs.Strings.{IsStep, block_end, code_of_hex, escape_len, is_four_hex, is_hex, is_simple_escape, is_surrogate, text_end};

use crate::bytes::{byte_at, is_escaped_quotes, is_three_quotes, may_stand, may_stand_in_block};
use crate::tokens::{BAD_STRING, SURROGATE};

/// Whether a byte after a backslash is an escape by itself.
fn is_simple_escape(byte: u8) -> bool
    ensures { result ≡ is_simple_escape byte }
{
    byte == b'"'
        || byte == b'\\'
        || byte == b'/'
        || byte == b'b'
        || byte == b'f'
        || byte == b'n'
        || byte == b'r'
        || byte == b't'
}

/// The value of a hexadecimal digit.
fn hex_digit(byte: u8) -> Option<u32>
    ensures { result ≡ cond (is_hex byte) (Some (digit_value byte)) None }
{
    (byte as char).to_digit(16)
}

/// The number of the first four hexadecimal digits.
pub fn code_of_hex(bytes: &[u8]) -> Option<u32>
    ensures { result ≡ cond (is_four_hex bytes.now) (Some (code_of_hex bytes.now)) None }
{
    let first = hex_digit(byte_at(bytes, 0))?;
    let second = hex_digit(byte_at(bytes, 1))?;
    let third = hex_digit(byte_at(bytes, 2))?;
    let fourth = hex_digit(byte_at(bytes, 3))?;
    Some(((first * 16 + second) * 16 + third) * 16 + fourth)
}

/// Whether a number is that of a surrogate.
fn is_surrogate(code: u32) -> bool
    ensures { result ≡ is_surrogate code }
{
    0xD800 <= code && code <= 0xDFFF
}

/// How many bytes an escape has after its backslash.
#[tactic(auto, unfolding(crate::specs::Strings::escape_len))]
pub fn escape_len(bytes: &[u8]) -> Result<usize, u8>
    ensures is { result ≡ escape_len bytes.now }
    ensures short { IfOk result (λ n. n ≤ 5) }
{
    let first = byte_at(bytes, 0);
    if is_simple_escape(first) {
        return Ok(1);
    }
    if first != b'u' {
        return Err(BAD_STRING);
    }
    match code_of_hex(&bytes[1..]) {
        None => Err(BAD_STRING),
        Some(code) => {
            if is_surrogate(code) {
                Err(SURROGATE)
            } else {
                Ok(5)
            }
        }
    }
}

/// How many bytes of a Text go on here, or None at its last quote.
fn text_step(bytes: &[u8]) -> Result<Option<usize>, u8>
    requires { 0 < length bytes.now }
    ensures { IsStep (text_end 0) 1 bytes.now result }
{
    let first = bytes[0];
    if first == b'"' {
        Ok(None)
    } else if first == b'\\' {
        let len = escape_len(&bytes[1..])?;
        Ok(Some(1 + len))
    } else if may_stand(first) {
        Ok(Some(1))
    } else {
        Err(BAD_STRING)
    }
}

/// Where a Text ends, after its first quote.
pub fn text_end(bytes: &[u8]) -> Result<usize, u8>
    ensures is { result ≡ text_end 0 bytes.now }
    ensures within { IfOk result (λ n. n ≤ length bytes.now) }
{
    let mut at = 0;
    'text: while at < bytes.len() {
        match text_step(&bytes[at..])? {
            None => return Ok(at + 1),
            Some(more) => at += more,
        }
    }
    Err(BAD_STRING)
}

/// How many bytes of a Block go on here, or None at its last three quotes.
fn block_step(bytes: &[u8]) -> Result<Option<usize>, u8>
    requires { 0 < length bytes.now }
    ensures { IsStep (block_end 0) 3 bytes.now result }
{
    let first = bytes[0];
    if is_three_quotes(bytes) {
        Ok(None)
    } else if is_escaped_quotes(bytes) {
        Ok(Some(4))
    } else if may_stand_in_block(first) {
        Ok(Some(1))
    } else {
        Err(BAD_STRING)
    }
}

/// Where a Block ends, after its first three quotes.
pub fn block_end(bytes: &[u8]) -> Result<usize, u8>
    ensures is { result ≡ block_end 0 bytes.now }
    ensures within { IfOk result (λ n. n ≤ length bytes.now) }
{
    let mut at = 0;
    'block: while at < bytes.len() {
        match block_step(&bytes[at..])? {
            None => return Ok(at + 3),
            Some(more) => at += more,
        }
    }
    Err(BAD_STRING)
}
