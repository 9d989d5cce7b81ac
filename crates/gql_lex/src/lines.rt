//! The lines of a Block's raw text.
ghost use Rattle.std.specs.Prelude.{◌≡◌, ◌+◌, ◌-◌, ◌≤◌, ◌<◌, ◌⊎◌, ◌∷◌, [], true, IfOk, IsCharBoundary, drop, length, slice_index};
ghost use Rattle.std.specs.List.{between};
ghost use Rattle.gql_lex.specs.Characters.{is_line_end};
ghost use Rattle.gql_lex.specs.Lines.{end_len, is_in_line, is_pair, line_len, lines, texts};

use crate::bytes::{byte_at, is_line_end};
use std::alloc::{AllocError, Global};

/// Whether a byte ends no line.
fn is_in_line(byte: u8) -> bool
    ensures { result ≡ is_in_line byte }
{
    !is_line_end(byte)
}

/// How many bytes the first line has.
fn line_len(bytes: &[u8]) -> usize
    ensures { result ≡ line_len bytes.now }
{
    bytes.iter().take_while(|b| is_in_line(**b)).count()
}

/// Whether CR LF stands here.
fn is_pair(bytes: &[u8]) -> bool
    ensures { result ≡ is_pair bytes.now }
{
    byte_at(bytes, 0) == b'\r' && byte_at(bytes, 1) == b'\n'
}

/// How many bytes the end of a line has that stands here, or 0.
fn end_len(bytes: &[u8]) -> usize
    ensures { result ≡ end_len bytes.now }
{
    if is_pair(bytes) {
        2
    } else if is_line_end(byte_at(bytes, 0)) {
        1
    } else {
        0
    }
}

/// Where the line ends that begins at an offset.
fn line_end(bytes: &[u8], at: usize) -> usize
    requires { at ≤ length bytes.now }
    ensures within { (at ≤ result) × (result ≤ length bytes.now) }
    ensures last { result ≡ length bytes.now → lines (drop at bytes.now) ≡ between at result bytes.now ∷ [] }
    ensures more { result < length bytes.now → lines (drop at bytes.now) ≡ between at result bytes.now ∷ lines (drop (result + end_len (drop result bytes.now)) bytes.now) }
    ensures stops { result < length bytes.now → is_line_end (slice_index bytes.now result) ≡ true }
    ensures ascii { result < length bytes.now → slice_index bytes.now result < 128 }
{
    at + line_len(&bytes[at..])
}

/// Where the next line begins, after the end of one.
fn next_line(bytes: &[u8], end: usize) -> usize
    requires within { end < length bytes.now }
    requires stops { is_line_end (slice_index bytes.now end) ≡ true }
    ensures is { result ≡ end + end_len (drop end bytes.now) }
    ensures within { (end < result) × (result ≤ length bytes.now) }
    ensures ascii { slice_index bytes.now (result - 1) < 128 }
{
    end + end_len(&bytes[end..])
}

/// The lines of a text, without their ends.
pub fn lines_of<'a>(alloc: Global, raw: &'a str) -> Result<Vec<&'a str>, AllocError>
    ensures { IfOk result (λ v. texts v.items ≡ lines raw.now) }
{
    let bytes = raw.as_bytes();
    let mut lines = Vec::new(alloc);
    let mut at = 0;
    'lines: loop {
        let end = line_end(bytes, at);
        lines.push(&raw[at..end])?;
        if end == bytes.len() {
            return Ok(lines);
        }
        at = next_line(bytes, end);
    }
}
