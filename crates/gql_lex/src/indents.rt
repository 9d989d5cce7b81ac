//! The value of a Block, of its raw text.
ghost use Rattle.std.specs.Prelude.{◌≡◌, ◌+◌, ◌-◌, ◌≤◌, ◌<◌, ◌∷◌, ◌++◌, IfOk, cond, drop, length, map, min, string_bytes};
ghost use Rattle.std.specs.List.{prefix_len, suffix_len};
ghost use Rattle.gql_lex.specs.Lines.{texts};
ghost use Rattle.gql_lex.specs.Values.{block_value, common_indent, indent, is_blank_line, is_indent, join_lines, least, narrow, unindent, without_blank_end, without_blank_start};

use crate::lines::lines_of;
use std::alloc::{AllocError, Global};

/// Whether a byte is a space or a tab.
fn is_indent(byte: u8) -> bool
    ensures { result ≡ is_indent byte }
{
    byte == b' ' || byte == b'\t'
}

/// How many spaces and tabs some bytes begin with.
fn run_len(bytes: &[u8]) -> usize
    ensures { result ≡ indent bytes.now }
{
    bytes.iter().take_while(|b| is_indent(**b)).count()
}

/// How many spaces and tabs a line begins with.
fn indent_len(line: &str) -> usize
    ensures is { result ≡ indent line.now }
    ensures within { result ≤ length line.now }
{
    run_len(line.as_bytes())
}

/// Whether a line has only spaces and tabs.
fn is_blank(line: &str) -> bool
    ensures { result ≡ is_blank_line line.now }
{
    indent_len(line) == line.len()
}

/// The lesser of an indent and the one before, where there is one.
fn least(len: usize, most: Option<usize>) -> usize
    ensures { result ≡ least len most }
{
    match most {
        None => len,
        Some(other) => len.min(other),
    }
}

/// The least indent so far, with one more line.
fn narrow(line: &str, most: Option<usize>) -> Option<usize>
    ensures { result ≡ narrow line.now most }
{
    if is_blank(line) {
        most
    } else {
        Some(least(indent_len(line), most))
    }
}

/// The indent that lines have in common.
fn common_indent(lines: &[&str]) -> usize
    ensures { result ≡ common_indent (texts lines.now) }
{
    let mut most = None;
    let mut at = lines.len();
    'lines: while at > 0 {
        at -= 1;
        most = narrow(lines[at], most);
    }
    most.unwrap_or(0)
}

/// A line without an indent, or without the whole of its own where that is less.
fn cut(line: &str, most: usize) -> &str
    ensures { result.now ≡ drop (min most (indent line.now)) line.now }
{
    &line[most.min(indent_len(line))..]
}

/// The lines, each but the first without the indent that these have in common.
fn unindent<'a>(alloc: Global, lines: &[&'a str]) -> Result<Vec<&'a str>, AllocError>
    requires { 0 < length lines.now }
    ensures { IfOk result (λ v. texts v.items ≡ unindent (texts lines.now)) }
{
    let rest = &lines[1..];
    let common = common_indent(rest);
    let mut kept = Vec::new(alloc);
    kept.push(lines[0])?;
    for line in rest {
        kept.push(cut(line, common))?;
    }
    Ok(kept)
}

/// How many lines in front have only spaces and tabs.
fn blank_start(lines: &[&str]) -> usize
    ensures is { result ≡ prefix_len is_blank_line (texts lines.now) }
    ensures within { result ≤ length lines.now }
{
    'start: for at in 0..lines.len() {
        if !is_blank(lines[at]) {
            return at;
        }
    }
    lines.len()
}

/// How many lines are left without those at the end that have only spaces and tabs.
fn filled_len(lines: &[&str]) -> usize
    ensures is { result ≡ length lines.now - suffix_len is_blank_line (texts lines.now) }
    ensures within { result ≤ length lines.now }
{
    let mut len = lines.len();
    'end: while len > 0 {
        if !is_blank(lines[len - 1]) {
            return len;
        }
        len -= 1;
    }
    len
}

/// Adds a line to a text, after a LF where it is not the first.
fn push_line(text: &mut String, line: &str, is_first: bool) -> Result<(), AllocError>
    ensures { IfOk result (λ _. string_bytes text.new ≡ cond is_first (string_bytes text.old ++ line.now) (string_bytes text.old ++ 10 ∷ line.now)) }
{
    if is_first {
        text.push_str(line)
    } else {
        text.push_str("\n")?;
        text.push_str(line)
    }
}

/// Lines joined by LF.
fn join_lines(alloc: Global, lines: &[&str]) -> Result<String, AllocError>
    ensures { IfOk result (λ s. string_bytes s ≡ join_lines (texts lines.now)) }
{
    let mut text = String::new(alloc);
    for (at, line) in lines.iter().enumerate() {
        push_line(&mut text, line, at == 0)?;
    }
    Ok(text)
}

/// Lines joined by LF, without those at both ends that have only spaces and tabs.
fn join_filled(alloc: Global, lines: &[&str]) -> Result<String, AllocError>
    ensures { IfOk result (λ s. string_bytes s ≡ join_lines (without_blank_end (without_blank_start (texts lines.now)))) }
{
    let filled = &lines[blank_start(lines)..];
    join_lines(alloc, &filled[..filled_len(filled)])
}

/// The value of a Block.
pub fn block_value(alloc: Global, raw: &str) -> Result<String, AllocError>
    ensures { IfOk result (λ s. string_bytes s ≡ block_value raw.now) }
{
    let lines = lines_of(alloc, raw)?;
    let kept = unindent(alloc, &lines)?;
    join_filled(alloc, &kept)
}
