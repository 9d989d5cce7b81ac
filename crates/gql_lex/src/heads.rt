//! What the bytes of a text begin with.
ghost use Rattle.std.specs.Prelude.{◌≡◌, ◌+◌, ◌^◌, ◌<◌, ◌≤◌, length, drop, MatchResult, ⊤};
ghost use Rattle.std.specs.List.{prefix_len};
ghost use Rattle.std.specs.Str.Parse.{AllDigits};
ghost use Rattle.gql_lex.specs.Numbers.{sign_len};
ghost use Rattle.gql_lex.specs.Characters.{may_stand};
ghost use Rattle.gql_plain.specs.Names.{is_name_byte};
ghost use Rattle.gql_lex.specs.Heads.{IsSoundAt, comment, head, int_before, number, string, string_head};

use crate::bytes::{
    byte_at, is_float_mark, is_ignored, is_line_end, is_mark, is_name_byte, is_name_start,
    is_number_start, is_punctuator, is_spread, is_two_quotes, may_stand,
};
use crate::numbers::{digits_len, is_in_i64, sign_len};
use crate::strings::{block_end, text_end};
use crate::tokens::{BAD_CHAR, BAD_NUMBER, FLOAT_LITERAL, Head, TokenKind};

/// How many bytes in front may stand in a Name.
fn name_len(bytes: &[u8]) -> usize
    ensures { result ≡ prefix_len is_name_byte bytes.now }
{
    bytes.iter().take_while(|b| is_name_byte(**b)).count()
}

/// How many bytes in front may stand in a comment.
#[tactic(auto, using(crate::proofs::Digits::runs))]
fn comment_len(bytes: &[u8]) -> usize
    ensures is { result ≡ prefix_len may_stand bytes.now }
    ensures within { result ≤ length bytes.now }
{
    bytes.iter().take_while(|b| may_stand(**b)).count()
}

/// A comment, after its `#`.
#[tactic(auto, unfolding(crate::specs::Heads::comment))]
fn comment(bytes: &[u8]) -> Head
    ensures { result ≡ comment bytes.now }
{
    let len = comment_len(bytes);
    if bytes.len() == len || is_line_end(byte_at(bytes, len)) {
        Head::Ignored(len)
    } else {
        Head::Wrong(BAD_CHAR, 1 + len)
    }
}

/// An Int, and what stands after it.
#[tactic(auto, unfolding(crate::specs::Heads::int_before))]
fn int_before(text: &[u8], rest: &[u8]) -> Head
    requires some { sign_len text.now < length text.now }
    requires digits { AllDigits 10 (drop (sign_len text.now) text.now) }
    ensures { result ≡ int_before text.now rest.now }
{
    let next = byte_at(rest, 0);
    if is_float_mark(next) {
        Head::Wrong(FLOAT_LITERAL, 0)
    } else if is_name_byte(next) {
        Head::Wrong(BAD_NUMBER, 0)
    } else if is_in_i64(text) {
        Head::Found(TokenKind::Int, text.len() - 1)
    } else {
        Head::Wrong(BAD_NUMBER, 0)
    }
}

/// What begins with `-` or a digit.
#[tactic(auto, unfolding(crate::specs::Heads::number))]
fn number(bytes: &[u8]) -> Head
    ensures { result ≡ number bytes.now }
{
    let sign = sign_len(bytes);
    let digits = digits_len(&bytes[sign..]);
    if digits == 0 {
        return Head::Wrong(BAD_NUMBER, 0);
    }
    let len = sign + digits;
    int_before(&bytes[..len], &bytes[len..])
}

/// A string with so many bytes after its first quote, or its fault.
fn string_head(kind: TokenKind, more: usize, end: Result<usize, u8>) -> Head
    requires { MatchResult end (λ n. more + n < 2 ^ 64) (λ _. ⊤) }
    ensures { result ≡ string_head kind more end }
{
    match end {
        Ok(len) => Head::Found(kind, more + len),
        Err(code) => Head::Wrong(code, 0),
    }
}

/// A Block or a Text, after its first quote.
#[tactic(auto, unfolding(crate::specs::Heads::string))]
fn string(bytes: &[u8]) -> Head
    ensures { result ≡ string bytes.now }
{
    if is_two_quotes(bytes) {
        string_head(TokenKind::Block, 2, block_end(&bytes[2..]))
    } else {
        string_head(TokenKind::Text, 0, text_end(bytes))
    }
}

/// What begins at an offset of a text.
pub fn head(bytes: &[u8], at: usize) -> Head
    requires { at < length bytes.now }
    ensures is { result ≡ head (drop at bytes.now) }
    ensures sound { IsSoundAt bytes.now at result }
{
    head_of(&bytes[at..])
}

/// What the bytes of a text begin with.
#[tactic(auto, unfolding(crate::specs::Heads::head))]
fn head_of(bytes: &[u8]) -> Head
    requires { 0 < length bytes.now }
    ensures { result ≡ head bytes.now }
{
    let first = bytes[0];
    let rest = &bytes[1..];
    if is_ignored(first) {
        Head::Ignored(0)
    } else if is_mark(bytes) {
        Head::Ignored(2)
    } else if first == b'#' {
        comment(rest)
    } else if is_punctuator(first) {
        Head::Found(TokenKind::Punct, 0)
    } else if is_spread(bytes) {
        Head::Found(TokenKind::Punct, 2)
    } else if is_name_start(first) {
        Head::Found(TokenKind::Name, name_len(rest))
    } else if is_number_start(first) {
        number(bytes)
    } else if first == b'"' {
        string(rest)
    } else {
        Head::Wrong(BAD_CHAR, 0)
    }
}
