//! What a text is made of.

/// What a token is.
#[derive(Clone, Copy, Debug, PartialEq, Eq, Drop)]
pub enum TokenKind {
    /// One of `! $ & ( ) ... : = @ [ ] { | }`.
    Punct,
    /// A letter or `_`, then letters, digits and `_`, all ASCII.
    Name,
    /// A whole number within i64.
    Int,
    /// A string in `"`.
    Text,
    /// A string in `"""`.
    Block,
}

/// A token: its text is the source from the byte `start` to the byte before `end`.
#[derive(Clone, Copy, Debug, Drop)]
pub struct Token<'a> {
    pub kind: TokenKind,
    pub text: &'a str,
    pub start: usize,
    pub end: usize,
}

/// A lexical fault, at the byte `at`. The codes are 1 for a character that begins no token or may
/// not stand in a comment, 2 for a number that is none or does not fit i64, 3 for a number with a
/// fraction or an exponent, 4 for a string that is not ended, has another escape or a character that
/// may not stand in it, and 5 for an escape of a surrogate. That these are refused is this project's
/// own, and so is that a number has no fraction.
#[derive(Clone, Copy, Debug, PartialEq, Eq, Drop)]
pub struct LexFault {
    pub code: u8,
    pub at: usize,
}

/// A place in a text: its line, and the character in that line, both counted from 1.
#[derive(Clone, Copy, Debug, PartialEq, Eq, Drop)]
pub struct Place {
    pub line: u32,
    pub column: u32,
}

/// What the bytes of a text begin with.
#[derive(Clone, Copy, Debug, Drop)]
pub(crate) enum Head {
    /// Ignored text: one byte, and so many more.
    Ignored(usize),
    /// A token: one byte, and so many more.
    Found(TokenKind, usize),
    /// A fault of this code, so many bytes ahead.
    Wrong(u8, usize),
}

/// A character begins no token, or may not stand in a comment.
pub(crate) const BAD_CHAR: u8 = 1;

/// No number, or one that does not fit i64.
pub(crate) const BAD_NUMBER: u8 = 2;

/// A number with a fraction or an exponent.
pub(crate) const FLOAT_LITERAL: u8 = 3;

/// A string that is not ended, has another escape or a character that may not stand in it.
pub(crate) const BAD_STRING: u8 = 4;

/// An escape of a surrogate.
pub(crate) const SURROGATE: u8 = 5;
