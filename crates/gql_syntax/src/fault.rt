//! What is wrong with a text.
ghost use Rattle.std.specs.Prelude.{◌≡◌, ◌<◌, ◌-◌, ◌^◌, length, IfErr, IfOk, IsCharBoundary, IsUtf8};
ghost use Rattle.gql_ast.specs.declared.fault.ParseFault.TheVariants.{Syntax};
ghost use Rattle.gql_syntax.specs.Answers.{fault_in, LiesIn};
ghost use Rattle.gql_syntax.specs.Texts.{no_text};

use gql_ast::gql_plain::NoMemory;
use gql_ast::{ParseFault, SyntaxFault};
use gql_lex::place;
use std::alloc::{AllocError, AllocFailed};

/// The code of a token that may not stand where it stands, and of an end that comes too early. Codes
/// 1 to 5 are those of `LexFault`.
pub const UNEXPECTED: u8 = 6;

/// The code of bytes that are no UTF-8.
pub const NOT_UTF8: u8 = 7;

/// The code of a token that nests one deeper than it may.
pub const TOO_DEEP: u8 = 8;

/// The text that the bytes of the file with this number are. Bytes that are not UTF-8 are a fault at
/// the first line and column; that these are refused is this project's own.
pub fn text_of(file: u32, bytes: &[u8]) -> Result<&str, ParseFault>
    ensures text { IfOk result (λ text. text.now ≡ bytes.now) }
    ensures utf8 { IfOk result (λ text. IsUtf8 bytes.now) }
    ensures fault { IfErr result (λ f. f ≡ Syntax (no_text file)) }
    ensures other { IfErr result (λ f. IsUtf8 bytes.now → ⊥) }
{
    match std::str::from_utf8(bytes) {
        Ok(text) => Ok(text),
        Err(_) => Err(ParseFault::Syntax(SyntaxFault {
            file,
            line: 1,
            column: 1,
            code: NOT_UTF8,
        })),
    }
}

/// Why a text could not be read.
#[derive(Clone, Copy, Debug, PartialEq, Eq, Drop)]
pub enum Fault {
    /// A fault at the byte `at`. The codes are those of `SyntaxFault`.
    Wrong { code: u8, at: usize },
    /// A growth of memory was refused.
    NoMemory,
}

impl Fault {
    /// The fault with its file and its place in the text. The place is counted from the start of
    /// the text, so this is for one fault a file.
    pub fn in_text(self, file: u32, text: &str) -> ParseFault
        requires short { length text.now < 2 ^ 32 - 1 }
        requires lies { LiesIn text.now self }
        ensures { result ≡ fault_in file text.now self }
    {
        match self {
            Fault::Wrong { code, at } => {
                let place = place(text, at);
                ParseFault::Syntax(SyntaxFault {
                    file,
                    line: place.line,
                    column: place.column,
                    code,
                })
            }
            Fault::NoMemory => ParseFault::NoMemory,
        }
    }
}

impl From<NoMemory> for Fault {
    ghost use Rattle.gql_syntax.specs.declared.fault.Fault.TheVariants.{NoMemory as no_memory};
    ghost use Rattle.std.specs.Prelude.{◌≡◌};

    ghost from_gives = { λ _ fault. fault ≡ no_memory };

    fn from(_refused: NoMemory) -> Fault {
        Fault::NoMemory
    }
}

impl From<AllocError> for Fault {
    ghost use Rattle.gql_syntax.specs.declared.fault.Fault.TheVariants.{NoMemory as no_memory};
    ghost use Rattle.std.specs.Prelude.{◌≡◌};

    ghost from_gives = { λ _ fault. fault ≡ no_memory };

    fn from(_refused: AllocError) -> Fault {
        Fault::NoMemory
    }
}

impl<T: Drop> From<AllocFailed<T>> for Fault {
    ghost use Rattle.gql_syntax.specs.declared.fault.Fault.TheVariants.{NoMemory as no_memory};
    ghost use Rattle.std.specs.Prelude.{◌≡◌};

    ghost from_gives = { λ _ fault. fault ≡ no_memory };

    fn from(_refused: AllocFailed<T>) -> Fault {
        Fault::NoMemory
    }
}
