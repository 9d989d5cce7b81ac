//! What is wrong with a text.
use gql_plain::NoMemory;
use std::alloc::{AllocError, AllocFailed};

/// A fault of the lexis or the grammar, at the line and the column, both from 1, of a file.
///
/// The codes are this project's own: 1 to 5 are the lexer's faults, 6 is a token that may not stand
/// there, 7 a file that is not UTF-8, 8 too deep a nesting.
#[derive(Clone, Copy, Debug, PartialEq, Eq)]
pub struct SyntaxFault {
    pub file: u32,
    pub line: u32,
    pub column: u32,
    pub code: u8,
}

/// Why a text has no tree.
#[derive(Clone, Copy, Debug, PartialEq, Eq)]
pub enum ParseFault {
    Syntax(SyntaxFault),
    NoMemory,
}

impl From<NoMemory> for ParseFault {
    ghost use Rattle.gql_ast.specs.declared.fault.ParseFault.TheVariants.{NoMemory as no_memory};
    ghost use Rattle.std.specs.Prelude.{◌≡◌};

    ghost from_gives = { λ _ fault. fault ≡ no_memory };

    fn from(_refused: NoMemory) -> ParseFault {
        ParseFault::NoMemory
    }
}

impl From<AllocError> for ParseFault {
    ghost use Rattle.gql_ast.specs.declared.fault.ParseFault.TheVariants.{NoMemory as no_memory};
    ghost use Rattle.std.specs.Prelude.{◌≡◌};

    ghost from_gives = { λ _ fault. fault ≡ no_memory };

    fn from(_refused: AllocError) -> ParseFault {
        ParseFault::NoMemory
    }
}

impl<T: Drop> From<AllocFailed<T>> for ParseFault {
    ghost use Rattle.gql_ast.specs.declared.fault.ParseFault.TheVariants.{NoMemory as no_memory};
    ghost use Rattle.std.specs.Prelude.{◌≡◌};

    ghost from_gives = { λ _ fault. fault ≡ no_memory };

    fn from(_refused: AllocFailed<T>) -> ParseFault {
        ParseFault::NoMemory
    }
}
