//! Documents are read (GraphQL, October 2021, sections 2.2 to 2.12).
#![tactic(auto)]

ghost use Rattle.std.specs.Prelude.{◌≡◌, ◌<◌, ◌-◌, ◌^◌, ◌⊎◌, Ok, Err, length, IfOk, IfErr};
ghost use Rattle.gql_syntax.specs.gql_ast.declared.document.Document.{Document};
ghost use Rattle.gql_syntax.specs.gql_ast.declared.fault.ParseFault.TheVariants.{NoMemory};
ghost use Rattle.gql_syntax.specs.gql_ast.declared.place.Placed.{Placed};
ghost use Rattle.gql_parse.specs.Documents.{documents};
ghost use Rattle.gql_parse.specs.Reads.{ReadsDocument};
ghost use Rattle.gql_parse.specs.Trees.{IsDocument};
ghost use Rattle.gql_syntax.specs.Texts.{IsParseFault, TellsText};

mod definitions;
pub mod laws;
mod selections;
mod variables;

use crate::definitions::read_definition;
pub use gql_syntax;
use gql_syntax::gql_ast::{Definitions, Document, ParseFault, Placed};
pub use gql_syntax::{gql_ast, gql_lex, gql_plain};
use gql_syntax::{Cursor, Fault, text_of};
use std::alloc::Global;

/// Reads a document.
///
/// The tree is the one that the text has by the grammar, with the places of its nodes in text
/// order, outer nodes first. A text that is no document gives its first fault with its place: the
/// fault of a token (codes 1 to 5), a token that may not stand where it stands or an end that comes
/// too early (6), bytes that are no UTF-8 (7, reported at the first line and column), or a
/// selection set, a list or object, or a list type that is nested 61 deep (8). Allocations that
/// are refused give `NoMemory`. The text may have up to 2^32 - 2 bytes.
pub fn parse_document(
    alloc: Global,
    file: u32,
    bytes: &[u8],
) -> Result<Placed<Document>, ParseFault>
    requires { length bytes.now < 2 ^ 32 - 1 }
    ensures found { IfOk result (IsDocument file bytes.now) }
    ensures only { (p : Placed Document) → IsDocument file bytes.now p → (result ≡ Err NoMemory) ⊎ (result ≡ Ok p) }
    ensures fault { IfErr result (IsParseFault documents file bytes.now) }
    ensures text { TellsText bytes.now result }
{
    let text = text_of(file, bytes)?;
    let mut cursor = Cursor::new(alloc, file, text);
    match read_definitions(alloc, &mut cursor) {
        Ok(definitions) => Ok(Placed {
            tree: Document { definitions },
            places: cursor.into_places(),
        }),
        Err(fault) => Err(fault.in_text(file, text)),
    }
}

/// Reads definitions up to the end, one at least.
fn read_definitions(alloc: Global, cursor: &mut Cursor<'_>) -> Result<Definitions, Fault>
    ensures reads { ReadsDocument cursor.old cursor.new result }
{
    let mut definitions = Definitions::new(alloc);
    definitions.push(read_definition(alloc, 1, cursor)?)?;
    'definitions: while !cursor.is_at_end() {
        definitions.push(read_definition(alloc, 0, cursor)?)?;
    }
    definitions.items.shrink_to_fit();
    Ok(definitions)
}
