//! Schemas are read (GraphQL, October 2021, section 3).
#![tactic(auto)]

mod definitions;
mod inputs;
pub mod laws;
mod lists;
mod members;
mod words;

ghost use Rattle.std.specs.Prelude.{◌≡◌, ◌⊎◌, ◌<◌, ◌-◌, ◌^◌, length, Err, Ok, IfErr, IfOk};
ghost use Rattle.gql_syntax.specs.gql_ast.declared.fault.ParseFault.TheVariants.{NoMemory};
ghost use Rattle.gql_syntax.specs.gql_ast.declared.place.Placed.{Placed};
ghost use Rattle.gql_syntax.specs.gql_ast.declared.schema.SchemaTree.{SchemaTree};
ghost use Rattle.gql_sdl.specs.Schemas.{schemas};
ghost use Rattle.gql_sdl.specs.Trees.{IsSchema};
ghost use Rattle.gql_syntax.specs.Texts.{IsParseFault, TellsText};

use definitions::read_definitions;
use gql_syntax::gql_ast::{ParseFault, Placed, SchemaTree};
use gql_syntax::{Cursor, text_of};
use std::alloc::Global;

/// Reads a schema: its one tree, with the places of its nodes in text order (GraphQL, October 2021,
/// section 3; descriptions are passed over).
///
/// The bytes are the text of the file with this number. The first fault of a text is reported with
/// its place; lists and objects nest at most 60 deep, and so do list types. Bytes that are not UTF-8 are
/// reported at the first line and column. NoMemory may come for any text.
pub fn parse_schema(
    alloc: Global,
    file: u32,
    bytes: &[u8],
) -> Result<Placed<SchemaTree>, ParseFault>
    requires { length bytes.now < 2 ^ 32 - 1 }
    ensures found { IfOk result (IsSchema file bytes.now) }
    ensures only { (p : Placed SchemaTree) → IsSchema file bytes.now p → (result ≡ Err NoMemory) ⊎ (result ≡ Ok p) }
    ensures fault { IfErr result (IsParseFault schemas file bytes.now) }
    ensures text { TellsText bytes.now result }
{
    let text = text_of(file, bytes)?;
    let mut cursor = Cursor::new(alloc, file, text);
    match read_definitions(alloc, &mut cursor) {
        Ok(definitions) => Ok(Placed {
            tree: SchemaTree { definitions },
            places: cursor.into_places(),
        }),
        Err(fault) => Err(fault.in_text(file, text)),
    }
}
