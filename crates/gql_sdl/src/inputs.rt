//! Definitions of arguments and of fields of input objects (GraphQL, October 2021, sections 3.6.1 and
//! 3.10).
ghost use Rattle.std.specs.Prelude.{◌≡◌, ◌∷◌, [], ◌<◌, ℕ, List, None, false, OnOk};
ghost use Rattle.gql_sdl.specs.Machine.{after_inputs, inputs, Inputs};
ghost use Rattle.gql_sdl.specs.Reads.{input_at, inputs_at, MayClose, MayInput, MayName, MayOpen, Named, name_member, open_member, Reads, spell_named, before_inputs};
ghost use Rattle.gql_sdl.specs.Schemas.{inputs_of, spell_argument_defs, spell_input, spell_inputs, WrittenInput};
ghost use Rattle.gql_syntax.specs.Answers.{node_count};
ghost use Rattle.gql_syntax.specs.Nexts.{next_is, token_count};

use gql_syntax::gql_ast::{InputTree, InputTrees};
use gql_syntax::gql_plain::Name;
use gql_syntax::{
    Cursor, Fault, expect, read_default, read_directives, read_members, read_name, read_type,
};
use std::alloc::Global;

/// Reads the name of a member, with the description that may stand before it (section 3.2).
pub(crate) fn read_member_name(alloc: Global, cursor: &mut Cursor<'_>) -> Result<Name, Fault>
    ensures reads { Reads MayName (λ k. open_member k None) name_member spell_named (λ (w : Named). w.title) cursor.old cursor.new result }
    ensures taken { OnOk result (token_count cursor.new.source < token_count cursor.old.source) }
{
    if !cursor.next_is_text() {
        return read_name(alloc, cursor, 2);
    }
    cursor.skip(0)?;
    read_name(alloc, cursor, 2)
}

/// Reads the definition of an argument, or of a field of an input object.
fn read_input(alloc: Global, cursor: &mut Cursor<'_>) -> Result<InputTree, Fault>
    ensures reads { Reads MayInput inputs_at input_at (spell_input node_count) (λ (w : WrittenInput). w.input) cursor.old cursor.new result }
    ensures taken { OnOk result (token_count cursor.new.source < token_count cursor.old.source) }
{
    let name = read_member_name(alloc, cursor)?;
    expect(cursor, b':', 0)?;
    let of = read_type(alloc, cursor)?;
    let default = read_default(alloc, cursor)?;
    let directives = read_directives(alloc, true, cursor)?;
    Ok(InputTree {
        name,
        of,
        default,
        directives,
    })
}

/// Reads one or more definitions between two punctuators, where the first one stands.
pub(crate) fn read_inputs(
    alloc: Global,
    opening: u8,
    closing: u8,
    cursor: &mut Cursor<'_>,
) -> Result<InputTrees, Fault>
    ensures reads { Reads (MayOpen opening closing) before_inputs after_inputs (spell_argument_defs node_count) inputs_of cursor.old cursor.new result }
{
    if !cursor.next_is(opening) {
        return Ok(InputTrees::new(alloc));
    }
    let items = read_members(alloc, opening, closing, cursor, read_input)?;
    Ok(InputTrees { items })
}
