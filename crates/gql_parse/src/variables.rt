//! Definitions of variables (GraphQL, October 2021, section 2.10).
ghost use Rattle.std.specs.Prelude.{◌≡◌, ◌<◌, OnOk};
ghost use Rattle.gql_parse.specs.Documents.{spell_variables_part};
ghost use Rattle.gql_parse.specs.Machine.{called};
ghost use Rattle.gql_parse.specs.Reads.{behind_variables, MayVariable, Reads, spell_variable, variable_at, variables_at};
ghost use Rattle.gql_syntax.specs.Answers.{node_count};
ghost use Rattle.gql_syntax.specs.Nexts.{token_count};
ghost use Rattle.gql_syntax.specs.Reads.{Anywhere};

use gql_syntax::gql_ast::{VariableDef, VariableDefs};
use gql_syntax::{
    Cursor, Fault, expect, read_default, read_directives, read_members, read_name, read_type,
};
use std::alloc::Global;

/// Reads the variables of an operation with their parentheses, where they stand there.
pub(crate) fn read_variables(alloc: Global, cursor: &mut Cursor<'_>) -> Result<VariableDefs, Fault>
    ensures reads { Reads Anywhere called behind_variables (spell_variables_part node_count) (λ vs. vs) cursor.old cursor.new result }
{
    if !cursor.next_is(b'(') {
        return Ok(VariableDefs::new(alloc));
    }
    let items = read_members(alloc, b'(', b')', cursor, read_variable)?;
    Ok(VariableDefs { items })
}

/// Reads the definition of a variable. Where no `$` stands, a fault is reported, also where `)`
/// could stand.
fn read_variable(alloc: Global, cursor: &mut Cursor<'_>) -> Result<VariableDef, Fault>
    ensures reads { Reads MayVariable variables_at variable_at spell_variable (λ v. v) cursor.old cursor.new result }
    ensures taken { OnOk result (token_count cursor.new.source < token_count cursor.old.source) }
{
    expect(cursor, b'$', 1)?;
    let name = read_name(alloc, cursor, 1)?;
    expect(cursor, b':', 0)?;
    let of = read_type(alloc, cursor)?;
    let default = read_default(alloc, cursor)?;
    let directives = read_directives(alloc, true, cursor)?;
    Ok(VariableDef {
        name,
        of,
        default,
        directives,
    })
}
