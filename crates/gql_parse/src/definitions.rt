//! Operations and fragments (GraphQL, October 2021, sections 2.2, 2.3 and 2.8).
ghost use Rattle.std.specs.Prelude.{◌≡◌, ◌<◌, ◌≤◌, ◌∷◌, ℕ, List, OnOk};
ghost use Rattle.gql_parse.specs.Documents.{definition_of, spell_definition, spell_fragment_body, spell_operation_body, spell_optional_name, Written};
ghost use Rattle.gql_parse.specs.Machine.{between, fragment_begun, fragment_named, kinded};
ghost use Rattle.gql_parse.specs.Reads.{BeginsSet, kinded_at, behind_operation_name, Reads, behind_definition, behind_fragment, behind_operation};
ghost use Rattle.gql_syntax.specs.Answers.{node_count};
ghost use Rattle.gql_syntax.specs.Nexts.{token_count};
ghost use Rattle.gql_syntax.specs.Reads.{Anywhere, MayDefine};

use crate::selections::read_set;
use crate::variables::read_variables;
use gql_syntax::gql_ast::{Definition, Directives, Fragment, Kind, Operation, VariableDefs};
use gql_syntax::gql_plain::Name;
use gql_syntax::{Cursor, Fault, NESTING_LIMIT, expect_word, kind_of, read_directives, read_name};
use std::alloc::Global;

/// Reads a definition, with which so many nodes begin already.
pub(crate) fn read_definition(
    alloc: Global,
    first: usize,
    cursor: &mut Cursor<'_>,
) -> Result<Definition, Fault>
    requires { first ≤ 1 }
    ensures reads { Reads MayDefine between behind_definition (spell_definition node_count first) definition_of cursor.old cursor.new result }
    ensures taken { OnOk result (token_count cursor.new.source < token_count cursor.old.source) }
{
    if cursor.next_is(b'{') {
        return read_bare(alloc, first, cursor);
    }
    let Some(word) = cursor.next_word() else {
        return Err(cursor.fault());
    };
    if word == "fragment" {
        cursor.skip(first + 2)?;
        return Ok(Definition::Fragment(read_fragment(alloc, cursor)?));
    }
    let Some(kind) = kind_of(word) else {
        return Err(cursor.fault());
    };
    cursor.skip(first + 2)?;
    Ok(Definition::Operation(read_operation(alloc, kind, cursor)?))
}

/// Reads a selection set alone: a query without a name.
fn read_bare(alloc: Global, first: usize, cursor: &mut Cursor<'_>) -> Result<Definition, Fault>
    requires { first ≤ 1 }
    ensures reads { Reads BeginsSet between behind_definition (spell_definition node_count first) definition_of cursor.old cursor.new result }
    ensures taken { OnOk result (token_count cursor.new.source < token_count cursor.old.source) }
{
    let selections = read_set(alloc, NESTING_LIMIT, first + 2, cursor)?;
    Ok(Definition::Operation(Operation {
        kind: Kind::Query,
        name: None,
        variables: VariableDefs::new(alloc),
        directives: Directives::new(alloc),
        selections,
    }))
}

/// Reads an operation, after its kind (section 2.3).
fn read_operation(alloc: Global, kind: Kind, cursor: &mut Cursor<'_>) -> Result<Operation, Fault>
    ensures reads { Reads Anywhere (λ (ws : List Written). kinded ws kind) behind_operation (spell_operation_body node_count) (λ o. o) cursor.old cursor.new result }
{
    let name = read_optional_name(alloc, cursor)?;
    let variables = read_variables(alloc, cursor)?;
    let directives = read_directives(alloc, false, cursor)?;
    let selections = read_set(alloc, NESTING_LIMIT, 0, cursor)?;
    Ok(Operation {
        kind,
        name,
        variables,
        directives,
        selections,
    })
}

/// Reads the name of an operation, where one stands there.
fn read_optional_name(alloc: Global, cursor: &mut Cursor<'_>) -> Result<Option<Name>, Fault>
    ensures reads { Reads Anywhere kinded_at behind_operation_name (spell_optional_name node_count) (λ n. n) cursor.old cursor.new result }
{
    if cursor.next_word().is_none() {
        return Ok(None);
    }
    Ok(Some(read_name(alloc, cursor, 1)?))
}

/// Reads a fragment, after its `fragment` (section 2.8).
fn read_fragment(alloc: Global, cursor: &mut Cursor<'_>) -> Result<Fragment, Fault>
    ensures reads { Reads Anywhere fragment_begun behind_fragment (spell_fragment_body node_count) (λ f. f) cursor.old cursor.new result }
{
    let name = read_fragment_name(alloc, cursor)?;
    expect_word(cursor, "on", 0)?;
    let on = read_name(alloc, cursor, 1)?;
    let directives = read_directives(alloc, false, cursor)?;
    let selections = read_set(alloc, NESTING_LIMIT, 0, cursor)?;
    Ok(Fragment {
        name,
        on,
        directives,
        selections,
    })
}

/// Reads the name of a fragment: a Name but `on`.
fn read_fragment_name(alloc: Global, cursor: &mut Cursor<'_>) -> Result<Name, Fault>
    ensures reads { Reads Anywhere fragment_begun fragment_named (λ (n : List ℕ) (ns : List ℕ). 1 ∷ ns) (λ n. n) cursor.old cursor.new result }
{
    let Some(word) = cursor.next_word() else {
        return Err(cursor.fault());
    };
    if word == "on" {
        return Err(cursor.fault());
    }
    read_name(alloc, cursor, 1)
}
