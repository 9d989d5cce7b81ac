//! Selection sets (GraphQL, October 2021, sections 2.4 to 2.8).
ghost use Rattle.std.specs.Prelude.{◌≡◌, ◌+◌, ◌<◌, ◌∷◌, ℕ, List, IfOk, OnOk};
ghost use Rattle.gql_syntax.specs.gql_ast.Sels.{Sels};
ghost use Rattle.gql_parse.specs.Documents.{SomeSelection, spell_set};
ghost use Rattle.gql_parse.specs.Machine.{set};
ghost use Rattle.gql_parse.specs.Reads.{before_field_set, before_inline, before_set, behind_field_set, behind_inline, behind_set, BeginsSpread, empty_set, behind_field_name, inline_of, MayField, MaySelect, MaySet, Reads, selection_at, set_at, spell_closed, spell_field_name, spell_inline_parts, spell_selection};
ghost use Rattle.gql_syntax.specs.Answers.{node_count};
ghost use Rattle.gql_syntax.specs.Nexts.{token_count};
ghost use Rattle.gql_syntax.specs.Reads.{Anywhere, NoDirective};

use gql_syntax::arguments::read_call;
use gql_syntax::gql_ast::{Selection, Selections};
use gql_syntax::gql_plain::Name;
use gql_syntax::{Cursor, Fault, read_directives, read_name};
use std::alloc::Global;

/// Reads a selection set, at whose `{` so many nodes begin. So many sets may be opened in what it
/// stands in.
#[cycle(selections)]
pub(crate) fn read_set(
    alloc: Global,
    room: u32,
    nodes: usize,
    cursor: &mut Cursor<'_>,
) -> Result<Selections, Fault>
    ensures reads { Reads (MaySet room) (before_set room) (behind_set room) (λ (s : Sels) (ns : List ℕ). nodes ∷ spell_closed s ns) (λ s. s) cursor.old cursor.new result }
    ensures some { IfOk result SomeSelection }
    ensures taken { OnOk result (token_count cursor.new.source < token_count cursor.old.source) }
{
    if !cursor.next_is(b'{') {
        return Err(cursor.fault());
    }
    if room == 0 {
        return Err(cursor.too_deep());
    }
    cursor.skip(nodes)?;
    read_selections(alloc, room - 1, cursor)
}

/// Reads the selections of a set, after its `{`, and its `}`.
#[cycle(selections)]
fn read_selections(alloc: Global, room: u32, cursor: &mut Cursor<'_>) -> Result<Selections, Fault>
    ensures reads { Reads Anywhere (empty_set room) (behind_set (room + 1)) spell_closed (λ s. s) cursor.old cursor.new result }
    ensures some { IfOk result SomeSelection }
{
    if cursor.next_is(b'}') {
        return Err(cursor.fault());
    }
    let mut selections = Selections::new(alloc);
    'selections: loop {
        let selection = read_selection(alloc, room, cursor)?;
        selections.push(selection)?;
        if cursor.next_is(b'}') {
            cursor.skip(0)?;
            selections.items.shrink_to_fit();
            return Ok(selections);
        }
    }
}

/// Reads a field, a fragment spread or an inline fragment.
#[cycle(selections)]
fn read_selection(alloc: Global, room: u32, cursor: &mut Cursor<'_>) -> Result<Selection, Fault>
    ensures reads { Reads MaySelect (set_at room) (selection_at room) spell_selection (λ x. x) cursor.old cursor.new result }
    ensures taken { OnOk result (token_count cursor.new.source < token_count cursor.old.source) }
{
    if cursor.next_is(b'.') {
        return read_spread(alloc, room, cursor);
    }
    read_field(alloc, room, cursor)
}

/// Reads a field (section 2.5).
#[cycle(selections)]
fn read_field(alloc: Global, room: u32, cursor: &mut Cursor<'_>) -> Result<Selection, Fault>
    ensures reads { Reads MayField (set_at room) (selection_at room) spell_selection (λ x. x) cursor.old cursor.new result }
    ensures taken { OnOk result (token_count cursor.new.source < token_count cursor.old.source) }
{
    let FieldName { alias, name } = read_field_name(alloc, cursor)?;
    let arguments = read_call(alloc, false, cursor)?;
    let directives = read_directives(alloc, false, cursor)?;
    let selections = read_optional_set(alloc, room, cursor)?;
    Ok(Selection::Field {
        alias,
        name,
        arguments,
        directives,
        selections,
    })
}

/// The name of a field, and its alias where it has one (section 2.7).
struct FieldName {
    alias: Option<Name>,
    name: Name,
}

/// Reads the name of a field, with its alias.
fn read_field_name(alloc: Global, cursor: &mut Cursor<'_>) -> Result<FieldName, Fault>
    ensures reads { Reads MayField set behind_field_name spell_field_name (λ f. f) cursor.old cursor.new result }
    ensures taken { OnOk result (token_count cursor.new.source < token_count cursor.old.source) }
{
    let first = read_name(alloc, cursor, 2)?;
    if !cursor.next_is(b':') {
        return Ok(FieldName {
            alias: None,
            name: first,
        });
    }
    cursor.skip(0)?;
    let name = read_name(alloc, cursor, 1)?;
    Ok(FieldName {
        alias: Some(first),
        name,
    })
}

/// Reads the selection set of a field, where one stands there.
#[cycle(selections)]
fn read_optional_set(alloc: Global, room: u32, cursor: &mut Cursor<'_>) -> Result<Selections, Fault>
    ensures reads { Reads NoDirective (before_field_set room) (behind_field_set room) (spell_set node_count) (λ s. s) cursor.old cursor.new result }
{
    if !cursor.next_is(b'{') {
        return Ok(Selections::new(alloc));
    }
    read_set(alloc, room, 0, cursor)
}

/// Reads a fragment spread (section 2.8) or an inline fragment (section 2.8.2), at its `...`.
#[cycle(selections)]
fn read_spread(alloc: Global, room: u32, cursor: &mut Cursor<'_>) -> Result<Selection, Fault>
    ensures reads { Reads BeginsSpread (set_at room) (selection_at room) spell_selection (λ x. x) cursor.old cursor.new result }
    ensures taken { OnOk result (token_count cursor.new.source < token_count cursor.old.source) }
{
    cursor.skip(1)?;
    let Some(word) = cursor.next_word() else {
        return read_inline(alloc, room, None, cursor);
    };
    if word == "on" {
        cursor.skip(0)?;
        let on = read_name(alloc, cursor, 1)?;
        return read_inline(alloc, room, Some(on), cursor);
    }
    let name = read_name(alloc, cursor, 1)?;
    let directives = read_directives(alloc, false, cursor)?;
    Ok(Selection::Spread { name, directives })
}

/// Reads the rest of an inline fragment, after its type condition.
#[cycle(selections)]
fn read_inline(
    alloc: Global,
    room: u32,
    on: Option<Name>,
    cursor: &mut Cursor<'_>,
) -> Result<Selection, Fault>
    ensures reads { Reads Anywhere (before_inline room on) (behind_inline room on) spell_inline_parts (inline_of on) cursor.old cursor.new result }
    ensures taken { OnOk result (token_count cursor.new.source < token_count cursor.old.source) }
{
    let directives = read_directives(alloc, false, cursor)?;
    let selections = read_set(alloc, room, 0, cursor)?;
    Ok(Selection::Inline {
        on,
        directives,
        selections,
    })
}
