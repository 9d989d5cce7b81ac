//! Fields of types, values of enums, and the roots of a schema (GraphQL, October 2021, sections 3.3.1,
//! 3.6 and 3.9).
ghost use Rattle.std.specs.Prelude.{◌≡◌, ◌∷◌, ◌<◌, ℕ, List, length, map, Some, true, false, OnOk, IfOk, IfErr};
ghost use Rattle.gql_sdl.specs.Machine.{is_reserved};
ghost use Rattle.gql_sdl.specs.Reads.{behind_fields, closed_roots, behind_values, field_at, fields_at, MayField, Named, NoDirective, Reads, root_at, roots_at, spell_named, before_fields, unopened_roots, before_values, value_at, behind_value_name, values_at};
ghost use Rattle.gql_sdl.specs.Schemas.{field_of, spell_enum_value, spell_enum_values_part, spell_field, spell_fields_part, spell_roots, values_of, WrittenValue};
ghost use Rattle.gql_syntax.specs.gql_ast.declared.schema.Root.{Root};
ghost use Rattle.gql_syntax.specs.Answers.{Misses, node_count};
ghost use Rattle.gql_syntax.specs.Nexts.{behind, next_word, stopped_at, token_count};
ghost use Rattle.gql_syntax.specs.Places.{lay};

use crate::inputs::{read_inputs, read_member_name};
use crate::words::is_reserved_word;
use gql_syntax::gql_ast::{EnumValue, EnumValues, FieldTree, FieldTrees, Root, Roots};
use gql_syntax::gql_plain::Name;
use gql_syntax::{
    Cursor, Fault, expect, kind_of, read_directives, read_members, read_name, read_type,
};
use std::alloc::Global;

/// Reads the definition of a field.
fn read_field(alloc: Global, cursor: &mut Cursor<'_>) -> Result<FieldTree, Fault>
    ensures reads { Reads MayField fields_at field_at (spell_field node_count) field_of cursor.old cursor.new result }
    ensures taken { OnOk result (token_count cursor.new.source < token_count cursor.old.source) }
{
    let name = read_member_name(alloc, cursor)?;
    let arguments = read_inputs(alloc, b'(', b')', cursor)?;
    expect(cursor, b':', 0)?;
    let of = read_type(alloc, cursor)?;
    let directives = read_directives(alloc, true, cursor)?;
    Ok(FieldTree {
        name,
        arguments,
        of,
        directives,
    })
}

/// Reads the fields of an object or an interface in braces, where `{` stands.
pub(crate) fn read_fields(alloc: Global, cursor: &mut Cursor<'_>) -> Result<FieldTrees, Fault>
    ensures reads { Reads NoDirective before_fields behind_fields (spell_fields_part node_count) (map field_of) cursor.old cursor.new result }
{
    if !cursor.next_is(b'{') {
        return Ok(FieldTrees::new(alloc));
    }
    let items = read_members(alloc, b'{', b'}', cursor, read_field)?;
    Ok(FieldTrees { items })
}

/// Reads the name of a value of an enum after its description.
fn read_enum_name(alloc: Global, cursor: &mut Cursor<'_>) -> Result<Name, Fault>
    ensures name { IfOk result (λ n. next_word cursor.old.source ≡ Some n) }
    ensures free { IfOk result (λ n. is_reserved n ≡ false) }
    ensures source { OnOk result (cursor.new.source ≡ behind cursor.old.source) }
    ensures places { OnOk result ((ns : List ℕ) → lay (2 ∷ ns) cursor.old ≡ lay ns cursor.new) }
    ensures same { OnOk result (cursor.new.text ≡ cursor.old.text) }
    ensures fault { IfErr result (λ f. Misses f ((n : List ℕ) → next_word cursor.old.source ≡ Some n → is_reserved n ≡ true) (stopped_at (length cursor.old.text) cursor.old.source)) }
{
    let Some(word) = cursor.next_word() else {
        return Err(cursor.fault());
    };
    if is_reserved_word(word) {
        return Err(cursor.fault());
    }
    read_name(alloc, cursor, 2)
}

/// Reads the name of a value of an enum, with the description that may stand before it.
fn read_value_name(alloc: Global, cursor: &mut Cursor<'_>) -> Result<Name, Fault>
    ensures reads { Reads MayField values_at behind_value_name spell_named (λ (w : Named). w.title) cursor.old cursor.new result }
    ensures taken { OnOk result (token_count cursor.new.source < token_count cursor.old.source) }
{
    if !cursor.next_is_text() {
        return read_enum_name(alloc, cursor);
    }
    cursor.skip(0)?;
    read_enum_name(alloc, cursor)
}

/// Reads the definition of a value of an enum.
fn read_enum_value(alloc: Global, cursor: &mut Cursor<'_>) -> Result<EnumValue, Fault>
    ensures reads { Reads MayField values_at value_at (spell_enum_value node_count) (λ (w : WrittenValue). w.value) cursor.old cursor.new result }
    ensures taken { OnOk result (token_count cursor.new.source < token_count cursor.old.source) }
{
    let name = read_value_name(alloc, cursor)?;
    let directives = read_directives(alloc, true, cursor)?;
    Ok(EnumValue { name, directives })
}

/// Reads the values of an enum in braces, where `{` stands.
pub(crate) fn read_enum_values(alloc: Global, cursor: &mut Cursor<'_>) -> Result<EnumValues, Fault>
    ensures reads { Reads NoDirective before_values behind_values (spell_enum_values_part node_count) values_of cursor.old cursor.new result }
{
    if !cursor.next_is(b'{') {
        return Ok(EnumValues::new(alloc));
    }
    let items = read_members(alloc, b'{', b'}', cursor, read_enum_value)?;
    Ok(EnumValues { items })
}

/// Reads the object type of the operations of a kind.
fn read_root(alloc: Global, cursor: &mut Cursor<'_>) -> Result<Root, Fault>
    ensures reads { Reads MayField roots_at root_at (λ (r : Root) (ns : List ℕ). 1 ∷ 0 ∷ 1 ∷ ns) (λ r. r) cursor.old cursor.new result }
    ensures taken { OnOk result (token_count cursor.new.source < token_count cursor.old.source) }
{
    let Some(word) = cursor.next_word() else {
        return Err(cursor.fault());
    };
    let Some(kind) = kind_of(word) else {
        return Err(cursor.fault());
    };
    cursor.skip(1)?;
    expect(cursor, b':', 0)?;
    let name = read_name(alloc, cursor, 1)?;
    Ok(Root { kind, name })
}

/// Reads one or more roots in braces.
pub(crate) fn read_roots(alloc: Global, cursor: &mut Cursor<'_>) -> Result<Roots, Fault>
    ensures reads { Reads NoDirective unopened_roots closed_roots (λ (rs : List Root) (ns : List ℕ). 0 ∷ spell_roots node_count rs (0 ∷ ns)) (λ rs. rs) cursor.old cursor.new result }
{
    let items = read_members(alloc, b'{', b'}', cursor, read_root)?;
    Ok(Roots { items })
}
