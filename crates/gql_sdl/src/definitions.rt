//! The definitions of a schema (GraphQL, October 2021, sections 3.3 to 3.13).
ghost use Rattle.std.specs.Prelude.{◌≡◌, ◌<◌, ◌∷◌, ℕ, List, Some, OnOk, codes};
ghost use Rattle.gql_sdl.specs.Machine.{head};
ghost use Rattle.gql_sdl.specs.Reads.{Begins, behind_all, behind_definition, fielded_end, fielded_head, fielded_of, MayDefine, MayDescribe, MayFielded, Reads, ReadsSchema, spell_definition, spell_fielded, whole};
ghost use Rattle.gql_sdl.specs.Schemas.{definition_of, spell_written, written_of};
ghost use Rattle.gql_syntax.specs.Answers.{node_count};
ghost use Rattle.gql_syntax.specs.Nexts.{next_word, token_count};

use crate::inputs::read_inputs;
use crate::lists::{read_implements, read_locations, read_repeatable, read_union_members};
use crate::members::{read_enum_values, read_fields, read_roots};
use gql_syntax::gql_ast::{Directives, FieldTrees, Names, SchemaDef, SchemaDefs};
use gql_syntax::gql_plain::Name;
use gql_syntax::{Cursor, Fault, expect, read_directives, read_name};
use std::alloc::Global;

/// Reads one or more definitions, and the end of the text.
pub(crate) fn read_definitions(alloc: Global, cursor: &mut Cursor<'_>) -> Result<SchemaDefs, Fault>
    ensures reads { ReadsSchema cursor.old cursor.new result }
{
    let mut definitions = SchemaDefs::new(alloc);
    let first = read_definition(alloc, 2, cursor)?;
    definitions.push(first)?;
    'definitions: while !cursor.is_at_end() {
        let definition = read_definition(alloc, 1, cursor)?;
        definitions.push(definition)?;
    }
    definitions.items.shrink_to_fit();
    Ok(definitions)
}

/// Reads a definition with the description that may stand before it. So many nodes begin at its
/// first token.
fn read_definition(alloc: Global, nodes: usize, cursor: &mut Cursor<'_>) -> Result<SchemaDef, Fault>
    ensures reads { Reads MayDefine behind_all behind_definition (spell_definition nodes) definition_of cursor.old cursor.new result }
    ensures taken { OnOk result (token_count cursor.new.source < token_count cursor.old.source) }
{
    if cursor.next_is_text() {
        cursor.skip(nodes)?;
        return read_described(alloc, 0, cursor);
    }
    read_described(alloc, nodes, cursor)
}

/// Reads a definition after its description. So many nodes begin at its word.
fn read_described(alloc: Global, nodes: usize, cursor: &mut Cursor<'_>) -> Result<SchemaDef, Fault>
    ensures reads { Reads MayDescribe head whole (spell_written node_count nodes) written_of cursor.old cursor.new result }
    ensures taken { OnOk result (token_count cursor.new.source < token_count cursor.old.source) }
{
    let Some(word) = cursor.next_word() else {
        return Err(cursor.fault());
    };
    if word == "schema" {
        return read_schema(alloc, nodes, cursor);
    }
    if word == "scalar" {
        return read_scalar(alloc, nodes, cursor);
    }
    if word == "type" {
        return read_object(alloc, nodes, cursor);
    }
    if word == "interface" {
        return read_interface(alloc, nodes, cursor);
    }
    if word == "union" {
        return read_union(alloc, nodes, cursor);
    }
    if word == "enum" {
        return read_enum(alloc, nodes, cursor);
    }
    if word == "input" {
        return read_input_object(alloc, nodes, cursor);
    }
    if word == "directive" {
        return read_directive_definition(alloc, nodes, cursor);
    }
    Err(cursor.fault())
}

/// Reads the definition of a schema (section 3.3).
fn read_schema(alloc: Global, nodes: usize, cursor: &mut Cursor<'_>) -> Result<SchemaDef, Fault>
    requires { next_word cursor.old.source ≡ Some (codes "schema") }
    ensures reads { Reads (Begins (codes "schema")) head whole (spell_written node_count nodes) written_of cursor.old cursor.new result }
    ensures taken { OnOk result (token_count cursor.new.source < token_count cursor.old.source) }
{
    cursor.skip(nodes)?;
    let directives = read_directives(alloc, true, cursor)?;
    let roots = read_roots(alloc, cursor)?;
    Ok(SchemaDef::Schema { directives, roots })
}

/// Reads the definition of a scalar type (section 3.5).
fn read_scalar(alloc: Global, nodes: usize, cursor: &mut Cursor<'_>) -> Result<SchemaDef, Fault>
    ensures reads { Reads (Begins (codes "scalar")) head whole (spell_written node_count nodes) written_of cursor.old cursor.new result }
    ensures taken { OnOk result (token_count cursor.new.source < token_count cursor.old.source) }
{
    cursor.skip(nodes)?;
    let name = read_name(alloc, cursor, 1)?;
    let directives = read_directives(alloc, true, cursor)?;
    Ok(SchemaDef::Scalar { name, directives })
}

/// What is said of a type with fields.
#[derive(Drop)]
pub(crate) struct TypeWithFields {
    pub(crate) name: Name,
    pub(crate) implements: Names,
    pub(crate) directives: Directives,
    pub(crate) fields: FieldTrees,
}

/// Reads an object or an interface (sections 3.6 and 3.7), at whose word so many nodes begin.
fn read_fielded(
    alloc: Global,
    nodes: usize,
    cursor: &mut Cursor<'_>,
) -> Result<TypeWithFields, Fault>
    ensures reads { Reads MayFielded fielded_head fielded_end (spell_fielded nodes) fielded_of cursor.old cursor.new result }
    ensures taken { OnOk result (token_count cursor.new.source < token_count cursor.old.source) }
{
    cursor.skip(nodes)?;
    let name = read_name(alloc, cursor, 1)?;
    let implements = read_implements(alloc, cursor)?;
    let directives = read_directives(alloc, true, cursor)?;
    let fields = read_fields(alloc, cursor)?;
    Ok(TypeWithFields {
        name,
        implements,
        directives,
        fields,
    })
}

/// Reads the definition of an object type (section 3.6).
fn read_object(alloc: Global, nodes: usize, cursor: &mut Cursor<'_>) -> Result<SchemaDef, Fault>
    ensures reads { Reads (Begins (codes "type")) head whole (spell_written node_count nodes) written_of cursor.old cursor.new result }
    ensures taken { OnOk result (token_count cursor.new.source < token_count cursor.old.source) }
{
    let of = read_fielded(alloc, nodes, cursor)?;
    Ok(SchemaDef::Object {
        name: of.name,
        implements: of.implements,
        directives: of.directives,
        fields: of.fields,
    })
}

/// Reads the definition of an interface type (section 3.7).
fn read_interface(alloc: Global, nodes: usize, cursor: &mut Cursor<'_>) -> Result<SchemaDef, Fault>
    ensures reads { Reads (Begins (codes "interface")) head whole (spell_written node_count nodes) written_of cursor.old cursor.new result }
    ensures taken { OnOk result (token_count cursor.new.source < token_count cursor.old.source) }
{
    let of = read_fielded(alloc, nodes, cursor)?;
    Ok(SchemaDef::Interface {
        name: of.name,
        implements: of.implements,
        directives: of.directives,
        fields: of.fields,
    })
}

/// Reads the definition of a union type (section 3.8).
fn read_union(alloc: Global, nodes: usize, cursor: &mut Cursor<'_>) -> Result<SchemaDef, Fault>
    ensures reads { Reads (Begins (codes "union")) head whole (spell_written node_count nodes) written_of cursor.old cursor.new result }
    ensures taken { OnOk result (token_count cursor.new.source < token_count cursor.old.source) }
{
    cursor.skip(nodes)?;
    let name = read_name(alloc, cursor, 1)?;
    let directives = read_directives(alloc, true, cursor)?;
    let members = read_union_members(alloc, cursor)?;
    Ok(SchemaDef::Union {
        name,
        directives,
        members,
    })
}

/// Reads the definition of an enum type (section 3.9).
fn read_enum(alloc: Global, nodes: usize, cursor: &mut Cursor<'_>) -> Result<SchemaDef, Fault>
    ensures reads { Reads (Begins (codes "enum")) head whole (spell_written node_count nodes) written_of cursor.old cursor.new result }
    ensures taken { OnOk result (token_count cursor.new.source < token_count cursor.old.source) }
{
    cursor.skip(nodes)?;
    let name = read_name(alloc, cursor, 1)?;
    let directives = read_directives(alloc, true, cursor)?;
    let values = read_enum_values(alloc, cursor)?;
    Ok(SchemaDef::Enum {
        name,
        directives,
        values,
    })
}

/// Reads the definition of an input object type (section 3.10).
fn read_input_object(
    alloc: Global,
    nodes: usize,
    cursor: &mut Cursor<'_>,
) -> Result<SchemaDef, Fault>
    ensures reads { Reads (Begins (codes "input")) head whole (spell_written node_count nodes) written_of cursor.old cursor.new result }
    ensures taken { OnOk result (token_count cursor.new.source < token_count cursor.old.source) }
{
    cursor.skip(nodes)?;
    let name = read_name(alloc, cursor, 1)?;
    let directives = read_directives(alloc, true, cursor)?;
    let fields = read_inputs(alloc, b'{', b'}', cursor)?;
    Ok(SchemaDef::Input {
        name,
        directives,
        fields,
    })
}

/// Reads the definition of a directive (section 3.13).
fn read_directive_definition(
    alloc: Global,
    nodes: usize,
    cursor: &mut Cursor<'_>,
) -> Result<SchemaDef, Fault>
    ensures reads { Reads (Begins (codes "directive")) head whole (spell_written node_count nodes) written_of cursor.old cursor.new result }
    ensures taken { OnOk result (token_count cursor.new.source < token_count cursor.old.source) }
{
    cursor.skip(nodes)?;
    expect(cursor, b'@', 0)?;
    let name = read_name(alloc, cursor, 1)?;
    let arguments = read_inputs(alloc, b'(', b')', cursor)?;
    let repeatable = read_repeatable(cursor)?;
    let locations = read_locations(alloc, cursor)?;
    Ok(SchemaDef::Directive {
        name,
        arguments,
        repeatable,
        locations,
    })
}
