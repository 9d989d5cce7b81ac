//! What is kept of a definition for look-ups.
ghost use Rattle.std.specs.Prelude.{◌≡◌, map, option_copied, option_map, IfOk};
ghost use Rattle.gql_ast.specs.declared.member.EnumValue.{EnumValue};
ghost use Rattle.gql_graph.specs.gql_plain.Order.{has_text, sorted_texts};
ghost use Rattle.schema_tables.specs.BuiltIn.{defined_directive};
ghost use Rattle.schema_tables.specs.TableParts.{AreFields, AreParts, IsPartOf};
ghost use Rattle.schema_tables.specs.Types as types;

use crate::definitions::{DirectiveDef, FieldDef, InputDefs, TypeFields};
use crate::index::{Index, find_place};
use crate::members::FieldTable;
use crate::places::{InputPlaces, places_of_inputs};
use gql_ast::gql_plain::{Ids, Name, NoMemory};
use gql_ast::{EnumValue, FieldTree, SchemaDef};
use std::alloc::Global;

/// What is kept of a definition.
#[derive(Debug, Drop)]
pub(crate) enum Part {
    /// Of `schema` and of a scalar.
    Bare,
    /// Of an object or an interface: the interfaces that it implements, and its fields.
    Fields {
        interfaces: Index,
        fields: FieldTable,
    },
    /// Of a union: its members.
    Members(Index),
    /// Of an enum: the names of its values.
    Values(Ids),
    /// Of an input object its fields, of a directive its arguments.
    Inputs(InputPlaces),
}

/// What is kept of a definition.
pub(crate) fn part_of_definition(alloc: Global, definition: &SchemaDef) -> Result<Part, NoMemory>
    ensures { IfOk result (IsPartOf definition.now) }
{
    match definition {
        SchemaDef::Schema { .. } => Ok(Part::Bare),
        SchemaDef::Scalar { .. } => Ok(Part::Bare),
        SchemaDef::Object {
            implements,
            fields,
            ..
        } => part_of_fields(alloc, implements.as_slice(), fields.as_slice()),
        SchemaDef::Interface {
            implements,
            fields,
            ..
        } => part_of_fields(alloc, implements.as_slice(), fields.as_slice()),
        SchemaDef::Union { members, .. } => {
            Ok(Part::Members(Index::new(alloc, members.as_slice())?))
        }
        SchemaDef::Enum { values, .. } => {
            Ok(Part::Values(sorted_values(alloc, values.as_slice())?))
        }
        SchemaDef::Input { fields, .. } => {
            Ok(Part::Inputs(places_of_inputs(alloc, fields.as_slice())?))
        }
        SchemaDef::Directive { arguments, .. } => {
            Ok(Part::Inputs(places_of_inputs(alloc, arguments.as_slice())?))
        }
    }
}

/// What is kept of a type with fields.
fn part_of_fields(
    alloc: Global,
    implements: &[Name],
    fields: &[FieldTree],
) -> Result<Part, NoMemory>
    ensures { IfOk result (AreFields implements.now fields.now) }
{
    Ok(Part::Fields {
        interfaces: Index::new(alloc, implements)?,
        fields: FieldTable::new(alloc, fields)?,
    })
}

/// The names of enum values, distinct and in byte order.
fn sorted_values(alloc: Global, values: &[EnumValue]) -> Result<Ids, NoMemory>
    ensures { IfOk result (λ ids. ids ≡ sorted_texts (map (λ (v : EnumValue). v.name) values.now)) }
{
    let mut words = Vec::with_capacity(alloc, values.len())?;
    'values: for value in values {
        words.push(value.name.copy()?)?;
    }
    Ids::sort(words)
}

/// What is kept of each definition.
pub(crate) fn parts_of(alloc: Global, definitions: &[SchemaDef]) -> Result<Vec<Part>, NoMemory>
    ensures { IfOk result (λ parts. AreParts definitions.now parts.items) }
{
    let mut parts = Vec::with_capacity(alloc, definitions.len())?;
    'definitions: for definition in definitions {
        parts.push(part_of_definition(alloc, definition)?)?;
    }
    Ok(parts)
}

/// The field of a name that a definition has.
pub(crate) fn field_in<'a>(
    definition: &'a SchemaDef,
    part: &'a Part,
    name: &str,
) -> Option<FieldDef<'a>>
    requires { IsPartOf definition.now part.now }
    ensures { result ≡ option_map types.field_def (types.field_named (types.fields_of definition.now) name.now) }
{
    match part {
        Part::Fields { fields, .. } => fields.find(fields_of(definition), name),
        _ => None,
    }
}

/// The fields that a definition has, which are found by their names.
pub(crate) fn fields_in<'a>(definition: &'a SchemaDef, part: &'a Part) -> TypeFields<'a>
    requires { IsPartOf definition.now part.now }
    ensures { result ≡ types.fields_of definition.now }
{
    match part {
        Part::Fields { fields, .. } => TypeFields {
            trees: fields_of(definition),
            names: &fields.names.places,
        },
        _ => TypeFields::none(),
    }
}

/// The fields of a definition.
fn fields_of(definition: &SchemaDef) -> &[FieldTree]
    ensures { result.now ≡ types.fields_of definition.now }
{
    match definition {
        SchemaDef::Object { fields, .. } => fields.as_slice(),
        SchemaDef::Interface { fields, .. } => fields.as_slice(),
        _ => &[],
    }
}

/// The input fields that a definition has, where it is an input object.
pub(crate) fn inputs_in<'a>(definition: &'a SchemaDef, part: &'a Part) -> Option<InputDefs<'a>>
    requires { IsPartOf definition.now part.now }
    ensures { result ≡ option_map (map types.input_def) (types.input_fields_of definition.now) }
{
    match definition {
        SchemaDef::Input { fields, .. } => match part {
            Part::Inputs(inputs) => Some(InputDefs {
                trees: fields.as_slice(),
                names: &inputs.names.places,
                required: &inputs.required.places,
            }),
            _ => None,
        },
        _ => None,
    }
}

/// The directive that a definition defines, where it defines one.
pub(crate) fn directive_in<'a>(
    definition: &'a SchemaDef,
    part: &'a Part,
) -> Option<DirectiveDef<'a>>
    requires { IsPartOf definition.now part.now }
    ensures { result ≡ defined_directive definition.now }
{
    match definition {
        SchemaDef::Directive {
            name,
            arguments,
            repeatable,
            locations,
        } => match part {
            Part::Inputs(inputs) => Some(DirectiveDef {
                name,
                trees: arguments.as_slice(),
                names: &inputs.names.places,
                required: &inputs.required.places,
                repeatable: *repeatable,
                locations,
            }),
            _ => None,
        },
        _ => None,
    }
}

/// The names of the values of a definition, where it is an enum, distinct and in byte order.
pub(crate) fn values_in<'a>(_definition: &SchemaDef, part: &'a Part) -> Option<&'a Ids>
    requires { IsPartOf _definition.now part.now }
    ensures { option_copied result ≡ option_map sorted_texts (types.names_in_enum _definition.now) }
{
    match part {
        Part::Values(names) => Some(names),
        _ => None,
    }
}

/// Whether a definition says that it implements an interface.
pub(crate) fn implements_in(definition: &SchemaDef, part: &Part, name: &str) -> bool
    requires { IsPartOf definition.now part.now }
    ensures { result ≡ has_text (types.interfaces_of definition.now) name.now }
{
    match part {
        Part::Fields { interfaces, .. } => {
            find_place(interfaces_of(definition), &interfaces.places, name).is_some()
        }
        _ => false,
    }
}

/// The interfaces that a definition says it implements.
pub(crate) fn interfaces_of(definition: &SchemaDef) -> &[Name]
    ensures { result.now ≡ types.interfaces_of definition.now }
{
    match definition {
        SchemaDef::Object { implements, .. } => implements.as_slice(),
        SchemaDef::Interface { implements, .. } => implements.as_slice(),
        _ => &[],
    }
}

/// Whether a definition is a union that holds a type.
pub(crate) fn holds_in(definition: &SchemaDef, part: &Part, name: &str) -> bool
    requires { IsPartOf definition.now part.now }
    ensures { result ≡ has_text (types.union_members_of definition.now) name.now }
{
    match part {
        Part::Members(members) => {
            find_place(members_of(definition), &members.places, name).is_some()
        }
        _ => false,
    }
}

/// The members of a definition that is a union.
pub(crate) fn members_of(definition: &SchemaDef) -> &[Name]
    ensures { result.now ≡ types.union_members_of definition.now }
{
    match definition {
        SchemaDef::Union { members, .. } => members.as_slice(),
        _ => &[],
    }
}
