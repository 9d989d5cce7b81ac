//! The type around selections (GraphQL, October 2021, section 5.3.1).
ghost use Rattle.std.specs.Prelude.{◌≡◌, Some, option_copied};
ghost use Rattle.schema_types.specs.Sites as sites;
ghost use Rattle.doc_sites.specs.Firsts.{around_inside};

use schema_types::type_forms::base_of;
use schema_types::{Name, Schema, Selection};

/// The name of the type of `__typename`, which each composite type has (section 4.1).
fn typename_on<'a>(schema: &Schema, of: &str) -> Option<&'a str>
    ensures { option_copied result ≡ sites.below schema.now (Some of.now) sites.typename }
{
    if schema.is_composite(of) {
        Some("String")
    } else {
        None
    }
}

/// The name of the type of a field on a type that is known. Takes no memory.
pub fn below_on<'a>(schema: &'a Schema, of: &str, name: &str) -> Option<&'a str>
    ensures { option_copied result ≡ sites.below schema.now (Some of.now) name.now }
{
    if name == "__typename" {
        return typename_on(schema, of);
    }
    match schema.field(of, name) {
        Some(field) => Some(base_of(field.of())),
        None => None,
    }
}

/// The type around the selections of a field: the name of the type of the field, where the type
/// around it is known and has it (section 5.3.1). Takes no memory.
pub fn below<'a>(schema: &'a Schema, around: Option<&str>, name: &str) -> Option<&'a str>
    ensures { option_copied result ≡ sites.below schema.now (option_copied around.entry) name.now }
{
    match around {
        Some(of) => below_on(schema, of, name),
        None => None,
    }
}

/// The type around the selections of an inline fragment (section 2.8.2).
fn condition_or<'a>(around: Option<&'a str>, on: &'a Option<Name>) -> Option<&'a str>
    ensures { option_copied result ≡ sites.condition_or (option_copied around.entry) on.now }
{
    match on {
        Some(name) => Some(name.as_str()),
        None => around,
    }
}

/// The type around the selections inside a selection.
pub(crate) fn around_inside<'a>(
    schema: &'a Schema,
    around: Option<&'a str>,
    selection: &'a Selection,
) -> Option<&'a str>
    ensures { option_copied result ≡ around_inside schema.now (option_copied around.entry) selection.now }
{
    match selection {
        Selection::Field { name, .. } => below(schema, around, name.as_str()),
        Selection::Spread { .. } => around,
        Selection::Inline { on, .. } => condition_or(around, on),
    }
}
