//! Fields, which are found by their names.
ghost use Rattle.std.specs.Prelude.{◌≡◌, ◌<◌, length, Some, option_map, slice_get, IfOk, OnOk};
ghost use Rattle.schema_tables.specs.TableParts.{IsFieldTable, IsPutFor};
ghost use Rattle.schema_tables.specs.Types.{field_def, field_named};

use crate::definitions::FieldDef;
use crate::index::{Index, find_place};
use crate::places::{InputPlaces, places_of_inputs};
use gql_ast::FieldTree;
use gql_ast::gql_plain::NoMemory;
use std::alloc::Global;

/// The places of the names of fields and of their arguments.
#[derive(Debug, Drop)]
pub(crate) struct FieldTable {
    pub(crate) names: Index,
    /// For each field the place of what is kept of its arguments, where it has any.
    pub(crate) kept: Vec<usize>,
    pub(crate) arguments: Vec<InputPlaces>,
}

impl FieldTable {
    /// The places of fields.
    pub(crate) fn new(alloc: Global, fields: &[FieldTree]) -> Result<FieldTable, NoMemory>
        ensures { IfOk result (IsFieldTable fields.now) }
    {
        let names = Index::new(alloc, fields)?;
        let mut kept = Vec::with_capacity(alloc, fields.len())?;
        let mut arguments = Vec::with_capacity(alloc, count_with_arguments(fields))?;
        'fields: for field in fields {
            kept.push(arguments.len())?;
            put_arguments(alloc, &mut arguments, field)?;
        }
        Ok(FieldTable {
            names,
            kept,
            arguments,
        })
    }

    /// The field of a name; takes no memory.
    pub(crate) fn find<'a>(&'a self, fields: &'a [FieldTree], name: &str) -> Option<FieldDef<'a>>
        requires { IsFieldTable fields.now self.now }
        ensures { result ≡ option_map field_def (field_named fields.now name.now) }
    {
        match find_place(fields, &self.names.places, name) {
            Some(at) => Some(self.field_at(fields, at)),
            None => None,
        }
    }

    /// The field at a place; takes no memory.
    fn field_at<'a>(&'a self, fields: &'a [FieldTree], at: usize) -> FieldDef<'a>
        requires kept { IsFieldTable fields.now self.now }
        requires within { at < length fields.now }
        ensures { Some result ≡ option_map field_def (slice_get fields.now at) }
    {
        let tree = &fields[at];
        if tree.arguments.is_empty() {
            return FieldDef {
                tree,
                names: &[],
                required: &[],
            };
        }
        let inputs = &self.arguments[self.kept[at]];
        FieldDef {
            tree,
            names: &inputs.names.places,
            required: &inputs.required.places,
        }
    }
}

/// How many fields have arguments.
fn count_with_arguments(fields: &[FieldTree]) -> usize {
    fields
        .iter()
        .filter(|field| !field.arguments.is_empty())
        .count()
}

/// Puts the places of the arguments of a field that has any.
fn put_arguments(
    alloc: Global,
    arguments: &mut Vec<InputPlaces>,
    field: &FieldTree,
) -> Result<(), NoMemory>
    ensures { OnOk result (IsPutFor field.now arguments.old.items arguments.new.items) }
{
    if field.arguments.is_empty() {
        return Ok(());
    }
    let places = places_of_inputs(alloc, field.arguments.as_slice())?;
    arguments.push(places)?;
    Ok(())
}
