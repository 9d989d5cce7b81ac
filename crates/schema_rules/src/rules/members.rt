//! S9, members (GraphQL, October 2021, sections 3.6 to 3.10): objects, interfaces, inputs and enums
//! have a member; unions have one, and all are object types. `type Query` breaks it at `Query`.
//!
//! S11, defaults (section 3.6.1): default values fit. `type Query { team(size: Int = "2"): Int }`
//! breaks it at `size`.
ghost use Rattle.std.specs.Prelude.{◌≡◌, [], ◌∷◌, ◌++◌, map, OnOk};
ghost use Rattle.gql_graph.specs.Leasts.{least_from};
ghost use Rattle.schema_trees.specs.Located as located;
ghost use Rattle.schema_trees.specs.LocatedView.{name_of, input_of, def_of};
ghost use Rattle.schema_rules.specs.Rules as rules;
ghost use Rattle.schema_trees.specs.schema_tables.Types as types;

use gql_graph::gql_plain::NoMemory;
use gql_graph::least::Least;
use schema_trees::located::{DefAt, InputAt, NameAt};
use schema_trees::schema_tables::kind::TypeKind;
use schema_trees::schema_tables::tables::Tables;
use std::alloc::Global;

/// Whether a type is an object.
pub(crate) fn is_object(tables: &Tables, name: &str) -> bool
    ensures { result ≡ rules.is_object tables.now name.now }
{
    match tables.kind_of(name) {
        Some(kind) => is_object_kind(kind),
        None => false,
    }
}

/// Whether a kind is that of objects.
fn is_object_kind(kind: TypeKind) -> bool
    ensures { result ≡ types.is_object_kind kind }
{
    match kind {
        TypeKind::Object => true,
        TypeKind::Scalar | TypeKind::Interface | TypeKind::Union => false,
        TypeKind::Enum | TypeKind::Input => false,
    }
}

/// Notes names that are none of object types.
#[tactic(auto, using(gql_graph::proofs::LeastSteps::noting))]
pub(crate) fn note_not_objects(tables: &Tables, least: &mut Least, names: &[NameAt<'_>])
    ensures { least.new.at ≡ least_from least.old.at (rules.each (rules.not_object tables.now) (map name_of names.now)) }
{
    'names: for name in names {
        least.note_if(!is_object(tables, name.name), name.at);
    }
}

/// S9: objects, interfaces, inputs and enums have a member; unions have one, and all their members
/// are object types (GraphQL, October 2021, sections 3.6 to 3.10).
#[tactic(auto, using(gql_graph::proofs::LeastSteps::noting))]
pub(crate) fn members_missing(tables: &Tables, least: &mut Least, definitions: &[DefAt<'_>])
    ensures { least.new.at ≡ least_from least.old.at (rules.members_missing tables.now (map def_of definitions.now)) }
{
    'definitions: for definition in definitions {
        note_empty(tables, least, definition);
    }
}

/// A definition that lacks a member.
#[tactic(auto, using(gql_graph::proofs::LeastSteps::noting))]
fn note_empty(tables: &Tables, least: &mut Least, definition: &DefAt<'_>)
    ensures { least.new.at ≡ least_from least.old.at (rules.empty_in tables.now (def_of definition.now)) }
{
    match definition {
        DefAt::Object { name, fields, .. } => least.note_if(fields.is_empty(), name.at),
        DefAt::Interface { name, fields, .. } => least.note_if(fields.is_empty(), name.at),
        DefAt::Input { name, fields } => least.note_if(fields.is_empty(), name.at),
        DefAt::Enum { name, values } => least.note_if(values.is_empty(), name.at),
        DefAt::Union { name, members } => {
            least.note_if(members.is_empty(), name.at);
            note_not_objects(tables, least, members);
        }
        DefAt::Schema { .. } => {}
        DefAt::Scalar { .. } => {}
        DefAt::Directive { .. } => {}
    }
}

/// S11: default values fit the types of their arguments and input fields (GraphQL, October 2021,
/// sections 3.6.1 and 3.10).
#[tactic(auto, using(gql_graph::proofs::LeastSteps::noting))]
pub(crate) fn defaults_wrong(
    alloc: Global,
    tables: &Tables,
    least: &mut Least,
    definitions: &[DefAt<'_>],
) -> Result<(), NoMemory>
    ensures { OnOk result (least.new.at ≡ least_from least.old.at (rules.defaults_wrong tables.now (map def_of definitions.now))) }
{
    'definitions: for definition in definitions {
        note_defaults_in(alloc, tables, least, definition)?;
    }
    Ok(())
}

/// The defaults in a definition that do not fit.
fn note_defaults_in(
    alloc: Global,
    tables: &Tables,
    least: &mut Least,
    definition: &DefAt<'_>,
) -> Result<(), NoMemory>
    ensures { OnOk result (least.new.at ≡ least_from least.old.at (rules.each (rules.default_wrong tables.now) (rules.inputs_in (def_of definition.now)))) }
{
    let inputs = definition.inputs(alloc)?;
    note_defaults(alloc, tables, least, &inputs)
}

/// Arguments or input fields whose defaults do not fit.
#[tactic(auto, using(gql_graph::proofs::LeastSteps::noting))]
fn note_defaults(
    alloc: Global,
    tables: &Tables,
    least: &mut Least,
    inputs: &[InputAt<'_>],
) -> Result<(), NoMemory>
    ensures { OnOk result (least.new.at ≡ least_from least.old.at (rules.each (rules.default_wrong tables.now) (map input_of inputs.now))) }
{
    'inputs: for input in inputs {
        note_default(alloc, tables, least, input)?;
    }
    Ok(())
}

/// An argument or an input field whose default does not fit.
fn note_default(
    alloc: Global,
    tables: &Tables,
    least: &mut Least,
    input: &InputAt<'_>,
) -> Result<(), NoMemory>
    ensures { OnOk result (least.new.at ≡ least_from least.old.at (rules.default_wrong tables.now (input_of input.now))) }
{
    match input.default {
        Some(value) => {
            let is_good = tables.literal_fits(alloc, value, input.of.of)?;
            least.note_if(!is_good, input.name.at);
            Ok(())
        }
        None => Ok(()),
    }
}
