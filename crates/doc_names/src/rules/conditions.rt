//! V3, type conditions (GraphQL, October 2021, sections 5.5.1.2 and 5.5.1.3): a type condition
//! names an object, an interface or a union. `fragment F on Int { x }` breaks it at `Int`.
ghost use Rattle.std.specs.Prelude.{◌≡◌, map, OnOk};
ghost use Rattle.std.specs.List.{filter_map};
ghost use Rattle.doc_sites.specs.SitesView.{definition_of, site_of};
ghost use Rattle.doc_sites.specs.gql_graph.Leasts.{least_from};
ghost use Rattle.doc_sites.specs.schema_trees.LocatedView.{name_of};
ghost use Rattle.doc_sites.specs.schema_types.NameRules as names;
ghost use Rattle.doc_sites.specs.schema_rules.Rules as rules;

use crate::named::conditions_at;
use doc_sites::least::Least;
use doc_sites::located::NameAt;
use doc_sites::{DefinitionAt, NoMemory, Schema, Site};
use std::alloc::Global;

/// Type conditions that name no such type.
pub(crate) fn conditions_wrong(
    alloc: Global,
    schema: &Schema,
    least: &mut Least,
    definitions: &[DefinitionAt<'_>],
) -> Result<(), NoMemory>
    ensures { OnOk result (least.new.at ≡ least_from least.old.at (names.conditions_wrong schema.now (map definition_of definitions.now))) }
{
    'definitions: for definition in definitions {
        note_conditions_in(alloc, schema, least, definition)?;
    }
    Ok(())
}

/// The type conditions in a definition; that of a fragment is one of them.
#[tactic(auto, using(crate::proofs::NameSteps::noting))]
fn note_conditions_in(
    alloc: Global,
    schema: &Schema,
    least: &mut Least,
    definition: &DefinitionAt<'_>,
) -> Result<(), NoMemory>
    ensures { OnOk result (least.new.at ≡ least_from least.old.at (rules.each (names.not_composite schema.now) (names.conditions_in (definition_of definition.now)))) }
{
    match definition {
        DefinitionAt::Operation(operation) => {
            note_conditions_at(alloc, schema, least, &operation.sites)
        }
        DefinitionAt::Fragment(fragment) => {
            note_not_composite(schema, least, &fragment.on);
            note_conditions_at(alloc, schema, least, &fragment.sites)
        }
    }
}

/// The type conditions of inline fragments.
fn note_conditions_at(
    alloc: Global,
    schema: &Schema,
    least: &mut Least,
    sites: &[Site<'_>],
) -> Result<(), NoMemory>
    ensures { OnOk result (least.new.at ≡ least_from least.old.at (rules.each (names.not_composite schema.now) (filter_map names.condition_at (map site_of sites.now)))) }
{
    let conditions = conditions_at(alloc, sites)?;
    note_each_not_composite(schema, least, &conditions);
    Ok(())
}

/// Names of no such type.
fn note_each_not_composite(schema: &Schema, least: &mut Least, conditions: &[NameAt<'_>])
    ensures { least.new.at ≡ least_from least.old.at (rules.each (names.not_composite schema.now) (map name_of conditions.now)) }
{
    'conditions: for name in conditions {
        note_not_composite(schema, least, name);
    }
}

/// A name, where it is that of no such type.
fn note_not_composite(schema: &Schema, least: &mut Least, name: &NameAt<'_>)
    ensures { least.new.at ≡ least_from least.old.at (names.not_composite schema.now (name_of name.now)) }
{
    least.note_if(!schema.is_composite(name.name), name.at);
}
