//! V12, argument names (GraphQL, October 2021, sections 5.4.1 and 5.4.2): the arguments of fields
//! and directives are defined, and differ. `{ team(sise: 2) { name } }` breaks it at `sise`.
ghost use Rattle.std.specs.Prelude.{◌≡◌, [], map, IfOk, OnOk};
ghost use Rattle.doc_uses.specs.schema_types.ArgumentRules as rules;
ghost use Rattle.gql_graph.specs.Leasts.{least_from};
ghost use Rattle.doc_uses.specs.schema_trees.LocatedView.{name_of};
ghost use Rattle.gql_graph.specs.Rules.{each};
ghost use Rattle.doc_uses.specs.doc_sites.SitesView.{argument_of, definition_of};
ghost use Rattle.doc_args.specs.CallView.{call_of, takes_of};

use crate::call::{Call, Takes, has_input};
use crate::calls::calls_of;
use doc_uses::located::NameAt;
use doc_uses::repeats::note_repeated;
use doc_uses::{ArgumentAt, DefinitionAt, InputDefs, Schema};
use gql_graph::gql_plain::NoMemory;
use gql_graph::least::Least;
use std::alloc::Global;

/// V12: arguments of fields and directives are defined, and those of one field or directive differ
/// (GraphQL, October 2021, sections 5.4.1 and 5.4.2). `@arguments` and `@argumentDefinitions` take
/// any argument.
pub(crate) fn arguments_wrong(
    alloc: Global,
    schema: &Schema,
    least: &mut Least,
    definitions: &[DefinitionAt<'_>],
) -> Result<(), NoMemory>
    ensures { OnOk result (least.new.at ≡ least_from least.old.at (rules.arguments_wrong schema.now (map definition_of definitions.now))) }
{
    'definitions: for definition in definitions {
        note_wrong_in(alloc, schema, least, definition)?;
    }
    Ok(())
}

/// Arguments in a definition that are not defined or stand twice.
fn note_wrong_in(
    alloc: Global,
    schema: &Schema,
    least: &mut Least,
    definition: &DefinitionAt<'_>,
) -> Result<(), NoMemory>
    ensures { OnOk result (least.new.at ≡ least_from least.old.at (each rules.arguments_of_call_wrong (rules.calls_of schema.now (definition_of definition.now)))) }
{
    let calls = calls_of(alloc, schema, definition)?;
    note_wrong_among(alloc, least, &calls)
}

/// Arguments of fields and directives that are not defined or stand twice.
fn note_wrong_among(
    alloc: Global,
    least: &mut Least,
    calls: &[Call<'_, '_>],
) -> Result<(), NoMemory>
    ensures { OnOk result (least.new.at ≡ least_from least.old.at (each rules.arguments_of_call_wrong (map call_of calls.now))) }
{
    'calls: for call in calls {
        note_wrong(alloc, least, call)?;
    }
    Ok(())
}

/// Arguments of a field or a directive that are not defined or stand twice.
#[tactic(auto, using(gql_graph::proofs::LeastSteps::noting))]
fn note_wrong(alloc: Global, least: &mut Least, call: &Call<'_, '_>) -> Result<(), NoMemory>
    ensures { OnOk result (least.new.at ≡ least_from least.old.at (rules.arguments_of_call_wrong (call_of call.now))) }
{
    let names = argument_names(alloc, call.arguments)?;
    note_not_taken(least, &call.takes, &names);
    note_repeated(alloc, least, &names)
}

/// The names of arguments.
fn argument_names<'a>(
    alloc: Global,
    arguments: &[ArgumentAt<'a>],
) -> Result<Vec<NameAt<'a>>, NoMemory>
    ensures { IfOk result (λ ns. map name_of ns.items ≡ rules.argument_names (map argument_of arguments.now)) }
{
    let mut names = Vec::new(alloc);
    'arguments: for argument in arguments {
        names.push(argument.name)?;
    }
    Ok(names)
}

/// Names of arguments that are not defined.
fn note_not_taken(least: &mut Least, takes: &Takes<'_>, names: &[NameAt<'_>])
    ensures { least.new.at ≡ least_from least.old.at (each (rules.not_taken (takes_of takes.now)) (map name_of names.now)) }
{
    match takes {
        Takes::Inputs(inputs) => note_not_among(least, inputs, names),
        Takes::Nothing => note_all(least, names),
        Takes::Free => {}
        Takes::Unknown => {}
    }
}

/// All names.
#[tactic(auto, using(gql_graph::proofs::LeastSteps::noting))]
fn note_all(least: &mut Least, names: &[NameAt<'_>])
    ensures { least.new.at ≡ least_from least.old.at (each (rules.not_taken (rules.inputs [])) (map name_of names.now)) }
{
    'names: for name in names {
        least.note(name.at);
    }
}

/// Names of arguments that are none of these.
fn note_not_among(least: &mut Least, inputs: &InputDefs<'_>, names: &[NameAt<'_>])
    ensures { least.new.at ≡ least_from least.old.at (each (rules.not_taken (rules.inputs inputs.now)) (map name_of names.now)) }
{
    'names: for name in names {
        least.note_if(!has_input(inputs, name.name), name.at);
    }
}
