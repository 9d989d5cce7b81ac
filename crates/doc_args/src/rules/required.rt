//! V13, required arguments (GraphQL, October 2021, section 5.4.2.1): an argument of a non-null type
//! without default is given, and not as `null`. `{ node { id } }` breaks it at `node`, where
//! `node(id: ID!)` is wanted.
ghost use Rattle.std.specs.Prelude.{◌≡◌, [], ◌++◌, ◌&&◌, map, IfOk, OnOk};
ghost use Rattle.std.specs.List.{list_any};
ghost use Rattle.doc_uses.specs.gql_ast.ValueView.{value_of};
ghost use Rattle.gql_graph.specs.gql_plain.Order.{has_text};
ghost use Rattle.doc_uses.specs.schema_types.ArgumentRules as rules;
ghost use Rattle.doc_uses.specs.schema_tables.Required.{required_names};
ghost use Rattle.gql_graph.specs.Leasts.{least_from};
ghost use Rattle.doc_uses.specs.schema_trees.LocatedView.{name_of};
ghost use Rattle.doc_uses.specs.schema_rules.Rules.{each, names_of};
ghost use Rattle.doc_uses.specs.doc_sites.SitesView.{argument_of, definition_of};
ghost use Rattle.doc_args.specs.CallView.{call_of, takes_of};
ghost use Rattle.doc_args.specs.GivenNames.{count_new, given_name, given_names};

use crate::call::{Call, Takes};
use crate::calls::calls_of;
use doc_uses::located::NameAt;
use doc_uses::{ArgumentAt, DefinitionAt, InputDefs, Schema, ValueTree};
use gql_graph::gql_plain::NoMemory;
use gql_graph::least::Least;
use gql_graph::seen::Seen;
use std::alloc::Global;

/// V13: an argument of a non-null type without a default is given, and not as `null` (GraphQL,
/// October 2021, section 5.4.2.1).
pub(crate) fn arguments_missing(
    alloc: Global,
    schema: &Schema,
    least: &mut Least,
    definitions: &[DefinitionAt<'_>],
) -> Result<(), NoMemory>
    ensures { OnOk result (least.new.at ≡ least_from least.old.at (rules.arguments_missing schema.now (map definition_of definitions.now))) }
{
    'definitions: for definition in definitions {
        note_incomplete_in(alloc, schema, least, definition)?;
    }
    Ok(())
}

/// Fields and directives in a definition that lack an argument.
fn note_incomplete_in(
    alloc: Global,
    schema: &Schema,
    least: &mut Least,
    definition: &DefinitionAt<'_>,
) -> Result<(), NoMemory>
    ensures { OnOk result (least.new.at ≡ least_from least.old.at (each rules.argument_missing (rules.calls_of schema.now (definition_of definition.now)))) }
{
    let calls = calls_of(alloc, schema, definition)?;
    note_incomplete(alloc, least, &calls)
}

/// Fields and directives that lack an argument.
fn note_incomplete(alloc: Global, least: &mut Least, calls: &[Call<'_, '_>]) -> Result<(), NoMemory>
    ensures { OnOk result (least.new.at ≡ least_from least.old.at (each rules.argument_missing (map call_of calls.now))) }
{
    'calls: for call in calls {
        let is_wrong = is_incomplete(alloc, &call.takes, call.arguments)?;
        least.note_if(is_wrong, call.name.at);
    }
    Ok(())
}

/// Whether an argument is left out.
fn is_incomplete(
    alloc: Global,
    takes: &Takes<'_>,
    arguments: &[ArgumentAt<'_>],
) -> Result<bool, NoMemory>
    ensures { IfOk result (λ b. b ≡ rules.is_incomplete (takes_of takes.now) (map argument_of arguments.now)) }
{
    match takes {
        Takes::Inputs(inputs) => leaves_out_any(alloc, inputs, arguments),
        Takes::Nothing => Ok(false),
        Takes::Free => Ok(false),
        Takes::Unknown => Ok(false),
    }
}

/// Whether one of these is left out: fewer names are those of required ones than have to be given.
fn leaves_out_any(
    alloc: Global,
    inputs: &InputDefs<'_>,
    arguments: &[ArgumentAt<'_>],
) -> Result<bool, NoMemory>
    ensures { IfOk result (λ b. b ≡ list_any (rules.leaves_out (map argument_of arguments.now)) inputs.now) }
{
    let names = given_names(alloc, arguments)?;
    let count = count_required(alloc, inputs, &names)?;
    let is_whole = count == inputs.required_count();
    Ok(!is_whole)
}

/// How many names are those of arguments that have to be given; a name that stands twice counts
/// once.
fn count_required(
    alloc: Global,
    inputs: &InputDefs<'_>,
    names: &[NameAt<'_>],
) -> Result<usize, NoMemory>
    ensures { IfOk result (λ count. count ≡ count_new (required_names inputs.now) [] (names_of (map name_of names.now))) }
{
    let mut seen = Seen::new(alloc);
    let mut count = 0;
    'names: for name in names {
        let is_new = seen.insert(name.name)?;
        if is_counted(inputs, is_new, name.name) {
            count += 1;
        }
    }
    Ok(count)
}

/// Whether a name is new, and that of an argument that has to be given.
fn is_counted(inputs: &InputDefs<'_>, is_new: bool, name: &str) -> bool
    ensures { result ≡ (is_new && has_text (required_names inputs.now) name.now) }
{
    is_new && inputs.needs(name)
}

/// The names of arguments that are given, and not as `null`.
fn given_names<'a>(alloc: Global, arguments: &[ArgumentAt<'a>]) -> Result<Vec<NameAt<'a>>, NoMemory>
    ensures { IfOk result (λ ns. map name_of ns.items ≡ given_names (map argument_of arguments.now)) }
{
    let mut names = Vec::new(alloc);
    'arguments: for argument in arguments {
        put_given(&mut names, argument)?;
    }
    Ok(names)
}

/// Puts the name of an argument that is given, and not as `null`.
fn put_given<'a>(names: &mut Vec<NameAt<'a>>, argument: &ArgumentAt<'a>) -> Result<(), NoMemory>
    ensures { OnOk result (map name_of names.new.items ≡ map name_of names.old.items ++ given_name (argument_of argument.now)) }
{
    if is_null(argument.value.of) {
        return Ok(());
    }
    names.push(argument.name)?;
    Ok(())
}

/// Whether a value is `null`.
fn is_null(value: &ValueTree) -> bool
    ensures { result ≡ rules.is_null (value_of value.now) }
{
    matches!(value, ValueTree::Null)
}
