//! V14, values of correct type (GraphQL, October 2021, section 5.6): literals fit; the names of an
//! object literal differ, and for an input type they are defined and the required ones given.
//! `{ team(size: "2") { name } }` breaks it at `"2"`, where size is an Int.
ghost use Rattle.std.specs.Prelude.{◌≡◌, ◌&&◌, map, not, option_copied, IfOk, OnOk};
ghost use Rattle.doc_uses.specs.gql_ast.TypeView.{ty_of};
ghost use Rattle.doc_uses.specs.gql_ast.Value.{members_of, vals_of};
ghost use Rattle.doc_uses.specs.gql_ast.ValueView as tree;
ghost use Rattle.doc_uses.specs.schema_types.ArgumentRules as rules;
ghost use Rattle.gql_graph.specs.Leasts.{least_from};
ghost use Rattle.gql_graph.specs.Rules.{each};
ghost use Rattle.doc_uses.specs.schema_tables.Types as types;
ghost use Rattle.doc_uses.specs.doc_sites.SitesView.{argument_of, definition_of, variable_of};
ghost use Rattle.doc_args.specs.CallView.{call_of, takes_of};
ghost use Rattle.doc_args.specs.Literals.{default_of_unfit, repeating, unfit_in};

use crate::call::{Call, Takes, find_input};
use crate::calls::calls_of;
use doc_uses::type_forms::base_of;
use doc_uses::{
    ArgumentAt, Arguments, DefinitionAt, InputDef, InputDefs, Schema, TypeKind, TypeTree,
    ValueTree, ValueTrees, VariableAt,
};
use gql_graph::gql_plain::NoMemory;
use gql_graph::least::Least;
use gql_graph::seen::Seen;
use std::alloc::Global;

/// V14: literals fit the types of their places, and the names of each object differ (GraphQL,
/// October 2021, section 5.6).
pub(crate) fn literals_unfit(
    alloc: Global,
    schema: &Schema,
    least: &mut Least,
    definitions: &[DefinitionAt<'_>],
) -> Result<(), NoMemory>
    ensures { OnOk result (least.new.at ≡ least_from least.old.at (rules.literals_unfit schema.now (map definition_of definitions.now))) }
{
    'definitions: for definition in definitions {
        note_unfit_in(alloc, schema, least, definition)?;
    }
    Ok(())
}

/// Literals in a definition that do not fit.
#[tactic(auto, using(gql_graph::proofs::LeastSteps::noting))]
fn note_unfit_in(
    alloc: Global,
    schema: &Schema,
    least: &mut Least,
    definition: &DefinitionAt<'_>,
) -> Result<(), NoMemory>
    ensures { OnOk result (least.new.at ≡ least_from least.old.at (unfit_in schema.now (definition_of definition.now))) }
{
    note_defaults_in(alloc, schema, least, definition)?;
    let calls = calls_of(alloc, schema, definition)?;
    note_unfit_among(alloc, schema, least, &calls)
}

/// Defaults in a definition that do not fit.
fn note_defaults_in(
    alloc: Global,
    schema: &Schema,
    least: &mut Least,
    definition: &DefinitionAt<'_>,
) -> Result<(), NoMemory>
    ensures { OnOk result (least.new.at ≡ least_from least.old.at (rules.defaults_unfit schema.now (definition_of definition.now))) }
{
    match definition {
        DefinitionAt::Operation(operation) => {
            note_defaults(alloc, schema, least, &operation.variables)
        }
        DefinitionAt::Fragment(_) => Ok(()),
    }
}

/// Variables whose defaults do not fit.
fn note_defaults(
    alloc: Global,
    schema: &Schema,
    least: &mut Least,
    variables: &[VariableAt<'_>],
) -> Result<(), NoMemory>
    ensures { OnOk result (least.new.at ≡ least_from least.old.at (each (default_of_unfit schema.now) (map variable_of variables.now))) }
{
    'variables: for variable in variables {
        note_default(alloc, schema, least, variable)?;
    }
    Ok(())
}

/// A variable whose default does not fit. It is judged where the type names an input type.
fn note_default(
    alloc: Global,
    schema: &Schema,
    least: &mut Least,
    variable: &VariableAt<'_>,
) -> Result<(), NoMemory>
    ensures { OnOk result (least.new.at ≡ least_from least.old.at (default_of_unfit schema.now (variable_of variable.now))) }
{
    match variable.default {
        Some(value) => {
            let is_unfit = is_unfit(alloc, schema, &variable.defined.of, value.of)?;
            least.note_if(is_unfit, value.at);
            Ok(())
        }
        None => Ok(()),
    }
}

/// Whether a type names an input type that the value does not fit.
fn is_unfit(
    alloc: Global,
    schema: &Schema,
    of: &TypeTree,
    value: &ValueTree,
) -> Result<bool, NoMemory>
    ensures { IfOk result (λ b. b ≡ (rules.is_input_type schema.now (ty_of of.now) && not (rules.is_good_value schema.now (ty_of of.now) (tree.value_of value.now)))) }
{
    if !is_input_type(schema, of) {
        return Ok(false);
    }
    let is_good = is_good_value(alloc, schema, of, value)?;
    Ok(!is_good)
}

/// Whether a type is one of inputs.
pub(crate) fn is_input_type(schema: &Schema, of: &TypeTree) -> bool
    ensures { result ≡ rules.is_input_type schema.now (ty_of of.now) }
{
    matches!(
        schema.kind_of(base_of(of)),
        Some(TypeKind::Scalar | TypeKind::Enum | TypeKind::Input)
    )
}

/// Arguments of fields and directives that do not fit.
fn note_unfit_among(
    alloc: Global,
    schema: &Schema,
    least: &mut Least,
    calls: &[Call<'_, '_>],
) -> Result<(), NoMemory>
    ensures { OnOk result (least.new.at ≡ least_from least.old.at (each (rules.arguments_unfit schema.now) (map call_of calls.now))) }
{
    'calls: for call in calls {
        note_unfit(alloc, schema, least, &call.takes, call.arguments)?;
    }
    Ok(())
}

/// Arguments of a field or a directive that do not fit.
fn note_unfit(
    alloc: Global,
    schema: &Schema,
    least: &mut Least,
    takes: &Takes<'_>,
    arguments: &[ArgumentAt<'_>],
) -> Result<(), NoMemory>
    ensures { OnOk result (least.new.at ≡ least_from least.old.at (each (rules.argument_unfit schema.now (takes_of takes.now)) (map argument_of arguments.now))) }
{
    match takes {
        Takes::Inputs(inputs) => note_unfit_for(alloc, schema, least, inputs, arguments),
        Takes::Nothing => note_repeating(alloc, least, arguments),
        Takes::Free => Ok(()),
        Takes::Unknown => note_repeating(alloc, least, arguments),
    }
}

/// Arguments that do not fit these.
fn note_unfit_for(
    alloc: Global,
    schema: &Schema,
    least: &mut Least,
    inputs: &InputDefs<'_>,
    arguments: &[ArgumentAt<'_>],
) -> Result<(), NoMemory>
    ensures { OnOk result (least.new.at ≡ least_from least.old.at (each (rules.argument_unfit schema.now (rules.inputs inputs.now)) (map argument_of arguments.now))) }
{
    'arguments: for argument in arguments {
        let input = find_input(inputs, argument.name.name);
        let is_good = is_good_for(alloc, schema, input, argument.value.of)?;
        least.note_if(!is_good, argument.value.at);
    }
    Ok(())
}

/// Arguments for which no type is known and that have an object with a name that stands twice.
fn note_repeating(
    alloc: Global,
    least: &mut Least,
    arguments: &[ArgumentAt<'_>],
) -> Result<(), NoMemory>
    ensures { OnOk result (least.new.at ≡ least_from least.old.at (each repeating (map argument_of arguments.now))) }
{
    'arguments: for argument in arguments {
        let is_good = names_differ(alloc, argument.value.of)?;
        least.note_if(!is_good, argument.value.at);
    }
    Ok(())
}

/// Whether a value fits what is found of a name.
fn is_good_for(
    alloc: Global,
    schema: &Schema,
    input: Option<InputDef<'_>>,
    value: &ValueTree,
) -> Result<bool, NoMemory>
    ensures { IfOk result (λ b. b ≡ rules.is_good_for schema.now input.entry (tree.value_of value.now)) }
{
    match input {
        Some(input) => is_good_value(alloc, schema, input.of(), value),
        None => names_differ(alloc, value),
    }
}

/// Whether a value fits a type, and the names of each object in it differ.
fn is_good_value(
    alloc: Global,
    schema: &Schema,
    of: &TypeTree,
    value: &ValueTree,
) -> Result<bool, NoMemory>
    ensures { IfOk result (λ b. b ≡ rules.is_good_value schema.now (ty_of of.now) (tree.value_of value.now)) }
{
    let differ = names_differ(alloc, value)?;
    let fits = schema.literal_fits(alloc, value, of)?;
    Ok(fits && differ)
}

/// Whether the names of each object in a value differ.
#[cycle(names)]
fn names_differ(alloc: Global, value: &ValueTree) -> Result<bool, NoMemory>
    ensures { IfOk result (λ b. b ≡ rules.names_differ (tree.value_of value.now)) }
{
    match value {
        ValueTree::List(values) => names_differ_in(alloc, values),
        ValueTree::Object(members) => names_differ_among(alloc, members),
        ValueTree::Variable(_) => Ok(true),
        ValueTree::Int(_) => Ok(true),
        ValueTree::Text(_) => Ok(true),
        ValueTree::Bool(_) => Ok(true),
        ValueTree::Null => Ok(true),
        ValueTree::Enum(_) => Ok(true),
    }
}

/// Whether the names of each object in these values differ.
#[cycle(names)]
fn names_differ_in(alloc: Global, values: &ValueTrees) -> Result<bool, NoMemory>
    ensures { IfOk result (λ b. b ≡ rules.names_differ_in (vals_of values.now)) }
{
    'values: for value in &values.items {
        if !names_differ(alloc, value)? {
            return Ok(false);
        }
    }
    Ok(true)
}

/// Whether these names differ, and those of each object in the values. It goes from the last to the
/// first.
#[cycle(names)]
fn names_differ_among(alloc: Global, members: &Arguments) -> Result<bool, NoMemory>
    ensures { IfOk result (λ b. b ≡ rules.names_differ_among (members_of members.now)) }
{
    let mut seen = Seen::new(alloc);
    let mut differ = true;
    let mut left = members.items.len();
    'members: while left > 0 {
        left -= 1;
        let member = &members.items[left];
        let is_new = seen.insert(member.name.as_str())?;
        let is_good = names_differ(alloc, &member.value)?;
        differ = are_all(is_new, is_good, differ);
    }
    Ok(differ)
}

/// Whether the three hold.
fn are_all(first: bool, second: bool, third: bool) -> bool
    ensures { result ≡ (first && second && third) }
{
    first && second && third
}
