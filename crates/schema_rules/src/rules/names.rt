//! S4, reserved names (GraphQL, October 2021, section 3.3): no name begins with `__`.
//! `type Query { __me: Int }` breaks it at `__me`.
//!
//! S5, repeated names (section 3.6 and its like): within one definition fields, arguments of one
//! field, enum values, union members, input fields and implemented interfaces differ.
//! `enum E { A A }` breaks it at the second `A`.
ghost use Rattle.std.specs.Prelude.{◌≡◌, [], ◌∷◌, map, IfOk, OnOk};
ghost use Rattle.gql_graph.specs.Leasts.{least_from};
ghost use Rattle.schema_trees.specs.LocatedView.{name_of, input_of, field_of, root_of, def_of};
ghost use Rattle.schema_rules.specs.Rules as rules;

use gql_graph::gql_plain::NoMemory;
use gql_graph::least::Least;
use schema_trees::located::{DefAt, FieldAt, InputAt, NameAt};
use schema_trees::repeats::note_repeated;
use std::alloc::Global;

/// S4: no name of a type, field, argument, input field, enum value or directive begins with `__`.
/// This project's own; such names are reserved for introspection (GraphQL, October 2021, section
/// 4.1).
#[tactic(auto, using(gql_graph::proofs::LeastSteps::noting))]
pub(crate) fn names_reserved(
    alloc: Global,
    least: &mut Least,
    definitions: &[DefAt<'_>],
) -> Result<(), NoMemory>
    ensures { OnOk result (least.new.at ≡ least_from least.old.at (rules.names_reserved (map def_of definitions.now))) }
{
    'definitions: for definition in definitions {
        note_reserved_in(alloc, least, definition)?;
    }
    Ok(())
}

/// The reserved names of a definition.
#[tactic(auto, using(gql_graph::proofs::LeastSteps::each_noting))]
fn note_reserved_in(
    alloc: Global,
    least: &mut Least,
    definition: &DefAt<'_>,
) -> Result<(), NoMemory>
    ensures { OnOk result (least.new.at ≡ least_from least.old.at (rules.each rules.reserved_name (rules.defined_names (def_of definition.now)))) }
{
    note_reserved_name(least, definition);
    note_reserved_fields(least, definition.fields());
    let inputs = definition.inputs(alloc)?;
    note_reserved_inputs(least, &inputs);
    note_reserved(least, definition.enum_values());
    Ok(())
}

/// The name of a definition, where it is reserved.
fn note_reserved_name(least: &mut Least, definition: &DefAt<'_>)
    ensures { least.new.at ≡ least_from least.old.at (rules.each rules.reserved_name (rules.defined_name (def_of definition.now))) }
{
    match definition.name() {
        Some(name) => least.note_if(is_reserved(name.name), name.at),
        None => {}
    }
}

/// Whether a name begins with `__`.
fn is_reserved(name: &str) -> bool
    ensures { result ≡ rules.begins_with_underscores name.now }
{
    name.starts_with("__")
}

/// Names that are reserved.
#[tactic(auto, using(gql_graph::proofs::LeastSteps::noting))]
fn note_reserved(least: &mut Least, names: &[NameAt<'_>])
    ensures { least.new.at ≡ least_from least.old.at (rules.each rules.reserved_name (map name_of names.now)) }
{
    'names: for name in names {
        least.note_if(is_reserved(name.name), name.at);
    }
}

/// Names of fields that are reserved.
#[tactic(auto, using(gql_graph::proofs::LeastSteps::noting))]
fn note_reserved_fields(least: &mut Least, fields: &[FieldAt<'_>])
    ensures { least.new.at ≡ least_from least.old.at (rules.each rules.reserved_name (rules.field_names (map field_of fields.now))) }
{
    'fields: for field in fields {
        least.note_if(is_reserved(field.name.name), field.name.at);
    }
}

/// Names of arguments or input fields that are reserved.
#[tactic(auto, using(gql_graph::proofs::LeastSteps::noting))]
fn note_reserved_inputs(least: &mut Least, inputs: &[InputAt<'_>])
    ensures { least.new.at ≡ least_from least.old.at (rules.each rules.reserved_name (rules.input_names (map input_of inputs.now))) }
{
    'inputs: for input in inputs {
        least.note_if(is_reserved(input.name.name), input.name.at);
    }
}

/// S5: within one definition fields, arguments of one field, enum values, union members, input
/// fields and implemented interfaces differ (GraphQL, October 2021, sections 3.6 to 3.10).
#[tactic(auto, using(gql_graph::proofs::LeastSteps::noting))]
pub(crate) fn members_not_unique(
    alloc: Global,
    least: &mut Least,
    definitions: &[DefAt<'_>],
) -> Result<(), NoMemory>
    ensures { OnOk result (least.new.at ≡ least_from least.old.at (rules.members_not_unique (map def_of definitions.now))) }
{
    'definitions: for definition in definitions {
        note_repeated_in(alloc, least, definition)?;
    }
    Ok(())
}

/// The names that stand twice in a definition.
#[tactic(auto, using(gql_graph::proofs::LeastSteps::noting))]
fn note_repeated_in(
    alloc: Global,
    least: &mut Least,
    definition: &DefAt<'_>,
) -> Result<(), NoMemory>
    ensures { OnOk result (least.new.at ≡ least_from least.old.at (rules.repeated_in (def_of definition.now))) }
{
    let names = field_names(alloc, definition.fields())?;
    note_repeated(alloc, least, &names)?;
    note_repeated_arguments(alloc, least, definition.fields())?;
    note_repeated(alloc, least, definition.enum_values())?;
    note_repeated(alloc, least, definition.union_members())?;
    note_repeated_inputs(alloc, least, definition.input_fields())?;
    note_repeated(alloc, least, definition.interfaces())
}

/// The names of fields.
pub(crate) fn field_names<'a>(
    alloc: Global,
    fields: &[FieldAt<'a>],
) -> Result<Vec<NameAt<'a>>, NoMemory>
    ensures { IfOk result (λ ns. map name_of ns.items ≡ rules.field_names (map field_of fields.now)) }
{
    let mut names = Vec::new(alloc);
    'fields: for field in fields {
        names.push(field.name)?;
    }
    Ok(names)
}

/// The names of arguments or input fields.
pub(crate) fn input_names<'a>(
    alloc: Global,
    inputs: &[InputAt<'a>],
) -> Result<Vec<NameAt<'a>>, NoMemory>
    ensures { IfOk result (λ ns. map name_of ns.items ≡ rules.input_names (map input_of inputs.now)) }
{
    let mut names = Vec::new(alloc);
    'inputs: for input in inputs {
        names.push(input.name)?;
    }
    Ok(names)
}

/// Arguments or input fields that stand twice.
fn note_repeated_inputs(
    alloc: Global,
    least: &mut Least,
    inputs: &[InputAt<'_>],
) -> Result<(), NoMemory>
    ensures { OnOk result (least.new.at ≡ least_from least.old.at (rules.repeated_names (rules.input_names (map input_of inputs.now)))) }
{
    let names = input_names(alloc, inputs)?;
    note_repeated(alloc, least, &names)
}

/// Arguments that stand twice at one field.
#[tactic(auto, using(gql_graph::proofs::LeastSteps::noting))]
fn note_repeated_arguments(
    alloc: Global,
    least: &mut Least,
    fields: &[FieldAt<'_>],
) -> Result<(), NoMemory>
    ensures { OnOk result (least.new.at ≡ least_from least.old.at (rules.each (λ f. rules.repeated_names (rules.input_names f.arguments)) (map field_of fields.now))) }
{
    'fields: for field in fields {
        note_repeated_inputs(alloc, least, &field.arguments)?;
    }
    Ok(())
}
