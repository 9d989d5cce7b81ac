//! V16, variables (GraphQL, October 2021, section 5.8): definitions differ and have input types; a
//! variable that is used is defined, and its use is allowed. `query Q { team(size: $n) { name } }`
//! breaks it at `n`.
ghost use Rattle.std.specs.Prelude.{◌≡◌, ◌++◌, [], List, map, IfOk, OnOk};
ghost use Rattle.doc_uses.specs.schema_types.ArgumentRules as rules;
ghost use Rattle.gql_graph.specs.Leasts.{least_from};
ghost use Rattle.doc_uses.specs.schema_trees.LocatedView.{name_of};
ghost use Rattle.doc_uses.specs.schema_rules.Rules.{each, repeated_names};
ghost use Rattle.doc_uses.specs.schema_types.Sites as spec;
ghost use Rattle.doc_uses.specs.doc_sites.Definitions.{on_operation};
ghost use Rattle.doc_uses.specs.doc_sites.SitesView.{definition_of, operation_of, variable_of};
ghost use Rattle.doc_uses.specs.FragmentUses.{Describes};
ghost use Rattle.doc_args.specs.UsesIn.{uses_in_fragment, uses_in_operation, variable_names};

use crate::fragments::fragment_uses;
use crate::rules::literals::is_input_type;
use crate::uses::uses_of;
use doc_uses::located::NameAt;
use doc_uses::repeats::note_repeated;
use doc_uses::{DefinitionAt, FragmentUses, OperationAt, Schema, VariableAt, note_wrong_uses};
use gql_graph::gql_plain::NoMemory;
use gql_graph::least::Least;
use std::alloc::Global;

/// V16: the variables of an operation differ and have input types; each variable that is used in it,
/// or in a fragment that it reaches, is defined there if it is no local one of the fragment, and its
/// use is allowed (GraphQL, October 2021, sections 5.8.1, 5.8.2, 5.8.3 and 5.8.5).
pub(crate) fn variables_wrong<'a>(
    alloc: Global,
    schema: &'a Schema,
    least: &mut Least,
    definitions: &[DefinitionAt<'a>],
) -> Result<(), NoMemory>
    ensures { OnOk result (least.new.at ≡ least_from least.old.at (rules.variables_wrong schema.now (map definition_of definitions.now))) }
{
    let known = fragment_uses(alloc, schema, definitions)?;
    'definitions: for definition in definitions {
        note_definition(alloc, schema, &known, least, definition)?;
    }
    Ok(())
}

/// What is wrong with the variables of an operation.
fn note_definition<'a>(
    alloc: Global,
    schema: &'a Schema,
    known: &FragmentUses<'a, 'a>,
    least: &mut Least,
    definition: &DefinitionAt<'a>,
) -> Result<(), NoMemory>
    ensures { (fs : List spec.FragmentAt) → Describes known.now (uses_in_fragment schema.now) fs
        → OnOk result (least.new.at ≡ least_from least.old.at (on_operation (rules.variables_of_wrong schema.now fs) (definition_of definition.now))) }
{
    match definition {
        DefinitionAt::Operation(operation) => {
            note_operation(alloc, schema, known, least, operation)
        }
        DefinitionAt::Fragment(_) => Ok(()),
    }
}

/// What is wrong with the variables of an operation.
fn note_operation<'a>(
    alloc: Global,
    schema: &'a Schema,
    known: &FragmentUses<'a, 'a>,
    least: &mut Least,
    operation: &OperationAt<'a>,
) -> Result<(), NoMemory>
    ensures { (fs : List spec.FragmentAt) → Describes known.now (uses_in_fragment schema.now) fs
        → OnOk result (least.new.at ≡ least_from least.old.at (rules.variables_of_wrong schema.now fs (operation_of operation.now))) }
{
    note_repeated_variables(alloc, least, operation)?;
    note_not_input(schema, least, operation);
    note_uses(alloc, schema, known, least, operation)?;
    Ok(())
}

/// Variables of one name.
fn note_repeated_variables(
    alloc: Global,
    least: &mut Least,
    operation: &OperationAt<'_>,
) -> Result<(), NoMemory>
    ensures { OnOk result (least.new.at ≡ least_from least.old.at (repeated_names (variable_names (operation_of operation.now).variables))) }
{
    let names = variable_names(alloc, &operation.variables)?;
    note_repeated(alloc, least, &names)
}

/// The names of variables.
fn variable_names<'a>(
    alloc: Global,
    variables: &[VariableAt<'a>],
) -> Result<Vec<NameAt<'a>>, NoMemory>
    ensures { IfOk result (λ ns. map name_of ns.items ≡ variable_names (map variable_of variables.now)) }
{
    let mut names = Vec::new(alloc);
    'variables: for variable in variables {
        names.push(variable.name)?;
    }
    Ok(names)
}

/// Variables whose types are none of inputs.
fn note_not_input(schema: &Schema, least: &mut Least, operation: &OperationAt<'_>)
    ensures { least.new.at ≡ least_from least.old.at (each (rules.not_input schema.now) (operation_of operation.now).variables) }
{
    'variables: for variable in &operation.variables {
        least.note_if(
            !is_input_type(schema, &variable.defined.of),
            variable.name.at,
        );
    }
}

/// Uses that are wrong, in an operation and in the fragments that it reaches.
fn note_uses<'a>(
    alloc: Global,
    schema: &'a Schema,
    known: &FragmentUses<'a, 'a>,
    least: &mut Least,
    operation: &OperationAt<'a>,
) -> Result<(), NoMemory>
    ensures { (fs : List spec.FragmentAt) → Describes known.now (uses_in_fragment schema.now) fs
        → OnOk result (least.new.at ≡ least_from least.old.at (each (rules.use_wrong (operation_of operation.now).variables []) (uses_in_operation schema.now (operation_of operation.now))
        ++ each (rules.uses_wrong_in schema.now fs (operation_of operation.now)) fs)) }
{
    let uses = uses_of(alloc, schema, &operation.directives, &operation.sites)?;
    note_wrong_uses(alloc, schema, known, least, operation, &uses)
}
