//! The part of V18 on the variables of operations in what spreads give: in an operation, and in each
//! fragment that it reaches, a variable that is no local one is defined, and its use is allowed
//! (GraphQL, October 2021, section 5.8.5). `query Q($n: Int) { me { ...P @arguments(size: $n) } }`
//! breaks it at `P`, where `size` is an `Int!`.
ghost use Rattle.std.specs.Prelude.{◌≡◌, List, map, OnOk};
ghost use Rattle.constant_values.specs.gql_graph.Leasts.{least_from};
ghost use Rattle.constant_values.specs.gql_graph.Rules.{each};
ghost use Rattle.constant_values.specs.schema_types.NameRules.{fragments};
ghost use Rattle.constant_values.specs.schema_types.Sites as parts;
ghost use Rattle.doc_uses.specs.doc_sites.Definitions.{on_operation};
ghost use Rattle.doc_uses.specs.doc_sites.SitesView.{definition_of, operation_of};
ghost use Rattle.doc_uses.specs.FragmentUses.{Describes};
ghost use Rattle.relay_rules.specs.Spreads as spec;
ghost use Rattle.relay_dirs.specs.Tables.{Suits};

use crate::fragment_uses::fragment_uses;
use crate::fragments::Fragments;
use crate::spread_uses::uses_in_spreads;
use constant_values::Schema;
use constant_values::least::Least;
use doc_uses::{DefinitionAt, FragmentUses, OperationAt, note_wrong_uses};
use gql_syntax::gql_plain::NoMemory;
use std::alloc::Global;

/// Uses of variables in spreads that are not defined, or not allowed.
pub(crate) fn note_variable_uses<'p, 'a>(
    alloc: Global,
    schema: &'p Schema,
    table: &Fragments<'p>,
    least: &mut Least,
    definitions: &[DefinitionAt<'a>],
) -> Result<(), NoMemory>
    ensures { Suits table.now (fragments (map definition_of definitions.now))
        → OnOk result (least.new.at ≡ least_from least.old.at (each (on_operation (spec.uses_of_operation_wrong schema.now (fragments (map definition_of definitions.now)))) (map definition_of definitions.now))) }
{
    let known = fragment_uses(alloc, schema, table, definitions)?;
    note_definitions(alloc, schema, table, &known, least, definitions)
}

/// Such uses in definitions.
fn note_definitions<'p, 'a>(
    alloc: Global,
    schema: &'p Schema,
    table: &Fragments<'p>,
    known: &FragmentUses<'p, 'a>,
    least: &mut Least,
    definitions: &[DefinitionAt<'a>],
) -> Result<(), NoMemory>
    ensures { (fs : List parts.FragmentAt) → Suits table.now fs → Describes known.now (spec.uses_in_fragment schema.now fs) fs
        → OnOk result (least.new.at ≡ least_from least.old.at (each (on_operation (spec.uses_of_operation_wrong schema.now fs)) (map definition_of definitions.now))) }
{
    'definitions: for definition in definitions {
        note_definition(alloc, schema, table, known, least, definition)?;
    }
    Ok(())
}

/// Such uses in a definition, where it is an operation.
fn note_definition<'p, 'a>(
    alloc: Global,
    schema: &'p Schema,
    table: &Fragments<'p>,
    known: &FragmentUses<'p, 'a>,
    least: &mut Least,
    definition: &DefinitionAt<'a>,
) -> Result<(), NoMemory>
    ensures { (fs : List parts.FragmentAt) → Suits table.now fs → Describes known.now (spec.uses_in_fragment schema.now fs) fs
        → OnOk result (least.new.at ≡ least_from least.old.at (on_operation (spec.uses_of_operation_wrong schema.now fs) (definition_of definition.now))) }
{
    match definition {
        DefinitionAt::Operation(operation) => {
            note_operation(alloc, schema, table, known, least, operation)
        }
        DefinitionAt::Fragment(_) => Ok(()),
    }
}

/// Such uses in an operation, and in the fragments that it reaches.
fn note_operation<'p, 'a>(
    alloc: Global,
    schema: &'p Schema,
    table: &Fragments<'p>,
    known: &FragmentUses<'p, 'a>,
    least: &mut Least,
    operation: &OperationAt<'a>,
) -> Result<(), NoMemory>
    ensures { (fs : List parts.FragmentAt) → Suits table.now fs → Describes known.now (spec.uses_in_fragment schema.now fs) fs
        → OnOk result (least.new.at ≡ least_from least.old.at (spec.uses_of_operation_wrong schema.now fs (operation_of operation.now))) }
{
    let uses = uses_in_spreads(alloc, schema, table, &operation.sites)?;
    note_wrong_uses(alloc, schema, known, least, operation, &uses)
}
