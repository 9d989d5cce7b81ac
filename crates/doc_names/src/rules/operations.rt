//! V1, operation names (GraphQL, October 2021, section 5.2.1.1; that each operation has a name is
//! this project's own): every operation has a name, and the names differ.
//! `query A { me { name } } query A { me { id } }` breaks it at the second `A`; `{ me { name } }`
//! at its first token.
ghost use Rattle.std.specs.Prelude.{◌≡◌, map, OnOk};
ghost use Rattle.doc_sites.specs.SitesView.{definition_of, operation_of};
ghost use Rattle.doc_sites.specs.gql_graph.Leasts.{least_from};
ghost use Rattle.doc_sites.specs.schema_types.NameRules as names;
ghost use Rattle.doc_sites.specs.schema_rules.Rules as rules;
ghost use Rattle.doc_sites.specs.Definitions.{on_operation};

use crate::named::operation_names;
use doc_sites::least::Least;
use doc_sites::repeats::note_repeated;
use doc_sites::{DefinitionAt, NoMemory, OperationAt};
use std::alloc::Global;

/// Operations without a name, by their first tokens, and names that stand before.
#[tactic(auto, using(crate::proofs::NameSteps::noting))]
pub(crate) fn operations_not_named(
    alloc: Global,
    least: &mut Least,
    definitions: &[DefinitionAt<'_>],
) -> Result<(), NoMemory>
    ensures { OnOk result (least.new.at ≡ least_from least.old.at (names.operations_not_named (map definition_of definitions.now))) }
{
    note_without_names(least, definitions);
    let names = operation_names(alloc, definitions)?;
    note_repeated(alloc, least, &names)
}

/// Operations without a name.
fn note_without_names(least: &mut Least, definitions: &[DefinitionAt<'_>])
    ensures { least.new.at ≡ least_from least.old.at (rules.each names.without_name (names.operations (map definition_of definitions.now))) }
{
    'definitions: for definition in definitions {
        note_without_name_in(least, definition);
    }
}

/// A definition, where it is an operation without a name.
fn note_without_name_in(least: &mut Least, definition: &DefinitionAt<'_>)
    ensures { least.new.at ≡ least_from least.old.at (on_operation names.without_name (definition_of definition.now)) }
{
    match definition {
        DefinitionAt::Operation(operation) => note_without_name(least, operation),
        DefinitionAt::Fragment(_) => {}
    }
}

/// An operation, where it has no name.
fn note_without_name(least: &mut Least, operation: &OperationAt<'_>)
    ensures { least.new.at ≡ least_from least.old.at (names.without_name (operation_of operation.now)) }
{
    match operation.name {
        Some(_) => {}
        None => least.note(operation.first),
    }
}
