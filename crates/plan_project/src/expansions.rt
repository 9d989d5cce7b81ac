//! The rules on what operations and fragments become where all spreads are followed: the limits E1
//! and E2, and then V23 and V24 (this project's own; the merging of fields by GraphQL, October 2021,
//! section 5.3.2).
ghost use Rattle.std.specs.Prelude.{◌≡◌, ◌∷◌, [], None, IfErr, IfOk, OnOk};
ghost use Rattle.plan_read.specs.doc_merge.Faults.{first_fault};
ghost use Rattle.plan_read.specs.doc_sites.Definitions.{AreIn};
ghost use Rattle.plan_read.specs.doc_sites.SitesView.{definition_of};
ghost use Rattle.plan_ir.specs.gql_graph.Rules.{first_broken};
ghost use Rattle.plan_read.specs.plan_expand.Answers.{whole_in};
ghost use Rattle.plan_read.specs.plan_expand.Preparing.{IsReady};
ghost use Rattle.plan_project.specs.Expansions.{merge_fault, size_rules};
ghost use Rattle.plan_project.specs.Noting.{HasNoted, HasNotedAll, HasNotedAt, HasNotedFault, IsFaultOfExpansions};

use crate::fault::DocumentsFault;
use crate::least_faults::LeastFaults;
use plan_ir::located::NameAt;
use plan_ir::{Documents, Expanded, Name, NoMemory, Schema};
use plan_read::{DefinitionAt, ExpandFault, Expander, Form, MergeFault, check_merge};
use std::alloc::Global;

/// Whether the operations and the fragments of documents that meet V1 to V22 meet the rules on what
/// they become, in this order:
///
/// - E1: it has at most 100,000 nodes.
/// - E2: its selection sets, and its values, nest at most 60 deep.
/// - V23: values and uses of variables fit where they stand.
/// - V24: fields can merge.
///
/// One expansion at a time is in memory.
///
/// # Errors
///
/// The first of these rules that one of them does not meet: E1 and E2 at the least of the nodes of
/// their names, V23 and V24 at the least place; `NoMemory`.
pub(crate) fn check_expansions<'a>(
    alloc: Global,
    schema: &'a Schema,
    documents: &'a Documents,
    definitions: &[DefinitionAt<'a>],
) -> Result<(), DocumentsFault>
    requires { AreIn schema.now documents.now definitions.now }
    ensures sizes { OnOk result (first_broken (size_rules schema.now documents.now) ≡ None) }
    ensures merges { OnOk result (merge_fault schema.now documents.now ≡ None) }
    ensures fault { IfErr result (IsFaultOfExpansions schema.now documents.now) }
{
    match note_all(alloc, schema, documents, definitions) {
        Ok(noted) => match noted.first() {
            Some(fault) => Err(fault),
            None => Ok(()),
        },
        Err(NoMemory) => Err(DocumentsFault::NoMemory),
    }
}

/// What all definitions break, at the least places.
fn note_all<'a>(
    alloc: Global,
    schema: &'a Schema,
    documents: &'a Documents,
    definitions: &[DefinitionAt<'a>],
) -> Result<LeastFaults, NoMemory>
    requires { AreIn schema.now documents.now definitions.now }
    ensures { IfOk result (HasNotedAll schema.now documents.now) }
{
    let expander = Expander::new(alloc, schema, documents, definitions)?;
    let mut noted = LeastFaults::new();
    'definitions: for definition in definitions {
        note_definition(alloc, &expander, &mut noted, definition)?;
    }
    Ok(noted)
}

/// Notes what a definition breaks; nothing of an operation without a name.
fn note_definition(
    alloc: Global,
    expander: &Expander<'_>,
    noted: &mut LeastFaults,
    definition: &DefinitionAt<'_>,
) -> Result<(), NoMemory>
    requires { IsReady expander.now }
    ensures { OnOk result (HasNotedAt expander.now.schema.now expander.now.documents.now noted.old noted.new (definition_of definition.now)) }
{
    match definition {
        DefinitionAt::Operation(operation) => match &operation.name {
            Some(name) => note_expansion(alloc, expander, noted, name, Form::Operation),
            None => Ok(()),
        },
        DefinitionAt::Fragment(fragment) => {
            note_expansion(alloc, expander, noted, &fragment.name, Form::Fragment)
        }
    }
}

/// Notes what the operation or the fragment of a name breaks.
fn note_expansion(
    alloc: Global,
    expander: &Expander<'_>,
    noted: &mut LeastFaults,
    name: &NameAt<'_>,
    form: Form,
) -> Result<(), NoMemory>
    requires { IsReady expander.now }
    ensures { OnOk result (HasNoted expander.now.schema.now noted.old noted.new
        (whole_in expander.now.schema.now expander.now.documents.now form name.now.name.now) (name.now.at ∷ [])) }
{
    let own = Name::new(alloc, name.name)?;
    if !expander.has(&own, form) {
        return Ok(());
    }
    match expander.expand(alloc, &own, form) {
        Ok(expanded) => note_merge(alloc, expander.schema, noted, &expanded),
        Err(ExpandFault::TooManyNodes) => {
            noted.size.note(name.at);
            Ok(())
        }
        Err(ExpandFault::TooDeep) => {
            noted.depth.note(name.at);
            Ok(())
        }
        Err(ExpandFault::NoMemory) => Err(NoMemory),
    }
}

/// Notes what an expanded operation or fragment breaks of V23 and V24.
fn note_merge(
    alloc: Global,
    schema: &Schema,
    noted: &mut LeastFaults,
    expanded: &Expanded,
) -> Result<(), NoMemory>
    ensures { OnOk result (HasNotedFault noted.old noted.new (first_fault schema.now expanded.now)) }
{
    match check_merge(alloc, schema, expanded) {
        Ok(()) => Ok(()),
        Err(MergeFault::Rule(fault)) => {
            noted.note_fault(fault);
            Ok(())
        }
        Err(MergeFault::NoMemory) => Err(NoMemory),
    }
}
