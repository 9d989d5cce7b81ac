//! The first of the rules V7 to V11 that documents do not meet.
ghost use Rattle.std.specs.Prelude.{◌≡◌, map, IfOk, IfErr, OnOk};
ghost use Rattle.doc_sites.specs.schema_types.DocumentRules.{AreFaulty, Meet, field_rules};
ghost use Rattle.doc_sites.specs.schema_rules.Rules as rules;
ghost use Rattle.doc_sites.specs.Definitions.{AreIn};
ghost use Rattle.doc_sites.specs.SitesView.{definition_of};

use crate::rules::conditions::conditions_never_apply;
use crate::rules::floats::floats_selected;
use crate::rules::sets::sets_wrong;
use crate::rules::subscriptions::subscriptions_wrong;
use crate::rules::undefined::fields_undefined;
use doc_sites::first::First;
use doc_sites::least::Least;
use doc_sites::{
    DefinitionAt, Documents, NoMemory, NodeFault, Rule, RuleFault, Schema, definitions_at,
};
use std::alloc::Global;

/// Checks the rules on fields. Sections are those of GraphQL, October 2021.
///
/// - V7: a field is defined on its type (5.3.1).
/// - V8: a scalar or an enum has no selection set; an object, an interface and a union has one
///   (5.3.3).
/// - V9: no field that is selected is of Float (this project's own).
/// - V10: a type condition and the type around it have a possible type in common (5.5.2.3).
/// - V11: a subscription has one response key at its root, and it is not that of `__typename`
///   (5.2.3.1).
///
/// Where the type around a selection is not known, nothing is said of the selection, and where a
/// type condition is not composite, nothing is said of the condition. Where several fragments have
/// one name, the first counts.
///
/// # Errors
///
/// The first of these rules that the documents do not meet, at its least node in their order;
/// `NoMemory`.
pub fn check_fields(alloc: Global, schema: &Schema, documents: &Documents) -> Result<(), RuleFault>
    ensures met { OnOk result (Meet field_rules schema.now documents.now) }
    ensures fault { IfErr result (AreFaulty field_rules schema.now documents.now) }
{
    let definitions = definitions_at(alloc, schema, documents)?;
    check_fields_of(alloc, schema, documents, &definitions)
}

/// Checks what [`check_fields`] checks, where the definitions of the documents are listed already.
///
/// # Errors
///
/// The first of these rules that the documents do not meet, at its least node in their order;
/// `NoMemory`.
pub fn check_fields_of(
    alloc: Global,
    schema: &Schema,
    documents: &Documents,
    definitions: &[DefinitionAt<'_>],
) -> Result<(), RuleFault>
    requires { AreIn schema.now documents.now definitions.now }
    ensures met { OnOk result (Meet field_rules schema.now documents.now) }
    ensures fault { IfErr result (AreFaulty field_rules schema.now documents.now) }
{
    let found = first_broken(alloc, schema, definitions)?;
    match found {
        Some((rule, node)) => Err(RuleFault::Rule(NodeFault { rule, node })),
        None => Ok(()),
    }
}

/// The first of the rules V7 to V11 that does not hold, and the number of the node where it does not.
fn first_broken(
    alloc: Global,
    schema: &Schema,
    definitions: &[DefinitionAt<'_>],
) -> Result<Option<(Rule, usize)>, NoMemory>
    ensures { IfOk result (λ found. found ≡ rules.first_broken (field_rules schema.now (map definition_of definitions.now))) }
{
    let mut first = First::new();
    let mut undefined = Least::new();
    fields_undefined(schema, &mut undefined, definitions);
    first.settle(Rule::V7, undefined.at);
    let mut sets = Least::new();
    sets_wrong(schema, &mut sets, definitions);
    first.settle(Rule::V8, sets.at);
    let mut floats = Least::new();
    floats_selected(schema, &mut floats, definitions);
    first.settle(Rule::V9, floats.at);
    let mut conditions = Least::new();
    conditions_never_apply(alloc, schema, &mut conditions, definitions)?;
    first.settle(Rule::V10, conditions.at);
    let mut subscriptions = Least::new();
    subscriptions_wrong(alloc, schema, &mut subscriptions, definitions)?;
    first.settle(Rule::V11, subscriptions.at);
    Ok(first.found)
}
