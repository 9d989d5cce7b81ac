//! The first rule on names that documents do not meet.
ghost use Rattle.std.specs.Prelude.{◌≡◌, map, IfErr, IfOk, OnOk};
ghost use Rattle.doc_sites.specs.Definitions.{AreIn};
ghost use Rattle.doc_sites.specs.SitesView.{definition_of};
ghost use Rattle.doc_sites.specs.schema_types.DocumentRules.{AreFaulty, Meet, name_rules};
ghost use Rattle.doc_sites.specs.schema_rules.Rules as rules;

use crate::rules::conditions::conditions_wrong;
use crate::rules::cycles::spreads_on_cycles;
use crate::rules::fragments::fragments_not_unique;
use crate::rules::operations::operations_not_named;
use crate::rules::roots::roots_missing;
use crate::rules::spreads::fragments_not_there;
use doc_sites::first::First;
use doc_sites::least::Least;
use doc_sites::{
    DefinitionAt, Documents, NoMemory, NodeFault, Rule, RuleFault, Schema, definitions_at,
};
use std::alloc::Global;

/// Checks the names of operations and fragments (GraphQL, October 2021). In the order of the rules:
/// every operation has a name, and names differ (V1, section 5.2.1.1); the names of fragments differ
/// (V2, 5.5.1.1); type conditions name an object, an interface or a union (V3, 5.5.1.2 and 5.5.1.3);
/// fragments that are spread are there (V4, 5.5.2.1); no fragment reaches itself (V5, 5.5.2.2); the
/// root type of an operation is there (V6, 3.3.1).
///
/// # Errors
///
/// The first of these rules that the documents do not meet, at its least node; `NoMemory`.
pub fn check_names(alloc: Global, schema: &Schema, documents: &Documents) -> Result<(), RuleFault>
    ensures met { OnOk result (Meet name_rules schema.now documents.now) }
    ensures fault { IfErr result (AreFaulty name_rules schema.now documents.now) }
{
    let definitions = definitions_at(alloc, schema, documents)?;
    check_names_of(alloc, schema, documents, &definitions)
}

/// Checks what [`check_names`] checks, where the definitions of the documents are listed already.
///
/// # Errors
///
/// The first of these rules that the documents do not meet, at its least node; `NoMemory`.
pub fn check_names_of(
    alloc: Global,
    schema: &Schema,
    documents: &Documents,
    definitions: &[DefinitionAt<'_>],
) -> Result<(), RuleFault>
    requires { AreIn schema.now documents.now definitions.now }
    ensures met { OnOk result (Meet name_rules schema.now documents.now) }
    ensures fault { IfErr result (AreFaulty name_rules schema.now documents.now) }
{
    let found = first_broken(alloc, schema, definitions)?;
    match found {
        Some((rule, node)) => Err(RuleFault::Rule(NodeFault { rule, node })),
        None => Ok(()),
    }
}

/// The first rule that definitions do not meet, and the number of the node where they do not.
fn first_broken(
    alloc: Global,
    schema: &Schema,
    definitions: &[DefinitionAt<'_>],
) -> Result<Option<(Rule, usize)>, NoMemory>
    ensures { IfOk result (λ found. found ≡ rules.first_broken (name_rules schema.now (map definition_of definitions.now))) }
{
    let mut first = First::new();
    let mut operations = Least::new();
    operations_not_named(alloc, &mut operations, definitions)?;
    first.settle(Rule::V1, operations.at);
    let mut fragments = Least::new();
    fragments_not_unique(alloc, &mut fragments, definitions)?;
    first.settle(Rule::V2, fragments.at);
    let mut conditions = Least::new();
    conditions_wrong(alloc, schema, &mut conditions, definitions)?;
    first.settle(Rule::V3, conditions.at);
    let mut spreads = Least::new();
    fragments_not_there(alloc, &mut spreads, definitions)?;
    first.settle(Rule::V4, spreads.at);
    let mut cycles = Least::new();
    spreads_on_cycles(alloc, &mut cycles, definitions)?;
    first.settle(Rule::V5, cycles.at);
    let mut roots = Least::new();
    roots_missing(schema, &mut roots, definitions);
    first.settle(Rule::V6, roots.at);
    Ok(first.found)
}
