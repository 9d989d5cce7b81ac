//! The rules on documents, in their order.
ghost use Rattle.std.specs.Prelude.{◌≡◌, None, OnOk, IfErr};
ghost use Rattle.plan_read.specs.doc_sites.Definitions.{AreIn};
ghost use Rattle.plan_ir.specs.gql_graph.Rules.{first_broken};
ghost use Rattle.plan_project.specs.Expansions.{merge_fault, size_rules};
ghost use Rattle.plan_project.specs.Noting.{IsFaultOfDocuments};
ghost use Rattle.relay_dirs.specs.relay_rules.RelayRules.{document_rules};
ghost use Rattle.plan_ir.specs.schema_types.DocumentRules.{Meet, AreFaulty};

use crate::expansions::check_expansions;
use crate::fault::DocumentsFault;
use doc_args::check_args_of;
use doc_fields::check_fields_of;
use doc_names::check_names_of;
use plan_ir::{Documents, NoMemory, RuleFault, Schema};
use plan_read::{DefinitionAt, definitions_at};
use relay_dirs::check_relay_of;
use std::alloc::Global;

/// Whether documents meet the rules V1 to V16 (GraphQL, October 2021, section 5), V17 to V22 on the
/// directives after Relay and on aliases, and, where they meet those, E1, E2, V23 and V24 on what
/// their operations and fragments become.
///
/// # Errors
///
/// The first rule that they do not meet, at its least node or place; `NoMemory`.
pub(crate) fn check_documents(
    alloc: Global,
    schema: &Schema,
    documents: &Documents,
) -> Result<(), DocumentsFault>
    ensures met { OnOk result (Meet document_rules schema.now documents.now) }
    ensures sizes { OnOk result (first_broken (size_rules schema.now documents.now) ≡ None) }
    ensures merges { OnOk result (merge_fault schema.now documents.now ≡ None) }
    ensures fault { IfErr result (IsFaultOfDocuments schema.now documents.now) }
{
    let definitions = match definitions_at(alloc, schema, documents) {
        Ok(definitions) => definitions,
        Err(NoMemory) => return Err(DocumentsFault::NoMemory),
    };
    match check_rules(alloc, schema, documents, &definitions) {
        Ok(()) => check_expansions(alloc, schema, documents, &definitions),
        Err(RuleFault::Rule(fault)) => Err(DocumentsFault::Node(fault)),
        Err(RuleFault::NoMemory) => Err(DocumentsFault::NoMemory),
    }
}

/// Whether documents, whose definitions are listed, meet the rules V1 to V22.
fn check_rules(
    alloc: Global,
    schema: &Schema,
    documents: &Documents,
    definitions: &[DefinitionAt<'_>],
) -> Result<(), RuleFault>
    requires { AreIn schema.now documents.now definitions.now }
    ensures met { OnOk result (Meet document_rules schema.now documents.now) }
    ensures fault { IfErr result (AreFaulty document_rules schema.now documents.now) }
{
    check_names_of(alloc, schema, documents, definitions)?;
    check_fields_of(alloc, schema, documents, definitions)?;
    check_args_of(alloc, schema, documents, definitions)?;
    check_relay_of(alloc, schema, documents, definitions)
}
