//! The first rule on the directives after Relay and on aliases that documents do not meet.
ghost use Rattle.std.specs.Prelude.{◌≡◌, map, IfErr, IfOk, OnOk};
ghost use Rattle.doc_uses.specs.doc_sites.Definitions.{AreIn};
ghost use Rattle.doc_uses.specs.doc_sites.SitesView.{definition_of};
ghost use Rattle.constant_values.specs.gql_graph.Rules as rules;
ghost use Rattle.constant_values.specs.schema_types.DocumentRules.{AreFaulty, Meet};
ghost use Rattle.relay_rules.specs.RelayRules.{relay_rules};

use crate::rules::aliases::aliases_wrong;
use crate::rules::connections::connections_wrong;
use crate::rules::keys::keys_wrong;
use crate::rules::locals::locals_wrong;
use crate::rules::masks::masks_wrong;
use crate::rules::spreads::spreads_wrong;
use constant_values::first::First;
use constant_values::least::Least;
use constant_values::{NodeFault, Rule, RuleFault, Schema};
use doc_uses::{DefinitionAt, definitions_at};
use gql_syntax::gql_ast::Documents;
use gql_syntax::gql_plain::NoMemory;
use std::alloc::Global;

/// Checks the rules on the directives after Relay and on aliases, in this order. Their profile is this
/// project's own.
///
/// - V17: each argument of `@argumentDefinitions` is an object with `type`, a string that is a Type of
///   inputs with at most 60 list types in one another, and at most `defaultValue`, a constant that
///   fits, each once.
/// - V18: `@arguments` gives names of the fragment's local variables, with values that fit and uses
///   that are allowed; each local variable of a non-null type without default is given, and not as
///   `null`.
/// - V19: `mask` of `@relay` is `true` or `false`, literally.
/// - V20: an alias does not begin with `__`, and is `id` on the field `id` alone.
/// - V21: `key` of `@connection` is a Name that ends with `_` and the response key, with something in
///   front; `filters` is a list of names of the field's arguments.
/// - V22: a field with `@connection` has the type of a connection.
///
/// # Errors
///
/// The first of these rules that the documents do not meet, at its least node; `NoMemory`.
pub fn check_relay(alloc: Global, schema: &Schema, documents: &Documents) -> Result<(), RuleFault>
    ensures met { OnOk result (Meet relay_rules schema.now documents.now) }
    ensures fault { IfErr result (AreFaulty relay_rules schema.now documents.now) }
{
    let definitions = definitions_at(alloc, schema, documents)?;
    check_relay_of(alloc, schema, documents, &definitions)
}

/// Checks what [`check_relay`] checks, where the definitions of the documents are listed already.
///
/// # Errors
///
/// The first of these rules that the documents do not meet, at its least node; `NoMemory`.
pub fn check_relay_of(
    alloc: Global,
    schema: &Schema,
    documents: &Documents,
    definitions: &[DefinitionAt<'_>],
) -> Result<(), RuleFault>
    requires { AreIn schema.now documents.now definitions.now }
    ensures met { OnOk result (Meet relay_rules schema.now documents.now) }
    ensures fault { IfErr result (AreFaulty relay_rules schema.now documents.now) }
{
    let found = first_broken(alloc, schema, definitions)?;
    match found {
        Some((rule, node)) => Err(RuleFault::Rule(NodeFault { rule, node })),
        None => Ok(()),
    }
}

/// The first rule that definitions do not meet, and the number of the node where they do not.
fn first_broken(
    alloc: Global,
    schema: &Schema,
    definitions: &[DefinitionAt<'_>],
) -> Result<Option<(Rule, usize)>, NoMemory>
    ensures { IfOk result (λ found. found ≡ rules.first_broken (relay_rules schema.now (map definition_of definitions.now))) }
{
    let mut first = First::new();
    let mut locals = Least::new();
    locals_wrong(alloc, schema, &mut locals, definitions)?;
    first.settle(Rule::V17, locals.at);
    let mut spreads = Least::new();
    spreads_wrong(alloc, schema, &mut spreads, definitions)?;
    first.settle(Rule::V18, spreads.at);
    let mut masks = Least::new();
    masks_wrong(&mut masks, definitions);
    first.settle(Rule::V19, masks.at);
    let mut aliases = Least::new();
    aliases_wrong(&mut aliases, definitions);
    first.settle(Rule::V20, aliases.at);
    let mut keys = Least::new();
    keys_wrong(schema, &mut keys, definitions);
    first.settle(Rule::V21, keys.at);
    let mut connections = Least::new();
    connections_wrong(schema, &mut connections, definitions);
    first.settle(Rule::V22, connections.at);
    Ok(first.found)
}
