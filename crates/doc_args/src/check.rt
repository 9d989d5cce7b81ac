//! The first rule on arguments, directives and variables that documents do not meet.
ghost use Rattle.std.specs.Prelude.{◌≡◌, map, IfOk, IfErr, OnOk};
ghost use Rattle.doc_uses.specs.schema_types.DocumentRules.{argument_rules, AreFaulty, Meet};
ghost use Rattle.doc_uses.specs.schema_rules.Rules as rules;
ghost use Rattle.doc_uses.specs.doc_sites.Definitions.{AreIn};
ghost use Rattle.doc_uses.specs.doc_sites.SitesView.{definition_of};

use crate::rules::arguments::arguments_wrong;
use crate::rules::directives::directives_wrong;
use crate::rules::literals::literals_unfit;
use crate::rules::required::arguments_missing;
use crate::rules::variables::variables_wrong;
use doc_uses::{DefinitionAt, Documents, NodeFault, Rule, RuleFault, Schema, definitions_at};
use gql_graph::first::First;
use gql_graph::gql_plain::NoMemory;
use gql_graph::least::Least;
use std::alloc::Global;

/// Checks the rules on arguments, directives and variables (GraphQL, October 2021, sections 5.4, 5.6,
/// 5.7 and 5.8), in this order:
///
/// - V12: arguments are defined, and those of one field or directive differ.
/// - V13: an argument of a non-null type without a default is given, and not as `null`.
/// - V14: literals fit the types of their places, and the names of each object differ.
/// - V15: directives are known, stand where they may, and those that are not repeatable stand once.
/// - V16: variables differ and have input types; those that are used are defined, and their uses are
///   allowed.
///
/// # Errors
///
/// The first of these rules that the documents do not meet, at its least node; `NoMemory`.
pub fn check_args(alloc: Global, schema: &Schema, documents: &Documents) -> Result<(), RuleFault>
    ensures met { OnOk result (Meet argument_rules schema.now documents.now) }
    ensures fault { IfErr result (AreFaulty argument_rules schema.now documents.now) }
{
    let definitions = definitions_at(alloc, schema, documents)?;
    check_args_of(alloc, schema, documents, &definitions)
}

/// Checks what [`check_args`] checks, where the definitions of the documents are listed already.
///
/// # Errors
///
/// The first of these rules that the documents do not meet, at its least node; `NoMemory`.
pub fn check_args_of<'a>(
    alloc: Global,
    schema: &'a Schema,
    documents: &Documents,
    definitions: &[DefinitionAt<'a>],
) -> Result<(), RuleFault>
    requires { AreIn schema.now documents.now definitions.now }
    ensures met { OnOk result (Meet argument_rules schema.now documents.now) }
    ensures fault { IfErr result (AreFaulty argument_rules schema.now documents.now) }
{
    let found = first_broken(alloc, schema, definitions)?;
    match found {
        Some((rule, node)) => Err(RuleFault::Rule(NodeFault { rule, node })),
        None => Ok(()),
    }
}

/// The first rule that definitions do not meet, and the number of the node where they do not.
fn first_broken<'a>(
    alloc: Global,
    schema: &'a Schema,
    definitions: &[DefinitionAt<'a>],
) -> Result<Option<(Rule, usize)>, NoMemory>
    ensures { IfOk result (λ found. found ≡ rules.first_broken (argument_rules schema.now (map definition_of definitions.now))) }
{
    let mut first = First::new();
    let mut arguments = Least::new();
    arguments_wrong(alloc, schema, &mut arguments, definitions)?;
    first.settle(Rule::V12, arguments.at);
    let mut missing = Least::new();
    arguments_missing(alloc, schema, &mut missing, definitions)?;
    first.settle(Rule::V13, missing.at);
    let mut literals = Least::new();
    literals_unfit(alloc, schema, &mut literals, definitions)?;
    first.settle(Rule::V14, literals.at);
    let mut directives = Least::new();
    directives_wrong(alloc, schema, &mut directives, definitions)?;
    first.settle(Rule::V15, directives.at);
    let mut variables = Least::new();
    variables_wrong(alloc, schema, &mut variables, definitions)?;
    first.settle(Rule::V16, variables.at);
    Ok(first.found)
}
