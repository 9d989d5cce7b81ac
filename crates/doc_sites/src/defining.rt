//! The operations and fragments of documents, with what stands in them.
ghost use Rattle.std.specs.Prelude.{◌≡◌, ◌+◌, ◌++◌, map, option_copied, IfOk, OnOk};
ghost use Rattle.schema_types.specs.DocumentRules.{trees_of};
ghost use Rattle.schema_types.specs.Sites as spec;
ghost use Rattle.schema_types.specs.Sites.{all_definitions, definition_nodes, document_nodes, selections_nodes};
ghost use Rattle.schema_types.specs.schema_tables.Types as types;
ghost use Rattle.doc_sites.specs.Firsts.{fragment_nodes, operation_nodes};
ghost use Rattle.doc_sites.specs.SitesView.{definition_of, fragment_of, operation_of, site_of};

use crate::parts::{directives_at, name_here, optional_name_at, variables_at};
use crate::selecting::put_sites;
use crate::site::{DefinitionAt, FragmentAt, OperationAt, Site};
use schema_types::located::pass;
use schema_types::{
    Definition, Document, Documents, Fragment, Kind, NoMemory, Operation, Schema, Selections,
};
use std::alloc::Global;

/// The selections of a set and those inside them, in text order.
fn sites_at<'a>(
    alloc: Global,
    schema: &'a Schema,
    at: &mut usize,
    around: Option<&'a str>,
    selections: &'a Selections,
) -> Result<Vec<Site<'a>>, NoMemory>
    ensures put { IfOk result (λ ss. map site_of ss.items ≡ spec.sites schema.now at.old (option_copied around.entry) selections.now) }
    ensures passed { OnOk result (at.new ≡ at.old + selections_nodes selections.now) }
{
    let mut sites = Vec::new(alloc);
    put_sites(alloc, schema, at, &mut sites, around, selections)?;
    Ok(sites)
}

/// The type of the operations of a kind (GraphQL, October 2021, section 3.3.1).
fn root(schema: &Schema, kind: Kind) -> Option<&str>
    ensures { option_copied result ≡ types.root schema.now kind }
{
    match schema.root(kind) {
        Some(name) => Some(name.as_str()),
        None => None,
    }
}

/// An operation whose definition's node comes next (section 2.3).
fn operation_at<'a>(
    alloc: Global,
    schema: &'a Schema,
    at: &mut usize,
    operation: &'a Operation,
) -> Result<OperationAt<'a>, NoMemory>
    ensures located { IfOk result (λ o. operation_of o ≡ spec.operation_at schema.now at.old operation.now) }
    ensures passed { OnOk result (at.new ≡ at.old + operation_nodes operation.now) }
{
    let first = *at;
    pass(at, 2)?;
    let name = optional_name_at(at, &operation.name)?;
    let variables = variables_at(alloc, at, &operation.variables)?;
    let directives = directives_at(alloc, at, &operation.directives)?;
    let around = root(schema, operation.kind);
    let sites = sites_at(alloc, schema, at, around, &operation.selections)?;
    Ok(OperationAt {
        first,
        kind: operation.kind,
        name,
        variables,
        directives,
        selections: &operation.selections,
        sites,
    })
}

/// A fragment whose definition's node comes next (section 2.8).
fn fragment_at<'a>(
    alloc: Global,
    schema: &'a Schema,
    at: &mut usize,
    fragment: &'a Fragment,
) -> Result<FragmentAt<'a>, NoMemory>
    ensures located { IfOk result (λ f. fragment_of f ≡ spec.fragment_at schema.now at.old fragment.now) }
    ensures passed { OnOk result (at.new ≡ at.old + fragment_nodes fragment.now) }
{
    pass(at, 2)?;
    let name = name_here(at, &fragment.name)?;
    let on = name_here(at, &fragment.on)?;
    let directives = directives_at(alloc, at, &fragment.directives)?;
    let around = Some(fragment.on.as_str());
    let sites = sites_at(alloc, schema, at, around, &fragment.selections)?;
    Ok(FragmentAt {
        name,
        on,
        directives,
        selections: &fragment.selections,
        sites,
    })
}

/// A definition whose node comes next.
fn definition_at<'a>(
    alloc: Global,
    schema: &'a Schema,
    at: &mut usize,
    definition: &'a Definition,
) -> Result<DefinitionAt<'a>, NoMemory>
    ensures located { IfOk result (λ d. definition_of d ≡ spec.definition_at schema.now at.old definition.now) }
    ensures passed { OnOk result (at.new ≡ at.old + definition_nodes definition.now) }
{
    match definition {
        Definition::Operation(operation) => {
            let operation = operation_at(alloc, schema, at, operation)?;
            Ok(DefinitionAt::Operation(operation))
        }
        Definition::Fragment(fragment) => {
            let fragment = fragment_at(alloc, schema, at, fragment)?;
            Ok(DefinitionAt::Fragment(fragment))
        }
    }
}

/// Puts the definitions of a document whose node comes next (section 2.2).
fn put_definitions<'a>(
    alloc: Global,
    schema: &'a Schema,
    at: &mut usize,
    definitions: &mut Vec<DefinitionAt<'a>>,
    document: &'a Document,
) -> Result<(), NoMemory>
    ensures put { OnOk result (map definition_of definitions.new.items ≡ map definition_of definitions.old.items ++ spec.definitions_at schema.now (at.old + 1) document.now.definitions) }
    ensures passed { OnOk result (at.new ≡ at.old + document_nodes document.now) }
{
    pass(at, 1)?;
    'definitions: for definition in document.definitions.as_slice() {
        definitions.push(definition_at(alloc, schema, at, definition)?)?;
    }
    Ok(())
}

/// All operations and fragments, in the order of the documents.
pub fn definitions_at<'a>(
    alloc: Global,
    schema: &'a Schema,
    documents: &'a Documents,
) -> Result<Vec<DefinitionAt<'a>>, NoMemory>
    ensures { IfOk result (λ ds. map definition_of ds.items ≡ all_definitions schema.now (trees_of documents.now)) }
{
    let mut at = 0;
    let mut definitions = Vec::new(alloc);
    'documents: for document in documents.as_slice() {
        put_definitions(alloc, schema, &mut at, &mut definitions, &document.tree)?;
    }
    Ok(definitions)
}
