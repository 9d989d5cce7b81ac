//! The fields and directives of a definition with their arguments, in text order.
ghost use Rattle.std.specs.Prelude.{◌≡◌, ◌++◌, map, IfOk, OnOk};
ghost use Rattle.doc_uses.specs.schema_types.ArgumentRules as rules;
ghost use Rattle.gql_graph.specs.Rules.{each};
ghost use Rattle.doc_uses.specs.doc_sites.SitesView.{definition_of, directive_of, site_of, variable_of};
ghost use Rattle.doc_args.specs.CallView.{call_of};

use crate::call::{Call, directive_call, field_call};
use doc_uses::{DefinitionAt, DirectiveAt, Schema, Site, VariableAt};
use gql_graph::gql_plain::NoMemory;
use std::alloc::Global;

/// Puts directives.
fn put_directives<'d, 'a>(
    schema: &'a Schema,
    calls: &mut Vec<Call<'d, 'a>>,
    directives: &'d [DirectiveAt<'a>],
) -> Result<(), NoMemory>
    ensures { OnOk result (map call_of calls.new.items ≡ map call_of calls.old.items ++ rules.directive_calls schema.now (map directive_of directives.now)) }
{
    'directives: for directive in directives {
        calls.push(directive_call(schema, directive))?;
    }
    Ok(())
}

/// Puts a selection apart from those inside it.
fn put_site<'d, 'a>(
    schema: &'a Schema,
    calls: &mut Vec<Call<'d, 'a>>,
    site: &'d Site<'a>,
) -> Result<(), NoMemory>
    ensures { OnOk result (map call_of calls.new.items ≡ map call_of calls.old.items ++ rules.calls_at schema.now (site_of site.now)) }
{
    match site {
        Site::Field {
            around,
            name,
            arguments,
            directives,
            ..
        } => {
            calls.push(field_call(schema, *around, *name, arguments))?;
            put_directives(schema, calls, directives)
        }
        Site::Spread { directives, .. } => put_directives(schema, calls, directives),
        Site::Inline { directives, .. } => put_directives(schema, calls, directives),
    }
}

/// Puts selections.
fn put_sites<'d, 'a>(
    schema: &'a Schema,
    calls: &mut Vec<Call<'d, 'a>>,
    sites: &'d [Site<'a>],
) -> Result<(), NoMemory>
    ensures { OnOk result (map call_of calls.new.items ≡ map call_of calls.old.items ++ each (rules.calls_at schema.now) (map site_of sites.now)) }
{
    'sites: for site in sites {
        put_site(schema, calls, site)?;
    }
    Ok(())
}

/// Puts the directives of variables.
fn put_variables<'d, 'a>(
    schema: &'a Schema,
    calls: &mut Vec<Call<'d, 'a>>,
    variables: &'d [VariableAt<'a>],
) -> Result<(), NoMemory>
    ensures { OnOk result (map call_of calls.new.items ≡ map call_of calls.old.items ++ rules.variable_calls schema.now (map variable_of variables.now)) }
{
    'variables: for variable in variables {
        put_directives(schema, calls, &variable.directives)?;
    }
    Ok(())
}

/// Puts what stands in an operation or a fragment, its variables apart.
fn put_calls<'d, 'a>(
    schema: &'a Schema,
    calls: &mut Vec<Call<'d, 'a>>,
    directives: &'d [DirectiveAt<'a>],
    sites: &'d [Site<'a>],
) -> Result<(), NoMemory>
    ensures { OnOk result (map call_of calls.new.items ≡ map call_of calls.old.items ++ rules.calls_in schema.now (map directive_of directives.now) (map site_of sites.now)) }
{
    put_directives(schema, calls, directives)?;
    put_sites(schema, calls, sites)
}

/// What stands in an operation or a fragment, its variables apart.
pub(crate) fn calls_in<'d, 'a>(
    alloc: Global,
    schema: &'a Schema,
    directives: &'d [DirectiveAt<'a>],
    sites: &'d [Site<'a>],
) -> Result<Vec<Call<'d, 'a>>, NoMemory>
    ensures { IfOk result (λ cs. map call_of cs.items ≡ rules.calls_in schema.now (map directive_of directives.now) (map site_of sites.now)) }
{
    let mut calls = Vec::new(alloc);
    put_calls(schema, &mut calls, directives, sites)?;
    Ok(calls)
}

/// What stands in a definition.
pub(crate) fn calls_of<'d, 'a>(
    alloc: Global,
    schema: &'a Schema,
    definition: &'d DefinitionAt<'a>,
) -> Result<Vec<Call<'d, 'a>>, NoMemory>
    ensures { IfOk result (λ cs. map call_of cs.items ≡ rules.calls_of schema.now (definition_of definition.now)) }
{
    let mut calls = Vec::new(alloc);
    match definition {
        DefinitionAt::Operation(operation) => {
            put_variables(schema, &mut calls, &operation.variables)?;
            put_calls(schema, &mut calls, &operation.directives, &operation.sites)?;
            Ok(calls)
        }
        DefinitionAt::Fragment(fragment) => {
            put_calls(schema, &mut calls, &fragment.directives, &fragment.sites)?;
            Ok(calls)
        }
    }
}
