//! The variables that are used in what fields and directives take, each at its place (GraphQL, October
//! 2021, section 5.8.5).
ghost use Rattle.std.specs.Prelude.{◌≡◌, ◌++◌, map, IfOk, OnOk};
ghost use Rattle.doc_uses.specs.schema_types.ArgumentRules as rules;
ghost use Rattle.gql_graph.specs.Rules.{each};
ghost use Rattle.doc_uses.specs.doc_sites.SitesView.{argument_of, directive_of, site_of};
ghost use Rattle.doc_uses.specs.UseView.{use_of};
ghost use Rattle.doc_args.specs.CallView.{call_of};
ghost use Rattle.doc_args.specs.UsesIn.{uses_unknown};

use crate::call::{Call, Takes, find_input};
use crate::calls::calls_in;
use doc_uses::{
    ArgumentAt, DirectiveAt, InputDefs, Schema, Site, Use, place_of_input, put_argument,
};
use gql_graph::gql_plain::NoMemory;
use std::alloc::Global;

/// Puts the variables in arguments for which no type is known.
fn put_unknown<'a>(
    schema: &'a Schema,
    uses: &mut Vec<Use<'a, 'a>>,
    arguments: &[ArgumentAt<'a>],
) -> Result<(), NoMemory>
    ensures { OnOk result (map use_of uses.new.items ≡ map use_of uses.old.items ++ each (uses_unknown schema.now) (map argument_of arguments.now)) }
{
    'arguments: for argument in arguments {
        put_argument(schema, uses, argument, None)?;
    }
    Ok(())
}

/// Puts the variables in arguments for these.
fn put_known<'a>(
    schema: &'a Schema,
    uses: &mut Vec<Use<'a, 'a>>,
    inputs: &InputDefs<'a>,
    arguments: &[ArgumentAt<'a>],
) -> Result<(), NoMemory>
    ensures { OnOk result (map use_of uses.new.items ≡ map use_of uses.old.items ++ each (rules.uses_of_argument schema.now (rules.inputs inputs.now)) (map argument_of arguments.now)) }
{
    'arguments: for argument in arguments {
        let place = place_of_input(find_input(inputs, argument.name.name));
        put_argument(schema, uses, argument, place)?;
    }
    Ok(())
}

/// Puts the variables in the arguments of a field or a directive.
fn put_call<'a>(
    schema: &'a Schema,
    uses: &mut Vec<Use<'a, 'a>>,
    call: &Call<'_, 'a>,
) -> Result<(), NoMemory>
    ensures { OnOk result (map use_of uses.new.items ≡ map use_of uses.old.items ++ rules.uses_of_call schema.now (call_of call.now)) }
{
    match &call.takes {
        Takes::Inputs(inputs) => put_known(schema, uses, inputs, call.arguments),
        Takes::Nothing => put_unknown(schema, uses, call.arguments),
        Takes::Free => put_unknown(schema, uses, call.arguments),
        Takes::Unknown => put_unknown(schema, uses, call.arguments),
    }
}

/// The variables that are used in an operation or a fragment.
pub(crate) fn uses_of<'a>(
    alloc: Global,
    schema: &'a Schema,
    directives: &[DirectiveAt<'a>],
    sites: &[Site<'a>],
) -> Result<Vec<Use<'a, 'a>>, NoMemory>
    ensures { IfOk result (λ us. map use_of us.items ≡ rules.uses_of schema.now (map directive_of directives.now) (map site_of sites.now)) }
{
    let calls = calls_in(alloc, schema, directives, sites)?;
    let mut uses = Vec::new(alloc);
    'calls: for call in &calls {
        put_call(schema, &mut uses, call)?;
    }
    Ok(uses)
}
