//! The local variables of fragments in written order: the arguments of `@argumentDefinitions`, after
//! Relay.
ghost use Rattle.std.specs.Prelude.{◌≡◌, ◌++◌, map, IfOk, OnOk};
ghost use Rattle.plan_ir.specs.gql_ast.ValueView.{value_of};
ghost use Rattle.plan_ir.specs.gql_graph.Rules.{each};
ghost use Rattle.plan_expand.specs.doc_sites.SitesView.{argument_of, directive_of};
ghost use Rattle.plan_ir.specs.relay_marks.Locals as spec;
ghost use Rattle.plan_ir.specs.relay_marks.View.{local_view};

use plan_expand::{ArgumentAt, DirectiveAt};
use plan_ir::{NoMemory, ValueTree, VariableDefs, local_of};
use std::alloc::Global;

/// Puts the local variable that an argument defines, where it defines one.
fn put_local(
    alloc: Global,
    locals: &mut VariableDefs,
    name: &str,
    value: &ValueTree,
) -> Result<(), NoMemory>
    ensures { OnOk result (map local_view locals.new ≡ map local_view locals.old ++ spec.as_list (spec.local_of name.now (value_of value.now))) }
{
    match local_of(alloc, name, value)? {
        Some(local) => locals.push(local),
        None => Ok(()),
    }
}

/// Puts the local variables that arguments define.
fn put_arguments(
    alloc: Global,
    locals: &mut VariableDefs,
    arguments: &[ArgumentAt<'_>],
) -> Result<(), NoMemory>
    ensures { OnOk result (map local_view locals.new ≡ map local_view locals.old ++ each spec.local_at (map argument_of arguments.now)) }
{
    'arguments: for argument in arguments {
        put_local(alloc, locals, argument.name.name, argument.value.of)?;
    }
    Ok(())
}

/// Puts the local variables that a directive defines.
fn put_directive(
    alloc: Global,
    locals: &mut VariableDefs,
    directive: &DirectiveAt<'_>,
) -> Result<(), NoMemory>
    ensures { OnOk result (map local_view locals.new ≡ map local_view locals.old ++ spec.locals_at (directive_of directive.now)) }
{
    if directive.name.name == "argumentDefinitions" {
        return put_arguments(alloc, locals, &directive.arguments);
    }
    Ok(())
}

/// The local variables that directives define, in written order.
pub(crate) fn locals_of(
    alloc: Global,
    directives: &[DirectiveAt<'_>],
) -> Result<VariableDefs, NoMemory>
    ensures { IfOk result (λ locals. map local_view locals ≡ spec.locals_of (map directive_of directives.now)) }
{
    let mut locals = VariableDefs::new(alloc);
    'directives: for directive in directives {
        put_directive(alloc, &mut locals, directive)?;
    }
    Ok(locals)
}
