//! The local variables of fragments, where the directives that define them have places.
ghost use Rattle.std.specs.Prelude.{◌≡◌, ◌++◌, map, IfOk, OnOk};
ghost use Rattle.constant_values.specs.gql_graph.Rules.{each};
ghost use Rattle.doc_uses.specs.doc_sites.SitesView.{argument_of, directive_of};
ghost use Rattle.relay_marks.specs.Locals as spec;
ghost use Rattle.relay_marks.specs.View.{local_view};

use doc_uses::{ArgumentAt, DirectiveAt};
use gql_syntax::gql_ast::VariableDefs;
use gql_syntax::gql_plain::NoMemory;
use relay_marks::put_local;
use std::alloc::Global;

/// Puts the local variables that arguments with places say.
fn put_arguments_at(
    alloc: Global,
    locals: &mut VariableDefs,
    arguments: &[ArgumentAt<'_>],
) -> Result<(), NoMemory>
    ensures { OnOk result (map local_view locals.new ≡ map local_view locals.old ++ each spec.local_at (map argument_of arguments.now)) }
{
    'arguments: for argument in arguments {
        put_local(alloc, locals, argument.name.name, argument.value.of)?;
    }
    Ok(())
}

/// Puts the local variables that a directive with places defines.
fn put_directive_at(
    alloc: Global,
    locals: &mut VariableDefs,
    directive: &DirectiveAt<'_>,
) -> Result<(), NoMemory>
    ensures { OnOk result (map local_view locals.new ≡ map local_view locals.old ++ spec.locals_at (directive_of directive.now)) }
{
    if directive.name.name == "argumentDefinitions" {
        return put_arguments_at(alloc, locals, &directive.arguments);
    }
    Ok(())
}

/// The local variables that directives with places define.
pub(crate) fn locals_of(
    alloc: Global,
    directives: &[DirectiveAt<'_>],
) -> Result<VariableDefs, NoMemory>
    ensures { IfOk result (λ locals. map local_view locals ≡ spec.locals_of (map directive_of directives.now)) }
{
    let mut locals = VariableDefs::new(alloc);
    'directives: for directive in directives {
        put_directive_at(alloc, &mut locals, directive)?;
    }
    Ok(locals)
}
