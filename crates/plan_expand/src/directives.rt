//! Which directives are printed.
ghost use Rattle.std.specs.Prelude.{◌≡◌, ◌∷◌, ◌++◌, [], map, IfOk, OnOk};
ghost use Rattle.plan_ir.specs.gql_plain.Order.{has_text};
ghost use Rattle.doc_sites.specs.SitesView.{argument_of, directive_of};
ghost use Rattle.plan_ir.specs.Expansion as spec;
ghost use Rattle.plan_ir.specs.Substitution.{operation_scope};
ghost use Rattle.plan_expand.specs.Printing.{shows};
ghost use Rattle.plan_expand.specs.ScopeView.{scope_of};

use crate::scope::{Scope, substitute_in};
use doc_sites::{ArgumentAt, DirectiveAt};
use plan_ir::{Argument, Arguments, Directive, Directives, NoMemory, Words};
use std::alloc::Global;

/// Whether it is the name of a directive after Relay.
fn is_after_relay(name: &str) -> bool
    ensures { result ≡ has_text spec.after_relay name.now }
{
    if "connection" == name {
        return true;
    }
    if "arguments" == name {
        return true;
    }
    if "relay" == name {
        return true;
    }
    if "argumentDefinitions" == name {
        return true;
    }
    "inline" == name
}

/// Whether a directive of a field, an inline fragment or an operation is printed: those after Relay
/// are not.
fn is_printed(name: &str) -> bool
    ensures { result ≡ spec.is_printed name.now }
{
    !is_after_relay(name)
}

/// Whether a directive of a spread is printed.
fn is_condition(name: &str) -> bool
    ensures { result ≡ spec.is_condition name.now }
{
    if name == "skip" {
        return true;
    }
    name == "include"
}

/// Whether a directive is printed.
pub(crate) fn is_shown(name: &str, is_spread: bool) -> bool
    ensures { result ≡ shows is_spread name.now }
{
    if is_spread {
        return is_condition(name);
    }
    is_printed(name)
}

/// Those that are printed, with local variables replaced. A spread prints its conditions alone.
pub fn print_directives(
    alloc: Global,
    scope: &Scope<'_, '_>,
    directives: &Directives,
    is_spread: bool,
) -> Result<Directives, NoMemory>
    ensures { IfOk result (λ ds. ds ≡ spec.directives_such (shows is_spread) (scope_of scope.now) directives.now) }
{
    let mut printed = Directives::new(alloc);
    'directives: for directive in directives.as_slice() {
        put_directive(alloc, scope, &mut printed, directive, is_spread)?;
    }
    Ok(printed)
}

/// Puts a directive, where it is printed.
fn put_directive(
    alloc: Global,
    scope: &Scope<'_, '_>,
    printed: &mut Directives,
    directive: &Directive,
    is_spread: bool,
) -> Result<(), NoMemory>
    ensures { OnOk result (printed.new ≡ printed.old ++ spec.directives_such (shows is_spread) (scope_of scope.now) (directive.now ∷ [])) }
{
    if is_shown(directive.name.as_str(), is_spread) {
        let name = directive.name.copy()?;
        let arguments = substitute_in(alloc, scope, &directive.arguments)?;
        return printed.push(Directive { name, arguments });
    }
    Ok(())
}

/// The directives of an operation that are printed. There are no local variables in them.
pub(crate) fn print_own(
    alloc: Global,
    directives: &[DirectiveAt<'_>],
) -> Result<Directives, NoMemory>
    ensures { IfOk result (λ ds. ds ≡ spec.printed_directives operation_scope (spec.directive_trees (map directive_of directives.now))) }
{
    let mut printed = Directives::new(alloc);
    'directives: for directive in directives {
        put_own(alloc, &mut printed, directive)?;
    }
    Ok(printed)
}

/// Puts a directive of an operation, where it is printed.
fn put_own(
    alloc: Global,
    printed: &mut Directives,
    directive: &DirectiveAt<'_>,
) -> Result<(), NoMemory>
    ensures { OnOk result (printed.new ≡ printed.old ++ spec.printed_directives operation_scope (spec.directive_tree (directive_of directive.now) ∷ [])) }
{
    if is_printed(directive.name.name) {
        let name = Words::new(alloc, directive.name.name)?;
        let arguments = copy_arguments(alloc, &directive.arguments)?;
        return printed.push(Directive { name, arguments });
    }
    Ok(())
}

/// The arguments of a directive of an operation.
fn copy_arguments(alloc: Global, arguments: &[ArgumentAt<'_>]) -> Result<Arguments, NoMemory>
    ensures { IfOk result (λ xs. xs ≡ spec.argument_pairs (map argument_of arguments.now)) }
{
    let mut copies = Arguments::new(alloc);
    'arguments: for argument in arguments {
        let name = Words::new(alloc, argument.name.name)?;
        let value = argument.value.of.copy()?;
        copies.push(Argument { name, value })?;
    }
    Ok(copies)
}
