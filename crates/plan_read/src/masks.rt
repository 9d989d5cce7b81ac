//! Which spreads are not masked, and which fragments are read where they stand, after Relay.
ghost use Rattle.std.specs.Prelude.{◌≡◌, ◌&&◌, map, codes, option_map, bytes_eq};
ghost use Rattle.plan_ir.specs.gql_ast.ValueView.{value_of};
ghost use Rattle.plan_expand.specs.doc_sites.SitesView.{directive_of};
ghost use Rattle.plan_ir.specs.relay_marks.Connections as connections;
ghost use Rattle.plan_build.specs.relay_model.Collection as spec;
ghost use Rattle.plan_read.specs.Reading.{are_inline};

use plan_expand::DirectiveAt;
use plan_ir::{Arguments, Directive, Directives, ValueTree};

/// The value of the argument of a name, where it is given; takes no memory. Of several of one name
/// the first counts.
fn value_of_name<'a>(arguments: &'a Arguments, name: &str) -> Option<&'a ValueTree>
    ensures { option_map (λ v. value_of v.now) result ≡ connections.value_of_name arguments.now name.now }
{
    'arguments: for argument in arguments.as_slice() {
        if argument.name.as_str() == name {
            return Some(&argument.value);
        }
    }
    None
}

/// Whether a value is `false`.
fn is_false(value: Option<&ValueTree>) -> bool
    ensures { result ≡ spec.is_false (option_map (λ v. value_of v.now) value.entry) }
{
    match value {
        Some(ValueTree::Bool(truth)) => !*truth,
        _ => false,
    }
}

/// Whether it is `@relay(mask: false)`.
fn opens(directive: &Directive) -> bool
    ensures { result ≡ (bytes_eq directive.now.name (codes "relay") && spec.is_false (connections.value_of_name directive.now.arguments (codes "mask"))) }
{
    if directive.name.as_str() == "relay" {
        return is_false(value_of_name(&directive.arguments, "mask"));
    }
    false
}

/// Whether a spread with these directives is not masked: there is a `@relay(mask: false)`.
pub(crate) fn is_open(directives: &Directives) -> bool
    ensures { result ≡ spec.is_open directives.now }
{
    'directives: for directive in directives.as_slice() {
        if opens(directive) {
            return true;
        }
    }
    false
}

/// Whether a fragment with these directives is read where it is spread: there is an `@inline`.
pub(crate) fn is_inline(directives: &[DirectiveAt<'_>]) -> bool
    ensures { result ≡ are_inline (map directive_of directives.now) }
{
    'directives: for directive in directives {
        if directive.name.name == "inline" {
            return true;
        }
    }
    false
}
