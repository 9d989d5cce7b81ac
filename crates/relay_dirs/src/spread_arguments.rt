//! What a spread gives to the local variables of its fragment by `@arguments`, after Relay.
ghost use Rattle.std.specs.Prelude.{◌≡◌, ◌++◌, [], List, map, option_map, IfOk, OnOk};
ghost use Rattle.std.specs.List.{list_all};
ghost use Rattle.gql_syntax.specs.gql_ast.ValueView.{value_of};
ghost use Rattle.gql_syntax.specs.gql_plain.Order.{has_text};
ghost use Rattle.constant_values.specs.schema_types.ArgumentRules.{is_null};
ghost use Rattle.constant_values.specs.gql_graph.Seen.{Knows};
ghost use Rattle.constant_values.specs.gql_graph.Texts.{Text};
ghost use Rattle.constant_values.specs.schema_tables.Types.{Defs};
ghost use Rattle.doc_uses.specs.doc_sites.SitesView.{argument_of, directive_of};
ghost use Rattle.relay_dirs.specs.GivenNames.{given_name, given_names};
ghost use Rattle.relay_marks.specs.Locals.{Local};
ghost use Rattle.relay_rules.specs.Spreads as spec;
ghost use Rattle.relay_dirs.specs.Tables.{Finds, Serves};
ghost use Rattle.relay_marks.specs.View.{local_view};

use crate::fragments::Locals;
use constant_values::Schema;
use constant_values::seen::Seen;
use doc_uses::{ArgumentAt, DirectiveAt};
use gql_syntax::gql_ast::{ValueTree, VariableDef};
use gql_syntax::gql_plain::NoMemory;
use std::alloc::Global;

/// The arguments that the directives of a spread give.
pub(crate) fn spread_arguments<'a>(
    alloc: Global,
    directives: &[DirectiveAt<'a>],
) -> Result<Vec<ArgumentAt<'a>>, NoMemory>
    ensures { IfOk result (λ xs. map argument_of xs.items ≡ spec.spread_arguments (map directive_of directives.now)) }
{
    let mut given = Vec::new(alloc);
    'directives: for directive in directives {
        put_arguments_by(&mut given, directive)?;
    }
    Ok(given)
}

/// Puts the arguments of a directive, where it is `@arguments`.
fn put_arguments_by<'a>(
    given: &mut Vec<ArgumentAt<'a>>,
    directive: &DirectiveAt<'a>,
) -> Result<(), NoMemory>
    ensures { OnOk result (map argument_of given.new.items ≡ map argument_of given.old.items ++ spec.arguments_by (directive_of directive.now)) }
{
    if directive.name.name == "arguments" {
        return put_arguments(given, &directive.arguments);
    }
    Ok(())
}

/// Puts arguments.
fn put_arguments<'a>(
    given: &mut Vec<ArgumentAt<'a>>,
    arguments: &[ArgumentAt<'a>],
) -> Result<(), NoMemory>
    ensures { OnOk result (map argument_of given.new.items ≡ map argument_of given.old.items ++ map argument_of arguments.now) }
{
    'arguments: for argument in arguments {
        given.push(*argument)?;
    }
    Ok(())
}

/// Whether what is given fits local variables, and each is given that must be. `locals` are those of
/// the fragment that is spread, where there is one.
pub(crate) fn are_given_well(
    alloc: Global,
    schema: &Schema,
    locals: Option<&Locals<'_>>,
    given: &[ArgumentAt<'_>],
) -> Result<bool, NoMemory>
    ensures { (ls : List Local) → Finds (option_map (λ t. t.now) locals.entry) ls
        → IfOk result (λ b. b ≡ spec.are_given_well schema.now ls (map argument_of given.now)) }
{
    match locals {
        Some(locals) => are_served(alloc, schema, locals, given),
        None => Ok(is_nothing(given)),
    }
}

/// Whether nothing is given, as it has to be where there are no local variables.
fn is_nothing(given: &[ArgumentAt<'_>]) -> bool
    ensures { (defs : Defs) → result ≡ spec.are_given_well defs [] (map argument_of given.now) }
{
    match given {
        [] => true,
        [_, ..] => false,
    }
}

/// Whether what is given fits these local variables, and each is given that must be. Takes the time of
/// one look-up for each argument that is given, and for each local variable that must be given up to
/// the first that is not.
fn are_served(
    alloc: Global,
    schema: &Schema,
    locals: &Locals<'_>,
    given: &[ArgumentAt<'_>],
) -> Result<bool, NoMemory>
    ensures { (ls : List Local) → Serves locals.now ls
        → IfOk result (λ b. b ≡ spec.are_given_well schema.now ls (map argument_of given.now)) }
{
    let fit = fit_locals(alloc, schema, locals, given)?;
    let names = given_names(alloc, given)?;
    let complete = are_given(&names, &locals.required);
    Ok(fit && complete)
}

/// Whether each argument names a local variable and fits it.
fn fit_locals(
    alloc: Global,
    schema: &Schema,
    locals: &Locals<'_>,
    given: &[ArgumentAt<'_>],
) -> Result<bool, NoMemory>
    ensures { (ls : List Local) → Serves locals.now ls → IfOk result (λ b. b ≡ list_all (spec.fits_local schema.now ls) (map argument_of given.now)) }
{
    'given: for argument in given {
        let local = locals.find(argument.name.name);
        let fits = fits_found(alloc, schema, local, argument.value.of)?;
        if !fits {
            return Ok(false);
        }
    }
    Ok(true)
}

/// Whether there is a local variable, and a value fits its type.
fn fits_found(
    alloc: Global,
    schema: &Schema,
    local: Option<&VariableDef>,
    value: &ValueTree,
) -> Result<bool, NoMemory>
    ensures { IfOk result (λ b. b ≡ spec.fits_found schema.now (option_map (λ v. local_view v.now) local.entry) (value_of value.now)) }
{
    match local {
        Some(local) => {
            let fits = schema.literal_fits(alloc, value, &local.of)?;
            Ok(fits)
        }
        None => Ok(false),
    }
}

/// Whether each of these names is one of those that are given.
fn are_given(names: &Seen<'_>, required: &[&str]) -> bool
    ensures { (ns : List Text) → Knows names.now.names ns → result ≡ list_all (has_text ns) (map (λ n. n.now) required.now) }
{
    'required: for name in required {
        if !names.contains(name) {
            return false;
        }
    }
    true
}

/// The set of the names of arguments that are given, and not as `null`.
fn given_names<'a>(alloc: Global, given: &[ArgumentAt<'a>]) -> Result<Seen<'a>, NoMemory>
    ensures { IfOk result (λ seen. Knows seen.names (given_names (map argument_of given.now))) }
{
    let mut seen = Seen::new(alloc);
    let mut left = given.len();
    'given: while left > 0 {
        left -= 1;
        put_given_name(&mut seen, &given[left])?;
    }
    Ok(seen)
}

/// Puts the name of an argument that is given, and not as `null`.
fn put_given_name<'a>(seen: &mut Seen<'a>, argument: &ArgumentAt<'a>) -> Result<(), NoMemory>
    ensures { (ns : List Text) → Knows seen.old.names ns → OnOk result (Knows seen.new.names (given_name (argument_of argument.now) ++ ns)) }
{
    if is_null(argument.value.of) {
        return Ok(());
    }
    let _is_new = seen.insert(argument.name.name)?;
    Ok(())
}

/// Whether a value is `null`.
fn is_null(value: &ValueTree) -> bool
    ensures { result ≡ is_null (value_of value.now) }
{
    matches!(value, ValueTree::Null)
}
