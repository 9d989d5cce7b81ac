//! The variables that spreads give to local variables by `@arguments`, each at its place; they are told
//! at the name of the spread.
ghost use Rattle.std.specs.Prelude.{◌≡◌, ◌++◌, List, map, option_map, IfOk, OnOk};
ghost use Rattle.constant_values.specs.gql_graph.Rules.{each};
ghost use Rattle.constant_values.specs.schema_types.Sites as parts;
ghost use Rattle.doc_uses.specs.doc_sites.SitesView.{argument_of, site_of};
ghost use Rattle.doc_uses.specs.UseView.{place_of, use_of};
ghost use Rattle.relay_marks.specs.Locals.{Local, local_named};
ghost use Rattle.relay_rules.specs.Spreads as spec;
ghost use Rattle.relay_dirs.specs.Tables.{Finds, Suits};
ghost use Rattle.relay_marks.specs.View.{local_view};

use crate::fragments::{Fragments, Locals};
use crate::spread_arguments::spread_arguments;
use constant_values::Schema;
use constant_values::located::NameAt;
use doc_uses::{ArgumentAt, Place, Site, Use, put_argument};
use gql_syntax::gql_ast::VariableDef;
use gql_syntax::gql_plain::NoMemory;
use std::alloc::Global;

/// The variables that spreads among selections give.
pub(crate) fn uses_in_spreads<'p, 'a>(
    alloc: Global,
    schema: &'p Schema,
    table: &Fragments<'p>,
    sites: &[Site<'a>],
) -> Result<Vec<Use<'p, 'a>>, NoMemory>
    ensures { (fs : List parts.FragmentAt) → Suits table.now fs
        → IfOk result (λ us. map use_of us.items ≡ spec.uses_in_spreads schema.now fs (map site_of sites.now)) }
{
    let mut uses = Vec::new(alloc);
    'sites: for site in sites {
        put_site(alloc, schema, table, &mut uses, site)?;
    }
    Ok(uses)
}

/// Puts the variables that a selection gives, where it is a spread.
fn put_site<'p, 'a>(
    alloc: Global,
    schema: &'p Schema,
    table: &Fragments<'p>,
    uses: &mut Vec<Use<'p, 'a>>,
    site: &Site<'a>,
) -> Result<(), NoMemory>
    ensures { (fs : List parts.FragmentAt) → Suits table.now fs
        → OnOk result (map use_of uses.new.items ≡ map use_of uses.old.items ++ spec.uses_at_spread schema.now fs (site_of site.now)) }
{
    match site {
        Site::Field { .. } => Ok(()),
        Site::Spread {
            name,
            directives,
            ..
        } => {
            let given = spread_arguments(alloc, directives)?;
            let locals = table.find(name.name);
            put_given(alloc, schema, uses, name.at, locals, &given)
        }
        Site::Inline { .. } => Ok(()),
    }
}

/// Puts the variables in what is given to these local variables, each told at this node.
fn put_given<'p, 'a>(
    alloc: Global,
    schema: &'p Schema,
    uses: &mut Vec<Use<'p, 'a>>,
    at: usize,
    locals: Option<&Locals<'p>>,
    given: &[ArgumentAt<'a>],
) -> Result<(), NoMemory>
    ensures { (ls : List Local) → Finds (option_map (λ t. t.now) locals.entry) ls
        → OnOk result (map use_of uses.new.items ≡ map use_of uses.old.items ++ each (spec.uses_of_given schema.now at ls) (map argument_of given.now)) }
{
    'given: for argument in given {
        put_given_to(alloc, schema, uses, at, locals, argument)?;
    }
    Ok(())
}

/// Puts the variables in what one argument gives.
fn put_given_to<'p, 'a>(
    alloc: Global,
    schema: &'p Schema,
    uses: &mut Vec<Use<'p, 'a>>,
    at: usize,
    locals: Option<&Locals<'p>>,
    argument: &ArgumentAt<'a>,
) -> Result<(), NoMemory>
    ensures { (ls : List Local) → Finds (option_map (λ t. t.now) locals.entry) ls
        → OnOk result (map use_of uses.new.items ≡ map use_of uses.old.items ++ spec.uses_of_given schema.now at ls (argument_of argument.now)) }
{
    let place = place_of_local(find_local(locals, argument.name.name));
    let mut found = Vec::new(alloc);
    put_argument(schema, &mut found, argument, place)?;
    put_moved(uses, at, &found)
}

/// The local variable of a name, where there are any.
fn find_local<'p>(locals: Option<&Locals<'p>>, name: &str) -> Option<&'p VariableDef>
    ensures { (ls : List Local) → Finds (option_map (λ t. t.now) locals.entry) ls → option_map (λ v. local_view v.now) result ≡ local_named ls name.now }
{
    match locals {
        Some(locals) => locals.find(name),
        None => None,
    }
}

/// The place that a local variable is: its type, and its default where it has one.
fn place_of_local<'p>(local: Option<&'p VariableDef>) -> Option<Place<'p>>
    ensures { option_map place_of result ≡ spec.place_of_local (option_map (λ v. local_view v.now) local.entry) }
{
    match local {
        Some(local) => Some(Place {
            of: &local.of,
            has_default: local.default.is_some(),
        }),
        None => None,
    }
}

/// Puts uses, each told at this node.
fn put_moved<'p, 'a>(
    uses: &mut Vec<Use<'p, 'a>>,
    at: usize,
    found: &[Use<'p, 'a>],
) -> Result<(), NoMemory>
    ensures { OnOk result (map use_of uses.new.items ≡ map use_of uses.old.items ++ map (spec.move_use at) (map use_of found.now)) }
{
    'found: for one in found {
        let name = NameAt {
            name: one.name.name,
            at,
        };
        uses.push(Use {
            name,
            place: one.place,
        })?;
    }
    Ok(())
}
