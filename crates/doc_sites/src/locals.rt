//! The local variables of fragments.
ghost use Rattle.std.specs.Prelude.{◌≡◌, ◌++◌, map, IfOk, OnOk};
ghost use Rattle.schema_types.specs.ArgumentRules as rules;
ghost use Rattle.schema_types.specs.schema_trees.LocatedView.{name_of};
ghost use Rattle.schema_types.specs.gql_graph.Rules.{each};
ghost use Rattle.schema_types.specs.gql_graph.Seen.{Knows};
ghost use Rattle.doc_sites.specs.SitesView.{argument_of, directive_of};
ghost use Rattle.doc_sites.specs.Locals.{located_locals};

use crate::site::{ArgumentAt, DirectiveAt};
use schema_types::NoMemory;
use schema_types::located::NameAt;
use schema_types::repeats::seen_names;
use schema_types::seen::Seen;
use std::alloc::Global;

/// Puts the names of arguments.
fn put_names<'a>(names: &mut Vec<NameAt<'a>>, arguments: &[ArgumentAt<'a>]) -> Result<(), NoMemory>
    ensures { OnOk result (map name_of names.new.items ≡ map name_of names.old.items ++ rules.argument_names (map argument_of arguments.now)) }
{
    'arguments: for argument in arguments {
        names.push(argument.name)?;
    }
    Ok(())
}

/// Puts the local variables that a directive defines.
fn put_locals<'a>(names: &mut Vec<NameAt<'a>>, directive: &DirectiveAt<'a>) -> Result<(), NoMemory>
    ensures { OnOk result (map name_of names.new.items ≡ map name_of names.old.items ++ located_locals (directive_of directive.now)) }
{
    if directive.name.name == "argumentDefinitions" {
        return put_names(names, &directive.arguments);
    }
    Ok(())
}

/// The names of the local variables that directives define.
fn locals_of<'a>(alloc: Global, directives: &[DirectiveAt<'a>]) -> Result<Vec<NameAt<'a>>, NoMemory>
    ensures { IfOk result (λ ns. map name_of ns.items ≡ each located_locals (map directive_of directives.now)) }
{
    let mut names = Vec::new(alloc);
    'directives: for directive in directives {
        put_locals(&mut names, directive)?;
    }
    Ok(names)
}

/// The set of the local variables that directives define: the names of the arguments of
/// `@argumentDefinitions`.
#[tactic(auto, using(crate::proofs::LocalNames::naming))]
pub fn locals_in<'a>(alloc: Global, directives: &[DirectiveAt<'a>]) -> Result<Seen<'a>, NoMemory>
    ensures { IfOk result (λ seen. Knows seen.names (each rules.locals_in (map directive_of directives.now))) }
{
    let names = locals_of(alloc, directives)?;
    let seen = seen_names(alloc, &names)?;
    Ok(seen)
}
