//! V4, spread targets (GraphQL, October 2021, section 5.5.2.1): a fragment that is spread is
//! defined. `{ me { ...F } }` without a fragment F breaks it at `F`.
ghost use Rattle.std.specs.Prelude.{◌≡◌, map, List, IfOk, OnOk};
ghost use Rattle.doc_sites.specs.SitesView.{definition_of};
ghost use Rattle.doc_sites.specs.gql_graph.Leasts.{least_from};
ghost use Rattle.doc_sites.specs.schema_trees.LocatedView.{name_of};
ghost use Rattle.doc_sites.specs.schema_types.NameRules as names;
ghost use Rattle.doc_sites.specs.schema_rules.Rules as rules;
ghost use Rattle.doc_sites.specs.gql_graph.Seen.{Knows};
ghost use Rattle.doc_sites.specs.gql_graph.Texts.{Text};

use crate::named::fragment_names;
use doc_sites::least::Least;
use doc_sites::located::NameAt;
use doc_sites::repeats::seen_names;
use doc_sites::seen::Seen;
use doc_sites::{DefinitionAt, NoMemory, spreads_at};
use std::alloc::Global;

/// Spreads of no fragment, in operations and in fragments.
pub(crate) fn fragments_not_there(
    alloc: Global,
    least: &mut Least,
    definitions: &[DefinitionAt<'_>],
) -> Result<(), NoMemory>
    ensures { OnOk result (least.new.at ≡ least_from least.old.at (names.fragments_not_there (map definition_of definitions.now))) }
{
    let there = names_there(alloc, definitions)?;
    'definitions: for definition in definitions {
        note_not_there_in(alloc, &there, least, definition)?;
    }
    Ok(())
}

/// The names of fragments.
fn names_there<'a>(alloc: Global, definitions: &[DefinitionAt<'a>]) -> Result<Seen<'a>, NoMemory>
    ensures { IfOk result (λ seen. Knows seen.names (names.names_of_all (names.fragment_names (map definition_of definitions.now)))) }
{
    let names = fragment_names(alloc, definitions)?;
    seen_names(alloc, &names)
}

/// Spreads of no fragment in a definition.
fn note_not_there_in(
    alloc: Global,
    there: &Seen<'_>,
    least: &mut Least,
    definition: &DefinitionAt<'_>,
) -> Result<(), NoMemory>
    ensures { (ns : List Text) → Knows there.now.names ns
        → OnOk result (least.new.at ≡ least_from least.old.at (rules.each (names.not_there ns) (names.spreads_in (names.sites_of (definition_of definition.now))))) }
{
    let spreads = spreads_at(alloc, definition.sites())?;
    note_not_there(there, least, &spreads);
    Ok(())
}

/// Names of no fragment.
fn note_not_there(there: &Seen<'_>, least: &mut Least, spreads: &[NameAt<'_>])
    ensures { (ns : List Text) → Knows there.now.names ns
        → least.new.at ≡ least_from least.old.at (rules.each (names.not_there ns) (map name_of spreads.now)) }
{
    'spreads: for spread in spreads {
        least.note_if(!there.contains(spread.name), spread.at);
    }
}
