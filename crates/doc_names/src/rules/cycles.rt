//! V5, fragment cycles (GraphQL, October 2021, section 5.5.2.2): no fragment reaches itself through
//! spreads. `fragment F on User { friend { ...F } }` breaks it at the `F` of the spread.
//!
//! A spread whose fragment has a lower rank than the one in which it stands does not lead back. The
//! others are searched from in text order, until one leads back: where the ranks are those of the
//! components, that is the first.
ghost use Rattle.std.specs.Prelude.{◌≡◌, length, map, List, OnOk};
ghost use Rattle.doc_sites.specs.SitesView.{definition_of, fragment_of};
ghost use Rattle.doc_sites.specs.gql_graph.Graphs.{Tells};
ghost use Rattle.doc_sites.specs.gql_graph.Leasts.{least_from};
ghost use Rattle.doc_sites.specs.schema_trees.LocatedView.{name_of};
ghost use Rattle.doc_sites.specs.schema_types.NameRules as names;
ghost use Rattle.doc_sites.specs.gql_graph.Reached.{leads};
ghost use Rattle.doc_sites.specs.schema_rules.Rules as rules;
ghost use Rattle.doc_sites.specs.schema_types.Sites as sites;
ghost use Rattle.doc_sites.specs.gql_graph.Texts.{Text};
ghost use Rattle.doc_names.specs.Cycles.{leading_back, leads_back_in};
ghost use Rattle.doc_sites.specs.Definitions.{on_fragment};
ghost use Rattle.doc_sites.specs.gql_graph.Ranks.{rank_in, NeverRises};

use doc_sites::graph::Graph;
use doc_sites::least::Least;
use doc_sites::located::NameAt;
use doc_sites::ranks::Ranks;
use doc_sites::{DefinitionAt, FragmentAt, NoMemory, count_fragments, spread_graph, spreads_at};
use std::alloc::Global;

/// Spreads that lead back to the fragment in which they stand.
pub(crate) fn spreads_on_cycles(
    alloc: Global,
    least: &mut Least,
    definitions: &[DefinitionAt<'_>],
) -> Result<(), NoMemory>
    ensures { OnOk result (least.new.at ≡ least_from least.old.at (names.spreads_on_cycles (map definition_of definitions.now))) }
{
    let graph = spread_graph(alloc, definitions)?;
    let ranks = Ranks::of(alloc, &graph)?;
    let steps = count_fragments(alloc, definitions)?;
    'definitions: for definition in definitions {
        note_cycles_in(alloc, &graph, steps, &ranks, least, definition)?;
    }
    Ok(())
}

/// Spreads in a definition that lead back to it.
fn note_cycles_in<'t>(
    alloc: Global,
    graph: &Graph<'t>,
    steps: usize,
    ranks: &Ranks<'_>,
    least: &mut Least,
    definition: &DefinitionAt<'t>,
) -> Result<(), NoMemory>
    ensures { (fs : List sites.FragmentAt) → Tells graph.now (names.spread_by fs) → steps ≡ length fs → NeverRises (rank_in ranks.now) (names.spread_by fs)
        → OnOk result (least.new.at ≡ least_from least.old.at (on_fragment (leads_back_in fs) (definition_of definition.now))) }
{
    match definition {
        DefinitionAt::Operation(_) => Ok(()),
        DefinitionAt::Fragment(fragment) => {
            note_cycles_of(alloc, graph, steps, ranks, least, fragment)
        }
    }
}

/// Spreads in a fragment that lead back to it.
fn note_cycles_of<'t>(
    alloc: Global,
    graph: &Graph<'t>,
    steps: usize,
    ranks: &Ranks<'_>,
    least: &mut Least,
    fragment: &FragmentAt<'t>,
) -> Result<(), NoMemory>
    ensures { (next : Text → List Text) → Tells graph.now next → NeverRises (rank_in ranks.now) next
        → OnOk result (least.new.at ≡ least_from least.old.at (leading_back next steps (fragment_of fragment.now).name.name (names.spreads_in (fragment_of fragment.now).sites))) }
{
    let spreads = spreads_at(alloc, &fragment.sites)?;
    note_leading_back(
        alloc,
        graph,
        steps,
        ranks,
        least,
        fragment.name.name,
        &spreads,
    )
}

/// Spreads that lead to a fragment.
fn note_leading_back<'t>(
    alloc: Global,
    graph: &Graph<'t>,
    steps: usize,
    ranks: &Ranks<'_>,
    least: &mut Least,
    to: &str,
    spreads: &[NameAt<'t>],
) -> Result<(), NoMemory>
    ensures { (next : Text → List Text) → Tells graph.now next → NeverRises (rank_in ranks.now) next
        → OnOk result (least.new.at ≡ least_from least.old.at (leading_back next steps to.now (map name_of spreads.now))) }
{
    'spreads: for spread in spreads {
        note_if_leads(alloc, graph, steps, ranks, least, to, spread)?;
    }
    Ok(())
}

/// A spread, where it leads to a fragment. One that stands after a place that is noted already is not
/// looked at, and one whose fragment has a lower rank does not lead there.
fn note_if_leads<'t>(
    alloc: Global,
    graph: &Graph<'t>,
    steps: usize,
    ranks: &Ranks<'_>,
    least: &mut Least,
    to: &str,
    spread: &NameAt<'t>,
) -> Result<(), NoMemory>
    ensures { (next : Text → List Text) → Tells graph.now next → NeverRises (rank_in ranks.now) next
        → OnOk result (least.new.at ≡ least_from least.old.at (rules.wrong (leads next steps spread.now.name.now to.now) spread.now.at)) }
{
    if least.is_at_most(spread.at) {
        return Ok(());
    }
    if ranks.rank(spread.name) < ranks.rank(to) {
        return Ok(());
    }
    let leads_back = graph.leads_to(alloc, steps, &[spread.name], to)?;
    least.note_if(leads_back, spread.at);
    Ok(())
}
