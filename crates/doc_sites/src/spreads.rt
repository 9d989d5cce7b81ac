//! The fragments that are spread (GraphQL, October 2021, section 2.8).
ghost use Rattle.std.specs.Prelude.{◌≡◌, ◌++◌, List, length, map, option_map, IfOk, OnOk};
ghost use Rattle.schema_types.specs.gql_graph.Graphs.{Holds, Tells};
ghost use Rattle.schema_types.specs.gql_graph.Texts.{Text};
ghost use Rattle.schema_types.specs.schema_trees.LocatedView.{name_of};
ghost use Rattle.schema_types.specs.NameRules as names;
ghost use Rattle.doc_sites.specs.Definitions.{spreading};
ghost use Rattle.doc_sites.specs.SitesView.{definition_of, site_of};

use crate::among::fragments;
use crate::site::{DefinitionAt, Site};
use schema_types::NoMemory;
use schema_types::graph::Graph;
use schema_types::located::NameAt;
use std::alloc::Global;

/// The name of the fragment that a selection spreads, where it is a spread.
fn spread_at<'a>(site: &Site<'a>) -> Option<NameAt<'a>>
    ensures { option_map name_of result ≡ names.spread_at (site_of site.now) }
{
    match site {
        Site::Field { .. } => None,
        Site::Spread { name, .. } => Some(*name),
        Site::Inline { .. } => None,
    }
}

/// The names of the fragments that are spread, in order.
pub fn spreads_at<'a>(alloc: Global, sites: &[Site<'a>]) -> Result<Vec<NameAt<'a>>, NoMemory>
    ensures { IfOk result (λ ns. map name_of ns.items ≡ names.spreads_in (map site_of sites.now)) }
{
    let mut spreads = Vec::new(alloc);
    'sites: for site in sites {
        if let Some(name) = spread_at(site) {
            spreads.push(name)?;
        }
    }
    Ok(spreads)
}

/// The names alone of the fragments that are spread, in order.
pub fn spread_names<'a>(alloc: Global, sites: &[Site<'a>]) -> Result<Vec<&'a str>, NoMemory>
    ensures { IfOk result (λ ns. map (λ n. n.now) ns.items ≡ names.names_of_all (names.spreads_in (map site_of sites.now))) }
{
    let mut spreads = Vec::new(alloc);
    'sites: for site in sites {
        if let Some(name) = spread_at(site) {
            spreads.push(name.name)?;
        }
    }
    Ok(spreads)
}

/// The fragments, each with those that it spreads. Of several of one name the first counts.
pub fn spread_graph<'a>(
    alloc: Global,
    definitions: &[DefinitionAt<'a>],
) -> Result<Graph<'a>, NoMemory>
    ensures { IfOk result (λ graph. Tells graph (names.spread_by (names.fragments (map definition_of definitions.now)))) }
{
    let mut graph = Graph::new(alloc);
    'definitions: for definition in definitions {
        put_spreads(alloc, &mut graph, definition)?;
    }
    Ok(graph)
}

/// Puts a fragment with those that it spreads.
fn put_spreads<'a>(
    alloc: Global,
    graph: &mut Graph<'a>,
    definition: &DefinitionAt<'a>,
) -> Result<(), NoMemory>
    ensures { (pairs : List (Text × List Text)) → Holds graph.old pairs
        → OnOk result (Holds graph.new (pairs ++ spreading (definition_of definition.now))) }
{
    match definition {
        DefinitionAt::Operation(_) => Ok(()),
        DefinitionAt::Fragment(fragment) => {
            let next = spread_names(alloc, &fragment.sites)?;
            graph.put(fragment.name.name, next)
        }
    }
}

/// How many fragments there are: a search from fragment to fragment takes no more steps.
pub fn count_fragments(alloc: Global, definitions: &[DefinitionAt<'_>]) -> Result<usize, NoMemory>
    ensures { IfOk result (λ count. count ≡ length (names.fragments (map definition_of definitions.now))) }
{
    let fragments = fragments(alloc, definitions)?;
    Ok(fragments.len())
}
