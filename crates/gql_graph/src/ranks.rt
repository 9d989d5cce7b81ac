//! Ranks of names that rise along no link of a graph. From a name of a lower rank no links lead to one
//! of a higher rank, so that between the two no search is wanted.
ghost use Rattle.std.specs.Prelude.{◌≡◌, [], List, map, unwrap_or, IfOk, IsTrue};
ghost use Rattle.gql_graph.specs.Graphs.{links_of, Tells};
ghost use Rattle.gql_graph.specs.Ranks.{rank_in, AllBelow, NeverRises, NoneAbove};
ghost use Rattle.gql_graph.specs.Texts.{Text};

use crate::components::Components;
use crate::graph::Graph;
use gql_plain::NoMemory;
use std::alloc::Global;
use std::collections::BTreeMap;

/// Names, each with its rank.
#[derive(Drop)]
pub struct Ranks<'t> {
    ranks: BTreeMap<&'t str, usize>,
}

impl<'t> Ranks<'t> {
    /// Ranks of names that rise along no link. Two names have one rank exactly where each leads to the
    /// other: that is how they are computed, and not promised. Takes the time of one look at each name
    /// and each link.
    pub fn of(alloc: Global, graph: &Graph<'t>) -> Result<Ranks<'t>, NoMemory>
        ensures { (next : Text → List Text) → Tells graph.now next → IfOk result (λ ranks. NeverRises (rank_in ranks) next) }
    {
        let ranks = by_components(alloc, graph)?;
        if never_rise(&ranks, graph) {
            return Ok(ranks);
        }
        Ok(Ranks {
            ranks: BTreeMap::new(alloc),
        })
    }

    /// The rank of a name: 0 where it has none. Takes no memory.
    pub fn rank(&self, name: &str) -> usize
        ensures { result ≡ rank_in self.now name.now }
    {
        match self.ranks.get(name) {
            Some(rank) => *rank,
            None => 0,
        }
    }

    /// Whether each of these names has a lower rank than another one; takes no memory. Where it leads
    /// to no others, it does not lead back to itself.
    pub fn are_below(&self, name: &str, names: &[&str]) -> bool
        ensures { IsTrue result → AllBelow (rank_in self.now) (rank_in self.now name.now) (map (λ n. n.now) names.now) }
    {
        let top = self.rank(name);
        'names: for one in names {
            if self.rank(one) >= top {
                return false;
            }
        }
        true
    }
}

/// Whether the ranks rise along no link.
fn never_rise(ranks: &Ranks<'_>, graph: &Graph<'_>) -> bool
    ensures { IsTrue result → NeverRises (rank_in ranks.now) (λ n. unwrap_or (links_of graph.now n) []) }
{
    'links: for (name, next) in &graph.links {
        if !none_above(ranks, ranks.rank(name), next) {
            return false;
        }
    }
    true
}

/// Whether no name is above a rank.
fn none_above(ranks: &Ranks<'_>, top: usize, names: &[&str]) -> bool
    ensures { IsTrue result → NoneAbove (rank_in ranks.now) top (map (λ n. n.now) names.now) }
{
    'names: for name in names {
        if ranks.rank(name) > top {
            return false;
        }
    }
    true
}

/// The names, each with the number of its component: a component has its number after those that it
/// leads to.
fn by_components<'t>(alloc: Global, graph: &Graph<'t>) -> Result<Ranks<'t>, NoMemory> {
    let numbers = numbers(alloc, graph)?;
    let mut components = Components::new(alloc);
    'links: for (_name, next) in &graph.links {
        components.push(numbers_of(alloc, &numbers, next)?)?;
    }
    components.find()?;
    rank_names(alloc, &numbers, &components)
}

/// The names, each with its number in their order.
fn numbers<'t>(alloc: Global, graph: &Graph<'t>) -> Result<BTreeMap<&'t str, usize>, NoMemory> {
    let mut numbers = BTreeMap::new(alloc);
    'links: for (name, _next) in &graph.links {
        let number = numbers.len();
        drop(numbers.insert(*name, number)?);
    }
    Ok(numbers)
}

/// The numbers of names, of those that are there.
fn numbers_of(
    alloc: Global,
    numbers: &BTreeMap<&str, usize>,
    names: &[&str],
) -> Result<Vec<usize>, NoMemory> {
    let mut found = Vec::new(alloc);
    'names: for name in names {
        if let Some(number) = numbers.get(*name) {
            found.push(*number)?;
        }
    }
    Ok(found)
}

/// The names, each with its rank.
fn rank_names<'t>(
    alloc: Global,
    numbers: &BTreeMap<&'t str, usize>,
    components: &Components,
) -> Result<Ranks<'t>, NoMemory> {
    let mut ranks = BTreeMap::new(alloc);
    'numbers: for (name, number) in numbers {
        drop(ranks.insert(*name, components.component(*number))?);
    }
    Ok(Ranks { ranks })
}
