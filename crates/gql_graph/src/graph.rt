//! Names that lead to others.
ghost use Rattle.std.specs.Prelude.{◌≡◌, [], ◌∷◌, ◌++◌, map, List, IfOk, OnOk, option_map};
ghost use Rattle.gql_plain.specs.Order.{has_text};
ghost use Rattle.gql_graph.specs.Graphs.{links_of, Holds, Once, Tells};
ghost use Rattle.gql_graph.specs.Graphs as graphs;
ghost use Rattle.gql_graph.specs.Reached.{any_leads};
ghost use Rattle.gql_graph.specs.Rules.{each};
ghost use Rattle.gql_graph.specs.Seen.{Knows};
ghost use Rattle.gql_graph.specs.Texts.{Text};

use crate::seen::Seen;
use gql_plain::NoMemory;
use std::alloc::Global;
use std::collections::BTreeMap;

/// Names, each with those that it leads to.
#[derive(Drop)]
pub struct Graph<'t> {
    pub(crate) links: BTreeMap<&'t str, Vec<&'t str>>,
}

impl<'t> Graph<'t> {
    /// No name; takes no memory.
    pub fn new(alloc: Global) -> Graph<'t>
        ensures { Holds result [] }
    {
        Graph {
            links: BTreeMap::new(alloc),
        }
    }

    /// Puts a name with those that it leads to, unless the name is there.
    pub fn put(&mut self, name: &'t str, next: Vec<&'t str>) -> Result<(), NoMemory>
        ensures { (pairs : List (Text × List Text)) → Holds self.old pairs
            → OnOk result (Holds self.new (pairs ++ (name.now, map (λ n. n.now) next.entry.items) ∷ [])) }
    {
        if self.links.contains_key(name) {
            return Ok(());
        }
        drop(self.links.insert(name, next)?);
        Ok(())
    }

    /// The names that a name leads to: none where it was not put. Takes no memory.
    pub fn next(&self, name: &str) -> &[&'t str]
        ensures { (next : Text → List Text) → Tells self.now next → map (λ n. n.now) result.now ≡ next name.now }
    {
        self.find(name).unwrap_or_default()
    }

    /// The names that a name leads to, where it was put.
    fn find(&self, name: &str) -> Option<&[&'t str]>
        ensures { option_map (λ ns. map (λ n. n.now) ns.now) result ≡ links_of self.now name.now }
    {
        match self.links.get(name) {
            Some(links) => Some(links.as_slice()),
            None => None,
        }
    }

    /// These names, and those that they lead to in so many steps, each once. In each round the names that
    /// are one step further are looked at, those that are seen already left out. Takes the time of one
    /// look at each name and each link.
    pub fn names_reached(
        &self,
        alloc: Global,
        steps: usize,
        starts: &[&'t str],
    ) -> Result<Vec<&'t str>, NoMemory>
        ensures reached { (next : Text → List Text) → Tells self.now next
            → IfOk result (λ ns. (to : Text) → has_text (map (λ n. n.now) ns.items) to ≡ any_leads next steps (map (λ n. n.now) starts.now) to) }
        ensures once { IfOk result (λ ns. Once (map (λ n. n.now) ns.items)) }
    {
        let mut seen = Seen::new(alloc);
        let mut all = Vec::new(alloc);
        let mut frontier = round(alloc, &mut seen, &mut all, starts)?;
        'steps: for _ in 0..steps {
            if frontier.is_empty() {
                return Ok(all);
            }
            let names = self.next_of_each(alloc, &frontier)?;
            frontier = round(alloc, &mut seen, &mut all, &names)?;
        }
        Ok(all)
    }

    /// Whether one of these names is another one, or leads there in so many steps. Takes the time of one
    /// look at each name and each link.
    pub fn leads_to(
        &self,
        alloc: Global,
        steps: usize,
        starts: &[&'t str],
        to: &str,
    ) -> Result<bool, NoMemory>
        ensures { (next : Text → List Text) → Tells self.now next
            → IfOk result (λ leads. leads ≡ any_leads next steps (map (λ n. n.now) starts.now) to.now) }
    {
        let names = self.names_reached(alloc, steps, starts)?;
        Ok(has_name(&names, to))
    }

    /// The names that these names lead to.
    fn next_of_each(&self, alloc: Global, names: &[&str]) -> Result<Vec<&'t str>, NoMemory>
        ensures { (next : Text → List Text) → Tells self.now next
            → IfOk result (λ ns. map (λ n. n.now) ns.items ≡ each next (map (λ n. n.now) names.now)) }
    {
        let mut all = Vec::new(alloc);
        'names: for name in names {
            all.extend_from_slice(self.next(name))?;
        }
        Ok(all)
    }
}

/// Whether a name is one of these.
fn has_name(names: &[&str], name: &str) -> bool
    ensures { result ≡ has_text (map (λ n. n.now) names.now) name.now }
{
    'names: for one in names {
        if *one == name {
            return true;
        }
    }
    false
}

/// Those that are not seen yet, each once. From now on all of them are seen; those that are new are
/// put after the others.
fn round<'t>(
    alloc: Global,
    seen: &mut Seen<'t>,
    all: &mut Vec<&'t str>,
    names: &[&'t str],
) -> Result<Vec<&'t str>, NoMemory>
    ensures rest { (ns : List Text) → Knows seen.old.names ns
        → IfOk result (λ rest. map (λ n. n.now) rest.items ≡ graphs.unseen_names ns (map (λ n. n.now) names.now)) }
    ensures known { (ns : List Text) → Knows seen.old.names ns
        → OnOk result (Knows seen.new.names (map (λ n. n.now) names.now ++ ns)) }
    ensures all { IfOk result (λ rest. all.new.items ≡ all.old.items ++ rest.items) }
{
    let rest = unseen_names(alloc, seen, names)?;
    all.extend_from_slice(&rest)?;
    Ok(rest)
}

/// Those that are not seen yet, each once. From now on all of them are seen.
fn unseen_names<'t>(
    alloc: Global,
    seen: &mut Seen<'t>,
    names: &[&'t str],
) -> Result<Vec<&'t str>, NoMemory>
    ensures rest { (ns : List Text) → Knows seen.old.names ns
        → IfOk result (λ rest. map (λ n. n.now) rest.items ≡ graphs.unseen_names ns (map (λ n. n.now) names.now)) }
    ensures known { (ns : List Text) → Knows seen.old.names ns
        → OnOk result (Knows seen.new.names (map (λ n. n.now) names.now ++ ns)) }
{
    let mut rest = Vec::new(alloc);
    'names: for name in names {
        put_unseen(seen, &mut rest, name)?;
    }
    Ok(rest)
}

/// Puts a name that is not seen yet. From now on it is seen.
fn put_unseen<'t>(
    seen: &mut Seen<'t>,
    rest: &mut Vec<&'t str>,
    name: &'t str,
) -> Result<(), NoMemory>
    ensures rest { (ns : List Text) → Knows seen.old.names ns
        → OnOk result (map (λ n. n.now) rest.new.items ≡ map (λ n. n.now) rest.old.items ++ graphs.unseen_names ns (name.now ∷ [])) }
    ensures known { (ns : List Text) → Knows seen.old.names ns
        → OnOk result (Knows seen.new.names (name.now ∷ ns)) }
{
    let is_new = seen.insert(name)?;
    if !is_new {
        return Ok(());
    }
    rest.push(name)?;
    Ok(())
}
