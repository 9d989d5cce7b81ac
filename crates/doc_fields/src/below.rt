//! The keys of fragments, each with those of the fragments that it leads to at the root (GraphQL,
//! October 2021, section 5.2.3.1). They are gathered once a fragment, after those of the fragments
//! that it spreads. A fragment that leads back to itself, or to such a one, is left out.
ghost use Rattle.std.specs.Prelude.{◌≡◌, ℕ, suc, cond, map, bytes_eq, option_map, List, None, Some, IfOk, OnOk};
ghost use Rattle.doc_sites.specs.gql_graph.Graphs.{Tells};
ghost use Rattle.doc_sites.specs.gql_graph.Texts.{Text};
ghost use Rattle.doc_fields.specs.Heads.{all_of, keys_found, kept_below, AreBelow, AreKnown, IsKnown};
ghost use Rattle.doc_fields.specs.Keys.{keys_view, Sum};

use crate::heads::Heads;
use crate::keys::RootKeys;
use doc_sites::graph::Graph;
use doc_sites::ranks::Ranks;
use doc_sites::{DefinitionAt, NoMemory};
use std::alloc::Global;
use std::collections::BTreeMap;

/// The keys of fragments with those that they lead to, by name.
#[derive(Drop)]
pub(crate) struct KeysBelow<'a> {
    by_name: BTreeMap<&'a str, RootKeys<'a>>,
}

impl<'a> KeysBelow<'a> {
    /// No fragment; takes no memory.
    fn new(alloc: Global) -> KeysBelow<'a>
        ensures { (n : Text) → kept_below result n ≡ None }
    {
        KeysBelow {
            by_name: BTreeMap::new(alloc),
        }
    }

    /// The keys of a fragment and of those that it leads to, where they are known.
    fn find(&self, name: &str) -> Option<RootKeys<'a>>
        ensures { option_map keys_view result ≡ kept_below self.now name.now }
    {
        match self.by_name.get(name) {
            Some(keys) => Some(*keys),
            None => None,
        }
    }

    /// The keys of these fragments and of those that they lead to, where all are known. Takes no
    /// memory.
    pub(crate) fn find_all(&self, names: &[&str]) -> Option<RootKeys<'a>>
        ensures { (f : Text → Sum) → AreKnown self.now f → IsKnown (option_map keys_view result) (all_of f (map (λ n. n.now) names.now)) }
    {
        let mut all = RootKeys::Absent;
        'names: for name in names {
            match self.find(name) {
                Some(keys) => {
                    all = all.and(&keys);
                }
                None => return None,
            }
        }
        Some(all)
    }

    /// Puts the keys of a fragment and of those that it leads to.
    fn put(&mut self, name: &'a str, keys: &RootKeys<'a>) -> Result<(), NoMemory>
        ensures { OnOk result ((n : Text) → kept_below self.new n ≡ cond (bytes_eq name.now n) (Some (keys_view keys.now)) (kept_below self.old n)) }
    {
        let _before = self.by_name.insert(name, *keys)?;
        Ok(())
    }

    /// Puts the keys of a fragment, where those of all that it spreads are known.
    fn gather(
        &mut self,
        spreads: &Graph<'a>,
        heads: &Heads<'a>,
        name: &'a str,
    ) -> Result<(), NoMemory>
        ensures { (next : Text → List Text) → Tells spreads.now next → (own : Text → Sum) → ((n : Text) → keys_found heads.now n ≡ own n)
            → (least : ℕ) → AreBelow next own least self.old → OnOk result (AreBelow next own (suc least) self.new) }
    {
        match self.find_all(spreads.next(name)) {
            Some(below) => {
                let keys = heads.keys(name).and(&below);
                self.put(name, &keys)
            }
            None => Ok(()),
        }
    }
}

/// The keys of the fragments that apply to the root type, each with those that it leads to: of so
/// many fragments at most.
pub(crate) fn keys_below<'a>(
    alloc: Global,
    spreads: &Graph<'a>,
    heads: &Heads<'a>,
    definitions: &[DefinitionAt<'a>],
    count: usize,
) -> Result<KeysBelow<'a>, NoMemory>
    ensures { (next : Text → List Text) → Tells spreads.now next → (own : Text → Sum) → ((n : Text) → keys_found heads.now n ≡ own n)
        → IfOk result (AreBelow next own count) }
{
    let mut names = bottom_up(alloc, spreads, definitions, count)?;
    names.truncate(count);
    let mut below = KeysBelow::new(alloc);
    'names: for name in &names {
        below.gather(spreads, heads, name)?;
    }
    Ok(below)
}

/// The fragments and those that they lead to in so many steps, each after those that it leads to,
/// where these do not lead back. Nothing is promised of it: `keys_below` looks at each name.
fn bottom_up<'a>(
    alloc: Global,
    spreads: &Graph<'a>,
    definitions: &[DefinitionAt<'a>],
    steps: usize,
) -> Result<Vec<&'a str>, NoMemory> {
    let ranks = Ranks::of(alloc, spreads)?;
    let fragments = fragment_names(alloc, definitions)?;
    let mut ranked = Vec::new(alloc);
    'names: for name in spreads.names_reached(alloc, steps, &fragments)? {
        ranked.push((ranks.rank(name), name))?;
    }
    ranked.sort()?;
    let mut names = Vec::new(alloc);
    'ranked: for (_rank, name) in &ranked {
        names.push(*name)?;
    }
    Ok(names)
}

/// The names of the fragments.
fn fragment_names<'a>(
    alloc: Global,
    definitions: &[DefinitionAt<'a>],
) -> Result<Vec<&'a str>, NoMemory> {
    let mut names = Vec::new(alloc);
    'definitions: for definition in definitions {
        match definition {
            DefinitionAt::Operation(_) => {}
            DefinitionAt::Fragment(fragment) => names.push(fragment.name.name)?,
        }
    }
    Ok(names)
}
