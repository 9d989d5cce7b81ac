//! What fragments need of the operations that reach them: the variables used in a fragment and in all
//! that it reaches, without local ones. Of uses of one variable at places of one type the first counts.
ghost use Rattle.std.specs.Prelude.{◌≡◌, ◌<◌, ◌++◌, ◌∷◌, [], true, List, None, map, option_map, IfOk, IfSome, IsTrue, OnOk};
ghost use Rattle.doc_sites.specs.gql_plain.Order.{has_text};
ghost use Rattle.doc_sites.specs.schema_types.ArgumentRules as rules;
ghost use Rattle.doc_sites.specs.gql_graph.Graphs.{Tells};
ghost use Rattle.doc_sites.specs.gql_graph.Texts.{Text};
ghost use Rattle.doc_uses.specs.UsesByName.{Gathers};
ghost use Rattle.doc_uses.specs.Needs.{Covers, CoversKnown, HasNeed, IsSameNeed, SumsUp, uses_needed};
ghost use Rattle.doc_uses.specs.UseView.{place_of, use_of};

use crate::order::order_of;
use crate::uses::{Place, Use};
use crate::uses_by_name::UsesByName;
use doc_sites::graph::Graph;
use doc_sites::{NoMemory, same_type};
use std::alloc::Global;
use std::collections::BTreeMap;

/// How many uses are kept of a fragment at most. Of one that needs more nothing is known.
const MOST: usize = 32;

/// What fragments need, by their names, where it is known.
#[derive(Drop)]
pub(crate) struct Needs<'p, 'a> {
    by_name: BTreeMap<&'a str, Vec<Use<'p, 'a>>>,
}

impl<'p, 'a> Needs<'p, 'a> {
    /// What fragments of these names need, and those that they lead to. It is known where a fragment
    /// does not lead back to itself or to one that does, and needs no more than is kept.
    pub(crate) fn of(
        alloc: Global,
        graph: &Graph<'a>,
        gathered: &UsesByName<'p, 'a>,
        names: &[&'a str],
    ) -> Result<Needs<'p, 'a>, NoMemory>
        ensures { (next : Text → List Text) → Tells graph.now next → (uses : Text → List rules.Use) → Gathers gathered.now uses
            → IfOk result (λ needs. SumsUp needs next uses) }
    {
        let order = order_of(alloc, graph, names)?;
        let mut needs = Needs::new(alloc);
        'names: for name in &order {
            needs.sum_up(alloc, graph, gathered, name)?;
        }
        Ok(needs)
    }

    /// What fragments of a name need, where that is known; takes no memory.
    pub(crate) fn find(&self, name: &str) -> Option<&[Use<'p, 'a>]>
        ensures { option_map (λ us. map use_of us.now) result ≡ uses_needed self.now name.now }
    {
        match self.by_name.get(name) {
            Some(uses) => Some(uses.as_slice()),
            None => None,
        }
    }

    /// Nothing is known; takes no memory.
    fn new(alloc: Global) -> Needs<'p, 'a>
        ensures { (n : Text) → uses_needed result n ≡ None }
    {
        Needs {
            by_name: BTreeMap::new(alloc),
        }
    }

    /// Sums up what fragments of a name need, where that is known of those that they spread.
    fn sum_up(
        &mut self,
        alloc: Global,
        graph: &Graph<'a>,
        gathered: &UsesByName<'p, 'a>,
        name: &'a str,
    ) -> Result<(), NoMemory>
        ensures { (next : Text → List Text) → Tells graph.now next → (uses : Text → List rules.Use) → Gathers gathered.now uses
            → SumsUp self.old next uses → OnOk result (SumsUp self.new next uses) }
    {
        if self.by_name.contains_key(name) {
            return Ok(());
        }
        let mut all = Vec::new(alloc);
        let has_room = put_each(&mut all, gathered.uses(name))?;
        if !has_room {
            return Ok(());
        }
        let is_known = self.put_needs_of(&mut all, graph.next(name))?;
        if !is_known {
            return Ok(());
        }
        drop(self.by_name.insert(name, all)?);
        Ok(())
    }

    /// Puts what fragments of these names need. Says whether that is known, and is no more than is
    /// kept.
    fn put_needs_of(&self, all: &mut Vec<Use<'p, 'a>>, names: &[&str]) -> Result<bool, NoMemory>
        ensures { IfOk result (λ is_known. is_known ≡ true → Covers (map use_of all.new.items) (map use_of all.old.items)
            × ((m : Text) → has_text (map (λ n. n.now) names.now) m ≡ true → CoversKnown (map use_of all.new.items) (uses_needed self.now m))) }
    {
        'names: for name in names {
            let is_known = put_known(all, self.find(name))?;
            if !is_known {
                return Ok(false);
            }
        }
        Ok(true)
    }
}

/// Puts what is needed, where that is known. Says whether it is, and is no more than is kept.
fn put_known<'p, 'a>(
    all: &mut Vec<Use<'p, 'a>>,
    needs: Option<&[Use<'p, 'a>]>,
) -> Result<bool, NoMemory>
    ensures { IfOk result (λ is_known. is_known ≡ true → Covers (map use_of all.new.items) (map use_of all.old.items)
        × CoversKnown (map use_of all.new.items) (option_map (λ us. map use_of us.now) needs.entry)) }
{
    match needs {
        Some(uses) => {
            let has_room = put_each(all, uses)?;
            Ok(has_room)
        }
        None => Ok(false),
    }
}

/// Puts uses. Says whether they are no more than are kept.
fn put_each<'p, 'a>(all: &mut Vec<Use<'p, 'a>>, uses: &[Use<'p, 'a>]) -> Result<bool, NoMemory>
    ensures { IfOk result (λ has_room. has_room ≡ true → Covers (map use_of all.new.items) (map use_of all.old.items ++ map use_of uses.now)) }
{
    'uses: for one in uses {
        put(all, one)?;
        if all.len() > MOST {
            return Ok(false);
        }
    }
    Ok(true)
}

/// Puts a use. Of two that are the same but for their places the first counts.
fn put<'p, 'a>(all: &mut Vec<Use<'p, 'a>>, one: &Use<'p, 'a>) -> Result<(), NoMemory>
    ensures { OnOk result (Covers (map use_of all.new.items) (map use_of all.old.items ++ use_of one.now ∷ [])) }
{
    match position_of(all, one) {
        Some(at) => {
            if all[at].name.at <= one.name.at {
                return Ok(());
            }
            all[at] = *one;
            Ok(())
        }
        None => {
            all.push(*one)?;
            Ok(())
        }
    }
}

/// Where a use stands that is the same but for its place.
fn position_of(all: &[Use<'_, '_>], one: &Use<'_, '_>) -> Option<usize>
    ensures { IfSome result (HasNeed all.now one.now) }
{
    'uses: for at in 0..all.len() {
        if is_same_need(&all[at], one) {
            return Some(at);
        }
    }
    None
}

/// Whether two uses are the same but for their places.
fn is_same_need(one: &Use<'_, '_>, other: &Use<'_, '_>) -> bool
    ensures { IsTrue result → IsSameNeed (use_of one.now) (use_of other.now) }
{
    if one.name.name != other.name.name {
        return false;
    }
    is_same_place(&one.place, &other.place)
}

/// Whether two places have one type, and both have a default or neither.
fn is_same_place(one: &Option<Place<'_>>, other: &Option<Place<'_>>) -> bool
    ensures { IsTrue result → option_map place_of one.now ≡ option_map place_of other.now }
{
    match one {
        Some(one) => match other {
            Some(other) => one.has_default == other.has_default && same_type(one.of, other.of),
            None => false,
        },
        None => other.is_none(),
    }
}
