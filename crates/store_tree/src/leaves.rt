//! Branches of one leaf, and of two with an entry between them.
ghost use Rattle.std.specs.Prelude.{◌≡◌, ◌+◌, ◌≤◌, [], ◌∷◌, ◌++◌, length, IfOk, T};
ghost use Rattle.std.specs.FinMap.{put, is_sorted};
ghost use Rattle.store_tree.specs.Contents.{without_tied};
ghost use Rattle.store_tree.specs.Heights.{IsGrown};
ghost use Rattle.store_tree.specs.KeyOrder.{digest_of, key_cmp};
ghost use Rattle.store_tree.specs.Place.{HasUpTo};

use crate::branch::{Branch, Link, fork};
use crate::item::Item;
use crate::leaf::{Leaf, MOST};
use gql_plain::{NoMemory, Steps};
use std::alloc::Global;
use std::rc::Rc;

/// A branch of one entry.
pub(crate) fn one_leaf<V: Drop, C: Steps>(
    alloc: Global,
    item: Item<V>,
    steps: &mut C,
) -> Result<Branch<V>, NoMemory>
    ensures pairs { IfOk result (λ b. b.pairs ≡ item ∷ []) }
    ensures height { IfOk result (λ b. b.height ≡ 1) }
    ensures looks { C.looks steps.new ≡ C.looks steps.old }
    ensures applies { C.applies steps.new ≡ C.applies steps.old }
    ensures nodes { C.nodes steps.new ≤ C.nodes steps.old + 1 }
{
    steps.node();
    let leaf = Leaf::one(alloc, item)?;
    Ok(Branch {
        link: Link::Leaf(Rc::new(alloc, leaf)?),
    })
}

/// A branch of the entries of a leaf, which may have none.
pub(crate) fn branch_of<V: Drop>(alloc: Global, leaf: Leaf<V>) -> Result<Branch<V>, NoMemory>
    requires { length leaf ≤ MOST }
    ensures pairs { IfOk result (λ b. b.pairs ≡ leaf) }
    ensures height { IfOk result (λ b. b.height ≤ 1) }
{
    if leaf.len() == 0 {
        return Ok(Branch::empty());
    }
    Ok(Branch {
        link: Link::Leaf(Rc::new(alloc, leaf)?),
    })
}

/// The entries of a leaf and one more, in place of one that has the same key. A leaf that no other
/// branch holds is written in place, and any other is copied.
pub(crate) fn put_in_leaf<V: Drop, C: Steps>(
    alloc: Global,
    mut leaf: Rc<Leaf<V>>,
    item: Item<V>,
    steps: &mut C,
) -> Result<Branch<V>, NoMemory>
    requires in_order { T (is_sorted key_cmp leaf.value) }
    requires few { HasUpTo MOST leaf.value }
    ensures pairs { IfOk result (λ b. b.pairs ≡ put key_cmp item.0 item.1 leaf.value) }
    ensures height { IfOk result (λ b. IsGrown 1 b.height) }
    ensures looks { C.looks steps.new ≡ C.looks steps.old }
    ensures applies { C.applies steps.new ≡ C.applies steps.old }
    ensures nodes { C.nodes steps.new ≤ C.nodes steps.old + 3 }
{
    let Some(place) = Rc::get_mut(&mut leaf) else {
        return with_in_leaf(alloc, &leaf, item, steps);
    };
    match place.put(item)? {
        None => Ok(Branch {
            link: Link::Leaf(leaf),
        }),
        Some((middle, later)) => node_of_leaves(alloc, leaf, middle, later, steps),
    }
}

/// The entries of a leaf and one more, in place of one that has the same key, in a copy.
pub(crate) fn with_in_leaf<V: Drop, C: Steps>(
    alloc: Global,
    leaf: &Leaf<V>,
    item: Item<V>,
    steps: &mut C,
) -> Result<Branch<V>, NoMemory>
    requires in_order { T (is_sorted key_cmp leaf.now) }
    requires few { HasUpTo MOST leaf.now }
    ensures pairs { IfOk result (λ b. b.pairs ≡ put key_cmp item.0 item.1 leaf.now) }
    ensures height { IfOk result (λ b. IsGrown 1 b.height) }
    ensures looks { C.looks steps.new ≡ C.looks steps.old }
    ensures applies { C.applies steps.new ≡ C.applies steps.old }
    ensures nodes { C.nodes steps.new ≤ C.nodes steps.old + 3 }
{
    steps.node();
    let mut copy = leaf.copy(alloc)?;
    match copy.put(item)? {
        None => Ok(Branch {
            link: Link::Leaf(Rc::new(alloc, copy)?),
        }),
        Some((middle, later)) => node_of_leaves(alloc, Rc::new(alloc, copy)?, middle, later, steps),
    }
}

/// A node over two leaves, of which the later one is new.
fn node_of_leaves<V: Drop, C: Steps>(
    alloc: Global,
    first: Rc<Leaf<V>>,
    middle: Item<V>,
    later: Leaf<V>,
    steps: &mut C,
) -> Result<Branch<V>, NoMemory>
    requires first { HasUpTo MOST first.value }
    requires later { HasUpTo MOST later }
    ensures pairs { IfOk result (λ b. b.pairs ≡ first.value ++ middle ∷ later) }
    ensures height { IfOk result (λ b. b.height ≡ 2) }
    ensures looks { C.looks steps.new ≡ C.looks steps.old }
    ensures applies { C.applies steps.new ≡ C.applies steps.old }
    ensures nodes { C.nodes steps.new ≤ C.nodes steps.old + 2 }
{
    steps.node();
    let left = Branch {
        link: Link::Leaf(first),
    };
    let right = Branch {
        link: Link::Leaf(Rc::new(alloc, later)?),
    };
    fork(alloc, left, middle, right, steps)
}

/// The entries of a leaf without the one at the key, which is given with its digest. A leaf that no
/// other branch holds is written in place, and any other is copied.
pub(crate) fn take_from_leaf<V: Drop, C: Steps>(
    alloc: Global,
    mut leaf: Rc<Leaf<V>>,
    digest: u64,
    key: &str,
    steps: &mut C,
) -> Result<Branch<V>, NoMemory>
    requires digest { digest ≡ digest_of key.now }
    requires in_order { T (is_sorted key_cmp leaf.value) }
    requires few { HasUpTo MOST leaf.value }
    ensures pairs { IfOk result (λ b. b.pairs ≡ without_tied key_cmp key.now leaf.value) }
    ensures height { IfOk result (λ b. b.height ≤ 1) }
    ensures looks { C.looks steps.new ≡ C.looks steps.old }
    ensures applies { C.applies steps.new ≡ C.applies steps.old }
    ensures nodes { C.nodes steps.new ≤ C.nodes steps.old + 1 }
{
    let Some(place) = Rc::get_mut(&mut leaf) else {
        steps.node();
        let rest = leaf.without(alloc, digest, key)?;
        return branch_of(alloc, rest);
    };
    place.take(digest, key);
    if place.len() == 0 {
        return Ok(Branch::empty());
    }
    Ok(Branch {
        link: Link::Leaf(leaf),
    })
}
