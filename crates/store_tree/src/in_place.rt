//! A branch with one entry put in or taken out, its leaves and nodes written in place where no
//! other branch holds them.
ghost use Rattle.std.specs.Prelude.{◌≡◌, ◌+◌, ◌*◌, ◌≤◌, false, length, IfOk, OnOk, T};
ghost use Rattle.std.specs.FinMap.{put, is_sorted};
ghost use Rattle.store_tree.specs.Contents.{without_tied};
ghost use Rattle.store_tree.specs.Heights.{DifferByAtMost, IsGrown, IsSettledHeight, IsShrunk};
ghost use Rattle.store_tree.specs.KeyOrder.{digest_of, key_cmp};
ghost use Rattle.store_tree.specs.Made.{IsMade};
ghost use Rattle.store_tree.specs.Shape.{pairs_of, IsEven};

use crate::balance::balance;
use crate::branch::{Branch, Link, Node};
use crate::change::{join, with_entry, without_entry};
use crate::item::Item;
use crate::leaves::{one_leaf, put_in_leaf, take_from_leaf};
use gql_plain::{NoMemory, Steps};
use std::alloc::Global;
use std::cmp::Ordering;
use std::mem;
use std::rc::Rc;

/// Puts an entry into a branch, in place of one that has the same key. A leaf or a node that no
/// other branch holds is written in place, and any other is copied. After an error the branch is
/// empty.
#[cycle(put)]
pub(crate) fn put_entry<V: Drop, C: Steps>(
    alloc: Global,
    branch: &mut Branch<V>,
    item: Item<V>,
    steps: &mut C,
) -> Result<(), NoMemory>
    requires { T (is_sorted key_cmp branch.old.pairs) }
    ensures pairs { OnOk result (branch.new.pairs ≡ put key_cmp item.0 item.1 branch.old.pairs) }
    ensures height { OnOk result (IsGrown branch.old.height branch.new.height) }
    ensures looks { C.looks steps.new ≡ C.looks steps.old }
    ensures applies { C.applies steps.new ≡ C.applies steps.old }
    ensures nodes { C.nodes steps.new ≤ C.nodes steps.old + 4 * (branch.old.height + 1) }
{
    let whole = mem::replace(branch, Branch::empty());
    *branch = match whole.link {
        Link::Empty => one_leaf(alloc, item, steps)?,
        Link::Leaf(leaf) => put_in_leaf(alloc, leaf, item, steps)?,
        Link::Fork(node) => put_in_node(alloc, node, item, steps)?,
    };
    Ok(())
}

/// The entries of a node and one more, in place of one that has the same key. A node that no other
/// branch holds is written in place, and any other is copied.
#[cycle(put)]
fn put_in_node<V: Drop, C: Steps>(
    alloc: Global,
    mut node: Rc<Node<V>>,
    item: Item<V>,
    steps: &mut C,
) -> Result<Branch<V>, NoMemory>
    requires even { IsEven node.value }
    requires in_order { T (is_sorted key_cmp (pairs_of node.value)) }
    ensures pairs { IfOk result (λ b. b.pairs ≡ put key_cmp item.0 item.1 (pairs_of node.value)) }
    ensures height { IfOk result (λ b. IsGrown node.value.height b.height) }
    ensures looks { C.looks steps.new ≡ C.looks steps.old }
    ensures applies { C.applies steps.new ≡ C.applies steps.old }
    ensures nodes { C.nodes steps.new ≤ C.nodes steps.old + 4 * (node.value.height + 1) }
{
    let Some(place) = Rc::get_mut(&mut node) else {
        let shared = Branch {
            link: Link::Fork(node),
        };
        return with_entry(alloc, &shared, item, steps);
    };
    match put_beside(alloc, place, item, steps)? {
        None => Ok(Branch {
            link: Link::Fork(node),
        }),
        Some(other) => Ok(other),
    }
}

/// Puts an entry into a node, in place of one that has the same key. Another branch comes back if
/// it stands in the node's stead.
#[cycle(put)]
fn put_beside<V: Drop, C: Steps>(
    alloc: Global,
    place: &mut Node<V>,
    item: Item<V>,
    steps: &mut C,
) -> Result<Option<Branch<V>>, NoMemory>
    requires even { IsEven place.old }
    requires in_order { T (is_sorted key_cmp (pairs_of place.old)) }
    ensures made { IfOk result (IsMade (put key_cmp item.0 item.1 (pairs_of place.old))
        (IsGrown place.old.height) place.new) }
    ensures looks { C.looks steps.new ≡ C.looks steps.old }
    ensures applies { C.applies steps.new ≡ C.applies steps.old }
    ensures nodes { C.nodes steps.new ≤ C.nodes steps.old + 4 * (place.old.height + 1) }
{
    match place.item.order(item.digest(), item.key()) {
        Ordering::Less => {
            let side = &mut place.left;
            let (low, few) = (side.height(), side.count());
            put_entry(alloc, side, item, steps)?;
            let (high, many) = (side.height(), side.count());
            let Some(count) = (place.count - few).checked_add(many) else {
                return Err(NoMemory);
            };
            place.count = count;
            settle(alloc, place, high != low, steps)
        }
        Ordering::Equal => {
            place.item = item;
            Ok(None)
        }
        Ordering::Greater => {
            let side = &mut place.right;
            let (low, few) = (side.height(), side.count());
            put_entry(alloc, side, item, steps)?;
            let (high, many) = (side.height(), side.count());
            let Some(count) = (place.count - few).checked_add(many) else {
                return Err(NoMemory);
            };
            place.count = count;
            settle(alloc, place, high != low, steps)
        }
    }
}

/// Takes the entry at the key, which is given with its digest, out of a branch, if there is one. A
/// leaf or a node that no other branch holds is written in place, and any other is copied. After an
/// error the branch is empty.
#[cycle(take)]
pub(crate) fn take_entry<V: Drop, C: Steps>(
    alloc: Global,
    branch: &mut Branch<V>,
    digest: u64,
    key: &str,
    steps: &mut C,
) -> Result<(), NoMemory>
    requires digest { digest ≡ digest_of key.now }
    requires in_order { T (is_sorted key_cmp branch.old.pairs) }
    ensures pairs { OnOk result (branch.new.pairs ≡ without_tied key_cmp key.now branch.old.pairs) }
    ensures height { OnOk result (IsShrunk branch.old.height branch.new.height) }
    ensures looks { C.looks steps.new ≡ C.looks steps.old }
    ensures applies { C.applies steps.new ≡ C.applies steps.old }
    ensures nodes { C.nodes steps.new ≤ C.nodes steps.old + 4 * branch.old.height }
{
    let whole = mem::replace(branch, Branch::empty());
    *branch = match whole.link {
        Link::Empty => Branch::empty(),
        Link::Leaf(leaf) => take_from_leaf(alloc, leaf, digest, key, steps)?,
        Link::Fork(node) => take_from_node(alloc, node, digest, key, steps)?,
    };
    Ok(())
}

/// The entries of a node without the one at the key. A node that no other branch holds is written in
/// place, and any other is copied.
#[cycle(take)]
fn take_from_node<V: Drop, C: Steps>(
    alloc: Global,
    mut node: Rc<Node<V>>,
    digest: u64,
    key: &str,
    steps: &mut C,
) -> Result<Branch<V>, NoMemory>
    requires digest { digest ≡ digest_of key.now }
    requires even { IsEven node.value }
    requires in_order { T (is_sorted key_cmp (pairs_of node.value)) }
    ensures pairs { IfOk result (λ b. b.pairs ≡ without_tied key_cmp key.now (pairs_of node.value)) }
    ensures height { IfOk result (λ b. IsShrunk node.value.height b.height) }
    ensures looks { C.looks steps.new ≡ C.looks steps.old }
    ensures applies { C.applies steps.new ≡ C.applies steps.old }
    ensures nodes { C.nodes steps.new ≤ C.nodes steps.old + 4 * node.value.height }
{
    let Some(place) = Rc::get_mut(&mut node) else {
        let shared = Branch {
            link: Link::Fork(node),
        };
        return without_entry(alloc, &shared, digest, key, steps);
    };
    match take_beside(alloc, place, digest, key, steps)? {
        None => Ok(Branch {
            link: Link::Fork(node),
        }),
        Some(other) => Ok(other),
    }
}

/// Takes the entry at the key out of a node. Another branch comes back if it stands in the node's
/// stead, as where the entry is the node's own.
#[cycle(take)]
fn take_beside<V: Drop, C: Steps>(
    alloc: Global,
    place: &mut Node<V>,
    digest: u64,
    key: &str,
    steps: &mut C,
) -> Result<Option<Branch<V>>, NoMemory>
    requires digest { digest ≡ digest_of key.now }
    requires even { IsEven place.old }
    requires in_order { T (is_sorted key_cmp (pairs_of place.old)) }
    ensures made { IfOk result (IsMade (without_tied key_cmp key.now (pairs_of place.old))
        (IsShrunk place.old.height) place.new) }
    ensures looks { C.looks steps.new ≡ C.looks steps.old }
    ensures applies { C.applies steps.new ≡ C.applies steps.old }
    ensures nodes { C.nodes steps.new ≤ C.nodes steps.old + 4 * place.old.height }
{
    match place.item.order(digest, key) {
        Ordering::Less => {
            let side = &mut place.left;
            let few = side.count();
            take_entry(alloc, side, digest, key, steps)?;
            let left = side.count();
            let Some(count) = (place.count - few).checked_add(left) else {
                return Err(NoMemory);
            };
            place.count = count;
            settle(alloc, place, true, steps)
        }
        Ordering::Equal => {
            let joined = join(alloc, &place.left, &place.right, steps)?;
            Ok(Some(joined))
        }
        Ordering::Greater => {
            let side = &mut place.right;
            let few = side.count();
            take_entry(alloc, side, digest, key, steps)?;
            let left = side.count();
            let Some(count) = (place.count - few).checked_add(left) else {
                return Err(NoMemory);
            };
            place.count = count;
            settle(alloc, place, true, steps)
        }
    }
}

/// Brings a node into balance, where the height of one side may have changed. Another branch comes
/// back if it stands in the node's stead.
fn settle<V: Drop, C: Steps>(
    alloc: Global,
    place: &mut Node<V>,
    has_changed: bool,
    steps: &mut C,
) -> Result<Option<Branch<V>>, NoMemory>
    requires differ { DifferByAtMost 2 place.old.left.height place.old.right.height }
    requires count { place.old.count ≡ length (pairs_of place.old) }
    requires even { has_changed ≡ false → IsEven place.old }
    ensures made { IfOk result (IsMade (pairs_of place.old)
        (IsSettledHeight place.old.left.height place.old.right.height) place.new) }
    ensures looks { C.looks steps.new ≡ C.looks steps.old }
    ensures applies { C.applies steps.new ≡ C.applies steps.old }
    ensures nodes { C.nodes steps.new ≤ C.nodes steps.old + 4 }
{
    if !has_changed {
        return Ok(None);
    }
    let (left, right) = (place.left.height(), place.right.height());
    if left <= right + 1 && right <= left + 1 {
        place.height = left.max(right) + 1;
        return Ok(None);
    }
    let left = mem::replace(&mut place.left, Branch::empty());
    let right = mem::replace(&mut place.right, Branch::empty());
    let item = place.item.share()?;
    let balanced = balance(alloc, left, item, right, steps)?;
    Ok(Some(balanced))
}
