//! A branch with one entry put in or taken out.
ghost use Rattle.std.specs.Prelude.{◌≡◌, ◌+◌, ◌*◌, ◌<◌, ◌≤◌, max, ◌∷◌, ◌++◌, IfOk, T};
ghost use Rattle.std.specs.FinMap.{put, is_sorted};
ghost use Rattle.store_tree.specs.Contents.{without_tied};
ghost use Rattle.store_tree.specs.Heights.{DifferByAtMost, IsGrown};
ghost use Rattle.store_tree.specs.KeyOrder.{digest_of, key_cmp};

use crate::balance::balance;
use crate::branch::{Branch, Link, fork};
use crate::item::Item;
use crate::leaves::{branch_of, one_leaf, with_in_leaf};
use gql_plain::{NoMemory, Steps};
use std::alloc::Global;
use std::cmp::Ordering;

/// The branch with the entry, in place of one that has the same key.
pub(crate) fn with_entry<V: Drop, C: Steps>(
    alloc: Global,
    branch: &Branch<V>,
    item: Item<V>,
    steps: &mut C,
) -> Result<Branch<V>, NoMemory>
    requires { T (is_sorted key_cmp branch.now.pairs) }
    ensures pairs { IfOk result (λ b. b.pairs ≡ put key_cmp item.0 item.1 branch.now.pairs) }
    ensures height { IfOk result (λ b. IsGrown branch.now.height b.height) }
    ensures looks { C.looks steps.new ≡ C.looks steps.old }
    ensures applies { C.applies steps.new ≡ C.applies steps.old }
    ensures nodes { C.nodes steps.new ≤ C.nodes steps.old + 4 * (branch.now.height + 1) }
{
    let node = match &branch.link {
        Link::Empty => return one_leaf(alloc, item, steps),
        Link::Leaf(leaf) => return with_in_leaf(alloc, leaf, item, steps),
        Link::Fork(node) => node,
    };
    match node.item.order(item.digest(), item.key()) {
        Ordering::Less => {
            let left = with_entry(alloc, &node.left, item, steps)?;
            balance(alloc, left, node.item.share()?, node.right.share()?, steps)
        }
        Ordering::Equal => fork(alloc, node.left.share()?, item, node.right.share()?, steps),
        Ordering::Greater => {
            let right = with_entry(alloc, &node.right, item, steps)?;
            balance(alloc, node.left.share()?, node.item.share()?, right, steps)
        }
    }
}

/// The branch without the entry at the key, which is given with its digest, if there is one.
pub(crate) fn without_entry<V: Drop, C: Steps>(
    alloc: Global,
    branch: &Branch<V>,
    digest: u64,
    key: &str,
    steps: &mut C,
) -> Result<Branch<V>, NoMemory>
    requires digest { digest ≡ digest_of key.now }
    requires in_order { T (is_sorted key_cmp branch.now.pairs) }
    ensures pairs { IfOk result (λ b. b.pairs ≡ without_tied key_cmp key.now branch.now.pairs) }
    ensures height { IfOk result (λ b. (b.height ≤ branch.now.height) × (branch.now.height ≤ b.height + 1)) }
    ensures looks { C.looks steps.new ≡ C.looks steps.old }
    ensures applies { C.applies steps.new ≡ C.applies steps.old }
    ensures nodes { C.nodes steps.new ≤ C.nodes steps.old + 4 * branch.now.height }
{
    let node = match &branch.link {
        Link::Empty => return Ok(Branch::empty()),
        Link::Leaf(leaf) => {
            steps.node();
            let rest = leaf.without(alloc, digest, key)?;
            return branch_of(alloc, rest);
        }
        Link::Fork(node) => node,
    };
    match node.item.order(digest, key) {
        Ordering::Less => {
            let left = without_entry(alloc, &node.left, digest, key, steps)?;
            balance(alloc, left, node.item.share()?, node.right.share()?, steps)
        }
        Ordering::Equal => join(alloc, &node.left, &node.right, steps),
        Ordering::Greater => {
            let right = without_entry(alloc, &node.right, digest, key, steps)?;
            balance(alloc, node.left.share()?, node.item.share()?, right, steps)
        }
    }
}

/// One branch after another, where their heights differ by at most one.
pub(crate) fn join<V: Drop, C: Steps>(
    alloc: Global,
    left: &Branch<V>,
    right: &Branch<V>,
    steps: &mut C,
) -> Result<Branch<V>, NoMemory>
    requires { DifferByAtMost 1 left.now.height right.now.height }
    ensures pairs { IfOk result (λ b. b.pairs ≡ left.now.pairs ++ right.now.pairs) }
    ensures height { IfOk result (λ b. (max left.now.height right.now.height ≤ b.height)
        × (b.height ≤ max left.now.height right.now.height + 1)) }
    ensures looks { C.looks steps.new ≡ C.looks steps.old }
    ensures applies { C.applies steps.new ≡ C.applies steps.old }
    ensures nodes { C.nodes steps.new ≤ C.nodes steps.old + 4 * (right.now.height + 1) }
{
    if right.height() == 0 {
        return left.share();
    }
    let (item, right) = first_and_rest(alloc, right, steps)?;
    balance(alloc, left.share()?, item, right, steps)
}

/// The first entry of a branch that has one, and the branch of the others.
fn first_and_rest<V: Drop, C: Steps>(
    alloc: Global,
    branch: &Branch<V>,
    steps: &mut C,
) -> Result<(Item<V>, Branch<V>), NoMemory>
    requires { 0 < branch.now.height }
    ensures pairs { IfOk result (λ r. branch.now.pairs ≡ r.0 ∷ r.1.pairs) }
    ensures height { IfOk result (λ r. (r.1.height ≤ branch.now.height) × (branch.now.height ≤ r.1.height + 1)) }
    ensures looks { C.looks steps.new ≡ C.looks steps.old }
    ensures applies { C.applies steps.new ≡ C.applies steps.old }
    ensures nodes { C.nodes steps.new ≤ C.nodes steps.old + 4 * branch.now.height }
{
    let node = match &branch.link {
        Link::Empty => unreachable!(),
        Link::Leaf(leaf) => {
            steps.node();
            let (first, rest) = leaf.first_and_rest(alloc)?;
            let others = branch_of(alloc, rest)?;
            return Ok((first, others));
        }
        Link::Fork(node) => node,
    };
    if node.left.height() == 0 {
        return Ok((node.item.share()?, node.right.share()?));
    }
    let (first, left) = first_and_rest(alloc, &node.left, steps)?;
    let rest = balance(alloc, left, node.item.share()?, node.right.share()?, steps)?;
    Ok((first, rest))
}
