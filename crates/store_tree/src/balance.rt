//! What brings a branch back into balance.
ghost use Rattle.std.specs.Prelude.{◌≡◌, ◌+◌, ◌<◌, ◌≤◌, ◌∷◌, ◌++◌, IfOk};
ghost use Rattle.store_tree.specs.Heights.{DifferByAtMost, IsGrown, IsSettledHeight};

use crate::branch::{Branch, Link, fork};
use crate::item::Item;
use crate::leaves::branch_of;
use gql_plain::{NoMemory, Steps};
use std::alloc::Global;

/// An entry between two sides whose heights differ by at most two, in balance.
pub(crate) fn balance<V: Drop, C: Steps>(
    alloc: Global,
    left: Branch<V>,
    item: Item<V>,
    right: Branch<V>,
    steps: &mut C,
) -> Result<Branch<V>, NoMemory>
    requires { DifferByAtMost 2 left.height right.height }
    ensures pairs { IfOk result (λ b. b.pairs ≡ left.pairs ++ item ∷ right.pairs) }
    ensures height { IfOk result (λ b. IsSettledHeight left.height right.height b.height) }
    ensures looks { C.looks steps.new ≡ C.looks steps.old }
    ensures applies { C.applies steps.new ≡ C.applies steps.old }
    ensures nodes { C.nodes steps.new ≤ C.nodes steps.old + 4 }
{
    if left.height() > right.height() + 1 {
        rotate_right(alloc, &left, item, right, steps)
    } else if right.height() > left.height() + 1 {
        rotate_left(alloc, left, item, &right, steps)
    } else {
        fork(alloc, left, item, right, steps)
    }
}

/// An entry between two sides of which the left is two levels higher, in balance.
fn rotate_right<V: Drop, C: Steps>(
    alloc: Global,
    left: &Branch<V>,
    item: Item<V>,
    right: Branch<V>,
    steps: &mut C,
) -> Result<Branch<V>, NoMemory>
    requires { left.now.height ≡ right.height + 2 }
    ensures pairs { IfOk result (λ b. b.pairs ≡ left.now.pairs ++ item ∷ right.pairs) }
    ensures height { IfOk result (λ b. IsGrown left.now.height b.height) }
    ensures looks { C.looks steps.new ≡ C.looks steps.old }
    ensures applies { C.applies steps.new ≡ C.applies steps.old }
    ensures nodes { C.nodes steps.new ≤ C.nodes steps.old + 4 }
{
    let Link::Fork(node) = &left.link else {
        unreachable!()
    };
    let (outer, inner) = (&node.left, &node.right);
    if outer.height() >= inner.height() {
        let right = fork(alloc, inner.share()?, item, right, steps)?;
        return fork(alloc, outer.share()?, node.item.share()?, right, steps);
    }
    part(
        alloc,
        outer.share()?,
        node.item.share()?,
        inner,
        item,
        right,
        steps,
    )
}

/// An entry between two sides of which the right is two levels higher, in balance.
fn rotate_left<V: Drop, C: Steps>(
    alloc: Global,
    left: Branch<V>,
    item: Item<V>,
    right: &Branch<V>,
    steps: &mut C,
) -> Result<Branch<V>, NoMemory>
    requires { right.now.height ≡ left.height + 2 }
    ensures pairs { IfOk result (λ b. b.pairs ≡ left.pairs ++ item ∷ right.now.pairs) }
    ensures height { IfOk result (λ b. IsGrown right.now.height b.height) }
    ensures looks { C.looks steps.new ≡ C.looks steps.old }
    ensures applies { C.applies steps.new ≡ C.applies steps.old }
    ensures nodes { C.nodes steps.new ≤ C.nodes steps.old + 4 }
{
    let Link::Fork(node) = &right.link else {
        unreachable!()
    };
    let (inner, outer) = (&node.left, &node.right);
    if outer.height() >= inner.height() {
        let left = fork(alloc, left, item, inner.share()?, steps)?;
        return fork(alloc, left, node.item.share()?, outer.share()?, steps);
    }
    part(
        alloc,
        left,
        item,
        inner,
        node.item.share()?,
        outer.share()?,
        steps,
    )
}

/// A branch with an entry that is parted between the two beside it, an entry of its own above them.
fn part<V: Drop, C: Steps>(
    alloc: Global,
    left: Branch<V>,
    first: Item<V>,
    middle: &Branch<V>,
    last: Item<V>,
    right: Branch<V>,
    steps: &mut C,
) -> Result<Branch<V>, NoMemory>
    requires level { left.height ≡ right.height }
    requires higher { middle.now.height ≡ left.height + 1 }
    ensures pairs { IfOk result (λ b. b.pairs ≡ left.pairs ++ first ∷ (middle.now.pairs ++ last ∷ right.pairs)) }
    ensures height { IfOk result (λ b. IsGrown (left.height + 2) b.height) }
    ensures looks { C.looks steps.new ≡ C.looks steps.old }
    ensures applies { C.applies steps.new ≡ C.applies steps.old }
    ensures nodes { C.nodes steps.new ≤ C.nodes steps.old + 4 }
{
    let (before, item, after) = sides(alloc, middle, steps)?;
    let low = fork(alloc, left, first, before, steps)?;
    let high = fork(alloc, after, last, right, steps)?;
    fork(alloc, low, item, high, steps)
}

/// An entry of a branch that has one, between the entries before it and those after it.
fn sides<V: Drop, C: Steps>(
    alloc: Global,
    branch: &Branch<V>,
    steps: &mut C,
) -> Result<(Branch<V>, Item<V>, Branch<V>), NoMemory>
    requires { 0 < branch.now.height }
    ensures pairs { IfOk result (λ r. branch.now.pairs ≡ r.0.pairs ++ r.1 ∷ r.2.pairs) }
    ensures before { IfOk result (λ r. (r.0.height < branch.now.height) × (branch.now.height ≤ r.0.height + 2)) }
    ensures after { IfOk result (λ r. (r.2.height ≤ branch.now.height) × (branch.now.height ≤ r.2.height + 2)) }
    ensures looks { C.looks steps.new ≡ C.looks steps.old }
    ensures applies { C.applies steps.new ≡ C.applies steps.old }
    ensures nodes { C.nodes steps.new ≤ C.nodes steps.old + 1 }
{
    match &branch.link {
        Link::Empty => unreachable!(),
        Link::Leaf(leaf) => {
            steps.node();
            let (first, rest) = leaf.first_and_rest(alloc)?;
            let after = branch_of(alloc, rest)?;
            Ok((Branch::empty(), first, after))
        }
        Link::Fork(node) => {
            let before = node.left.share()?;
            let item = node.item.share()?;
            let after = node.right.share()?;
            Ok((before, item, after))
        }
    }
}
