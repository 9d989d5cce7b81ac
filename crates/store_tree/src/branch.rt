//! The leaves and nodes of the tree, which versions share. One that two versions hold never
//! changes.
ghost use Rattle.std.specs.Prelude.{◌≡◌, ◌+◌, ◌^◌, ◌<◌, ◌≤◌, max, [], ◌∷◌, ◌++◌, length, IfOk, IfSome, OnOk, T};
ghost use Rattle.std.specs.FinMap.{find, is_sorted};
ghost use Rattle.std.specs.Option.{option_copied};
ghost use Rattle.gql_plain.specs.Counted.{next_count};
ghost use Rattle.store_tree.specs.Contents.{Contents, keys_of};
ghost use Rattle.store_tree.specs.Heights.{least, DifferByAtMost};
ghost use Rattle.store_tree.specs.KeyOrder.{digest_of, key_cmp};

use crate::item::Item;
use crate::leaf::Leaf;
use gql_plain::{NoMemory, Steps, Words};
use std::alloc::Global;
use std::cmp::Ordering;
use std::marker::Model;
use std::rc::Rc;

/// A part of the tree, which may be empty.
#[cycle(branch)]
#[derive(Drop)]
pub(crate) struct Branch<V> {
    pub(crate) link: Link<V>,
}

/// No entry, a few entries in one list, or an entry between two parts of the tree.
#[cycle(branch)]
#[derive(Drop)]
pub(crate) enum Link<V> {
    Empty,
    Leaf(Rc<Leaf<V>>),
    Fork(Rc<Node<V>>),
}

/// An entry between the entries before it and those after it.
#[cycle(branch)]
#[derive(Drop)]
pub(crate) struct Node<V> {
    pub(crate) left: Branch<V>,
    pub(crate) item: Item<V>,
    pub(crate) right: Branch<V>,
    pub(crate) count: u64,
    pub(crate) height: u64,
}

impl<V> Model for Branch<V> {
    ghost use Rattle.std.specs.Prelude.{length};
    ghost use Rattle.store_tree.specs.Contents.{Contents};

    ghost Value = { Contents V };

    ghost use Rattle.store_tree.specs.Shape.{contents_of, IsBalanced};

    ghost view = { λ b. contents_of b.link };

    ghost invariant = { λ b. IsBalanced b.link };

    ghost size = { λ d. length d.pairs };

    ghost use Rattle.std.proofs.Common.{arith, length-append};

    ghost size_decreases = { λ a h. Prim.grind (arith, length-append) };
}

impl<V: Drop> Branch<V> {
    /// No entry; takes no memory.
    pub(crate) fn empty() -> Branch<V>
        ensures { result ≡ record { pairs = []; height = 0 } }
    {
        Branch { link: Link::Empty }
    }

    /// The number of leaves and nodes on a longest way down; takes no memory.
    pub(crate) fn height(&self) -> u64
        ensures height { result ≡ self.now.height }
        ensures low { result ≤ 128 }
        ensures enough { least result ≤ length self.now.pairs }
        ensures none { result ≡ 0 → self.now.pairs ≡ [] }
    {
        match &self.link {
            Link::Empty => 0,
            Link::Leaf(_) => 1,
            Link::Fork(node) => node.height,
        }
    }

    /// The number of entries; takes no memory.
    pub(crate) fn count(&self) -> u64
        ensures { result ≡ length self.now.pairs }
    {
        match &self.link {
            Link::Empty => 0,
            Link::Leaf(leaf) => leaf.len() as u64,
            Link::Fork(node) => node.count,
        }
    }

    /// The same leaves and nodes once more, in constant time.
    pub(crate) fn share(&self) -> Result<Branch<V>, NoMemory>
        ensures { IfOk result (λ b. b ≡ self.now) }
    {
        match &self.link {
            Link::Empty => Ok(Branch::empty()),
            Link::Leaf(leaf) => Ok(Branch {
                link: Link::Leaf(leaf.clone()?),
            }),
            Link::Fork(node) => Ok(Branch {
                link: Link::Fork(node.clone()?),
            }),
        }
    }

    /// The value at the key, which is given with its digest; takes no memory.
    pub(crate) fn get(&self, digest: u64, key: &str) -> Option<&V>
        requires digest { digest ≡ digest_of key.now }
        requires in_order { T (is_sorted key_cmp self.now.pairs) }
        ensures { option_copied result ≡ find key_cmp key.now self.now.pairs }
    {
        let node = match &self.link {
            Link::Empty => return None,
            Link::Leaf(leaf) => return leaf.get(digest, key),
            Link::Fork(node) => node,
        };
        match node.item.order(digest, key) {
            Ordering::Less => node.left.get(digest, key),
            Ordering::Equal => Some(node.item.value()),
            Ordering::Greater => node.right.get(digest, key),
        }
    }

    /// Puts the keys, in the order of the tree, to the end of a list.
    pub(crate) fn add_keys(&self, keys: &mut Vec<Words>) -> Result<(), NoMemory>
        ensures { OnOk result (keys.new.items ≡ keys.old.items ++ keys_of self.now.pairs) }
    {
        let node = match &self.link {
            Link::Empty => return Ok(()),
            Link::Leaf(leaf) => return leaf.add_keys(keys),
            Link::Fork(node) => node,
        };
        node.left.add_keys(keys)?;
        keys.push(node.item.copy_key()?)?;
        node.right.add_keys(keys)
    }
}

/// A new node: an entry between the entries before it and those after it.
pub(crate) fn fork<V: Drop, C: Steps>(
    alloc: Global,
    left: Branch<V>,
    item: Item<V>,
    right: Branch<V>,
    steps: &mut C,
) -> Result<Branch<V>, NoMemory>
    requires { DifferByAtMost 1 left.height right.height }
    ensures pairs { IfOk result (λ b. b.pairs ≡ left.pairs ++ item ∷ right.pairs) }
    ensures height { IfOk result (λ b. b.height ≡ max left.height right.height + 1) }
    ensures looks { C.looks steps.new ≡ C.looks steps.old }
    ensures applies { C.applies steps.new ≡ C.applies steps.old }
    ensures nodes { C.nodes steps.new ≡ next_count (C.nodes steps.old) }
{
    steps.node();
    let height = left.height().max(right.height()) + 1;
    let Some(count) = one_more_than(left.count(), right.count()) else {
        return Err(NoMemory);
    };
    let node = Node {
        left,
        item,
        right,
        count,
        height,
    };
    Ok(Branch {
        link: Link::Fork(Rc::new(alloc, node)?),
    })
}

/// The sum and one more, if 64 bits hold it.
pub(crate) fn one_more_than(left: u64, right: u64) -> Option<u64>
    ensures sum { IfSome result (λ n. n ≡ left + right + 1) }
    ensures fits { IfSome result (λ n. n < 2 ^ 64) }
{
    left.checked_add(right)?.checked_add(1)
}
