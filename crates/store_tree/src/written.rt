//! A branch into which one entry is written in place, with no step that may fail.
ghost use Rattle.std.specs.Prelude.{◌≡◌, ◌+◌, ◌^◌, ◌<◌, length, T};
ghost use Rattle.std.specs.FinMap.{is_sorted};
ghost use Rattle.store_tree.specs.KeyOrder.{key_cmp};
ghost use Rattle.store_tree.specs.Place.{HasUpTo};
ghost use Rattle.store_tree.specs.Shape.{pairs_of, IsEven};
ghost use Rattle.store_tree.specs.Written.{IsNodeWritten, IsWritten};

use crate::branch::{Branch, Link, Node};
use crate::item::Item;
use crate::leaf::{Leaf, MOST};
use std::cmp::Ordering;
use std::mem;
use std::rc::Rc;

/// Writes an entry into a branch, in place of one that has the same key. Where another branch holds
/// the leaf or a node on the way to it, or the leaf has no room, all stays and the entry comes back.
/// Takes no memory.
#[cycle(write)]
pub(crate) fn write_entry<V: Drop>(branch: &mut Branch<V>, item: Item<V>) -> Option<Item<V>>
    requires in_order { T (is_sorted key_cmp branch.old.pairs) }
    requires room { length branch.old.pairs + 1 < 2 ^ 64 }
    ensures { IsWritten item branch.old branch.new result }
{
    let whole = mem::replace(branch, Branch::empty());
    match whole.link {
        Link::Empty => Some(item),
        Link::Leaf(leaf) => {
            let (after, back) = write_leaf(leaf, item);
            *branch = after;
            back
        }
        Link::Fork(node) => {
            let (after, back) = write_node(node, item);
            *branch = after;
            back
        }
    }
}

/// A branch of a leaf into which an entry is written, unless it comes back.
fn write_leaf<V: Drop>(mut leaf: Rc<Leaf<V>>, item: Item<V>) -> (Branch<V>, Option<Item<V>>)
    requires in_order { T (is_sorted key_cmp leaf.value) }
    requires few { HasUpTo MOST leaf.value }
    ensures { IsWritten item (record { pairs = leaf.value; height = 1 }) result.0 result.1 }
{
    let Some(place) = Rc::get_mut(&mut leaf) else {
        let shared = Branch {
            link: Link::Leaf(leaf),
        };
        return (shared, Some(item));
    };
    match place.write(item) {
        None => {
            let written = Branch {
                link: Link::Leaf(leaf),
            };
            (written, None)
        }
        Some(back) => {
            let same = Branch {
                link: Link::Leaf(leaf),
            };
            (same, Some(back))
        }
    }
}

/// A branch of a node into which an entry is written, unless it comes back.
#[cycle(write)]
fn write_node<V: Drop>(mut node: Rc<Node<V>>, item: Item<V>) -> (Branch<V>, Option<Item<V>>)
    requires even { IsEven node.value }
    requires in_order { T (is_sorted key_cmp (pairs_of node.value)) }
    requires room { node.value.count + 1 < 2 ^ 64 }
    ensures { IsWritten item (record { pairs = pairs_of node.value; height = node.value.height }) result.0 result.1 }
{
    let Some(place) = Rc::get_mut(&mut node) else {
        let shared = Branch {
            link: Link::Fork(node),
        };
        return (shared, Some(item));
    };
    match write_beside(place, item) {
        None => {
            let written = Branch {
                link: Link::Fork(node),
            };
            (written, None)
        }
        Some(back) => {
            let same = Branch {
                link: Link::Fork(node),
            };
            (same, Some(back))
        }
    }
}

/// Writes an entry into a node, in place of one that has the same key, unless it comes back.
#[cycle(write)]
fn write_beside<V: Drop>(place: &mut Node<V>, item: Item<V>) -> Option<Item<V>>
    requires even { IsEven place.old }
    requires in_order { T (is_sorted key_cmp (pairs_of place.old)) }
    requires room { place.old.count + 1 < 2 ^ 64 }
    ensures { IsNodeWritten item place.old place.new result }
{
    match place.item.order(item.digest(), item.key()) {
        Ordering::Less => {
            let few = place.left.count();
            if let Some(back) = write_entry(&mut place.left, item) {
                return Some(back);
            }
            place.count = place.count - few + place.left.count();
            None
        }
        Ordering::Equal => {
            place.item = item;
            None
        }
        Ordering::Greater => {
            let few = place.right.count();
            if let Some(back) = write_entry(&mut place.right, item) {
                return Some(back);
            }
            place.count = place.count - few + place.right.count();
            None
        }
    }
}
