//! The tree: a map from text whose versions share their nodes.
ghost use Rattle.std.specs.Prelude.{◌≡◌, ◌+◌, ◌*◌, ◌≤◌, ◌++◌, [], length, map, IfOk, IfSome, None, T};
ghost use Rattle.std.specs.Cmp.Lexicographic.{slice_cmp};
ghost use Rattle.std.specs.FinMap.{find, put, is_sorted};
ghost use Rattle.std.specs.Option.{option_copied};
ghost use Rattle.std.specs.Ordering.{nat_cmp};
ghost use Rattle.gql_plain.specs.Order.{AreSortedOf};
ghost use Rattle.store_tree.specs.Contents.{Contents, KeysRise, binary_digits, by_bytes, keys_of, without_key};
ghost use Rattle.store_tree.specs.KeyOrder.{key_cmp};

use crate::branch::Branch;
use crate::change::{with_entry, without_entry};
use crate::in_place::{put_entry, take_entry};
use crate::item::{Item, digest};
use crate::written::write_entry;
use gql_plain::{Ids, NoMemory, Steps, Words};
use std::alloc::Global;
use std::marker::Model;
use std::rc::Rc;

/// A map from text to shared values, seen as its pairs in the byte order of the keys, and its
/// height.
///
/// The entries stand in leaves of a few each, and one in each node above them. `insert` and `remove`
/// leave the tree as it is, and give a new version. It shares with the old one all leaves and nodes
/// but those on the way to the key. `put` and `take_out` take the tree, and write in place the leaves
/// and nodes that no other version holds. Each leaf or node made is counted by `Steps::node`.
#[derive(Drop)]
pub struct Tree<V> {
    root: Branch<V>,
}

impl<V> Model for Tree<V> {
    ghost use Rattle.std.specs.Prelude.{T};
    ghost use Rattle.std.specs.FinMap.{is_sorted};
    ghost use Rattle.store_tree.specs.Contents.{Contents, by_bytes};
    ghost use Rattle.store_tree.specs.KeyOrder.{key_cmp};

    ghost Value = { Contents V };

    ghost view = { λ t. record { pairs = by_bytes t.root.pairs; height = t.root.height } };

    ghost invariant = { λ t. T (is_sorted key_cmp t.root.pairs) };
}

impl<V: Drop> Tree<V> {
    /// The empty map; takes no memory.
    pub fn new() -> Tree<V>
        ensures { result ≡ record { pairs = []; height = 0 } }
    {
        Tree {
            root: Branch::empty(),
        }
    }

    /// The number of pairs, in constant time; takes no memory. The height is at most twice the
    /// number of its binary digits.
    pub fn len(&self) -> u64
        ensures len { result ≡ length self.now.pairs }
        ensures in_order { KeysRise self.now.pairs }
        ensures low { self.now.height ≤ 2 * binary_digits (length self.now.pairs) }
    {
        self.root().count()
    }

    /// The value at the key; takes no memory.
    pub fn get(&self, key: &str) -> Option<&V>
        ensures found { option_copied result ≡ find (slice_cmp nat_cmp) key.now self.now.pairs }
        ensures in_order { KeysRise self.now.pairs }
    {
        self.root().get(digest(key), key)
    }

    /// An equal tree that shares the leaves and nodes, in constant time.
    pub fn version(&self) -> Result<Tree<V>, NoMemory>
        ensures same { IfOk result (λ t. t ≡ self.now) }
        ensures in_order { KeysRise self.now.pairs }
    {
        Ok(Tree {
            root: self.root().share()?,
        })
    }

    /// The map with the value at the key, in place of one that stands there.
    ///
    /// `nodes` rises by at most `8 * (h + 1)`, where `h` is the height before.
    pub fn insert<C: Steps>(
        &self,
        alloc: Global,
        key: Words,
        value: Rc<V>,
        steps: &mut C,
    ) -> Result<Tree<V>, NoMemory>
        ensures pairs { IfOk result (λ t. t.pairs ≡ put (slice_cmp nat_cmp) key value.value self.now.pairs) }
        ensures in_order { KeysRise self.now.pairs }
        ensures looks { C.looks steps.new ≡ C.looks steps.old }
        ensures applies { C.applies steps.new ≡ C.applies steps.old }
        ensures nodes { C.nodes steps.new ≤ C.nodes steps.old + 8 * (self.now.height + 1) }
        ensures bound { C.nodes steps.new ≤ C.nodes steps.old
            + 8 * (2 * binary_digits (length self.now.pairs) + 1) }
    {
        let root = self.root();
        let item = Item::new(alloc, key, value)?;
        Ok(Tree {
            root: with_entry(alloc, root, item, steps)?,
        })
    }

    /// The map with the value at the key, in place of one that stands there. A leaf or a node that
    /// no other version holds is written in place. After an error the tree is gone.
    ///
    /// `nodes` rises by at most `8 * (h + 1)`, where `h` is the height before.
    pub fn put<C: Steps>(
        self,
        alloc: Global,
        key: Words,
        value: Rc<V>,
        steps: &mut C,
    ) -> Result<Tree<V>, NoMemory>
        ensures pairs { IfOk result (λ t. t.pairs ≡ put (slice_cmp nat_cmp) key value.value self.pairs) }
        ensures in_order { KeysRise self.pairs }
        ensures looks { C.looks steps.new ≡ C.looks steps.old }
        ensures applies { C.applies steps.new ≡ C.applies steps.old }
        ensures nodes { C.nodes steps.new ≤ C.nodes steps.old + 8 * (self.height + 1) }
        ensures bound { C.nodes steps.new ≤ C.nodes steps.old
            + 8 * (2 * binary_digits (length self.pairs) + 1) }
    {
        let mut root = self.into_root();
        let item = Item::new(alloc, key, value)?;
        put_entry(alloc, &mut root, item, steps)?;
        Ok(Tree { root })
    }

    /// As `put`, with an entry that is made already.
    pub fn put_item<C: Steps>(
        self,
        alloc: Global,
        item: Item<V>,
        steps: &mut C,
    ) -> Result<Tree<V>, NoMemory>
        ensures pairs { IfOk result (λ t. t.pairs ≡ put (slice_cmp nat_cmp) item.0 item.1 self.pairs) }
        ensures in_order { KeysRise self.pairs }
        ensures looks { C.looks steps.new ≡ C.looks steps.old }
        ensures applies { C.applies steps.new ≡ C.applies steps.old }
        ensures nodes { C.nodes steps.new ≤ C.nodes steps.old + 8 * (self.height + 1) }
        ensures bound { C.nodes steps.new ≤ C.nodes steps.old
            + 8 * (2 * binary_digits (length self.pairs) + 1) }
    {
        let mut root = self.into_root();
        put_entry(alloc, &mut root, item, steps)?;
        Ok(Tree { root })
    }

    /// Puts an entry into the tree, in place of one that has the same key, where that takes no
    /// memory: no other version holds the leaf and the nodes on the way to the key, and the leaf has
    /// the key or room for one more. Otherwise the tree stays as it was, and the entry comes back. No
    /// node is made. Takes no memory.
    pub fn write(&mut self, item: Item<V>) -> Option<Item<V>>
        ensures written { result ≡ None → self.new.pairs ≡ put (slice_cmp nat_cmp) item.0 item.1 self.old.pairs }
        ensures height { self.new.height ≡ self.old.height }
        ensures given_back { IfSome result (λ back. (back ≡ item) × (self.new ≡ self.old)) }
        ensures in_order { KeysRise self.old.pairs }
    {
        if self.root.count() == u64::MAX {
            return Some(item);
        }
        write_entry(&mut self.root, item)
    }

    /// The map without the key.
    ///
    /// `nodes` rises by at most `8 * (h + 1)`, where `h` is the height before.
    pub fn remove<C: Steps>(
        &self,
        alloc: Global,
        key: &str,
        steps: &mut C,
    ) -> Result<Tree<V>, NoMemory>
        ensures pairs { IfOk result (λ t. t.pairs ≡ without_key key.now self.now.pairs) }
        ensures in_order { KeysRise self.now.pairs }
        ensures looks { C.looks steps.new ≡ C.looks steps.old }
        ensures applies { C.applies steps.new ≡ C.applies steps.old }
        ensures nodes { C.nodes steps.new ≤ C.nodes steps.old + 8 * (self.now.height + 1) }
        ensures bound { C.nodes steps.new ≤ C.nodes steps.old
            + 8 * (2 * binary_digits (length self.now.pairs) + 1) }
    {
        let root = self.root();
        Ok(Tree {
            root: without_entry(alloc, root, digest(key), key, steps)?,
        })
    }

    /// The map without the key. A leaf or a node that no other version holds is written in place. After
    /// an error the tree is gone.
    ///
    /// `nodes` rises by at most `8 * (h + 1)`, where `h` is the height before.
    pub fn take_out<C: Steps>(
        self,
        alloc: Global,
        key: &str,
        steps: &mut C,
    ) -> Result<Tree<V>, NoMemory>
        ensures pairs { IfOk result (λ t. t.pairs ≡ without_key key.now self.pairs) }
        ensures in_order { KeysRise self.pairs }
        ensures looks { C.looks steps.new ≡ C.looks steps.old }
        ensures applies { C.applies steps.new ≡ C.applies steps.old }
        ensures nodes { C.nodes steps.new ≤ C.nodes steps.old + 8 * (self.height + 1) }
        ensures bound { C.nodes steps.new ≤ C.nodes steps.old
            + 8 * (2 * binary_digits (length self.pairs) + 1) }
    {
        let mut root = self.into_root();
        take_entry(alloc, &mut root, digest(key), key, steps)?;
        Ok(Tree { root })
    }

    /// The keys in byte order.
    pub fn keys(&self, alloc: Global) -> Result<Ids, NoMemory>
        ensures keys { IfOk result (λ ids. ids ≡ keys_of self.now.pairs) }
        ensures in_order { KeysRise self.now.pairs }
    {
        let mut items = Vec::new(alloc);
        self.root().add_keys(&mut items)?;
        Ids::sort(items)
    }

    /// The keys and the texts of a list, each once, in byte order.
    pub fn keys_with(&self, more: Vec<Words>) -> Result<Ids, NoMemory>
        ensures keys { IfOk result (AreSortedOf (more.items ++ keys_of self.now.pairs)) }
        ensures in_order { KeysRise self.now.pairs }
    {
        let mut items = more;
        self.root().add_keys(&mut items)?;
        Ids::sort(items)
    }

    /// The root, whose pairs stand in the order of the tree; takes no memory.
    fn root(&self) -> &Branch<V>
        ensures pairs { by_bytes result.now.pairs ≡ self.now.pairs }
        ensures height { result.now.height ≡ self.now.height }
        ensures sorted { T (is_sorted key_cmp result.now.pairs) }
        ensures in_order { KeysRise self.now.pairs }
        ensures len { length result.now.pairs ≡ length self.now.pairs }
        ensures low { self.now.height ≤ 2 * binary_digits (length self.now.pairs) }
    {
        let root = &self.root;
        let _ = &root.link;
        root
    }

    /// The root alone, whose pairs stand in the order of the tree; takes no memory.
    fn into_root(self) -> Branch<V>
        ensures pairs { by_bytes result.pairs ≡ self.pairs }
        ensures height { result.height ≡ self.height }
        ensures sorted { T (is_sorted key_cmp result.pairs) }
        ensures in_order { KeysRise self.pairs }
        ensures low { self.height ≤ 2 * binary_digits (length self.pairs) }
    {
        let root = self.root;
        let _ = &root.link;
        root
    }
}
