//! The leaves of the tree: a few entries in the order of their keys, flat in one list.
ghost use Rattle.std.specs.Prelude.{◌≡◌, ◌+◌, ◌≤◌, [], ◌∷◌, ◌++◌, count_by, length, ltb, IfOk, OnOk, T};
ghost use Rattle.std.specs.FinMap.{find, put, is_sorted};
ghost use Rattle.std.specs.Option.{option_copied};
ghost use Rattle.store_tree.specs.Contents.{keys_of, without_tied};
ghost use Rattle.store_tree.specs.KeyOrder.{digest_of, key_cmp};
ghost use Rattle.store_tree.specs.Place.{HasUpTo, IsPlace, IsPut};
ghost use Rattle.store_tree.specs.Written.{IsLeafWritten};

use crate::item::Item;
use gql_plain::{NoMemory, Words};
use std::alloc::Global;
use std::cmp::Ordering;
use std::marker::Model;

/// The most entries that a leaf of a tree has.
pub(crate) const MOST: usize = 31;

/// The entries for which a leaf has room: one more than it keeps, for the moment before it is
/// parted.
const ROOM: usize = MOST + 1;

/// Entries in the order of their keys, seen as their pairs.
#[derive(Drop)]
pub(crate) struct Leaf<V> {
    items: Vec<Item<V>>,
}

impl<V> Model for Leaf<V> {
    ghost use Rattle.std.specs.Prelude.{ℕ, List};

    ghost Value = { List (List ℕ × V) };

    ghost view = { λ l. l.items.items };
}

impl<V: Drop> Leaf<V> {
    /// A leaf of one entry.
    pub(crate) fn one(alloc: Global, item: Item<V>) -> Result<Leaf<V>, NoMemory>
        ensures { IfOk result (λ l. l ≡ item ∷ []) }
    {
        let mut items = Vec::with_capacity(alloc, ROOM)?;
        items.push(item)?;
        Ok(Leaf { items })
    }

    /// The number of entries; takes no memory.
    pub(crate) fn len(&self) -> usize
        ensures { result ≡ length self.now }
    {
        self.items.len()
    }

    /// The value at the key, which is given with its digest; takes no memory.
    pub(crate) fn get(&self, digest: u64, key: &str) -> Option<&V>
        requires digest { digest ≡ digest_of key.now }
        requires in_order { T (is_sorted key_cmp self.now) }
        ensures { option_copied result ≡ find key_cmp key.now self.now }
    {
        match self.place(digest, key) {
            Ok(at) => Some(self.items[at].value()),
            Err(_) => None,
        }
    }

    /// A leaf of the same entries, which has room for as many as any other.
    pub(crate) fn copy(&self, alloc: Global) -> Result<Leaf<V>, NoMemory>
        ensures { IfOk result (λ l. l ≡ self.now) }
    {
        let mut items = Vec::with_capacity(alloc, ROOM)?;
        for item in &self.items {
            items.push(item.share()?)?;
        }
        Ok(Leaf { items })
    }

    /// Puts an entry into the leaf, in place of one that has the same key. A leaf that has too many
    /// then is parted: it keeps the first ones, and the entry after them and the later ones come
    /// back. Only a leaf that is parted takes memory.
    pub(crate) fn put(&mut self, item: Item<V>) -> Result<Option<(Item<V>, Leaf<V>)>, NoMemory>
        requires in_order { T (is_sorted key_cmp self.old) }
        requires some { 1 ≤ length self.old }
        requires few { length self.old ≤ MOST }
        ensures { IfOk result (IsPut (put key_cmp item.0 item.1 self.old) self.new MOST) }
    {
        match self.place(item.digest(), item.key()) {
            Ok(at) => {
                self.items[at] = item;
                Ok(None)
            }
            Err(at) => {
                self.items.insert(at, item)?;
                if self.items.len() <= MOST {
                    return Ok(None);
                }
                Ok(Some(self.part()?))
            }
        }
    }

    /// Puts an entry into the leaf, in place of one that has the same key. A leaf without the key
    /// that has no room for one more stays, and the entry comes back. Takes no memory.
    pub(crate) fn write(&mut self, item: Item<V>) -> Option<Item<V>>
        requires in_order { T (is_sorted key_cmp self.old) }
        requires few { HasUpTo MOST self.old }
        ensures { IsLeafWritten MOST item self.old self.new result }
    {
        let at = match self.place(item.digest(), item.key()) {
            Ok(at) => {
                self.items[at] = item;
                return None;
            }
            Err(at) => at,
        };
        let len = self.items.len();
        if len >= MOST || len >= self.items.capacity() {
            return Some(item);
        }
        if let Err(refused) = self.items.insert(at, item) {
            return Some(refused.value);
        }
        None
    }

    /// Parts a leaf that has one entry too many.
    fn part(&mut self) -> Result<(Item<V>, Leaf<V>), NoMemory>
        requires { length self.old ≡ MOST + 1 }
        ensures pairs { IfOk result (λ r. self.old ≡ self.new ++ r.0 ∷ r.1) }
        ensures first { OnOk result (HasUpTo MOST self.new) }
        ensures later { IfOk result (λ r. HasUpTo MOST r.1) }
    {
        let mut items = self.items.split_off(MOST / 2 + 1)?;
        items.reserve_exact(ROOM - items.len())?;
        let Some(middle) = self.items.pop() else {
            unreachable!()
        };
        Ok((middle, Leaf { items }))
    }

    /// A leaf without the key, which is given with its digest.
    pub(crate) fn without(&self, alloc: Global, digest: u64, key: &str) -> Result<Leaf<V>, NoMemory>
        requires digest { digest ≡ digest_of key.now }
        requires in_order { T (is_sorted key_cmp self.now) }
        ensures { IfOk result (λ l. l ≡ without_tied key_cmp key.now self.now) }
    {
        match self.place(digest, key) {
            Ok(at) => {
                let mut rest = self.copy(alloc)?;
                drop(rest.items.remove(at));
                Ok(rest)
            }
            Err(_) => self.copy(alloc),
        }
    }

    /// Takes the entry at the key, which is given with its digest, out of the leaf; takes no memory.
    pub(crate) fn take(&mut self, digest: u64, key: &str)
        requires digest { digest ≡ digest_of key.now }
        requires in_order { T (is_sorted key_cmp self.old) }
        ensures { self.new ≡ without_tied key_cmp key.now self.old }
    {
        match self.place(digest, key) {
            Ok(at) => drop(self.items.remove(at)),
            Err(_) => {}
        }
    }

    /// The first entry, and a leaf of the others, which may have none.
    pub(crate) fn first_and_rest(&self, alloc: Global) -> Result<(Item<V>, Leaf<V>), NoMemory>
        requires { 1 ≤ length self.now }
        ensures { IfOk result (λ r. self.now ≡ r.0 ∷ r.1) }
    {
        let mut rest = self.copy(alloc)?;
        let first = rest.items.remove(0);
        Ok((first, rest))
    }

    /// Puts the keys, in the order of the leaf, to the end of a list.
    pub(crate) fn add_keys(&self, keys: &mut Vec<Words>) -> Result<(), NoMemory>
        ensures { OnOk result (keys.new.items ≡ keys.old.items ++ keys_of self.now) }
    {
        for item in &self.items {
            keys.push(item.copy_key()?)?;
        }
        Ok(())
    }

    /// Where the entry of the key stands, or else where one would stand; takes no memory.
    fn place(&self, digest: u64, key: &str) -> Result<usize, usize>
        requires digest { digest ≡ digest_of key.now }
        requires in_order { T (is_sorted key_cmp self.now) }
        ensures { IsPlace key.now self.now result }
    {
        for at in self.lower(digest)..self.items.len() {
            match self.items[at].order(digest, key) {
                Ordering::Less => return Err(at),
                Ordering::Equal => return Ok(at),
                Ordering::Greater => {}
            }
        }
        Err(self.items.len())
    }

    /// The number of keys with a lower digest, which are the first ones; takes no memory. It looks at
    /// each entry: with so few, that costs less than the wrong guesses of a search by halves.
    fn lower(&self, digest: u64) -> usize
        ensures { result ≡ count_by (λ pair. ltb (digest_of pair.0) digest) self.now }
    {
        let mut count = 0;
        for item in &self.items {
            count += usize::from(item.digest() < digest);
        }
        count
    }
}
