//! The entries of the tree, and the order in which the tree keeps them.
ghost use Rattle.std.specs.Prelude.{◌≡◌, IfOk};
ghost use Rattle.store_tree.specs.KeyOrder.{digest_of, key_cmp};

use gql_plain::{NoMemory, Words};
use std::alloc::Global;
use std::cmp::Ordering;
use std::marker::Model;
use std::rc::Rc;

const FACTOR: u64 = 11_400_714_819_323_198_485;

/// The number of bytes at the end of a key that stand in its digest as they are.
const LAST: usize = 4;

/// The number by which a key is ordered first; takes no memory. Keys that differ in their last four bytes alone
/// stand side by side, in byte order, so what goes through them in turn stays in few leaves.
#[tactic(auto, unfolding(crate::specs::KeyOrder::digest_of))]
pub(crate) fn digest(key: &str) -> u64
    ensures { result ≡ digest_of key.now }
{
    let bytes = key.as_bytes();
    let (front, last) = bytes.split_at(bytes.len().saturating_sub(LAST));
    let mut digest: u64 = 0;
    'front: for byte in front {
        digest = digest.wrapping_add(u64::from(*byte)).wrapping_mul(FACTOR);
    }
    'last: for byte in last {
        digest = digest.wrapping_mul(256).wrapping_add(u64::from(*byte));
    }
    digest
}

/// A key with its value, shared whole.
#[derive(Drop)]
pub(crate) struct Entry<V> {
    pub(crate) key: Words,
    pub(crate) value: Rc<V>,
}

/// An entry that is ready to be put into a tree. It is seen as the key and the value.
///
/// It has the digest of its key, so that few comparisons read the key itself.
#[derive(Drop)]
pub struct Item<V> {
    digest: u64,
    entry: Rc<Entry<V>>,
}

impl<V> Model for Item<V> {
    ghost use Rattle.std.specs.Prelude.{◌≡◌, ℕ, List};
    ghost use Rattle.store_tree.specs.KeyOrder.{digest_of};

    ghost Value = { List ℕ × V };

    ghost view = { λ i. (i.entry.value.key, i.entry.value.value.value) };

    ghost invariant = { λ i. i.digest ≡ digest_of i.entry.value.key };
}

impl<V: Drop> Item<V> {
    /// An entry of the key and the value. The error means that no memory is left.
    pub fn new(alloc: Global, key: Words, value: Rc<V>) -> Result<Item<V>, NoMemory>
        ensures { IfOk result (λ i. i ≡ (key, value.value)) }
    {
        let digest = digest(key.as_str());
        let entry = Rc::new(alloc, Entry { key, value })?;
        Ok(Item { digest, entry })
    }

    /// The key; takes no memory.
    pub fn key(&self) -> &str
        ensures { result.now ≡ self.now.0 }
    {
        self.entry.key.as_str()
    }

    /// A copy of the key.
    pub(crate) fn copy_key(&self) -> Result<Words, NoMemory>
        ensures { IfOk result (λ w. w ≡ self.now.0) }
    {
        self.entry.key.copy()
    }

    /// The digest of the key; takes no memory.
    pub(crate) fn digest(&self) -> u64
        ensures { result ≡ digest_of self.now.0 }
    {
        self.digest
    }

    /// The value; takes no memory.
    pub fn value(&self) -> &V
        ensures { result.now ≡ self.now.1 }
    {
        self.entry.value.as_ref()
    }

    /// The same entry once more, in constant time. The error means that it can't be shared by more.
    pub fn share(&self) -> Result<Item<V>, NoMemory>
        ensures { IfOk result (λ i. i ≡ self.now) }
    {
        Ok(Item {
            digest: self.digest,
            entry: self.entry.clone()?,
        })
    }

    /// Where a key, given with its digest, stands to this entry's key; takes no memory.
    #[tactic(auto, unfolding(crate::specs::KeyOrder::key_cmp))]
    pub(crate) fn order(&self, digest: u64, key: &str) -> Ordering
        requires { digest ≡ digest_of key.now }
        ensures { result ≡ key_cmp key.now self.now.0 }
    {
        match digest.cmp(&self.digest) {
            Ordering::Less => Ordering::Less,
            Ordering::Equal => key.cmp(self.entry.key.as_str()),
            Ordering::Greater => Ordering::Greater,
        }
    }
}
