//! An index from ids to numbers of watches.
ghost use Rattle.std.specs.Prelude.{◌≡◌, ℕ, true, List, [], OnOk};
ghost use Rattle.store_watch.specs.Lists.{under};
ghost use Rattle.store_watch.specs.Numbers.{Grows, StandsUnder, has};

use plan_ir::{Ids, NoMemory};
use std::alloc::Global;
use std::collections::BTreeMap;

/// With fewer puts an index is not worn.
const LEAST_WORN: usize = 1000;

/// For each id the numbers of the watches that saw it, and others that did.
#[derive(Drop)]
pub(crate) struct Index {
    pub(crate) lists: BTreeMap<String, Vec<u64>>,
    /// How many numbers were put.
    puts: usize,
    /// With how many puts it is worn.
    limit: usize,
}

impl Index {
    /// No number; takes no memory.
    pub(crate) fn new(alloc: Global) -> Index
        ensures { (id : List ℕ) → under result.lists id ≡ [] }
    {
        Index {
            lists: BTreeMap::new(alloc),
            puts: 0,
            limit: LEAST_WORN,
        }
    }

    /// The numbers under an id; takes no memory.
    pub(crate) fn at(&self, id: &str) -> &[u64]
        ensures { result.now ≡ under self.now.lists id.now }
    {
        match self.lists.get(id) {
            Some(list) => list.as_slice(),
            None => &[],
        }
    }

    /// Whether so much was put that most of it may be out of date; takes no memory.
    pub(crate) fn is_worn(&self) -> bool {
        self.puts > self.limit
    }

    /// Notes that all that was put holds now; takes no memory.
    pub(crate) fn settle(&mut self)
        ensures { self.new.lists ≡ self.old.lists }
    {
        self.limit = self.puts.saturating_mul(2).max(LEAST_WORN);
    }

    /// Puts a number under each of the ids.
    pub(crate) fn put_all(&mut self, alloc: Global, ids: &Ids, number: u64) -> Result<(), NoMemory>
        ensures put { OnOk result (StandsUnder (under self.new.lists) number ids.now) }
        ensures grows { Grows (under self.old.lists) (under self.new.lists) }
    {
        self.puts = self.puts.saturating_add(ids.len());
        'ids: for id in ids.as_slice() {
            self.put(alloc, id.as_str(), number)?;
        }
        Ok(())
    }

    /// Puts a number under an id, unless it is there.
    fn put(&mut self, alloc: Global, id: &str, number: u64) -> Result<(), NoMemory>
        ensures put { OnOk result (has (under self.new.lists id.now) number ≡ true) }
        ensures grows { Grows (under self.old.lists) (under self.new.lists) }
    {
        match self.lists.get_mut(id) {
            Some(list) => put_number(list, number),
            None => self.put_new(alloc, id, number),
        }
    }

    /// Puts a number under an id that has none.
    fn put_new(&mut self, alloc: Global, id: &str, number: u64) -> Result<(), NoMemory>
        requires { under self.old.lists id.now ≡ [] }
        ensures put { OnOk result (has (under self.new.lists id.now) number ≡ true) }
        ensures grows { Grows (under self.old.lists) (under self.new.lists) }
    {
        let mut list = Vec::new(alloc);
        list.push(number)?;
        let id = String::from_str(alloc, id)?;
        drop(self.lists.insert(id, list)?);
        Ok(())
    }
}

/// Puts a number at its place, unless it is there.
fn put_number(list: &mut Vec<u64>, number: u64) -> Result<(), NoMemory>
    ensures put { OnOk result (has list.new.items number ≡ true) }
    ensures grows { (n : ℕ) → has list.old.items n ≡ true → has list.new.items n ≡ true }
{
    match list.binary_search(&number) {
        Ok(_) => Ok(()),
        Err(place) => {
            list.insert(place, number)?;
            Ok(())
        }
    }
}
