//! A record map that counts the records that are put.
use plan_ir::{Counts, Id, Ids, NoMemory, Record, Slot};
use std::alloc::Global;
use std::rc::Rc;
use store_layers::{Flat, RecordSource};

/// A map, and how often a slot was put into it or into those that it was made from.
#[derive(Drop)]
pub(crate) struct Puts {
    map: Flat,
    pub(crate) puts: u64,
}

impl Puts {
    /// The empty map.
    pub(crate) fn new(alloc: Global) -> Result<Puts, NoMemory> {
        Ok(Puts {
            map: Flat::new(alloc)?,
            puts: 0,
        })
    }
}

impl RecordSource for Puts {
    type Count = Counts;

    ghost records = { λ m. m.map };

    fn get(&self, id: &str, steps: &mut Counts) -> Option<&Slot> {
        self.map.get(id, steps)
    }

    fn with(&self, id: Id, row: Rc<Record>, steps: &mut Counts) -> Result<Puts, NoMemory> {
        let map = self.map.with(id, row, steps)?;
        let puts = self.puts.saturating_add(1);
        Ok(Puts { map, puts })
    }

    fn with_deleted(&self, id: Id, steps: &mut Counts) -> Result<Puts, NoMemory> {
        let map = self.map.with_deleted(id, steps)?;
        let puts = self.puts.saturating_add(1);
        Ok(Puts { map, puts })
    }

    fn without(&self, id: &str, steps: &mut Counts) -> Result<Puts, NoMemory> {
        let map = self.map.without(id, steps)?;
        let puts = self.puts;
        Ok(Puts { map, puts })
    }

    fn put(self, id: Id, row: Rc<Record>, steps: &mut Counts) -> Result<Puts, NoMemory> {
        let Puts { map, puts } = self;
        let map = map.put(id, row, steps)?;
        let puts = puts.saturating_add(1);
        Ok(Puts { map, puts })
    }

    fn put_deleted(self, id: Id, steps: &mut Counts) -> Result<Puts, NoMemory> {
        let Puts { map, puts } = self;
        let map = map.put_deleted(id, steps)?;
        let puts = puts.saturating_add(1);
        Ok(Puts { map, puts })
    }

    fn remove(self, id: &str, steps: &mut Counts) -> Result<Puts, NoMemory> {
        let Puts { map, puts } = self;
        let map = map.remove(id, steps)?;
        Ok(Puts { map, puts })
    }

    fn version(&self) -> Result<Puts, NoMemory> {
        let map = self.map.version()?;
        let puts = self.puts;
        Ok(Puts { map, puts })
    }

    fn settle(&mut self) {
        self.map.settle();
    }

    fn ids(&self) -> Result<Ids, NoMemory> {
        self.map.ids()
    }
}
