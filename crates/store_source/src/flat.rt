//! A record map that is copied at each change.
ghost use Rattle.std.specs.Prelude.{◌≡◌, IfOk, OnOk};
ghost use Rattle.std.specs.FinMap as map;
ghost use Rattle.std.specs.Option.{option_copied};
ghost use Rattle.store_source.specs.Entries.{records_of};

use crate::source::RecordSource;
use std::alloc::Global;
use std::collections::BTreeMap;
use std::marker::Model;
use std::rc::Rc;
use store_record::{Record, Shared, Slot};
use store_tree::gql_plain::{Counts, Id, Ids, NoMemory, Steps, Words};

/// The slots of ids. Copies share the slots.
type Slots = BTreeMap<String, Rc<Slot>>;

/// A record map whose owners share it, seen as the map. A change copies all its ids, unless the map
/// has no other owner and is not used again. No node is counted.
#[derive(Drop)]
pub struct Flat {
    alloc: Global,
    slots: Rc<Slots>,
}

impl Model for Flat {
    ghost use Rattle.store_source.specs.Records.{Records, coded_records};
    ghost use Rattle.store_source.specs.Entries.{records_of};

    ghost Value = { Records };

    ghost coded = { coded_records };

    ghost view = { λ m. records_of m.slots.value.entries };
}

impl Flat {
    /// The empty map.
    pub fn new(alloc: Global) -> Result<Flat, NoMemory>
        ensures { IfOk result (λ m. m ≡ map.empty) }
    {
        Flat::of(alloc, BTreeMap::new(alloc))
    }

    /// A map that has no other owner yet.
    fn of(alloc: Global, slots: Slots) -> Result<Flat, NoMemory>
        ensures { IfOk result (λ m. m ≡ records_of slots.entries) }
    {
        Ok(Flat {
            alloc,
            slots: Rc::new(alloc, slots)?,
        })
    }

    /// The slots of a map that has no other owner, and else a copy of them.
    fn into_slots(self) -> Result<Slots, NoMemory>
        ensures { IfOk result (λ slots. records_of slots.entries ≡ self) }
    {
        match Rc::try_unwrap(self.slots) {
            Ok(slots) => Ok(slots),
            Err(shared) => copy_of(&shared),
        }
    }

    /// The map with a slot at an id.
    fn put_slot(self, id: Id, slot: Slot) -> Result<Flat, NoMemory>
        ensures { IfOk result (λ m. m ≡ map.insert self id slot) }
    {
        let alloc = self.alloc;
        let mut slots = self.into_slots()?;
        set(alloc, &mut slots, id, slot)?;
        Flat::of(alloc, slots)
    }
}

/// A copy that shares the slots.
fn copy_of(slots: &Slots) -> Result<Slots, NoMemory>
    ensures { IfOk result (λ copy. records_of copy.entries ≡ records_of slots.now.entries) }
{
    Ok(slots.clone()?)
}

/// Puts a slot at an id, in place of what stands there.
fn set(alloc: Global, slots: &mut Slots, id: Id, slot: Slot) -> Result<(), NoMemory>
    ensures { OnOk result (records_of slots.new.entries ≡ map.insert (records_of slots.old.entries) id slot) }
{
    let slot = Rc::new(alloc, slot)?;
    drop(slots.insert(id.into_string(), slot)?);
    Ok(())
}

/// Takes out the slot of an id, where there is one; takes no memory.
fn unset(slots: &mut Slots, id: &str)
    ensures { records_of slots.new.entries ≡ map.remove (records_of slots.old.entries) id.now }
{
    drop(slots.remove(id));
}

/// The slot of an id; takes no memory.
fn find<'a>(slots: &'a Slots, id: &str) -> Option<&'a Slot>
    ensures { option_copied result ≡ map.get (records_of slots.now.entries) id.now }
{
    match slots.get(id) {
        Some(slot) => Some(slot.as_ref()),
        None => None,
    }
}

/// The ids, in byte order.
fn ids_of(alloc: Global, slots: &Slots) -> Result<Ids, NoMemory>
    ensures { IfOk result (λ ids. ids ≡ map.keys (records_of slots.now.entries)) }
{
    let mut ids = Vec::with_capacity(alloc, slots.len())?;
    'ids: for id in slots.keys() {
        ids.push(Words::new(alloc, id.as_str())?)?;
    }
    Ids::in_order(ids)
}

impl RecordSource for Flat {
    type Count = Counts;

    ghost records = { λ m. m };

    fn get(&self, id: &str, steps: &mut Counts) -> Option<&Slot> {
        steps.look();
        find(&self.slots, id)
    }

    fn with(&self, id: Id, row: Rc<Record>, steps: &mut Counts) -> Result<Flat, NoMemory> {
        self.version()?.put(id, row, steps)
    }

    fn with_deleted(&self, id: Id, steps: &mut Counts) -> Result<Flat, NoMemory> {
        self.version()?.put_deleted(id, steps)
    }

    fn without(&self, id: &str, steps: &mut Counts) -> Result<Flat, NoMemory> {
        self.version()?.remove(id, steps)
    }

    fn put(self, id: Id, row: Rc<Record>, _steps: &mut Counts) -> Result<Flat, NoMemory> {
        self.put_slot(id, Slot::Alive(Shared { row }))
    }

    fn put_deleted(self, id: Id, _steps: &mut Counts) -> Result<Flat, NoMemory> {
        self.put_slot(id, Slot::Deleted)
    }

    fn remove(self, id: &str, _steps: &mut Counts) -> Result<Flat, NoMemory> {
        let alloc = self.alloc;
        let mut slots = self.into_slots()?;
        unset(&mut slots, id);
        Flat::of(alloc, slots)
    }

    fn version(&self) -> Result<Flat, NoMemory> {
        Ok(Flat {
            alloc: self.alloc,
            slots: self.slots.clone()?,
        })
    }

    fn settle(&mut self) {}

    fn ids(&self) -> Result<Ids, NoMemory> {
        ids_of(self.alloc, &self.slots)
    }
}
