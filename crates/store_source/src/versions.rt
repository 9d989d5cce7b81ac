//! A record map whose versions share their nodes.
ghost use Rattle.std.specs.Prelude.{◌≡◌, ◌+◌, ◌≤◌, IfOk};
ghost use Rattle.std.specs.FinMap as map;
ghost use Rattle.store_source.specs.Records.{most_nodes};

use crate::newest::{
    copy_all, copy_without, ids_of_changes, newest_of, put_newest, without_changes,
};
use crate::source::RecordSource;
use std::alloc::Global;
use std::marker::Model;
use std::rc::Rc;
use store_record::{Record, Shared, Slot};
use store_tree::gql_plain::{Counts, Id, Ids, NoMemory, Steps};
use store_tree::{Item, Tree};

/// How many of the newest changes stand beside the tree.
const MOST_NEWEST: usize = 4;

/// A record map in a persistent tree, seen as the map. A change costs the way to an id, and shares
/// all else with the map before.
///
/// The newest changes, at most 4, stand in a list beside the tree, the newest first. An id may stand
/// there twice, and the newer counts. Where the list is full, a change puts its oldest into the
/// tree. `settle` writes those that it can into the tree, in place.
#[derive(Drop)]
pub struct Versions {
    alloc: Global,
    tree: Tree<Slot>,
    newest: Vec<Item<Slot>>,
}

impl Model for Versions {
    ghost use Rattle.std.specs.FinMap.{from_sorted};
    ghost use Rattle.store_source.specs.Newest.{laid};
    ghost use Rattle.store_source.specs.Records.{Records, coded_records};

    ghost Value = { Records };

    ghost coded = { coded_records };

    ghost view = { λ v. laid v.newest.items (from_sorted v.tree.pairs) };
}

impl Versions {
    /// The empty map; takes no memory.
    pub fn new(alloc: Global) -> Versions
        ensures { result ≡ map.empty }
    {
        Versions {
            alloc,
            tree: Tree::new(),
            newest: Vec::new(alloc),
        }
    }

    /// The map with a slot at an id. Nodes that nobody else holds are written in place.
    fn put_slot(self, id: Id, slot: Slot, steps: &mut Counts) -> Result<Versions, NoMemory>
        ensures records { IfOk result (λ m. m ≡ map.insert self id slot) }
        ensures looks { steps.new.looks ≡ steps.old.looks }
        ensures applies { steps.new.applies ≡ steps.old.applies }
        ensures nodes { steps.new.nodes ≤ steps.old.nodes + most_nodes self }
    {
        let slot = Rc::new(self.alloc, slot)?;
        let change = Item::new(self.alloc, id, slot)?;
        let wide = self.with_room(steps)?;
        wide.put_change(change)
    }

    /// The map with a change put to the list.
    fn put_change(self, change: Item<Slot>) -> Result<Versions, NoMemory>
        ensures { IfOk result (λ m. m ≡ map.insert self change.0 change.1) }
    {
        let Versions {
            alloc,
            tree,
            mut newest,
        } = self;
        put_newest(&mut newest, change)?;
        Ok(Versions {
            alloc,
            tree,
            newest,
        })
    }

    /// The same map, whose list has room for a change: where the list is full, its oldest goes into
    /// the tree. Nodes that nobody else holds are written in place.
    fn with_room(self, steps: &mut Counts) -> Result<Versions, NoMemory>
        ensures records { IfOk result (λ m. m ≡ self) }
        ensures looks { steps.new.looks ≡ steps.old.looks }
        ensures applies { steps.new.applies ≡ steps.old.applies }
        ensures nodes { steps.new.nodes ≤ steps.old.nodes + most_nodes self }
    {
        if self.newest.len() < MOST_NEWEST {
            return Ok(self);
        }
        let Versions {
            alloc,
            tree,
            mut newest,
        } = self;
        match newest.pop() {
            None => Ok(Versions {
                alloc,
                tree,
                newest,
            }),
            Some(oldest) => {
                let tree = tree.put_item(alloc, oldest, steps)?;
                Ok(Versions {
                    alloc,
                    tree,
                    newest,
                })
            }
        }
    }

    /// Writes the oldest change of the list into the tree, and tells whether that was done; the map
    /// stays the same. Takes no memory.
    fn settle_oldest(&mut self) -> bool
        ensures { self.new ≡ self.old }
    {
        let Some(oldest) = self.newest.pop() else {
            return false;
        };
        match self.tree.write(oldest) {
            None => true,
            Some(back) => {
                self.newest.push_reserved(back);
                false
            }
        }
    }
}

impl RecordSource for Versions {
    type Count = Counts;

    ghost records = { λ m. m };

    fn get(&self, id: &str, steps: &mut Counts) -> Option<&Slot> {
        steps.look();
        match newest_of(&self.newest, id) {
            Some(slot) => Some(slot),
            None => self.tree.get(id),
        }
    }

    fn with(&self, id: Id, row: Rc<Record>, steps: &mut Counts) -> Result<Versions, NoMemory> {
        self.version()?.put(id, row, steps)
    }

    fn with_deleted(&self, id: Id, steps: &mut Counts) -> Result<Versions, NoMemory> {
        self.version()?.put_deleted(id, steps)
    }

    fn without(&self, id: &str, steps: &mut Counts) -> Result<Versions, NoMemory> {
        let newest = copy_without(self.alloc, &self.newest, id)?;
        let tree = self.tree.remove(self.alloc, id, steps)?;
        Ok(Versions {
            alloc: self.alloc,
            tree,
            newest,
        })
    }

    fn put(self, id: Id, row: Rc<Record>, steps: &mut Counts) -> Result<Versions, NoMemory> {
        self.put_slot(id, Slot::Alive(Shared { row }), steps)
    }

    fn put_deleted(self, id: Id, steps: &mut Counts) -> Result<Versions, NoMemory> {
        self.put_slot(id, Slot::Deleted, steps)
    }

    fn remove(self, id: &str, steps: &mut Counts) -> Result<Versions, NoMemory> {
        let Versions {
            alloc,
            tree,
            newest,
        } = self;
        let newest = without_changes(alloc, newest, id)?;
        let tree = tree.take_out(alloc, id, steps)?;
        Ok(Versions {
            alloc,
            tree,
            newest,
        })
    }

    fn version(&self) -> Result<Versions, NoMemory> {
        let newest = copy_all(self.alloc, &self.newest)?;
        Ok(Versions {
            alloc: self.alloc,
            tree: self.tree.version()?,
            newest,
        })
    }

    fn settle(&mut self) {
        'oldest: for _ in 0..MOST_NEWEST {
            if !self.settle_oldest() {
                return;
            }
        }
    }

    fn ids(&self) -> Result<Ids, NoMemory> {
        let changed = ids_of_changes(self.alloc, &self.newest)?;
        let ids = self.tree.keys_with(changed)?;
        Ok(ids)
    }
}
