//! What the code above asks of a record map.
ghost use Rattle.std.specs.Prelude.{◌≡◌, ◌+◌, ◌≤◌, IfOk};
ghost use Rattle.std.specs.FinMap as map;
ghost use Rattle.std.specs.Option.{option_copied};
ghost use Rattle.store_tree.specs.gql_plain.Counted.{next_count};
ghost use Rattle.store_record.specs.declared.record.Slot.TheVariants.{Alive, Deleted};
ghost use Rattle.store_source.specs.Records.{Records, most_nodes};

use std::rc::Rc;
use store_record::{Record, Slot};
use store_tree::gql_plain::{Id, Ids, NoMemory, Steps};

/// A map from ids to records, live or deleted. An id without a slot is absent.
///
/// A call by `&self` leaves the map as it is. A call by `self` gives the same as the one by `&self`,
/// and may write in place what nobody else holds; after an error the map is gone. `get` counts one
/// look, and a change counts the nodes that it makes. Code that is generic cannot make a `Count`.
pub trait RecordSource: Sized + Drop {
    type Count: Steps;

    ghost records: { Self → Records };

    /// The slot of an id, or None where the id is absent; takes no memory.
    fn get(&self, id: &str, steps: &mut Self::Count) -> Option<&Slot>
        ensures found { option_copied result ≡ map.get (records self.now) id.now }
        ensures looks { Self.Count.looks steps.new ≡ next_count (Self.Count.looks steps.old) }
        ensures applies { Self.Count.applies steps.new ≡ Self.Count.applies steps.old }
        ensures nodes { Self.Count.nodes steps.new ≡ Self.Count.nodes steps.old };

    /// The map with a live record at an id, in place of what stands there.
    fn with(&self, id: Id, row: Rc<Record>, steps: &mut Self::Count) -> Result<Self, NoMemory>
        ensures records { IfOk result (λ m. records m ≡ map.insert (records self.now) id (Alive row.value)) }
        ensures looks { Self.Count.looks steps.new ≡ Self.Count.looks steps.old }
        ensures applies { Self.Count.applies steps.new ≡ Self.Count.applies steps.old }
        ensures nodes { Self.Count.nodes steps.new ≤ Self.Count.nodes steps.old + most_nodes (records self.now) };

    /// The map with a deleted record at an id, in place of what stands there.
    fn with_deleted(&self, id: Id, steps: &mut Self::Count) -> Result<Self, NoMemory>
        ensures records { IfOk result (λ m. records m ≡ map.insert (records self.now) id Deleted) }
        ensures looks { Self.Count.looks steps.new ≡ Self.Count.looks steps.old }
        ensures applies { Self.Count.applies steps.new ≡ Self.Count.applies steps.old }
        ensures nodes { Self.Count.nodes steps.new ≤ Self.Count.nodes steps.old + most_nodes (records self.now) };

    /// The map in which an id is absent.
    fn without(&self, id: &str, steps: &mut Self::Count) -> Result<Self, NoMemory>
        ensures records { IfOk result (λ m. records m ≡ map.remove (records self.now) id.now) }
        ensures looks { Self.Count.looks steps.new ≡ Self.Count.looks steps.old }
        ensures applies { Self.Count.applies steps.new ≡ Self.Count.applies steps.old }
        ensures nodes { Self.Count.nodes steps.new ≤ Self.Count.nodes steps.old + most_nodes (records self.now) };

    /// As `with`, of a map that is not used again.
    fn put(self, id: Id, row: Rc<Record>, steps: &mut Self::Count) -> Result<Self, NoMemory>
        ensures records { IfOk result (λ m. records m ≡ map.insert (records self) id (Alive row.value)) }
        ensures looks { Self.Count.looks steps.new ≡ Self.Count.looks steps.old }
        ensures applies { Self.Count.applies steps.new ≡ Self.Count.applies steps.old }
        ensures nodes { Self.Count.nodes steps.new ≤ Self.Count.nodes steps.old + most_nodes (records self) };

    /// As `with_deleted`, of a map that is not used again.
    fn put_deleted(self, id: Id, steps: &mut Self::Count) -> Result<Self, NoMemory>
        ensures records { IfOk result (λ m. records m ≡ map.insert (records self) id Deleted) }
        ensures looks { Self.Count.looks steps.new ≡ Self.Count.looks steps.old }
        ensures applies { Self.Count.applies steps.new ≡ Self.Count.applies steps.old }
        ensures nodes { Self.Count.nodes steps.new ≤ Self.Count.nodes steps.old + most_nodes (records self) };

    /// As `without`, of a map that is not used again.
    fn remove(self, id: &str, steps: &mut Self::Count) -> Result<Self, NoMemory>
        ensures records { IfOk result (λ m. records m ≡ map.remove (records self) id.now) }
        ensures looks { Self.Count.looks steps.new ≡ Self.Count.looks steps.old }
        ensures applies { Self.Count.applies steps.new ≡ Self.Count.applies steps.old }
        ensures nodes { Self.Count.nodes steps.new ≤ Self.Count.nodes steps.old + most_nodes (records self) };

    /// An equal map, in constant time.
    fn version(&self) -> Result<Self, NoMemory>
        ensures { IfOk result (λ m. records m ≡ records self.now) };

    /// Brings what was changed last to where it stays, as far as that takes no memory; the map stays
    /// the same. To be called where the map before is held no more: what nobody else holds is then
    /// written in place. Takes no memory.
    fn settle(&mut self)
        ensures { records self.new ≡ records self.old };

    /// The ids that are not absent, in byte order.
    fn ids(&self) -> Result<Ids, NoMemory>
        ensures { IfOk result (λ ids. ids ≡ map.keys (records self.now)) };
}
