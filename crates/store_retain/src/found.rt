//! What a walk finds.
ghost use Rattle.std.specs.Prelude.{◌≡◌, ◌||◌, Bool, [], map, bytes_eq, IfOk, OnOk};
ghost use Rattle.std.specs.List.{list_any};
ghost use Rattle.plan_ir.specs.gql_plain.Order.{has_text};
ghost use Rattle.plan_ir.specs.store_record.Keys.{Text};
ghost use Rattle.store_retain.specs.FoundView.{stand_of};
ghost use Rattle.store_retain.specs.Steps.{Stand};

use plan_ir::{Ids, NoMemory, Words};
use std::alloc::Global;
use std::collections::BTreeSet;
use std::marker::Model;
use std::mem;

/// Records where a walk goes on, each with the numbers of the parts that go on there. No two are equal.
pub(crate) type Stands<'s> = BTreeSet<(&'s str, Vec<usize>)>;

/// The ids that walks stood at, and where one of them goes on.
#[derive(Drop)]
pub(crate) struct Found<'s> {
    pub(crate) ids: BTreeSet<&'s str>,
    pub(crate) next: Stands<'s>,
}

impl<'s> Model for Found<'s> {
    ghost use Rattle.store_retain.specs.FoundView.{coded_found, found_of};
    ghost use Rattle.store_retain.specs.Steps as steps;

    ghost Value = { steps.Found };

    ghost coded = { coded_found };

    ghost view = { λ f. found_of f.ids.keys f.next.keys };
}

impl<'s> Found<'s> {
    /// Nothing yet; takes no memory.
    pub(crate) fn new(alloc: Global) -> Found<'s>
        ensures { result ≡ record { ids = []; next = [] } }
    {
        Found {
            ids: BTreeSet::new(alloc),
            next: BTreeSet::new(alloc),
        }
    }

    /// Notes that a walk stood at an id.
    pub(crate) fn see(&mut self, id: &'s str) -> Result<(), NoMemory>
        ensures ids { (j : Text) → OnOk result (has_text self.new.ids j ≡ (has_text self.old.ids j || bytes_eq id.now j)) }
        ensures next { OnOk result (self.new.next ≡ self.old.next) }
    {
        self.ids.insert(id)?;
        Ok(())
    }

    /// Notes that parts go on from the record at an id.
    pub(crate) fn go_on(
        &mut self,
        alloc: Global,
        id: &'s str,
        parts: &[usize],
    ) -> Result<(), NoMemory>
        ensures ids { OnOk result (self.new.ids ≡ self.old.ids) }
        ensures next { (p : Stand → Bool) → OnOk result (list_any p self.new.next ≡ (list_any p self.old.next || p (id.now, parts.now))) }
    {
        let parts = copy_of(alloc, parts)?;
        self.next.insert((id, parts))?;
        Ok(())
    }

    /// Where the walk goes on, which is forgotten here; takes no memory.
    pub(crate) fn take_next(&mut self, alloc: Global) -> Stands<'s>
        ensures stands { map stand_of result.keys ≡ self.old.next }
        ensures left { self.new ≡ record { ids = self.old.ids; next = [] } }
    {
        mem::replace(&mut self.next, BTreeSet::new(alloc))
    }

    /// The ids that walks stood at, in byte order.
    pub(crate) fn all_ids(&self, alloc: Global) -> Result<Ids, NoMemory>
        ensures { (j : Text) → IfOk result (λ ids. has_text ids j ≡ has_text self.now.ids j) }
    {
        let mut words = Vec::with_capacity(alloc, self.ids.len())?;
        'ids: for id in &self.ids {
            words.push(Words::new(alloc, *id)?)?;
        }
        Ids::sort(words)
    }
}

/// The same numbers.
fn copy_of(alloc: Global, numbers: &[usize]) -> Result<Vec<usize>, NoMemory>
    ensures { IfOk result (λ copy. copy.items ≡ numbers.now) }
{
    let mut copy = Vec::with_capacity(alloc, numbers.len())?;
    'numbers: for number in numbers {
        copy.push(*number)?;
    }
    Ok(copy)
}
