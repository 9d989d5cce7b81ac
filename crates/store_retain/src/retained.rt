//! The operations that are retained.
ghost use Rattle.std.specs.Prelude.{◌≡◌, ◌≤◌, [], true, false, length, option_copied, IfOk, OnOk, OnErr};
ghost use Rattle.plan_ir.specs.gql_plain.Order.{has_text};
ghost use Rattle.plan_ir.specs.store_record.Keys.{Text};
ghost use Rattle.store_retain.specs.Kept as spec;
ghost use Rattle.store_retain.specs.Kept.{all_held, held_under, is_kept, is_live};
ghost use Rattle.store_retain.specs.KeptView.{live_of};
ghost use Rattle.store_retain.specs.Steps.{slots_of};

use crate::found::Found;
use crate::held::Held;
use crate::mark::{mark_live, mark_released};
use circular_buffer::HeapCircularBuffer;
use indexmap::IndexMap;
use plan_ir::{Ids, NoMemory, Words};
use std::alloc::Global;
use std::marker::Model;
use store_source::RecordSource;

/// The operations under live handles, in order of start, and the latest that were released, the
/// latest last. A sweep keeps the records that either stand at.
#[derive(Drop)]
pub struct Retained {
    live: IndexMap<String, Held>,
    released: HeapCircularBuffer<Held>,
}

impl Model for Retained {
    ghost use Rattle.store_retain.specs.Kept.{Kept};
    ghost use Rattle.store_retain.specs.KeptCode.{kept_code};
    ghost use Rattle.store_retain.specs.KeptView.{kept_of};

    ghost Value = { Kept };

    ghost coded = { kept_code };

    ghost view = { λ r. kept_of r.live.entries r.released };
}

impl Retained {
    /// Nothing is held; at most `buffer` released operations will be: 1 to 100.
    pub fn new(alloc: Global, buffer: u64) -> Result<Retained, NoMemory>
        requires least { 1 ≤ buffer }
        requires most { buffer ≤ 100 }
        ensures { IfOk result (λ retained. retained ≡ record { buffer = buffer; live = []; released = [] }) }
    {
        Ok(Retained {
            live: IndexMap::new(alloc),
            released: HeapCircularBuffer::with_capacity(alloc, buffer as usize)?,
        })
    }

    /// Holds an operation under a handle that is not live.
    pub fn retain(&mut self, handle: Words, held: Held) -> Result<(), NoMemory>
        requires { is_live self.old.live handle ≡ false }
        ensures ok { OnOk result (self.new ≡ spec.retained handle held self.old) }
        ensures err { OnErr result (self.new ≡ self.old) }
    {
        drop(self.live.insert(handle.into_string(), held)?);
        Ok(())
    }

    /// Releases a live handle: what it held is kept until `buffer` others were released after it.
    /// Takes no memory.
    pub fn release(&mut self, handle: &Words)
        requires { is_live self.old.live handle.now ≡ true }
        ensures { self.new ≡ spec.released handle.now self.old }
    {
        let held = self.live.shift_remove(handle.as_str()).unwrap();
        drop(self.released.push_back(held));
    }

    /// What a live handle holds, or None where no handle of the name is live; takes no memory.
    pub fn held(&self, handle: &str) -> Option<&Held>
        ensures { option_copied result ≡ held_under handle.now self.now.live }
    {
        self.live.get(handle)
    }

    /// How many handles are live; takes no memory.
    pub fn count(&self) -> u64
        ensures { result ≡ length self.now.live }
    {
        self.live.len() as u64
    }

    /// The ids that a sweep has to keep: those that the walk along all fields of some held operation
    /// stands at, live or released. With its parts, a record is opened once at each depth.
    pub fn mark<S: RecordSource>(&self, source: &S, steps: &mut S::Count) -> Result<Ids, NoMemory>
        ensures ids { (j : Text) → IfOk result (λ ids. has_text ids j ≡ is_kept (slots_of (S.records source.now)) (all_held self.now) j) }
        ensures applies { S.Count.applies steps.new ≡ S.Count.applies steps.old }
    {
        let alloc = *self.released.allocator();
        let mut found = Found::new(alloc);
        mark_live(alloc, source, &self.live, &mut found, steps)?;
        mark_released(alloc, source, &self.released, &mut found, steps)?;
        found.all_ids(alloc)
    }
}
