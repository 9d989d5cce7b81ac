//! Where a walk that writes stood.
ghost use Rattle.std.specs.Prelude.{◌≡◌, false, [], OnOk};
ghost use Rattle.plan_ir.specs.store_model.Walks.{missing_trace, trace_at};
ghost use Rattle.store_show.specs.Stood.{ends_with, stood_onto};

use plan_ir::NoMemory;
use std::alloc::Global;
use std::marker::Model;

/// Whether something was missing, and the ids that a walk stood at, one after another: where it stands at
/// the same id again and again, as in a cycle of records, that is kept once.
#[derive(Drop)]
pub(crate) struct Standings<'p> {
    pub(crate) missing: bool,
    pub(crate) seen: Vec<&'p str>,
}

impl<'p> Model for Standings<'p> {
    ghost use Rattle.store_read.specs.Meeting.{Meeting, coded_meeting};

    ghost Value = { Meeting };

    ghost coded = { coded_meeting };

    ghost use Rattle.std.specs.Prelude.{map};

    ghost view = { λ s. record { missing = s.missing; seen = map (λ id. id.now) s.seen.items } };
}

impl<'p> Standings<'p> {
    /// Nothing met; takes no memory.
    pub(crate) fn new(alloc: Global) -> Standings<'p>
        ensures { result ≡ record { missing = false; seen = [] } }
    {
        Standings {
            missing: false,
            seen: Vec::new(alloc),
        }
    }

    /// Notes that the walk stands at an id.
    pub(crate) fn stand(&mut self, id: &'p str) -> Result<(), NoMemory>
        ensures { OnOk result (self.new ≡ stood_onto self.old (trace_at id.now)) }
    {
        if !self.ends_with(id) {
            self.seen.push(id)?;
        }
        Ok(())
    }

    /// Whether an id is the last one that is kept; takes no memory.
    fn ends_with(&self, id: &str) -> bool
        ensures { result ≡ ends_with self.now.seen id.now }
    {
        match self.seen.last() {
            Some(last) => *last == id,
            None => false,
        }
    }

    /// Notes that something is missing; takes no memory.
    pub(crate) fn lose(&mut self)
        ensures { self.new ≡ stood_onto self.old missing_trace }
    {
        self.missing = true;
    }
}
