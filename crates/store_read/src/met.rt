//! What a walk along records meets.
ghost use Rattle.std.specs.Prelude.{◌≡◌, false, [], IfOk, OnOk};
ghost use Rattle.plan_ir.specs.gql_plain.Order.{sorted_texts};
ghost use Rattle.plan_ir.specs.store_model.Walks.{missing_trace, trace_at};
ghost use Rattle.store_read.specs.Meeting.{met_onto};

use crate::snapshot::Snapshot;
use gql_order::sorted_ids;
use plan_ir::{Id, NoMemory, Plain};
use std::alloc::Global;
use std::marker::Model;

/// Whether something was missing, and the ids that a walk stood at, each as often as it stood there.
#[derive(Drop)]
pub(crate) struct Met {
    pub(crate) missing: bool,
    pub(crate) seen: Vec<Id>,
}

impl Model for Met {
    ghost use Rattle.store_read.specs.Meeting.{Meeting, coded_meeting};

    ghost Value = { Meeting };

    ghost coded = { coded_meeting };

    ghost view = { λ m. record { missing = m.missing; seen = m.seen.items } };
}

impl Met {
    /// Nothing met; takes no memory.
    pub(crate) fn new(alloc: Global) -> Met
        ensures { result ≡ record { missing = false; seen = [] } }
    {
        Met {
            missing: false,
            seen: Vec::new(alloc),
        }
    }

    /// Notes that the walk stands at an id.
    pub(crate) fn stand(&mut self, id: &Id) -> Result<(), NoMemory>
        ensures { OnOk result (self.new ≡ met_onto self.old (trace_at id.now)) }
    {
        self.seen.push(id.copy()?)?;
        Ok(())
    }

    /// Notes that something is missing; takes no memory.
    pub(crate) fn lose(&mut self)
        ensures { self.new ≡ met_onto self.old missing_trace }
    {
        self.missing = true;
    }

    /// What a read shows that met this.
    pub(crate) fn snapshot(self, shown: Plain) -> Result<Snapshot, NoMemory>
        ensures { IfOk result (λ snapshot. snapshot ≡ record { shown = shown; missing = self.missing; seen = sorted_texts self.seen }) }
    {
        Ok(Snapshot {
            shown,
            missing: self.missing,
            seen: sorted_ids(self.seen)?,
        })
    }
}
