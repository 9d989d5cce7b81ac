//! Watches in order of start.
ghost use Rattle.std.specs.Prelude.{◌≡◌, ◌+◌, ◌<◌, ◌≤◌, ◌++◌, ℕ, false, List, [], ◌∷◌, length, map, slice_index_or, IfOk, OnOk, OnErr};
ghost use Rattle.std.specs.List.{AllByRecursion};
ghost use Rattle.plan_ir.specs.store_model.Walks.{Slots};
ghost use Rattle.store_read.specs.Reading.{reading_of, slots};
ghost use Rattle.store_watch.specs.Numbers.{Rises};
ghost use Rattle.store_watch.specs.Rows.{look_of};
ghost use Rattle.store_watch.specs.Watching as spec;
ghost use Rattle.store_watch.specs.Watching.{AreShown, DifferAt, OthersAreShown, Telling, Watch, accepted, notices, with_kept, without, work};

use crate::due::{due_places, note, put_late};
use crate::index::Index;
use crate::notices::Notices;
use crate::reads::read_rows;
use crate::rows::{Row, Rows, all_numbers, in_order, is_named, is_used, put_row, put_snapshot};
use crate::watched::Watched;
use indexmap::IndexMap;
use plan_ir::{Ids, NoMemory, Words};
use std::alloc::Global;
use std::marker::Model;
use store_read::{RecordSource, Snapshot};

/// Watches in order of start, seen as the list of their names, what they show, and what their reads
/// gave the last time.
///
/// An index from ids to watches tells which of them a change may concern. It lags behind: the watches
/// that it may lack are in a list of their own until `refresh`, so that neither `start` nor `accept`
/// changes it.
#[derive(Drop)]
pub struct Watches {
    rows: Rows,
    index: Index,
    /// The numbers of rows that the index may lack under ids that they saw.
    late: Vec<u64>,
    /// Whether other rows may be lacking too.
    all: bool,
    /// The number of the next row.
    next: u64,
}

impl Model for Watches {
    ghost use Rattle.std.specs.Prelude.{List};
    ghost use Rattle.std.specs.Coded.{coded_list};
    ghost use Rattle.store_watch.specs.Codes.{coded_watch};
    ghost use Rattle.store_watch.specs.Watching.{Watch};

    ghost Value = { List Watch };

    ghost coded = { coded_list coded_watch };

    ghost use Rattle.indexmap.specs.IndexMap.{values};
    ghost use Rattle.store_watch.specs.Lists.{under};
    ghost use Rattle.store_watch.specs.Rows.{IsSound, seen_of, watches_of};

    ghost view = { λ w. watches_of w.rows.entries };

    ghost invariant = { λ w. IsSound (under w.index.lists) w.late.items w.all w.next (seen_of (values w.rows)) };
}

impl Watches {
    /// No watch; takes no memory.
    pub fn new(alloc: Global) -> Watches
        ensures { result ≡ [] }
    {
        Watches {
            rows: IndexMap::new(alloc),
            index: Index::new(alloc),
            late: Vec::new(alloc),
            all: false,
            next: 0,
        }
    }

    /// Starts a watch after all others, under a name that is not live, with what its read gave.
    pub fn start(&mut self, name: Words, what: Watched, first: Snapshot) -> Result<(), NoMemory>
        requires { spec.is_live self.old name ≡ false }
        ensures ok { OnOk result (self.new ≡ self.old ++ record { name = name; what = look_of what; kept = reading_of first } ∷ []) }
        ensures err { OnErr result (self.new ≡ self.old) }
    {
        let number = self.next;
        let Some(next) = number.checked_add(1) else {
            return Err(NoMemory);
        };
        let row = Row {
            number,
            what,
            kept: first,
        };
        put_row(&mut self.rows, &mut self.late, name.into_string(), row)?;
        self.all = note(&mut self.late, self.all, Some(number));
        self.next = next;
        Ok(())
    }

    /// Stops the watch of a name; takes no memory.
    pub fn stop(&mut self, name: &Words)
        ensures { self.new ≡ without name.now self.old }
    {
        drop(self.rows.shift_remove(name.as_str()));
    }

    /// Whether there is a watch of the name; takes no memory.
    pub fn is_live(&self, name: &str) -> bool
        ensures { result ≡ spec.is_live self.now name.now }
    {
        is_named(&self.rows, name)
    }

    /// Whether a watch shows a plan of the handle; takes no memory.
    pub fn uses(&self, handle: &str) -> bool
        ensures { result ≡ spec.uses self.now handle.now }
    {
        is_used(&self.rows, handle)
    }

    /// How many watches there are; takes no memory.
    pub fn count(&self) -> u64
        ensures { result ≡ length self.now }
    {
        self.rows.len() as u64
    }

    /// The name of the watch at a place; takes no memory.
    pub fn name_at(&self, place: usize) -> &str
        requires { place < length self.now }
        ensures { result.now ≡ slice_index_or (map (λ (w : Watch). w.name) self.now) place [] }
    {
        match self.rows.get_index(place) {
            Some((name, _)) => name.as_str(),
            None => "",
        }
    }

    /// Notices of the watches that saw an id which a change touched; no other one is read.
    pub fn notify<S: RecordSource>(
        &self,
        view: &S,
        touched: &Ids,
        steps: &mut S::Count,
    ) -> Result<Notices, NoMemory>
        ensures notices { IfOk result (λ found. found ≡ notices (slots (S.records view.now)) touched.now self.now) }
        ensures others { (before : Slots) → AreShown before self.now → DifferAt touched.now before (slots (S.records view.now)) → OthersAreShown (slots (S.records view.now)) touched.now self.now }
        ensures current { (before : Slots) → AreShown before self.now → DifferAt touched.now before (slots (S.records view.now))
            → AreShown (slots (S.records view.now)) (accepted (notices (slots (S.records view.now)) touched.now self.now) self.now) }
        ensures within { AllByRecursion (λ (n : Telling). n.place < length self.now) (notices (slots (S.records view.now)) touched.now self.now) }
        ensures rise { Rises (map (λ (n : Telling). n.place) (notices (slots (S.records view.now)) touched.now self.now)) }
        ensures looks { S.Count.looks steps.new ≤ S.Count.looks steps.old + work (slots (S.records view.now)) touched.now self.now }
        ensures applies { S.Count.applies steps.new ≡ S.Count.applies steps.old }
    {
        let alloc = *self.late.allocator();
        let rows = in_order(&self.rows);
        let places = due_places(alloc, rows, &self.index, &self.late, self.all, touched)?;
        let list = read_rows(alloc, rows, &places, view, steps)?;
        Ok(Notices { list })
    }

    /// Keeps what notices give; takes no memory.
    pub fn accept(&mut self, notices: Notices)
        ensures { self.new ≡ accepted notices self.old }
    {
        'kept: for notice in notices.list {
            self.keep(notice.place, notice.snapshot);
        }
    }

    // Keeps a snapshot at a place.
    fn keep(&mut self, place: usize, snapshot: Snapshot)
        ensures { self.new ≡ with_kept self.old place (reading_of snapshot) }
    {
        if place >= self.rows.len() {
            return;
        }
        let number = put_snapshot(&mut self.rows, place, snapshot);
        self.all = note(&mut self.late, self.all, number);
    }

    /// Brings the index up to date; the watches stay as they are.
    pub fn refresh(&mut self) -> Result<(), NoMemory>
        ensures { self.new ≡ self.old }
    {
        if self.all || self.index.is_worn() {
            return self.start_over();
        }
        self.index_late()
    }

    // Makes the index anew.
    fn start_over(&mut self) -> Result<(), NoMemory>
        ensures { self.new ≡ self.old }
    {
        self.forget_index()?;
        self.index_late()?;
        self.settle_index();
        Ok(())
    }

    // Takes an empty index; all rows are late.
    fn forget_index(&mut self) -> Result<(), NoMemory>
        ensures { self.new ≡ self.old }
    {
        let alloc = *self.late.allocator();
        let numbers = all_numbers(alloc, in_order(&self.rows))?;
        self.late = numbers;
        self.index = Index::new(alloc);
        self.all = false;
        Ok(())
    }

    // Puts the late rows into the index.
    fn index_late(&mut self) -> Result<(), NoMemory>
        ensures { self.new ≡ self.old }
    {
        let alloc = *self.late.allocator();
        put_late(alloc, &mut self.index, in_order(&self.rows), &self.late)?;
        self.late.clear();
        Ok(())
    }

    // Notes that nothing in the index is out of date.
    fn settle_index(&mut self)
        ensures { self.new ≡ self.old }
    {
        self.index.settle();
    }
}
