//! The layers.
ghost use Rattle.std.specs.Prelude.{◌≡◌, ◌+◌, ◌*◌, ◌≤◌, ◌++◌, [], ◌∷◌, true, false, length, IfOk, OnOk, OnErr};
ghost use Rattle.store_update.specs.gql_plain.Counted.{next_count};
ghost use Rattle.store_update.specs.gql_plain.Order.{has_text};
ghost use Rattle.store_update.specs.store_model.Entries.{all_named, weight, fold_entries};
ghost use Rattle.store_update.specs.store_model.Records.{no_records};
ghost use Rattle.store_update.specs.store_record.Keys.{Text};
ghost use Rattle.std.specs.List.{AllByRecursion};
ghost use Rattle.store_update.specs.store_model.Said.{HaveHandleKeys};
ghost use Rattle.store_update.specs.store_model.Leads.{leads};
ghost use Rattle.store_update.specs.store_model.Records.{slot_at};
ghost use Rattle.store_update.specs.store_model.Sweeps.{sweep, dropped};
ghost use Rattle.store_layers.specs.Changed.{AreChanged};
ghost use Rattle.store_layers.specs.Drafts.{Fits, placed};
ghost use Rattle.store_layers.specs.Layered as spec;
ghost use Rattle.store_layers.specs.Layered.{entries_of, view_of, below, from_on, above, without, committed, begun, finished, reverted, swept};
ghost use Rattle.store_layers.specs.Work.{counted, weights};

use crate::drafts::{Draft, Placing};
use crate::fold::{Entries, copy_versions, newest};
use crate::names::{copy_entries, count_of, is_named, place_of, put_layer, take_off, take_out};
use crate::naming::ids_named;
use crate::rebuild::{begin, confirm, finish, revert, sweep};
use indexmap::IndexMap;
use std::alloc::Global;
use std::marker::Model;
use store_update::Changed;
use store_update::gql_plain::{Ids, NoMemory, Words};
use store_update::store_model::Entry;
use store_update::store_source::RecordSource;

/// What is confirmed, and over it the live layers, each by its name, in order of start. Seen as the
/// records of the base, and the names and entries of the layers.
///
/// Each layer keeps the whole version of the records after it. A call builds all that it changes
/// aside, as a draft, and puts it in place by moves, so that an error leaves all as it was. Who has more
/// to do before that asks for the draft and settles it in the end. The ids that a call gives hold every
/// id whose slot in the view differs.
#[derive(Drop)]
pub struct Layers<S: RecordSource> {
    base: S,
    entries: Entries,
    /// The version after each layer, and the ids that the layer changes.
    versions: Vec<Changed<S>>,
}

impl<S: RecordSource> Model for Layers<S> {
    ghost use Rattle.store_layers.specs.Layered.{Layered};

    ghost Value = { Layered };

    ghost use Rattle.store_layers.specs.LayeredCode.{layered_code};

    ghost coded = { layered_code };

    ghost use Rattle.store_layers.specs.Versions.{shown, layers_of, AreKept};

    ghost view = { λ l. record { base = S.records l.base; live = layers_of l.entries.entries } };

    ghost invariant = { λ l. AreKept (S.records l.base) (layers_of l.entries.entries) (shown S.records l.versions.items) };
}

impl<S: RecordSource> Layers<S> {
    /// No layer over a map without records.
    pub fn new(alloc: Global, source: S) -> Result<Layers<S>, NoMemory>
        requires { S.records source ≡ no_records }
        ensures { IfOk result (λ layers. layers ≡ record { base = no_records; live = [] }) }
    {
        Ok(Layers {
            base: source,
            entries: IndexMap::new(alloc),
            versions: Vec::new(alloc),
        })
    }

    /// Applies an entry to the base, and each layer again.
    pub fn commit(&mut self, entry: Entry, steps: &mut S::Count) -> Result<Ids, NoMemory>
        ensures ok { OnOk result (self.new ≡ committed entry self.old) }
        ensures err { OnErr result (self.new ≡ self.old) }
        ensures changed { IfOk result (λ ids. AreChanged self.old.base (entries_of self.old.live) (entry ∷ entries_of self.old.live) ids) }
        ensures applies { S.Count.applies steps.new ≤ S.Count.applies steps.old + (length self.old.live + 1) }
        ensures looks { S.Count.looks steps.new ≤ S.Count.looks steps.old + 8 * weights (entry ∷ entries_of self.old.live) self.old.base }
    {
        let draft = self.draft_commit(&entry, steps)?;
        let ids = draft.touched.copy()?;
        self.settle(draft)?;
        Ok(ids)
    }

    /// Starts a layer above all others, under a name that is not live.
    pub fn begin(
        &mut self,
        name: Words,
        entry: Entry,
        steps: &mut S::Count,
    ) -> Result<Ids, NoMemory>
        requires name { spec.is_live self.old.live name ≡ false }
        ensures ok { OnOk result (self.new ≡ begun name entry self.old) }
        ensures err { OnErr result (self.new ≡ self.old) }
        ensures changed { IfOk result (λ ids. AreChanged (view_of self.old) [] (entry ∷ []) ids) }
        ensures applies { S.Count.applies steps.new ≡ next_count (S.Count.applies steps.old) }
        ensures looks { S.Count.looks steps.new ≤ S.Count.looks steps.old + 8 * weight entry (view_of self.old) }
    {
        let draft = self.draft_begin(name, entry, steps)?;
        let ids = draft.touched.copy()?;
        self.settle(draft)?;
        Ok(ids)
    }

    /// Drops a live layer, applies an entry to the base, and each other layer again.
    pub fn finish(
        &mut self,
        name: &Words,
        entry: Entry,
        steps: &mut S::Count,
    ) -> Result<Ids, NoMemory>
        requires name { spec.is_live self.old.live name.now ≡ true }
        ensures ok { OnOk result (self.new ≡ finished name.now entry self.old) }
        ensures err { OnErr result (self.new ≡ self.old) }
        ensures changed { IfOk result (λ ids. AreChanged self.old.base (entries_of self.old.live) (entry ∷ entries_of (without name.now self.old.live)) ids) }
        ensures applies { S.Count.applies steps.new ≤ S.Count.applies steps.old + length self.old.live }
        ensures looks { S.Count.looks steps.new ≤ S.Count.looks steps.old + 8 * weights (entry ∷ entries_of (without name.now self.old.live)) self.old.base }
    {
        let draft = self.draft_finish(name, &entry, steps)?;
        let ids = draft.touched.copy()?;
        self.settle(draft)?;
        Ok(ids)
    }

    /// Drops a live layer, and applies each layer above it again, from the version below it on.
    pub fn revert(&mut self, name: &Words, steps: &mut S::Count) -> Result<Ids, NoMemory>
        requires { spec.is_live self.old.live name.now ≡ true }
        ensures ok { OnOk result (self.new ≡ reverted name.now self.old) }
        ensures err { OnErr result (self.new ≡ self.old) }
        ensures changed { IfOk result (λ ids. AreChanged (fold_entries (entries_of (below name.now self.old.live)) self.old.base) (entries_of (from_on name.now self.old.live)) (entries_of (above name.now self.old.live)) ids) }
        ensures exact { OnOk result (S.Count.applies steps.new ≡ counted (length (above name.now self.old.live)) (S.Count.applies steps.old)) }
        ensures applies { S.Count.applies steps.new ≤ S.Count.applies steps.old + length (above name.now self.old.live) }
        ensures looks { S.Count.looks steps.new ≤ S.Count.looks steps.old + 8 * weights (entries_of (above name.now self.old.live)) (fold_entries (entries_of (below name.now self.old.live)) self.old.base) }
    {
        let draft = self.draft_revert(name, steps)?;
        let ids = draft.touched.copy()?;
        self.settle(draft)?;
        Ok(ids)
    }

    /// Takes each id that is not in `keep` out of the base, and gives those that were taken out, in byte
    /// order. Each layer is applied again; where nothing goes, all stays the same version.
    pub fn sweep_base(&mut self, keep: &Ids, steps: &mut S::Count) -> Result<Ids, NoMemory>
        requires kept { (j : Text) → has_text (leads self.old.base (all_named (entries_of self.old.live))) j ≡ true → has_text keep.now j ≡ true }
        ensures ok { OnOk result (self.new ≡ swept keep.now self.old) }
        ensures err { OnErr result (self.new ≡ self.old) }
        ensures dropped { IfOk result (λ ids. ids ≡ dropped (has_text keep.now) self.old.base) }
        ensures changed { IfOk result (λ ids. (id : Text) → has_text ids id ≡ false → slot_at id (view_of (swept keep.now self.old)) ≡ slot_at id (view_of self.old)) }
        ensures alone { self.old.live ≡ [] → S.Count.applies steps.new ≡ S.Count.applies steps.old }
        ensures none { dropped (has_text keep.now) self.old.base ≡ [] → S.Count.applies steps.new ≡ S.Count.applies steps.old }
        ensures applies { S.Count.applies steps.new ≤ S.Count.applies steps.old + length self.old.live }
        ensures looks { S.Count.looks steps.new ≤ S.Count.looks steps.old + 8 * weights (entries_of self.old.live) (sweep (has_text keep.now) self.old.base) }
    {
        let draft = self.draft_sweep(keep, steps)?;
        let ids = draft.touched.copy()?;
        self.settle(draft)?;
        Ok(ids)
    }

    /// What `commit` would change.
    pub fn draft_commit(&self, entry: &Entry, steps: &mut S::Count) -> Result<Draft<S>, NoMemory>
        ensures fits { IfOk result (λ d. Fits S.records self.now d) }
        ensures placed { IfOk result (λ d. placed S.records self.now d ≡ committed entry.now self.now) }
        ensures changed { IfOk result (λ d. AreChanged self.now.base (entries_of self.now.live) (entry.now ∷ entries_of self.now.live) d.touched) }
        ensures applies { S.Count.applies steps.new ≤ S.Count.applies steps.old + (length self.now.live + 1) }
        ensures looks { S.Count.looks steps.new ≤ S.Count.looks steps.old + 8 * weights (entry.now ∷ entries_of self.now.live) self.now.base }
    {
        let alloc = *self.versions.allocator();
        let draft = confirm(
            alloc,
            &self.base,
            &self.entries,
            &self.versions,
            entry,
            steps,
        )?;
        Ok(draft)
    }

    /// What `begin` would change.
    pub fn draft_begin(
        &self,
        name: Words,
        entry: Entry,
        steps: &mut S::Count,
    ) -> Result<Draft<S>, NoMemory>
        requires name { spec.is_live self.now.live name ≡ false }
        ensures fits { IfOk result (λ d. Fits S.records self.now d) }
        ensures placed { IfOk result (λ d. placed S.records self.now d ≡ begun name entry self.now) }
        ensures changed { IfOk result (λ d. AreChanged (view_of self.now) [] (entry ∷ []) d.touched) }
        ensures applies { S.Count.applies steps.new ≡ next_count (S.Count.applies steps.old) }
        ensures looks { S.Count.looks steps.new ≤ S.Count.looks steps.old + 8 * weight entry (view_of self.now) }
    {
        let draft = begin(
            &self.base,
            &self.entries,
            &self.versions,
            name,
            entry,
            steps,
        )?;
        Ok(draft)
    }

    /// What `finish` would change.
    pub fn draft_finish(
        &self,
        name: &Words,
        entry: &Entry,
        steps: &mut S::Count,
    ) -> Result<Draft<S>, NoMemory>
        requires name { spec.is_live self.now.live name.now ≡ true }
        ensures fits { IfOk result (λ d. Fits S.records self.now d) }
        ensures placed { IfOk result (λ d. placed S.records self.now d ≡ finished name.now entry.now self.now) }
        ensures changed { IfOk result (λ d. AreChanged self.now.base (entries_of self.now.live) (entry.now ∷ entries_of (without name.now self.now.live)) d.touched) }
        ensures applies { S.Count.applies steps.new ≤ S.Count.applies steps.old + length self.now.live }
        ensures looks { S.Count.looks steps.new ≤ S.Count.looks steps.old + 8 * weights (entry.now ∷ entries_of (without name.now self.now.live)) self.now.base }
    {
        let alloc = *self.versions.allocator();
        let at = place_of(&self.entries, name.as_str());
        let draft = finish(
            alloc,
            &self.base,
            &self.entries,
            at,
            &self.versions,
            entry,
            steps,
        )?;
        Ok(draft)
    }

    /// What `revert` would change.
    pub fn draft_revert(&self, name: &Words, steps: &mut S::Count) -> Result<Draft<S>, NoMemory>
        requires { spec.is_live self.now.live name.now ≡ true }
        ensures fits { IfOk result (λ d. Fits S.records self.now d) }
        ensures placed { IfOk result (λ d. placed S.records self.now d ≡ reverted name.now self.now) }
        ensures changed { IfOk result (λ d. AreChanged (fold_entries (entries_of (below name.now self.now.live)) self.now.base) (entries_of (from_on name.now self.now.live)) (entries_of (above name.now self.now.live)) d.touched) }
        ensures exact { OnOk result (S.Count.applies steps.new ≡ counted (length (above name.now self.now.live)) (S.Count.applies steps.old)) }
        ensures applies { S.Count.applies steps.new ≤ S.Count.applies steps.old + length (above name.now self.now.live) }
        ensures looks { S.Count.looks steps.new ≤ S.Count.looks steps.old + 8 * weights (entries_of (above name.now self.now.live)) (fold_entries (entries_of (below name.now self.now.live)) self.now.base) }
    {
        let alloc = *self.versions.allocator();
        let at = place_of(&self.entries, name.as_str());
        let draft = revert(alloc, &self.base, &self.entries, at, &self.versions, steps)?;
        Ok(draft)
    }

    /// What `sweep_base` would change.
    pub fn draft_sweep(&self, keep: &Ids, steps: &mut S::Count) -> Result<Draft<S>, NoMemory>
        requires kept { (j : Text) → has_text (leads self.now.base (all_named (entries_of self.now.live))) j ≡ true → has_text keep.now j ≡ true }
        ensures fits { IfOk result (λ d. Fits S.records self.now d) }
        ensures placed { IfOk result (λ d. placed S.records self.now d ≡ swept keep.now self.now) }
        ensures dropped { IfOk result (λ d. d.touched ≡ dropped (has_text keep.now) self.now.base) }
        ensures changed { IfOk result (λ d. (id : Text) → has_text d.touched id ≡ false → slot_at id (view_of (swept keep.now self.now)) ≡ slot_at id (view_of self.now)) }
        ensures keys { AllByRecursion (λ e. HaveHandleKeys e.facts.handles) (entries_of self.now.live) }
        ensures alone { self.now.live ≡ [] → S.Count.applies steps.new ≡ S.Count.applies steps.old }
        ensures none { dropped (has_text keep.now) self.now.base ≡ [] → S.Count.applies steps.new ≡ S.Count.applies steps.old }
        ensures applies { S.Count.applies steps.new ≤ S.Count.applies steps.old + length self.now.live }
        ensures looks { S.Count.looks steps.new ≤ S.Count.looks steps.old + 8 * weights (entries_of self.now.live) (sweep (has_text keep.now) self.now.base) }
    {
        let alloc = *self.versions.allocator();
        let draft = sweep(
            alloc,
            &self.base,
            &self.entries,
            &self.versions,
            keep,
            steps,
        )?;
        Ok(draft)
    }

    /// Puts in place what was drafted from these very layers. It takes memory only for a layer that
    /// starts.
    pub fn settle(&mut self, draft: Draft<S>) -> Result<(), NoMemory>
        requires { Fits S.records self.old draft }
        ensures ok { OnOk result (self.new ≡ placed S.records self.old draft) }
        ensures err { OnErr result (self.new ≡ self.old) }
    {
        let Draft {
            view,
            touched,
            placing,
        } = draft;
        drop(view);
        drop(touched);
        match placing {
            Placing::Kept => Ok(()),
            Placing::Begun {
                name,
                entry,
                version,
            } => {
                put_layer(&mut self.entries, &mut self.versions, name, entry, version)?;
                Ok(())
            }
            Placing::Reverted { at, versions } => {
                take_off(&mut self.entries, &mut self.versions, at, versions);
                Ok(())
            }
            Placing::Confirmed {
                base,
                gone,
                versions,
            } => {
                take_out(&mut self.entries, gone);
                self.base = base;
                self.versions = versions;
                self.base.settle();
                Ok(())
            }
        }
    }

    /// The base with each live layer applied to it, in order of start; takes no memory.
    pub fn view(&self) -> &S
        ensures { S.records result.now ≡ view_of self.now }
    {
        newest(&self.base, &self.versions)
    }

    /// What is confirmed; takes no memory.
    pub fn base(&self) -> &S
        ensures { S.records result.now ≡ self.now.base }
    {
        &self.base
    }

    /// The ids that the entries of the live layers name, in byte order.
    pub fn named(&self) -> Result<Ids, NoMemory>
        ensures { (j : Text) → IfOk result (λ ids. has_text ids j ≡ has_text (all_named (entries_of self.now.live)) j) }
    {
        ids_named(*self.versions.allocator(), &self.entries)
    }

    /// Whether a layer of the name is live; takes no memory.
    pub fn is_live(&self, name: &str) -> bool
        ensures { result ≡ spec.is_live self.now.live name.now }
    {
        is_named(&self.entries, name)
    }

    /// How many layers are live; takes no memory.
    pub fn count(&self) -> u64
        ensures { result ≡ length self.now.live }
    {
        count_of(&self.entries)
    }

    /// Equal layers, which share all records and all entries.
    pub fn copy(&self) -> Result<Layers<S>, NoMemory>
        ensures { IfOk result (λ copy. copy ≡ self.now) }
    {
        let base = self.base.version()?;
        let entries = copy_entries(&self.entries)?;
        let versions = copy_versions(*self.versions.allocator(), &self.versions)?;
        Ok(Layers {
            base,
            entries,
            versions,
        })
    }
}
