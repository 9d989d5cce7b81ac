//! What a call of the layers changes, built aside.
ghost use Rattle.std.specs.Prelude.{◌≡◌, ◌+◌, ◌*◌, ◌-◌, ◌<◌, ◌≤◌, ◌++◌, [], ◌∷◌, true, false, take, drop, length, IfOk, OnOk};
ghost use Rattle.store_update.specs.gql_plain.Order.{has_text};
ghost use Rattle.store_update.specs.store_record.Keys.{Text};
ghost use Rattle.std.specs.List.{AllByRecursion};
ghost use Rattle.store_update.specs.store_model.Said.{HaveHandleKeys};
ghost use Rattle.store_update.specs.store_model.Leads.{leads};
ghost use Rattle.store_update.specs.store_model.Records.{slot_at};
ghost use Rattle.store_update.specs.store_model.Sweeps.{sweep, dropped};
ghost use Rattle.store_update.specs.gql_plain.Counted.{next_count};
ghost use Rattle.indexmap.specs.IndexMap.{index_map_len};
ghost use Rattle.store_update.specs.store_model.Entries.{all_named, weight, fold_entries};
ghost use Rattle.store_layers.specs.Changed.{AreChanged};
ghost use Rattle.store_layers.specs.Drafts.{Fits, placed, finished_at, reverted_at};
ghost use Rattle.store_layers.specs.Layered.{begun, committed, entries_of, is_live, swept, view_of};
ghost use Rattle.store_layers.specs.Versions.{shown, AreKept, layers_of, layered_of, all_but};
ghost use Rattle.store_layers.specs.Work.{counted, weights};

use crate::drafts::{Draft, Placing};
use crate::fold::{Entries, look_at_keys, newest, put_versions};
use crate::ids::{ids_changed, ids_confirmed};
use crate::sweep::{ids_to_drop, without_ids};
use std::alloc::Global;
use store_update::gql_plain::{Ids, NoMemory, Words};
use store_update::store_model::Entry;
use store_update::store_source::RecordSource;
use store_update::{Changed, apply};

/// Starts a layer above all others.
pub(crate) fn begin<S: RecordSource>(
    base: &S,
    entries: &Entries,
    versions: &[Changed<S>],
    name: Words,
    entry: Entry,
    steps: &mut S::Count,
) -> Result<Draft<S>, NoMemory>
    requires kept { AreKept (S.records base.now) (layers_of entries.now.entries) (shown S.records versions.now) }
    requires free { is_live (layers_of entries.now.entries) name ≡ false }
    ensures fits { IfOk result (λ d. Fits S.records (layered_of (S.records base.now) entries.now.entries) d) }
    ensures placed { IfOk result (λ d. placed S.records (layered_of (S.records base.now) entries.now.entries) d ≡ begun name entry (layered_of (S.records base.now) entries.now.entries)) }
    ensures ids { IfOk result (λ d. AreChanged (view_of (layered_of (S.records base.now) entries.now.entries)) [] (entry ∷ []) d.touched) }
    ensures applies { S.Count.applies steps.new ≡ next_count (S.Count.applies steps.old) }
    ensures looks { S.Count.looks steps.new ≤ S.Count.looks steps.old + 8 * weight entry (view_of (layered_of (S.records base.now) entries.now.entries)) }
{
    let version = apply(newest(base, versions), &entry, steps)?;
    let touched = version.touched.copy()?;
    let view = version.source.version()?;
    Ok(Draft {
        view,
        touched,
        placing: Placing::Begun {
            name,
            entry,
            version,
        },
    })
}

/// Confirms an entry below all layers, which are applied again.
pub(crate) fn confirm<S: RecordSource>(
    alloc: Global,
    base: &S,
    entries: &Entries,
    versions: &[Changed<S>],
    entry: &Entry,
    steps: &mut S::Count,
) -> Result<Draft<S>, NoMemory>
    requires kept { AreKept (S.records base.now) (layers_of entries.now.entries) (shown S.records versions.now) }
    ensures fits { IfOk result (λ d. Fits S.records (layered_of (S.records base.now) entries.now.entries) d) }
    ensures placed { IfOk result (λ d. placed S.records (layered_of (S.records base.now) entries.now.entries) d ≡ committed entry.now (layered_of (S.records base.now) entries.now.entries)) }
    ensures ids { IfOk result (λ d. AreChanged (S.records base.now) (entries_of (layers_of entries.now.entries)) (entry.now ∷ entries_of (layers_of entries.now.entries)) d.touched) }
    ensures applies { S.Count.applies steps.new ≤ S.Count.applies steps.old + (length entries.now.entries + 1) }
    ensures looks { S.Count.looks steps.new ≤ S.Count.looks steps.old + 8 * weights (entry.now ∷ entries_of (layers_of entries.now.entries)) (S.records base.now) }
{
    let changed = apply(base, entry, steps)?;
    let mut after = Vec::new(alloc);
    let count = entries.len();
    put_versions(&changed.source, &mut after, entries, 0, count, steps)?;
    let touched = ids_confirmed(alloc, &changed.touched, versions, &after)?;
    let view = newest(&changed.source, &after).version()?;
    Ok(Draft {
        view,
        touched,
        placing: Placing::Confirmed {
            base: changed.source,
            gone: None,
            versions: after,
        },
    })
}

/// Drops the layer at a place, and confirms an entry below the others, which are applied again.
pub(crate) fn finish<S: RecordSource>(
    alloc: Global,
    base: &S,
    entries: &Entries,
    at: usize,
    versions: &[Changed<S>],
    entry: &Entry,
    steps: &mut S::Count,
) -> Result<Draft<S>, NoMemory>
    requires kept { AreKept (S.records base.now) (layers_of entries.now.entries) (shown S.records versions.now) }
    requires place { at < length entries.now.entries }
    ensures fits { IfOk result (λ d. Fits S.records (layered_of (S.records base.now) entries.now.entries) d) }
    ensures placed { IfOk result (λ d. placed S.records (layered_of (S.records base.now) entries.now.entries) d ≡ finished_at at entry.now (layered_of (S.records base.now) entries.now.entries)) }
    ensures ids { IfOk result (λ d. AreChanged (S.records base.now) (entries_of (layers_of entries.now.entries)) (entry.now ∷ all_but at (entries_of (layers_of entries.now.entries))) d.touched) }
    ensures applies { S.Count.applies steps.new ≤ S.Count.applies steps.old + length entries.now.entries }
    ensures looks { S.Count.looks steps.new ≤ S.Count.looks steps.old + 8 * weights (entry.now ∷ all_but at (entries_of (layers_of entries.now.entries))) (S.records base.now) }
{
    let changed = apply(base, entry, steps)?;
    let mut after = Vec::new(alloc);
    let count = entries.len();
    put_versions(&changed.source, &mut after, entries, 0, at, steps)?;
    put_versions(&changed.source, &mut after, entries, at + 1, count, steps)?;
    let touched = ids_confirmed(alloc, &changed.touched, versions, &after)?;
    let view = newest(&changed.source, &after).version()?;
    Ok(Draft {
        view,
        touched,
        placing: Placing::Confirmed {
            base: changed.source,
            gone: Some(at),
            versions: after,
        },
    })
}

/// Drops the layer at a place: those below it stay, and those above it are applied again, from the
/// version below it on.
pub(crate) fn revert<S: RecordSource>(
    alloc: Global,
    base: &S,
    entries: &Entries,
    at: usize,
    versions: &[Changed<S>],
    steps: &mut S::Count,
) -> Result<Draft<S>, NoMemory>
    requires kept { AreKept (S.records base.now) (layers_of entries.now.entries) (shown S.records versions.now) }
    requires place { at < length entries.now.entries }
    ensures fits { IfOk result (λ d. Fits S.records (layered_of (S.records base.now) entries.now.entries) d) }
    ensures placed { IfOk result (λ d. placed S.records (layered_of (S.records base.now) entries.now.entries) d ≡ reverted_at at (layered_of (S.records base.now) entries.now.entries)) }
    ensures ids { IfOk result (λ d. AreChanged (fold_entries (take at (entries_of (layers_of entries.now.entries))) (S.records base.now)) (drop at (entries_of (layers_of entries.now.entries))) (drop (at + 1) (entries_of (layers_of entries.now.entries))) d.touched) }
    ensures exact { OnOk result (S.Count.applies steps.new ≡ counted (length entries.now.entries - (at + 1)) (S.Count.applies steps.old)) }
    ensures applies { S.Count.applies steps.new ≤ S.Count.applies steps.old + (length entries.now.entries - (at + 1)) }
    ensures looks { S.Count.looks steps.new ≤ S.Count.looks steps.old + 8 * weights (drop (at + 1) (entries_of (layers_of entries.now.entries))) (fold_entries (take at (entries_of (layers_of entries.now.entries))) (S.records base.now)) }
{
    let count = entries.len();
    let parts = versions.split_at(at);
    let below = newest(base, parts.0);
    let mut after = Vec::new(alloc);
    put_versions(below, &mut after, entries, at + 1, count, steps)?;
    let touched = ids_changed(alloc, &[], parts.1, &after)?;
    let view = newest(below, &after).version()?;
    Ok(Draft {
        view,
        touched,
        placing: Placing::Reverted {
            at,
            versions: after,
        },
    })
}

/// Takes each id that is not in `keep` out of the base, and applies all layers to it again. The ids are
/// those that were taken out, in byte order. Where nothing goes, nothing is applied.
pub(crate) fn sweep<S: RecordSource>(
    alloc: Global,
    base: &S,
    entries: &Entries,
    versions: &[Changed<S>],
    keep: &Ids,
    steps: &mut S::Count,
) -> Result<Draft<S>, NoMemory>
    requires versions { AreKept (S.records base.now) (layers_of entries.now.entries) (shown S.records versions.now) }
    requires kept { (j : Text) → has_text (leads (S.records base.now) (all_named (entries_of (layers_of entries.now.entries)))) j ≡ true → has_text keep.now j ≡ true }
    ensures fits { IfOk result (λ d. Fits S.records (layered_of (S.records base.now) entries.now.entries) d) }
    ensures placed { IfOk result (λ d. placed S.records (layered_of (S.records base.now) entries.now.entries) d ≡ swept keep.now (layered_of (S.records base.now) entries.now.entries)) }
    ensures dropped { IfOk result (λ d. d.touched ≡ dropped (has_text keep.now) (S.records base.now)) }
    ensures changed { IfOk result (λ d. (id : Text) → has_text d.touched id ≡ false
        → slot_at id (view_of (swept keep.now (layered_of (S.records base.now) entries.now.entries))) ≡ slot_at id (view_of (layered_of (S.records base.now) entries.now.entries))) }
    ensures keys { AllByRecursion (λ e. HaveHandleKeys e.facts.handles) (entries_of (layers_of entries.now.entries)) }
    ensures alone { entries_of (layers_of entries.now.entries) ≡ [] → S.Count.applies steps.new ≡ S.Count.applies steps.old }
    ensures none { dropped (has_text keep.now) (S.records base.now) ≡ [] → S.Count.applies steps.new ≡ S.Count.applies steps.old }
    ensures applies { S.Count.applies steps.new ≤ S.Count.applies steps.old + length entries.now.entries }
    ensures looks { S.Count.looks steps.new ≤ S.Count.looks steps.old + 8 * weights (entries_of (layers_of entries.now.entries)) (sweep (has_text keep.now) (S.records base.now)) }
{
    look_at_keys(entries);
    let touched = ids_to_drop(alloc, base, keep)?;
    if touched.is_empty() {
        let view = newest(base, versions).version()?;
        return Ok(Draft {
            view,
            touched,
            placing: Placing::Kept,
        });
    }
    let left = without_ids(base, &touched, steps)?;
    let mut after = Vec::new(alloc);
    let count = entries.len();
    put_versions(&left, &mut after, entries, 0, count, steps)?;
    let view = newest(&left, &after).version()?;
    Ok(Draft {
        view,
        touched,
        placing: Placing::Confirmed {
            base: left,
            gone: None,
            versions: after,
        },
    })
}
