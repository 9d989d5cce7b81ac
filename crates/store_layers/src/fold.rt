//! Versions of the records, one after another.
ghost use Rattle.std.specs.Prelude.{◌≡◌, ◌+◌, ◌*◌, ◌-◌, ◌≤◌, ◌++◌, [], ◌∷◌, length, List, IfOk, OnOk};
ghost use Rattle.store_update.specs.gql_plain.Counted.{next_count};
ghost use Rattle.indexmap.specs.IndexMap.{index_map_len};
ghost use Rattle.store_update.specs.store_model.Entries.{weight, fold_entries};
ghost use Rattle.store_update.specs.store_model.declared.entry.Entry as E;
ghost use Rattle.std.specs.List.{AllByRecursion};
ghost use Rattle.store_update.specs.store_model.Said.{HaveHandleKeys};
ghost use Rattle.store_layers.specs.Layered.{entries_of};
ghost use Rattle.store_layers.specs.Versions.{shown, newest, AreVersions, entries_within, layers_of};
ghost use Rattle.store_layers.specs.Work.{counted, weights};

use indexmap::IndexMap;
use std::alloc::Global;
use std::rc::Rc;
use store_update::gql_plain::NoMemory;
use store_update::store_model::Entry;
use store_update::store_source::RecordSource;
use store_update::{Changed, apply};

/// The entries of the live layers by name, in order of start.
pub(crate) type Entries = IndexMap<String, Rc<Entry>>;

/// The newest version, or the base where there is none; takes no memory.
pub(crate) fn newest<'a, S: RecordSource>(base: &'a S, versions: &'a [Changed<S>]) -> &'a S
    ensures { S.records result.now ≡ newest (S.records base.now) (shown S.records versions.now) }
{
    match versions.last() {
        Some(version) => &version.source,
        None => base,
    }
}

/// Puts the version after one more entry to the end.
pub(crate) fn put_version<S: RecordSource>(
    base: &S,
    versions: &mut Vec<Changed<S>>,
    entry: &Entry,
    steps: &mut S::Count,
) -> Result<(), NoMemory>
    ensures versions { OnOk result ((before : List E.Entry) → AreVersions (S.records base.now) before (shown S.records versions.old.items)
        → AreVersions (S.records base.now) (before ++ entry.now ∷ []) (shown S.records versions.new.items)) }
    ensures applies { S.Count.applies steps.new ≡ next_count (S.Count.applies steps.old) }
    ensures looks { (before : List E.Entry) → AreVersions (S.records base.now) before (shown S.records versions.old.items)
        → S.Count.looks steps.new ≤ S.Count.looks steps.old + 8 * weight entry.now (fold_entries before (S.records base.now)) }
{
    let changed = apply(newest(base, versions), entry, steps)?;
    versions.push(changed)?;
    Ok(())
}

/// Puts the versions after the layers from one place up to another to the end.
pub(crate) fn put_versions<S: RecordSource>(
    base: &S,
    versions: &mut Vec<Changed<S>>,
    entries: &Entries,
    from: usize,
    end: usize,
    steps: &mut S::Count,
) -> Result<(), NoMemory>
    requires order { from ≤ end }
    requires within { end ≤ index_map_len entries.now }
    ensures versions { OnOk result ((before : List E.Entry) → AreVersions (S.records base.now) before (shown S.records versions.old.items)
        → AreVersions (S.records base.now) (before ++ entries_within from end entries.now.entries) (shown S.records versions.new.items)) }
    ensures exact { OnOk result (S.Count.applies steps.new ≡ counted (end - from) (S.Count.applies steps.old)) }
    ensures none { from ≡ end → S.Count.applies steps.new ≡ S.Count.applies steps.old }
    ensures applies { S.Count.applies steps.new ≤ S.Count.applies steps.old + (end - from) }
    ensures looks { (before : List E.Entry) → AreVersions (S.records base.now) before (shown S.records versions.old.items)
        → S.Count.looks steps.new ≤ S.Count.looks steps.old + 8 * weights (entries_within from end entries.now.entries) (fold_entries before (S.records base.now)) }
{
    'layers: for at in from..end {
        put_version(base, versions, &entries[at], steps)?;
    }
    Ok(())
}

/// Versions of versions, which share all with them.
pub(crate) fn copy_versions<S: RecordSource>(
    alloc: Global,
    versions: &[Changed<S>],
) -> Result<Vec<Changed<S>>, NoMemory>
    ensures { IfOk result (λ copies. shown S.records copies.items ≡ shown S.records versions.now) }
{
    let mut copies = Vec::new(alloc);
    'versions: for version in versions {
        copies.push(copy_version(version)?)?;
    }
    Ok(copies)
}

/// A version of a version, which shares all with it.
fn copy_version<S: RecordSource>(version: &Changed<S>) -> Result<Changed<S>, NoMemory>
    ensures records { IfOk result (λ copy. S.records copy.source ≡ S.records version.now.source) }
    ensures touched { IfOk result (λ copy. copy.touched ≡ version.now.touched) }
{
    let source = version.source.version()?;
    let touched = version.touched.copy()?;
    Ok(Changed { source, touched })
}

/// Each page of the layers' entries goes under a key that is no field's; takes no memory.
pub(crate) fn look_at_keys(entries: &Entries)
    ensures { AllByRecursion (λ e. HaveHandleKeys e.facts.handles) (entries_of (layers_of entries.now.entries)) }
{
    let end = entries.len();
    'layers: for at in 0..end {
        look_at_key(&entries[at]);
    }
}

/// Each page of an entry goes under such a key.
fn look_at_key(entry: &Entry)
    ensures { HaveHandleKeys entry.now.facts.handles }
{
    let _ = &entry.facts.handles;
}
