//! The ids that versions change.
ghost use Rattle.std.specs.Prelude.{◌≡◌, ◌||◌, ◌++◌, List, ℕ, IfOk, OnOk};
ghost use Rattle.store_update.specs.gql_plain.Order.{has_text};
ghost use Rattle.store_layers.specs.Versions.{shown, touched_by, is_noted};

use std::alloc::Global;
use store_update::Changed;
use store_update::gql_plain::{Id, Ids, NoMemory};
use store_update::store_source::RecordSource;

/// The ids that an entry changes, and those that versions change before and after, in byte order. Where no version is
/// live, the list itself is shared.
pub(crate) fn ids_confirmed<S: RecordSource>(
    alloc: Global,
    first: &Ids,
    before: &[Changed<S>],
    after: &[Changed<S>],
) -> Result<Ids, NoMemory>
    ensures { IfOk result (λ ids. (id : List ℕ) → has_text ids id ≡ (has_text first.now id || is_noted (shown S.records before.now) id || is_noted (shown S.records after.now) id)) }
{
    if before.is_empty() && after.is_empty() {
        return first.copy();
    }
    ids_changed(alloc, first.as_slice(), before, after)
}

/// The ids of a list, and those that versions change before and after, in byte order.
pub(crate) fn ids_changed<S: RecordSource>(
    alloc: Global,
    first: &[Id],
    before: &[Changed<S>],
    after: &[Changed<S>],
) -> Result<Ids, NoMemory>
    ensures { IfOk result (λ ids. (id : List ℕ) → has_text ids id ≡ (has_text first.now id || is_noted (shown S.records before.now) id || is_noted (shown S.records after.now) id)) }
{
    let mut ids = Vec::new(alloc);
    note_ids(first, &mut ids)?;
    note_versions(before, &mut ids)?;
    note_versions(after, &mut ids)?;
    let sorted = Ids::sort(ids)?;
    Ok(sorted)
}

/// Puts the ids that versions change to the end of a list.
fn note_versions<S: RecordSource>(
    versions: &[Changed<S>],
    ids: &mut Vec<Id>,
) -> Result<(), NoMemory>
    ensures { OnOk result (ids.new.items ≡ ids.old.items ++ touched_by (shown S.records versions.now)) }
{
    'versions: for version in versions {
        note_ids(version.touched.as_slice(), ids)?;
    }
    Ok(())
}

/// Puts ids to the end of a list.
fn note_ids(more: &[Id], ids: &mut Vec<Id>) -> Result<(), NoMemory>
    ensures { OnOk result (ids.new.items ≡ ids.old.items ++ more.now) }
{
    'more: for id in more {
        ids.push(id.copy()?)?;
    }
    Ok(())
}
