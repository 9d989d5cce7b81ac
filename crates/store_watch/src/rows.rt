//! The rows of watches.
ghost use Rattle.std.specs.Prelude.{◌≡◌, ◌<◌, ℕ, false, [], ◌∷◌, ◌++◌, Some, length, bytes_eq, string_bytes, slice_get, IfOk, OnOk, OnErr};
ghost use Rattle.std.specs.List.{list_any};
ghost use Rattle.std.specs.Option.{option_copied};
ghost use Rattle.indexmap.specs.IndexMap.{index_map_len, values};
ghost use Rattle.store_read.specs.Reading.{reading_of};
ghost use Rattle.store_watch.specs.Numbers.{Rises, number_at, numbers_of};
ghost use Rattle.store_watch.specs.Rows.{IsNumberAt, seen_of, watches_of, with_snapshot};
ghost use Rattle.store_watch.specs.Watching as spec;
ghost use Rattle.store_watch.specs.declared.rows.Row as row;

use crate::watched::Watched;
use indexmap::IndexMap;
use plan_ir::NoMemory;
use std::alloc::Global;
use store_read::Snapshot;

/// A watch.
#[derive(Drop)]
pub(crate) struct Row {
    /// Rises with each start, and is never used again.
    pub(crate) number: u64,
    pub(crate) what: Watched,
    /// What its read gave the last time.
    pub(crate) kept: Snapshot,
}

/// The rows by name, in order of start.
pub(crate) type Rows = IndexMap<String, Row>;

/// The rows in order of start; takes no memory.
pub(crate) fn in_order(rows: &Rows) -> &[Row]
    ensures { result.now ≡ values rows.now }
{
    rows.values().as_slice()
}

/// Whether a watch has the name; takes no memory.
pub(crate) fn is_named(rows: &Rows, name: &str) -> bool
    ensures { result ≡ spec.is_live (watches_of rows.now.entries) name.now }
{
    rows.contains_key(name)
}

/// Whether a watch shows a plan of the handle; takes no memory.
pub(crate) fn is_used(rows: &Rows, handle: &str) -> bool
    ensures { result ≡ spec.uses (watches_of rows.now.entries) handle.now }
{
    shows_handle(in_order(rows), handle)
}

/// Whether a row shows a plan of the handle.
fn shows_handle(rows: &[Row], handle: &str) -> bool
    ensures { result ≡ list_any (λ (r : row.Row). bytes_eq r.what.handle handle.now) rows.now }
{
    'rows: for row in rows {
        if row.what.handle.as_str() == handle {
            return true;
        }
    }
    false
}

/// The numbers of all rows.
pub(crate) fn all_numbers(alloc: Global, rows: &[Row]) -> Result<Vec<u64>, NoMemory>
    ensures { IfOk result (λ numbers. numbers.items ≡ numbers_of (seen_of rows.now)) }
{
    let mut numbers = Vec::with_capacity(alloc, rows.len())?;
    'rows: for row in rows {
        numbers.push(row.number)?;
    }
    Ok(numbers)
}

/// The place of the row of a number, where there is one; takes no memory.
pub(crate) fn place_of(rows: &[Row], number: u64) -> Option<usize>
    requires { Rises (numbers_of (seen_of rows.now)) }
    ensures { (place : ℕ) → place < length rows.now → number_at (seen_of rows.now) place ≡ number → result ≡ Some place }
{
    match rows.binary_search_by(|row| row.number.cmp(&number)) {
        Ok(place) => Some(place),
        Err(_) => None,
    }
}

/// The row at a place, where there is one; takes no memory.
pub(crate) fn row_at(rows: &[Row], place: usize) -> Option<&Row>
    ensures { option_copied result ≡ slice_get rows.now place }
{
    rows.get(place)
}

/// The row of a number, where there is one; takes no memory.
pub(crate) fn row_of(rows: &[Row], number: u64) -> Option<&Row>
    requires { Rises (numbers_of (seen_of rows.now)) }
    ensures { (place : ℕ) → place < length rows.now → number_at (seen_of rows.now) place ≡ number → option_copied result ≡ slice_get rows.now place }
{
    match place_of(rows, number) {
        Some(place) => row_at(rows, place),
        None => None,
    }
}

/// Puts a row under a name that is not live to the end, and makes room for its number.
pub(crate) fn put_row(
    rows: &mut Rows,
    late: &mut Vec<u64>,
    name: String,
    row: Row,
) -> Result<(), NoMemory>
    requires { spec.is_live (watches_of rows.old.entries) (string_bytes name) ≡ false }
    ensures put { OnOk result (rows.new.entries ≡ rows.old.entries ++ (name, row) ∷ []) }
    ensures same { OnErr result (rows.new.entries ≡ rows.old.entries) }
    ensures late { late.new.items ≡ late.old.items }
{
    late.reserve(rows.len().saturating_add(1))?;
    drop(rows.insert(name, row)?);
    Ok(())
}

/// Puts a snapshot in place of the one at a place, and gives the number of the row where the seen ids
/// change; takes no memory.
pub(crate) fn put_snapshot(rows: &mut Rows, place: usize, snapshot: Snapshot) -> Option<u64>
    requires { place < index_map_len rows.old }
    ensures rows { rows.new.entries ≡ with_snapshot rows.old.entries place snapshot }
    ensures number { IsNumberAt (seen_of (values rows.old)) place snapshot.seen result }
{
    let row = &mut rows[place];
    let number = row.number;
    let is_same = row.kept.seen == snapshot.seen;
    row.kept = snapshot;
    if is_same {
        return None;
    }
    Some(number)
}

/// Whether the data or the missing mark of a snapshot differs; takes no memory.
pub(crate) fn differs(old: &Snapshot, new: &Snapshot) -> bool
    ensures { result ≡ spec.differs (reading_of old.now) (reading_of new.now) }
{
    if old.missing != new.missing {
        return true;
    }
    old.shown != new.shown
}
