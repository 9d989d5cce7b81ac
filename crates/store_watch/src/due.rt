//! The watches that a change may concern.
ghost use Rattle.std.specs.Prelude.{◌≡◌, ◌<◌, ℕ, false, true, [], ◌∷◌, ◌++◌, filter, length, IfOk, OnOk};
ghost use Rattle.std.specs.List.{list_any};
ghost use Rattle.plan_ir.specs.gql_plain.Order.{has_text};
ghost use Rattle.store_watch.specs.Lists.{under};
ghost use Rattle.store_watch.specs.Numbers.{Grows, IsComplete, IsPut, Rises, has, named, noted, number_at, numbers_of};
ghost use Rattle.store_watch.specs.Places.{passes_at, places_from};
ghost use Rattle.store_watch.specs.Rows.{met_by, seen_of};
ghost use Rattle.store_watch.specs.Watching.{meets};

use crate::index::Index;
use crate::rows::{Row, place_of, row_at, row_of};
use plan_ir::{Ids, NoMemory, Words};
use std::alloc::Global;

/// The places of the rows that saw a touched id, in order.
pub(crate) fn due_places(
    alloc: Global,
    rows: &[Row],
    index: &Index,
    late: &[u64],
    all: bool,
    touched: &Ids,
) -> Result<Vec<usize>, NoMemory>
    requires rises { Rises (numbers_of (seen_of rows.now)) }
    requires complete { all ≡ false → IsComplete (under index.now.lists) late.now (seen_of rows.now) }
    ensures { IfOk result (λ places. places.items ≡ places_from (met_by touched.now) 0 rows.now) }
{
    let places = sorted(candidates(alloc, rows, index, late, all, touched)?)?;
    met_places(alloc, rows, &places, touched)
}

/// Places, among them those of all rows that saw a touched id.
fn candidates(
    alloc: Global,
    rows: &[Row],
    index: &Index,
    late: &[u64],
    all: bool,
    touched: &Ids,
) -> Result<Vec<usize>, NoMemory>
    requires rises { Rises (numbers_of (seen_of rows.now)) }
    requires complete { all ≡ false → IsComplete (under index.now.lists) late.now (seen_of rows.now) }
    ensures { IfOk result (λ places. (place : ℕ) → passes_at (met_by touched.now) rows.now place ≡ true → has places.items place ≡ true) }
{
    if all {
        return all_places(alloc, rows);
    }
    let numbers = named_numbers(alloc, index, late, touched)?;
    places_of(alloc, rows, &numbers)
}

/// The late numbers, and those that the index has under touched ids.
fn named_numbers(
    alloc: Global,
    index: &Index,
    late: &[u64],
    touched: &Ids,
) -> Result<Vec<u64>, NoMemory>
    ensures { IfOk result (λ numbers. numbers.items ≡ late.now ++ named (under index.now.lists) touched.now) }
{
    let mut numbers = Vec::from_slice(alloc, late)?;
    'touched: for id in touched.as_slice() {
        numbers.extend_from_slice(index.at(id.as_str()))?;
    }
    Ok(numbers)
}

/// The places of the rows of numbers; a number of no row gives none.
fn places_of(alloc: Global, rows: &[Row], numbers: &[u64]) -> Result<Vec<usize>, NoMemory>
    requires { Rises (numbers_of (seen_of rows.now)) }
    ensures { IfOk result (λ places. (place : ℕ) → place < length rows.now → has numbers.now (number_at (seen_of rows.now) place) ≡ true → has places.items place ≡ true) }
{
    let mut places = Vec::with_capacity(alloc, numbers.len())?;
    'numbers: for number in numbers {
        put_place(rows, *number, &mut places)?;
    }
    Ok(places)
}

/// Puts the place of the row of a number, where there is one.
fn put_place(rows: &[Row], number: u64, places: &mut Vec<usize>) -> Result<(), NoMemory>
    requires { Rises (numbers_of (seen_of rows.now)) }
    ensures put { OnOk result ((place : ℕ) → place < length rows.now → number_at (seen_of rows.now) place ≡ number → has places.new.items place ≡ true) }
    ensures keeps { OnOk result ((place : ℕ) → has places.old.items place ≡ true → has places.new.items place ≡ true) }
{
    match place_of(rows, number) {
        Some(place) => {
            places.push(place)?;
            Ok(())
        }
        None => Ok(()),
    }
}

/// All places.
fn all_places(alloc: Global, rows: &[Row]) -> Result<Vec<usize>, NoMemory>
    ensures { IfOk result (λ places. (place : ℕ) → place < length rows.now → has places.items place ≡ true) }
{
    let mut places = Vec::with_capacity(alloc, rows.len())?;
    'places: for at in 0..rows.len() {
        places.push(at)?;
    }
    Ok(places)
}

/// The distinct numbers of a list, which rise.
fn sorted(mut numbers: Vec<usize>) -> Result<Vec<usize>, NoMemory>
    ensures rises { IfOk result (λ sorted. Rises sorted.items) }
    ensures all { IfOk result (λ sorted. (n : ℕ) → has numbers.items n ≡ true → has sorted.items n ≡ true) }
{
    numbers.sort()?;
    numbers.dedup();
    Ok(numbers)
}

/// Those of the places whose rows saw a touched id.
fn met_places(
    alloc: Global,
    rows: &[Row],
    places: &[usize],
    touched: &Ids,
) -> Result<Vec<usize>, NoMemory>
    ensures { IfOk result (λ met. met.items ≡ filter (passes_at (met_by touched.now) rows.now) places.now) }
{
    let mut met = Vec::new(alloc);
    'places: for place in places {
        if is_met(rows, *place, touched) {
            met.push(*place)?;
        }
    }
    Ok(met)
}

/// Whether there is a row at the place that saw a touched id.
fn is_met(rows: &[Row], place: usize, touched: &Ids) -> bool
    ensures { result ≡ passes_at (met_by touched.now) rows.now place }
{
    match row_at(rows, place) {
        Some(row) => have_common(&row.kept.seen, touched),
        None => false,
    }
}

/// Whether a text is in both lists; those of the shorter are looked up.
fn have_common(seen: &Ids, touched: &Ids) -> bool
    ensures { result ≡ meets seen.now touched.now }
{
    if touched.len() < seen.len() {
        return has_any(seen, touched.as_slice());
    }
    has_any(touched, seen.as_slice())
}

/// Whether the ids have one of the texts.
fn has_any(ids: &Ids, texts: &[Words]) -> bool
    ensures { result ≡ list_any (has_text ids.now) texts.now }
{
    'texts: for text in texts {
        if ids.contains(text.as_str()) {
            return true;
        }
    }
    false
}

/// Puts numbers under what their watches saw.
pub(crate) fn put_late(
    alloc: Global,
    index: &mut Index,
    rows: &[Row],
    late: &[u64],
) -> Result<(), NoMemory>
    requires { Rises (numbers_of (seen_of rows.now)) }
    ensures complete { OnOk result (IsComplete (under index.old.lists) late.now (seen_of rows.now) → IsComplete (under index.new.lists) [] (seen_of rows.now)) }
    ensures grows { Grows (under index.old.lists) (under index.new.lists) }
{
    'late: for number in late {
        put_row(alloc, index, rows, *number)?;
    }
    Ok(())
}

/// Puts a number under what its watch saw, where there is one.
fn put_row(alloc: Global, index: &mut Index, rows: &[Row], number: u64) -> Result<(), NoMemory>
    requires { Rises (numbers_of (seen_of rows.now)) }
    ensures put { OnOk result (IsPut (under index.new.lists) number (seen_of rows.now)) }
    ensures grows { Grows (under index.old.lists) (under index.new.lists) }
{
    match row_of(rows, number) {
        Some(row) => index.put_all(alloc, &row.kept.seen, number),
        None => Ok(()),
    }
}

/// Puts a number, where there is one, to the late ones; gives whether all rows are to be looked at, as
/// they are where it has no room.
pub(crate) fn note(late: &mut Vec<u64>, all: bool, number: Option<u64>) -> bool
    ensures kept { result ≡ false → all ≡ false }
    ensures noted { result ≡ false → late.new.items ≡ late.old.items ++ noted number }
{
    match number {
        Some(number) => note_number(late, all, number),
        None => all,
    }
}

/// Puts a number to the late ones.
fn note_number(late: &mut Vec<u64>, all: bool, number: u64) -> bool
    ensures kept { result ≡ false → all ≡ false }
    ensures noted { result ≡ false → late.new.items ≡ late.old.items ++ number ∷ [] }
{
    if late.push(number).is_err() {
        return true;
    }
    all
}
