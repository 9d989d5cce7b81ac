//! Which of the ids that were noted have another slot in the end.
ghost use Rattle.std.specs.Prelude.{◌≡◌, ◌==◌, ◌&&◌, ◌+◌, ◌++◌, ◌≤◌, [], ◌∷◌, cond, true, not, length, IfOk, OnOk};
ghost use Rattle.std.specs.List.{filter, prefix_len};
ghost use Rattle.std.specs.List.Sorted.{IsSorted};
ghost use Rattle.std.specs.Cmp.Lexicographic.{slice_cmp};
ghost use Rattle.std.specs.Ordering.{nat_cmp};
ghost use Rattle.std.specs.Str.{bytes_eq};
ghost use Rattle.store_conn.specs.gql_plain.Order.{AreInOrder, AreSortedOf, has_text};
ghost use Rattle.store_conn.specs.store_record.Keys.{Text};
ghost use Rattle.store_update.specs.Touched.{AreNoted, AreTouched, is_changed};
ghost use Rattle.store_update.specs.Turns.{number_again, stands_again};

use crate::slot::are_equal;
use std::alloc::Global;
use store_conn::gql_plain::{Id, Ids, NoMemory};
use store_conn::store_source::RecordSource;

/// The ids whose slot differs between two maps, of those that were noted, in byte order. One that was noted once
/// differs; one that was noted several times takes two looks.
pub(crate) fn touched<S: RecordSource>(
    before: &S,
    after: &S,
    noted: Vec<Id>,
    steps: &mut S::Count,
) -> Result<Ids, NoMemory>
    requires { AreNoted (S.records before.now) (S.records after.now) [] noted.items }
    ensures touched { IfOk result (λ ids. AreTouched (S.records before.now) (S.records after.now) ids) }
    ensures looks { S.Count.looks steps.new ≤ S.Count.looks steps.old + number_again noted.items }
    ensures applies { S.Count.applies steps.new ≡ S.Count.applies steps.old }
{
    // ids that rise stand there once each
    if do_rise(&noted) {
        let touched = Ids::in_order(noted)?;
        return Ok(touched);
    }
    compared(before, after, noted, steps)
}

/// Whether each id stands after the one before it, by bytes; takes no memory.
fn do_rise(ids: &[Id]) -> bool
    ensures { result ≡ true → AreInOrder ids.now }
{
    ids.is_sorted_by(|one, other| one.cmp(other).is_lt())
}

/// The ids whose slot differs, where some may have been noted several times.
fn compared<S: RecordSource>(
    before: &S,
    after: &S,
    noted: Vec<Id>,
    steps: &mut S::Count,
) -> Result<Ids, NoMemory>
    requires { AreNoted (S.records before.now) (S.records after.now) [] noted.items }
    ensures touched { IfOk result (λ ids. AreTouched (S.records before.now) (S.records after.now) ids) }
    ensures looks { S.Count.looks steps.new ≤ S.Count.looks steps.old + number_again noted.items }
    ensures applies { S.Count.applies steps.new ≡ S.Count.applies steps.old }
{
    let alloc = *noted.allocator();
    let mut sorted = noted;
    sorted.sort()?;
    let stayed = stayed(alloc, before, after, sorted.as_slice(), steps)?;
    let touched = others(sorted, stayed)?;
    Ok(touched)
}

/// Those of sorted ids that stand there several times and have the same slot in two maps; each that stands there
/// several times takes two looks.
fn stayed<S: RecordSource>(
    alloc: Global,
    before: &S,
    after: &S,
    sorted: &[Id],
    steps: &mut S::Count,
) -> Result<Vec<Id>, NoMemory>
    requires { IsSorted (slice_cmp nat_cmp) sorted.now }
    ensures stayed { IfOk result (λ ids. (id : Text) → has_text ids.items id ≡ (stands_again sorted.now id && not (is_changed (S.records before.now) (S.records after.now) id))) }
    ensures looks { S.Count.looks steps.new ≤ S.Count.looks steps.old + number_again sorted.now }
    ensures applies { S.Count.applies steps.new ≡ S.Count.applies steps.old }
{
    let mut stayed = Vec::new(alloc);
    let mut rest = sorted;
    'groups: while let Some((first, later)) = rest.split_first() {
        let (again, others) = later.split_at(same_behind(first, later));
        note_stayed(before, after, first, again, &mut stayed, steps)?;
        rest = others;
    }
    Ok(stayed)
}

/// How many texts behind one are the same; takes no memory.
fn same_behind(first: &Id, later: &[Id]) -> usize
    ensures { result ≡ prefix_len (λ one. bytes_eq one first.now) later.now }
{
    let mut count = 0;
    'later: for id in later {
        if id != first {
            return count;
        }
        count += 1;
    }
    count
}

/// Puts an id to the end of those whose slot stays, where it stands there again and its slot is the same in two maps;
/// takes two looks where it stands there again.
fn note_stayed<S: RecordSource>(
    before: &S,
    after: &S,
    first: &Id,
    again: &[Id],
    stayed: &mut Vec<Id>,
    steps: &mut S::Count,
) -> Result<(), NoMemory>
    ensures stayed { OnOk result (stayed.new.items ≡ stayed.old.items ++ cond (not (length again.now == 0) && not (is_changed (S.records before.now) (S.records after.now) first.now)) (first.now ∷ []) []) }
    ensures looks { S.Count.looks steps.new ≤ S.Count.looks steps.old + cond (length again.now == 0) 0 2 }
    ensures applies { S.Count.applies steps.new ≡ S.Count.applies steps.old }
{
    if again.is_empty() || is_changed(before, after, first.as_str(), steps) {
        return Ok(());
    }
    stayed.push(first.copy()?)?;
    Ok(())
}

/// Whether the slot of an id differs between two maps; takes two looks.
fn is_changed<S: RecordSource>(before: &S, after: &S, id: &str, steps: &mut S::Count) -> bool
    ensures answer { result ≡ is_changed (S.records before.now) (S.records after.now) id.now }
    ensures looks { S.Count.looks steps.new ≤ S.Count.looks steps.old + 2 }
    ensures applies { S.Count.applies steps.new ≡ S.Count.applies steps.old }
{
    let slot_before = before.get(id, steps);
    let slot_after = after.get(id, steps);
    !are_equal(slot_before, slot_after)
}

/// The ids of a list that are not among others, in byte order.
fn others(mut ids: Vec<Id>, but: Vec<Id>) -> Result<Ids, NoMemory>
    ensures { IfOk result (AreSortedOf (filter (λ id. not (has_text but.items id)) ids.items)) }
{
    if but.is_empty() {
        return Ids::sort(ids);
    }
    let but = Ids::sort(but)?;
    ids.retain(|id| !but.contains(id.as_str()));
    Ids::sort(ids)
}
