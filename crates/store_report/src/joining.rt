//! Rows of objects, joined to one for each id.
ghost use Rattle.std.specs.Prelude.{◌≡◌, true, ◌++◌, ◌∷◌, [], map, Some, IfErr, IfOk, OnOk};
ghost use Rattle.std.specs.List.{AllByRecursion};
ghost use Rattle.std.specs.List.Sorted.{IsPermutation, IsSorted, IsStrictlySortedBy};
ghost use Rattle.store_model.specs.FactOrder.{text_cmp};
ghost use Rattle.store_model.specs.FactRows.{AreFactRows, HaveFieldsInOrder, facts_of, facts_of_row};
ghost use Rattle.store_report.specs.Joining.{IsApart, IsBegunApart, IsBegunAt, IsBegunBelow, begun_facts, row_eq, row_id};
ghost use Rattle.store_report.specs.ObjectRows.{HoldSame, IsUnjoined, IsWhole};

use crate::object_row::BegunRow;
use crate::row_fields::{Ordered, by_key};
use crate::untaken::Untaken;
use gql_order::by_heads;
use gql_order::gql_plain::NoMemory;
use std::alloc::Global;
use std::mem;
use store_model::FactRow;
use store_model::store_record::{Fields, SharedField};

/// The rows in order of their ids, one for each id. Err: an id has two types, or a field of it two values.
/// Rows that are in order are left as they stand, and take no memory.
pub(crate) fn joined(alloc: Global, rows: Vec<FactRow>) -> Result<Vec<FactRow>, Untaken>
    requires { AllByRecursion IsWhole rows.items }
    ensures rows { IfOk result (λ whole. AreFactRows whole.items) }
    ensures fields { IfOk result (λ whole. HaveFieldsInOrder whole.items) }
    ensures same { IfOk result (λ whole. HoldSame (facts_of whole.items) (facts_of rows.items)) }
    ensures clash { IfErr result (IsUnjoined (facts_of rows.items)) }
{
    if do_rise(&rows) {
        return Ok(rows);
    }
    let sorted = once_in_order(rows)?;
    if do_rise(&sorted) {
        return Ok(sorted);
    }
    merged(alloc, sorted)
}

/// Whether the id of each row stands after that of the one before it; takes no memory.
fn do_rise(rows: &[FactRow]) -> bool
    ensures { result ≡ true → IsStrictlySortedBy (λ a b. text_cmp a.id b.id) rows.now }
{
    rows.is_sorted_by(|one, other| one.id.cmp(&other.id).is_lt())
}

/// Whether two rows have one id, one type and equal fields; takes no memory.
fn is_same(one: &FactRow, other: &FactRow) -> bool
    ensures { result ≡ row_eq one.now other.now }
{
    one.id == other.id && one.type_name == other.type_name && one.fields == other.fields
}

/// The rows in order of their ids, equal ones once. Those that stand side by side become one before any is
/// put in order, and again then.
fn once_in_order(rows: Vec<FactRow>) -> Result<Vec<FactRow>, NoMemory>
    ensures same { IfOk result (λ moved. HoldSame moved.items rows.items) }
    ensures order { IfOk result (λ moved. IsSorted (λ a b. text_cmp a.id b.id) moved.items) }
{
    let few = once(rows);
    let moved = in_order(few)?;
    Ok(once(moved))
}

/// The rows, of equal ones that stand side by side the first; takes no memory.
fn once(mut rows: Vec<FactRow>) -> Vec<FactRow>
    ensures same { HoldSame result.items rows.items }
    ensures order { IsSorted (λ a b. text_cmp a.id b.id) rows.items → IsSorted (λ a b. text_cmp a.id b.id) result.items }
{
    rows.dedup_by(|next, kept| is_same(next, kept));
    rows
}

/// The rows in order of their ids. The last sort puts right what the order of heads leaves, which is mostly
/// nothing.
fn in_order(rows: Vec<FactRow>) -> Result<Vec<FactRow>, NoMemory>
    ensures same { IfOk result (λ moved. IsPermutation rows.items moved.items) }
    ensures order { IfOk result (λ moved. IsSorted (λ a b. text_cmp a.id b.id) moved.items) }
{
    let mut rows = by_heads(rows, |row| row.id.as_str())?;
    rows.sort_by(|one, other| one.id.cmp(&other.id))?;
    Ok(rows)
}

/// The rows, which are in order of their ids, with those of one id as one. Err: an id has two types, or a
/// field of it two values.
fn merged(alloc: Global, rows: Vec<FactRow>) -> Result<Vec<FactRow>, Untaken>
    requires whole { AllByRecursion IsWhole rows.items }
    requires order { IsSorted (λ a b. text_cmp a.id b.id) rows.items }
    ensures rows { IfOk result (λ whole. AreFactRows whole.items) }
    ensures fields { IfOk result (λ whole. HaveFieldsInOrder whole.items) }
    ensures same { IfOk result (λ whole. HoldSame (facts_of whole.items) (facts_of rows.items)) }
    ensures clash { IfErr result (IsUnjoined (facts_of rows.items)) }
{
    let mut whole = Vec::new(alloc);
    let mut begun: Option<BegunRow> = None;
    'rows: for row in rows {
        take(alloc, &mut whole, &mut begun, row)?;
    }
    match begun {
        Some(row) => {
            close(&mut whole, row)?;
            Ok(whole)
        }
        None => Ok(whole),
    }
}

/// Puts a row to the one that is begun, or begins one with it, where it is of another id. Err: the row that
/// is begun is of another type, or a field of it has two values.
fn take(
    alloc: Global,
    whole: &mut Vec<FactRow>,
    begun: &mut Option<BegunRow>,
    row: FactRow,
) -> Result<(), Untaken>
    requires rows { AllByRecursion IsWhole whole.old.items }
    requires row { IsWhole row }
    requires apart { IsBegunApart begun.old }
    requires order { IsBegunBelow whole.old.items begun.old row.id }
    ensures rows { OnOk result (AllByRecursion IsWhole whole.new.items) }
    ensures apart { OnOk result (IsBegunApart begun.new) }
    ensures order { OnOk result (IsBegunAt whole.new.items begun.new row.id) }
    ensures facts { OnOk result (HoldSame (facts_of whole.new.items ++ begun_facts begun.new) ((facts_of whole.old.items ++ begun_facts begun.old) ++ facts_of_row row)) }
    ensures clash { IfErr result (IsUnjoined ((facts_of whole.old.items ++ begun_facts begun.old) ++ facts_of_row row)) }
{
    match begun {
        Some(before) => {
            if before.id == row.id {
                put(before, row)?;
                return Ok(());
            }
            let next = begin(alloc, row)?;
            let done = mem::replace(before, next);
            close(whole, done)?;
            Ok(())
        }
        None => {
            let first = begin(alloc, row)?;
            *begun = Some(first);
            Ok(())
        }
    }
}

/// Begins a row with another one.
fn begin(alloc: Global, row: FactRow) -> Result<BegunRow, NoMemory>
    requires { IsWhole row }
    ensures id { IfOk result (λ begun. begun.id ≡ row.id) }
    ensures apart { IfOk result IsApart }
    ensures facts { IfOk result (λ begun. HoldSame (begun_facts (Some begun)) (facts_of_row row)) }
{
    let FactRow {
        id,
        type_name,
        fields,
    } = row;
    let own = copies(alloc, &fields)?;
    Ok(BegunRow {
        id,
        type_name,
        fields: own,
    })
}

/// Puts the fields of a row to one of the same id. Err: it is of another type.
fn put(before: &mut BegunRow, row: FactRow) -> Result<(), Untaken>
    requires id { before.old.id ≡ row.id }
    requires row { IsWhole row }
    requires apart { IsApart before.old }
    ensures id { OnOk result (before.new.id ≡ before.old.id) }
    ensures apart { OnOk result (IsApart before.new) }
    ensures facts { OnOk result (HoldSame (begun_facts (Some before.new)) (begun_facts (Some before.old) ++ facts_of_row row)) }
    ensures clash { IfErr result (IsUnjoined (begun_facts (Some before.old) ++ facts_of_row row)) }
{
    if before.type_name != row.type_name {
        return Err(Untaken::Clash);
    }
    put_copies(&mut before.fields, row.fields.as_slice())?;
    Ok(())
}

/// Puts fields behind others, each with one more owner.
fn put_copies(fields: &mut Vec<SharedField>, more: &[SharedField]) -> Result<(), NoMemory>
    ensures { OnOk result (fields.new.items ≡ fields.old.items ++ more.now) }
{
    'more: for field in more {
        fields.push(field.copy()?)?;
    }
    Ok(())
}

/// Puts a row that is done behind others. Err: a field of it has two values.
fn close(whole: &mut Vec<FactRow>, row: BegunRow) -> Result<(), Untaken>
    requires rows { AllByRecursion IsWhole whole.old.items }
    requires apart { IsApart row }
    ensures rows { OnOk result (AllByRecursion IsWhole whole.new.items) }
    ensures ids { OnOk result (map row_id whole.new.items ≡ map row_id whole.old.items ++ row.id ∷ []) }
    ensures facts { OnOk result (HoldSame (facts_of whole.new.items) (facts_of whole.old.items ++ begun_facts (Some row))) }
    ensures clash { IfErr result (IsUnjoined (begun_facts (Some row))) }
{
    let BegunRow {
        id,
        type_name,
        fields,
    } = row;
    match by_key(fields)? {
        Ordered::Whole(fields) => {
            whole.push(FactRow {
                id,
                type_name,
                fields,
            })?;
            Ok(())
        }
        Ordered::Torn(_) => Err(Untaken::Clash),
    }
}

/// The fields, each with one more owner.
fn copies(alloc: Global, fields: &Fields) -> Result<Vec<SharedField>, NoMemory>
    ensures { IfOk result (λ copies. copies.items ≡ fields.now) }
{
    let mut copies = Vec::with_capacity(alloc, fields.len())?;
    put_copies(&mut copies, fields.as_slice())?;
    Ok(copies)
}
