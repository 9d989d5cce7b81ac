//! Fields of one response key that differ by name or arguments from an earlier one, where the object
//! types around both meet (GraphQL, October 2021, section 5.3.2).
//!
//! Cells are kept one level further out, under the object types at the innermost level. So where one
//! level has object types, each look is at two cells. Where several have, it is at all cells of the
//! levels further out.
ghost use Rattle.std.specs.Prelude.{◌≡◌, ◌||◌, false, map, option_copied, OnOk};
ghost use Rattle.doc_merge.specs.Cells as spec;
ghost use Rattle.doc_merge.specs.CellView.{has_other_in, has_other_on};
ghost use Rattle.doc_merge.specs.RowView.{mark_of, pattern_of};
ghost use Rattle.doc_merge.specs.Places.{least_from};

use crate::by_type::CellsByType;
use crate::cells::Cells;
use crate::least::Least;
use crate::row::Row;
use crate::signature::same_signature;
use plan_ir::NoMemory;
use std::alloc::Global;

/// The fields that were put.
#[derive(Drop)]
pub(crate) struct Others<'a, 'p> {
    /// All fields, without their patterns.
    pub(crate) whole: Cells<'a, 'p>,
    /// All fields, one level further out.
    pub(crate) all: Cells<'a, 'p>,
    /// Those without an object type at the innermost level, one level further out.
    pub(crate) without: Cells<'a, 'p>,
    /// Those with one, under it, one level further out.
    pub(crate) by_type: CellsByType<'a, 'p>,
}

impl<'a, 'p> Others<'a, 'p> {
    /// No field; takes no memory.
    fn new(alloc: Global) -> Others<'a, 'p>
        ensures { (m : spec.Mark) → has_other_in result m ≡ false }
    {
        Others {
            whole: Cells::new(alloc),
            all: Cells::new(alloc),
            without: Cells::new(alloc),
            by_type: CellsByType::new(alloc),
        }
    }

    /// Whether a field differs from one that was put, where the object types around both meet.
    fn has_other(&self, row: &Row<'_, '_>) -> bool
        ensures { result ≡ has_other_in self.now (mark_of row.now) }
    {
        if !has_object(row.pattern) {
            return self.whole.has_other(&all_out(row));
        }
        self.has_other_on(innermost(row), &one_out(row))
    }

    /// Whether a field with this at the innermost level differs from one that was put.
    fn has_other_on(&self, parent: Option<&str>, row: &Row<'_, '_>) -> bool
        ensures { result ≡ has_other_on self.now (option_copied parent.entry) (mark_of row.now) }
    {
        match parent {
            Some(object) => {
                if self.by_type.has_other(object, row) {
                    return true;
                }
                self.without.has_other(row)
            }
            None => self.all.has_other(row),
        }
    }

    /// Puts a field.
    fn put(&mut self, alloc: Global, row: &Row<'a, 'p>) -> Result<(), NoMemory>
        ensures { OnOk result ((m : spec.Mark) → has_other_in self.new m ≡ (has_other_in self.old m || spec.differs (mark_of row.now) m)) }
    {
        let whole = all_out(row);
        let around = one_out(row);
        self.whole.put(&whole)?;
        self.all.put(&around)?;
        match innermost(row) {
            Some(object) => {
                self.by_type.put(alloc, object, &around)?;
                Ok(())
            }
            None => {
                self.without.put(&around)?;
                Ok(())
            }
        }
    }
}

/// Whether an object type stands at some level.
fn has_object(pattern: &[Option<&str>]) -> bool
    ensures { result ≡ spec.has_object (map option_copied pattern.now) }
{
    'levels: for parent in pattern {
        if parent.is_some() {
            return true;
        }
    }
    false
}

/// The object type at the innermost level.
fn innermost<'a>(row: &Row<'a, '_>) -> Option<&'a str>
    ensures { option_copied result ≡ spec.innermost (pattern_of row.now) }
{
    match row.pattern.first() {
        Some(parent) => *parent,
        None => None,
    }
}

/// The field without the innermost level.
fn one_out<'a, 'p>(row: &Row<'a, 'p>) -> Row<'a, 'p>
    ensures { mark_of result ≡ spec.one_out (mark_of row.now) }
{
    if row.pattern.is_empty() {
        return *row;
    }
    Row {
        pattern: &row.pattern[1..],
        field: row.field,
    }
}

/// The field without any level.
fn all_out<'a, 'p>(row: &Row<'a, 'p>) -> Row<'a, 'p>
    ensures { mark_of result ≡ spec.all_out (mark_of row.now) }
{
    Row {
        pattern: &row.pattern[..0],
        field: row.field,
    }
}

/// Notes the fields that differ by name or arguments from an earlier one, where the object types
/// around both meet.
pub(crate) fn note_signatures(
    alloc: Global,
    least: &mut Least,
    rows: &[Row<'_, '_>],
) -> Result<(), NoMemory>
    ensures { OnOk result (least.new.at ≡ least_from least.old.at (spec.others spec.none_seen (map mark_of rows.now))) }
{
    if have_one_signature(rows) {
        return Ok(());
    }
    note_others(alloc, least, rows)
}

/// Notes the fields that differ from an earlier one, one after the other.
fn note_others(alloc: Global, least: &mut Least, rows: &[Row<'_, '_>]) -> Result<(), NoMemory>
    ensures { OnOk result (least.new.at ≡ least_from least.old.at (spec.others spec.none_seen (map mark_of rows.now))) }
{
    let mut others = Others::new(alloc);
    'rows: for row in rows {
        let is_wrong = others.has_other(row);
        least.note_if(is_wrong, row.field.place);
        others.put(alloc, row)?;
    }
    Ok(())
}

/// Whether all fields have the name and the arguments of the first one.
fn have_one_signature(rows: &[Row<'_, '_>]) -> bool
    ensures { result ≡ spec.have_one (map mark_of rows.now) }
{
    match rows.first() {
        Some(first) => are_like(first, rows),
        None => true,
    }
}

/// Whether all fields have the name and the arguments of this one.
fn are_like(first: &Row<'_, '_>, rows: &[Row<'_, '_>]) -> bool
    ensures { result ≡ spec.are_like (mark_of first.now) (map mark_of rows.now) }
{
    'rows: for row in rows {
        if !same_signature(&first.field, &row.field) {
            return false;
        }
    }
    true
}
