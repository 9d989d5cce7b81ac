//! Fields of one response key, those with one pattern together: whether a field differs by name or
//! arguments from one that was put before (GraphQL, October 2021, section 5.3.2). Each look goes
//! over all patterns that were put.
ghost use Rattle.std.specs.Prelude.{◌≡◌, [], false, OnOk};
ghost use Rattle.doc_merge.specs.Cells as spec;
ghost use Rattle.doc_merge.specs.CellView.{cell_of, cells_of};
ghost use Rattle.doc_merge.specs.RowView.{mark_of, pattern_of, signature_of};

use crate::pattern::{all_meet, same_pattern};
use crate::row::Row;
use crate::signature::same_signature;
use plan_ir::NoMemory;
use std::alloc::Global;

/// The fields with one pattern: the first of them, and whether another differs from it.
#[derive(Clone, Copy)]
pub(crate) struct Cell<'a, 'p> {
    pub(crate) first: Row<'a, 'p>,
    pub(crate) is_mixed: bool,
}

/// The fields that were put.
#[derive(Drop)]
pub(crate) struct Cells<'a, 'p> {
    pub(crate) cells: Vec<Cell<'a, 'p>>,
}

impl<'a, 'p> Cells<'a, 'p> {
    /// No field; takes no memory.
    pub(crate) fn new(alloc: Global) -> Cells<'a, 'p>
        ensures { cells_of result ≡ [] }
    {
        Cells {
            cells: Vec::new(alloc),
        }
    }

    /// Whether a field differs from one that was put, where the object types around both meet.
    pub(crate) fn has_other(&self, row: &Row<'_, '_>) -> bool
        ensures { result ≡ spec.has_other (cells_of self.now) (mark_of row.now) }
    {
        'cells: for cell in &self.cells {
            if is_other(cell, row) {
                return true;
            }
        }
        false
    }

    /// Puts a field.
    pub(crate) fn put(&mut self, row: &Row<'a, 'p>) -> Result<(), NoMemory>
        ensures { OnOk result (cells_of self.new ≡ spec.put (cells_of self.old) (mark_of row.now)) }
    {
        let mut at = 0;
        'cells: while at < self.cells.len() {
            if same_pattern(self.cells[at].first.pattern, row.pattern) {
                let cell = with_row(&self.cells[at], row);
                self.cells[at] = cell;
                return Ok(());
            }
            at += 1;
        }
        self.cells.push(Cell {
            first: *row,
            is_mixed: false,
        })?;
        Ok(())
    }
}

/// Whether a field of another pattern, or of the same one, meets a cell and differs from one in it.
fn is_other(cell: &Cell<'_, '_>, row: &Row<'_, '_>) -> bool
    ensures { result ≡ spec.is_other (mark_of row.now) (cell_of cell.now) }
{
    if !all_meet(cell.first.pattern, row.pattern) {
        return false;
    }
    if cell.is_mixed {
        return true;
    }
    !same_signature(&cell.first.field, &row.field)
}

/// The cell with a field more.
fn with_row<'a, 'p>(cell: &Cell<'a, 'p>, row: &Row<'_, '_>) -> Cell<'a, 'p>
    ensures { cell_of result ≡ spec.with_mark (cell_of cell.now) (mark_of row.now) }
{
    if cell.is_mixed {
        return *cell;
    }
    Cell {
        first: cell.first,
        is_mixed: !same_signature(&cell.first.field, &row.field),
    }
}
