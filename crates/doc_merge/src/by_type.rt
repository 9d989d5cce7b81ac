//! Cells of fields under the object types at the innermost level around them.
ghost use Rattle.std.specs.Prelude.{◌≡◌, [], cond, bytes_eq, OnOk};
ghost use Rattle.plan_ir.specs.schema_tables.Types.{Text};
ghost use Rattle.doc_merge.specs.Cells as spec;
ghost use Rattle.doc_merge.specs.CellView.{cells_of, cells_under};
ghost use Rattle.doc_merge.specs.RowView.{mark_of};

use crate::cells::Cells;
use crate::row::Row;
use plan_ir::NoMemory;
use std::alloc::Global;
use std::collections::BTreeMap;

/// The fields that were put, by the object types at the innermost level.
#[derive(Drop)]
pub(crate) struct CellsByType<'a, 'p> {
    pub(crate) by_type: BTreeMap<&'a str, Cells<'a, 'p>>,
}

impl<'a, 'p> CellsByType<'a, 'p> {
    /// No field; takes no memory.
    pub(crate) fn new(alloc: Global) -> CellsByType<'a, 'p>
        ensures { (n : Text) → cells_under result n ≡ [] }
    {
        CellsByType {
            by_type: BTreeMap::new(alloc),
        }
    }

    /// Whether a field differs from one that was put under this type.
    pub(crate) fn has_other(&self, object: &str, row: &Row<'_, '_>) -> bool
        ensures { result ≡ spec.has_other (cells_under self.now object.now) (mark_of row.now) }
    {
        match self.by_type.get(object) {
            Some(cells) => cells.has_other(row),
            None => false,
        }
    }

    /// Puts a field under a type.
    pub(crate) fn put(
        &mut self,
        alloc: Global,
        object: &'a str,
        row: &Row<'a, 'p>,
    ) -> Result<(), NoMemory>
        ensures { OnOk result ((n : Text) → cells_under self.new n ≡ cond (bytes_eq object.now n) (spec.put (cells_under self.old n) (mark_of row.now)) (cells_under self.old n)) }
    {
        let mut cells = self.take(alloc, object);
        cells.put(row)?;
        drop(self.by_type.insert(object, cells)?);
        Ok(())
    }

    /// Takes out the fields of a type; takes no memory.
    fn take(&mut self, alloc: Global, object: &str) -> Cells<'a, 'p>
        ensures taken { cells_of result ≡ cells_under self.old object.now }
        ensures left { (n : Text) → cells_under self.new n ≡ cond (bytes_eq object.now n) [] (cells_under self.old n) }
    {
        match self.by_type.remove(object) {
            Some(cells) => cells,
            None => Cells::new(alloc),
        }
    }
}
