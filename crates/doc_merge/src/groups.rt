//! The fields of a set by their response keys.
ghost use Rattle.std.specs.Prelude.{◌≡◌, ◌++◌, [], ◌∷◌, List, cond, bytes_eq, IfOk, OnOk};
ghost use Rattle.std.specs.List.{filter};
ghost use Rattle.plan_ir.specs.schema_tables.Types.{Text};
ghost use Rattle.doc_merge.specs.GroupView.{Gathers, has_key};
ghost use Rattle.doc_merge.specs.declared.row.Row as declared;

use crate::row::Row;
use plan_ir::NoMemory;
use std::alloc::Global;
use std::collections::BTreeMap;

/// The fields of a set by their response keys, those of one key in their order.
#[derive(Drop)]
pub(crate) struct Groups<'a, 'p> {
    pub(crate) by_key: BTreeMap<&'a str, Vec<Row<'a, 'p>>>,
}

impl<'a, 'p> Groups<'a, 'p> {
    /// The fields of a set.
    pub(crate) fn of(alloc: Global, rows: &[Row<'a, 'p>]) -> Result<Groups<'a, 'p>, NoMemory>
        ensures { IfOk result (λ groups. Gathers groups (λ n. filter (has_key n) rows.now)) }
    {
        let mut groups = Groups::new(alloc);
        'rows: for row in rows {
            groups.put(alloc, row)?;
        }
        Ok(groups)
    }

    /// No field; takes no memory.
    fn new(alloc: Global) -> Groups<'a, 'p>
        ensures { Gathers result (λ n. []) }
    {
        Groups {
            by_key: BTreeMap::new(alloc),
        }
    }

    /// Puts a field behind those of its key.
    fn put(&mut self, alloc: Global, row: &Row<'a, 'p>) -> Result<(), NoMemory>
        ensures { (tells : Text → List declared.Row) → Gathers self.old tells
            → OnOk result (Gathers self.new (λ n. tells n ++ cond (has_key n row.now) (row.now ∷ []) [])) }
    {
        let key = row.field.key;
        let mut rows = self.take(alloc, key);
        rows.push(*row)?;
        drop(self.by_key.insert(key, rows)?);
        Ok(())
    }

    /// Takes out the fields of a key; takes no memory.
    pub(crate) fn take(&mut self, alloc: Global, key: &str) -> Vec<Row<'a, 'p>>
        ensures taken { (tells : Text → List declared.Row) → Gathers self.old tells → result.items ≡ tells key.now }
        ensures left { (tells : Text → List declared.Row) → Gathers self.old tells
            → Gathers self.new (λ n. cond (bytes_eq key.now n) [] (tells n)) }
    {
        match self.by_key.remove(key) {
            Some(rows) => rows,
            None => Vec::new(alloc),
        }
    }
}
