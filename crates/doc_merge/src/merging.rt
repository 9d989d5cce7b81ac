//! V24, field selections can merge (GraphQL, October 2021, section 5.3.2): two fields of one response
//! key have one shape, and where they may be of one object one name and the same arguments.
//! `{ me { x: name x: age } }` breaks it at the second `x`.
//!
//! Fields of one response key are judged together, and then the one set that all their
//! sub-selections make. So each field is in one joined set.
ghost use Rattle.std.specs.Prelude.{◌≡◌, map, IfOk, OnOk};
ghost use Rattle.plan_ir.specs.schema_tables.Types.{Text};
ghost use Rattle.doc_merge.specs.Gathering.{fields_in};
ghost use Rattle.doc_merge.specs.Joined as joined;
ghost use Rattle.doc_merge.specs.Merging.{differences};
ghost use Rattle.doc_merge.specs.Paths.{places_of};
ghost use Rattle.doc_merge.specs.Places.{least, least_from};
ghost use Rattle.doc_merge.specs.RowView.{row_of};

use crate::groups::Groups;
use crate::least::Least;
use crate::others::note_signatures;
use crate::pattern::{has_two_objects, own_patterns, with_patterns};
use crate::row::{Row, put_fields};
use crate::shape::note_shapes;
use plan_ir::type_forms::base_of;
use plan_ir::{Expanded, FilePlace, NoMemory, Schema};
use std::alloc::Global;

/// The least place where the fields of an expanded operation or fragment differ.
pub(crate) fn least_difference(
    alloc: Global,
    schema: &Schema,
    expanded: &Expanded,
) -> Result<Option<FilePlace>, NoMemory>
    ensures { IfOk result (λ found. found ≡ least (differences (fields_in schema.now expanded.now))) }
{
    let mut rows = Vec::new(alloc);
    let around = expanded.root.as_str();
    put_fields(schema, &mut rows, &[], around, &expanded.selections)?;
    let mut least = Least::new();
    note_set(alloc, schema, &mut least, &rows)?;
    Ok(least.at)
}

/// Notes what differs in a joined set, and in all sets below it.
#[cycle(merge)]
fn note_set(
    alloc: Global,
    schema: &Schema,
    least: &mut Least,
    rows: &[Row<'_, '_>],
) -> Result<(), NoMemory>
    ensures { OnOk result (least.new.at ≡ least_from least.old.at (places_of (map (row_of schema.now) rows.now))) }
{
    let mut groups = Groups::of(alloc, rows)?;
    'rows: for row in rows {
        let group = groups.take(alloc, row.field.key);
        note_group(alloc, schema, least, &group)?;
    }
    Ok(())
}

/// Notes what differs among fields of one response key, and in all sets below them.
#[cycle(merge)]
fn note_group(
    alloc: Global,
    schema: &Schema,
    least: &mut Least,
    group: &[Row<'_, '_>],
) -> Result<(), NoMemory>
    ensures { (k : Text) → joined.every (joined.has_key k) (map (row_of schema.now) group.now)
        → OnOk result (least.new.at ≡ least_from least.old.at (places_of (map (row_of schema.now) group.now))) }
{
    note_shapes(schema, least, group);
    let is_parted = has_two_objects(group);
    let patterns = own_patterns(alloc, is_parted, group)?;
    let own = with_patterns(alloc, &patterns, group)?;
    note_signatures(alloc, least, &own)?;
    let inner = inner_rows(alloc, schema, &own)?;
    if inner.is_empty() {
        return Ok(());
    }
    note_set(alloc, schema, least, &inner)?;
    Ok(())
}

/// The one set that the sub-selections of all these fields make.
fn inner_rows<'a, 'p>(
    alloc: Global,
    schema: &Schema,
    rows: &[Row<'a, 'p>],
) -> Result<Vec<Row<'a, 'p>>, NoMemory>
    ensures { IfOk result (λ inner. map (row_of schema.now) inner.items ≡ joined.inner_rows (map (row_of schema.now) rows.now)) }
{
    let mut inner = Vec::new(alloc);
    'rows: for row in rows {
        let around = base_of(row.field.of);
        put_fields(
            schema,
            &mut inner,
            row.pattern,
            around,
            row.field.selections,
        )?;
    }
    Ok(inner)
}
