//! The object types around fields, level by level (GraphQL, October 2021, section 5.3.2).
ghost use Rattle.std.specs.Prelude.{◌≡◌, map, option_copied, IfOk};
ghost use Rattle.doc_merge.specs.Joined as spec;
ghost use Rattle.doc_merge.specs.Merging as merging;
ghost use Rattle.doc_merge.specs.Paths as paths;
ghost use Rattle.plan_ir.specs.schema_tables.Types.{Defs};
ghost use Rattle.doc_merge.specs.RowView.{parent_of, pattern_of, pattern_items, row_of};

use crate::row::Row;
use plan_ir::NoMemory;
use std::alloc::Global;

/// Whether two types are the same, or one is no object type.
fn meet(one: Option<&str>, other: Option<&str>) -> bool
    ensures { result ≡ merging.meet (option_copied one.entry) (option_copied other.entry) }
{
    match one {
        Some(one) => match other {
            Some(other) => one == other,
            None => true,
        },
        None => true,
    }
}

/// Whether the types meet at every level.
pub(crate) fn all_meet(ones: &[Option<&str>], others: &[Option<&str>]) -> bool
    ensures { result ≡ paths.all_meet (map option_copied ones.now) (map option_copied others.now) }
{
    let mut at = 0;
    'levels: while at < ones.len() {
        if at >= others.len() {
            return true;
        }
        let one = &ones[at];
        let other = &others[at];
        if !meet(*one, *other) {
            return false;
        }
        at += 1;
    }
    true
}

/// Whether the same types, or none, stand at every level.
pub(crate) fn same_pattern(ones: &[Option<&str>], others: &[Option<&str>]) -> bool
    ensures { result ≡ spec.same_pattern (map option_copied ones.now) (map option_copied others.now) }
{
    if ones.len() != others.len() {
        return false;
    }
    let mut at = 0;
    'levels: while at < ones.len() {
        let one = &ones[at];
        let other = &others[at];
        if !same_parent(*one, *other) {
            return false;
        }
        at += 1;
    }
    true
}

/// Whether two types are the same, or both are none.
fn same_parent(one: Option<&str>, other: Option<&str>) -> bool
    ensures { result ≡ spec.same_parent (option_copied one.entry) (option_copied other.entry) }
{
    match one {
        Some(one) => match other {
            Some(other) => one == other,
            None => false,
        },
        None => other.is_none(),
    }
}

/// Whether fields of two object types stand among these.
pub(crate) fn has_two_objects(group: &[Row<'_, '_>]) -> bool
    ensures { result ≡ spec.is_parted (map parent_of group.now) }
{
    let first = first_parent(group);
    'rows: for row in group {
        if !meet(first, row.field.parent) {
            return true;
        }
    }
    false
}

/// The object type of the first field that has one.
fn first_parent<'a>(group: &[Row<'a, '_>]) -> Option<&'a str>
    ensures { option_copied result ≡ spec.first_parent (map parent_of group.now) }
{
    'rows: for row in group {
        if row.field.parent.is_some() {
            return row.field.parent;
        }
    }
    None
}

/// The object types around a field, with its own one where fields of two are joined.
fn own_pattern<'a>(
    alloc: Global,
    is_parted: bool,
    row: &Row<'a, '_>,
) -> Result<Vec<Option<&'a str>>, NoMemory>
    ensures { IfOk result (λ ps. map option_copied ps.items ≡ spec.own_pattern is_parted (pattern_of row.now) (parent_of row.now)) }
{
    let mut pattern = Vec::new(alloc);
    if is_parted {
        pattern.push(row.field.parent)?;
        pattern.extend_from_slice(row.pattern)?;
        return Ok(pattern);
    }
    pattern.extend_from_slice(row.pattern)?;
    Ok(pattern)
}

/// The object types around each field.
pub(crate) fn own_patterns<'a>(
    alloc: Global,
    is_parted: bool,
    group: &[Row<'a, '_>],
) -> Result<Vec<Vec<Option<&'a str>>>, NoMemory>
    ensures { IfOk result (λ ps. map pattern_items ps.items ≡ map (λ r. spec.own_pattern is_parted (pattern_of r) (parent_of r)) group.now) }
{
    let mut patterns = Vec::new(alloc);
    'rows: for row in group {
        patterns.push(own_pattern(alloc, is_parted, row)?)?;
    }
    Ok(patterns)
}

/// The field with this pattern.
fn with_pattern<'a, 'p>(pattern: &'p [Option<&'a str>], row: &Row<'a, '_>) -> Row<'a, 'p>
    ensures { (defs : Defs) → row_of defs result ≡ spec.with_pattern (map option_copied pattern.now) (row_of defs row.now) }
{
    Row {
        pattern,
        field: row.field,
    }
}

/// The fields, each with the pattern at its place.
pub(crate) fn with_patterns<'a, 'p>(
    alloc: Global,
    patterns: &'p [Vec<Option<&'a str>>],
    group: &[Row<'a, '_>],
) -> Result<Vec<Row<'a, 'p>>, NoMemory>
    ensures { IfOk result (λ rows. (defs : Defs) → map (row_of defs) rows.items ≡ spec.with_patterns (map pattern_items patterns.now) (map (row_of defs) group.now)) }
{
    let mut rows = Vec::new(alloc);
    let mut at = 0;
    'rows: while at < patterns.len() {
        if at >= group.len() {
            return Ok(rows);
        }
        let row = with_pattern(patterns[at].as_slice(), &group[at]);
        rows.push(row)?;
        at += 1;
    }
    Ok(rows)
}
