//! Edges that are made, and the record of their connection.
ghost use Rattle.std.specs.Prelude.{◌≡◌, ◌+◌, ◌-◌, ◌^◌, ◌≤◌, ◌∷◌, ◌++◌, List, length, IfOk, OnOk, pos, codes};
ghost use Rattle.store_model.specs.gql_plain.declared.plain.Plain.TheVariants.{Int};
ghost use Rattle.store_model.specs.store_record.declared.field.Field.TheVariants.{Leaf};
ghost use Rattle.store_model.specs.store_record.declared.record.Record.{Record as RowOf};
ghost use Rattle.store_model.specs.Merge as merge;
ghost use Rattle.store_model.specs.Records.{Records, with_field};
ghost use Rattle.store_conn.specs.Changes.{edge_ids_of, put_all};
ghost use Rattle.store_conn.specs.Connections as spec;

use crate::changes::{Change, push_all};
use crate::connection::{Connection, copied_over, next_edge, put_field};
use std::alloc::Global;
use store_model::gql_plain::{NoMemory, OptIds, Plain, Words};
use store_model::store_record::{Field, Record, Shared, client_id};

/// Edges that are made, each with an id of its own, and the number of the edge that is made next.
#[derive(Drop)]
pub(crate) struct Made {
    pub edges: Vec<Change>,
    pub next: u64,
}

/// Makes edges of a connection, each with the record of an edge of the server, which it shares.
pub(crate) fn make_edges(
    alloc: Global,
    connection: &Connection,
    rows: &[Shared],
) -> Result<Made, NoMemory>
    ensures { IfOk result (spec.IsMade (spec.kept_of connection.now) rows.now) }
{
    let key = Words::new(alloc, "edges")?;
    let mut edges = Vec::new(alloc);
    let mut next = connection.next;
    'rows: for row in rows {
        let id = client_id(alloc, &connection.id, &key, Some(next))?;
        let row = row.copy()?;
        edges.push(Change { id, row })?;
        next = next_edge(next);
    }
    Ok(Made { edges, next })
}

/// Edges that are made, and the list of edges with them.
#[derive(Drop)]
pub(crate) struct Page {
    pub made: Made,
    pub list: OptIds,
}

/// Puts the ids of edges that were made to the end of a list.
pub(crate) fn push_made(list: &mut OptIds, edges: &[Change]) -> Result<(), NoMemory>
    ensures { OnOk result (list.new ≡ list.old ++ edge_ids_of edges.now) }
{
    'edges: for edge in edges {
        let id = edge.id.copy()?;
        list.push(Some(id))?;
    }
    Ok(())
}

/// The record of a connection with what the server's has, a list of edges, and the counter after those
/// that were made.
pub(crate) fn with_list(
    alloc: Global,
    server: &Record,
    connection: &Connection,
    made: &Made,
    list: OptIds,
) -> Result<Record, NoMemory>
    ensures { (new : List RowOf) → spec.IsMade (spec.kept_of connection.now) new made.now
        → IfOk result (λ row. row ≡ spec.with_list server.now (spec.kept_of connection.now) new list) }
{
    let mut row = copied_over(server.fields.as_slice(), connection.row.get())?;
    put_field(alloc, &mut row, "edges", Field::Links(list))?;
    let counted = with_counter(alloc, row, made)?;
    Ok(counted)
}

/// The record with the counter of edges, which is written only where an edge was made.
fn with_counter(alloc: Global, row: Record, made: &Made) -> Result<Record, NoMemory>
    ensures { (first : merge.Kept) → (new : List RowOf) → spec.IsMade first new made.now
        → IfOk result (λ counted. counted ≡ merge.with_counter first.next new row) }
{
    let mut row = row;
    if made.edges.is_empty() {
        return Ok(row);
    }
    put_counter(alloc, &mut row, made.next)?;
    Ok(row)
}

/// Puts the counter of edges into a record.
pub(crate) fn put_counter(alloc: Global, row: &mut Record, next: u64) -> Result<(), NoMemory>
    ensures { next ≤ 2 ^ 63 - 1 → OnOk result (row.new ≡ with_field (codes "__next") (Leaf (Int (pos next))) row.old) }
{
    let number = i64::try_from(next).unwrap_or(i64::MAX);
    put_field(alloc, row, "__next", Field::Leaf(Plain::Int(number)))?;
    Ok(())
}

/// Puts a connection with what the server's has and the list of a page, and the edges of the page, to
/// the end of changes.
pub(crate) fn push_page(
    changes: &mut Vec<Change>,
    server: &Record,
    connection: &Connection,
    page: Page,
) -> Result<(), NoMemory>
    ensures records { (new : List RowOf) → (onto : Records) → spec.IsMade (spec.kept_of connection.now) new page.made → OnOk result
        (put_all changes.new.items onto
        ≡ spec.put_connection (spec.kept_of connection.now) (spec.with_list server.now (spec.kept_of connection.now) new page.list) new (put_all changes.old.items onto)) }
    ensures few { OnOk result (length changes.new.items ≡ length changes.old.items + (1 + length page.made.edges.items)) }
{
    let Page { made, list } = page;
    let alloc = *changes.allocator();
    let row = with_list(alloc, server, connection, &made, list)?;
    push_connection(changes, connection, row, made)?;
    Ok(())
}

/// Puts a connection with its new record and the edges that were made to the end of changes.
pub(crate) fn push_connection(
    changes: &mut Vec<Change>,
    connection: &Connection,
    row: Record,
    made: Made,
) -> Result<(), NoMemory>
    ensures { OnOk result (changes.new.items ≡ changes.old.items ++ record { id = connection.now.id; row = row } ∷ made.edges.items) }
{
    let alloc = *changes.allocator();
    let id = connection.id.copy()?;
    let change = Change::new(alloc, id, row)?;
    changes.push(change)?;
    push_all(changes, made.edges)?;
    Ok(())
}
