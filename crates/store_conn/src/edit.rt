//! Edges that are put into a connection, or taken out of it.
ghost use Rattle.std.specs.Prelude.{◌≡◌, ◌+◌, ◌*◌, ◌≤◌, ◌∷◌, [], codes, length, option_map, option_and_then, Some, IfOk};
ghost use Rattle.std.specs.Option.{option_copied};
ghost use Rattle.store_model.specs.store_record.Keys as keys;
ghost use Rattle.store_model.specs.Entries as entries;
ghost use Rattle.store_model.specs.Merge as merge;
ghost use Rattle.store_model.specs.Records.{with_field};
ghost use Rattle.store_model.specs.Updates as updates;
ghost use Rattle.store_conn.specs.Changes as changes_spec;
ghost use Rattle.store_conn.specs.Connections.{kept_of};
ghost use Rattle.store_conn.specs.Edits as spec;
ghost use Rattle.store_conn.specs.Lists.{edges_in, ids_in};

use crate::changes::{Change, put_all};
use crate::connection::{Connection, connection_below, next_edge, put_field};
use crate::edges::{any_has_node, edges_without, push_edges};
use crate::look::{edges_of, live};
use crate::made::put_counter;
use std::alloc::Global;
use store_model::EdgeEdit;
use store_model::gql_plain::{Id, NoMemory, OptIds, Words};
use store_model::store_record::{Field, Record, Shared, client_id, field_key};
use store_source::RecordSource;

/// Puts an edge first or last into the connection that an edit names, unless some edge there has its
/// node. The map stays as it is. Each edge of the list is looked at once.
pub fn insert_edge<S: RecordSource>(
    source: &S,
    edit: &EdgeEdit,
    front: bool,
    steps: &mut S::Count,
) -> Result<S, NoMemory>
    ensures records { IfOk result (λ m. S.records m ≡ updates.insert_edge front edit.now (S.records source.now)) }
    ensures looks { S.Count.looks steps.new ≤ S.Count.looks steps.old + 8 * (1 + entries.number_asked (entries.asked_by_edit edit.now (S.records source.now))) }
    ensures applies { S.Count.applies steps.new ≡ S.Count.applies steps.old }
{
    let changes = changes_of_insertion(source, edit, front, steps)?;
    let version = source.version()?;
    put_all(version, changes, steps)
}

/// Takes every edge of a node out of the connection that an edit names. The edges stay as records,
/// and the map stays as it is. Each edge of the list is looked at once.
pub fn delete_edge<S: RecordSource>(
    source: &S,
    edit: &EdgeEdit,
    steps: &mut S::Count,
) -> Result<S, NoMemory>
    ensures records { IfOk result (λ m. S.records m ≡ updates.delete_edge edit.now (S.records source.now)) }
    ensures looks { S.Count.looks steps.new ≤ S.Count.looks steps.old + 8 * (1 + entries.number_asked (entries.asked_by_edit edit.now (S.records source.now))) }
    ensures applies { S.Count.applies steps.new ≡ S.Count.applies steps.old }
{
    let changes = changes_of_deletion(source, edit, steps)?;
    let version = source.version()?;
    put_all(version, changes, steps)
}

/// The records that `insert_edge` puts, in the order in which they are put.
pub fn changes_of_insertion<S: RecordSource>(
    source: &S,
    edit: &EdgeEdit,
    front: bool,
    steps: &mut S::Count,
) -> Result<Vec<Change>, NoMemory>
    ensures records { IfOk result (λ changes. changes_spec.put_all changes.items (S.records source.now) ≡ updates.insert_edge front edit.now (S.records source.now)) }
    ensures few { IfOk result (λ changes. length changes.items ≤ 2) }
    ensures looks { S.Count.looks steps.new ≤ S.Count.looks steps.old + (2 + length (entries.asked_by_edit edit.now (S.records source.now)).edges) }
    ensures applies { S.Count.applies steps.new ≡ S.Count.applies steps.old }
{
    let alloc = *edit.filters.entries.allocator();
    let found = connection_of(alloc, source, edit, steps)?;
    let changes = inserted(alloc, source, edit, front, &found, steps)?;
    Ok(changes)
}

/// The records that `delete_edge` puts.
pub fn changes_of_deletion<S: RecordSource>(
    source: &S,
    edit: &EdgeEdit,
    steps: &mut S::Count,
) -> Result<Vec<Change>, NoMemory>
    ensures records { IfOk result (λ changes. changes_spec.put_all changes.items (S.records source.now) ≡ updates.delete_edge edit.now (S.records source.now)) }
    ensures few { IfOk result (λ changes. length changes.items ≤ 1) }
    ensures looks { S.Count.looks steps.new ≤ S.Count.looks steps.old + (2 + length (entries.asked_by_edit edit.now (S.records source.now)).edges) }
    ensures applies { S.Count.applies steps.new ≡ S.Count.applies steps.old }
{
    let alloc = *edit.filters.entries.allocator();
    let found = connection_of(alloc, source, edit, steps)?;
    let changes = deleted(alloc, source, edit, &found, steps)?;
    Ok(changes)
}

/// The live connection that an edit names; takes at most two looks.
fn connection_of<S: RecordSource>(
    alloc: Global,
    source: &S,
    edit: &EdgeEdit,
    steps: &mut S::Count,
) -> Result<Option<Connection>, NoMemory>
    ensures found { IfOk result (λ found. option_map kept_of found ≡ option_map merge.kept_connection (updates.connection_of edit.now (S.records source.now))) }
    ensures looks { S.Count.looks steps.new ≤ S.Count.looks steps.old + 2 }
    ensures applies { S.Count.applies steps.new ≡ S.Count.applies steps.old }
{
    let parent = live(source, edit.id.as_str(), steps);
    let key = connection_key(alloc, edit)?;
    let found = connection_under(source, parent, key.as_str(), steps)?;
    Ok(found)
}

/// The live connection to which a record links under a key, where the record is live; takes at most
/// one look.
fn connection_under<S: RecordSource>(
    source: &S,
    parent: Option<&Shared>,
    key: &str,
    steps: &mut S::Count,
) -> Result<Option<Connection>, NoMemory>
    ensures found { IfOk result (λ found. option_map kept_of found
        ≡ option_map merge.kept_connection (option_and_then (λ row. merge.below key.now row (S.records source.now)) (option_copied parent.entry))) }
    ensures looks { S.Count.looks steps.new ≤ S.Count.looks steps.old + 1 }
    ensures applies { S.Count.applies steps.new ≡ S.Count.applies steps.old }
{
    match parent {
        Some(parent) => connection_below(source, parent.get(), key, steps),
        None => Ok(None),
    }
}

/// The key under which the parent of an edit links to the connection.
fn connection_key(alloc: Global, edit: &EdgeEdit) -> Result<Words, NoMemory>
    ensures { IfOk result (λ key. key ≡ keys.field_key (keys.handle_name edit.now.key) edit.now.filters) }
{
    let name = format!(in alloc; "__{}_connection", edit.key.as_str())?;
    field_key(alloc, &Words::from_string(name), &edit.filters)
}

/// What an insertion puts, by the connection: nothing, where there is none.
fn inserted<S: RecordSource>(
    alloc: Global,
    source: &S,
    edit: &EdgeEdit,
    front: bool,
    found: &Option<Connection>,
    steps: &mut S::Count,
) -> Result<Vec<Change>, NoMemory>
    ensures records { IfOk result (λ changes. changes_spec.put_all changes.items (S.records source.now) ≡ spec.kept_inserted front edit.now (option_map kept_of found.now) (S.records source.now)) }
    ensures few { IfOk result (λ changes. length changes.items ≤ 2) }
    ensures looks { S.Count.looks steps.new ≤ S.Count.looks steps.old + spec.kept_asked (option_map kept_of found.now) }
    ensures applies { S.Count.applies steps.new ≡ S.Count.applies steps.old }
{
    match found {
        Some(connection) => inserted_into(alloc, source, edit, front, connection, steps),
        None => Ok(Vec::new(alloc)),
    }
}

/// What an insertion puts into a connection: nothing, where some edge has the node.
fn inserted_into<S: RecordSource>(
    alloc: Global,
    source: &S,
    edit: &EdgeEdit,
    front: bool,
    connection: &Connection,
    steps: &mut S::Count,
) -> Result<Vec<Change>, NoMemory>
    ensures records { IfOk result (λ changes. changes_spec.put_all changes.items (S.records source.now) ≡ spec.kept_inserted front edit.now (Some (kept_of connection.now)) (S.records source.now)) }
    ensures few { IfOk result (λ changes. length changes.items ≤ 2) }
    ensures looks { S.Count.looks steps.new ≤ S.Count.looks steps.old + edges_in connection.now.row }
    ensures applies { S.Count.applies steps.new ≡ S.Count.applies steps.old }
{
    if any_has_node(source, edges_of(connection.row.get()), &edit.node, steps) {
        return Ok(Vec::new(alloc));
    }
    let changes = with_new_edge(alloc, edit, front, connection)?;
    Ok(changes)
}

/// A connection with a new edge, and that edge.
fn with_new_edge(
    alloc: Global,
    edit: &EdgeEdit,
    front: bool,
    connection: &Connection,
) -> Result<Vec<Change>, NoMemory>
    ensures { IfOk result (λ changes. changes.items
        ≡ record { id = connection.now.id; row = spec.row_with_edge front (kept_of connection.now) }
        ∷ record { id = merge.edge_id connection.now.id connection.now.next; row = updates.edge_of edit.now } ∷ []) }
{
    let id = edge_id(alloc, &connection.id, connection.next)?;
    let list = with_edge(alloc, front, edges_of(connection.row.get()), &id)?;
    let row = row_with(alloc, connection, list)?;
    let edge = edge_of(alloc, edit)?;
    let own_id = connection.id.copy()?;
    let first = Change::new(alloc, own_id, row)?;
    let second = Change::new(alloc, id, edge)?;
    let mut changes = Vec::new(alloc);
    changes.push(first)?;
    changes.push(second)?;
    Ok(changes)
}

/// A list of edges with a new one first or last.
fn with_edge(
    alloc: Global,
    front: bool,
    edges: &[Option<Words>],
    id: &Id,
) -> Result<OptIds, NoMemory>
    ensures { IfOk result (λ list. list ≡ updates.with_edge front edges.now id.now) }
{
    let mut list = OptIds::new(alloc);
    if front {
        list.push(Some(id.copy()?))?;
        push_edges(&mut list, edges)?;
        return Ok(list);
    }
    push_edges(&mut list, edges)?;
    list.push(Some(id.copy()?))?;
    Ok(list)
}

/// The record of a connection with a list of edges that has one more.
fn row_with(alloc: Global, connection: &Connection, list: OptIds) -> Result<Record, NoMemory>
    ensures { IfOk result (λ row. row ≡ spec.row_with_list (kept_of connection.now) list) }
{
    let mut row = connection.row.get().copy()?;
    put_field(alloc, &mut row, "edges", Field::Links(list))?;
    put_counter(alloc, &mut row, next_edge(connection.next))?;
    Ok(row)
}

/// The edge that an edit makes: a cursor and a node.
fn edge_of(alloc: Global, edit: &EdgeEdit) -> Result<Record, NoMemory>
    ensures { IfOk result (λ edge. edge ≡ updates.edge_of edit.now) }
{
    let mut edge = Record::new(alloc, edit.edge_type.copy()?);
    let cursor = edit.cursor.copy()?;
    put_field(alloc, &mut edge, "cursor", Field::Leaf(cursor))?;
    let node = edit.node.copy()?;
    put_field(alloc, &mut edge, "node", Field::Link(node))?;
    Ok(edge)
}

/// What a deletion puts, by the connection: nothing, where there is none.
fn deleted<S: RecordSource>(
    alloc: Global,
    source: &S,
    edit: &EdgeEdit,
    found: &Option<Connection>,
    steps: &mut S::Count,
) -> Result<Vec<Change>, NoMemory>
    ensures records { IfOk result (λ changes. changes_spec.put_all changes.items (S.records source.now) ≡ spec.kept_deleted edit.now (option_map kept_of found.now) (S.records source.now)) }
    ensures few { IfOk result (λ changes. length changes.items ≤ 1) }
    ensures looks { S.Count.looks steps.new ≤ S.Count.looks steps.old + spec.kept_asked (option_map kept_of found.now) }
    ensures applies { S.Count.applies steps.new ≡ S.Count.applies steps.old }
{
    match found {
        Some(connection) => deleted_from(alloc, source, edit, connection, steps),
        None => Ok(Vec::new(alloc)),
    }
}

/// What a deletion puts: the connection without the edges of a node, where it has a field of edges.
fn deleted_from<S: RecordSource>(
    alloc: Global,
    source: &S,
    edit: &EdgeEdit,
    connection: &Connection,
    steps: &mut S::Count,
) -> Result<Vec<Change>, NoMemory>
    ensures records { IfOk result (λ changes. changes_spec.put_all changes.items (S.records source.now) ≡ spec.kept_deleted edit.now (Some (kept_of connection.now)) (S.records source.now)) }
    ensures few { IfOk result (λ changes. length changes.items ≤ 1) }
    ensures looks { S.Count.looks steps.new ≤ S.Count.looks steps.old + edges_in connection.now.row }
    ensures applies { S.Count.applies steps.new ≡ S.Count.applies steps.old }
{
    match connection.row.get().fields.get("edges") {
        Some(field) => without_node(alloc, source, edit, connection, field, steps),
        None => Ok(Vec::new(alloc)),
    }
}

/// The connection without the edges of a node in a field of edges.
fn without_node<S: RecordSource>(
    alloc: Global,
    source: &S,
    edit: &EdgeEdit,
    connection: &Connection,
    field: &Field,
    steps: &mut S::Count,
) -> Result<Vec<Change>, NoMemory>
    ensures records { IfOk result (λ changes. changes_spec.put_all changes.items (S.records source.now) ≡ spec.without_node edit.now (kept_of connection.now) field.now (S.records source.now)) }
    ensures few { IfOk result (λ changes. length changes.items ≤ 1) }
    ensures looks { S.Count.looks steps.new ≤ S.Count.looks steps.old + ids_in (merge.links_of field.now) }
    ensures applies { S.Count.applies steps.new ≡ S.Count.applies steps.old }
{
    let edges = field_without(alloc, source, field, &edit.node, steps)?;
    let changes = with_edges(alloc, connection, edges)?;
    Ok(changes)
}

/// A field without the edges of a node, where it is a list.
fn field_without<S: RecordSource>(
    alloc: Global,
    source: &S,
    field: &Field,
    node: &Id,
    steps: &mut S::Count,
) -> Result<Field, NoMemory>
    ensures field { IfOk result (λ left. left ≡ updates.field_without (S.records source.now) node.now field.now) }
    ensures looks { S.Count.looks steps.new ≤ S.Count.looks steps.old + ids_in (merge.links_of field.now) }
    ensures applies { S.Count.applies steps.new ≡ S.Count.applies steps.old }
{
    match field {
        Field::Links(ids) => {
            let left = edges_without(alloc, source, ids.as_slice(), node, steps)?;
            Ok(Field::Links(left))
        }
        Field::Leaf(_) => field.copy(),
        Field::Link(_) => field.copy(),
    }
}

/// A connection with a field of edges.
fn with_edges(alloc: Global, connection: &Connection, edges: Field) -> Result<Vec<Change>, NoMemory>
    ensures { IfOk result (λ changes. changes.items ≡ record { id = connection.now.id; row = with_field (codes "edges") edges connection.now.row } ∷ []) }
{
    let mut row = connection.row.get().copy()?;
    put_field(alloc, &mut row, "edges", edges)?;
    let id = connection.id.copy()?;
    let change = Change::new(alloc, id, row)?;
    let mut changes = Vec::new(alloc);
    changes.push(change)?;
    Ok(changes)
}

/// The id of an edge of a connection.
fn edge_id(alloc: Global, connection: &Id, count: u64) -> Result<Id, NoMemory>
    ensures { IfOk result (λ id. id ≡ merge.edge_id connection.now count) }
{
    let key = Words::new(alloc, "edges")?;
    client_id(alloc, connection, &key, Some(count))
}
