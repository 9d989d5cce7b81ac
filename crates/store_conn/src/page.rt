//! Pages that are merged into the connection that the client keeps.
ghost use Rattle.std.specs.Prelude.{◌≡◌, ◌+◌, ◌*◌, ◌≤◌, ◌∷◌, [], length, option_map, Some, None, IfOk};
ghost use Rattle.std.specs.Option.{option_copied};
ghost use Rattle.store_model.specs.Entries as entries;
ghost use Rattle.store_model.specs.Merge as merge;
ghost use Rattle.store_model.specs.Records as records_spec;
ghost use Rattle.store_conn.specs.Changes as changes_spec;
ghost use Rattle.store_conn.specs.Connections as spec;
ghost use Rattle.store_conn.specs.Lists.{edges_in};

use crate::after::page_after;
use crate::before::page_before;
use crate::changes::{Change, put_all};
use crate::connection::{Connection, connection_below, info_id, new_connection, put_field};
use crate::info::{has_cursor, is_null};
use crate::look::{below, live};
use crate::replace::replace_edges;
use std::alloc::Global;
use store_model::HandleFact;
use store_model::gql_plain::{NoMemory, Plain};
use store_model::store_record::{Field, Record, Shared, client_id};
use store_source::RecordSource;

/// Merges a page of a connection into the connection that the client keeps. The map stays as it is.
///
/// All that is looked at is looked at in the map before the merge: each edge of the page once, and
/// each edge of the client's list once where it stays. Edges that are made share the records of the
/// server's edges.
pub fn merge_page<S: RecordSource>(
    source: &S,
    handle: &HandleFact,
    steps: &mut S::Count,
) -> Result<S, NoMemory>
    ensures records { IfOk result (λ m. S.records m ≡ merge.merge handle.now (S.records source.now)) }
    ensures looks { S.Count.looks steps.new ≤ S.Count.looks steps.old + 8 * (1 + entries.number_asked (entries.asked_by_page handle.now (S.records source.now))) }
    ensures applies { S.Count.applies steps.new ≡ S.Count.applies steps.old }
{
    let text = handle.parent.copy()?.into_string();
    let changes = changes_of_page(*text.allocator(), source, handle, steps)?;
    let version = source.version()?;
    put_all(version, changes, steps)
}

/// The records that the merge of a page puts, in the order in which they are put.
pub fn changes_of_page<S: RecordSource>(
    alloc: Global,
    source: &S,
    handle: &HandleFact,
    steps: &mut S::Count,
) -> Result<Vec<Change>, NoMemory>
    ensures records { IfOk result (λ changes. changes_spec.put_all changes.items (S.records source.now) ≡ merge.merge handle.now (S.records source.now)) }
    ensures few { IfOk result (λ changes. length changes.items ≤ 3 + length (entries.asked_by_page handle.now (S.records source.now)).edges) }
    ensures looks { S.Count.looks steps.new ≤ S.Count.looks steps.old + (5 + length (entries.asked_by_page handle.now (S.records source.now)).edges) }
    ensures applies { S.Count.applies steps.new ≡ S.Count.applies steps.old }
{
    let parent = live(source, handle.parent.as_str(), steps);
    let changes = of_parent(alloc, source, handle, parent, steps)?;
    Ok(changes)
}

/// What the merge puts, by the parent: nothing, where the parent is not alive.
fn of_parent<S: RecordSource>(
    alloc: Global,
    source: &S,
    handle: &HandleFact,
    parent: Option<&Shared>,
    steps: &mut S::Count,
) -> Result<Vec<Change>, NoMemory>
    ensures records { IfOk result (λ changes. changes_spec.put_all changes.items (S.records source.now) ≡ merge.of_parent handle.now (option_copied parent.entry) (S.records source.now)) }
    ensures few { IfOk result (λ changes. length changes.items ≤ 3 + length (entries.asked_of_parent handle.now (option_copied parent.entry) (S.records source.now)).edges) }
    ensures looks { S.Count.looks steps.new ≤ S.Count.looks steps.old + (4 + length (entries.asked_of_parent handle.now (option_copied parent.entry) (S.records source.now)).edges) }
    ensures applies { S.Count.applies steps.new ≡ S.Count.applies steps.old }
{
    match parent {
        Some(parent) => with_page(alloc, source, handle, parent.get(), steps),
        None => Ok(Vec::new(alloc)),
    }
}

/// What the merge puts where the parent is alive.
fn with_page<S: RecordSource>(
    alloc: Global,
    source: &S,
    handle: &HandleFact,
    parent: &Record,
    steps: &mut S::Count,
) -> Result<Vec<Change>, NoMemory>
    ensures records { IfOk result (λ changes. changes_spec.put_all changes.items (S.records source.now) ≡ merge.of_parent handle.now (Some parent.now) (S.records source.now)) }
    ensures few { IfOk result (λ changes. length changes.items ≤ 3 + length (entries.asked_of_parent handle.now (Some parent.now) (S.records source.now)).edges) }
    ensures looks { S.Count.looks steps.new ≤ S.Count.looks steps.old + (4 + length (entries.asked_of_parent handle.now (Some parent.now) (S.records source.now)).edges) }
    ensures applies { S.Count.applies steps.new ≡ S.Count.applies steps.old }
{
    let server = below(source, parent, handle.field_key.as_str(), steps);
    let changes = of_server(alloc, source, handle, parent, server, steps)?;
    Ok(changes)
}

/// What the merge puts, by the server's connection: without one, the parent's handle key becomes null.
fn of_server<S: RecordSource>(
    alloc: Global,
    source: &S,
    handle: &HandleFact,
    parent: &Record,
    server: Option<&Shared>,
    steps: &mut S::Count,
) -> Result<Vec<Change>, NoMemory>
    ensures records { IfOk result (λ changes. changes_spec.put_all changes.items (S.records source.now) ≡ spec.of_server handle.now parent.now (option_copied server.entry) (S.records source.now)) }
    ensures few { IfOk result (λ changes. length changes.items ≤ 3 + spec.asked_of_server handle.now parent.now (option_copied server.entry) (S.records source.now)) }
    ensures looks { S.Count.looks steps.new ≤ S.Count.looks steps.old + (3 + spec.asked_of_server handle.now parent.now (option_copied server.entry) (S.records source.now)) }
    ensures applies { S.Count.applies steps.new ≡ S.Count.applies steps.old }
{
    match server {
        Some(server) => onto(alloc, source, handle, server.get(), parent, steps),
        None => without_server(alloc, source, handle, parent),
    }
}

/// The parent with null under the handle key.
fn without_server<S: RecordSource>(
    alloc: Global,
    source: &S,
    handle: &HandleFact,
    parent: &Record,
) -> Result<Vec<Change>, NoMemory>
    ensures records { IfOk result (λ changes. changes_spec.put_all changes.items (S.records source.now) ≡ spec.of_server handle.now parent.now None (S.records source.now)) }
    ensures few { IfOk result (λ changes. length changes.items ≤ 3) }
{
    let changes = with_parent(alloc, handle, parent, Field::Leaf(Plain::Null))?;
    Ok(changes)
}

/// The parent with a field under the handle key.
fn with_parent(
    alloc: Global,
    handle: &HandleFact,
    parent: &Record,
    field: Field,
) -> Result<Vec<Change>, NoMemory>
    ensures { IfOk result (λ changes. changes.items ≡ record { id = handle.now.parent; row = records_spec.with_field handle.now.handle_key field parent.now } ∷ []) }
{
    let mut row = parent.copy()?;
    put_field(alloc, &mut row, handle.handle_key.as_str(), field)?;
    let id = handle.parent.copy()?;
    let change = Change::new(alloc, id, row)?;
    let mut changes = Vec::new(alloc);
    changes.push(change)?;
    Ok(changes)
}

/// What the merge puts where the server's connection is live.
fn onto<S: RecordSource>(
    alloc: Global,
    source: &S,
    handle: &HandleFact,
    server: &Record,
    parent: &Record,
    steps: &mut S::Count,
) -> Result<Vec<Change>, NoMemory>
    ensures records { IfOk result (λ changes. changes_spec.put_all changes.items (S.records source.now)
        ≡ merge.onto handle.now server.now parent.now (merge.below handle.now.handle_key parent.now (S.records source.now)) (S.records source.now)) }
    ensures few { IfOk result (λ changes. length changes.items ≤ 3 + length (entries.asked_onto handle.now server.now (merge.below handle.now.handle_key parent.now (S.records source.now)) (S.records source.now)).edges) }
    ensures looks { S.Count.looks steps.new ≤ S.Count.looks steps.old
        + (3 + length (entries.asked_onto handle.now server.now (merge.below handle.now.handle_key parent.now (S.records source.now)) (S.records source.now)).edges) }
    ensures applies { S.Count.applies steps.new ≡ S.Count.applies steps.old }
{
    let found = connection_below(source, parent, handle.handle_key.as_str(), steps)?;
    let changes = onto_kept(alloc, source, handle, server, parent, &found, steps)?;
    Ok(changes)
}

/// What the merge puts, by the connection that is kept.
fn onto_kept<S: RecordSource>(
    alloc: Global,
    source: &S,
    handle: &HandleFact,
    server: &Record,
    parent: &Record,
    found: &Option<Connection>,
    steps: &mut S::Count,
) -> Result<Vec<Change>, NoMemory>
    ensures records { IfOk result (λ changes. changes_spec.put_all changes.items (S.records source.now)
        ≡ spec.onto_kept handle.now server.now parent.now (option_map spec.kept_of found.now) (S.records source.now)) }
    ensures few { IfOk result (λ changes. length changes.items ≤ 3 + spec.edges_asked handle.now server.now (option_map spec.kept_of found.now) (S.records source.now)) }
    ensures looks { S.Count.looks steps.new ≤ S.Count.looks steps.old
        + (2 + spec.edges_asked handle.now server.now (option_map spec.kept_of found.now) (S.records source.now)) }
    ensures applies { S.Count.applies steps.new ≡ S.Count.applies steps.old }
{
    match found {
        Some(connection) => onto_client(alloc, source, handle, server, connection, steps),
        None => onto_none(alloc, source, handle, server, parent, steps),
    }
}

/// What the merge puts where no connection is kept yet: the connection is made whole, and the parent's
/// handle key links to it.
fn onto_none<S: RecordSource>(
    alloc: Global,
    source: &S,
    handle: &HandleFact,
    server: &Record,
    parent: &Record,
    steps: &mut S::Count,
) -> Result<Vec<Change>, NoMemory>
    ensures records { IfOk result (λ changes. changes_spec.put_all changes.items (S.records source.now) ≡ merge.onto_none handle.now server.now parent.now (S.records source.now)) }
    ensures few { IfOk result (λ changes. length changes.items ≤ 3 + edges_in server.now) }
    ensures looks { S.Count.looks steps.new ≤ S.Count.looks steps.old + (1 + edges_in server.now) }
    ensures applies { S.Count.applies steps.new ≡ S.Count.applies steps.old }
{
    let id = client_id(alloc, &handle.parent, &handle.handle_key, None)?;
    let copy = id.copy()?;
    let changes = with_parent(alloc, handle, parent, Field::Link(copy))?;
    let connection = new_connection(alloc, id, &handle.page_type)?;
    let all = replace_edges(source, handle, server, &connection, changes, steps)?;
    Ok(all)
}

/// What the merge puts where a connection is kept. The page replaces its edges where no cursor was
/// asked for, goes after them where it follows their last one, and before them where it comes before
/// their first one.
fn onto_client<S: RecordSource>(
    alloc: Global,
    source: &S,
    handle: &HandleFact,
    server: &Record,
    connection: &Connection,
    steps: &mut S::Count,
) -> Result<Vec<Change>, NoMemory>
    ensures records { IfOk result (λ changes. changes_spec.put_all changes.items (S.records source.now) ≡ merge.onto_client handle.now server.now (spec.kept_of connection.now) (S.records source.now)) }
    ensures few { IfOk result (λ changes. length changes.items ≤ 2 + spec.edges_asked handle.now server.now (Some (spec.kept_of connection.now)) (S.records source.now)) }
    ensures looks { S.Count.looks steps.new ≤ S.Count.looks steps.old + (2 + spec.edges_asked handle.now server.now (Some (spec.kept_of connection.now)) (S.records source.now)) }
    ensures applies { S.Count.applies steps.new ≡ S.Count.applies steps.old }
{
    if is_null(&handle.before) {
        let changes = onto_old(alloc, source, handle, server, connection, steps)?;
        return Ok(changes);
    }
    if is_null(&handle.after) {
        let changes = onto_start(alloc, source, handle, server, connection, steps)?;
        return Ok(changes);
    }
    Ok(Vec::new(alloc))
}

/// What the merge puts where the page was not asked for before a cursor.
fn onto_old<S: RecordSource>(
    alloc: Global,
    source: &S,
    handle: &HandleFact,
    server: &Record,
    connection: &Connection,
    steps: &mut S::Count,
) -> Result<Vec<Change>, NoMemory>
    ensures records { IfOk result (λ changes. changes_spec.put_all changes.items (S.records source.now) ≡ spec.onto_old handle.now server.now (spec.kept_of connection.now) (S.records source.now)) }
    ensures few { IfOk result (λ changes. length changes.items ≤ 2 + spec.asked_onto_old handle.now server.now (spec.kept_of connection.now) (S.records source.now)) }
    ensures looks { S.Count.looks steps.new ≤ S.Count.looks steps.old + (2 + spec.asked_onto_old handle.now server.now (spec.kept_of connection.now) (S.records source.now)) }
    ensures applies { S.Count.applies steps.new ≡ S.Count.applies steps.old }
{
    if is_null(&handle.after) {
        let none = Vec::new(alloc);
        let changes = replace_edges(source, handle, server, connection, none, steps)?;
        return Ok(changes);
    }
    let changes = onto_end(alloc, source, handle, server, connection, steps)?;
    Ok(changes)
}

/// What the merge puts where the page was asked for after a cursor: the page goes after the edges, if
/// their last one has that cursor.
fn onto_end<S: RecordSource>(
    alloc: Global,
    source: &S,
    handle: &HandleFact,
    server: &Record,
    connection: &Connection,
    steps: &mut S::Count,
) -> Result<Vec<Change>, NoMemory>
    ensures records { IfOk result (λ changes. changes_spec.put_all changes.items (S.records source.now) ≡ spec.onto_end handle.now server.now (spec.kept_of connection.now) (S.records source.now)) }
    ensures few { IfOk result (λ changes. length changes.items ≤ 2 + spec.asked_onto_end handle.now server.now (spec.kept_of connection.now) (S.records source.now)) }
    ensures looks { S.Count.looks steps.new ≤ S.Count.looks steps.old + (2 + spec.asked_onto_end handle.now server.now (spec.kept_of connection.now) (S.records source.now)) }
    ensures applies { S.Count.applies steps.new ≡ S.Count.applies steps.old }
{
    let id = info_id(alloc, &connection.id)?;
    let info = live(source, id.as_str(), steps);
    if has_cursor(info, "endCursor", &handle.after) {
        let changes = page_after(alloc, source, server, connection, info, steps)?;
        return Ok(changes);
    }
    Ok(Vec::new(alloc))
}

/// What the merge puts where the page was asked for before a cursor: the page goes before the edges,
/// if their first one has that cursor.
fn onto_start<S: RecordSource>(
    alloc: Global,
    source: &S,
    handle: &HandleFact,
    server: &Record,
    connection: &Connection,
    steps: &mut S::Count,
) -> Result<Vec<Change>, NoMemory>
    ensures records { IfOk result (λ changes. changes_spec.put_all changes.items (S.records source.now) ≡ spec.onto_start handle.now server.now (spec.kept_of connection.now) (S.records source.now)) }
    ensures few { IfOk result (λ changes. length changes.items ≤ 2 + spec.asked_onto_start handle.now server.now (spec.kept_of connection.now) (S.records source.now)) }
    ensures looks { S.Count.looks steps.new ≤ S.Count.looks steps.old + (2 + spec.asked_onto_start handle.now server.now (spec.kept_of connection.now) (S.records source.now)) }
    ensures applies { S.Count.applies steps.new ≡ S.Count.applies steps.old }
{
    let id = info_id(alloc, &connection.id)?;
    let info = live(source, id.as_str(), steps);
    if has_cursor(info, "startCursor", &handle.before) {
        let changes = page_before(alloc, source, server, connection, info, steps)?;
        return Ok(changes);
    }
    Ok(Vec::new(alloc))
}
