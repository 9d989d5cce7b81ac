//! The connection that the client keeps.
ghost use Rattle.std.specs.Prelude.{◌≡◌, ◌+◌, ◌≤◌, ◌∷◌, [], option_map, IfOk, OnOk};
ghost use Rattle.store_model.specs.Merge as merge;
ghost use Rattle.store_model.specs.Records.{with_field};
ghost use Rattle.store_conn.specs.Connections.{kept_of};

use crate::look::{leaf_under, link_under, live};
use std::alloc::Global;
use store_model::gql_plain::{Id, Name, NoMemory, Plain, Words};
use store_model::store_record::{Field, Record, Shared, SharedField, client_id};
use store_source::RecordSource;

/// A connection: its id, its record, and the number of the edge that is made next.
#[derive(Drop)]
pub(crate) struct Connection {
    pub id: Id,
    pub row: Shared,
    pub next: u64,
}

/// The live connection to which a record links under a key; takes at most one look.
pub(crate) fn connection_below<S: RecordSource>(
    source: &S,
    row: &Record,
    key: &str,
    steps: &mut S::Count,
) -> Result<Option<Connection>, NoMemory>
    ensures found { IfOk result (λ found. option_map kept_of found ≡ option_map merge.kept_connection (merge.below key.now row.now (S.records source.now))) }
    ensures looks { S.Count.looks steps.new ≤ S.Count.looks steps.old + 1 }
    ensures applies { S.Count.applies steps.new ≡ S.Count.applies steps.old }
{
    match link_under(row, key) {
        Some(id) => match live(source, id.as_str(), steps) {
            Some(row) => Ok(Some(kept(id, row)?)),
            None => Ok(None),
        },
        None => Ok(None),
    }
}

/// A connection with the counter of its record.
fn kept(id: &Id, row: &Shared) -> Result<Connection, NoMemory>
    ensures { IfOk result (λ c. kept_of c ≡ merge.kept_connection (id.now, row.now)) }
{
    let id = id.copy()?;
    let next = counter_of(row.get());
    let row = row.copy()?;
    Ok(Connection { id, row, next })
}

/// A connection without fields, of which no edge was made.
pub(crate) fn new_connection(
    alloc: Global,
    id: Id,
    page_type: &Name,
) -> Result<Connection, NoMemory>
    ensures { IfOk result (λ c. kept_of c ≡ record { id = id; row = record { type_name = page_type.now; fields = [] }; next = 0 }) }
{
    let row = Record::new(alloc, page_type.copy()?);
    let row = Shared::new(alloc, row)?;
    Ok(Connection { id, row, next: 0 })
}

/// How many edges were made for a connection: 0 where its record has no whole number of at least 0
/// under `__next`; takes no memory.
fn counter_of(row: &Record) -> u64
    ensures { result ≡ merge.counter_of row.now }
{
    match leaf_under(row, "__next") {
        Some(value) => count_of(value),
        None => 0,
    }
}

/// A whole number of at least 0, and else 0; takes no memory.
fn count_of(value: &Plain) -> u64
    ensures { result ≡ merge.count_of value.now }
{
    match value {
        Plain::Int(number) => u64::try_from(*number).unwrap_or(0),
        Plain::Null => 0,
        Plain::Bool(_) => 0,
        Plain::Text(_) => 0,
        Plain::List(_) => 0,
        Plain::Tree(_) => 0,
    }
}

/// The greatest number of an edge.
const MOST: u64 = 9_223_372_036_854_775_807;

/// The counter after one more edge: it stands still at the greatest number.
pub(crate) fn next_edge(count: u64) -> u64
    ensures { result ≡ merge.next_edge count }
{
    count.saturating_add(1).min(MOST)
}

/// The id of the page information of a connection.
pub(crate) fn info_id(alloc: Global, connection: &Id) -> Result<Id, NoMemory>
    ensures { IfOk result (λ id. id ≡ merge.info_id connection.now) }
{
    let key = Words::new(alloc, "pageInfo")?;
    client_id(alloc, connection, &key, None)
}

/// Puts a field under a key of a record.
pub(crate) fn put_field(
    alloc: Global,
    row: &mut Record,
    key: &str,
    field: Field,
) -> Result<(), NoMemory>
    ensures { OnOk result (row.new ≡ with_field key.now field row.old) }
{
    let key = Words::new(alloc, key)?;
    row.fields.put(key, field)?;
    Ok(())
}

/// A record with the fields of the server's connection, but its edges, its page information and a
/// counter.
pub(crate) fn copied_over(fields: &[SharedField], row: &Record) -> Result<Record, NoMemory>
    ensures { IfOk result (λ copy. copy ≡ merge.copied_over fields.now row.now) }
{
    let mut copy = row.copy()?;
    'fields: for field in fields {
        put_unless_own(&mut copy, field)?;
    }
    Ok(copy)
}

/// Puts a field of the server's connection into a record, unless the client has one of its own.
fn put_unless_own(row: &mut Record, entry: &SharedField) -> Result<(), NoMemory>
    ensures { OnOk result (row.new ≡ merge.copied_over (entry.now ∷ []) row.old) }
{
    if is_own_key(entry.key()) {
        return Ok(());
    }
    row.fields.put_shared(entry.copy()?)?;
    Ok(())
}

/// Whether a key of a connection is not taken from the server's; takes no memory.
fn is_own_key(key: &str) -> bool
    ensures { result ≡ merge.is_own_key key.now }
{
    key == "edges" || key == "pageInfo" || key == "__next"
}
