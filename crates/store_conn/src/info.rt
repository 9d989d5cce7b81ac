//! Page information.
ghost use Rattle.std.specs.Prelude.{◌≡◌, ◌+◌, ◌≤◌, length, Some, IfOk, OnOk};
ghost use Rattle.std.specs.Option.{option_copied};
ghost use Rattle.store_model.specs.Merge as merge;
ghost use Rattle.store_model.specs.Records.{Records};
ghost use Rattle.store_conn.specs.Changes.{put_all};

use crate::changes::Change;
use crate::connection::{Connection, info_id, put_field};
use crate::look::leaf_under;
use std::alloc::Global;
use store_model::gql_plain::{Name, NoMemory, Plain};
use store_model::store_record::{Record, Shared};

/// Whether page information has that value as a cursor; takes no memory.
pub(crate) fn has_cursor(info: Option<&Shared>, key: &str, value: &Plain) -> bool
    ensures { result ≡ merge.has_cursor key.now value.now (option_copied info.entry) }
{
    match info {
        Some(row) => is_leaf(row.get(), key, value),
        None => false,
    }
}

/// Whether a record has that value under a key; takes no memory.
fn is_leaf(row: &Record, key: &str, value: &Plain) -> bool
    ensures { result ≡ merge.has_cursor key.now value.now (Some row.now) }
{
    match leaf_under(row, key) {
        Some(other) => other == value,
        None => false,
    }
}

/// Whether a cursor is null; takes no memory.
pub(crate) fn is_null(value: &Plain) -> bool
    ensures { result ≡ merge.is_null value.now }
{
    matches!(value, Plain::Null)
}

/// Page information with the fields of the server's, or with none.
pub(crate) fn whole_info(
    alloc: Global,
    info_type: &Name,
    server: Option<&Shared>,
) -> Result<Record, NoMemory>
    ensures { IfOk result (λ row. row ≡ merge.whole_info info_type.now (option_copied server.entry)) }
{
    let type_name = info_type.copy()?;
    match server {
        Some(row) => {
            let fields = row.get().fields.copy()?;
            Ok(Record { type_name, fields })
        }
        None => Ok(Record::new(alloc, type_name)),
    }
}

/// Page information with two fields of the server's, where the server has them.
fn taken_both(
    alloc: Global,
    key: &str,
    other: &str,
    server: Option<&Shared>,
    row: &Record,
) -> Result<Record, NoMemory>
    ensures { IfOk result (λ taken. taken ≡ merge.taken_both key.now other.now (option_copied server.entry) row.now) }
{
    match server {
        Some(server) => take_both(alloc, key, other, server.get(), row),
        None => row.copy(),
    }
}

/// A record with two fields of the server's, where the server has them.
fn take_both(
    alloc: Global,
    key: &str,
    other: &str,
    server: &Record,
    row: &Record,
) -> Result<Record, NoMemory>
    ensures { IfOk result (λ taken. taken ≡ merge.taken_both key.now other.now (Some server.now) row.now) }
{
    let mut taken = row.copy()?;
    take_field(alloc, key, server, &mut taken)?;
    take_field(alloc, other, server, &mut taken)?;
    Ok(taken)
}

/// Puts a field of the server into a record, where the server has it.
fn take_field(alloc: Global, key: &str, server: &Record, row: &mut Record) -> Result<(), NoMemory>
    ensures { OnOk result (row.new ≡ merge.take_field key.now server.now row.old) }
{
    match server.fields.get(key) {
        Some(field) => {
            let field = field.copy()?;
            put_field(alloc, row, key, field)?;
            Ok(())
        }
        None => Ok(()),
    }
}

/// Puts page information with two fields of the server's to the end of changes, where it is live.
pub(crate) fn push_info(
    changes: &mut Vec<Change>,
    connection: &Connection,
    info: Option<&Shared>,
    key: &str,
    other: &str,
    server: Option<&Shared>,
) -> Result<(), NoMemory>
    ensures records { (m : Records) → OnOk result
        (put_all changes.new.items m
        ≡ merge.with_info (merge.info_id connection.now.id) key.now other.now (option_copied server.entry) (option_copied info.entry) (put_all changes.old.items m)) }
    ensures few { OnOk result (length changes.new.items ≤ length changes.old.items + 1) }
{
    match info {
        Some(row) => {
            let alloc = *changes.allocator();
            let id = info_id(alloc, &connection.id)?;
            let row = taken_both(alloc, key, other, server, row.get())?;
            let change = Change::new(alloc, id, row)?;
            changes.push(change)?;
            Ok(())
        }
        None => Ok(()),
    }
}
