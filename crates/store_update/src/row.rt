//! What a row of facts makes of the slot of its id.
ghost use Rattle.std.specs.Prelude.{◌≡◌, Some, [], IfOk};
ghost use Rattle.std.specs.List.{list_all};
ghost use Rattle.std.specs.Map.{keys_of};
ghost use Rattle.std.specs.Option.{option_copied};
ghost use Rattle.store_conn.specs.gql_plain.Order.{AreInOrder};
ghost use Rattle.store_conn.specs.store_record.declared.record.Slot.TheVariants.{Alive};
ghost use Rattle.store_conn.specs.store_model.FactRows.{row_onto, with_fields};
ghost use Rattle.store_conn.specs.store_model.Records.{record_of};
ghost use Rattle.store_update.specs.Fields as spec;
ghost use Rattle.store_update.specs.Slots.{slot_after, slot_by_row};

use crate::slot::live_slot;
use std::alloc::Global;
use store_conn::gql_plain::NoMemory;
use store_conn::store_model::FactRow;
use store_conn::store_record::{Field, Fields, Record, SharedField, Slot};

/// The new slot of a row's id, or None where the record has all that the row says.
pub(crate) fn slot_by_row(
    alloc: Global,
    found: Option<&Slot>,
    row: &FactRow,
) -> Result<Option<Slot>, NoMemory>
    ensures { IfOk result (λ change. slot_after change (option_copied found.entry) ≡ slot_by_row row.now (option_copied found.entry)) }
{
    match found {
        Some(Slot::Alive(old)) => put_onto(alloc, old.get(), row),
        Some(Slot::Deleted) => new_slot(alloc, row),
        None => new_slot(alloc, row),
    }
}

/// A live slot with what a row says.
fn new_slot(alloc: Global, row: &FactRow) -> Result<Option<Slot>, NoMemory>
    ensures { IfOk result (λ slot. slot ≡ Some (Alive (row_onto row.now (record_of [])))) }
{
    in_order(&row.fields);
    let fields = row.fields.copy()?;
    let type_name = row.type_name.copy()?;
    live_slot(alloc, type_name, fields)
}

/// The slot with a row put onto a record, or None where the record has all that the row says.
fn put_onto(alloc: Global, old: &Record, row: &FactRow) -> Result<Option<Slot>, NoMemory>
    ensures { IfOk result (λ change. slot_after change (Some (Alive old.now)) ≡ Some (Alive (row_onto row.now old.now))) }
{
    in_order(&old.fields);
    if has_row(row, old) {
        return Ok(None);
    }
    let fields = with_fields(&old.fields, row.fields.as_slice())?;
    let type_name = row.type_name.copy()?;
    live_slot(alloc, type_name, fields)
}

/// Whether a record has the name of the type and each field of a row; takes no memory.
fn has_row(row: &FactRow, old: &Record) -> bool
    ensures { result ≡ spec.has_row row.now old.now }
{
    old.type_name == row.type_name && has_fields(&old.fields, row.fields.as_slice())
}

/// Whether each field stands under its key; takes no memory.
fn has_fields(fields: &Fields, entries: &[SharedField]) -> bool
    ensures { result ≡ list_all (spec.has_field fields.now) entries.now }
{
    'entries: for entry in entries {
        if !has_field(fields, entry.key(), entry.field()) {
            return false;
        }
    }
    true
}

/// Whether that field stands under the key; takes no memory.
pub(crate) fn has_field(fields: &Fields, key: &str, field: &Field) -> bool
    ensures { result ≡ spec.has_field fields.now (key.now, field.now) }
{
    match fields.get(key) {
        Some(old) => old == field,
        None => false,
    }
}

/// Fields with others put under their keys.
fn with_fields(fields: &Fields, entries: &[SharedField]) -> Result<Fields, NoMemory>
    ensures { IfOk result (λ changed. changed ≡ with_fields entries.now fields.now) }
{
    let mut changed = fields.copy()?;
    'entries: for entry in entries {
        changed.put_shared(entry.copy()?)?;
    }
    Ok(changed)
}

/// Law: fields stand in byte order of their keys.
pub(crate) fn in_order(fields: &Fields)
    ensures { AreInOrder (keys_of fields.now) }
{
    fields.as_slice();
}
