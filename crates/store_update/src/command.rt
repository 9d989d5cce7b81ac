//! What a command makes of the slot of its id.
ghost use Rattle.std.specs.Prelude.{◌≡◌, Some, None, option_map, unwrap_or, IfOk};
ghost use Rattle.std.specs.Option.{option_copied};
ghost use Rattle.store_conn.specs.gql_plain.declared.plain.Plain.TheVariants.{Int};
ghost use Rattle.store_conn.specs.store_record.Keys.{field_key};
ghost use Rattle.store_conn.specs.store_record.declared.field.Field.TheVariants.{Leaf, Links};
ghost use Rattle.store_conn.specs.store_record.declared.record.Slot.TheVariants.{Alive, Deleted};
ghost use Rattle.store_conn.specs.store_model.Records.{with_field};
ghost use Rattle.store_conn.specs.store_model.Updates.{add_to_field, field_plus, link_or_null};
ghost use Rattle.store_update.specs.Slots as spec;

use crate::row::{has_field, in_order};
use crate::slot::live_slot;
use std::alloc::Global;
use std::rc::Rc;
use store_conn::gql_plain::{Id, Name, NoMemory, Pairs, Plain, Words};
use store_conn::store_model::Command;
use store_conn::store_record::{Field, Fields, Record, Shared, Slot, field_key};

/// The id whose slot a command looks at; takes no memory.
pub(crate) fn id_of(command: &Command) -> &Id
    ensures { result.now ≡ spec.id_of command.now }
{
    match command {
        Command::Set { id, .. } => id,
        Command::Add { id, .. } => id,
        Command::Link { id, .. } => id,
        Command::Links { id, .. } => id,
        Command::Create { id, .. } => id,
        Command::Delete { id } => id,
        Command::AppendNode(edit) => &edit.id,
        Command::PrependNode(edit) => &edit.id,
        Command::DeleteEdge(edit) => &edit.id,
    }
}

/// The new slot of a command's id, or None where it stays.
pub(crate) fn slot_by_command(
    alloc: Global,
    found: Option<&Slot>,
    command: &Command,
) -> Result<Option<Slot>, NoMemory>
    ensures { IfOk result (λ change. spec.slot_after change (option_copied found.entry) ≡ spec.slot_by_command command.now (option_copied found.entry)) }
{
    match found {
        Some(Slot::Alive(row)) => by_command_on(alloc, row.get(), command),
        Some(Slot::Deleted) => created(alloc, command),
        None => created(alloc, command),
    }
}

/// The new slot of a record that is not live, or None where it stays.
fn created(alloc: Global, command: &Command) -> Result<Option<Slot>, NoMemory>
    ensures absent { IfOk result (λ change. spec.slot_after change None ≡ spec.slot_by_command command.now None) }
    ensures deleted { IfOk result (λ change. spec.slot_after change (Some Deleted) ≡ spec.slot_by_command command.now (Some Deleted)) }
{
    match command {
        Command::Create { of, .. } => {
            let type_name = of.copy()?;
            live_slot(alloc, type_name, Fields::new(alloc))
        }
        Command::Set { .. } => Ok(None),
        Command::Add { .. } => Ok(None),
        Command::Link { .. } => Ok(None),
        Command::Links { .. } => Ok(None),
        Command::Delete { .. } => Ok(None),
        Command::AppendNode(_) => Ok(None),
        Command::PrependNode(_) => Ok(None),
        Command::DeleteEdge(_) => Ok(None),
    }
}

/// What a command asks of a live record.
#[derive(Drop)]
enum Effect {
    Stays,
    Deletes,
    /// The field comes to stand under the key.
    Puts(Words, Field),
}

/// The new slot of a live record, or None where it stays.
fn by_command_on(alloc: Global, row: &Record, command: &Command) -> Result<Option<Slot>, NoMemory>
    ensures { IfOk result (λ change. spec.slot_after change (Some (Alive row.now)) ≡ spec.slot_by_command command.now (Some (Alive row.now))) }
{
    match effect_on(alloc, row, command)? {
        Effect::Stays => Ok(None),
        Effect::Deletes => Ok(Some(Slot::Deleted)),
        Effect::Puts(key, field) => put_field(alloc, row, key, field),
    }
}

/// A new slot after a command, in place where nobody else holds its record.
pub(crate) fn edit(alloc: Global, slot: Slot, command: &Command) -> Result<Slot, NoMemory>
    ensures { IfOk result (λ after. Some after ≡ spec.slot_by_command command.now (Some slot)) }
{
    match slot {
        Slot::Alive(shared) => edit_live(alloc, shared, command),
        Slot::Deleted => match created(alloc, command)? {
            Some(slot) => Ok(slot),
            None => Ok(Slot::Deleted),
        },
    }
}

/// The slot of a live record after a command.
fn edit_live(alloc: Global, shared: Shared, command: &Command) -> Result<Slot, NoMemory>
    ensures { IfOk result (λ after. Some after ≡ spec.slot_by_command command.now (Some (Alive shared))) }
{
    match effect_on(alloc, shared.get(), command)? {
        Effect::Stays => Ok(Slot::Alive(shared)),
        Effect::Deletes => Ok(Slot::Deleted),
        Effect::Puts(key, field) => Ok(Slot::Alive(put_in(alloc, shared, key, field)?)),
    }
}

/// The record with a field put under a key, in place where nobody else holds it.
fn put_in(alloc: Global, shared: Shared, key: Words, field: Field) -> Result<Shared, NoMemory>
    ensures { IfOk result (λ after. after ≡ with_field key field shared) }
{
    let mut shared = shared;
    if let Some(row) = Rc::get_mut(&mut shared.row) {
        row.fields.put(key, field)?;
        return Ok(shared);
    }
    let row = shared.get();
    let mut fields = row.fields.copy()?;
    fields.put(key, field)?;
    let type_name = row.type_name.copy()?;
    Shared::new(alloc, Record { type_name, fields })
}

/// What a command asks of a live record.
fn effect_on(alloc: Global, row: &Record, command: &Command) -> Result<Effect, NoMemory>
    ensures { IfOk result (λ effect. Some (spec.slot_with effect row.now) ≡ spec.slot_by_command command.now (Some (Alive row.now))) }
{
    match command {
        Command::Set {
            field,
            args,
            value,
            ..
        } => {
            let key = field_key(alloc, field, args)?;
            Ok(Effect::Puts(key, Field::Leaf(value.copy()?)))
        }
        Command::Add {
            field,
            args,
            by,
            ..
        } => add(alloc, row, field, args, *by),
        Command::Link {
            field,
            args,
            to,
            ..
        } => {
            let key = field_key(alloc, field, args)?;
            Ok(Effect::Puts(key, link_or_null(to)?))
        }
        Command::Links {
            field,
            args,
            to,
            ..
        } => {
            let key = field_key(alloc, field, args)?;
            Ok(Effect::Puts(key, Field::Links(to.copy()?)))
        }
        Command::Create { .. } => Ok(Effect::Stays),
        Command::Delete { .. } => Ok(Effect::Deletes),
        Command::AppendNode(_) => Ok(Effect::Stays),
        Command::PrependNode(_) => Ok(Effect::Stays),
        Command::DeleteEdge(_) => Ok(Effect::Stays),
    }
}

/// A link, or null where there is none.
fn link_or_null(to: &Option<Id>) -> Result<Field, NoMemory>
    ensures { IfOk result (λ field. field ≡ link_or_null to.now) }
{
    match to {
        Some(id) => Ok(Field::Link(id.copy()?)),
        None => Ok(Field::Leaf(Plain::Null)),
    }
}

/// A number that is added to a field of a record; the field stays where it holds no whole number, or where the
/// sum is not within 64 bits.
fn add(alloc: Global, row: &Record, field: &Name, args: &Pairs, by: i64) -> Result<Effect, NoMemory>
    ensures { IfOk result (λ effect. spec.slot_with effect row.now ≡ Alive (add_to_field (field_key field.now args.now) by row.now)) }
{
    in_order(&row.fields);
    let key = field_key(alloc, field, args)?;
    match row.fields.get(key.as_str()) {
        Some(old) => match sum(old, by) {
            Some(number) => Ok(Effect::Puts(key, Field::Leaf(Plain::Int(number)))),
            None => Ok(Effect::Stays),
        },
        None => Ok(Effect::Stays),
    }
}

/// The sum of the whole number of a field and another, or None where the field stays: it holds no
/// whole number, or the sum is not within 64 bits.
fn sum(field: &Field, by: i64) -> Option<i64>
    ensures { unwrap_or (option_map (λ number. Leaf (Int number)) result) field.now ≡ field_plus by field.now }
{
    match field {
        Field::Leaf(value) => match value {
            Plain::Int(number) => number.checked_add(by),
            Plain::Null => None,
            Plain::Bool(_) => None,
            Plain::Text(_) => None,
            Plain::List(_) => None,
            Plain::Tree(_) => None,
        },
        Field::Link(_) => None,
        Field::Links(_) => None,
    }
}

/// The slot of a record with a field put under a key, or None where it stands there already.
fn put_field(
    alloc: Global,
    row: &Record,
    key: Words,
    field: Field,
) -> Result<Option<Slot>, NoMemory>
    ensures { IfOk result (λ change. spec.slot_after change (Some (Alive row.now)) ≡ Some (Alive (with_field key field row.now))) }
{
    in_order(&row.fields);
    if has_field(&row.fields, key.as_str(), &field) {
        return Ok(None);
    }
    let mut fields = row.fields.copy()?;
    fields.put(key, field)?;
    let type_name = row.type_name.copy()?;
    live_slot(alloc, type_name, fields)
}
