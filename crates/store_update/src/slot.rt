//! Slots.
ghost use Rattle.std.specs.Prelude.{◌≡◌, Some, IfOk};
ghost use Rattle.std.specs.Option.{option_copied};
ghost use Rattle.store_conn.specs.store_record.declared.record.Slot.TheVariants.{Alive};
ghost use Rattle.store_update.specs.Slots.{slot_after, slot_eq};
ghost use Rattle.store_update.specs.Touched.{IsNew};

use std::alloc::Global;
use store_conn::gql_plain::{Name, NoMemory};
use store_conn::store_record::{Fields, Record, Shared, Slot};

/// A live slot.
pub(crate) fn live_slot(
    alloc: Global,
    type_name: Name,
    fields: Fields,
) -> Result<Option<Slot>, NoMemory>
    ensures { IfOk result (λ slot. slot ≡ Some (Alive (record { type_name = type_name; fields = fields }))) }
{
    let shared = Shared::new(alloc, Record { type_name, fields })?;
    Ok(Some(Slot::Alive(shared)))
}

/// A new slot, where it is not equal to the one before; takes no memory.
pub(crate) fn new_slot_of(before: Option<&Slot>, change: Option<Slot>) -> Option<Slot>
    ensures same { slot_after result (option_copied before.entry) ≡ slot_after change (option_copied before.entry) }
    ensures new { IsNew (option_copied before.entry) result }
{
    match change {
        Some(slot) => other_slot(before, slot),
        None => None,
    }
}

/// A slot, where it is not equal to the one before; takes no memory.
fn other_slot(before: Option<&Slot>, slot: Slot) -> Option<Slot>
    ensures same { slot_after result (option_copied before.entry) ≡ Some slot }
    ensures new { IsNew (option_copied before.entry) result }
{
    if are_equal(before, Some(&slot)) {
        return None;
    }
    Some(slot)
}

/// Whether two ids have equal slots; None stands for an absent one.
pub(crate) fn are_equal(a: Option<&Slot>, b: Option<&Slot>) -> bool
    ensures { result ≡ slot_eq (option_copied a.entry) (option_copied b.entry) }
{
    match (a, b) {
        (Some(a), Some(b)) => is_equal(a, b),
        (Some(_), None) => false,
        (None, Some(_)) => false,
        (None, None) => true,
    }
}

/// Whether two slots are equal.
fn is_equal(a: &Slot, b: &Slot) -> bool
    ensures { result ≡ slot_eq (Some a.now) (Some b.now) }
{
    match (a, b) {
        (Slot::Alive(a), Slot::Alive(b)) => a.get() == b.get(),
        (Slot::Alive(_), Slot::Deleted) => false,
        (Slot::Deleted, Slot::Alive(_)) => false,
        (Slot::Deleted, Slot::Deleted) => true,
    }
}
