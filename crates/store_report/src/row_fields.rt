//! The fields of a row in order of their keys.
ghost use Rattle.std.specs.Prelude.{◌≡◌, true, false, None, IfOk};
ghost use Rattle.std.specs.List.Sorted.{IsPermutation, IsSorted};
ghost use Rattle.std.specs.Map.{keys_of};
ghost use Rattle.gql_order.specs.gql_plain.Order.{AreInOrder, member_at};
ghost use Rattle.store_model.specs.FactOrder.{text_cmp};
ghost use Rattle.store_model.specs.Records.{typename};
ghost use Rattle.store_model.specs.store_record.Equal.{entry_eq};
ghost use Rattle.store_report.specs.ObjectRows.{HoldSame};
ghost use Rattle.store_report.specs.RowFields.{AreOthers, DoFall, HasTypeKey, IsOrdered, entries_of, says_name};

use gql_order::gql_plain::{NoMemory, Plain};
use gql_order::ordered_by_heads;
use store_model::store_record::{Field, Fields, SharedField};

/// The fields of a row, in order of their keys where no key has two values.
#[derive(Drop)]
pub(crate) enum Ordered {
    /// In order, each once.
    Whole(Fields),
    /// One of the keys has two values.
    Torn(Vec<SharedField>),
}

/// The fields in order of their keys, each once. Those that are in order are left as they stand, and
/// take no memory; of many the keys are compared only where the order of heads leaves it open.
pub(crate) fn by_key(fields: Vec<SharedField>) -> Result<Ordered, NoMemory>
    ensures same { IfOk result (λ ordered. HoldSame (entries_of ordered) fields.items) }
    ensures order { IfOk result IsOrdered }
{
    if do_rise(&fields) {
        return Ok(Ordered::Whole(Fields::from_entries(fields)));
    }
    let moved = ordered_by_heads(fields, |field| field.key())?;
    if moved.is_rising {
        return Ok(Ordered::Whole(Fields::from_entries(moved.items)));
    }
    settled(moved.items)
}

/// The fields in order of their keys, each once.
fn settled(fields: Vec<SharedField>) -> Result<Ordered, NoMemory>
    ensures same { IfOk result (λ ordered. HoldSame (entries_of ordered) fields.items) }
    ensures order { IfOk result IsOrdered }
{
    let mut sorted = in_order(fields)?;
    sorted.dedup_by(|next, kept| is_same(next, kept));
    if do_rise(&sorted) {
        return Ok(Ordered::Whole(Fields::from_entries(sorted)));
    }
    Ok(Ordered::Torn(sorted))
}

/// The fields in order of their keys.
fn in_order(mut fields: Vec<SharedField>) -> Result<Vec<SharedField>, NoMemory>
    ensures same { IfOk result (λ moved. IsPermutation fields.items moved.items) }
    ensures order { IfOk result (λ moved. IsSorted (λ a b. text_cmp a.0 b.0) moved.items) }
{
    fields.sort_by(|one, other| one.key().cmp(other.key()))?;
    Ok(fields)
}

/// Whether each key stands after the one before it; takes no memory.
fn do_rise(fields: &[SharedField]) -> bool
    ensures rise { result ≡ true → AreInOrder (keys_of fields.now) }
    ensures fall { result ≡ false → DoFall fields.now }
{
    fields.is_sorted_by(|one, other| one.key().cmp(other.key()).is_lt())
}

/// Whether two fields have one key and equal values; takes no memory.
fn is_same(one: &SharedField, other: &SharedField) -> bool
    ensures { result ≡ entry_eq one.now other.now }
{
    one.key() == other.key() && one.field() == other.field()
}

/// Whether one of the fields has the key of the name of a type; takes no memory.
pub(crate) fn has_type_key(fields: &[SharedField]) -> bool
    ensures none { result ≡ false → member_at fields.now typename ≡ None }
    ensures some { result ≡ true → HasTypeKey fields.now }
{
    'fields: for field in fields {
        if field.key() == "__typename" {
            return true;
        }
    }
    false
}

/// The fields, without those that say the name of the type; takes no memory.
pub(crate) fn without_name(mut fields: Vec<SharedField>, name: &str) -> Vec<SharedField>
    ensures { AreOthers name.now result.items fields.items }
{
    fields.retain(|field| !does_say(field, name));
    fields
}

/// Whether a field says the name of the type; takes no memory.
fn does_say(field: &SharedField, name: &str) -> bool
    ensures { result ≡ says_name name.now field.now }
{
    if field.key() != "__typename" {
        return false;
    }
    match field.field() {
        Field::Leaf(Plain::Text(text)) => text.as_str() == name,
        _ => false,
    }
}
