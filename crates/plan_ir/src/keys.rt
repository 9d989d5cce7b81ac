//! The storage keys of fields that are the same in each environment.
ghost use Rattle.std.specs.Prelude.{◌≡◌, IfOk};
ghost use Rattle.plan_ir.specs.FieldKeys as keys;

use relay_marks::{Arguments, evaluate_constants, have_constants};
use std::alloc::Global;
use store_model::gql_plain::{Name, NoMemory, SharedText};
use store_model::store_record::field_key;

/// The key that a field is stored under, where no variable stands in its arguments; else None.
pub(crate) fn constant_key(
    alloc: Global,
    name: &Name,
    arguments: &Arguments,
) -> Result<Option<SharedText>, NoMemory>
    ensures { IfOk result (λ key. key ≡ keys.constant_key name.now arguments.now) }
{
    if !have_constants(arguments) {
        return Ok(None);
    }
    let values = evaluate_constants(alloc, arguments)?;
    let key = field_key(alloc, name, &values)?;
    Ok(Some(SharedText::new(alloc, key)?))
}
