//! The row of an object.
ghost use Rattle.std.specs.Prelude.{◌≡◌, ◌⊎◌, false, None, IfOk};
ghost use Rattle.gql_order.specs.gql_plain.Names.{is_name};
ghost use Rattle.gql_order.specs.gql_plain.Order.{member_at};
ghost use Rattle.store_model.specs.Records.{typename};
ghost use Rattle.store_report.specs.Joining.{IsObjectRow, row_facts};
ghost use Rattle.store_report.specs.ObjectRows.{HaveClash, HoldSame, object_facts};

use crate::row_fields::{Ordered, by_key, has_type_key, without_name};
use gql_order::gql_plain::{Id, Name, NoMemory, is_name};
use store_model::FactRow;
use store_model::store_record::SharedField;

/// A row whose fields are not in order, and may be no row's.
#[derive(Drop)]
pub(crate) struct BegunRow {
    pub(crate) id: Id,
    pub(crate) type_name: Name,
    pub(crate) fields: Vec<SharedField>,
}

/// What is said of an object.
#[derive(Drop)]
pub(crate) enum ObjectRow {
    /// Its fields in order of their keys.
    Whole(FactRow),
    /// A field has two values, or the name of its type is no Name.
    Torn(BegunRow),
}

/// The row of an object. The name of its type may be said again by a field.
pub(crate) fn object_row(
    id: Id,
    type_name: Name,
    fields: Vec<SharedField>,
) -> Result<ObjectRow, NoMemory>
    ensures same { IfOk result (λ row. HoldSame (row_facts row) (object_facts id type_name fields.items)) }
    ensures right { IfOk result IsObjectRow }
{
    if !has_type_key(&fields) {
        return apart_row(id, type_name, fields);
    }
    let fields = without_name(fields, type_name.as_str());
    if has_type_key(&fields) {
        return Ok(torn(id, type_name, fields));
    }
    apart_row(id, type_name, fields)
}

/// The row of an object, none of whose fields has the key of the name of a type.
fn apart_row(id: Id, type_name: Name, fields: Vec<SharedField>) -> Result<ObjectRow, NoMemory>
    requires { member_at fields.items typename ≡ None }
    ensures same { IfOk result (λ row. HoldSame (row_facts row) (object_facts id type_name fields.items)) }
    ensures right { IfOk result IsObjectRow }
{
    if !is_name(type_name.as_str()) {
        return Ok(torn(id, type_name, fields));
    }
    match by_key(fields)? {
        Ordered::Whole(fields) => Ok(ObjectRow::Whole(FactRow {
            id,
            type_name,
            fields,
        })),
        Ordered::Torn(fields) => Ok(torn(id, type_name, fields)),
    }
}

/// A row that is torn.
fn torn(id: Id, type_name: Name, fields: Vec<SharedField>) -> ObjectRow
    ensures same { row_facts result ≡ object_facts id type_name fields.items }
    ensures right { (is_name type_name ≡ false) ⊎ HaveClash (object_facts id type_name fields.items) → IsObjectRow result }
{
    ObjectRow::Torn(BegunRow {
        id,
        type_name,
        fields,
    })
}
