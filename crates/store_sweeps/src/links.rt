//! The ids that fields link to.
ghost use Rattle.std.specs.Prelude.{◌≡◌, ◌++◌, [], ◌∷◌, OnOk};
ghost use Rattle.store_model.specs.Entries.{ids_in, some_id, some_ids};
ghost use Rattle.store_model.specs.Leads.{ids_of_fields};

use store_model::gql_plain::{Id, NoMemory, OptIds, Words};
use store_model::store_record::{Field, Fields};

/// Puts the ids that fields link to at the end: field by field, those of a list in their order.
pub fn put_links(fields: &Fields, ids: &mut Vec<Words>) -> Result<(), NoMemory>
    ensures { OnOk result (ids.new.items ≡ ids.old.items ++ ids_of_fields fields.now) }
{
    'fields: for field in fields.as_slice() {
        put_links_of(field.field(), ids)?;
    }
    Ok(())
}

/// Puts the ids that a field links to at the end.
fn put_links_of(field: &Field, ids: &mut Vec<Words>) -> Result<(), NoMemory>
    ensures { OnOk result (ids.new.items ≡ ids.old.items ++ ids_in field.now) }
{
    match field {
        Field::Leaf(_) => Ok(()),
        Field::Link(id) => put_id(id, ids),
        Field::Links(links) => put_some(links, ids),
    }
}

/// Puts the ids of a list of ids and nulls at the end.
pub(crate) fn put_some(links: &OptIds, ids: &mut Vec<Words>) -> Result<(), NoMemory>
    ensures { OnOk result (ids.new.items ≡ ids.old.items ++ some_ids links.now) }
{
    'links: for link in links.as_slice() {
        put_any(link, ids)?;
    }
    Ok(())
}

/// Puts an id at the end, where there is one.
pub(crate) fn put_any(link: &Option<Id>, ids: &mut Vec<Words>) -> Result<(), NoMemory>
    ensures { OnOk result (ids.new.items ≡ ids.old.items ++ some_id link.now) }
{
    match link {
        Some(id) => put_id(id, ids),
        None => Ok(()),
    }
}

/// Puts an id at the end.
pub(crate) fn put_id(id: &Id, ids: &mut Vec<Words>) -> Result<(), NoMemory>
    ensures { OnOk result (ids.new.items ≡ ids.old.items ++ id.now ∷ []) }
{
    ids.push(id.copy()?)?;
    Ok(())
}
