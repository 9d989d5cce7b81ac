//! Records and their fields.
ghost use Rattle.std.specs.Prelude.{◌≡◌, map, IfOk};
ghost use Rattle.std.specs.List.{list_all};
ghost use Rattle.image_text.specs.Images as images;
ghost use Rattle.store_model.specs.store_record.Keys.{Text};
ghost use Rattle.store_model.specs.store_record.declared.field.Field as value;
ghost use Rattle.image_text.specs.declared.image.ImageRecord as slot;

use crate::texts::do_rise;
use event_script::is_there;
use image_text::gql_plain::{Id, NoMemory, OptIds, is_name};
use image_text::store_model::store_record::{Field, Fields, Record};
use image_text::{ImageRecord, ImageRecords};
use std::alloc::Global;

/// The id of the root.
const ROOT: &str = "client:root";

/// Whether what may be an id is null, or not empty; takes no memory.
fn is_link(id: &Option<Id>) -> bool
    ensures { result ≡ images.is_link id.now }
{
    match id {
        Some(id) => is_there(id.as_str()),
        None => true,
    }
}

/// Whether each id of a list is; takes no memory.
fn are_links(ids: &OptIds) -> bool
    ensures { result ≡ list_all images.is_link ids.now }
{
    ids.as_slice().iter().all(|id| is_link(id))
}

/// Whether the links of a field are ids; takes no memory.
pub fn has_ids(field: &Field) -> bool
    ensures { result ≡ images.has_ids field.now }
{
    match field {
        Field::Leaf(_) => true,
        Field::Link(id) => is_there(id.as_str()),
        Field::Links(ids) => are_links(ids),
    }
}

/// Whether the links of each field are; takes no memory.
pub fn have_ids(fields: &Fields) -> bool
    ensures { result ≡ list_all (λ (f : Text × value.Field). images.has_ids f.1) fields.now }
{
    fields.as_slice().iter().all(|entry| has_ids(entry.field()))
}

/// Whether a record is as one of an image; takes no memory.
fn is_record(record: &Record) -> bool
    ensures { result ≡ images.is_record record.now }
{
    if !is_name(record.type_name.as_str()) {
        return false;
    }
    if record.fields.get("__typename").is_some() {
        return false;
    }
    have_ids(&record.fields)
}

/// Whether what stands under an id is as it is in an image; takes no memory.
fn is_slot(id: &Id, slot: &Option<Record>) -> bool
    ensures { result ≡ images.is_slot id.now slot.now }
{
    match slot {
        Some(record) => is_record(record),
        None => id.as_str() != ROOT,
    }
}

/// Whether it is, under an id that is not empty; takes no memory.
fn is_image_record(record: &ImageRecord) -> bool
    ensures { result ≡ images.is_image_record record.now }
{
    is_there(record.id.as_str()) && is_slot(&record.id, &record.slot)
}

/// Whether each of the records is; takes no memory.
fn are_image_records(records: &ImageRecords) -> bool
    ensures { result ≡ list_all images.is_image_record records.now }
{
    records.items.iter().all(|record| is_image_record(record))
}

/// The ids of records, in their order.
fn record_ids<'a>(alloc: Global, records: &'a ImageRecords) -> Result<Vec<&'a str>, NoMemory>
    ensures { IfOk result (λ ids. map (λ t. t.now) ids.items ≡ map (λ (r : slot.ImageRecord). r.id) records.now) }
{
    let mut ids = Vec::new(alloc);
    'records: for record in &records.items {
        ids.push(record.id.as_str())?;
    }
    Ok(ids)
}

/// Whether these are the records of an image.
pub fn are_records(alloc: Global, records: &ImageRecords) -> Result<bool, NoMemory>
    ensures { IfOk result (λ yes. yes ≡ images.are_records records.now) }
{
    if !are_image_records(records) {
        return Ok(false);
    }
    let ids = record_ids(alloc, records)?;
    Ok(do_rise(&ids))
}
