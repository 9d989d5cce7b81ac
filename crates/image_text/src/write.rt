//! Writing an image.
ghost use Rattle.std.specs.Prelude.{◌≡◌, [], ◌∷◌, codes, map, length, IfOk, OnOk};
ghost use Rattle.std.specs.List.{AllByRecursion};
ghost use Rattle.std.specs.Map.{keys_of};
ghost use Rattle.std.specs.Str.{IsUtf8};
ghost use Rattle.store_model.specs.gql_plain.Order.{AreInOrder};
ghost use Rattle.store_model.specs.gql_plain.Shown.{tree_of};
ghost use Rattle.store_model.specs.gql_plain.Tree.{text as text_tree};
ghost use Rattle.image_marks.specs.store_record.Keys.{Text};
ghost use Rattle.image_marks.specs.Values.{IsValue};
ghost use Rattle.image_text.specs.Lines as lines;
ghost use Rattle.image_text.specs.Made as made;
ghost use Rattle.image_text.specs.Rows.{Adds, Puts};
ghost use Rattle.image_text.specs.declared.image.ImageHandle as handle;
ghost use Rattle.image_text.specs.declared.image.ImageRecord as slot;
ghost use Rattle.image_text.specs.declared.image.ImageRelease as release;
ghost use Rattle.image_text.specs.declared.image.ImageWatch as watch;

use crate::entry::write_layers;
use crate::image::{
    Image, ImageHandle, ImageHandles, ImageMark, ImageMarks, ImageRecord, ImageRecords,
    ImageRelease, ImageReleases, ImageWatch, ImageWatches,
};
use crate::row::{begin_row, end_row, put_count, put_ids, put_marks, put_pairs, put_text};
use image_marks::gql_plain::{Id, NoMemory, OptIds, Plain, Words};
use json::Writer;
use std::alloc::Global;
use store_model::Part;
use store_model::store_record::{Field, Fields, Record};

/// Puts a value that a record holds.
fn put_leaf(alloc: Global, row: &mut Writer, value: &Plain) -> Result<(), NoMemory>
    ensures leaf { OnOk result
        (Puts (lines.inner (text_tree (codes "leaf") ∷ lines.marks (tree_of value.now) ∷ [])) row.old row.new) }
    ensures made { OnOk result (IsValue (tree_of value.now)) }
{
    row.begin_array()?;
    put_text(row, "leaf")?;
    put_marks(alloc, row, value)?;
    row.end_array()?;
    Ok(())
}

/// Puts a link.
fn put_link(row: &mut Writer, id: &Id) -> Result<(), NoMemory>
    ensures { OnOk result (Puts (lines.inner (text_tree (codes "link") ∷ text_tree id.now ∷ [])) row.old row.new) }
{
    row.begin_array()?;
    put_text(row, "link")?;
    put_text(row, id.as_str())?;
    row.end_array()?;
    Ok(())
}

/// Puts a list of links and nulls.
fn put_links(row: &mut Writer, ids: &OptIds) -> Result<(), NoMemory>
    ensures { OnOk result
        (Puts (lines.inner (text_tree (codes "links") ∷ lines.inner (map lines.id_or_null ids.now) ∷ [])) row.old row.new) }
{
    row.begin_array()?;
    put_text(row, "links")?;
    put_ids(row, ids)?;
    row.end_array()?;
    Ok(())
}

/// Puts what a record holds under a key.
pub fn put_field(alloc: Global, row: &mut Writer, field: &Field) -> Result<(), NoMemory>
    ensures field { OnOk result (Puts (lines.field_tree field.now) row.old row.new) }
    ensures made { OnOk result (made.IsFieldMade field.now) }
{
    match field {
        Field::Leaf(value) => put_leaf(alloc, row, value),
        Field::Link(id) => put_link(row, id),
        Field::Links(ids) => put_links(row, ids),
    }
}

/// Writes the line of a field of a record.
fn write_field(alloc: Global, out: Vec<u8>, key: &str, field: &Field) -> Result<Vec<u8>, NoMemory>
    ensures row { IfOk result (λ new. Adds (lines.field_row (key.now, field.now) ∷ []) out.items new.items) }
    ensures made { OnOk result (made.IsFieldMade field.now) }
{
    let mut row = begin_row(out, "field")?;
    put_text(&mut row, key)?;
    put_field(alloc, &mut row, field)?;
    Ok(end_row(row)?)
}

/// Writes the lines of a record's fields.
fn write_fields(alloc: Global, out: Vec<u8>, fields: &Fields) -> Result<Vec<u8>, NoMemory>
    ensures rows { IfOk result (λ new. Adds (map lines.field_row fields.now) out.items new.items) }
    ensures made { OnOk result (made.AreFieldsMade fields.now) }
    ensures order { OnOk result (AreInOrder (keys_of fields.now)) }
{
    let mut out = out;
    'fields: for entry in fields.as_slice() {
        out = write_field(alloc, out, entry.key(), entry.field())?;
    }
    Ok(out)
}

/// Writes the line of a deleted record.
fn write_deleted(out: Vec<u8>, id: &Id) -> Result<Vec<u8>, NoMemory>
    ensures { IfOk result (λ new. Adds ((text_tree (codes "deleted") ∷ text_tree id.now ∷ []) ∷ []) out.items new.items) }
{
    let mut row = begin_row(out, "deleted")?;
    put_text(&mut row, id.as_str())?;
    Ok(end_row(row)?)
}

/// Writes the line of a live record, without its fields.
fn write_live(out: Vec<u8>, id: &Id, type_name: &Words) -> Result<Vec<u8>, NoMemory>
    ensures { IfOk result
        (λ new. Adds ((text_tree (codes "record") ∷ text_tree id.now ∷ text_tree type_name.now ∷ []) ∷ []) out.items new.items) }
{
    let mut row = begin_row(out, "record")?;
    put_text(&mut row, id.as_str())?;
    put_text(&mut row, type_name.as_str())?;
    Ok(end_row(row)?)
}

/// Writes the lines of what stands under an id.
fn write_slot(
    alloc: Global,
    out: Vec<u8>,
    id: &Id,
    slot: &Option<Record>,
) -> Result<Vec<u8>, NoMemory>
    ensures rows { IfOk result (λ new. Adds (lines.slot_rows id.now slot.now) out.items new.items) }
    ensures made { OnOk result (made.IsSlotMade slot.now) }
{
    match slot {
        Some(record) => {
            let out = write_live(out, id, &record.type_name)?;
            Ok(write_fields(alloc, out, &record.fields)?)
        }
        None => Ok(write_deleted(out, id)?),
    }
}

/// Writes the lines of the records.
fn write_records(alloc: Global, out: Vec<u8>, records: &ImageRecords) -> Result<Vec<u8>, NoMemory>
    ensures rows { IfOk result (λ new. Adds (lines.joined lines.record_rows records.now) out.items new.items) }
    ensures made { OnOk result (AllByRecursion (λ (r : slot.ImageRecord). made.IsSlotMade r.slot) records.now) }
{
    let mut out = out;
    'records: for record in &records.items {
        out = write_slot(alloc, out, &record.id, &record.slot)?;
    }
    Ok(out)
}

/// Writes the line of a handle.
fn write_handle(alloc: Global, out: Vec<u8>, handle: &ImageHandle) -> Result<Vec<u8>, NoMemory>
    ensures row { IfOk result (λ new. Adds (lines.handle_row handle.now ∷ []) out.items new.items) }
    ensures made { OnOk result (made.ArePairsMade handle.now.vars) }
{
    let mut row = begin_row(out, "handle")?;
    put_text(&mut row, handle.name.as_str())?;
    put_text(&mut row, handle.op.as_str())?;
    put_pairs(alloc, &mut row, &handle.vars)?;
    put_count(&mut row, handle.fresh)?;
    Ok(end_row(row)?)
}

/// Writes the lines of the handles.
fn write_handles(alloc: Global, out: Vec<u8>, handles: &ImageHandles) -> Result<Vec<u8>, NoMemory>
    ensures rows { IfOk result (λ new. Adds (map lines.handle_row handles.now) out.items new.items) }
    ensures made { OnOk result (AllByRecursion (λ (h : handle.ImageHandle). made.ArePairsMade h.vars) handles.now) }
{
    let mut out = out;
    'handles: for handle in &handles.items {
        out = write_handle(alloc, out, handle)?;
    }
    Ok(out)
}

/// Writes the line of a released operation.
fn write_release(alloc: Global, out: Vec<u8>, release: &ImageRelease) -> Result<Vec<u8>, NoMemory>
    ensures row { IfOk result (λ new. Adds (lines.released_row release.now ∷ []) out.items new.items) }
    ensures made { OnOk result (made.ArePairsMade release.now.vars) }
{
    let mut row = begin_row(out, "released")?;
    put_text(&mut row, release.op.as_str())?;
    put_pairs(alloc, &mut row, &release.vars)?;
    Ok(end_row(row)?)
}

/// Writes the lines of the released operations.
fn write_releases(
    alloc: Global,
    out: Vec<u8>,
    released: &ImageReleases,
) -> Result<Vec<u8>, NoMemory>
    ensures rows { IfOk result (λ new. Adds (map lines.released_row released.now) out.items new.items) }
    ensures made { OnOk result (AllByRecursion (λ (r : release.ImageRelease). made.ArePairsMade r.vars) released.now) }
{
    let mut out = out;
    'released: for release in &released.items {
        out = write_release(alloc, out, release)?;
    }
    Ok(out)
}

/// Writes the line of a watch of an operation.
fn write_whole_watch(out: Vec<u8>, name: &Words, handle: &Words) -> Result<Vec<u8>, NoMemory>
    ensures { IfOk result
        (λ new. Adds ((text_tree (codes "watch") ∷ text_tree name.now ∷ text_tree handle.now ∷ []) ∷ []) out.items new.items) }
{
    let mut row = begin_row(out, "watch")?;
    put_text(&mut row, name.as_str())?;
    put_text(&mut row, handle.as_str())?;
    Ok(end_row(row)?)
}

/// Writes the line of a watch of a fragment.
fn write_part_watch(
    alloc: Global,
    out: Vec<u8>,
    name: &Words,
    handle: &Words,
    part: &Part,
) -> Result<Vec<u8>, NoMemory>
    ensures row { IfOk result
        (λ new. Adds
        ((text_tree (codes "watch") ∷ text_tree name.now ∷ text_tree handle.now ∷ text_tree part.now.fragment ∷ text_tree part.now.id
        ∷ lines.marks (lines.pairs part.now.args) ∷ []) ∷ [])
        out.items new.items) }
    ensures made { OnOk result (made.ArePairsMade part.now.args) }
{
    let mut row = begin_row(out, "watch")?;
    put_text(&mut row, name.as_str())?;
    put_text(&mut row, handle.as_str())?;
    put_text(&mut row, part.fragment.as_str())?;
    put_text(&mut row, part.id.as_str())?;
    put_pairs(alloc, &mut row, &part.args)?;
    Ok(end_row(row)?)
}

/// Writes the line of a watch.
fn write_watch(alloc: Global, out: Vec<u8>, watch: &ImageWatch) -> Result<Vec<u8>, NoMemory>
    ensures row { IfOk result (λ new. Adds (lines.watch_row watch.now ∷ []) out.items new.items) }
    ensures made { OnOk result (made.IsPartMade watch.now.part) }
{
    match &watch.part {
        Some(part) => Ok(write_part_watch(alloc, out, &watch.name, &watch.handle, part)?),
        None => Ok(write_whole_watch(out, &watch.name, &watch.handle)?),
    }
}

/// Writes the lines of the watches.
fn write_watches(alloc: Global, out: Vec<u8>, watches: &ImageWatches) -> Result<Vec<u8>, NoMemory>
    ensures rows { IfOk result (λ new. Adds (map lines.watch_row watches.now) out.items new.items) }
    ensures made { OnOk result (AllByRecursion (λ (w : watch.ImageWatch). made.IsPartMade w.part) watches.now) }
{
    let mut out = out;
    'watches: for watch in &watches.items {
        out = write_watch(alloc, out, watch)?;
    }
    Ok(out)
}

/// Writes the line of a marked id.
fn write_mark(out: Vec<u8>, mark: &ImageMark) -> Result<Vec<u8>, NoMemory>
    ensures { IfOk result (λ new. Adds (lines.mark_row mark.now ∷ []) out.items new.items) }
{
    let mut row = begin_row(out, "mark")?;
    put_text(&mut row, mark.id.as_str())?;
    put_count(&mut row, mark.at)?;
    Ok(end_row(row)?)
}

/// Writes the lines of the marked ids.
fn write_marked(out: Vec<u8>, marked: &ImageMarks) -> Result<Vec<u8>, NoMemory>
    ensures { IfOk result (λ new. Adds (map lines.mark_row marked.now) out.items new.items) }
{
    let mut out = out;
    'marked: for mark in &marked.items {
        out = write_mark(out, mark)?;
    }
    Ok(out)
}

/// Writes the first line.
fn write_head(out: Vec<u8>, image: &Image) -> Result<Vec<u8>, NoMemory>
    ensures { IfOk result (λ new. Adds (lines.head_row image.now ∷ []) out.items new.items) }
{
    let mut row = begin_row(out, "image")?;
    put_count(&mut row, 1)?;
    put_count(&mut row, image.buffer)?;
    put_count(&mut row, image.lines)?;
    put_count(&mut row, image.marks)?;
    put_count(&mut row, image.whole)?;
    Ok(end_row(row)?)
}

/// Writes the last line.
fn write_end(out: Vec<u8>) -> Result<Vec<u8>, NoMemory>
    ensures { IfOk result (λ new. Adds (lines.end_row ∷ []) out.items new.items) }
{
    let row = begin_row(out, "end")?;
    Ok(end_row(row)?)
}

/// The text of an image, which is UTF-8 and has a line for each row. Whatever the image is, it is written.
pub fn write_image(alloc: Global, image: &Image) -> Result<Vec<u8>, NoMemory>
    ensures text { IfOk result (λ bytes. bytes.items ≡ lines.image_text image.now) }
    ensures utf8 { OnOk result (IsUtf8 (lines.image_text image.now)) }
    ensures made { OnOk result (made.IsMade image.now) }
{
    let head = write_head(Vec::new(alloc), image)?;
    let records = write_records(alloc, head, &image.records)?;
    let layers = write_layers(alloc, records, &image.layers)?;
    let handles = write_handles(alloc, layers, &image.handles)?;
    let released = write_releases(alloc, handles, &image.released)?;
    let watches = write_watches(alloc, released, &image.watches)?;
    let marked = write_marked(watches, &image.marked)?;
    Ok(write_end(marked)?)
}
