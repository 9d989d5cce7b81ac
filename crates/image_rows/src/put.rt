//! Images with more in them.
ghost use Rattle.std.specs.Prelude.{◌≡◌, IfOk};
ghost use Rattle.image_rows.specs.Reading as reading;

use crate::draft::{Draft, FieldsDraft, LayerDraft, RecordDraft};
use image_text::gql_plain::{NoMemory, SharedText, Words};
use image_text::{ImageHandle, ImageMark, ImageRelease, ImageWatch};
use std::alloc::Global;
use store_model::store_record::{Field, SharedField};
use store_model::{Command, Fact, HandleFact};

/// One record more.
pub fn put_record(mut draft: Draft, row: RecordDraft) -> Result<Draft, NoMemory>
    ensures { IfOk result (λ new. new ≡ reading.put_record row draft) }
{
    draft.records.push(row)?;
    Ok(draft)
}

/// The record with one field more, where it is alive.
fn record_with(
    alloc: Global,
    row: RecordDraft,
    pair: (Words, Field),
) -> Result<Option<RecordDraft>, NoMemory>
    ensures { IfOk result (λ new. new ≡ reading.record_with pair row) }
{
    let RecordDraft { id, slot } = row;
    let (key, field) = pair;
    match slot {
        Some(
            FieldsDraft {
                type_name,
                mut fields,
            },
        ) => {
            let key = SharedText::new(alloc, key)?;
            fields.push(SharedField::new(alloc, key, field)?)?;
            let slot = Some(FieldsDraft { type_name, fields });
            Ok(Some(RecordDraft { id, slot }))
        }
        None => Ok(None),
    }
}

/// One field more of the last record, where it is alive.
#[tactic(auto, using(crate::proofs::Items::on_last_push))]
pub fn put_field(
    alloc: Global,
    mut draft: Draft,
    pair: (Words, Field),
) -> Result<Option<Draft>, NoMemory>
    ensures { IfOk result (λ new. new ≡ reading.put_field pair draft) }
{
    match draft.records.pop() {
        Some(last) => match record_with(alloc, last, pair)? {
            Some(changed) => Ok(Some(put_record(draft, changed)?)),
            None => Ok(None),
        },
        None => Ok(None),
    }
}

/// One layer more.
pub fn put_layer(mut draft: Draft, layer: LayerDraft) -> Result<Draft, NoMemory>
    ensures { IfOk result (λ new. new ≡ reading.put_layer layer draft) }
{
    draft.layers.push(layer)?;
    Ok(draft)
}

/// One fact more of the last layer.
#[tactic(auto, using(crate::proofs::Items::on_last_push))]
pub fn put_fact(mut draft: Draft, fact: Fact) -> Result<Option<Draft>, NoMemory>
    ensures { IfOk result (λ new. new ≡ reading.in_layer (reading.with_fact fact) draft) }
{
    match draft.layers.pop() {
        Some(mut layer) => {
            layer.facts.push(fact)?;
            Ok(Some(put_layer(draft, layer)?))
        }
        None => Ok(None),
    }
}

/// One page more of the last layer.
#[tactic(auto, using(crate::proofs::Items::on_last_push))]
pub fn put_page(mut draft: Draft, page: HandleFact) -> Result<Option<Draft>, NoMemory>
    ensures { IfOk result (λ new. new ≡ reading.in_layer (reading.with_page page) draft) }
{
    match draft.layers.pop() {
        Some(mut layer) => {
            layer.pages.push(page)?;
            Ok(Some(put_layer(draft, layer)?))
        }
        None => Ok(None),
    }
}

/// One command more of the last layer.
#[tactic(auto, using(crate::proofs::Items::on_last_push))]
pub fn put_command(mut draft: Draft, command: Command) -> Result<Option<Draft>, NoMemory>
    ensures { IfOk result (λ new. new ≡ reading.in_layer (reading.with_command command) draft) }
{
    match draft.layers.pop() {
        Some(mut layer) => {
            layer.commands.push(command)?;
            Ok(Some(put_layer(draft, layer)?))
        }
        None => Ok(None),
    }
}

/// One handle more.
pub fn put_handle(mut draft: Draft, handle: ImageHandle) -> Result<Draft, NoMemory>
    ensures { IfOk result (λ new. new ≡ reading.put_handle handle draft) }
{
    draft.handles.push(handle)?;
    Ok(draft)
}

/// One released operation more.
pub fn put_release(mut draft: Draft, release: ImageRelease) -> Result<Draft, NoMemory>
    ensures { IfOk result (λ new. new ≡ reading.put_release release draft) }
{
    draft.released.push(release)?;
    Ok(draft)
}

/// One watch more.
pub fn put_watch(mut draft: Draft, watch: ImageWatch) -> Result<Draft, NoMemory>
    ensures { IfOk result (λ new. new ≡ reading.put_watch watch draft) }
{
    draft.watches.push(watch)?;
    Ok(draft)
}

/// One marked id more.
pub fn put_mark(mut draft: Draft, mark: ImageMark) -> Result<Draft, NoMemory>
    ensures { IfOk result (λ new. new ≡ reading.put_mark mark draft) }
{
    draft.marked.push(mark)?;
    Ok(draft)
}
