//! What lines add to an image.
ghost use Rattle.std.specs.Prelude.{◌≡◌, IfOk, option_and_then, option_map};
ghost use Rattle.store_model.specs.gql_plain.Shown.{plain_trees};
ghost use Rattle.image_rows.specs.Reading as reading;
ghost use Rattle.image_rows.specs.Texts as texts;

use crate::draft::Draft;
use crate::line::row_of_line;
use crate::put::{
    put_command, put_fact, put_field, put_handle, put_layer, put_mark, put_page, put_record,
    put_release, put_watch,
};
use crate::row::{
    command_in, deleted_in, fact_in, handle_in, key_and_field_in, layer_in, mark_in, page_in,
    record_in, release_in, watch_in,
};
use crate::value::count_in;
use image_text::gql_plain::{NoMemory, Plain};
use std::alloc::Global;

/// An image that holds nothing; takes no memory.
fn empty(alloc: Global, buffer: u64, lines: u64, marks: u64, whole: u64) -> Draft
    ensures { result ≡ reading.empty_image buffer lines marks whole }
{
    Draft {
        buffer,
        lines,
        marks,
        whole,
        records: Vec::new(alloc),
        layers: Vec::new(alloc),
        handles: Vec::new(alloc),
        released: Vec::new(alloc),
        watches: Vec::new(alloc),
        marked: Vec::new(alloc),
    }
}

/// The image that a first row begins; takes no memory.
fn begun(alloc: Global, row: &[Plain]) -> Option<Draft>
    ensures { result ≡ reading.begun (plain_trees row.now) }
{
    match row {
        [_, _, buffer, lines, marks, whole] => {
            let Some(buffer) = count_in(buffer) else {
                return None;
            };
            let Some(lines) = count_in(lines) else {
                return None;
            };
            let Some(marks) = count_in(marks) else {
                return None;
            };
            let Some(whole) = count_in(whole) else {
                return None;
            };
            Some(empty(alloc, buffer, lines, marks, whole))
        }
        _ => None,
    }
}

/// A deleted id.
fn take_deleted(draft: Draft, row: &[Plain]) -> Result<Option<Draft>, NoMemory>
    ensures { IfOk result (λ new. new ≡ option_map (λ r. reading.put_record r draft) (reading.deleted_in (plain_trees row.now))) }
{
    match deleted_in(row)? {
        Some(item) => Ok(Some(put_record(draft, item)?)),
        None => Ok(None),
    }
}

/// A record.
fn take_record(alloc: Global, draft: Draft, row: &[Plain]) -> Result<Option<Draft>, NoMemory>
    ensures { IfOk result (λ new. new ≡ option_map (λ r. reading.put_record r draft) (reading.record_in (plain_trees row.now))) }
{
    match record_in(alloc, row)? {
        Some(item) => Ok(Some(put_record(draft, item)?)),
        None => Ok(None),
    }
}

/// A field of the last record.
fn take_field(alloc: Global, draft: Draft, row: &[Plain]) -> Result<Option<Draft>, NoMemory>
    ensures { IfOk result (λ new. new ≡ option_and_then (λ f. reading.put_field f draft) (reading.key_and_field_in (plain_trees row.now))) }
{
    match key_and_field_in(alloc, row)? {
        Some(item) => put_field(alloc, draft, item),
        None => Ok(None),
    }
}

/// A layer.
fn take_layer(alloc: Global, draft: Draft, row: &[Plain]) -> Result<Option<Draft>, NoMemory>
    ensures { IfOk result (λ new. new ≡ option_map (λ l. reading.put_layer l draft) (reading.layer_in (plain_trees row.now))) }
{
    match layer_in(alloc, row)? {
        Some(item) => Ok(Some(put_layer(draft, item)?)),
        None => Ok(None),
    }
}

/// A fact of the last layer.
fn take_fact(alloc: Global, draft: Draft, row: &[Plain]) -> Result<Option<Draft>, NoMemory>
    ensures { IfOk result (λ new. new ≡ option_and_then (λ f. reading.in_layer (reading.with_fact f) draft) (reading.fact_in (plain_trees row.now))) }
{
    match fact_in(alloc, row)? {
        Some(item) => put_fact(draft, item),
        None => Ok(None),
    }
}

/// A page of the last layer.
fn take_page(alloc: Global, draft: Draft, row: &[Plain]) -> Result<Option<Draft>, NoMemory>
    ensures { IfOk result (λ new. new ≡ option_and_then (λ h. reading.in_layer (reading.with_page h) draft) (reading.page_in (plain_trees row.now))) }
{
    match page_in(alloc, row)? {
        Some(item) => put_page(draft, item),
        None => Ok(None),
    }
}

/// A command of the last layer.
fn take_command(alloc: Global, draft: Draft, row: &[Plain]) -> Result<Option<Draft>, NoMemory>
    ensures { IfOk result (λ new. new ≡ option_and_then (λ c. reading.in_layer (reading.with_command c) draft) (reading.command_in (plain_trees row.now))) }
{
    match command_in(alloc, row)? {
        Some(item) => put_command(draft, item),
        None => Ok(None),
    }
}

/// A handle.
fn take_handle(alloc: Global, draft: Draft, row: &[Plain]) -> Result<Option<Draft>, NoMemory>
    ensures { IfOk result (λ new. new ≡ option_map (λ h. reading.put_handle h draft) (reading.handle_in (plain_trees row.now))) }
{
    match handle_in(alloc, row)? {
        Some(item) => Ok(Some(put_handle(draft, item)?)),
        None => Ok(None),
    }
}

/// A released operation.
fn take_release(alloc: Global, draft: Draft, row: &[Plain]) -> Result<Option<Draft>, NoMemory>
    ensures { IfOk result (λ new. new ≡ option_map (λ r. reading.put_release r draft) (reading.release_in (plain_trees row.now))) }
{
    match release_in(alloc, row)? {
        Some(item) => Ok(Some(put_release(draft, item)?)),
        None => Ok(None),
    }
}

/// A watch.
fn take_watch(alloc: Global, draft: Draft, row: &[Plain]) -> Result<Option<Draft>, NoMemory>
    ensures { IfOk result (λ new. new ≡ option_map (λ w. reading.put_watch w draft) (reading.watch_in (plain_trees row.now))) }
{
    match watch_in(alloc, row)? {
        Some(item) => Ok(Some(put_watch(draft, item)?)),
        None => Ok(None),
    }
}

/// A marked id.
fn take_mark(draft: Draft, row: &[Plain]) -> Result<Option<Draft>, NoMemory>
    ensures { IfOk result (λ new. new ≡ option_map (λ m. reading.put_mark m draft) (reading.mark_in (plain_trees row.now))) }
{
    match mark_in(row)? {
        Some(item) => Ok(Some(put_mark(draft, item)?)),
        None => Ok(None),
    }
}

/// What the row of this name adds.
fn take_named(
    alloc: Global,
    draft: Draft,
    name: &str,
    row: &[Plain],
) -> Result<Option<Draft>, NoMemory>
    ensures { IfOk result (λ new. new ≡ reading.take_named name.now (plain_trees row.now) draft) }
{
    if name == "deleted" {
        return take_deleted(draft, row);
    }
    if name == "record" {
        return take_record(alloc, draft, row);
    }
    if name == "field" {
        return take_field(alloc, draft, row);
    }
    if name == "layer" {
        return take_layer(alloc, draft, row);
    }
    if name == "fact" {
        return take_fact(alloc, draft, row);
    }
    if name == "page" {
        return take_page(alloc, draft, row);
    }
    if name == "do" {
        return take_command(alloc, draft, row);
    }
    if name == "handle" {
        return take_handle(alloc, draft, row);
    }
    if name == "released" {
        return take_release(alloc, draft, row);
    }
    if name == "watch" {
        return take_watch(alloc, draft, row);
    }
    if name == "mark" {
        return take_mark(draft, row);
    }
    if name == "end" {
        return Ok(Some(draft));
    }
    Ok(None)
}

/// What a row adds.
fn take_row(alloc: Global, draft: Draft, row: &[Plain]) -> Result<Option<Draft>, NoMemory>
    ensures { IfOk result (λ new. new ≡ reading.take_row (plain_trees row.now) draft) }
{
    match row {
        [Plain::Text(name), rest @ ..] => take_named(alloc, draft, name.as_str(), rest),
        _ => Ok(None),
    }
}

/// The image that a first line begins, or None where it begins none.
pub fn begin(alloc: Global, line: &str) -> Result<Option<Draft>, NoMemory>
    ensures { IfOk result (λ draft. draft ≡ texts.begun_by line.now) }
{
    match row_of_line(alloc, line)? {
        Some(row) => Ok(begun(alloc, row.as_slice())),
        None => Ok(None),
    }
}

/// The image with what a further line says, or None where it says nothing.
pub fn take_line(alloc: Global, draft: Draft, line: &str) -> Result<Option<Draft>, NoMemory>
    ensures { IfOk result (λ new. new ≡ texts.take_line line.now draft) }
{
    match row_of_line(alloc, line)? {
        Some(row) => take_row(alloc, draft, row.as_slice()),
        None => Ok(None),
    }
}
