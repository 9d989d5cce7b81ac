//! What the items behind a row's name are.
ghost use Rattle.std.specs.Prelude.{◌≡◌, IfOk, option_map};
ghost use Rattle.image_text.specs.image_marks.Flat as flat;
ghost use Rattle.store_model.specs.gql_plain.Shown.{plain_trees, tree_of};
ghost use Rattle.image_rows.specs.RowNames.{names_seen};
ghost use Rattle.image_rows.specs.Reading as reading;

use crate::draft::{FieldsDraft, LayerDraft, RecordDraft};
use crate::value::{command_of_marks, count_in, field_of, marked_pairs, marked_plain};
use image_text::gql_plain::{NoMemory, Plain, Words};
use image_text::{ImageHandle, ImageMark, ImageRelease, ImageWatch};
use std::alloc::Global;
use store_model::store_record::Field;
use store_model::{Command, Commands, Fact, HandleFact, Part};

/// A deleted id.
pub fn deleted_in(row: &[Plain]) -> Result<Option<RecordDraft>, NoMemory>
    ensures { IfOk result (λ new. new ≡ reading.deleted_in (plain_trees row.now)) }
{
    match row {
        [Plain::Text(id)] => {
            let id = id.copy()?;
            Ok(Some(RecordDraft { id, slot: None }))
        }
        _ => Ok(None),
    }
}

/// A record without fields.
pub fn record_in(alloc: Global, row: &[Plain]) -> Result<Option<RecordDraft>, NoMemory>
    ensures { IfOk result (λ new. new ≡ reading.record_in (plain_trees row.now)) }
{
    match row {
        [Plain::Text(id), Plain::Text(type_name)] => {
            let id = id.copy()?;
            let type_name = type_name.copy()?;
            let fields = Vec::new(alloc);
            let slot = Some(FieldsDraft { type_name, fields });
            Ok(Some(RecordDraft { id, slot }))
        }
        _ => Ok(None),
    }
}

/// A key and a field.
pub fn key_and_field_in(alloc: Global, row: &[Plain]) -> Result<Option<(Words, Field)>, NoMemory>
    ensures { IfOk result (λ new. new ≡ reading.key_and_field_in (plain_trees row.now)) }
{
    match row {
        [Plain::Text(key), plain] => {
            let Some(field) = field_of(alloc, plain)? else {
                return Ok(None);
            };
            Ok(Some((key.copy()?, field)))
        }
        _ => Ok(None),
    }
}

/// A layer without facts, pages and commands.
pub fn layer_in(alloc: Global, row: &[Plain]) -> Result<Option<LayerDraft>, NoMemory>
    ensures { IfOk result (λ new. new ≡ reading.layer_in (plain_trees row.now)) }
{
    match row {
        [Plain::Text(name)] => {
            let name = name.copy()?;
            let facts = Vec::new(alloc);
            let pages = Vec::new(alloc);
            let commands = Commands::new(alloc);
            Ok(Some(LayerDraft {
                name,
                facts,
                pages,
                commands,
            }))
        }
        _ => Ok(None),
    }
}

/// A fact.
pub fn fact_in(alloc: Global, row: &[Plain]) -> Result<Option<Fact>, NoMemory>
    ensures { IfOk result (λ new. new ≡ reading.fact_in (plain_trees row.now)) }
{
    match row {
        [Plain::Text(id), Plain::Text(key), plain] => {
            let Some(value) = field_of(alloc, plain)? else {
                return Ok(None);
            };
            let id = id.copy()?;
            let key = key.copy()?;
            Ok(Some(Fact { id, key, value }))
        }
        _ => Ok(None),
    }
}

/// The texts of a page.
#[derive(Clone, Copy)]
struct Names<'a> {
    parent: &'a Words,
    handle_key: &'a Words,
    field_key: &'a Words,
    page_type: &'a Words,
    info_type: &'a Words,
}

/// A page between these cursors.
fn page_of(names: Names<'_>, after: Plain, before: Plain) -> Result<HandleFact, NoMemory>
    ensures { IfOk result (λ page. page ≡ reading.page_of (names_seen names.entry) after before) }
{
    let parent = names.parent.copy()?;
    let handle_key = names.handle_key.copy()?;
    let field_key = names.field_key.copy()?;
    let page_type = names.page_type.copy()?;
    let info_type = names.info_type.copy()?;
    Ok(HandleFact {
        parent,
        handle_key,
        field_key,
        after,
        before,
        page_type,
        info_type,
    })
}

/// A page between the cursors whose marks these are.
fn page_between(
    alloc: Global,
    names: Names<'_>,
    after: &Plain,
    before: &Plain,
) -> Result<Option<HandleFact>, NoMemory>
    ensures { IfOk result
        (λ page. page ≡ reading.page_between (names_seen names.entry) (tree_of after.now) (tree_of before.now)) }
{
    let Some(after) = marked_plain(alloc, after)? else {
        return Ok(None);
    };
    let Some(before) = marked_plain(alloc, before)? else {
        return Ok(None);
    };
    Ok(Some(page_of(names, after, before)?))
}

/// A page.
pub fn page_in(alloc: Global, row: &[Plain]) -> Result<Option<HandleFact>, NoMemory>
    ensures { IfOk result (λ new. new ≡ reading.page_in (plain_trees row.now)) }
{
    match row {
        [
            Plain::Text(parent),
            Plain::Text(handle_key),
            Plain::Text(field_key),
            after,
            before,
            Plain::Text(page_type),
            Plain::Text(info_type),
        ] => {
            let names = Names {
                parent,
                handle_key,
                field_key,
                page_type,
                info_type,
            };
            page_between(alloc, names, after, before)
        }
        _ => Ok(None),
    }
}

/// The only item; takes no memory.
fn only(row: &[Plain]) -> Option<&Plain>
    ensures { option_map (λ plain. tree_of plain.now) result ≡ flat.only (plain_trees row.now) }
{
    match row {
        [plain] => Some(plain),
        _ => None,
    }
}

/// A command.
pub fn command_in(alloc: Global, row: &[Plain]) -> Result<Option<Command>, NoMemory>
    ensures { IfOk result (λ new. new ≡ reading.command_in (plain_trees row.now)) }
{
    match only(row) {
        Some(marks) => command_of_marks(alloc, marks),
        None => Ok(None),
    }
}

/// A handle.
pub fn handle_in(alloc: Global, row: &[Plain]) -> Result<Option<ImageHandle>, NoMemory>
    ensures { IfOk result (λ new. new ≡ reading.handle_in (plain_trees row.now)) }
{
    match row {
        [Plain::Text(name), Plain::Text(op), vars, fresh] => {
            let Some(fresh) = count_in(fresh) else {
                return Ok(None);
            };
            let Some(vars) = marked_pairs(alloc, vars)? else {
                return Ok(None);
            };
            let name = name.copy()?;
            let op = op.copy()?;
            Ok(Some(ImageHandle {
                name,
                op,
                vars,
                fresh,
            }))
        }
        _ => Ok(None),
    }
}

/// A released operation.
pub fn release_in(alloc: Global, row: &[Plain]) -> Result<Option<ImageRelease>, NoMemory>
    ensures { IfOk result (λ new. new ≡ reading.release_in (plain_trees row.now)) }
{
    match row {
        [Plain::Text(op), vars] => {
            let Some(vars) = marked_pairs(alloc, vars)? else {
                return Ok(None);
            };
            let op = op.copy()?;
            Ok(Some(ImageRelease { op, vars }))
        }
        _ => Ok(None),
    }
}

/// The part that is watched, none where the whole operation is.
fn part_in(alloc: Global, row: &[Plain]) -> Result<Option<Option<Part>>, NoMemory>
    ensures { IfOk result (λ new. new ≡ reading.part_in (plain_trees row.now)) }
{
    match row {
        [] => Ok(Some(None)),
        [Plain::Text(fragment), Plain::Text(id), args] => {
            let Some(args) = marked_pairs(alloc, args)? else {
                return Ok(None);
            };
            let fragment = fragment.copy()?;
            let id = id.copy()?;
            Ok(Some(Some(Part { fragment, id, args })))
        }
        _ => Ok(None),
    }
}

/// A watch.
pub fn watch_in(alloc: Global, row: &[Plain]) -> Result<Option<ImageWatch>, NoMemory>
    ensures { IfOk result (λ new. new ≡ reading.watch_in (plain_trees row.now)) }
{
    match row {
        [Plain::Text(name), Plain::Text(handle), rest @ ..] => {
            let Some(part) = part_in(alloc, rest)? else {
                return Ok(None);
            };
            let name = name.copy()?;
            let handle = handle.copy()?;
            Ok(Some(ImageWatch { name, handle, part }))
        }
        _ => Ok(None),
    }
}

/// A marked id.
pub fn mark_in(row: &[Plain]) -> Result<Option<ImageMark>, NoMemory>
    ensures { IfOk result (λ new. new ≡ reading.mark_in (plain_trees row.now)) }
{
    match row {
        [Plain::Text(id), at] => {
            let Some(at) = count_in(at) else {
                return Ok(None);
            };
            let id = id.copy()?;
            Ok(Some(ImageMark { id, at }))
        }
        _ => Ok(None),
    }
}
