//! Writing layers and their entries.
ghost use Rattle.std.specs.Prelude.{◌≡◌, [], ◌∷◌, codes, map, IfOk, OnOk};
ghost use Rattle.std.specs.List.{AllByRecursion};
ghost use Rattle.std.specs.Map.{keys_of};
ghost use Rattle.store_model.specs.gql_plain.Order.{AreInOrder};
ghost use Rattle.store_model.specs.gql_plain.Tree.{text as text_tree};
ghost use Rattle.image_marks.specs.store_record.Keys.{Text};
ghost use Rattle.image_marks.specs.store_record.declared.field.Field as value;
ghost use Rattle.store_model.specs.FactRows.{fact_at, facts_of_row, fields_of};
ghost use Rattle.store_model.specs.FactOrder.{AreHandlesInOrder};
ghost use Rattle.store_model.specs.declared.facts.Fact as fact;
ghost use Rattle.image_text.specs.Lines as lines;
ghost use Rattle.image_text.specs.Made as made;
ghost use Rattle.image_text.specs.Rows.{Adds};

use crate::command::command_plain;
use crate::image::{ImageLayer, ImageLayers};
use crate::row::{begin_row, end_row, put_marks, put_text};
use crate::write::put_field;
use image_marks::gql_plain::{Id, NoMemory, Plain, Words};
use std::alloc::Global;
use store_model::store_record::{Field, Fields};
use store_model::{Command, Commands, Entry, FactList, FactRow, HandleFact, HandleFacts};

/// Writes the line of a fact.
fn write_fact(
    alloc: Global,
    out: Vec<u8>,
    id: &Id,
    key: &str,
    field: &Field,
) -> Result<Vec<u8>, NoMemory>
    ensures row { IfOk result (λ new. Adds (lines.fact_row (fact_at id.now (key.now, field.now)) ∷ []) out.items new.items) }
    ensures made { OnOk result (made.IsFieldMade field.now) }
{
    let mut row = begin_row(out, "fact")?;
    put_text(&mut row, id.as_str())?;
    put_text(&mut row, key)?;
    put_field(alloc, &mut row, field)?;
    Ok(end_row(row)?)
}

/// The fields of a row, the name of its type among them.
fn named_fields(alloc: Global, row: &FactRow) -> Result<Fields, NoMemory>
    ensures named { IfOk result (λ fields. fields ≡ fields_of row.now) }
    ensures order { OnOk result (AreInOrder (keys_of row.now.fields)) }
{
    let key = Words::new(alloc, "__typename")?;
    let name = row.type_name.copy()?;
    let mut fields = row.fields.copy()?;
    fields.put(key, Field::Leaf(Plain::Text(name)))?;
    Ok(fields)
}

/// Writes the lines of the facts of fields of one record.
fn write_facts_at(
    alloc: Global,
    out: Vec<u8>,
    id: &Id,
    fields: &Fields,
) -> Result<Vec<u8>, NoMemory>
    ensures rows { IfOk result (λ new. Adds (map lines.fact_row (map (fact_at id.now) fields.now)) out.items new.items) }
    ensures made { OnOk result (AllByRecursion (λ (f : fact.Fact). made.IsFieldMade f.value) (map (fact_at id.now) fields.now)) }
{
    let mut out = out;
    'fields: for entry in fields.as_slice() {
        out = write_fact(alloc, out, id, entry.key(), entry.field())?;
    }
    Ok(out)
}

/// Writes the lines of the facts of a row.
fn write_row(alloc: Global, out: Vec<u8>, row: &FactRow) -> Result<Vec<u8>, NoMemory>
    ensures rows { IfOk result (λ new. Adds (map lines.fact_row (facts_of_row row.now)) out.items new.items) }
    ensures made { OnOk result (AllByRecursion (λ (f : fact.Fact). made.IsFieldMade f.value) (facts_of_row row.now)) }
    ensures order { OnOk result (AreInOrder (keys_of row.now.fields)) }
{
    let fields = named_fields(alloc, row)?;
    Ok(write_facts_at(alloc, out, &row.id, &fields)?)
}

/// Writes the lines of facts.
fn write_facts(alloc: Global, out: Vec<u8>, facts: &FactList) -> Result<Vec<u8>, NoMemory>
    ensures rows { IfOk result (λ new. Adds (map lines.fact_row facts.now) out.items new.items) }
    ensures made { OnOk result (made.AreFactsMade facts.now) }
{
    let mut out = out;
    'rows: for row in facts.rows() {
        out = write_row(alloc, out, row)?;
    }
    Ok(out)
}

/// Writes the line of a page.
fn write_page(alloc: Global, out: Vec<u8>, page: &HandleFact) -> Result<Vec<u8>, NoMemory>
    ensures row { IfOk result (λ new. Adds (lines.page_row page.now ∷ []) out.items new.items) }
    ensures made { OnOk result (made.IsPageMade page.now) }
{
    let mut row = begin_row(out, "page")?;
    put_text(&mut row, page.parent.as_str())?;
    put_text(&mut row, page.handle_key.as_str())?;
    put_text(&mut row, page.field_key.as_str())?;
    let after = put_marks(alloc, &mut row, &page.after);
    after?;
    let before = put_marks(alloc, &mut row, &page.before);
    before?;
    let page_type = put_text(&mut row, page.page_type.as_str());
    page_type?;
    let info_type = put_text(&mut row, page.info_type.as_str());
    info_type?;
    Ok(end_row(row)?)
}

/// Writes the lines of pages.
fn write_pages(alloc: Global, out: Vec<u8>, pages: &HandleFacts) -> Result<Vec<u8>, NoMemory>
    ensures rows { IfOk result (λ new. Adds (map lines.page_row pages.now) out.items new.items) }
    ensures made { OnOk result (AllByRecursion made.IsPageMade pages.now) }
    ensures order { OnOk result (AreHandlesInOrder pages.now) }
{
    let mut out = out;
    'pages: for page in &pages.items {
        out = write_page(alloc, out, page)?;
    }
    Ok(out)
}

/// Writes the line of a command.
fn write_command(alloc: Global, out: Vec<u8>, command: &Command) -> Result<Vec<u8>, NoMemory>
    ensures row { IfOk result (λ new. Adds (lines.command_row command.now ∷ []) out.items new.items) }
    ensures made { OnOk result (made.IsCommandMade command.now) }
{
    let plain = command_plain(alloc, command)?;
    let mut row = begin_row(out, "do")?;
    put_marks(alloc, &mut row, &plain)?;
    Ok(end_row(row)?)
}

/// Writes the lines of commands.
fn write_commands(alloc: Global, out: Vec<u8>, commands: &Commands) -> Result<Vec<u8>, NoMemory>
    ensures rows { IfOk result (λ new. Adds (map lines.command_row commands.now) out.items new.items) }
    ensures made { OnOk result (AllByRecursion made.IsCommandMade commands.now) }
{
    let mut out = out;
    'commands: for command in commands.as_slice() {
        out = write_command(alloc, out, command)?;
    }
    Ok(out)
}

/// Writes the line of a layer's name.
fn write_name(out: Vec<u8>, name: &Words) -> Result<Vec<u8>, NoMemory>
    ensures { IfOk result (λ new. Adds ((text_tree (codes "layer") ∷ text_tree name.now ∷ []) ∷ []) out.items new.items) }
{
    let mut row = begin_row(out, "layer")?;
    put_text(&mut row, name.as_str())?;
    Ok(end_row(row)?)
}

/// Writes the lines of a layer.
fn write_layer(alloc: Global, out: Vec<u8>, layer: &ImageLayer) -> Result<Vec<u8>, NoMemory>
    ensures rows { IfOk result (λ new. Adds (lines.layer_rows layer.now) out.items new.items) }
    ensures made { OnOk result (made.IsLayerMade layer.now) }
{
    let named = write_name(out, &layer.name)?;
    let facts = write_facts(alloc, named, &layer.entry.facts.facts)?;
    let pages = write_pages(alloc, facts, &layer.entry.facts.handles)?;
    Ok(write_commands(alloc, pages, &layer.entry.commands)?)
}

/// Writes the lines of the layers.
pub fn write_layers(alloc: Global, out: Vec<u8>, layers: &ImageLayers) -> Result<Vec<u8>, NoMemory>
    ensures rows { IfOk result (λ new. Adds (lines.joined lines.layer_rows layers.now) out.items new.items) }
    ensures made { OnOk result (AllByRecursion made.IsLayerMade layers.now) }
{
    let mut out = out;
    'layers: for layer in &layers.items {
        out = write_layer(alloc, out, layer)?;
    }
    Ok(out)
}
