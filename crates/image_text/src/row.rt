//! A row of an image's text, written item by item.
ghost use Rattle.std.specs.Prelude.{◌≡◌, [], ◌∷◌, map, IfOk, OnOk, List, ℕ};
ghost use Rattle.store_model.specs.gql_plain.Shown.{tree_of};
ghost use Rattle.store_model.specs.gql_plain.Tree.{text};
ghost use Rattle.image_marks.specs.Values.{IsValue};
ghost use Rattle.image_text.specs.Lines.{Row, count, id_or_null, inner, marks, pairs as object_of};
ghost use Rattle.image_text.specs.Made.{ArePairsMade};
ghost use Rattle.image_text.specs.Rows.{Adds, IsRow, Puts};

use image_marks::gql_plain::{Id, NoMemory, OptIds, Pairs, Plain};
use image_marks::{write_marks, write_members};
use json::Writer;
use std::alloc::Global;

/// Begins a row of this name behind what is written.
pub fn begin_row(out: Vec<u8>, name: &str) -> Result<Writer, NoMemory>
    ensures { IfOk result (λ row. IsRow out.items (text name.now ∷ []) row) }
{
    let mut row = Writer::new(out);
    row.begin_array()?;
    row.string(name)?;
    Ok(row)
}

/// Puts a text.
pub fn put_text(row: &mut Writer, words: &str) -> Result<(), NoMemory>
    ensures { OnOk result (Puts (text words.now) row.old row.new) }
{
    row.string(words)?;
    Ok(())
}

/// Puts a number.
pub fn put_count(row: &mut Writer, number: u64) -> Result<(), NoMemory>
    ensures { OnOk result (Puts (count number) row.old row.new) }
{
    row.u64(number)?;
    Ok(())
}

/// Puts the marks of a value.
pub fn put_marks(alloc: Global, row: &mut Writer, plain: &Plain) -> Result<(), NoMemory>
    ensures marks { OnOk result (Puts (marks (tree_of plain.now)) row.old row.new) }
    ensures made { OnOk result (IsValue (tree_of plain.now)) }
{
    row.begin_array()?;
    write_marks(alloc, row, plain)?;
    row.end_array()?;
    Ok(())
}

/// Puts the marks of pairs, as an object.
pub fn put_pairs(alloc: Global, row: &mut Writer, pairs: &Pairs) -> Result<(), NoMemory>
    ensures marks { OnOk result (Puts (marks (object_of pairs.now)) row.old row.new) }
    ensures made { OnOk result (ArePairsMade pairs.now) }
{
    row.begin_array()?;
    write_members(alloc, row, pairs)?;
    row.end_array()?;
    Ok(())
}

/// Puts an id, or null.
pub fn put_id(row: &mut Writer, id: &Option<Id>) -> Result<(), NoMemory>
    ensures { OnOk result (Puts (id_or_null id.now) row.old row.new) }
{
    match id {
        Some(id) => row.string(id.as_str())?,
        None => row.null()?,
    }
    Ok(())
}

/// Puts a list of ids and nulls.
pub fn put_ids(row: &mut Writer, ids: &OptIds) -> Result<(), NoMemory>
    ensures { OnOk result (Puts (inner (map id_or_null ids.now)) row.old row.new) }
{
    row.begin_array()?;
    'ids: for id in ids.as_slice() {
        put_id(row, id)?;
    }
    row.end_array()?;
    Ok(())
}

/// Ends a row and its line.
pub fn end_row(row: Writer) -> Result<Vec<u8>, NoMemory>
    ensures { IfOk result (λ out. (before : List ℕ) (items : Row) → IsRow before items row → Adds (items ∷ []) before out.items) }
{
    let mut row = row;
    row.end_array()?;
    let mut out = row.into_inner();
    out.push(b'\n')?;
    Ok(out)
}
