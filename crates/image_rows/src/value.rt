//! What stands in a row.
ghost use Rattle.std.specs.Prelude.{◌≡◌, IfOk, option_map};
ghost use Rattle.image_rows.specs.Reading as reading;
ghost use Rattle.store_model.specs.gql_plain.Shown.{plain_trees, tree_of};
ghost use Rattle.store_model.specs.store_record.declared.field.Field.TheVariants.{Links};

use event_script::command_of;
use image_text::gql_plain::{Id, NoMemory, OptIds, Pairs, Plain, Plains, value_of};
use image_text::image_marks::unflat;
use std::alloc::Global;
use store_model::Command;
use store_model::store_record::Field;

/// The value whose marks these are.
#[tactic(auto, using(crate::proofs::Items::items_are))]
pub fn marked_value(alloc: Global, plain: &Plain) -> Result<Option<Plain>, NoMemory>
    ensures { IfOk result (λ value. option_map tree_of value ≡ reading.marked_value (tree_of plain.now)) }
{
    match plain {
        Plain::Null => Ok(None),
        Plain::Bool(_) => Ok(None),
        Plain::Int(_) => Ok(None),
        Plain::Text(_) => Ok(None),
        Plain::List(marks) => unflat(alloc, marks.as_slice()),
        Plain::Tree(_) => Ok(None),
    }
}

/// The pairs of an object; takes no memory.
#[tactic(auto, using(crate::proofs::Items::pairs_are))]
fn object_in(plain: Plain) -> Option<Pairs>
    ensures { result ≡ reading.object_in (tree_of plain) }
{
    match plain {
        Plain::Null => None,
        Plain::Bool(_) => None,
        Plain::Int(_) => None,
        Plain::Text(_) => None,
        Plain::List(_) => None,
        Plain::Tree(pairs) => Some(pairs),
    }
}

/// The pairs of the object whose marks these are.
pub fn marked_pairs(alloc: Global, plain: &Plain) -> Result<Option<Pairs>, NoMemory>
    ensures { IfOk result (λ pairs. pairs ≡ reading.marked_pairs (tree_of plain.now)) }
{
    match marked_value(alloc, plain)? {
        Some(value) => Ok(object_in(value)),
        None => Ok(None),
    }
}

/// A number from 0 on; takes no memory.
pub fn count_in(plain: &Plain) -> Option<u64>
    ensures { result ≡ reading.count_in (tree_of plain.now) }
{
    match plain {
        Plain::Null => None,
        Plain::Bool(_) => None,
        Plain::Int(number) => u64::try_from(*number).ok(),
        Plain::Text(_) => None,
        Plain::List(_) => None,
        Plain::Tree(_) => None,
    }
}

/// An id, or null for none.
fn id_in(plain: &Plain) -> Result<Option<Option<Id>>, NoMemory>
    ensures { IfOk result (λ id. id ≡ reading.id_in (tree_of plain.now)) }
{
    match plain {
        Plain::Null => Ok(Some(None)),
        Plain::Bool(_) => Ok(None),
        Plain::Int(_) => Ok(None),
        Plain::Text(id) => Ok(Some(Some(id.copy()?))),
        Plain::List(_) => Ok(None),
        Plain::Tree(_) => Ok(None),
    }
}

/// Ids and nulls.
fn ids_in(alloc: Global, plains: &[Plain]) -> Result<Option<OptIds>, NoMemory>
    ensures { IfOk result (λ ids. ids ≡ reading.ids_in (plain_trees plains.now)) }
{
    let mut ids = OptIds::new(alloc);
    'plains: for plain in plains {
        let Some(id) = id_in(plain)? else {
            return Ok(None);
        };
        ids.push(id)?;
    }
    Ok(Some(ids))
}

/// A value of the server.
fn leaf_in(alloc: Global, plain: &Plain) -> Result<Option<Field>, NoMemory>
    ensures { IfOk result (λ field. field ≡ reading.leaf_in (tree_of plain.now)) }
{
    match marked_plain(alloc, plain)? {
        Some(value) => Ok(Some(Field::Leaf(value))),
        None => Ok(None),
    }
}

/// A link.
fn link_in(plain: &Plain) -> Result<Option<Field>, NoMemory>
    ensures { IfOk result (λ field. field ≡ reading.link_in (tree_of plain.now)) }
{
    match plain {
        Plain::Null => Ok(None),
        Plain::Bool(_) => Ok(None),
        Plain::Int(_) => Ok(None),
        Plain::Text(id) => Ok(Some(Field::Link(id.copy()?))),
        Plain::List(_) => Ok(None),
        Plain::Tree(_) => Ok(None),
    }
}

/// Links, as a field.
fn links_of(alloc: Global, plains: &Plains) -> Result<Option<Field>, NoMemory>
    ensures { IfOk result (λ field. field ≡ option_map Links (reading.ids_in plains.now)) }
{
    match ids_in(alloc, plains.as_slice())? {
        Some(ids) => Ok(Some(Field::Links(ids))),
        None => Ok(None),
    }
}

/// A list of links.
#[tactic(auto, using(crate::proofs::Items::items_are))]
fn links_in(alloc: Global, plain: &Plain) -> Result<Option<Field>, NoMemory>
    ensures { IfOk result (λ field. field ≡ reading.links_in (tree_of plain.now)) }
{
    match plain {
        Plain::Null => Ok(None),
        Plain::Bool(_) => Ok(None),
        Plain::Int(_) => Ok(None),
        Plain::Text(_) => Ok(None),
        Plain::List(plains) => links_of(alloc, plains),
        Plain::Tree(_) => Ok(None),
    }
}

/// A field of this form.
fn field_named(alloc: Global, name: &str, plain: &Plain) -> Result<Option<Field>, NoMemory>
    ensures { IfOk result (λ field. field ≡ reading.field_named name.now (tree_of plain.now)) }
{
    if name == "leaf" {
        return leaf_in(alloc, plain);
    }
    if name == "link" {
        return link_in(plain);
    }
    if name == "links" {
        return links_in(alloc, plain);
    }
    Ok(None)
}

/// The field that the name of a form and a value are.
fn field_in(alloc: Global, row: &[Plain]) -> Result<Option<Field>, NoMemory>
    ensures { IfOk result (λ field. field ≡ reading.field_in (plain_trees row.now)) }
{
    match row {
        [Plain::Text(name), plain] => field_named(alloc, name.as_str(), plain),
        _ => Ok(None),
    }
}

/// A field.
#[tactic(auto, using(crate::proofs::Items::items_are))]
pub fn field_of(alloc: Global, plain: &Plain) -> Result<Option<Field>, NoMemory>
    ensures { IfOk result (λ field. field ≡ reading.field_of (tree_of plain.now)) }
{
    match plain {
        Plain::Null => Ok(None),
        Plain::Bool(_) => Ok(None),
        Plain::Int(_) => Ok(None),
        Plain::Text(_) => Ok(None),
        Plain::List(row) => field_in(alloc, row.as_slice()),
        Plain::Tree(_) => Ok(None),
    }
}

/// The value whose marks these are, as code holds it.
#[tactic(auto, using(crate::proofs::Items::plain_is))]
pub fn marked_plain(alloc: Global, plain: &Plain) -> Result<Option<Plain>, NoMemory>
    ensures { IfOk result (λ value. value ≡ reading.marked_plain (tree_of plain.now)) }
{
    match marked_value(alloc, plain)? {
        Some(value) => Ok(Some(value)),
        None => Ok(None),
    }
}

/// The command that a line of a script gives by the object whose marks these are.
pub fn command_of_marks(alloc: Global, plain: &Plain) -> Result<Option<Command>, NoMemory>
    ensures { IfOk result (λ command. command ≡ reading.command_of_marks (tree_of plain.now)) }
{
    match marked_value(alloc, plain)? {
        Some(value) => command_of(alloc, &value_of(alloc, &value)?),
        None => Ok(None),
    }
}
