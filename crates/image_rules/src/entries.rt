//! Entries of layers.
ghost use Rattle.std.specs.Prelude.{◌≡◌, [], ◌&&◌, bytes_eq, IfOk};
ghost use Rattle.std.specs.List.{list_all};
ghost use Rattle.image_text.specs.Images as images;
ghost use Rattle.store_model.specs.FactRows.{facts_of, AreFactRows};
ghost use Rattle.image_rules.specs.FactTests as tests;

use crate::records::have_ids;
use event_script::{command_of, is_there};
use image_text::command_plain;
use image_text::gql_plain::{NoMemory, Plain, is_name, value_of};
use image_text::store_model::{
    Command, Commands, EdgeEdit, Entry, FactList, FactRow, HandleFact, HandleFacts,
};
use std::alloc::Global;

/// Whether a row's id is not empty and the links of its fields are ids; takes no memory.
fn is_row(row: &FactRow) -> bool
    ensures { result ≡ tests.is_row row.now }
{
    is_there(row.id.as_str()) && have_ids(&row.fields)
}

/// Whether those of each row are; takes no memory.
fn are_rows(rows: &[FactRow]) -> bool
    ensures { result ≡ list_all tests.is_row rows.now }
{
    rows.iter().all(|row| is_row(row))
}

/// Whether each fact is as one of an image; takes no memory.
fn are_facts(facts: &FactList) -> bool
    ensures { result ≡ list_all images.is_fact facts.now }
{
    are_rows(facts.rows())
}

/// Whether a row has a fact under a key; takes no memory.
fn has_key(row: &FactRow, key: &str) -> bool
    ensures { result ≡ tests.has_key row.now key.now }
{
    "__typename" == key || row.fields.get(key).is_some()
}

/// Whether one of the facts of rows is under an id and a key, by halves; takes no memory.
fn has_fact(rows: &[FactRow], id: &str, key: &str) -> bool
    requires { AreFactRows rows.now }
    ensures { result ≡ images.has_fact (facts_of rows.now) id.now key.now }
{
    let found = rows.binary_search_by(|row| row.id.as_str().cmp(id));
    match found {
        Ok(at) => has_key(&rows[at], key),
        Err(_) => false,
    }
}

/// Whether a page is as one of an image, beside the facts of these rows; takes no memory.
fn is_page(rows: &[FactRow], page: &HandleFact) -> bool
    requires { AreFactRows rows.now }
    ensures { result ≡ images.is_page (facts_of rows.now) page.now }
{
    if !is_name(page.page_type.as_str()) {
        return false;
    }
    if !is_name(page.info_type.as_str()) {
        return false;
    }
    has_fact(rows, page.parent.as_str(), page.field_key.as_str())
}

/// Whether each page is, beside these facts; takes no memory.
fn are_pages(facts: &FactList, pages: &HandleFacts) -> bool
    ensures { result ≡ list_all (images.is_page facts.now) pages.now }
{
    let rows = facts.rows();
    'pages: for page in &pages.items {
        if !is_page(rows, page) {
            return false;
        }
    }
    true
}

/// Whether a value is null; takes no memory.
fn is_null(value: &Plain) -> bool
    ensures { result ≡ images.is_null_value value.now }
{
    matches!(value, Plain::Null)
}

/// Whether an edit of edges names no type and no cursor; takes no memory.
fn has_no_edge(edit: &EdgeEdit) -> bool
    ensures { result ≡ (bytes_eq edit.now.edge_type [] && images.is_null_value edit.now.cursor) }
{
    edit.edge_type.as_str().is_empty() && is_null(&edit.cursor)
}

/// Whether a command says no more than its object has; takes no memory.
fn is_bare(command: &Command) -> bool
    ensures { result ≡ images.is_bare command.now }
{
    match command {
        Command::DeleteEdge(edit) => has_no_edge(edit),
        _ => true,
    }
}

/// Whether the reader of a script's lines takes a command.
fn is_given(alloc: Global, command: &Command) -> Result<bool, NoMemory>
    ensures { IfOk result (λ yes. yes ≡ images.is_given command.now) }
{
    if !is_bare(command) {
        return Ok(false);
    }
    let plain = command_plain(alloc, command)?;
    let value = value_of(alloc, &plain)?;
    let read = command_of(alloc, &value)?;
    match read {
        Some(read) => {
            let again = command_plain(alloc, &read)?;
            Ok(again == plain)
        }
        None => Ok(false),
    }
}

/// Whether it takes each of the commands.
fn are_given(alloc: Global, commands: &Commands) -> Result<bool, NoMemory>
    ensures { IfOk result (λ yes. yes ≡ list_all images.is_given commands.now) }
{
    'commands: for command in commands.as_slice() {
        let given = is_given(alloc, command)?;
        if !given {
            return Ok(false);
        }
    }
    Ok(true)
}

/// Whether an entry is as one of an image.
pub fn is_entry(alloc: Global, entry: &Entry) -> Result<bool, NoMemory>
    ensures { IfOk result (λ yes. yes ≡ images.is_entry entry.now) }
{
    if !are_facts(&entry.facts.facts) {
        return Ok(false);
    }
    if !are_pages(&entry.facts.facts, &entry.facts.handles) {
        return Ok(false);
    }
    let given = are_given(alloc, &entry.commands)?;
    Ok(given)
}
