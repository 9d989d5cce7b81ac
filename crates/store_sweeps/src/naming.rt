//! The ids that entries name.
ghost use Rattle.std.specs.Prelude.{◌≡◌, ◌||◌, ◌++◌, [], ◌∷◌, map, OnOk};
ghost use Rattle.store_model.specs.gql_plain.Order.{has_text};
ghost use Rattle.store_model.specs.store_record.Keys.{Text};
ghost use Rattle.store_model.specs.Entries.{ids_named, named_by_command, named_by_commands, named_by_facts};
ghost use Rattle.store_model.specs.FactRows.{AreFactRows, IsFactRow, facts_of, facts_of_row};
ghost use Rattle.store_model.specs.declared.facts.HandleFact as page;

use crate::links::{put_any, put_id, put_links, put_some};
use store_model::gql_plain::{NoMemory, Words};
use store_model::{Command, EdgeEdit, Entry, FactRow, HandleFact};

/// Puts the ids that an entry names at the end: those of its facts and of the links in them, the
/// parents of its pages, and those of its commands. An id may stand there several times.
pub fn put_named(entry: &Entry, ids: &mut Vec<Words>) -> Result<(), NoMemory>
    ensures { (j : Text) → OnOk result (has_text ids.new.items j ≡ (has_text ids.old.items j || has_text (ids_named entry.now) j)) }
{
    put_named_by_rows(entry.facts.facts.rows(), ids)?;
    put_parents(entry.facts.handles.as_slice(), ids)?;
    put_named_by_commands(entry.commands.as_slice(), ids)?;
    Ok(())
}

/// Puts the ids of rows of facts, and those that they link to, at the end.
fn put_named_by_rows(rows: &[FactRow], ids: &mut Vec<Words>) -> Result<(), NoMemory>
    requires { AreFactRows rows.now }
    ensures { (j : Text) → OnOk result (has_text ids.new.items j ≡ (has_text ids.old.items j || has_text (named_by_facts (facts_of rows.now)) j)) }
{
    'rows: for row in rows {
        put_named_by_row(row, ids)?;
    }
    Ok(())
}

/// Puts the id of a row, and those that it links to, at the end.
fn put_named_by_row(row: &FactRow, ids: &mut Vec<Words>) -> Result<(), NoMemory>
    requires { IsFactRow row.now }
    ensures { (j : Text) → OnOk result (has_text ids.new.items j ≡ (has_text ids.old.items j || has_text (named_by_facts (facts_of_row row.now)) j)) }
{
    put_id(&row.id, ids)?;
    put_links(&row.fields, ids)?;
    Ok(())
}

/// Puts the parents of pages at the end.
fn put_parents(pages: &[HandleFact], ids: &mut Vec<Words>) -> Result<(), NoMemory>
    ensures { OnOk result (ids.new.items ≡ ids.old.items ++ map (λ (h : page.HandleFact). h.parent) pages.now) }
{
    'pages: for page in pages {
        put_id(&page.parent, ids)?;
    }
    Ok(())
}

/// Puts the ids of commands at the end.
fn put_named_by_commands(commands: &[Command], ids: &mut Vec<Words>) -> Result<(), NoMemory>
    ensures { OnOk result (ids.new.items ≡ ids.old.items ++ named_by_commands commands.now) }
{
    'commands: for command in commands {
        put_named_by_command(command, ids)?;
    }
    Ok(())
}

/// Puts the ids of a command at the end.
fn put_named_by_command(command: &Command, ids: &mut Vec<Words>) -> Result<(), NoMemory>
    ensures { OnOk result (ids.new.items ≡ ids.old.items ++ named_by_command command.now) }
{
    match command {
        Command::Set { id, .. } => put_id(id, ids),
        Command::Add { id, .. } => put_id(id, ids),
        Command::Link { id, to, .. } => {
            put_id(id, ids)?;
            put_any(to, ids)
        }
        Command::Links { id, to, .. } => {
            put_id(id, ids)?;
            put_some(to, ids)
        }
        Command::Create { id, .. } => put_id(id, ids),
        Command::Delete { id } => put_id(id, ids),
        Command::AppendNode(edit) => put_named_by_edit(edit, ids),
        Command::PrependNode(edit) => put_named_by_edit(edit, ids),
        Command::DeleteEdge(edit) => put_named_by_edit(edit, ids),
    }
}

/// Puts the ids of an edit of edges at the end.
fn put_named_by_edit(edit: &EdgeEdit, ids: &mut Vec<Words>) -> Result<(), NoMemory>
    ensures { OnOk result (ids.new.items ≡ ids.old.items ++ edit.now.id ∷ edit.now.node ∷ []) }
{
    put_id(&edit.id, ids)?;
    put_id(&edit.node, ids)
}
