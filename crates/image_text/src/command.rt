//! Commands as the objects that a line of a script gives.
ghost use Rattle.std.specs.Prelude.{◌≡◌, [], ◌∷◌, ◌++◌, codes, map, IfOk, OnOk};
ghost use Rattle.std.specs.Map.{keys_of};
ghost use Rattle.store_model.specs.gql_plain.Order.{IsAfter};
ghost use Rattle.store_model.specs.gql_plain.Shown.{tree_of};
ghost use Rattle.store_model.specs.gql_plain.Tree.{text, whole};
ghost use Rattle.image_text.specs.Lines as lines;

use image_marks::gql_plain::{Id, Name, NoMemory, OptIds, Pairs, Plain, Plains, Words};
use std::alloc::Global;
use store_model::{Command, EdgeEdit};

/// A text, as a value.
fn text_of(words: &Words) -> Result<Plain, NoMemory>
    ensures { IfOk result (λ plain. tree_of plain ≡ text words.now) }
{
    Ok(Plain::Text(words.copy()?))
}

/// An id, or null, as a value.
fn id_of(id: &Option<Id>) -> Result<Plain, NoMemory>
    ensures { IfOk result (λ plain. tree_of plain ≡ lines.id_or_null id.now) }
{
    match id {
        Some(id) => Ok(Plain::Text(id.copy()?)),
        None => Ok(Plain::Null),
    }
}

/// Ids and nulls, as a value.
fn ids_of(alloc: Global, ids: &OptIds) -> Result<Plain, NoMemory>
    ensures { IfOk result (λ plain. tree_of plain ≡ lines.inner (map lines.id_or_null ids.now)) }
{
    let mut plains = Plains::new(alloc);
    'ids: for id in ids.as_slice() {
        plains.push(id_of(id)?)?;
    }
    Ok(Plain::List(plains))
}

/// Puts a pair to the end, whose key stands after those before it.
fn put(alloc: Global, pairs: &mut Pairs, key: &str, plain: Plain) -> Result<(), NoMemory>
    requires { IsAfter key.now (keys_of pairs.old) }
    ensures { OnOk result (pairs.new ≡ pairs.old ++ (key.now, tree_of plain) ∷ []) }
{
    let key = Words::new(alloc, key)?;
    pairs.push(key, plain)?;
    Ok(())
}

/// The keys of a command on a field, that of its value apart.
fn place_parts(alloc: Global, id: &Id, field: &Name, args: &Pairs) -> Result<Pairs, NoMemory>
    ensures { IfOk result (λ parts. parts ≡ lines.on_field id.now field.now args.now) }
{
    let mut parts = Pairs::new(alloc);
    put(alloc, &mut parts, "args", Plain::Tree(args.copy()?))?;
    put(alloc, &mut parts, "field", text_of(field)?)?;
    put(alloc, &mut parts, "id", text_of(id)?)?;
    Ok(parts)
}

/// The keys of a command that sets a field to a value.
fn set_parts(
    alloc: Global,
    id: &Id,
    field: &Name,
    args: &Pairs,
    value: &Plain,
) -> Result<Pairs, NoMemory>
    ensures { IfOk result
        (λ parts. parts ≡ lines.on_field id.now field.now args.now ++ (codes "value", tree_of value.now) ∷ []) }
{
    let mut parts = place_parts(alloc, id, field, args)?;
    put(alloc, &mut parts, "value", value.copy()?)?;
    Ok(parts)
}

/// The keys of a command that adds to a field.
fn add_parts(alloc: Global, id: &Id, field: &Name, args: &Pairs, by: i64) -> Result<Pairs, NoMemory>
    ensures { IfOk result
        (λ parts. parts
        ≡ (codes "args", lines.pairs args.now) ∷ (codes "by", whole by) ∷ (codes "field", text field.now)
        ∷ (codes "id", text id.now) ∷ []) }
{
    let mut parts = Pairs::new(alloc);
    put(alloc, &mut parts, "args", Plain::Tree(args.copy()?))?;
    put(alloc, &mut parts, "by", Plain::Int(by))?;
    put(alloc, &mut parts, "field", text_of(field)?)?;
    put(alloc, &mut parts, "id", text_of(id)?)?;
    Ok(parts)
}

/// The keys of a command that sets a field to a link.
fn link_parts(
    alloc: Global,
    id: &Id,
    field: &Name,
    args: &Pairs,
    to: &Option<Id>,
) -> Result<Pairs, NoMemory>
    ensures { IfOk result
        (λ parts. parts ≡ lines.on_field id.now field.now args.now ++ (codes "to", lines.id_or_null to.now) ∷ []) }
{
    let mut parts = place_parts(alloc, id, field, args)?;
    put(alloc, &mut parts, "to", id_of(to)?)?;
    Ok(parts)
}

/// The keys of a command that sets a field to a list of links.
fn links_parts(
    alloc: Global,
    id: &Id,
    field: &Name,
    args: &Pairs,
    to: &OptIds,
) -> Result<Pairs, NoMemory>
    ensures { IfOk result
        (λ parts. parts
        ≡ lines.on_field id.now field.now args.now ++ (codes "to", lines.inner (map lines.id_or_null to.now)) ∷ []) }
{
    let mut parts = place_parts(alloc, id, field, args)?;
    put(alloc, &mut parts, "to", ids_of(alloc, to)?)?;
    Ok(parts)
}

/// The keys of a command that makes a record.
fn create_parts(alloc: Global, id: &Id, of: &Words) -> Result<Pairs, NoMemory>
    ensures { IfOk result (λ parts. parts ≡ (codes "id", text id.now) ∷ (codes "type", text of.now) ∷ []) }
{
    let mut parts = Pairs::new(alloc);
    put(alloc, &mut parts, "id", text_of(id)?)?;
    put(alloc, &mut parts, "type", text_of(of)?)?;
    Ok(parts)
}

/// The keys of a command that deletes a record.
fn delete_parts(alloc: Global, id: &Id) -> Result<Pairs, NoMemory>
    ensures { IfOk result (λ parts. parts ≡ (codes "id", text id.now) ∷ []) }
{
    let mut parts = Pairs::new(alloc);
    put(alloc, &mut parts, "id", text_of(id)?)?;
    Ok(parts)
}

/// The keys of a command that puts an edge.
fn new_edge_parts(alloc: Global, edit: &EdgeEdit) -> Result<Pairs, NoMemory>
    ensures { IfOk result (λ parts. parts ≡ lines.new_edge edit.now) }
{
    let mut parts = Pairs::new(alloc);
    put(alloc, &mut parts, "cursor", edit.cursor.copy()?)?;
    put(alloc, &mut parts, "edge_type", text_of(&edit.edge_type)?)?;
    put(
        alloc,
        &mut parts,
        "filters",
        Plain::Tree(edit.filters.copy()?),
    )?;
    put(alloc, &mut parts, "id", text_of(&edit.id)?)?;
    put(alloc, &mut parts, "key", text_of(&edit.key)?)?;
    put(alloc, &mut parts, "node", text_of(&edit.node)?)?;
    Ok(parts)
}

/// The keys of a command that takes edges out.
fn edge_parts(alloc: Global, edit: &EdgeEdit) -> Result<Pairs, NoMemory>
    ensures { IfOk result (λ parts. parts ≡ lines.edges edit.now) }
{
    let mut parts = Pairs::new(alloc);
    put(
        alloc,
        &mut parts,
        "filters",
        Plain::Tree(edit.filters.copy()?),
    )?;
    put(alloc, &mut parts, "id", text_of(&edit.id)?)?;
    put(alloc, &mut parts, "key", text_of(&edit.key)?)?;
    put(alloc, &mut parts, "node", text_of(&edit.node)?)?;
    Ok(parts)
}

/// The command of this name with these keys.
fn named(alloc: Global, name: &str, parts: Pairs) -> Result<Plain, NoMemory>
    ensures { IfOk result (λ plain. tree_of plain ≡ lines.pairs ((name.now, lines.pairs parts) ∷ [])) }
{
    let mut members = Pairs::new(alloc);
    put(alloc, &mut members, name, Plain::Tree(parts))?;
    Ok(Plain::Tree(members))
}

/// The object that a line of a script gives for a command, with every key.
pub fn command_plain(alloc: Global, command: &Command) -> Result<Plain, NoMemory>
    ensures { IfOk result (λ plain. tree_of plain ≡ lines.command_tree command.now) }
{
    match command {
        Command::Set {
            id,
            field,
            args,
            value,
        } => named(alloc, "set", set_parts(alloc, id, field, args, value)?),
        Command::Add {
            id,
            field,
            args,
            by,
        } => named(alloc, "add", add_parts(alloc, id, field, args, *by)?),
        Command::Link {
            id,
            field,
            args,
            to,
        } => named(alloc, "link", link_parts(alloc, id, field, args, to)?),
        Command::Links {
            id,
            field,
            args,
            to,
        } => named(alloc, "links", links_parts(alloc, id, field, args, to)?),
        Command::Create { id, of } => named(alloc, "create", create_parts(alloc, id, of)?),
        Command::Delete { id } => named(alloc, "delete", delete_parts(alloc, id)?),
        Command::AppendNode(edit) => named(alloc, "append_node", new_edge_parts(alloc, edit)?),
        Command::PrependNode(edit) => named(alloc, "prepend_node", new_edge_parts(alloc, edit)?),
        Command::DeleteEdge(edit) => named(alloc, "delete_edge", edge_parts(alloc, edit)?),
    }
}
