//! Edges that are put into connections, and taken out of them, on each kind of record map.
//!
//! A row is `append`, `prepend` or `delete`, the record that links to the connection, the filter, the
//! node, and the id that is looked at, and what stands there after the edit, with ` => ` before it.
use std::alloc::Global;
use std::rc::Rc;
use std::test::Fail;
use store_conn::{EdgeEdit, delete_edge, insert_edge};
use store_layers::{Field, Flat, Record, RecordSource, Slot, Versions};
use store_tree::gql_plain::{Counts, Id, NoMemory, OptIds, Pairs, Plain, Words};

const KEY: &str = "__K_friends_connection";

fn link(alloc: Global, id: &str) -> Result<Field, NoMemory> {
    Ok(Field::Link(Id::new(alloc, id)?))
}

/// A list of links between blanks, with `null` for none.
fn links(alloc: Global, ids: &str) -> Result<Field, NoMemory> {
    let mut list = OptIds::new(alloc);
    for id in ids.split(' ') {
        if id == "null" {
            list.push(None)?;
        } else {
            list.push(Some(Id::new(alloc, id)?))?;
        }
    }
    Ok(Field::Links(list))
}

/// The record with a field more.
fn with(alloc: Global, row: Record, key: &str, field: Field) -> Result<Record, NoMemory> {
    let Record {
        type_name,
        mut fields,
    } = row;
    fields.put(Words::new(alloc, key)?, field)?;
    Ok(Record { type_name, fields })
}

/// A record of a type with one field.
fn row(alloc: Global, of: &str, key: &str, field: Field) -> Result<Record, NoMemory> {
    let row = Record::new(alloc, Words::new(alloc, of)?);
    with(alloc, row, key, field)
}

fn put<S: RecordSource>(
    alloc: Global,
    map: S,
    id: &str,
    row: Record,
    steps: &mut S::Count,
) -> Result<S, NoMemory> {
    map.put(Id::new(alloc, id)?, Rc::new(alloc, row)?, steps)
}

/// An edge with a cursor, whose node is of the id.
fn edge<S: RecordSource>(
    alloc: Global,
    map: S,
    id: &str,
    node: &str,
    steps: &mut S::Count,
) -> Result<S, NoMemory> {
    let cursor = Field::Leaf(Plain::Text(Words::new(alloc, "a")?));
    let edge = row(alloc, "UserEdge", "cursor", cursor)?;
    let edge = with(alloc, edge, "node", link(alloc, node)?)?;
    put(alloc, map, id, edge, steps)
}

/// Three edges, two of them with one node.
fn edges<S: RecordSource>(alloc: Global, map: S, steps: &mut S::Count) -> Result<S, NoMemory> {
    let map = edge(alloc, map, "client:c:edges:0", "5", steps)?;
    let map = edge(alloc, map, "client:c:edges:1", "6", steps)?;
    edge(alloc, map, "f", "5", steps)
}

/// A connection of these edges, of null and of an edge that is not there.
fn connection(alloc: Global) -> Result<Record, NoMemory> {
    let list = links(alloc, "client:c:edges:0 null client:c:edges:1 f gone")?;
    let row = row(alloc, "UserConnection", "edges", list)?;
    let row = with(alloc, row, "__next", Field::Leaf(Plain::Int(2)))?;
    with(alloc, row, "pageInfo", link(alloc, "p")?)
}

/// That connection, one without a list of edges and with a counter below 0, and a deleted one.
fn connections<S: RecordSource>(
    alloc: Global,
    map: S,
    steps: &mut S::Count,
) -> Result<S, NoMemory> {
    let map = put(alloc, map, "client:c", connection(alloc)?, steps)?;
    let counter = Field::Leaf(Plain::Int(-3));
    let other = row(alloc, "UserConnection", "__next", counter)?;
    let map = put(alloc, map, "client:d", other, steps)?;
    map.put_deleted(Id::new(alloc, "client:e")?, steps)
}

/// `4` links to the connection with edges and, under a filter, to the one without; `9` to the deleted
/// one.
fn users<S: RecordSource>(alloc: Global, map: S, steps: &mut S::Count) -> Result<S, NoMemory> {
    let four = row(alloc, "User", KEY, link(alloc, "client:c")?)?;
    let filtered = link(alloc, "client:d")?;
    let four = with(alloc, four, "__K_friends_connection(n:\"x\")", filtered)?;
    let map = put(alloc, map, "4", four, steps)?;
    let nine = row(alloc, "User", KEY, link(alloc, "client:e")?)?;
    put(alloc, map, "9", nine, steps)
}

fn full<S: RecordSource>(alloc: Global, map: S, steps: &mut S::Count) -> Result<S, NoMemory> {
    let map = edges(alloc, map, steps)?;
    let map = connections(alloc, map, steps)?;
    users(alloc, map, steps)
}

/// Writes a list of links between blanks.
fn put_links(ids: &OptIds, text: &mut String) -> Result<(), NoMemory> {
    text.push('[')?;
    let mut begun = false;
    for id in ids.as_slice() {
        if begun {
            text.push(' ')?;
        }
        match id {
            Some(id) => text.push_str(id.as_str())?,
            None => text.push_str("null")?,
        }
        begun = true;
    }
    Ok(text.push(']')?)
}

/// Writes a field.
fn put_field(field: &Field, text: &mut String) -> Result<(), NoMemory> {
    match field {
        Field::Link(id) => Ok(text.push_str(id.as_str())?),
        Field::Links(ids) => put_links(ids, text),
        Field::Leaf(Plain::Text(words)) => Ok(text.push_str(words.as_str())?),
        Field::Leaf(Plain::Int(number)) => {
            let digits = format!(in *text.allocator(); "{number}")?;
            Ok(text.push_str(digits.as_str())?)
        }
        Field::Leaf(_) => Ok(text.push_str("other")?),
    }
}

/// Writes a record: its type, and its keys and fields.
fn put_record(row: &Record, text: &mut String) -> Result<(), NoMemory> {
    text.push_str(row.type_name.as_str())?;
    for entry in row.fields.as_slice() {
        text.push(' ')?;
        text.push_str(entry.key())?;
        text.push('=')?;
        put_field(entry.field(), text)?;
    }
    Ok(())
}

/// What stands at an id.
fn standing<S: RecordSource>(
    alloc: Global,
    map: &S,
    id: &str,
    steps: &mut S::Count,
) -> Result<String, NoMemory> {
    let mut text = String::new(alloc);
    match map.get(id, steps) {
        Some(Slot::Alive(shared)) => put_record(shared.get(), &mut text)?,
        Some(Slot::Deleted) => text.push_str("deleted")?,
        None => text.push_str("absent")?,
    }
    Ok(text)
}

/// The filter `n` with a value; none for `-`.
fn filters(alloc: Global, value: &str) -> Result<Pairs, NoMemory> {
    let mut pairs = Pairs::new(alloc);
    if value != "-" {
        let value = Plain::Text(Words::new(alloc, value)?);
        pairs.push(Words::new(alloc, "n")?, value)?;
    }
    Ok(pairs)
}

/// An edit of the connection of a record.
fn edit(alloc: Global, id: &str, filter: &str, node: &str) -> Result<EdgeEdit, NoMemory> {
    let filters = filters(alloc, filter)?;
    let cursor = Plain::Text(Words::new(alloc, "z")?);
    Ok(EdgeEdit {
        id: Id::new(alloc, id)?,
        key: Words::new(alloc, "K_friends")?,
        filters,
        node: Id::new(alloc, node)?,
        edge_type: Words::new(alloc, "UserEdge")?,
        cursor,
    })
}

/// The map after an edit.
fn edited<S: RecordSource>(
    map: &S,
    how: &str,
    edit: &EdgeEdit,
    steps: &mut S::Count,
) -> Result<S, NoMemory> {
    if how == "delete" {
        return delete_edge(map, edit, steps);
    }
    insert_edge(map, edit, how == "prepend", steps)
}

/// The first word of a text, and what follows it.
fn parts(text: &str) -> (&str, &str) {
    text.split_once(' ').unwrap_or((text, ""))
}

/// What stands at the id of a row after its edit.
fn after<S: RecordSource>(
    alloc: Global,
    map: &S,
    row: &str,
    steps: &mut S::Count,
) -> Result<String, NoMemory> {
    let (how, rest) = parts(row);
    let (id, rest) = parts(rest);
    let (filter, rest) = parts(rest);
    let (node, shown) = parts(rest);
    let edit = edit(alloc, id, filter, node)?;
    let map = edited(map, how, &edit, steps)?;
    standing(alloc, &map, shown, steps)
}

/// The rows after which something else stands, each with that; nothing where all are as they should
/// be. The map is the same for each row.
fn wrong_rows<S: RecordSource>(
    alloc: Global,
    map: &S,
    rows: &str,
    steps: &mut S::Count,
) -> Result<String, NoMemory> {
    let mut wrong = String::new(alloc);
    for row in rows.lines() {
        let (asked, wanted) = row.trim().split_once(" => ").unwrap_or(("", ""));
        let got = after(alloc, map, asked, steps)?;
        if got.as_str() != wanted {
            wrong.push_str(got.as_str())?;
            wrong.push_str("\n")?;
        }
    }
    Ok(wrong)
}

/// A new edge stands last or first, is made whole, and has the number of the counter, which rises.
/// Nothing changes where an edge has the node, and where no live connection is found.
const INSERTIONS: &str =
    "append 4 - 7 client:c => UserConnection __next=3 edges=[client:c:edges:0 null client:c:edges:1 f gone client:c:edges:2] pageInfo=p
    append 4 - 7 client:c:edges:2 => UserEdge cursor=z node=7
    append 4 - 7 client:c:edges:0 => UserEdge cursor=a node=5
    prepend 4 - 7 client:c => UserConnection __next=3 edges=[client:c:edges:2 client:c:edges:0 null client:c:edges:1 f gone] pageInfo=p
    prepend 4 - 7 client:c:edges:2 => UserEdge cursor=z node=7
    append 4 - 6 client:c => UserConnection __next=2 edges=[client:c:edges:0 null client:c:edges:1 f gone] pageInfo=p
    prepend 4 - 5 client:c:edges:2 => absent
    append 4 x 7 client:d => UserConnection __next=1 edges=[client:d:edges:0]
    prepend 4 x 7 client:d:edges:0 => UserEdge cursor=z node=7
    append 4 x 7 client:c:edges:2 => absent
    append 4 y 7 client:c => UserConnection __next=2 edges=[client:c:edges:0 null client:c:edges:1 f gone] pageInfo=p
    append 9 - 7 client:e => deleted
    append 9 - 7 client:e:edges:0 => absent
    append 3 - 7 client:c:edges:2 => absent";

/// Every edge of the node is taken out, and stays as a record; null stays, and so does an edge that is
/// not there. Nothing changes where no edge has the node, where there is no list, and where no live
/// connection is found.
const DELETIONS: &str =
    "delete 4 - 5 client:c => UserConnection __next=2 edges=[null client:c:edges:1 gone] pageInfo=p
    delete 4 - 5 client:c:edges:0 => UserEdge cursor=a node=5
    delete 4 - 6 client:c => UserConnection __next=2 edges=[client:c:edges:0 null f gone] pageInfo=p
    delete 4 - 7 client:c => UserConnection __next=2 edges=[client:c:edges:0 null client:c:edges:1 f gone] pageInfo=p
    delete 4 x 5 client:d => UserConnection __next=-3
    delete 4 x 5 client:c => UserConnection __next=2 edges=[client:c:edges:0 null client:c:edges:1 f gone] pageInfo=p
    delete 9 - 5 client:e => deleted
    delete 3 - 5 client:c => UserConnection __next=2 edges=[client:c:edges:0 null client:c:edges:1 f gone] pageInfo=p";

#[test]
fn edges_of_a_flat_map_are_edited(rt: HostRuntime) -> Result<(), Fail> {
    let alloc = rt.alloc();
    let mut steps = Counts::new();
    let map = full(alloc, Flat::new(alloc)?, &mut steps)?;
    let wrong = wrong_rows(alloc, &map, INSERTIONS, &mut steps)?;
    assert_eq!(rt; wrong.as_str(), "");
    let wrong = wrong_rows(alloc, &map, DELETIONS, &mut steps)?;
    assert_eq!(rt; wrong.as_str(), "");
    Ok(())
}

#[test]
fn edges_of_a_version_are_edited(rt: HostRuntime) -> Result<(), Fail> {
    let alloc = rt.alloc();
    let mut steps = Counts::new();
    let map = full(alloc, Versions::new(alloc), &mut steps)?;
    let wrong = wrong_rows(alloc, &map, INSERTIONS, &mut steps)?;
    assert_eq!(rt; wrong.as_str(), "");
    let wrong = wrong_rows(alloc, &map, DELETIONS, &mut steps)?;
    assert_eq!(rt; wrong.as_str(), "");
    Ok(())
}
