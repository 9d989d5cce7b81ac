//! Connections whose counter of edges is at its end.
use std::alloc::Global;
use std::rc::Rc;
use std::test::Fail;
use store_layers::{Field, Flat, HandleFact, Record, RecordSource, Slot, merge_page};
use store_tree::gql_plain::{Counts, Id, NoMemory, OptIds, Plain, Words};

const CLIENT: &str = "client:4:__K_friends_connection";

const LAST: &str = "client:4:__K_friends_connection:edges:9223372036854775807";

/// A record of a type with one field.
fn row(alloc: Global, of: &str, key: &str, field: Field) -> Result<Record, NoMemory> {
    let mut row = Record::new(alloc, Words::new(alloc, of)?);
    row.fields.put(Words::new(alloc, key)?, field)?;
    Ok(row)
}

fn link(alloc: Global, id: &str) -> Result<Field, NoMemory> {
    Ok(Field::Link(Id::new(alloc, id)?))
}

fn put(
    alloc: Global,
    map: Flat,
    id: &str,
    row: Record,
    steps: &mut Counts,
) -> Result<Flat, NoMemory> {
    map.put(Id::new(alloc, id)?, Rc::new(alloc, row)?, steps)
}

/// An edge of the server, whose node is of the id.
fn edge(
    alloc: Global,
    map: Flat,
    id: &str,
    node: &str,
    steps: &mut Counts,
) -> Result<Flat, NoMemory> {
    let edge = row(alloc, "UserEdge", "node", link(alloc, node)?)?;
    put(alloc, map, id, edge, steps)
}

/// The server's connection, with the edges `e` and `f`.
fn server(alloc: Global, map: Flat, steps: &mut Counts) -> Result<Flat, NoMemory> {
    let mut edges = OptIds::new(alloc);
    for id in ["e", "f"] {
        edges.push(Some(Id::new(alloc, id)?))?;
    }
    let connection = row(alloc, "UserConnection", "edges", Field::Links(edges))?;
    let map = put(alloc, map, "s", connection, steps)?;
    let map = edge(alloc, map, "e", "7", steps)?;
    edge(alloc, map, "f", "8", steps)
}

/// `4`, which links to the server's connection and to the client's, whose counter is at its end.
fn full(alloc: Global, steps: &mut Counts) -> Result<Flat, NoMemory> {
    let mut parent = row(alloc, "User", "friends", link(alloc, "s")?)?;
    let key = Words::new(alloc, "__K_friends_connection")?;
    parent.fields.put(key, link(alloc, CLIENT)?)?;
    let next = Field::Leaf(Plain::Int(i64::MAX));
    let client = row(alloc, "UserConnection", "__next", next)?;
    let map = put(alloc, Flat::new(alloc)?, "4", parent, steps)?;
    let map = put(alloc, map, CLIENT, client, steps)?;
    server(alloc, map, steps)
}

/// A page without cursors.
fn page(alloc: Global) -> Result<HandleFact, NoMemory> {
    Ok(HandleFact {
        parent: Id::new(alloc, "4")?,
        handle_key: Words::new(alloc, "__K_friends_connection")?,
        field_key: Words::new(alloc, "friends")?,
        after: Plain::Null,
        before: Plain::Null,
        page_type: Words::new(alloc, "UserConnection")?,
        info_type: Words::new(alloc, "PageInfo")?,
    })
}

/// Puts the ids of a field to the end of a text, and its number if it is one.
fn put_field(field: Option<&Field>, text: &mut String) -> Result<(), NoMemory> {
    match field {
        Some(Field::Link(id)) => text.push_str(id.as_str())?,
        Some(Field::Links(ids)) => {
            for id in ids.as_slice().iter().flatten() {
                text.push_str(id.as_str())?;
                text.push(' ')?;
            }
        }
        Some(Field::Leaf(Plain::Int(i64::MAX))) => text.push_str("at its end ")?,
        _ => text.push_str("none ")?,
    }
    Ok(())
}

/// Puts what stands under a key of a record to the end of a text.
fn put_shown(
    map: &Flat,
    id: &str,
    key: &str,
    text: &mut String,
    steps: &mut Counts,
) -> Result<(), NoMemory> {
    match map.get(id, steps) {
        Some(Slot::Alive(shared)) => put_field(shared.get().fields.get(key), text),
        _ => Ok(text.push_str("absent ")?),
    }
}

/// The edges and the counter of the client's connection after a page of two edges, and the node of the
/// edge that has the last number.
fn merged(alloc: Global) -> Result<String, NoMemory> {
    let mut steps = Counts::new();
    let map = full(alloc, &mut steps)?;
    let map = merge_page(&map, &page(alloc)?, &mut steps)?;
    let mut text = String::new(alloc);
    put_shown(&map, CLIENT, "edges", &mut text, &mut steps)?;
    put_shown(&map, CLIENT, "__next", &mut text, &mut steps)?;
    put_shown(&map, LAST, "node", &mut text, &mut steps)?;
    Ok(text)
}

#[test]
fn a_counter_at_its_end_stands_still(rt: HostRuntime) -> Result<(), Fail> {
    let text = merged(rt.alloc())?;
    let wanted =
        "client:4:__K_friends_connection:edges:9223372036854775807 client:4:__K_friends_connection:edges:9223372036854775807 at its end 8";
    assert!(rt; text.as_str() == wanted);
    Ok(())
}
