//! Where the nodes of what is expanded stand, and the connections among them.
//!
//! A node is written as its column, and a connection as its key and its filters behind it.
use crate::texts::{SCHEMA, documents, expansion_alone, schema};
use plan_ir::{Conn, Node, Nodes};
use std::alloc::Global;
use std::process::Abort;
use std::test::Fail;

/// Writes what a field says of its connection.
fn put_connection(text: &mut String, connection: &Option<Conn>) -> Result<(), Fail> {
    if let Some(conn) = connection {
        text.push_str(" ")?;
        text.push_str(conn.key.as_str())?;
        if let Some(filters) = &conn.filters {
            for name in filters.as_slice() {
                text.push_str("+")?;
                text.push_str(name.as_str())?;
            }
        }
    }
    Ok(())
}

/// Writes nodes, those inside a node behind it.
#[cycle(places)]
fn put_places(text: &mut String, nodes: &Nodes) -> Result<(), Fail> {
    for node in &nodes.items {
        put_place(text, node)?;
    }
    Ok(())
}

/// Writes a node, and those inside it.
#[cycle(places)]
fn put_place(text: &mut String, node: &Node) -> Result<(), Fail> {
    match node {
        Node::Field {
            connection,
            selections,
            place,
            ..
        } => {
            text.push_str(&format!(in *text.allocator(); " {}", place.column)?)?;
            put_connection(text, connection)?;
            put_places(text, selections)
        }
        Node::Inline {
            selections,
            place,
            ..
        } => {
            text.push_str(&format!(in *text.allocator(); " {}", place.column)?)?;
            put_places(text, selections)
        }
    }
}

/// The places of the nodes of the expansion of a definition; nothing where there is none.
fn places(alloc: Global, text: &str, name: &str) -> Result<String, Fail> {
    let schema = schema(alloc, SCHEMA)?;
    let documents = documents(alloc, text)?;
    let mut places = String::new(alloc);
    if let Some(expanded) = expansion_alone(alloc, &schema, &documents, name)? {
        put_places(&mut places, &expanded.selections)?;
    }
    Ok(places)
}

/// A field stands at its alias or its name, an inline fragment at its `...`, what a spread becomes at
/// the `...` of the spread, and what is added where the field around it stands.
#[test]
fn nodes_have_places(rt: HostRuntime) -> Result<(), Fail> {
    let text = "query Q{me{...P}} fragment P on User{name}";
    assert_eq!(rt; places(rt.alloc(), text, "Q")?.as_str(), " 9 12 38 9");
    assert_eq!(rt; places(rt.alloc(), text, "P#")?.as_str(), " 38");
    let alias = "query Q{me{x:name ...{id}}}";
    assert_eq!(rt; places(rt.alloc(), alias, "Q")?.as_str(), " 9 12 19 23 9");
    let union = "query Q{thing{__typename}}";
    assert_eq!(rt; places(rt.alloc(), union, "Q")?.as_str(), " 9 15 9 9");
    Ok(())
}

/// The key of a connection, and its filters in byte order.
#[test]
fn connections_are_kept(rt: HostRuntime) -> Result<(), Fail> {
    let text = "query Q{me{friends@connection(key:\"K_friends\"){__typename}}}";
    assert_eq!(rt;
        places(rt.alloc(), text, "Q")?.as_str(),
        " 9 12 K_friends 48 12 12 12 12 12 12 12 12 12 9"
    );
    let filters =
        "query Q{me{friends@connection(filters:[\"last\",\"after\",\"last\"],key:\"K_friends\"){__typename}}}";
    assert_eq!(rt;
        places(rt.alloc(), filters, "Q")?.as_str(),
        " 9 12 K_friends+after+last 80 12 12 12 12 12 12 12 12 12 9"
    );
    Ok(())
}
