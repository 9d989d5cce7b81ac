//! Documents whose operations or fragments break a rule where all their spreads are followed (E1, E2,
//! V23 and V24; this project's own, but V24, which is section 5.3.2 of GraphQL, October 2021), and
//! neighbours that are accepted.
//!
//! A row is a rule and the documents of one project, between `;`, each on one line. A `^` stands in
//! front of the place where the rule does not hold, and is no part of the document. Rows begin with
//! `ok` where no rule is broken.
use crate::rows::{SCHEMA, compare};
use std::alloc::Global;
use std::test::Fail;

#[test]
fn fields_that_merge(rt: HostRuntime) -> Result<(), Fail> {
    let rows = "V24 query A { me { x: name ^x: id } }
V24 query A { me { name ^name: friend { name } } }
V24 query A { team(size: 1) { name } ^team(size: 2) { name } }
V24 query A { team(size: 1) { name } ^team { name } }
V24 query A { x: color ^x: any }
V24 query A { thing { ... on User { x: name } ... on Team { ^x: size } } }
V24 query A { me { ...F ^name: id } } fragment F on User { name }
V24 query A { me { name: id ...F } } fragment F on User { ^name }
V24 query A { me { friend { friend { x: name } } ... { friend { friend { ^x: id } } } } }
V24 query A { me { name } } fragment F on User { x: name ^x: id }
V24 query A { me { name } } ; query B { me { x: name ^x: id } } ; query C { me { x: name x: id } }
V24 query B { me { ...F } } fragment F on User { y: name ^y: id } query A { me { x: name x: id } }
V22 query A { me { x: name x: id } } query B { me { name @^connection(key: \"B_name\") } }
ok query A { thing { ... on User { x: name } ... on Team { x: name } } }
ok query A { team(size: 1) { name } team(size: 1) { id name } }
ok query A { me { ...F name } } fragment F on User { name friend { name } friend { id } }";
    compare(&rt, rt.alloc(), SCHEMA, rows)?;
    Ok(())
}

#[test]
fn values_that_are_put_in(rt: HostRuntime) -> Result<(), Fail> {
    let rows =
        "V23 query A { ...F @arguments(i: null) } fragment F on Query @argumentDefinitions(i: {type: \"ID\", defaultValue: \"1\"}) { ^node(id: $i) { id } }
V23 query A($v: ID) { ...F @arguments(i: $v) } fragment F on Query @argumentDefinitions(i: {type: \"ID\", defaultValue: \"1\"}) { color ^x: node(id: $i) { id } }
V23 query A { ...F @arguments(n: null) } fragment F on Query @argumentDefinitions(n: {type: \"Int\", defaultValue: 1}) { color ^find(filter: {first: 1, inner: {first: $n}}) }
V23 query A { ...F @arguments(b: null) } fragment F on Query @argumentDefinitions(b: {type: \"Boolean\", defaultValue: true}) { ^... @skip(if: $b) { color } }
V23 query B { me { x: name x: id } } query A { ...F @arguments(i: null) } fragment F on Query @argumentDefinitions(i: {type: \"ID\", defaultValue: \"1\"}) { ^node(id: $i) { id } }
V18 query A { ...^F @arguments(i: {a: 1}) } fragment F on Query @argumentDefinitions(i: {type: \"ID\", defaultValue: \"1\"}) { node(id: $i) { id } }
ok query A($v: ID!) { ...F @arguments(i: $v) } fragment F on Query @argumentDefinitions(i: {type: \"ID\", defaultValue: \"1\"}) { node(id: $i) { id } }
ok query A { ...F } fragment F on Query @argumentDefinitions(i: {type: \"ID\", defaultValue: \"1\"}) { node(id: $i) { id } }
ok query A { me { name } } fragment F on Query @argumentDefinitions(i: {type: \"ID\", defaultValue: \"1\"}) { node(id: $i) { id } }";
    compare(&rt, rt.alloc(), SCHEMA, rows)?;
    Ok(())
}

/// Fragments on User of these names, from 0 to below a number, of which each spreads the next so many
/// times, and the last has a field.
fn chain(alloc: Global, name: &str, count: usize, times: usize) -> Result<String, Fail> {
    let mut text = String::new(alloc);
    for n in 1..count {
        text.push_str(&format!(in alloc; " fragment {name}{} on User {{", n.saturating_sub(1))?)?;
        for _ in 0..times {
            text.push_str(&format!(in alloc; " ...{name}{n}")?)?;
        }
        text.push_str(" }")?;
    }
    text.push_str(&format!(in alloc;
        " fragment {name}{} on User {{ name }}",
        count.saturating_sub(1)
    )?)?;
    Ok(text)
}

/// The operation's set is the first, that of `me` the second, and that of each fragment one more.
#[test]
fn sets_that_nest_too_deep(rt: HostRuntime) -> Result<(), Fail> {
    let within = chain(rt.alloc(), "F", 58, 1)?;
    let row = format!(in rt.alloc(); "ok query A {{ me {{ ...F0 }} }}{within}")?;
    compare(&rt, rt.alloc(), SCHEMA, row.as_str())?;
    let deep = chain(rt.alloc(), "F", 59, 1)?;
    let row = format!(in rt.alloc(); "E2 query ^A {{ me {{ ...F0 }} }}{deep}")?;
    compare(&rt, rt.alloc(), SCHEMA, row.as_str())?;
    let row = format!(in rt.alloc();
        "E2 query B {{ me {{ x: name x: id }} }} ; query ^A {{ me {{ ...F0 }} }}{deep}"
    )?;
    compare(&rt, rt.alloc(), SCHEMA, row.as_str())?;
    Ok(())
}

/// A fragment of which each spreads the next twice has twice as many nodes as the next.
#[test]
fn nodes_that_are_too_many(rt: HostRuntime) -> Result<(), Fail> {
    let many = chain(rt.alloc(), "F", 30, 2)?;
    let row = format!(in rt.alloc(); "E1 query ^A {{ me {{ ...F0 }} }}{many}")?;
    compare(&rt, rt.alloc(), SCHEMA, row.as_str())?;
    let row = format!(in rt.alloc();
        "E1 query B {{ me {{ name }} }} ; query ^A {{ me {{ ...F0 }} }} query C {{ me {{ ...F0 }} }}{many}"
    )?;
    compare(&rt, rt.alloc(), SCHEMA, row.as_str())?;
    let deep = chain(rt.alloc(), "G", 59, 1)?;
    let row = format!(in rt.alloc();
        "E1 query D {{ me {{ ...G0 }} }}{deep} query ^A {{ me {{ ...F0 }} }}{many}"
    )?;
    compare(&rt, rt.alloc(), SCHEMA, row.as_str())?;
    Ok(())
}
