//! Records that the tests read.
use plan_ir::{Counts, Field, Id, NoMemory, OptIds, Plain, Record, Words};
use std::alloc::Global;
use std::rc::Rc;
use store_show::{Flat, RecordSource};

fn link(alloc: Global, id: &str) -> Result<Field, NoMemory> {
    Ok(Field::Link(Id::new(alloc, id)?))
}

fn text(alloc: Global, text: &str) -> Result<Field, NoMemory> {
    Ok(Field::Leaf(Plain::Text(Words::new(alloc, text)?)))
}

/// The record with a field more.
fn with(alloc: Global, row: Record, key: &str, field: Field) -> Result<Record, NoMemory> {
    let Record {
        type_name,
        mut fields,
    } = row;
    fields.put(Words::new(alloc, key)?, field)?;
    Ok(Record { type_name, fields })
}

/// A record of this type and name.
fn named(alloc: Global, type_name: &str, name: &str) -> Result<Record, NoMemory> {
    let row = Record::new(alloc, Words::new(alloc, type_name)?);
    with(alloc, row, "name", text(alloc, name)?)
}

/// Ann, whose friend is Bo.
fn ann(alloc: Global) -> Result<Record, NoMemory> {
    let row = named(alloc, "User", "Ann")?;
    let row = with(alloc, row, "age", Field::Leaf(Plain::Int(5)))?;
    with(alloc, row, "friend", link(alloc, "7")?)
}

/// Bo, who has no friend, and whose age is not there.
fn bo(alloc: Global) -> Result<Record, NoMemory> {
    let row = named(alloc, "User", "Bo")?;
    with(alloc, row, "friend", Field::Leaf(Plain::Null))
}

/// A list of Ann, of none, of Bo, and of a user who was deleted.
fn team(alloc: Global) -> Result<Field, NoMemory> {
    let mut ids = OptIds::new(alloc);
    ids.push(Some(Id::new(alloc, "4")?))?;
    ids.push(None)?;
    ids.push(Some(Id::new(alloc, "7")?))?;
    ids.push(Some(Id::new(alloc, "8")?))?;
    Ok(Field::Links(ids))
}

/// The root links to users, to one who was deleted, to one who is not there, and to a page.
fn root(alloc: Global) -> Result<Record, NoMemory> {
    let row = Record::new(alloc, Words::new(alloc, "__Root")?);
    let row = with(alloc, row, "me", link(alloc, "4")?)?;
    let row = with(alloc, row, "team", team(alloc)?)?;
    links(alloc, row)
}

fn links(alloc: Global, row: Record) -> Result<Record, NoMemory> {
    let row = with(alloc, row, "gone", link(alloc, "8")?)?;
    let row = with(alloc, row, "lost", link(alloc, "9")?)?;
    with(alloc, row, "page", link(alloc, "p")?)
}

fn put(
    alloc: Global,
    map: Flat,
    id: &str,
    row: Record,
    steps: &mut Counts,
) -> Result<Flat, NoMemory> {
    map.put(Id::new(alloc, id)?, Rc::new(alloc, row)?, steps)
}

/// Cy, who is her own friend, and Dee and Eve, each of whom is the other's.
fn rings(alloc: Global, map: Flat, steps: &mut Counts) -> Result<Flat, NoMemory> {
    let map = put(alloc, map, "5", friend_of(alloc, "Cy", "5")?, steps)?;
    let map = put(alloc, map, "b", friend_of(alloc, "Dee", "a")?, steps)?;
    put(alloc, map, "a", friend_of(alloc, "Eve", "b")?, steps)
}

fn friend_of(alloc: Global, name: &str, friend: &str) -> Result<Record, NoMemory> {
    let row = named(alloc, "User", name)?;
    with(alloc, row, "friend", link(alloc, friend)?)
}

/// All of them.
pub(crate) fn records(alloc: Global) -> Result<Flat, NoMemory> {
    let mut steps = Counts::new();
    let map = put(
        alloc,
        Flat::new(alloc)?,
        "client:root",
        root(alloc)?,
        &mut steps,
    )?;
    let map = put(alloc, map, "4", ann(alloc)?, &mut steps)?;
    let map = put(alloc, map, "7", bo(alloc)?, &mut steps)?;
    let map = map.put_deleted(Id::new(alloc, "8")?, &mut steps)?;
    let map = put(alloc, map, "p", named(alloc, "Page", "Home")?, &mut steps)?;
    rings(alloc, map, &mut steps)
}
