//! How often watches look at records.
use plan_ir::{
    Arguments, Counts, Env, Field, Id, Ids, NoMemory, Pairs, Plain, ReaderList, ReaderPlan,
    ReaderStep, Record, Words,
};
use std::alloc::Global;
use std::rc::Rc;
use std::test::Fail;
use store_layers::{Flat, RecordSource};
use store_watch::{KeptReader, Snapshot, Watched, Watches, read};

/// A leaf under its own name.
fn leaf(alloc: Global, name: &str) -> Result<ReaderPlan, NoMemory> {
    let mut steps = ReaderList::new(alloc);
    steps.push(ReaderStep::Leaf {
        response: Words::new(alloc, name)?,
        name: Words::new(alloc, name)?,
        arguments: Arguments::new(alloc),
    })?;
    let steps = steps.share(alloc)?;
    Ok(ReaderPlan { steps })
}

fn types(alloc: Global, name: &str) -> Result<Ids, NoMemory> {
    let mut names = Vec::new(alloc);
    names.push(Words::new(alloc, name)?)?;
    Ids::sort(names)
}

/// `me { age }`
fn age_of_me(alloc: Global) -> Result<ReaderPlan, NoMemory> {
    let users = types(alloc, "User")?;
    let mut steps = ReaderList::new(alloc);
    steps.push(ReaderStep::Object {
        response: Words::new(alloc, "me")?,
        name: Words::new(alloc, "me")?,
        arguments: Arguments::new(alloc),
        many: false,
        identified: users.copy()?,
        types: users,
        open_type: false,
        connection: None,
        child: leaf(alloc, "age")?,
    })?;
    let steps = steps.share(alloc)?;
    Ok(ReaderPlan { steps })
}

/// What a watch shows by a plan of the record at an id.
fn shown(alloc: Global, plan: ReaderPlan, of: &str, id: &str) -> Result<Watched, NoMemory> {
    let env = Env {
        root: Words::new(alloc, "Query")?,
        values: Pairs::new(alloc),
    };
    Ok(Watched {
        handle: Words::new(alloc, "h")?,
        fragment: None,
        plan: Rc::new(alloc, KeptReader::new(alloc, plan)?)?,
        types: types(alloc, of)?,
        env: Rc::new(alloc, env)?,
        id: Id::new(alloc, id)?,
    })
}

/// A record of a type with one field.
fn row(alloc: Global, of: &str, key: &str, field: Field) -> Result<Rc<Record>, NoMemory> {
    let mut row = Record::new(alloc, Words::new(alloc, of)?);
    row.fields.put(Words::new(alloc, key)?, field)?;
    Ok(Rc::new(alloc, row)?)
}

fn aged(alloc: Global, map: Flat, age: i64, steps: &mut Counts) -> Result<Flat, NoMemory> {
    let user = row(alloc, "User", "age", Field::Leaf(Plain::Int(age)))?;
    map.put(Id::new(alloc, "4")?, user, steps)
}

/// The root links to `4`, which has an age, and `9` has a name.
fn users(alloc: Global, steps: &mut Counts) -> Result<Flat, NoMemory> {
    let link = Field::Link(Id::new(alloc, "4")?);
    let root = row(alloc, "__Root", "me", link)?;
    let name = Field::Leaf(Plain::Text(Words::new(alloc, "Ann")?));
    let other = row(alloc, "User", "name", name)?;
    let map = aged(alloc, Flat::new(alloc)?, 5, steps)?;
    let map = map.put(Id::new(alloc, "client:root")?, root, steps)?;
    map.put(Id::new(alloc, "9")?, other, steps)
}

fn first(
    alloc: Global,
    map: &Flat,
    what: &Watched,
    steps: &mut Counts,
) -> Result<Snapshot, NoMemory> {
    read(
        alloc,
        map,
        what.plan.plan(),
        &what.types,
        &what.env,
        &what.id,
        &what.handle,
        steps,
    )
}

/// Starts a watch, where none of the name is live.
fn start(
    alloc: Global,
    watches: &mut Watches,
    name: &str,
    what: Watched,
    snapshot: Snapshot,
) -> Result<(), NoMemory> {
    if !watches.is_live(name) {
        watches.start(Words::new(alloc, name)?, what, snapshot)?;
    }
    Ok(())
}

/// One watch of `me { age }` at the root, and one of `name` at `9`.
fn two(alloc: Global, map: &Flat, steps: &mut Counts) -> Result<Watches, NoMemory> {
    let mut watches = Watches::new(alloc);
    let age = shown(alloc, age_of_me(alloc)?, "Query", "client:root")?;
    let snapshot = first(alloc, map, &age, steps)?;
    start(alloc, &mut watches, "w", age, snapshot)?;
    let name = shown(alloc, leaf(alloc, "name")?, "User", "9")?;
    let snapshot = first(alloc, map, &name, steps)?;
    start(alloc, &mut watches, "v", name, snapshot)?;
    Ok(watches)
}

/// How many notices there are after the age of `4` has changed, and how many looks they take.
fn notices_and_looks(alloc: Global) -> Result<(usize, u64), NoMemory> {
    let mut steps = Counts::new();
    let map = users(alloc, &mut steps)?;
    let watches = two(alloc, &map, &mut steps)?;
    let view = aged(alloc, map, 6, &mut steps)?;
    let mut counted = Counts::new();
    let notices = watches.notify(&view, &types(alloc, "4")?, &mut counted)?;
    Ok((notices.as_slice().len(), counted.looks))
}

#[test]
fn a_watch_that_saw_nothing_touched_is_not_read(rt: HostRuntime) -> Result<(), Fail> {
    let alloc = rt.alloc();
    let (notices, looks) = notices_and_looks(alloc)?;
    assert!(rt; notices == 1 && looks <= 2);
    Ok(())
}
