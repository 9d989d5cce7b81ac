use std::alloc::Global;
use std::rc::Rc;
use std::test::Fail;
use store_layers::{Flat, Record, RecordSource, Slot, Versions};
use store_tree::gql_plain::{Counts, Id, Name, NoMemory};

fn row(alloc: Global, type_name: &str) -> Result<Rc<Record>, NoMemory> {
    let type_name = Name::new(alloc, type_name)?;
    Ok(Rc::new(alloc, Record::new(alloc, type_name))?)
}

/// The map with a live record of a type at an id.
fn with_type<S: RecordSource>(
    alloc: Global,
    source: &S,
    id: &str,
    type_name: &str,
    steps: &mut S::Count,
) -> Result<S, NoMemory> {
    let row = row(alloc, type_name)?;
    source.with(Id::new(alloc, id)?, row, steps)
}

/// The same, of a map that is not used again.
fn put_type<S: RecordSource>(
    alloc: Global,
    source: S,
    id: &str,
    type_name: &str,
    steps: &mut S::Count,
) -> Result<S, NoMemory> {
    let row = row(alloc, type_name)?;
    source.put(Id::new(alloc, id)?, row, steps)
}

/// The map with `a` live, `b` deleted, and `c` put and taken out.
fn change<S: RecordSource>(alloc: Global, source: &S, steps: &mut S::Count) -> Result<S, NoMemory> {
    let source = with_type(alloc, source, "c", "C", steps)?;
    let source = with_type(alloc, &source, "a", "A", steps)?;
    let source = source.with_deleted(Id::new(alloc, "b")?, steps)?;
    source.without("c", steps)
}

/// The same, of a map that is not used again.
fn change_in_place<S: RecordSource>(
    alloc: Global,
    source: S,
    steps: &mut S::Count,
) -> Result<S, NoMemory> {
    let source = put_type(alloc, source, "c", "C", steps)?;
    let source = put_type(alloc, source, "a", "A", steps)?;
    let source = source.put_deleted(Id::new(alloc, "b")?, steps)?;
    source.remove("c", steps)
}

/// What stands at an id: the name of a type, `deleted` or `absent`.
fn standing<'a, S: RecordSource>(source: &'a S, id: &str, steps: &mut S::Count) -> &'a str {
    match source.get(id, steps) {
        Some(Slot::Alive(shared)) => shared.get().type_name.as_str(),
        Some(Slot::Deleted) => "deleted",
        None => "absent",
    }
}

/// What stands at `a`, at `b` and at `c`, and then the ids.
fn shown<S: RecordSource>(
    alloc: Global,
    source: &S,
    steps: &mut S::Count,
) -> Result<String, NoMemory> {
    let mut text = String::new(alloc);
    for id in ["a", "b", "c"] {
        text.push_str(standing(source, id, steps))?;
        text.push(' ')?;
    }
    let ids = source.ids()?;
    for id in ids.as_slice() {
        text.push_str(id.as_str())?;
    }
    Ok(text)
}

const NOTHING: &str = "absent absent absent ";

const CHANGED: &str = "A deleted absent ab";

/// Whether a change gives a new map, and leaves the one before.
fn leaves_the_old<S: RecordSource>(
    alloc: Global,
    empty: &S,
    steps: &mut S::Count,
) -> Result<bool, NoMemory> {
    let changed = change(alloc, empty, steps)?;
    let new = shown(alloc, &changed, steps)?;
    let old = shown(alloc, empty, steps)?;
    Ok(new.as_str() == CHANGED && old.as_str() == NOTHING)
}

/// Whether a change in place leaves a version of the map.
fn leaves_a_version<S: RecordSource>(
    alloc: Global,
    empty: S,
    steps: &mut S::Count,
) -> Result<bool, NoMemory> {
    let version = empty.version()?;
    let changed = change_in_place(alloc, empty, steps)?;
    let new = shown(alloc, &changed, steps)?;
    let old = shown(alloc, &version, steps)?;
    Ok(new.as_str() == CHANGED && old.as_str() == NOTHING)
}

#[test]
fn a_change_of_a_flat_map_leaves_the_old_one(rt: HostRuntime) -> Result<(), Fail> {
    let alloc = rt.alloc();
    let mut steps = Counts::new();
    let empty = Flat::new(alloc)?;
    assert!(rt; leaves_the_old(alloc, &empty, &mut steps)?);
    assert!(rt; leaves_a_version(alloc, empty, &mut steps)?);
    assert!(rt; steps.looks == 12 && steps.applies == 0 && steps.nodes == 0);
    Ok(())
}

#[test]
fn a_change_of_a_version_leaves_the_old_one(rt: HostRuntime) -> Result<(), Fail> {
    let alloc = rt.alloc();
    let mut steps = Counts::new();
    let empty = Versions::new(alloc);
    assert!(rt; leaves_the_old(alloc, &empty, &mut steps)?);
    assert!(rt; steps.looks == 6 && steps.applies == 0);
    assert!(rt; leaves_a_version(alloc, empty, &mut steps)?);
    // So few changes stand beside the tree.
    assert!(rt; steps.nodes == 0);
    Ok(())
}

/// The map with four live records of a type, of a map that is not used again.
fn put_four<S: RecordSource>(
    alloc: Global,
    source: S,
    type_name: &str,
    steps: &mut S::Count,
) -> Result<S, NoMemory> {
    let source = put_type(alloc, source, "a", type_name, steps)?;
    let source = put_type(alloc, source, "b", type_name, steps)?;
    let source = put_type(alloc, source, "c", type_name, steps)?;
    put_type(alloc, source, "d", type_name, steps)
}

#[test]
fn settled_changes_are_written_in_place(rt: HostRuntime) -> Result<(), Fail> {
    let alloc = rt.alloc();
    let mut steps = Counts::new();
    let source = put_four(alloc, Versions::new(alloc), "A", &mut steps)?;
    let mut source = put_four(alloc, source, "B", &mut steps)?;
    // The first four have made room for the others: one leaf.
    assert!(rt; steps.nodes == 1);
    source.settle();
    let source = put_four(alloc, source, "C", &mut steps)?;
    assert!(rt; steps.nodes == 1);
    let text = shown(alloc, &source, &mut steps)?;
    assert!(rt; text.as_str() == "C C C abcd");
    Ok(())
}

#[test]
fn what_a_version_holds_is_not_settled(rt: HostRuntime) -> Result<(), Fail> {
    let alloc = rt.alloc();
    let mut steps = Counts::new();
    let source = put_four(alloc, Versions::new(alloc), "A", &mut steps)?;
    let mut source = put_four(alloc, source, "B", &mut steps)?;
    let version = source.version()?;
    source.settle();
    let source = put_type(alloc, source, "a", "C", &mut steps)?;
    // The list has still been full, and the version holds the leaf.
    assert!(rt; steps.nodes == 2);
    let new = shown(alloc, &source, &mut steps)?;
    let old = shown(alloc, &version, &mut steps)?;
    assert!(rt; new.as_str() == "C B B abcd" && old.as_str() == "B B B abcd");
    Ok(())
}
