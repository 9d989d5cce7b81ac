//! The walk from record to record.
//!
//! It goes in rounds: a round takes the records where the walk goes on, each with its parts, one
//! step further. Where it goes on next is a set, so a record is opened once for the same parts at
//! the same depth, however many ways lead to it.
ghost use Rattle.std.specs.Prelude.{◌≡◌, ◌||◌, [], ◌∷◌, map, Some, option_copied, OnOk};
ghost use Rattle.plan_ir.specs.gql_plain.Order.{has_text};
ghost use Rattle.plan_ir.specs.store_model.Entries.{some_id, some_ids};
ghost use Rattle.plan_ir.specs.store_model.Reaches.{links_of, links_under};
ghost use Rattle.plan_ir.specs.store_model.Walks.{field_of, type_of_record};
ghost use Rattle.plan_ir.specs.store_record.Keys.{Text};
ghost use Rattle.plan_ir.specs.store_record.declared.record.Slot.TheVariants.{Alive};
ghost use Rattle.store_retain.specs.FoundView.{stand_of};
ghost use Rattle.store_retain.specs.PathView.{AreRight, path_steps, paths_steps};
ghost use Rattle.store_retain.specs.Reach.{reach_step};
ghost use Rattle.store_retain.specs.RoadView.{table_of};
ghost use Rattle.store_retain.specs.Steps.{Follows, row_steps, slots_of, stand_steps, stands_steps, steps_to, way_steps};
ghost use Rattle.store_retain.specs.Steps as step;
ghost use Rattle.store_retain.specs.TrailView.{way_of};

use crate::found::{Found, Stands};
use crate::paths::{Known, Path};
use crate::trail::Trail;
use plan_ir::{Field, Id, Ids, NoMemory, OptIds, Record, Slot, Words};
use std::alloc::Global;
use store_source::RecordSource;

/// Where records are looked up, and the root type of the operation.
#[derive(Drop)]
pub(crate) struct Store<'s, S: RecordSource> {
    pub(crate) source: &'s S,
    pub(crate) root: &'s str,
}

/// Walks from an id along the part of a number, at most so many records one below another, the first
/// one not counted. The record at the id may be of these types.
pub(crate) fn walk<'s, S: RecordSource>(
    alloc: Global,
    store: &Store<'s, S>,
    parts: &[Vec<Trail>],
    types: &Ids,
    numbers: &[usize],
    id: &'s str,
    rounds: usize,
    found: &mut Found<'s>,
    steps: &mut S::Count,
) -> Result<(), NoMemory>
    ensures ids { (j : Text) → OnOk result (has_text found.new.ids j ≡ (has_text found.old.ids j || has_text (reach_step (slots_of (S.records store.now.source.now)) store.now.root.now (table_of parts.now) rounds (record { id = id.now; types = types.now; parts = numbers.now })) j)) }
    ensures applies { S.Count.applies steps.new ≡ S.Count.applies steps.old }
{
    drop(found.take_next(alloc));
    stand(alloc, store, types, numbers, id, found, steps)?;
    'rounds: for _ in 0..rounds {
        let stands = found.take_next(alloc);
        go_on(alloc, store, parts, &stands, found, steps)?;
    }
    Ok(())
}

/// Goes on from each record, one step further. What is followed from the records of one type by the
/// same parts is made once.
fn go_on<'s, S: RecordSource>(
    alloc: Global,
    store: &Store<'s, S>,
    parts: &[Vec<Trail>],
    stands: &Stands<'s>,
    found: &mut Found<'s>,
    steps: &mut S::Count,
) -> Result<(), NoMemory>
    ensures follows { OnOk result (Follows (slots_of (S.records store.now.source.now)) store.now.root.now found.old found.new (stands_steps (slots_of (S.records store.now.source.now)) store.now.root.now (table_of parts.now) (map stand_of stands.now.keys))) }
    ensures applies { S.Count.applies steps.new ≡ S.Count.applies steps.old }
{
    let mut known = Known::new(alloc);
    'stands: for (id, numbers) in stands {
        go_on_from(alloc, store, parts, *id, numbers, &mut known, found, steps)?;
    }
    Ok(())
}

/// Goes on from the record at an id, one step further.
fn go_on_from<'s, 't, 'k, S: RecordSource>(
    alloc: Global,
    store: &Store<'s, S>,
    parts: &'t [Vec<Trail>],
    id: &'s str,
    numbers: &'k [usize],
    known: &mut Known<'t, 's, 'k>,
    found: &mut Found<'s>,
    steps: &mut S::Count,
) -> Result<(), NoMemory>
    requires { AreRight (table_of parts.now) known.old.made.items }
    ensures right { AreRight (table_of parts.now) known.new.made.items }
    ensures follows { OnOk result (Follows (slots_of (S.records store.now.source.now)) store.now.root.now found.old found.new (stand_steps (slots_of (S.records store.now.source.now)) store.now.root.now (table_of parts.now) (id.now, numbers.now))) }
    ensures applies { S.Count.applies steps.new ≡ S.Count.applies steps.old }
{
    let source = store.source;
    match source.get(id, steps) {
        Some(Slot::Alive(shared)) => {
            let row = shared.get();
            go_on_row(alloc, store, parts, row, numbers, known, found, steps)
        }
        Some(Slot::Deleted) => Ok(()),
        None => Ok(()),
    }
}

/// Goes on from a live record, one step further.
fn go_on_row<'s, 't, 'k, S: RecordSource>(
    alloc: Global,
    store: &Store<'s, S>,
    parts: &'t [Vec<Trail>],
    row: &'s Record,
    numbers: &'k [usize],
    known: &mut Known<'t, 's, 'k>,
    found: &mut Found<'s>,
    steps: &mut S::Count,
) -> Result<(), NoMemory>
    requires { AreRight (table_of parts.now) known.old.made.items }
    ensures right { AreRight (table_of parts.now) known.new.made.items }
    ensures follows { OnOk result (Follows (slots_of (S.records store.now.source.now)) store.now.root.now found.old found.new (row_steps (table_of parts.now) numbers.now (type_of_record store.now.root.now row.now.type_name) (field_of (Some (Alive row.now))))) }
    ensures applies { S.Count.applies steps.new ≡ S.Count.applies steps.old }
{
    let object = type_of(store.root, row);
    let place = known.place_of(alloc, parts, object, numbers)?;
    let there = &known.made[place];
    follow_paths(alloc, store, row, &there.paths, found, steps)
}

/// The type of a record, by the name of its type: the root record has the root type of the operation.
fn type_of<'s>(root: &'s str, row: &'s Record) -> &'s str
    ensures { result.now ≡ type_of_record root.now row.now.type_name }
{
    let name = row.type_name.as_str();
    if name == "__Root" {
        return root;
    }
    name
}

/// Follows each path from a record.
fn follow_paths<'s, S: RecordSource>(
    alloc: Global,
    store: &Store<'s, S>,
    row: &'s Record,
    paths: &[Path<'_>],
    found: &mut Found<'s>,
    steps: &mut S::Count,
) -> Result<(), NoMemory>
    ensures follows { OnOk result (Follows (slots_of (S.records store.now.source.now)) store.now.root.now found.old found.new (paths_steps (field_of (Some (Alive row.now))) paths.now)) }
    ensures applies { S.Count.applies steps.new ≡ S.Count.applies steps.old }
{
    'paths: for path in paths {
        follow_path(alloc, store, row, path, found, steps)?;
    }
    Ok(())
}

/// Follows the trails of a path from a record.
fn follow_path<'s, S: RecordSource>(
    alloc: Global,
    store: &Store<'s, S>,
    row: &'s Record,
    path: &Path<'_>,
    found: &mut Found<'s>,
    steps: &mut S::Count,
) -> Result<(), NoMemory>
    ensures follows { OnOk result (Follows (slots_of (S.records store.now.source.now)) store.now.root.now found.old found.new (path_steps (field_of (Some (Alive row.now))) path.now)) }
    ensures applies { S.Count.applies steps.new ≡ S.Count.applies steps.old }
{
    'trails: for at in &path.trails {
        follow_trail(alloc, store, row, at.trail, &path.numbers, found, steps)?;
    }
    Ok(())
}

/// Follows a trail from a record.
fn follow_trail<'s, S: RecordSource>(
    alloc: Global,
    store: &Store<'s, S>,
    row: &'s Record,
    trail: &Trail,
    numbers: &[usize],
    found: &mut Found<'s>,
    steps: &mut S::Count,
) -> Result<(), NoMemory>
    ensures follows { OnOk result (Follows (slots_of (S.records store.now.source.now)) store.now.root.now found.old found.new (way_steps (field_of (Some (Alive row.now))) numbers.now (way_of trail.now))) }
    ensures applies { S.Count.applies steps.new ≡ S.Count.applies steps.old }
{
    let field = row.fields.get(trail.key.as_str());
    follow_field(alloc, store, &trail.types, numbers, field, found, steps)?;
    let page = under_handle(row, &trail.handle);
    follow_field(alloc, store, &trail.types, numbers, page, found, steps)
}

/// The field under the key of a connection, where there is one; takes no memory.
fn under_handle<'s>(row: &'s Record, handle: &Option<Words>) -> Option<&'s Field>
    ensures { links_of (option_copied result) ≡ links_under (field_of (Some (Alive row.now))) handle.now }
{
    match handle {
        Some(handle) => row.fields.get(handle.as_str()),
        None => None,
    }
}

/// Stands at each id that a field links to.
fn follow_field<'s, S: RecordSource>(
    alloc: Global,
    store: &Store<'s, S>,
    types: &Ids,
    numbers: &[usize],
    field: Option<&'s Field>,
    found: &mut Found<'s>,
    steps: &mut S::Count,
) -> Result<(), NoMemory>
    ensures follows { OnOk result (Follows (slots_of (S.records store.now.source.now)) store.now.root.now found.old found.new (steps_to types.now numbers.now (links_of (option_copied field.entry)))) }
    ensures applies { S.Count.applies steps.new ≡ S.Count.applies steps.old }
{
    match field {
        Some(Field::Leaf(_)) => Ok(()),
        Some(Field::Link(id)) => stand(alloc, store, types, numbers, id.as_str(), found, steps),
        Some(Field::Links(ids)) => follow_ids(alloc, store, types, numbers, ids, found, steps),
        None => Ok(()),
    }
}

/// Stands at each of the ids of a list.
fn follow_ids<'s, S: RecordSource>(
    alloc: Global,
    store: &Store<'s, S>,
    types: &Ids,
    numbers: &[usize],
    ids: &'s OptIds,
    found: &mut Found<'s>,
    steps: &mut S::Count,
) -> Result<(), NoMemory>
    ensures follows { OnOk result (Follows (slots_of (S.records store.now.source.now)) store.now.root.now found.old found.new (steps_to types.now numbers.now (some_ids ids.now))) }
    ensures applies { S.Count.applies steps.new ≡ S.Count.applies steps.old }
{
    'ids: for id in ids.as_slice() {
        follow_id(alloc, store, types, numbers, id, found, steps)?;
    }
    Ok(())
}

/// Stands at an id, where there is one.
fn follow_id<'s, S: RecordSource>(
    alloc: Global,
    store: &Store<'s, S>,
    types: &Ids,
    numbers: &[usize],
    id: &'s Option<Id>,
    found: &mut Found<'s>,
    steps: &mut S::Count,
) -> Result<(), NoMemory>
    ensures follows { OnOk result (Follows (slots_of (S.records store.now.source.now)) store.now.root.now found.old found.new (steps_to types.now numbers.now (some_id id.now))) }
    ensures applies { S.Count.applies steps.new ≡ S.Count.applies steps.old }
{
    match id {
        Some(id) => stand(alloc, store, types, numbers, id.as_str(), found, steps),
        None => Ok(()),
    }
}

/// Stands at an id. The walk goes on from there with these parts where the record is live and of one
/// of these types.
fn stand<'s, S: RecordSource>(
    alloc: Global,
    store: &Store<'s, S>,
    types: &Ids,
    numbers: &[usize],
    id: &'s str,
    found: &mut Found<'s>,
    steps: &mut S::Count,
) -> Result<(), NoMemory>
    ensures follows { OnOk result (Follows (slots_of (S.records store.now.source.now)) store.now.root.now found.old found.new (record { id = id.now; types = types.now; parts = numbers.now } ∷ [])) }
    ensures applies { S.Count.applies steps.new ≡ S.Count.applies steps.old }
{
    found.see(id)?;
    if !is_possible(store, types, id, steps) {
        return Ok(());
    }
    found.go_on(alloc, id, numbers)?;
    Ok(())
}

/// Whether the record at an id is live and of one of these types.
fn is_possible<S: RecordSource>(
    store: &Store<'_, S>,
    types: &Ids,
    id: &str,
    steps: &mut S::Count,
) -> bool
    ensures possible { result ≡ step.is_possible store.now.root.now types.now (slots_of (S.records store.now.source.now) id.now) }
    ensures applies { S.Count.applies steps.new ≡ S.Count.applies steps.old }
{
    let source = store.source;
    match source.get(id, steps) {
        Some(Slot::Alive(shared)) => {
            let object = type_of(store.root, shared.get());
            types.contains(object)
        }
        Some(Slot::Deleted) => false,
        None => false,
    }
}
