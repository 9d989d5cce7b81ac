//! The walk along records.
ghost use Rattle.std.specs.Prelude.{◌≡◌, ◌+◌, ◌-◌, ◌<◌, ◌≤◌, ◌++◌, None, Some, length, map, option_map, option_copied, IfOk, OnOk};
ghost use Rattle.plan_ir.specs.gql_plain.Shown.{plain_trees, shown_members, tree_of};
ghost use Rattle.plan_groups.specs.FieldView.{form_at};
ghost use Rattle.plan_ir.specs.store_model.Walks as walks;
ghost use Rattle.plan_ir.specs.store_model.Walks.{field_of};
ghost use Rattle.plan_ir.specs.store_record.declared.record.Slot.TheVariants.{Alive};
ghost use Rattle.store_read.specs.CacheView.{IsSame, group_view, pointer_view};
ghost use Rattle.store_read.specs.Meeting.{met_onto};
ghost use Rattle.store_read.specs.Walked as walked;
ghost use Rattle.store_read.specs.Walked.{reads};

use crate::cache::{Cache, FieldGroup, PointerAt, TypeItems};
use crate::caching::place_of;
use crate::members::{first_of_each, or_null, put_found, put_marks};
use crate::met::Met;
use crate::store::{Store, type_of};
use plan_groups::FormAt;
use plan_ir::{Field, Id, Ids, NoMemory, OptIds, Pairs, Plain, Plains, Record, Slot, Words};
use std::alloc::Global;
use store_source::RecordSource;

/// Reads the record at an id, which may be of these types; None where it is missing.
#[cycle(read)]
pub(crate) fn read_record<'p, S: RecordSource>(
    alloc: Global,
    store: &Store<'p, S>,
    cache: &mut Cache<'p>,
    types: &Ids,
    id: &Id,
    met: &mut Met,
    steps: &mut S::Count,
) -> Result<Option<Plain>, NoMemory>
    ensures shown { IfOk result (λ shown. option_map tree_of shown ≡ (reads (S.records store.now.source.now) store.now.root.now store.now.owner.now cache.old.levels types.now cache.old.parts id.now).0) }
    ensures met { OnOk result (met.new ≡ met_onto met.old (reads (S.records store.now.source.now) store.now.root.now store.now.owner.now cache.old.levels types.now cache.old.parts id.now).1) }
    ensures looks { S.Count.looks steps.new ≤ S.Count.looks steps.old + length (reads (S.records store.now.source.now) store.now.root.now store.now.owner.now cache.old.levels types.now cache.old.parts id.now).1.seen }
    ensures applies { S.Count.applies steps.new ≡ S.Count.applies steps.old }
    ensures cache { cache.new ≡ cache.old }
{
    met.stand(id)?;
    if cache.levels == 0 {
        return lost(met);
    }
    let source = store.source;
    match source.get(id.as_str(), steps) {
        Some(Slot::Alive(shared)) => {
            let row = shared.get();
            read_live(alloc, store, cache, types, id, row, met, steps)
        }
        Some(Slot::Deleted) => Ok(Some(Plain::Null)),
        None => {
            met.lose();
            Ok(None)
        }
    }
}

/// Notes that something is missing.
fn lost(met: &mut Met) -> Result<Option<Plain>, NoMemory>
    ensures shown { IfOk result (λ shown. option_map tree_of shown ≡ None) }
    ensures met { met.new ≡ met_onto met.old walks.missing_trace }
{
    met.lose();
    Ok(None)
}

/// Reads a live record, which is missing where it is of another type.
#[cycle(read)]
fn read_live<'p, S: RecordSource>(
    alloc: Global,
    store: &Store<'p, S>,
    cache: &mut Cache<'p>,
    types: &Ids,
    id: &Id,
    row: &'p Record,
    met: &mut Met,
    steps: &mut S::Count,
) -> Result<Option<Plain>, NoMemory>
    requires some { 0 < cache.old.levels }
    ensures shown { IfOk result (λ shown. option_map tree_of shown ≡ (walked.live_read (S.records store.now.source.now) store.now.root.now store.now.owner.now cache.old types.now id.now row.now).0) }
    ensures met { OnOk result (met.new ≡ met_onto met.old (walked.live_read (S.records store.now.source.now) store.now.root.now store.now.owner.now cache.old types.now id.now row.now).1) }
    ensures looks { S.Count.looks steps.new ≤ S.Count.looks steps.old + length (walked.live_read (S.records store.now.source.now) store.now.root.now store.now.owner.now cache.old types.now id.now row.now).1.seen }
    ensures applies { S.Count.applies steps.new ≡ S.Count.applies steps.old }
    ensures cache { cache.new ≡ cache.old }
{
    let name = type_of(store.root, row);
    if !types.contains(name) {
        return lost(met);
    }
    let at = place_of(
        alloc,
        &cache.parts,
        cache.levels,
        &mut cache.places,
        &mut cache.types,
        name,
    )?;
    let members = read_object(alloc, store, &mut cache.types[at], id, row, met, steps)?;
    Ok(Some(Plain::Tree(members)))
}

/// Reads the members of a record of a type.
#[cycle(read)]
fn read_object<'p, S: RecordSource>(
    alloc: Global,
    store: &Store<'p, S>,
    of: &mut TypeItems<'p>,
    id: &Id,
    row: &'p Record,
    met: &mut Met,
    steps: &mut S::Count,
) -> Result<Pairs, NoMemory>
    ensures shown { IfOk result (λ members. members ≡ (walked.object_read (reads (S.records store.now.source.now) store.now.root.now store.now.owner.now) store.now.owner.now of.old.name.now of.old.itself id.now (field_of (Some (Alive row.now))) (map group_view of.old.groups.items) (map pointer_view of.old.pointers.items)).0) }
    ensures met { OnOk result (met.new ≡ met_onto met.old (walked.object_read (reads (S.records store.now.source.now) store.now.root.now store.now.owner.now) store.now.owner.now of.old.name.now of.old.itself id.now (field_of (Some (Alive row.now))) (map group_view of.old.groups.items) (map pointer_view of.old.pointers.items)).1) }
    ensures looks { S.Count.looks steps.new ≤ S.Count.looks steps.old + length (walked.object_read (reads (S.records store.now.source.now) store.now.root.now store.now.owner.now) store.now.owner.now of.old.name.now of.old.itself id.now (field_of (Some (Alive row.now))) (map group_view of.old.groups.items) (map pointer_view of.old.pointers.items)).1.seen }
    ensures applies { S.Count.applies steps.new ≡ S.Count.applies steps.old }
    ensures same { IsSame of.old of.new }
{
    let mut members = Vec::with_capacity(alloc, of.groups.len())?;
    read_groups(
        alloc,
        store,
        of.name,
        &mut of.groups,
        row,
        &mut members,
        met,
        steps,
    )?;
    let pointers = read_pointers(alloc, store, &of.itself, &mut of.pointers, id, met, steps)?;
    put_marks(alloc, store.owner, id, pointers, &mut members)?;
    first_of_each(members)
}

/// Reads the fields of each group.
#[cycle(read)]
fn read_groups<'p, S: RecordSource>(
    alloc: Global,
    store: &Store<'p, S>,
    name: &str,
    groups: &mut [FieldGroup<'p>],
    row: &'p Record,
    members: &mut Vec<(Words, Plain)>,
    met: &mut Met,
    steps: &mut S::Count,
) -> Result<(), NoMemory>
    ensures shown { OnOk result (shown_members members.new.items ≡ shown_members members.old.items ++ walked.groups_shown (reads (S.records store.now.source.now) store.now.root.now store.now.owner.now) name.now (field_of (Some (Alive row.now))) (map group_view groups.old)) }
    ensures met { OnOk result (met.new ≡ met_onto met.old (walked.groups_met (reads (S.records store.now.source.now) store.now.root.now store.now.owner.now) name.now (field_of (Some (Alive row.now))) (map group_view groups.old))) }
    ensures looks { S.Count.looks steps.new ≤ S.Count.looks steps.old + length (walked.groups_met (reads (S.records store.now.source.now) store.now.root.now store.now.owner.now) name.now (field_of (Some (Alive row.now))) (map group_view groups.old)).seen }
    ensures applies { S.Count.applies steps.new ≡ S.Count.applies steps.old }
    ensures groups { map group_view groups.new ≡ map group_view groups.old }
{
    'groups: for at in 0..groups.len() {
        read_group(
            alloc,
            store,
            name,
            &mut groups[at],
            row,
            members,
            met,
            steps,
        )?;
    }
    Ok(())
}

/// Reads the fields of a group.
#[cycle(read)]
fn read_group<'p, S: RecordSource>(
    alloc: Global,
    store: &Store<'p, S>,
    name: &str,
    group: &mut FieldGroup<'p>,
    row: &'p Record,
    members: &mut Vec<(Words, Plain)>,
    met: &mut Met,
    steps: &mut S::Count,
) -> Result<(), NoMemory>
    ensures shown { OnOk result (shown_members members.new.items ≡ shown_members members.old.items ++ walked.group_shown (reads (S.records store.now.source.now) store.now.root.now store.now.owner.now) name.now (field_of (Some (Alive row.now))) (group_view group.old)) }
    ensures met { OnOk result (met.new ≡ met_onto met.old (walked.group_read (reads (S.records store.now.source.now) store.now.root.now store.now.owner.now) name.now (field_of (Some (Alive row.now))) (group_view group.old)).1) }
    ensures looks { S.Count.looks steps.new ≤ S.Count.looks steps.old + length (walked.group_read (reads (S.records store.now.source.now) store.now.root.now store.now.owner.now) name.now (field_of (Some (Alive row.now))) (group_view group.old)).1.seen }
    ensures applies { S.Count.applies steps.new ≡ S.Count.applies steps.old }
    ensures group { group_view group.new ≡ group_view group.old }
{
    let field = row.fields.get(group.key.as_str());
    let form = group.form;
    let shown = read_value(
        alloc,
        store,
        name,
        form,
        &mut group.below,
        field,
        met,
        steps,
    )?;
    put_found(alloc, members, group.response, shown)
}

/// Reads a field by its form.
#[cycle(read)]
fn read_value<'p, S: RecordSource>(
    alloc: Global,
    store: &Store<'p, S>,
    name: &str,
    form: FormAt<'p>,
    below: &mut Cache<'p>,
    field: Option<&'p Field>,
    met: &mut Met,
    steps: &mut S::Count,
) -> Result<Option<Plain>, NoMemory>
    ensures shown { IfOk result (λ shown. option_map tree_of shown ≡ (walks.value_at (reads (S.records store.now.source.now) store.now.root.now store.now.owner.now below.old.levels) name.now below.old.parts (form_at form.entry) (option_copied field.entry)).0) }
    ensures met { OnOk result (met.new ≡ met_onto met.old (walks.value_at (reads (S.records store.now.source.now) store.now.root.now store.now.owner.now below.old.levels) name.now below.old.parts (form_at form.entry) (option_copied field.entry)).1) }
    ensures looks { S.Count.looks steps.new ≤ S.Count.looks steps.old + length (walks.value_at (reads (S.records store.now.source.now) store.now.root.now store.now.owner.now below.old.levels) name.now below.old.parts (form_at form.entry) (option_copied field.entry)).1.seen }
    ensures applies { S.Count.applies steps.new ≡ S.Count.applies steps.old }
    ensures below { below.new ≡ below.old }
{
    match form {
        FormAt::Typename => Ok(Some(Plain::Text(Words::new(alloc, name)?))),
        FormAt::Leaf => read_leaf(field, met),
        FormAt::One(to) => read_one(alloc, store, to.types, below, field, met, steps),
        FormAt::Many(to) => read_many(alloc, store, to.types, below, field, met, steps),
    }
}

/// Reads a leaf.
fn read_leaf(field: Option<&Field>, met: &mut Met) -> Result<Option<Plain>, NoMemory>
    ensures shown { IfOk result (λ shown. option_map tree_of shown ≡ (walks.leaf_at (option_copied field.entry)).0) }
    ensures met { OnOk result (met.new ≡ met_onto met.old (walks.leaf_at (option_copied field.entry)).1) }
{
    match field {
        Some(Field::Leaf(value)) => Ok(Some(value.copy()?)),
        Some(Field::Link(_)) => lost(met),
        Some(Field::Links(_)) => lost(met),
        None => lost(met),
    }
}

/// Reads a leaf under a field of objects: only null is not missing.
fn read_null(value: &Plain, met: &mut Met) -> Result<Option<Plain>, NoMemory>
    ensures shown { IfOk result (λ shown. option_map tree_of shown ≡ (walks.null_alone value.now).0) }
    ensures met { OnOk result (met.new ≡ met_onto met.old (walks.null_alone value.now).1) }
{
    match value {
        Plain::Null => Ok(Some(Plain::Null)),
        Plain::Bool(_) => lost(met),
        Plain::Int(_) => lost(met),
        Plain::Text(_) => lost(met),
        Plain::List(_) => lost(met),
        Plain::Tree(_) => lost(met),
    }
}

/// Reads a field of one object.
#[cycle(read)]
fn read_one<'p, S: RecordSource>(
    alloc: Global,
    store: &Store<'p, S>,
    types: &Ids,
    below: &mut Cache<'p>,
    field: Option<&'p Field>,
    met: &mut Met,
    steps: &mut S::Count,
) -> Result<Option<Plain>, NoMemory>
    ensures shown { IfOk result (λ shown. option_map tree_of shown ≡ (walks.one_at (reads (S.records store.now.source.now) store.now.root.now store.now.owner.now below.old.levels) types.now below.old.parts (option_copied field.entry)).0) }
    ensures met { OnOk result (met.new ≡ met_onto met.old (walks.one_at (reads (S.records store.now.source.now) store.now.root.now store.now.owner.now below.old.levels) types.now below.old.parts (option_copied field.entry)).1) }
    ensures looks { S.Count.looks steps.new ≤ S.Count.looks steps.old + length (walks.one_at (reads (S.records store.now.source.now) store.now.root.now store.now.owner.now below.old.levels) types.now below.old.parts (option_copied field.entry)).1.seen }
    ensures applies { S.Count.applies steps.new ≡ S.Count.applies steps.old }
    ensures below { below.new ≡ below.old }
{
    match field {
        Some(Field::Leaf(value)) => read_null(value, met),
        Some(Field::Link(id)) => read_record(alloc, store, below, types, id, met, steps),
        Some(Field::Links(_)) => lost(met),
        None => lost(met),
    }
}

/// Reads a field of a list of objects.
#[cycle(read)]
fn read_many<'p, S: RecordSource>(
    alloc: Global,
    store: &Store<'p, S>,
    types: &Ids,
    below: &mut Cache<'p>,
    field: Option<&'p Field>,
    met: &mut Met,
    steps: &mut S::Count,
) -> Result<Option<Plain>, NoMemory>
    ensures shown { IfOk result (λ shown. option_map tree_of shown ≡ (walks.many_at (reads (S.records store.now.source.now) store.now.root.now store.now.owner.now below.old.levels) types.now below.old.parts (option_copied field.entry)).0) }
    ensures met { OnOk result (met.new ≡ met_onto met.old (walks.many_at (reads (S.records store.now.source.now) store.now.root.now store.now.owner.now below.old.levels) types.now below.old.parts (option_copied field.entry)).1) }
    ensures looks { S.Count.looks steps.new ≤ S.Count.looks steps.old + length (walks.many_at (reads (S.records store.now.source.now) store.now.root.now store.now.owner.now below.old.levels) types.now below.old.parts (option_copied field.entry)).1.seen }
    ensures applies { S.Count.applies steps.new ≡ S.Count.applies steps.old }
    ensures below { below.new ≡ below.old }
{
    match field {
        Some(Field::Leaf(value)) => read_null(value, met),
        Some(Field::Link(_)) => lost(met),
        Some(Field::Links(ids)) => {
            let elements = read_elements(alloc, store, types, below, ids, met, steps)?;
            Ok(Some(Plain::List(elements)))
        }
        None => lost(met),
    }
}

/// Reads the elements of a list.
#[cycle(read)]
fn read_elements<'p, S: RecordSource>(
    alloc: Global,
    store: &Store<'p, S>,
    types: &Ids,
    below: &mut Cache<'p>,
    ids: &'p OptIds,
    met: &mut Met,
    steps: &mut S::Count,
) -> Result<Plains, NoMemory>
    ensures shown { IfOk result (λ shown. shown ≡ (walks.elements_at (reads (S.records store.now.source.now) store.now.root.now store.now.owner.now below.old.levels) types.now below.old.parts ids.now).0) }
    ensures met { OnOk result (met.new ≡ met_onto met.old (walks.elements_at (reads (S.records store.now.source.now) store.now.root.now store.now.owner.now below.old.levels) types.now below.old.parts ids.now).1) }
    ensures looks { S.Count.looks steps.new ≤ S.Count.looks steps.old + length (walks.elements_at (reads (S.records store.now.source.now) store.now.root.now store.now.owner.now below.old.levels) types.now below.old.parts ids.now).1.seen }
    ensures applies { S.Count.applies steps.new ≡ S.Count.applies steps.old }
    ensures below { below.new ≡ below.old }
{
    let mut shown = Plains::new(alloc);
    'ids: for id in ids.as_slice() {
        shown.push(read_element(alloc, store, types, below, id, met, steps)?)?;
    }
    Ok(shown)
}

/// Reads an element of a list: null where there is none, and where it is missing.
#[cycle(read)]
fn read_element<'p, S: RecordSource>(
    alloc: Global,
    store: &Store<'p, S>,
    types: &Ids,
    below: &mut Cache<'p>,
    element: &Option<Id>,
    met: &mut Met,
    steps: &mut S::Count,
) -> Result<Plain, NoMemory>
    ensures shown { IfOk result (λ shown. tree_of shown ≡ (walks.element_at (reads (S.records store.now.source.now) store.now.root.now store.now.owner.now below.old.levels) types.now below.old.parts element.now).0) }
    ensures met { OnOk result (met.new ≡ met_onto met.old (walks.element_at (reads (S.records store.now.source.now) store.now.root.now store.now.owner.now below.old.levels) types.now below.old.parts element.now).1) }
    ensures looks { S.Count.looks steps.new ≤ S.Count.looks steps.old + length (walks.element_at (reads (S.records store.now.source.now) store.now.root.now store.now.owner.now below.old.levels) types.now below.old.parts element.now).1.seen }
    ensures applies { S.Count.applies steps.new ≡ S.Count.applies steps.old }
    ensures below { below.new ≡ below.old }
{
    match element {
        Some(id) => {
            let shown = read_record(alloc, store, below, types, id, met, steps)?;
            Ok(or_null(shown))
        }
        None => Ok(Plain::Null),
    }
}

/// Reads the pointers of a record whose type stands alone in a list.
#[cycle(read)]
fn read_pointers<'p, S: RecordSource>(
    alloc: Global,
    store: &Store<'p, S>,
    itself: &Ids,
    pointers: &mut [PointerAt<'p>],
    id: &Id,
    met: &mut Met,
    steps: &mut S::Count,
) -> Result<Pairs, NoMemory>
    ensures shown { IfOk result (λ shown. shown ≡ walked.pointers_shown (reads (S.records store.now.source.now) store.now.root.now store.now.owner.now) itself.now id.now (map pointer_view pointers.old)) }
    ensures met { OnOk result (met.new ≡ met_onto met.old (walked.pointers_met (reads (S.records store.now.source.now) store.now.root.now store.now.owner.now) itself.now id.now (map pointer_view pointers.old))) }
    ensures looks { S.Count.looks steps.new ≤ S.Count.looks steps.old + length (walked.pointers_met (reads (S.records store.now.source.now) store.now.root.now store.now.owner.now) itself.now id.now (map pointer_view pointers.old)).seen }
    ensures applies { S.Count.applies steps.new ≡ S.Count.applies steps.old }
    ensures pointers { map pointer_view pointers.new ≡ map pointer_view pointers.old }
{
    let mut shown = Vec::with_capacity(alloc, pointers.len())?;
    'pointers: for at in 0..pointers.len() {
        read_pointer(
            alloc,
            store,
            itself,
            &mut pointers[at],
            id,
            &mut shown,
            met,
            steps,
        )?;
    }
    first_of_each(shown)
}

/// Reads a pointer: it shows the values of local variables, or what its fragment shows where that is
/// read.
#[cycle(read)]
fn read_pointer<'p, S: RecordSource>(
    alloc: Global,
    store: &Store<'p, S>,
    itself: &Ids,
    pointer: &mut PointerAt<'p>,
    id: &Id,
    shown: &mut Vec<(Words, Plain)>,
    met: &mut Met,
    steps: &mut S::Count,
) -> Result<(), NoMemory>
    ensures shown { OnOk result (shown_members shown.new.items ≡ shown_members shown.old.items ++ walked.pointer_shown (reads (S.records store.now.source.now) store.now.root.now store.now.owner.now) itself.now id.now (pointer_view pointer.old)) }
    ensures met { OnOk result (met.new ≡ met_onto met.old (walked.pointer_read (reads (S.records store.now.source.now) store.now.root.now store.now.owner.now) itself.now id.now (pointer_view pointer.old)).1) }
    ensures looks { S.Count.looks steps.new ≤ S.Count.looks steps.old + length (walked.pointer_read (reads (S.records store.now.source.now) store.now.root.now store.now.owner.now) itself.now id.now (pointer_view pointer.old)).1.seen }
    ensures applies { S.Count.applies steps.new ≡ S.Count.applies steps.old }
    ensures pointer { pointer_view pointer.new ≡ pointer_view pointer.old }
{
    let name = Words::new(alloc, pointer.fragment)?;
    if !pointer.inline {
        shown.push((name, Plain::Tree(pointer.scope.copy()?)))?;
        return Ok(());
    }
    let body = read_record(alloc, store, &mut pointer.body, itself, id, met, steps)?;
    shown.push((name, or_null(body)))?;
    Ok(())
}
