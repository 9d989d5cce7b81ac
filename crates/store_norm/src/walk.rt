//! The walk of a response along the groups of its plan.
ghost use Rattle.std.specs.Prelude.{◌≡◌, ◌&&◌, ◌++◌, ◌∷◌, [], not, None, Some, IfOk, OnOk};
ghost use Rattle.plan_groups.specs.FieldView.{below_at, form_at};
ghost use Rattle.plan_ir.specs.NormalMeaning.{collect_plan};
ghost use Rattle.serde_json.specs.Find.{get_member};
ghost use Rattle.serde_json.specs.View.{items_view, members_view, view};
ghost use Rattle.plan_ir.specs.store_model.Items.{many};
ghost use Rattle.plan_ir.specs.store_model.Records.{typename};
ghost use Rattle.plan_ir.specs.store_model.Says as says;
ghost use Rattle.plan_ir.specs.store_model.declared.payload_fault.Cause.TheVariants.{Shape, Typename};
ghost use Rattle.plan_ir.specs.store_model.declared.payload_fault.PathStep.TheVariants.{Key};
ghost use Rattle.store_report.specs.Gathering.{gathered_onto};
ghost use Rattle.store_norm.specs.CacheView.{IsSame};
ghost use Rattle.store_norm.specs.Caching.{plans_of, parts_below, parts_of};
ghost use Rattle.store_norm.specs.MadeView.{id_of, made_at};
ghost use Rattle.store_norm.specs.Tables.{IsTabled};
ghost use Rattle.store_norm.specs.Walk as walk;

use crate::cache::{GroupCache, TypeGroups};
use crate::caching::place_of;
use crate::leaves::leaf;
use crate::made::{Place, object_id};
use crate::members::{Members, member};
use crate::pages::say_pages;
use crate::types::{is_misnamed, type_under};
use plan_groups::{BelowAt, FormAt, GroupAt};
use plan_ir::{Cause, Field, Id, NoMemory, OptIds, Plain, SharedText, Words};
use serde_json::{Map, Value};
use std::alloc::Global;
use store_report::{Gathered, Path, Step};

/// Gathers what the fields of an object say: those of each group that is there.
#[cycle(walk)]
pub(crate) fn say_groups<'r>(
    alloc: Global,
    groups: &[GroupAt<'r>],
    below: &mut [GroupCache<'r>],
    id: &SharedText,
    members: &'r Map<String, Value>,
    path: &Path<'r>,
    gathered: &mut Gathered<'r>,
) -> Result<(), NoMemory>
    requires { plans_of below.old ≡ parts_of groups.now }
    ensures said { OnOk result (gathered.new ≡ gathered_onto gathered.old (says.groups_say collect_plan id.now path.now (says.walks_of collect_plan (members_view members.now.entries)) groups.now)) }
    ensures below { below.new ≡ below.old }
{
    let among = Members::new(alloc, members, groups.len())?;
    'groups: for (at, group) in groups.iter().enumerate() {
        say_group(alloc, group, &mut below[at], id, &among, path, gathered)?;
    }
    Ok(())
}

/// Gathers what the fields of a group say, where their response key is there. What stands under
/// `__typename` is said once, as the type of the object.
#[cycle(walk)]
#[tactic(auto, using(crate::proofs::Reports::gathering))]
fn say_group<'r>(
    alloc: Global,
    group: &GroupAt<'r>,
    below: &mut GroupCache<'r>,
    id: &SharedText,
    members: &Members<'r>,
    path: &Path<'r>,
    gathered: &mut Gathered<'r>,
) -> Result<(), NoMemory>
    requires below { below.old.parts ≡ parts_below group.now }
    requires tabled { IsTabled members.now }
    ensures said { OnOk result (gathered.new ≡ gathered_onto gathered.old (walk.group_told id.now path.now (members_view members.now.map.now.entries) group.now)) }
    ensures below { below.new ≡ below.old }
{
    if is_typename(&group.form()) {
        return Ok(());
    }
    match members.get(group.response()) {
        Some(value) => say_field(alloc, group, below, id, value, path, gathered),
        None => Ok(()),
    }
}

/// Whether the name of the type of the record stands there.
pub(crate) fn is_typename(form: &FormAt<'_>) -> bool
    ensures { result ≡ walk.is_typename (form_at form.now) }
{
    match form {
        FormAt::Typename => true,
        FormAt::Leaf => false,
        FormAt::One(_) => false,
        FormAt::Many(_) => false,
    }
}

/// Gathers a field: its fact, its pages, and what its value says.
#[cycle(walk)]
fn say_field<'r>(
    alloc: Global,
    group: &GroupAt<'r>,
    below: &mut GroupCache<'r>,
    id: &SharedText,
    value: &'r Value,
    path: &Path<'r>,
    gathered: &mut Gathered<'r>,
) -> Result<(), NoMemory>
    requires { below.old.parts ≡ parts_below group.now }
    ensures said { OnOk result (gathered.new ≡ gathered_onto gathered.old (says.group_says collect_plan id.now path.now group.now (Some (says.walk_of collect_plan (view value.now))))) }
    ensures below { below.new ≡ below.old }
{
    let response = group.response();
    let at = gathered.field(id, group.key(), Field::Leaf(Plain::Null), path, response)?;
    say_pages(alloc, group, id, gathered)?;
    let place = Place {
        parent: id,
        key: group.key(),
        index: None,
    };
    let field = say_value(
        alloc,
        &group.form(),
        below,
        &place,
        value,
        path,
        response,
        gathered,
    )?;
    gathered.set(at, field);
    Ok(())
}

/// Gathers what a value under a response key of an object at a path says, and answers what the field
/// becomes. Only objects below the field take the path to it.
#[cycle(walk)]
#[tactic(auto, using(crate::proofs::Reports::gathering))]
fn say_value<'r>(
    alloc: Global,
    form: &FormAt<'r>,
    below: &mut GroupCache<'r>,
    place: &Place<'_>,
    value: &'r Value,
    path: &Path<'r>,
    response: &'r str,
    gathered: &mut Gathered<'r>,
) -> Result<Field, NoMemory>
    requires { place.now.index ≡ None }
    ensures field { IfOk result (λ field. field ≡ (says.walk_of collect_plan (view value.now) (form_at form.now) below.old.parts (made_at place.now) (path.now ++ Key response.now ∷ [])).0) }
    ensures said { OnOk result (gathered.new ≡ gathered_onto gathered.old (says.walk_of collect_plan (view value.now) (form_at form.now) below.old.parts (made_at place.now) (path.now ++ Key response.now ∷ [])).1) }
    ensures below { below.new ≡ below.old }
{
    match form {
        FormAt::Typename => Ok(Field::Leaf(Plain::Null)),
        FormAt::Leaf => leaf(alloc, value, path, response, gathered),
        FormAt::One(type_below) => {
            let path = path.with(alloc, Step::Key(response))?;
            let id = say_element(alloc, type_below, below, place, value, &path, gathered)?;
            Ok(link_or_null(id))
        }
        FormAt::Many(type_below) => {
            let path = path.with(alloc, Step::Key(response))?;
            say_list(alloc, type_below, below, place, value, &path, gathered)
        }
    }
}

/// The link to an object, null where there is none.
pub(crate) fn link_or_null(id: Option<Id>) -> Field
    ensures { result ≡ says.link_or_null id }
{
    match id {
        Some(id) => Field::Link(id),
        None => Field::Leaf(Plain::Null),
    }
}

/// Gathers what a value says where a list of objects should stand.
#[cycle(walk)]
#[tactic(auto, using(crate::proofs::Reports::gathering))]
fn say_list<'r>(
    alloc: Global,
    type_below: &BelowAt<'r>,
    below: &mut GroupCache<'r>,
    place: &Place<'_>,
    value: &'r Value,
    path: &Path<'r>,
    gathered: &mut Gathered<'r>,
) -> Result<Field, NoMemory>
    ensures field { IfOk result (λ field. field ≡ (says.walk_of collect_plan (view value.now) (many (below_at type_below.now)) below.old.parts (made_at place.now) path.now).0) }
    ensures said { OnOk result (gathered.new ≡ gathered_onto gathered.old (says.walk_of collect_plan (view value.now) (many (below_at type_below.now)) below.old.parts (made_at place.now) path.now).1) }
    ensures below { below.new ≡ below.old }
{
    match value {
        Value::Null => Ok(Field::Leaf(Plain::Null)),
        Value::Bool(_) => no_list(path, gathered),
        Value::Number(_) => no_list(path, gathered),
        Value::String(_) => no_list(path, gathered),
        Value::Array(items) => {
            let ids = say_elements(alloc, type_below, below, place, items, path, gathered)?;
            Ok(Field::Links(ids))
        }
        Value::Object(_) => no_list(path, gathered),
    }
}

/// Notes that no list stands there.
fn no_list<'r>(path: &Path<'r>, gathered: &mut Gathered<'r>) -> Result<Field, NoMemory>
    ensures field { IfOk result (λ field. field ≡ (says.no_shape path.now).0) }
    ensures said { OnOk result (gathered.new ≡ gathered_onto gathered.old (says.no_shape path.now).1) }
{
    gathered.fault(path, Cause::Shape)?;
    Ok(Field::Leaf(Plain::Null))
}

/// Gathers what the elements of a list say, and answers their ids.
#[cycle(walk)]
fn say_elements<'r>(
    alloc: Global,
    type_below: &BelowAt<'r>,
    below: &mut GroupCache<'r>,
    place: &Place<'_>,
    items: &'r Vec<Value>,
    path: &Path<'r>,
    gathered: &mut Gathered<'r>,
) -> Result<OptIds, NoMemory>
    ensures ids { IfOk result (λ ids. ids ≡ (says.elements_under (says.elements_of collect_plan (items_view items.now.items)) (below_at type_below.now) below.old.parts (made_at place.now) 0 path.now).0) }
    ensures said { OnOk result (gathered.new ≡ gathered_onto gathered.old (says.elements_under (says.elements_of collect_plan (items_view items.now.items)) (below_at type_below.now) below.old.parts (made_at place.now) 0 path.now).1) }
    ensures below { below.new ≡ below.old }
{
    let mut ids = OptIds::new(alloc);
    'items: for (at, item) in items.iter().enumerate() {
        let index = at as u64;
        let place = Place {
            parent: place.parent,
            key: place.key,
            index: Some(index),
        };
        let path = path.with(alloc, Step::Index(index))?;
        let id = say_element(alloc, type_below, below, &place, item, &path, gathered)?;
        ids.push(id)?;
    }
    Ok(ids)
}

/// Gathers what an object, or null, says under a field of objects, and answers the id of the object.
#[cycle(walk)]
#[tactic(auto, using(crate::proofs::Reports::gathering))]
fn say_element<'r>(
    alloc: Global,
    type_below: &BelowAt<'r>,
    below: &mut GroupCache<'r>,
    place: &Place<'_>,
    value: &'r Value,
    path: &Path<'r>,
    gathered: &mut Gathered<'r>,
) -> Result<Option<Id>, NoMemory>
    ensures id { IfOk result (λ id. id ≡ (says.element_of collect_plan (view value.now) (below_at type_below.now) below.old.parts (id_of place.now) path.now).0) }
    ensures said { OnOk result (gathered.new ≡ gathered_onto gathered.old (says.element_of collect_plan (view value.now) (below_at type_below.now) below.old.parts (id_of place.now) path.now).1) }
    ensures below { below.new ≡ below.old }
{
    match value {
        Value::Null => Ok(None),
        Value::Bool(_) => no_object(path, gathered),
        Value::Number(_) => no_object(path, gathered),
        Value::String(_) => no_object(path, gathered),
        Value::Array(_) => no_object(path, gathered),
        Value::Object(members) => {
            say_object(alloc, type_below, below, place, members, path, gathered)
        }
    }
}

/// Notes that no object stands there.
fn no_object<'r>(path: &Path<'r>, gathered: &mut Gathered<'r>) -> Result<Option<Id>, NoMemory>
    ensures id { IfOk result (λ id. id ≡ None) }
    ensures said { OnOk result (gathered.new ≡ gathered_onto gathered.old (says.fault_at path.now Shape)) }
{
    gathered.fault(path, Cause::Shape)?;
    Ok(None)
}

/// Gathers what an object says, and answers its id; none where its type is not known.
#[cycle(walk)]
fn say_object<'r>(
    alloc: Global,
    type_below: &BelowAt<'r>,
    below: &mut GroupCache<'r>,
    place: &Place<'_>,
    members: &'r Map<String, Value>,
    path: &Path<'r>,
    gathered: &mut Gathered<'r>,
) -> Result<Option<Id>, NoMemory>
    ensures id { IfOk result (λ id. id ≡ (says.object_says collect_plan (members_view members.now.entries) (says.walks_of collect_plan (members_view members.now.entries)) (below_at type_below.now) below.old.parts (id_of place.now) path.now).0) }
    ensures said { OnOk result (gathered.new ≡ gathered_onto gathered.old (says.object_says collect_plan (members_view members.now.entries) (says.walks_of collect_plan (members_view members.now.entries)) (below_at type_below.now) below.old.parts (id_of place.now) path.now).1) }
    ensures below { below.new ≡ below.old }
{
    match type_under(type_below, members) {
        Some(name) => say_type(
            alloc, type_below, below, name, place, members, path, gathered,
        ),
        None => no_type(alloc, path, gathered),
    }
}

/// Notes that no possible type stands under `__typename`.
fn no_type<'r>(
    alloc: Global,
    path: &Path<'r>,
    gathered: &mut Gathered<'r>,
) -> Result<Option<Id>, NoMemory>
    ensures id { IfOk result (λ id. id ≡ None) }
    ensures said { OnOk result (gathered.new ≡ gathered_onto gathered.old (says.fault_at (path.now ++ Key typename ∷ []) Typename)) }
{
    let path = path.with(alloc, Step::Key("__typename"))?;
    gathered.fault(&path, Cause::Typename)?;
    Ok(None)
}

/// Gathers what an object of a type says, and answers its id.
#[cycle(walk)]
fn say_type<'r>(
    alloc: Global,
    type_below: &BelowAt<'r>,
    below: &mut GroupCache<'r>,
    name: &'r str,
    place: &Place<'_>,
    members: &'r Map<String, Value>,
    path: &Path<'r>,
    gathered: &mut Gathered<'r>,
) -> Result<Option<Id>, NoMemory>
    ensures id { IfOk result (λ id. id ≡ (says.typed_says collect_plan (members_view members.now.entries) (says.walks_of collect_plan (members_view members.now.entries)) (below_at type_below.now) below.old.parts (id_of place.now) path.now (Some name.now)).0) }
    ensures said { OnOk result (gathered.new ≡ gathered_onto gathered.old (says.typed_says collect_plan (members_view members.now.entries) (says.walks_of collect_plan (members_view members.now.entries)) (below_at type_below.now) below.old.parts (id_of place.now) path.now (Some name.now)).1) }
    ensures below { below.new ≡ below.old }
{
    let at = place_of(
        alloc,
        &below.parts,
        &mut below.places,
        &mut below.types,
        name,
    )?;
    say_typed(
        alloc,
        type_below,
        &mut below.types[at],
        place,
        members,
        path,
        gathered,
    )
}

/// Gathers what an object of a type says, by the groups of the type, and answers its id; none where
/// another type stands under `__typename`.
#[cycle(walk)]
fn say_typed<'r>(
    alloc: Global,
    type_below: &BelowAt<'r>,
    of: &mut TypeGroups<'r>,
    place: &Place<'_>,
    members: &'r Map<String, Value>,
    path: &Path<'r>,
    gathered: &mut Gathered<'r>,
) -> Result<Option<Id>, NoMemory>
    requires { plans_of of.old.below.items ≡ parts_of of.old.groups }
    ensures id { IfOk result (λ id. id ≡ (walk.object_told (members_view members.now.entries) (below_at type_below.now) of.old.name.now of.old.groups (id_of place.now) path.now).0) }
    ensures said { OnOk result (gathered.new ≡ gathered_onto gathered.old (walk.object_told (members_view members.now.entries) (below_at type_below.now) of.old.name.now of.old.groups (id_of place.now) path.now).1) }
    ensures below { IsSame of.old of.new }
{
    if is_other_type(type_below, of, members) {
        return no_type(alloc, path, gathered);
    }
    let has_id = type_below.identified.contains(of.name);
    let id = object_id(alloc, has_id, place, member(members, "id"), path, gathered)?;
    gathered.name(&id, Words::new(alloc, of.name)?, path)?;
    say_groups(
        alloc,
        of.groups.as_slice(),
        &mut of.below,
        &id,
        members,
        path,
        gathered,
    )?;
    Ok(Some(id.as_words().copy()?))
}

/// Whether another type stands under `__typename` of an object whose type is not open.
pub(crate) fn is_other_type(
    type_below: &BelowAt<'_>,
    of: &TypeGroups<'_>,
    members: &Map<String, Value>,
) -> bool
    ensures { result ≡ (not type_below.now.open_type && says.is_misnamed of.now.name.now (says.responses of.now.groups) (get_member typename (members_view members.now.entries))) }
{
    if type_below.open_type {
        return false;
    }
    is_misnamed(of.name, of.groups.as_slice(), members)
}
