//! The walk of a response along the groups of its plan, by rows.
ghost use Rattle.std.specs.Prelude.{◌≡◌, ◌++◌, ◌∷◌, [], codes, option_map, None, Some, IfOk, OnOk};
ghost use Rattle.plan_groups.specs.FieldView.{below_at, form_at};
ghost use Rattle.plan_ir.specs.NormalMeaning.{collect_plan};
ghost use Rattle.serde_json.specs.View.{items_view, members_view, view};
ghost use Rattle.plan_ir.specs.store_model.Events.{plain_of_data};
ghost use Rattle.plan_ir.specs.store_model.Items.{many};
ghost use Rattle.plan_ir.specs.store_model.Records.{typename};
ghost use Rattle.plan_ir.specs.store_model.Says as says;
ghost use Rattle.plan_ir.specs.store_model.declared.payload_fault.Cause.TheVariants.{Shape, Typename};
ghost use Rattle.plan_ir.specs.store_model.declared.payload_fault.PathStep.TheVariants.{Key};
ghost use Rattle.store_norm.specs.CacheView.{IsSame};
ghost use Rattle.store_norm.specs.Caching.{plans_of, parts_below, parts_of};
ghost use Rattle.store_norm.specs.MadeView.{id_of, made_at};
ghost use Rattle.store_norm.specs.Tables.{IsTabled};
ghost use Rattle.store_norm.specs.Walk as walk;
ghost use Rattle.store_report.specs.ObjectRows.{Adds, with_open};

use crate::cache::{GroupCache, TypeGroups};
use crate::caching::place_of;
use crate::made::{Place, made_id};
use crate::members::{Members, member};
use crate::types::type_under;
use crate::walk::{is_other_type, is_typename, link_or_null};
use plan_groups::{BelowAt, FormAt, GroupAt, put_pages};
use plan_ir::{
    Cause, Field, Id, NoMemory, OptIds, Plain, PlainFault, SharedField, SharedText, Words, plain_of,
};
use serde_json::{Map, Value};
use std::alloc::Global;
use store_report::{ObjectRows, Step, Trail};

/// Takes what the fields of an object say, those of each group that is there: its own fields, and the rows
/// of the objects below.
#[cycle(take)]
pub(crate) fn take_groups<'r>(
    alloc: Global,
    groups: &[GroupAt<'r>],
    below: &mut [GroupCache<'r>],
    id: &SharedText,
    members: &'r Map<String, Value>,
    trail: &Trail<'_, 'r>,
    fields: &mut Vec<SharedField>,
    rows: &mut ObjectRows<'r>,
) -> Result<(), NoMemory>
    requires { plans_of below.old ≡ parts_of groups.now }
    ensures said { OnOk result (Adds (with_open id.now fields.old.items rows.old) (with_open id.now fields.new.items rows.new) (says.groups_say collect_plan id.now trail.now (says.walks_of collect_plan (members_view members.now.entries)) groups.now)) }
    ensures below { below.new ≡ below.old }
{
    let among = Members::new(alloc, members, groups.len())?;
    'groups: for (at, group) in groups.iter().enumerate() {
        take_group(
            alloc,
            group,
            &mut below[at],
            id,
            &among,
            trail,
            fields,
            rows,
        )?;
    }
    Ok(())
}

/// Takes what the fields of a group say, where their response key is there. What stands under
/// `__typename` is taken once, as the type of the object.
#[cycle(take)]
fn take_group<'r>(
    alloc: Global,
    group: &GroupAt<'r>,
    below: &mut GroupCache<'r>,
    id: &SharedText,
    members: &Members<'r>,
    trail: &Trail<'_, 'r>,
    fields: &mut Vec<SharedField>,
    rows: &mut ObjectRows<'r>,
) -> Result<(), NoMemory>
    requires below { below.old.parts ≡ parts_below group.now }
    requires tabled { IsTabled members.now }
    ensures said { OnOk result (Adds (with_open id.now fields.old.items rows.old) (with_open id.now fields.new.items rows.new) (walk.group_told id.now trail.now (members_view members.now.map.now.entries) group.now)) }
    ensures below { below.new ≡ below.old }
{
    if is_typename(&group.form()) {
        return Ok(());
    }
    match members.get(group.response()) {
        Some(value) => take_field(alloc, group, below, id, value, trail, fields, rows),
        None => Ok(()),
    }
}

/// Takes a field: its pages, what its value says, and the field itself.
#[cycle(take)]
fn take_field<'r>(
    alloc: Global,
    group: &GroupAt<'r>,
    below: &mut GroupCache<'r>,
    id: &SharedText,
    value: &'r Value,
    trail: &Trail<'_, 'r>,
    fields: &mut Vec<SharedField>,
    rows: &mut ObjectRows<'r>,
) -> Result<(), NoMemory>
    requires { below.old.parts ≡ parts_below group.now }
    ensures said { OnOk result (Adds (with_open id.now fields.old.items rows.old) (with_open id.now fields.new.items rows.new) (says.group_says collect_plan id.now trail.now group.now (Some (says.walk_of collect_plan (view value.now))))) }
    ensures below { below.new ≡ below.old }
{
    take_pages(alloc, group, id, rows)?;
    let place = Place {
        parent: id,
        key: group.key(),
        index: None,
    };
    let here = (&*trail).with(Step::Key(group.response()));
    let field = take_value(alloc, &group.form(), below, &place, value, &here, rows)?;
    let key = group.key().copy()?;
    fields.push(SharedField::new(alloc, key, field)?)?;
    Ok(())
}

/// Takes the pages of a group's fields.
fn take_pages(
    alloc: Global,
    group: &GroupAt<'_>,
    id: &SharedText,
    rows: &mut ObjectRows<'_>,
) -> Result<(), NoMemory>
    ensures { OnOk result (Adds rows.old rows.new (says.report_pages (says.pages_of collect_plan id.now group.now))) }
{
    let mut pages = Vec::new(alloc);
    put_pages(alloc, group, id.as_words(), &mut pages)?;
    'pages: for page in pages {
        rows.page(page)?;
    }
    Ok(())
}

/// Takes what a value says, and answers what the field becomes.
#[cycle(take)]
#[tactic(auto, using(crate::proofs::TakeSteps::taking))]
fn take_value<'r>(
    alloc: Global,
    form: &FormAt<'r>,
    below: &mut GroupCache<'r>,
    place: &Place<'_>,
    value: &'r Value,
    trail: &Trail<'_, 'r>,
    rows: &mut ObjectRows<'r>,
) -> Result<Field, NoMemory>
    requires { place.now.index ≡ None }
    ensures field { IfOk result (λ field. field ≡ (says.walk_of collect_plan (view value.now) (form_at form.now) below.old.parts (made_at place.now) trail.now).0) }
    ensures said { OnOk result (Adds rows.old rows.new (says.walk_of collect_plan (view value.now) (form_at form.now) below.old.parts (made_at place.now) trail.now).1) }
    ensures below { below.new ≡ below.old }
{
    match form {
        FormAt::Typename => Ok(Field::Leaf(Plain::Null)),
        FormAt::Leaf => leaf_of(alloc, value, trail, rows),
        FormAt::One(type_below) => {
            let id = take_element(alloc, type_below, below, place, value, trail, rows)?;
            Ok(link_or_null(id))
        }
        FormAt::Many(type_below) => {
            take_list(alloc, type_below, below, place, value, trail, rows)
        }
    }
}

/// The value of a leaf, null with the fault NotWhole where one of its numbers is not whole.
fn leaf_of<'r>(
    alloc: Global,
    value: &Value,
    trail: &Trail<'_, 'r>,
    rows: &mut ObjectRows<'r>,
) -> Result<Field, NoMemory>
    ensures field { IfOk result (λ field. field ≡ (says.leaf_of (plain_of_data (view value.now)) trail.now).0) }
    ensures said { OnOk result (Adds rows.old rows.new (says.leaf_of (plain_of_data (view value.now)) trail.now).1) }
{
    match plain_of(alloc, value) {
        Ok(plain) => Ok(Field::Leaf(plain)),
        Err(PlainFault::NotWhole) => {
            rows.fault(alloc, trail, Cause::NotWhole)?;
            Ok(Field::Leaf(Plain::Null))
        }
        Err(PlainFault::NoMemory) => Err(NoMemory),
    }
}

/// Takes what a value says where a list of objects should stand.
#[cycle(take)]
#[tactic(auto, using(crate::proofs::TakeSteps::taking))]
fn take_list<'r>(
    alloc: Global,
    type_below: &BelowAt<'r>,
    below: &mut GroupCache<'r>,
    place: &Place<'_>,
    value: &'r Value,
    trail: &Trail<'_, 'r>,
    rows: &mut ObjectRows<'r>,
) -> Result<Field, NoMemory>
    ensures field { IfOk result (λ field. field ≡ (says.walk_of collect_plan (view value.now) (many (below_at type_below.now)) below.old.parts (made_at place.now) trail.now).0) }
    ensures said { OnOk result (Adds rows.old rows.new (says.walk_of collect_plan (view value.now) (many (below_at type_below.now)) below.old.parts (made_at place.now) trail.now).1) }
    ensures below { below.new ≡ below.old }
{
    match value {
        Value::Null => Ok(Field::Leaf(Plain::Null)),
        Value::Bool(_) => no_list(alloc, trail, rows),
        Value::Number(_) => no_list(alloc, trail, rows),
        Value::String(_) => no_list(alloc, trail, rows),
        Value::Array(items) => {
            let ids = take_elements(alloc, type_below, below, place, items, trail, rows)?;
            Ok(Field::Links(ids))
        }
        Value::Object(_) => no_list(alloc, trail, rows),
    }
}

/// Notes that no list stands there.
#[tactic(auto, using(crate::proofs::TakeSteps::taking))]
fn no_list<'r>(
    alloc: Global,
    trail: &Trail<'_, 'r>,
    rows: &mut ObjectRows<'r>,
) -> Result<Field, NoMemory>
    ensures field { IfOk result (λ field. field ≡ (says.no_shape trail.now).0) }
    ensures said { OnOk result (Adds rows.old rows.new (says.no_shape trail.now).1) }
{
    rows.fault(alloc, trail, Cause::Shape)?;
    Ok(Field::Leaf(Plain::Null))
}

/// Takes what the elements of a list say, and answers their ids.
#[cycle(take)]
fn take_elements<'r>(
    alloc: Global,
    type_below: &BelowAt<'r>,
    below: &mut GroupCache<'r>,
    place: &Place<'_>,
    items: &'r Vec<Value>,
    trail: &Trail<'_, 'r>,
    rows: &mut ObjectRows<'r>,
) -> Result<OptIds, NoMemory>
    ensures ids { IfOk result (λ ids. ids ≡ (says.elements_under (says.elements_of collect_plan (items_view items.now.items)) (below_at type_below.now) below.old.parts (made_at place.now) 0 trail.now).0) }
    ensures said { OnOk result (Adds rows.old rows.new (says.elements_under (says.elements_of collect_plan (items_view items.now.items)) (below_at type_below.now) below.old.parts (made_at place.now) 0 trail.now).1) }
    ensures below { below.new ≡ below.old }
{
    let mut ids = OptIds::new(alloc);
    'items: for (at, item) in items.iter().enumerate() {
        let index = at as u64;
        let place = Place {
            parent: place.parent,
            key: place.key,
            index: Some(index),
        };
        let here = (&*trail).with(Step::Index(index));
        let id = take_element(alloc, type_below, below, &place, item, &here, rows)?;
        ids.push(id)?;
    }
    Ok(ids)
}

/// Takes what an object, or null, says under a field of objects, and answers the id of the object.
#[cycle(take)]
#[tactic(auto, using(crate::proofs::TakeSteps::taking))]
fn take_element<'r>(
    alloc: Global,
    type_below: &BelowAt<'r>,
    below: &mut GroupCache<'r>,
    place: &Place<'_>,
    value: &'r Value,
    trail: &Trail<'_, 'r>,
    rows: &mut ObjectRows<'r>,
) -> Result<Option<Id>, NoMemory>
    ensures id { IfOk result (λ id. id ≡ (says.element_of collect_plan (view value.now) (below_at type_below.now) below.old.parts (id_of place.now) trail.now).0) }
    ensures said { OnOk result (Adds rows.old rows.new (says.element_of collect_plan (view value.now) (below_at type_below.now) below.old.parts (id_of place.now) trail.now).1) }
    ensures below { below.new ≡ below.old }
{
    match value {
        Value::Null => Ok(None),
        Value::Bool(_) => no_object(alloc, trail, rows),
        Value::Number(_) => no_object(alloc, trail, rows),
        Value::String(_) => no_object(alloc, trail, rows),
        Value::Array(_) => no_object(alloc, trail, rows),
        Value::Object(members) => {
            take_object(alloc, type_below, below, place, members, trail, rows)
        }
    }
}

/// Notes that no object stands there.
#[tactic(auto, using(crate::proofs::TakeSteps::taking))]
fn no_object<'r>(
    alloc: Global,
    trail: &Trail<'_, 'r>,
    rows: &mut ObjectRows<'r>,
) -> Result<Option<Id>, NoMemory>
    ensures id { IfOk result (λ id. id ≡ None) }
    ensures said { OnOk result (Adds rows.old rows.new (says.fault_at trail.now Shape)) }
{
    rows.fault(alloc, trail, Cause::Shape)?;
    Ok(None)
}

/// Takes what an object says, and answers its id.
#[cycle(take)]
fn take_object<'r>(
    alloc: Global,
    type_below: &BelowAt<'r>,
    below: &mut GroupCache<'r>,
    place: &Place<'_>,
    members: &'r Map<String, Value>,
    trail: &Trail<'_, 'r>,
    rows: &mut ObjectRows<'r>,
) -> Result<Option<Id>, NoMemory>
    ensures id { IfOk result (λ id. id ≡ (says.object_says collect_plan (members_view members.now.entries) (says.walks_of collect_plan (members_view members.now.entries)) (below_at type_below.now) below.old.parts (id_of place.now) trail.now).0) }
    ensures said { OnOk result (Adds rows.old rows.new (says.object_says collect_plan (members_view members.now.entries) (says.walks_of collect_plan (members_view members.now.entries)) (below_at type_below.now) below.old.parts (id_of place.now) trail.now).1) }
    ensures below { below.new ≡ below.old }
{
    match type_under(type_below, members) {
        Some(name) => take_type(alloc, type_below, below, name, place, members, trail, rows),
        None => no_type(alloc, trail, rows),
    }
}

/// Notes that no possible type stands under `__typename`.
#[tactic(auto, using(crate::proofs::TakeSteps::taking))]
fn no_type<'r>(
    alloc: Global,
    trail: &Trail<'_, 'r>,
    rows: &mut ObjectRows<'r>,
) -> Result<Option<Id>, NoMemory>
    ensures id { IfOk result (λ id. id ≡ None) }
    ensures said { OnOk result (Adds rows.old rows.new (says.fault_at (trail.now ++ Key typename ∷ []) Typename)) }
{
    let here = (&*trail).with(Step::Key("__typename"));
    rows.fault(alloc, &here, Cause::Typename)?;
    Ok(None)
}

/// Takes what an object of a type says, and answers its id.
#[cycle(take)]
fn take_type<'r>(
    alloc: Global,
    type_below: &BelowAt<'r>,
    below: &mut GroupCache<'r>,
    name: &'r str,
    place: &Place<'_>,
    members: &'r Map<String, Value>,
    trail: &Trail<'_, 'r>,
    rows: &mut ObjectRows<'r>,
) -> Result<Option<Id>, NoMemory>
    ensures id { IfOk result (λ id. id ≡ (says.typed_says collect_plan (members_view members.now.entries) (says.walks_of collect_plan (members_view members.now.entries)) (below_at type_below.now) below.old.parts (id_of place.now) trail.now (Some name.now)).0) }
    ensures said { OnOk result (Adds rows.old rows.new (says.typed_says collect_plan (members_view members.now.entries) (says.walks_of collect_plan (members_view members.now.entries)) (below_at type_below.now) below.old.parts (id_of place.now) trail.now (Some name.now)).1) }
    ensures below { below.new ≡ below.old }
{
    let at = place_of(
        alloc,
        &below.parts,
        &mut below.places,
        &mut below.types,
        name,
    )?;
    take_typed(
        alloc,
        type_below,
        &mut below.types[at],
        place,
        members,
        trail,
        rows,
    )
}

/// Takes what an object of a type says, by the groups of the type, and answers its id.
#[cycle(take)]
fn take_typed<'r>(
    alloc: Global,
    type_below: &BelowAt<'r>,
    of: &mut TypeGroups<'r>,
    place: &Place<'_>,
    members: &'r Map<String, Value>,
    trail: &Trail<'_, 'r>,
    rows: &mut ObjectRows<'r>,
) -> Result<Option<Id>, NoMemory>
    requires { plans_of of.old.below.items ≡ parts_of of.old.groups }
    ensures id { IfOk result (λ id. id ≡ (walk.object_told (members_view members.now.entries) (below_at type_below.now) of.old.name.now of.old.groups (id_of place.now) trail.now).0) }
    ensures said { OnOk result (Adds rows.old rows.new (walk.object_told (members_view members.now.entries) (below_at type_below.now) of.old.name.now of.old.groups (id_of place.now) trail.now).1) }
    ensures below { IsSame of.old of.new }
{
    if is_other_type(type_below, of, members) {
        return no_type(alloc, trail, rows);
    }
    let has_id = type_below.identified.contains(of.name);
    let id = take_id(alloc, has_id, place, member(members, "id"), trail, rows)?;
    let mut fields = Vec::with_capacity(alloc, of.groups.as_slice().len())?;
    take_groups(
        alloc,
        of.groups.as_slice(),
        &mut of.below,
        &id,
        members,
        trail,
        &mut fields,
        rows,
    )?;
    let link = id.as_words().copy()?;
    rows.push(id.into_words()?, Words::new(alloc, of.name)?, fields)?;
    Ok(Some(link))
}

/// The id of an object: that under `id`, where its type has one; else, and with a fault, the one that
/// is made for it.
#[tactic(auto, using(crate::proofs::TakeSteps::taking))]
fn take_id<'r>(
    alloc: Global,
    has_id: bool,
    place: &Place<'_>,
    given: Option<&'r Value>,
    trail: &Trail<'_, 'r>,
    rows: &mut ObjectRows<'r>,
) -> Result<SharedText, NoMemory>
    ensures id { IfOk result (λ id. id ≡ (says.id_under has_id (id_of place.now) (trail.now ++ Key (codes "id") ∷ []) (option_map (λ v. view v.now) given.entry)).0) }
    ensures said { OnOk result (Adds rows.old rows.new (says.id_under has_id (id_of place.now) (trail.now ++ Key (codes "id") ∷ []) (option_map (λ v. view v.now) given.entry)).1) }
{
    if !has_id {
        return made_id(alloc, place);
    }
    match given {
        None => made_id(alloc, place),
        Some(value) => given_id(alloc, place, value, trail, rows),
    }
}

/// The id of an object for which this value is given.
#[tactic(auto, using(crate::proofs::TakeSteps::taking))]
fn given_id<'r>(
    alloc: Global,
    place: &Place<'_>,
    value: &'r Value,
    trail: &Trail<'_, 'r>,
    rows: &mut ObjectRows<'r>,
) -> Result<SharedText, NoMemory>
    ensures id { IfOk result (λ id. id ≡ (says.id_of_value (id_of place.now) (trail.now ++ Key (codes "id") ∷ []) (Some (view value.now))).0) }
    ensures said { OnOk result (Adds rows.old rows.new (says.id_of_value (id_of place.now) (trail.now ++ Key (codes "id") ∷ []) (Some (view value.now))).1) }
{
    match value {
        Value::Null => made_id(alloc, place),
        Value::Bool(_) => no_id(alloc, place, Cause::IdShape, trail, rows),
        Value::Number(_) => no_id(alloc, place, Cause::IdShape, trail, rows),
        Value::String(text) => text_id(alloc, place, text.as_str(), trail, rows),
        Value::Array(_) => no_id(alloc, place, Cause::IdShape, trail, rows),
        Value::Object(_) => no_id(alloc, place, Cause::IdShape, trail, rows),
    }
}

/// The id that a text is: one that is not empty, and not like a generated one.
#[tactic(auto, using(crate::proofs::TakeSteps::taking))]
fn text_id<'r>(
    alloc: Global,
    place: &Place<'_>,
    text: &str,
    trail: &Trail<'_, 'r>,
    rows: &mut ObjectRows<'r>,
) -> Result<SharedText, NoMemory>
    ensures id { IfOk result (λ id. id ≡ (says.id_of_text (id_of place.now) (trail.now ++ Key (codes "id") ∷ []) text.now).0) }
    ensures said { OnOk result (Adds rows.old rows.new (says.id_of_text (id_of place.now) (trail.now ++ Key (codes "id") ∷ []) text.now).1) }
{
    if text.is_empty() {
        return no_id(alloc, place, Cause::IdShape, trail, rows);
    }
    if text.starts_with("client:") {
        return no_id(alloc, place, Cause::ReservedId, trail, rows);
    }
    SharedText::new(alloc, Words::new(alloc, text)?)
}

/// Notes that the object's own `id` has a fault, and answers the id that is made for it.
#[tactic(auto, using(crate::proofs::TakeSteps::taking))]
fn no_id<'r>(
    alloc: Global,
    place: &Place<'_>,
    cause: Cause,
    trail: &Trail<'_, 'r>,
    rows: &mut ObjectRows<'r>,
) -> Result<SharedText, NoMemory>
    ensures id { IfOk result (λ id. id ≡ id_of place.now) }
    ensures said { OnOk result (Adds rows.old rows.new (says.fault_at (trail.now ++ Key (codes "id") ∷ []) cause)) }
{
    let here = (&*trail).with(Step::Key("id"));
    rows.fault(alloc, &here, cause)?;
    made_id(alloc, place)
}
