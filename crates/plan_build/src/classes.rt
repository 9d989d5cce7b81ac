//! The object types that a field may stand on, in classes: on those of one class it leads to the
//! same.
ghost use Rattle.std.specs.Prelude.{◌≡◌, [], false, true, map, codes, bytes_eq, option_map, IfOk, OnOk};
ghost use Rattle.plan_ir.specs.gql_ast.TypeView.{ty_of};
ghost use Rattle.plan_ir.specs.Additions as additions;
ghost use Rattle.plan_ir.specs.schema_tables.Fits as fits;
ghost use Rattle.plan_ir.specs.schema_tables.Places.{first_at};
ghost use Rattle.plan_ir.specs.schema_tables.Types as types;
ghost use Rattle.plan_build.specs.Classes as spec;
ghost use Rattle.plan_build.specs.ClassView.{class_view, group_view, target_view};

use plan_ir::type_forms::{base_of, item_of};
use plan_ir::{Ids, Name, NoMemory, Schema, TypeKind, TypeTree};
use std::alloc::Global;

/// What a field leads to.
#[derive(Clone, Copy)]
pub struct Target<'a> {
    /// The named type of the field.
    pub base: &'a str,
    /// Whether the field is a list.
    pub many: bool,
}

/// A class to which types are still put.
#[derive(Drop)]
pub(crate) struct Group<'a> {
    pub(crate) target: Target<'a>,
    pub(crate) types: Vec<Name>,
}

/// The object types on which a field leads to one target.
#[derive(Drop)]
pub struct Class<'a> {
    pub target: Target<'a>,
    pub types: Ids,
}

/// Whether the type is an interface or a union.
pub fn is_abstract(schema: &Schema, of: &str) -> bool
    ensures { result ≡ additions.is_abstract schema.now of.now }
{
    matches!(
        schema.kind_of(of),
        Some(TypeKind::Interface | TypeKind::Union)
    )
}

/// Whether it is a list type, or the non-null form of one.
fn is_list(of: &TypeTree) -> bool
    ensures { result ≡ fits.is_list_type (ty_of of.now) }
{
    item_of(of).is_some()
}

/// What a field of an object type leads to; a field that is not there leads to a leaf.
fn target_on<'a>(schema: &'a Schema, object: &str, name: &str) -> Target<'a>
    requires { bytes_eq name.now (codes "__typename") ≡ false }
    ensures { target_view result ≡ spec.target_on schema.now object.now name.now }
{
    match schema.field(object, name) {
        Some(field) => Target {
            base: base_of(field.of()),
            many: is_list(field.of()),
        },
        None => Target {
            base: "",
            many: false,
        },
    }
}

/// Whether the values of two types are of the same object types, and both are abstract or neither
/// is.
fn same_base(schema: &Schema, base: &str, other: &str) -> bool
    requires base { types.is_composite schema.now base.now ≡ true }
    requires other { types.is_composite schema.now other.now ≡ true }
    ensures { result ≡ spec.same_base schema.now base.now other.now }
{
    if base == other {
        return true;
    }
    if is_abstract(schema, base) != is_abstract(schema, other) {
        return false;
    }
    schema.possible(base) == schema.possible(other)
}

/// Whether both lead to leaves, or both to the same objects.
fn same_target(schema: &Schema, target: &Target<'_>, other: &Target<'_>) -> bool
    ensures { result ≡ spec.same_target schema.now (target_view target.now) (target_view other.now) }
{
    if !schema.is_composite(target.base) {
        return !schema.is_composite(other.base);
    }
    if !schema.is_composite(other.base) {
        return false;
    }
    if target.many != other.many {
        return false;
    }
    same_base(schema, target.base, other.base)
}

/// Whether a field leads to this target on each of these types.
fn all_lead_to(schema: &Schema, types: &[Name], name: &str, target: &Target<'_>) -> bool
    requires { bytes_eq name.now (codes "__typename") ≡ false }
    ensures { result ≡ spec.all_lead_to schema.now name.now (target_view target.now) types.now }
{
    'types: for object in types {
        let other = target_on(schema, object.as_str(), name);
        if !same_target(schema, target, &other) {
            return false;
        }
    }
    true
}

/// What a field leads to, where that is the same on all these types; takes no memory.
pub fn one_target<'a>(schema: &'a Schema, types: &Ids, name: &str) -> Option<Target<'a>>
    requires { bytes_eq name.now (codes "__typename") ≡ false }
    ensures { option_map target_view result ≡ spec.one_target schema.now name.now types.now }
{
    match types.as_slice() {
        [object, more @ ..] => {
            let target = target_on(schema, object.as_str(), name);
            if all_lead_to(schema, more, name, &target) {
                return Some(target);
            }
            None
        }
        [] => None,
    }
}

/// The place of the group of a target.
fn find_group(schema: &Schema, groups: &[Group<'_>], target: &Target<'_>) -> Option<usize>
    ensures { result ≡ first_at (λ g. spec.same_target schema.now (target_view g.target) (target_view target.now)) groups.now }
{
    'groups: for (at, group) in groups.iter().enumerate() {
        if same_target(schema, &group.target, target) {
            return Some(at);
        }
    }
    None
}

/// Puts an object type to a group.
fn put_object(group: &mut Group<'_>, object: Name) -> Result<(), NoMemory>
    ensures { OnOk result (group_view group.new ≡ spec.with_object (group_view group.old) object) }
{
    group.types.push(object)?;
    Ok(())
}

/// Puts an object type to the group of what a field leads to there.
fn put_type<'a>(
    alloc: Global,
    schema: &'a Schema,
    groups: &mut Vec<Group<'a>>,
    object: &Name,
    name: &str,
) -> Result<(), NoMemory>
    requires { bytes_eq name.now (codes "__typename") ≡ false }
    ensures { OnOk result (map group_view groups.new.items
        ≡ spec.with_type schema.now (map group_view groups.old.items) (spec.target_on schema.now object.now name.now) object.now) }
{
    let target = target_on(schema, object.as_str(), name);
    let own = object.copy()?;
    match find_group(schema, groups, &target) {
        Some(at) => {
            put_object(&mut groups[at], own)?;
            Ok(())
        }
        None => {
            let mut types = Vec::new(alloc);
            types.push(own)?;
            groups.push(Group { target, types })?;
            Ok(())
        }
    }
}

/// The groups of object types, in order of first type.
fn groups_of<'a>(
    alloc: Global,
    schema: &'a Schema,
    types: &Ids,
    name: &str,
) -> Result<Vec<Group<'a>>, NoMemory>
    requires { bytes_eq name.now (codes "__typename") ≡ false }
    ensures { IfOk result (λ groups. map group_view groups.items ≡ spec.with_types schema.now name.now [] types.now) }
{
    let mut groups = Vec::new(alloc);
    'types: for object in types.as_slice() {
        put_type(alloc, schema, &mut groups, object, name)?;
    }
    Ok(groups)
}

/// The class that a group is.
fn class_of<'a>(group: Group<'a>) -> Result<Class<'a>, NoMemory>
    ensures { IfOk result (λ class. class_view class ≡ spec.sorted_class (group_view group.entry)) }
{
    let target = group.target;
    let types = Ids::sort(group.types)?;
    Ok(Class { target, types })
}

/// The classes of a field on these object types, in order of first type.
pub fn classes_of<'a>(
    alloc: Global,
    schema: &'a Schema,
    types: &Ids,
    name: &str,
) -> Result<Vec<Class<'a>>, NoMemory>
    requires { bytes_eq name.now (codes "__typename") ≡ false }
    ensures { IfOk result (λ classes. map class_view classes.items ≡ spec.classes_of schema.now name.now types.now) }
{
    let groups = groups_of(alloc, schema, types, name)?;
    let mut classes = Vec::with_capacity(alloc, groups.len())?;
    'groups: for group in groups {
        classes.push(class_of(group)?)?;
    }
    Ok(classes)
}
