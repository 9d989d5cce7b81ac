//! The object types that each type may be.
ghost use Rattle.std.specs.Prelude.{◌≡◌, ℕ, List, ◌<◌, ◌&&◌, ◌||◌, ◌++◌, [], ◌∷◌, length, slice_index_or, nat_eq, Some, is_some, IfOk, OnOk, bytes_eq};
ghost use Rattle.std.specs.List.{filter, list_any};
ghost use Rattle.gql_graph.specs.gql_plain.Order.{has_text, sorted_texts};
ghost use Rattle.schema_tables.specs.Objects.{adds, reaches, is_among, is_place, names_object};
ghost use Rattle.schema_tables.specs.Parts.{is_type};
ghost use Rattle.schema_tables.specs.Indexes.{IsIndexOf, definition_name};
ghost use Rattle.schema_tables.specs.Places.{first_at};
ghost use Rattle.schema_tables.specs.Types as says;

use crate::index::Index;
use crate::part::interfaces_of;
use crate::places::{find_type, is_object_type, places_of_objects};
use gql_ast::gql_plain::{Ids, Name, NoMemory};
use gql_ast::{Names, SchemaDef};
use std::alloc::Global;

/// The object types that the type of each definition may be, where it is the first of its name.
pub(crate) fn possible_of(
    alloc: Global,
    definitions: &[SchemaDef],
    types: &Index,
) -> Result<Vec<Ids>, NoMemory>
    requires { IsIndexOf definition_name is_type definitions.now types.now.places.items }
    ensures all { IfOk result (λ possible. length possible.items ≡ length definitions.now) }
    ensures found { IfOk result (λ possible. (n : List ℕ) (at : ℕ) → first_at (is_type n) definitions.now ≡ Some at
        → slice_index_or possible.items at [] ≡ says.possible definitions.now n) }
{
    let objects = places_of_objects(alloc, definitions)?;
    let groups = object_groups(alloc, definitions, types)?;
    let mut possible = Vec::with_capacity(alloc, definitions.len())?;
    'definitions: for (at, definition) in definitions.iter().enumerate() {
        possible.push(with_members(alloc, &groups[at], definition, definitions, &objects)?)?;
    }
    Ok(possible)
}

/// The names in a group and the object types that the definition holds as a union, distinct and in
/// byte order.
fn with_members(
    alloc: Global,
    group: &Names,
    definition: &SchemaDef,
    definitions: &[SchemaDef],
    objects: &Index,
) -> Result<Ids, NoMemory>
    requires { IsIndexOf definition_name names_object definitions.now objects.now.places.items }
    ensures { IfOk result (λ ids. ids ≡ sorted_texts (group.now
        ++ filter (λ n. is_some (first_at (names_object n) definitions.now)) (says.union_members_of definition.now))) }
{
    match definition {
        SchemaDef::Union { members, .. } => with_objects(
            alloc,
            group,
            members.as_slice(),
            definitions,
            objects,
        ),
        _ => with_objects(alloc, group, &[], definitions, objects),
    }
}

/// The names in a group and those of these that are object types, distinct and in byte order.
fn with_objects(
    alloc: Global,
    group: &Names,
    members: &[Name],
    definitions: &[SchemaDef],
    objects: &Index,
) -> Result<Ids, NoMemory>
    requires { IsIndexOf definition_name names_object definitions.now objects.now.places.items }
    ensures { IfOk result (λ ids. ids ≡ sorted_texts (group.now
        ++ filter (λ n. is_some (first_at (names_object n) definitions.now)) members.now)) }
{
    let mut names = group.copy()?;
    'members: for member in members {
        push_object(&mut names, member, definitions, objects)?;
    }
    if names.is_empty() {
        return Ok(Ids::new(alloc));
    }
    Ids::sort(names.items)
}

/// Puts a name at the end, if it is an object type.
fn push_object(
    group: &mut Names,
    member: &Name,
    definitions: &[SchemaDef],
    objects: &Index,
) -> Result<(), NoMemory>
    requires { IsIndexOf definition_name names_object definitions.now objects.now.places.items }
    ensures { OnOk result (group.new
        ≡ group.old ++ filter (λ n. is_some (first_at (names_object n) definitions.now)) (member.now ∷ [])) }
{
    if is_object_type(definitions, objects, member.as_str()) {
        group.push(member.copy()?)
    } else {
        Ok(())
    }
}

/// For each definition the object types that are its type, or say that they implement it.
fn object_groups(
    alloc: Global,
    definitions: &[SchemaDef],
    types: &Index,
) -> Result<Vec<Names>, NoMemory>
    requires { IsIndexOf definition_name is_type definitions.now types.now.places.items }
    ensures all { IfOk result (λ groups. length groups.items ≡ length definitions.now) }
    ensures groups { IfOk result (λ groups. (k : ℕ) (n : List ℕ) → has_text (slice_index_or groups.items k []) n
        ≡ list_any (adds definitions.now k n) definitions.now) }
{
    let mut groups = empty_groups(alloc, definitions.len())?;
    'definitions: for definition in definitions {
        put_definition(&mut groups, definitions, types, definition)?;
    }
    Ok(groups)
}

/// So many groups without a name.
fn empty_groups(alloc: Global, count: usize) -> Result<Vec<Names>, NoMemory>
    ensures all { IfOk result (λ groups. length groups.items ≡ count) }
    ensures empty { IfOk result (λ groups. (k : ℕ) → slice_index_or groups.items k [] ≡ []) }
{
    let mut groups = Vec::new(alloc);
    'groups: for _ in 0..count {
        groups.push(Names::new(alloc))?;
    }
    Ok(groups)
}

/// Puts the object type that a definition defines, where it defines one, into the groups of the
/// types that it is or implements.
fn put_definition(
    groups: &mut Vec<Names>,
    definitions: &[SchemaDef],
    types: &Index,
    definition: &SchemaDef,
) -> Result<(), NoMemory>
    requires places { IsIndexOf definition_name is_type definitions.now types.now.places.items }
    requires all { length groups.old.items ≡ length definitions.now }
    ensures all { length groups.new.items ≡ length definitions.now }
    ensures put { OnOk result ((k : ℕ) (n : List ℕ) → has_text (slice_index_or groups.new.items k []) n
        ≡ (has_text (slice_index_or groups.old.items k []) n || adds definitions.now k n definition.now)) }
{
    match definition {
        SchemaDef::Object { name, .. } => put_name(groups, definitions, types, name),
        _ => Ok(()),
    }
}

/// Puts an object type into the groups of the types that it is or implements.
fn put_name(
    groups: &mut Vec<Names>,
    definitions: &[SchemaDef],
    types: &Index,
    name: &Name,
) -> Result<(), NoMemory>
    requires places { IsIndexOf definition_name is_type definitions.now types.now.places.items }
    requires all { length groups.old.items ≡ length definitions.now }
    ensures all { length groups.new.items ≡ length definitions.now }
    ensures put { OnOk result ((k : ℕ) (n : List ℕ) → has_text (slice_index_or groups.new.items k []) n
        ≡ (has_text (slice_index_or groups.old.items k []) n || (reaches definitions.now name.now k && bytes_eq name.now n))) }
{
    let Some(at) = find_type(definitions, types, name.as_str()) else {
        return Ok(());
    };
    put_at(groups, at, name)?;
    put_interfaces(groups, definitions, types, at, name)
}

/// Puts an object type into the groups of the types that it says it implements.
fn put_interfaces(
    groups: &mut Vec<Names>,
    definitions: &[SchemaDef],
    types: &Index,
    at: usize,
    name: &Name,
) -> Result<(), NoMemory>
    requires places { IsIndexOf definition_name is_type definitions.now types.now.places.items }
    requires all { length groups.old.items ≡ length definitions.now }
    requires within { at < length definitions.now }
    requires first { first_at (is_type name.now) definitions.now ≡ Some at }
    ensures all { length groups.new.items ≡ length definitions.now }
    ensures put { OnOk result ((k : ℕ) (n : List ℕ) → has_text (slice_index_or groups.new.items k []) n
        ≡ (has_text (slice_index_or groups.old.items k []) n
        || (is_among definitions.now (says.interfaces_named (says.type_named definitions.now name.now)) k && bytes_eq name.now n))) }
{
    let interfaces = interfaces_of(&definitions[at]);
    put_at_each(groups, definitions, types, interfaces, name)
}

/// Puts a name into the groups of types.
fn put_at_each(
    groups: &mut Vec<Names>,
    definitions: &[SchemaDef],
    types: &Index,
    interfaces: &[Name],
    name: &Name,
) -> Result<(), NoMemory>
    requires places { IsIndexOf definition_name is_type definitions.now types.now.places.items }
    requires all { length groups.old.items ≡ length definitions.now }
    ensures all { length groups.new.items ≡ length definitions.now }
    ensures put { OnOk result ((k : ℕ) (n : List ℕ) → has_text (slice_index_or groups.new.items k []) n
        ≡ (has_text (slice_index_or groups.old.items k []) n || (is_among definitions.now interfaces.now k && bytes_eq name.now n))) }
{
    'interfaces: for interface in interfaces {
        put_at_type(groups, definitions, types, interface, name)?;
    }
    Ok(())
}

/// Puts a name into the group of a type, where it is defined.
fn put_at_type(
    groups: &mut Vec<Names>,
    definitions: &[SchemaDef],
    types: &Index,
    of: &Name,
    name: &Name,
) -> Result<(), NoMemory>
    requires places { IsIndexOf definition_name is_type definitions.now types.now.places.items }
    requires all { length groups.old.items ≡ length definitions.now }
    ensures all { length groups.new.items ≡ length definitions.now }
    ensures put { OnOk result ((k : ℕ) (n : List ℕ) → has_text (slice_index_or groups.new.items k []) n
        ≡ (has_text (slice_index_or groups.old.items k []) n || (is_place (first_at (is_type of.now) definitions.now) k && bytes_eq name.now n))) }
{
    match find_type(definitions, types, of.as_str()) {
        Some(at) => put_at(groups, at, name),
        None => Ok(()),
    }
}

/// Puts a name into the group at a place.
fn put_at(groups: &mut Vec<Names>, at: usize, name: &Name) -> Result<(), NoMemory>
    requires { at < length groups.old.items }
    ensures all { length groups.new.items ≡ length groups.old.items }
    ensures put { OnOk result ((k : ℕ) (n : List ℕ) → has_text (slice_index_or groups.new.items k []) n
        ≡ (has_text (slice_index_or groups.old.items k []) n || (nat_eq at k && bytes_eq name.now n))) }
{
    let name = name.copy()?;
    groups[at].push(name)
}
