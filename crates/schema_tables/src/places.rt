//! The places of names, from trees.
ghost use Rattle.std.specs.Prelude.{◌≡◌, ℕ, List, IfOk, OnOk, is_some, map};
ghost use Rattle.schema_tables.specs.Indexes.{IsIndexOf, definition_name, pair_of, place_among};
ghost use Rattle.schema_tables.specs.InputPlaces.{ArePlaced, is_needed, input_name};
ghost use Rattle.schema_tables.specs.Objects.{names_object};
ghost use Rattle.schema_tables.specs.Parts.{is_type, is_directive};
ghost use Rattle.schema_tables.specs.Places.{first_at, first_place};

use crate::definitions::is_required;
use crate::index::{Index, NamePlace, find_place, put};
use crate::tables::type_name;
use gql_ast::gql_plain::NoMemory;
use gql_ast::{InputTree, SchemaDef};
use std::alloc::Global;

/// The places of the names of inputs, and of those that have to be given.
#[derive(Debug, Drop)]
pub(crate) struct InputPlaces {
    pub(crate) names: Index,
    pub(crate) required: Index,
}

/// The places of inputs.
pub(crate) fn places_of_inputs(alloc: Global, inputs: &[InputTree]) -> Result<InputPlaces, NoMemory>
    ensures { IfOk result (λ p. ArePlaced inputs.now p.names.places.items p.required.places.items) }
{
    let names = Index::new(alloc, inputs)?;
    let required = places_of_required(alloc, inputs)?;
    Ok(InputPlaces { names, required })
}

/// The places of the names of inputs that have to be given.
fn places_of_required(alloc: Global, inputs: &[InputTree]) -> Result<Index, NoMemory>
    ensures { IfOk result (λ index. IsIndexOf input_name is_needed inputs.now index.places.items) }
{
    let mut pairs = Vec::new(alloc);
    'inputs: for (at, input) in inputs.iter().enumerate() {
        put_required(&mut pairs, input, at)?;
    }
    Index::sort(alloc, pairs)
}

/// Puts the place of an input that has to be given.
fn put_required<'a>(
    pairs: &mut Vec<NamePlace<'a>>,
    input: &'a InputTree,
    at: usize,
) -> Result<(), NoMemory>
    ensures { OnOk result ((n : List ℕ) → place_among (map pair_of pairs.new.items) n
        ≡ first_place (place_among (map pair_of pairs.old.items) n) (is_needed n input.now) at) }
{
    if !is_required(input) {
        return Ok(());
    }
    put(pairs, input.name.as_str(), at)
}

/// The places of the types.
pub(crate) fn places_of_types(alloc: Global, definitions: &[SchemaDef]) -> Result<Index, NoMemory>
    ensures { IfOk result (λ index. IsIndexOf definition_name is_type definitions.now index.places.items) }
{
    let mut pairs = Vec::with_capacity(alloc, definitions.len())?;
    'definitions: for (at, definition) in definitions.iter().enumerate() {
        put_type(&mut pairs, definition, at)?;
    }
    Index::sort(alloc, pairs)
}

/// Puts the place of the type that a definition defines, where it defines one.
fn put_type<'a>(
    pairs: &mut Vec<NamePlace<'a>>,
    definition: &'a SchemaDef,
    at: usize,
) -> Result<(), NoMemory>
    ensures { OnOk result ((n : List ℕ) → place_among (map pair_of pairs.new.items) n
        ≡ first_place (place_among (map pair_of pairs.old.items) n) (is_type n definition.now) at) }
{
    match type_name(definition) {
        Some(name) => put(pairs, name.as_str(), at),
        None => Ok(()),
    }
}

/// The place of a type; takes no memory.
pub(crate) fn find_type(definitions: &[SchemaDef], types: &Index, name: &str) -> Option<usize>
    requires { IsIndexOf definition_name is_type definitions.now types.now.places.items }
    ensures { result ≡ first_at (is_type name.now) definitions.now }
{
    find_place(definitions, &types.places, name)
}

/// The places of the directives.
pub(crate) fn places_of_directives(
    alloc: Global,
    definitions: &[SchemaDef],
) -> Result<Index, NoMemory>
    ensures { IfOk result (λ index. IsIndexOf definition_name is_directive definitions.now index.places.items) }
{
    let mut pairs = Vec::new(alloc);
    'definitions: for (at, definition) in definitions.iter().enumerate() {
        put_directive(&mut pairs, definition, at)?;
    }
    Index::sort(alloc, pairs)
}

/// The place of a directive; takes no memory.
pub(crate) fn find_directive(
    definitions: &[SchemaDef],
    directives: &Index,
    name: &str,
) -> Option<usize>
    requires { IsIndexOf definition_name is_directive definitions.now directives.now.places.items }
    ensures { result ≡ first_at (is_directive name.now) definitions.now }
{
    find_place(definitions, &directives.places, name)
}

/// Puts the place of the directive that a definition defines, where it defines one.
fn put_directive<'a>(
    pairs: &mut Vec<NamePlace<'a>>,
    definition: &'a SchemaDef,
    at: usize,
) -> Result<(), NoMemory>
    ensures { OnOk result ((n : List ℕ) → place_among (map pair_of pairs.new.items) n
        ≡ first_place (place_among (map pair_of pairs.old.items) n) (is_directive n definition.now) at) }
{
    match definition {
        SchemaDef::Directive { name, .. } => put(pairs, name.as_str(), at),
        _ => Ok(()),
    }
}

/// The places of the object types.
pub(crate) fn places_of_objects(alloc: Global, definitions: &[SchemaDef]) -> Result<Index, NoMemory>
    ensures { IfOk result (λ index. IsIndexOf definition_name names_object definitions.now index.places.items) }
{
    let mut pairs = Vec::with_capacity(alloc, definitions.len())?;
    'definitions: for (at, definition) in definitions.iter().enumerate() {
        put_object(&mut pairs, definition, at)?;
    }
    Index::sort(alloc, pairs)
}

/// Whether an object type of a name is defined; takes no memory.
pub(crate) fn is_object_type(definitions: &[SchemaDef], objects: &Index, name: &str) -> bool
    requires { IsIndexOf definition_name names_object definitions.now objects.now.places.items }
    ensures { result ≡ is_some (first_at (names_object name.now) definitions.now) }
{
    find_place(definitions, &objects.places, name).is_some()
}

/// Puts the place of the object type that a definition defines, where it defines one.
fn put_object<'a>(
    pairs: &mut Vec<NamePlace<'a>>,
    definition: &'a SchemaDef,
    at: usize,
) -> Result<(), NoMemory>
    ensures { OnOk result ((n : List ℕ) → place_among (map pair_of pairs.new.items) n
        ≡ first_place (place_among (map pair_of pairs.old.items) n) (names_object n definition.now) at) }
{
    match definition {
        SchemaDef::Object { name, .. } => put(pairs, name.as_str(), at),
        _ => Ok(()),
    }
}
