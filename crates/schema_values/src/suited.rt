//! Which values that are given fit a type (GraphQL, October 2021, sections 3.4 to 3.12 and 6.1.2).
ghost use Rattle.std.specs.Prelude.{◌≡◌, ℕ, List, Some};
ghost use Rattle.std.specs.Map.{keys_of};
ghost use Rattle.schema_types.specs.gql_ast.TypeView.{ty_of};
ghost use Rattle.schema_types.specs.gql_ast.declared.member.InputTree.{InputTree};
ghost use Rattle.schema_types.specs.gql_plain.Order.{sorted_texts};
ghost use Rattle.schema_types.specs.gql_plain.Shown.{tree_of};
ghost use Rattle.schema_types.specs.gql_plain.Tree.{trees_of, members_of};
ghost use Rattle.schema_types.specs.Environments as environments;
ghost use Rattle.schema_types.specs.schema_tables.Fits.{fields, meaning_of};
ghost use Rattle.schema_types.specs.schema_tables.Required.{count_among, required_names};
ghost use Rattle.schema_types.specs.schema_tables.Types as types;
ghost use Rattle.schema_values.specs.Means.{Means, gives_each};

use schema_types::type_forms::{base_of, is_built_in_scalar, is_non_null, item_of};
use schema_types::{Ids, InputDefs, Pairs, Plain, Plains, Schema, TypeTree, Words};

/// What a named type takes.
#[derive(Drop)]
pub(crate) enum Meaning<'a> {
    BuiltIn,
    /// One of the names of an enum.
    OneOf(&'a Ids),
    /// An object with these fields.
    Fields(InputDefs<'a>),
    Anything,
}

/// What a named type takes.
fn find_meaning<'a>(schema: &'a Schema, name: &str) -> Meaning<'a>
    ensures { Means schema.now name.now result }
{
    if is_built_in_scalar(name) {
        return Meaning::BuiltIn;
    }
    match schema.enum_names(name) {
        Some(names) => Meaning::OneOf(names),
        None => match schema.inputs(name) {
            Some(inputs) => Meaning::Fields(inputs),
            None => Meaning::Anything,
        },
    }
}

/// Whether the value fits the type; takes no memory.
#[cycle(fits)]
pub fn fits(schema: &Schema, value: &Plain, of: &TypeTree) -> bool
    ensures { result ≡ environments.fits schema.now (tree_of value.now) (ty_of of.now) }
{
    match value {
        Plain::Null => !is_non_null(of),
        Plain::List(items) => match item_of(of) {
            Some(item) => items_fit(schema, items, item),
            None => matches!(find_meaning(schema, base_of(of)), Meaning::Anything),
        },
        Plain::Tree(pairs) => match find_meaning(schema, base_of(of)) {
            Meaning::Fields(inputs) => {
                gives_each_required(&inputs, pairs) && members_fit(schema, pairs, base_of(of))
            }
            Meaning::Anything => true,
            Meaning::BuiltIn => false,
            Meaning::OneOf(_) => false,
        },
        Plain::Bool(_) => single_fits(schema, value, base_of(of)),
        Plain::Int(_) => single_fits(schema, value, base_of(of)),
        Plain::Text(_) => single_fits(schema, value, base_of(of)),
    }
}

/// Whether each value fits as an item of that type.
#[cycle(fits)]
fn items_fit(schema: &Schema, items: &Plains, of: &TypeTree) -> bool
    ensures { result ≡ environments.items_fit schema.now (trees_of items.now) (Some (ty_of of.now)) }
{
    'items: for item in &items.items {
        if !may_be_item(item, of) {
            return false;
        }
        if !fits(schema, item, of) {
            return false;
        }
    }
    true
}

/// Whether each key is a field of the input object of that name, and its value fits.
#[cycle(fits)]
fn members_fit(schema: &Schema, pairs: &Pairs, of: &str) -> bool
    ensures { (is : List InputTree) → types.inputs_of schema.now of.now ≡ Some is
        → result ≡ environments.members_fit schema.now (members_of pairs.now) (fields is) }
{
    'members: for (name, value) in &pairs.entries {
        let Some(input) = schema.input(of, name.as_str()) else {
            return false;
        };
        if !fits(schema, value, input.of()) {
            return false;
        }
    }
    true
}

/// Whether a value that is no list, no object and not null fits the named type.
fn single_fits(schema: &Schema, value: &Plain, name: &str) -> bool
    ensures { result ≡ environments.suits_meaning (tree_of value.now) (meaning_of schema.now name.now) }
{
    match find_meaning(schema, name) {
        Meaning::BuiltIn => suits_built_in(value, name),
        Meaning::OneOf(names) => is_among(value, names),
        Meaning::Fields(_) => false,
        Meaning::Anything => true,
    }
}

/// Whether a value may be an item of that type: where the items are lists, only a list or null may
/// be one.
fn may_be_item(value: &Plain, of: &TypeTree) -> bool
    ensures { result ≡ environments.may_be_item (tree_of value.now) (ty_of of.now) }
{
    match value {
        Plain::Null => true,
        Plain::List(_) => true,
        Plain::Tree(_) => item_of(of).is_none(),
        Plain::Bool(_) => item_of(of).is_none(),
        Plain::Int(_) => item_of(of).is_none(),
        Plain::Text(_) => item_of(of).is_none(),
    }
}

/// Whether a value fits a scalar that every schema has (section 3.5).
fn suits_built_in(value: &Plain, name: &str) -> bool
    ensures { result ≡ environments.suits_built_in (tree_of value.now) name.now }
{
    if name == "Int" {
        return is_small_whole(value);
    }
    if name == "Float" {
        return matches!(value, Plain::Int(_));
    }
    if name == "String" {
        return matches!(value, Plain::Text(_));
    }
    if name == "Boolean" {
        return matches!(value, Plain::Bool(_));
    }
    matches!(value, Plain::Text(_) | Plain::Int(_))
}

/// Whether a value is a whole number of 32 bits.
fn is_small_whole(value: &Plain) -> bool
    ensures { result ≡ environments.is_small_whole (tree_of value.now) }
{
    match value {
        Plain::Int(number) => -2_147_483_648 <= *number && *number <= 2_147_483_647,
        _ => false,
    }
}

/// Whether a value is one of the names of an enum.
fn is_among(value: &Plain, names: &Ids) -> bool
    ensures { (ns : List (List ℕ)) → names.now ≡ sorted_texts ns → result ≡ environments.suits_enum (tree_of value.now) ns }
{
    match value {
        Plain::Text(text) => names.contains(text.as_str()),
        _ => false,
    }
}

/// Whether each input that has to be given is among the keys, which differ.
fn gives_each_required(inputs: &InputDefs<'_>, pairs: &Pairs) -> bool
    ensures { result ≡ gives_each inputs.now (members_of pairs.now) }
{
    count_required(inputs, &pairs.entries) == inputs.required_count()
}

/// How many pairs have the names of inputs that have to be given as their keys.
fn count_required(inputs: &InputDefs<'_>, pairs: &[(Words, Plain)]) -> usize
    ensures { result ≡ count_among (required_names inputs.now) (keys_of pairs.now) }
{
    let mut count = 0;
    'pairs: for (key, _) in pairs {
        if inputs.needs(key.as_str()) {
            count += 1;
        }
    }
    count
}
