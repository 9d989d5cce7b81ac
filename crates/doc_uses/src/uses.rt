//! Variables where they are used, each with the type of its place, where that is known (GraphQL,
//! October 2021, section 5.8.5).
ghost use Rattle.std.specs.Prelude.{◌≡◌, ◌+◌, ◌++◌, map, option_copied, option_map, OnOk};
ghost use Rattle.doc_sites.specs.gql_ast.Value.{members_of, vals_of};
ghost use Rattle.doc_sites.specs.gql_ast.ValueView as tree;
ghost use Rattle.doc_sites.specs.schema_types.ArgumentRules as rules;
ghost use Rattle.doc_sites.specs.schema_trees.Located.{members_nodes, value_nodes, values_nodes};
ghost use Rattle.doc_sites.specs.SitesView.{argument_of};
ghost use Rattle.doc_uses.specs.UseView.{fields_of_name, name_of_place, place_of, use_of, uses_at};

use doc_sites::located::{NameAt, name_at, pass};
use doc_sites::type_forms::{base_of, item_of};
use doc_sites::{
    ArgumentAt, Arguments, InputDef, NoMemory, Schema, TypeTree, ValueTree, ValueTrees,
};

/// A place for values: its type, and whether it has a default.
#[derive(Clone, Copy)]
pub struct Place<'p> {
    pub of: &'p TypeTree,
    pub has_default: bool,
}

/// A variable where it is used, and the place, where that has a type. The name lives as long as the
/// document, the type as long as what tells the types.
#[derive(Clone, Copy)]
pub struct Use<'p, 'a> {
    pub name: NameAt<'a>,
    pub place: Option<Place<'p>>,
}

/// The place of an item of a list.
pub fn item_place<'p>(place: Option<Place<'p>>) -> Option<Place<'p>>
    ensures { option_map place_of result ≡ rules.item_place (option_map place_of place.entry) }
{
    let place = place?;
    let of = item_of(place.of)?;
    Some(Place {
        of,
        has_default: false,
    })
}

/// The name of the type of a place.
pub fn name_of_place<'p>(place: Option<Place<'p>>) -> Option<&'p str>
    ensures { option_copied result ≡ name_of_place (option_map place_of place.entry) }
{
    match place {
        Some(place) => Some(base_of(place.of)),
        None => None,
    }
}

/// The place of a field of an object, by the name of the object's type.
pub fn field_place<'p>(schema: &'p Schema, of: Option<&'p str>, name: &str) -> Option<Place<'p>>
    ensures { option_map place_of result ≡ rules.place_among (fields_of_name schema.now (option_copied of.entry)) name.now }
{
    match of {
        Some(of) => place_of_input(schema.input(of, name)),
        None => None,
    }
}

/// The place of an argument or an input field, where it is known.
pub fn place_of_input<'p>(input: Option<InputDef<'p>>) -> Option<Place<'p>>
    ensures { option_map place_of result ≡ rules.place_for input.entry }
{
    match input {
        Some(input) => Some(Place {
            of: input.of(),
            has_default: input.default().is_some(),
        }),
        None => None,
    }
}

/// Puts the variables in a value whose node comes next.
#[cycle(uses)]
fn put_uses<'p, 'a>(
    schema: &'p Schema,
    at: &mut usize,
    uses: &mut Vec<Use<'p, 'a>>,
    value: &'a ValueTree,
    place: Option<Place<'p>>,
) -> Result<(), NoMemory>
    ensures put { OnOk result (map use_of uses.new.items ≡ map use_of uses.old.items ++ rules.uses_in schema.now at.old (tree.value_of value.now) (option_map place_of place.entry)) }
    ensures passed { OnOk result (at.new ≡ at.old + value_nodes (tree.value_of value.now)) }
{
    match value {
        ValueTree::Variable(name) => {
            let name = name_at(at, name)?;
            uses.push(Use { name, place })?;
            Ok(())
        }
        ValueTree::Int(_) => pass(at, 1),
        ValueTree::Text(_) => pass(at, 1),
        ValueTree::Bool(_) => pass(at, 1),
        ValueTree::Null => pass(at, 1),
        ValueTree::Enum(_) => pass(at, 2),
        ValueTree::List(values) => {
            pass(at, 1)?;
            put_item_uses(schema, at, uses, values, item_place(place))
        }
        ValueTree::Object(members) => {
            pass(at, 1)?;
            put_member_uses(schema, at, uses, members, name_of_place(place))
        }
    }
}

/// Puts the variables in the items of a list.
#[cycle(uses)]
fn put_item_uses<'p, 'a>(
    schema: &'p Schema,
    at: &mut usize,
    uses: &mut Vec<Use<'p, 'a>>,
    values: &'a ValueTrees,
    place: Option<Place<'p>>,
) -> Result<(), NoMemory>
    ensures put { OnOk result (map use_of uses.new.items ≡ map use_of uses.old.items ++ rules.uses_in_items schema.now at.old (vals_of values.now) (option_map place_of place.entry)) }
    ensures passed { OnOk result (at.new ≡ at.old + values_nodes (vals_of values.now)) }
{
    'items: for value in values.as_slice() {
        put_uses(schema, at, uses, value, place)?;
    }
    Ok(())
}

/// Puts the variables in the fields of an object, by the name of its type.
#[cycle(uses)]
fn put_member_uses<'p, 'a>(
    schema: &'p Schema,
    at: &mut usize,
    uses: &mut Vec<Use<'p, 'a>>,
    members: &'a Arguments,
    of: Option<&'p str>,
) -> Result<(), NoMemory>
    ensures put { OnOk result (map use_of uses.new.items ≡ map use_of uses.old.items ++ rules.uses_in_members schema.now at.old (members_of members.now) (fields_of_name schema.now (option_copied of.entry))) }
    ensures passed { OnOk result (at.new ≡ at.old + members_nodes (members_of members.now)) }
{
    'members: for member in members.as_slice() {
        pass(at, 2)?;
        let place = field_place(schema, of, member.name.as_str());
        put_uses(schema, at, uses, &member.value, place)?;
    }
    Ok(())
}

/// Puts the variables in the value of an argument, each at its place in the place of the argument
/// (section 5.8.5). Where a place has no type, those inside it have none.
///
/// # Errors
///
/// `NoMemory`; then some of them may be put.
pub fn put_argument<'p, 'a>(
    schema: &'p Schema,
    uses: &mut Vec<Use<'p, 'a>>,
    argument: &ArgumentAt<'a>,
    place: Option<Place<'p>>,
) -> Result<(), NoMemory>
    ensures { OnOk result (map use_of uses.new.items ≡ map use_of uses.old.items ++ uses_at schema.now (argument_of argument.now) (option_map place_of place.entry)) }
{
    let mut at = argument.value.at;
    put_uses(schema, &mut at, uses, argument.value.of, place)
}
