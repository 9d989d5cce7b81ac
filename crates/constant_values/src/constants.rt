//! Values in which no variable stands (GraphQL, October 2021, sections 2.9 and 2.10).
ghost use Rattle.std.specs.Prelude.{◌≡◌, [], IfOk};
ghost use Rattle.schema_types.specs.gql_ast.Value.{members_of, vals_of};
ghost use Rattle.schema_types.specs.gql_ast.ValueView.{value_of};
ghost use Rattle.schema_types.specs.Environments.{arguments_in_environment};
ghost use Rattle.constant_values.specs.Fittings.{is_constant, are_constant, have_constants};

use crate::evaluated::object_under;
use schema_types::{Arguments, NoMemory, Pairs, ValueTree, ValueTrees};
use std::alloc::Global;

/// What arguments are where no variable has a value, in byte order of their names; of several of one
/// name the last counts.
pub fn evaluate_constants(alloc: Global, arguments: &Arguments) -> Result<Pairs, NoMemory>
    ensures { IfOk result (λ values. values ≡ arguments_in_environment [] arguments.now) }
{
    object_under(alloc, arguments, &Pairs::new(alloc))
}

/// Whether no variable stands in a value.
#[cycle(constants)]
pub fn is_constant(value: &ValueTree) -> bool
    ensures { result ≡ is_constant (value_of value.now) }
{
    match value {
        ValueTree::Variable(_) => false,
        ValueTree::Int(_) => true,
        ValueTree::Text(_) => true,
        ValueTree::Bool(_) => true,
        ValueTree::Null => true,
        ValueTree::Enum(_) => true,
        ValueTree::List(values) => are_constant(values),
        ValueTree::Object(members) => have_constants(members),
    }
}

/// Whether no variable stands in values.
#[cycle(constants)]
fn are_constant(values: &ValueTrees) -> bool
    ensures { result ≡ are_constant (vals_of values.now) }
{
    'items: for value in values.as_slice() {
        if !is_constant(value) {
            return false;
        }
    }
    true
}

/// Whether no variable stands in the values of members.
#[cycle(constants)]
pub fn have_constants(members: &Arguments) -> bool
    ensures { result ≡ have_constants (members_of members.now) }
{
    'members: for member in members.as_slice() {
        if !is_constant(&member.value) {
            return false;
        }
    }
    true
}
