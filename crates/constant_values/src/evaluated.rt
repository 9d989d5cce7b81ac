//! What a value of the language is under the values of variables (GraphQL, October 2021, section
//! 6.4.1).
ghost use Rattle.std.specs.Prelude.{◌≡◌, map, IfOk};
ghost use Rattle.schema_types.specs.gql_ast.Value.{members_of};
ghost use Rattle.schema_types.specs.gql_ast.ValueView.{value_of};
ghost use Rattle.schema_types.specs.gql_plain.Shown.{tree_of, shown_members};
ghost use Rattle.schema_types.specs.Environments as environments;

use crate::env::Env;
use crate::pairs::last_of_each;
use schema_types::{Arguments, NoMemory, Pairs, Plain, Plains, ValueTree, ValueTrees, Words};
use std::alloc::Global;

/// What a value is in an environment: a variable without a value is null, and the name of an enum's
/// value is its text. Of several fields of one name in an object the last counts.
pub fn evaluate(alloc: Global, value: &ValueTree, env: &Env) -> Result<Plain, NoMemory>
    ensures { IfOk result (λ plain. tree_of plain ≡ environments.evaluation env.now.values (value_of value.now)) }
{
    evaluate_under(alloc, value, &env.values)
}

/// What arguments are in an environment, in byte order of their names; of several of one name the
/// last counts.
pub fn evaluate_arguments(
    alloc: Global,
    arguments: &Arguments,
    env: &Env,
) -> Result<Pairs, NoMemory>
    ensures { IfOk result (λ values. values ≡ environments.arguments_in_environment env.now.values arguments.now) }
{
    object_under(alloc, arguments, &env.values)
}

/// What a value is under values of variables, as [`evaluate`] says it.
///
/// # Errors
///
/// `NoMemory`.
#[cycle(evaluate)]
#[tactic(auto, using(crate::proofs::Evaluating::levels))]
pub fn evaluate_under(alloc: Global, value: &ValueTree, values: &Pairs) -> Result<Plain, NoMemory>
    ensures { IfOk result (λ plain. tree_of plain ≡ environments.evaluation values.now (value_of value.now)) }
{
    match value {
        ValueTree::Variable(name) => value_in(values, name.as_str()),
        ValueTree::Int(number) => Ok(Plain::Int(*number)),
        ValueTree::Text(text) => Ok(Plain::Text(text.copy()?)),
        ValueTree::Bool(truth) => Ok(Plain::Bool(*truth)),
        ValueTree::Null => Ok(Plain::Null),
        ValueTree::Enum(name) => Ok(Plain::Text(name.copy()?)),
        ValueTree::List(items) => Ok(Plain::List(items_under(alloc, items, values)?)),
        ValueTree::Object(fields) => Ok(Plain::Tree(object_under(alloc, fields, values)?)),
    }
}

/// What the values of a list are.
#[cycle(evaluate)]
fn items_under(alloc: Global, items: &ValueTrees, values: &Pairs) -> Result<Plains, NoMemory>
    ensures { IfOk result (λ plains. plains ≡ map (environments.evaluation values.now) items.now) }
{
    let mut plains = Plains::new(alloc);
    'items: for item in &items.items {
        plains.push(evaluate_under(alloc, item, values)?)?;
    }
    Ok(plains)
}

/// What the fields of an object are, of each name the last one.
#[cycle(evaluate)]
#[tactic(auto, using(crate::proofs::Evaluating::levels))]
pub(crate) fn object_under(
    alloc: Global,
    fields: &Arguments,
    values: &Pairs,
) -> Result<Pairs, NoMemory>
    ensures { IfOk result (λ pairs. pairs ≡ environments.pairs_evaluated values.now (members_of fields.now)) }
{
    if fields.items.is_empty() {
        return Ok(Pairs::new(alloc));
    }
    last_of_each(alloc, fields_under(alloc, fields, values)?)
}

/// What each field of an object is, in written order.
#[cycle(evaluate)]
fn fields_under(
    alloc: Global,
    fields: &Arguments,
    values: &Pairs,
) -> Result<Vec<(Words, Plain)>, NoMemory>
    ensures { IfOk result (λ pairs. shown_members pairs.items ≡ map (λ m. (m.0, environments.evaluation values.now m.1)) fields.now) }
{
    let mut pairs = Vec::new(alloc);
    'fields: for field in &fields.items {
        let name = field.name.copy()?;
        pairs.push((name, evaluate_under(alloc, &field.value, values)?))?;
    }
    Ok(pairs)
}

/// The value of a variable, or null.
fn value_in(values: &Pairs, name: &str) -> Result<Plain, NoMemory>
    ensures { IfOk result (λ plain. tree_of plain ≡ environments.value_in values.now name.now) }
{
    match values.get(name) {
        Some(plain) => plain.copy(),
        None => Ok(Plain::Null),
    }
}
