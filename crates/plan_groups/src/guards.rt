//! Which guards let the steps behind them be taken.
ghost use Rattle.std.specs.Prelude.{◌≡◌, IfOk};
ghost use Rattle.std.specs.List.{list_all};
ghost use Rattle.plan_ir.specs.gql_plain.Shown.{tree_of};
ghost use Rattle.plan_ir.specs.NormalMeaning as meaning;
ghost use Rattle.plan_ir.specs.schema_types.Environments as environments;

use plan_ir::{Condition, Conditions, Env, Guard, Ids, NoMemory, Plain, evaluate};
use std::alloc::Global;

/// Whether the steps behind a guard are taken for an object of that type.
pub fn guard_passes(alloc: Global, env: &Env, object: &str, guard: &Guard) -> Result<bool, NoMemory>
    ensures { IfOk result (λ passes. passes ≡ meaning.guard_passes env.now.values object.now guard.now) }
{
    if !type_passes(&guard.types, object) {
        return Ok(false);
    }
    conditions_pass(alloc, env, &guard.conditions)
}

/// Whether the type is one of them, where they are given; takes no memory.
fn type_passes(types: &Option<Ids>, object: &str) -> bool
    ensures { result ≡ meaning.type_passes types.now object.now }
{
    match types {
        Some(types) => types.contains(object),
        None => true,
    }
}

/// Whether all conditions hold.
fn conditions_pass(alloc: Global, env: &Env, conditions: &Conditions) -> Result<bool, NoMemory>
    ensures { IfOk result (λ passes. passes ≡ list_all (meaning.condition_passes env.now.values) conditions.now) }
{
    'conditions: for condition in conditions.as_slice() {
        let passes = condition_passes(alloc, env, condition)?;
        if !passes {
            return Ok(false);
        }
    }
    Ok(true)
}

/// Whether a condition holds (GraphQL, October 2021, sections 3.13.1 and 3.13.2).
fn condition_passes(alloc: Global, env: &Env, condition: &Condition) -> Result<bool, NoMemory>
    ensures { IfOk result (λ passes. passes ≡ meaning.condition_passes env.now.values condition.now) }
{
    let value = evaluate(alloc, &condition.value, env)?;
    let truth = is_true(&value);
    if condition.skip {
        return Ok(!truth);
    }
    Ok(truth)
}

/// Whether a value is true.
fn is_true(value: &Plain) -> bool
    ensures { result ≡ environments.is_true (tree_of value.now) }
{
    match value {
        Plain::Bool(truth) => *truth,
        Plain::Null => false,
        Plain::Int(_) => false,
        Plain::Text(_) => false,
        Plain::List(_) => false,
        Plain::Tree(_) => false,
    }
}
