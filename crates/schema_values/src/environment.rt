//! The environment of an operation (GraphQL, October 2021, section 6.1.2).
ghost use Rattle.std.specs.Prelude.{◌≡◌, map, None, IfOk, OnOk, IfErr};
ghost use Rattle.schema_types.specs.gql_plain.Order.{member_at};
ghost use Rattle.schema_types.specs.gql_plain.Shown.{tree_of, shown_members};
ghost use Rattle.schema_types.specs.Environments as environments;
ghost use Rattle.schema_values.specs.Failures.{Tells, IsFailure};
ghost use Rattle.constant_values.specs.Listed.{given_or_default};

use crate::fault::VarFault;
use crate::suited::fits;
use constant_values::{Env, evaluate_under, first_of_each};
use schema_types::type_forms::is_non_null;
use schema_types::{
    Name, NoMemory, Pairs, Plain, Schema, ValueTree, VariableDef, VariableDefs, Words,
};
use std::alloc::Global;

/// The environment of an operation with these variables: each has the value that is given, else its
/// default, else null. A given name that is not defined is passed over.
///
/// # Errors
///
/// `Missing` or `Unfit` of the first variable in written order that has no value, or one that does
/// not fit its type; `NoMemory`.
pub fn variables(
    alloc: Global,
    schema: &Schema,
    root: &Name,
    defined: &VariableDefs,
    given: &Pairs,
) -> Result<Env, VarFault>
    ensures sound { OnOk result (environments.first_failure schema.now defined.now given.now ≡ None) }
    ensures root { IfOk result (λ env. env.root ≡ root.now) }
    ensures values { IfOk result (λ env. env.values ≡ environments.environment defined.now given.now) }
    ensures fault { IfErr result (IsFailure schema.now defined.now given.now) }
{
    check(schema, defined, given)?;
    Ok(Env {
        root: root.copy()?,
        values: all_values(alloc, defined, given)?,
    })
}

/// Finds the first variable that has no value, or one that does not fit.
fn check(schema: &Schema, defined: &VariableDefs, given: &Pairs) -> Result<(), VarFault>
    ensures sound { OnOk result (environments.first_failure schema.now defined.now given.now ≡ None) }
    ensures fault { IfErr result (IsFailure schema.now defined.now given.now) }
{
    'variables: for variable in &defined.items {
        check_one(schema, variable, given)?;
    }
    Ok(())
}

/// Finds whether a variable has no value, or one that does not fit.
fn check_one(schema: &Schema, variable: &VariableDef, given: &Pairs) -> Result<(), VarFault>
    ensures sound { OnOk result (environments.failure_of schema.now variable.now (member_at given.now variable.now.name) ≡ None) }
    ensures fault { IfErr result (Tells (environments.failure_of schema.now variable.now (member_at given.now variable.now.name))) }
{
    match given.get(variable.name.as_str()) {
        Some(value) => {
            if fits(schema, value, &variable.of) {
                return Ok(());
            }
            Err(VarFault::Unfit(variable.name.copy()?))
        }
        None => {
            if is_non_null(&variable.of) && variable.default.is_none() {
                return Err(VarFault::Missing(variable.name.copy()?));
            }
            Ok(())
        }
    }
}

/// The values of all variables.
#[tactic(auto, using(crate::proofs::Giving::listed))]
fn all_values(alloc: Global, defined: &VariableDefs, given: &Pairs) -> Result<Pairs, NoMemory>
    ensures { IfOk result (λ values. values ≡ environments.environment defined.now given.now) }
{
    first_of_each(alloc, values_or_defaults(alloc, defined, given)?)
}

/// The value of each variable, in written order.
fn values_or_defaults(
    alloc: Global,
    defined: &VariableDefs,
    given: &Pairs,
) -> Result<Vec<(Words, Plain)>, NoMemory>
    ensures { IfOk result (λ values. shown_members values.items ≡ map (given_or_default given.now) defined.now) }
{
    let mut values = Vec::new(alloc);
    'variables: for variable in &defined.items {
        let name = variable.name.copy()?;
        values.push((name, value_or_default(alloc, variable, given)?))?;
    }
    Ok(values)
}

/// The value of a variable: the one that is given, else its default, else null.
fn value_or_default(alloc: Global, variable: &VariableDef, given: &Pairs) -> Result<Plain, NoMemory>
    ensures { IfOk result (λ plain. tree_of plain ≡ environments.value_or_default (member_at given.now variable.now.name) variable.now.default) }
{
    match given.get(variable.name.as_str()) {
        Some(plain) => plain.copy(),
        None => default_value(alloc, &variable.default),
    }
}

/// The value of a default, which is a constant, or null.
fn default_value(alloc: Global, default: &Option<ValueTree>) -> Result<Plain, NoMemory>
    ensures { IfOk result (λ plain. tree_of plain ≡ environments.default_value default.now) }
{
    match default {
        Some(value) => evaluate_under(alloc, value, &Pairs::new(alloc)),
        None => Ok(Plain::Null),
    }
}
