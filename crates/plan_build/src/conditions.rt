//! The conditions that `@skip` and `@include` put on a selection (GraphQL, October 2021, sections
//! 3.13.1 and 3.13.2).
ghost use Rattle.std.specs.Prelude.{◌≡◌, ◌++◌, codes, cond, bytes_eq, IfOk, OnOk};
ghost use Rattle.plan_ir.specs.gql_ast.Value.{null};
ghost use Rattle.plan_ir.specs.gql_ast.ValueView.{value_of};
ghost use Rattle.plan_build.specs.Conditions as spec;

use plan_ir::{
    Argument, Arguments, Condition, Conditions, Directive, Directives, NoMemory, ValueTree,
};
use std::alloc::Global;

/// The value of the argument, if its name is `if`, else the value that is given.
fn value_after(value: ValueTree, argument: &Argument) -> Result<ValueTree, NoMemory>
    ensures { IfOk result (λ new. value_of new
        ≡ cond (bytes_eq argument.now.name (codes "if")) (value_of argument.now.value) (value_of value)) }
{
    if argument.name.as_str() == "if" {
        return argument.value.copy();
    }
    Ok(value)
}

/// The value of the last argument `if`; null where there is none.
fn last_if(arguments: &Arguments) -> Result<ValueTree, NoMemory>
    ensures { IfOk result (λ value. value_of value ≡ spec.last_if null arguments.now) }
{
    let mut value = ValueTree::Null;
    'arguments: for argument in arguments.as_slice() {
        value = value_after(value, argument)?;
    }
    Ok(value)
}

/// The condition of a directive.
fn condition(skip: bool, directive: &Directive) -> Result<Condition, NoMemory>
    ensures { IfOk result (λ condition. condition ≡ spec.condition skip directive.now) }
{
    let value = last_if(&directive.arguments)?;
    Ok(Condition { skip, value })
}

/// Puts the condition of a directive, if it is `@skip` or `@include`.
fn put_condition(conditions: &mut Conditions, directive: &Directive) -> Result<(), NoMemory>
    ensures { OnOk result (conditions.new ≡ conditions.old ++ spec.condition_of directive.now) }
{
    if directive.name.as_str() == "skip" {
        return conditions.push(condition(true, directive)?);
    }
    if directive.name.as_str() == "include" {
        return conditions.push(condition(false, directive)?);
    }
    Ok(())
}

/// The conditions that directives put, in written order.
pub fn conditions_of(alloc: Global, directives: &Directives) -> Result<Conditions, NoMemory>
    ensures { IfOk result (λ conditions. conditions ≡ spec.conditions_of directives.now) }
{
    let mut conditions = Conditions::new(alloc);
    'directives: for directive in directives.as_slice() {
        put_condition(&mut conditions, directive)?;
    }
    Ok(conditions)
}
