//! The arguments of pointers: what spreads give the local variables of fragments.
ghost use Rattle.std.specs.Prelude.{◌≡◌, ◌++◌, [], ◌∷◌, map, option_map, IfOk, OnOk};
ghost use Rattle.plan_ir.specs.gql_ast.ValueView.{value_of};
ghost use Rattle.plan_expand.specs.ScopeView.{find_gift, scope_of};
ghost use Rattle.plan_ir.specs.Substitution.{value_or};
ghost use Rattle.plan_read.specs.Steps as spec;
ghost use Rattle.plan_ir.specs.relay_marks.View.{local_view};

use plan_expand::scope::{Gifts, Scope, gifts_at};
use plan_ir::{Argument, Arguments, Directives, NoMemory, VariableDef, VariableDefs};
use std::alloc::Global;

/// Puts the value that a local variable has: the one that is given, else its default, else null.
fn put_value(
    given: &Gifts<'_>,
    arguments: &mut Arguments,
    variable: &VariableDef,
) -> Result<(), NoMemory>
    ensures { OnOk result (arguments.new
        ≡ arguments.old ++ (variable.now.name, value_or (find_gift given.now variable.now.name) (option_map value_of variable.now.default)) ∷ []) }
{
    let value = given.value_or(variable.name.as_str(), &variable.default)?;
    let name = variable.name.copy()?;
    arguments.push(Argument { name, value })
}

/// One value for each local variable of a fragment, in written order: what a spread with these
/// directives gives it, else its default, else null.
pub(crate) fn pointer_arguments(
    alloc: Global,
    scope: &Scope<'_, '_>,
    directives: &Directives,
    variables: &VariableDefs,
) -> Result<Arguments, NoMemory>
    ensures { IfOk result (λ xs. xs ≡ spec.pointer_arguments (scope_of scope.now) directives.now (map local_view variables.now)) }
{
    let given = gifts_at(alloc, scope, directives)?;
    let mut arguments = Arguments::new(alloc);
    'variables: for variable in variables.as_slice() {
        put_value(&given, &mut arguments, variable)?;
    }
    Ok(arguments)
}
