//! How large the values of arguments are.
ghost use Rattle.std.specs.Prelude.{◌≡◌, IfOk};
ghost use Rattle.plan_ir.specs.gql_ast.Value.{members_of, vals_of};
ghost use Rattle.plan_ir.specs.gql_ast.ValueView.{value_of};
ghost use Rattle.plan_expand.specs.Sizes as spec;
ghost use Rattle.plan_expand.specs.SizesView.{sizes_of};

use crate::size::Size;
use crate::sizes::SizeScope;
use plan_ir::{Arguments, NoMemory, ValueTree, ValueTrees};

/// The size of a value with its local variables replaced.
#[cycle(size)]
pub(crate) fn size_of(scope: &SizeScope<'_, '_>, value: &ValueTree) -> Result<Size, NoMemory>
    ensures { IfOk result (λ size. size ≡ spec.size_in (sizes_of scope.now) (value_of value.now)) }
{
    match value {
        ValueTree::Variable(name) => Ok(scope.find(name.as_str())),
        ValueTree::List(values) => {
            let items = size_of_items(scope, values)?;
            let size = items.inside()?;
            Ok(size)
        }
        ValueTree::Object(fields) => {
            let values = size_of_arguments(scope, fields)?;
            let size = values.inside()?;
            Ok(size)
        }
        ValueTree::Int(_)
        | ValueTree::Text(_)
        | ValueTree::Bool(_)
        | ValueTree::Null
        | ValueTree::Enum(_) => Ok(Size::one()),
    }
}

/// The size of values beside each other.
#[cycle(size)]
fn size_of_items(scope: &SizeScope<'_, '_>, values: &ValueTrees) -> Result<Size, NoMemory>
    ensures { IfOk result (λ size. size ≡ spec.items_size (sizes_of scope.now) (vals_of values.now)) }
{
    let mut all = Size::nothing();
    'values: for value in &values.items {
        let one = size_of(scope, value)?;
        all = all.beside(one)?;
    }
    Ok(all)
}

/// The size of the values of arguments, or of the fields of an object.
#[cycle(size)]
pub(crate) fn size_of_arguments(
    scope: &SizeScope<'_, '_>,
    arguments: &Arguments,
) -> Result<Size, NoMemory>
    ensures { IfOk result (λ size. size ≡ spec.members_size (sizes_of scope.now) (members_of arguments.now)) }
{
    let mut all = Size::nothing();
    'arguments: for argument in &arguments.items {
        let one = size_of(scope, &argument.value)?;
        all = all.beside(one)?;
    }
    Ok(all)
}
