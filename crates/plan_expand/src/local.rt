//! A local variable, with the size of its default.
ghost use Rattle.std.specs.Prelude.{◌≡◌, option_map};
ghost use Rattle.plan_ir.specs.gql_ast.ValueView.{value_of};
ghost use Rattle.plan_expand.specs.Sizes.{default_size};

use crate::size::Size;
use plan_ir::ValueTree;

/// A local variable: its default, where it has one.
#[derive(Drop)]
pub struct Local {
    pub default: Option<ValueTree>,
    /// That of the default, or of `null` where there is none.
    pub(crate) size: Size,
    ghost counted: { size.count ≡ (default_size (option_map value_of default)).count },
    ghost nested: { size.depth ≡ (default_size (option_map value_of default)).depth },
}
