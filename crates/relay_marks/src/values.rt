//! Values of arguments, by the names of the arguments (GraphQL, October 2021, section 2.6).
ghost use Rattle.std.specs.Prelude.{◌≡◌, option_map};
ghost use Rattle.gql_syntax.specs.gql_ast.ValueView as tree;
ghost use Rattle.relay_marks.specs.Connections as connections;

use gql_syntax::gql_ast::{Arguments, ValueTree};

/// The value of the argument of a name, where it is given; takes no memory.
pub(crate) fn value_of_name<'a>(arguments: &'a Arguments, name: &str) -> Option<&'a ValueTree>
    ensures { option_map (λ v. tree.value_of v.now) result ≡ connections.value_of_name arguments.now name.now }
{
    'arguments: for argument in arguments.as_slice() {
        if argument.name.as_str() == name {
            return Some(&argument.value);
        }
    }
    None
}
