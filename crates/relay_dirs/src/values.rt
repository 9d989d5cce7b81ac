//! Values of arguments, by the names of the arguments (GraphQL, October 2021, section 2.6).
ghost use Rattle.std.specs.Prelude.{◌≡◌, map, option_map};
ghost use Rattle.gql_syntax.specs.gql_ast.ValueView as tree;
ghost use Rattle.doc_uses.specs.doc_sites.SitesView.{argument_of};
ghost use Rattle.relay_marks.specs.Connections as connections;

use doc_uses::ArgumentAt;
use gql_syntax::gql_ast::ValueTree;

/// The value of the argument of a name, where it is given; takes no memory.
pub(crate) fn value_named<'a>(arguments: &[ArgumentAt<'a>], name: &str) -> Option<&'a ValueTree>
    ensures { option_map (λ v. tree.value_of v.now) result ≡ connections.value_named (map argument_of arguments.now) name.now }
{
    'arguments: for argument in arguments {
        if argument.name.name == name {
            return Some(argument.value.of);
        }
    }
    None
}
