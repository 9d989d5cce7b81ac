//! Expanded operations and fragments.
ghost use Rattle.std.specs.Prelude.{◌≡◌, IfOk};

use crate::node::Nodes;
use relay_marks::{Directives, Kind, VariableDefs};
use store_model::gql_plain::{Name, NoMemory};

/// An operation or a fragment in which all spreads are followed.
///
/// In a fragment its own local variable `x` stands as the variable `:x`. This is the one name that
/// has not the form of a GraphQL Name: it tells the local variable from a variable `x` of the
/// operation, which may stand beside it.
#[derive(Debug, Drop)]
pub struct Expanded {
    /// None for a fragment.
    pub kind: Option<Kind>,
    pub name: Name,
    /// The root type of the operation, or the type of the fragment.
    pub root: Name,
    /// The variables of the operation in order of definition; none for a fragment.
    pub variables: VariableDefs,
    /// The directives of the operation that its text prints, in written order; none for a fragment.
    pub directives: Directives,
    pub selections: Nodes,
}

impl Expanded {
    /// An equal value.
    pub fn copy(&self) -> Result<Expanded, NoMemory>
        ensures { IfOk result (λ expanded. expanded ≡ self.now) }
    {
        Ok(Expanded {
            kind: self.kind,
            name: self.name.copy()?,
            root: self.root.copy()?,
            variables: self.variables.copy()?,
            directives: self.directives.copy()?,
            selections: self.selections.copy()?,
        })
    }
}
