//! What `@argumentDefinitions` and `@connection` say, after Relay: local variables of fragments, and
//! connections. These directives are this project's own; what they are modelled on is told at each.
#![tactic(auto)]

mod connections;
mod local_variables;
mod values;

pub use connections::{connection, connection_among};
pub use constant_values::{
    Env, InputDef, InputDefs, NodeFault, Rule, RuleFault, Schema, TypeKind, evaluate,
    evaluate_arguments, evaluate_constants, have_constants,
};
pub use gql_syntax::gql_ast::{
    Argument, Arguments, Definition, Directive, Directives, Document, Documents, FilePlace,
    FilePlaces, Fragment, Kind, Operation, ParseFault, Placed, Selection, Selections, SyntaxFault,
    TypeBox, TypeTree, ValueTree, ValueTrees, VariableDef, VariableDefs,
};
pub use gql_syntax::{Cursor, NESTING_LIMIT, read_type, read_value};
pub use local_variables::{local_of, locals, put_local};

/// Passed on from the crates below.
pub mod least {
    pub use constant_values::least::Least;
}

/// Passed on from the crates below.
pub mod located {
    pub use constant_values::located::{NameAt, pass};
}

/// Passed on from the crates below.
pub mod type_forms {
    pub use constant_values::type_forms::{base_of, item_of};
}
