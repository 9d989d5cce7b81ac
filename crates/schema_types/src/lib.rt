//! Schemas: what a schema says, once it meets its rules (GraphQL, October 2021, section 3); and the
//! rules on documents and the values of variables, as definitions.
#![tactic(auto)]

mod schema;

pub use schema::Schema;
pub use schema_rules::fault::{NodeFault, Rule, RuleFault};
pub use schema_rules::gql_ast::{
    Arguments, Definition, Directives, Document, Documents, Fragment, Kind, Location, Locations,
    Operation, Selection, Selections, TypeTree, ValueTree, ValueTrees, VariableDef, VariableDefs,
};
pub use schema_rules::gql_plain::{Ids, Name, NoMemory, Pairs, Plain, Plains, Words};
pub use schema_rules::same_type;
pub use schema_rules::schema_tables::definitions::{DirectiveDef, FieldDef, InputDef, InputDefs};
pub use schema_rules::schema_tables::kind::TypeKind;

/// Passed on from the crates below.
pub mod first {
    pub use schema_rules::gql_graph::first::First;
}

/// Passed on from the crates below.
pub mod graph {
    pub use schema_rules::gql_graph::graph::Graph;
}

/// Passed on from the crates below.
pub mod least {
    pub use schema_rules::gql_graph::least::Least;
}

/// Passed on from the crates below.
pub mod located {
    pub use schema_rules::schema_trees::located::{NameAt, name_at, pass, pass_type, pass_value};
}

/// Passed on from the crates below.
pub mod ranks {
    pub use schema_rules::gql_graph::ranks::Ranks;
}

/// Passed on from the crates below.
pub mod repeats {
    pub use schema_rules::schema_trees::repeats::{note_repeated, seen_names};
}

/// Passed on from the crates below.
pub mod seen {
    pub use schema_rules::gql_graph::seen::Seen;
}

/// Passed on from the crates below.
pub mod type_forms {
    pub use schema_rules::schema_tables::type_forms::{
        base_of, is_built_in_scalar, is_non_null, item_of,
    };
}
