//! What stands in documents, in text order, each with the type around it and with the numbers of
//! the nodes of its names (GraphQL, October 2021, sections 2.3 to 2.8, 2.10 and 2.12).
//!
//! The nodes of all documents are numbered in the order of the documents, from 0; a document is a
//! node itself.
#![tactic(auto)]

mod among;
pub mod around;
mod defining;
mod locals;
mod parts;
mod selecting;
pub mod site;
mod spreads;

pub use among::{fragments, operations};
pub use defining::definitions_at;
pub use locals::locals_in;
pub use schema_types::{
    Arguments, Documents, Ids, InputDef, InputDefs, Kind, Location, Locations, Name, NoMemory,
    NodeFault, Rule, RuleFault, Schema, Selection, Selections, TypeKind, TypeTree, ValueTree,
    ValueTrees, same_type,
};
pub use site::{
    ArgumentAt, DefinitionAt, DirectiveAt, FragmentAt, OperationAt, Site, ValueAt, VariableAt,
};
pub use spreads::{count_fragments, spread_graph, spread_names, spreads_at};

/// Passed on from the crates below.
pub mod first {
    pub use schema_types::first::First;
}

/// Passed on from the crates below.
pub mod graph {
    pub use schema_types::graph::Graph;
}

/// Passed on from the crates below.
pub mod least {
    pub use schema_types::least::Least;
}

/// Passed on from the crates below.
pub mod located {
    pub use schema_types::located::{NameAt, name_at, pass};
}

/// Passed on from the crates below.
pub mod ranks {
    pub use schema_types::ranks::Ranks;
}

/// Passed on from the crates below.
pub mod repeats {
    pub use schema_types::repeats::{note_repeated, seen_names};
}

/// Passed on from the crates below.
pub mod seen {
    pub use schema_types::seen::Seen;
}

/// Passed on from the crates below.
pub mod type_forms {
    pub use schema_types::type_forms::{base_of, item_of};
}
