//! Uses of variables in documents (GraphQL, October 2021, sections 5.8.3 and 5.8.5): the variables in
//! arguments, what fragments need of the operations that reach them, and which uses are wrong.
//!
//! Which uses a fragment has, the rule says that asks: the variables in all arguments, or those alone
//! that spreads give. Here they are gathered by the names of fragments, and judged for each operation.
#![tactic(auto)]

mod fragment_uses;
mod needs;
mod order;
mod uses;
mod uses_by_name;
mod variables;
mod wrong_uses;

pub use doc_sites::{
    ArgumentAt, Arguments, DefinitionAt, DirectiveAt, Documents, FragmentAt, InputDef, InputDefs,
    Kind, Location, Locations, NodeFault, OperationAt, Rule, RuleFault, Schema, Site, TypeKind,
    TypeTree, ValueTree, ValueTrees, VariableAt, count_fragments, definitions_at,
};
pub use fragment_uses::FragmentUses;
pub use uses::{Place, Use, field_place, item_place, name_of_place, place_of_input, put_argument};
pub use uses_by_name::UsesByName;
pub use wrong_uses::note_wrong_uses;

/// Passed on from the crates below.
pub mod around {
    pub use doc_sites::around::{below, below_on};
}

/// Passed on from the crates below.
pub mod located {
    pub use doc_sites::located::NameAt;
}

/// Passed on from the crates below.
pub mod repeats {
    pub use doc_sites::repeats::note_repeated;
}

/// Passed on from the crates below.
pub mod type_forms {
    pub use doc_sites::type_forms::base_of;
}
