//! Plans by which operations and fragments are read in the masked form (this project's own): a spread
//! that is not masked is followed, and each other one is a pointer to its fragment.
#![tactic(auto)]

mod definition;
mod fields;
mod fragments;
pub mod laws;
mod masks;
mod operations;
mod pointers;
mod reader;
mod steps;
mod types;
mod variables;

pub use definition::reader_plan;
pub use plan_build::{MergeFault, PlaceFault, check_merge, normal_plan};
pub use plan_expand::{
    ArgumentAt, DefinitionAt, DirectiveAt, ExpandFault, Expander, Form, FragmentAt, Site,
    definitions_at,
};
pub use reader::Readers;

/// Passed on from the crates below.
pub mod least {
    pub use plan_build::least::Least;
}

/// Passed on from the crates below.
pub mod normal {
    pub use plan_build::normal::one_type;
}
