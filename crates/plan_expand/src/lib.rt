//! Expansion (this project's own): all spreads of an operation or a fragment are followed, local
//! variables give way to their values, and fields are added.
#![tactic(auto)]

mod addition_sizes;
mod additions;
mod around;
mod check;
mod definition;
pub mod directives;
mod expander;
mod extent;
mod fault;
mod fragments;
pub mod local;
pub mod locals;
mod making;
mod measure;
mod operations;
mod places;
pub mod scope;
mod size;
mod sizes;
mod values;

pub use definition::expand;
pub use doc_sites::around::below;
pub use doc_sites::{
    ArgumentAt, DefinitionAt, DirectiveAt, FragmentAt, Site, count_fragments, definitions_at,
};
pub use expander::Expander;
pub use fault::ExpandFault;
pub use plan_ir::Form;
