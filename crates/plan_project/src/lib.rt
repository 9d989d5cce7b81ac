//! Projects: a schema and documents that meet all rules, or the first fault in their files (GraphQL,
//! October 2021, sections 2, 3 and 5); and the artifacts of a project.
#![tactic(auto)]

pub mod artifacts;
mod checking;
mod compiling;
mod expansions;
pub mod fault;
pub mod file;
pub mod laws;
mod least_faults;
mod listing;
pub mod operations;
mod parsing;
mod places;
mod planner;
pub mod project;
mod ready;

pub use artifacts::Artifacts;
pub use compiling::{CompileFault, compile};
pub use doc_args::check_args;
pub use doc_fields::check_fields;
pub use doc_names::check_names;
pub use fault::ProjectFault;
pub use file::ProjectFile;
pub use operations::{Compiled, CompiledFragment};
pub use project::Project;
pub use relay_dirs::check_relay;
pub use text_places::{parse_document, parse_schema};
