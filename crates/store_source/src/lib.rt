//! Record maps behind one trait. `Flat` copies its map at each change, and versions of `Versions`
//! share their nodes.
#![tactic(auto)]

pub mod flat;
mod newest;
pub mod source;
pub mod versions;

pub use flat::Flat;
pub use source::RecordSource;
pub use versions::Versions;
