//! Plans by which responses are normalized (this project's own).
#![tactic(auto)]

pub mod around;
pub mod classes;
pub mod conditions;
pub mod kept;
mod known;
pub mod laws;
pub mod normal;
pub mod steps;

pub use doc_merge::{MergeFault, PlaceFault, check_merge};
pub use normal::normal_plan;

/// Passed on from the crates below.
pub mod least {
    pub use doc_merge::least::Least;
}
