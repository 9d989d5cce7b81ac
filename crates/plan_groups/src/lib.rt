//! What plans that normalize ask of an object: its fields by their response keys, each with the key
//! that it is stored under, and what stands below it (GraphQL, October 2021, section 6.3.2).
//!
//! In contracts a view of a plan is what it stands for: a `PlanAt` is steps with the values of their
//! operation's variables, a `GroupAt` the fields of one response key, and `Groups` their list.
#![tactic(auto)]

pub mod field;
mod gathered;
pub mod group;
pub mod groups;
pub mod guards;
pub mod pages;
pub mod room;

pub use field::{BelowAt, Call, FormAt, PlanAt, connection_in, form_of_objects};
pub use group::GroupAt;
pub use groups::Groups;
pub use guards::guard_passes;
pub use pages::put_pages;
pub use room::total;
