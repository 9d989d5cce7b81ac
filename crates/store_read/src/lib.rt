//! Reading records by a plan: what a plan shows of a record, whether something was missing, and where
//! the read stood (GraphQL, October 2021, section 6.3; the masked form is this project's own).
//!
//! In contracts a view of a plan is what it stands for: a `PartAt` is steps with the values of their
//! operation's variables, a `Cache` the parts whose groups it has, and a `Met` what a walk met.
#![tactic(auto)]

mod cache;
mod caching;
pub mod field;
mod gathered;
pub mod laws;
mod members;
mod met;
pub mod reading;
pub mod snapshot;
pub mod spread;
pub mod store;
mod walk;

pub use gql_order::sorted_texts;
pub use laws::reads_depend_on_their_footprint;
pub use plan_groups::{Call, FormAt, connection_in, form_of_objects, guard_passes};
pub use reading::read;
pub use snapshot::Snapshot;
pub use store_source::{Flat, RecordSource};
