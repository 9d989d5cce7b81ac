//! The rules on the fields of documents: V7 to V11 (GraphQL, October 2021, sections 5.2.3, 5.3.1,
//! 5.3.3 and 5.5.2.3; V9 is this project's own).
#![tactic(auto)]

mod below;
mod check;
mod common_types;
mod heads;
mod keys;
mod rules;
mod spreads;

pub use check::{check_fields, check_fields_of};
