//! Operations that are retained under handles, and the ids that a sweep has to keep for them.
//!
//! An operation whose handle is released is kept on in a buffer of the latest ones. Marking walks
//! along the normalization plans of all of them, live and released: each plan is laid out once, in the
//! environment of its operation, as numbered parts with ready keys; the walk then goes from record to
//! record in rounds, and opens a record once with the same parts at the same depth.
#![tactic(auto)]

mod found;
pub mod held;
pub mod leading;
mod mark;
mod paths;
pub mod retained;
mod roads;
mod table;
mod trail;
mod walk;

pub use held::Held;
pub use leading::leads;
pub use retained::Retained;
pub use store_source::{Flat, RecordSource, Versions};
