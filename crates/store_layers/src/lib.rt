//! A base of records and the layers over it.
#![tactic(auto)]

pub mod drafts;
mod fold;
mod ids;
pub mod layers;
mod names;
mod naming;
mod rebuild;
mod sweep;

pub use drafts::{Draft, Placing};
pub use layers::Layers;
pub use store_update::store_conn::merge_page;
pub use store_update::store_model::{Command, Commands, Entry, Facts, HandleFact};
pub use store_update::store_record::{Field, Record, Slot};
pub use store_update::store_source::{Flat, RecordSource, Versions};
pub use store_update::{Changed, apply};
