//! Watches: what plans show of records, kept from one change of the records to the next. A change gives
//! notices of watches, and only those are read that saw an id which the change touches.
#![tactic(auto)]

mod due;
mod index;
pub mod notices;
mod reads;
mod rows;
pub mod watched;
pub mod watches;

pub use notices::{Notice, Notices};
pub use plan_order::KeptReader;
pub use store_read::{Snapshot, read};
pub use watched::Watched;
pub use watches::Watches;
