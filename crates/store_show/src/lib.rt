//! Reading records by a plan that is in order, straight into a JSON text: what `store_read` shows by such a plan, without a tree.
//!
//! A walk writes each member as it meets it. A value that is missing is left out with its key, which is
//! written only once its value is known to be there. Ids are borrowed from the store.
#![tactic(auto)]

mod lead;
mod row_at;
mod showing;
pub mod shown;
mod span;
mod standings;
mod values;

pub use plan_order::{KeptReader, ordered};
pub use shown::{Seen, show};
pub use store_read::{Flat, RecordSource, Snapshot, read};
