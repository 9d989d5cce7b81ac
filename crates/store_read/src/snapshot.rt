//! What a read shows.
use plan_ir::{Ids, Plain};

/// What a read shows, and what it met.
#[derive(Debug, Drop)]
pub struct Snapshot {
    /// The data; null where it is missing.
    pub shown: Plain,
    /// Whether something that the plan asks for was missing.
    pub missing: bool,
    /// The ids that the read stood at, those of absent and of deleted records included.
    pub seen: Ids,
}
