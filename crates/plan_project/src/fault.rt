//! What is wrong with a project.
use plan_ir::{NodeFault, Rule};
use plan_read::PlaceFault;

/// A rule that a project does not meet, and the line and the column, both from 1, of the file where
/// it does not.
#[derive(Clone, Copy, Debug, PartialEq, Eq)]
pub struct ProjectFault {
    pub file: u32,
    pub line: u32,
    pub column: u32,
    pub rule: Rule,
}

/// Why a check of documents fails: a rule that they do not meet, at a node or at a place, or a lack of
/// memory.
#[derive(Clone, Copy, Debug)]
pub(crate) enum DocumentsFault {
    Node(NodeFault),
    Place(PlaceFault),
    NoMemory,
}
