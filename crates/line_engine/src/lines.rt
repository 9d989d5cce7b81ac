//! What a line gives.
use plan_ir::Words;

/// What a line of a script gives: the texts of its answer, in the order in which they are printed, each
/// without its line end; and whether the line was refused.
#[derive(Drop)]
pub struct Lines {
    pub refused: bool,
    pub texts: Vec<Words>,
}
