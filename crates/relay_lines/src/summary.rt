//! The line of a summary.
ghost use Rattle.std.specs.Prelude.{◌≡◌, ◌++◌, ◌∷◌, [], IfOk};
ghost use Rattle.relay_machine.specs.Printed as model;

use crate::line_writer::LineWriter;
use plan_ir::{NoMemory, Words};
use std::alloc::Global;

/// The summary of a script: how many bytes are written for it, how many lines it has, how many notices
/// are among what is written, and how many of its lines are refused.
pub fn summary_line(
    alloc: Global,
    bytes: u64,
    lines: u64,
    notices: u64,
    refused: u64,
) -> Result<Words, NoMemory>
    ensures { IfOk result (λ words. words ++ 10 ∷ [] ≡ model.summary_line bytes lines notices refused) }
{
    let mut summary = LineWriter::new(alloc)?;
    summary.put_number("bytes", bytes)?;
    summary.put_number("lines", lines)?;
    summary.put_number("notices", notices)?;
    summary.put_number("refused", refused)?;
    summary.finish()
}
