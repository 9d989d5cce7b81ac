//! Refusing a project.
ghost use Rattle.std.specs.Prelude.{◌≡◌, ◌⊎◌, ◌≤◌, ◌+◌, ◌++◌, [], ℕ, List, length};
ghost use Rattle.relay_forms.specs.relay_io.Causes.{Rose};
ghost use Rattle.relay_forms.specs.relay_io.Streams.{append};
ghost use Rattle.relay_forms.specs.relay_machine.Printed.{project_fault};
ghost use Rattle.relay_forms.specs.Artifacts.{EndsLine};

use relay_engine::fault_line;
use relay_forms::{Sink, Status, Stop, put_line};
use std::alloc::Global;

/// Puts the line of a project that is refused: the file at fault with the line and the column, and
/// the rule.
pub fn refuse<K: Sink>(
    alloc: Global,
    file: &str,
    line: u32,
    column: u32,
    rule: &str,
    out: &mut K,
) -> Status
    ensures added { (added : List ℕ) × (K.contents out.new ≡ append (K.contents out.old) added)
        × (K.calls out.new ≤ K.calls out.old + length added + 1)
        × ((result ≡ Status.WriteFault) ⊎ EndsLine added)
        × (more : List ℕ) × (added ++ more ≡ project_fault file.now line column rule.now) × (result ≡ Status.ProjectRefused → more ≡ []) }
    ensures form { (result ≡ Status.ProjectRefused) ⊎ (((result ≡ Status.WriteFault) × Rose (K.faults out.old) (K.faults out.new)) ⊎ (result ≡ Status.NoMemory)) }
{
    let Ok(text) = fault_line(alloc, file, line, column, rule) else {
        return Status::NoMemory;
    };
    match put_line(text, out) {
        Ok(()) => Status::ProjectRefused,
        Err(Stop::WriteFault) => Status::WriteFault,
        Err(Stop::NoMemory) => Status::NoMemory,
    }
}
