//! The event that releases an operation.
ghost use Rattle.std.specs.Prelude.{◌≡◌, IfOk};
ghost use Rattle.line_engine.specs.Spares.{Spares};
ghost use Rattle.line_engine.specs.Steps.{HasStepped};
ghost use Rattle.relay_machine.specs.Machine as machine;

use crate::answers::{accept, refuse};
use crate::engine::LineEngine;
use crate::lines::Lines;
use plan_ir::{NoMemory, Words};
use relay_lines::Refusal;
use store_retain::RecordSource;

impl<S: RecordSource> LineEngine<S> {
    /// Releases the operation of a handle with which no live watch was started.
    pub(crate) fn release(&mut self, handle: &Words, n: u64) -> Result<Lines, NoMemory>
        ensures step { IfOk result (λ lines. HasStepped self.old self.new lines (λ p s. machine.step_release s n handle.now)) }
        ensures spares { Spares self.old self.new result }
    {
        let name = handle.as_str();
        if self.retained.held(name).is_none() {
            return refuse(self.alloc, Refusal::UnknownHandle(name), n);
        }
        if self.watches.uses(name) {
            return refuse(self.alloc, Refusal::HandleInUse(name), n);
        }
        let lines = accept(self.alloc, "release", n)?;
        self.retained.release(handle);
        Ok(lines)
    }
}
