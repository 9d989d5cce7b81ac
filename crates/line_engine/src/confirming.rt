//! Events that are confirmed at once: payloads and updates.
ghost use Rattle.std.specs.Prelude.{◌≡◌, ◌+◌, ◌≤◌, length, option_map, IfOk};
ghost use Rattle.event_script.specs.Seen.{answer_seen};
ghost use Rattle.line_engine.specs.Spares.{Spares};
ghost use Rattle.line_engine.specs.Steps.{HasStepped};
ghost use Rattle.line_engine.specs.Work.{ChangesWithin, EventWithin, confirming};
ghost use Rattle.relay_machine.specs.Machine as machine;
ghost use Rattle.relay_machine.specs.Printed as printed;
ghost use Rattle.plan_ir.specs.store_model.Events as events;

use crate::answers::accept;
use crate::engine::LineEngine;
use crate::lines::Lines;
use crate::taking::Taken;
use plan_ir::{Answer, Commands, Entry, NoMemory};
use store_retain::RecordSource;

impl<S: RecordSource> LineEngine<S> {
    /// Confirms what the response to a handle says, if there is one, and then the commands. The event
    /// is answered by its name.
    pub(crate) fn confirm(
        &mut self,
        event: &str,
        answer: &Option<Answer>,
        commands: Commands,
        n: u64,
        steps: &mut S::Count,
    ) -> Result<Lines, NoMemory>
        ensures step { IfOk result (λ lines. HasStepped self.old self.new lines (λ p s.
            machine.noticed p n (length s.watches) (machine.result_of p s n (option_map answer_seen answer.now) commands (λ step. step) (λ entry. machine.accept (printed.event_line event.now n) (machine.confirm entry s))))) }
        ensures spares { Spares self.old self.new result }
        ensures applies { S.Count.applies steps.new ≤ S.Count.applies steps.old + (length self.old.layers.live + 1) }
        ensures looks { EventWithin self.old (events.update commands) (λ p s. machine.result_of p s n (option_map answer_seen answer.now) commands (λ step. step) (λ entry. machine.accept (printed.event_line event.now n) (machine.confirm entry s))) (S.Count.looks steps.old) (S.Count.looks steps.new) }
    {
        match self.take(answer, commands, false, n)? {
            Taken::Entry(entry) => self.commit(event, entry, n, steps),
            Taken::Refused(lines) => Ok(lines),
        }
    }

    /// Confirms an entry.
    fn commit(
        &mut self,
        event: &str,
        entry: Entry,
        n: u64,
        steps: &mut S::Count,
    ) -> Result<Lines, NoMemory>
        ensures step { IfOk result (λ lines. HasStepped self.old self.new lines (λ p s. machine.noticed p n (length s.watches) (machine.accept (printed.event_line event.now n) (machine.confirm entry s)))) }
        ensures spares { Spares self.old self.new result }
        ensures applies { S.Count.applies steps.new ≤ S.Count.applies steps.old + (length self.old.layers.live + 1) }
        ensures looks { ChangesWithin self.old confirming (machine.confirm entry) (S.Count.looks steps.old) (S.Count.looks steps.new) }
    {
        let answer = accept(self.alloc, event, n)?;
        let draft = self.layers.draft_commit(&entry, steps)?;
        self.change(draft, answer, n, steps)
    }
}
