//! Events of optimistic layers: their beginning, their end, and their revocation.
ghost use Rattle.std.specs.Prelude.{◌≡◌, ◌+◌, ◌≤◌, codes, true, false, length, option_map, IfOk};
ghost use Rattle.event_script.specs.Seen.{answer_seen};
ghost use Rattle.line_engine.specs.Spares.{Spares};
ghost use Rattle.line_engine.specs.Steps.{HasStepped};
ghost use Rattle.line_engine.specs.Work.{ChangesWithin, EventWithin, confirming, starting};
ghost use Rattle.relay_machine.specs.Machine as machine;
ghost use Rattle.relay_machine.specs.Printed as printed;
ghost use Rattle.store_layers.specs.Layered as layered;
ghost use Rattle.store_layers.specs.Work.{counted};
ghost use Rattle.plan_ir.specs.store_model.Events as events;

use crate::answers::{accept, refuse};
use crate::engine::LineEngine;
use crate::lines::Lines;
use crate::taking::Taken;
use plan_ir::{Answer, Commands, Entry, NoMemory, Words};
use relay_lines::Refusal;
use store_retain::RecordSource;

/// At most this many layers are live.
const MAX_LAYERS: u64 = 1_000;

impl<S: RecordSource> LineEngine<S> {
    /// Starts a layer of what the response to a handle says, if there is one, and then the commands.
    pub(crate) fn begin(
        &mut self,
        layer: Words,
        answer: &Option<Answer>,
        commands: Commands,
        n: u64,
        steps: &mut S::Count,
    ) -> Result<Lines, NoMemory>
        ensures step { IfOk result (λ lines. HasStepped self.old self.new lines (λ p s. machine.noticed p n (length s.watches) (machine.step_begin p s n layer (option_map answer_seen answer.now) commands))) }
        ensures spares { Spares self.old self.new result }
        ensures applies { S.Count.applies steps.new ≤ S.Count.applies steps.old + (length self.old.layers.live + 1) }
        ensures looks { EventWithin self.old (events.begin layer (option_map answer_seen answer.now) commands) (λ p s. machine.step_begin p s n layer (option_map answer_seen answer.now) commands) (S.Count.looks steps.old) (S.Count.looks steps.new) }
    {
        if self.layers.is_live(layer.as_str()) {
            return refuse(self.alloc, Refusal::LayerTaken(layer.as_str()), n);
        }
        let is_full = self.layers.count() == MAX_LAYERS;
        match self.take(answer, commands, is_full, n)? {
            Taken::Entry(entry) => self.start(layer, entry, n, steps),
            Taken::Refused(lines) => Ok(lines),
        }
    }

    /// Starts a layer under a name that is not live.
    fn start(
        &mut self,
        layer: Words,
        entry: Entry,
        n: u64,
        steps: &mut S::Count,
    ) -> Result<Lines, NoMemory>
        requires free { layered.is_live self.old.layers.live layer ≡ false }
        ensures step { IfOk result (λ lines. HasStepped self.old self.new lines (λ p s. machine.noticed p n (length s.watches) (machine.accept (printed.event_line (codes "begin") n) (machine.with_layer layer entry s)))) }
        ensures spares { Spares self.old self.new result }
        ensures applies { S.Count.applies steps.new ≤ S.Count.applies steps.old + (length self.old.layers.live + 1) }
        ensures looks { ChangesWithin self.old starting (machine.with_layer layer entry) (S.Count.looks steps.old) (S.Count.looks steps.new) }
    {
        let answer = accept(self.alloc, "begin", n)?;
        let draft = self.layers.draft_begin(layer, entry, steps)?;
        self.change(draft, answer, n, steps)
    }

    /// Drops a layer, and confirms what the response to a handle says, if there is one, and then the
    /// commands.
    pub(crate) fn finish(
        &mut self,
        layer: &Words,
        answer: &Option<Answer>,
        commands: Commands,
        n: u64,
        steps: &mut S::Count,
    ) -> Result<Lines, NoMemory>
        ensures step { IfOk result (λ lines. HasStepped self.old self.new lines (λ p s. machine.noticed p n (length s.watches) (machine.step_finish p s n layer.now (option_map answer_seen answer.now) commands))) }
        ensures spares { Spares self.old self.new result }
        ensures applies { S.Count.applies steps.new ≤ S.Count.applies steps.old + (length self.old.layers.live + 1) }
        ensures looks { EventWithin self.old (events.finish layer.now (option_map answer_seen answer.now) commands) (λ p s. machine.step_finish p s n layer.now (option_map answer_seen answer.now) commands) (S.Count.looks steps.old) (S.Count.looks steps.new) }
    {
        if !self.layers.is_live(layer.as_str()) {
            return refuse(self.alloc, Refusal::UnknownLayer(layer.as_str()), n);
        }
        match self.take(answer, commands, false, n)? {
            Taken::Entry(entry) => self.replace(layer, entry, n, steps),
            Taken::Refused(lines) => Ok(lines),
        }
    }

    /// Drops a live layer, and confirms an entry.
    fn replace(
        &mut self,
        layer: &Words,
        entry: Entry,
        n: u64,
        steps: &mut S::Count,
    ) -> Result<Lines, NoMemory>
        requires live { layered.is_live self.old.layers.live layer.now ≡ true }
        ensures step { IfOk result (λ lines. HasStepped self.old self.new lines (λ p s. machine.noticed p n (length s.watches) (machine.accept (printed.event_line (codes "finish") n) (machine.confirm entry (machine.drop_layer layer.now s))))) }
        ensures spares { Spares self.old self.new result }
        ensures applies { S.Count.applies steps.new ≤ S.Count.applies steps.old + (length self.old.layers.live + 1) }
        ensures looks { ChangesWithin self.old confirming (λ s. machine.confirm entry (machine.drop_layer layer.now s)) (S.Count.looks steps.old) (S.Count.looks steps.new) }
    {
        let answer = accept(self.alloc, "finish", n)?;
        let draft = self.layers.draft_finish(layer, &entry, steps)?;
        self.change(draft, answer, n, steps)
    }

    /// Drops a layer.
    pub(crate) fn revert(
        &mut self,
        layer: &Words,
        n: u64,
        steps: &mut S::Count,
    ) -> Result<Lines, NoMemory>
        ensures step { IfOk result (λ lines. HasStepped self.old self.new lines (λ p s. machine.noticed p n (length s.watches) (machine.step_revert s n layer.now))) }
        ensures spares { Spares self.old self.new result }
        ensures applies { S.Count.applies steps.new ≤ S.Count.applies steps.old + (length self.old.layers.live + 1) }
        ensures looks { EventWithin self.old (events.revert layer.now) (λ p s. machine.step_revert s n layer.now) (S.Count.looks steps.old) (S.Count.looks steps.new) }
        ensures exact { IfOk result (λ lines. lines.refused ≡ false → S.Count.applies steps.new ≡ counted (length (layered.above layer.now self.old.layers.live)) (S.Count.applies steps.old)) }
    {
        if !self.layers.is_live(layer.as_str()) {
            return refuse(self.alloc, Refusal::UnknownLayer(layer.as_str()), n);
        }
        let answer = accept(self.alloc, "revert", n)?;
        let draft = self.layers.draft_revert(layer, steps)?;
        self.change(draft, answer, n, steps)
    }
}
