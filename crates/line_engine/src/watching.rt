//! The events that read, and those that start and end watches.
ghost use Rattle.std.specs.Prelude.{◌≡◌, false, IfOk};
ghost use Rattle.event_script.specs.Seen.{target_seen};
ghost use Rattle.line_engine.specs.Spares.{Spares};
ghost use Rattle.line_engine.specs.Steps.{HasStepped};
ghost use Rattle.relay_machine.specs.Machine as machine;
ghost use Rattle.line_engine.specs.Stands.{ShowsPart, StandsFor};
ghost use Rattle.line_engine.specs.Steps.{IsStep};
ghost use Rattle.line_engine.specs.Work.{EventWithin, ReadsWithin};
ghost use Rattle.std.specs.Prelude.{Option};
ghost use Rattle.plan_ir.specs.store_model.Events as events;
ghost use Rattle.store_watch.specs.Rows.{look_of};
ghost use Rattle.store_watch.specs.Watching as watch_list;

use crate::answers::{accept, one_line, refuse, show_watch};
use crate::engine::LineEngine;
use crate::lines::Lines;
use crate::targets::Targeted;
use crate::watched::{look, read_line_of};
use plan_ir::{NoMemory, Target, Words};
use relay_lines::Refusal;
use store_retain::RecordSource;
use store_watch::Watched;

/// At most this many watches are live.
const MAX_WATCHES: u64 = 10_000;

impl<S: RecordSource> LineEngine<S> {
    /// Reads the operation of a handle, or a fragment under it.
    pub(crate) fn read(
        &self,
        target: &Target,
        n: u64,
        steps: &mut S::Count,
    ) -> Result<Lines, NoMemory>
        ensures step { IfOk result (λ lines. HasStepped self.now self.now lines (λ p s. machine.step_read p s n (target_seen target.now))) }
        ensures applies { S.Count.applies steps.new ≡ S.Count.applies steps.old }
        ensures looks { EventWithin self.now (events.read (target_seen target.now)) (λ p s. machine.step_read p s n (target_seen target.now)) (S.Count.looks steps.old) (S.Count.looks steps.new) }
    {
        match self.target(target, false, n)? {
            Targeted::Shown(what) => {
                let text = read_line_of(self.alloc, self.layers.view(), &what, n, steps)?;
                one_line(self.alloc, text, false)
            }
            Targeted::Refused(lines) => Ok(lines),
        }
    }

    /// Starts a watch of the operation of a handle, or of a fragment under it.
    pub(crate) fn watch(
        &mut self,
        watch: Words,
        target: &Target,
        n: u64,
        steps: &mut S::Count,
    ) -> Result<Lines, NoMemory>
        ensures step { IfOk result (λ lines. HasStepped self.old self.new lines (λ p s. machine.step_watch p s n watch (target_seen target.now))) }
        ensures spares { Spares self.old self.new result }
        ensures applies { S.Count.applies steps.new ≡ S.Count.applies steps.old }
        ensures looks { EventWithin self.old (events.watch watch (target_seen target.now)) (λ p s. machine.step_watch p s n watch (target_seen target.now)) (S.Count.looks steps.old) (S.Count.looks steps.new) }
    {
        if self.watches.is_live(watch.as_str()) {
            return refuse(self.alloc, Refusal::WatchTaken(watch.as_str()), n);
        }
        let is_full = self.watches.count() == MAX_WATCHES;
        match self.target(target, is_full, n)? {
            Targeted::Shown(what) => self.start_watch(watch, what, n, steps),
            Targeted::Refused(lines) => Ok(lines),
        }
    }

    /// Starts a watch under a name that is not live.
    fn start_watch(
        &mut self,
        watch: Words,
        what: Watched,
        n: u64,
        steps: &mut S::Count,
    ) -> Result<Lines, NoMemory>
        requires free { watch_list.is_live self.old.watches watch ≡ false }
        ensures step { IfOk result (λ lines. (p : machine.Project) (s : machine.State) (h : machine.Handle) (part : Option machine.PartShown) → StandsFor self.old p s
            → ShowsPart p (look_of what) h part → IsStep p (machine.start_watch p s n watch h part) lines self.new) }
        ensures spares { Spares self.old self.new result }
        ensures applies { S.Count.applies steps.new ≡ S.Count.applies steps.old }
        ensures looks { ReadsWithin self.old (look_of what) (S.Count.looks steps.old) (S.Count.looks steps.new) }
    {
        let snapshot = look(self.alloc, self.layers.view(), &what, steps)?;
        let lines = show_watch(self.alloc, &snapshot, n)?;
        self.watches.start(watch, what, snapshot)?;
        Ok(lines)
    }

    /// Ends a watch.
    pub(crate) fn unwatch(&mut self, watch: &Words, n: u64) -> Result<Lines, NoMemory>
        ensures step { IfOk result (λ lines. HasStepped self.old self.new lines (λ p s. machine.step_unwatch s n watch.now)) }
        ensures spares { Spares self.old self.new result }
    {
        if !self.watches.is_live(watch.as_str()) {
            return refuse(self.alloc, Refusal::UnknownWatch(watch.as_str()), n);
        }
        let lines = accept(self.alloc, "unwatch", n)?;
        self.watches.stop(watch);
        Ok(lines)
    }
}
