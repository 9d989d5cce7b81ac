//! The engine that answers lines.
ghost use Rattle.std.specs.Prelude.{◌≡◌, ◌+◌, ◌≤◌, true, length, IfOk, OnErr};
ghost use Rattle.event_script.specs.Seen.{event_seen};
ghost use Rattle.line_engine.specs.Kept.{begun};
ghost use Rattle.line_engine.specs.Named.{StaysNamed};
ghost use Rattle.line_engine.specs.Parts.{project_shown};
ghost use Rattle.line_engine.specs.Spares.{Spares};
ghost use Rattle.line_engine.specs.Stands.{StandsFor};
ghost use Rattle.line_engine.specs.Steps.{HasPrinted, HasStepped};
ghost use Rattle.line_engine.specs.Sweeping.{HasHandleKeys};
ghost use Rattle.line_engine.specs.Work.{AppliesAbove, IsWithinWork};
ghost use Rattle.plan_project.specs.Projects.{IsAcceptedProject};
ghost use Rattle.relay_machine.specs.Machine as machine;
ghost use Rattle.plan_ir.specs.store_model.Events as events;
ghost use Rattle.plan_ir.specs.store_model.Records.{no_records};

use crate::answers::refuse_fault;
use crate::lines::Lines;
use event_script::{Event, LineReader};
use plan_ir::NoMemory;
use plan_project::Project;
use std::alloc::Global;
use std::marker::Model;
use store_layers::Layers;
use store_retain::{RecordSource, Retained};
use store_watch::Watches;

/// A project, the records that were confirmed with the live optimistic layers over them, the operations
/// that are retained, and the live watches. Contracts see it as what it keeps: no history.
///
/// All that a line changes is built aside and put in place by moves, so that a refused line, and one
/// for which memory is lacking, leave all as it was.
#[derive(Drop)]
pub struct LineEngine<S: RecordSource> {
    pub(crate) alloc: Global,
    pub(crate) project: Project,
    pub(crate) layers: Layers<S>,
    pub(crate) retained: Retained,
    pub(crate) watches: Watches,
    reader: LineReader,
}

impl<S: RecordSource> Model for LineEngine<S> {
    ghost use Rattle.line_engine.specs.Kept.{Kept};
    ghost use Rattle.line_engine.specs.KeptCode.{kept_code};

    ghost Value = { Kept };

    ghost coded = { kept_code };

    ghost use Rattle.std.specs.Prelude.{map};
    ghost use Rattle.line_engine.specs.Handles.{handle_kept, operation_kept};

    ghost view = { λ e. record { defs = e.project.0; documents = e.project.1; buffer = e.retained.buffer; layers = e.layers; handles = map handle_kept e.retained.live; released = map operation_kept e.retained.released; watches = e.watches } };

    ghost use Rattle.line_engine.specs.Operations.{HoldPlans};
    ghost use Rattle.store_retain.specs.Kept.{all_held};

    ghost invariant = { λ e. HoldPlans e.project.0 e.project.1 (all_held e.retained) };
}

impl<S: RecordSource> LineEngine<S> {
    /// An engine over an accepted project and a map without records, that has answered no line and
    /// keeps at most `buffer` released operations: 1 to 100.
    pub fn new(
        alloc: Global,
        project: Project,
        buffer: u64,
        source: S,
    ) -> Result<LineEngine<S>, NoMemory>
        requires least { 1 ≤ buffer }
        requires most { buffer ≤ 100 }
        requires empty { S.records source ≡ no_records }
        ensures begun { IfOk result (λ engine. engine ≡ begun project buffer) }
        ensures stands { IfOk result (λ engine. StandsFor engine (project_shown project) machine.beginning) }
    {
        LineEngine::over(alloc, project, buffer, source)
    }

    /// The same, of which is said what is kept alone.
    fn over(
        alloc: Global,
        project: Project,
        buffer: u64,
        source: S,
    ) -> Result<LineEngine<S>, NoMemory>
        requires least { 1 ≤ buffer }
        requires most { buffer ≤ 100 }
        requires empty { S.records source ≡ no_records }
        ensures { IfOk result (λ engine. engine ≡ begun project buffer) }
    {
        let layers = Layers::new(alloc, source)?;
        let reader = LineReader::new(alloc)?;
        let retained = Retained::new(alloc, buffer)?;
        Ok(LineEngine {
            alloc,
            project,
            layers,
            retained,
            watches: Watches::new(alloc),
            reader,
        })
    }

    /// Law: the schema and the documents are those of an accepted project.
    pub fn is_accepted(&self)
        ensures { IsAcceptedProject self.now.defs self.now.documents }
    {
        self.project.is_accepted();
    }

    /// Answers the line with the number `n`, which is given without its line end. What is looked at of
    /// a line of more than 8 MiB is that it is too long.
    pub fn step(&mut self, line: &[u8], n: u64, steps: &mut S::Count) -> Result<Lines, NoMemory>
        ensures step { IfOk result (λ lines. HasStepped self.old self.new lines (λ p s. machine.step p self.old.buffer s n line.now)) }
        ensures buffer { self.new.buffer ≡ self.old.buffer }
        ensures refused { IfOk result (λ lines. lines.refused ≡ true → self.new ≡ self.old) }
        ensures err { OnErr result (self.new ≡ self.old) }
        ensures applies { S.Count.applies steps.new ≤ S.Count.applies steps.old + (length self.old.layers.live + 1) }
        ensures exact { IfOk result (λ lines. AppliesAbove self.old (events.line_of line.now) lines.refused (S.Count.applies steps.old) (S.Count.applies steps.new)) }
        ensures looks { IsWithinWork self.old n (events.line_of line.now) (S.Count.looks steps.old) (S.Count.looks steps.new) }
        ensures lines { IfOk result (λ lines. HasPrinted self.old lines (λ p s. machine.step p self.old.buffer s n line.now)) }
        ensures named { IfOk result (λ lines. StaysNamed self.old self.new n line.now) }
        ensures keys { IfOk result (λ lines. HasHandleKeys self.old (events.line_of line.now)) }
    {
        self.watches.refresh()?;
        self.step_line(line, n, steps)
    }

    /// The same, where the watches are prepared.
    fn step_line(&mut self, line: &[u8], n: u64, steps: &mut S::Count) -> Result<Lines, NoMemory>
        ensures step { IfOk result (λ lines. HasStepped self.old self.new lines (λ p s. machine.step p self.old.buffer s n line.now)) }
        ensures spares { Spares self.old self.new result }
        ensures keys { IfOk result (λ lines. HasHandleKeys self.old (events.line_of line.now)) }
        ensures applies { S.Count.applies steps.new ≤ S.Count.applies steps.old + (length self.old.layers.live + 1) }
        ensures exact { IfOk result (λ lines. AppliesAbove self.old (events.line_of line.now) lines.refused (S.Count.applies steps.old) (S.Count.applies steps.new)) }
        ensures looks { IsWithinWork self.old n (events.line_of line.now) (S.Count.looks steps.old) (S.Count.looks steps.new) }
    {
        match self.reader.read(line) {
            Ok(event) => self.step_event(event, n, steps),
            Err(fault) => refuse_fault(self.alloc, fault, n),
        }
    }

    /// Answers a line that is this event.
    fn step_event(&mut self, event: Event, n: u64, steps: &mut S::Count) -> Result<Lines, NoMemory>
        ensures step { IfOk result (λ lines. HasStepped self.old self.new lines (λ p s. machine.step_event p self.old.buffer s n (event_seen event))) }
        ensures spares { Spares self.old self.new result }
        ensures keys { IfOk result (λ lines. HasHandleKeys self.old (events.event (event_seen event))) }
        ensures applies { S.Count.applies steps.new ≤ S.Count.applies steps.old + (length self.old.layers.live + 1) }
        ensures exact { IfOk result (λ lines. AppliesAbove self.old (events.event (event_seen event)) lines.refused (S.Count.applies steps.old) (S.Count.applies steps.new)) }
        ensures looks { IsWithinWork self.old n (events.event (event_seen event)) (S.Count.looks steps.old) (S.Count.looks steps.new) }
    {
        match event {
            Event::Retain { handle, op, vars } => self.retain(&handle, &op, &vars, n),
            Event::Release { handle } => self.release(&handle, n),
            Event::Payload { answer, updates } => {
                self.confirm("payload", &Some(answer), updates, n, steps)
            }
            Event::Update { updates } => self.confirm("update", &None, updates, n, steps),
            Event::Begin {
                layer,
                answer,
                updates,
            } => self.begin(layer, &answer, updates, n, steps),
            Event::Finish {
                layer,
                answer,
                updates,
            } => self.finish(&layer, &answer, updates, n, steps),
            Event::Revert { layer } => self.revert(&layer, n, steps),
            Event::Read { target } => self.read(&target, n, steps),
            Event::Watch { watch, target } => self.watch(watch, &target, n, steps),
            Event::Unwatch { watch } => self.unwatch(&watch, n),
            Event::Collect => self.collect(n, steps),
        }
    }
}
