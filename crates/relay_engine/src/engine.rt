//! The engine.
ghost use Rattle.std.specs.Prelude.{◌≡◌, ◌+◌, ◌≤◌, true, length, IfOk, OnErr};
ghost use Rattle.line_engine.specs.Kept.{begun};
ghost use Rattle.line_engine.specs.Named.{StaysNamed};
ghost use Rattle.line_engine.specs.Parts.{project_shown};
ghost use Rattle.line_engine.specs.Stands.{StandsFor};
ghost use Rattle.line_engine.specs.Steps.{HasPrinted, HasStepped};
ghost use Rattle.line_engine.specs.Work.{AppliesAbove, IsWithinWork};
ghost use Rattle.line_engine.specs.relay_machine.Machine as machine;
ghost use Rattle.plan_ir.specs.store_model.Events as events;
ghost use Rattle.plan_ir.specs.store_model.Records.{no_records};
ghost use Rattle.relay_engine.specs.LaterLines.{KeepsLaterLines};
ghost use Rattle.relay_engine.specs.RetainedReads.{KeepsLayeredReads, KeepsRetainedReads};

use line_engine::{LineEngine, Lines, Project, RecordSource};
use plan_ir::NoMemory;
use std::alloc::Global;
use std::marker::Model;

/// An engine that answers lines, with the theorems of later lines and of retained reads at each step.
/// Contracts see it as what that engine keeps.
#[derive(Drop)]
pub struct Engine<S: RecordSource> {
    lines: LineEngine<S>,
}

impl<S: RecordSource> Model for Engine<S> {
    ghost use Rattle.line_engine.specs.Kept.{Kept};
    ghost use Rattle.line_engine.specs.KeptCode.{kept_code};

    ghost Value = { Kept };

    ghost coded = { kept_code };

    ghost view = { λ e. e.lines };
}

impl<S: RecordSource> Engine<S> {
    /// An engine over an accepted project and a map without records, that has answered no line and
    /// keeps at most `buffer` released operations: 1 to 100.
    pub fn new(
        alloc: Global,
        project: Project,
        buffer: u64,
        source: S,
    ) -> Result<Engine<S>, NoMemory>
        requires least { 1 ≤ buffer }
        requires most { buffer ≤ 100 }
        requires empty { S.records source ≡ no_records }
        ensures begun { IfOk result (λ engine. engine ≡ begun project buffer) }
        ensures stands { IfOk result (λ engine. StandsFor engine (project_shown project) machine.beginning) }
    {
        let lines = LineEngine::new(alloc, project, buffer, source)?;
        Ok(Engine { lines })
    }

    /// Answers the line with the number `n`, which is given without its line end. What is looked at of
    /// a line of more than 8 MiB is that it is too long.
    pub fn step(&mut self, line: &[u8], n: u64, steps: &mut S::Count) -> Result<Lines, NoMemory>
        ensures step { IfOk result (λ lines. HasStepped self.old self.new lines (λ p s. machine.step p self.old.buffer s n line.now)) }
        ensures buffer { self.new.buffer ≡ self.old.buffer }
        ensures refused { IfOk result (λ lines. lines.refused ≡ true → self.new ≡ self.old) }
        ensures err { OnErr result (self.new ≡ self.old) }
        ensures applies { S.Count.applies steps.new ≤ S.Count.applies steps.old + (length self.old.layers.live + 1) }
        ensures exact { IfOk result (λ lines. AppliesAbove self.old (events.line_of line.now) lines.refused (S.Count.applies steps.old) (S.Count.applies steps.new)) }
        ensures looks { IsWithinWork self.old n (events.line_of line.now) (S.Count.looks steps.old) (S.Count.looks steps.new) }
        ensures lines { IfOk result (λ lines. HasPrinted self.old lines (λ p s. machine.step p self.old.buffer s n line.now)) }
        ensures named { IfOk result (λ lines. StaysNamed self.old self.new n line.now) }
        ensures later { IfOk result (λ lines. KeepsLaterLines self.old self.new n (events.line_of line.now) lines) }
        ensures retained { IfOk result (λ lines. KeepsRetainedReads self.old self.new (events.line_of line.now)) }
        ensures layered { IfOk result (λ lines. KeepsLayeredReads self.old self.new (events.line_of line.now)) }
    {
        self.lines.is_accepted();
        self.lines.step(line, n, steps)
    }
}
