//! Changes of the records, and the notices that follow an answer.
ghost use Rattle.std.specs.Prelude.{◌≡◌, ◌+◌, ◌≤◌, length, IfOk, OnErr};
ghost use Rattle.line_engine.specs.Notices.{HasAnswered};
ghost use Rattle.line_engine.specs.Stands.{StandsFor};
ghost use Rattle.line_engine.specs.Steps.{IsStep};
ghost use Rattle.relay_machine.specs.Machine as machine;
ghost use Rattle.store_layers.specs.Drafts.{Fits, placed};
ghost use Rattle.store_layers.specs.Layered.{view_of};
ghost use Rattle.store_watch.specs.store_read.Reading.{slots};
ghost use Rattle.store_watch.specs.Watching.{DifferAt, work};

use crate::engine::LineEngine;
use crate::lines::Lines;
use crate::telling::with_notices;
use plan_ir::NoMemory;
use store_layers::Draft;
use store_retain::RecordSource;

impl<S: RecordSource> LineEngine<S> {
    /// Settles a change of the layers. Each watch that saw one of the touched ids is read again, and
    /// those whose data or missing mark differs are told of after the answer.
    pub(crate) fn change(
        &mut self,
        draft: Draft<S>,
        answer: Lines,
        n: u64,
        steps: &mut S::Count,
    ) -> Result<Lines, NoMemory>
        requires fits { Fits S.records self.old.layers draft }
        ensures step { IfOk result (λ lines. (p : machine.Project) (s : machine.State) (step : machine.Step) → StandsFor self.old p s
            → DifferAt draft.touched (slots (view_of self.old.layers)) (slots (view_of (placed S.records self.old.layers draft)))
            → HasAnswered self.old (placed S.records self.old.layers draft) p s step answer
            → IsStep p (machine.noticed p n (length s.watches) step) lines self.new) }
        ensures buffer { self.new.buffer ≡ self.old.buffer }
        ensures refused { IfOk result (λ lines. lines.refused ≡ answer.refused) }
        ensures err { OnErr result (self.new ≡ self.old) }
        ensures applies { S.Count.applies steps.new ≡ S.Count.applies steps.old }
        ensures looks { S.Count.looks steps.new ≤ S.Count.looks steps.old + work (slots (view_of (placed S.records self.old.layers draft))) draft.touched self.old.watches }
    {
        let notices = self.watches.notify(&draft.view, &draft.touched, steps)?;
        let lines = with_notices(self.alloc, answer, &self.watches, &notices, n)?;
        self.layers.settle(draft)?;
        self.watches.accept(notices);
        Ok(lines)
    }
}
