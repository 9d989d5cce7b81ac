//! What lines are answered.
ghost use Rattle.std.specs.Prelude.{◌≡◌, ◌++◌, [], ◌∷◌, true, false, IfOk};
ghost use Rattle.line_engine.specs.Answered.{AreLines, IsFaultOf, IsOfNoSweep, IsRefusalOf};
ghost use Rattle.line_engine.specs.Steps.{IsOneLine};
ghost use Rattle.relay_lines.specs.RefusalShown.{refusal_shown};
ghost use Rattle.relay_machine.specs.Printed as model;
ghost use Rattle.store_watch.specs.store_read.Reading.{reading_of};

use crate::lines::Lines;
use event_script::LineFault;
use plan_ir::{NoMemory, Words};
use relay_lines::{Refusal, collect_line, event_line, refusal_line, watch_line};
use schema_values::VarFault;
use std::alloc::Global;
use store_watch::Snapshot;

/// The answer of an event that shows nothing, where it is taken.
pub(crate) fn accept(alloc: Global, event: &str, n: u64) -> Result<Lines, NoMemory>
    ensures { IfOk result (AreLines (model.event_line event.now n) false) }
{
    let text = event_line(alloc, event, n)?;
    one_line(alloc, text, false)
}

/// The answer of a watch that starts.
pub(crate) fn show_watch(alloc: Global, snapshot: &Snapshot, n: u64) -> Result<Lines, NoMemory>
    ensures { IfOk result (AreLines (model.watch_line n (reading_of snapshot.now)) false) }
{
    let text = watch_line(alloc, snapshot, n)?;
    one_line(alloc, text, false)
}

/// The answer of a sweep: how many ids were dropped.
pub(crate) fn collected(alloc: Global, dropped: u64, n: u64) -> Result<Lines, NoMemory>
    ensures { IfOk result (AreLines (model.collect_line n dropped) false) }
{
    let text = collect_line(alloc, dropped, n)?;
    one_line(alloc, text, false)
}

/// The answer of a line that is refused.
pub(crate) fn refuse(alloc: Global, why: Refusal<'_>, n: u64) -> Result<Lines, NoMemory>
    ensures { IfOk result (AreLines (model.refusal_line n (refusal_shown why.entry)) true) }
{
    let text = refusal_line(alloc, why, n)?;
    one_line(alloc, text, true)
}

/// The answer of a line that is refused because values of variables are lacking or do not fit.
pub(crate) fn refuse_variables(alloc: Global, fault: VarFault, n: u64) -> Result<Lines, NoMemory>
    ensures { IfOk result (IsRefusalOf n fault) }
{
    match fault {
        VarFault::Missing(name) => { refuse(alloc, Refusal::MissingVariable(name.as_str()), n) }
        VarFault::Unfit(name) => refuse(alloc, Refusal::UnfitVariable(name.as_str()), n),
        VarFault::NoMemory => Err(NoMemory),
    }
}

/// The answer of a line that gives no event.
pub(crate) fn refuse_fault(alloc: Global, fault: LineFault, n: u64) -> Result<Lines, NoMemory>
    ensures fault { IfOk result (IsFaultOf n fault) }
    ensures refused { IfOk result (λ lines. lines.refused ≡ true) }
    ensures quiet { IfOk result (λ lines. IsOfNoSweep fault) }
{
    match fault {
        LineFault::NotJson => refuse(alloc, Refusal::NotJson, n),
        LineFault::EventShape => refuse(alloc, Refusal::EventShape, n),
        LineFault::UpdateShape => refuse(alloc, Refusal::UpdateShape, n),
        LineFault::LineTooLong => refuse(alloc, Refusal::LineTooLong, n),
        LineFault::NoMemory => Err(NoMemory),
    }
}

/// An answer of one text, which is one line.
pub(crate) fn one_line(alloc: Global, text: Words, refused: bool) -> Result<Lines, NoMemory>
    requires { IsOneLine text }
    ensures { IfOk result (AreLines (text ++ 10 ∷ []) refused) }
{
    let mut texts = Vec::new(alloc);
    texts.push(text)?;
    Ok(Lines { refused, texts })
}
