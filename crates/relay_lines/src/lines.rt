//! The printed lines.
ghost use Rattle.std.specs.Prelude.{◌≡◌, ◌≤◌, ◌+◌, ◌++◌, ◌∷◌, [], IfOk};
ghost use Rattle.plan_ir.specs.gql_plain.Tree.{text};
ghost use Rattle.plan_ir.specs.ReaderMeaning.{plan_reads};
ghost use Rattle.store_show.specs.plan_order.Ordered.{IsOrdered};
ghost use Rattle.relay_lines.specs.Members.{ordered_line, shown_members};
ghost use Rattle.relay_lines.specs.RefusalShown.{refusal_shown};
ghost use Rattle.relay_machine.specs.Printed as model;
ghost use Rattle.plan_ir.specs.store_model.Walks.{reading, standings, type_of_record};
ghost use Rattle.store_show.specs.store_read.Reading.{reading_of, slots};

use crate::line_writer::LineWriter;
use crate::refusal::Refusal;
use crate::refused::{bare_line, limit_line, named_line, payload_line, variable_line};
use plan_ir::{Env, Id, Ids, NoMemory, ReaderPlan, Words};
use std::alloc::Global;
use store_show::{RecordSource, Snapshot};

/// The answer of an event that shows nothing: the event's name, and the number of the line.
pub fn event_line(alloc: Global, name: &str, n: u64) -> Result<Words, NoMemory>
    ensures { IfOk result (λ words. words ++ 10 ∷ [] ≡ model.event_line name.now n) }
{
    let mut line = LineWriter::new(alloc)?;
    line.put_number("n", n)?;
    line.put_text("ok", name)?;
    line.finish()
}

/// The answer of a read: its data, whether something was missing, the number of the line, and the ids
/// at which the read stood.
pub fn read_line(alloc: Global, snapshot: &Snapshot, n: u64) -> Result<Words, NoMemory>
    ensures { IfOk result (λ words. words ++ 10 ∷ [] ≡ model.read_line n (reading_of snapshot.now)) }
{
    shown_line(alloc, "ok", "read", snapshot, n)
}

/// The answer of a read by a plan that is in order, whose data is written as it is read; `owner` is the
/// name that its pointers tell of their owner.
pub fn line_of_read<S: RecordSource>(
    alloc: Global,
    source: &S,
    plan: &ReaderPlan,
    types: &Ids,
    env: &Env,
    id: &Id,
    owner: &Words,
    n: u64,
    steps: &mut S::Count,
) -> Result<Words, NoMemory>
    requires { IsOrdered plan.now.steps }
    ensures line { IfOk result (λ words. words ++ 10 ∷ [] ≡ model.read_line n (reading (plan_reads (type_of_record env.now.root) owner.now (slots (S.records source.now)) env.now.values plan.now.steps types.now id.now))) }
    ensures looks { S.Count.looks steps.new ≤ S.Count.looks steps.old + standings (plan_reads (type_of_record env.now.root) owner.now (slots (S.records source.now)) env.now.values plan.now.steps types.now id.now) }
    ensures applies { S.Count.applies steps.new ≡ S.Count.applies steps.old }
{
    let mut line = LineWriter::new(alloc)?;
    let met = line.put_read(alloc, "data", source, plan, types, env, id, owner, steps)?;
    line.put_truth("missing", met.missing)?;
    line.put_number("n", n)?;
    line.put_text("ok", "read")?;
    line.put_borrowed("seen", &met.ids)?;
    line.finish()
}

/// The answer of a watch that starts: what it shows at first, as the answer of a read has it.
pub fn watch_line(alloc: Global, snapshot: &Snapshot, n: u64) -> Result<Words, NoMemory>
    ensures { IfOk result (λ words. words ++ 10 ∷ [] ≡ model.watch_line n (reading_of snapshot.now)) }
{
    shown_line(alloc, "ok", "watch", snapshot, n)
}

/// The notice of a watch: what it shows from the line of this number on, and its name.
pub fn notice_line(
    alloc: Global,
    name: &str,
    snapshot: &Snapshot,
    n: u64,
) -> Result<Words, NoMemory>
    ensures { IfOk result (λ words. words ++ 10 ∷ [] ≡ model.notice_line n name.now (reading_of snapshot.now)) }
{
    shown_line(alloc, "notice", name, snapshot, n)
}

/// The line of a snapshot. One key says of which event or watch it is, and stands between `n` and
/// `seen`.
fn shown_line(
    alloc: Global,
    key: &str,
    name: &str,
    snapshot: &Snapshot,
    n: u64,
) -> Result<Words, NoMemory>
    ensures { IfOk result (λ words. words ++ 10 ∷ []
        ≡ ordered_line (shown_members n (key.now, text name.now) (reading_of snapshot.now))) }
{
    let mut line = LineWriter::new(alloc)?;
    line.put_plain("data", &snapshot.shown)?;
    line.put_truth("missing", snapshot.missing)?;
    line.put_number("n", n)?;
    line.put_text(key, name)?;
    line.put_texts("seen", &snapshot.seen)?;
    line.finish()
}

/// The answer of a sweep: how many ids were dropped, the number of the line, and that the sweep does
/// not wait.
pub fn collect_line(alloc: Global, dropped: u64, n: u64) -> Result<Words, NoMemory>
    ensures { IfOk result (λ words. words ++ 10 ∷ [] ≡ model.collect_line n dropped) }
{
    let mut line = LineWriter::new(alloc)?;
    line.put_number("dropped", dropped)?;
    line.put_number("n", n)?;
    line.put_text("ok", "collect")?;
    line.put_truth("waiting", false)?;
    line.finish()
}

/// The line of a refusal: its code and name, the number of the line, and its further keys.
pub fn refusal_line(alloc: Global, refusal: Refusal<'_>, n: u64) -> Result<Words, NoMemory>
    ensures { IfOk result (λ words. words ++ 10 ∷ [] ≡ model.refusal_line n (refusal_shown refusal.entry)) }
{
    match refusal {
        Refusal::NotJson => bare_line(alloc, refusal, n),
        Refusal::EventShape => bare_line(alloc, refusal, n),
        Refusal::UpdateShape => bare_line(alloc, refusal, n),
        Refusal::LineTooLong => bare_line(alloc, refusal, n),
        Refusal::UnknownOperation(name) => named_line(alloc, refusal, n, name),
        Refusal::UnknownFragment(name) => named_line(alloc, refusal, n, name),
        Refusal::UnknownHandle(name) => named_line(alloc, refusal, n, name),
        Refusal::HandleTaken(name) => named_line(alloc, refusal, n, name),
        Refusal::HandleInUse(name) => named_line(alloc, refusal, n, name),
        Refusal::UnknownLayer(name) => named_line(alloc, refusal, n, name),
        Refusal::LayerTaken(name) => named_line(alloc, refusal, n, name),
        Refusal::UnknownWatch(name) => named_line(alloc, refusal, n, name),
        Refusal::WatchTaken(name) => named_line(alloc, refusal, n, name),
        Refusal::UnknownType(name) => named_line(alloc, refusal, n, name),
        Refusal::MissingVariable(name) => variable_line(alloc, refusal, n, "Missing", name),
        Refusal::UnfitVariable(name) => variable_line(alloc, refusal, n, "Unfit", name),
        Refusal::Payload(fault) => payload_line(alloc, refusal, n, fault),
        Refusal::TooMany(what) => limit_line(alloc, refusal, n, what),
    }
}

/// The line of a project that is refused: the file at fault with the line and the column, from 1, and
/// the rule.
pub fn fault_line(
    alloc: Global,
    file: &str,
    line: u32,
    column: u32,
    rule: &str,
) -> Result<Words, NoMemory>
    ensures { IfOk result (λ words. words ++ 10 ∷ [] ≡ model.project_fault file.now line column rule.now) }
{
    let mut fault = LineWriter::new(alloc)?;
    fault.put_number("column", column as u64)?;
    fault.put_text("file", file)?;
    fault.put_number("line", line as u64)?;
    fault.put_text("rule", rule)?;
    fault.finish()
}
