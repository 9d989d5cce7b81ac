//! Commands that act on a record map.
ghost use Rattle.std.specs.Prelude.{◌≡◌, ◌+◌, ◌*◌, ◌≤◌, [], ◌∷◌, map, length, true, false, IfOk};
ghost use Rattle.std.specs.List.{list_all};
ghost use Rattle.store_conn.specs.store_model.Entries as entries;
ghost use Rattle.store_conn.specs.store_model.Updates as updates;
ghost use Rattle.store_update.specs.Slots.{id_of};
ghost use Rattle.store_update.specs.Touched.{AreNoted, ArePicked, most};
ghost use Rattle.store_update.specs.Turns.{AreOf, is_of_record, turns};

use crate::command::{id_of, slot_by_command};
use crate::draft::{Draft, change_slot, put_changes};
use crate::run::{run_behind, slot_by_run};
use crate::slot::new_slot_of;
use std::alloc::Global;
use store_conn::gql_plain::NoMemory;
use store_conn::store_model::{Command, EdgeEdit};
use store_conn::store_source::RecordSource;
use store_conn::{changes_of_deletion, changes_of_insertion};

/// The map after commands, one after another. Those of records that name one id in a row take one look and at most
/// one new record.
pub(crate) fn act_all<S: RecordSource>(
    alloc: Global,
    draft: Draft<S>,
    commands: &[Command],
    steps: &mut S::Count,
) -> Result<Draft<S>, NoMemory>
    ensures records { IfOk result (λ d. S.records d.source ≡ updates.act_all commands.now (S.records draft.source)) }
    ensures noted { IfOk result (λ d. AreNoted (S.records draft.source) (S.records d.source) draft.noted.items d.noted.items) }
    ensures few { IfOk result (λ d. length d.noted.items ≤ length draft.noted.items + 4 * entries.weights (entries.asked_by_commands commands.now (S.records draft.source))) }
    ensures picked { IfOk result (λ d. list_all is_of_record commands.now ≡ true → ArePicked (turns (map id_of commands.now)) draft.noted.items d.noted.items) }
    ensures looks { S.Count.looks steps.new ≤ S.Count.looks steps.old + 4 * entries.weights (entries.asked_by_commands commands.now (S.records draft.source)) }
    ensures turns { list_all is_of_record commands.now ≡ true → S.Count.looks steps.new ≤ S.Count.looks steps.old + length (turns (map id_of commands.now)) }
    ensures applies { S.Count.applies steps.new ≡ S.Count.applies steps.old }
{
    let mut current = draft;
    let mut rest = commands;
    'runs: while let Some((first, later)) = rest.split_first() {
        let (behind, after) = later.split_at(run_behind(first, later));
        current = act_run(alloc, current, first, behind, steps)?;
        rest = after;
    }
    Ok(current)
}

/// The map after a command and those behind it, which are of the same record; none is behind one of edges.
fn act_run<S: RecordSource>(
    alloc: Global,
    draft: Draft<S>,
    first: &Command,
    behind: &[Command],
    steps: &mut S::Count,
) -> Result<Draft<S>, NoMemory>
    requires run { AreOf (id_of first.now) behind.now }
    requires alone { is_of_record first.now ≡ false → behind.now ≡ [] }
    ensures records { IfOk result (λ d. S.records d.source ≡ updates.act_all (first.now ∷ behind.now) (S.records draft.source)) }
    ensures noted { IfOk result (λ d. AreNoted (S.records draft.source) (S.records d.source) draft.noted.items d.noted.items) }
    ensures few { IfOk result (λ d. length d.noted.items ≤ length draft.noted.items + 4 * entries.weights (entries.asked_by_commands (first.now ∷ behind.now) (S.records draft.source))) }
    ensures picked { IfOk result (λ d. is_of_record first.now ≡ true → ArePicked (id_of first.now ∷ []) draft.noted.items d.noted.items) }
    ensures looks { S.Count.looks steps.new ≤ S.Count.looks steps.old + 4 * entries.weights (entries.asked_by_commands (first.now ∷ behind.now) (S.records draft.source)) }
    ensures turn { is_of_record first.now ≡ true → S.Count.looks steps.new ≤ S.Count.looks steps.old + 1 }
    ensures applies { S.Count.applies steps.new ≡ S.Count.applies steps.old }
{
    match first {
        Command::AppendNode(edit) => put_edge(draft, edit, false, steps),
        Command::PrependNode(edit) => put_edge(draft, edit, true, steps),
        Command::DeleteEdge(edit) => remove_edge(draft, edit, steps),
        Command::Set { .. } => act_on_record(alloc, draft, first, behind, steps),
        Command::Add { .. } => act_on_record(alloc, draft, first, behind, steps),
        Command::Link { .. } => act_on_record(alloc, draft, first, behind, steps),
        Command::Links { .. } => act_on_record(alloc, draft, first, behind, steps),
        Command::Create { .. } => act_on_record(alloc, draft, first, behind, steps),
        Command::Delete { .. } => act_on_record(alloc, draft, first, behind, steps),
    }
}

/// The map after commands that change one record alone; takes one look.
fn act_on_record<S: RecordSource>(
    alloc: Global,
    draft: Draft<S>,
    first: &Command,
    behind: &[Command],
    steps: &mut S::Count,
) -> Result<Draft<S>, NoMemory>
    requires record { is_of_record first.now ≡ true }
    requires run { AreOf (id_of first.now) behind.now }
    ensures records { IfOk result (λ d. S.records d.source ≡ updates.act_all (first.now ∷ behind.now) (S.records draft.source)) }
    ensures noted { IfOk result (λ d. AreNoted (S.records draft.source) (S.records d.source) draft.noted.items d.noted.items) }
    ensures few { IfOk result (λ d. length d.noted.items ≤ length draft.noted.items + 1) }
    ensures picked { IfOk result (λ d. ArePicked (id_of first.now ∷ []) draft.noted.items d.noted.items) }
    ensures looks { S.Count.looks steps.new ≤ S.Count.looks steps.old + 1 }
    ensures applies { S.Count.applies steps.new ≡ S.Count.applies steps.old }
{
    let id = id_of(first);
    let found = draft.source.get(id.as_str(), steps);
    let begun = slot_by_command(alloc, found, first)?;
    let made = slot_by_run(alloc, found, begun, behind)?;
    let change = new_slot_of(found, made);
    let after = change_slot(draft, id, change, steps)?;
    Ok(after)
}

/// The map with an edge put first or last into the connection that an edit names, unless some edge
/// there has its node.
fn put_edge<S: RecordSource>(
    draft: Draft<S>,
    edit: &EdgeEdit,
    front: bool,
    steps: &mut S::Count,
) -> Result<Draft<S>, NoMemory>
    ensures records { IfOk result (λ d. S.records d.source ≡ updates.insert_edge front edit.now (S.records draft.source)) }
    ensures noted { IfOk result (λ d. AreNoted (S.records draft.source) (S.records d.source) draft.noted.items d.noted.items) }
    ensures few { IfOk result (λ d. length d.noted.items ≤ length draft.noted.items + most (entries.asked_by_edit edit.now (S.records draft.source))) }
    ensures looks { S.Count.looks steps.new ≤ S.Count.looks steps.old + most (entries.asked_by_edit edit.now (S.records draft.source)) }
    ensures applies { S.Count.applies steps.new ≡ S.Count.applies steps.old }
{
    let changes = changes_of_insertion(&draft.source, edit, front, steps)?;
    let after = put_changes(draft, changes, steps)?;
    Ok(after)
}

/// The map with every edge of a node taken out of the connection that an edit names.
fn remove_edge<S: RecordSource>(
    draft: Draft<S>,
    edit: &EdgeEdit,
    steps: &mut S::Count,
) -> Result<Draft<S>, NoMemory>
    ensures records { IfOk result (λ d. S.records d.source ≡ updates.delete_edge edit.now (S.records draft.source)) }
    ensures noted { IfOk result (λ d. AreNoted (S.records draft.source) (S.records d.source) draft.noted.items d.noted.items) }
    ensures few { IfOk result (λ d. length d.noted.items ≤ length draft.noted.items + most (entries.asked_by_edit edit.now (S.records draft.source))) }
    ensures looks { S.Count.looks steps.new ≤ S.Count.looks steps.old + most (entries.asked_by_edit edit.now (S.records draft.source)) }
    ensures applies { S.Count.applies steps.new ≡ S.Count.applies steps.old }
{
    let changes = changes_of_deletion(&draft.source, edit, steps)?;
    let after = put_changes(draft, changes, steps)?;
    Ok(after)
}
