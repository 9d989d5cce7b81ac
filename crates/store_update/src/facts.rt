//! Facts that are put into a record map.
ghost use Rattle.std.specs.Prelude.{◌≡◌, ◌+◌, ◌≤◌, [], ◌∷◌, ◌++◌, map, true, length, IfOk};
ghost use Rattle.std.specs.List.{list_all};
ghost use Rattle.store_conn.specs.store_model.FactRows as rows_spec;
ghost use Rattle.store_conn.specs.store_model.Updates as updates;
ghost use Rattle.store_conn.specs.store_model.declared.facts.FactRow.{FactRow};
ghost use Rattle.store_update.specs.Touched.{AreNoted, ArePicked};
ghost use Rattle.store_update.specs.Turns.{AreOf, goes_on, last_id};

use crate::draft::{Draft, change_slot};
use crate::row::slot_by_row;
use crate::run::slot_by_run;
use crate::slot::new_slot_of;
use std::alloc::Global;
use store_conn::gql_plain::NoMemory;
use store_conn::store_model::{Command, FactRow};
use store_conn::store_source::RecordSource;

/// The map with rows put into it, one after another, and after commands on the id of the last; takes one look and at
/// most one new record a row.
pub(crate) fn put_facts<S: RecordSource>(
    alloc: Global,
    draft: Draft<S>,
    rows: &[FactRow],
    commands: &[Command],
    steps: &mut S::Count,
) -> Result<Draft<S>, NoMemory>
    requires { list_all (goes_on (last_id rows.now)) commands.now ≡ true }
    ensures records { IfOk result (λ d. S.records d.source ≡ updates.act_all commands.now (rows_spec.put_rows rows.now (S.records draft.source))) }
    ensures noted { IfOk result (λ d. AreNoted (S.records draft.source) (S.records d.source) draft.noted.items d.noted.items) }
    ensures picked { IfOk result (λ d. ArePicked (map (λ (r : FactRow). r.id) rows.now) draft.noted.items d.noted.items) }
    ensures looks { S.Count.looks steps.new ≤ S.Count.looks steps.old + length rows.now }
    ensures applies { S.Count.applies steps.new ≡ S.Count.applies steps.old }
{
    match rows.split_last() {
        Some((last, before)) => put_both(alloc, draft, before, last, commands, steps),
        None => Ok(draft),
    }
}

/// The map with rows put into it, and then one more row and commands on its id.
fn put_both<S: RecordSource>(
    alloc: Global,
    draft: Draft<S>,
    before: &[FactRow],
    last: &FactRow,
    commands: &[Command],
    steps: &mut S::Count,
) -> Result<Draft<S>, NoMemory>
    requires { AreOf last.now.id commands.now }
    ensures records { IfOk result (λ d. S.records d.source ≡ updates.act_all commands.now (rows_spec.with_row last.now (rows_spec.put_rows before.now (S.records draft.source)))) }
    ensures noted { IfOk result (λ d. AreNoted (S.records draft.source) (S.records d.source) draft.noted.items d.noted.items) }
    ensures picked { IfOk result (λ d. ArePicked (map (λ (r : FactRow). r.id) (before.now ++ last.now ∷ [])) draft.noted.items d.noted.items) }
    ensures looks { S.Count.looks steps.new ≤ S.Count.looks steps.old + (length before.now + 1) }
    ensures applies { S.Count.applies steps.new ≡ S.Count.applies steps.old }
{
    let put = put_rows(alloc, draft, before, steps)?;
    let after = put_row(alloc, put, last, commands, steps)?;
    Ok(after)
}

/// The map with rows put into it, one after another.
fn put_rows<S: RecordSource>(
    alloc: Global,
    draft: Draft<S>,
    rows: &[FactRow],
    steps: &mut S::Count,
) -> Result<Draft<S>, NoMemory>
    ensures records { IfOk result (λ d. S.records d.source ≡ rows_spec.put_rows rows.now (S.records draft.source)) }
    ensures noted { IfOk result (λ d. AreNoted (S.records draft.source) (S.records d.source) draft.noted.items d.noted.items) }
    ensures picked { IfOk result (λ d. ArePicked (map (λ (r : FactRow). r.id) rows.now) draft.noted.items d.noted.items) }
    ensures looks { S.Count.looks steps.new ≤ S.Count.looks steps.old + length rows.now }
    ensures applies { S.Count.applies steps.new ≡ S.Count.applies steps.old }
{
    let mut current = draft;
    'rows: for row in rows {
        current = put_row(alloc, current, row, &[], steps)?;
    }
    Ok(current)
}

/// The map with a row put into it, and after commands on its id; takes one look.
fn put_row<S: RecordSource>(
    alloc: Global,
    draft: Draft<S>,
    row: &FactRow,
    commands: &[Command],
    steps: &mut S::Count,
) -> Result<Draft<S>, NoMemory>
    requires { AreOf row.now.id commands.now }
    ensures records { IfOk result (λ d. S.records d.source ≡ updates.act_all commands.now (rows_spec.with_row row.now (S.records draft.source))) }
    ensures noted { IfOk result (λ d. AreNoted (S.records draft.source) (S.records d.source) draft.noted.items d.noted.items) }
    ensures picked { IfOk result (λ d. ArePicked (row.now.id ∷ []) draft.noted.items d.noted.items) }
    ensures looks { S.Count.looks steps.new ≤ S.Count.looks steps.old + 1 }
    ensures applies { S.Count.applies steps.new ≡ S.Count.applies steps.old }
{
    let found = draft.source.get(row.id.as_str(), steps);
    let put = slot_by_row(alloc, found, row)?;
    let made = slot_by_run(alloc, found, put, commands)?;
    let change = new_slot_of(found, made);
    let after = change_slot(draft, &row.id, change, steps)?;
    Ok(after)
}
