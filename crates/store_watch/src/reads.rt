//! Reading watches again.
ghost use Rattle.std.specs.Prelude.{◌≡◌, ◌+◌, ◌≤◌, ◌++◌, IfOk, OnOk};
ghost use Rattle.plan_ir.specs.store_model.Walks.{standings};
ghost use Rattle.store_read.specs.Reading.{slots};
ghost use Rattle.store_watch.specs.Reads.{telling_at, told_at, told_of, work_at, work_of};
ghost use Rattle.store_watch.specs.Rows.{look_of, telling_of, tellings_of};
ghost use Rattle.store_watch.specs.Watching.{read_of};

use crate::notices::Notice;
use crate::rows::{Row, differs, row_at};
use plan_ir::NoMemory;
use std::alloc::Global;
use store_read::{RecordSource, read};

/// The notices of the rows at places.
pub(crate) fn read_rows<S: RecordSource>(
    alloc: Global,
    rows: &[Row],
    places: &[usize],
    view: &S,
    steps: &mut S::Count,
) -> Result<Vec<Notice>, NoMemory>
    ensures notices { IfOk result (λ notices. tellings_of notices.items ≡ told_of (slots (S.records view.now)) rows.now places.now) }
    ensures looks { S.Count.looks steps.new ≤ S.Count.looks steps.old + work_of (slots (S.records view.now)) rows.now places.now }
    ensures applies { S.Count.applies steps.new ≡ S.Count.applies steps.old }
{
    let mut notices = Vec::with_capacity(alloc, places.len())?;
    'places: for place in places {
        put_notice(alloc, rows, *place, view, &mut notices, steps)?;
    }
    Ok(notices)
}

/// Puts the notice of the row at a place to the end, where there is one.
fn put_notice<S: RecordSource>(
    alloc: Global,
    rows: &[Row],
    place: usize,
    view: &S,
    notices: &mut Vec<Notice>,
    steps: &mut S::Count,
) -> Result<(), NoMemory>
    ensures notices { OnOk result (tellings_of notices.new.items ≡ tellings_of notices.old.items ++ told_at (slots (S.records view.now)) rows.now place) }
    ensures looks { S.Count.looks steps.new ≤ S.Count.looks steps.old + work_at (slots (S.records view.now)) rows.now place }
    ensures applies { S.Count.applies steps.new ≡ S.Count.applies steps.old }
{
    match row_at(rows, place) {
        Some(row) => {
            let notice = read_row(alloc, place, row, view, steps)?;
            notices.push(notice)?;
            Ok(())
        }
        None => Ok(()),
    }
}

/// The notice of a row.
fn read_row<S: RecordSource>(
    alloc: Global,
    place: usize,
    row: &Row,
    view: &S,
    steps: &mut S::Count,
) -> Result<Notice, NoMemory>
    ensures notice { IfOk result (λ notice. telling_of notice ≡ telling_at (slots (S.records view.now)) place row.now) }
    ensures looks { S.Count.looks steps.new ≤ S.Count.looks steps.old + standings (read_of (slots (S.records view.now)) (look_of row.now.what)) }
    ensures applies { S.Count.applies steps.new ≡ S.Count.applies steps.old }
{
    let what = &row.what;
    let snapshot = read(
        alloc,
        view,
        what.plan.plan(),
        &what.types,
        &what.env,
        &what.id,
        &what.handle,
        steps,
    )?;
    let told = differs(&row.kept, &snapshot);
    Ok(Notice {
        place,
        snapshot,
        told,
    })
}
