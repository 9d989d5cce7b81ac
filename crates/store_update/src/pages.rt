//! Pages that are merged into a record map.
ghost use Rattle.std.specs.Prelude.{◌≡◌, ◌+◌, ◌*◌, ◌≤◌, [], length, IfOk};
ghost use Rattle.store_conn.specs.store_model.Entries as entries;
ghost use Rattle.store_conn.specs.store_model.Merge as merge;
ghost use Rattle.store_update.specs.Touched.{AreNoted, most};

use crate::draft::{Draft, put_changes};
use std::alloc::Global;
use store_conn::changes_of_page;
use store_conn::gql_plain::NoMemory;
use store_conn::store_model::HandleFact;
use store_conn::store_source::RecordSource;

/// The map with pages merged, one after another.
pub(crate) fn put_pages<S: RecordSource>(
    alloc: Global,
    draft: Draft<S>,
    handles: &[HandleFact],
    steps: &mut S::Count,
) -> Result<Draft<S>, NoMemory>
    ensures records { IfOk result (λ d. S.records d.source ≡ entries.merge_all handles.now (S.records draft.source)) }
    ensures noted { IfOk result (λ d. AreNoted (S.records draft.source) (S.records d.source) draft.noted.items d.noted.items) }
    ensures none { IfOk result (λ d. handles.now ≡ [] → d.noted.items ≡ draft.noted.items) }
    ensures few { IfOk result (λ d. length d.noted.items ≤ length draft.noted.items + 4 * entries.weights (entries.asked_by_pages handles.now (S.records draft.source))) }
    ensures looks { S.Count.looks steps.new ≤ S.Count.looks steps.old + 4 * entries.weights (entries.asked_by_pages handles.now (S.records draft.source)) }
    ensures applies { S.Count.applies steps.new ≡ S.Count.applies steps.old }
{
    let mut current = draft;
    'pages: for handle in handles {
        current = put_page(alloc, current, handle, steps)?;
    }
    Ok(current)
}

/// The map with a page merged.
fn put_page<S: RecordSource>(
    alloc: Global,
    draft: Draft<S>,
    handle: &HandleFact,
    steps: &mut S::Count,
) -> Result<Draft<S>, NoMemory>
    ensures records { IfOk result (λ d. S.records d.source ≡ merge.merge handle.now (S.records draft.source)) }
    ensures noted { IfOk result (λ d. AreNoted (S.records draft.source) (S.records d.source) draft.noted.items d.noted.items) }
    ensures few { IfOk result (λ d. length d.noted.items ≤ length draft.noted.items + most (entries.asked_by_page handle.now (S.records draft.source))) }
    ensures looks { S.Count.looks steps.new ≤ S.Count.looks steps.old + most (entries.asked_by_page handle.now (S.records draft.source)) }
    ensures applies { S.Count.applies steps.new ≡ S.Count.applies steps.old }
{
    let changes = changes_of_page(alloc, &draft.source, handle, steps)?;
    let after = put_changes(draft, changes, steps)?;
    Ok(after)
}
