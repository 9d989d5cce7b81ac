//! A record map while an entry is applied to it.
ghost use Rattle.std.specs.Prelude.{◌≡◌, ◌++◌, ◌∷◌, [], IfOk, OnOk};
ghost use Rattle.store_conn.specs.store_model.Records as records_spec;
ghost use Rattle.store_conn.specs.Changes as conn;
ghost use Rattle.store_update.specs.Slots as slots;
ghost use Rattle.store_update.specs.Touched.{ids_put, noted};

use store_conn::gql_plain::{Id, NoMemory};
use store_conn::store_record::Slot;
use store_conn::store_source::RecordSource;
use store_conn::{Change, put_all};

/// A map, and the ids that had a slot put, in the order of the puts: one that is known to differ from the one before
/// stands there once, and else twice.
#[derive(Drop)]
pub(crate) struct Draft<S: RecordSource> {
    pub source: S,
    pub noted: Vec<Id>,
}

/// The map with a new slot put at an id, which is noted; without a new slot, as it was.
pub(crate) fn change_slot<S: RecordSource>(
    draft: Draft<S>,
    id: &Id,
    change: Option<Slot>,
    steps: &mut S::Count,
) -> Result<Draft<S>, NoMemory>
    ensures records { IfOk result (λ d. S.records d.source ≡ slots.with_change id.now change (S.records draft.source)) }
    ensures noted { IfOk result (λ d. d.noted.items ≡ noted id.now change draft.noted.items) }
    ensures looks { S.Count.looks steps.new ≡ S.Count.looks steps.old }
    ensures applies { S.Count.applies steps.new ≡ S.Count.applies steps.old }
{
    match change {
        Some(slot) => Ok(put_slot(draft, id, slot, steps)?),
        None => Ok(draft),
    }
}

/// The map with a new slot put at an id, which is noted.
fn put_slot<S: RecordSource>(
    draft: Draft<S>,
    id: &Id,
    slot: Slot,
    steps: &mut S::Count,
) -> Result<Draft<S>, NoMemory>
    ensures records { IfOk result (λ d. S.records d.source ≡ records_spec.with_slot id.now slot (S.records draft.source)) }
    ensures noted { IfOk result (λ d. d.noted.items ≡ draft.noted.items ++ id.now ∷ []) }
    ensures looks { S.Count.looks steps.new ≡ S.Count.looks steps.old }
    ensures applies { S.Count.applies steps.new ≡ S.Count.applies steps.old }
{
    let Draft { source, mut noted } = draft;
    noted.push(id.copy()?)?;
    let source = put(source, id, slot, steps)?;
    Ok(Draft { source, noted })
}

/// The map with a slot at an id, in place of what stands there.
fn put<S: RecordSource>(source: S, id: &Id, slot: Slot, steps: &mut S::Count) -> Result<S, NoMemory>
    ensures records { IfOk result (λ m. S.records m ≡ records_spec.with_slot id.now slot (S.records source)) }
    ensures looks { S.Count.looks steps.new ≡ S.Count.looks steps.old }
    ensures applies { S.Count.applies steps.new ≡ S.Count.applies steps.old }
{
    let id = id.copy()?;
    match slot {
        Slot::Deleted => source.put_deleted(id, steps),
        Slot::Alive(shared) => source.put(id, shared.row, steps),
    }
}

/// The map with records put, one after another. Their ids are noted twice: nobody has compared them with those before.
pub(crate) fn put_changes<S: RecordSource>(
    draft: Draft<S>,
    changes: Vec<Change>,
    steps: &mut S::Count,
) -> Result<Draft<S>, NoMemory>
    ensures records { IfOk result (λ d. S.records d.source ≡ conn.put_all changes.items (S.records draft.source)) }
    ensures noted { IfOk result (λ d. d.noted.items ≡ draft.noted.items ++ ids_put changes.items) }
    ensures looks { S.Count.looks steps.new ≡ S.Count.looks steps.old }
    ensures applies { S.Count.applies steps.new ≡ S.Count.applies steps.old }
{
    let Draft { source, mut noted } = draft;
    note_changes(&changes, &mut noted)?;
    let source = put_all(source, changes, steps)?;
    Ok(Draft { source, noted })
}

/// Puts the ids of changes to the end of others, each twice.
fn note_changes(changes: &[Change], noted: &mut Vec<Id>) -> Result<(), NoMemory>
    ensures { OnOk result (noted.new.items ≡ noted.old.items ++ ids_put changes.now) }
{
    'changes: for change in changes {
        noted.push(change.id.copy()?)?;
        noted.push(change.id.copy()?)?;
    }
    Ok(())
}
