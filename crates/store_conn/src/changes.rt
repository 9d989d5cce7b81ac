//! Records that are put into a map.
ghost use Rattle.std.specs.Prelude.{◌≡◌, ◌++◌, IfOk, OnOk};
ghost use Rattle.store_conn.specs.Changes as spec;

use std::alloc::Global;
use store_model::gql_plain::{Id, NoMemory};
use store_model::store_record::{Record, Shared};
use store_source::RecordSource;

/// A record that is put at an id, in place of what stands there.
#[derive(Drop)]
pub struct Change {
    pub id: Id,
    pub row: Shared,
}

impl Change {
    /// A record that no other owner has, at an id.
    pub(crate) fn new(alloc: Global, id: Id, row: Record) -> Result<Change, NoMemory>
        ensures { IfOk result (λ change. change ≡ record { id = id; row = row }) }
    {
        let row = Shared::new(alloc, row)?;
        Ok(Change { id, row })
    }
}

/// The map with records put, one after another. What nobody else holds is written in place.
pub fn put_all<S: RecordSource>(
    source: S,
    changes: Vec<Change>,
    steps: &mut S::Count,
) -> Result<S, NoMemory>
    ensures records { IfOk result (λ m. S.records m ≡ spec.put_all changes.items (S.records source)) }
    ensures looks { S.Count.looks steps.new ≡ S.Count.looks steps.old }
    ensures applies { S.Count.applies steps.new ≡ S.Count.applies steps.old }
{
    let mut current = source;
    'changes: for change in changes {
        current = current.put(change.id, change.row.row, steps)?;
    }
    Ok(current)
}

/// Puts changes to the end of others.
pub(crate) fn push_all(changes: &mut Vec<Change>, more: Vec<Change>) -> Result<(), NoMemory>
    ensures { OnOk result (changes.new.items ≡ changes.old.items ++ more.items) }
{
    'more: for change in more {
        changes.push(change)?;
    }
    Ok(())
}
