//! The newest changes of a record map, which stand beside its tree: a list, the newest first.
ghost use Rattle.std.specs.Prelude.{◌≡◌, [], ◌∷◌, ◌++◌, IfOk, OnOk};
ghost use Rattle.std.specs.Cmp.Lexicographic.{slice_cmp};
ghost use Rattle.std.specs.FinMap.{find};
ghost use Rattle.std.specs.Option.{option_copied};
ghost use Rattle.std.specs.Ordering.{nat_cmp, eq_by_cmp};
ghost use Rattle.store_tree.specs.Contents.{keys_of, without_key};

use std::alloc::Global;
use store_record::Slot;
use store_tree::Item;
use store_tree::gql_plain::{NoMemory, Words};

/// The newest slot of an id, or None where no change is of the id; takes no memory.
pub(crate) fn newest_of<'a>(changes: &'a [Item<Slot>], id: &str) -> Option<&'a Slot>
    ensures { option_copied result ≡ find (slice_cmp nat_cmp) id.now changes.now }
{
    'changes: for change in changes {
        if is_of(change, id) {
            return Some(change.value());
        }
    }
    None
}

/// Puts a change to the front.
pub(crate) fn put_newest(changes: &mut Vec<Item<Slot>>, change: Item<Slot>) -> Result<(), NoMemory>
    ensures { OnOk result (changes.new.items ≡ change ∷ changes.old.items) }
{
    changes.insert(0, change)?;
    Ok(())
}

/// A list that shares the changes; takes no memory where there is none.
pub(crate) fn copy_all(alloc: Global, changes: &[Item<Slot>]) -> Result<Vec<Item<Slot>>, NoMemory>
    ensures { IfOk result (λ copy. copy.items ≡ changes.now) }
{
    let mut copy = Vec::new(alloc);
    'changes: for change in changes {
        copy.push(change.share()?)?;
    }
    Ok(copy)
}

/// A list that shares the changes of all other ids; takes no memory where there is none.
pub(crate) fn copy_without(
    alloc: Global,
    changes: &[Item<Slot>],
    id: &str,
) -> Result<Vec<Item<Slot>>, NoMemory>
    ensures { IfOk result (λ copy. copy.items ≡ without_key id.now changes.now) }
{
    let mut copy = Vec::new(alloc);
    'changes: for change in changes {
        put_other(&mut copy, change, id)?;
    }
    Ok(copy)
}

/// The changes of all other ids: the list itself where no change is of the id.
pub(crate) fn without_changes(
    alloc: Global,
    changes: Vec<Item<Slot>>,
    id: &str,
) -> Result<Vec<Item<Slot>>, NoMemory>
    ensures { IfOk result (λ left. left.items ≡ without_key id.now changes.items) }
{
    if newest_of(&changes, id).is_none() {
        return Ok(changes);
    }
    copy_without(alloc, &changes, id)
}

/// Puts a change to the end of a list, shared, unless it is of the id.
fn put_other(copy: &mut Vec<Item<Slot>>, change: &Item<Slot>, id: &str) -> Result<(), NoMemory>
    ensures { OnOk result (copy.new.items ≡ copy.old.items ++ without_key id.now (change.now ∷ [])) }
{
    if is_of(change, id) {
        return Ok(());
    }
    copy.push(change.share()?)?;
    Ok(())
}

/// Whether a change is of the id; takes no memory.
fn is_of(change: &Item<Slot>, id: &str) -> bool
    ensures { result ≡ eq_by_cmp (slice_cmp nat_cmp) id.now change.now.0 }
{
    change.key() == id
}

/// The ids of the changes, in the order of the list; takes no memory where there is none.
pub(crate) fn ids_of_changes(alloc: Global, changes: &[Item<Slot>]) -> Result<Vec<Words>, NoMemory>
    ensures { IfOk result (λ ids. ids.items ≡ keys_of changes.now) }
{
    let mut ids = Vec::new(alloc);
    'changes: for change in changes {
        ids.push(Words::new(alloc, change.key())?)?;
    }
    Ok(ids)
}
