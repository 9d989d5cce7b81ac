//! The layers by their names.
ghost use Rattle.std.specs.Prelude.{◌≡◌, ◌+◌, ◌≤◌, ◌++◌, [], ◌∷◌, true, false, length, take, IfOk, OnOk, OnErr};
ghost use Rattle.store_layers.specs.Drafts.{left_of};
ghost use Rattle.store_layers.specs.Layered.{is_live};
ghost use Rattle.store_layers.specs.Versions.{all_but, layers_of, IsPlaceOf};

use crate::fold::Entries;
use std::rc::Rc;
use store_update::Changed;
use store_update::gql_plain::{NoMemory, Words};
use store_update::store_model::Entry;
use store_update::store_source::RecordSource;

/// Whether a layer has the name; takes no memory.
pub(crate) fn is_named(entries: &Entries, name: &str) -> bool
    ensures { result ≡ is_live (layers_of entries.now.entries) name.now }
{
    entries.contains_key(name)
}

/// How many layers there are; takes no memory.
pub(crate) fn count_of(entries: &Entries) -> u64
    ensures { result ≡ length (layers_of entries.now.entries) }
{
    entries.len() as u64
}

/// The place of the layer of a live name; takes no memory.
pub(crate) fn place_of(entries: &Entries, name: &str) -> usize
    requires { is_live (layers_of entries.now.entries) name.now ≡ true }
    ensures { IsPlaceOf name.now (layers_of entries.now.entries) result }
{
    entries.get_index_of(name).unwrap()
}

/// Puts a layer under a name that is not live, and its version, to the end.
pub(crate) fn put_layer<S: RecordSource>(
    entries: &mut Entries,
    versions: &mut Vec<Changed<S>>,
    name: Words,
    entry: Entry,
    version: Changed<S>,
) -> Result<(), NoMemory>
    requires { is_live (layers_of entries.old.entries) name ≡ false }
    ensures layers { OnOk result (layers_of entries.new.entries ≡ layers_of entries.old.entries ++ (name, entry) ∷ []) }
    ensures versions { OnOk result (versions.new.items ≡ versions.old.items ++ version ∷ []) }
    ensures same_layers { OnErr result (layers_of entries.new.entries ≡ layers_of entries.old.entries) }
    ensures same_versions { OnErr result (versions.new.items ≡ versions.old.items) }
{
    let entry = Rc::new(*versions.allocator(), entry)?;
    entries.reserve(1)?;
    versions.push(version)?;
    drop(entries.insert(name.into_string(), entry).unwrap());
    Ok(())
}

/// Takes the layer at a place off, and puts versions in the place of its own and of those above it;
/// takes no memory.
pub(crate) fn take_off<S: RecordSource>(
    entries: &mut Entries,
    versions: &mut Vec<Changed<S>>,
    at: usize,
    above: Vec<Changed<S>>,
)
    requires room { at + length above.items ≤ length versions.old.items }
    ensures layers { layers_of entries.new.entries ≡ all_but at (layers_of entries.old.entries) }
    ensures versions { versions.new.items ≡ take at versions.old.items ++ above.items }
{
    let mut above = above;
    drop(entries.shift_remove_index(at));
    versions.truncate(at);
    versions.append(&mut above).unwrap();
}

/// Takes the layer at a place out, if there is one that goes; takes no memory.
pub(crate) fn take_out(entries: &mut Entries, gone: Option<usize>)
    ensures { layers_of entries.new.entries ≡ left_of gone (layers_of entries.old.entries) }
{
    if let Some(at) = gone {
        drop(entries.shift_remove_index(at));
    }
}

/// Equal layers, which share their entries.
pub(crate) fn copy_entries(entries: &Entries) -> Result<Entries, NoMemory>
    ensures { IfOk result (λ copy. layers_of copy.entries ≡ layers_of entries.now.entries) }
{
    let copy = entries.clone()?;
    Ok(copy)
}
