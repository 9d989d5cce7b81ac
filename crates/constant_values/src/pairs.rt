//! Pairs of a list in byte order, one of each key.
ghost use Rattle.std.specs.Prelude.{◌≡◌, IfOk, OnOk};
ghost use Rattle.std.specs.Map.{keys_of};
ghost use Rattle.schema_types.specs.gql_plain.Order.{AreInOrder};
ghost use Rattle.schema_types.specs.gql_plain.Shown.{tree_of, shown_members};
ghost use Rattle.schema_types.specs.Environments.{with_new_pair};
ghost use Rattle.constant_values.specs.Listed as listed;

use schema_types::{NoMemory, Pairs, Plain, Words};
use std::alloc::Global;
use std::collections::BTreeMap;

/// The pairs in the order of their keys, of each key the first one.
///
/// # Errors
///
/// `NoMemory`.
pub fn first_of_each(alloc: Global, mut pairs: Vec<(Words, Plain)>) -> Result<Pairs, NoMemory>
    ensures { IfOk result (λ sorted. sorted ≡ listed.first_of_each (shown_members pairs.items)) }
{
    let mut sorted = BTreeMap::new(alloc);
    'pairs: while let Some((key, plain)) = pairs.pop() {
        drop(sorted.insert(key, plain)?);
    }
    pairs_of(alloc, sorted)
}

/// The pairs in the order of their keys, of each key the last one.
pub(crate) fn last_of_each(alloc: Global, mut pairs: Vec<(Words, Plain)>) -> Result<Pairs, NoMemory>
    ensures { IfOk result (λ sorted. sorted ≡ listed.last_of_each (shown_members pairs.items)) }
{
    let mut sorted = BTreeMap::new(alloc);
    'pairs: while let Some((key, plain)) = pairs.pop() {
        put_new(&mut sorted, key, plain)?;
    }
    pairs_of(alloc, sorted)
}

/// Puts a pair, unless its key is there.
fn put_new(sorted: &mut BTreeMap<Words, Plain>, key: Words, plain: Plain) -> Result<(), NoMemory>
    requires { AreInOrder (keys_of sorted.old.entries) }
    ensures put { OnOk result (shown_members sorted.new.entries ≡ with_new_pair key (tree_of plain) (shown_members sorted.old.entries)) }
    ensures ordered { OnOk result (AreInOrder (keys_of sorted.new.entries)) }
{
    if sorted.contains_key(&key) {
        return Ok(());
    }
    drop(sorted.insert(key, plain)?);
    Ok(())
}

/// The entries of a map.
fn pairs_of(alloc: Global, sorted: BTreeMap<Words, Plain>) -> Result<Pairs, NoMemory>
    ensures { IfOk result (λ pairs. pairs ≡ shown_members sorted.entries) }
{
    let mut entries = Vec::new(alloc);
    'entries: for entry in sorted {
        entries.push(entry)?;
    }
    Ok(Pairs { entries })
}
