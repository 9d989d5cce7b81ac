//! The members of objects.
ghost use Rattle.std.specs.Prelude.{◌≡◌, ◌++◌, option_map, [], IfOk, OnOk};
ghost use Rattle.std.specs.Cmp.Lexicographic.{slice_cmp};
ghost use Rattle.std.specs.Ordering.{is_eq, nat_cmp};
ghost use Rattle.plan_ir.specs.gql_plain.Shown.{shown_members, tree_of};
ghost use Rattle.plan_ir.specs.store_model.Walks as walks;
ghost use Rattle.plan_ir.specs.store_model.Walks.{mark_members};
ghost use Rattle.store_read.specs.Members.{found_before, put_all};

use plan_ir::{Id, NoMemory, Pairs, Plain, Words};
use std::alloc::Global;

/// The pairs in byte order of their keys, of each key the first one. Pairs of n keys take about
/// n * log n steps.
pub(crate) fn first_of_each(mut pairs: Vec<(Words, Plain)>) -> Result<Pairs, NoMemory>
    ensures { IfOk result (λ members. members ≡ put_all (shown_members pairs.items) []) }
{
    pairs.sort_by(|one, other| one.0.cmp(&other.0))?;
    pairs.dedup_by(|next, kept| is_same_key(next, kept));
    Ok(Pairs { entries: pairs })
}

/// Whether two pairs have one key.
fn is_same_key(next: &(Words, Plain), kept: &(Words, Plain)) -> bool
    ensures { result ≡ is_eq (slice_cmp nat_cmp next.now.0 kept.now.0) }
{
    next.0.cmp(&kept.0).is_eq()
}

/// Puts a value under a response key; a missing one is left out.
pub(crate) fn put_found(
    alloc: Global,
    members: &mut Vec<(Words, Plain)>,
    response: &str,
    shown: Option<Plain>,
) -> Result<(), NoMemory>
    ensures { OnOk result (shown_members members.new.items ≡ shown_members members.old.items ++ found_before response.now (option_map tree_of shown) []) }
{
    match shown {
        Some(plain) => {
            members.push((Words::new(alloc, response)?, plain))?;
            Ok(())
        }
        None => Ok(()),
    }
}

/// Puts what an object with pointers tells beside its fields: its pointers, its id, and the name of
/// its owner.
pub(crate) fn put_marks(
    alloc: Global,
    owner: &Words,
    id: &Id,
    pointers: Pairs,
    members: &mut Vec<(Words, Plain)>,
) -> Result<(), NoMemory>
    ensures { OnOk result (shown_members members.new.items ≡ shown_members members.old.items ++ mark_members owner.now id.now pointers) }
{
    if pointers.is_empty() {
        return Ok(());
    }
    members.push((Words::new(alloc, "__fragments")?, Plain::Tree(pointers)))?;
    members.push((Words::new(alloc, "__id")?, Plain::Text(id.copy()?)))?;
    members.push((Words::new(alloc, "__owner")?, Plain::Text(owner.copy()?)))?;
    Ok(())
}

/// A value, or null where it is missing.
pub(crate) fn or_null(shown: Option<Plain>) -> Plain
    ensures { tree_of result ≡ walks.or_null (option_map tree_of shown) }
{
    match shown {
        Some(plain) => plain,
        None => Plain::Null,
    }
}
