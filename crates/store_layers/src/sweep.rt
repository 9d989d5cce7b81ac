//! Which ids a sweep takes out of the records, and what it leaves.
ghost use Rattle.std.specs.Prelude.{◌≡◌, ◌++◌, [], ◌∷◌, ℕ, List, cond, true, false, not, drop, IfOk, OnOk};
ghost use Rattle.std.specs.Cmp.Lexicographic.{slice_cmp};
ghost use Rattle.std.specs.Ordering.{nat_cmp, is_lt};
ghost use Rattle.store_update.specs.gql_plain.Order.{AreInOrder, has_text};
ghost use Rattle.store_update.specs.store_model.Sweeps.{sweep, dropped};

use std::alloc::Global;
use std::cmp::Ordering;
use store_update::gql_plain::{Id, Ids, NoMemory};
use store_update::store_source::RecordSource;

/// The ids of the records that are not kept, in byte order. They and the kept ones are walked side by side. Where
/// nothing goes no list is made.
pub(crate) fn ids_to_drop<S: RecordSource>(
    alloc: Global,
    source: &S,
    keep: &Ids,
) -> Result<Ids, NoMemory>
    ensures { IfOk result (λ ids. ids ≡ dropped (has_text keep.now) (S.records source.now)) }
{
    let all = source.ids()?;
    let is_rising = do_rise(keep);
    let mut gone = Vec::new(alloc);
    let mut from = 0;
    'ids: for id in all.as_slice() {
        let (place, is_kept) = place_from(keep, is_rising, from, id.as_str());
        put_unless(is_kept, id, &mut gone)?;
        from = place;
    }
    if gone.is_empty() {
        return Ok(Ids::new(alloc));
    }
    let ids = Ids::in_order(gone)?;
    Ok(ids)
}

/// Whether each id stands after the one before it, by bytes; takes no memory.
fn do_rise(ids: &Ids) -> bool
    ensures { result ≡ true → AreInOrder ids.now }
{
    ids.as_slice()
        .is_sorted_by(|one, other| one.cmp(other).is_lt())
}

/// The first place, from one on, at which no id below the one sought stands, or else the end, and whether the ids from there
/// on have it. What does not rise is searched. Takes no memory.
fn place_from(ids: &Ids, is_rising: bool, from: usize, id: &str) -> (usize, bool)
    requires rising { is_rising ≡ true → AreInOrder ids.now }
    requires from { has_text (drop from ids.now) id.now ≡ has_text ids.now id.now }
    ensures left { (q : List ℕ) → is_lt (slice_cmp nat_cmp q id.now) ≡ false → has_text (drop result.0 ids.now) q ≡ has_text (drop from ids.now) q }
    ensures has { result.1 ≡ has_text ids.now id.now }
{
    let texts = ids.as_slice();
    let mut at = from;
    'below: while at < texts.len() {
        match texts[at].as_str().cmp(id) {
            Ordering::Less => {
                at += 1;
            }
            Ordering::Equal => return (at, true),
            Ordering::Greater => {
                if is_rising {
                    return (at, false);
                }
                return (at, ids.contains(id));
            }
        }
    }
    (at, false)
}

/// Puts an id to the end of those that go, unless it is kept.
fn put_unless(is_kept: bool, id: &Id, gone: &mut Vec<Id>) -> Result<(), NoMemory>
    ensures { OnOk result (gone.new.items ≡ gone.old.items ++ cond (not is_kept) (id.now ∷ []) []) }
{
    if is_kept {
        return Ok(());
    }
    gone.push(id.copy()?)?;
    Ok(())
}

/// The records without some ids. One version is made, and each id is taken out of it in place.
pub(crate) fn without_ids<S: RecordSource>(
    source: &S,
    ids: &Ids,
    steps: &mut S::Count,
) -> Result<S, NoMemory>
    ensures records { IfOk result (λ left. S.records left ≡ sweep (λ id. not (has_text ids.now id)) (S.records source.now)) }
    ensures applies { S.Count.applies steps.new ≡ S.Count.applies steps.old }
    ensures looks { S.Count.looks steps.new ≡ S.Count.looks steps.old }
{
    let mut left = source.version()?;
    'ids: for id in ids.as_slice() {
        left = left.remove(id.as_str(), steps)?;
    }
    Ok(left)
}
