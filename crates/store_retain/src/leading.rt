//! The ids that ids lead to: what the entries of live layers need of the records.
ghost use Rattle.std.specs.Prelude.{◌≡◌, ◌≤◌, ◌||◌, Bool, [], bytes_eq, is_some, IfOk, OnOk};
ghost use Rattle.plan_ir.specs.store_model.Leads.{leads as led_by, with_infos};
ghost use Rattle.plan_ir.specs.store_model.Merge as merge;
ghost use Rattle.plan_ir.specs.store_model.Records.{live};
ghost use Rattle.plan_ir.specs.gql_plain.Order.{has_text};
ghost use Rattle.plan_ir.specs.store_record.Keys.{Text};
ghost use Rattle.store_retain.specs.Leading.{IsOpened, left, out_of};

use plan_ir::{Id, Ids, NoMemory, Slot, Words, client_id};
use std::alloc::Global;
use std::collections::BTreeSet;
use store_source::RecordSource;
use store_sweeps::put_links;

/// The ids that were noted, and those of live records among them that are still to be opened.
#[derive(Drop)]
pub(crate) struct Leading {
    noted: BTreeSet<Words>,
    pending: Vec<Words>,
}

/// The ids that some ids lead to: these and their page information, and with each live record its own
/// page information and the ids that it links to, with theirs. Each id is looked up when it is noted,
/// and a live record once more when it is opened; where there is no id nothing is looked up.
pub fn leads<S: RecordSource>(
    alloc: Global,
    source: &S,
    ids: &Ids,
    steps: &mut S::Count,
) -> Result<Ids, NoMemory>
    ensures ids { (j : Text) → IfOk result (λ found. has_text found j ≡ has_text (led_by (S.records source.now) ids.now) j) }
    ensures applies { S.Count.applies steps.new ≡ S.Count.applies steps.old }
{
    let mut leading = Leading {
        noted: BTreeSet::new(alloc),
        pending: Vec::new(alloc),
    };
    see_all(alloc, source, ids.as_slice(), &mut leading, steps)?;
    'pending: while let Some(id) = leading.pending.pop() {
        open_record(alloc, source, &id, &mut leading, steps)?;
    }
    all_noted(alloc, &leading)
}

/// Notes what a record leads to, where it is live.
fn open_record<S: RecordSource>(
    alloc: Global,
    source: &S,
    id: &Id,
    leading: &mut Leading,
    steps: &mut S::Count,
) -> Result<(), NoMemory>
    ensures noted { (j : Text) → OnOk result (has_text leading.new.noted.keys j ≡ (has_text leading.old.noted.keys j || has_text (out_of (S.records source.now) id.now) j)) }
    ensures opened { (except : Text → Bool) → IsOpened (S.records source.now) leading.old.noted.keys leading.old.pending.items except → OnOk result (IsOpened (S.records source.now) leading.new.noted.keys leading.new.pending.items except) }
    ensures less { OnOk result (left (S.records source.now) leading.new.noted.keys leading.new.pending.items ≤ left (S.records source.now) leading.old.noted.keys leading.old.pending.items) }
    ensures applies { S.Count.applies steps.new ≡ S.Count.applies steps.old }
{
    let row = match source.get(id.as_str(), steps) {
        Some(Slot::Alive(shared)) => shared.get(),
        Some(Slot::Deleted) => return Ok(()),
        None => return Ok(()),
    };
    let mut links = Vec::new(alloc);
    put_links(&row.fields, &mut links)?;
    see(source, info_id(alloc, id)?, leading, steps)?;
    see_all(alloc, source, &links, leading, steps)?;
    Ok(())
}

/// Notes ids, each with its page information.
fn see_all<S: RecordSource>(
    alloc: Global,
    source: &S,
    ids: &[Words],
    leading: &mut Leading,
    steps: &mut S::Count,
) -> Result<(), NoMemory>
    ensures noted { (j : Text) → OnOk result (has_text leading.new.noted.keys j ≡ (has_text leading.old.noted.keys j || has_text (with_infos ids.now) j)) }
    ensures opened { (except : Text → Bool) → IsOpened (S.records source.now) leading.old.noted.keys leading.old.pending.items except → OnOk result (IsOpened (S.records source.now) leading.new.noted.keys leading.new.pending.items except) }
    ensures less { OnOk result (left (S.records source.now) leading.new.noted.keys leading.new.pending.items ≤ left (S.records source.now) leading.old.noted.keys leading.old.pending.items) }
    ensures applies { S.Count.applies steps.new ≡ S.Count.applies steps.old }
{
    'ids: for id in ids {
        see_with_info(alloc, source, id, leading, steps)?;
    }
    Ok(())
}

/// Notes an id, and its page information.
fn see_with_info<S: RecordSource>(
    alloc: Global,
    source: &S,
    id: &Id,
    leading: &mut Leading,
    steps: &mut S::Count,
) -> Result<(), NoMemory>
    ensures noted { (j : Text) → OnOk result (has_text leading.new.noted.keys j ≡ ((has_text leading.old.noted.keys j || bytes_eq id.now j) || bytes_eq (merge.info_id id.now) j)) }
    ensures opened { (except : Text → Bool) → IsOpened (S.records source.now) leading.old.noted.keys leading.old.pending.items except → OnOk result (IsOpened (S.records source.now) leading.new.noted.keys leading.new.pending.items except) }
    ensures less { OnOk result (left (S.records source.now) leading.new.noted.keys leading.new.pending.items ≤ left (S.records source.now) leading.old.noted.keys leading.old.pending.items) }
    ensures applies { S.Count.applies steps.new ≡ S.Count.applies steps.old }
{
    see(source, id.copy()?, leading, steps)?;
    see(source, info_id(alloc, id)?, leading, steps)?;
    Ok(())
}

/// Notes an id. Where it is new and its record is live, it is to be opened.
fn see<S: RecordSource>(
    source: &S,
    id: Id,
    leading: &mut Leading,
    steps: &mut S::Count,
) -> Result<(), NoMemory>
    ensures noted { (j : Text) → OnOk result (has_text leading.new.noted.keys j ≡ (has_text leading.old.noted.keys j || bytes_eq id j)) }
    ensures opened { (except : Text → Bool) → IsOpened (S.records source.now) leading.old.noted.keys leading.old.pending.items except → OnOk result (IsOpened (S.records source.now) leading.new.noted.keys leading.new.pending.items except) }
    ensures less { OnOk result (left (S.records source.now) leading.new.noted.keys leading.new.pending.items ≤ left (S.records source.now) leading.old.noted.keys leading.old.pending.items) }
    ensures applies { S.Count.applies steps.new ≡ S.Count.applies steps.old }
{
    let copy = id.copy()?;
    let is_new = leading.noted.insert(copy)?;
    if !is_new {
        return Ok(());
    }
    if !is_live(source, id.as_str(), steps) {
        return Ok(());
    }
    leading.pending.push(id)?;
    Ok(())
}

/// Whether a live record stands at an id.
fn is_live<S: RecordSource>(source: &S, id: &str, steps: &mut S::Count) -> bool
    ensures live { result ≡ is_some (live id.now (S.records source.now)) }
    ensures applies { S.Count.applies steps.new ≡ S.Count.applies steps.old }
{
    match source.get(id, steps) {
        Some(Slot::Alive(_)) => true,
        Some(Slot::Deleted) => false,
        None => false,
    }
}

/// The id of the page information of an id.
fn info_id(alloc: Global, id: &Id) -> Result<Id, NoMemory>
    ensures { IfOk result (λ info. info ≡ merge.info_id id.now) }
{
    let key = Words::new(alloc, "pageInfo")?;
    client_id(alloc, id, &key, None)
}

/// The ids that were noted, in byte order.
fn all_noted(alloc: Global, leading: &Leading) -> Result<Ids, NoMemory>
    ensures { (j : Text) → IfOk result (λ ids. has_text ids j ≡ has_text leading.now.noted.keys j) }
{
    let mut words = Vec::with_capacity(alloc, leading.noted.len())?;
    'ids: for id in &leading.noted {
        words.push(id.copy()?)?;
    }
    Ids::sort(words)
}
