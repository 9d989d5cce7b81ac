//! The ids that held operations keep.
ghost use Rattle.std.specs.Prelude.{◌≡◌, ◌∷◌, ◌||◌, [], map, IfOk, OnOk};
ghost use Rattle.plan_ir.specs.gql_plain.Order.{has_text};
ghost use Rattle.plan_ir.specs.store_record.Keys.{Text};
ghost use Rattle.store_retain.specs.Kept.{is_kept, reaches};
ghost use Rattle.store_retain.specs.Steps.{slots_of};

use crate::found::Found;
use crate::held::Held;
use crate::table::Table;
use crate::walk::{Store, walk};
use circular_buffer::HeapCircularBuffer;
use indexmap::IndexMap;
use plan_ir::{Ids, NoMemory, Words};
use std::alloc::Global;
use store_source::RecordSource;

/// Marks what live handles hold.
pub(crate) fn mark_live<'s, S: RecordSource>(
    alloc: Global,
    source: &'s S,
    live: &'s IndexMap<String, Held>,
    found: &mut Found<'s>,
    steps: &mut S::Count,
) -> Result<(), NoMemory>
    ensures ids { (j : Text) → OnOk result (has_text found.new.ids j ≡ (has_text found.old.ids j || is_kept (slots_of (S.records source.now)) (map (λ h. h.1) live.now.entries) j)) }
    ensures applies { S.Count.applies steps.new ≡ S.Count.applies steps.old }
{
    'live: for held in live.values() {
        mark_held(alloc, source, held, found, steps)?;
    }
    Ok(())
}

/// Marks what was released.
pub(crate) fn mark_released<'s, S: RecordSource>(
    alloc: Global,
    source: &'s S,
    released: &'s HeapCircularBuffer<Held>,
    found: &mut Found<'s>,
    steps: &mut S::Count,
) -> Result<(), NoMemory>
    ensures ids { (j : Text) → OnOk result (has_text found.new.ids j ≡ (has_text found.old.ids j || is_kept (slots_of (S.records source.now)) released.now.items j)) }
    ensures applies { S.Count.applies steps.new ≡ S.Count.applies steps.old }
{
    'released: for held in released {
        mark_held(alloc, source, held, found, steps)?;
    }
    Ok(())
}

/// Marks what an operation keeps.
fn mark_held<'s, S: RecordSource>(
    alloc: Global,
    source: &'s S,
    held: &'s Held,
    found: &mut Found<'s>,
    steps: &mut S::Count,
) -> Result<(), NoMemory>
    ensures ids { (j : Text) → OnOk result (has_text found.new.ids j ≡ (has_text found.old.ids j || has_text (reaches (slots_of (S.records source.now)) held.now) j)) }
    ensures applies { S.Count.applies steps.new ≡ S.Count.applies steps.old }
{
    let mut table = Table::new(alloc)?;
    let number = table.put_plan(alloc, &held.env, &held.normal.steps)?;
    let rounds = held.normal.steps.levels();
    let root = held.env.root.as_str();
    let types = one_name(alloc, root)?;
    let store = Store { source, root };
    let numbers = [number];
    walk(
        alloc,
        &store,
        &table.parts,
        &types,
        &numbers,
        "client:root",
        rounds,
        found,
        steps,
    )?;
    Ok(())
}

/// The name alone.
fn one_name(alloc: Global, name: &str) -> Result<Ids, NoMemory>
    ensures { IfOk result (λ names. names ≡ name.now ∷ []) }
{
    let mut names = Vec::with_capacity(alloc, 1)?;
    names.push(Words::new(alloc, name)?)?;
    Ids::in_order(names)
}
