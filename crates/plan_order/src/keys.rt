//! The response keys and the fragments of the steps of an object, and whether they have an order.
ghost use Rattle.std.specs.Prelude.{◌≡◌, ◌↔◌, ◌||◌, true, ◌++◌, map, IfOk, OnOk};
ghost use Rattle.std.specs.Cmp.Lexicographic.{slice_cmp};
ghost use Rattle.std.specs.List.{list_all};
ghost use Rattle.std.specs.List.Sorted.{IsPermutation, IsSortedByKey};
ghost use Rattle.std.specs.Ordering.{is_lt, nat_cmp};
ghost use Rattle.plan_ir.specs.gql_plain.Order.{AreInOrder};
ghost use Rattle.plan_ir.specs.ReaderView.{step_of};
ghost use Rattle.plan_order.specs.HasOrder.{distinct, has_order, has_single_guards, is_unguarded, keys_have_order, stands_apart};
ghost use Rattle.plan_order.specs.Responses.{fragments, responses};
ghost use Rattle.plan_order.specs.Walk.{is_none};

use plan_ir::{NoMemory, ReaderStep, ReaderSteps};
use std::alloc::Global;

/// The response keys of steps, and the fragments of their pointers, in the order of the steps.
#[derive(Debug, Drop)]
pub(crate) struct Keys<'p> {
    pub(crate) responses: Vec<&'p str>,
    pub(crate) fragments: Vec<&'p str>,
}

/// Whether the steps of one object have an order: no response key stands twice, nor does a fragment of
/// their pointers, and no guard stands right in a guard. Where there is a pointer, no response key stands
/// among what such an object tells beside its fields. What stands below fields is not looked at.
pub(crate) fn has_order(alloc: Global, steps: &ReaderSteps) -> Result<bool, NoMemory>
    ensures { IfOk result (λ yes. yes ≡ has_order steps.now) }
{
    if !has_single_guards(steps) {
        return Ok(false);
    }
    keys_have_order(alloc, steps)
}

/// Whether no response key stands twice, nor a fragment, and where there is a pointer each response key
/// stands apart.
fn keys_have_order(alloc: Global, steps: &ReaderSteps) -> Result<bool, NoMemory>
    ensures { IfOk result (λ yes. yes ≡ keys_have_order steps.now) }
{
    let mut keys = Keys {
        responses: Vec::new(alloc),
        fragments: Vec::new(alloc),
    };
    note_steps(&mut keys, steps)?;
    let apart = do_stand_apart(&keys);
    let Keys {
        responses,
        fragments,
    } = keys;
    if !are_distinct(responses)? {
        return Ok(false);
    }
    if !are_distinct(fragments)? {
        return Ok(false);
    }
    Ok(apart)
}

/// Whether there is no pointer, or else each response key stands apart; takes no memory.
fn do_stand_apart(keys: &Keys<'_>) -> bool
    ensures { result ≡ (is_none (map (λ t. t.now) keys.now.fragments.items) || list_all stands_apart (map (λ t. t.now) keys.now.responses.items)) }
{
    if keys.fragments.is_empty() {
        return true;
    }
    are_apart(&keys.responses)
}

/// Whether no text stands twice.
fn are_distinct(texts: Vec<&str>) -> Result<bool, NoMemory>
    ensures { IfOk result (λ yes. yes ≡ distinct (map (λ t. t.now) texts.entry.items)) }
{
    let sorted = in_order(texts)?;
    Ok(do_rise(&sorted))
}

/// The texts in byte order.
fn in_order(mut texts: Vec<&str>) -> Result<Vec<&str>, NoMemory>
    ensures same { IfOk result (λ sorted. IsPermutation texts.entry.items sorted.items) }
    ensures order { IfOk result (λ sorted. IsSortedByKey (λ t. t.now) (slice_cmp nat_cmp) sorted.items) }
{
    texts.sort_by(|one, other| one.cmp(other))?;
    Ok(texts)
}

/// Whether no guard stands right in a guard; takes no memory.
fn has_single_guards(steps: &ReaderSteps) -> bool
    ensures { result ≡ has_single_guards steps.now }
{
    'steps: for step in steps.as_slice() {
        if !has_single_guard(step) {
            return false;
        }
    }
    true
}

/// Whether a step is no guard with a guard right in it; takes no memory.
fn has_single_guard(step: &ReaderStep) -> bool
    ensures { result ≡ has_single_guards (step_of step.now) }
{
    match step {
        ReaderStep::Guarded { child, .. } => is_unguarded(&child.steps),
        _ => true,
    }
}

/// Whether no step is a guard; takes no memory.
fn is_unguarded(steps: &ReaderSteps) -> bool
    ensures { result ≡ is_unguarded steps.now }
{
    'steps: for step in steps.as_slice() {
        if !is_no_guard(step) {
            return false;
        }
    }
    true
}

/// Whether a step is no guard; takes no memory.
fn is_no_guard(step: &ReaderStep) -> bool
    ensures { result ≡ is_unguarded (step_of step.now) }
{
    match step {
        ReaderStep::Guarded { .. } => false,
        _ => true,
    }
}

/// Puts what steps say behind what is noted, that of steps behind guards among it.
#[cycle(note)]
fn note_steps<'p>(keys: &mut Keys<'p>, steps: &'p ReaderSteps) -> Result<(), NoMemory>
    ensures told { OnOk result (map (λ t. t.now) keys.new.responses.items ≡ map (λ t. t.now) keys.old.responses.items ++ responses steps.now) }
    ensures spread { OnOk result (map (λ t. t.now) keys.new.fragments.items ≡ map (λ t. t.now) keys.old.fragments.items ++ fragments steps.now) }
{
    'steps: for step in steps.as_slice() {
        note_step(keys, step)?;
    }
    Ok(())
}

/// Puts what a step says behind what is noted.
#[cycle(note)]
fn note_step<'p>(keys: &mut Keys<'p>, step: &'p ReaderStep) -> Result<(), NoMemory>
    ensures told { OnOk result (map (λ t. t.now) keys.new.responses.items ≡ map (λ t. t.now) keys.old.responses.items ++ responses (step_of step.now)) }
    ensures spread { OnOk result (map (λ t. t.now) keys.new.fragments.items ≡ map (λ t. t.now) keys.old.fragments.items ++ fragments (step_of step.now)) }
{
    match step {
        ReaderStep::Typename { response } => {
            keys.responses.push(response.as_str())?;
            Ok(())
        }
        ReaderStep::Leaf { response, .. } => {
            keys.responses.push(response.as_str())?;
            Ok(())
        }
        ReaderStep::Object { response, .. } => {
            keys.responses.push(response.as_str())?;
            Ok(())
        }
        ReaderStep::Guarded { child, .. } => note_steps(keys, &child.steps),
        ReaderStep::Pointer { fragment, .. } => {
            keys.fragments.push(fragment.as_str())?;
            Ok(())
        }
    }
}

/// Whether each text stands after that before it, by bytes; takes no memory.
fn do_rise(texts: &[&str]) -> bool
    ensures { (result ≡ true) ↔ AreInOrder (map (λ t. t.now) texts.now) }
{
    texts.is_sorted_by(|one, other| one.cmp(other).is_lt())
}

/// Whether each response key stands before all that an object with pointers tells beside its fields, or
/// behind all of it; takes no memory.
fn are_apart(responses: &[&str]) -> bool
    ensures { result ≡ list_all (λ t. stands_apart t.now) responses.now }
{
    responses.iter().all(|key| is_apart(key))
}

/// Whether a response key stands before all that an object with pointers tells beside its fields, or
/// behind all of it; takes no memory.
fn is_apart(key: &str) -> bool
    ensures { result ≡ stands_apart key.now }
{
    if is_below(key, "__fragments") {
        return true;
    }
    is_below("__owner", key)
}

/// Whether a text stands before another one, by bytes; takes no memory.
fn is_below(one: &str, other: &str) -> bool
    ensures { result ≡ is_lt (slice_cmp nat_cmp one.now other.now) }
{
    one.cmp(other).is_lt()
}
