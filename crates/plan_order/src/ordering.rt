//! Plans put in order, so that what they show can be written while it is met.
ghost use Rattle.std.specs.Prelude.{◌≡◌, IfOk, IfSome, is_some};
ghost use Rattle.std.specs.Cmp.Lexicographic.{slice_cmp};
ghost use Rattle.std.specs.List.Sorted.{IsPermutation, IsSortedByKey};
ghost use Rattle.std.specs.Ordering.{nat_cmp};
ghost use Rattle.plan_ir.specs.Reader as reader;
ghost use Rattle.plan_ir.specs.ReaderView.{step_of};
ghost use Rattle.plan_order.specs.HasOrder.{has_order_below, is_orderable};
ghost use Rattle.plan_order.specs.Singles.{AreSingles, IsOrderedCopy, key_in};

use crate::keys::has_order;
use crate::single::{Single, each_guarded, one_of, plan_of, with_child};
use plan_ir::{Arguments, Name, NoMemory, ReaderPlan, ReaderStep, ReaderSteps};
use std::alloc::Global;

/// A plan that reads what this one reads, with its steps in order of their response keys, or None where
/// no order of them is: where two steps of an object have one response key or one fragment, a response
/// key stands among what an object with pointers tells beside its fields, or a guard stands right in a
/// guard. n steps take about n * log n steps; there are at most twice as many in the copy. An object
/// whose steps have no order is not looked into, so what several steps lead to is not gone through for
/// each of them: those have one response key.
#[cycle(ordered)]
pub fn ordered(alloc: Global, plan: &ReaderPlan) -> Result<Option<ReaderPlan>, NoMemory>
    ensures copy { IfOk result (λ found. IfSome found (λ copy. IsOrderedCopy plan.now.steps copy.steps)) }
    ensures found { IfOk result (λ found. is_some found ≡ is_orderable plan.now.steps) }
{
    if !has_order(alloc, &plan.steps)? {
        return Ok(None);
    }
    let Some(singles) = singles_of(alloc, &plan.steps)? else {
        return Ok(None);
    };
    let sorted = in_order(singles)?;
    let copy = plan_of(alloc, sorted)?;
    Ok(Some(copy))
}

/// The single steps in order of their keys.
fn in_order<'p>(mut singles: Vec<Single<'p>>) -> Result<Vec<Single<'p>>, NoMemory>
    ensures same { IfOk result (λ sorted. IsPermutation singles.entry.items sorted.items) }
    ensures order { IfOk result (λ sorted. IsSortedByKey key_in (slice_cmp nat_cmp) sorted.items) }
{
    singles.sort_by(|one, other| one.key.cmp(other.key))?;
    Ok(singles)
}

/// The steps by themselves, with plans below them that are in order, or None where one of those has no
/// order.
#[cycle(ordered)]
fn singles_of<'p>(
    alloc: Global,
    steps: &'p ReaderSteps,
) -> Result<Option<Vec<Single<'p>>>, NoMemory>
    ensures singles { IfOk result (λ found. IfSome found (λ singles. AreSingles steps.now singles.items)) }
    ensures found { IfOk result (λ found. is_some found ≡ has_order_below steps.now) }
{
    let mut singles = Vec::new(alloc);
    'steps: for step in steps.as_slice() {
        let Some(mut more) = apart(alloc, step)? else {
            return Ok(None);
        };
        singles.append(&mut more)?;
    }
    Ok(Some(singles))
}

/// The singles of one step.
#[cycle(ordered)]
fn apart<'p>(alloc: Global, step: &'p ReaderStep) -> Result<Option<Vec<Single<'p>>>, NoMemory>
    ensures singles { IfOk result (λ found. IfSome found (λ singles. AreSingles (step_of step.now) singles.items)) }
    ensures found { IfOk result (λ found. is_some found ≡ has_order_below (step_of step.now)) }
{
    match step {
        ReaderStep::Typename { response } => {
            Ok(Some(one_of(alloc, response.as_str(), step.copy()?)?))
        }
        ReaderStep::Leaf { response, .. } => {
            Ok(Some(one_of(alloc, response.as_str(), step.copy()?)?))
        }
        ReaderStep::Object {
            response,
            child,
            ..
        } => {
            let Some(below) = ordered(alloc, child)? else {
                return Ok(None);
            };
            let copy = with_child(step, below)?;
            Ok(Some(one_of(alloc, response.as_str(), copy)?))
        }
        ReaderStep::Guarded { guard, child } => {
            let Some(singles) = singles_of(alloc, &child.steps)? else {
                return Ok(None);
            };
            Ok(Some(each_guarded(alloc, guard, singles)?))
        }
        ReaderStep::Pointer {
            fragment,
            inline: None,
            ..
        } => Ok(Some(one_of(alloc, fragment.as_str(), step.copy()?)?)),
        ReaderStep::Pointer {
            fragment,
            arguments,
            inline: Some(body),
        } => body_apart(alloc, fragment, arguments, body),
    }
}

/// The single of a pointer to a fragment that is read where it stands.
#[cycle(ordered)]
fn body_apart<'p>(
    alloc: Global,
    fragment: &'p Name,
    arguments: &Arguments,
    body: &ReaderPlan,
) -> Result<Option<Vec<Single<'p>>>, NoMemory>
    ensures singles { IfOk result (λ found. IfSome found (λ singles. AreSingles (reader.pointer_inline fragment.now arguments.now body.now.steps reader.done) singles.items)) }
    ensures found { IfOk result (λ found. is_some found ≡ is_orderable body.now.steps) }
{
    let Some(below) = ordered(alloc, body)? else {
        return Ok(None);
    };
    let copy = ReaderStep::Pointer {
        fragment: fragment.copy()?,
        arguments: arguments.copy()?,
        inline: Some(below),
    };
    Ok(Some(one_of(alloc, fragment.as_str(), copy)?))
}
