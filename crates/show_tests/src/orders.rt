//! Which plans have an order, and which it is.
use crate::plans::{alone, leaf, leaves, of_type, spread, users, with};
use plan_ir::{ReaderPlan, ReaderStep};
use std::alloc::Global;
use std::test::Fail;
use store_show::ordered;

/// The response key of a step, or of the one behind its guard; of a spread the fragment.
#[cycle(key)]
fn key_of<'p>(step: &'p ReaderStep) -> &'p str {
    match step {
        ReaderStep::Typename { response } => response.as_str(),
        ReaderStep::Leaf { response, .. } => response.as_str(),
        ReaderStep::Object { response, .. } => response.as_str(),
        ReaderStep::Guarded { child, .. } => first_key(child),
        ReaderStep::Pointer { fragment, .. } => fragment.as_str(),
    }
}

#[cycle(key)]
fn first_key<'p>(plan: &'p ReaderPlan) -> &'p str {
    match plan.steps.as_slice().first() {
        Some(step) => key_of(step),
        None => "",
    }
}

/// The keys of a plan in order, each with a space behind it; `no order` where it has none.
fn order_of(alloc: Global, plan: ReaderPlan) -> Result<String, Fail> {
    let Some(found) = ordered(alloc, &plan)? else {
        return Ok(String::from_str(alloc, "no order")?);
    };
    let mut keys = String::new(alloc);
    for step in found.steps.as_slice() {
        keys.push_str(key_of(step))?;
        keys.push_str(" ")?;
    }
    Ok(keys)
}

/// Fields rise by their response keys, by bytes; spreads stand behind `__fragments`.
#[test]
fn steps_rise_by_response_key(rt: HostRuntime) -> Result<(), Fail> {
    let alloc = rt.alloc();
    let plan = leaves(alloc, "name age Zone")?;
    let plan = with(alloc, plan, leaf(alloc, "b", "a")?)?;
    assert_eq!(rt; order_of(alloc, plan)?.as_str(), "Zone age b name ");
    Ok(())
}

/// Each step behind a guard stands alone behind it, among the others.
#[test]
fn guards_are_parted(rt: HostRuntime) -> Result<(), Fail> {
    let alloc = rt.alloc();
    let plan = alone(alloc, of_type(alloc, "User", leaves(alloc, "c a")?)?)?;
    let plan = with(alloc, plan, leaf(alloc, "b", "b")?)?;
    assert_eq!(rt; order_of(alloc, plan)?.as_str(), "a b c ");
    Ok(())
}

/// Two steps of one response key would have to be read together, behind guards too.
#[test]
fn one_response_key_twice_has_no_order(rt: HostRuntime) -> Result<(), Fail> {
    let alloc = rt.alloc();
    let plan = leaves(alloc, "a b a")?;
    assert_eq!(rt; order_of(alloc, plan)?.as_str(), "no order");
    let plan = alone(alloc, of_type(alloc, "User", leaves(alloc, "a")?)?)?;
    let plan = with(alloc, plan, of_type(alloc, "Page", leaves(alloc, "a")?)?)?;
    assert_eq!(rt; order_of(alloc, plan)?.as_str(), "no order");
    Ok(())
}

/// A guard right in a guard would be copied to each step behind it.
#[test]
fn guards_in_guards_have_no_order(rt: HostRuntime) -> Result<(), Fail> {
    let alloc = rt.alloc();
    let inner = alone(alloc, of_type(alloc, "User", leaves(alloc, "a b")?)?)?;
    let plan = alone(alloc, of_type(alloc, "User", inner)?)?;
    assert_eq!(rt; order_of(alloc, plan)?.as_str(), "no order");
    Ok(())
}

/// A plan below has to have an order too.
#[test]
fn plans_below_are_put_in_order(rt: HostRuntime) -> Result<(), Fail> {
    let alloc = rt.alloc();
    let plan = alone(alloc, users(alloc, "me", false, leaves(alloc, "a b")?)?)?;
    assert_eq!(rt; order_of(alloc, plan)?.as_str(), "me ");
    let plan = alone(alloc, users(alloc, "me", false, leaves(alloc, "a a")?)?)?;
    assert_eq!(rt; order_of(alloc, plan)?.as_str(), "no order");
    Ok(())
}

/// What an object with spreads tells beside its fields stands from `__fragments` to `__owner`; a response
/// key among these has no order where there is a spread, and one of a fragment's name does no harm.
#[test]
fn response_keys_among_the_marks(rt: HostRuntime) -> Result<(), Fail> {
    let alloc = rt.alloc();
    let plan = alone(alloc, leaf(alloc, "__id", "id")?)?;
    assert_eq!(rt; order_of(alloc, plan)?.as_str(), "__id ");
    let plan = alone(alloc, leaf(alloc, "__id", "id")?)?;
    let plan = with(alloc, plan, spread(alloc, "F", None)?)?;
    assert_eq!(rt; order_of(alloc, plan)?.as_str(), "no order");
    let plan = with(alloc, leaves(alloc, "F a")?, spread(alloc, "F", None)?)?;
    assert!(rt; order_of(alloc, plan)?.as_str() != "no order");
    Ok(())
}

/// One fragment twice would have to be told once.
#[test]
fn one_fragment_twice_has_no_order(rt: HostRuntime) -> Result<(), Fail> {
    let alloc = rt.alloc();
    let plan = with(alloc, leaves(alloc, "a")?, spread(alloc, "F", None)?)?;
    let plan = with(alloc, plan, spread(alloc, "F", None)?)?;
    assert_eq!(rt; order_of(alloc, plan)?.as_str(), "no order");
    Ok(())
}
