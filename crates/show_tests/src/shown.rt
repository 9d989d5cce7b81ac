//! What reads write, beside what reads show.
use crate::plans::{alone, leaf, leaves, of_type, one_type, spread, users, with};
use crate::records::records;
use json::Writer;
use plan_ir::{Counts, Env, Id, Pairs, ReaderPlan, Words, text_of};
use std::alloc::Global;
use std::test::Fail;
use store_show::{Flat, KeptReader, Seen, read, show};

/// The root type `Query`, and no variable.
fn env(alloc: Global) -> Result<Env, Fail> {
    Ok(Env {
        root: Words::new(alloc, "Query")?,
        values: Pairs::new(alloc),
    })
}

/// What a read met, behind its data: a word where something was missing, and the ids.
fn put_met(text: &mut String, seen: &Seen<'_>) -> Result<(), Fail> {
    if seen.missing {
        text.push_str(" missing")?;
    }
    for id in &seen.ids {
        text.push_str(" ")?;
        text.push_str(id)?;
    }
    Ok(())
}

/// What the read by a plan in order writes of the record at an id.
fn written(
    alloc: Global,
    map: &Flat,
    plan: &KeptReader,
    of: &str,
    id: &str,
) -> Result<String, Fail> {
    let Some(plan) = plan.ordered() else {
        return Ok(String::from_str(alloc, "no order")?);
    };
    let env = env(alloc)?;
    let id = Id::new(alloc, id)?;
    let owner = Words::new(alloc, "h")?;
    let types = one_type(alloc, of)?;
    let mut out = Writer::new(Vec::new(alloc));
    let mut steps = Counts::new();
    let seen = show(
        alloc, map, plan, &types, &env, &id, &owner, &mut out, &mut steps,
    )?;
    let mut text = String::from_utf8(out.into_inner())?;
    put_met(&mut text, &seen)?;
    Ok(text)
}

/// The same of the read that makes a tree.
fn read_text(
    alloc: Global,
    map: &Flat,
    plan: &KeptReader,
    of: &str,
    id: &str,
) -> Result<String, Fail> {
    let env = env(alloc)?;
    let id = Id::new(alloc, id)?;
    let owner = Words::new(alloc, "h")?;
    let types = one_type(alloc, of)?;
    let mut steps = Counts::new();
    let plan = plan.plan();
    let snapshot = read(alloc, map, plan, &types, &env, &id, &owner, &mut steps)?;
    let mut text = text_of(alloc, &snapshot.shown)?.into_string();
    if snapshot.missing {
        text.push_str(" missing")?;
    }
    for id in snapshot.seen.as_slice() {
        text.push_str(" ")?;
        text.push_str(id.as_str())?;
    }
    Ok(text)
}

/// What both tell of the record at an id; what is written alone where they differ.
fn told(alloc: Global, plan: ReaderPlan, of: &str, id: &str) -> Result<String, Fail> {
    let map = records(alloc)?;
    let plan = KeptReader::new(alloc, plan)?;
    let written = written(alloc, &map, &plan, of, id)?;
    let read = read_text(alloc, &map, &plan, of, id)?;
    if written.as_str() == read.as_str() {
        return Ok(written);
    }
    let mut both = String::from_str(alloc, "written differs: ")?;
    both.push_str(written.as_str())?;
    Ok(both)
}

/// Members stand in byte order of their keys, whatever the order of the plan.
#[test]
fn members_rise(rt: HostRuntime) -> Result<(), Fail> {
    let alloc = rt.alloc();
    let friend = users(alloc, "friend", false, leaves(alloc, "name")?)?;
    let below = with(alloc, leaves(alloc, "name age")?, friend)?;
    let plan = alone(alloc, users(alloc, "me", false, below)?)?;
    let wanted = r#"{"me":{"age":5,"friend":{"name":"Bo"},"name":"Ann"}} 4 7 client:root"#;
    assert_eq!(rt; told(alloc, plan, "Query", "client:root")?.as_str(), wanted);
    Ok(())
}

/// In a list null stands where there is none, and where a record was deleted.
#[test]
fn lists_have_nulls(rt: HostRuntime) -> Result<(), Fail> {
    let alloc = rt.alloc();
    let plan = alone(alloc, users(alloc, "team", true, leaves(alloc, "name")?)?)?;
    let wanted = r#"{"team":[{"name":"Ann"},null,{"name":"Bo"},null]} 4 7 8 client:root"#;
    assert_eq!(rt; told(alloc, plan, "Query", "client:root")?.as_str(), wanted);
    Ok(())
}

/// What is missing is left out with its key: a leaf, an absent record, one of another type, and a list
/// where one link stands. In a list an element whose fields are missing stands without them.
#[test]
fn what_is_missing_is_left_out(rt: HostRuntime) -> Result<(), Fail> {
    let alloc = rt.alloc();
    let plan = alone(alloc, users(alloc, "team", true, leaves(alloc, "age")?)?)?;
    let plan = with(
        alloc,
        plan,
        users(alloc, "lost", false, leaves(alloc, "name")?)?,
    )?;
    let plan = with(
        alloc,
        plan,
        users(alloc, "page", false, leaves(alloc, "name")?)?,
    )?;
    let plan = with(
        alloc,
        plan,
        users(alloc, "gone", false, leaves(alloc, "name")?)?,
    )?;
    let plan = with(
        alloc,
        plan,
        users(alloc, "me", true, leaves(alloc, "name")?)?,
    )?;
    let wanted = r#"{"gone":null,"team":[{"age":5},null,{},null]} missing 4 7 8 9 client:root p"#;
    assert_eq!(rt; told(alloc, plan, "Query", "client:root")?.as_str(), wanted);
    Ok(())
}

/// A null that stands under a field of objects is shown, and is not missing.
#[test]
fn null_of_an_object(rt: HostRuntime) -> Result<(), Fail> {
    let alloc = rt.alloc();
    let friend = users(alloc, "friend", false, leaves(alloc, "name")?)?;
    let plan = alone(alloc, friend)?;
    assert_eq!(rt;
        told(alloc, plan, "User", "7")?.as_str(),
        r#"{"friend":null} 7"#
    );
    Ok(())
}

/// At the top null stands for what is missing, and for what was deleted.
#[test]
fn records_at_the_top(rt: HostRuntime) -> Result<(), Fail> {
    let alloc = rt.alloc();
    let plan = leaves(alloc, "name")?;
    assert_eq!(rt; told(alloc, plan, "User", "9")?.as_str(), "null missing 9");
    let plan = leaves(alloc, "name")?;
    assert_eq!(rt; told(alloc, plan, "User", "8")?.as_str(), "null 8");
    let plan = leaves(alloc, "name")?;
    assert_eq!(rt; told(alloc, plan, "User", "p")?.as_str(), "null missing p");
    Ok(())
}

/// An object with spreads tells its id and its owner among its fields, where their bytes put them.
#[test]
fn spreads_are_told(rt: HostRuntime) -> Result<(), Fail> {
    let alloc = rt.alloc();
    let plan = alone(alloc, leaf(alloc, "A", "age")?)?;
    let plan = with(alloc, plan, leaf(alloc, "name", "name")?)?;
    let plan = with(alloc, plan, spread(alloc, "G", None)?)?;
    let plan = with(
        alloc,
        plan,
        spread(alloc, "F", Some(leaves(alloc, "age")?))?,
    )?;
    let wanted =
        r#"{"A":5,"__fragments":{"F":{"age":5},"G":{}},"__id":"4","__owner":"h","name":"Ann"} 4"#;
    assert_eq!(rt; told(alloc, plan, "User", "4")?.as_str(), wanted);
    Ok(())
}

/// Steps of another type are not taken.
#[test]
fn steps_of_types(rt: HostRuntime) -> Result<(), Fail> {
    let alloc = rt.alloc();
    let plan = alone(alloc, of_type(alloc, "Page", leaves(alloc, "age")?)?)?;
    let plan = with(alloc, plan, of_type(alloc, "User", leaves(alloc, "name")?)?)?;
    assert_eq!(rt;
        told(alloc, plan, "User", "4")?.as_str(),
        r#"{"name":"Ann"} 4"#
    );
    Ok(())
}

/// The name of a friend's friend's friend.
fn far_friend(alloc: Global) -> Result<ReaderPlan, Fail> {
    let third = users(alloc, "friend", false, leaves(alloc, "name")?)?;
    let second = users(alloc, "friend", false, alone(alloc, third)?)?;
    let first = users(alloc, "friend", false, alone(alloc, second)?)?;
    Ok(alone(alloc, first)?)
}

/// Where a read stands at the same records again and again, each of their ids is given once: of a record
/// that links to itself, and of two that link to each other.
#[test]
fn ids_of_rings_are_given_once(rt: HostRuntime) -> Result<(), Fail> {
    let alloc = rt.alloc();
    let text = told(alloc, far_friend(alloc)?, "User", "5")?;
    assert_eq!(rt;
        text.as_str(),
        r#"{"friend":{"friend":{"friend":{"name":"Cy"}}}} 5"#
    );
    let text = told(alloc, far_friend(alloc)?, "User", "a")?;
    assert_eq!(rt;
        text.as_str(),
        r#"{"friend":{"friend":{"friend":{"name":"Dee"}}}} a b"#
    );
    let text = told(alloc, far_friend(alloc)?, "User", "b")?;
    assert_eq!(rt;
        text.as_str(),
        r#"{"friend":{"friend":{"friend":{"name":"Eve"}}}} a b"#
    );
    Ok(())
}

/// A plan without an order is read by the walk that makes a tree alone.
#[test]
fn without_an_order(rt: HostRuntime) -> Result<(), Fail> {
    let alloc = rt.alloc();
    let plan = leaves(alloc, "name age name")?;
    let wanted = "written differs: no order";
    assert_eq!(rt; told(alloc, plan, "User", "4")?.as_str(), wanted);
    let map = records(alloc)?;
    let plan = KeptReader::new(alloc, leaves(alloc, "name age name")?)?;
    let text = read_text(alloc, &map, &plan, "User", "4")?;
    assert_eq!(rt; text.as_str(), r#"{"age":5,"name":"Ann"} 4"#);
    Ok(())
}
