//! Documents, and the plans by which the responses to their operations are normalized.
//!
//! A row is a document of one operation `Q` and its plan, with ` => ` between them. A step is written
//! as its response key, behind `#` where it is the type name. An object has `*` if it is a list, the
//! possible types with `!` behind those that have an id and `?` behind all if the type is abstract, the
//! key of its connection, and the plan below it. A guard has its types, `-` and `+` for `@skip` and
//! `@include`, and its steps.
use crate::texts::{SCHEMA, documents, expansion_alone, schema};
use plan_build::normal_plan;
use plan_ir::{Guard, Ids, NormalPlan, NormalStep};
use std::alloc::Global;
use std::process::Abort;
use std::test::Fail;

/// An interface of which one object type narrows a field.
const NARROWING: &str = "interface Node{id:ID! next:Node} type Query{node:Node}
    type A implements Node{id:ID! next:A} type B implements Node{id:ID! next:Node}";

/// Writes types, with a mark behind those that are marked.
fn put_types(text: &mut String, types: &Ids, marked: &Ids) -> Result<(), Fail> {
    let mut begun = false;
    for name in types.as_slice() {
        if begun {
            text.push_str("|")?;
        }
        text.push_str(name.as_str())?;
        if marked.contains(name.as_str()) {
            text.push_str("!")?;
        }
        begun = true;
    }
    Ok(())
}

/// Writes what a guard asks for.
fn put_guard(text: &mut String, guard: &Guard) -> Result<(), Fail> {
    text.push_str("[")?;
    if let Some(types) = &guard.types {
        put_types(text, types, &Ids::new(*text.allocator()))?;
    }
    for condition in guard.conditions.as_slice() {
        if condition.skip {
            text.push_str("-")?;
        } else {
            text.push_str("+")?;
        }
    }
    text.push_str("]")?;
    Ok(())
}

/// Writes a plan.
#[cycle(plans)]
fn put_plan(text: &mut String, plan: &NormalPlan) -> Result<(), Fail> {
    text.push_str("{")?;
    let mut begun = false;
    for step in plan.steps.as_slice() {
        if begun {
            text.push_str(" ")?;
        }
        put_step(text, step)?;
        begun = true;
    }
    text.push_str("}")?;
    Ok(())
}

/// Writes a step.
#[cycle(plans)]
fn put_step(text: &mut String, step: &NormalStep) -> Result<(), Fail> {
    match step {
        NormalStep::Typename { response } => {
            text.push_str("#")?;
            text.push_str(response.as_str())?;
            Ok(())
        }
        NormalStep::Leaf { response, .. } => Ok(text.push_str(response.as_str())?),
        NormalStep::Object {
            response,
            many,
            types,
            identified,
            open_type,
            connection,
            child,
            ..
        } => {
            text.push_str(response.as_str())?;
            if *many {
                text.push_str("*")?;
            }
            text.push_str("<")?;
            put_types(text, types, identified)?;
            if *open_type {
                text.push_str("?")?;
            }
            text.push_str(">")?;
            if let Some(conn) = connection {
                text.push_str(conn.key.as_str())?;
            }
            put_plan(text, child)
        }
        NormalStep::Guarded { guard, child } => {
            put_guard(text, guard)?;
            put_plan(text, child)
        }
    }
}

/// The plan of the operation `Q` of a document.
fn plan_text(alloc: Global, of_types: &str, document: &str) -> Result<String, Fail> {
    let schema = schema(alloc, of_types)?;
    let documents = documents(alloc, document)?;
    let mut text = String::new(alloc);
    if let Some(expanded) = expansion_alone(alloc, &schema, &documents, "Q")? {
        let plan = normal_plan(alloc, &schema, &expanded)?;
        put_plan(&mut text, &plan)?;
    }
    Ok(text)
}

/// The rows whose plans are others, each with its plan; nothing where all are as they should be.
fn wrong_rows(alloc: Global, of_types: &str, rows: &str) -> Result<String, Fail> {
    let mut wrong = String::new(alloc);
    for row in rows.lines() {
        let (document, wanted) = row.trim().split_once(" => ").unwrap_or(("", ""));
        let got = plan_text(alloc, of_types, document)?;
        if got.as_str() != wanted {
            wrong.push_str(got.as_str())?;
            wrong.push_str("\n")?;
        }
    }
    Ok(wrong)
}

/// Leaves, objects, lists, connections, abstract types, and fragments of types around them.
#[test]
fn operations_have_plans(rt: HostRuntime) -> Result<(), Fail> {
    let rows = "query Q{me{name}} => {me<User!>{name id}}
        query Q{node(id:4){id}} => {node<User!?>{id #__typename}}
        query Q{x:__typename thing{...on Tag{text}}} => {#x thing<Tag|User!?>{[Tag]{text} [User]{id} #__typename}}
        query Q($v:Boolean!){me{name@include(if:$v) a:age@skip(if:$v)@include(if:true)}} => {me<User!>{[+]{name} [-+]{a} id}}
        query Q($v:Boolean!){thing{...on Tag@skip(if:$v){text}}} => {thing<Tag|User!?>{[Tag-]{text} [User]{id} #__typename}}
        query Q{team{tags{text}}} => {team*<User!>{tags*<Tag>{text} id}}
        query Q{me{...on Node{id}}} => {me<User!>{id id}}
        query Q{find(by:1)} => {find}
        query Q{me{friends@connection(key:\"Q_friends\"){edges{node{name}}}}} => {me<User!>{friends<UserConnection>Q_friends{edges*<UserEdge>{node<User!>{name id}} edges*<UserEdge>{cursor node<User!>{id}} pageInfo<PageInfo>{endCursor hasNextPage hasPreviousPage startCursor}} id}}
        query Q{me{...F}} fragment F on User{age} => {me<User!>{age id}}";
    assert_eq!(rt; wrong_rows(rt.alloc(), SCHEMA, rows)?.as_str(), "");
    Ok(())
}

/// A field that an object type narrows is a step of its own there.
#[test]
fn narrowed_fields_have_steps_of_their_own(rt: HostRuntime) -> Result<(), Fail> {
    let rows =
        "query Q{node{next{id}}} => {node<A!|B!?>{[A]{next<A!>{id #__typename}} [B]{next<A!|B!?>{id #__typename}} id #__typename}}
        query Q{node{next{next{id}}}} => {node<A!|B!?>{[A]{next<A!>{[A]{next<A!>{id #__typename}} [B]{next<A!|B!?>{id #__typename}} id #__typename}} [B]{next<A!|B!?>{[A]{next<A!>{id #__typename}} [B]{next<A!|B!?>{id #__typename}} id #__typename}} id #__typename}}
        query Q{node{...on B{next{__typename}}}} => {node<A!|B!?>{[B]{next<A!|B!?>{#__typename id}} id #__typename}}";
    assert_eq!(rt; wrong_rows(rt.alloc(), NARROWING, rows)?.as_str(), "");
    Ok(())
}
