//! The rules on fields hold. That each of them is kept is shown by the rows.
use crate::texts::{documents, schema};
use plan_project::check_fields;
use std::test::Fail;

const SCHEMA: &str = "type Query { me: User thing: Thing } type User { name: String }\n\
    type Team { size: Int } union Thing = Team type Subscription { tick: Int }";

#[test]
fn fields_are_accepted(rt: HostRuntime) -> Result<(), Fail> {
    let schema = schema(rt.alloc(), SCHEMA)?;
    let documents = documents(
        rt.alloc(),
        "query A { me { ...F } thing { ... on Team { size } } }; fragment F on User { name }; subscription B { tick }",
    )?;
    assert!(rt; check_fields(rt.alloc(), &schema, &documents).is_ok());
    Ok(())
}

/// Fragments that lead back to themselves are no matter of these rules, and are followed.
#[test]
fn fragments_that_lead_back_are_followed(rt: HostRuntime) -> Result<(), Fail> {
    let schema = schema(rt.alloc(), SCHEMA)?;
    let one = documents(
        rt.alloc(),
        "subscription A { ...F }; fragment F on Subscription { ...G }; fragment G on Subscription { tick ...F }",
    )?;
    assert!(rt; check_fields(rt.alloc(), &schema, &one).is_ok());
    let two = documents(
        rt.alloc(),
        "subscription A { ...F }; fragment F on Subscription { a: tick ...G }; fragment G on Subscription { tick ...F }",
    )?;
    assert!(rt; check_fields(rt.alloc(), &schema, &two).is_err());
    Ok(())
}
