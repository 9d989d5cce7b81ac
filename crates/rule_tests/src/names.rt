//! The rules on names hold. That each of them is kept is shown by the rows.
use crate::texts::{documents, schema};
use plan_project::check_names;
use std::test::Fail;

const SCHEMA: &str = "type Query { me: User } type User { name: Int }";

#[test]
fn names_are_accepted(rt: HostRuntime) -> Result<(), Fail> {
    let schema = schema(rt.alloc(), SCHEMA)?;
    let documents = documents(
        rt.alloc(),
        "query A { me { ...F } }; fragment F on User { name }",
    )?;
    assert!(rt; check_names(rt.alloc(), &schema, &documents).is_ok());
    Ok(())
}
