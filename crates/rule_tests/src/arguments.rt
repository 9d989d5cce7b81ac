//! The rules on arguments, directives and variables hold. That each of them is kept is shown by the
//! rows.
use crate::texts::{documents, schema};
use plan_project::check_args;
use std::test::Fail;

#[test]
fn arguments_are_accepted(rt: HostRuntime) -> Result<(), Fail> {
    let schema = schema(
        rt.alloc(),
        "type Query { user(id: Int!, rows: [[Int]]): Int }",
    )?;
    let documents = documents(
        rt.alloc(),
        "query A($v: Int!) { user(id: $v, rows: 1) @skip(if: true) ...F }; fragment F on Query { user(id: $v) }",
    )?;
    assert!(rt; check_args(rt.alloc(), &schema, &documents).is_ok());
    Ok(())
}
