//! Rows of plans, responses, and what the responses say to the plans.
use crate::plans::plan;
use crate::printing::{facts_text, fault_text};
use plan_ir::{Env, Pairs, Plain, Words};
use serde_json::Value;
use std::alloc::Global;
use std::test::Fail;
use store_norm::{facts, is_formed};

/// The root type `Query`, and the variables `id`, `n`, `no` and `yes`.
fn env(alloc: Global) -> Result<Env, Fail> {
    let mut values = Pairs::new(alloc);
    let id = Words::new(alloc, "u1")?;
    values.push(Words::new(alloc, "id")?, Plain::Text(id))?;
    values.push(Words::new(alloc, "n")?, Plain::Null)?;
    values.push(Words::new(alloc, "no")?, Plain::Bool(false))?;
    values.push(Words::new(alloc, "yes")?, Plain::Bool(true))?;
    Ok(Env {
        root: Words::new(alloc, "Query")?,
        values,
    })
}

/// What a response says to a plan, as a text.
fn said(alloc: Global, env: &Env, plan_text: &str, response: &str) -> Result<String, Fail> {
    let plan = plan(alloc, plan_text)?;
    let response = Value::from_str(alloc, response)?;
    if !is_formed(&plan) {
        return Ok(String::from_str(alloc, "not formed")?);
    }
    match facts(alloc, &plan, env, &response) {
        Ok(facts) => facts_text(alloc, &facts),
        Err(fault) => fault_text(alloc, &fault),
    }
}

/// The rows that are wrong, each with what is said instead; nothing where all are as they should be. A
/// row is a plan, a response, and what it says, with ` => ` between them.
pub(crate) fn wrong_rows(alloc: Global, rows: &str) -> Result<String, Fail> {
    let env = env(alloc)?;
    let mut wrong = String::new(alloc);
    for row in rows.lines() {
        let (plan, rest) = row.trim().split_once(" => ").unwrap_or(("", ""));
        let (response, wanted) = rest.split_once(" => ").unwrap_or(("", ""));
        let got = said(alloc, &env, plan, response)?;
        if got.as_str() != wanted {
            wrong.push_str(response)?;
            wrong.push_str(" => ")?;
            wrong.push_str(got.as_str())?;
            wrong.push_str("\n")?;
        }
    }
    Ok(wrong)
}
