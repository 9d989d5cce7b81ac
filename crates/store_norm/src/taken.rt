//! The facts of a response by rows.
ghost use Rattle.std.specs.Prelude.{◌≡◌, ◌∷◌, [], option_map, true, Some, IfErr, IfOk, OnOk};
ghost use Rattle.plan_groups.specs.FieldView.{plan_at};
ghost use Rattle.plan_ir.specs.NormalMeaning.{collect_plan, is_formed, plan_says};
ghost use Rattle.serde_json.specs.Data as J;
ghost use Rattle.serde_json.specs.View.{members_view, view};
ghost use Rattle.plan_ir.specs.store_model.Says as says;
ghost use Rattle.plan_ir.specs.store_model.Verdicts.{content};
ghost use Rattle.store_report.specs.ObjectRows.{Adds, IsUntaken};

use crate::caching::caches_below;
use crate::members::member;
use crate::taking::take_groups;
use plan_groups::{Groups, PlanAt};
use plan_ir::{Cause, Env, Facts, NoMemory, NormalPlan, SharedText, Words};
use serde_json::{Map, Value};
use std::alloc::Global;
use store_report::{ObjectRows, Trail, Untaken};

/// The facts of a response to an operation, by its plan and environment. Err: its least fault, by path
/// and cause; where there is none, that there are two values for one field, wherever they are said.
pub(crate) fn taken(
    alloc: Global,
    plan: &NormalPlan,
    env: &Env,
    response: &Value,
) -> Result<Facts, Untaken>
    requires formed { is_formed plan.now.steps ≡ true }
    ensures facts { IfOk result (λ facts. plan_says env.now.root env.now.values plan.now.steps (view response.now) ≡ content facts) }
    ensures untaken { IfErr result (IsUntaken (says.response_says collect_plan env.now.root (record { environment = env.now.values; steps = plan.now.steps } ∷ []) (view response.now))) }
{
    let mut rows = ObjectRows::new(alloc);
    let part = PlanAt::new(env, plan);
    take_response(alloc, env.root.as_str(), part, response, &mut rows)?;
    rows.into_facts(alloc)
}

/// Takes what a response says.
fn take_response<'r>(
    alloc: Global,
    root: &str,
    part: PlanAt<'r>,
    response: &'r Value,
    rows: &mut ObjectRows<'r>,
) -> Result<(), NoMemory>
    ensures { OnOk result (Adds rows.old rows.new (says.response_says collect_plan root.now (plan_at part.entry ∷ []) (view response.now))) }
{
    match response {
        Value::Null => rows.fault(alloc, &Trail::new(), Cause::NoData),
        Value::Bool(_) => rows.fault(alloc, &Trail::new(), Cause::NoData),
        Value::Number(_) => rows.fault(alloc, &Trail::new(), Cause::NoData),
        Value::String(_) => rows.fault(alloc, &Trail::new(), Cause::NoData),
        Value::Array(_) => rows.fault(alloc, &Trail::new(), Cause::NoData),
        Value::Object(members) => take_data(alloc, root, part, member(members, "data"), rows),
    }
}

/// Takes what the data of a response says.
fn take_data<'r>(
    alloc: Global,
    root: &str,
    part: PlanAt<'r>,
    given: Option<&'r Value>,
    rows: &mut ObjectRows<'r>,
) -> Result<(), NoMemory>
    ensures { OnOk result (Adds rows.old rows.new (says.root_says collect_plan root.now (plan_at part.entry ∷ []) (option_map (λ v. view v.now) given.entry))) }
{
    match given {
        None => rows.fault(alloc, &Trail::new(), Cause::NoData),
        Some(value) => match value {
            Value::Null => rows.fault(alloc, &Trail::new(), Cause::NoData),
            Value::Bool(_) => rows.fault(alloc, &Trail::new(), Cause::Shape),
            Value::Number(_) => rows.fault(alloc, &Trail::new(), Cause::Shape),
            Value::String(_) => rows.fault(alloc, &Trail::new(), Cause::Shape),
            Value::Array(_) => rows.fault(alloc, &Trail::new(), Cause::Shape),
            Value::Object(members) => take_root(alloc, root, part, members, rows),
        },
    }
}

/// Takes what the root object says.
fn take_root<'r>(
    alloc: Global,
    root: &str,
    part: PlanAt<'r>,
    members: &'r Map<String, Value>,
    rows: &mut ObjectRows<'r>,
) -> Result<(), NoMemory>
    ensures { OnOk result (Adds rows.old rows.new (says.root_says collect_plan root.now (plan_at part.entry ∷ []) (Some (J.object (members_view members.now.entries))))) }
{
    let parts = [part];
    let groups = Groups::of(alloc, root, &parts)?;
    let mut below = caches_below(alloc, groups.as_slice())?;
    let id = SharedText::new(alloc, Words::new(alloc, "client:root")?)?;
    let trail = Trail::new();
    let mut fields = Vec::with_capacity(alloc, groups.as_slice().len())?;
    take_groups(
        alloc,
        groups.as_slice(),
        &mut below,
        &id,
        members,
        &trail,
        &mut fields,
        rows,
    )?;
    let name = Words::new(alloc, "__Root")?;
    rows.push(id.into_words()?, name, fields)?;
    Ok(())
}
