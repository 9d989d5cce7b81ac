//! The facts of a response.
ghost use Rattle.std.specs.Prelude.{◌≡◌, ◌∷◌, [], option_map, true, Some, IfErr, IfOk, OnOk};
ghost use Rattle.plan_groups.specs.FieldView.{plan_at};
ghost use Rattle.plan_ir.specs.NormalMeaning.{collect_plan, is_formed, plan_says};
ghost use Rattle.serde_json.specs.Data as J;
ghost use Rattle.serde_json.specs.View.{members_view, view};
ghost use Rattle.plan_ir.specs.store_model.Says as says;
ghost use Rattle.plan_ir.specs.store_model.Verdicts.{content};
ghost use Rattle.store_report.specs.Gathering.{gathered_onto};
ghost use Rattle.store_report.specs.Refusals.{IsRefusedBy};

use crate::caching::caches_below;
use crate::members::member;
use crate::taken::taken;
use crate::walk::say_groups;
use plan_groups::{Groups, PlanAt};
use plan_ir::{Cause, Env, Facts, NoMemory, NormalPlan, SharedText, Words};
use serde_json::{Map, Value};
use std::alloc::Global;
use store_report::{Gathered, NormFault, Path, Untaken};

/// The facts of a response to an operation, by its plan and environment. Err: the least fault of the
/// response, by path and cause; where there is none, the first conflict by id and key. The response is
/// walked once; where two values meet, a second walk tells where they are said. The groups of a list's
/// elements are made once a walk for each of their types.
pub fn facts(
    alloc: Global,
    plan: &NormalPlan,
    env: &Env,
    response: &Value,
) -> Result<Facts, NormFault>
    requires formed { is_formed plan.now.steps ≡ true }
    ensures facts { IfOk result (λ facts. plan_says env.now.root env.now.values plan.now.steps (view response.now) ≡ content facts) }
    ensures fault { IfErr result (IsRefusedBy (plan_says env.now.root env.now.values plan.now.steps (view response.now))) }
{
    match taken(alloc, plan, env, response) {
        Ok(facts) => Ok(facts),
        Err(Untaken::Fault(fault)) => Err(NormFault::Payload(fault)),
        Err(Untaken::Clash) => said(alloc, plan, env, response),
        Err(Untaken::NoMemory) => Err(NormFault::NoMemory),
    }
}

/// The facts of a response, or what is wrong in it first.
fn said(alloc: Global, plan: &NormalPlan, env: &Env, response: &Value) -> Result<Facts, NormFault>
    requires formed { is_formed plan.now.steps ≡ true }
    ensures facts { IfOk result (λ facts. plan_says env.now.root env.now.values plan.now.steps (view response.now) ≡ content facts) }
    ensures fault { IfErr result (IsRefusedBy (plan_says env.now.root env.now.values plan.now.steps (view response.now))) }
{
    let Ok(mut gathered) = Gathered::new(alloc) else {
        return Err(NormFault::NoMemory);
    };
    let part = PlanAt::new(env, plan);
    let Ok(()) = say_response(alloc, env.root.as_str(), part, response, &mut gathered) else {
        return Err(NormFault::NoMemory);
    };
    gathered.verdict(alloc)
}

/// Gathers what a response says.
fn say_response<'r>(
    alloc: Global,
    root: &str,
    part: PlanAt<'r>,
    response: &'r Value,
    gathered: &mut Gathered<'r>,
) -> Result<(), NoMemory>
    ensures { OnOk result (gathered.new ≡ gathered_onto gathered.old (says.response_says collect_plan root.now (plan_at part.entry ∷ []) (view response.now))) }
{
    match response {
        Value::Null => gathered.fault(&Path::new(), Cause::NoData),
        Value::Bool(_) => gathered.fault(&Path::new(), Cause::NoData),
        Value::Number(_) => gathered.fault(&Path::new(), Cause::NoData),
        Value::String(_) => gathered.fault(&Path::new(), Cause::NoData),
        Value::Array(_) => gathered.fault(&Path::new(), Cause::NoData),
        Value::Object(members) => say_data(alloc, root, part, member(members, "data"), gathered),
    }
}

/// Gathers what the data of a response says.
fn say_data<'r>(
    alloc: Global,
    root: &str,
    part: PlanAt<'r>,
    given: Option<&'r Value>,
    gathered: &mut Gathered<'r>,
) -> Result<(), NoMemory>
    ensures { OnOk result (gathered.new ≡ gathered_onto gathered.old (says.root_says collect_plan root.now (plan_at part.entry ∷ []) (option_map (λ v. view v.now) given.entry))) }
{
    match given {
        None => gathered.fault(&Path::new(), Cause::NoData),
        Some(value) => match value {
            Value::Null => gathered.fault(&Path::new(), Cause::NoData),
            Value::Bool(_) => gathered.fault(&Path::new(), Cause::Shape),
            Value::Number(_) => gathered.fault(&Path::new(), Cause::Shape),
            Value::String(_) => gathered.fault(&Path::new(), Cause::Shape),
            Value::Array(_) => gathered.fault(&Path::new(), Cause::Shape),
            Value::Object(members) => say_root(alloc, root, part, members, gathered),
        },
    }
}

/// Gathers what the root object says.
fn say_root<'r>(
    alloc: Global,
    root: &str,
    part: PlanAt<'r>,
    members: &'r Map<String, Value>,
    gathered: &mut Gathered<'r>,
) -> Result<(), NoMemory>
    ensures { OnOk result (gathered.new ≡ gathered_onto gathered.old (says.root_says collect_plan root.now (plan_at part.entry ∷ []) (Some (J.object (members_view members.now.entries))))) }
{
    let parts = [part];
    let groups = Groups::of(alloc, root, &parts)?;
    let mut below = caches_below(alloc, groups.as_slice())?;
    let id = SharedText::new(alloc, Words::new(alloc, "client:root")?)?;
    let path = Path::new();
    gathered.name(&id, Words::new(alloc, "__Root")?, &path)?;
    say_groups(
        alloc,
        groups.as_slice(),
        &mut below,
        &id,
        members,
        &path,
        gathered,
    )
}
