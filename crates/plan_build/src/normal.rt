//! The plan by which the responses to an operation are normalized.
ghost use Rattle.std.specs.Prelude.{◌≡◌, [], ◌∷◌, IfOk};
ghost use Rattle.plan_build.specs.Plans.{IsFitting, IsPaged, IsTyped, IsWellFormed, MeansTheSame, ReachesTheSame};
ghost use Rattle.plan_build.specs.Steps.{plan_of};

use crate::around::Around;
use crate::kept::Kept;
use crate::steps::make_steps;
use plan_ir::{Expanded, Ids, Name, NoMemory, NormalPlan, Schema};
use std::alloc::Global;

/// The list of one type.
pub fn one_type(alloc: Global, name: &Name) -> Result<Ids, NoMemory>
    ensures { IfOk result (λ ids. ids ≡ name.now ∷ []) }
{
    let mut names = Vec::new(alloc);
    names.push(name.copy()?)?;
    let ids = Ids::sort(names)?;
    Ok(ids)
}

/// The plan whose steps come of the nodes of an operation.
fn plan_of(alloc: Global, schema: &Schema, expanded: &Expanded) -> Result<NormalPlan, NoMemory>
    ensures { IfOk result (λ plan. plan.steps ≡ plan_of schema.now expanded.now) }
{
    let types = one_type(alloc, &expanded.root)?;
    let mut kept = Kept::new(alloc);
    let steps = make_steps(
        alloc,
        schema,
        &mut kept,
        Around::Listed(&types),
        &expanded.selections,
    )?;
    Ok(NormalPlan { steps })
}

/// The plan of an expanded operation: what a response to it is asked for on each object type, as
/// guarded steps. Its only error is that memory is lacking.
pub fn normal_plan(
    alloc: Global,
    schema: &Schema,
    expanded: &Expanded,
) -> Result<NormalPlan, NoMemory>
    ensures formed { IfOk result (λ plan. IsWellFormed schema.now plan.steps) }
    ensures typed { IfOk result (λ plan. IsTyped schema.now expanded.now plan.steps) }
    ensures paged { IfOk result (λ plan. IsPaged schema.now expanded.now plan.steps) }
    ensures fits { IfOk result (λ plan. IsFitting schema.now expanded.now plan.steps) }
    ensures means { IfOk result (λ plan. MeansTheSame schema.now expanded.now plan.steps) }
    ensures reaches { IfOk result (λ plan. ReachesTheSame schema.now expanded.now plan.steps) }
{
    let plan = plan_of(alloc, schema, expanded)?;
    Ok(plan)
}
