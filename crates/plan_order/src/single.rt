//! Single steps, of which plans are put together anew.
ghost use Rattle.std.specs.Prelude.{◌≡◌, ◌∷◌, [], map, IfOk};
ghost use Rattle.std.specs.List.{AllByRecursion};
ghost use Rattle.plan_ir.specs.Reader as reader;
ghost use Rattle.plan_ir.specs.ReaderView.{step_of};
ghost use Rattle.plan_order.specs.Singles.{IsKeyed, guard_each, over_child, single_of, step_in, steps_in};

use plan_ir::{Guard, NoMemory, ReaderList, ReaderPlan, ReaderStep, copy_of_conn};
use std::alloc::Global;

/// A step by itself, and what it is put in order by: the response key of its field, or its fragment.
#[derive(Debug, Drop)]
pub(crate) struct Single<'p> {
    pub(crate) key: &'p str,
    pub(crate) step: ReaderStep,
}

/// One step as a list.
pub(crate) fn one_of<'p>(
    alloc: Global,
    key: &'p str,
    step: ReaderStep,
) -> Result<Vec<Single<'p>>, NoMemory>
    ensures { IfOk result (λ one. one.items ≡ single_of key.entry step ∷ []) }
{
    let mut one = Vec::with_capacity(alloc, 1)?;
    one.push(Single { key, step })?;
    Ok(one)
}

/// The steps as one plan.
pub(crate) fn plan_of(alloc: Global, singles: Vec<Single<'_>>) -> Result<ReaderPlan, NoMemory>
    ensures { IfOk result (λ plan. plan.steps ≡ steps_in singles.entry.items) }
{
    let mut steps = ReaderList::new(alloc);
    'singles: for single in singles {
        let Single { key: _, step } = single;
        steps.push(step)?;
    }
    let steps = steps.share(alloc)?;
    Ok(ReaderPlan { steps })
}

/// The step with another plan below its field, where it is a field of objects; else the same step.
pub(crate) fn with_child(step: &ReaderStep, below: ReaderPlan) -> Result<ReaderStep, NoMemory>
    ensures { IfOk result (λ copy. step_of copy ≡ over_child (step_of step.now) below.steps) }
{
    match step {
        ReaderStep::Object {
            response,
            name,
            arguments,
            many,
            types,
            identified,
            open_type,
            connection,
            child: _,
        } => Ok(ReaderStep::Object {
            response: response.copy()?,
            name: name.copy()?,
            arguments: arguments.copy()?,
            many: *many,
            types: types.copy()?,
            identified: identified.copy()?,
            open_type: *open_type,
            connection: copy_of_conn(connection)?,
            child: below,
        }),
        _ => step.copy(),
    }
}

/// A step alone behind a guard.
fn guarded(alloc: Global, guard: &Guard, step: ReaderStep) -> Result<ReaderStep, NoMemory>
    ensures { IfOk result (λ one. step_of one ≡ reader.guarded guard.now (step_of step) reader.done) }
{
    let mut steps = ReaderList::new(alloc);
    steps.push(step)?;
    let steps = steps.share(alloc)?;
    Ok(ReaderStep::Guarded {
        guard: guard.copy()?,
        child: ReaderPlan { steps },
    })
}

/// The steps, each behind a guard of its own.
pub(crate) fn each_guarded<'p>(
    alloc: Global,
    guard: &Guard,
    singles: Vec<Single<'p>>,
) -> Result<Vec<Single<'p>>, NoMemory>
    ensures steps { IfOk result (λ behind. steps_in behind.items ≡ guard_each guard.now (map step_in singles.entry.items)) }
    ensures keyed { IfOk result (λ behind. AllByRecursion IsKeyed singles.entry.items → AllByRecursion IsKeyed behind.items) }
{
    let mut behind = Vec::with_capacity(alloc, singles.len())?;
    'singles: for single in singles {
        let Single { key, step } = single;
        let step = guarded(alloc, guard, step)?;
        behind.push(Single { key, step })?;
    }
    Ok(behind)
}
