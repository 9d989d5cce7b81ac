//! Whether plans are ones that responses are normalized by.
ghost use Rattle.std.specs.Prelude.{◌≡◌};
ghost use Rattle.plan_ir.specs.NormalMeaning as meaning;
ghost use Rattle.plan_ir.specs.NormalView.{step_of};

use plan_ir::{Ids, Name, NormalPlan, NormalStep, NormalSteps, is_name};

/// Whether a plan may be given to `facts`. False where a field of the plan has the name `__typename`,
/// which a `NormalStep::Typename` is for, or where one of the types below a field of objects is no
/// Name (GraphQL, October 2021, section 2.1.9); each step counts, also one behind a guard that does
/// not let it. Plans that are made of the operations of a project are formed. Each step is looked at
/// once; takes no memory.
pub fn is_formed(plan: &NormalPlan) -> bool
    ensures { result ≡ meaning.is_formed plan.now.steps }
{
    are_formed(&plan.steps)
}

/// Whether steps are formed.
#[cycle(formed)]
fn are_formed(steps: &NormalSteps) -> bool
    ensures { result ≡ meaning.is_formed steps.now }
{
    'steps: for step in steps.as_slice() {
        if !is_step_formed(step) {
            return false;
        }
    }
    true
}

/// Whether a step is formed, with what stands below it.
#[cycle(formed)]
fn is_step_formed(step: &NormalStep) -> bool
    ensures { result ≡ meaning.is_formed (step_of step.now) }
{
    match step {
        NormalStep::Typename { .. } => true,
        NormalStep::Leaf { name, .. } => is_field_name(name),
        NormalStep::Object {
            name,
            types,
            child,
            ..
        } => {
            if !is_field_name(name) {
                return false;
            }
            if !are_names(types) {
                return false;
            }
            are_formed(&child.steps)
        }
        NormalStep::Guarded { child, .. } => are_formed(&child.steps),
    }
}

/// Whether the name is that of a field, and not of the type name.
fn is_field_name(name: &Name) -> bool
    ensures { result ≡ meaning.is_field_name name.now }
{
    name.as_str() != "__typename"
}

/// Whether all texts are Names.
fn are_names(texts: &Ids) -> bool
    ensures { result ≡ meaning.are_names texts.now }
{
    'texts: for text in texts.as_slice() {
        if !is_name(text.as_str()) {
            return false;
        }
    }
    true
}
