//! What responses say.
ghost use Rattle.std.specs.Prelude.{◌≡◌, true, is_some, IfOk, Some};
ghost use Rattle.plan_ir.specs.NormalMeaning.{is_formed};
ghost use Rattle.plan_project.specs.Lookups.{IsOperation, operation_in};
ghost use Rattle.line_engine.specs.Handles.{held_as};
ghost use Rattle.line_engine.specs.Parts.{IsProject, verdict_told};
ghost use Rattle.line_engine.specs.Stands.{KeepsHandle};
ghost use Rattle.relay_machine.specs.Machine as machine;
ghost use Rattle.plan_ir.specs.schema_types.Sites.{OperationAt};
ghost use Rattle.serde_json.specs.View.{view};

use plan_ir::{Facts, NoMemory, PayloadFault};
use plan_project::{Compiled, Project};
use serde_json::Value;
use std::alloc::Global;
use store_norm::{NormFault, facts};
use store_retain::Held;

/// What a response says to the operation of a handle: its facts, or its first fault.
#[derive(Drop)]
pub(crate) enum Told {
    Facts(Facts),
    Fault(PayloadFault),
}

/// What a response says to the operation that a handle holds.
pub(crate) fn said_to(
    alloc: Global,
    project: &Project,
    held: &Held,
    response: &Value,
) -> Result<Told, NoMemory>
    requires { is_some (operation_in project.now.0 project.now.1 held.now.name) ≡ true }
    ensures { IfOk result (λ told. (p : machine.Project) (h : machine.Handle) → IsProject project.now p → KeepsHandle p (held_as h.name held.now) h
        → verdict_told told ≡ machine.said_to p h (view response.now)) }
{
    let compiled = operation_held(project, held);
    match facts(alloc, compiled.normal.as_ref(), &held.env, response) {
        Ok(said) => Ok(Told::Facts(said)),
        Err(NormFault::Payload(fault)) => Ok(Told::Fault(fault)),
        Err(NormFault::NoMemory) => Err(NoMemory),
    }
}

/// The operation that a handle holds, with its plans; takes no memory.
pub(crate) fn operation_held<'p>(project: &'p Project, held: &Held) -> &'p Compiled
    requires { is_some (operation_in project.now.0 project.now.1 held.now.name) ≡ true }
    ensures formed { is_formed result.now.normal.value.steps ≡ true }
    ensures is { (o : OperationAt) → operation_in project.now.0 project.now.1 held.now.name ≡ Some o
        → IsOperation project.now.0 project.now.1 held.now.name o result.now }
{
    match project.operation(held.name.as_str()) {
        Some(compiled) => compiled,
        None => unreachable!(),
    }
}
