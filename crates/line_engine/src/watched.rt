//! What reads and watches show.
ghost use Rattle.std.specs.Prelude.{◌≡◌, ◌+◌, ◌≤◌, ◌++◌, ◌∷◌, [], List, ℕ, None, Some, IfOk};
ghost use Rattle.plan_project.specs.plan_order.Alike.{ReadAlike};
ghost use Rattle.plan_project.specs.plan_order.Ordered.{IsOrdered};
ghost use Rattle.plan_project.specs.Lookups as lookups;
ghost use Rattle.line_engine.specs.Handles.{held_as};
ghost use Rattle.line_engine.specs.Operations.{HoldsPlan};
ghost use Rattle.line_engine.specs.Parts.{IsProject};
ghost use Rattle.line_engine.specs.Stands.{KeepsHandle, ShowsPart};
ghost use Rattle.relay_machine.specs.Machine as machine;
ghost use Rattle.relay_machine.specs.Printed as printed;
ghost use Rattle.plan_ir.specs.schema_types.Environments.{Values, environment};
ghost use Rattle.plan_ir.specs.schema_types.Sites.{FragmentAt};
ghost use Rattle.plan_ir.specs.store_model.Records.{Records};
ghost use Rattle.plan_ir.specs.store_model.Walks.{standings};
ghost use Rattle.store_watch.specs.store_read.Reading.{reading_of, slots};
ghost use Rattle.store_watch.specs.Rows.{look_of};
ghost use Rattle.store_watch.specs.Watching.{read_of, shows};

use crate::environments::with_locals;
use crate::said::operation_held;
use plan_ir::{Env, Id, NoMemory, ReaderPlan, Words};
use plan_project::{CompiledFragment, Project};
use relay_lines::{line_of_read, read_line};
use std::alloc::Global;
use std::rc::Rc;
use store_retain::{Held, RecordSource};
use store_watch::{Snapshot, Watched, read};

/// The id of the record at which operations are read.
const ROOT: &str = "client:root";

/// What the operation that a handle holds shows: its own selections, of the root record.
pub(crate) fn whole_operation(
    alloc: Global,
    project: &Project,
    held: &Held,
    handle: &Words,
) -> Result<Watched, NoMemory>
    requires { HoldsPlan project.now.0 project.now.1 held.now }
    ensures shown { IfOk result (λ what. (p : machine.Project) (h : machine.Handle) → IsProject project.now p → KeepsHandle p (held_as handle.now held.now) h
        → ShowsPart p (look_of what) h None) }
    ensures found { IfOk result (λ what. (p : machine.Project) (h : machine.Handle) → IsProject project.now p → KeepsHandle p (held_as handle.now held.now) h
        → (m : Records) → machine.operation_read p m h ≡ read_of (slots m) (look_of what)) }
{
    let compiled = operation_held(project, held);
    Ok(Watched {
        handle: handle.copy()?,
        fragment: None,
        plan: held.reader.clone()?,
        types: compiled.types.copy()?,
        env: held.env.clone()?,
        id: Words::new(alloc, ROOT)?,
    })
}

/// What a fragment shows of the record at an id, under the operation that a handle holds, with these
/// values of its local variables.
pub(crate) fn fragment_at(
    alloc: Global,
    held: &Held,
    fragment: &CompiledFragment,
    scope: &Env,
    handle: &Words,
    id: &Id,
) -> Result<Watched, NoMemory>
    ensures shown { IfOk result (λ what. (p : machine.Project) (h : machine.Handle) (f : FragmentAt) (n : List ℕ) → lookups.fragment_in p.defs p.documents n ≡ Some f
        → lookups.KeepsFragment p.defs n f fragment.now → lookups.ReadsFragment p.defs p.documents f fragment.now → KeepsHandle p (held_as handle.now held.now) h
        → (given : Values) → scope.now.values ≡ environment fragment.now.locals given
        → ShowsPart p (look_of what) h (Some (record { fragment = f; scope = scope.now.values; id = id.now }))) }
    ensures found { IfOk result (λ what. (p : machine.Project) (h : machine.Handle) (f : FragmentAt) (n : List ℕ) → lookups.KeepsFragment p.defs n f fragment.now
        → lookups.ReadsFragment p.defs p.documents f fragment.now → KeepsHandle p (held_as handle.now held.now) h → (given : Values) → scope.now.values ≡ environment fragment.now.locals given
        → (m : Records) → machine.fragment_read p m h f scope.now.values id.now ≡ read_of (slots m) (look_of what)) }
{
    let env = with_locals(alloc, &held.env, &scope.values)?;
    Ok(Watched {
        handle: handle.copy()?,
        fragment: Some(fragment.name.copy()?),
        plan: fragment.reader.clone()?,
        types: fragment.types.copy()?,
        env: Rc::new(alloc, env)?,
        id: id.copy()?,
    })
}

/// What is shown of these records.
pub(crate) fn look<S: RecordSource>(
    alloc: Global,
    source: &S,
    what: &Watched,
    steps: &mut S::Count,
) -> Result<Snapshot, NoMemory>
    ensures read { IfOk result (λ snapshot. reading_of snapshot ≡ shows (slots (S.records source.now)) (look_of what.now)) }
    ensures looks { S.Count.looks steps.new ≤ S.Count.looks steps.old + standings (read_of (slots (S.records source.now)) (look_of what.now)) }
    ensures applies { S.Count.applies steps.new ≡ S.Count.applies steps.old }
{
    let plan = what.plan.plan();
    read(
        alloc,
        source,
        plan,
        &what.types,
        &what.env,
        &what.id,
        &what.handle,
        steps,
    )
}

/// The line that answers a read of these records. Where the plan can be put in order, its data is written
/// as it is read.
pub(crate) fn read_line_of<S: RecordSource>(
    alloc: Global,
    source: &S,
    what: &Watched,
    n: u64,
    steps: &mut S::Count,
) -> Result<Words, NoMemory>
    ensures line { IfOk result (λ words. words ++ 10 ∷ [] ≡ printed.read_line n (shows (slots (S.records source.now)) (look_of what.now))) }
    ensures looks { S.Count.looks steps.new ≤ S.Count.looks steps.old + standings (read_of (slots (S.records source.now)) (look_of what.now)) }
    ensures applies { S.Count.applies steps.new ≡ S.Count.applies steps.old }
{
    match what.plan.ordered() {
        Some(plan) => ordered_line_of(alloc, source, what, plan, n, steps),
        None => {
            let snapshot = look(alloc, source, what, steps)?;
            read_line(alloc, &snapshot, n)
        }
    }
}

/// The same by this plan, which is in order and reads alike.
fn ordered_line_of<S: RecordSource>(
    alloc: Global,
    source: &S,
    what: &Watched,
    plan: &ReaderPlan,
    n: u64,
    steps: &mut S::Count,
) -> Result<Words, NoMemory>
    requires order { IsOrdered plan.now.steps }
    requires alike { ReadAlike what.now.plan.value.steps plan.now.steps }
    ensures line { IfOk result (λ words. words ++ 10 ∷ [] ≡ printed.read_line n (shows (slots (S.records source.now)) (look_of what.now))) }
    ensures looks { S.Count.looks steps.new ≤ S.Count.looks steps.old + standings (read_of (slots (S.records source.now)) (look_of what.now)) }
    ensures applies { S.Count.applies steps.new ≡ S.Count.applies steps.old }
{
    line_of_read(
        alloc,
        source,
        plan,
        &what.types,
        &what.env,
        &what.id,
        &what.handle,
        n,
        steps,
    )
}
