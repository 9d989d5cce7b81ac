//! The fields of steps by their response keys.
ghost use Rattle.std.specs.Prelude.{◌≡◌, ◌<◌, [], ◌∷◌, map, length, OnOk, IfOk};
ghost use Rattle.plan_ir.specs.NormalMeaning.{collect_steps, collect_plan};
ghost use Rattle.plan_ir.specs.NormalKeys.{keys_of};
ghost use Rattle.plan_ir.specs.NormalView.{step_of};
ghost use Rattle.plan_ir.specs.store_model.Items.{asked_of, grouped_onto, groups_at, with_asked};
ghost use Rattle.plan_groups.specs.FieldView.{asked_at, plan_at, IsKept};
ghost use Rattle.plan_groups.specs.Placed.{groups_in, IsPlaced};
ghost use Rattle.plan_groups.specs.Putting.{put_at};

use crate::field::{Call, FieldAt, PlanAt, connection_in, form_of_objects};
use crate::group::GroupAt;
use crate::guards::guard_passes;
use crate::room::total;
use plan_ir::{Env, NoMemory, NormalStep, NormalSteps, SharedText};
use std::alloc::Global;
use std::collections::HashMap;

/// Fields by their response keys, in order of first response key.
#[derive(Drop)]
pub(crate) struct Gathered<'p> {
    pub(crate) groups: Vec<GroupAt<'p>>,
    /// Where the fields of a response key stand.
    pub(crate) places: HashMap<&'p str, usize>,
}

/// The fields that plans ask of an object of that type.
pub(crate) fn gather<'p>(
    alloc: Global,
    object: &str,
    parts: &[PlanAt<'p>],
) -> Result<Vec<GroupAt<'p>>, NoMemory>
    ensures { IfOk result (λ groups. groups.items ≡ groups_at collect_plan object.now (map plan_at parts.now)) }
{
    let mut gathered = Gathered::with_room(alloc, total(parts, |part| part.len()))?;
    'parts: for part in parts {
        gathered.put_part(alloc, object, part)?;
    }
    Ok(gathered.groups)
}

impl<'p> Gathered<'p> {
    /// No field, and room for those of so many steps.
    fn with_room(alloc: Global, steps: usize) -> Result<Gathered<'p>, NoMemory>
        ensures none { IfOk result (λ gathered. groups_in gathered ≡ []) }
        ensures placed { IfOk result IsPlaced }
    {
        Ok(Gathered {
            groups: Vec::with_capacity(alloc, steps)?,
            places: HashMap::with_capacity(alloc, steps)?,
        })
    }

    /// Puts the fields of a plan.
    fn put_part(&mut self, alloc: Global, object: &str, part: &PlanAt<'p>) -> Result<(), NoMemory>
        requires { IsPlaced self.old }
        ensures put { OnOk result (groups_in self.new ≡ grouped_onto (groups_in self.old) (asked_of (collect_plan object.now (plan_at part.now)))) }
        ensures placed { OnOk result (IsPlaced self.new) }
    {
        match part.steps {
            Some(steps) => self.put_steps(alloc, part.env, object, steps),
            None => Ok(()),
        }
    }

    /// Puts the fields of steps.
    #[cycle(gather)]
    fn put_steps(
        &mut self,
        alloc: Global,
        env: &'p Env,
        object: &str,
        steps: &'p NormalSteps,
    ) -> Result<(), NoMemory>
        requires { IsPlaced self.old }
        ensures put { OnOk result (groups_in self.new ≡ grouped_onto (groups_in self.old) (asked_of (collect_steps env.now.values object.now steps.now))) }
        ensures placed { OnOk result (IsPlaced self.new) }
    {
        let items = steps.as_slice();
        let keys = steps.keys();
        'steps: for (at, step) in items.iter().enumerate() {
            self.put_step(alloc, env, object, step, &keys[at])?;
        }
        Ok(())
    }

    /// Puts the field of a step, or the fields behind a guard that lets them.
    #[cycle(gather)]
    fn put_step(
        &mut self,
        alloc: Global,
        env: &'p Env,
        object: &str,
        step: &'p NormalStep,
        key: &'p Option<SharedText>,
    ) -> Result<(), NoMemory>
        requires placed { IsPlaced self.old }
        requires key { key.now ∷ [] ≡ keys_of (step_of step.now) }
        ensures put { OnOk result (groups_in self.new ≡ grouped_onto (groups_in self.old) (asked_of (collect_steps env.now.values object.now (step_of step.now)))) }
        ensures placed { OnOk result (IsPlaced self.new) }
    {
        match step {
            NormalStep::Typename { response } => {
                self.put(alloc, FieldAt::type_name(env, response))
            }
            NormalStep::Leaf {
                response,
                name,
                arguments,
            } => self.put(
                alloc,
                FieldAt::leaf(env, response, name, arguments, key.as_ref()),
            ),
            NormalStep::Object {
                response,
                name,
                arguments,
                many,
                types,
                identified,
                open_type,
                connection,
                child,
            } => {
                let field = FieldAt {
                    response,
                    call: Some(Call { name, arguments }),
                    connection: connection_in(connection),
                    form: form_of_objects(*many, types, identified, *open_type),
                    part: PlanAt::new(env, child),
                    key: key.as_ref(),
                };
                self.put(alloc, field)
            }
            NormalStep::Guarded { guard, child } => {
                let passes = guard_passes(alloc, env, object, guard)?;
                if !passes {
                    return Ok(());
                }
                self.put_steps(alloc, env, object, &child.steps)
            }
        }
    }

    /// Puts a field behind those of its response key.
    fn put(&mut self, alloc: Global, field: FieldAt<'p>) -> Result<(), NoMemory>
        requires placed { IsPlaced self.old }
        requires kept { IsKept field }
        ensures put { OnOk result (groups_in self.new ≡ with_asked (groups_in self.old) (asked_at field.entry)) }
        ensures placed { OnOk result (IsPlaced self.new) }
    {
        let key = field.response.as_str();
        match self.places.get(key) {
            Some(place) => {
                put_behind(alloc, &mut self.groups, *place, field)?;
                Ok(())
            }
            None => {
                let group = GroupAt::of(alloc, field)?;
                drop(self.places.insert(key, self.groups.len())?);
                self.groups.push(group)?;
                Ok(())
            }
        }
    }
}

/// Puts a field behind those of the group at a place.
fn put_behind<'p>(
    alloc: Global,
    groups: &mut Vec<GroupAt<'p>>,
    place: usize,
    field: FieldAt<'p>,
) -> Result<(), NoMemory>
    requires { place < length groups.old.items }
    ensures { OnOk result (groups.new.items ≡ put_at place groups.old.items (asked_at field.entry)) }
{
    let group = &mut groups[place];
    group.add(alloc, field)?;
    Ok(())
}
