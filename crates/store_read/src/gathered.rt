//! What plans ask of a record: fields by their response keys, and spreads by their fragments.
ghost use Rattle.std.specs.Prelude.{◌≡◌, ◌<◌, [], ◌∷◌, length, map, set, IfOk, OnOk};
ghost use Rattle.plan_ir.specs.ReaderMeaning.{collect_reader, collect_reading};
ghost use Rattle.plan_ir.specs.ReaderKeys.{keys_of};
ghost use Rattle.plan_ir.specs.ReaderView.{step_of};
ghost use Rattle.plan_groups.specs.Putting.{put_at};
ghost use Rattle.plan_ir.specs.store_model.Items.{asked_of, collect_all, grouped_onto, groups_at, pointers_on, with_asked};
ghost use Rattle.store_read.specs.FieldView.{asked_at, part_at, spread_at, IsKept};
ghost use Rattle.store_read.specs.Gathering.{group_of, groups_in, spreads_in, AreKept, IsPlaced};
ghost use Rattle.store_read.specs.Spreads.{pointers_onto, with_pointer};

use crate::field::{FieldAt, PartAt};
use crate::spread::SpreadAt;
use plan_groups::{Call, connection_in, form_of_objects, guard_passes, total};
use plan_ir::{Env, NoMemory, ReaderStep, ReaderSteps, SharedText};
use std::alloc::Global;
use std::collections::{BTreeMap, HashMap};

/// The fields of one response key.
#[derive(Drop)]
pub(crate) struct Fields<'p> {
    pub(crate) first: FieldAt<'p>,
    pub(crate) others: Vec<FieldAt<'p>>,
}

/// Fields by their response keys, in order of first response key, and the first spread of each
/// fragment.
#[derive(Drop)]
pub(crate) struct Gathered<'p> {
    pub(crate) groups: Vec<Fields<'p>>,
    /// Where the fields of a response key stand.
    pub(crate) places: HashMap<&'p str, usize>,
    pub(crate) spreads: Vec<SpreadAt<'p>>,
    /// Where the spread of a fragment stands.
    pub(crate) fragments: BTreeMap<&'p str, usize>,
}

/// What plans ask of a record of that type. Fields and fragments are found by their names, so n steps
/// take about n * log n steps.
pub(crate) fn gather<'p>(
    alloc: Global,
    object: &str,
    parts: &[PartAt<'p>],
) -> Result<Gathered<'p>, NoMemory>
    ensures groups { IfOk result (λ gathered. groups_in gathered ≡ groups_at collect_reader object.now (map part_at parts.now)) }
    ensures spreads { IfOk result (λ gathered. spreads_in gathered ≡ pointers_on collect_reader object.now (map part_at parts.now)) }
    ensures kept { IfOk result (λ gathered. AreKept gathered.groups.items) }
{
    let mut gathered = Gathered::with_room(alloc, total(parts, |part| part.len()))?;
    'parts: for part in parts {
        gathered.put_part(alloc, object, part)?;
    }
    Ok(gathered)
}

impl<'p> Gathered<'p> {
    /// Nothing, and room for the fields of so many steps.
    fn with_room(alloc: Global, steps: usize) -> Result<Gathered<'p>, NoMemory>
        ensures groups { IfOk result (λ gathered. groups_in gathered ≡ []) }
        ensures spreads { IfOk result (λ gathered. spreads_in gathered ≡ []) }
        ensures placed { IfOk result IsPlaced }
    {
        Ok(Gathered {
            groups: Vec::with_capacity(alloc, steps)?,
            places: HashMap::with_capacity(alloc, steps)?,
            spreads: Vec::new(alloc),
            fragments: BTreeMap::new(alloc),
        })
    }

    /// Puts what a plan asks.
    fn put_part(&mut self, alloc: Global, object: &str, part: &PartAt<'p>) -> Result<(), NoMemory>
        requires { IsPlaced self.old }
        ensures groups { OnOk result (groups_in self.new ≡ grouped_onto (groups_in self.old) (asked_of (collect_reader object.now (part_at part.now)))) }
        ensures spreads { OnOk result (spreads_in self.new ≡ pointers_onto (spreads_in self.old) (collect_reader object.now (part_at part.now))) }
        ensures placed { OnOk result (IsPlaced self.new) }
    {
        match part.steps {
            Some(steps) => self.put_steps(alloc, part.env, object, steps),
            None => Ok(()),
        }
    }

    /// Puts what steps ask.
    #[cycle(gather)]
    fn put_steps(
        &mut self,
        alloc: Global,
        env: &'p Env,
        object: &str,
        steps: &'p ReaderSteps,
    ) -> Result<(), NoMemory>
        requires { IsPlaced self.old }
        ensures groups { OnOk result (groups_in self.new ≡ grouped_onto (groups_in self.old) (asked_of (collect_reading env.now.values object.now steps.now))) }
        ensures spreads { OnOk result (spreads_in self.new ≡ pointers_onto (spreads_in self.old) (collect_reading env.now.values object.now steps.now)) }
        ensures placed { OnOk result (IsPlaced self.new) }
    {
        let items = steps.as_slice();
        let keys = steps.keys();
        'steps: for (at, step) in items.iter().enumerate() {
            self.put_step(alloc, env, object, step, &keys[at])?;
        }
        Ok(())
    }

    /// Puts what a step asks, or what the steps behind a guard ask that lets them.
    #[cycle(gather)]
    fn put_step(
        &mut self,
        alloc: Global,
        env: &'p Env,
        object: &str,
        step: &'p ReaderStep,
        key: &'p Option<SharedText>,
    ) -> Result<(), NoMemory>
        requires placed { IsPlaced self.old }
        requires key { key.now ∷ [] ≡ keys_of (step_of step.now) }
        ensures groups { OnOk result (groups_in self.new ≡ grouped_onto (groups_in self.old) (asked_of (collect_reading env.now.values object.now (step_of step.now)))) }
        ensures spreads { OnOk result (spreads_in self.new ≡ pointers_onto (spreads_in self.old) (collect_reading env.now.values object.now (step_of step.now))) }
        ensures placed { OnOk result (IsPlaced self.new) }
    {
        match step {
            ReaderStep::Typename { response } => {
                self.put_field(alloc, FieldAt::type_name(env, response))
            }
            ReaderStep::Leaf {
                response,
                name,
                arguments,
            } => self.put_field(
                alloc,
                FieldAt::leaf(env, response, name, arguments, key.as_ref()),
            ),
            ReaderStep::Object {
                response,
                name,
                arguments,
                many,
                types,
                identified,
                open_type,
                connection,
                child,
            } => {
                let field = FieldAt {
                    response,
                    call: Some(Call { name, arguments }),
                    connection: connection_in(connection),
                    form: form_of_objects(*many, types, identified, *open_type),
                    part: PartAt::new(env, child),
                    key: key.as_ref(),
                };
                self.put_field(alloc, field)
            }
            ReaderStep::Guarded { guard, child } => {
                let passes = guard_passes(alloc, env, object, guard)?;
                if !passes {
                    return Ok(());
                }
                self.put_steps(alloc, env, object, &child.steps)
            }
            ReaderStep::Pointer {
                fragment,
                arguments,
                inline,
            } => self.put_spread(SpreadAt::new(env, fragment, arguments, inline)),
        }
    }

    /// Puts a field behind those of its response key.
    fn put_field(&mut self, alloc: Global, field: FieldAt<'p>) -> Result<(), NoMemory>
        requires placed { IsPlaced self.old }
        requires kept { IsKept field }
        ensures groups { OnOk result (groups_in self.new ≡ with_asked (groups_in self.old) (asked_at field.entry)) }
        ensures spreads { OnOk result (spreads_in self.new ≡ spreads_in self.old) }
        ensures placed { OnOk result (IsPlaced self.new) }
    {
        let key = field.response.as_str();
        match self.places.get(key) {
            Some(place) => {
                put_behind(&mut self.groups, *place, field)?;
                Ok(())
            }
            None => {
                drop(self.places.insert(key, self.groups.len())?);
                self.groups.push(Fields {
                    first: field,
                    others: Vec::new(alloc),
                })?;
                Ok(())
            }
        }
    }

    /// Puts a spread, unless one of its fragment is there.
    fn put_spread(&mut self, spread: SpreadAt<'p>) -> Result<(), NoMemory>
        requires { IsPlaced self.old }
        ensures groups { OnOk result (groups_in self.new ≡ groups_in self.old) }
        ensures spreads { OnOk result (spreads_in self.new ≡ with_pointer (spreads_in self.old) (spread_at spread.entry)) }
        ensures placed { OnOk result (IsPlaced self.new) }
    {
        let name = spread.fragment.as_str();
        match self.fragments.get(name) {
            Some(_) => Ok(()),
            None => {
                drop(self.fragments.insert(name, self.spreads.len())?);
                self.spreads.push(spread)?;
                Ok(())
            }
        }
    }
}

/// Puts a field behind those of the group at a place.
fn put_behind<'p>(
    groups: &mut Vec<Fields<'p>>,
    place: usize,
    field: FieldAt<'p>,
) -> Result<(), NoMemory>
    requires { place < length groups.old.items }
    ensures put { OnOk result (map group_of groups.new.items ≡ put_at place (map group_of groups.old.items) (asked_at field.entry)) }
    ensures kept { OnOk result (AreKept groups.old.items → AreKept groups.new.items) }
{
    let group = &mut groups[place];
    group.others.push(field)?;
    Ok(())
}
