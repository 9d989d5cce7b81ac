//! The parts of a plan in the environment of its operation, each by its number.
ghost use Rattle.std.specs.Prelude.{◌≡◌, ◌&&◌, ◌||◌, ℕ, [], ◌∷◌, cond, map, bytes_eq, None, Some, option_map, IfOk, OnOk};
ghost use Rattle.plan_ir.specs.gql_plain.Order.{has_text};
ghost use Rattle.plan_ir.specs.Normal.{done, guarded};
ghost use Rattle.plan_ir.specs.NormalMeaning.{ask_step, connection_of_step, guard_passes as passes, type_passes, typename_ask};
ghost use Rattle.plan_ir.specs.NormalLeads.{lead_of};
ghost use Rattle.plan_ir.specs.NormalView.{step_of};
ghost use Rattle.plan_ir.specs.store_model.Items as items;
ghost use Rattle.plan_ir.specs.store_model.Items.{handle_of, key_of};
ghost use Rattle.plan_ir.specs.store_record.Keys as keys;
ghost use Rattle.plan_ir.specs.store_record.Keys.{Text};
ghost use Rattle.store_retain.specs.RoadView.{table_of};
ghost use Rattle.store_retain.specs.Stands.{Adds, Begins, IsLead, StandsFor, asked_by};
ghost use Rattle.store_retain.specs.TrailView.{way_of};
ghost use Rattle.store_retain.specs.Ways.{Parts, is_on};

use crate::trail::Trail;
use plan_groups::guard_passes;
use plan_ir::{
    Arguments, Conn, Env, Guard, Ids, Name, NoMemory, NormalStep, NormalSteps, Pairs, Words,
    evaluate_arguments, field_key, handle_key,
};
use std::alloc::Global;

/// Parts by their numbers. Number 0 has no trail: it stands below leaves.
#[derive(Drop)]
pub(crate) struct Table {
    pub(crate) parts: Vec<Vec<Trail>>,
}

impl Table {
    /// The part without a trail alone.
    pub(crate) fn new(alloc: Global) -> Result<Table, NoMemory>
        ensures { IfOk result (λ table. table_of table.parts.items ≡ [] ∷ []) }
    {
        let mut parts = Vec::with_capacity(alloc, 1)?;
        parts.push(Vec::new(alloc))?;
        Ok(Table { parts })
    }

    /// Puts the steps of a plan, and all that stands below them. Gives the number of their part.
    #[cycle(table)]
    pub(crate) fn put_plan(
        &mut self,
        alloc: Global,
        env: &Env,
        steps: &NormalSteps,
    ) -> Result<usize, NoMemory>
        requires { Begins ([] ∷ []) (table_of self.old.parts.items) }
        ensures grows { OnOk result (Begins (table_of self.old.parts.items) (table_of self.new.parts.items)) }
        ensures stands { IfOk result (λ number. (later : Parts) → Begins (table_of self.new.parts.items) later → (n : ℕ) → StandsFor later n number (record { environment = env.now.values; steps = steps.now })) }
    {
        let mut trails = Vec::new(alloc);
        let everywhere: Option<Ids> = None;
        self.put_steps(alloc, env, &everywhere, steps, &mut trails)?;
        let number = self.parts.len();
        self.parts.push(trails)?;
        Ok(number)
    }

    /// The number of the part of what stands below a field: the one that is known, else that of its steps,
    /// which are put.
    #[cycle(table)]
    fn put_below(
        &mut self,
        alloc: Global,
        env: &Env,
        known: Option<usize>,
        steps: &NormalSteps,
    ) -> Result<usize, NoMemory>
        requires begun { Begins ([] ∷ []) (table_of self.old.parts.items) }
        requires known { IsLead (table_of self.old.parts.items) env.now.values known (Some steps.now) }
        ensures grows { OnOk result (Begins (table_of self.old.parts.items) (table_of self.new.parts.items)) }
        ensures stands { IfOk result (λ number. (later : Parts) → Begins (table_of self.new.parts.items) later → (n : ℕ) → StandsFor later n number (record { environment = env.now.values; steps = steps.now })) }
    {
        match known {
            Some(number) => Ok(number),
            None => self.put_plan(alloc, env, steps),
        }
    }

    /// Puts the trails of steps, which are taken for objects of these types. What a step leads to as the
    /// one before it does is put once for both.
    #[cycle(table)]
    fn put_steps(
        &mut self,
        alloc: Global,
        env: &Env,
        on: &Option<Ids>,
        steps: &NormalSteps,
        trails: &mut Vec<Trail>,
    ) -> Result<(), NoMemory>
        requires { Begins ([] ∷ []) (table_of self.old.parts.items) }
        ensures grows { OnOk result (Begins (table_of self.old.parts.items) (table_of self.new.parts.items)) }
        ensures adds { OnOk result (Adds (table_of self.new.parts.items) (map way_of trails.old.items) (map way_of trails.new.items) (asked_by on.now env.now.values steps.now)) }
    {
        let items = steps.as_slice();
        let again = steps.again();
        let mut last = None;
        'steps: for (at, step) in items.iter().enumerate() {
            let known = known_again(again[at], last);
            last = self.put_step(alloc, env, on, step, known, trails)?;
        }
        Ok(())
    }

    /// Puts the trail of a step, or the trails of those behind a guard that may let them. Gives the number
    /// of the part that it leads to, where that is put; it may be known before.
    #[cycle(table)]
    fn put_step(
        &mut self,
        alloc: Global,
        env: &Env,
        on: &Option<Ids>,
        step: &NormalStep,
        known: Option<usize>,
        trails: &mut Vec<Trail>,
    ) -> Result<Option<usize>, NoMemory>
        requires begun { Begins ([] ∷ []) (table_of self.old.parts.items) }
        requires known { IsLead (table_of self.old.parts.items) env.now.values known (lead_of (step_of step.now)) }
        ensures grows { OnOk result (Begins (table_of self.old.parts.items) (table_of self.new.parts.items)) }
        ensures adds { OnOk result (Adds (table_of self.new.parts.items) (map way_of trails.old.items) (map way_of trails.new.items) (asked_by on.now env.now.values (step_of step.now))) }
        ensures lead { IfOk result (λ number. IsLead (table_of self.new.parts.items) env.now.values number (lead_of (step_of step.now))) }
    {
        match step {
            NormalStep::Typename { response } => {
                let trail = typename_trail(alloc, on, response)?;
                trails.push(trail)?;
                Ok(None)
            }
            NormalStep::Leaf {
                response,
                name,
                arguments,
            } => {
                let types = Ids::new(alloc);
                let trail = field_trail(
                    alloc, env, on, response, name, arguments, &None, types, 0,
                )?;
                trails.push(trail)?;
                Ok(None)
            }
            NormalStep::Object {
                response,
                name,
                arguments,
                types,
                connection,
                child,
                ..
            } => {
                let below = self.put_below(alloc, env, known, &child.steps)?;
                let types = types.copy()?;
                let trail = field_trail(
                    alloc, env, on, response, name, arguments, connection, types, below,
                )?;
                trails.push(trail)?;
                Ok(Some(below))
            }
            NormalStep::Guarded { guard, child } => {
                self.put_guarded(alloc, env, on, guard, &child.steps, known, trails)
            }
        }
    }

    /// Puts the trails of steps behind a guard, where it may let them.
    #[cycle(table)]
    fn put_guarded(
        &mut self,
        alloc: Global,
        env: &Env,
        on: &Option<Ids>,
        guard: &Guard,
        child: &NormalSteps,
        known: Option<usize>,
        trails: &mut Vec<Trail>,
    ) -> Result<Option<usize>, NoMemory>
        requires begun { Begins ([] ∷ []) (table_of self.old.parts.items) }
        requires known { IsLead (table_of self.old.parts.items) env.now.values known (lead_of child.now) }
        ensures grows { OnOk result (Begins (table_of self.old.parts.items) (table_of self.new.parts.items)) }
        ensures adds { OnOk result (Adds (table_of self.new.parts.items) (map way_of trails.old.items) (map way_of trails.new.items) (asked_by on.now env.now.values (guarded guard.now child.now done))) }
        ensures lead { IfOk result (λ number. IsLead (table_of self.new.parts.items) env.now.values number (lead_of child.now)) }
    {
        let may_pass = lets_any(alloc, env, guard)?;
        if !may_pass {
            return Ok(known);
        }
        let narrowed = both(alloc, on, &guard.types)?;
        self.put_let(alloc, env, &narrowed, child, known, trails)
    }

    /// Puts the trails of steps that a guard lets.
    #[cycle(table)]
    fn put_let(
        &mut self,
        alloc: Global,
        env: &Env,
        on: &Option<Ids>,
        steps: &NormalSteps,
        known: Option<usize>,
        trails: &mut Vec<Trail>,
    ) -> Result<Option<usize>, NoMemory>
        requires begun { Begins ([] ∷ []) (table_of self.old.parts.items) }
        requires known { IsLead (table_of self.old.parts.items) env.now.values known (lead_of steps.now) }
        ensures grows { OnOk result (Begins (table_of self.old.parts.items) (table_of self.new.parts.items)) }
        ensures adds { OnOk result (Adds (table_of self.new.parts.items) (map way_of trails.old.items) (map way_of trails.new.items) (asked_by on.now env.now.values steps.now)) }
        ensures lead { IfOk result (λ number. IsLead (table_of self.new.parts.items) env.now.values number (lead_of steps.now)) }
    {
        match steps.as_slice() {
            [step] => self.put_step(alloc, env, on, step, known, trails),
            _ => {
                self.put_steps(alloc, env, on, steps, trails)?;
                Ok(None)
            }
        }
    }
}

/// The number that is known of the step before, where this one leads to the same.
fn known_again(again: bool, last: Option<usize>) -> Option<usize>
    ensures { result ≡ cond again last None }
{
    if again {
        return last;
    }
    None
}

/// The trail of the name of the type of the record.
fn typename_trail(alloc: Global, on: &Option<Ids>, response: &Name) -> Result<Trail, NoMemory>
    ensures { IfOk result (λ trail. way_of trail ≡ record { on = on.now; response = response.now; key = key_of (typename_ask response.now); handle = None; types = []; below = 0 }) }
{
    Ok(Trail {
        on: copy_of(on)?,
        response: response.copy()?,
        key: Words::new(alloc, "__typename")?,
        handle: None,
        types: Ids::new(alloc),
        below: 0,
    })
}

/// The trail of a field.
fn field_trail(
    alloc: Global,
    env: &Env,
    on: &Option<Ids>,
    response: &Name,
    name: &Name,
    arguments: &Arguments,
    connection: &Option<Conn>,
    types: Ids,
    below: usize,
) -> Result<Trail, NoMemory>
    ensures { IfOk result (λ trail. way_of trail ≡ record { on = on.now; response = response.now; key = key_of (ask_step env.now.values response.now name.now arguments.now connection.now items.leaf); handle = handle_of (ask_step env.now.values response.now name.now arguments.now connection.now items.leaf); types = types; below = below }) }
{
    let values = evaluate_arguments(alloc, arguments, env)?;
    let key = field_key(alloc, name, &values)?;
    let handle = handle_under(alloc, connection, &values)?;
    Ok(Trail {
        on: copy_of(on)?,
        response: response.copy()?,
        key,
        handle,
        types,
        below,
    })
}

/// The key of a connection, where there is one, by the values of the arguments.
fn handle_under(
    alloc: Global,
    connection: &Option<Conn>,
    arguments: &Pairs,
) -> Result<Option<Words>, NoMemory>
    ensures { IfOk result (λ key. key ≡ option_map (λ c. keys.handle_key c.key c.filters arguments.now) (option_map connection_of_step connection.now)) }
{
    match connection {
        Some(connection) => Ok(Some(handle_key(alloc, connection, arguments)?)),
        None => Ok(None),
    }
}

/// Whether a guard lets objects of its types.
fn lets_any(alloc: Global, env: &Env, guard: &Guard) -> Result<bool, NoMemory>
    ensures { (T : Text) → IfOk result (λ lets. passes env.now.values T guard.now ≡ (type_passes guard.now.types T && lets)) }
{
    match &guard.types {
        Some(types) => match types.as_slice() {
            [first, ..] => guard_passes(alloc, env, first.as_str(), guard),
            [] => Ok(false),
        },
        None => guard_passes(alloc, env, "", guard),
    }
}

/// The same types; None stands for every type.
fn copy_of(types: &Option<Ids>) -> Result<Option<Ids>, NoMemory>
    ensures { IfOk result (λ copy. copy ≡ types.now) }
{
    match types {
        Some(types) => Ok(Some(types.copy()?)),
        None => Ok(None),
    }
}

/// The types that are of both; None stands for every type.
fn both(alloc: Global, one: &Option<Ids>, other: &Option<Ids>) -> Result<Option<Ids>, NoMemory>
    ensures { (T : Text) → IfOk result (λ types. is_on types T ≡ (is_on one.now T && is_on other.now T)) }
{
    match one {
        Some(one) => match other {
            Some(other) => Ok(Some(common(alloc, one, other)?)),
            None => Ok(Some(one.copy()?)),
        },
        None => copy_of(other),
    }
}

/// The texts that stand in both lists.
fn common(alloc: Global, one: &Ids, other: &Ids) -> Result<Ids, NoMemory>
    ensures { (T : Text) → IfOk result (λ texts. has_text texts T ≡ (has_text one.now T && has_text other.now T)) }
{
    let mut texts = Vec::new(alloc);
    'texts: for text in one.as_slice() {
        put_common(&mut texts, text, other)?;
    }
    Ids::sort(texts)
}

/// Puts a text that stands in the list.
fn put_common(texts: &mut Vec<Words>, text: &Words, list: &Ids) -> Result<(), NoMemory>
    ensures { (T : Text) → OnOk result (has_text texts.new.items T ≡ (has_text texts.old.items T || (bytes_eq text.now T && has_text list.now T))) }
{
    if !list.contains(text.as_str()) {
        return Ok(());
    }
    texts.push(text.copy()?)?;
    Ok(())
}
