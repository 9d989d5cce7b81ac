//! Plans by which a response is normalized.
ghost use Rattle.std.specs.Prelude.{◌≡◌, ◌+◌, [], ◌∷◌, None, max, true, IfOk, IfSome, OnOk, OnErr, IsTrue, ◌↔◌};
ghost use Rattle.plan_ir.specs.Normal.{done, normal_append, number_of};
ghost use Rattle.plan_ir.specs.NormalKeys.{keys_of};
ghost use Rattle.plan_ir.specs.NormalLeads.{last_lead, lead_of, leads_of, AreAgain};
ghost use Rattle.plan_ir.specs.NormalReach.{records_below};
ghost use Rattle.plan_ir.specs.NormalView.{step_of, steps_of};

use crate::copies::copy_of_conn;
use crate::guard::Guard;
use crate::keys::constant_key;
use relay_marks::Arguments;
use std::alloc::Global;
use std::marker::Model;
use std::rc::Rc;
use store_model::gql_plain::{Conn, Ids, Name, NoMemory, SharedText};

/// What a response is asked for, in the whole form: all spreads are followed.
#[cycle(normal)]
#[derive(Debug, Drop)]
pub struct NormalPlan {
    pub steps: NormalSteps,
}

/// One step of a plan.
#[cycle(normal)]
#[derive(Debug, Drop)]
pub enum NormalStep {
    /// The name of the type of the record.
    Typename {
        response: Name,
    },
    /// A field of a scalar or an enum, or of a list of these.
    Leaf {
        response: Name,
        name: Name,
        arguments: Arguments,
    },
    /// A field of objects.
    Object {
        response: Name,
        name: Name,
        arguments: Arguments,
        /// Whether the field is a list.
        many: bool,
        /// The possible types of the field's named type, and those of them that have an id. Both
        /// lists may have other owners.
        types: Ids,
        identified: Ids,
        /// Whether the named type is abstract.
        open_type: bool,
        connection: Option<Conn>,
        child: NormalPlan,
    },
    /// Steps that are taken where a guard lets them.
    Guarded {
        guard: Guard,
        child: NormalPlan,
    },
}

/// Steps in order, which steps are put to. [`NormalList::share`] makes of them what stands in a plan.
#[cycle(normal)]
#[derive(Debug, Drop)]
pub struct NormalList {
    items: Vec<NormalStep>,
    /// The key that the field of each step is stored under, where no variable changes it.
    keys: Vec<Option<SharedText>>,
    /// Of each step whether it leads to the same steps as the one before it.
    again: Vec<bool>,
    /// How many records a walk by the steps stands at one below another.
    levels: usize,
}

/// Steps in order, which may have several owners.
#[cycle(normal)]
#[derive(Debug, Drop)]
pub struct NormalSteps {
    list: Rc<NormalList>,
}

impl Model for NormalList {
    ghost use Rattle.plan_ir.specs.Normal.{Normal, depth};
    ghost use Rattle.plan_ir.specs.NormalCode.{coded_normal};

    ghost Value = { Normal };

    ghost coded = { coded_normal };

    ghost use Rattle.plan_ir.specs.NormalView.{steps_of};

    ghost view = { λ s. steps_of s.items.items };

    ghost use Rattle.std.specs.Prelude.{◌≡◌, ◌+◌};
    ghost use Rattle.std.specs.Prelude.{None};
    ghost use Rattle.plan_ir.specs.NormalLeads.{leads_of, AreAgain};
    ghost use Rattle.plan_ir.specs.NormalKeys.{keys_of};
    ghost use Rattle.plan_ir.specs.NormalReach.{records_below};

    ghost invariant = { λ s. (s.keys.items ≡ keys_of (steps_of s.items.items)) × (s.levels ≡ records_below (steps_of s.items.items) + 1) × AreAgain None s.again.items (leads_of (steps_of s.items.items)) };

    ghost size = { depth };

    ghost use Rattle.plan_ir.specs.NormalFalls.{normal_falls};

    ghost size_decreases = { λ s h. normal_falls s.items.items };
}

impl Model for NormalSteps {
    ghost use Rattle.std.specs.Prelude.{◌+◌};
    ghost use Rattle.plan_ir.specs.Normal.{Normal, depth};
    ghost use Rattle.plan_ir.specs.NormalCode.{coded_normal};

    ghost Value = { Normal };

    ghost coded = { coded_normal };

    ghost view = { λ s. s.list.value };

    ghost size = { λ s. depth s + 1 };

    ghost use Rattle.std.proofs.Common.{arith};

    ghost size_decreases = { λ s h. Prim.omega arith };
}

impl NormalList {
    /// No step; takes no memory.
    pub fn new(alloc: Global) -> NormalList
        ensures { result ≡ done }
    {
        NormalList {
            items: Vec::new(alloc),
            keys: Vec::new(alloc),
            again: Vec::new(alloc),
            levels: 1,
        }
    }

    /// Puts a step at the end. What is kept of all steps is brought up to date by what is kept of this one:
    /// nothing below it is walked.
    pub fn push(&mut self, step: NormalStep) -> Result<(), NoMemory>
        ensures ok { OnOk result (self.new ≡ normal_append self.old (step_of step)) }
        ensures err { OnErr result (self.new ≡ self.old) }
    {
        self.push_again(step, false)
    }

    /// Puts a step at the end. Where `again` is true it leads to the same steps as the one before it, and
    /// that is kept with it.
    pub fn push_again(&mut self, step: NormalStep, again: bool) -> Result<(), NoMemory>
        requires { again ≡ true → last_lead self.old ≡ lead_of (step_of step) }
        ensures ok { OnOk result (self.new ≡ normal_append self.old (step_of step)) }
        ensures err { OnErr result (self.new ≡ self.old) }
    {
        let key = kept_key(*self.items.allocator(), &step)?;
        let Some(levels) = levels_with(self.levels, &step) else {
            return Err(NoMemory);
        };
        self.items.reserve(1)?;
        self.keys.reserve(1)?;
        self.again.reserve(1)?;
        self.items.push_reserved(step);
        self.keys.push_reserved(key);
        self.again.push_reserved(again);
        self.levels = levels;
        Ok(())
    }

    /// The steps, so that they can have several owners.
    pub fn share(self, alloc: Global) -> Result<NormalSteps, NoMemory>
        ensures { IfOk result (λ steps. steps ≡ self) }
    {
        Ok(NormalSteps {
            list: Rc::new(alloc, self)?,
        })
    }
}

impl NormalSteps {
    /// No step.
    pub fn none(alloc: Global) -> Result<NormalSteps, NoMemory>
        ensures { IfOk result (λ steps. steps ≡ done) }
    {
        NormalList::new(alloc).share(alloc)
    }

    /// The steps in order.
    pub fn as_slice(&self) -> &[NormalStep]
        ensures { steps_of result.now ≡ self.now }
    {
        &self.list.items
    }

    /// For each step the key that its field is stored under, made once; None for what is no field, and
    /// for a field in whose arguments a variable stands. Takes no memory.
    pub fn keys(&self) -> &[Option<SharedText>]
        ensures { result.now ≡ keys_of self.now }
    {
        &self.list.keys
    }

    /// Of each step whether it is known to lead to the same steps as the one before it. Takes no memory.
    pub fn again(&self) -> &[bool]
        ensures { AreAgain None result.now (leads_of self.now) }
    {
        &self.list.again
    }

    /// How many records a walk by these steps stands at one below another. It is kept: no walk is made for
    /// it, and no memory taken.
    pub fn levels(&self) -> usize
        ensures { result ≡ records_below self.now + 1 }
    {
        self.list.levels
    }

    /// The number of steps, those inside them not counted.
    pub fn len(&self) -> usize
        ensures { result ≡ number_of self.now }
    {
        self.list.items.len()
    }

    /// Whether there is no step.
    pub fn is_empty(&self) -> bool
        ensures { IsTrue result ↔ (self.now ≡ done) }
    {
        self.list.items.is_empty()
    }

    /// The same steps: one more owner of them, whatever stands below.
    pub fn copy(&self) -> Result<NormalSteps, NoMemory>
        ensures { IfOk result (λ steps. steps ≡ self.now) }
    {
        Ok(NormalSteps {
            list: self.list.clone()?,
        })
    }
}

/// The key that the field of a step is stored under, where no variable changes it.
fn kept_key(alloc: Global, step: &NormalStep) -> Result<Option<SharedText>, NoMemory>
    ensures { IfOk result (λ key. key ∷ [] ≡ keys_of (step_of step.now)) }
{
    match step {
        NormalStep::Typename { .. } => Ok(None),
        NormalStep::Leaf {
            name,
            arguments,
            ..
        } => constant_key(alloc, name, arguments),
        NormalStep::Object {
            name,
            arguments,
            ..
        } => constant_key(alloc, name, arguments),
        NormalStep::Guarded { .. } => Ok(None),
    }
}

/// How many records a walk stands at one below another, by steps for which it is known and by this one
/// too; None where a number has no room for it.
fn levels_with(levels: usize, step: &NormalStep) -> Option<usize>
    ensures { IfSome result (λ n. n ≡ max levels (records_below (step_of step.now) + 1)) }
{
    match step {
        NormalStep::Typename { .. } => Some(levels.max(1)),
        NormalStep::Leaf { .. } => Some(levels.max(1)),
        NormalStep::Object { child, .. } => Some(levels.max(child.steps.levels().checked_add(1)?)),
        NormalStep::Guarded { child, .. } => Some(levels.max(child.steps.levels())),
    }
}

impl NormalPlan {
    /// The same plan: one more owner of its steps.
    pub fn copy(&self) -> Result<NormalPlan, NoMemory>
        ensures { IfOk result (λ plan. plan ≡ self.now) }
    {
        Ok(NormalPlan {
            steps: self.steps.copy()?,
        })
    }
}

impl NormalStep {
    /// The same step: one more owner of what stands below it, and of its lists of types.
    pub fn copy(&self) -> Result<NormalStep, NoMemory>
        ensures { IfOk result (λ step. step ≡ self.now) }
    {
        Ok(match self {
            NormalStep::Typename { response } => NormalStep::Typename {
                response: response.copy()?,
            },
            NormalStep::Leaf {
                response,
                name,
                arguments,
            } => NormalStep::Leaf {
                response: response.copy()?,
                name: name.copy()?,
                arguments: arguments.copy()?,
            },
            NormalStep::Object {
                response,
                name,
                arguments,
                many,
                types,
                identified,
                open_type,
                connection,
                child,
            } => NormalStep::Object {
                response: response.copy()?,
                name: name.copy()?,
                arguments: arguments.copy()?,
                many: *many,
                types: types.copy()?,
                identified: identified.copy()?,
                open_type: *open_type,
                connection: copy_of_conn(connection)?,
                child: child.copy()?,
            },
            NormalStep::Guarded { guard, child } => NormalStep::Guarded {
                guard: guard.copy()?,
                child: child.copy()?,
            },
        })
    }
}
