//! Plans by which records are read.
ghost use Rattle.std.specs.Prelude.{◌≡◌, ◌+◌, [], ◌∷◌, max, IfOk, IfSome, OnOk, OnErr, IsTrue, ◌↔◌};
ghost use Rattle.plan_ir.specs.Reader.{done, reader_append, number_of};
ghost use Rattle.plan_ir.specs.ReaderKeys.{keys_of};
ghost use Rattle.plan_ir.specs.ReaderMeaning.{records_below};
ghost use Rattle.plan_ir.specs.ReaderView.{step_of, steps_of};

use crate::copies::copy_of_conn;
use crate::guard::Guard;
use crate::keys::constant_key;
use relay_marks::Arguments;
use std::alloc::Global;
use std::marker::Model;
use std::rc::Rc;
use store_model::gql_plain::{Conn, Ids, Name, NoMemory, SharedText};

/// What records are asked for, in the masked form: a spread stands as a pointer to its fragment.
#[cycle(reader)]
#[derive(Debug, Drop)]
pub struct ReaderPlan {
    pub steps: ReaderSteps,
}

/// One step of a plan.
#[cycle(reader)]
#[derive(Debug, Drop)]
pub enum ReaderStep {
    /// The name of the type of the record.
    Typename {
        response: Name,
    },
    /// A field of a scalar or an enum, or of a list of these.
    Leaf {
        response: Name,
        name: Name,
        arguments: Arguments,
    },
    /// A field of objects.
    Object {
        response: Name,
        name: Name,
        arguments: Arguments,
        /// Whether the field is a list.
        many: bool,
        /// The possible types of the field's named type, and those of them that have an id. Both
        /// lists may have other owners.
        types: Ids,
        identified: Ids,
        /// Whether the named type is abstract.
        open_type: bool,
        connection: Option<Conn>,
        child: ReaderPlan,
    },
    /// Steps that are taken where a guard lets them.
    Guarded {
        guard: Guard,
        child: ReaderPlan,
    },
    /// A spread that is not followed. Its arguments have one value for each local variable of the
    /// fragment, in written order: the value that is given, else the default, else null.
    Pointer {
        fragment: Name,
        arguments: Arguments,
        /// The plan of the fragment where it is `@inline`.
        inline: Option<ReaderPlan>,
    },
}

/// Steps in order, which steps are put to. [`ReaderList::share`] makes of them what stands in a plan.
#[cycle(reader)]
#[derive(Debug, Drop)]
pub struct ReaderList {
    items: Vec<ReaderStep>,
    /// The key that the field of each step is stored under, where no variable changes it.
    keys: Vec<Option<SharedText>>,
    /// How many records a walk by the steps stands at one below another.
    levels: usize,
}

/// Steps in order, which may have several owners.
#[cycle(reader)]
#[derive(Debug, Drop)]
pub struct ReaderSteps {
    list: Rc<ReaderList>,
}

impl Model for ReaderList {
    ghost use Rattle.plan_ir.specs.Reader.{Reader, depth};
    ghost use Rattle.plan_ir.specs.ReaderCode.{coded_reader};

    ghost Value = { Reader };

    ghost coded = { coded_reader };

    ghost use Rattle.plan_ir.specs.ReaderView.{steps_of};

    ghost view = { λ s. steps_of s.items.items };

    ghost use Rattle.std.specs.Prelude.{◌≡◌, ◌+◌};
    ghost use Rattle.plan_ir.specs.ReaderKeys.{keys_of};
    ghost use Rattle.plan_ir.specs.ReaderMeaning.{records_below};

    ghost invariant = { λ s. (s.keys.items ≡ keys_of (steps_of s.items.items)) × (s.levels ≡ records_below (steps_of s.items.items) + 1) };

    ghost size = { depth };

    ghost use Rattle.plan_ir.specs.ReaderFalls.{reader_falls};

    ghost size_decreases = { λ s h. reader_falls s.items.items };
}

impl Model for ReaderSteps {
    ghost use Rattle.std.specs.Prelude.{◌+◌};
    ghost use Rattle.plan_ir.specs.Reader.{Reader, depth};
    ghost use Rattle.plan_ir.specs.ReaderCode.{coded_reader};

    ghost Value = { Reader };

    ghost coded = { coded_reader };

    ghost view = { λ s. s.list.value };

    ghost size = { λ s. depth s + 1 };

    ghost use Rattle.std.proofs.Common.{arith};

    ghost size_decreases = { λ s h. Prim.omega arith };
}

impl ReaderList {
    /// No step; takes no memory.
    pub fn new(alloc: Global) -> ReaderList
        ensures { result ≡ done }
    {
        ReaderList {
            items: Vec::new(alloc),
            keys: Vec::new(alloc),
            levels: 1,
        }
    }

    /// Puts a step at the end. What is kept of all steps is brought up to date by what is kept of this one:
    /// nothing below it is walked.
    pub fn push(&mut self, step: ReaderStep) -> Result<(), NoMemory>
        ensures ok { OnOk result (self.new ≡ reader_append self.old (step_of step)) }
        ensures err { OnErr result (self.new ≡ self.old) }
    {
        let key = kept_key(*self.items.allocator(), &step)?;
        let Some(levels) = levels_with(self.levels, &step) else {
            return Err(NoMemory);
        };
        self.items.reserve(1)?;
        self.keys.reserve(1)?;
        self.items.push_reserved(step);
        self.keys.push_reserved(key);
        self.levels = levels;
        Ok(())
    }

    /// The steps, so that they can have several owners.
    pub fn share(self, alloc: Global) -> Result<ReaderSteps, NoMemory>
        ensures { IfOk result (λ steps. steps ≡ self) }
    {
        Ok(ReaderSteps {
            list: Rc::new(alloc, self)?,
        })
    }
}

impl ReaderSteps {
    /// No step.
    pub fn none(alloc: Global) -> Result<ReaderSteps, NoMemory>
        ensures { IfOk result (λ steps. steps ≡ done) }
    {
        ReaderList::new(alloc).share(alloc)
    }

    /// The steps in order.
    pub fn as_slice(&self) -> &[ReaderStep]
        ensures { steps_of result.now ≡ self.now }
    {
        &self.list.items
    }

    /// For each step the key that its field is stored under, made once; None for what is no field, and
    /// for a field in whose arguments a variable stands. Takes no memory.
    pub fn keys(&self) -> &[Option<SharedText>]
        ensures { result.now ≡ keys_of self.now }
    {
        &self.list.keys
    }

    /// How many records a walk by these steps stands at one below another. It is kept: no walk is made for
    /// it, and no memory taken.
    pub fn levels(&self) -> usize
        ensures { result ≡ records_below self.now + 1 }
    {
        self.list.levels
    }

    /// The number of steps, those inside them not counted.
    pub fn len(&self) -> usize
        ensures { result ≡ number_of self.now }
    {
        self.list.items.len()
    }

    /// Whether there is no step.
    pub fn is_empty(&self) -> bool
        ensures { IsTrue result ↔ (self.now ≡ done) }
    {
        self.list.items.is_empty()
    }

    /// The same steps: one more owner of them, whatever stands below.
    pub fn copy(&self) -> Result<ReaderSteps, NoMemory>
        ensures { IfOk result (λ steps. steps ≡ self.now) }
    {
        Ok(ReaderSteps {
            list: self.list.clone()?,
        })
    }
}

/// The key that the field of a step is stored under, where no variable changes it.
fn kept_key(alloc: Global, step: &ReaderStep) -> Result<Option<SharedText>, NoMemory>
    ensures { IfOk result (λ key. key ∷ [] ≡ keys_of (step_of step.now)) }
{
    match step {
        ReaderStep::Typename { .. } => Ok(None),
        ReaderStep::Leaf {
            name,
            arguments,
            ..
        } => constant_key(alloc, name, arguments),
        ReaderStep::Object {
            name,
            arguments,
            ..
        } => constant_key(alloc, name, arguments),
        ReaderStep::Guarded { .. } => Ok(None),
        ReaderStep::Pointer { .. } => Ok(None),
    }
}

/// How many records a walk stands at one below another, by steps for which it is known and by this one
/// too; None where a number has no room for it.
fn levels_with(levels: usize, step: &ReaderStep) -> Option<usize>
    ensures { IfSome result (λ n. n ≡ max levels (records_below (step_of step.now) + 1)) }
{
    match step {
        ReaderStep::Typename { .. } => Some(levels.max(1)),
        ReaderStep::Leaf { .. } => Some(levels.max(1)),
        ReaderStep::Object { child, .. } => Some(levels.max(child.steps.levels().checked_add(1)?)),
        ReaderStep::Guarded { child, .. } => Some(levels.max(child.steps.levels())),
        ReaderStep::Pointer { inline: None, .. } => Some(levels.max(1)),
        ReaderStep::Pointer {
            inline: Some(child),
            ..
        } => Some(levels.max(child.steps.levels().checked_add(1)?)),
    }
}

impl ReaderPlan {
    /// The same plan: one more owner of its steps.
    pub fn copy(&self) -> Result<ReaderPlan, NoMemory>
        ensures { IfOk result (λ plan. plan ≡ self.now) }
    {
        Ok(ReaderPlan {
            steps: self.steps.copy()?,
        })
    }
}

impl ReaderStep {
    /// The same step: one more owner of what stands below it, and of its lists of types.
    pub fn copy(&self) -> Result<ReaderStep, NoMemory>
        ensures { IfOk result (λ step. step ≡ self.now) }
    {
        Ok(match self {
            ReaderStep::Typename { response } => ReaderStep::Typename {
                response: response.copy()?,
            },
            ReaderStep::Leaf {
                response,
                name,
                arguments,
            } => ReaderStep::Leaf {
                response: response.copy()?,
                name: name.copy()?,
                arguments: arguments.copy()?,
            },
            ReaderStep::Object {
                response,
                name,
                arguments,
                many,
                types,
                identified,
                open_type,
                connection,
                child,
            } => ReaderStep::Object {
                response: response.copy()?,
                name: name.copy()?,
                arguments: arguments.copy()?,
                many: *many,
                types: types.copy()?,
                identified: identified.copy()?,
                open_type: *open_type,
                connection: copy_of_conn(connection)?,
                child: child.copy()?,
            },
            ReaderStep::Guarded { guard, child } => ReaderStep::Guarded {
                guard: guard.copy()?,
                child: child.copy()?,
            },
            ReaderStep::Pointer {
                fragment,
                arguments,
                inline,
            } => ReaderStep::Pointer {
                fragment: fragment.copy()?,
                arguments: arguments.copy()?,
                inline: copy_of_plan(inline)?,
            },
        })
    }
}

/// The same plan, or none where there is none.
fn copy_of_plan(plan: &Option<ReaderPlan>) -> Result<Option<ReaderPlan>, NoMemory>
    ensures { IfOk result (λ copy. copy ≡ plan.now) }
{
    match plan {
        Some(plan) => Ok(Some(plan.copy()?)),
        None => Ok(None),
    }
}
