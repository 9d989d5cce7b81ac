//! Why a payload is refused.
ghost use Rattle.std.specs.Prelude.{◌≡◌, ◌==◌, [], ◌∷◌, ◌++◌, length, OnOk, OnErr};

use std::alloc::Global;
use std::marker::Model;
use store_record::Field;
use store_record::gql_plain::{Id, NoMemory, Words};

/// One step from a response into it.
#[derive(Drop)]
pub enum PathStep {
    /// A response key.
    Key(Words),
    /// The place of an element of a list, from 0.
    Index(u64),
}

/// Steps from a response to a value in it, seen as a list.
#[derive(Drop)]
pub struct PathSteps {
    pub items: Vec<PathStep>,
}

impl Model for PathSteps {
    ghost use Rattle.std.specs.Prelude.{List};
    ghost use Rattle.std.specs.Coded.{coded_list};
    ghost use Rattle.store_model.specs.declared.payload_fault.PathStep.{PathStep};
    ghost use Rattle.store_model.specs.contracts.payload_fault.PathStep as step;

    ghost Value = { List PathStep };

    ghost coded = { coded_list step.the_row.coded };

    ghost view = { λ a. a.items.items };
}

impl PathSteps {
    /// No step; takes no memory.
    pub fn new(alloc: Global) -> PathSteps
        ensures { result ≡ [] }
    {
        PathSteps {
            items: Vec::new(alloc),
        }
    }

    /// Puts a step to the end.
    pub fn push(&mut self, step: PathStep) -> Result<(), NoMemory>
        ensures ok { OnOk result (self.new ≡ self.old ++ step ∷ []) }
        ensures err { OnErr result (self.new ≡ self.old) }
    {
        self.items.push(step)?;
        Ok(())
    }

    /// How many steps; takes no memory.
    pub fn len(&self) -> usize
        ensures { result ≡ length self.now }
    {
        self.items.len()
    }

    /// Whether there is none; takes no memory.
    pub fn is_empty(&self) -> bool
        ensures { result ≡ (length self.now == 0) }
    {
        self.items.is_empty()
    }

    /// The steps; takes no memory.
    pub fn as_slice(&self) -> &[PathStep]
        ensures { result.now ≡ self.now }
    {
        self.items.as_slice()
    }
}

/// What is wrong there.
#[derive(Drop)]
pub enum Cause {
    /// The response is no object with a `data` that is not null.
    NoData,
    /// No object or list where one has to stand.
    Shape,
    /// A number that is not whole, or not within 64 bits.
    NotWhole,
    /// An `id` that is no text, or an empty one.
    IdShape,
    /// An `id` that begins with `client:`.
    ReservedId,
    /// A `__typename` that is no possible type.
    Typename,
    /// Two values of one field of one record.
    Conflict {
        id: Id,
        key: Words,
        first: Field,
        second: Field,
    },
}

/// The first fault of a payload.
#[derive(Drop)]
pub struct PayloadFault {
    pub path: PathSteps,
    pub cause: Cause,
}
