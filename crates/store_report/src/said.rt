//! Facts and faults of a response, with where they are said.
ghost use Rattle.std.specs.Prelude.{◌≡◌, IfOk};
ghost use Rattle.std.specs.Ordering.{is_lt};
ghost use Rattle.store_model.specs.Verdicts.{fault_cmp, number_of, put_cmp, same_place};
ghost use Rattle.store_report.specs.SaidFacts.{put_of, fault_of, place_cmp};

use crate::path::{Path, Step};
use gql_order::gql_plain::{NoMemory, SharedText};
use std::alloc::Global;
use std::cmp::Ordering;
use store_model::store_record::Field;
use store_model::{Cause, PayloadFault};

/// A fact, and where it is said.
#[derive(Drop)]
pub(crate) struct SaidFact<'r> {
    pub(crate) id: SharedText,
    pub(crate) key: SharedText,
    pub(crate) value: Field,
    /// The path of the object that the fact is of.
    pub(crate) path: Path<'r>,
    /// The response key of a field, which is the last step of its path; none for the name of a type.
    pub(crate) response: Option<&'r str>,
}

impl<'r> SaidFact<'r> {
    /// The order of facts by id and then by key; takes no memory.
    pub(crate) fn compare(&self, other: &SaidFact<'_>) -> Ordering
        ensures { result ≡ place_cmp self.now other.now }
    {
        match self.id.cmp(&other.id) {
            Ordering::Equal => self.key.cmp(&other.key),
            unequal => unequal,
        }
    }

    /// Whether the other fact is of the same id and key; takes no memory. Keys are compared first: of
    /// facts that stand side by side in order they mostly differ, and in length.
    pub(crate) fn is_beside(&self, other: &SaidFact<'_>) -> bool
        ensures { result ≡ same_place (put_of self.now) (put_of other.now) }
    {
        self.key == other.key && self.id == other.id
    }

    /// Whether the fact is said at a lesser path than another one.
    pub(crate) fn is_before(&self, alloc: Global, other: &SaidFact<'_>) -> Result<bool, NoMemory>
        ensures { IfOk result (λ before. before ≡ is_lt (put_cmp (put_of self.now) (put_of other.now))) }
    {
        let path = self.path_of(alloc)?;
        let other_path = other.path_of(alloc)?;
        Ok(path.compare(&other_path).is_lt())
    }

    /// The path at which the fact is said.
    pub(crate) fn path_of(&self, alloc: Global) -> Result<Path<'r>, NoMemory>
        ensures { IfOk result (λ path. path ≡ (put_of self.now).path) }
    {
        match self.response {
            Some(response) => self.path.with(alloc, Step::Key(response)),
            None => self.path.copy(),
        }
    }
}

/// What is wrong, and where.
#[derive(Drop)]
pub(crate) struct SaidFault<'r> {
    pub(crate) path: Path<'r>,
    pub(crate) cause: Cause,
}

impl SaidFault<'_> {
    /// Whether the fault comes before another one; takes no memory.
    pub(crate) fn is_before(&self, other: &SaidFault<'_>) -> bool
        ensures { result ≡ is_lt (fault_cmp (fault_of self.now) (fault_of other.now)) }
    {
        match self.path.compare(&other.path) {
            Ordering::Equal => number(&self.cause) < number(&other.cause),
            unequal => unequal.is_lt(),
        }
    }

    /// The fault with texts of its own.
    pub(crate) fn into_owned(self, alloc: Global) -> Result<PayloadFault, NoMemory>
        ensures { IfOk result (λ fault. fault ≡ fault_of self.entry) }
    {
        let SaidFault { path, cause } = self;
        Ok(PayloadFault {
            path: path.steps(alloc)?,
            cause,
        })
    }
}

/// The number of a cause in the order of causes.
fn number(cause: &Cause) -> u8
    ensures { result ≡ number_of cause.now }
{
    match cause {
        Cause::NoData => 1,
        Cause::Shape => 2,
        Cause::NotWhole => 3,
        Cause::IdShape => 4,
        Cause::ReservedId => 5,
        Cause::Typename => 6,
        Cause::Conflict { .. } => 7,
    }
}
