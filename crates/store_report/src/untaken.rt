//! Why a response is not taken by rows.
use gql_order::gql_plain::NoMemory;
use std::alloc::{AllocError, AllocFailed};
use store_model::PayloadFault;

/// Why a response was not taken by rows.
#[derive(Drop)]
pub enum Untaken {
    /// It has a fault: the least one, by path and cause.
    Fault(PayloadFault),
    /// It has no fault, but two values for one field of one record. Where they are said is not known.
    Clash,
    /// Out of memory.
    NoMemory,
}

impl From<NoMemory> for Untaken {
    ghost use Rattle.std.specs.Prelude.{◌≡◌};
    ghost use Rattle.store_report.specs.declared.untaken.Untaken.TheVariants.{NoMemory as no_memory};

    ghost from_gives = { λ _ cause. cause ≡ no_memory };

    fn from(_refused: NoMemory) -> Untaken {
        Untaken::NoMemory
    }
}

impl From<AllocError> for Untaken {
    ghost use Rattle.std.specs.Prelude.{◌≡◌};
    ghost use Rattle.store_report.specs.declared.untaken.Untaken.TheVariants.{NoMemory as no_memory};

    ghost from_gives = { λ _ cause. cause ≡ no_memory };

    fn from(_refused: AllocError) -> Untaken {
        Untaken::NoMemory
    }
}

impl<T: Drop> From<AllocFailed<T>> for Untaken {
    ghost use Rattle.std.specs.Prelude.{◌≡◌};
    ghost use Rattle.store_report.specs.declared.untaken.Untaken.TheVariants.{NoMemory as no_memory};

    ghost from_gives = { λ _ cause. cause ≡ no_memory };

    fn from(_refused: AllocFailed<T>) -> Untaken {
        Untaken::NoMemory
    }
}
