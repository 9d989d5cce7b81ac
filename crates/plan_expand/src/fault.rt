//! Why an operation or a fragment is not expanded.
use plan_ir::NoMemory;
use std::alloc::{AllocError, AllocFailed};
use thiserror::Error;

/// Why an operation or a fragment is not expanded. The first cause counts.
#[derive(Debug, Drop, Error)]
pub enum ExpandFault {
    /// It has more than 100,000 nodes.
    #[error("more than 100000 nodes")]
    TooManyNodes,
    /// Its selection sets, or its values, nest deeper than 60.
    #[error("nested deeper than 60")]
    TooDeep,
    /// Memory was refused.
    #[error("no memory for the expansion")]
    NoMemory,
}

impl From<NoMemory> for ExpandFault {
    ghost use Rattle.plan_expand.specs.declared.fault.ExpandFault.TheVariants.{NoMemory as no_memory};
    ghost use Rattle.std.specs.Prelude.{◌≡◌};

    ghost from_gives = { λ _ fault. fault ≡ no_memory };

    fn from(_refused: NoMemory) -> ExpandFault {
        ExpandFault::NoMemory
    }
}

impl From<AllocError> for ExpandFault {
    ghost use Rattle.plan_expand.specs.declared.fault.ExpandFault.TheVariants.{NoMemory as no_memory};
    ghost use Rattle.std.specs.Prelude.{◌≡◌};

    ghost from_gives = { λ _ fault. fault ≡ no_memory };

    fn from(_refused: AllocError) -> ExpandFault {
        ExpandFault::NoMemory
    }
}

impl<T: Drop> From<AllocFailed<T>> for ExpandFault {
    ghost use Rattle.plan_expand.specs.declared.fault.ExpandFault.TheVariants.{NoMemory as no_memory};
    ghost use Rattle.std.specs.Prelude.{◌≡◌};

    ghost from_gives = { λ _ fault. fault ≡ no_memory };

    fn from(_refused: AllocFailed<T>) -> ExpandFault {
        ExpandFault::NoMemory
    }
}
