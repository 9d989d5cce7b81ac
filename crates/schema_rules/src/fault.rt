//! The rules of projects, and why a check of them fails.
use gql_graph::gql_plain::NoMemory;
use std::alloc::{AllocError, AllocFailed};

/// A rule of projects, by the code that is printed for it. The codes are this project's own.
#[derive(Clone, Copy, Debug, PartialEq, Eq)]
pub enum Rule {
    F1,
    L1,
    L2,
    L3,
    L4,
    L5,
    L6,
    L7,
    L8,
    S1,
    S2,
    S3,
    S4,
    S5,
    S6,
    S7,
    S8,
    S9,
    S10,
    S11,
    S12,
    V1,
    V2,
    V3,
    V4,
    V5,
    V6,
    V7,
    V8,
    V9,
    V10,
    V11,
    V12,
    V13,
    V14,
    V15,
    V16,
    V17,
    V18,
    V19,
    V20,
    V21,
    V22,
    V23,
    V24,
    E1,
    E2,
}

/// A rule that a schema or documents do not meet, and the number of the node where they do not.
#[derive(Clone, Copy, Debug, PartialEq, Eq)]
pub struct NodeFault {
    pub rule: Rule,
    pub node: usize,
}

/// Why a check of rules fails.
#[derive(Clone, Copy, Debug, PartialEq, Eq)]
pub enum RuleFault {
    Rule(NodeFault),
    NoMemory,
}

impl From<NoMemory> for RuleFault {
    ghost use Rattle.schema_rules.specs.declared.fault.RuleFault.TheVariants.{NoMemory as no_memory};
    ghost use Rattle.std.specs.Prelude.{◌≡◌};

    ghost from_gives = { λ _ fault. fault ≡ no_memory };

    fn from(_refused: NoMemory) -> RuleFault {
        RuleFault::NoMemory
    }
}

impl From<AllocError> for RuleFault {
    ghost use Rattle.schema_rules.specs.declared.fault.RuleFault.TheVariants.{NoMemory as no_memory};
    ghost use Rattle.std.specs.Prelude.{◌≡◌};

    ghost from_gives = { λ _ fault. fault ≡ no_memory };

    fn from(_refused: AllocError) -> RuleFault {
        RuleFault::NoMemory
    }
}

impl<T: Drop> From<AllocFailed<T>> for RuleFault {
    ghost use Rattle.schema_rules.specs.declared.fault.RuleFault.TheVariants.{NoMemory as no_memory};
    ghost use Rattle.std.specs.Prelude.{◌≡◌};

    ghost from_gives = { λ _ fault. fault ≡ no_memory };

    fn from(_refused: AllocFailed<T>) -> RuleFault {
        RuleFault::NoMemory
    }
}
