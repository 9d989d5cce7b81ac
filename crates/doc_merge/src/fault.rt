//! Why a check of an expanded operation or fragment fails.
use plan_ir::{FilePlace, NoMemory, Rule};

/// A rule that an expanded operation or fragment does not meet, and the place where it does not.
#[derive(Clone, Copy, Debug, PartialEq, Eq)]
pub struct PlaceFault {
    pub rule: Rule,
    pub place: FilePlace,
}

/// Why a check of an expanded operation or fragment fails.
#[derive(Clone, Copy, Debug, PartialEq, Eq)]
pub enum MergeFault {
    Rule(PlaceFault),
    NoMemory,
}

impl From<NoMemory> for MergeFault {
    ghost use Rattle.doc_merge.specs.declared.fault.MergeFault.TheVariants.{NoMemory as no_memory};
    ghost use Rattle.std.specs.Prelude.{◌≡◌};

    ghost from_gives = { λ _ fault. fault ≡ no_memory };

    fn from(_refused: NoMemory) -> MergeFault {
        MergeFault::NoMemory
    }
}
