//! Why an operation cannot run with the variables that are given.
use schema_types::{Name, NoMemory};

/// Why no environment is made.
#[derive(Debug, Drop)]
pub enum VarFault {
    /// This variable has a type that is never null, no default, and no given value.
    Missing(Name),
    /// The value that is given to this variable does not fit its type.
    Unfit(Name),
    NoMemory,
}

impl From<NoMemory> for VarFault {
    ghost use Rattle.std.specs.Prelude.{◌≡◌};
    ghost use Rattle.schema_values.specs.declared.fault.VarFault.TheVariants.{NoMemory as no_memory};

    ghost from_gives = { λ _ fault. fault ≡ no_memory };

    fn from(_refused: NoMemory) -> VarFault {
        VarFault::NoMemory
    }
}
