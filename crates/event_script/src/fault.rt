//! Why a line gives no event.
use store_model::gql_plain::NoMemory;

/// Why a line gives no event (this project's own), in the order in which it is asked:
/// `LineTooLong`, `NotJson`, `EventShape`, `UpdateShape`. Want of memory may come at any point.
#[derive(Clone, Copy, Debug, PartialEq, Eq)]
pub enum LineFault {
    /// `serde_json` has no reading of it.
    NotJson,
    /// It is no event, its `updates` apart.
    EventShape,
    /// Its `updates` are no list of commands.
    UpdateShape,
    /// It has more than 8 MiB.
    LineTooLong,
    NoMemory,
}

impl From<NoMemory> for LineFault {
    ghost use Rattle.std.specs.Prelude.{◌≡◌};
    ghost use Rattle.event_script.specs.declared.fault.LineFault.TheVariants.{NoMemory};

    ghost from_gives = { λ _ fault. fault ≡ NoMemory };

    fn from(_refused: NoMemory) -> LineFault {
        LineFault::NoMemory
    }
}
