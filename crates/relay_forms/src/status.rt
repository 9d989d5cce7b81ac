//! How the program ends.
ghost use Rattle.std.specs.Prelude.{◌≡◌};
ghost use Rattle.relay_forms.specs.Statuses.{exit_of};

/// The answer of a run.
#[derive(Clone, Copy, Debug, Drop, PartialEq, Eq)]
pub enum Status {
    /// The work is done, and no line was refused.
    Done,
    /// The work is done, the script was read to its end, and some line was refused.
    DoneWithRefusals,
    /// The words are no form; nothing was read or written.
    Usage,
    /// The project has a fault, and its line was written.
    ProjectRefused,
    /// A file or the script could not be read.
    ReadFault,
    /// An answer could not be written.
    WriteFault,
    /// Out of memory.
    NoMemory,
    /// The script has more than 2^30 bytes.
    ScriptTooLong,
}

/// The exit status of the program that answers so: 0 to 7, in the order above.
pub fn exit_of(status: Status) -> u8
    ensures { result ≡ exit_of status }
{
    match status {
        Status::Done => 0,
        Status::DoneWithRefusals => 1,
        Status::Usage => 2,
        Status::ProjectRefused => 3,
        Status::ReadFault => 4,
        Status::WriteFault => 5,
        Status::NoMemory => 6,
        Status::ScriptTooLong => 7,
    }
}
