//! Why a call to the outside answers an error.
use thiserror::Error;

/// Why a vault gives no file.
#[derive(Debug, Drop, Error)]
pub enum VaultFault {
    /// The vault tells its files, and none has the name.
    #[error("there is no such file")]
    Absent,
    /// The reading failed, and is counted among the vault's faults.
    #[error("the file could not be read")]
    Failed,
    /// The file holds more bytes than were asked for.
    #[error("the file is too long")]
    TooLong,
    /// Memory was refused.
    #[error("no memory for the file")]
    NoMemory,
}

/// A reading or a writing failed, and is counted among its object's faults.
#[derive(Debug, Drop, Error)]
#[error("a reading or a writing failed")]
pub struct Failed;
