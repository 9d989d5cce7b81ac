//! Where files are read.
ghost use Rattle.std.specs.Prelude.{◌≡◌, ◌≤◌, ℕ, List, Option, IfOk, IsErrOf, vec_len};
ghost use Rattle.gql_plain.specs.Counted.{next_count};
ghost use Rattle.relay_io.specs.Causes.{Rose};
ghost use Rattle.relay_io.specs.Files.{GivesFile, IsAbsent, IsTooLong};
ghost use Rattle.relay_io.specs.declared.fault.VaultFault.TheVariants.{Absent, Failed, TooLong};

use crate::fault::VaultFault;
use std::alloc::Global;

/// Reads whole files by name.
pub trait Vault {
    // The files, where they are told: names and bytes.
    ghost files: { Self → Option (List (List ℕ × List ℕ)) };

    // A count that never falls, and rises in each call that answers `Failed`.
    ghost faults: { Self → ℕ };

    // The number of calls.
    ghost calls: { Self → ℕ };

    /// The bytes of the file of a name, the first of them where there are more.
    ///
    /// # Errors
    ///
    /// `Absent` where no file has the name, `TooLong` where the file holds more than `limit`
    /// bytes, `NoMemory`, and `Failed` where the reading failed.
    fn read(&mut self, alloc: Global, name: &str, limit: u64) -> Result<Vec<u8>, VaultFault>
        ensures same { files self.new ≡ files self.old }
        ensures bound { IfOk result (λ bytes. vec_len bytes ≤ limit) }
        ensures bytes { IfOk result (λ bytes. GivesFile (files self.old) name.now bytes.items) }
        ensures absent { IsErrOf result Absent → IsAbsent (files self.old) name.now }
        ensures too_long { IsErrOf result TooLong → IsTooLong (files self.old) name.now limit }
        ensures failed { IsErrOf result Failed → Rose (faults self.old) (faults self.new) }
        ensures later { faults self.old ≤ faults self.new }
        ensures counted { calls self.new ≡ next_count (calls self.old) };
}
