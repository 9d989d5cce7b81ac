//! A vault in memory.
ghost use Rattle.std.specs.Prelude.{◌≡◌, ◌≤◌, ℕ, List, Option, Some, map, option_map, IfOk, IsErrOf, vec_len};
ghost use Rattle.gql_plain.specs.Counted.{next_count};
ghost use Rattle.relay_io.specs.Causes.{Rose};
ghost use Rattle.relay_io.specs.Files.{file_of, GivesFile, IsAbsent, IsTooLong};
ghost use Rattle.relay_io.specs.Memory.{IsAnswer, vault_after, vault_answer};
ghost use Rattle.relay_io.specs.declared.fault.VaultFault.TheVariants.{Absent, Failed, TooLong};

use crate::fault::VaultFault;
use crate::vault::Vault;
use gql_plain::Words;
use std::alloc::Global;
use std::marker::Model;

/// Files in memory. It fails at the calls that it is told to fail at, numbered from 1.
#[derive(Debug, Drop)]
pub struct MemVault {
    files: Vec<(Words, Vec<u8>)>,
    failing: Vec<u64>,
    calls: u64,
    faults: u64,
}

impl Model for MemVault {
    ghost use Rattle.std.specs.Prelude.{map};
    ghost use Rattle.relay_io.specs.Memory.{VaultState};

    ghost Value = { VaultState };

    ghost view = { λ v. record { files = map (λ f. (f.0, f.1.items)) v.files.items; failing = v.failing.items; calls = v.calls; faults = v.faults } };
}

impl MemVault {
    /// A vault of files, by name and bytes; of two files of one name the first counts.
    pub fn new(files: Vec<(Words, Vec<u8>)>, failing: Vec<u64>) -> MemVault
        ensures { result ≡ record { files = map (λ f. (f.0, f.1.items)) files.items; failing = failing.items; calls = 0; faults = 0 } }
    {
        MemVault {
            files,
            failing,
            calls: 0,
            faults: 0,
        }
    }
}

// The bytes of the first file of a name.
fn file_in<'a>(files: &'a [(Words, Vec<u8>)], name: &str) -> Option<&'a [u8]>
    ensures { option_map (λ bytes. bytes.now) result ≡ file_of name.now (map (λ f. (f.0, f.1.items)) files.now) }
{
    let mut rest = files;
    'files: while let [(file, bytes), after @ ..] = rest {
        if file.as_str() == name {
            return Some(bytes);
        }
        rest = after;
    }
    None
}

impl Vault for MemVault {
    ghost files = { λ v. Some v.files };

    ghost faults = { λ v. v.faults };

    ghost calls = { λ v. v.calls };

    fn read(&mut self, alloc: Global, name: &str, limit: u64) -> Result<Vec<u8>, VaultFault>
        ensures same { Some self.new.files ≡ Some self.old.files }
        ensures bound { IfOk result (λ bytes. vec_len bytes ≤ limit) }
        ensures bytes { IfOk result (λ bytes. GivesFile (Some self.old.files) name.now bytes.items) }
        ensures absent { IsErrOf result Absent → IsAbsent (Some self.old.files) name.now }
        ensures too_long { IsErrOf result TooLong → IsTooLong (Some self.old.files) name.now limit }
        ensures failed { IsErrOf result Failed → Rose self.old.faults self.new.faults }
        ensures later { self.old.faults ≤ self.new.faults }
        ensures counted { self.new.calls ≡ next_count self.old.calls }
        ensures answer { IsAnswer (vault_answer self.old name.now limit) result }
        ensures after { self.new ≡ vault_after self.old }
    {
        self.calls = self.calls.saturating_add(1);
        if self.failing.contains(&self.calls) {
            self.faults = self.faults.saturating_add(1);
            return Err(VaultFault::Failed);
        }
        let Some(bytes) = file_in(&self.files, name) else {
            return Err(VaultFault::Absent);
        };
        if bytes.len() as u64 > limit {
            return Err(VaultFault::TooLong);
        }
        let Ok(copy) = bytes.to_vec(alloc) else {
            return Err(VaultFault::NoMemory);
        };
        Ok(copy)
    }
}
