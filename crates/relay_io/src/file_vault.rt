//! A vault over the file system.
ghost use Rattle.std.specs.Prelude.{◌≡◌, ◌≤◌, ℕ, List, Option, None, is_ok, IfOk, IfSome, length, ◌<◌, IsErrOf, vec_len};
ghost use Rattle.gql_plain.specs.Counted.{next_count};
ghost use Rattle.relay_io.specs.Adapters.{after_call, fresh};
ghost use Rattle.relay_io.specs.Causes.{Rose};
ghost use Rattle.relay_io.specs.Files.{GivesFile, IsAbsent, IsTooLong};
ghost use Rattle.relay_io.specs.declared.fault.VaultFault.TheVariants.{Absent, Failed, TooLong};

use crate::fault::VaultFault;
use crate::vault::Vault;
use std::alloc::Global;
use std::fs;
use std::fs::Files;
use std::io::{ErrorKind, Read};
use std::marker::Model;

/// The files of a file system, by path. It tells no content, and counts as a fault each call that
/// answers an error. A file that cannot be opened is `Failed`, and none is `Absent`.
#[derive(Drop)]
pub struct FileVault<F: Files> {
    opener: F,
    calls: u64,
    faults: u64,
}

impl<F: Files> Model for FileVault<F> {
    ghost use Rattle.relay_io.specs.Adapters.{Tally};

    ghost Value = { Tally };

    ghost view = { λ v. record { calls = v.calls; faults = v.faults } };
}

impl<F: Files> FileVault<F> {
    /// A vault over what opens files, as the runtime that `main` is given.
    pub fn new(opener: F) -> FileVault<F>
        ensures { result ≡ fresh }
    {
        FileVault {
            opener,
            calls: 0,
            faults: 0,
        }
    }
}

// All that a reader has left, which is at most `limit` bytes.
pub(crate) fn read_whole<R: Read + Drop>(
    alloc: Global,
    reader: R,
    limit: u64,
) -> Result<Vec<u8>, VaultFault>
    ensures bound { IfOk result (λ bytes. vec_len bytes ≤ limit) }
    ensures bytes { IfOk result (λ bytes. IfSome (R.remaining reader) (λ xs. bytes.items ≡ xs)) }
    ensures too_long { IsErrOf result TooLong → IfSome (R.remaining reader) (λ xs. limit < length xs) }
    ensures absent { ¬ IsErrOf result Absent }
{
    let mut bytes = Vec::new(alloc);
    let outcome = reader.take(limit.saturating_add(1)).read_to_end(&mut bytes);
    if let Err(error) = outcome {
        if error.kind() == ErrorKind::OutOfMemory {
            return Err(VaultFault::NoMemory);
        }
        return Err(VaultFault::Failed);
    }
    if bytes.len() as u64 > limit {
        return Err(VaultFault::TooLong);
    }
    Ok(bytes)
}

// The file of a path, of at most `limit` bytes.
fn read_file<F: Files>(
    alloc: Global,
    opener: &F,
    path: &str,
    limit: u64,
) -> Result<Vec<u8>, VaultFault>
    ensures bound { IfOk result (λ bytes. vec_len bytes ≤ limit) }
    ensures absent { ¬ IsErrOf result Absent }
{
    let Ok(file) = fs::open(opener, path) else {
        return Err(VaultFault::Failed);
    };
    read_whole(alloc, file, limit)
}

impl<F: Files> Vault for FileVault<F> {
    ghost files = { λ _. None };

    ghost faults = { λ v. v.faults };

    ghost calls = { λ v. v.calls };

    fn read(&mut self, alloc: Global, name: &str, limit: u64) -> Result<Vec<u8>, VaultFault>
        ensures bound { IfOk result (λ bytes. vec_len bytes ≤ limit) }
        ensures absent { ¬ IsErrOf result Absent }
        ensures failed { IsErrOf result Failed → Rose self.old.faults self.new.faults }
        ensures later { self.old.faults ≤ self.new.faults }
        ensures counted { self.new.calls ≡ next_count self.old.calls }
        ensures after { self.new ≡ after_call self.old (is_ok result) }
    {
        self.calls = self.calls.saturating_add(1);
        let result = read_file(alloc, &self.opener, name, limit);
        if result.is_err() {
            self.faults = self.faults.saturating_add(1);
        }
        result
    }
}
