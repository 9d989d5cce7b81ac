//! The files of a project.
ghost use Rattle.std.specs.Prelude.{◌≡◌, ◌<◌, ◌^◌, ◌-◌, length, vec_len};

use plan_ir::Words;
use std::marker::Model;

/// A file of a project: its name, and its bytes, which are fewer than 2^32 - 1. Contracts see it as
/// its name and the list of its bytes.
#[derive(Drop)]
pub struct ProjectFile {
    name: Words,
    bytes: Vec<u8>,
}

impl Model for ProjectFile {
    ghost use Rattle.std.specs.Prelude.{ℕ, ◌<◌, ◌^◌, ◌-◌, List, vec_len};

    ghost Value = { List ℕ × List ℕ };

    ghost view = { λ f. (f.name, f.bytes.items) };

    ghost invariant = { λ f. vec_len f.bytes < 2 ^ 32 - 1 };
}

impl ProjectFile {
    /// A file of this name that holds these bytes.
    pub fn new(name: Words, bytes: Vec<u8>) -> ProjectFile
        requires { vec_len bytes < 2 ^ 32 - 1 }
        ensures { result ≡ (name, bytes.items) }
    {
        ProjectFile { name, bytes }
    }

    /// The name.
    pub fn name(&self) -> &Words
        ensures { result.now ≡ self.now.0 }
    {
        &self.name
    }

    /// The bytes.
    pub fn as_bytes(&self) -> &[u8]
        ensures value { result.now ≡ self.now.1 }
        ensures most { length result.now < 2 ^ 32 - 1 }
    {
        &self.bytes
    }
}
