//! Environments: the values of variables under which an operation runs.
ghost use Rattle.std.specs.Prelude.{◌≡◌, IfOk};

use schema_types::{Name, NoMemory, Pairs};
use std::marker::Model;

/// The values of variables under which an operation runs, and its root type.
#[derive(Debug, Drop)]
pub struct Env {
    pub root: Name,
    pub values: Pairs,
}

impl Env {
    /// An equal environment.
    pub fn copy(&self) -> Result<Env, NoMemory>
        ensures { IfOk result (λ env. env ≡ self.now) }
    {
        Ok(Env {
            root: self.root.copy()?,
            values: self.values.copy()?,
        })
    }
}
