//! Entries.
ghost use Rattle.std.specs.Prelude.{◌≡◌, IfOk};

use crate::command::Commands;
use crate::facts::Facts;
use store_record::gql_plain::NoMemory;

/// What one event confirms, or a layer holds: what a payload says, and then the commands in order.
#[derive(Drop)]
pub struct Entry {
    pub facts: Facts,
    pub commands: Commands,
}

impl Entry {
    /// An equal entry.
    pub fn copy(&self) -> Result<Entry, NoMemory>
        ensures { IfOk result (λ entry. entry ≡ self.now) }
    {
        let facts = self.facts.copy()?;
        let commands = self.commands.copy()?;
        Ok(Entry { facts, commands })
    }
}
