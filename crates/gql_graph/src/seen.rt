//! Names that were seen.
ghost use Rattle.std.specs.Prelude.{◌≡◌, [], ◌∷◌, not, IfOk, OnOk, List};
ghost use Rattle.gql_plain.specs.Order.{has_text};
ghost use Rattle.gql_graph.specs.Seen.{Knows};
ghost use Rattle.gql_graph.specs.Texts.{Text};

use gql_plain::NoMemory;
use std::alloc::Global;
use std::collections::BTreeSet;

/// A set of names.
#[derive(Drop)]
pub struct Seen<'a> {
    names: BTreeSet<&'a str>,
}

impl<'a> Seen<'a> {
    /// No name; takes no memory.
    pub fn new(alloc: Global) -> Seen<'a>
        ensures { Knows result.names [] }
    {
        Seen {
            names: BTreeSet::new(alloc),
        }
    }

    /// Puts a name, and says whether it is new.
    pub fn insert(&mut self, name: &'a str) -> Result<bool, NoMemory>
        ensures new_name { (before : List Text) → Knows self.old.names before → IfOk result (λ is_new. is_new ≡ not (has_text before name.now)) }
        ensures known { (before : List Text) → Knows self.old.names before → OnOk result (Knows self.new.names (name.now ∷ before)) }
    {
        let is_new = self.names.insert(name)?;
        Ok(is_new)
    }

    /// Whether the name is one of them; takes no memory.
    pub fn contains(&self, name: &str) -> bool
        ensures { (before : List Text) → Knows self.now.names before → result ≡ has_text before name.now }
    {
        self.names.contains(name)
    }
}
