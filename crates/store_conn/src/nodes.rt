//! The nodes of edges.
ghost use Rattle.std.specs.Prelude.{◌≡◌, Option, false, OnOk};
ghost use Rattle.std.specs.Option.{option_copied};
ghost use Rattle.store_model.specs.store_record.Keys.{Text};
ghost use Rattle.store_conn.specs.Nodes.{knows, and_node, and_wanted};

use std::alloc::Global;
use std::collections::BTreeSet;
use store_model::gql_plain::{Id, NoMemory};

/// A set of the nodes of edges.
#[derive(Drop)]
pub(crate) struct Nodes<'a> {
    ids: BTreeSet<&'a str>,
}

impl<'a> Nodes<'a> {
    /// No node; takes no memory.
    pub fn new(alloc: Global) -> Nodes<'a>
        ensures { (node : Option Text) → knows result.ids node ≡ false }
    {
        Nodes {
            ids: BTreeSet::new(alloc),
        }
    }

    /// Puts the node of an edge, where the edge has one.
    pub fn insert(&mut self, node: Option<&'a Id>) -> Result<(), NoMemory>
        ensures { (other : Option Text) → OnOk result (knows self.new.ids other ≡ and_node (option_copied node.entry) (knows self.old.ids) other) }
    {
        match node {
            Some(id) => {
                self.ids.insert(id.as_str())?;
                Ok(())
            }
            None => Ok(()),
        }
    }

    /// Puts the node of an edge, where the edge has one and another set has it.
    pub fn insert_wanted(
        &mut self,
        node: Option<&'a Id>,
        wanted: &Nodes<'_>,
    ) -> Result<(), NoMemory>
        ensures { (other : Option Text) → OnOk result (knows self.new.ids other ≡ and_wanted (knows wanted.now.ids) (option_copied node.entry) (knows self.old.ids) other) }
    {
        if !wanted.contains(node) {
            return Ok(());
        }
        self.insert(node)?;
        Ok(())
    }

    /// Whether the node of an edge is one of them; takes no memory.
    pub fn contains(&self, node: Option<&Id>) -> bool
        ensures { result ≡ knows self.now.ids (option_copied node.entry) }
    {
        match node {
            Some(id) => self.ids.contains(id.as_str()),
            None => false,
        }
    }
}
