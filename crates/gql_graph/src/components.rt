//! The components of a graph: two nodes stand in one exactly where each leads to the other. They are
//! found by a search in depth (Tarjan, Depth-first search and linear graph algorithms, 1972), in the
//! time of one look at each node and each link. Nothing is promised of what is found: who asks has to
//! look at it.
ghost use Rattle.std.specs.Prelude.{◌≡◌};

use gql_plain::NoMemory;
use std::alloc::Global;

/// A node of the graph.
#[derive(Drop)]
struct Node {
    /// The nodes that it leads to, without those that were followed.
    links: Vec<usize>,
    /// As which one it was entered, from 1 on; 0 where it was not.
    entered: usize,
    /// As which one the first node was entered that it is known to lead to, of those that wait for
    /// their component.
    lowest: usize,
    /// As which one its component was found, from 1 on; 0 where it was not.
    component: usize,
}

/// A graph whose nodes have numbers, and the search in it.
#[derive(Drop)]
pub(crate) struct Components {
    nodes: Vec<Node>,
    /// The nodes from the one where the search began to the one where it stands.
    path: Vec<usize>,
    /// The nodes that were entered, and whose component is not found yet.
    waiting: Vec<usize>,
    /// How many nodes were entered.
    entered: usize,
    /// How many components were found.
    found: usize,
    /// How many steps a search has at most: one a node and one a link.
    steps: usize,
}

impl Components {
    /// No node; takes no memory.
    pub(crate) fn new(alloc: Global) -> Components {
        Components {
            nodes: Vec::new(alloc),
            path: Vec::new(alloc),
            waiting: Vec::new(alloc),
            entered: 0,
            found: 0,
            steps: 0,
        }
    }

    /// Puts the node of the next number, with the numbers of those that it leads to.
    pub(crate) fn push(&mut self, links: Vec<usize>) -> Result<(), NoMemory> {
        self.steps = self.steps.saturating_add(links.len()).saturating_add(1);
        self.nodes.push(Node {
            links,
            entered: 0,
            lowest: 0,
            component: 0,
        })?;
        Ok(())
    }

    /// Finds the component of each node. A component is found after those that it leads to.
    pub(crate) fn find(&mut self) -> Result<(), NoMemory> {
        'nodes: for node in 0..self.nodes.len() {
            self.search_from(node)?;
        }
        Ok(())
    }

    /// As which one the component of a node was found, from 1 on; 0 where there is none. Takes no
    /// memory.
    pub(crate) fn component(&self, node: usize) -> usize {
        match self.nodes.get(node) {
            Some(node) => node.component,
            None => 0,
        }
    }

    /// Finds the components of the nodes that a node leads to, unless it was entered before.
    fn search_from(&mut self, node: usize) -> Result<(), NoMemory> {
        if self.is_entered(node) {
            return Ok(());
        }
        self.enter(node)?;
        'steps: for _ in 0..self.steps {
            match self.path.last().copied() {
                Some(node) => self.step(node)?,
                None => break,
            }
        }
        Ok(())
    }

    /// Follows a link of the node where the search stands, or leaves it.
    fn step(&mut self, node: usize) -> Result<(), NoMemory> {
        match self.take_link(node) {
            Some(next) => self.follow(node, next),
            None => {
                self.leave(node);
                Ok(())
            }
        }
    }

    /// A link of a node that was not followed yet; from now on it was.
    fn take_link(&mut self, node: usize) -> Option<usize> {
        match self.nodes.get_mut(node) {
            Some(node) => node.links.pop(),
            None => None,
        }
    }

    /// Follows a link.
    fn follow(&mut self, node: usize, next: usize) -> Result<(), NoMemory> {
        if !self.is_entered(next) {
            return self.enter(next);
        }
        let lowest = self.lowest(next);
        self.lower(node, lowest);
        Ok(())
    }

    /// Whether a node was entered.
    fn is_entered(&self, node: usize) -> bool {
        match self.nodes.get(node) {
            Some(node) => node.entered > 0,
            None => true,
        }
    }

    /// Enters a node: the search stands there.
    fn enter(&mut self, node: usize) -> Result<(), NoMemory> {
        self.path.push(node)?;
        self.waiting.push(node)?;
        self.entered = self.entered.saturating_add(1);
        if let Some(node) = self.nodes.get_mut(node) {
            node.entered = self.entered;
            node.lowest = self.entered;
        }
        Ok(())
    }

    /// As which one the first node was entered that a node is known to lead to; after all others,
    /// where the component of the node is found already.
    fn lowest(&self, node: usize) -> usize {
        match self.nodes.get(node) {
            Some(node) => node.lowest,
            None => usize::MAX,
        }
    }

    /// A node is known to lead to another one.
    fn lower(&mut self, node: usize, lowest: usize) {
        if let Some(node) = self.nodes.get_mut(node) {
            node.lowest = node.lowest.min(lowest);
        }
    }

    /// Leaves a node, all of whose links were followed. The search goes back to where it came from.
    fn leave(&mut self, node: usize) {
        let _node = self.path.pop();
        let lowest = self.lowest(node);
        if self.is_first(node) {
            self.close(node);
        }
        if let Some(before) = self.path.last().copied() {
            self.lower(before, lowest);
        }
    }

    /// Whether a node is the first of its component that was entered.
    fn is_first(&self, node: usize) -> bool {
        match self.nodes.get(node) {
            Some(node) => node.lowest == node.entered,
            None => false,
        }
    }

    /// Finds a component: a node, and those that were entered after it and wait.
    fn close(&mut self, node: usize) {
        self.found = self.found.saturating_add(1);
        'waiting: while let Some(one) = self.waiting.pop() {
            self.put(one);
            if one == node {
                break;
            }
        }
    }

    /// A node stands in the component that was found last.
    fn put(&mut self, node: usize)
        ensures { self.new.waiting.items ≡ self.old.waiting.items }
    {
        if let Some(node) = self.nodes.get_mut(node) {
            node.component = self.found;
            node.lowest = usize::MAX;
        }
    }
}
