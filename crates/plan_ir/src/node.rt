//! Nodes of an expanded operation or fragment: selections without spreads.
ghost use Rattle.std.specs.Prelude.{◌≡◌, IfOk, OnOk, OnErr, IsTrue, ◌↔◌};
ghost use Rattle.plan_ir.specs.Nodes.{end, nodes_append, number_of};
ghost use Rattle.plan_ir.specs.NodesView.{node_of, nodes_of};

use crate::copies::{copy_of_conn, copy_of_name};
use relay_marks::{Arguments, Directives, FilePlace, TypeTree};
use std::alloc::Global;
use std::marker::Model;
use store_model::gql_plain::{Conn, Name, NoMemory};

/// One node of an expanded selection set. Its directives are those that the operation text prints,
/// in written order.
#[cycle(node)]
#[derive(Debug, Drop)]
pub enum Node {
    /// A field (GraphQL, October 2021, section 2.5), with its response key. A leaf has no
    /// selections.
    Field {
        response: Name,
        name: Name,
        arguments: Arguments,
        directives: Directives,
        connection: Option<Conn>,
        /// The type of the field.
        of: TypeTree,
        selections: Nodes,
        /// The place of the field's first token; of an added node the place of the innermost field
        /// around it that is not added.
        place: FilePlace,
    },
    /// An inline fragment (section 2.8.2), or what a spread is replaced by.
    Inline {
        on: Option<Name>,
        directives: Directives,
        selections: Nodes,
        /// The place of the `...`, with the same rule for added nodes.
        place: FilePlace,
    },
}

/// Nodes in the order of the text.
#[cycle(node)]
#[derive(Debug)]
pub struct Nodes {
    pub items: Vec<Node>,
}

impl Drop for Nodes {
    #[cycle(node)]
    fn drop(self) {
        let Nodes { items } = self;
        drop(items);
    }
}

impl Model for Nodes {
    ghost use Rattle.plan_ir.specs.Nodes.{Nodes, set_depth};
    ghost use Rattle.plan_ir.specs.NodesCode.{coded_nodes};

    ghost Value = { Nodes };

    ghost coded = { coded_nodes };

    ghost use Rattle.plan_ir.specs.NodesView.{nodes_of};

    ghost view = { λ s. nodes_of s.items.items };

    ghost size = { set_depth };

    ghost use Rattle.plan_ir.specs.NodesFall.{nodes_fall};

    ghost size_decreases = { λ s h. nodes_fall s.items.items };
}

impl Nodes {
    /// No node; takes no memory.
    pub fn new(alloc: Global) -> Nodes
        ensures { result ≡ end }
    {
        Nodes {
            items: Vec::new(alloc),
        }
    }

    /// Puts a node at the end.
    pub fn push(&mut self, node: Node) -> Result<(), NoMemory>
        ensures ok { OnOk result (self.new ≡ nodes_append self.old (node_of node)) }
        ensures err { OnErr result (self.new ≡ self.old) }
    {
        self.items.push(node)?;
        Ok(())
    }

    /// The nodes in order.
    pub fn as_slice(&self) -> &[Node]
        ensures { nodes_of result.now ≡ self.now }
    {
        &self.items
    }

    /// The number of nodes, those inside them not counted.
    pub fn len(&self) -> usize
        ensures { result ≡ number_of self.now }
    {
        self.items.len()
    }

    /// Whether there is no node.
    pub fn is_empty(&self) -> bool
        ensures { IsTrue result ↔ (self.now ≡ end) }
    {
        self.items.is_empty()
    }

    /// The same nodes.
    #[cycle(copy)]
    pub fn copy(&self) -> Result<Nodes, NoMemory>
        ensures { IfOk result (λ nodes. nodes ≡ self.now) }
    {
        let mut items = Vec::new(*self.items.allocator());
        'nodes: for node in &self.items {
            items.push(node.copy()?)?;
        }
        Ok(Nodes { items })
    }
}

impl Node {
    /// The same node.
    #[cycle(copy)]
    pub fn copy(&self) -> Result<Node, NoMemory>
        ensures { IfOk result (λ node. node ≡ self.now) }
    {
        Ok(match self {
            Node::Field {
                response,
                name,
                arguments,
                directives,
                connection,
                of,
                selections,
                place,
            } => Node::Field {
                response: response.copy()?,
                name: name.copy()?,
                arguments: arguments.copy()?,
                directives: directives.copy()?,
                connection: copy_of_conn(connection)?,
                of: of.copy()?,
                selections: selections.copy()?,
                place: *place,
            },
            Node::Inline {
                on,
                directives,
                selections,
                place,
            } => Node::Inline {
                on: copy_of_name(on)?,
                directives: directives.copy()?,
                selections: selections.copy()?,
                place: *place,
            },
        })
    }
}
