//! What stands in documents, over borrowed trees.

use schema_types::located::NameAt;
use schema_types::{Kind, Selections, ValueTree, VariableDef};

/// A value (GraphQL, October 2021, section 2.9) and the number of its node.
#[derive(Clone, Copy)]
pub struct ValueAt<'a> {
    pub of: &'a ValueTree,
    pub at: usize,
}

/// An argument (section 2.6).
#[derive(Clone, Copy)]
pub struct ArgumentAt<'a> {
    pub name: NameAt<'a>,
    pub value: ValueAt<'a>,
}

/// A directive that is applied (section 2.12).
#[derive(Drop)]
pub struct DirectiveAt<'a> {
    pub name: NameAt<'a>,
    pub arguments: Vec<ArgumentAt<'a>>,
}

/// The definition of a variable (section 2.10).
#[derive(Drop)]
pub struct VariableAt<'a> {
    pub name: NameAt<'a>,
    pub defined: &'a VariableDef,
    pub default: Option<ValueAt<'a>>,
    pub directives: Vec<DirectiveAt<'a>>,
}

/// A selection apart from those inside it, with the type around it where that is known.
#[derive(Drop)]
pub enum Site<'a> {
    /// A field (sections 2.5 to 2.7).
    Field {
        around: Option<&'a str>,
        alias: Option<NameAt<'a>>,
        name: NameAt<'a>,
        arguments: Vec<ArgumentAt<'a>>,
        directives: Vec<DirectiveAt<'a>>,
        has_set: bool,
    },
    /// The spread of a fragment (section 2.8).
    Spread {
        around: Option<&'a str>,
        name: NameAt<'a>,
        directives: Vec<DirectiveAt<'a>>,
    },
    /// An inline fragment (section 2.8.2), with the number of its own node.
    Inline {
        around: Option<&'a str>,
        first: usize,
        on: Option<NameAt<'a>>,
        directives: Vec<DirectiveAt<'a>>,
    },
}

/// An operation (section 2.3), with the number of the node of its definition.
#[derive(Drop)]
pub struct OperationAt<'a> {
    pub first: usize,
    pub kind: Kind,
    pub name: Option<NameAt<'a>>,
    pub variables: Vec<VariableAt<'a>>,
    pub directives: Vec<DirectiveAt<'a>>,
    pub selections: &'a Selections,
    /// Its selections and those inside them, in text order.
    pub sites: Vec<Site<'a>>,
}

/// A fragment (section 2.8).
#[derive(Drop)]
pub struct FragmentAt<'a> {
    pub name: NameAt<'a>,
    /// Its type condition.
    pub on: NameAt<'a>,
    pub directives: Vec<DirectiveAt<'a>>,
    pub selections: &'a Selections,
    /// Its selections and those inside them, in text order.
    pub sites: Vec<Site<'a>>,
}

/// A definition of a document (section 2.2).
#[derive(Drop)]
pub enum DefinitionAt<'a> {
    Operation(OperationAt<'a>),
    Fragment(FragmentAt<'a>),
}
