//! Documents of operations and fragments (GraphQL, October 2021, sections 2.2, 2.3 and 2.8).
ghost use Rattle.std.specs.Prelude.{◌≡◌, [], ◌∷◌, ◌++◌, length, IfOk, OnOk, OnErr, IsTrue, ◌↔◌};

use crate::directive::Directives;
use crate::lists::push;
use crate::names::copy_of_name;
use crate::place::Placed;
use crate::selection::Selections;
use crate::variable::VariableDefs;
use gql_plain::{Name, NoMemory};
use std::alloc::Global;
use std::marker::Model;

/// The kind of an operation.
#[derive(Clone, Copy, Debug, PartialEq, Eq)]
pub enum Kind {
    Query,
    Mutation,
    Subscription,
}

/// An operation. A selection set alone is a query without a name.
#[derive(Debug, Drop)]
pub struct Operation {
    pub kind: Kind,
    pub name: Option<Name>,
    pub variables: VariableDefs,
    pub directives: Directives,
    pub selections: Selections,
}

/// The definition of a fragment, with its type condition.
#[derive(Debug, Drop)]
pub struct Fragment {
    pub name: Name,
    pub on: Name,
    pub directives: Directives,
    pub selections: Selections,
}

/// A definition of a document.
#[derive(Debug, Drop)]
pub enum Definition {
    Operation(Operation),
    Fragment(Fragment),
}

impl Operation {
    /// The same operation.
    pub fn copy(&self) -> Result<Operation, NoMemory>
        ensures { IfOk result (λ operation. operation ≡ self.now) }
    {
        Ok(Operation {
            kind: self.kind,
            name: copy_of_name(&self.name)?,
            variables: self.variables.copy()?,
            directives: self.directives.copy()?,
            selections: self.selections.copy()?,
        })
    }
}

impl Fragment {
    /// The same fragment.
    pub fn copy(&self) -> Result<Fragment, NoMemory>
        ensures { IfOk result (λ fragment. fragment ≡ self.now) }
    {
        Ok(Fragment {
            name: self.name.copy()?,
            on: self.on.copy()?,
            directives: self.directives.copy()?,
            selections: self.selections.copy()?,
        })
    }
}

impl Definition {
    /// The same definition.
    pub fn copy(&self) -> Result<Definition, NoMemory>
        ensures { IfOk result (λ definition. definition ≡ self.now) }
    {
        Ok(match self {
            Definition::Operation(operation) => Definition::Operation(operation.copy()?),
            Definition::Fragment(fragment) => Definition::Fragment(fragment.copy()?),
        })
    }
}

/// Definitions in written order.
#[derive(Debug)]
pub struct Definitions {
    pub items: Vec<Definition>,
}

impl Drop for Definitions {
    fn drop(self) {
        let Definitions { items } = self;
        drop(items);
    }
}

impl Model for Definitions {
    ghost use Rattle.std.specs.Prelude.{List};
    ghost use Rattle.std.specs.Coded.{coded_list};
    ghost use Rattle.gql_ast.specs.declared.document.Definition.{Definition};
    ghost use Rattle.gql_ast.specs.contracts.document.Definition as definition_row;

    ghost Value = { List Definition };

    ghost coded = { coded_list definition_row.the_row.coded };

    ghost view = { λ x. x.items.items };
}

impl Definitions {
    /// No definition; takes no memory.
    pub fn new(alloc: Global) -> Definitions
        ensures { result ≡ [] }
    {
        Definitions {
            items: Vec::new(alloc),
        }
    }

    /// Puts a definition at the end.
    pub fn push(&mut self, definition: Definition) -> Result<(), NoMemory>
        ensures ok { OnOk result (self.new ≡ self.old ++ definition ∷ []) }
        ensures err { OnErr result (self.new ≡ self.old) }
    {
        push(&mut self.items, definition)
    }

    /// The definitions in order.
    pub fn as_slice(&self) -> &[Definition]
        ensures { result.now ≡ self.now }
    {
        &self.items
    }

    /// The number of definitions.
    pub fn len(&self) -> usize
        ensures { result ≡ length self.now }
    {
        self.items.len()
    }

    /// Whether there is no definition.
    pub fn is_empty(&self) -> bool
        ensures { IsTrue result ↔ (self.now ≡ []) }
    {
        self.items.is_empty()
    }

    /// The same definitions.
    pub fn copy(&self) -> Result<Definitions, NoMemory>
        ensures { IfOk result (λ definitions. definitions ≡ self.now) }
    {
        let mut items = Vec::with_capacity(*self.items.allocator(), self.items.len())?;
        'definitions: for definition in &self.items {
            items.push(definition.copy()?)?;
        }
        Ok(Definitions { items })
    }
}

/// A document.
#[derive(Debug, Drop)]
pub struct Document {
    pub definitions: Definitions,
}

impl Document {
    /// The same document.
    pub fn copy(&self) -> Result<Document, NoMemory>
        ensures { IfOk result (λ document. document ≡ self.now) }
    {
        Ok(Document {
            definitions: self.definitions.copy()?,
        })
    }
}

impl Placed<Document> {
    /// The same document with the same places.
    pub fn copy(&self) -> Result<Placed<Document>, NoMemory>
        ensures { IfOk result (λ document. document ≡ self.now) }
    {
        Ok(Placed {
            tree: self.tree.copy()?,
            places: self.places.copy()?,
        })
    }
}

/// The documents of a project, one for each file.
#[derive(Debug, Drop)]
pub struct Documents {
    pub items: Vec<Placed<Document>>,
}

impl Model for Documents {
    ghost use Rattle.std.specs.Prelude.{List};
    ghost use Rattle.std.specs.Coded.{coded_list};
    ghost use Rattle.gql_ast.specs.declared.place.Placed.{Placed};
    ghost use Rattle.gql_ast.specs.declared.document.Document.{Document};
    ghost use Rattle.gql_ast.specs.contracts.place.Placed as placed_row;
    ghost use Rattle.gql_ast.specs.contracts.document.Document as document_row;

    ghost Value = { List (Placed Document) };

    ghost coded = { coded_list (placed_row.the_row document_row.the_row).coded };

    ghost view = { λ x. x.items.items };
}

impl Documents {
    /// No document; takes no memory.
    pub fn new(alloc: Global) -> Documents
        ensures { result ≡ [] }
    {
        Documents {
            items: Vec::new(alloc),
        }
    }

    /// Puts a document at the end.
    pub fn push(&mut self, document: Placed<Document>) -> Result<(), NoMemory>
        ensures ok { OnOk result (self.new ≡ self.old ++ document ∷ []) }
        ensures err { OnErr result (self.new ≡ self.old) }
    {
        push(&mut self.items, document)
    }

    /// The documents in order.
    pub fn as_slice(&self) -> &[Placed<Document>]
        ensures { result.now ≡ self.now }
    {
        &self.items
    }

    /// The number of documents.
    pub fn len(&self) -> usize
        ensures { result ≡ length self.now }
    {
        self.items.len()
    }

    /// Whether there is no document.
    pub fn is_empty(&self) -> bool
        ensures { IsTrue result ↔ (self.now ≡ []) }
    {
        self.items.is_empty()
    }

    /// The same documents.
    pub fn copy(&self) -> Result<Documents, NoMemory>
        ensures { IfOk result (λ documents. documents ≡ self.now) }
    {
        let mut items = Vec::with_capacity(*self.items.allocator(), self.items.len())?;
        'documents: for document in &self.items {
            items.push(document.copy()?)?;
        }
        Ok(Documents { items })
    }
}
