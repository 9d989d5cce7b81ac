//! Selections (GraphQL, October 2021, sections 2.4, 2.5, 2.7 and 2.8).
ghost use Rattle.std.specs.Prelude.{◌≡◌, IfOk, OnOk, OnErr, IsTrue, ◌↔◌, ◌∷◌, []};
ghost use Rattle.gql_ast.specs.Sels.{end, sels_append, number_of};
ghost use Rattle.gql_ast.specs.SelectionView.{sel_of, sels_of};

use crate::directive::Directives;
use crate::lists::push;
use crate::names::copy_of_name;
use crate::value::Arguments;
use gql_plain::{Name, NoMemory};
use std::alloc::Global;
use std::marker::Model;

/// One selection of a selection set.
#[cycle(selection)]
#[derive(Debug, Drop)]
pub enum Selection {
    /// A field. A field without a selection set has an empty list of selections.
    Field {
        alias: Option<Name>,
        name: Name,
        arguments: Arguments,
        directives: Directives,
        selections: Selections,
    },
    /// A fragment spread.
    Spread {
        name: Name,
        directives: Directives,
    },
    /// An inline fragment, with its type condition.
    Inline {
        on: Option<Name>,
        directives: Directives,
        selections: Selections,
    },
}

/// Selections in written order.
#[cycle(selection)]
#[derive(Debug)]
pub struct Selections {
    pub items: Vec<Selection>,
}

impl Drop for Selections {
    #[cycle(selection)]
    fn drop(self) {
        let Selections { items } = self;
        drop(items);
    }
}

impl Model for Selections {
    ghost use Rattle.gql_ast.specs.Sels.{Sels, depth};
    ghost use Rattle.gql_ast.specs.SelsCode.{coded_sels};

    ghost Value = { Sels };

    ghost coded = { coded_sels };

    ghost use Rattle.gql_ast.specs.SelectionView.{sels_of};

    ghost view = { λ s. sels_of s.items.items };

    ghost size = { depth };

    ghost use Rattle.gql_ast.specs.SelectionFalls.{selections_fall};

    ghost size_decreases = { λ s h. selections_fall s.items.items };
}

impl Selections {
    /// No selection; takes no memory.
    pub fn new(alloc: Global) -> Selections
        ensures { result ≡ end }
    {
        Selections {
            items: Vec::new(alloc),
        }
    }

    /// Puts a selection at the end.
    pub fn push(&mut self, selection: Selection) -> Result<(), NoMemory>
        ensures ok { OnOk result (self.new ≡ sels_append self.old (sel_of selection)) }
        ensures err { OnErr result (self.new ≡ self.old) }
    {
        push(&mut self.items, selection)
    }

    /// The selections in written order.
    pub fn as_slice(&self) -> &[Selection]
        ensures { sels_of result.now ≡ self.now }
    {
        &self.items
    }

    /// The number of selections, those inside them not counted.
    pub fn len(&self) -> usize
        ensures { result ≡ number_of self.now }
    {
        self.items.len()
    }

    /// Whether there is no selection.
    pub fn is_empty(&self) -> bool
        ensures { IsTrue result ↔ (self.now ≡ end) }
    {
        self.items.is_empty()
    }

    /// The same selections.
    #[cycle(copy)]
    pub fn copy(&self) -> Result<Selections, NoMemory>
        ensures { IfOk result (λ selections. selections ≡ self.now) }
    {
        let mut items = Vec::with_capacity(*self.items.allocator(), self.items.len())?;
        'selections: for selection in &self.items {
            items.push(selection.copy()?)?;
        }
        Ok(Selections { items })
    }
}

impl Selection {
    /// The same selection.
    #[cycle(copy)]
    pub fn copy(&self) -> Result<Selection, NoMemory>
        ensures { IfOk result (λ selection. selection ≡ self.now) }
    {
        Ok(match self {
            Selection::Field {
                alias,
                name,
                arguments,
                directives,
                selections,
            } => Selection::Field {
                alias: copy_of_name(alias)?,
                name: name.copy()?,
                arguments: arguments.copy()?,
                directives: directives.copy()?,
                selections: selections.copy()?,
            },
            Selection::Spread { name, directives } => Selection::Spread {
                name: name.copy()?,
                directives: directives.copy()?,
            },
            Selection::Inline {
                on,
                directives,
                selections,
            } => Selection::Inline {
                on: copy_of_name(on)?,
                directives: directives.copy()?,
                selections: selections.copy()?,
            },
        })
    }
}
