//! Directives that are applied (GraphQL, October 2021, section 2.12).
ghost use Rattle.std.specs.Prelude.{◌≡◌, [], ◌∷◌, ◌++◌, length, IfOk, OnOk, OnErr, IsTrue, ◌↔◌};

use crate::lists::push;
use crate::value::Arguments;
use gql_plain::{Name, NoMemory};
use std::alloc::Global;
use std::marker::Model;

/// A directive with its arguments.
#[derive(Debug, Drop)]
pub struct Directive {
    /// The name without `@`.
    pub name: Name,
    pub arguments: Arguments,
}

impl Directive {
    /// The same directive.
    pub fn copy(&self) -> Result<Directive, NoMemory>
        ensures { IfOk result (λ directive. directive ≡ self.now) }
    {
        Ok(Directive {
            name: self.name.copy()?,
            arguments: self.arguments.copy()?,
        })
    }
}

/// Directives in written order.
#[derive(Debug)]
pub struct Directives {
    pub items: Vec<Directive>,
}

impl Drop for Directives {
    fn drop(self) {
        let Directives { items } = self;
        drop(items);
    }
}

impl Model for Directives {
    ghost use Rattle.std.specs.Prelude.{List};
    ghost use Rattle.std.specs.Coded.{coded_list};
    ghost use Rattle.gql_ast.specs.declared.directive.Directive.{Directive};
    ghost use Rattle.gql_ast.specs.contracts.directive.Directive as directive;

    ghost Value = { List Directive };

    ghost coded = { coded_list directive.the_row.coded };

    ghost view = { λ d. d.items.items };
}

impl Directives {
    /// No directive; takes no memory.
    pub fn new(alloc: Global) -> Directives
        ensures { result ≡ [] }
    {
        Directives {
            items: Vec::new(alloc),
        }
    }

    /// Puts a directive at the end.
    pub fn push(&mut self, directive: Directive) -> Result<(), NoMemory>
        ensures ok { OnOk result (self.new ≡ self.old ++ directive ∷ []) }
        ensures err { OnErr result (self.new ≡ self.old) }
    {
        push(&mut self.items, directive)
    }

    /// The directives in written order.
    pub fn as_slice(&self) -> &[Directive]
        ensures { result.now ≡ self.now }
    {
        &self.items
    }

    /// The number of directives.
    pub fn len(&self) -> usize
        ensures { result ≡ length self.now }
    {
        self.items.len()
    }

    /// Whether there is no directive.
    pub fn is_empty(&self) -> bool
        ensures { IsTrue result ↔ (self.now ≡ []) }
    {
        self.items.is_empty()
    }

    /// The same directives.
    pub fn copy(&self) -> Result<Directives, NoMemory>
        ensures { IfOk result (λ directives. directives ≡ self.now) }
    {
        let mut items = Vec::with_capacity(*self.items.allocator(), self.items.len())?;
        'directives: for directive in &self.items {
            items.push(directive.copy()?)?;
        }
        Ok(Directives { items })
    }
}
