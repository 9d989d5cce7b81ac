//! Definitions of variables (GraphQL, October 2021, section 2.10).
ghost use Rattle.std.specs.Prelude.{◌≡◌, [], ◌∷◌, ◌++◌, length, IfOk, OnOk, OnErr, IsTrue, ◌↔◌};

use crate::directive::Directives;
use crate::lists::push;
use crate::type_tree::TypeTree;
use crate::value::{ValueTree, copy_of_value};
use gql_plain::{Name, NoMemory};
use std::alloc::Global;
use std::marker::Model;

/// The definition of a variable.
#[derive(Debug, Drop)]
pub struct VariableDef {
    /// The name without `$`.
    pub name: Name,
    pub of: TypeTree,
    pub default: Option<ValueTree>,
    pub directives: Directives,
}

impl VariableDef {
    /// The same definition.
    pub fn copy(&self) -> Result<VariableDef, NoMemory>
        ensures { IfOk result (λ variable. variable ≡ self.now) }
    {
        Ok(VariableDef {
            name: self.name.copy()?,
            of: self.of.copy()?,
            default: copy_of_value(&self.default)?,
            directives: self.directives.copy()?,
        })
    }
}

/// Definitions of variables in written order.
#[derive(Debug)]
pub struct VariableDefs {
    pub items: Vec<VariableDef>,
}

impl Drop for VariableDefs {
    fn drop(self) {
        let VariableDefs { items } = self;
        drop(items);
    }
}

impl Model for VariableDefs {
    ghost use Rattle.std.specs.Prelude.{List};
    ghost use Rattle.std.specs.Coded.{coded_list};
    ghost use Rattle.gql_ast.specs.declared.variable.VariableDef.{VariableDef};
    ghost use Rattle.gql_ast.specs.contracts.variable.VariableDef as variable_row;

    ghost Value = { List VariableDef };

    ghost coded = { coded_list variable_row.the_row.coded };

    ghost view = { λ x. x.items.items };
}

impl VariableDefs {
    /// No variable; takes no memory.
    pub fn new(alloc: Global) -> VariableDefs
        ensures { result ≡ [] }
    {
        VariableDefs {
            items: Vec::new(alloc),
        }
    }

    /// Puts a variable at the end.
    pub fn push(&mut self, variable: VariableDef) -> Result<(), NoMemory>
        ensures ok { OnOk result (self.new ≡ self.old ++ variable ∷ []) }
        ensures err { OnErr result (self.new ≡ self.old) }
    {
        push(&mut self.items, variable)
    }

    /// The variables in order.
    pub fn as_slice(&self) -> &[VariableDef]
        ensures { result.now ≡ self.now }
    {
        &self.items
    }

    /// The number of variables.
    pub fn len(&self) -> usize
        ensures { result ≡ length self.now }
    {
        self.items.len()
    }

    /// Whether there is no variable.
    pub fn is_empty(&self) -> bool
        ensures { IsTrue result ↔ (self.now ≡ []) }
    {
        self.items.is_empty()
    }

    /// The same variables.
    pub fn copy(&self) -> Result<VariableDefs, NoMemory>
        ensures { IfOk result (λ variables. variables ≡ self.now) }
    {
        let mut items = Vec::with_capacity(*self.items.allocator(), self.items.len())?;
        'variables: for variable in &self.items {
            items.push(variable.copy()?)?;
        }
        Ok(VariableDefs { items })
    }
}
