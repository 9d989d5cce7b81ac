//! Values (GraphQL, October 2021, section 2.9), with the arguments that hold them (section 2.6).
ghost use Rattle.std.specs.Prelude.{◌≡◌, [], ◌∷◌, ◌++◌, map, length, IfOk, OnOk, OnErr, IsTrue, ◌↔◌};
ghost use Rattle.gql_ast.specs.ValueView.{value_of, argument_of};

use crate::lists::push;
use gql_plain::{Name, NoMemory, Words};
use std::alloc::Global;
use std::marker::Model;

/// A value as it is written.
#[cycle(value)]
#[derive(Debug, Drop)]
pub enum ValueTree {
    /// A variable, its name without `$`.
    Variable(Name),
    Int(i64),
    Text(Words),
    Bool(bool),
    Null,
    Enum(Name),
    List(ValueTrees),
    /// The fields of an input object in written order.
    Object(Arguments),
}

/// Values in written order.
#[cycle(value)]
#[derive(Debug)]
pub struct ValueTrees {
    pub items: Vec<ValueTree>,
}

impl Drop for ValueTrees {
    #[cycle(value)]
    fn drop(self) {
        let ValueTrees { items } = self;
        drop(items);
    }
}

/// A name and its value: an argument, or a field of an input object.
#[cycle(value)]
#[derive(Debug, Drop)]
pub struct Argument {
    pub name: Name,
    pub value: ValueTree,
}

/// Arguments, or the fields of an input object, in written order.
#[cycle(value)]
#[derive(Debug)]
pub struct Arguments {
    pub items: Vec<Argument>,
}

impl Drop for Arguments {
    #[cycle(value)]
    fn drop(self) {
        let Arguments { items } = self;
        drop(items);
    }
}

impl Model for ValueTrees {
    ghost use Rattle.std.specs.Prelude.{List, map};
    ghost use Rattle.gql_ast.specs.Value.{Val, vals_of, vals_depth};
    ghost use Rattle.gql_ast.specs.ValueCode.{coded_vals};

    ghost Value = { List Val };

    ghost coded = { coded_vals };

    ghost use Rattle.gql_ast.specs.ValueView.{value_of};

    ghost view = { λ vs. map value_of vs.items.items };

    ghost size = { λ vs. vals_depth (vals_of vs) };

    ghost use Rattle.gql_ast.specs.ValueFalls.{values_fall};

    ghost size_decreases = { λ vs h. values_fall vs.items.items };
}

impl Model for Arguments {
    ghost use Rattle.std.specs.Prelude.{ℕ, List, map};
    ghost use Rattle.gql_ast.specs.Value.{Val, members_of, members_depth};
    ghost use Rattle.gql_ast.specs.ValueCode.{coded_members};

    ghost Value = { List (List ℕ × Val) };

    ghost coded = { coded_members };

    ghost use Rattle.gql_ast.specs.ValueView.{argument_of};

    ghost view = { λ a. map argument_of a.items.items };

    ghost size = { λ ms. members_depth (members_of ms) };

    ghost use Rattle.gql_ast.specs.ValueFalls.{arguments_fall};

    ghost size_decreases = { λ a h. arguments_fall a.items.items };
}

impl ValueTrees {
    /// No value; takes no memory.
    pub fn new(alloc: Global) -> ValueTrees
        ensures { result ≡ [] }
    {
        ValueTrees {
            items: Vec::new(alloc),
        }
    }

    /// Puts a value at the end.
    pub fn push(&mut self, value: ValueTree) -> Result<(), NoMemory>
        ensures ok { OnOk result (self.new ≡ self.old ++ value_of value ∷ []) }
        ensures err { OnErr result (self.new ≡ self.old) }
    {
        push(&mut self.items, value)
    }

    /// The values in written order.
    pub fn as_slice(&self) -> &[ValueTree]
        ensures { map value_of result.now ≡ self.now }
    {
        &self.items
    }

    /// The number of values.
    pub fn len(&self) -> usize
        ensures { result ≡ length self.now }
    {
        self.items.len()
    }

    /// Whether there is no value.
    pub fn is_empty(&self) -> bool
        ensures { IsTrue result ↔ (self.now ≡ []) }
    {
        self.items.is_empty()
    }

    /// The same values.
    #[cycle(copy)]
    pub fn copy(&self) -> Result<ValueTrees, NoMemory>
        ensures { IfOk result (λ values. values ≡ self.now) }
    {
        let mut items = Vec::with_capacity(*self.items.allocator(), self.items.len())?;
        'values: for value in &self.items {
            items.push(value.copy()?)?;
        }
        Ok(ValueTrees { items })
    }
}

impl ValueTree {
    /// The same value.
    #[cycle(copy)]
    pub fn copy(&self) -> Result<ValueTree, NoMemory>
        ensures { IfOk result (λ value. value ≡ self.now) }
    {
        Ok(match self {
            ValueTree::Variable(name) => ValueTree::Variable(name.copy()?),
            ValueTree::Int(number) => ValueTree::Int(*number),
            ValueTree::Text(text) => ValueTree::Text(text.copy()?),
            ValueTree::Bool(truth) => ValueTree::Bool(*truth),
            ValueTree::Null => ValueTree::Null,
            ValueTree::Enum(name) => ValueTree::Enum(name.copy()?),
            ValueTree::List(values) => ValueTree::List(values.copy()?),
            ValueTree::Object(fields) => ValueTree::Object(fields.copy()?),
        })
    }
}

impl Argument {
    /// The same argument.
    #[cycle(copy)]
    pub fn copy(&self) -> Result<Argument, NoMemory>
        ensures { IfOk result (λ argument. argument ≡ self.now) }
    {
        Ok(Argument {
            name: self.name.copy()?,
            value: self.value.copy()?,
        })
    }
}

impl Arguments {
    /// No argument; takes no memory.
    pub fn new(alloc: Global) -> Arguments
        ensures { result ≡ [] }
    {
        Arguments {
            items: Vec::new(alloc),
        }
    }

    /// Puts an argument at the end.
    pub fn push(&mut self, argument: Argument) -> Result<(), NoMemory>
        ensures ok { OnOk result (self.new ≡ self.old ++ argument_of argument ∷ []) }
        ensures err { OnErr result (self.new ≡ self.old) }
    {
        push(&mut self.items, argument)
    }

    /// The arguments in written order.
    pub fn as_slice(&self) -> &[Argument]
        ensures { map argument_of result.now ≡ self.now }
    {
        &self.items
    }

    /// The number of arguments.
    pub fn len(&self) -> usize
        ensures { result ≡ length self.now }
    {
        self.items.len()
    }

    /// Whether there is no argument.
    pub fn is_empty(&self) -> bool
        ensures { IsTrue result ↔ (self.now ≡ []) }
    {
        self.items.is_empty()
    }

    /// The same arguments.
    #[cycle(copy)]
    pub fn copy(&self) -> Result<Arguments, NoMemory>
        ensures { IfOk result (λ arguments. arguments ≡ self.now) }
    {
        let mut items = Vec::with_capacity(*self.items.allocator(), self.items.len())?;
        'arguments: for argument in &self.items {
            items.push(argument.copy()?)?;
        }
        Ok(Arguments { items })
    }
}

/// The same value, or none where there is none.
pub(crate) fn copy_of_value(value: &Option<ValueTree>) -> Result<Option<ValueTree>, NoMemory>
    ensures { IfOk result (λ copy. copy ≡ value.now) }
{
    match value {
        Some(value) => Ok(Some(value.copy()?)),
        None => Ok(None),
    }
}
