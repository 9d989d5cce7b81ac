//! What type definitions hold: fields, inputs and enum values (GraphQL, October 2021, sections 3.6,
//! 3.9 and 3.10).
ghost use Rattle.std.specs.Prelude.{◌≡◌, [], ◌∷◌, ◌++◌, length, IfOk, OnOk, OnErr, IsTrue, ◌↔◌};

use crate::directive::Directives;
use crate::lists::push;
use crate::type_tree::TypeTree;
use crate::value::{ValueTree, copy_of_value};
use gql_plain::{Name, NoMemory};
use std::alloc::Global;
use std::marker::Model;

/// The definition of an argument or of a field of an input object.
#[derive(Debug, Drop)]
pub struct InputTree {
    pub name: Name,
    pub of: TypeTree,
    pub default: Option<ValueTree>,
    pub directives: Directives,
}

impl InputTree {
    /// The same definition.
    pub fn copy(&self) -> Result<InputTree, NoMemory>
        ensures { IfOk result (λ input. input ≡ self.now) }
    {
        Ok(InputTree {
            name: self.name.copy()?,
            of: self.of.copy()?,
            default: copy_of_value(&self.default)?,
            directives: self.directives.copy()?,
        })
    }
}

/// Definitions of arguments or of fields of an input object, in written order.
#[derive(Debug)]
pub struct InputTrees {
    pub items: Vec<InputTree>,
}

impl Drop for InputTrees {
    fn drop(self) {
        let InputTrees { items } = self;
        drop(items);
    }
}

impl Model for InputTrees {
    ghost use Rattle.std.specs.Prelude.{List};
    ghost use Rattle.std.specs.Coded.{coded_list};
    ghost use Rattle.gql_ast.specs.declared.member.InputTree.{InputTree};
    ghost use Rattle.gql_ast.specs.contracts.member.InputTree as input_row;

    ghost Value = { List InputTree };

    ghost coded = { coded_list input_row.the_row.coded };

    ghost view = { λ x. x.items.items };
}

impl InputTrees {
    /// No input; takes no memory.
    pub fn new(alloc: Global) -> InputTrees
        ensures { result ≡ [] }
    {
        InputTrees {
            items: Vec::new(alloc),
        }
    }

    /// Puts an input at the end.
    pub fn push(&mut self, input: InputTree) -> Result<(), NoMemory>
        ensures ok { OnOk result (self.new ≡ self.old ++ input ∷ []) }
        ensures err { OnErr result (self.new ≡ self.old) }
    {
        push(&mut self.items, input)
    }

    /// The inputs in order.
    pub fn as_slice(&self) -> &[InputTree]
        ensures { result.now ≡ self.now }
    {
        &self.items
    }

    /// The number of inputs.
    pub fn len(&self) -> usize
        ensures { result ≡ length self.now }
    {
        self.items.len()
    }

    /// Whether there is no input.
    pub fn is_empty(&self) -> bool
        ensures { IsTrue result ↔ (self.now ≡ []) }
    {
        self.items.is_empty()
    }

    /// The same inputs.
    pub fn copy(&self) -> Result<InputTrees, NoMemory>
        ensures { IfOk result (λ inputs. inputs ≡ self.now) }
    {
        let mut items = Vec::with_capacity(*self.items.allocator(), self.items.len())?;
        'inputs: for input in &self.items {
            items.push(input.copy()?)?;
        }
        Ok(InputTrees { items })
    }
}

/// The definition of a field of an object or an interface.
#[derive(Debug, Drop)]
pub struct FieldTree {
    pub name: Name,
    pub arguments: InputTrees,
    pub of: TypeTree,
    pub directives: Directives,
}

impl FieldTree {
    /// The same definition.
    pub fn copy(&self) -> Result<FieldTree, NoMemory>
        ensures { IfOk result (λ field. field ≡ self.now) }
    {
        Ok(FieldTree {
            name: self.name.copy()?,
            arguments: self.arguments.copy()?,
            of: self.of.copy()?,
            directives: self.directives.copy()?,
        })
    }
}

/// Definitions of fields in written order.
#[derive(Debug)]
pub struct FieldTrees {
    pub items: Vec<FieldTree>,
}

impl Drop for FieldTrees {
    fn drop(self) {
        let FieldTrees { items } = self;
        drop(items);
    }
}

impl Model for FieldTrees {
    ghost use Rattle.std.specs.Prelude.{List};
    ghost use Rattle.std.specs.Coded.{coded_list};
    ghost use Rattle.gql_ast.specs.declared.member.FieldTree.{FieldTree};
    ghost use Rattle.gql_ast.specs.contracts.member.FieldTree as field_row;

    ghost Value = { List FieldTree };

    ghost coded = { coded_list field_row.the_row.coded };

    ghost view = { λ x. x.items.items };
}

impl FieldTrees {
    /// No field; takes no memory.
    pub fn new(alloc: Global) -> FieldTrees
        ensures { result ≡ [] }
    {
        FieldTrees {
            items: Vec::new(alloc),
        }
    }

    /// Puts a field at the end.
    pub fn push(&mut self, field: FieldTree) -> Result<(), NoMemory>
        ensures ok { OnOk result (self.new ≡ self.old ++ field ∷ []) }
        ensures err { OnErr result (self.new ≡ self.old) }
    {
        push(&mut self.items, field)
    }

    /// The fields in order.
    pub fn as_slice(&self) -> &[FieldTree]
        ensures { result.now ≡ self.now }
    {
        &self.items
    }

    /// The number of fields.
    pub fn len(&self) -> usize
        ensures { result ≡ length self.now }
    {
        self.items.len()
    }

    /// Whether there is no field.
    pub fn is_empty(&self) -> bool
        ensures { IsTrue result ↔ (self.now ≡ []) }
    {
        self.items.is_empty()
    }

    /// The same fields.
    pub fn copy(&self) -> Result<FieldTrees, NoMemory>
        ensures { IfOk result (λ fields. fields ≡ self.now) }
    {
        let mut items = Vec::with_capacity(*self.items.allocator(), self.items.len())?;
        'fields: for field in &self.items {
            items.push(field.copy()?)?;
        }
        Ok(FieldTrees { items })
    }
}

/// The definition of a value of an enum.
#[derive(Debug, Drop)]
pub struct EnumValue {
    pub name: Name,
    pub directives: Directives,
}

impl EnumValue {
    /// The same definition.
    pub fn copy(&self) -> Result<EnumValue, NoMemory>
        ensures { IfOk result (λ value. value ≡ self.now) }
    {
        Ok(EnumValue {
            name: self.name.copy()?,
            directives: self.directives.copy()?,
        })
    }
}

/// Definitions of the values of an enum in written order.
#[derive(Debug)]
pub struct EnumValues {
    pub items: Vec<EnumValue>,
}

impl Drop for EnumValues {
    fn drop(self) {
        let EnumValues { items } = self;
        drop(items);
    }
}

impl Model for EnumValues {
    ghost use Rattle.std.specs.Prelude.{List};
    ghost use Rattle.std.specs.Coded.{coded_list};
    ghost use Rattle.gql_ast.specs.declared.member.EnumValue.{EnumValue};
    ghost use Rattle.gql_ast.specs.contracts.member.EnumValue as value_row;

    ghost Value = { List EnumValue };

    ghost coded = { coded_list value_row.the_row.coded };

    ghost view = { λ x. x.items.items };
}

impl EnumValues {
    /// No value; takes no memory.
    pub fn new(alloc: Global) -> EnumValues
        ensures { result ≡ [] }
    {
        EnumValues {
            items: Vec::new(alloc),
        }
    }

    /// Puts a value at the end.
    pub fn push(&mut self, value: EnumValue) -> Result<(), NoMemory>
        ensures ok { OnOk result (self.new ≡ self.old ++ value ∷ []) }
        ensures err { OnErr result (self.new ≡ self.old) }
    {
        push(&mut self.items, value)
    }

    /// The values in order.
    pub fn as_slice(&self) -> &[EnumValue]
        ensures { result.now ≡ self.now }
    {
        &self.items
    }

    /// The number of values.
    pub fn len(&self) -> usize
        ensures { result ≡ length self.now }
    {
        self.items.len()
    }

    /// Whether there is no value.
    pub fn is_empty(&self) -> bool
        ensures { IsTrue result ↔ (self.now ≡ []) }
    {
        self.items.is_empty()
    }

    /// The same values.
    pub fn copy(&self) -> Result<EnumValues, NoMemory>
        ensures { IfOk result (λ values. values ≡ self.now) }
    {
        let mut items = Vec::with_capacity(*self.items.allocator(), self.items.len())?;
        'values: for value in &self.items {
            items.push(value.copy()?)?;
        }
        Ok(EnumValues { items })
    }
}
