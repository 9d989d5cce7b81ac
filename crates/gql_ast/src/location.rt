//! Where a directive may stand (GraphQL, October 2021, section 3.13).
ghost use Rattle.std.specs.Prelude.{◌≡◌, [], ◌∷◌, ◌++◌, length, IfOk, OnOk, OnErr, IsTrue, ◌↔◌};

use crate::lists::push;
use gql_plain::NoMemory;
use std::alloc::Global;
use std::marker::Model;

/// A place where a directive may stand.
#[derive(Clone, Copy, Debug, PartialEq, Eq)]
pub enum Location {
    Query,
    Mutation,
    Subscription,
    Field,
    FragmentDefinition,
    FragmentSpread,
    InlineFragment,
    VariableDefinition,
    Schema,
    Scalar,
    Object,
    FieldDefinition,
    ArgumentDefinition,
    Interface,
    Union,
    Enum,
    EnumValue,
    InputObject,
    InputFieldDefinition,
}

/// Locations in written order.
#[derive(Debug)]
pub struct Locations {
    pub items: Vec<Location>,
}

impl Drop for Locations {
    fn drop(self) {
        let Locations { items } = self;
        drop(items);
    }
}

impl Model for Locations {
    ghost use Rattle.std.specs.Prelude.{List};
    ghost use Rattle.gql_ast.specs.declared.location.Location.{Location};

    ghost Value = { List Location };

    ghost view = { λ x. x.items.items };
}

impl Locations {
    /// No location; takes no memory.
    pub fn new(alloc: Global) -> Locations
        ensures { result ≡ [] }
    {
        Locations {
            items: Vec::new(alloc),
        }
    }

    /// Puts a location at the end.
    pub fn push(&mut self, location: Location) -> Result<(), NoMemory>
        ensures ok { OnOk result (self.new ≡ self.old ++ location ∷ []) }
        ensures err { OnErr result (self.new ≡ self.old) }
    {
        push(&mut self.items, location)
    }

    /// The locations in order.
    pub fn as_slice(&self) -> &[Location]
        ensures { result.now ≡ self.now }
    {
        &self.items
    }

    /// The number of locations.
    pub fn len(&self) -> usize
        ensures { result ≡ length self.now }
    {
        self.items.len()
    }

    /// Whether there is no location.
    pub fn is_empty(&self) -> bool
        ensures { IsTrue result ↔ (self.now ≡ []) }
    {
        self.items.is_empty()
    }

    /// The same locations.
    pub fn copy(&self) -> Result<Locations, NoMemory>
        ensures { IfOk result (λ locations. locations ≡ self.now) }
    {
        let mut items = Vec::with_capacity(*self.items.allocator(), self.items.len())?;
        'locations: for location in &self.items {
            items.push(*location)?;
        }
        Ok(Locations { items })
    }
}
