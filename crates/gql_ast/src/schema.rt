//! Type systems as they are written (GraphQL, October 2021, section 3).
ghost use Rattle.std.specs.Prelude.{◌≡◌, [], ◌∷◌, ◌++◌, length, IfOk, OnOk, OnErr, IsTrue, ◌↔◌};

use crate::directive::Directives;
use crate::document::Kind;
use crate::lists::push;
use crate::location::Locations;
use crate::member::{EnumValues, FieldTrees, InputTrees};
use crate::names::Names;
use crate::place::Placed;
use gql_plain::{Name, NoMemory};
use std::alloc::Global;
use std::marker::Model;

/// The object type of the operations of a kind (section 3.3.1).
#[derive(Debug, Drop)]
pub struct Root {
    pub kind: Kind,
    pub name: Name,
}

impl Root {
    /// The same root.
    pub fn copy(&self) -> Result<Root, NoMemory>
        ensures { IfOk result (λ root. root ≡ self.now) }
    {
        Ok(Root {
            kind: self.kind,
            name: self.name.copy()?,
        })
    }
}

/// The roots of a schema in written order.
#[derive(Debug)]
pub struct Roots {
    pub items: Vec<Root>,
}

impl Drop for Roots {
    fn drop(self) {
        let Roots { items } = self;
        drop(items);
    }
}

impl Model for Roots {
    ghost use Rattle.std.specs.Prelude.{List};
    ghost use Rattle.std.specs.Coded.{coded_list};
    ghost use Rattle.gql_ast.specs.declared.schema.Root.{Root};
    ghost use Rattle.gql_ast.specs.contracts.schema.Root as root_row;

    ghost Value = { List Root };

    ghost coded = { coded_list root_row.the_row.coded };

    ghost view = { λ x. x.items.items };
}

impl Roots {
    /// No root; takes no memory.
    pub fn new(alloc: Global) -> Roots
        ensures { result ≡ [] }
    {
        Roots {
            items: Vec::new(alloc),
        }
    }

    /// Puts a root at the end.
    pub fn push(&mut self, root: Root) -> Result<(), NoMemory>
        ensures ok { OnOk result (self.new ≡ self.old ++ root ∷ []) }
        ensures err { OnErr result (self.new ≡ self.old) }
    {
        push(&mut self.items, root)
    }

    /// The roots in order.
    pub fn as_slice(&self) -> &[Root]
        ensures { result.now ≡ self.now }
    {
        &self.items
    }

    /// The number of roots.
    pub fn len(&self) -> usize
        ensures { result ≡ length self.now }
    {
        self.items.len()
    }

    /// Whether there is no root.
    pub fn is_empty(&self) -> bool
        ensures { IsTrue result ↔ (self.now ≡ []) }
    {
        self.items.is_empty()
    }

    /// The same roots.
    pub fn copy(&self) -> Result<Roots, NoMemory>
        ensures { IfOk result (λ roots. roots ≡ self.now) }
    {
        let mut items = Vec::with_capacity(*self.items.allocator(), self.items.len())?;
        'roots: for root in &self.items {
            items.push(root.copy()?)?;
        }
        Ok(Roots { items })
    }
}

/// A definition of a type system. Descriptions are not kept.
#[derive(Debug, Drop)]
pub enum SchemaDef {
    /// The schema itself (section 3.3).
    Schema {
        directives: Directives,
        roots: Roots,
    },
    /// A scalar type (section 3.5).
    Scalar {
        name: Name,
        directives: Directives,
    },
    /// An object type (section 3.6).
    Object {
        name: Name,
        implements: Names,
        directives: Directives,
        fields: FieldTrees,
    },
    /// An interface type (section 3.7).
    Interface {
        name: Name,
        implements: Names,
        directives: Directives,
        fields: FieldTrees,
    },
    /// A union type (section 3.8).
    Union {
        name: Name,
        directives: Directives,
        members: Names,
    },
    /// An enum type (section 3.9).
    Enum {
        name: Name,
        directives: Directives,
        values: EnumValues,
    },
    /// An input object type (section 3.10).
    Input {
        name: Name,
        directives: Directives,
        fields: InputTrees,
    },
    /// A directive (section 3.13), its name without `@`.
    Directive {
        name: Name,
        arguments: InputTrees,
        repeatable: bool,
        locations: Locations,
    },
}

impl SchemaDef {
    /// The same definition.
    pub fn copy(&self) -> Result<SchemaDef, NoMemory>
        ensures { IfOk result (λ definition. definition ≡ self.now) }
    {
        Ok(match self {
            SchemaDef::Schema { directives, roots } => SchemaDef::Schema {
                directives: directives.copy()?,
                roots: roots.copy()?,
            },
            SchemaDef::Scalar { name, directives } => SchemaDef::Scalar {
                name: name.copy()?,
                directives: directives.copy()?,
            },
            SchemaDef::Object {
                name,
                implements,
                directives,
                fields,
            } => SchemaDef::Object {
                name: name.copy()?,
                implements: implements.copy()?,
                directives: directives.copy()?,
                fields: fields.copy()?,
            },
            SchemaDef::Interface {
                name,
                implements,
                directives,
                fields,
            } => SchemaDef::Interface {
                name: name.copy()?,
                implements: implements.copy()?,
                directives: directives.copy()?,
                fields: fields.copy()?,
            },
            SchemaDef::Union {
                name,
                directives,
                members,
            } => SchemaDef::Union {
                name: name.copy()?,
                directives: directives.copy()?,
                members: members.copy()?,
            },
            SchemaDef::Enum {
                name,
                directives,
                values,
            } => SchemaDef::Enum {
                name: name.copy()?,
                directives: directives.copy()?,
                values: values.copy()?,
            },
            SchemaDef::Input {
                name,
                directives,
                fields,
            } => SchemaDef::Input {
                name: name.copy()?,
                directives: directives.copy()?,
                fields: fields.copy()?,
            },
            SchemaDef::Directive {
                name,
                arguments,
                repeatable,
                locations,
            } => SchemaDef::Directive {
                name: name.copy()?,
                arguments: arguments.copy()?,
                repeatable: *repeatable,
                locations: locations.copy()?,
            },
        })
    }
}

/// Definitions of a type system in text order.
#[derive(Debug)]
pub struct SchemaDefs {
    pub items: Vec<SchemaDef>,
}

impl Drop for SchemaDefs {
    fn drop(self) {
        let SchemaDefs { items } = self;
        drop(items);
    }
}

impl Model for SchemaDefs {
    ghost use Rattle.std.specs.Prelude.{List};
    ghost use Rattle.std.specs.Coded.{coded_list};
    ghost use Rattle.gql_ast.specs.declared.schema.SchemaDef.{SchemaDef};
    ghost use Rattle.gql_ast.specs.contracts.schema.SchemaDef as definition_row;

    ghost Value = { List SchemaDef };

    ghost coded = { coded_list definition_row.the_row.coded };

    ghost view = { λ x. x.items.items };
}

impl SchemaDefs {
    /// No definition; takes no memory.
    pub fn new(alloc: Global) -> SchemaDefs
        ensures { result ≡ [] }
    {
        SchemaDefs {
            items: Vec::new(alloc),
        }
    }

    /// Puts a definition at the end.
    pub fn push(&mut self, definition: SchemaDef) -> Result<(), NoMemory>
        ensures ok { OnOk result (self.new ≡ self.old ++ definition ∷ []) }
        ensures err { OnErr result (self.new ≡ self.old) }
    {
        push(&mut self.items, definition)
    }

    /// The definitions in order.
    pub fn as_slice(&self) -> &[SchemaDef]
        ensures { result.now ≡ self.now }
    {
        &self.items
    }

    /// The number of definitions.
    pub fn len(&self) -> usize
        ensures { result ≡ length self.now }
    {
        self.items.len()
    }

    /// Whether there is no definition.
    pub fn is_empty(&self) -> bool
        ensures { IsTrue result ↔ (self.now ≡ []) }
    {
        self.items.is_empty()
    }

    /// The same definitions.
    pub fn copy(&self) -> Result<SchemaDefs, NoMemory>
        ensures { IfOk result (λ definitions. definitions ≡ self.now) }
    {
        let mut items = Vec::with_capacity(*self.items.allocator(), self.items.len())?;
        'definitions: for definition in &self.items {
            items.push(definition.copy()?)?;
        }
        Ok(SchemaDefs { items })
    }
}

/// A type system.
#[derive(Debug, Drop)]
pub struct SchemaTree {
    pub definitions: SchemaDefs,
}

impl SchemaTree {
    /// The same type system.
    pub fn copy(&self) -> Result<SchemaTree, NoMemory>
        ensures { IfOk result (λ schema. schema ≡ self.now) }
    {
        Ok(SchemaTree {
            definitions: self.definitions.copy()?,
        })
    }
}

impl Placed<SchemaTree> {
    /// The same type system with the same places.
    pub fn copy(&self) -> Result<Placed<SchemaTree>, NoMemory>
        ensures { IfOk result (λ schema. schema ≡ self.now) }
    {
        Ok(Placed {
            tree: self.tree.copy()?,
            places: self.places.copy()?,
        })
    }
}
