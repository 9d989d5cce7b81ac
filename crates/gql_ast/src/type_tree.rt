//! Types as they are written (GraphQL, October 2021, section 2.11).
ghost use Rattle.std.specs.Prelude.{◌≡◌, IfOk};
ghost use Rattle.gql_ast.specs.TypeView.{ty_of};

use gql_plain::{Name, NoMemory};
use std::alloc::Global;
use std::marker::Model;

/// A type as it is written.
#[cycle(type_tree)]
#[derive(Debug, Drop)]
pub enum TypeTree {
    Named(Name),
    List(TypeBox),
    NonNull(TypeBox),
}

/// A type that another one holds.
///
/// A box itself would be told from another one by its address, so that no copy of a type would be
/// equal to it. Contracts see this struct as the type alone.
#[cycle(type_tree)]
#[derive(Debug)]
pub struct TypeBox {
    pub of: Box<TypeTree>,
}

impl Drop for TypeBox {
    #[cycle(type_tree)]
    fn drop(self) {
        let TypeBox { of } = self;
        drop(of);
    }
}

impl Model for TypeBox {
    ghost use Rattle.gql_ast.specs.Ty.{Ty, ty_depth};
    ghost use Rattle.gql_ast.specs.TypeCode.{coded_ty};

    ghost Value = { Ty };

    ghost coded = { coded_ty };

    ghost use Rattle.gql_ast.specs.TypeView.{ty_of};

    ghost view = { λ b. ty_of b.of.value };

    ghost size = { ty_depth };

    ghost use Rattle.gql_ast.specs.TypeFalls.{type_falls};

    ghost size_decreases = { λ b h. type_falls b.of.value };
}

impl TypeBox {
    /// A place of its own for a type.
    pub fn new(alloc: Global, of: TypeTree) -> Result<TypeBox, NoMemory>
        ensures { IfOk result (λ held. held ≡ ty_of of) }
    {
        Ok(TypeBox {
            of: Box::new(alloc, of)?,
        })
    }

    /// The type.
    pub fn tree(&self) -> &TypeTree
        ensures { ty_of result.now ≡ self.now }
    {
        &self.of
    }

    /// The same type.
    #[cycle(copy)]
    pub fn copy(&self) -> Result<TypeBox, NoMemory>
        ensures { IfOk result (λ held. held ≡ self.now) }
    {
        let alloc = *Box::allocator(&self.of);
        let of = self.of.copy()?;
        Ok(TypeBox {
            of: Box::new(alloc, of)?,
        })
    }
}

impl TypeTree {
    /// The same type.
    #[cycle(copy)]
    pub fn copy(&self) -> Result<TypeTree, NoMemory>
        ensures { IfOk result (λ tree. tree ≡ self.now) }
    {
        Ok(match self {
            TypeTree::Named(name) => TypeTree::Named(name.copy()?),
            TypeTree::List(of) => TypeTree::List(of.copy()?),
            TypeTree::NonNull(of) => TypeTree::NonNull(of.copy()?),
        })
    }
}
