//! Kinds of types.

/// The kind of a type (GraphQL, October 2021, sections 3.5 to 3.10).
#[derive(Clone, Copy, Debug, PartialEq, Eq)]
pub enum TypeKind {
    Scalar,
    Object,
    Interface,
    Union,
    Enum,
    Input,
}
