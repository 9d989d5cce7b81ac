//! The trees of GraphQL texts: documents, type systems, and the places of their nodes (GraphQL,
//! October 2021, sections 2 and 3).
//!
//! In contracts a list is the list of what it holds, without room and address, so two trees are
//! equal there exactly where they are the same tree. Where a tree holds itself, contracts see what
//! it stands for: a value as `Val`, a selection set as `Sels`, a type as `Ty`.
#![tactic(auto)]

pub mod directive;
pub mod document;
pub mod fault;
mod lists;
pub mod location;
pub mod member;
pub mod names;
pub mod place;
pub mod schema;
pub mod selection;
pub mod type_tree;
pub mod value;
pub mod variable;

pub use directive::{Directive, Directives};
pub use document::{Definition, Definitions, Document, Documents, Fragment, Kind, Operation};
pub use fault::{ParseFault, SyntaxFault};
pub use gql_plain;
pub use location::{Location, Locations};
pub use member::{EnumValue, EnumValues, FieldTree, FieldTrees, InputTree, InputTrees};
pub use names::Names;
pub use place::{FilePlace, FilePlaces, Placed};
pub use schema::{Root, Roots, SchemaDef, SchemaDefs, SchemaTree};
pub use selection::{Selection, Selections};
pub use type_tree::{TypeBox, TypeTree};
pub use value::{Argument, Arguments, ValueTree, ValueTrees};
pub use variable::{VariableDef, VariableDefs};
