//! The forms of types (GraphQL, October 2021, section 3.4): what stands inside lists and non-null
//! forms. Nothing here takes memory.
ghost use Rattle.std.specs.Prelude.{◌≡◌, option_map};
ghost use Rattle.gql_ast.specs.TypeView.{ty_of};
ghost use Rattle.schema_tables.specs.Fits as fits;
ghost use Rattle.schema_tables.specs.Types as types;

use gql_ast::TypeTree;

/// The name inside all lists and non-null forms.
pub fn base_of(of: &TypeTree) -> &str
    ensures { result.now ≡ types.base_of (ty_of of.now) }
{
    match of {
        TypeTree::Named(name) => name.as_str(),
        TypeTree::List(inner) => base_of(inner.tree()),
        TypeTree::NonNull(inner) => base_of(inner.tree()),
    }
}

/// Whether the type is never null.
pub fn is_non_null(of: &TypeTree) -> bool
    ensures { result ≡ fits.is_non_null (ty_of of.now) }
{
    matches!(of, TypeTree::NonNull(_))
}

/// The type of the items of a list type, or of the non-null form of one.
pub fn item_of(of: &TypeTree) -> Option<&TypeTree>
    ensures { option_map (λ item. ty_of item.now) result ≡ fits.item_of (ty_of of.now) }
{
    match of {
        TypeTree::Named(_) => None,
        TypeTree::List(inner) => Some(inner.tree()),
        TypeTree::NonNull(inner) => item_of(inner.tree()),
    }
}

/// Whether it is the name of a scalar that every schema has (section 3.5).
pub fn is_built_in_scalar(name: &str) -> bool
    ensures { result ≡ types.is_built_in_scalar name.now }
{
    if "Int" == name {
        return true;
    }
    if "Float" == name {
        return true;
    }
    if "String" == name {
        return true;
    }
    if "Boolean" == name {
        return true;
    }
    "ID" == name
}
