//! Shapes of types (GraphQL, October 2021, section 5.3.2, SameResponseShape).
ghost use Rattle.std.specs.Prelude.{◌≡◌, false, not, map, ◌||◌};
ghost use Rattle.plan_ir.specs.gql_ast.TypeView.{ty_of};
ghost use Rattle.doc_merge.specs.Joined.{from_first, row_place, shapes_unlike, unlike};
ghost use Rattle.doc_merge.specs.Places.{least_from};
ghost use Rattle.doc_merge.specs.RowView.{row_of};
ghost use Rattle.doc_merge.specs.Shapes as spec;

use crate::least::Least;
use crate::row::Row;
use plan_ir::{Schema, TypeTree};

/// Notes the fields of one response key from the first on whose shape is not that of the first one.
pub(crate) fn note_shapes(schema: &Schema, least: &mut Least, group: &[Row<'_, '_>])
    ensures { least.new.at ≡ least_from least.old.at (shapes_unlike (map (row_of schema.now) group.now)) }
{
    match group.first() {
        Some(first) => note_unlike(schema, least, first, group),
        None => {}
    }
}

/// Notes the fields from the first on whose shape is not that of this field.
fn note_unlike(schema: &Schema, least: &mut Least, first: &Row<'_, '_>, group: &[Row<'_, '_>])
    ensures { least.new.at ≡ least_from least.old.at (map row_place (from_first (unlike (row_of schema.now first.now)) false (map (row_of schema.now) group.now))) }
{
    let mut is_unlike = false;
    'rows: for row in group {
        is_unlike = is_or_unlike(schema, is_unlike, first, row);
        least.note_if(is_unlike, row.field.place);
    }
}

/// Whether this was found before, or the shapes of two fields are not the same.
fn is_or_unlike(schema: &Schema, is_unlike: bool, one: &Row<'_, '_>, other: &Row<'_, '_>) -> bool
    ensures { result ≡ (is_unlike || unlike (row_of schema.now one.now) (row_of schema.now other.now)) }
{
    if is_unlike {
        return true;
    }
    !same_shape(schema, one.field.of, other.field.of)
}

/// Whether two types have one shape.
fn same_shape(schema: &Schema, one: &TypeTree, other: &TypeTree) -> bool
    ensures { result ≡ spec.same_shape (spec.shape_of schema.now (ty_of one.now)) (spec.shape_of schema.now (ty_of other.now)) }
{
    match one {
        TypeTree::Named(a) => match other {
            TypeTree::Named(b) => same_base(schema, a.as_str(), b.as_str()),
            TypeTree::List(_) => false,
            TypeTree::NonNull(_) => false,
        },
        TypeTree::List(a) => match other {
            TypeTree::Named(_) => false,
            TypeTree::List(b) => same_shape(schema, a.tree(), b.tree()),
            TypeTree::NonNull(_) => false,
        },
        TypeTree::NonNull(a) => match other {
            TypeTree::Named(_) => false,
            TypeTree::List(_) => false,
            TypeTree::NonNull(b) => same_shape(schema, a.tree(), b.tree()),
        },
    }
}

/// Whether two types are both composite, or one and the same leaf.
fn same_base(schema: &Schema, one: &str, other: &str) -> bool
    ensures { result ≡ spec.same_base (spec.base_shape schema.now one.now) (spec.base_shape schema.now other.now) }
{
    if schema.is_composite(one) {
        return schema.is_composite(other);
    }
    if schema.is_composite(other) {
        return false;
    }
    one == other
}
