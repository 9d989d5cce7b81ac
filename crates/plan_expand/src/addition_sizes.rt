//! How large that is what is added at the end of the selection set of a field.
ghost use Rattle.std.specs.Prelude.{◌≡◌, ◌+◌, ◌∷◌, [], true, length, IfOk};
ghost use Rattle.std.specs.List.{filter};
ghost use Rattle.plan_ir.specs.schema_tables.Types as types;
ghost use Rattle.plan_ir.specs.schema_types.Sites.{is_set};
ghost use Rattle.plan_expand.specs.Adding.{IsRight, identified_types};
ghost use Rattle.plan_expand.specs.AdditionSizes as spec;

use crate::additions::{Adding, base_on, has_bare, is_abstract};
use crate::size::{Size, sum};
use plan_ir::{NoMemory, Schema, Selections};
use std::alloc::Global;

/// A field that has no set.
fn size_of_leaf() -> Size
    ensures { result ≡ spec.field_size }
{
    Size { count: 1, depth: 1 }
}

/// Counts a type, where it has an id.
fn count_identified_name(schema: &Schema, name: &str, count: usize) -> Result<usize, NoMemory>
    ensures { IfOk result (λ n. n ≡ count + length (filter (types.has_id schema.now) (name.now ∷ []))) }
{
    if schema.has_id(name) {
        let more = sum(count, 1)?;
        return Ok(more);
    }
    Ok(count)
}

/// How many of the types that a type may be have an id.
fn count_identified(schema: &Schema, of: &str) -> Result<usize, NoMemory>
    requires { types.is_composite schema.now of.now ≡ true }
    ensures { IfOk result (λ n. n ≡ length (identified_types schema.now of.now)) }
{
    let mut count = 0;
    'types: for name in schema.possible(of).as_slice() {
        count = count_identified_name(schema, name.as_str(), count)?;
    }
    Ok(count)
}

/// The number of the types that an abstract type may be and that have an id.
fn number_identified(adding: &Adding<'_>, of: &str) -> Result<usize, NoMemory>
    requires right { IsRight adding.now }
    requires composite { types.is_composite adding.now.schema.now of.now ≡ true }
    ensures { IfOk result (λ n. n ≡ length (identified_types adding.now.schema.now of.now)) }
{
    match adding.find(of) {
        Some(names) => Ok(names.len()),
        None => {
            let count = count_identified(adding.schema, of)?;
            Ok(count)
        }
    }
}

/// The size of `...on P{id}` for so many types.
fn size_of_ids_on(count: usize) -> Result<Size, NoMemory>
    ensures { IfOk result (λ size. size ≡ spec.ids_size count) }
{
    if count == 0 {
        return Ok(Size::nothing());
    }
    let count = sum(count, count)?;
    Ok(Size { count, depth: 2 })
}

/// The size of `id`, or of the ids of the types that an abstract type may be.
fn size_of_ids(adding: &Adding<'_>, of: &str, selections: &Selections) -> Result<Size, NoMemory>
    requires { IsRight adding.now }
    ensures { IfOk result (λ size. size ≡ spec.id_size adding.now.schema.now of.now selections.now) }
{
    if adding.schema.has_id(of) {
        if has_bare(selections, "id") {
            return Ok(Size::nothing());
        }
        return Ok(size_of_leaf());
    }
    if is_abstract(adding.schema, of) {
        let count = number_identified(adding, of)?;
        let size = size_of_ids_on(count)?;
        return Ok(size);
    }
    Ok(Size::nothing())
}

/// The size of `__typename`, where the type is abstract and it is not there.
fn size_of_typename(adding: &Adding<'_>, of: &str, selections: &Selections) -> Size
    ensures { result ≡ spec.typename_size adding.now.schema.now of.now selections.now }
{
    if !is_abstract(adding.schema, of) {
        return Size::nothing();
    }
    if has_bare(selections, "__typename") {
        return Size::nothing();
    }
    size_of_leaf()
}

/// The size of what each set of a field of that type gets.
fn size_of_record(adding: &Adding<'_>, of: &str, selections: &Selections) -> Result<Size, NoMemory>
    requires { IsRight adding.now }
    ensures { IfOk result (λ size. size ≡ spec.record_size adding.now.schema.now of.now selections.now) }
{
    let ids = size_of_ids(adding, of, selections)?;
    let typename = size_of_typename(adding, of, selections);
    let size = ids.beside(typename)?;
    Ok(size)
}

/// The size of `node{..}` of the type of an edge.
fn size_of_node(alloc: Global, adding: &Adding<'_>, edge: &str) -> Result<Size, NoMemory>
    requires { IsRight adding.now }
    ensures { IfOk result (λ size. size ≡ spec.node_size adding.now.schema.now edge.now) }
{
    let nothing = Selections::new(alloc);
    let base = base_on(adding.schema, edge, "node");
    let record = size_of_record(adding, base, &nothing)?;
    if record.count == 0 {
        let size = size_of_leaf().inside()?;
        return Ok(size);
    }
    let size = record.inside()?;
    Ok(size)
}

/// The size of `edges{cursor node{..}}` of the type of a connection.
fn size_of_edges(alloc: Global, adding: &Adding<'_>, of: &str) -> Result<Size, NoMemory>
    requires { IsRight adding.now }
    ensures { IfOk result (λ size. size ≡ spec.edges_size adding.now.schema.now of.now) }
{
    let edge = base_on(adding.schema, of, "edges");
    let nothing = Selections::new(alloc);
    let node = size_of_node(alloc, adding, edge)?;
    let record = size_of_record(adding, edge, &nothing)?;
    let both = node.beside(record)?;
    let inside = size_of_leaf().beside(both)?;
    let size = inside.inside()?;
    Ok(size)
}

/// The size of `pageInfo{..}` of the type of a connection.
fn size_of_page_info(alloc: Global, adding: &Adding<'_>, of: &str) -> Result<Size, NoMemory>
    requires { IsRight adding.now }
    ensures { IfOk result (λ size. size ≡ spec.page_info_size adding.now.schema.now of.now) }
{
    let info = base_on(adding.schema, of, "pageInfo");
    let nothing = Selections::new(alloc);
    let record = size_of_record(adding, info, &nothing)?;
    let fields = Size { count: 4, depth: 1 };
    let inside = fields.beside(record)?;
    let size = inside.inside()?;
    Ok(size)
}

/// The size of what the set of a connection gets before all else.
fn size_of_connection(alloc: Global, adding: &Adding<'_>, of: &str) -> Result<Size, NoMemory>
    requires { IsRight adding.now }
    ensures { IfOk result (λ size. size ≡ spec.connection_size adding.now.schema.now of.now) }
{
    let edges = size_of_edges(alloc, adding, of)?;
    let info = size_of_page_info(alloc, adding, of)?;
    let size = edges.beside(info)?;
    Ok(size)
}

/// Whether there is a selection.
fn has_set(selections: &Selections) -> bool
    ensures { result ≡ is_set selections.now }
{
    !selections.is_empty()
}

/// The size of what the set of a field of that type gets; nothing where it has no set.
pub(crate) fn size_of_additions(
    alloc: Global,
    adding: &Adding<'_>,
    is_connection: bool,
    of: &str,
    selections: &Selections,
) -> Result<Size, NoMemory>
    requires { IsRight adding.now }
    ensures { IfOk result (λ size. size ≡ spec.additions_size adding.now.schema.now is_connection of.now selections.now) }
{
    if !has_set(selections) {
        return Ok(Size::nothing());
    }
    let record = size_of_record(adding, of, selections)?;
    if is_connection {
        let connection = size_of_connection(alloc, adding, of)?;
        let size = connection.beside(record)?;
        return Ok(size);
    }
    let size = Size::nothing().beside(record)?;
    Ok(size)
}
