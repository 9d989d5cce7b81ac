//! What is added at the end of the selection set of a field.
ghost use Rattle.std.specs.Prelude.{◌≡◌, ◌∷◌, ◌++◌, [], true, None, option_copied, option_map, IfOk, OnOk};
ghost use Rattle.std.specs.List.{filter};
ghost use Rattle.plan_ir.specs.gql_ast.SelectionView.{sel_of};
ghost use Rattle.plan_ir.specs.gql_ast.Ty as ty;
ghost use Rattle.plan_ir.specs.gql_ast.TypeView.{ty_of};
ghost use Rattle.plan_ir.specs.schema_tables.Types as types;
ghost use Rattle.plan_ir.specs.schema_types.Sites.{field_type, typename_on};
ghost use Rattle.plan_ir.specs.Additions as spec;
ghost use Rattle.plan_ir.specs.Nodes.{nodes_append};
ghost use Rattle.plan_expand.specs.Adding.{IsRight, find_identified, identified_types, ids_of_each};

use doc_sites::around::below_on;
use plan_ir::{
    Arguments, Directives, FilePlace, Name, NoMemory, Node, Nodes, Schema, Selection, Selections,
    TypeBox, TypeKind, TypeTree, Words,
};
use std::alloc::Global;
use std::collections::BTreeMap;

/// A schema, and of its abstract types those of the types they may be that have an id.
#[derive(Drop)]
pub(crate) struct Adding<'a> {
    pub(crate) schema: &'a Schema,
    by_type: BTreeMap<&'a str, Vec<Name>>,
}

/// Whether the type is an interface or a union.
pub(crate) fn is_abstract(schema: &Schema, of: &str) -> bool
    ensures { result ≡ spec.is_abstract schema.now of.now }
{
    matches!(
        schema.kind_of(of),
        Some(TypeKind::Interface | TypeKind::Union)
    )
}

/// Those of the types that a type may be that have an id.
fn identified_types(alloc: Global, schema: &Schema, of: &str) -> Result<Vec<Name>, NoMemory>
    requires { types.is_composite schema.now of.now ≡ true }
    ensures { IfOk result (λ names. names.items ≡ identified_types schema.now of.now) }
{
    let mut names = Vec::new(alloc);
    'types: for name in schema.possible(of).as_slice() {
        put_identified_name(schema, &mut names, name)?;
    }
    Ok(names)
}

/// Puts a type, where it has an id.
fn put_identified_name(schema: &Schema, names: &mut Vec<Name>, name: &Name) -> Result<(), NoMemory>
    ensures { OnOk result (names.new.items ≡ names.old.items ++ filter (types.has_id schema.now) (name.now ∷ [])) }
{
    if schema.has_id(name.as_str()) {
        names.push(name.copy()?)?;
        return Ok(());
    }
    Ok(())
}

impl<'a> Adding<'a> {
    /// No type is kept; takes no memory.
    pub(crate) fn new(alloc: Global, schema: &'a Schema) -> Adding<'a>
        ensures right { IsRight result }
        ensures schema { result.schema.now ≡ schema.now }
    {
        Adding {
            schema,
            by_type: BTreeMap::new(alloc),
        }
    }

    /// Keeps an abstract type.
    pub(crate) fn put(&mut self, alloc: Global, of: &'a str) -> Result<(), NoMemory>
        requires { IsRight self.old }
        ensures right { OnOk result (IsRight self.new) }
        ensures schema { self.new.schema.now ≡ self.old.schema.now }
    {
        if !is_abstract(self.schema, of) {
            return Ok(());
        }
        if self.by_type.contains_key(of) {
            return Ok(());
        }
        let names = identified_types(alloc, self.schema, of)?;
        drop(self.by_type.insert(of, names)?);
        Ok(())
    }

    /// What is kept of a type; takes no memory.
    pub(crate) fn find(&self, of: &str) -> Option<&Vec<Name>>
        ensures { option_map (λ ids. ids.now.items) result ≡ find_identified self.now of.now }
    {
        self.by_type.get(of)
    }
}

/// Whether the selection is that field, without alias, arguments and directives.
fn is_bare(selection: &Selection, name: &str) -> bool
    ensures { result ≡ spec.has_bare name.now (sel_of selection.now) }
{
    match selection {
        Selection::Field {
            alias,
            name: own,
            arguments,
            directives,
            ..
        } => {
            if alias.is_some() {
                return false;
            }
            if !arguments.is_empty() {
                return false;
            }
            if !directives.is_empty() {
                return false;
            }
            own.as_str() == name
        }
        Selection::Spread { .. } => false,
        Selection::Inline { .. } => false,
    }
}

/// Whether the set has that field directly, without alias, arguments and directives.
pub(crate) fn has_bare(selections: &Selections, name: &str) -> bool
    ensures { result ≡ spec.has_bare name.now selections.now }
{
    'selections: for selection in selections.as_slice() {
        if is_bare(selection, name) {
            return true;
        }
    }
    false
}

/// Puts a field without alias, arguments and directives.
fn put_field(
    alloc: Global,
    nodes: &mut Nodes,
    name: &str,
    of: TypeTree,
    selections: Nodes,
    place: FilePlace,
) -> Result<(), NoMemory>
    ensures { OnOk result (nodes.new ≡ nodes_append nodes.old (spec.bare_field name.now (ty_of of) selections place)) }
{
    let response = Words::new(alloc, name)?;
    let own = Words::new(alloc, name)?;
    nodes.push(Node::Field {
        response,
        name: own,
        arguments: Arguments::new(alloc),
        directives: Directives::new(alloc),
        connection: None,
        of,
        selections,
        place,
    })
}

/// A named type that is never null.
fn never_null(alloc: Global, name: &str) -> Result<TypeTree, NoMemory>
    ensures { IfOk result (λ t. ty_of t ≡ ty.non_null (ty.named name.now)) }
{
    let named = TypeTree::Named(Words::new(alloc, name)?);
    Ok(TypeTree::NonNull(TypeBox::new(alloc, named)?))
}

/// Puts `id`.
fn put_id(alloc: Global, nodes: &mut Nodes, place: FilePlace) -> Result<(), NoMemory>
    ensures { OnOk result (nodes.new ≡ nodes_append nodes.old (spec.id_field place)) }
{
    let of = never_null(alloc, "ID")?;
    put_field(alloc, nodes, "id", of, Nodes::new(alloc), place)
}

/// Puts `__typename`.
fn put_typename(alloc: Global, nodes: &mut Nodes, place: FilePlace) -> Result<(), NoMemory>
    ensures { OnOk result (nodes.new ≡ nodes_append nodes.old (spec.typename_field place)) }
{
    let of = never_null(alloc, "String")?;
    put_field(alloc, nodes, "__typename", of, Nodes::new(alloc), place)
}

/// Puts `...on P{id}` for a type.
#[tactic(auto, using(crate::proofs::AdditionSteps::appending))]
fn put_id_on(
    alloc: Global,
    nodes: &mut Nodes,
    name: &Name,
    place: FilePlace,
) -> Result<(), NoMemory>
    ensures { OnOk result (nodes.new ≡ nodes_append nodes.old (ids_of_each place (name.now ∷ []))) }
{
    let mut inside = Nodes::new(alloc);
    put_id(alloc, &mut inside, place)?;
    let on = Some(name.copy()?);
    nodes.push(Node::Inline {
        on,
        directives: Directives::new(alloc),
        selections: inside,
        place,
    })
}

/// Puts `...on P{id}` for each of these types.
#[tactic(auto, using(crate::proofs::AdditionSteps::appending))]
fn put_ids_on(
    alloc: Global,
    nodes: &mut Nodes,
    names: &[Name],
    place: FilePlace,
) -> Result<(), NoMemory>
    ensures { OnOk result (nodes.new ≡ nodes_append nodes.old (ids_of_each place names.now)) }
{
    'names: for name in names {
        put_id_on(alloc, nodes, name, place)?;
    }
    Ok(())
}

/// Puts `...on P{id}` for each type that an abstract type may be and that has an id.
fn put_identified(
    alloc: Global,
    adding: &Adding<'_>,
    nodes: &mut Nodes,
    of: &str,
    place: FilePlace,
) -> Result<(), NoMemory>
    requires right { IsRight adding.now }
    requires composite { types.is_composite adding.now.schema.now of.now ≡ true }
    ensures { OnOk result (nodes.new ≡ nodes_append nodes.old (spec.ids_on adding.now.schema.now place (types.possible adding.now.schema.now of.now))) }
{
    match adding.find(of) {
        Some(names) => {
            put_ids_on(alloc, nodes, names, place)?;
            Ok(())
        }
        None => {
            let names = identified_types(alloc, adding.schema, of)?;
            put_ids_on(alloc, nodes, &names, place)?;
            Ok(())
        }
    }
}

/// Puts `id`, or the ids of the types that an abstract type may be.
#[tactic(auto, using(crate::proofs::AdditionSteps::appending))]
fn put_ids(
    alloc: Global,
    adding: &Adding<'_>,
    nodes: &mut Nodes,
    of: &str,
    selections: &Selections,
    place: FilePlace,
) -> Result<(), NoMemory>
    requires { IsRight adding.now }
    ensures { OnOk result (nodes.new ≡ nodes_append nodes.old (spec.id_additions adding.now.schema.now of.now selections.now place)) }
{
    if adding.schema.has_id(of) {
        if has_bare(selections, "id") {
            return Ok(());
        }
        put_id(alloc, nodes, place)?;
        return Ok(());
    }
    if is_abstract(adding.schema, of) {
        put_identified(alloc, adding, nodes, of, place)?;
        return Ok(());
    }
    Ok(())
}

/// Puts `__typename`, where the type is abstract and it is not there.
#[tactic(auto, using(crate::proofs::AdditionSteps::appending))]
fn put_typename_of(
    alloc: Global,
    adding: &Adding<'_>,
    nodes: &mut Nodes,
    of: &str,
    selections: &Selections,
    place: FilePlace,
) -> Result<(), NoMemory>
    ensures { OnOk result (nodes.new ≡ nodes_append nodes.old (spec.typename_additions adding.now.schema.now of.now selections.now place)) }
{
    if !is_abstract(adding.schema, of) {
        return Ok(());
    }
    if has_bare(selections, "__typename") {
        return Ok(());
    }
    put_typename(alloc, nodes, place)?;
    Ok(())
}

/// Puts what each set of a field of that type gets.
#[tactic(auto, using(crate::proofs::AdditionSteps::appending))]
fn put_record(
    alloc: Global,
    adding: &Adding<'_>,
    nodes: &mut Nodes,
    of: &str,
    selections: &Selections,
    place: FilePlace,
) -> Result<(), NoMemory>
    requires { IsRight adding.now }
    ensures { OnOk result (nodes.new ≡ nodes_append nodes.old (spec.record_additions adding.now.schema.now of.now selections.now place)) }
{
    put_ids(alloc, adding, nodes, of, selections, place)?;
    put_typename_of(alloc, adding, nodes, of, selections, place)?;
    Ok(())
}

/// The type of a field on the type around it.
pub(crate) fn type_of_field(
    alloc: Global,
    schema: &Schema,
    around: Option<&str>,
    name: &str,
) -> Result<TypeTree, NoMemory>
    ensures { IfOk result (λ t. ty_of t ≡ spec.type_or (field_type schema.now (option_copied around.entry) name.now)) }
{
    match around {
        Some(of) => type_on(alloc, schema, of, name),
        None => no_type(alloc),
    }
}

/// A type without a name.
fn no_type(alloc: Global) -> Result<TypeTree, NoMemory>
    ensures { IfOk result (λ t. ty_of t ≡ spec.type_or None) }
{
    Ok(TypeTree::Named(Words::new(alloc, "")?))
}

/// The type of `__typename`, which each composite type has.
fn typename_on(alloc: Global, schema: &Schema, of: &str) -> Result<TypeTree, NoMemory>
    ensures { IfOk result (λ t. ty_of t ≡ spec.type_or (typename_on (types.is_composite schema.now of.now))) }
{
    if schema.is_composite(of) {
        return never_null(alloc, "String");
    }
    no_type(alloc)
}

/// The type of a field on a type.
fn type_on(alloc: Global, schema: &Schema, of: &str, name: &str) -> Result<TypeTree, NoMemory>
    ensures { IfOk result (λ t. ty_of t ≡ spec.type_on schema.now of.now name.now) }
{
    if name == "__typename" {
        return typename_on(alloc, schema, of);
    }
    match schema.field(of, name) {
        Some(field) => field.of().copy(),
        None => no_type(alloc),
    }
}

/// The named type of a field on a type; takes no memory.
pub(crate) fn base_on<'a>(schema: &'a Schema, of: &str, name: &str) -> &'a str
    ensures { result.now ≡ types.base_of (spec.type_on schema.now of.now name.now) }
{
    match below_on(schema, of, name) {
        Some(base) => base,
        None => "",
    }
}

/// The named type of a field on the type around it; takes no memory.
pub(crate) fn base_of_field<'a>(schema: &'a Schema, around: Option<&str>, name: &str) -> &'a str
    ensures { result.now ≡ types.base_of (spec.type_or (field_type schema.now (option_copied around.entry) name.now)) }
{
    match around {
        Some(of) => base_on(schema, of, name),
        None => "",
    }
}

/// Puts a field of a type, with these selections.
fn put_field_of(
    alloc: Global,
    schema: &Schema,
    nodes: &mut Nodes,
    of: &str,
    name: &str,
    selections: Nodes,
    place: FilePlace,
) -> Result<(), NoMemory>
    ensures { OnOk result (nodes.new ≡ nodes_append nodes.old (spec.bare_field name.now (spec.type_on schema.now of.now name.now) selections place)) }
{
    let field = type_on(alloc, schema, of, name)?;
    put_field(alloc, nodes, name, field, selections, place)
}

/// Puts a leaf of a type.
fn put_leaf(
    alloc: Global,
    schema: &Schema,
    nodes: &mut Nodes,
    of: &str,
    name: &str,
    place: FilePlace,
) -> Result<(), NoMemory>
    ensures { OnOk result (nodes.new ≡ nodes_append nodes.old (spec.leaf_on schema.now of.now place name.now)) }
{
    put_field_of(alloc, schema, nodes, of, name, Nodes::new(alloc), place)
}

/// Puts `node{..}` of the type of an edge.
#[tactic(auto, using(crate::proofs::AdditionSteps::appending))]
fn put_node(
    alloc: Global,
    adding: &Adding<'_>,
    nodes: &mut Nodes,
    edge: &str,
    place: FilePlace,
) -> Result<(), NoMemory>
    requires { IsRight adding.now }
    ensures { OnOk result (nodes.new ≡ nodes_append nodes.old (spec.node_field adding.now.schema.now edge.now place)) }
{
    let mut inside = Nodes::new(alloc);
    let nothing = Selections::new(alloc);
    let base = base_on(adding.schema, edge, "node");
    put_record(alloc, adding, &mut inside, base, &nothing, place)?;
    if inside.is_empty() {
        put_typename(alloc, &mut inside, place)?;
        put_field_of(alloc, adding.schema, nodes, edge, "node", inside, place)?;
        return Ok(());
    }
    put_field_of(alloc, adding.schema, nodes, edge, "node", inside, place)?;
    Ok(())
}

/// Puts `edges{cursor node{..}}` of the type of a connection.
#[tactic(auto, using(crate::proofs::AdditionSteps::appending))]
fn put_edges(
    alloc: Global,
    adding: &Adding<'_>,
    nodes: &mut Nodes,
    of: &str,
    place: FilePlace,
) -> Result<(), NoMemory>
    requires { IsRight adding.now }
    ensures { OnOk result (nodes.new ≡ nodes_append nodes.old (spec.edges_field adding.now.schema.now of.now place)) }
{
    let edge = base_on(adding.schema, of, "edges");
    let nothing = Selections::new(alloc);
    let mut inside = Nodes::new(alloc);
    put_leaf(alloc, adding.schema, &mut inside, edge, "cursor", place)?;
    put_node(alloc, adding, &mut inside, edge, place)?;
    put_record(alloc, adding, &mut inside, edge, &nothing, place)?;
    put_field_of(alloc, adding.schema, nodes, of, "edges", inside, place)?;
    Ok(())
}

/// Puts `pageInfo{..}` of the type of a connection.
#[tactic(auto, using(crate::proofs::AdditionSteps::appending))]
fn put_page_info(
    alloc: Global,
    adding: &Adding<'_>,
    nodes: &mut Nodes,
    of: &str,
    place: FilePlace,
) -> Result<(), NoMemory>
    requires { IsRight adding.now }
    ensures { OnOk result (nodes.new ≡ nodes_append nodes.old (spec.page_info_field adding.now.schema.now of.now place)) }
{
    let schema = adding.schema;
    let info = base_on(schema, of, "pageInfo");
    let nothing = Selections::new(alloc);
    let mut inside = Nodes::new(alloc);
    put_leaf(alloc, schema, &mut inside, info, "endCursor", place)?;
    put_leaf(alloc, schema, &mut inside, info, "hasNextPage", place)?;
    put_leaf(alloc, schema, &mut inside, info, "hasPreviousPage", place)?;
    put_leaf(alloc, schema, &mut inside, info, "startCursor", place)?;
    put_record(alloc, adding, &mut inside, info, &nothing, place)?;
    put_field_of(alloc, schema, nodes, of, "pageInfo", inside, place)?;
    Ok(())
}

/// Puts what the set of a connection gets before all else.
#[tactic(auto, using(crate::proofs::AdditionSteps::appending))]
fn put_connection(
    alloc: Global,
    adding: &Adding<'_>,
    nodes: &mut Nodes,
    of: &str,
    place: FilePlace,
) -> Result<(), NoMemory>
    requires { IsRight adding.now }
    ensures { OnOk result (nodes.new ≡ nodes_append nodes.old (spec.connection_additions adding.now.schema.now of.now place)) }
{
    put_edges(alloc, adding, nodes, of, place)?;
    put_page_info(alloc, adding, nodes, of, place)?;
    Ok(())
}

/// Puts what the set of a field of that type gets; nothing where it has no set.
pub(crate) fn put_additions(
    alloc: Global,
    adding: &Adding<'_>,
    nodes: &mut Nodes,
    is_connection: bool,
    of: &str,
    selections: &Selections,
    place: FilePlace,
) -> Result<(), NoMemory>
    requires { IsRight adding.now }
    ensures { OnOk result (nodes.new ≡ nodes_append nodes.old (spec.additions adding.now.schema.now is_connection of.now selections.now place)) }
{
    if selections.is_empty() {
        return Ok(());
    }
    if is_connection {
        put_connection(alloc, adding, nodes, of, place)?;
        put_record(alloc, adding, nodes, of, selections, place)?;
        return Ok(());
    }
    put_record(alloc, adding, nodes, of, selections, place)?;
    Ok(())
}
