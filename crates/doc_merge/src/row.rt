//! Fields of expanded selection sets, gathered through inline fragments (GraphQL, October 2021,
//! section 5.3.2).
ghost use Rattle.std.specs.Prelude.{◌≡◌, ◌++◌, map, option_copied, OnOk};
ghost use Rattle.plan_ir.specs.NodesView.{node_of};
ghost use Rattle.plan_ir.specs.schema_rules.Rules as types;
ghost use Rattle.doc_merge.specs.Gathering as gathering;
ghost use Rattle.doc_merge.specs.Paths.{rows_of};
ghost use Rattle.doc_merge.specs.RowView.{row_of};

use plan_ir::{Arguments, FilePlace, Name, NoMemory, Node, Nodes, Schema, TypeKind, TypeTree};

/// A field of a set.
#[derive(Clone, Copy)]
pub(crate) struct Field<'a> {
    /// The response key.
    pub(crate) key: &'a str,
    /// The type around it, if that is an object type.
    pub(crate) parent: Option<&'a str>,
    pub(crate) name: &'a str,
    pub(crate) arguments: &'a Arguments,
    pub(crate) of: &'a TypeTree,
    pub(crate) selections: &'a Nodes,
    pub(crate) place: FilePlace,
}

/// A field of a joined set.
#[derive(Clone, Copy)]
pub(crate) struct Row<'a, 'p> {
    /// The object types around its own set, the innermost first, at the levels where fields of two
    /// object types are joined.
    pub(crate) pattern: &'p [Option<&'a str>],
    pub(crate) field: Field<'a>,
}

/// Whether a type is an object type.
fn is_object(schema: &Schema, of: &str) -> bool
    ensures { result ≡ types.is_object schema.now of.now }
{
    matches!(schema.kind_of(of), Some(TypeKind::Object))
}

/// The type, if it is an object type.
fn object_or_none<'a>(schema: &Schema, of: &'a str) -> Option<&'a str>
    ensures { option_copied result ≡ gathering.object_or_none schema.now of.now }
{
    if is_object(schema, of) {
        return Some(of);
    }
    None
}

/// The type around what stands in an inline fragment.
pub(crate) fn on_or<'a>(around: &'a str, on: &'a Option<Name>) -> &'a str
    ensures { result.now ≡ gathering.on_or around.now on.now }
{
    match on {
        Some(on) => on.as_str(),
        None => around,
    }
}

/// Puts the fields of a set on a type.
#[cycle(gather)]
pub(crate) fn put_fields<'a, 'p>(
    schema: &Schema,
    rows: &mut Vec<Row<'a, 'p>>,
    pattern: &'p [Option<&'a str>],
    around: &'a str,
    nodes: &'a Nodes,
) -> Result<(), NoMemory>
    ensures { OnOk result (map (row_of schema.now) rows.new.items ≡ map (row_of schema.now) rows.old.items ++ rows_of (map option_copied pattern.now) (gathering.fields_of schema.now around.now nodes.now)) }
{
    'nodes: for node in nodes.as_slice() {
        put_node(schema, rows, pattern, around, node)?;
    }
    Ok(())
}

/// Puts a field, or the fields of an inline fragment.
#[cycle(gather)]
fn put_node<'a, 'p>(
    schema: &Schema,
    rows: &mut Vec<Row<'a, 'p>>,
    pattern: &'p [Option<&'a str>],
    around: &'a str,
    node: &'a Node,
) -> Result<(), NoMemory>
    ensures { OnOk result (map (row_of schema.now) rows.new.items ≡ map (row_of schema.now) rows.old.items ++ rows_of (map option_copied pattern.now) (gathering.fields_of schema.now around.now (node_of node.now))) }
{
    match node {
        Node::Field {
            response,
            name,
            arguments,
            of,
            selections,
            place,
            ..
        } => {
            let field = Field {
                key: response.as_str(),
                parent: object_or_none(schema, around),
                name: name.as_str(),
                arguments,
                of,
                selections,
                place: *place,
            };
            rows.push(Row { pattern, field })?;
            Ok(())
        }
        Node::Inline { on, selections, .. } => {
            put_fields(schema, rows, pattern, on_or(around, on), selections)
        }
    }
}
