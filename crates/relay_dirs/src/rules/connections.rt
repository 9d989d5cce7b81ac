//! V22, the types of connections, after Relay; the field names are those of the Cursor Connections
//! Specification. The field has an object type, no list, with `edges` and `pageInfo`. `edges` is a
//! list of an object type with `node`, composite and no list, and `cursor`, a leaf. `pageInfo` is an
//! object type with the leaves `hasNextPage`, `hasPreviousPage`, `startCursor` and `endCursor`. None of
//! these has an argument that must be given, and no cursor and no page field is Float.
//! `me { name @connection(key: "K_name") }` breaks it.
ghost use Rattle.std.specs.Prelude.{◌≡◌, map};
ghost use Rattle.constant_values.specs.gql_graph.Leasts.{least_from};
ghost use Rattle.constant_values.specs.schema_types.NameRules.{sites_of};
ghost use Rattle.constant_values.specs.schema_rules.Rules.{each, is_object};
ghost use Rattle.doc_uses.specs.doc_sites.SitesView.{definition_of, directive_of, site_of};
ghost use Rattle.relay_marks.specs.Connections as spec;

use crate::rules::keys::field_defined;
use constant_values::least::Least;
use constant_values::type_forms::{base_of, item_of};
use constant_values::{FieldDef, Schema, TypeKind};
use doc_uses::{DefinitionAt, DirectiveAt, Site};

/// V22: a field with `@connection` has the type of a connection.
pub(crate) fn connections_wrong(
    schema: &Schema,
    least: &mut Least,
    definitions: &[DefinitionAt<'_>],
)
    ensures { least.new.at ≡ least_from least.old.at (spec.connections_wrong schema.now (map definition_of definitions.now)) }
{
    'definitions: for definition in definitions {
        note_definition(schema, least, definition);
    }
}

/// Connections in a definition.
fn note_definition(schema: &Schema, least: &mut Least, definition: &DefinitionAt<'_>)
    ensures { least.new.at ≡ least_from least.old.at (each (spec.type_wrong_at schema.now) (sites_of (definition_of definition.now))) }
{
    let sites = definition.sites();
    note_sites(schema, least, sites);
}

/// Connections at selections.
fn note_sites(schema: &Schema, least: &mut Least, sites: &[Site<'_>])
    ensures { least.new.at ≡ least_from least.old.at (each (spec.type_wrong_at schema.now) (map site_of sites.now)) }
{
    'sites: for site in sites {
        note_site(schema, least, site);
    }
}

/// Connections at a selection.
fn note_site(schema: &Schema, least: &mut Least, site: &Site<'_>)
    ensures { least.new.at ≡ least_from least.old.at (spec.type_wrong_at schema.now (site_of site.now)) }
{
    match site {
        Site::Field {
            around,
            name,
            directives,
            ..
        } => {
            let field = field_defined(schema, *around, name.name);
            note_directives(schema, least, &field, directives);
        }
        Site::Spread { .. } => {}
        Site::Inline { .. } => {}
    }
}

/// Connections among the directives of a field.
fn note_directives(
    schema: &Schema,
    least: &mut Least,
    field: &Option<FieldDef<'_>>,
    directives: &[DirectiveAt<'_>],
)
    ensures { least.new.at ≡ least_from least.old.at (each (spec.type_wrong schema.now field.now) (map directive_of directives.now)) }
{
    'directives: for directive in directives {
        note_directive(schema, least, field, directive);
    }
}

/// A directive of a field, where it is a `@connection`.
fn note_directive(
    schema: &Schema,
    least: &mut Least,
    field: &Option<FieldDef<'_>>,
    directive: &DirectiveAt<'_>,
)
    ensures { least.new.at ≡ least_from least.old.at (spec.type_wrong schema.now field.now (directive_of directive.now)) }
{
    if directive.name.name == "connection" {
        least.note_if(!is_connection(schema, field), directive.name.at);
    }
}

/// Whether a field has the type of a connection.
fn is_connection(schema: &Schema, field: &Option<FieldDef<'_>>) -> bool
    ensures { result ≡ spec.is_connection schema.now field.now }
{
    match field {
        Some(field) => is_single(field) && is_connection_type(schema, name_of_type(field)),
        None => false,
    }
}

/// Whether a type is that of a connection.
fn is_connection_type(schema: &Schema, of: &str) -> bool
    ensures { result ≡ spec.is_connection_type schema.now of.now }
{
    is_object(schema, of)
        && are_edges(schema, schema.field(of, "edges"))
        && is_page_info(schema, schema.field(of, "pageInfo"))
}

/// Whether a field gives edges.
fn are_edges(schema: &Schema, field: Option<FieldDef<'_>>) -> bool
    ensures { result ≡ spec.are_edges schema.now field.entry }
{
    match field {
        Some(field) => {
            needs_nothing(&field) && !is_single(&field) && is_edge(schema, name_of_type(&field))
        }
        None => false,
    }
}

/// Whether a type is that of an edge.
fn is_edge(schema: &Schema, of: &str) -> bool
    ensures { result ≡ spec.is_edge schema.now of.now }
{
    is_object(schema, of)
        && is_node(schema, schema.field(of, "node"))
        && is_page_leaf(schema, schema.field(of, "cursor"))
}

/// Whether a field gives a node.
fn is_node(schema: &Schema, field: Option<FieldDef<'_>>) -> bool
    ensures { result ≡ spec.is_node schema.now field.entry }
{
    match field {
        Some(field) => {
            needs_nothing(&field) && schema.is_composite(name_of_type(&field)) && is_single(&field)
        }
        None => false,
    }
}

/// Whether a field gives page information.
fn is_page_info(schema: &Schema, field: Option<FieldDef<'_>>) -> bool
    ensures { result ≡ spec.is_page_info schema.now field.entry }
{
    match field {
        Some(field) => {
            needs_nothing(&field) && is_single(&field) && is_page(schema, name_of_type(&field))
        }
        None => false,
    }
}

/// Whether a type is that of page information.
fn is_page(schema: &Schema, of: &str) -> bool
    ensures { result ≡ spec.is_page schema.now of.now }
{
    is_object(schema, of)
        && is_page_leaf(schema, schema.field(of, "hasNextPage"))
        && is_page_leaf(schema, schema.field(of, "hasPreviousPage"))
        && is_page_leaf(schema, schema.field(of, "startCursor"))
        && is_page_leaf(schema, schema.field(of, "endCursor"))
}

/// Whether a field gives leaves that are no Float, and needs no argument.
fn is_page_leaf(schema: &Schema, field: Option<FieldDef<'_>>) -> bool
    ensures { result ≡ spec.is_page_leaf schema.now field.entry }
{
    match field {
        Some(field) => {
            let of = name_of_type(&field);
            needs_nothing(&field) && schema.is_leaf(of) && of != "Float"
        }
        None => false,
    }
}

/// Whether a type is an object type.
fn is_object(schema: &Schema, of: &str) -> bool
    ensures { result ≡ is_object schema.now of.now }
{
    matches!(schema.kind_of(of), Some(TypeKind::Object))
}

/// The name of the type of a field, without lists.
fn name_of_type<'a>(field: &FieldDef<'a>) -> &'a str
    ensures { result.now ≡ spec.of_name field.now }
{
    base_of(field.of())
}

/// Whether a field is of no list type.
fn is_single(field: &FieldDef<'_>) -> bool
    ensures { result ≡ spec.is_single field.now }
{
    item_of(field.of()).is_none()
}

/// Whether no argument has to be given to a field.
fn needs_nothing(field: &FieldDef<'_>) -> bool
    ensures { result ≡ spec.needs_nothing field.now }
{
    field.arguments().required_count() == 0
}
