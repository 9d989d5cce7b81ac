//! V21, keys and filters, after Relay: `key` of `@connection` is a string that is a Name and ends with
//! `_` and the response key of the field, with something in front; `filters`, if there, is a list of
//! strings that name arguments of the field. `friends @connection(key: "friends")` breaks it.
ghost use Rattle.std.specs.Prelude.{◌≡◌, map, option_copied, option_map};
ghost use Rattle.gql_syntax.specs.gql_ast.Value.{vals_of};
ghost use Rattle.gql_syntax.specs.gql_ast.ValueView.{value_of};
ghost use Rattle.constant_values.specs.gql_graph.Leasts.{least_from};
ghost use Rattle.constant_values.specs.schema_trees.LocatedView.{name_of};
ghost use Rattle.constant_values.specs.schema_types.NameRules.{sites_of};
ghost use Rattle.constant_values.specs.gql_graph.Rules.{each};
ghost use Rattle.gql_syntax.specs.gql_plain.Order.{has_text};
ghost use Rattle.doc_uses.specs.doc_sites.SitesView.{argument_of, definition_of, directive_of, site_of};
ghost use Rattle.relay_marks.specs.Connections as spec;

use crate::values::value_named;
use constant_values::least::Least;
use constant_values::located::NameAt;
use constant_values::{FieldDef, InputDefs, Schema};
use doc_uses::{ArgumentAt, DefinitionAt, DirectiveAt, Site};
use gql_syntax::gql_ast::{ValueTree, ValueTrees};
use gql_syntax::gql_plain::is_name;

/// V21: the key of a connection is a Name that ends with `_` and the response key, with something in
/// front, and its filters are a list of names of arguments.
pub(crate) fn keys_wrong(schema: &Schema, least: &mut Least, definitions: &[DefinitionAt<'_>])
    ensures { least.new.at ≡ least_from least.old.at (spec.keys_wrong schema.now (map definition_of definitions.now)) }
{
    'definitions: for definition in definitions {
        note_definition(schema, least, definition);
    }
}

/// Connections in a definition.
fn note_definition(schema: &Schema, least: &mut Least, definition: &DefinitionAt<'_>)
    ensures { least.new.at ≡ least_from least.old.at (each (spec.key_wrong_at schema.now) (sites_of (definition_of definition.now))) }
{
    let sites = definition.sites();
    note_sites(schema, least, sites);
}

/// Connections at selections.
fn note_sites(schema: &Schema, least: &mut Least, sites: &[Site<'_>])
    ensures { least.new.at ≡ least_from least.old.at (each (spec.key_wrong_at schema.now) (map site_of sites.now)) }
{
    'sites: for site in sites {
        note_site(schema, least, site);
    }
}

/// Connections at a selection.
fn note_site(schema: &Schema, least: &mut Least, site: &Site<'_>)
    ensures { least.new.at ≡ least_from least.old.at (spec.key_wrong_at schema.now (site_of site.now)) }
{
    match site {
        Site::Field {
            around,
            alias,
            name,
            directives,
            ..
        } => {
            let response = response_key(alias, name);
            let field = field_defined(schema, *around, name.name);
            note_directives(least, response, &field, directives);
        }
        Site::Spread { .. } => {}
        Site::Inline { .. } => {}
    }
}

/// The name under which a field stands in a response (GraphQL, October 2021, section 2.7).
fn response_key<'a>(alias: &Option<NameAt<'a>>, name: &NameAt<'a>) -> &'a str
    ensures { result.now ≡ spec.response_key (option_map name_of alias.now) (name_of name.now) }
{
    match alias {
        Some(alias) => alias.name,
        None => name.name,
    }
}

/// The definition of a field, where the type around it is known and has it; takes no memory.
pub(crate) fn field_defined<'s>(
    schema: &'s Schema,
    around: Option<&str>,
    name: &str,
) -> Option<FieldDef<'s>>
    ensures { result ≡ spec.field_defined schema.now (option_copied around.entry) name.now }
{
    match around {
        Some(of) => schema.field(of, name),
        None => None,
    }
}

/// Connections among the directives of a field.
fn note_directives(
    least: &mut Least,
    response: &str,
    field: &Option<FieldDef<'_>>,
    directives: &[DirectiveAt<'_>],
)
    ensures { least.new.at ≡ least_from least.old.at (each (spec.key_wrong response.now field.now) (map directive_of directives.now)) }
{
    'directives: for directive in directives {
        note_directive(least, response, field, directive);
    }
}

/// A directive of a field, where it is a `@connection`.
fn note_directive(
    least: &mut Least,
    response: &str,
    field: &Option<FieldDef<'_>>,
    directive: &DirectiveAt<'_>,
)
    ensures { least.new.at ≡ least_from least.old.at (spec.key_wrong response.now field.now (directive_of directive.now)) }
{
    if directive.name.name == "connection" {
        let is_good = is_good_connection(response, field, &directive.arguments);
        least.note_if(!is_good, directive.name.at);
    }
}

/// Whether the key and the filters of a `@connection` are good.
fn is_good_connection(
    response: &str,
    field: &Option<FieldDef<'_>>,
    arguments: &[ArgumentAt<'_>],
) -> bool
    ensures { result ≡ spec.is_good_connection response.now field.now (map argument_of arguments.now) }
{
    let filters = value_named(arguments, "filters");
    let are_good = are_good_filters(field, filters);
    let key = value_named(arguments, "key");
    is_good_key(response, key) && are_good
}

/// Whether a value is a good key of a field.
fn is_good_key(response: &str, key: Option<&ValueTree>) -> bool
    ensures { result ≡ spec.is_good_key response.now (option_map (λ v. value_of v.now) key.entry) }
{
    match key {
        Some(ValueTree::Text(key)) => is_key(response, key.as_str()),
        _ => false,
    }
}

/// Whether a text is a good key of a field.
fn is_key(response: &str, key: &str) -> bool
    ensures { result ≡ spec.is_key response.now key.now }
{
    is_name(key) && has_front(response.as_bytes(), key.as_bytes())
}

/// Whether bytes end with `_` and the response key, with something in front.
fn has_front(response: &[u8], key: &[u8]) -> bool
    ensures { result ≡ spec.has_front response.now key.now }
{
    match key {
        [_, rest @ ..] => ends_as_key(response, rest),
        [] => false,
    }
}

/// Whether bytes end with `_` and the response key.
fn ends_as_key(response: &[u8], key: &[u8]) -> bool
    ensures { result ≡ spec.ends_as_key response.now key.now }
{
    let mut rest = key;
    'bytes: while let [first, behind @ ..] = rest {
        if *first == b'_' && behind == response {
            return true;
        }
        rest = behind;
    }
    false
}

/// Whether filters are a list of names of the field's arguments, where there are any.
fn are_good_filters(field: &Option<FieldDef<'_>>, filters: Option<&ValueTree>) -> bool
    ensures { result ≡ spec.are_good_filters (spec.argument_names field.now) (option_map (λ v. value_of v.now) filters.entry) }
{
    match filters {
        None => true,
        Some(ValueTree::List(values)) => are_among(field, values),
        Some(_) => false,
    }
}

/// Whether each value is a text that names an argument of the field.
fn are_among(field: &Option<FieldDef<'_>>, values: &ValueTrees) -> bool
    ensures { result ≡ spec.are_among (spec.argument_names field.now) (vals_of values.now) }
{
    'values: for value in values.as_slice() {
        if !is_among(field, value) {
            return false;
        }
    }
    true
}

/// Whether a value is a text that names an argument of the field.
fn is_among(field: &Option<FieldDef<'_>>, value: &ValueTree) -> bool
    ensures { result ≡ spec.is_among (spec.argument_names field.now) (value_of value.now) }
{
    match value {
        ValueTree::Text(text) => takes(field, text.as_str()),
        _ => false,
    }
}

/// Whether a field takes an argument of a name; takes no memory.
fn takes(field: &Option<FieldDef<'_>>, name: &str) -> bool
    ensures { result ≡ has_text (spec.argument_names field.now) name.now }
{
    match field {
        Some(field) => has_argument(&field.arguments(), name),
        None => false,
    }
}

/// Whether one of these arguments has a name; takes no memory.
fn has_argument(inputs: &InputDefs<'_>, name: &str) -> bool
    ensures { result ≡ has_text (map (λ i. i.name) inputs.now) name.now }
{
    inputs.find(name).is_some()
}
