//! V7, field selections (GraphQL, October 2021, section 5.3.1): a field is defined on the type
//! around it; `__typename` is on every composite type. On `type User { name: String }` the
//! selection `{ me { nam } }` breaks it at `nam`.
ghost use Rattle.std.specs.Prelude.{◌≡◌, Some, map, option_copied};
ghost use Rattle.doc_sites.specs.schema_types.FieldRules as rules;
ghost use Rattle.doc_sites.specs.gql_graph.Leasts.{least_from};
ghost use Rattle.doc_sites.specs.gql_graph.Rules.{each};
ghost use Rattle.doc_sites.specs.schema_types.Sites.{field_type};
ghost use Rattle.doc_sites.specs.SitesView.{definition_of, site_of};

use doc_sites::around::below_on;
use doc_sites::least::Least;
use doc_sites::{DefinitionAt, Schema, Site};

/// V7: a field is defined on its type (GraphQL, October 2021, section 5.3.1); `__typename` is defined
/// on each object, interface and union (section 4.1).
pub(crate) fn fields_undefined(schema: &Schema, least: &mut Least, definitions: &[DefinitionAt<'_>])
    ensures { least.new.at ≡ least_from least.old.at (rules.fields_undefined schema.now (map definition_of definitions.now)) }
{
    'definitions: for definition in definitions {
        note_undefined_in(schema, least, definition.sites());
    }
}

/// The fields of these selections that are not defined.
fn note_undefined_in(schema: &Schema, least: &mut Least, sites: &[Site<'_>])
    ensures { least.new.at ≡ least_from least.old.at (each (rules.undefined_at schema.now) (map site_of sites.now)) }
{
    'sites: for site in sites {
        note_undefined(schema, least, site);
    }
}

/// A field that is not defined.
fn note_undefined(schema: &Schema, least: &mut Least, site: &Site<'_>)
    ensures { least.new.at ≡ least_from least.old.at (rules.undefined_at schema.now (site_of site.now)) }
{
    match site {
        Site::Field { around, name, .. } => {
            least.note_if(is_undefined(schema, *around, name.name), name.at);
        }
        Site::Spread { .. } => {}
        Site::Inline { .. } => {}
    }
}

/// Whether the type around a field is known and does not have it.
fn is_undefined(schema: &Schema, around: Option<&str>, name: &str) -> bool
    ensures { result ≡ rules.is_undefined (option_copied around.entry) (field_type schema.now (option_copied around.entry) name.now) }
{
    match around {
        Some(of) => is_undefined_on(schema, of, name),
        None => false,
    }
}

/// Whether a type does not have a field.
fn is_undefined_on(schema: &Schema, of: &str, name: &str) -> bool
    ensures { result ≡ rules.is_undefined (Some of.now) (field_type schema.now (Some of.now) name.now) }
{
    match below_on(schema, of, name) {
        Some(_base) => false,
        None => true,
    }
}
