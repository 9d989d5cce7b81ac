//! V8, leaf field selections (GraphQL, October 2021, section 5.3.3): a leaf has no selection set,
//! and a composite field has one. `{ me }` breaks it at `me`, where `me` is a User.
ghost use Rattle.std.specs.Prelude.{◌≡◌, map, option_copied, Some};
ghost use Rattle.doc_sites.specs.schema_types.FieldRules as rules;
ghost use Rattle.doc_sites.specs.gql_graph.Leasts.{least_from};
ghost use Rattle.doc_sites.specs.gql_graph.Rules.{each};
ghost use Rattle.doc_sites.specs.schema_types.Sites.{field_type};
ghost use Rattle.doc_sites.specs.SitesView.{definition_of, site_of};
ghost use Rattle.doc_fields.specs.Bases.{set_wrong_of};

use doc_sites::around::below;
use doc_sites::least::Least;
use doc_sites::{DefinitionAt, Schema, Site};

/// V8: a field of a scalar or an enum has no selection set, and one of an object, an interface or a
/// union has one (GraphQL, October 2021, section 5.3.3).
pub(crate) fn sets_wrong(schema: &Schema, least: &mut Least, definitions: &[DefinitionAt<'_>])
    ensures { least.new.at ≡ least_from least.old.at (rules.sets_wrong schema.now (map definition_of definitions.now)) }
{
    'definitions: for definition in definitions {
        note_sets_in(schema, least, definition.sites());
    }
}

/// The fields of these selections with a set too many, or one too few.
fn note_sets_in(schema: &Schema, least: &mut Least, sites: &[Site<'_>])
    ensures { least.new.at ≡ least_from least.old.at (each (rules.set_wrong_at schema.now) (map site_of sites.now)) }
{
    'sites: for site in sites {
        note_set(schema, least, site);
    }
}

/// A field with a set too many, or one too few.
fn note_set(schema: &Schema, least: &mut Least, site: &Site<'_>)
    ensures { least.new.at ≡ least_from least.old.at (rules.set_wrong_at schema.now (site_of site.now)) }
{
    match site {
        Site::Field {
            around,
            name,
            has_set,
            ..
        } => {
            least.note_if(set_is_wrong(schema, *around, name.name, *has_set), name.at);
        }
        Site::Spread { .. } => {}
        Site::Inline { .. } => {}
    }
}

/// Whether a field has a set too many, or one too few.
fn set_is_wrong(schema: &Schema, around: Option<&str>, name: &str, has_set: bool) -> bool
    ensures { result ≡ rules.set_is_wrong schema.now (field_type schema.now (option_copied around.entry) name.now) has_set }
{
    match below(schema, around, name) {
        Some(of) => set_is_wrong_of(schema, of, has_set),
        None => false,
    }
}

/// Whether a field of a type has a set too many, or one too few.
fn set_is_wrong_of(schema: &Schema, of: &str, has_set: bool) -> bool
    ensures { result ≡ set_wrong_of schema.now (Some of.now) has_set }
{
    if has_set {
        return schema.is_leaf(of);
    }
    schema.is_composite(of)
}
