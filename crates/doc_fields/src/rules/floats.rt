//! V9, no Float (this project's own): the named type of a selected field is not Float.
//! `{ me { height } }` breaks it at `height`, where that is a Float.
ghost use Rattle.std.specs.Prelude.{◌≡◌, Some, map, option_copied};
ghost use Rattle.doc_sites.specs.schema_types.FieldRules as rules;
ghost use Rattle.doc_sites.specs.gql_graph.Leasts.{least_from};
ghost use Rattle.doc_sites.specs.gql_graph.Rules.{each};
ghost use Rattle.doc_sites.specs.schema_types.Sites.{field_type};
ghost use Rattle.doc_sites.specs.SitesView.{definition_of, site_of};
ghost use Rattle.doc_fields.specs.Bases.{float_of};

use doc_sites::around::below;
use doc_sites::least::Least;
use doc_sites::{DefinitionAt, Schema, Site};

/// V9: no field that is selected is of Float. This project's own; the type is of section 3.5.2 of
/// GraphQL, October 2021.
pub(crate) fn floats_selected(schema: &Schema, least: &mut Least, definitions: &[DefinitionAt<'_>])
    ensures { least.new.at ≡ least_from least.old.at (rules.floats_selected schema.now (map definition_of definitions.now)) }
{
    'definitions: for definition in definitions {
        note_floats_in(schema, least, definition.sites());
    }
}

/// The fields of these selections that are of Float.
fn note_floats_in(schema: &Schema, least: &mut Least, sites: &[Site<'_>])
    ensures { least.new.at ≡ least_from least.old.at (each (rules.float_at schema.now) (map site_of sites.now)) }
{
    'sites: for site in sites {
        note_float(schema, least, site);
    }
}

/// A field of Float.
fn note_float(schema: &Schema, least: &mut Least, site: &Site<'_>)
    ensures { least.new.at ≡ least_from least.old.at (rules.float_at schema.now (site_of site.now)) }
{
    match site {
        Site::Field { around, name, .. } => {
            least.note_if(is_float(schema, *around, name.name), name.at);
        }
        Site::Spread { .. } => {}
        Site::Inline { .. } => {}
    }
}

/// Whether a field is of Float, in lists or not.
fn is_float(schema: &Schema, around: Option<&str>, name: &str) -> bool
    ensures { result ≡ rules.is_float (field_type schema.now (option_copied around.entry) name.now) }
{
    match below(schema, around, name) {
        Some(of) => names_float(of),
        None => false,
    }
}

/// Whether a name is that of Float.
fn names_float(of: &str) -> bool
    ensures { result ≡ float_of (Some of.now) }
{
    of == "Float"
}
