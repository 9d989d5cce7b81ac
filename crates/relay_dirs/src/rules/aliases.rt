//! V20, aliases, this project's own: an alias does not begin with `__`, and is `id` on the field `id`
//! alone. `{ me { id: name } }` breaks it at `id`.
ghost use Rattle.std.specs.Prelude.{◌≡◌, map, option_map};
ghost use Rattle.constant_values.specs.gql_graph.Leasts.{least_from};
ghost use Rattle.constant_values.specs.schema_trees.LocatedView.{name_of};
ghost use Rattle.constant_values.specs.schema_types.NameRules.{sites_of};
ghost use Rattle.constant_values.specs.schema_rules.Rules.{begins_with_underscores, each};
ghost use Rattle.doc_uses.specs.doc_sites.SitesView.{definition_of, site_of};
ghost use Rattle.relay_rules.specs.RelayRules as rules;

use constant_values::least::Least;
use constant_values::located::NameAt;
use doc_uses::{DefinitionAt, Site};

/// V20: an alias does not begin with `__`, and is `id` on the field `id` alone.
pub(crate) fn aliases_wrong(least: &mut Least, definitions: &[DefinitionAt<'_>])
    ensures { least.new.at ≡ least_from least.old.at (rules.aliases_wrong (map definition_of definitions.now)) }
{
    'definitions: for definition in definitions {
        note_definition(least, definition);
    }
}

/// Aliases in a definition.
fn note_definition(least: &mut Least, definition: &DefinitionAt<'_>)
    ensures { least.new.at ≡ least_from least.old.at (each rules.alias_wrong_at (sites_of (definition_of definition.now))) }
{
    let sites = definition.sites();
    note_sites(least, sites);
}

/// Aliases of selections.
fn note_sites(least: &mut Least, sites: &[Site<'_>])
    ensures { least.new.at ≡ least_from least.old.at (each rules.alias_wrong_at (map site_of sites.now)) }
{
    'sites: for site in sites {
        note_site(least, site);
    }
}

/// The alias of a selection, where it is a field that has one.
fn note_site(least: &mut Least, site: &Site<'_>)
    ensures { least.new.at ≡ least_from least.old.at (rules.alias_wrong_at (site_of site.now)) }
{
    match site {
        Site::Field { alias, name, .. } => note_alias(least, alias, name),
        Site::Spread { .. } => {}
        Site::Inline { .. } => {}
    }
}

/// The alias of a field, where it has one.
fn note_alias(least: &mut Least, alias: &Option<NameAt<'_>>, name: &NameAt<'_>)
    ensures { least.new.at ≡ least_from least.old.at (rules.alias_wrong (option_map name_of alias.now) (name_of name.now)) }
{
    match alias {
        Some(alias) => least.note_if(is_bad_alias(alias.name, name.name), alias.at),
        None => {}
    }
}

/// Whether an alias may not stand on a field of this name.
fn is_bad_alias(alias: &str, name: &str) -> bool
    ensures { result ≡ rules.is_bad_alias alias.now name.now }
{
    begins_with_underscores(alias) || (alias == "id" && name != "id")
}

/// Whether a name begins with two underscores.
fn begins_with_underscores(name: &str) -> bool
    ensures { result ≡ begins_with_underscores name.now }
{
    name.starts_with("__")
}
