//! V19, masks, after Relay: `mask` of `@relay` is `true` or `false`, literally.
//! `...P @relay(mask: $m)` breaks it at `relay`.
ghost use Rattle.std.specs.Prelude.{◌≡◌, map, option_map};
ghost use Rattle.gql_syntax.specs.gql_ast.ValueView.{value_of};
ghost use Rattle.constant_values.specs.gql_graph.Leasts.{least_from};
ghost use Rattle.constant_values.specs.schema_types.NameRules.{sites_of};
ghost use Rattle.constant_values.specs.gql_graph.Rules.{each};
ghost use Rattle.doc_uses.specs.doc_sites.SitesView.{definition_of, directive_of, site_of};
ghost use Rattle.relay_rules.specs.RelayRules as rules;

use crate::values::value_named;
use constant_values::least::Least;
use doc_uses::{DefinitionAt, DirectiveAt, Site};
use gql_syntax::gql_ast::ValueTree;

/// V19: the mask of `@relay` is a truth value, literally.
pub(crate) fn masks_wrong(least: &mut Least, definitions: &[DefinitionAt<'_>])
    ensures { least.new.at ≡ least_from least.old.at (rules.masks_wrong (map definition_of definitions.now)) }
{
    'definitions: for definition in definitions {
        note_definition(least, definition);
    }
}

/// Masks in a definition.
fn note_definition(least: &mut Least, definition: &DefinitionAt<'_>)
    ensures { least.new.at ≡ least_from least.old.at (each rules.masks_wrong_at (sites_of (definition_of definition.now))) }
{
    let sites = definition.sites();
    note_sites(least, sites);
}

/// Masks at selections.
fn note_sites(least: &mut Least, sites: &[Site<'_>])
    ensures { least.new.at ≡ least_from least.old.at (each rules.masks_wrong_at (map site_of sites.now)) }
{
    'sites: for site in sites {
        note_site(least, site);
    }
}

/// Masks at a selection.
fn note_site(least: &mut Least, site: &Site<'_>)
    ensures { least.new.at ≡ least_from least.old.at (rules.masks_wrong_at (site_of site.now)) }
{
    match site {
        Site::Field { directives, .. } => note_directives(least, directives),
        Site::Spread { directives, .. } => note_directives(least, directives),
        Site::Inline { directives, .. } => note_directives(least, directives),
    }
}

/// Masks of directives.
fn note_directives(least: &mut Least, directives: &[DirectiveAt<'_>])
    ensures { least.new.at ≡ least_from least.old.at (each rules.mask_wrong (map directive_of directives.now)) }
{
    'directives: for directive in directives {
        note_directive(least, directive);
    }
}

/// The mask of a directive, where it is `@relay`.
fn note_directive(least: &mut Least, directive: &DirectiveAt<'_>)
    ensures { least.new.at ≡ least_from least.old.at (rules.mask_wrong (directive_of directive.now)) }
{
    if directive.name.name == "relay" {
        let mask = value_named(&directive.arguments, "mask");
        least.note_if(!is_truth(mask), directive.name.at);
    }
}

/// Whether a value is there, and a truth value.
fn is_truth(value: Option<&ValueTree>) -> bool
    ensures { result ≡ rules.is_truth (option_map (λ v. value_of v.now) value.entry) }
{
    matches!(value, Some(ValueTree::Bool(_)))
}
