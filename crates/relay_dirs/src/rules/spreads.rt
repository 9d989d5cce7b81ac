//! V18, spreads with arguments, after Relay: `@arguments` gives names of the fragment's local
//! variables, with values that fit and uses that are allowed; each local variable of a non-null type
//! without default is given, and not as `null`. `...P @arguments(size: "a")` breaks it at `P`, where
//! `size` is an `Int`.
ghost use Rattle.std.specs.Prelude.{◌≡◌, List, map, OnOk};
ghost use Rattle.constant_values.specs.gql_graph.Leasts.{least_from};
ghost use Rattle.constant_values.specs.gql_graph.Rules.{each};
ghost use Rattle.constant_values.specs.schema_trees.LocatedView.{name_of};
ghost use Rattle.constant_values.specs.schema_types.NameRules.{sites_of};
ghost use Rattle.constant_values.specs.schema_types.Sites as parts;
ghost use Rattle.doc_uses.specs.doc_sites.SitesView.{definition_of, directive_of, site_of};
ghost use Rattle.relay_rules.specs.Spreads as spec;
ghost use Rattle.relay_dirs.specs.Tables.{Suits};

use crate::fragments::{Fragments, list_locals};
use crate::rules::local_uses::note_local_uses;
use crate::rules::variable_uses::note_variable_uses;
use crate::spread_arguments::{are_given_well, spread_arguments};
use constant_values::Schema;
use constant_values::least::Least;
use constant_values::located::NameAt;
use doc_uses::{DefinitionAt, DirectiveAt, Site};
use gql_syntax::gql_plain::NoMemory;
use std::alloc::Global;

/// V18: what spreads give fits, and each local variable is given that must be.
pub(crate) fn spreads_wrong(
    alloc: Global,
    schema: &Schema,
    least: &mut Least,
    definitions: &[DefinitionAt<'_>],
) -> Result<(), NoMemory>
    ensures { OnOk result (least.new.at ≡ least_from least.old.at (spec.spreads_wrong schema.now (map definition_of definitions.now))) }
{
    let all = list_locals(alloc, definitions)?;
    let table = Fragments::of(alloc, &all)?;
    note_given(alloc, schema, &table, least, definitions)?;
    note_local_uses(alloc, schema, &table, least, definitions)?;
    note_variable_uses(alloc, schema, &table, least, definitions)
}

/// Spreads whose arguments do not fit, or that leave out one that must be given.
fn note_given(
    alloc: Global,
    schema: &Schema,
    table: &Fragments<'_>,
    least: &mut Least,
    definitions: &[DefinitionAt<'_>],
) -> Result<(), NoMemory>
    ensures { (fs : List parts.FragmentAt) → Suits table.now fs
        → OnOk result (least.new.at ≡ least_from least.old.at (spec.given_wrong schema.now fs (map definition_of definitions.now))) }
{
    'definitions: for definition in definitions {
        note_given_in(alloc, schema, table, least, definition)?;
    }
    Ok(())
}

/// Such spreads in a definition.
fn note_given_in(
    alloc: Global,
    schema: &Schema,
    table: &Fragments<'_>,
    least: &mut Least,
    definition: &DefinitionAt<'_>,
) -> Result<(), NoMemory>
    ensures { (fs : List parts.FragmentAt) → Suits table.now fs
        → OnOk result (least.new.at ≡ least_from least.old.at (each (spec.given_wrong_at schema.now fs) (sites_of (definition_of definition.now)))) }
{
    let sites = definition.sites();
    note_given_among(alloc, schema, table, least, sites)
}

/// Such spreads among selections.
fn note_given_among(
    alloc: Global,
    schema: &Schema,
    table: &Fragments<'_>,
    least: &mut Least,
    sites: &[Site<'_>],
) -> Result<(), NoMemory>
    ensures { (fs : List parts.FragmentAt) → Suits table.now fs
        → OnOk result (least.new.at ≡ least_from least.old.at (each (spec.given_wrong_at schema.now fs) (map site_of sites.now))) }
{
    'sites: for site in sites {
        note_given_at(alloc, schema, table, least, site)?;
    }
    Ok(())
}

/// A selection, where it is such a spread.
fn note_given_at(
    alloc: Global,
    schema: &Schema,
    table: &Fragments<'_>,
    least: &mut Least,
    site: &Site<'_>,
) -> Result<(), NoMemory>
    ensures { (fs : List parts.FragmentAt) → Suits table.now fs
        → OnOk result (least.new.at ≡ least_from least.old.at (spec.given_wrong_at schema.now fs (site_of site.now))) }
{
    match site {
        Site::Field { .. } => Ok(()),
        Site::Spread {
            name,
            directives,
            ..
        } => note_given_by(alloc, schema, table, least, name, directives),
        Site::Inline { .. } => Ok(()),
    }
}

/// A spread of this name, where its arguments do not fit, or it leaves out one that must be given.
fn note_given_by(
    alloc: Global,
    schema: &Schema,
    table: &Fragments<'_>,
    least: &mut Least,
    name: &NameAt<'_>,
    directives: &[DirectiveAt<'_>],
) -> Result<(), NoMemory>
    ensures { (fs : List parts.FragmentAt) → Suits table.now fs
        → OnOk result (least.new.at ≡ least_from least.old.at (spec.spread_wrong schema.now fs (name_of name.now) (map directive_of directives.now))) }
{
    let given = spread_arguments(alloc, directives)?;
    let locals = table.find(name.name);
    let is_good = are_given_well(alloc, schema, locals, &given)?;
    least.note_if(!is_good, name.at);
    Ok(())
}
