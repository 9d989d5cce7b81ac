//! Selections in text order, each apart from those inside it (GraphQL, October 2021, section 2.4).
ghost use Rattle.std.specs.Prelude.{◌≡◌, ◌+◌, ◌++◌, map, option_copied, IfOk, OnOk};
ghost use Rattle.schema_types.specs.Sites as spec;
ghost use Rattle.schema_types.specs.Sites.{selections_nodes};
ghost use Rattle.doc_sites.specs.Firsts.{first_site, inside, past_first};
ghost use Rattle.doc_sites.specs.SitesView.{site_of};

use crate::around::around_inside;
use crate::parts::{arguments_at, directives_at, name_here, optional_name_at};
use crate::site::Site;
use schema_types::located::{name_at, pass};
use schema_types::{NoMemory, Schema, Selection, Selections};
use std::alloc::Global;

/// Whether there is a selection.
fn has_set(selections: &Selections) -> bool
    ensures { result ≡ spec.is_set selections.now }
{
    !selections.is_empty()
}

/// A selection whose node comes next, apart from those inside it; goes past its directives.
fn site_at<'a>(
    alloc: Global,
    at: &mut usize,
    around: Option<&'a str>,
    selection: &'a Selection,
) -> Result<Site<'a>, NoMemory>
    ensures sited { IfOk result (λ s. site_of s ≡ first_site at.old (option_copied around.entry) selection.now) }
    ensures passed { OnOk result (at.new ≡ past_first at.old selection.now) }
{
    match selection {
        Selection::Field {
            alias,
            name,
            arguments,
            directives,
            selections,
        } => {
            pass(at, 1)?;
            let alias = optional_name_at(at, alias)?;
            let name = name_here(at, name)?;
            let arguments = arguments_at(alloc, at, arguments)?;
            let directives = directives_at(alloc, at, directives)?;
            Ok(Site::Field {
                around,
                alias,
                name,
                arguments,
                directives,
                has_set: has_set(selections),
            })
        }
        Selection::Spread { name, directives } => {
            let name = name_at(at, name)?;
            let directives = directives_at(alloc, at, directives)?;
            Ok(Site::Spread {
                around,
                name,
                directives,
            })
        }
        Selection::Inline { on, directives, .. } => {
            let first = *at;
            pass(at, 1)?;
            let on = optional_name_at(at, on)?;
            let directives = directives_at(alloc, at, directives)?;
            Ok(Site::Inline {
                around,
                first,
                on,
                directives,
            })
        }
    }
}

/// Puts the selections of a set and those inside them.
#[cycle(sites)]
pub(crate) fn put_sites<'a>(
    alloc: Global,
    schema: &'a Schema,
    at: &mut usize,
    sites: &mut Vec<Site<'a>>,
    around: Option<&'a str>,
    selections: &'a Selections,
) -> Result<(), NoMemory>
    ensures put { OnOk result (map site_of sites.new.items ≡ map site_of sites.old.items ++ spec.sites schema.now at.old (option_copied around.entry) selections.now) }
    ensures passed { OnOk result (at.new ≡ at.old + selections_nodes selections.now) }
{
    'selections: for selection in selections.as_slice() {
        let site = site_at(alloc, at, around, selection)?;
        sites.push(site)?;
        let inner = around_inside(schema, around, selection);
        put_inside(alloc, schema, at, sites, inner, selection)?;
    }
    Ok(())
}

/// Puts the selections inside a selection.
#[cycle(sites)]
fn put_inside<'a>(
    alloc: Global,
    schema: &'a Schema,
    at: &mut usize,
    sites: &mut Vec<Site<'a>>,
    around: Option<&'a str>,
    selection: &'a Selection,
) -> Result<(), NoMemory>
    ensures put { OnOk result (map site_of sites.new.items ≡ map site_of sites.old.items ++ spec.sites schema.now at.old (option_copied around.entry) (inside selection.now)) }
    ensures passed { OnOk result (at.new ≡ at.old + selections_nodes (inside selection.now)) }
{
    match selection {
        Selection::Field { selections, .. } => {
            put_sites(alloc, schema, at, sites, around, selections)
        }
        Selection::Spread { .. } => Ok(()),
        Selection::Inline { selections, .. } => {
            put_sites(alloc, schema, at, sites, around, selections)
        }
    }
}
