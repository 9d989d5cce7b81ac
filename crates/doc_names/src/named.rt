//! The names that stand in documents.
ghost use Rattle.std.specs.Prelude.{◌≡◌, map, option_map, IfOk};
ghost use Rattle.std.specs.List.{filter_map};
ghost use Rattle.doc_sites.specs.SitesView.{definition_of, site_of};
ghost use Rattle.doc_sites.specs.schema_trees.LocatedView.{name_of};
ghost use Rattle.doc_sites.specs.schema_types.NameRules as names;

use doc_sites::located::NameAt;
use doc_sites::{DefinitionAt, NoMemory, Site};
use std::alloc::Global;

/// The names of operations, of those that have one.
pub(crate) fn operation_names<'a>(
    alloc: Global,
    definitions: &[DefinitionAt<'a>],
) -> Result<Vec<NameAt<'a>>, NoMemory>
    ensures { IfOk result (λ ns. map name_of ns.items ≡ names.operation_names (map definition_of definitions.now)) }
{
    let mut names = Vec::new(alloc);
    'definitions: for definition in definitions {
        match definition {
            DefinitionAt::Operation(operation) => {
                if let Some(name) = operation.name {
                    names.push(name)?;
                }
            }
            DefinitionAt::Fragment(_) => {}
        }
    }
    Ok(names)
}

/// The names of fragments.
pub(crate) fn fragment_names<'a>(
    alloc: Global,
    definitions: &[DefinitionAt<'a>],
) -> Result<Vec<NameAt<'a>>, NoMemory>
    ensures { IfOk result (λ ns. map name_of ns.items ≡ names.fragment_names (map definition_of definitions.now)) }
{
    let mut names = Vec::new(alloc);
    'definitions: for definition in definitions {
        match definition {
            DefinitionAt::Operation(_) => {}
            DefinitionAt::Fragment(fragment) => names.push(fragment.name)?,
        }
    }
    Ok(names)
}

/// The type condition of an inline fragment, where it has one.
fn condition_at<'a>(site: &Site<'a>) -> Option<NameAt<'a>>
    ensures { option_map name_of result ≡ names.condition_at (site_of site.now) }
{
    match site {
        Site::Field { .. } => None,
        Site::Spread { .. } => None,
        Site::Inline { on, .. } => *on,
    }
}

/// The type conditions of inline fragments.
pub(crate) fn conditions_at<'a>(
    alloc: Global,
    sites: &[Site<'a>],
) -> Result<Vec<NameAt<'a>>, NoMemory>
    ensures { IfOk result (λ ns. map name_of ns.items ≡ filter_map names.condition_at (map site_of sites.now)) }
{
    let mut conditions = Vec::new(alloc);
    'sites: for site in sites {
        if let Some(name) = condition_at(site) {
            conditions.push(name)?;
        }
    }
    Ok(conditions)
}
