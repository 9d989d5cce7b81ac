//! The places of the nodes of documents, and of the selections of a definition.
ghost use Rattle.std.specs.Prelude.{◌≡◌, map, IfOk};
ghost use Rattle.plan_ir.specs.schema_types.DocumentRules.{places_of};
ghost use Rattle.doc_sites.specs.SitesView.{site_of};
ghost use Rattle.plan_expand.specs.Places.{site_number, site_places_in};
ghost use Rattle.plan_ir.specs.Projects.{place_in};

use doc_sites::Site;
use plan_ir::{Documents, FilePlace, NoMemory};
use std::alloc::Global;

/// The places of the nodes of all documents, by their numbers.
pub(crate) fn places_of(alloc: Global, documents: &Documents) -> Result<Vec<FilePlace>, NoMemory>
    ensures { IfOk result (λ places. places.items ≡ places_of documents.now) }
{
    let mut places = Vec::new(alloc);
    'documents: for document in documents.as_slice() {
        places.extend_from_slice(document.places.as_slice())?;
    }
    Ok(places)
}

/// The place of that number; the first place of the first file where there is none. Each node of
/// documents that were read has its place, and each selection that a walk asks for, so none of them
/// comes to that.
pub(crate) fn place_at(places: &[FilePlace], at: usize) -> FilePlace
    ensures { result ≡ place_in places.now at }
{
    match places.get(at) {
        Some(place) => *place,
        None => FilePlace {
            file: 0,
            line: 1,
            column: 1,
        },
    }
}

/// The number of the node of a selection.
fn number_of(site: &Site<'_>) -> usize
    ensures { result ≡ site_number (site_of site.now) }
{
    match site {
        Site::Field { alias, name, .. } => match alias {
            Some(alias) => alias.at.saturating_sub(1),
            None => name.at.saturating_sub(1),
        },
        Site::Spread { name, .. } => name.at.saturating_sub(1),
        Site::Inline { first, .. } => *first,
    }
}

/// The places of the selections of a definition in text order, among those of all nodes.
pub(crate) fn site_places(
    alloc: Global,
    nodes: &[FilePlace],
    sites: &[Site<'_>],
) -> Result<Vec<FilePlace>, NoMemory>
    ensures { IfOk result (λ places. places.items ≡ site_places_in (place_in nodes.now) (map site_of sites.now)) }
{
    let mut places = Vec::new(alloc);
    'sites: for site in sites {
        places.push(place_at(nodes, number_of(site)))?;
    }
    Ok(places)
}
