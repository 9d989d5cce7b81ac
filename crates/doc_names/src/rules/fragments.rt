//! V2, fragment names (GraphQL, October 2021, section 5.5.1.1): the names of fragments differ.
//! `fragment F on User { name } fragment F on User { id }` breaks it at the second `F`.
ghost use Rattle.std.specs.Prelude.{◌≡◌, map, OnOk};
ghost use Rattle.doc_sites.specs.SitesView.{definition_of};
ghost use Rattle.doc_sites.specs.gql_graph.Leasts.{least_from};
ghost use Rattle.doc_sites.specs.schema_types.NameRules as names;

use crate::named::fragment_names;
use doc_sites::least::Least;
use doc_sites::repeats::note_repeated;
use doc_sites::{DefinitionAt, NoMemory};
use std::alloc::Global;

/// Names of fragments that stand before.
pub(crate) fn fragments_not_unique(
    alloc: Global,
    least: &mut Least,
    definitions: &[DefinitionAt<'_>],
) -> Result<(), NoMemory>
    ensures { OnOk result (least.new.at ≡ least_from least.old.at (names.fragments_not_unique (map definition_of definitions.now))) }
{
    let names = fragment_names(alloc, definitions)?;
    note_repeated(alloc, least, &names)
}
