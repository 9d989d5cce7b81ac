//! Names that stand in a list before.
ghost use Rattle.std.specs.Prelude.{◌≡◌, ◌++◌, map, IfOk, OnOk, List};
ghost use Rattle.schema_tables.specs.gql_graph.Leasts.{least_from};
ghost use Rattle.schema_tables.specs.gql_graph.Seen.{Knows};
ghost use Rattle.schema_tables.specs.gql_graph.Texts.{Text};
ghost use Rattle.schema_trees.specs.DefinitionParts.{repeats, repeated_names, names_of};
ghost use Rattle.schema_trees.specs.LocatedView.{name_of};

use crate::located::NameAt;
use schema_tables::gql_graph::least::Least;
use schema_tables::gql_graph::seen::Seen;
use schema_tables::gql_plain::NoMemory;
use std::alloc::Global;

/// The names of a list.
pub fn seen_names<'a>(alloc: Global, names: &[NameAt<'a>]) -> Result<Seen<'a>, NoMemory>
    ensures { IfOk result (λ seen. Knows seen.names (names_of (map name_of names.now))) }
{
    let mut seen = Seen::new(alloc);
    'names: for name in names {
        let _is_new = seen.insert(name.name)?;
    }
    Ok(seen)
}

/// Notes each name that is seen or stands in the list before. From now on all of them are seen.
pub fn note_repeats<'a>(
    least: &mut Least,
    seen: &mut Seen<'a>,
    names: &[NameAt<'a>],
) -> Result<(), NoMemory>
    ensures places { (before : List Text) → Knows seen.old.names before → OnOk result (least.new.at ≡ least_from least.old.at (repeats before (map name_of names.now))) }
    ensures known { (before : List Text) → Knows seen.old.names before → OnOk result (Knows seen.new.names (names_of (map name_of names.now) ++ before)) }
{
    'names: for name in names {
        let is_new = seen.insert(name.name)?;
        least.note_if(!is_new, name.at);
    }
    Ok(())
}

/// Notes each name that stands in the list before.
pub fn note_repeated(alloc: Global, least: &mut Least, names: &[NameAt<'_>]) -> Result<(), NoMemory>
    ensures { OnOk result (least.new.at ≡ least_from least.old.at (repeated_names (map name_of names.now))) }
{
    let mut seen = Seen::new(alloc);
    note_repeats(least, &mut seen, names)
}
