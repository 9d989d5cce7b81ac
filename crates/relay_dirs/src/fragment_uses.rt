//! The variables that the spreads in fragments give.
ghost use Rattle.std.specs.Prelude.{◌++◌, List, map, IfOk, OnOk};
ghost use Rattle.constant_values.specs.schema_types.ArgumentRules as rules;
ghost use Rattle.constant_values.specs.schema_types.NameRules.{fragments};
ghost use Rattle.constant_values.specs.schema_types.Sites as parts;
ghost use Rattle.constant_values.specs.gql_graph.Texts.{Text};
ghost use Rattle.doc_uses.specs.doc_sites.SitesView.{definition_of};
ghost use Rattle.doc_uses.specs.FragmentUses.{Describes};
ghost use Rattle.doc_uses.specs.UsesByName.{Gathers, named_in, uses_among};
ghost use Rattle.relay_rules.specs.Spreads.{uses_in_fragment};
ghost use Rattle.relay_dirs.specs.Tables.{Suits};

use crate::fragments::Fragments;
use crate::spread_uses::uses_in_spreads;
use constant_values::Schema;
use doc_uses::{DefinitionAt, FragmentUses, UsesByName};
use gql_syntax::gql_plain::NoMemory;
use std::alloc::Global;

/// What is known of the variables that the spreads in the fragments among definitions give.
pub(crate) fn fragment_uses<'p, 'a>(
    alloc: Global,
    schema: &'p Schema,
    table: &Fragments<'p>,
    definitions: &[DefinitionAt<'a>],
) -> Result<FragmentUses<'p, 'a>, NoMemory>
    ensures { (fs : List parts.FragmentAt) → Suits table.now fs
        → IfOk result (λ known. Describes known (uses_in_fragment schema.now fs) (fragments (map definition_of definitions.now))) }
{
    let gathered = gather(alloc, schema, table, definitions)?;
    let known = FragmentUses::of(alloc, definitions, gathered)?;
    Ok(known)
}

/// The variables that the spreads in fragments give.
fn gather<'p, 'a>(
    alloc: Global,
    schema: &'p Schema,
    table: &Fragments<'p>,
    definitions: &[DefinitionAt<'a>],
) -> Result<UsesByName<'p, 'a>, NoMemory>
    ensures { (fs : List parts.FragmentAt) → Suits table.now fs
        → IfOk result (λ g. Gathers g (uses_among (uses_in_fragment schema.now fs) (fragments (map definition_of definitions.now)))) }
{
    let mut gathered = UsesByName::new(alloc);
    'definitions: for definition in definitions {
        put_definition(alloc, schema, table, &mut gathered, definition)?;
    }
    Ok(gathered)
}

/// Puts a fragment with the variables that its spreads give.
fn put_definition<'p, 'a>(
    alloc: Global,
    schema: &'p Schema,
    table: &Fragments<'p>,
    gathered: &mut UsesByName<'p, 'a>,
    definition: &DefinitionAt<'a>,
) -> Result<(), NoMemory>
    ensures { (fs : List parts.FragmentAt) → Suits table.now fs → (tells : Text → List rules.Use) → Gathers gathered.old tells
        → OnOk result (Gathers gathered.new (λ n. tells n ++ named_in (uses_in_fragment schema.now fs) (definition_of definition.now) n)) }
{
    match definition {
        DefinitionAt::Operation(_) => Ok(()),
        DefinitionAt::Fragment(fragment) => {
            let uses = uses_in_spreads(alloc, schema, table, &fragment.sites)?;
            gathered.put(alloc, fragment, &uses)
        }
    }
}
