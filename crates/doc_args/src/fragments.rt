//! The variables that are used in the fragments.
ghost use Rattle.std.specs.Prelude.{◌++◌, List, map, IfOk, OnOk};
ghost use Rattle.doc_uses.specs.schema_types.ArgumentRules as rules;
ghost use Rattle.doc_uses.specs.schema_types.NameRules.{fragments};
ghost use Rattle.gql_graph.specs.Texts.{Text};
ghost use Rattle.doc_uses.specs.doc_sites.SitesView.{definition_of};
ghost use Rattle.doc_uses.specs.FragmentUses.{Describes};
ghost use Rattle.doc_uses.specs.UsesByName.{Gathers, named_in, uses_among};
ghost use Rattle.doc_args.specs.UsesIn.{uses_in_fragment};

use crate::uses::uses_of;
use doc_uses::{DefinitionAt, FragmentUses, Schema, UsesByName};
use gql_graph::gql_plain::NoMemory;
use std::alloc::Global;

/// What is known of the variables that are used in the fragments among definitions.
pub(crate) fn fragment_uses<'a>(
    alloc: Global,
    schema: &'a Schema,
    definitions: &[DefinitionAt<'a>],
) -> Result<FragmentUses<'a, 'a>, NoMemory>
    ensures { IfOk result (λ known. Describes known (uses_in_fragment schema.now) (fragments (map definition_of definitions.now))) }
{
    let gathered = gather(alloc, schema, definitions)?;
    let known = FragmentUses::of(alloc, definitions, gathered)?;
    Ok(known)
}

/// The variables that are used in the fragments.
fn gather<'a>(
    alloc: Global,
    schema: &'a Schema,
    definitions: &[DefinitionAt<'a>],
) -> Result<UsesByName<'a, 'a>, NoMemory>
    ensures { IfOk result (λ g. Gathers g (uses_among (uses_in_fragment schema.now) (fragments (map definition_of definitions.now)))) }
{
    let mut gathered = UsesByName::new(alloc);
    'definitions: for definition in definitions {
        put_definition(alloc, schema, &mut gathered, definition)?;
    }
    Ok(gathered)
}

/// Puts a fragment with the variables that are used in it.
fn put_definition<'a>(
    alloc: Global,
    schema: &'a Schema,
    gathered: &mut UsesByName<'a, 'a>,
    definition: &DefinitionAt<'a>,
) -> Result<(), NoMemory>
    ensures { (tells : Text → List rules.Use) → Gathers gathered.old tells
        → OnOk result (Gathers gathered.new (λ n. tells n ++ named_in (uses_in_fragment schema.now) (definition_of definition.now) n)) }
{
    match definition {
        DefinitionAt::Operation(_) => Ok(()),
        DefinitionAt::Fragment(fragment) => {
            let uses = uses_of(alloc, schema, &fragment.directives, &fragment.sites)?;
            gathered.put(alloc, fragment, &uses)
        }
    }
}
