//! What is known of the uses in fragments: what each fragment spreads, the variables that are used in
//! it, and what all that it reaches needs of an operation.
ghost use Rattle.std.specs.Prelude.{◌≡◌, ◌++◌, List, map, IfOk, OnOk};
ghost use Rattle.doc_sites.specs.schema_types.ArgumentRules as rules;
ghost use Rattle.doc_sites.specs.schema_types.NameRules.{fragments};
ghost use Rattle.doc_sites.specs.schema_types.Sites as spec;
ghost use Rattle.doc_sites.specs.gql_graph.Rules.{each};
ghost use Rattle.doc_sites.specs.SitesView.{definition_of};
ghost use Rattle.doc_uses.specs.FragmentUses.{Describes};
ghost use Rattle.doc_uses.specs.Parts.{fragment_name};
ghost use Rattle.doc_uses.specs.UsesByName.{Gathers, uses_among};

use crate::needs::Needs;
use crate::uses_by_name::UsesByName;
use doc_sites::graph::Graph;
use doc_sites::{DefinitionAt, NoMemory, spread_graph};
use std::alloc::Global;

/// What is known of the uses in fragments.
#[derive(Drop)]
pub struct FragmentUses<'p, 'a> {
    /// What each fragment spreads.
    pub(crate) graph: Graph<'a>,
    /// How many there are.
    pub(crate) count: usize,
    /// The variables that are used in each, without its local ones.
    pub(crate) gathered: UsesByName<'p, 'a>,
    /// What each needs of the operations that reach it.
    pub(crate) needs: Needs<'p, 'a>,
}

impl<'p, 'a> FragmentUses<'p, 'a> {
    /// Sums up what the fragments among definitions need, whose uses are gathered.
    ///
    /// # Errors
    ///
    /// `NoMemory`.
    pub fn of(
        alloc: Global,
        definitions: &[DefinitionAt<'a>],
        gathered: UsesByName<'p, 'a>,
    ) -> Result<FragmentUses<'p, 'a>, NoMemory>
        ensures { (uses : spec.FragmentAt → List rules.Use) → Gathers gathered.entry (uses_among uses (fragments (map definition_of definitions.now)))
            → IfOk result (λ known. Describes known uses (fragments (map definition_of definitions.now))) }
    {
        let names = fragment_names(alloc, definitions)?;
        let graph = spread_graph(alloc, definitions)?;
        let needs = Needs::of(alloc, &graph, &gathered, &names)?;
        Ok(FragmentUses {
            graph,
            count: names.len(),
            gathered,
            needs,
        })
    }
}

/// The names of the fragments.
fn fragment_names<'a>(
    alloc: Global,
    definitions: &[DefinitionAt<'a>],
) -> Result<Vec<&'a str>, NoMemory>
    ensures { IfOk result (λ ns. map (λ n. n.now) ns.items ≡ each fragment_name (map definition_of definitions.now)) }
{
    let mut names = Vec::new(alloc);
    'definitions: for definition in definitions {
        put_name(&mut names, definition)?;
    }
    Ok(names)
}

/// Puts the name of a fragment.
fn put_name<'a>(names: &mut Vec<&'a str>, definition: &DefinitionAt<'a>) -> Result<(), NoMemory>
    ensures { OnOk result (map (λ n. n.now) names.new.items ≡ map (λ n. n.now) names.old.items ++ fragment_name (definition_of definition.now)) }
{
    match definition {
        DefinitionAt::Operation(_) => Ok(()),
        DefinitionAt::Fragment(fragment) => {
            names.push(fragment.name.name)?;
            Ok(())
        }
    }
}
