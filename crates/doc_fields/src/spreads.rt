//! The fragments that apply to a root type, with those that they spread there (GraphQL, October
//! 2021, section 5.2.3.1).
ghost use Rattle.std.specs.Prelude.{◌≡◌, map, ◌++◌, List, IfOk, OnOk};
ghost use Rattle.doc_sites.specs.schema_types.FieldRules as rules;
ghost use Rattle.doc_sites.specs.gql_graph.Graphs.{Holds, Tells};
ghost use Rattle.doc_sites.specs.schema_types.NameRules as names;
ghost use Rattle.doc_sites.specs.gql_graph.Texts.{Text};
ghost use Rattle.doc_sites.specs.SitesView.{definition_of, fragment_of};
ghost use Rattle.doc_sites.specs.Definitions.{on_fragment};
ghost use Rattle.doc_fields.specs.Fragments.{leading, spreads_in, spreads_of};
ghost use Rattle.doc_fields.specs.Heads.{IsOf};
ghost use Rattle.doc_fields.specs.Keys.{spreads_at};

use crate::below::{KeysBelow, keys_below};
use crate::heads::{Heads, heads_of_each};
use crate::keys::takes_root;
use doc_sites::graph::Graph;
use doc_sites::{
    DefinitionAt, FragmentAt, NoMemory, Schema, Selection, Selections, count_fragments,
};
use std::alloc::Global;

/// The fragments that apply to the root type.
#[derive(Drop)]
pub(crate) struct RootFragments<'a> {
    /// Each with the fragments that it spreads there.
    pub(crate) spreads: Graph<'a>,
    /// Their keys there.
    pub(crate) heads: Heads<'a>,
    /// The number of all fragments.
    pub(crate) count: usize,
    /// Their keys there, with those of the fragments that they lead to.
    pub(crate) below: KeysBelow<'a>,
}

/// The fragments among these definitions that apply to the root type.
pub(crate) fn root_fragments<'a>(
    alloc: Global,
    schema: &Schema,
    root: &str,
    definitions: &[DefinitionAt<'a>],
) -> Result<RootFragments<'a>, NoMemory>
    ensures { IfOk result (λ found. IsOf schema.now root.now (names.fragments (map definition_of definitions.now)) found) }
{
    let spreads = spreads_of_each(alloc, schema, root, definitions)?;
    let heads = heads_of_each(alloc, schema, root, definitions)?;
    let count = count_fragments(alloc, definitions)?;
    let below = keys_below(alloc, &spreads, &heads, definitions, count)?;
    Ok(RootFragments {
        spreads,
        heads,
        count,
        below,
    })
}

/// Puts the fragments that are spread in a set, and in its inline fragments that apply to the root
/// type.
#[cycle(spreads)]
pub(crate) fn put_spreads<'a>(
    schema: &Schema,
    root: &str,
    spreads: &mut Vec<&'a str>,
    selections: &'a Selections,
) -> Result<(), NoMemory>
    ensures { OnOk result (map (λ n. n.now) spreads.new.items ≡ map (λ n. n.now) spreads.old.items ++ rules.spreads_at_root schema.now root.now selections.now) }
{
    'selections: for selection in selections.as_slice() {
        put_spreads_of(schema, root, spreads, selection)?;
    }
    Ok(())
}

/// Puts the fragments that a selection spreads.
#[cycle(spreads)]
fn put_spreads_of<'a>(
    schema: &Schema,
    root: &str,
    spreads: &mut Vec<&'a str>,
    selection: &'a Selection,
) -> Result<(), NoMemory>
    ensures { OnOk result (map (λ n. n.now) spreads.new.items ≡ map (λ n. n.now) spreads.old.items ++ spreads_at schema.now root.now selection.now) }
{
    match selection {
        Selection::Field { .. } => Ok(()),
        Selection::Spread { name, .. } => {
            spreads.push(name.as_str())?;
            Ok(())
        }
        Selection::Inline { on, selections, .. } => {
            if !takes_root(schema, root, on) {
                return Ok(());
            }
            put_spreads(schema, root, spreads, selections)
        }
    }
}

/// Each fragment with those that it spreads, where it applies to the root type.
fn spreads_of_each<'a>(
    alloc: Global,
    schema: &Schema,
    root: &str,
    definitions: &[DefinitionAt<'a>],
) -> Result<Graph<'a>, NoMemory>
    ensures { IfOk result (λ graph. Tells graph (spreads_of schema.now root.now (names.fragments (map definition_of definitions.now)))) }
{
    let mut graph = Graph::new(alloc);
    'definitions: for definition in definitions {
        put_spreads_at(alloc, schema, root, &mut graph, definition)?;
    }
    Ok(graph)
}

/// Puts a definition that is a fragment with those that it spreads.
fn put_spreads_at<'a>(
    alloc: Global,
    schema: &Schema,
    root: &str,
    graph: &mut Graph<'a>,
    definition: &DefinitionAt<'a>,
) -> Result<(), NoMemory>
    ensures { (pairs : List (Text × List Text)) → Holds graph.old pairs
        → OnOk result (Holds graph.new (pairs ++ on_fragment (leading (spreads_in schema.now root.now)) (definition_of definition.now))) }
{
    match definition {
        DefinitionAt::Operation(_) => Ok(()),
        DefinitionAt::Fragment(fragment) => {
            put_spreads_below(alloc, schema, root, graph, fragment)
        }
    }
}

/// Puts a fragment with those that it spreads, where it applies to the root type.
fn put_spreads_below<'a>(
    alloc: Global,
    schema: &Schema,
    root: &str,
    graph: &mut Graph<'a>,
    fragment: &FragmentAt<'a>,
) -> Result<(), NoMemory>
    ensures { (pairs : List (Text × List Text)) → Holds graph.old pairs
        → OnOk result (Holds graph.new (pairs ++ leading (spreads_in schema.now root.now) (fragment_of fragment.now))) }
{
    let spreads = spreads_below(alloc, schema, root, fragment)?;
    graph.put(fragment.name.name, spreads)
}

/// The fragments that a fragment spreads, where it applies to the root type.
fn spreads_below<'a>(
    alloc: Global,
    schema: &Schema,
    root: &str,
    fragment: &FragmentAt<'a>,
) -> Result<Vec<&'a str>, NoMemory>
    ensures { IfOk result (λ ns. map (λ n. n.now) ns.items ≡ spreads_in schema.now root.now (fragment_of fragment.now)) }
{
    let mut spreads = Vec::new(alloc);
    if !schema.applies(root, fragment.on.name) {
        return Ok(spreads);
    }
    put_spreads(schema, root, &mut spreads, fragment.selections)?;
    Ok(spreads)
}
