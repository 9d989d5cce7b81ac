//! Lists of edges.
ghost use Rattle.std.specs.Prelude.{◌≡◌, ◌+◌, ◌≤◌, ◌∷◌, ◌++◌, [], Option, Some, IfOk, OnOk};
ghost use Rattle.store_model.specs.store_record.Keys.{Text};
ghost use Rattle.store_model.specs.Merge as merge;
ghost use Rattle.store_model.specs.Updates as updates;
ghost use Rattle.store_conn.specs.Lists.{ids_in};
ghost use Rattle.store_conn.specs.Nodes.{knows, and_all_wanted, and_edge, and_edges, and_nodes, edges_but, unknown_edges};

use crate::look::{edge_at, node_at, node_of};
use crate::nodes::Nodes;
use std::alloc::Global;
use store_model::gql_plain::{Id, NoMemory, OptIds, Words};
use store_model::store_record::Shared;
use store_source::RecordSource;

/// The live records of a list of edges, in their order. They are shared.
pub(crate) fn live_edges<S: RecordSource>(
    alloc: Global,
    source: &S,
    edges: &[Option<Words>],
    steps: &mut S::Count,
) -> Result<Vec<Shared>, NoMemory>
    ensures edges { IfOk result (λ live. live.items ≡ merge.live_edges (S.records source.now) edges.now) }
    ensures looks { S.Count.looks steps.new ≤ S.Count.looks steps.old + ids_in edges.now }
    ensures applies { S.Count.applies steps.new ≡ S.Count.applies steps.old }
{
    let mut live = Vec::new(alloc);
    'edges: for edge in edges {
        push_live(source, edge, &mut live, steps)?;
    }
    Ok(live)
}

/// Puts the record of an edge of a list to the end of others, where it is live; takes at most one
/// look.
fn push_live<S: RecordSource>(
    source: &S,
    edge: &Option<Words>,
    live: &mut Vec<Shared>,
    steps: &mut S::Count,
) -> Result<(), NoMemory>
    ensures edges { OnOk result (live.new.items ≡ live.old.items ++ merge.live_edges (S.records source.now) (edge.now ∷ [])) }
    ensures looks { S.Count.looks steps.new ≤ S.Count.looks steps.old + ids_in (edge.now ∷ []) }
    ensures applies { S.Count.applies steps.new ≡ S.Count.applies steps.old }
{
    match edge_at(source, edge, steps) {
        Some(row) => {
            live.push(row.copy()?)?;
            Ok(())
        }
        None => Ok(()),
    }
}

/// Puts the nodes of edges into a set.
pub(crate) fn note_nodes<'a>(edges: &'a [Shared], nodes: &mut Nodes<'a>) -> Result<(), NoMemory>
    ensures { OnOk result (knows nodes.new.ids ≡ and_nodes (merge.nodes_of edges.now) (knows nodes.old.ids)) }
{
    'edges: for edge in edges {
        let node = node_of(edge.get());
        nodes.insert(node)?;
    }
    Ok(())
}

/// Puts those nodes of a list of edges into a set that another set has. All others take no memory.
pub(crate) fn note_wanted<'a, S: RecordSource>(
    source: &'a S,
    edges: &[Option<Words>],
    wanted: &Nodes<'_>,
    nodes: &mut Nodes<'a>,
    steps: &mut S::Count,
) -> Result<(), NoMemory>
    ensures nodes { OnOk result (knows nodes.new.ids ≡ and_all_wanted (knows wanted.now.ids) (merge.nodes_at (S.records source.now) edges.now) (knows nodes.old.ids)) }
    ensures looks { S.Count.looks steps.new ≤ S.Count.looks steps.old + ids_in edges.now }
    ensures applies { S.Count.applies steps.new ≡ S.Count.applies steps.old }
{
    'edges: for edge in edges {
        let node = node_at(source, edge, steps);
        nodes.insert_wanted(node, wanted)?;
    }
    Ok(())
}

/// The edges whose node is not in a set, and none of those before it. They are shared, and their nodes
/// join the set.
pub(crate) fn new_edges<'a>(
    alloc: Global,
    edges: &'a [Shared],
    nodes: &mut Nodes<'a>,
) -> Result<Vec<Shared>, NoMemory>
    ensures edges { IfOk result (λ new. new.items ≡ unknown_edges (knows nodes.old.ids) edges.now) }
    ensures nodes { OnOk result (knows nodes.new.ids ≡ and_edges edges.now (knows nodes.old.ids)) }
{
    let mut new = Vec::new(alloc);
    'edges: for edge in edges {
        push_new(edge, nodes, &mut new)?;
    }
    Ok(new)
}

/// Puts an edge to the end of others, and its node into a set, unless the node is there.
fn push_new<'a>(
    edge: &'a Shared,
    nodes: &mut Nodes<'a>,
    new: &mut Vec<Shared>,
) -> Result<(), NoMemory>
    ensures edges { OnOk result (new.new.items ≡ new.old.items ++ unknown_edges (knows nodes.old.ids) (edge.now ∷ [])) }
    ensures nodes { (node : Option Text) → OnOk result (knows nodes.new.ids node ≡ and_edge edge.now (knows nodes.old.ids) node) }
{
    let node = node_of(edge.get());
    if nodes.contains(node) {
        return Ok(());
    }
    new.push(edge.copy()?)?;
    nodes.insert(node)?;
    Ok(())
}

/// Puts edges to the end of a list, but those of a node in the set.
pub(crate) fn push_edges_but<S: RecordSource>(
    source: &S,
    edges: &[Option<Words>],
    nodes: &Nodes<'_>,
    list: &mut OptIds,
    steps: &mut S::Count,
) -> Result<(), NoMemory>
    ensures list { OnOk result (list.new ≡ list.old ++ edges_but (knows nodes.now.ids) (S.records source.now) edges.now) }
    ensures looks { S.Count.looks steps.new ≤ S.Count.looks steps.old + ids_in edges.now }
    ensures applies { S.Count.applies steps.new ≡ S.Count.applies steps.old }
{
    'edges: for edge in edges {
        push_other(source, edge, nodes, list, steps)?;
    }
    Ok(())
}

/// Puts an edge to the end of a list, unless its node is in the set; takes at most one look.
fn push_other<S: RecordSource>(
    source: &S,
    edge: &Option<Words>,
    nodes: &Nodes<'_>,
    list: &mut OptIds,
    steps: &mut S::Count,
) -> Result<(), NoMemory>
    ensures list { OnOk result (list.new ≡ list.old ++ edges_but (knows nodes.now.ids) (S.records source.now) (edge.now ∷ [])) }
    ensures looks { S.Count.looks steps.new ≤ S.Count.looks steps.old + ids_in (edge.now ∷ []) }
    ensures applies { S.Count.applies steps.new ≡ S.Count.applies steps.old }
{
    let node = node_at(source, edge, steps);
    if nodes.contains(node) {
        return Ok(());
    }
    push_edge(list, edge)
}

/// Puts an edge of a list to the end of another list.
fn push_edge(list: &mut OptIds, edge: &Option<Words>) -> Result<(), NoMemory>
    ensures { OnOk result (list.new ≡ list.old ++ edge.now ∷ []) }
{
    match edge {
        Some(id) => list.push(Some(id.copy()?)),
        None => list.push(None),
    }
}

/// Puts edges to the end of a list.
pub(crate) fn push_edges(list: &mut OptIds, edges: &[Option<Words>]) -> Result<(), NoMemory>
    ensures { OnOk result (list.new ≡ list.old ++ edges.now) }
{
    'edges: for edge in edges {
        push_edge(list, edge)?;
    }
    Ok(())
}

/// The edges of a list, but those of a node.
pub(crate) fn edges_without<S: RecordSource>(
    alloc: Global,
    source: &S,
    edges: &[Option<Words>],
    node: &Id,
    steps: &mut S::Count,
) -> Result<OptIds, NoMemory>
    ensures list { IfOk result (λ list. list ≡ updates.edges_without (S.records source.now) node.now edges.now) }
    ensures looks { S.Count.looks steps.new ≤ S.Count.looks steps.old + ids_in edges.now }
    ensures applies { S.Count.applies steps.new ≡ S.Count.applies steps.old }
{
    let mut list = OptIds::new(alloc);
    'edges: for edge in edges {
        push_without(source, edge, node, &mut list, steps)?;
    }
    Ok(list)
}

/// Puts an edge to the end of a list, unless it has that node; takes at most one look.
fn push_without<S: RecordSource>(
    source: &S,
    edge: &Option<Words>,
    node: &Id,
    list: &mut OptIds,
    steps: &mut S::Count,
) -> Result<(), NoMemory>
    ensures list { OnOk result (list.new ≡ list.old ++ updates.edges_without (S.records source.now) node.now (edge.now ∷ [])) }
    ensures looks { S.Count.looks steps.new ≤ S.Count.looks steps.old + ids_in (edge.now ∷ []) }
    ensures applies { S.Count.applies steps.new ≡ S.Count.applies steps.old }
{
    let is_out = has_node(source, edge, node, steps);
    if is_out {
        return Ok(());
    }
    push_edge(list, edge)
}

/// Whether an edge of a list is live and has that node; takes at most one look and no memory.
fn has_node<S: RecordSource>(
    source: &S,
    edge: &Option<Words>,
    node: &Id,
    steps: &mut S::Count,
) -> bool
    ensures answer { result ≡ merge.is_among (merge.node_at (S.records source.now) edge.now ∷ []) (Some node.now) }
    ensures looks { S.Count.looks steps.new ≤ S.Count.looks steps.old + ids_in (edge.now ∷ []) }
    ensures applies { S.Count.applies steps.new ≡ S.Count.applies steps.old }
{
    match node_at(source, edge, steps) {
        Some(other) => other == node,
        None => false,
    }
}

/// Whether an edge of a list is live and has that node, for any of the list; takes no memory.
pub(crate) fn any_has_node<S: RecordSource>(
    source: &S,
    edges: &[Option<Words>],
    node: &Id,
    steps: &mut S::Count,
) -> bool
    ensures answer { result ≡ merge.is_among (merge.nodes_at (S.records source.now) edges.now) (Some node.now) }
    ensures looks { S.Count.looks steps.new ≤ S.Count.looks steps.old + ids_in edges.now }
    ensures applies { S.Count.applies steps.new ≡ S.Count.applies steps.old }
{
    'edges: for edge in edges {
        if has_node(source, edge, node, steps) {
            return true;
        }
    }
    false
}
