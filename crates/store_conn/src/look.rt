//! Looking into records, and from one to another.
ghost use Rattle.std.specs.Prelude.{◌≡◌, ◌+◌, ◌≤◌, ◌∷◌, [], option_map, option_and_then};
ghost use Rattle.std.specs.Option.{option_copied};
ghost use Rattle.store_model.specs.Merge as merge;
ghost use Rattle.store_model.specs.Records.{live, field_at};
ghost use Rattle.store_conn.specs.Lists.{ids_in};

use store_model::gql_plain::{Id, Plain, Words};
use store_model::store_record::{Field, Record, Shared, Slot};
use store_source::RecordSource;

/// The live record of an id; takes one look and no memory.
pub(crate) fn live<'a, S: RecordSource>(
    source: &'a S,
    id: &str,
    steps: &mut S::Count,
) -> Option<&'a Shared>
    ensures found { option_copied result ≡ live id.now (S.records source.now) }
    ensures looks { S.Count.looks steps.new ≤ S.Count.looks steps.old + 1 }
    ensures applies { S.Count.applies steps.new ≡ S.Count.applies steps.old }
{
    match source.get(id, steps) {
        Some(Slot::Alive(row)) => Some(row),
        Some(Slot::Deleted) => None,
        None => None,
    }
}

/// The id that a record links to under a key; takes no memory.
pub(crate) fn link_under<'a>(row: &'a Record, key: &str) -> Option<&'a Id>
    ensures { option_copied result ≡ merge.link_under key.now row.now }
{
    match row.fields.get(key) {
        Some(Field::Link(id)) => Some(id),
        Some(Field::Leaf(_)) => None,
        Some(Field::Links(_)) => None,
        None => None,
    }
}

/// The value under a key; takes no memory.
pub(crate) fn leaf_under<'a>(row: &'a Record, key: &str) -> Option<&'a Plain>
    ensures { option_copied result ≡ option_and_then merge.leaf_of (field_at key.now row.now) }
{
    match row.fields.get(key) {
        Some(Field::Leaf(value)) => Some(value),
        Some(Field::Link(_)) => None,
        Some(Field::Links(_)) => None,
        None => None,
    }
}

/// The ids and nulls of the list of a connection, none where there is no list; takes no memory.
pub(crate) fn edges_of(row: &Record) -> &[Option<Words>]
    ensures { result.now ≡ merge.edges_of row.now }
{
    match row.fields.get("edges") {
        Some(Field::Links(ids)) => ids.as_slice(),
        Some(Field::Leaf(_)) => &[],
        Some(Field::Link(_)) => &[],
        None => &[],
    }
}

/// The live record to which a record links under a key; takes at most one look and no memory.
pub(crate) fn below<'a, S: RecordSource>(
    source: &'a S,
    row: &Record,
    key: &str,
    steps: &mut S::Count,
) -> Option<&'a Shared>
    ensures found { option_copied result ≡ option_map (λ p. p.1) (merge.below key.now row.now (S.records source.now)) }
    ensures looks { S.Count.looks steps.new ≤ S.Count.looks steps.old + 1 }
    ensures applies { S.Count.applies steps.new ≡ S.Count.applies steps.old }
{
    match link_under(row, key) {
        Some(id) => live(source, id.as_str(), steps),
        None => None,
    }
}

/// The node of an edge; takes no memory.
pub(crate) fn node_of(edge: &Record) -> Option<&Id>
    ensures { option_copied result ≡ merge.node_of edge.now }
{
    link_under(edge, "node")
}

/// The record of an edge of a list, where it is live; takes at most one look and no memory.
pub(crate) fn edge_at<'a, S: RecordSource>(
    source: &'a S,
    edge: &Option<Words>,
    steps: &mut S::Count,
) -> Option<&'a Shared>
    ensures found { option_copied result ≡ option_and_then (λ id. live id (S.records source.now)) edge.now }
    ensures looks { S.Count.looks steps.new ≤ S.Count.looks steps.old + ids_in (edge.now ∷ []) }
    ensures applies { S.Count.applies steps.new ≡ S.Count.applies steps.old }
{
    match edge {
        Some(id) => live(source, id.as_str(), steps),
        None => None,
    }
}

/// The node of an edge of a list, where the edge is live; takes at most one look and no memory.
pub(crate) fn node_at<'a, S: RecordSource>(
    source: &'a S,
    edge: &Option<Words>,
    steps: &mut S::Count,
) -> Option<&'a Id>
    ensures node { option_copied result ≡ merge.node_at (S.records source.now) edge.now }
    ensures looks { S.Count.looks steps.new ≤ S.Count.looks steps.old + ids_in (edge.now ∷ []) }
    ensures applies { S.Count.applies steps.new ≡ S.Count.applies steps.old }
{
    match edge_at(source, edge, steps) {
        Some(row) => node_of(row.get()),
        None => None,
    }
}
