//! Tests of the persistent tree, over what store_tree offers.
ghost use Rattle.std.specs.Prelude.{◌≡◌};
ghost use Rattle.store_tree.specs.KeyOrder.{digest_of};

use std::alloc::Global;
use std::rc::Rc;
use std::test::Fail;
use store_tree::Tree;
use store_tree::gql_plain::{Counts, NoMemory, Words};

/// The most entries that a leaf of a tree has.
const MOST: u64 = 31;

const FACTOR: u64 = 11_400_714_819_323_198_485;

/// The number of bytes at the end of a key that stand in its digest as they are.
const LAST: usize = 4;

/// The number by which a tree orders a key first.
#[tactic(auto, unfolding(store_tree::specs::KeyOrder::digest_of))]
fn digest(key: &str) -> u64
    ensures { result ≡ digest_of key.now }
{
    let bytes = key.as_bytes();
    let (front, last) = bytes.split_at(bytes.len().saturating_sub(LAST));
    let mut digest: u64 = 0;
    'front: for byte in front {
        digest = digest.wrapping_add(u64::from(*byte)).wrapping_mul(FACTOR);
    }
    'last: for byte in last {
        digest = digest.wrapping_mul(256).wrapping_add(u64::from(*byte));
    }
    digest
}

/// A text that stands among such texts where the number stands among those below 100,000.
fn key_of(alloc: Global, number: u64) -> Result<Words, NoMemory> {
    Ok(Words::from_string(format!(in alloc; "client:node:{number:05}")?))
}

/// The tree with a value at a key, by `put` or else by `insert`.
fn with_value(
    alloc: Global,
    tree: Tree<u64>,
    in_place: bool,
    key: Words,
    value: u64,
    steps: &mut Counts,
) -> Result<Tree<u64>, NoMemory> {
    let value = Rc::new(alloc, value)?;
    if in_place {
        return tree.put(alloc, key, value, steps);
    }
    tree.insert(alloc, key, value, steps)
}

/// The tree with a number put in at its key.
fn with_number(
    alloc: Global,
    tree: Tree<u64>,
    in_place: bool,
    number: u64,
    steps: &mut Counts,
) -> Result<Tree<u64>, NoMemory> {
    let key = key_of(alloc, number)?;
    with_value(alloc, tree, in_place, key, number, steps)
}

fn without_number(alloc: Global, tree: &Tree<u64>, number: u64) -> Result<Tree<u64>, NoMemory> {
    let key = key_of(alloc, number)?;
    tree.remove(alloc, key.as_str(), &mut Counts::new())
}

/// Whether the key is that of the number, and the tree has the number there.
fn stands_at(alloc: Global, tree: &Tree<u64>, key: &Words, number: u64) -> Result<bool, NoMemory> {
    let wanted = key_of(alloc, number)?;
    let found = tree.get(wanted.as_str()).copied();
    Ok(key.as_str() == wanted.as_str() && found == Some(number))
}

/// Whether the tree holds exactly the numbers from the first bound up to below the second one, each
/// at its key.
fn agrees(alloc: Global, tree: &Tree<u64>, from: u64, to: u64) -> Result<bool, NoMemory> {
    let keys = tree.keys(alloc)?;
    let mut number = from;
    for key in keys.as_slice() {
        if !stands_at(alloc, tree, key, number)? {
            return Ok(false);
        }
        number = number.wrapping_add(1);
    }
    Ok(number == to && tree.len() == to.wrapping_sub(from))
}

/// The tree with each number below the count put in at its key, each so far from the one before.
fn fill(
    alloc: Global,
    tree: Tree<u64>,
    in_place: bool,
    count: u64,
    step: u64,
) -> Result<Tree<u64>, NoMemory> {
    let mut steps = Counts::new();
    let mut tree = tree;
    for place in 0..count {
        let number = place.wrapping_mul(step) % count.max(1);
        tree = with_number(alloc, tree, in_place, number, &mut steps)?;
    }
    Ok(tree)
}

/// The tree with each number below the count taken out, each so far from the one before.
fn drain(alloc: Global, tree: Tree<u64>, count: u64, step: u64) -> Result<Tree<u64>, NoMemory> {
    let mut tree = tree;
    for place in 0..count {
        let number = place.wrapping_mul(step) % count.max(1);
        tree = without_number(alloc, &tree, number)?;
    }
    Ok(tree)
}

/// Whether a tree of the numbers below the count is what it is to be when the first third is taken
/// out, and then each number, there or not.
fn drains(alloc: Global, tree: Tree<u64>, count: u64, step: u64) -> Result<bool, NoMemory> {
    let third = count / 3;
    let rest = drain(alloc, tree, third, 7)?;
    if !agrees(alloc, &rest, third, count)? {
        return Ok(false);
    }
    let none = drain(alloc, rest, count, step)?;
    agrees(alloc, &none, 0, 0)
}

/// Whether a tree is what it is to be when the numbers below the count are put in, put in once more,
/// and taken out.
fn fills(alloc: Global, in_place: bool, count: u64, step: u64) -> Result<bool, NoMemory> {
    let tree = fill(alloc, Tree::new(), in_place, count, step)?;
    if !agrees(alloc, &tree, 0, count)? {
        return Ok(false);
    }
    let tree = fill(alloc, tree, in_place, count, 1)?;
    if !agrees(alloc, &tree, 0, count)? {
        return Ok(false);
    }
    drains(alloc, tree, count, step)
}

#[test]
fn trees_agree_with_sorted_lists(rt: HostRuntime) -> Result<(), Fail> {
    let alloc = rt.alloc();
    // Ascending, descending, mixed, few, one and none.
    for (count, step) in [(600, 1), (500, 499), (1_000, 319), (8, 3), (1, 1), (0, 1)] {
        assert!(rt; fills(alloc, false, count, step)?, "inserts: {count}");
        assert!(rt; fills(alloc, true, count, step)?, "puts: {count}");
    }
    Ok(())
}

/// The tree of the numbers below the count, put in one by one by `insert` and `put` in turn. Each
/// version before a tenth one is kept.
fn grow(alloc: Global, count: u64, versions: &mut Vec<Tree<u64>>) -> Result<Tree<u64>, NoMemory> {
    let mut steps = Counts::new();
    let mut tree = Tree::new();
    for number in 0..count {
        if number % 10 == 0 {
            versions.push(tree.version()?)?;
        }
        tree = with_number(alloc, tree, number % 2 == 1, number, &mut steps)?;
    }
    Ok(tree)
}

/// Takes the numbers below the count out one by one. Each version before a tenth one is kept.
fn shrink(
    alloc: Global,
    tree: Tree<u64>,
    count: u64,
    versions: &mut Vec<Tree<u64>>,
) -> Result<(), NoMemory> {
    let mut tree = tree;
    for number in 0..count {
        if number % 10 == 0 {
            versions.push(tree.version()?)?;
        }
        tree = without_number(alloc, &tree, number)?;
    }
    Ok(())
}

/// Whether each version has what it had when it was kept.
fn all_agree(alloc: Global, versions: &[Tree<u64>], count: u64) -> Result<bool, NoMemory> {
    let mut at: u64 = 0;
    for version in versions {
        if !agrees(alloc, version, at.saturating_sub(count), at.min(count))? {
            return Ok(false);
        }
        at = at.wrapping_add(10);
    }
    Ok(at == 2u64.wrapping_mul(count))
}

#[test]
fn old_versions_stay(rt: HostRuntime) -> Result<(), Fail> {
    let alloc = rt.alloc();
    let mut versions = Vec::new(alloc);
    let tree = grow(alloc, 500, &mut versions)?;
    shrink(alloc, tree, 500, &mut versions)?;
    assert!(rt; all_agree(alloc, versions.as_slice(), 500)?);
    Ok(())
}

/// The tree with a value at the key.
fn with_key(
    alloc: Global,
    tree: Tree<u64>,
    in_place: bool,
    key: &str,
    value: u64,
    steps: &mut Counts,
) -> Result<Tree<u64>, NoMemory> {
    let key = Words::new(alloc, key)?;
    with_value(alloc, tree, in_place, key, value, steps)
}

/// Whether the tree has so many keys, and the value at `a`.
fn holds(tree: &Tree<u64>, len: u64, found: Option<u64>) -> bool {
    tree.len() == len && tree.get("a").copied() == found
}

/// Whether the tree without the key has so many keys, and the value at `a`.
fn rest_holds(
    alloc: Global,
    tree: &Tree<u64>,
    key: &str,
    len: u64,
    found: Option<u64>,
) -> Result<bool, NoMemory> {
    let rest = tree.remove(alloc, key, &mut Counts::new())?;
    Ok(holds(&rest, len, found))
}

#[test]
fn a_value_is_replaced(rt: HostRuntime) -> Result<(), Fail> {
    let alloc = rt.alloc();
    let none = Tree::new();
    assert!(rt; holds(&none, 0, None));
    assert!(rt; rest_holds(alloc, &none, "a", 0, None)?);
    let one = with_key(alloc, none, false, "a", 1, &mut Counts::new())?;
    assert!(rt; holds(&one, 1, Some(1)));
    let two = with_key(alloc, one, false, "a", 2, &mut Counts::new())?;
    assert!(rt; holds(&two, 1, Some(2)));
    assert!(rt; rest_holds(alloc, &two, "a", 0, None)?);
    assert!(rt; rest_holds(alloc, &two, "b", 1, Some(2))?);
    Ok(())
}

/// The tree of the numbers below the count, but for the last one to come.
fn fill_but(alloc: Global, count: u64, last: u64) -> Result<Tree<u64>, NoMemory> {
    let mut steps = Counts::new();
    let mut tree = Tree::new();
    for place in 1..count {
        let number = last.wrapping_add(place) % count.max(1);
        tree = with_number(alloc, tree, true, number, &mut steps)?;
    }
    Ok(tree)
}

/// Whether a full leaf is parted when the last number comes, and so many leaves and nodes are made.
fn parts(alloc: Global, in_place: bool, last: u64, nodes: u64) -> Result<bool, NoMemory> {
    let count = MOST + 1;
    let full = fill_but(alloc, count, last)?;
    if full.len() != MOST {
        return Ok(false);
    }
    let mut steps = Counts::new();
    let tree = with_number(alloc, full, in_place, last, &mut steps)?;
    if steps.nodes != nodes {
        return Ok(false);
    }
    agrees(alloc, &tree, 0, count)
}

#[test]
fn a_full_leaf_is_parted_at_each_place(rt: HostRuntime) -> Result<(), Fail> {
    let alloc = rt.alloc();
    // Each number is the last one once, so that it comes to each place of the full leaf.
    for last in 0..MOST + 1 {
        // A later leaf, and a node over both.
        assert!(rt; parts(alloc, true, last, 2)?, "put {last}");
        // A copy of the leaf too.
        assert!(rt; parts(alloc, false, last, 3)?, "insert {last}");
    }
    Ok(())
}

/// A version of the numbers below 100, and a later one into which those below 120 are put.
fn two_versions(alloc: Global) -> Result<(Tree<u64>, Tree<u64>), NoMemory> {
    let tree = fill(alloc, Tree::new(), true, 100, 37)?;
    let older = tree.version()?;
    let later = fill(alloc, tree, true, 120, 1)?;
    Ok((older, later))
}

#[test]
fn puts_leave_other_versions(rt: HostRuntime) -> Result<(), Fail> {
    let alloc = rt.alloc();
    let (older, later) = two_versions(alloc)?;
    assert!(rt; agrees(alloc, &later, 0, 120)?);
    let key = "client:node:00007";
    let later = with_key(alloc, later, true, key, 0, &mut Counts::new())?;
    assert!(rt; later.get(key).copied() == Some(0));
    assert!(rt; agrees(alloc, &older, 0, 100)?);
    Ok(())
}

#[test]
fn puts_make_no_node_where_no_version_holds_it(rt: HostRuntime) -> Result<(), Fail> {
    let alloc = rt.alloc();
    let mut steps = Counts::new();
    let one = with_key(alloc, Tree::new(), true, "a", 1, &mut steps)?;
    let two = with_key(alloc, one.version()?, true, "a", 2, &mut steps)?;
    assert!(rt; steps.nodes == 2);
    let two = with_key(alloc, two, true, "a", 3, &mut steps)?;
    assert!(rt; steps.nodes == 2);
    assert!(rt; holds(&one, 1, Some(1)));
    assert!(rt; holds(&two, 1, Some(3)));
    Ok(())
}

/// Two texts of 1,028 bytes that have one digest: each is `a` or `b`, ten times followed by the
/// other one, and the same four bytes.
fn twins(alloc: Global) -> Result<(String, String), NoMemory> {
    let mut one = String::from_str(alloc, "a")?;
    let mut other = String::from_str(alloc, "b")?;
    for _ in 0..10 {
        let before = one.clone()?;
        one.push_str(other.as_str())?;
        other.push_str(before.as_str())?;
    }
    one.push_str("last")?;
    other.push_str("last")?;
    Ok((one, other))
}

/// A tree with 2 at the second key, 1 at the first, and 0 at the empty one.
fn twin_tree(alloc: Global, in_place: bool, one: &str, other: &str) -> Result<Tree<u64>, NoMemory> {
    let mut steps = Counts::new();
    let tree = with_key(alloc, Tree::new(), in_place, other, 2, &mut steps)?;
    let tree = with_key(alloc, tree, in_place, one, 1, &mut steps)?;
    with_key(alloc, tree, in_place, "", 0, &mut steps)
}

/// Whether the tree has 0, 1 and 2 at its keys in byte order.
fn values_rise(alloc: Global, tree: &Tree<u64>) -> Result<bool, NoMemory> {
    let keys = tree.keys(alloc)?;
    let mut value: u64 = 0;
    for key in keys.as_slice() {
        if tree.get(key.as_str()).copied() != Some(value) {
            return Ok(false);
        }
        value = value.wrapping_add(1);
    }
    Ok(value == 3)
}

/// Whether the tree has 2 at the second key, and the value at the first.
fn has_second(tree: &Tree<u64>, one: &str, found: Option<u64>, other: &str) -> bool {
    tree.get(one).copied() == found && tree.get(other).copied() == Some(2)
}

/// Whether two keys of one digest are two keys, and one of them is taken out alone.
fn stay_apart(alloc: Global, in_place: bool, one: &str, other: &str) -> Result<bool, NoMemory> {
    let tree = twin_tree(alloc, in_place, one, other)?;
    if !values_rise(alloc, &tree)? || !has_second(&tree, one, Some(1), other) {
        return Ok(false);
    }
    let rest = tree.remove(alloc, one, &mut Counts::new())?;
    Ok(has_second(&rest, one, None, other))
}

#[test]
fn keys_of_one_digest_stay_apart(rt: HostRuntime) -> Result<(), Fail> {
    let alloc = rt.alloc();
    let (one, other) = twins(alloc)?;
    let (one, other) = (one.as_str(), other.as_str());
    assert!(rt; digest(one) == digest(other));
    assert!(rt; stay_apart(alloc, false, one, other)?);
    assert!(rt; stay_apart(alloc, true, one, other)?);
    Ok(())
}
