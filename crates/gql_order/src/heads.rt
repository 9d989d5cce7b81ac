//! The first bytes of texts, as numbers.
ghost use Rattle.std.specs.List.Sorted.{IsPermutation};
ghost use Rattle.std.specs.Prelude.{◌≡◌, ◌∷◌, ℕ, List, true, IfOk, get_or, if◌then◌else◌, map};
ghost use Rattle.gql_order.specs.Heads.{IsHead, ReadsText};
ghost use Rattle.gql_order.specs.Ranks.{AllRanked, IsRank, RanksRise};
ghost use Rattle.std.specs.Cmp.Lexicographic.{slice_cmp};
ghost use Rattle.std.specs.Ordering.{is_lt, nat_cmp};
ghost use Rattle.gql_plain.specs.Order.{AreInOrder};

use gql_plain::NoMemory;
use std::alloc::Global;

/// The most items that are left as they stand.
const FEW: usize = 20;

/// One more than the number of those of which it is seen what their texts begin with.
const SAMPLES: usize = 9;

/// Items in the order of a few bytes of their texts.
#[derive(Drop)]
pub struct HeadOrder<T> {
    /// The items.
    pub items: Vec<T>,
    /// Whether it is known that each text stands after the one before it. It may be so where it is not known.
    pub is_rising: bool,
}

/// An item and its rank.
#[derive(Drop)]
struct Ranked<T> {
    /// Where its text stands, as far as a few bytes tell: eight bytes as one number. The first is 1 where the
    /// text begins with what texts mostly begin with, 0 where it stands before that, 2 behind. Then come the
    /// first seven bytes of the text, of the first kind those behind what texts mostly begin with.
    rank: u64,
    item: T,
}

/// The items in the order of seven bytes of their texts, behind those that texts mostly begin with, where
/// they are many: numbers are compared sooner than texts. A sort that follows finds nearly all in order. n
/// items take about n * log n steps, and memory for n numbers.
pub fn by_heads<T: Drop, F: Fn(&T) -> &str>(items: Vec<T>, text: F) -> Result<Vec<T>, NoMemory>
    requires { F.IsAlwaysCallable text }
    ensures { IfOk result (λ moved. IsPermutation items.items moved.items) }
{
    let moved = ordered_by_heads(items, text)?;
    Ok(moved.items)
}

/// The items in the order of `by_heads`, and whether that is known to be the byte order of their texts, each
/// once: where no two of these bytes are equal no text is read again. Of few items, which are left as
/// they stand, it is not known.
pub fn ordered_by_heads<T: Drop, F: Fn(&T) -> &str>(
    items: Vec<T>,
    text: F,
) -> Result<HeadOrder<T>, NoMemory>
    requires { F.IsAlwaysCallable text }
    ensures moved { IfOk result (λ moved. IsPermutation items.items moved.items.items) }
    ensures rising { IfOk result (λ moved. moved.is_rising ≡ true → (key : T → List ℕ) → ReadsText F.Fn key text → AreInOrder (map key moved.items.items)) }
{
    if items.len() <= FEW {
        return Ok(HeadOrder {
            items,
            is_rising: false,
        });
    }
    let start = start_of(*items.allocator(), &items, &text)?;
    let mut ranked = ranked_of(items, &text, &start)?;
    ranked.sort_by(|one, other| one.rank.cmp(&other.rank))?;
    let is_rising = do_rise(&ranked);
    Ok(HeadOrder {
        items: items_of(ranked)?,
        is_rising,
    })
}

/// The items, each with its rank.
fn ranked_of<T: Drop, F: Fn(&T) -> &str>(
    items: Vec<T>,
    text: &F,
    start: &[u8],
) -> Result<Vec<Ranked<T>>, NoMemory>
    requires { F.IsAlwaysCallable text.now }
    ensures same { IfOk result (λ ranked. map (λ r. r.item) ranked.items ≡ items.items) }
    ensures ranks { IfOk result (λ ranked. (key : T → List ℕ) → ReadsText F.Fn key text.now → AllRanked key start.now ranked.items) }
{
    let mut ranked = Vec::with_capacity(*items.allocator(), items.len())?;
    'items: for item in items {
        let rank = rank_of(text(&item), start);
        ranked.push(Ranked { rank, item })?;
    }
    Ok(ranked)
}

/// The items without their ranks.
fn items_of<T: Drop>(ranked: Vec<Ranked<T>>) -> Result<Vec<T>, NoMemory>
    ensures { IfOk result (λ items. items.items ≡ map (λ r. r.item) ranked.items) }
{
    let mut items = Vec::with_capacity(*ranked.allocator(), ranked.len())?;
    'ranked: for next in ranked {
        items.push(next.item)?;
    }
    Ok(items)
}

/// Whether each rank stands after the one before it; takes no memory.
fn do_rise<T>(ranked: &[Ranked<T>]) -> bool
    ensures { result ≡ true → RanksRise ranked.now }
{
    ranked.is_sorted_by(|one, other| one.rank < other.rank)
}

/// The rank of a text among those that mostly begin with some bytes; takes no memory.
fn rank_of(text: &str, start: &[u8]) -> u64
    ensures { IsRank start.now text.now result }
{
    let bytes = text.as_bytes();
    match bytes.strip_prefix(start) {
        Some(rest) => head_of(1, rest),
        None => head_of(side_of(bytes, start), bytes),
    }
}

/// 0 where bytes stand before others, else 2; takes no memory.
fn side_of(bytes: &[u8], start: &[u8]) -> u8
    ensures { result ≡ (if is_lt (slice_cmp nat_cmp bytes.now start.now) then 0 else 2) }
{
    if bytes.cmp(start).is_lt() {
        return 0;
    }
    2
}

/// A byte and the first seven of some bytes as one number, of which the first counts most, with zeros behind
/// the end; takes no memory.
fn head_of(first: u8, bytes: &[u8]) -> u64
    ensures { IsHead (first ∷ bytes.now) result }
{
    u64::from_be_bytes([
        first,
        byte_at(bytes, 0),
        byte_at(bytes, 1),
        byte_at(bytes, 2),
        byte_at(bytes, 3),
        byte_at(bytes, 4),
        byte_at(bytes, 5),
        byte_at(bytes, 6),
    ])
}

/// The byte at a place, and zero where there is none; takes no memory.
fn byte_at(bytes: &[u8], at: usize) -> u8
    ensures { result ≡ get_or bytes.now at 0 }
{
    match bytes.get(at) {
        Some(byte) => *byte,
        None => 0,
    }
}

/// What the texts of some items begin with, of those that stand evenly apart. The last item may be of
/// another kind, and is left out.
fn start_of<T, F: Fn(&T) -> &str>(alloc: Global, items: &[T], text: &F) -> Result<Vec<u8>, NoMemory>
    requires { F.IsAlwaysCallable text.now }
{
    let mut start = Vec::new(alloc);
    let step = items.len() / SAMPLES;
    let Some(first) = items.get(step) else {
        return Ok(start);
    };
    let first = text(first);
    let mut common = first.len();
    'samples: for sample in 2..SAMPLES {
        if let Some(item) = items.get(step.wrapping_mul(sample)) {
            common = common_to(first, text(item), common);
        }
    }
    if let Some(bytes) = first.as_bytes().get(..common) {
        start.extend_from_slice(bytes)?;
    }
    Ok(start)
}

/// How many first bytes two texts have in common, at most so many; takes no memory.
fn common_to(one: &str, other: &str, most: usize) -> usize {
    let one = one.as_bytes();
    let other = other.as_bytes();
    let end = most.min(one.len()).min(other.len());
    'bytes: for at in 0..end {
        if one[at] != other[at] {
            return at;
        }
    }
    end
}
