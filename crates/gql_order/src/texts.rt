//! Lists of borrowed texts that are put in order.
ghost use Rattle.std.specs.Prelude.{IfOk, map};
ghost use Rattle.gql_plain.specs.Order.{AreSortedOf};

use crate::heads::ordered_by_heads;
use gql_plain::NoMemory;

/// The distinct texts of a list, in byte order. Many are put in the order of eight bytes first, and looked at
/// again only where two of those are equal. n texts take about n * log n steps.
pub fn sorted_texts<'p>(texts: Vec<&'p str>) -> Result<Vec<&'p str>, NoMemory>
    ensures { IfOk result (λ sorted. AreSortedOf (map (λ t. t.now) texts.entry.items) (map (λ t. t.now) sorted.items)) }
{
    let moved = ordered_by_heads(texts, |text| *text)?;
    let mut texts = moved.items;
    if moved.is_rising {
        return Ok(texts);
    }
    texts.sort_by(|one, other| one.cmp(other))?;
    texts.dedup_by(|next, kept| *next == *kept);
    Ok(texts)
}
