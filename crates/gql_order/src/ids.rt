//! Lists of texts that are put in order.
ghost use Rattle.std.specs.Prelude.{IfOk};
ghost use Rattle.gql_plain.specs.Order.{AreSortedOf};

use crate::heads::ordered_by_heads;
use gql_plain::{Ids, NoMemory, Words};

/// The distinct texts of a list, in byte order. Many are put in the order of eight bytes first, and looked at
/// again only where two of those are equal. n texts take about n * log n steps.
pub fn sorted_ids(words: Vec<Words>) -> Result<Ids, NoMemory>
    ensures { IfOk result (AreSortedOf words.items) }
{
    let moved = ordered_by_heads(words, |word| word.as_str())?;
    if moved.is_rising {
        return Ids::in_order(moved.items);
    }
    Ids::sort(moved.items)
}
