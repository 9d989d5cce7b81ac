//! Numbers of marks.
ghost use Rattle.std.specs.Prelude.{◌≡◌, ℕ, List, [], ◌∷◌, not, nat_eq, IfOk, OnOk};
ghost use Rattle.std.specs.List.{list_any};
ghost use Rattle.image_text.specs.Images as images;
ghost use Rattle.image_rules.specs.Numbers.{Knows, has_number};

use image_text::gql_plain::NoMemory;
use std::alloc::Global;
use std::collections::BTreeSet;

/// A set of numbers.
#[derive(Drop)]
struct Numbers {
    numbers: BTreeSet<u64>,
}

impl Numbers {
    /// No number; takes no memory.
    fn new(alloc: Global) -> Numbers
        ensures { Knows result.numbers [] }
    {
        Numbers {
            numbers: BTreeSet::new(alloc),
        }
    }

    /// Puts a number, and says whether it is new.
    fn insert(&mut self, number: u64) -> Result<bool, NoMemory>
        ensures new_number { (before : List ℕ) → Knows self.old.numbers before → IfOk result (λ is_new. is_new ≡ not (has_number before number)) }
        ensures known { (before : List ℕ) → Knows self.old.numbers before → OnOk result (Knows self.new.numbers (number ∷ before)) }
    {
        let is_new = self.numbers.insert(number)?;
        Ok(is_new)
    }
}

/// Whether no number stands twice.
pub fn are_distinct(alloc: Global, numbers: &[u64]) -> Result<bool, NoMemory>
    ensures { IfOk result (λ yes. yes ≡ images.are_distinct numbers.now) }
{
    let mut seen = Numbers::new(alloc);
    let mut at = numbers.len();
    'numbers: while at > 0 {
        at -= 1;
        let is_new = seen.insert(numbers[at])?;
        if !is_new {
            return Ok(false);
        }
    }
    Ok(true)
}

/// Whether one of the numbers is this one; takes no memory.
pub fn has_number(numbers: &[u64], number: u64) -> bool
    ensures { result ≡ has_number numbers.now number }
{
    numbers.iter().any(|one| *one == number)
}
