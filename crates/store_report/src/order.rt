//! Facts in order of id and key.
ghost use Rattle.std.specs.Prelude.{IfOk};
ghost use Rattle.std.specs.List.Sorted.{IsSorted, IsStable};
ghost use Rattle.store_report.specs.SaidFacts.{place_cmp};

use crate::said::SaidFact;
use gql_order::gql_plain::NoMemory;

/// The facts in order of id and key, those of one place in the order in which they were said.
pub(crate) fn sorted<'r>(mut facts: Vec<SaidFact<'r>>) -> Result<Vec<SaidFact<'r>>, NoMemory>
    ensures order { IfOk result (λ sorted. IsSorted place_cmp sorted.items) }
    ensures stable { IfOk result (λ sorted. IsStable place_cmp facts.entry.items sorted.items) }
{
    facts.sort_by(|one, other| one.compare(other))?;
    Ok(facts)
}
