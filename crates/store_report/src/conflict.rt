//! Two values of one field of one record.
ghost use Rattle.std.specs.Prelude.{◌≡◌, cond, map, option_copied, option_map, None, Some, IfOk};
ghost use Rattle.std.specs.List.Sorted.{IsSorted};
ghost use Rattle.store_model.specs.Verdicts as verdicts;
ghost use Rattle.store_report.specs.Gathering.{lesser_some};
ghost use Rattle.store_report.specs.SaidFacts as said_facts;

use crate::said::SaidFact;
use gql_order::gql_plain::NoMemory;
use std::alloc::Global;
use store_model::store_record::Field;
use store_model::{Cause, PayloadFault};

/// The conflict of facts that are in order of id and key: at the first place with two values, the one
/// at the least path, and of those that differ from it again the one at the least path.
pub(crate) fn conflict(
    alloc: Global,
    facts: &[SaidFact<'_>],
) -> Result<Option<PayloadFault>, NoMemory>
    requires { IsSorted said_facts.place_cmp facts.now }
    ensures { IfOk result (λ found. found ≡ verdicts.first_conflict (verdicts.seats (map said_facts.put_of facts.now))) }
{
    let Some(clash) = first_clash(facts) else {
        return Ok(None);
    };
    let Some(first) = least(alloc, facts, clash, None)? else {
        unreachable!()
    };
    let Some(second) = least(alloc, facts, clash, Some(&first.value))? else {
        unreachable!()
    };
    Ok(Some(conflict_of(alloc, first, second)?))
}

/// The fault that two facts of one place with two values are.
fn conflict_of(
    alloc: Global,
    first: &SaidFact<'_>,
    second: &SaidFact<'_>,
) -> Result<PayloadFault, NoMemory>
    ensures { IfOk result (λ fault. fault ≡ verdicts.conflict_of (said_facts.put_of first.now) (said_facts.put_of second.now)) }
{
    let path = second.path_of(alloc)?.steps(alloc)?;
    let id = first.id.as_words().copy()?;
    let key = first.key.as_words().copy()?;
    let value = first.value.copy()?;
    let other = second.value.copy()?;
    let cause = Cause::Conflict {
        id,
        key,
        first: value,
        second: other,
    };
    Ok(PayloadFault { path, cause })
}

/// The first fact with another value than the one before it, which is of its place.
fn first_clash<'f, 'r>(facts: &'f [SaidFact<'r>]) -> Option<&'f SaidFact<'r>>
    ensures { option_map said_facts.put_of (option_copied result) ≡ said_facts.clash_from None (map said_facts.put_of facts.now) }
{
    let mut before: Option<&SaidFact<'r>> = None;
    'facts: for fact in facts {
        if clashes(before, fact) {
            return Some(fact);
        }
        before = Some(fact);
    }
    None
}

/// Whether a fact has another value than one before it, which is of its place.
fn clashes(before: Option<&SaidFact<'_>>, fact: &SaidFact<'_>) -> bool
    ensures { result ≡ said_facts.clashes (option_map said_facts.put_of (option_copied before.entry)) (said_facts.put_of fact.now) }
{
    match before {
        Some(before) => before.is_beside(fact) && fact.value != before.value,
        None => false,
    }
}

/// The fact at the least path, of those of a place whose value differs from the one that is given.
fn least<'f, 'r>(
    alloc: Global,
    facts: &'f [SaidFact<'r>],
    place: &SaidFact<'_>,
    unlike: Option<&Field>,
) -> Result<Option<&'f SaidFact<'r>>, NoMemory>
    ensures { IfOk result (λ best. option_map said_facts.put_of (option_copied best)
        ≡ verdicts.least verdicts.put_cmp (verdicts.where_so (said_facts.is_candidate (said_facts.put_of place.now) (option_copied unlike.entry)) (map said_facts.put_of facts.now))) }
{
    let mut best: Option<&SaidFact<'r>> = None;
    'facts: for fact in facts {
        best = better(alloc, best, fact, place, unlike)?;
    }
    Ok(best)
}

/// The one of two facts that is at the lesser path, the first of two that tie, where the second one is
/// of a place and its value differs from the one that is given.
fn better<'f, 'r>(
    alloc: Global,
    best: Option<&'f SaidFact<'r>>,
    fact: &'f SaidFact<'r>,
    place: &SaidFact<'_>,
    unlike: Option<&Field>,
) -> Result<Option<&'f SaidFact<'r>>, NoMemory>
    ensures { IfOk result (λ next. option_map said_facts.put_of (option_copied next)
        ≡ cond (said_facts.is_candidate (said_facts.put_of place.now) (option_copied unlike.entry) (said_facts.put_of fact.now))
        (lesser_some verdicts.put_cmp (option_map said_facts.put_of (option_copied best.entry)) (Some (said_facts.put_of fact.now)))
        (option_map said_facts.put_of (option_copied best.entry))) }
{
    if !is_candidate(place, unlike, fact) {
        return Ok(best);
    }
    match best {
        Some(found) => {
            if fact.is_before(alloc, found)? {
                Ok(Some(fact))
            } else {
                Ok(Some(found))
            }
        }
        None => Ok(Some(fact)),
    }
}

/// Whether a fact is of a place, and its value differs from the one that is given.
fn is_candidate(place: &SaidFact<'_>, unlike: Option<&Field>, fact: &SaidFact<'_>) -> bool
    ensures { result ≡ said_facts.is_candidate (said_facts.put_of place.now) (option_copied unlike.entry) (said_facts.put_of fact.now) }
{
    place.is_beside(fact) && is_unlike(unlike, fact)
}

/// Whether the value of a fact differs from the one that is given.
fn is_unlike(unlike: Option<&Field>, fact: &SaidFact<'_>) -> bool
    ensures { result ≡ said_facts.is_unlike (option_copied unlike.entry) (said_facts.put_of fact.now) }
{
    match unlike {
        Some(value) => fact.value != *value,
        None => true,
    }
}
