//! Pages of connections in their order.
ghost use Rattle.std.specs.Prelude.{◌≡◌, IfOk};
ghost use Rattle.std.specs.Ordering.{ordering_then};
ghost use Rattle.store_model.specs.FactOrder.{handle_cmp, text_cmp};
ghost use Rattle.store_model.specs.Verdicts as verdicts;
ghost use Rattle.store_report.specs.PagePlaces.{is_same_page};

use gql_order::gql_plain::NoMemory;
use std::cmp::Ordering;
use store_model::{HandleFact, HandleFacts};

/// The pages in order of parent, handle key and field key, the first of each place.
pub(crate) fn in_order(mut pages: Vec<HandleFact>) -> Result<HandleFacts, NoMemory>
    ensures { IfOk result (λ handles. handles ≡ verdicts.in_order handle_cmp pages.items) }
{
    pages.sort_by(|one, other| compare(one, other))?;
    pages.dedup_by(|next, kept| is_same(next, kept));
    Ok(HandleFacts { items: pages })
}

/// The order of pages by parent, handle key and field key.
fn compare(one: &HandleFact, other: &HandleFact) -> Ordering
    ensures { result ≡ handle_cmp one.now other.now }
{
    match one.parent.cmp(&other.parent) {
        Ordering::Equal => compare_keys(one, other),
        unequal => unequal,
    }
}

/// The order of pages of one parent, by handle key and field key.
fn compare_keys(one: &HandleFact, other: &HandleFact) -> Ordering
    ensures { result ≡ ordering_then (text_cmp one.now.handle_key other.now.handle_key) (text_cmp one.now.field_key other.now.field_key) }
{
    match one.handle_key.cmp(&other.handle_key) {
        Ordering::Equal => one.field_key.cmp(&other.field_key),
        unequal => unequal,
    }
}

/// Whether two pages are of one place.
fn is_same(one: &HandleFact, other: &HandleFact) -> bool
    ensures { result ≡ is_same_page one.now other.now }
{
    compare(one, other).is_eq()
}
