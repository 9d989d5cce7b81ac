//! What a response is taken for.
ghost use Rattle.std.specs.Prelude.{◌≡◌, map, IfOk, IfErr};
ghost use Rattle.std.specs.List.{dedup};
ghost use Rattle.std.specs.List.Sorted.{IsSorted};
ghost use Rattle.store_model.specs.FactOrder.{handle_cmp};
ghost use Rattle.store_model.specs.Said.{HaveHandleKeys};
ghost use Rattle.store_model.specs.Verdicts as verdicts;
ghost use Rattle.store_report.specs.Gathering.{AreNamed, verdict_of};
ghost use Rattle.store_report.specs.Refusals.{IsRefusedBy};
ghost use Rattle.store_report.specs.SaidFacts.{fact_of, fault_of, is_same_fact, place_cmp, put_of};

use crate::conflict::conflict;
use crate::fault::NormFault;
use crate::gathered::Gathered;
use crate::order::sorted;
use crate::pages::in_order;
use crate::rows::rows_of;
use crate::said::{SaidFact, SaidFault};
use gql_order::gql_plain::NoMemory;
use std::alloc::Global;
use store_model::{Facts, HandleFact};

impl Gathered<'_> {
    /// What was gathered of a response, as facts: each fact and page once, in order. Err: the least
    /// fault; where there is none, the first conflict, in order of id and key.
    pub fn verdict(self, alloc: Global) -> Result<Facts, NormFault>
        requires named { AreNamed self.puts }
        requires keys { HaveHandleKeys self.pages }
        ensures content { IfOk result (λ facts. verdict_of self.entry ≡ verdicts.content facts) }
        ensures fault { IfErr result (IsRefusedBy (verdict_of self.entry)) }
    {
        let Gathered {
            facts,
            pages,
            fault,
            type_key: _type_key,
        } = self;
        if let Some(fault) = fault {
            return Err(refusal(alloc, fault));
        }
        let Ok(facts) = sorted(facts) else {
            return Err(NormFault::NoMemory);
        };
        let Ok(found) = conflict(alloc, &facts) else {
            return Err(NormFault::NoMemory);
        };
        if let Some(fault) = found {
            return Err(NormFault::Payload(fault));
        }
        match taken(alloc, facts, pages) {
            Ok(facts) => Ok(facts),
            Err(_) => Err(NormFault::NoMemory),
        }
    }
}

/// The refusal that a fault is.
fn refusal(alloc: Global, fault: SaidFault<'_>) -> NormFault
    ensures { IsRefusedBy (verdicts.refusal (fault_of fault.entry)) result }
{
    match fault.into_owned(alloc) {
        Ok(fault) => NormFault::Payload(fault),
        Err(_) => NormFault::NoMemory,
    }
}

/// Facts that are in order of id and key, one of each place, and pages.
fn taken(
    alloc: Global,
    mut facts: Vec<SaidFact<'_>>,
    pages: Vec<HandleFact>,
) -> Result<Facts, NoMemory>
    requires order { IsSorted place_cmp facts.items }
    requires named { AreNamed (map put_of (dedup is_same_fact facts.items)) }
    requires keys { HaveHandleKeys pages.items }
    ensures { IfOk result (λ taken. taken ≡ record { facts = map fact_of (dedup is_same_fact facts.entry.items); handles = verdicts.in_order handle_cmp pages.items }) }
{
    facts.dedup_by(|next, kept| next.is_beside(kept));
    let facts = rows_of(alloc, facts)?;
    let handles = in_order(pages)?;
    Ok(Facts { facts, handles })
}
