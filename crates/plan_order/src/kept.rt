//! Plans that read, each beside the same plan in order.
ghost use Rattle.std.specs.Prelude.{◌≡◌, Some, IfOk, is_some};
ghost use Rattle.std.specs.Option.{option_copied};
ghost use Rattle.plan_ir.specs.declared.reader.ReaderPlan.{ReaderPlan as Plan};
ghost use Rattle.plan_order.specs.Alike.{ReadAlike};
ghost use Rattle.plan_order.specs.HasOrder.{is_orderable};
ghost use Rattle.plan_order.specs.Ordered.{IsOrdered};

use crate::ordering::ordered;
use plan_ir::{NoMemory, ReaderPlan};
use std::alloc::Global;
use std::marker::Model;

/// A plan that reads, with the same plan in order where it can be put in order. It is seen as the plan.
#[derive(Debug, Drop)]
pub struct KeptReader {
    plan: ReaderPlan,
    ordered: Option<ReaderPlan>,
}

impl Model for KeptReader {
    ghost use Rattle.plan_ir.specs.contracts.reader.ReaderPlan as plan_row;
    ghost use Rattle.plan_ir.specs.declared.reader.ReaderPlan.{ReaderPlan as Plan};

    ghost Value = { Plan };

    ghost coded = { plan_row.the_row.coded };

    ghost view = { λ k. k.plan };

    ghost use Rattle.plan_order.specs.Kept.{IsOrderOf};

    ghost invariant = { λ k. IsOrderOf k.plan.steps k.ordered };
}

impl KeptReader {
    /// The plan, beside the same in order.
    pub fn new(alloc: Global, plan: ReaderPlan) -> Result<KeptReader, NoMemory>
        ensures { IfOk result (λ kept. kept ≡ plan) }
    {
        let ordered = ordered(alloc, &plan)?;
        Ok(KeptReader { plan, ordered })
    }

    /// The plan; takes no memory.
    pub fn plan(&self) -> &ReaderPlan
        ensures { result.now ≡ self.now }
    {
        &self.plan
    }

    /// The plan in order, by which every record reads alike; None where it cannot be put in order. Takes
    /// no memory.
    pub fn ordered(&self) -> Option<&ReaderPlan>
        ensures order { (s : Plan) → option_copied result ≡ Some s → IsOrdered s.steps × ReadAlike self.now.steps s.steps }
        ensures found { is_some result ≡ is_orderable self.now.steps }
    {
        self.ordered.as_ref()
    }
}
