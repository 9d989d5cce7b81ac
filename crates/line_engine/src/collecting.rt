//! The event that sweeps.
ghost use Rattle.std.specs.Prelude.{◌≡◌, ◌+◌, ◌≤◌, ◌||◌, ◌++◌, length, IfOk, OnOk};
ghost use Rattle.std.specs.List.{AllByRecursion};
ghost use Rattle.plan_ir.specs.gql_plain.Order.{has_text};
ghost use Rattle.plan_ir.specs.store_model.Entries.{all_named};
ghost use Rattle.plan_ir.specs.store_model.Leads.{leads as led_by};
ghost use Rattle.plan_ir.specs.store_model.Said.{HaveHandleKeys};
ghost use Rattle.plan_ir.specs.store_record.Keys.{Text};
ghost use Rattle.line_engine.specs.Spares.{Spares};
ghost use Rattle.line_engine.specs.Steps.{HasStepped};
ghost use Rattle.relay_machine.specs.Machine as machine;
ghost use Rattle.store_layers.specs.Layered.{entries_of};
ghost use Rattle.store_retain.specs.Kept.{all_held, is_kept};
ghost use Rattle.store_retain.specs.Steps.{slots_of};

use crate::answers::collected;
use crate::engine::LineEngine;
use crate::lines::Lines;
use plan_ir::{Id, Ids, NoMemory};
use std::alloc::Global;
use store_layers::Layers;
use store_retain::{RecordSource, Retained, leads};

impl<S: RecordSource> LineEngine<S> {
    /// Takes the records out of the base that no retained operation reaches, and no live layer leads to.
    pub(crate) fn collect(&mut self, n: u64, steps: &mut S::Count) -> Result<Lines, NoMemory>
        ensures step { IfOk result (λ lines. HasStepped self.old self.new lines (λ p s. machine.noticed p n (length s.watches) (machine.step_collect p self.old.buffer s n))) }
        ensures spares { Spares self.old self.new result }
        ensures keys { IfOk result (λ lines. AllByRecursion (λ e. HaveHandleKeys e.facts.handles) (entries_of self.old.layers.live)) }
        ensures applies { S.Count.applies steps.new ≤ S.Count.applies steps.old + length self.old.layers.live }
    {
        let keep = held(self.alloc, &self.retained, &self.layers, steps)?;
        let draft = self.layers.draft_sweep(&keep, steps)?;
        let answer = collected(self.alloc, draft.touched.len() as u64, n)?;
        self.change(draft, answer, n, steps)
    }
}

/// The ids that a sweep has to keep: those that the retained operations reach in the base, and those
/// that the entries of the live layers lead to there. Where no layer is live nothing is looked up for
/// the latter.
fn held<S: RecordSource>(
    alloc: Global,
    retained: &Retained,
    layers: &Layers<S>,
    steps: &mut S::Count,
) -> Result<Ids, NoMemory>
    ensures ids { (j : Text) → IfOk result (λ ids. has_text ids j ≡ (is_kept (slots_of layers.now.base) (all_held retained.now) j || has_text (led_by layers.now.base (all_named (entries_of layers.now.live))) j)) }
    ensures applies { S.Count.applies steps.new ≡ S.Count.applies steps.old }
{
    let base = layers.base();
    let reached = retained.mark(base, steps)?;
    let named = layers.named()?;
    let led = leads(alloc, base, &named, steps)?;
    let ids = joined(alloc, reached, led)?;
    Ok(ids)
}

/// The ids of both lists, in byte order; where the one has none, it is the other.
fn joined(alloc: Global, some: Ids, more: Ids) -> Result<Ids, NoMemory>
    ensures { (j : Text) → IfOk result (λ ids. has_text ids j ≡ (has_text some j || has_text more j)) }
{
    if more.is_empty() {
        return Ok(some);
    }
    if some.is_empty() {
        return Ok(more);
    }
    let mut words = Vec::new(alloc);
    put_ids(some.as_slice(), &mut words)?;
    put_ids(more.as_slice(), &mut words)?;
    let ids = Ids::sort(words)?;
    Ok(ids)
}

/// Puts ids at the end.
fn put_ids(more: &[Id], ids: &mut Vec<Id>) -> Result<(), NoMemory>
    ensures { OnOk result (ids.new.items ≡ ids.old.items ++ more.now) }
{
    'more: for id in more {
        ids.push(id.copy()?)?;
    }
    Ok(())
}
