//! Reading a record by a plan.
ghost use Rattle.std.specs.Prelude.{◌≡◌, ◌+◌, ◌≤◌, IfOk};
ghost use Rattle.plan_ir.specs.ReaderMeaning.{plan_reads};
ghost use Rattle.plan_ir.specs.store_model.Walks.{reading, standings, type_of_record};
ghost use Rattle.store_read.specs.Reading.{reading_of, slots};

use crate::cache::Cache;
use crate::field::PartAt;
use crate::members::or_null;
use crate::met::Met;
use crate::snapshot::Snapshot;
use crate::store::Store;
use crate::walk::read_record;
use plan_ir::{Env, Id, Ids, NoMemory, ReaderPlan, Words};
use std::alloc::Global;
use store_source::RecordSource;

/// What a plan shows of the record at an id, which may be of these object types; for its pointers the
/// name of their owner is given. A record is looked up once each time that the walk stands at it, and
/// what the plan asks of the elements of a list is made once for each of their types.
pub fn read<S: RecordSource>(
    alloc: Global,
    source: &S,
    plan: &ReaderPlan,
    types: &Ids,
    env: &Env,
    id: &Id,
    owner: &Words,
    steps: &mut S::Count,
) -> Result<Snapshot, NoMemory>
    ensures read { IfOk result (λ snapshot. reading_of snapshot ≡ reading (plan_reads (type_of_record env.now.root) owner.now (slots (S.records source.now)) env.now.values plan.now.steps types.now id.now)) }
    ensures looks { S.Count.looks steps.new ≤ S.Count.looks steps.old + standings (plan_reads (type_of_record env.now.root) owner.now (slots (S.records source.now)) env.now.values plan.now.steps types.now id.now) }
    ensures applies { S.Count.applies steps.new ≡ S.Count.applies steps.old }
{
    let levels = plan.steps.levels();
    let store = Store {
        source,
        root: env.root.as_str(),
        owner,
    };
    let mut parts = Vec::with_capacity(alloc, 1)?;
    parts.push(PartAt::new(env, plan))?;
    let mut cache = Cache::new(alloc, parts, levels);
    let mut met = Met::new(alloc);
    let shown = read_record(alloc, &store, &mut cache, types, id, &mut met, steps)?;
    met.snapshot(or_null(shown))
}
