//! Reading a record by a plan that is in order, straight into a text.
ghost use Rattle.std.specs.Prelude.{◌≡◌, ◌+◌, ◌≤◌, ◌++◌, map, IfOk};
ghost use Rattle.plan_ir.specs.gql_plain.ToJson.{tree_tokens};
ghost use Rattle.plan_ir.specs.ReaderMeaning.{plan_reads};
ghost use Rattle.plan_order.specs.Ordered.{IsOrdered};
ghost use Rattle.plan_ir.specs.store_model.Walks.{reading, standings, type_of_record};
ghost use Rattle.store_read.specs.Reading.{slots};

use crate::lead::Lead;
use crate::showing::show_record;
use crate::standings::Standings;
use json::Writer;
use plan_ir::{Env, Id, Ids, NoMemory, ReaderPlan, Words};
use std::alloc::Global;
use store_read::field::PartAt;
use store_read::store::Store;
use store_read::{RecordSource, sorted_texts};

/// What a read met whose data is written.
#[derive(Drop)]
pub struct Seen<'p> {
    /// Whether something that the plan asks for was missing.
    pub missing: bool,
    /// The ids that the read stood at, each once, in byte order.
    pub ids: Vec<&'p str>,
}

/// Writes what a plan that is in order shows of the record at an id, which may be of these object types;
/// null where it is missing. For its pointers the name of their owner is given. A record is looked up once
/// each time that the walk stands at it.
pub fn show<'p, S: RecordSource>(
    alloc: Global,
    source: &'p S,
    plan: &'p ReaderPlan,
    types: &Ids,
    env: &'p Env,
    id: &'p Id,
    owner: &'p Words,
    out: &mut Writer,
    steps: &mut S::Count,
) -> Result<Seen<'p>, NoMemory>
    requires { IsOrdered plan.now.steps }
    ensures shown { IfOk result (λ _. out.new.tokens ≡ out.old.tokens ++ tree_tokens (reading (plan_reads (type_of_record env.now.root) owner.now (slots (S.records source.now)) env.now.values plan.now.steps types.now id.now)).value) }
    ensures before { out.new.before ≡ out.old.before }
    ensures missing { IfOk result (λ met. met.missing ≡ (reading (plan_reads (type_of_record env.now.root) owner.now (slots (S.records source.now)) env.now.values plan.now.steps types.now id.now)).missing) }
    ensures seen { IfOk result (λ met. map (λ id. id.now) met.ids.items ≡ (reading (plan_reads (type_of_record env.now.root) owner.now (slots (S.records source.now)) env.now.values plan.now.steps types.now id.now)).seen) }
    ensures looks { S.Count.looks steps.new ≤ S.Count.looks steps.old + standings (plan_reads (type_of_record env.now.root) owner.now (slots (S.records source.now)) env.now.values plan.now.steps types.now id.now) }
    ensures applies { S.Count.applies steps.new ≡ S.Count.applies steps.old }
{
    let levels = plan.steps.levels();
    let store = Store {
        source,
        root: env.root.as_str(),
        owner,
    };
    let mut met = Standings::new(alloc);
    show_record(
        alloc,
        &store,
        levels,
        PartAt::new(env, plan),
        types,
        id.as_str(),
        Lead::Alone,
        &mut met,
        out,
        steps,
    )?;
    let Standings { missing, seen } = met;
    Ok(Seen {
        missing,
        ids: sorted_texts(seen)?,
    })
}
