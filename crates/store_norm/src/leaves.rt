//! Leaves of a response.
ghost use Rattle.std.specs.Prelude.{◌≡◌, [], ◌∷◌, ◌++◌, IfOk, OnOk};
ghost use Rattle.serde_json.specs.View.{view};
ghost use Rattle.plan_ir.specs.store_model.Events.{plain_of_data};
ghost use Rattle.plan_ir.specs.store_model.Says.{leaf_of};
ghost use Rattle.plan_ir.specs.store_model.declared.payload_fault.PathStep.TheVariants.{Key};
ghost use Rattle.store_report.specs.Gathering.{gathered_onto};

use plan_ir::{Cause, Field, NoMemory, Plain, PlainFault, plain_of};
use serde_json::Value;
use std::alloc::Global;
use store_report::{Gathered, Path, Step};

/// The value of a leaf under a response key of an object at a path, null with the fault NotWhole where
/// one of its numbers is not whole.
#[tactic(auto, using(crate::proofs::Reports::gathering))]
pub(crate) fn leaf<'r>(
    alloc: Global,
    value: &Value,
    path: &Path<'r>,
    response: &'r str,
    gathered: &mut Gathered<'r>,
) -> Result<Field, NoMemory>
    ensures field { IfOk result (λ field. field ≡ (leaf_of (plain_of_data (view value.now)) (path.now ++ Key response.now ∷ [])).0) }
    ensures said { OnOk result (gathered.new ≡ gathered_onto gathered.old (leaf_of (plain_of_data (view value.now)) (path.now ++ Key response.now ∷ [])).1) }
{
    match plain_of(alloc, value) {
        Ok(plain) => Ok(Field::Leaf(plain)),
        Err(PlainFault::NotWhole) => {
            let path = path.with(alloc, Step::Key(response))?;
            gathered.fault(&path, Cause::NotWhole)?;
            Ok(Field::Leaf(Plain::Null))
        }
        Err(PlainFault::NoMemory) => Err(NoMemory),
    }
}
