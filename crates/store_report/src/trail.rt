//! Where in a response a walk stands.
ghost use Rattle.std.specs.Prelude.{◌≡◌, [], ◌∷◌, ◌++◌, IfOk};
ghost use Rattle.store_report.specs.Steps.{step_of};

use crate::path::{Path, Step};
use gql_order::gql_plain::NoMemory;
use std::alloc::Global;
use std::marker::Model;

/// The steps from a response to the value at which a walk stands, seen as a list. Each step is kept by
/// the call that takes it, so a trail takes no memory; where a path is to be kept, it is made of it.
#[cycle(trail)]
#[derive(Drop)]
pub struct Trail<'t, 'r> {
    last: Last<'t, 'r>,
}

/// The last step of a trail, behind those before it.
#[cycle(trail)]
#[derive(Drop)]
enum Last<'t, 'r> {
    None,
    Some(&'t Trail<'t, 'r>, Step<'r>),
}

impl<'t, 'r> Model for Trail<'t, 'r> {
    ghost use Rattle.std.specs.Prelude.{List, length};
    ghost use Rattle.std.specs.Coded.{coded_list};
    ghost use Rattle.store_model.specs.declared.payload_fault.PathStep.{PathStep};
    ghost use Rattle.store_model.specs.contracts.payload_fault.PathStep as step;

    ghost Value = { List PathStep };

    ghost coded = { coded_list step.the_row.coded };

    ghost use Rattle.store_report.specs.Trails.{steps_of};

    ghost view = { λ t. steps_of t.last };

    ghost size = { length };

    ghost use Rattle.std.proofs.Common.{arith, length-append};

    ghost size_decreases = { λ a h. Prim.grind (arith, length-append) };
}

impl<'t, 'r> Trail<'t, 'r> {
    /// The trail to the response itself.
    pub fn new() -> Trail<'t, 'r>
        ensures { result ≡ [] }
    {
        Trail { last: Last::None }
    }

    /// The trail with one more step.
    pub fn with(&'t self, step: Step<'r>) -> Trail<'t, 'r>
        ensures { result ≡ self.now ++ step_of step.entry ∷ [] }
    {
        Trail {
            last: Last::Some(self, step),
        }
    }

    /// The path of the steps.
    #[cycle(path)]
    pub fn path(&self, alloc: Global) -> Result<Path<'r>, NoMemory>
        ensures { IfOk result (λ path. path ≡ self.now) }
    {
        match &self.last {
            Last::None => Ok(Path::new()),
            Last::Some(before, step) => before.path(alloc)?.with(alloc, *step),
        }
    }
}
