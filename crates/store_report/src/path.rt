//! Where in a response something is said.
ghost use Rattle.std.specs.Prelude.{◌≡◌, [], ◌∷◌, ◌++◌, length, IfOk};
ghost use Rattle.store_model.specs.Verdicts.{path_cmp, step_cmp};
ghost use Rattle.store_report.specs.Steps.{step_of};

use gql_order::gql_plain::{NoMemory, Words};
use std::alloc::Global;
use std::cmp::Ordering;
use std::marker::Model;
use std::rc::Rc;
use store_model::{PathStep, PathSteps};

/// One step from a response into it. A response key is the response's own text.
#[derive(Clone, Copy)]
pub enum Step<'r> {
    /// A response key.
    Key(&'r str),
    /// The place of an element of a list, from 0.
    Index(u64),
}

/// Steps from a response to a value in it, seen as a list. Longer paths share the steps of those
/// that they begin with.
#[cycle(path)]
#[derive(Drop)]
pub struct Path<'r> {
    last: Option<Rc<Reached<'r>>>,
}

/// The last step of a path, behind those before it, and how many steps these are together.
#[cycle(path)]
#[derive(Drop)]
struct Reached<'r> {
    before: Path<'r>,
    step: Step<'r>,
    len: usize,
}

impl<'r> Model for Path<'r> {
    ghost use Rattle.std.specs.Prelude.{List, length};
    ghost use Rattle.std.specs.Coded.{coded_list};
    ghost use Rattle.store_model.specs.declared.payload_fault.PathStep.{PathStep};
    ghost use Rattle.store_model.specs.contracts.payload_fault.PathStep as step;

    ghost Value = { List PathStep };

    ghost coded = { coded_list step.the_row.coded };

    ghost use Rattle.store_report.specs.Paths.{steps_to, IsCounted};

    ghost view = { λ p. steps_to p.last };

    ghost invariant = { λ p. IsCounted p.last };

    ghost size = { length };

    ghost use Rattle.std.proofs.Common.{arith, length-append};

    ghost size_decreases = { λ a h. Prim.grind (arith, length-append) };
}

impl<'r> Path<'r> {
    /// The path to the response itself; takes no memory.
    pub fn new() -> Path<'r>
        ensures { result ≡ [] }
    {
        Path { last: None }
    }

    /// The path with one more step.
    pub fn with(&self, alloc: Global, step: Step<'r>) -> Result<Path<'r>, NoMemory>
        ensures { IfOk result (λ path. path ≡ self.now ++ step_of step.entry ∷ []) }
    {
        let Some(len) = self.len().checked_add(1) else {
            return Err(NoMemory);
        };
        let before = self.copy()?;
        let last = Rc::new(alloc, Reached { before, step, len })?;
        Ok(Path { last: Some(last) })
    }

    /// The number of steps; takes no memory.
    fn len(&self) -> usize
        ensures { result ≡ length self.now }
    {
        match &self.last {
            Some(reached) => reached.len,
            None => 0,
        }
    }

    /// An equal path, which shares the steps.
    pub fn copy(&self) -> Result<Path<'r>, NoMemory>
        ensures { IfOk result (λ path. path ≡ self.now) }
    {
        match &self.last {
            Some(reached) => Ok(Path {
                last: Some(reached.clone()?),
            }),
            None => Ok(Path { last: None }),
        }
    }

    /// The order of paths, step by step, a proper prefix first; takes no memory.
    #[cycle(compare)]
    pub fn compare(&self, other: &Path<'_>) -> Ordering
        ensures { result ≡ path_cmp self.now other.now }
    {
        match (&self.last, &other.last) {
            (None, None) => Ordering::Equal,
            (None, Some(_)) => Ordering::Less,
            (Some(_), None) => Ordering::Greater,
            (Some(one), Some(two)) => {
                if one.len > two.len {
                    one.before.compare(other).then(Ordering::Greater)
                } else if one.len < two.len {
                    self.compare(&two.before).then(Ordering::Less)
                } else {
                    match one.before.compare(&two.before) {
                        Ordering::Equal => compare_steps(&one.step, &two.step),
                        unequal => unequal,
                    }
                }
            }
        }
    }

    /// The steps, with texts of their own.
    #[cycle(steps)]
    pub fn steps(&self, alloc: Global) -> Result<PathSteps, NoMemory>
        ensures { IfOk result (λ steps. steps ≡ self.now) }
    {
        match &self.last {
            Some(reached) => {
                let mut steps = reached.before.steps(alloc)?;
                steps.push(owned_step(alloc, &reached.step)?)?;
                Ok(steps)
            }
            None => Ok(PathSteps::new(alloc)),
        }
    }
}

/// A step with a text of its own.
fn owned_step(alloc: Global, step: &Step<'_>) -> Result<PathStep, NoMemory>
    ensures { IfOk result (λ owned. owned ≡ step_of step.now) }
{
    match step {
        Step::Key(key) => Ok(PathStep::Key(Words::new(alloc, key)?)),
        Step::Index(at) => Ok(PathStep::Index(*at)),
    }
}

/// The order of steps: keys by bytes, before indices by number.
fn compare_steps(one: &Step<'_>, two: &Step<'_>) -> Ordering
    ensures { result ≡ step_cmp (step_of one.now) (step_of two.now) }
{
    match (one, two) {
        (Step::Key(one), Step::Key(two)) => one.cmp(two),
        (Step::Key(_), Step::Index(_)) => Ordering::Less,
        (Step::Index(_), Step::Key(_)) => Ordering::Greater,
        (Step::Index(one), Step::Index(two)) => one.cmp(two),
    }
}
