//! The event that starts an operation under a handle.
ghost use Rattle.std.specs.Prelude.{◌≡◌, codes, true, false, Some, is_some, IfOk};
ghost use Rattle.plan_project.specs.Lookups.{IsOperation, KeepsOperation, operation_in};
ghost use Rattle.line_engine.specs.Handles.{handle_under, held_as};
ghost use Rattle.line_engine.specs.Operations.{HoldsPlan};
ghost use Rattle.line_engine.specs.Retained.{IsPrepared, IsThere};
ghost use Rattle.line_engine.specs.Spares.{Spares};
ghost use Rattle.line_engine.specs.Stands.{StandsFor, KeepsHandle};
ghost use Rattle.line_engine.specs.Steps.{HasStepped, IsStep};
ghost use Rattle.relay_machine.specs.Machine as machine;
ghost use Rattle.relay_machine.specs.Printed as printed;
ghost use Rattle.plan_ir.specs.schema_types.Sites.{OperationAt};

use crate::answers::{accept, refuse, refuse_variables};
use crate::engine::LineEngine;
use crate::lines::Lines;
use plan_ir::{NoMemory, Pairs, Words};
use plan_project::Compiled;
use relay_lines::{Limited, Refusal};
use schema_values::variables;
use std::rc::Rc;
use store_retain::{Held, RecordSource};

/// At most this many handles are live.
const MAX_HANDLES: u64 = 10_000;

/// What is to be kept under a handle, or the answer that refuses it.
#[derive(Drop)]
pub(crate) enum Prepared {
    Held(Held),
    Refused(Lines),
}

impl<S: RecordSource> LineEngine<S> {
    /// Starts an operation of the project under a handle, with these values of its variables.
    pub(crate) fn retain(
        &mut self,
        handle: &Words,
        operation: &Words,
        given: &Pairs,
        n: u64,
    ) -> Result<Lines, NoMemory>
        ensures step { IfOk result (λ lines. HasStepped self.old self.new lines (λ p s. machine.step_retain p s n handle.now operation.now given.now)) }
        ensures spares { Spares self.old self.new result }
    {
        if self.retained.held(handle.as_str()).is_some() {
            return refuse(self.alloc, Refusal::HandleTaken(handle.as_str()), n);
        }
        match self.prepare(operation, given, n)? {
            Prepared::Held(held) => self.hold(handle, held, n),
            Prepared::Refused(lines) => Ok(lines),
        }
    }

    /// An operation of the project with these values of its variables.
    fn prepare(&self, operation: &Words, given: &Pairs, n: u64) -> Result<Prepared, NoMemory>
        ensures there { IfOk result (IsThere self.now) }
        ensures step { IfOk result (λ prepared. (p : machine.Project) (s : machine.State) → StandsFor self.now p s
            → IsPrepared self.now p s n (λ name. machine.retain_named p s n name operation.now (operation_in p.defs p.documents operation.now) given.now) prepared) }
    {
        match self.project.operation(operation.as_str()) {
            Some(compiled) => self.prepare_operation(compiled, given, n),
            None => {
                let why = Refusal::UnknownOperation(operation.as_str());
                let lines = refuse(self.alloc, why, n)?;
                Ok(Prepared::Refused(lines))
            }
        }
    }

    /// An operation with these values of its variables, where one more handle may start.
    fn prepare_operation(
        &self,
        compiled: &Compiled,
        given: &Pairs,
        n: u64,
    ) -> Result<Prepared, NoMemory>
        requires there { is_some (operation_in self.now.defs self.now.documents compiled.now.name) ≡ true }
        requires reaches { (o : OperationAt) → operation_in self.now.defs self.now.documents compiled.now.name ≡ Some o
            → IsOperation self.now.defs self.now.documents compiled.now.name o compiled.now }
        ensures there { IfOk result (IsThere self.now) }
        ensures step { IfOk result (λ prepared. (p : machine.Project) (s : machine.State) (o : OperationAt) → StandsFor self.now p s
            → KeepsOperation p.defs compiled.now.name o compiled.now → operation_in p.defs p.documents compiled.now.name ≡ Some o
            → IsPrepared self.now p s n (λ name. machine.retain_operation p s n name o given.now) prepared) }
    {
        if self.retained.count() == MAX_HANDLES {
            let lines = refuse(self.alloc, Refusal::TooMany(Limited::Handles), n)?;
            return Ok(Prepared::Refused(lines));
        }
        let schema = self.project.schema();
        match variables(
            self.alloc,
            schema,
            &compiled.root,
            &compiled.variables,
            given,
        ) {
            Ok(env) => Ok(Prepared::Held(Held {
                name: compiled.name.copy()?,
                normal: compiled.normal.clone()?,
                reader: compiled.reader.clone()?,
                env: Rc::new(self.alloc, env)?,
            })),
            Err(fault) => Ok(Prepared::Refused(refuse_variables(self.alloc, fault, n)?)),
        }
    }

    /// Keeps an operation under a handle that is not live.
    fn hold(&mut self, handle: &Words, held: Held, n: u64) -> Result<Lines, NoMemory>
        requires free { is_some (handle_under self.old.handles handle.now) ≡ false }
        requires there { HoldsPlan self.old.defs self.old.documents held }
        ensures step { IfOk result (λ lines. (p : machine.Project) (s : machine.State) (h : machine.Handle) → StandsFor self.old p s → KeepsHandle p (held_as handle.now held) h
            → IsStep p (machine.accept (printed.event_line (codes "retain") n) (machine.with_handle h s)) lines self.new) }
        ensures spares { Spares self.old self.new result }
    {
        let lines = accept(self.alloc, "retain", n)?;
        self.retained.retain(handle.copy()?, held)?;
        Ok(lines)
    }
}
