//! The entries that events give: what a response says, and then the commands.
ghost use Rattle.std.specs.Prelude.{◌≡◌, true, None, is_some, option_map, IfOk};
ghost use Rattle.event_script.specs.Seen.{answer_seen};
ghost use Rattle.plan_project.specs.Lookups.{operation_in};
ghost use Rattle.line_engine.specs.Answered.{Gives, Precedes};
ghost use Rattle.line_engine.specs.Handles.{held_as};
ghost use Rattle.line_engine.specs.Stands.{KeepsHandle, StandsFor};
ghost use Rattle.relay_machine.specs.Machine as machine;
ghost use Rattle.relay_machine.specs.Refusals as model;
ghost use Rattle.serde_json.specs.View.{view};
ghost use Rattle.plan_ir.specs.store_model.declared.entry.Entry as E;

use crate::answers::refuse;
use crate::engine::LineEngine;
use crate::lines::Lines;
use crate::said::{Told, said_to};
use crate::types::unknown_type;
use plan_ir::{Answer, Commands, Entry, Facts, NoMemory};
use relay_lines::{Limited, Refusal};
use serde_json::Value;
use store_retain::{Held, RecordSource};

/// What an event gives: its entry, or the answer that refuses it.
#[derive(Drop)]
pub(crate) enum Taken {
    Entry(Entry),
    Refused(Lines),
}

impl<S: RecordSource> LineEngine<S> {
    /// The entry of what the response to a handle says, if there is one, and then the commands.
    /// `is_full` tells that no further layer may start, where one is to.
    pub(crate) fn take(
        &self,
        answer: &Option<Answer>,
        commands: Commands,
        is_full: bool,
        n: u64,
    ) -> Result<Taken, NoMemory>
        ensures { IfOk result (λ taken. (p : machine.Project) (s : machine.State) → StandsFor self.now p s → (take : E.Entry → machine.Step)
            → Gives self.now p (machine.result_of p s n (option_map answer_seen answer.now) commands (λ step. machine.unless s n is_full (model.too_many model.layers) step) take) take taken) }
    {
        match answer {
            Some(answer) => self.take_answer(answer, commands, is_full, n),
            None => self.take_commands(commands, is_full, n),
        }
    }

    /// The entry of an answer to a handle, and then the commands.
    fn take_answer(
        &self,
        answer: &Answer,
        commands: Commands,
        is_full: bool,
        n: u64,
    ) -> Result<Taken, NoMemory>
        ensures { IfOk result (λ taken. (p : machine.Project) (s : machine.State) → StandsFor self.now p s → (take : E.Entry → machine.Step)
            → Gives self.now p (machine.answer_to p s n (machine.handle_named s.handles answer.now.handle) (answer_seen answer.now) commands (λ step. machine.unless s n is_full (model.too_many model.layers) step) take) take taken) }
    {
        let handle = answer.handle.as_str();
        let Some(held) = self.retained.held(handle) else {
            let lines = refuse(self.alloc, Refusal::UnknownHandle(handle), n)?;
            return Ok(Taken::Refused(lines));
        };
        match self.refused_first(&commands, is_full, n)? {
            Some(lines) => Ok(Taken::Refused(lines)),
            None => self.take_response(held, &answer.response, commands, n),
        }
    }

    /// The entry of what a response says to the operation of a live handle, and then the commands.
    fn take_response(
        &self,
        held: &Held,
        response: &Value,
        commands: Commands,
        n: u64,
    ) -> Result<Taken, NoMemory>
        requires there { is_some (operation_in self.now.defs self.now.documents held.now.name) ≡ true }
        ensures { IfOk result (λ taken. (p : machine.Project) (s : machine.State) (h : machine.Handle) → StandsFor self.now p s → KeepsHandle p (held_as h.name held.now) h
            → (take : E.Entry → machine.Step) → Gives self.now p (machine.of_verdict s n (machine.said_to p h (view response.now)) commands take) take taken) }
    {
        match said_to(self.alloc, &self.project, held, response)? {
            Told::Facts(facts) => Ok(Taken::Entry(Entry { facts, commands })),
            Told::Fault(fault) => {
                let lines = refuse(self.alloc, Refusal::Payload(&fault), n)?;
                Ok(Taken::Refused(lines))
            }
        }
    }

    /// The entry of commands alone.
    fn take_commands(&self, commands: Commands, is_full: bool, n: u64) -> Result<Taken, NoMemory>
        ensures { IfOk result (λ taken. (p : machine.Project) (s : machine.State) → StandsFor self.now p s → (take : E.Entry → machine.Step)
            → Gives self.now p (machine.result_of p s n None commands (λ step. machine.unless s n is_full (model.too_many model.layers) step) take) take taken) }
    {
        match self.refused_first(&commands, is_full, n)? {
            Some(lines) => Ok(Taken::Refused(lines)),
            None => Ok(Taken::Entry(Entry {
                facts: Facts::new(self.alloc),
                commands,
            })),
        }
    }

    /// The answer that refuses an event whatever a response says: no further layer may start, or a
    /// command names a type that is none.
    fn refused_first(
        &self,
        commands: &Commands,
        is_full: bool,
        n: u64,
    ) -> Result<Option<Lines>, NoMemory>
        ensures { IfOk result (λ refused. (p : machine.Project) (s : machine.State) → StandsFor self.now p s → (step : machine.Step)
            → Precedes self.now p (machine.unless s n is_full (model.too_many model.layers) (machine.unless_unknown s n (machine.first_refused p.defs commands.now) step)) step refused) }
    {
        if is_full {
            let lines = refuse(self.alloc, Refusal::TooMany(Limited::Layers), n)?;
            return Ok(Some(lines));
        }
        let Some(name) = unknown_type(self.project.schema(), commands) else {
            return Ok(None);
        };
        let lines = refuse(self.alloc, Refusal::UnknownType(name.as_str()), n)?;
        Ok(Some(lines))
    }
}
