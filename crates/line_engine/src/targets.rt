//! The targets of reads and of watches.
ghost use Rattle.std.specs.Prelude.{◌≡◌, Option, None, Some, true, is_some, IfOk};
ghost use Rattle.event_script.specs.Seen.{part_seen, target_seen};
ghost use Rattle.plan_project.specs.Lookups as lookups;
ghost use Rattle.line_engine.specs.Handles.{held_as};
ghost use Rattle.line_engine.specs.Operations.{HoldsPlan};
ghost use Rattle.line_engine.specs.Stands.{KeepsHandle, StandsFor};
ghost use Rattle.line_engine.specs.Targets as spec;
ghost use Rattle.relay_machine.specs.Machine as machine;
ghost use Rattle.relay_machine.specs.Refusals as model;
ghost use Rattle.plan_ir.specs.schema_types.Sites.{FragmentAt};
ghost use Rattle.plan_ir.specs.store_model.Events as e;

use crate::answers::{refuse, refuse_variables};
use crate::engine::LineEngine;
use crate::environments::scope_given;
use crate::lines::Lines;
use crate::watched::{fragment_at, whole_operation};
use plan_ir::{NoMemory, Part, Target, Words};
use plan_project::CompiledFragment;
use relay_lines::{Limited, Refusal};
use store_retain::{Held, RecordSource};
use store_watch::Watched;

/// What a target shows, or the answer that refuses it.
#[derive(Drop)]
pub(crate) enum Targeted {
    Shown(Watched),
    Refused(Lines),
}

impl<S: RecordSource> LineEngine<S> {
    /// What a target shows. `is_full` tells that no further watch may start, where one is to.
    pub(crate) fn target(
        &self,
        target: &Target,
        is_full: bool,
        n: u64,
    ) -> Result<Targeted, NoMemory>
        ensures step { IfOk result (λ targeted. (p : machine.Project) (s : machine.State) → StandsFor self.now p s → (take : machine.Handle → Option machine.PartShown → machine.Step)
            → spec.Targets self.now p (machine.of_target p s n (target_seen target.now) (machine.handle_named s.handles target.now.handle) (λ step. machine.unless s n is_full (model.too_many model.watches) step) take) take targeted) }
        ensures found { IfOk result (λ targeted. (p : machine.Project) (s : machine.State) → StandsFor self.now p s → spec.ReadsTarget p s (target_seen target.now) targeted) }
    {
        let handle = &target.handle;
        let Some(held) = self.retained.held(handle.as_str()) else {
            let why = Refusal::UnknownHandle(handle.as_str());
            return Ok(Targeted::Refused(refuse(self.alloc, why, n)?));
        };
        match &target.part {
            Some(part) => self.target_part(handle, held, part, is_full, n),
            None => self.target_whole(handle, held, is_full, n),
        }
    }

    /// What the operation of a live handle shows.
    fn target_whole(
        &self,
        handle: &Words,
        held: &Held,
        is_full: bool,
        n: u64,
    ) -> Result<Targeted, NoMemory>
        requires there { HoldsPlan self.now.defs self.now.documents held.now }
        ensures step { IfOk result (λ targeted. (p : machine.Project) (s : machine.State) (h : machine.Handle) → StandsFor self.now p s → KeepsHandle p (held_as handle.now held.now) h
            → (take : Option machine.PartShown → machine.Step)
            → spec.TargetsPart self.now p (machine.of_part p s n None (λ step. machine.unless s n is_full (model.too_many model.watches) step) take) h take targeted) }
        ensures found { IfOk result (λ targeted. (p : machine.Project) (s : machine.State) (h : machine.Handle) → StandsFor self.now p s → KeepsHandle p (held_as handle.now held.now) h
            → spec.ReadsPart p h None targeted) }
    {
        if is_full {
            return self.too_many_watches(n);
        }
        let what = whole_operation(self.alloc, &self.project, held, handle)?;
        Ok(Targeted::Shown(what))
    }

    /// What a fragment under a live handle shows.
    fn target_part(
        &self,
        handle: &Words,
        held: &Held,
        part: &Part,
        is_full: bool,
        n: u64,
    ) -> Result<Targeted, NoMemory>
        ensures step { IfOk result (λ targeted. (p : machine.Project) (s : machine.State) (h : machine.Handle) → StandsFor self.now p s → KeepsHandle p (held_as handle.now held.now) h
            → (take : Option machine.PartShown → machine.Step)
            → spec.TargetsPart self.now p (machine.of_part p s n (Some (part_seen part.now)) (λ step. machine.unless s n is_full (model.too_many model.watches) step) take) h take targeted) }
        ensures found { IfOk result (λ targeted. (p : machine.Project) (s : machine.State) (h : machine.Handle) → StandsFor self.now p s → KeepsHandle p (held_as handle.now held.now) h
            → spec.ReadsPart p h (Some (part_seen part.now)) targeted) }
    {
        let name = part.fragment.as_str();
        let Some(fragment) = self.project.fragment(name) else {
            let lines = refuse(self.alloc, Refusal::UnknownFragment(name), n)?;
            return Ok(Targeted::Refused(lines));
        };
        if is_full {
            return self.too_many_watches(n);
        }
        self.target_fragment(handle, held, fragment, part, n)
    }

    /// What a fragment under a live handle shows, with the values that are given to its local
    /// variables.
    fn target_fragment(
        &self,
        handle: &Words,
        held: &Held,
        fragment: &CompiledFragment,
        part: &Part,
        n: u64,
    ) -> Result<Targeted, NoMemory>
        ensures step { IfOk result (λ targeted. (p : machine.Project) (s : machine.State) (h : machine.Handle) (f : FragmentAt) → StandsFor self.now p s → KeepsHandle p (held_as handle.now held.now) h
            → lookups.fragment_in p.defs p.documents part.now.fragment ≡ Some f → lookups.KeepsFragment p.defs part.now.fragment f fragment.now → lookups.ReadsFragment p.defs p.documents f fragment.now
            → (take : Option machine.PartShown → machine.Step)
            → spec.TargetsPart self.now p (machine.of_fragment p s n (part_seen part.now) (Some f) (λ step. step) take) h take targeted) }
        ensures found { IfOk result (λ targeted. (p : machine.Project) (h : machine.Handle) (f : FragmentAt) → KeepsHandle p (held_as handle.now held.now) h
            → lookups.KeepsFragment p.defs part.now.fragment f fragment.now → lookups.ReadsFragment p.defs p.documents f fragment.now → spec.ReadsFragmentAt p h (part_seen part.now) f targeted) }
    {
        let schema = self.project.schema();
        match scope_given(
            self.alloc,
            schema,
            &held.env.root,
            &fragment.locals,
            &part.args,
        ) {
            Ok(scope) => {
                let what = fragment_at(self.alloc, held, fragment, &scope, handle, &part.id)?;
                Ok(Targeted::Shown(what))
            }
            Err(fault) => Ok(Targeted::Refused(refuse_variables(self.alloc, fault, n)?)),
        }
    }

    /// The answer that refuses a watch because as many as there may be are live.
    fn too_many_watches(&self, n: u64) -> Result<Targeted, NoMemory>
        ensures step { IfOk result (λ targeted. (p : machine.Project) (s : machine.State) (h : machine.Handle) → StandsFor self.now p s → (take : Option machine.PartShown → machine.Step)
            → spec.TargetsPart self.now p (machine.refuse s n (model.too_many model.watches)) h take targeted) }
        ensures found { IfOk result (λ targeted. (p : machine.Project) (h : machine.Handle) (part : Option e.Part) → spec.ReadsPart p h part targeted) }
    {
        let lines = refuse(self.alloc, Refusal::TooMany(Limited::Watches), n)?;
        Ok(Targeted::Refused(lines))
    }
}
