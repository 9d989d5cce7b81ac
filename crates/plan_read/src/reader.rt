//! The operations and fragments of a project, ready to be planned.
ghost use Rattle.std.specs.Prelude.{◌≡◌, [], ◌∷◌, true, Some, is_some, option_copied, IfOk};
ghost use Rattle.plan_expand.specs.doc_sites.Definitions.{AreIn};
ghost use Rattle.plan_build.specs.AroundView.{IsOfComposite, types_of};
ghost use Rattle.plan_expand.specs.ScopeView.{scope_of};
ghost use Rattle.plan_ir.specs.Expansion.{name_or};
ghost use Rattle.plan_ir.specs.Substitution.{mark_local, operation_scope};
ghost use Rattle.plan_ir.specs.declared.form.Form.TheVariants as form_of;
ghost use Rattle.plan_read.specs.OperationsView.{operation_view};
ghost use Rattle.plan_read.specs.Plans.{reader_in};
ghost use Rattle.plan_read.specs.Premises.{IsOnComposite};
ghost use Rattle.plan_read.specs.Preparing.{IsReady, fragment_steps, operation_steps, steps_made};
ghost use Rattle.plan_read.specs.ReadyView.{ready_of};
ghost use Rattle.plan_ir.specs.schema_tables.Types as types;

use crate::fragments::{Fragments, ReadyFragment};
use crate::operations::{Operations, ReadyOperation};
use crate::steps::{Walk, make_set};
use crate::types::{root_name, root_type};
use plan_build::around::Around;
use plan_build::kept::Kept;
use plan_expand::scope::Scope;
use plan_expand::{DefinitionAt, count_fragments};
use plan_ir::{Documents, Form, Name, NoMemory, ReaderPlan, Schema, Selections};
use std::alloc::Global;

/// What stands ready to plan the reads of the operations and fragments of a project. It is made once
/// a project; one plan then costs what it makes.
#[derive(Drop)]
pub struct Readers<'a> {
    /// The schema of the project.
    pub schema: &'a Schema,
    /// The documents of the project.
    pub documents: &'a Documents,
    fragments: Fragments<'a>,
    operations: Operations<'a>,
    /// How many fragments there are: a chain of spreads has no more.
    spreads: usize,
}

impl<'a> Readers<'a> {
    /// What stands ready for the operations and fragments of the documents, whose definitions are
    /// listed already. Its only error is that memory is lacking.
    pub fn new(
        alloc: Global,
        schema: &'a Schema,
        documents: &'a Documents,
        definitions: &[DefinitionAt<'a>],
    ) -> Result<Readers<'a>, NoMemory>
        requires { AreIn schema.now documents.now definitions.now }
        ensures ready { IfOk result IsReady }
        ensures schema { IfOk result (λ readers. readers.schema.now ≡ schema.now) }
        ensures documents { IfOk result (λ readers. readers.documents.now ≡ documents.now) }
    {
        let fragments = Fragments::of(alloc, definitions)?;
        let operations = Operations::of(alloc, definitions)?;
        let spreads = count_fragments(alloc, definitions)?;
        Ok(Readers {
            schema,
            documents,
            fragments,
            operations,
            spreads,
        })
    }

    /// The plan of the operation or the fragment of that name. The type of a fragment is an object,
    /// an interface or a union. Its only error is that memory is lacking.
    pub fn plan(&self, alloc: Global, name: &Name, form: Form) -> Result<ReaderPlan, NoMemory>
        requires ready { IsReady self.now }
        requires there { is_some (reader_in self.now.schema.now self.now.documents.now form name.now) ≡ true }
        requires composite { IsOnComposite self.now.schema.now self.now.documents.now form name.now }
        ensures { IfOk result (λ plan. Some plan.steps ≡ reader_in self.now.schema.now self.now.documents.now form name.now) }
    {
        match form {
            Form::Operation => self.plan_operation(alloc, name),
            Form::Fragment => self.plan_fragment(alloc, name),
        }
    }

    /// The plan of selections, where a static type is around and the records are of the types around.
    fn make(
        &self,
        alloc: Global,
        scope: &Scope<'_, 'a>,
        over: Option<&'a str>,
        around: Around<'_, 'a>,
        selections: &'a Selections,
    ) -> Result<ReaderPlan, NoMemory>
        requires { IsOfComposite self.now.schema.now around }
        ensures { IfOk result (λ plan. plan.steps ≡ steps_made self.now (scope_of scope.now) (option_copied over.entry) (types_of self.now.schema.now around.entry) selections.now) }
    {
        let walk = Walk {
            schema: self.schema,
            fragments: &self.fragments,
            scope,
            spreads: self.spreads,
            over,
        };
        let mut kept = Kept::new(alloc);
        let steps = make_set(alloc, walk, &mut kept, around, selections)?;
        Ok(ReaderPlan { steps })
    }

    /// The plan of the operation of that name.
    fn plan_operation(&self, alloc: Global, name: &Name) -> Result<ReaderPlan, NoMemory>
        requires ready { IsReady self.now }
        requires there { is_some (reader_in self.now.schema.now self.now.documents.now form_of.Operation name.now) ≡ true }
        ensures { IfOk result (λ plan. Some plan.steps ≡ reader_in self.now.schema.now self.now.documents.now form_of.Operation name.now) }
    {
        match self.operations.find(name.as_str()) {
            Some(ready) => self.plan_ready(alloc, ready),
            None => unreachable!(),
        }
    }

    /// The plan of an operation that stands ready. Its records are of its root type.
    fn plan_ready(&self, alloc: Global, ready: &ReadyOperation<'a>) -> Result<ReaderPlan, NoMemory>
        ensures { IfOk result (λ plan. plan.steps ≡ operation_steps self.now (operation_view ready.now)) }
    {
        let types = root_type(alloc, self.schema, ready.kind)?;
        let scope = Scope::Operation;
        let over = root_name(self.schema, ready.kind);
        self.make(
            alloc,
            &scope,
            over,
            Around::Listed(&types),
            ready.selections,
        )
    }

    /// The plan of the fragment of that name.
    fn plan_fragment(&self, alloc: Global, name: &Name) -> Result<ReaderPlan, NoMemory>
        requires ready { IsReady self.now }
        requires there { is_some (reader_in self.now.schema.now self.now.documents.now form_of.Fragment name.now) ≡ true }
        requires composite { IsOnComposite self.now.schema.now self.now.documents.now form_of.Fragment name.now }
        ensures { IfOk result (λ plan. Some plan.steps ≡ reader_in self.now.schema.now self.now.documents.now form_of.Fragment name.now) }
    {
        match self.fragments.find(name.as_str()) {
            Some(ready) => self.plan_alone(alloc, ready),
            None => unreachable!(),
        }
    }

    /// The plan of a fragment that stands ready. Its own local variables stay.
    fn plan_alone(&self, alloc: Global, ready: &ReadyFragment<'a>) -> Result<ReaderPlan, NoMemory>
        requires { types.is_composite self.now.schema.now ready.now.on.now ≡ true }
        ensures { IfOk result (λ plan. plan.steps ≡ fragment_steps self.now (ready_of ready.now)) }
    {
        let scope = Scope::Own(&ready.locals);
        self.make(
            alloc,
            &scope,
            Some(ready.on),
            Around::Of(ready.on),
            ready.selections,
        )
    }
}
