//! What stands ready to plan the operations and the fragments of an accepted project.
ghost use Rattle.std.specs.Prelude.{◌≡◌, Some, is_some, true, IfOk};
ghost use Rattle.plan_project.specs.Planning.{CanPlan};
ghost use Rattle.plan_project.specs.Projects.{IsAcceptedProject};
ghost use Rattle.plan_read.specs.Plans.{reader_in};

use plan_ir::{Documents, Form, Name, NoMemory, Schema};
use plan_order::KeptReader;
use plan_read::{Expander, Readers, definitions_at};
use std::alloc::Global;
use std::rc::Rc;

/// What stands ready to plan the operations and the fragments of a project. It is made once a
/// project; one plan then costs what it makes.
#[derive(Drop)]
pub(crate) struct Planner<'a> {
    pub(crate) expander: Expander<'a>,
    readers: Readers<'a>,
}

impl<'a> Planner<'a> {
    /// What stands ready for a schema and documents that were checked together.
    pub(crate) fn of(
        alloc: Global,
        schema: &'a Schema,
        documents: &'a Documents,
    ) -> Result<Planner<'a>, NoMemory>
        requires { IsAcceptedProject schema.now documents.now }
        ensures ready { IfOk result CanPlan }
        ensures schema { IfOk result (λ planner. planner.expander.schema.now ≡ schema.now) }
        ensures documents { IfOk result (λ planner. planner.expander.documents.now ≡ documents.now) }
    {
        let definitions = definitions_at(alloc, schema, documents)?;
        let expander = Expander::new(alloc, schema, documents, &definitions)?;
        let readers = Readers::new(alloc, schema, documents, &definitions)?;
        Ok(Planner { expander, readers })
    }

    /// The plan by which the operation or the fragment of a name is read. Its only error is that
    /// memory is lacking.
    pub(crate) fn reader(
        &self,
        alloc: Global,
        name: &Name,
        form: Form,
    ) -> Result<Rc<KeptReader>, NoMemory>
        requires ready { CanPlan self.now }
        requires there { is_some (reader_in self.now.expander.schema.now self.now.expander.documents.now form name.now) ≡ true }
        ensures { IfOk result (λ reader. Some reader.value.steps ≡ reader_in self.now.expander.schema.now self.now.expander.documents.now form name.now) }
    {
        let plan = self.readers.plan(alloc, name, form)?;
        let kept = KeptReader::new(alloc, plan)?;
        let reader = Rc::new(alloc, kept)?;
        Ok(reader)
    }
}
