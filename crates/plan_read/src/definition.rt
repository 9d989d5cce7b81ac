//! The plan of an operation or a fragment, by its name.
ghost use Rattle.std.specs.Prelude.{◌≡◌, true, Some, is_some, IfOk};
ghost use Rattle.plan_read.specs.Plans.{reader_in};
ghost use Rattle.plan_read.specs.Premises.{IsOnComposite};

use crate::reader::Readers;
use plan_expand::definitions_at;
use plan_ir::{Documents, Form, Name, NoMemory, ReaderPlan, Schema};
use std::alloc::Global;

/// The plan by which the operation or the fragment of that name is read (this project's own).
/// Whoever wants several plans takes [`Readers`]. The type of a fragment is an object, an interface or
/// a union. Its only error is that memory is lacking.
pub fn reader_plan(
    alloc: Global,
    schema: &Schema,
    documents: &Documents,
    root: &Name,
    whole: Form,
) -> Result<ReaderPlan, NoMemory>
    requires there { is_some (reader_in schema.now documents.now whole root.now) ≡ true }
    requires composite { IsOnComposite schema.now documents.now whole root.now }
    ensures { IfOk result (λ plan. Some plan.steps ≡ reader_in schema.now documents.now whole root.now) }
{
    let definitions = definitions_at(alloc, schema, documents)?;
    let readers = Readers::new(alloc, schema, documents, &definitions)?;
    readers.plan(alloc, root, whole)
}
