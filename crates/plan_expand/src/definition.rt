//! The expansion of an operation or a fragment, by its name.
ghost use Rattle.std.specs.Prelude.{◌≡◌, true, is_some};
ghost use Rattle.plan_expand.specs.Answers.{IsAnswer, whole_in};

use crate::expander::Expander;
use crate::fault::ExpandFault;
use doc_sites::definitions_at;
use plan_ir::{Documents, Expanded, Form, Name, Schema};
use std::alloc::Global;

/// The operation or fragment of that name, with all spreads followed (this project's own). Whoever
/// expands several takes an [`Expander`].
///
/// # Errors
///
/// `TooManyNodes` if and only if it has more than 100,000 nodes (E1). `TooDeep` if and only if it
/// has no more, and its selection sets or its values nest deeper than 60 (E2). `NoMemory`.
pub fn expand(
    alloc: Global,
    schema: &Schema,
    documents: &Documents,
    root: &Name,
    whole: Form,
) -> Result<Expanded, ExpandFault>
    requires { is_some (whole_in schema.now documents.now whole root.now) ≡ true }
    ensures { IsAnswer (whole_in schema.now documents.now whole root.now) result }
{
    let definitions = definitions_at(alloc, schema, documents)?;
    let expander = Expander::new(alloc, schema, documents, &definitions)?;
    expander.expand(alloc, root, whole)
}
