//! The object type that the record of an operation has.
ghost use Rattle.std.specs.Prelude.{◌≡◌, [], ◌∷◌, option_copied, IfOk};
ghost use Rattle.plan_ir.specs.Expansion.{name_or};
ghost use Rattle.plan_ir.specs.schema_tables.Types as types;

use plan_build::normal::one_type;
use plan_ir::{Ids, Kind, Name, NoMemory, Schema, Words};
use std::alloc::Global;

/// The name of a root type; none is the empty name.
fn name_of_root(alloc: Global, root: Option<&Name>) -> Result<Name, NoMemory>
    ensures { IfOk result (λ name. name ≡ name_or (option_copied root.entry)) }
{
    match root {
        Some(name) => name.copy(),
        None => Words::new(alloc, ""),
    }
}

/// The root type of a kind alone (GraphQL, October 2021, section 3.3.1).
pub(crate) fn root_type(alloc: Global, schema: &Schema, kind: Kind) -> Result<Ids, NoMemory>
    ensures { IfOk result (λ ids. ids ≡ name_or (types.root schema.now kind) ∷ []) }
{
    let root = name_of_root(alloc, schema.root(kind))?;
    one_type(alloc, &root)
}

/// The name of the root type of a kind, where there is one; takes no memory.
pub(crate) fn root_name(schema: &Schema, kind: Kind) -> Option<&str>
    ensures { option_copied result ≡ types.root schema.now kind }
{
    match schema.root(kind) {
        Some(name) => Some(name.as_str()),
        None => None,
    }
}

/// The text, or the empty one where there is none; takes no memory.
pub(crate) fn text_or_empty(text: Option<&str>) -> &str
    ensures { result.now ≡ name_or (option_copied text.entry) }
{
    match text {
        Some(text) => text,
        None => "",
    }
}
