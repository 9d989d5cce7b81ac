//! Where records are read, and the types that they have.
ghost use Rattle.std.specs.Prelude.{◌≡◌, ◌∷◌, [], IfOk};
ghost use Rattle.plan_ir.specs.store_model.Walks.{type_of_record};

use plan_ir::{Ids, NoMemory, Record, Words};
use std::alloc::Global;
use store_source::RecordSource;

/// Where records are read, the root type of the operation, and the name that pointers tell of their
/// owner.
#[derive(Drop)]
pub struct Store<'p, S: RecordSource> {
    pub source: &'p S,
    pub root: &'p str,
    pub owner: &'p Words,
}

/// The type of a record, by the name of its type: the root record has the root type of the operation.
/// Takes no memory.
pub fn type_of<'p>(root: &'p str, row: &'p Record) -> &'p str
    ensures { result.now ≡ type_of_record root.now row.now.type_name }
{
    let name = row.type_name.as_str();
    if name == "__Root" {
        return root;
    }
    name
}

/// The name of a type alone.
pub fn one_name(alloc: Global, name: &str) -> Result<Ids, NoMemory>
    ensures { IfOk result (λ names. names ≡ name.now ∷ []) }
{
    let mut names = Vec::with_capacity(alloc, 1)?;
    names.push(Words::new(alloc, name)?)?;
    Ids::in_order(names)
}
