//! What watches show.
use plan_ir::{Env, Id, Ids, Name, Words};
use plan_order::KeptReader;
use std::rc::Rc;

/// What a watch shows: the plan of an operation, or of a fragment, under an environment, of the record
/// at an id.
#[derive(Debug, Drop)]
pub struct Watched {
    /// The name of the operation's handle, which owns the pointers that the plan shows.
    pub handle: Words,
    /// The name of the fragment; None where the plan is that of the operation.
    pub fragment: Option<Name>,
    pub plan: Rc<KeptReader>,
    /// The object types of which the record may be.
    pub types: Ids,
    pub env: Rc<Env>,
    pub id: Id,
}
