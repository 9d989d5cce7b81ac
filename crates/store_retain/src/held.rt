//! What is held under a handle.
use plan_ir::{Env, Name, NormalPlan};
use plan_order::KeptReader;
use std::rc::Rc;

/// An operation, its plans, and the values of its variables.
#[derive(Drop)]
pub struct Held {
    /// The name of the operation.
    pub name: Name,
    pub normal: Rc<NormalPlan>,
    pub reader: Rc<KeptReader>,
    pub env: Rc<Env>,
}
