//! The record that is shown.
use plan_ir::{Env, Record};

/// A live record that is shown.
#[derive(Clone, Copy)]
pub(crate) struct RowAt<'p> {
    pub(crate) env: &'p Env,
    /// The name of its type, which for the record of the root is that of the operation.
    pub(crate) name: &'p str,
    pub(crate) id: &'p str,
    pub(crate) row: &'p Record,
    /// How many records may be stood at one below another from here on.
    pub(crate) levels: usize,
}
