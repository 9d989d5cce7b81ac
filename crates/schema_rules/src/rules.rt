//! The rules that a schema has to meet.
pub(crate) mod fields;
pub(crate) mod inherited;
pub(crate) mod interfaces;
pub(crate) mod members;
pub(crate) mod names;
pub(crate) mod needs;
pub(crate) mod roots;
pub(crate) mod types;
