//! The rules, each with the places where it does not hold.

pub(crate) mod arguments;
pub(crate) mod directives;
pub(crate) mod literals;
pub(crate) mod required;
pub(crate) mod variables;
