//! The rules, each with the places where it does not hold.

pub(crate) mod conditions;
pub(crate) mod cycles;
pub(crate) mod fragments;
pub(crate) mod operations;
pub(crate) mod roots;
pub(crate) mod spreads;
