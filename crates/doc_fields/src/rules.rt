//! The rules, each with the places where it does not hold.

pub(crate) mod conditions;
pub(crate) mod floats;
pub(crate) mod sets;
pub(crate) mod subscriptions;
pub(crate) mod undefined;
