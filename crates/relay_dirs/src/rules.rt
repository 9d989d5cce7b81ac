//! The rules one by one: each notes the places where it does not hold.
pub(crate) mod aliases;
pub(crate) mod connections;
pub(crate) mod keys;
pub(crate) mod local_uses;
pub(crate) mod locals;
pub(crate) mod masks;
pub(crate) mod spreads;
pub(crate) mod variable_uses;
