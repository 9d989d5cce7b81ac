//! The laws of the order of places (this project's own). The calls do nothing; their contracts are the
//! laws.
#![tactic(auto)]

pub mod laws;
