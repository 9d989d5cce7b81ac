//! The laws of sound records: what keeps them so, and what is said soundly (this project's own). The calls
//! do nothing; their contracts are the laws.
#![tactic(auto)]

pub mod laws;
