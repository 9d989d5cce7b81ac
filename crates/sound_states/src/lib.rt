//! The laws of sound states of the machine: each line keeps them so, and their records are sound (this
//! project's own). The calls do nothing; their contracts are the laws.
#![tactic(auto)]

pub mod laws;
