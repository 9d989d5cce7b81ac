//! The laws of retained reads (this project's own). The calls do nothing; their contracts are the laws.
#![tactic(auto)]

pub mod laws;
