//! The laws of later lines: what a sweep drops makes no difference to a line that does not look at it
//! (this project's own). The calls do nothing; their contracts are the laws.
#![tactic(auto)]

pub mod laws;
