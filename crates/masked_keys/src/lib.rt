//! The laws of masked keys: which fields of records a read looks at (this project's own; masks are after
//! Relay). The calls do nothing; their contracts are the laws.
#![tactic(auto)]

pub mod laws;
