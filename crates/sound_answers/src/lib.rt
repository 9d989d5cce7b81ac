//! The laws of accepted projects: what responses say to their operations is sound, and so is each state
//! of their machine (this project's own). The calls do nothing; their contracts are the laws.
#![tactic(auto)]

pub mod laws;
