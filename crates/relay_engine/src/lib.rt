//! The engine: it answers one line of a script after another, over a project and a map of records, and
//! keeps the theorems of later lines and of retained reads.
#![tactic(auto)]

pub mod engine;

pub use engine::Engine;
pub use line_engine::{Flat, Lines, RecordSource, Versions, fault_line, summary_line};
