//! The engine that answers lines: one line of a script after another, over a project and a map of records.
#![tactic(auto)]

mod answers;
mod changing;
mod collecting;
mod confirming;
pub mod engine;
mod environments;
mod layering;
pub mod lines;
mod releasing;
mod retaining;
mod said;
mod taking;
mod targets;
mod telling;
mod types;
mod watched;
mod watching;

pub use engine::LineEngine;
pub use lines::Lines;
pub use plan_project::Project;
pub use relay_lines::{fault_line, summary_line};
pub use store_retain::{Flat, RecordSource, Versions};
