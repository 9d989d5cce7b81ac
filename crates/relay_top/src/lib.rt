//! The top call, which the program makes: from words, files and a script to what is written and a
//! status.
#![tactic(auto)]

mod project_fault;
mod session;
mod summary;
mod top;

pub use plan_ir::{Counts, Words};
pub use relay_forms::{Status, exit_of};
pub use top::relay_top;
