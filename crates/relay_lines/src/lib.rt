//! The lines that the program prints: the answers of events, reads, watches and sweeps, the notices
//! of watches, refusals, the summary of a script, and the fault of a project (this project's own). A line is compact JSON with
//! its keys in byte order, here without its line end.
#![tactic(auto)]

mod line_writer;
pub mod lines;
pub mod refusal;
mod refused;
mod summary;
mod values;

pub use lines::{
    collect_line, event_line, fault_line, line_of_read, notice_line, read_line, refusal_line,
    watch_line,
};
pub use refusal::{Limited, Refusal};
pub use store_show::Snapshot;
pub use summary::summary_line;
