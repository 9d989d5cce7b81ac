//! The outside of the program: where files are read, where the script comes from, and where
//! answers go. Each is a trait, with an object in memory and an adapter over std.
#![tactic(auto)]

pub mod fault;
pub mod file_vault;
pub mod mem_sink;
pub mod mem_source;
pub mod mem_vault;
pub mod sink;
pub mod source;
pub mod std_sink;
pub mod std_source;
#[cfg(test)]
mod tests;
pub mod vault;

pub use fault::{Failed, VaultFault};
pub use file_vault::FileVault;
pub use mem_sink::MemSink;
pub use mem_source::MemSource;
pub use mem_vault::MemVault;
pub use sink::Sink;
pub use source::Source;
pub use std_sink::StdSink;
pub use std_source::StdSource;
pub use vault::Vault;
