//! Plans whose fields stand in byte order of their response keys, so that what they show can be
//! written while it is met, without a tree.
#![tactic(auto)]

pub mod kept;
mod keys;
pub mod laws;
pub mod ordering;
mod single;

pub use kept::KeptReader;
pub use laws::ordered_walks_read_alike;
pub use ordering::ordered;
