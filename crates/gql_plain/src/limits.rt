//! The limits that several layers share (this project's own).

/// The most bytes of a script line that are read: 8 MiB.
pub const MAX_LINE: usize = 8_388_608;
