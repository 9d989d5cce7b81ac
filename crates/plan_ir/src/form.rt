//! What a name stands for.

/// Whether a name is that of an operation or of a fragment: one of each may have the same name.
#[derive(Clone, Copy, Debug, PartialEq, Eq)]
pub enum Form {
    Operation,
    Fragment,
}
