//! Many texts in byte order, by the first bytes in which they differ.
#![tactic(auto)]

pub mod heads;
pub mod ids;
pub mod texts;

pub use gql_plain;
pub use heads::{HeadOrder, by_heads, ordered_by_heads};
pub use ids::sorted_ids;
pub use texts::sorted_texts;
