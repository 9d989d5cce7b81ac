//! What is asked of an image's lists (this project's own): a whole image is looked at once, in time linear in it but for what is sorted or
//! sought by halves.
#![tactic(auto)]

mod entries;
pub mod laws;
mod lists;
mod numbers;
mod records;
mod texts;

pub use image_text;
pub use image_text::gql_plain;
pub use laws::lists_are_decided;
pub use lists::is_listed;
