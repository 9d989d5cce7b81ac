//! The store as an image (this project's own): reading the rows of its text, one after another.
#![tactic(auto)]

pub mod draft;
mod line;
mod put;
mod row;
mod take;
mod value;

pub use draft::Draft;
pub use image_text::{gql_plain, store_model};
pub use take::{begin, take_line};
