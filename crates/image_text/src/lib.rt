//! The store as an image (this project's own): what an image is, its text, and writing it.
#![tactic(auto)]

mod command;
mod entry;
pub mod image;
mod row;
mod write;

pub use command::command_plain;
pub use image::{
    Image, ImageHandle, ImageHandles, ImageLayer, ImageLayers, ImageMark, ImageMarks, ImageRecord,
    ImageRecords, ImageRelease, ImageReleases, ImageWatch, ImageWatches,
};
pub use image_marks;
pub use image_marks::gql_plain;
pub use store_model;
pub use write::write_image;
