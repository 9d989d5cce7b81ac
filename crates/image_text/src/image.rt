//! What an image holds.
use image_marks::gql_plain::{Id, Pairs, Words};
use std::marker::Model;
use store_model::store_record::Record;
use store_model::{Entry, Part};

/// A record under its id; none where the id is deleted.
#[derive(Drop)]
pub struct ImageRecord {
    pub id: Id,
    pub slot: Option<Record>,
}

/// Records in byte order of their ids.
#[derive(Drop)]
pub struct ImageRecords {
    pub items: Vec<ImageRecord>,
}

impl Model for ImageRecords {
    ghost use Rattle.std.specs.Prelude.{List};
    ghost use Rattle.std.specs.Coded.{coded_list};
    ghost use Rattle.image_text.specs.declared.image.ImageRecord.{ImageRecord};
    ghost use Rattle.image_text.specs.contracts.image.ImageRecord as of;

    ghost Value = { List ImageRecord };

    ghost coded = { coded_list of.the_row.coded };

    ghost view = { λ a. a.items.items };
}

/// A layer.
#[derive(Drop)]
pub struct ImageLayer {
    pub name: Words,
    pub entry: Entry,
}

/// Layers in order of start.
#[derive(Drop)]
pub struct ImageLayers {
    pub items: Vec<ImageLayer>,
}

impl Model for ImageLayers {
    ghost use Rattle.std.specs.Prelude.{List};
    ghost use Rattle.std.specs.Coded.{coded_list};
    ghost use Rattle.image_text.specs.declared.image.ImageLayer.{ImageLayer};
    ghost use Rattle.image_text.specs.contracts.image.ImageLayer as of;

    ghost Value = { List ImageLayer };

    ghost coded = { coded_list of.the_row.coded };

    ghost view = { λ a. a.items.items };
}

/// A live handle.
#[derive(Drop)]
pub struct ImageHandle {
    pub name: Words,
    pub op: Words,
    pub vars: Pairs,
    pub fresh: u64,
}

/// Handles in order of start.
#[derive(Drop)]
pub struct ImageHandles {
    pub items: Vec<ImageHandle>,
}

impl Model for ImageHandles {
    ghost use Rattle.std.specs.Prelude.{List};
    ghost use Rattle.std.specs.Coded.{coded_list};
    ghost use Rattle.image_text.specs.declared.image.ImageHandle.{ImageHandle};
    ghost use Rattle.image_text.specs.contracts.image.ImageHandle as of;

    ghost Value = { List ImageHandle };

    ghost coded = { coded_list of.the_row.coded };

    ghost view = { λ a. a.items.items };
}

/// A released operation.
#[derive(Drop)]
pub struct ImageRelease {
    pub op: Words,
    pub vars: Pairs,
}

/// Released operations, the oldest first.
#[derive(Drop)]
pub struct ImageReleases {
    pub items: Vec<ImageRelease>,
}

impl Model for ImageReleases {
    ghost use Rattle.std.specs.Prelude.{List};
    ghost use Rattle.std.specs.Coded.{coded_list};
    ghost use Rattle.image_text.specs.declared.image.ImageRelease.{ImageRelease};
    ghost use Rattle.image_text.specs.contracts.image.ImageRelease as of;

    ghost Value = { List ImageRelease };

    ghost coded = { coded_list of.the_row.coded };

    ghost view = { λ a. a.items.items };
}

/// A live watch.
#[derive(Drop)]
pub struct ImageWatch {
    pub name: Words,
    pub handle: Words,
    pub part: Option<Part>,
}

/// Watches in order of start.
#[derive(Drop)]
pub struct ImageWatches {
    pub items: Vec<ImageWatch>,
}

impl Model for ImageWatches {
    ghost use Rattle.std.specs.Prelude.{List};
    ghost use Rattle.std.specs.Coded.{coded_list};
    ghost use Rattle.image_text.specs.declared.image.ImageWatch.{ImageWatch};
    ghost use Rattle.image_text.specs.contracts.image.ImageWatch as of;

    ghost Value = { List ImageWatch };

    ghost coded = { coded_list of.the_row.coded };

    ghost view = { λ a. a.items.items };
}

/// A marked id, and its last mark's number.
#[derive(Drop)]
pub struct ImageMark {
    pub id: Id,
    pub at: u64,
}

/// Marks in byte order of their ids.
#[derive(Drop)]
pub struct ImageMarks {
    pub items: Vec<ImageMark>,
}

impl Model for ImageMarks {
    ghost use Rattle.std.specs.Prelude.{List};
    ghost use Rattle.std.specs.Coded.{coded_list};
    ghost use Rattle.image_text.specs.declared.image.ImageMark.{ImageMark};
    ghost use Rattle.image_text.specs.contracts.image.ImageMark as of;

    ghost Value = { List ImageMark };

    ghost coded = { coded_list of.the_row.coded };

    ghost view = { λ a. a.items.items };
}

/// A state of the store between two lines.
#[derive(Drop)]
pub struct Image {
    pub buffer: u64,
    pub lines: u64,
    pub marks: u64,
    pub whole: u64,
    pub records: ImageRecords,
    pub layers: ImageLayers,
    pub handles: ImageHandles,
    pub released: ImageReleases,
    pub watches: ImageWatches,
    pub marked: ImageMarks,
}
