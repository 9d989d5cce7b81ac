//! An image that is being read. Nothing is asked of the order of what it holds.
use image_text::gql_plain::{Id, Name, Words};
use image_text::{ImageHandle, ImageMark, ImageRelease, ImageWatch};
use std::marker::Model;
use store_model::store_record::SharedField;
use store_model::{Commands, Fact, HandleFact};

/// A record, seen as one whose fields are in any order.
#[derive(Drop)]
pub struct FieldsDraft {
    pub type_name: Name,
    pub fields: Vec<SharedField>,
}

impl Model for FieldsDraft {
    ghost use Rattle.store_model.specs.store_record.declared.record.Record.{Record};
    ghost use Rattle.store_model.specs.store_record.contracts.record.Record as of;

    ghost Value = { Record };

    ghost coded = { of.the_row.coded };

    ghost view = { λ a. record { type_name = a.type_name; fields = a.fields.items } };
}

/// A record under its id, or a deleted id.
#[derive(Drop)]
pub struct RecordDraft {
    pub id: Id,
    pub slot: Option<FieldsDraft>,
}

impl Model for RecordDraft {
    ghost use Rattle.image_text.specs.declared.image.ImageRecord.{ImageRecord};
    ghost use Rattle.image_text.specs.contracts.image.ImageRecord as of;

    ghost Value = { ImageRecord };

    ghost coded = { of.the_row.coded };

    ghost view = { λ a. record { id = a.id; slot = a.slot } };
}

/// A layer, seen as one whose facts and pages are in any order.
#[derive(Drop)]
pub struct LayerDraft {
    pub name: Words,
    pub facts: Vec<Fact>,
    pub pages: Vec<HandleFact>,
    pub commands: Commands,
}

impl Model for LayerDraft {
    ghost use Rattle.image_text.specs.declared.image.ImageLayer.{ImageLayer};
    ghost use Rattle.image_text.specs.contracts.image.ImageLayer as of;

    ghost Value = { ImageLayer };

    ghost coded = { of.the_row.coded };

    ghost view = { λ a. record {
      name = a.name;
      entry = record { facts = record { facts = a.facts.items; handles = a.pages.items }; commands = a.commands };
    } };
}

/// What the lines of an image's text have said so far, seen as an image.
#[derive(Drop)]
pub struct Draft {
    pub buffer: u64,
    pub lines: u64,
    pub marks: u64,
    pub whole: u64,
    pub records: Vec<RecordDraft>,
    pub layers: Vec<LayerDraft>,
    pub handles: Vec<ImageHandle>,
    pub released: Vec<ImageRelease>,
    pub watches: Vec<ImageWatch>,
    pub marked: Vec<ImageMark>,
}

impl Model for Draft {
    ghost use Rattle.image_text.specs.declared.image.Image.{Image};
    ghost use Rattle.image_text.specs.contracts.image.Image as of;

    ghost Value = { Image };

    ghost coded = { of.the_row.coded };

    ghost view = { λ a. record {
      buffer = a.buffer;
      lines = a.lines;
      marks = a.marks;
      whole = a.whole;
      records = a.records.items;
      layers = a.layers.items;
      handles = a.handles.items;
      released = a.released.items;
      watches = a.watches.items;
      marked = a.marked.items;
    } };
}
