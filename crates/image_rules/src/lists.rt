//! The lists of an image.
ghost use Rattle.std.specs.Prelude.{◌≡◌, ◌&&◌, map, nat_le, IfOk};
ghost use Rattle.std.specs.List.{list_all};
ghost use Rattle.image_text.specs.Images as images;
ghost use Rattle.image_text.specs.declared.image.ImageHandle as handle;
ghost use Rattle.image_text.specs.declared.image.ImageLayer as layer;
ghost use Rattle.image_text.specs.declared.image.ImageMark as mark;
ghost use Rattle.image_text.specs.declared.image.ImageWatch as watch;
ghost use Rattle.image_rules.specs.Listed as listed;

use crate::entries::is_entry;
use crate::numbers::{are_distinct, has_number};
use crate::records::are_records;
use crate::texts::{are_names, do_rise};
use event_script::is_there;
use image_text::gql_plain::NoMemory;
use image_text::store_model::Part;
use image_text::{Image, ImageHandles, ImageLayers, ImageMark, ImageMarks, ImageWatches};
use std::alloc::Global;

/// The most lines of a script that an image may follow.
const MAX_LINES: u64 = 1_073_741_824;
/// The most operations that are kept after their release.
const MAX_BUFFER: u64 = 100;
/// The most live layers.
const MAX_LAYERS: usize = 1_000;
/// The most live handles, and the most live watches.
const MAX_LIVE: usize = 10_000;

/// Whether the numbers are within their limits; takes no memory.
fn are_counts(image: &Image) -> bool
    ensures { result ≡ images.are_counts image.now }
{
    0 < image.buffer
        && image.buffer <= MAX_BUFFER
        && image.lines <= MAX_LINES
        && image.marks <= image.lines
        && image.whole <= image.marks
}

/// The names of layers, in their order.
fn layer_names<'a>(alloc: Global, layers: &'a ImageLayers) -> Result<Vec<&'a str>, NoMemory>
    ensures { IfOk result (λ names. map (λ t. t.now) names.items ≡ map (λ (l : layer.ImageLayer). l.name) layers.now) }
{
    let mut names = Vec::new(alloc);
    'layers: for layer in &layers.items {
        names.push(layer.name.as_str())?;
    }
    Ok(names)
}

/// Whether each layer has an entry as one of an image.
fn have_entries(alloc: Global, layers: &ImageLayers) -> Result<bool, NoMemory>
    ensures { IfOk result (λ yes. yes ≡ list_all (λ (l : layer.ImageLayer). images.is_entry l.entry) layers.now) }
{
    'layers: for layer in &layers.items {
        let is = is_entry(alloc, &layer.entry)?;
        if !is {
            return Ok(false);
        }
    }
    Ok(true)
}

/// Whether these are the layers of an image.
fn are_layers(alloc: Global, layers: &ImageLayers) -> Result<bool, NoMemory>
    ensures { IfOk result (λ yes. yes ≡ images.are_layers layers.now) }
{
    let names = layer_names(alloc, layers)?;
    let named = are_names(alloc, MAX_LAYERS, &names)?;
    if !named {
        return Ok(false);
    }
    let entries = have_entries(alloc, layers)?;
    Ok(entries)
}

/// The names of handles, in their order.
fn handle_names<'a>(alloc: Global, handles: &'a ImageHandles) -> Result<Vec<&'a str>, NoMemory>
    ensures { IfOk result (λ names. map (λ t. t.now) names.items ≡ map (λ (h : handle.ImageHandle). h.name) handles.now) }
{
    let mut names = Vec::new(alloc);
    'handles: for handle in &handles.items {
        names.push(handle.name.as_str())?;
    }
    Ok(names)
}

/// Whether each handle is as fresh as a mark that there was; takes no memory.
fn are_fresh(marks: u64, handles: &ImageHandles) -> bool
    ensures { result ≡ list_all (λ (h : handle.ImageHandle). nat_le h.fresh marks) handles.now }
{
    handles.items.iter().all(|handle| handle.fresh <= marks)
}

/// Whether these are the handles of an image with so many marks.
fn are_handles(alloc: Global, marks: u64, handles: &ImageHandles) -> Result<bool, NoMemory>
    ensures { IfOk result (λ yes. yes ≡ images.are_handles marks handles.now) }
{
    let names = handle_names(alloc, handles)?;
    let named = are_names(alloc, MAX_LIVE, &names)?;
    if !named {
        return Ok(false);
    }
    Ok(are_fresh(marks, handles))
}

/// The names of watches, in their order.
fn watch_names<'a>(alloc: Global, watches: &'a ImageWatches) -> Result<Vec<&'a str>, NoMemory>
    ensures { IfOk result (λ names. map (λ t. t.now) names.items ≡ map (λ (w : watch.ImageWatch). w.name) watches.now) }
{
    let mut names = Vec::new(alloc);
    'watches: for watch in &watches.items {
        names.push(watch.name.as_str())?;
    }
    Ok(names)
}

/// Whether the id of a fragment's watch is not empty; takes no memory.
fn is_part(part: &Option<Part>) -> bool
    ensures { result ≡ images.is_part part.now }
{
    match part {
        Some(part) => is_there(part.id.as_str()),
        None => true,
    }
}

/// Whether that of each watch is; takes no memory.
fn have_parts(watches: &ImageWatches) -> bool
    ensures { result ≡ list_all (λ (w : watch.ImageWatch). images.is_part w.part) watches.now }
{
    watches.items.iter().all(|watch| is_part(&watch.part))
}

/// Whether these are the watches of an image.
fn are_watches(alloc: Global, watches: &ImageWatches) -> Result<bool, NoMemory>
    ensures { IfOk result (λ yes. yes ≡ images.are_watches watches.now) }
{
    let names = watch_names(alloc, watches)?;
    let named = are_names(alloc, MAX_LIVE, &names)?;
    if !named {
        return Ok(false);
    }
    Ok(have_parts(watches))
}

/// Whether a marked id is as one of an image with so many marks; takes no memory.
fn is_mark(marks: u64, mark: &ImageMark) -> bool
    ensures { result ≡ images.is_mark marks mark.now }
{
    is_there(mark.id.as_str()) && 0 < mark.at && mark.at <= marks
}

/// Whether each marked id is; takes no memory.
fn are_marked(marks: u64, marked: &ImageMarks) -> bool
    ensures { result ≡ list_all (images.is_mark marks) marked.now }
{
    marked.items.iter().all(|mark| is_mark(marks, mark))
}

/// The marked ids, in their order.
fn marked_ids<'a>(alloc: Global, marked: &'a ImageMarks) -> Result<Vec<&'a str>, NoMemory>
    ensures { IfOk result (λ ids. map (λ t. t.now) ids.items ≡ map (λ (m : mark.ImageMark). m.id) marked.now) }
{
    let mut ids = Vec::new(alloc);
    'marked: for mark in &marked.items {
        ids.push(mark.id.as_str())?;
    }
    Ok(ids)
}

/// The numbers of the last marks.
fn last_marks(alloc: Global, whole: u64, marked: &ImageMarks) -> Result<Vec<u64>, NoMemory>
    ensures { IfOk result (λ numbers. numbers.items ≡ images.last_marks whole marked.now) }
{
    let mut numbers = whole_mark(alloc, whole)?;
    'marked: for mark in &marked.items {
        numbers.push(mark.at)?;
    }
    Ok(numbers)
}

/// The number of the last mark of all, where there is one.
fn whole_mark(alloc: Global, whole: u64) -> Result<Vec<u64>, NoMemory>
    ensures { IfOk result (λ numbers. numbers.items ≡ images.whole_mark whole) }
{
    let mut numbers = Vec::new(alloc);
    if 0 < whole {
        numbers.push(whole)?;
        return Ok(numbers);
    }
    Ok(numbers)
}

/// Whether one of the last marks is the latest, where there is a mark; takes no memory.
fn has_latest(marks: u64, last: &[u64]) -> bool
    ensures { result ≡ images.has_latest marks last.now }
{
    if marks == 0 {
        return true;
    }
    has_number(last, marks)
}

/// Whether no two of the last marks are one, and one of them is the latest.
fn are_last(alloc: Global, marks: u64, last: &[u64]) -> Result<bool, NoMemory>
    ensures { IfOk result (λ yes. yes ≡ (images.are_distinct last.now && images.has_latest marks last.now)) }
{
    let distinct = are_distinct(alloc, last)?;
    if !distinct {
        return Ok(false);
    }
    Ok(has_latest(marks, last))
}

/// Whether these are the marks of an image.
fn are_marks(alloc: Global, marks: u64, whole: u64, marked: &ImageMarks) -> Result<bool, NoMemory>
    ensures { IfOk result (λ yes. yes ≡ images.are_marks marks whole marked.now) }
{
    if !are_marked(marks, marked) {
        return Ok(false);
    }
    let ids = marked_ids(alloc, marked)?;
    if !do_rise(&ids) {
        return Ok(false);
    }
    let last = last_marks(alloc, whole, marked)?;
    let is = are_last(alloc, marks, &last)?;
    Ok(is)
}

/// Whether each list is as that of an image, in time linear in the image but for what is sorted or sought by halves.
pub fn is_listed(alloc: Global, image: &Image) -> Result<bool, NoMemory>
    ensures { IfOk result (λ yes. yes ≡ listed.is_listed image.now) }
{
    if !are_counts(image) {
        return Ok(false);
    }
    let records = are_records(alloc, &image.records)?;
    if !records {
        return Ok(false);
    }
    let layers = are_layers(alloc, &image.layers)?;
    if !layers {
        return Ok(false);
    }
    let handles = are_handles(alloc, image.marks, &image.handles)?;
    if !handles {
        return Ok(false);
    }
    if image.released.items.len() as u64 > image.buffer {
        return Ok(false);
    }
    let watches = are_watches(alloc, &image.watches)?;
    if !watches {
        return Ok(false);
    }
    let marks = are_marks(alloc, image.marks, image.whole, &image.marked)?;
    Ok(marks)
}
