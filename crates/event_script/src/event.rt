//! The event of a line.
ghost use Rattle.std.specs.Prelude.{◌≡◌, Ok, Err};
ghost use Rattle.serde_json.specs.Read.{read as read_text};
ghost use Rattle.serde_json.specs.View.{view};
ghost use Rattle.store_model.specs.Events as events;
ghost use Rattle.event_script.specs.Seen.{event_seen, Says};

use crate::fault::LineFault;
use crate::rows::event_in;
use crate::text::{TextFault, value_of};
use json::Scratch;
use serde_json::Value;
use std::alloc::Global;
use store_model::Event;
use store_model::gql_plain::{MAX_LINE, NoMemory};

/// A reader of lines, one after another (this project's own). Memory for strings with escapes is
/// kept from line to line: 16 KiB, and as many bytes as the longest line had.
#[derive(Drop)]
pub struct LineReader {
    alloc: Global,
    scratch: Box<Scratch>,
}

impl LineReader {
    /// Makes a reader that has read no line (this project's own); takes 16 KiB. Errors: `NoMemory`.
    pub fn new(alloc: Global) -> Result<LineReader, NoMemory> {
        let scratch = Box::new(alloc, Scratch::new(alloc))?;
        Ok(LineReader { alloc, scratch })
    }

    /// The event that a line says, in time linear in its bytes. The line is given without its line
    /// end. Errors: see `LineFault`. No line changes what another says.
    pub fn read(&mut self, line: &[u8]) -> Result<Event, LineFault>
        ensures { Says result (events.line_of line.now) }
    {
        if line.len() > MAX_LINE {
            return Err(LineFault::LineTooLong);
        }
        match std::str::from_utf8(line) {
            Ok(text) => event_of_text(self.alloc, text, &mut self.scratch),
            Err(_) => Err(LineFault::NotJson),
        }
    }
}

/// The event that one line says (this project's own), by a reader made for it.
pub fn read_event(alloc: Global, line: &[u8]) -> Result<Event, LineFault>
    ensures { Says result (events.line_of line.now) }
{
    let mut reader = LineReader::new(alloc)?;
    reader.read(line)
}

fn event_of_text(alloc: Global, text: &str, scratch: &mut Scratch) -> Result<Event, LineFault>
    ensures { Says result (events.of_value (read_text text.now)) }
{
    match value_of(alloc, text, scratch) {
        Ok(value) => event_of_value(alloc, value),
        Err(TextFault::NotJson) => Err(LineFault::NotJson),
        Err(TextFault::NoMemory) => Err(LineFault::NoMemory),
    }
}

fn event_of_value(alloc: Global, value: Value) -> Result<Event, LineFault>
    ensures { Says result (events.of_shape (events.shape_of (view value))) }
{
    match value {
        Value::Object(members) => event_in(alloc, members),
        _ => Err(LineFault::EventShape),
    }
}
