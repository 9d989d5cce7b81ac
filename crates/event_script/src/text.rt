//! The JSON value of a text, read with memory that the caller keeps.
ghost use Rattle.std.specs.Prelude.{◌≡◌, ◌<◌, length, Some, None, Err, IfOk, OnOk};
ghost use Rattle.event_script.specs.Seen.{Reads};
ghost use Rattle.event_script.specs.declared.text.TextFault.TheVariants.{NotJson};
ghost use Rattle.json.specs.Json.{value, items, members};
ghost use Rattle.serde_json.specs.Data.{no_members};
ghost use Rattle.serde_json.specs.Read.{of_json, of_items, of_members, converted, read as read_text};
ghost use Rattle.serde_json.specs.View.{view, items_view, members_view};

use crate::numbers::number_in;
use json::{Invalid, Reader, Scratch, Token};
use serde_json::{Map, Value};
use std::alloc::{AllocError, AllocFailed, Global};

/// Arrays and objects nest at most this deep, as in `serde_json`.
const MAX_DEPTH: usize = 127;

/// Why a text gives no value.
#[derive(Clone, Copy, Drop)]
pub enum TextFault {
    NotJson,
    NoMemory,
}

impl From<Invalid> for TextFault {
    ghost use Rattle.std.specs.Prelude.{◌≡◌};
    ghost use Rattle.event_script.specs.declared.text.TextFault.TheVariants.{NotJson};

    ghost from_gives = { λ _ fault. fault ≡ NotJson };

    fn from(_invalid: Invalid) -> TextFault {
        TextFault::NotJson
    }
}

impl From<AllocError> for TextFault {
    ghost use Rattle.std.specs.Prelude.{◌≡◌};
    ghost use Rattle.event_script.specs.declared.text.TextFault.TheVariants.{NoMemory};

    ghost from_gives = { λ _ fault. fault ≡ NoMemory };

    fn from(_refused: AllocError) -> TextFault {
        TextFault::NoMemory
    }
}

impl<T: Drop> From<AllocFailed<T>> for TextFault {
    ghost use Rattle.std.specs.Prelude.{◌≡◌};
    ghost use Rattle.event_script.specs.declared.text.TextFault.TheVariants.{NoMemory};

    ghost from_gives = { λ _ fault. fault ≡ NoMemory };

    fn from(_refused: AllocFailed<T>) -> TextFault {
        TextFault::NoMemory
    }
}

/// The value that `serde_json` reads in the text. The scratch grows to the length of the text.
pub fn value_of(alloc: Global, text: &str, scratch: &mut Scratch) -> Result<Value, TextFault>
    ensures { Reads result (read_text text.now) }
{
    let Ok(mut reader) = Reader::new(text, scratch) else {
        return Err(TextFault::NoMemory);
    };
    let value = read(alloc, &mut reader, MAX_DEPTH)?;
    if reader.next().is_some() {
        return Err(TextFault::NotJson);
    }
    Ok(value)
}

/// The value that the tokens begin with, nested at most so deep.
#[cycle(read)]
fn read(alloc: Global, reader: &mut Reader<'_>, depth: usize) -> Result<Value, TextFault>
    ensures ok { IfOk result
        (λ v. converted of_json (value depth reader.old) ≡ Some (view v, reader.new)) }
    ensures shorter { OnOk result (length reader.new < length reader.old) }
    ensures err { result ≡ Err NotJson → converted of_json (value depth reader.old) ≡ None }
{
    let token = reader.next().ok_or(Invalid)?;
    match token {
        Token::String(text) => Ok(Value::String(String::from_str(alloc, text)?)),
        Token::Number(text) => match number_in(text) {
            Some(number) => Ok(Value::Number(number)),
            None => Err(TextFault::NotJson),
        },
        Token::Bool(b) => Ok(Value::Bool(b)),
        Token::Null => Ok(Value::Null),
        Token::EndObject | Token::EndArray | Token::Key(_) | Token::Bad => Err(TextFault::NotJson),
        Token::BeginArray => {
            if depth == 0 {
                return Err(TextFault::NotJson);
            }
            Ok(Value::Array(read_items(alloc, reader, depth - 1)?))
        }
        Token::BeginObject => {
            if depth == 0 {
                return Err(TextFault::NotJson);
            }
            Ok(Value::Object(read_members(alloc, reader, depth - 1)?))
        }
    }
}

#[cycle(read)]
fn read_items(alloc: Global, reader: &mut Reader<'_>, depth: usize) -> Result<Vec<Value>, TextFault>
    ensures ok { IfOk result
        (λ v. converted of_items (items (value depth) (length reader.old) reader.old)
        ≡ Some (items_view v.items, reader.new)) }
    ensures shorter { OnOk result (length reader.new < length reader.old) }
    ensures err { result ≡ Err NotJson
        → converted of_items (items (value depth) (length reader.old) reader.old) ≡ None }
{
    let mut found = Vec::new(alloc);
    'items: while !reader.take_end_array() {
        let item = read(alloc, reader, depth)?;
        found.push(item)?;
    }
    Ok(found)
}

/// Of equal keys the last value stays.
#[cycle(read)]
fn read_members(
    alloc: Global,
    reader: &mut Reader<'_>,
    depth: usize,
) -> Result<Map<String, Value>, TextFault>
    ensures ok { IfOk result
        (λ m. converted (λ ms. of_members ms no_members)
        (members (value depth) (length reader.old) reader.old)
        ≡ Some (members_view m.entries, reader.new)) }
    ensures shorter { OnOk result (length reader.new < length reader.old) }
    ensures err { result ≡ Err NotJson
        → converted (λ ms. of_members ms no_members)
        (members (value depth) (length reader.old) reader.old) ≡ None }
{
    let mut found = Map::new(alloc);
    'members: while let Some(name) = reader.next_key()? {
        let key = String::from_str(alloc, name)?;
        let member = read(alloc, reader, depth)?;
        drop(found.insert(key, member)?);
    }
    Ok(found)
}
