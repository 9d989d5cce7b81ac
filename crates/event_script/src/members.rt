//! The members of JSON objects.
ghost use Rattle.std.specs.Prelude.{◌≡◌, map, option_map, IfOk};
ghost use Rattle.store_model.specs.gql_plain.Order.{has_text};
ghost use Rattle.serde_json.specs.Find.{get_member};
ghost use Rattle.serde_json.specs.View.{view, members_view};
ghost use Rattle.store_model.specs.Events as events;

use serde_json::{Map, Value};
use std::alloc::Global;
use store_model::gql_plain::{Id, Name, NoMemory, Words, is_name};

/// The name of a handle, a layer or a watch has at most this many bytes.
const MAX_NAME: usize = 200;

/// The id of the root record, which is neither made nor deleted.
const ROOT: &str = "client:root";

/// The value of a key; takes no memory.
pub fn member_at<'a>(members: &'a Map<String, Value>, key: &str) -> Option<&'a Value>
    ensures { option_map (λ v. view v.now) result ≡ get_member key.now (members_view members.now.entries) }
{
    members.get(key)
}

/// Whether each key is one of the names; takes no memory.
pub fn has_only(members: &Map<String, Value>, names: &[&str]) -> bool
    ensures { result ≡ events.has_only (map (λ name. name.now) names.now) (members_view members.now.entries) }
{
    'members: for (key, _) in members.iter() {
        if !is_among(names, key) {
            return false;
        }
    }
    true
}

fn is_among(names: &[&str], key: &str) -> bool
    ensures { result ≡ has_text (map (λ name. name.now) names.now) key.now }
{
    'names: for name in names {
        if *name == key {
            return true;
        }
    }
    false
}

/// The text of a key; takes no memory.
pub fn text_ref<'a>(members: &'a Map<String, Value>, key: &str) -> Option<&'a str>
    ensures { option_map (λ s. s.now) result ≡ events.text_at key.now (members_view members.now.entries) }
{
    match member_at(members, key) {
        Some(value) => value.as_str(),
        None => None,
    }
}

/// The text of a key.
pub fn text_at(
    alloc: Global,
    members: &Map<String, Value>,
    key: &str,
) -> Result<Option<Words>, NoMemory>
    ensures { IfOk result (λ text. text ≡ events.text_at key.now (members_view members.now.entries)) }
{
    match text_ref(members, key) {
        Some(text) => Ok(Some(Words::new(alloc, text)?)),
        None => Ok(None),
    }
}

/// The name of a handle, a layer or a watch under a key.
pub fn name_at(
    alloc: Global,
    members: &Map<String, Value>,
    key: &str,
) -> Result<Option<Words>, NoMemory>
    ensures { IfOk result (λ name. name ≡ events.name_at key.now (members_view members.now.entries)) }
{
    match text_ref(members, key) {
        Some(text) if is_short(text) => Ok(Some(Words::new(alloc, text)?)),
        _ => Ok(None),
    }
}

/// Whether a text is not empty.
pub fn is_there(text: &str) -> bool
    ensures { result ≡ events.is_there text.now }
{
    !text.is_empty()
}

/// Whether a text has 1 to 200 bytes; takes no memory.
pub fn is_short(text: &str) -> bool
    ensures { result ≡ events.is_short text.now }
{
    is_there(text) && text.len() <= MAX_NAME
}

/// The id of a record under a key.
pub fn id_at(alloc: Global, members: &Map<String, Value>, key: &str) -> Result<Option<Id>, NoMemory>
    ensures { IfOk result (λ id. id ≡ events.id_at key.now (members_view members.now.entries)) }
{
    match text_ref(members, key) {
        Some(text) if is_there(text) => Ok(Some(Words::new(alloc, text)?)),
        _ => Ok(None),
    }
}

/// The id under a key, of any record but the root.
pub fn other_id_at(
    alloc: Global,
    members: &Map<String, Value>,
    key: &str,
) -> Result<Option<Id>, NoMemory>
    ensures { IfOk result (λ id. id ≡ events.other_id_at key.now (members_view members.now.entries)) }
{
    match id_at(alloc, members, key)? {
        Some(id) if id.as_str() != ROOT => Ok(Some(id)),
        _ => Ok(None),
    }
}

/// The name of a field under a key.
pub fn field_name_at(
    alloc: Global,
    members: &Map<String, Value>,
    key: &str,
) -> Result<Option<Name>, NoMemory>
    ensures { IfOk result (λ name. name ≡ events.field_name_at key.now (members_view members.now.entries)) }
{
    match text_ref(members, key) {
        Some(text) if is_field_name(text) => Ok(Some(Words::new(alloc, text)?)),
        _ => Ok(None),
    }
}

/// Whether a text has the form of a Name (GraphQL, October 2021, section 2.1.9) and does not begin
/// with `__`.
fn is_field_name(text: &str) -> bool
    ensures { result ≡ events.is_field_name text.now }
{
    is_name(text) && !text.starts_with("__")
}
