//! Plain values, whole numbers and ids in JSON.
ghost use Rattle.std.specs.Prelude.{◌≡◌, map, option_map, option_and_then, IfOk};
ghost use Rattle.serde_json.specs.Find.{get_member};
ghost use Rattle.serde_json.specs.View.{view, members_view, items_view};
ghost use Rattle.store_model.specs.Events as events;

use crate::members::{is_there, member_at};
use serde_json::{Map, Value};
use std::alloc::Global;
use store_model::gql_plain::{Id, NoMemory, OptIds, Pairs, Plain, PlainFault, Words, plain_of};

/// The plain value of a JSON value whose numbers are all whole.
pub fn plain_in(alloc: Global, value: &Value) -> Result<Option<Plain>, NoMemory>
    ensures { IfOk result (λ plain. plain ≡ events.plain_of_data (view value.now)) }
{
    match plain_of(alloc, value) {
        Ok(plain) => Ok(Some(plain)),
        Err(PlainFault::NotWhole) => Ok(None),
        Err(PlainFault::NoMemory) => Err(NoMemory),
    }
}

/// The plain value under a key.
pub fn plain_at(
    alloc: Global,
    members: &Map<String, Value>,
    key: &str,
) -> Result<Option<Plain>, NoMemory>
    ensures { IfOk result (λ plain. plain ≡ events.plain_at key.now (members_view members.now.entries)) }
{
    match member_at(members, key) {
        Some(value) => plain_in(alloc, value),
        None => Ok(None),
    }
}

/// The plain value under a key, null where the key is left out.
pub fn plain_or_null(
    alloc: Global,
    members: &Map<String, Value>,
    key: &str,
) -> Result<Option<Plain>, NoMemory>
    ensures { IfOk result (λ plain. plain ≡ events.plain_or_null (get_member key.now (members_view members.now.entries))) }
{
    match member_at(members, key) {
        Some(value) => plain_in(alloc, value),
        None => Ok(Some(Plain::Null)),
    }
}

/// The pairs of an object whose numbers are all whole, empty where the key is left out.
pub fn object_at(
    alloc: Global,
    members: &Map<String, Value>,
    key: &str,
) -> Result<Option<Pairs>, NoMemory>
    ensures { IfOk result (λ pairs. pairs ≡ events.object_at key.now (members_view members.now.entries)) }
{
    match member_at(members, key) {
        Some(value) => object_in(alloc, value),
        None => Ok(Some(Pairs::new(alloc))),
    }
}

fn object_in(alloc: Global, value: &Value) -> Result<Option<Pairs>, NoMemory>
    ensures { IfOk result (λ pairs. pairs ≡ events.object_of (Some (view value.now))) }
{
    match plain_in(alloc, value)? {
        Some(Plain::Tree(pairs)) => Ok(Some(pairs)),
        _ => Ok(None),
    }
}

/// The whole number under a key; takes no memory.
pub fn whole_at(members: &Map<String, Value>, key: &str) -> Option<i64>
    ensures { result ≡ events.whole_at key.now (members_view members.now.entries) }
{
    match member_at(members, key) {
        Some(value) => whole_in(value),
        None => None,
    }
}

fn whole_in(value: &Value) -> Option<i64>
    ensures { result ≡ events.whole_of (view value.now) }
{
    value.as_i64()
}

/// The id, or null for none.
fn id_or_null(alloc: Global, value: &Value) -> Result<Option<Option<Id>>, NoMemory>
    ensures { IfOk result (λ id. id ≡ events.id_or_null (view value.now)) }
{
    if value.is_null() {
        return Ok(Some(None));
    }
    match value.as_str() {
        Some(text) if is_there(text) => Ok(Some(Some(Words::new(alloc, text)?))),
        _ => Ok(None),
    }
}

/// The id under a key, or null for none.
pub fn id_or_null_at(
    alloc: Global,
    members: &Map<String, Value>,
    key: &str,
) -> Result<Option<Option<Id>>, NoMemory>
    ensures { IfOk result (λ id. id ≡ option_and_then events.id_or_null (get_member key.now (members_view members.now.entries))) }
{
    match member_at(members, key) {
        Some(value) => id_or_null(alloc, value),
        None => Ok(None),
    }
}

/// The list of ids and nulls under a key.
pub fn ids_at(
    alloc: Global,
    members: &Map<String, Value>,
    key: &str,
) -> Result<Option<OptIds>, NoMemory>
    ensures { IfOk result (λ ids. ids ≡ option_and_then events.ids_of (get_member key.now (members_view members.now.entries))) }
{
    match member_at(members, key) {
        Some(value) => ids_in(alloc, value),
        None => Ok(None),
    }
}

fn ids_in(alloc: Global, value: &Value) -> Result<Option<OptIds>, NoMemory>
    ensures { IfOk result (λ ids. ids ≡ events.ids_of (view value.now)) }
{
    match value.as_array() {
        Some(items) => ids_or_nulls(alloc, items),
        None => Ok(None),
    }
}

fn ids_or_nulls(alloc: Global, items: &Vec<Value>) -> Result<Option<OptIds>, NoMemory>
    ensures { IfOk result (λ ids. ids ≡ events.ids_or_nulls (items_view items.now.items)) }
{
    let mut ids = OptIds::new(alloc);
    'items: for item in items {
        let Some(id) = id_or_null(alloc, item)? else {
            return Ok(None);
        };
        ids.push(id)?;
    }
    Ok(Some(ids))
}
