//! From a JSON value to a plain tree.
ghost use Rattle.std.specs.Prelude.{◌≡◌, true, false, map, Err, IfOk, OnOk, string_bytes};
ghost use Rattle.std.specs.List.{list_all};
ghost use Rattle.serde_json.specs.View.{view};
ghost use Rattle.gql_plain.specs.FromJson.{is_whole, plain_tree};
ghost use Rattle.gql_plain.specs.Shown.{tree_of};
ghost use Rattle.gql_plain.specs.declared.from_value.PlainFault.TheVariants as PlainFault;

use crate::memory::NoMemory;
use crate::plain::{Pairs, Plain, Plains};
use crate::words::Words;
use serde_json::{Map, Value};
use std::alloc::Global;

/// Why a JSON value gives no plain tree.
#[derive(Clone, Copy, Debug, PartialEq, Eq)]
pub enum PlainFault {
    /// A number in it has no `i64`: it is written with a point or an exponent, is `-0`, or is out
    /// of range.
    NotWhole,
    NoMemory,
}

impl From<NoMemory> for PlainFault {
    ghost use Rattle.std.specs.Prelude.{◌≡◌};
    ghost use Rattle.gql_plain.specs.declared.from_value.PlainFault.TheVariants.{NoMemory};

    ghost from_gives = { λ _ fault. fault ≡ NoMemory };

    fn from(_refused: NoMemory) -> PlainFault {
        PlainFault::NoMemory
    }
}

/// The plain tree of a JSON value.
#[cycle(plain_of)]
#[tactic(auto, using(crate::proofs::JsonLevels::levels))]
pub fn plain_of(alloc: Global, value: &Value) -> Result<Plain, PlainFault>
    ensures same { IfOk result (λ plain. tree_of plain ≡ plain_tree (view value.now)) }
    ensures whole { OnOk result (is_whole (view value.now) ≡ true) }
    ensures not_whole { result ≡ Err PlainFault.NotWhole → is_whole (view value.now) ≡ false }
{
    match value {
        Value::Null => Ok(Plain::Null),
        Value::Bool(truth) => Ok(Plain::Bool(*truth)),
        Value::Number(number) => match number.as_i64() {
            Some(whole) => Ok(Plain::Int(whole)),
            None => Err(PlainFault::NotWhole),
        },
        Value::String(text) => Ok(Plain::Text(Words::new(alloc, text)?)),
        Value::Array(items) => Ok(Plain::List(plains_of(alloc, items)?)),
        Value::Object(members) => Ok(Plain::Tree(pairs_of(alloc, members)?)),
    }
}

/// The plain trees of a list of JSON values.
#[cycle(plain_of)]
#[tactic(auto, using(crate::proofs::JsonLevels::levels))]
fn plains_of(alloc: Global, items: &Vec<Value>) -> Result<Plains, PlainFault>
    ensures same { IfOk result
        (λ plains. plains ≡ map (λ item. plain_tree (view item)) items.now.items) }
    ensures whole { OnOk result
        (list_all (λ item. is_whole (view item)) items.now.items ≡ true) }
    ensures not_whole { result ≡ Err PlainFault.NotWhole
        → list_all (λ item. is_whole (view item)) items.now.items ≡ false }
{
    let mut plains = Plains::new(alloc);
    'items: for item in items {
        plains.push(plain_of(alloc, item)?)?;
    }
    Ok(plains)
}

/// The plain trees of an object's members, which stand in the order of their keys.
#[cycle(plain_of)]
#[tactic(auto, using(crate::proofs::JsonLevels::levels))]
fn pairs_of(alloc: Global, members: &Map<String, Value>) -> Result<Pairs, PlainFault>
    ensures same { IfOk result
        (λ pairs. pairs ≡ map (λ m. (string_bytes m.0, plain_tree (view m.1))) members.now.entries) }
    ensures whole { OnOk result
        (list_all (λ m. is_whole (view m.1)) members.now.entries ≡ true) }
    ensures not_whole { result ≡ Err PlainFault.NotWhole
        → list_all (λ m. is_whole (view m.1)) members.now.entries ≡ false }
{
    let mut pairs = Pairs::new(alloc);
    'members: for (key, member) in members.iter() {
        let name = Words::new(alloc, key)?;
        pairs.push(name, plain_of(alloc, member)?)?;
    }
    Ok(pairs)
}
