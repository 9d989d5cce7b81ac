//! From a plain tree to a JSON value.
ghost use Rattle.std.specs.Prelude.{◌≡◌, map, IfOk};
ghost use Rattle.serde_json.specs.View.{view, members_view};
ghost use Rattle.gql_plain.specs.ToJson.{data_of, members_data};
ghost use Rattle.gql_plain.specs.Shown.{tree_of};
ghost use Rattle.gql_plain.specs.Tree.{members_of};

use crate::memory::NoMemory;
use crate::plain::{Pairs, Plain, Plains};
use serde_json::{Map, Value};
use std::alloc::Global;

/// The JSON value that is the same tree.
#[cycle(value_of)]
#[tactic(auto, using(crate::proofs::JsonLevels::levels))]
pub fn value_of(alloc: Global, plain: &Plain) -> Result<Value, NoMemory>
    ensures { IfOk result (λ value. view value ≡ data_of (tree_of plain.now)) }
{
    match plain {
        Plain::Null => Ok(Value::Null),
        Plain::Bool(truth) => Ok(Value::Bool(*truth)),
        Plain::Int(number) => Ok(Value::from(*number)),
        Plain::Text(text) => Ok(Value::String(String::from_str(alloc, text.as_str())?)),
        Plain::List(plains) => Ok(Value::Array(values_of(alloc, plains)?)),
        Plain::Tree(pairs) => Ok(Value::Object(object_of(alloc, pairs)?)),
    }
}

/// The JSON values of a list.
#[cycle(value_of)]
fn values_of(alloc: Global, plains: &Plains) -> Result<Vec<Value>, NoMemory>
    ensures { IfOk result (λ items. map view items.items ≡ map data_of plains.now) }
{
    let mut items = Vec::with_capacity(alloc, plains.len())?;
    'items: for plain in &plains.items {
        items.push(value_of(alloc, plain)?)?;
    }
    Ok(items)
}

/// The members of an object.
#[cycle(value_of)]
fn object_of(alloc: Global, pairs: &Pairs) -> Result<Map<String, Value>, NoMemory>
    ensures { IfOk result
        (λ members. members_view members.entries ≡ members_data (members_of pairs.now)) }
{
    let mut members = Map::new(alloc);
    'pairs: for (key, plain) in &pairs.entries {
        let name = String::from_str(alloc, key.as_str())?;
        drop(members.insert(name, value_of(alloc, plain)?)?);
    }
    Ok(members)
}
