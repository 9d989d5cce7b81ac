//! The members of JSON objects.
ghost use Rattle.std.specs.Prelude.{◌≡◌, ℕ, List, bytes_eq, option_map, IfOk};
ghost use Rattle.std.specs.HashMap as hash;
ghost use Rattle.serde_json.specs.Find.{get_member};
ghost use Rattle.serde_json.specs.View.{view, members_view};
ghost use Rattle.store_norm.specs.Tables.{IsTabled};

use plan_ir::NoMemory;
use serde_json::{Map, Value};
use std::alloc::Global;
use std::collections::HashMap;

/// The most keys that are sought, and the most members among which they are, without a table.
const FEW: usize = 64;

/// The value of a key; takes no memory.
pub(crate) fn member<'r>(members: &'r Map<String, Value>, key: &str) -> Option<&'r Value>
    ensures { option_map (λ v. view v.now) result ≡ get_member key.now (members_view members.now.entries) }
{
    members.get(key)
}

/// The members of an object in which keys are sought.
#[derive(Drop)]
pub(crate) struct Members<'r> {
    pub(crate) map: &'r Map<String, Value>,
    /// The values by their keys, where many are sought among many: the map is met at a dozen places for
    /// one of them, and the table at two.
    pub(crate) table: Option<HashMap<&'r str, &'r Value>>,
}

impl<'r> Members<'r> {
    /// The members of an object in which so many keys are sought. n members take about n steps where
    /// they are many, and none else.
    pub(crate) fn new(
        alloc: Global,
        map: &'r Map<String, Value>,
        sought: usize,
    ) -> Result<Members<'r>, NoMemory>
        ensures map { IfOk result (λ members. members.map.now ≡ map.now) }
        ensures tabled { IfOk result IsTabled }
    {
        if sought <= FEW || map.len() <= FEW {
            return Ok(Members { map, table: None });
        }
        let table = table_of(alloc, map)?;
        Ok(Members {
            map,
            table: Some(table),
        })
    }

    /// The value of a key; takes no memory.
    pub(crate) fn get(&self, key: &str) -> Option<&'r Value>
        requires { IsTabled self.now }
        ensures { option_map (λ v. view v.now) result ≡ get_member key.now (members_view self.now.map.now.entries) }
    {
        match &self.table {
            Some(table) => table.get(key).copied(),
            None => member(self.map, key),
        }
    }
}

/// The values of members by their keys.
fn table_of<'r>(
    alloc: Global,
    map: &'r Map<String, Value>,
) -> Result<HashMap<&'r str, &'r Value>, NoMemory>
    ensures { IfOk result (λ table. (key : List ℕ) → option_map (λ v. view v.now) (hash.get_by (λ k. bytes_eq key k.now) table) ≡ get_member key (members_view map.now.entries)) }
{
    let mut table = HashMap::with_capacity(alloc, map.len())?;
    'members: for (key, value) in map {
        drop(table.insert(key.as_str(), value)?);
    }
    Ok(table)
}
