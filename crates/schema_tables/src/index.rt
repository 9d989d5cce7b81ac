//! The places of names in lists.
ghost use Rattle.std.specs.Prelude.{◌≡◌, ℕ, List, map, bytes_eq, option_copied, IfOk, OnOk};
ghost use Rattle.gql_graph.specs.gql_plain.Order.{AreInOrder};
ghost use Rattle.schema_tables.specs.Indexes.{IsNameIndex, IsSortedFrom, is_named, name_at, pair_of, place_among, place_of};
ghost use Rattle.schema_tables.specs.Places.{first_at, first_place, first_that};

use gql_ast::gql_plain::{Name, NoMemory};
use gql_ast::{EnumValue, FieldTree, InputTree, SchemaDef};
use std::alloc::Global;

/// A part of a schema that has a name.
pub trait Named {
    ghost name: { Self → List ℕ };

    /// The name; empty for a `schema` definition.
    fn name(&self) -> &str
        ensures { result.now ≡ name self.now };
}

impl Named for Name {
    ghost use Rattle.schema_tables.specs.Indexes.{own_name};

    ghost name = { own_name };

    fn name(&self) -> &str {
        self.as_str()
    }
}

impl Named for FieldTree {
    ghost use Rattle.schema_tables.specs.Indexes.{field_name};

    ghost name = { field_name };

    fn name(&self) -> &str {
        self.name.as_str()
    }
}

impl Named for InputTree {
    ghost use Rattle.schema_tables.specs.Indexes.{input_name};

    ghost name = { input_name };

    fn name(&self) -> &str {
        self.name.as_str()
    }
}

impl Named for SchemaDef {
    ghost use Rattle.schema_tables.specs.Indexes.{definition_name};

    ghost name = { definition_name };

    fn name(&self) -> &str {
        match self {
            SchemaDef::Schema { .. } => "",
            SchemaDef::Scalar { name, .. } => name.as_str(),
            SchemaDef::Object { name, .. } => name.as_str(),
            SchemaDef::Interface { name, .. } => name.as_str(),
            SchemaDef::Union { name, .. } => name.as_str(),
            SchemaDef::Enum { name, .. } => name.as_str(),
            SchemaDef::Input { name, .. } => name.as_str(),
            SchemaDef::Directive { name, .. } => name.as_str(),
        }
    }
}

/// A name and its place in a list.
#[derive(Clone, Copy)]
pub(crate) struct NamePlace<'a> {
    pub(crate) name: &'a str,
    pub(crate) at: usize,
}

/// Puts a name with its place.
pub(crate) fn put<'a>(
    pairs: &mut Vec<NamePlace<'a>>,
    name: &'a str,
    at: usize,
) -> Result<(), NoMemory>
    ensures { OnOk result ((n : List ℕ) → place_among (map pair_of pairs.new.items) n
        ≡ first_place (place_among (map pair_of pairs.old.items) n) (bytes_eq name.now n) at) }
{
    pairs.push(NamePlace { name, at })?;
    Ok(())
}

/// The places of the first element of each name in a list, in the byte order of the names.
#[derive(Debug, Drop)]
pub struct Index {
    pub(crate) places: Vec<usize>,
}

impl Index {
    /// The places of the names in a list.
    pub fn new<T: Named>(alloc: Global, items: &[T]) -> Result<Index, NoMemory>
        ensures { IfOk result (IsNameIndex T.name items.now) }
    {
        let mut pairs = Vec::with_capacity(alloc, items.len())?;
        'items: for (at, item) in items.iter().enumerate() {
            put(&mut pairs, item.name(), at)?;
        }
        Index::sort(alloc, pairs)
    }

    /// The places of the names; of one that stands several times, the first that is given.
    pub(crate) fn sort(alloc: Global, mut pairs: Vec<NamePlace<'_>>) -> Result<Index, NoMemory>
        ensures { IfOk result (λ index. IsSortedFrom (map pair_of pairs.entry.items) index.places.items) }
    {
        pairs.sort_by_key(|pair| pair.name)?;
        pairs.dedup_by_key(|pair| pair.name);
        let mut places = Vec::with_capacity(alloc, pairs.len())?;
        'pairs: for pair in &pairs {
            places.push(pair.at)?;
        }
        Ok(Index { places })
    }

    /// The place of the first element of a name in the list; takes no memory.
    pub fn find<T: Named>(&self, items: &[T], name: &str) -> Option<usize>
        requires { IsNameIndex T.name items.now self.now }
        ensures { result ≡ first_at (is_named T.name name.now) items.now }
    {
        find_place(items, &self.places, name)
    }

    /// The first element of a name in the list; takes no memory.
    pub fn get<'t, T: Named>(&self, items: &'t [T], name: &str) -> Option<&'t T>
        requires { IsNameIndex T.name items.now self.now }
        ensures { option_copied result ≡ first_that (is_named T.name name.now) items.now }
    {
        match self.find(items, name) {
            Some(at) => Some(&items[at]),
            None => None,
        }
    }
}

/// The place of a name in a list; takes no memory.
pub(crate) fn find_place<T: Named>(items: &[T], places: &[usize], name: &str) -> Option<usize>
    requires { AreInOrder (map (name_at T.name items.now) places.now) }
    ensures { result ≡ place_of T.name items.now places.now name.now }
{
    match places.binary_search_by(|at| name_at(items, *at).cmp(name)) {
        Ok(found) => Some(places[found]),
        Err(_) => None,
    }
}

/// The name at a place; empty where the list ends before it.
fn name_at<T: Named>(items: &[T], at: usize) -> &str
    ensures { result.now ≡ name_at T.name items.now at }
{
    match items.get(at) {
        Some(item) => item.name(),
        None => "",
    }
}
