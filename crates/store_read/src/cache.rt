//! What plans ask of records, by types.
use crate::field::PartAt;
use plan_groups::FormAt;
use plan_ir::{Ids, Pairs, SharedText};
use std::collections::BTreeMap;
use std::marker::Model;

/// What plans ask of records, made for each type when a record of it is met first, and used for every
/// other one. It is seen as the plans, and how many records may be stood at one below another.
#[cycle(cache)]
#[derive(Drop)]
pub(crate) struct Cache<'p> {
    pub(crate) parts: Vec<PartAt<'p>>,
    pub(crate) levels: usize,
    /// Where what is asked of a type may stand.
    pub(crate) places: BTreeMap<&'p str, usize>,
    pub(crate) types: Vec<TypeItems<'p>>,
}

/// What plans ask of a record of a type.
#[cycle(cache)]
#[derive(Drop)]
pub(crate) struct TypeItems<'p> {
    pub(crate) name: &'p str,
    /// The type alone.
    pub(crate) itself: Ids,
    pub(crate) groups: Vec<FieldGroup<'p>>,
    pub(crate) pointers: Vec<PointerAt<'p>>,
}

/// The fields of one response key, and what is asked below them.
#[cycle(cache)]
#[derive(Drop)]
pub(crate) struct FieldGroup<'p> {
    pub(crate) response: &'p str,
    /// The key that they are read under, made once.
    pub(crate) key: SharedText,
    pub(crate) form: FormAt<'p>,
    pub(crate) below: Cache<'p>,
}

/// The first spread of a fragment, and what its body asks where it is read.
#[cycle(cache)]
#[derive(Drop)]
pub(crate) struct PointerAt<'p> {
    pub(crate) fragment: &'p str,
    /// The values of the fragment's local variables, made once.
    pub(crate) scope: Pairs,
    pub(crate) inline: bool,
    pub(crate) body: Cache<'p>,
}

impl<'p> Model for Cache<'p> {
    ghost use Rattle.store_read.specs.Caching.{Caching, coded_caching};

    ghost Value = { Caching };

    ghost coded = { coded_caching };

    ghost use Rattle.std.specs.Prelude.{map};
    ghost use Rattle.store_read.specs.FieldView.{part_at};

    ghost view = { λ c. record { parts = map part_at c.parts.items; levels = c.levels } };

    ghost use Rattle.store_read.specs.CacheView.{AreRight};

    ghost invariant = { λ c. AreRight (map part_at c.parts.items) c.levels c.types.items };

    ghost size = { λ c. c.levels };

    ghost use Rattle.store_read.specs.CacheFalls.{cache_falls};

    ghost size_decreases = { λ c right. cache_falls (map part_at c.parts.items) c.levels c.types.items right };
}
