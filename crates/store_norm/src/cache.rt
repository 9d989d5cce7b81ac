//! The groups that plans ask of objects, by types.
use plan_groups::{Groups, PlanAt};
use std::collections::BTreeMap;
use std::marker::Model;

/// The groups that plans ask of objects, made for each type when an object of it is met first. It is
/// seen as the plans.
#[cycle(cache)]
#[derive(Drop)]
pub(crate) struct GroupCache<'p> {
    pub(crate) parts: Vec<PlanAt<'p>>,
    /// Where the groups of a type may stand.
    pub(crate) places: BTreeMap<&'p str, usize>,
    pub(crate) types: Vec<TypeGroups<'p>>,
}

/// The groups that plans ask of an object of a type, and what lies below each.
#[cycle(cache)]
#[derive(Drop)]
pub(crate) struct TypeGroups<'p> {
    pub(crate) name: &'p str,
    pub(crate) groups: Groups<'p>,
    pub(crate) below: Vec<GroupCache<'p>>,
}

impl<'p> Model for GroupCache<'p> {
    ghost use Rattle.store_norm.specs.Caching.{Caching, coded_caching};

    ghost Value = { Caching };

    ghost coded = { coded_caching };

    ghost use Rattle.std.specs.Prelude.{map};
    ghost use Rattle.plan_groups.specs.FieldView.{plan_at};

    ghost view = { λ c. record { parts = map plan_at c.parts.items } };

    ghost use Rattle.store_norm.specs.CacheView.{AreRight};

    ghost invariant = { λ c. AreRight (map plan_at c.parts.items) c.types.items };

    ghost use Rattle.store_norm.specs.Caching.{room};

    ghost size = { λ c. room c.parts };

    ghost use Rattle.store_norm.specs.CacheFalls.{cache_falls};

    ghost size_decreases = { λ c right. cache_falls (map plan_at c.parts.items) c.types.items right };
}
