//! Making the groups that plans ask of objects, once for each type.
ghost use Rattle.std.specs.Prelude.{◌≡◌, [], true, map, IfOk};
ghost use Rattle.plan_groups.specs.FieldView.{form_at, plan_at};
ghost use Rattle.store_norm.specs.CacheView.{AreRight, IsPlaceOf, IsRight, IsTypeAt};
ghost use Rattle.store_norm.specs.Caching.{caches, has_objects, parts_below};

use crate::cache::{GroupCache, TypeGroups};
use plan_groups::{FormAt, GroupAt, Groups, PlanAt};
use plan_ir::NoMemory;
use std::alloc::Global;
use std::collections::BTreeMap;

impl<'p> GroupCache<'p> {
    /// What these plans ask; nothing is made yet.
    fn new(alloc: Global, plans: &[PlanAt<'p>]) -> Result<GroupCache<'p>, NoMemory>
        ensures { IfOk result (λ cache. cache ≡ record { parts = map plan_at plans.now }) }
    {
        let mut parts = Vec::with_capacity(alloc, plans.len())?;
        'plans: for plan in plans {
            parts.push(*plan)?;
        }
        Ok(GroupCache {
            parts,
            places: BTreeMap::new(alloc),
            types: Vec::new(alloc),
        })
    }

    /// No plans, which ask nothing; takes no memory.
    fn empty(alloc: Global) -> GroupCache<'p>
        ensures { result ≡ record { parts = [] } }
    {
        GroupCache {
            parts: Vec::new(alloc),
            places: BTreeMap::new(alloc),
            types: Vec::new(alloc),
        }
    }
}

/// For each group what lies below it; nothing is made yet.
pub(crate) fn caches_below<'p>(
    alloc: Global,
    groups: &[GroupAt<'p>],
) -> Result<Vec<GroupCache<'p>>, NoMemory>
    ensures { IfOk result (λ below. below.items ≡ caches groups.now) }
{
    let mut below = Vec::with_capacity(alloc, groups.len())?;
    'groups: for group in groups {
        below.push(cache_below(alloc, group)?)?;
    }
    Ok(below)
}

/// What lies below a group; nothing is made yet. Where no objects stand under its fields nothing is ever
/// asked of it, and it takes no memory.
fn cache_below<'p>(alloc: Global, group: &GroupAt<'p>) -> Result<GroupCache<'p>, NoMemory>
    ensures { IfOk result (λ cache. cache ≡ record { parts = parts_below group.now }) }
{
    if has_objects(&group.form()) {
        return GroupCache::new(alloc, group.parts());
    }
    Ok(GroupCache::empty(alloc))
}

/// Whether objects, or a list of them, stand under a field; takes no memory.
fn has_objects(form: &FormAt<'_>) -> bool
    ensures { result ≡ has_objects (form_at form.now) }
{
    match form {
        FormAt::Typename => false,
        FormAt::Leaf => false,
        FormAt::One(_) => true,
        FormAt::Many(_) => true,
    }
}

/// The place of the groups that plans ask of an object of a type, which are made where they are not
/// there yet. It takes about log n steps with n types there, and one for the type that was made first.
pub(crate) fn place_of<'p>(
    alloc: Global,
    plans: &[PlanAt<'p>],
    places: &mut BTreeMap<&'p str, usize>,
    types: &mut Vec<TypeGroups<'p>>,
    name: &'p str,
) -> Result<usize, NoMemory>
    requires { AreRight (map plan_at plans.now) types.old.items }
    ensures right { AreRight (map plan_at plans.now) types.new.items }
    ensures place { IfOk result (λ at. IsTypeAt types.new.items at name.now) }
{
    if let Some(place) = known_place(places, types, name) {
        return Ok(place);
    }
    let made = groups_of_type(alloc, plans, name)?;
    let place = types.len();
    drop(places.insert(name, place)?);
    types.push(made)?;
    Ok(place)
}

/// The place of the groups of a type, where they are there; takes no memory. The first place is looked
/// at first, since the elements of a list are mostly of one type.
fn known_place(
    places: &BTreeMap<&str, usize>,
    types: &[TypeGroups<'_>],
    name: &str,
) -> Option<usize>
    ensures { IsPlaceOf types.now name.now result }
{
    if is_at(types, 0, name) {
        return Some(0);
    }
    let place = *places.get(name)?;
    if is_at(types, place, name) {
        return Some(place);
    }
    None
}

/// Whether the groups of a type stand at a place; takes no memory.
fn is_at(types: &[TypeGroups<'_>], place: usize, name: &str) -> bool
    ensures { result ≡ true → IsTypeAt types.now place name.now }
{
    if place >= types.len() {
        return false;
    }
    if types[place].name == name {
        return true;
    }
    false
}

/// The groups that plans ask of an object of a type; nothing is made below.
fn groups_of_type<'p>(
    alloc: Global,
    plans: &[PlanAt<'p>],
    name: &'p str,
) -> Result<TypeGroups<'p>, NoMemory>
    ensures right { IfOk result (λ made. IsRight (map plan_at plans.now) made) }
    ensures named { IfOk result (λ made. made.name.now ≡ name.now) }
{
    let groups = Groups::of(alloc, name, plans)?;
    let below = caches_below(alloc, groups.as_slice())?;
    Ok(TypeGroups {
        name,
        groups,
        below,
    })
}
