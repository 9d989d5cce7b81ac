//! Making what plans ask of records, once for each type.
ghost use Rattle.std.specs.Prelude.{◌≡◌, ◌<◌, ◌++◌, map, IfOk, OnOk};
ghost use Rattle.store_read.specs.CacheView.{AreRight, IsPlaceOf, IsRight, IsTypeAt, group_view, pointer_view};
ghost use Rattle.store_read.specs.Caching.{read_group, read_pointer};
ghost use Rattle.store_read.specs.FieldView.{part_at, spread_at, IsKept};
ghost use Rattle.store_read.specs.Gathering.{group_of, AreKept};
ghost use Rattle.plan_ir.specs.store_model.Items.{parts};

use crate::cache::{Cache, FieldGroup, PointerAt, TypeItems};
use crate::field::{FieldAt, PartAt};
use crate::gathered::{Fields, gather};
use crate::spread::SpreadAt;
use crate::store::one_name;
use plan_ir::{NoMemory, Pairs};
use std::alloc::Global;
use std::collections::BTreeMap;

impl<'p> Cache<'p> {
    /// What these parts ask; nothing is made yet, which takes no memory.
    pub(crate) fn new(alloc: Global, parts: Vec<PartAt<'p>>, levels: usize) -> Cache<'p>
        ensures { result ≡ record { parts = map part_at parts.entry.items; levels = levels } }
    {
        Cache {
            parts,
            levels,
            places: BTreeMap::new(alloc),
            types: Vec::new(alloc),
        }
    }
}

/// The place of what parts ask of a record of a type, which is made where it is not there yet. With n
/// types there, it takes about log n steps.
pub(crate) fn place_of<'p>(
    alloc: Global,
    parts: &[PartAt<'p>],
    levels: usize,
    places: &mut BTreeMap<&'p str, usize>,
    types: &mut Vec<TypeItems<'p>>,
    name: &'p str,
) -> Result<usize, NoMemory>
    requires right { AreRight (map part_at parts.now) levels types.old.items }
    requires some { 0 < levels }
    ensures right { AreRight (map part_at parts.now) levels types.new.items }
    ensures place { IfOk result (λ at. IsTypeAt types.new.items at name.now) }
{
    if let Some(place) = known_place(places, types, name) {
        return Ok(place);
    }
    let made = items_of_type(alloc, parts, levels, name)?;
    let place = types.len();
    drop(places.insert(name, place)?);
    types.push(made)?;
    Ok(place)
}

/// The place of what is asked of a type, where it is there; takes no memory.
fn known_place(places: &BTreeMap<&str, usize>, types: &[TypeItems<'_>], name: &str) -> Option<usize>
    ensures { IsPlaceOf types.now name.now result }
{
    let place = *places.get(name)?;
    if place >= types.len() {
        return None;
    }
    if types[place].name == name {
        return Some(place);
    }
    None
}

/// What parts ask of a record of a type; nothing is made below.
fn items_of_type<'p>(
    alloc: Global,
    parts: &[PartAt<'p>],
    levels: usize,
    name: &'p str,
) -> Result<TypeItems<'p>, NoMemory>
    requires { 0 < levels }
    ensures right { IfOk result (λ made. IsRight (map part_at parts.now) levels made) }
    ensures named { IfOk result (λ made. made.name.now ≡ name.now) }
{
    let levels = levels - 1;
    let gathered = gather(alloc, name, parts)?;
    let groups = groups_made(alloc, &gathered.groups, levels)?;
    let pointers = pointers_made(alloc, &gathered.spreads, levels)?;
    Ok(TypeItems {
        name,
        itself: one_name(alloc, name)?,
        groups,
        pointers,
    })
}

/// What is read of groups of fields.
fn groups_made<'p>(
    alloc: Global,
    groups: &[Fields<'p>],
    levels: usize,
) -> Result<Vec<FieldGroup<'p>>, NoMemory>
    requires { AreKept groups.now }
    ensures { IfOk result (λ made. map group_view made.items ≡ map (read_group levels) (map group_of groups.now)) }
{
    let mut made = Vec::with_capacity(alloc, groups.len())?;
    'groups: for fields in groups {
        made.push(group_made(alloc, fields, levels)?)?;
    }
    Ok(made)
}

/// What is read of fields of one response key.
fn group_made<'p>(
    alloc: Global,
    fields: &Fields<'p>,
    levels: usize,
) -> Result<FieldGroup<'p>, NoMemory>
    requires { IsKept fields.now.first }
    ensures { IfOk result (λ made. group_view made ≡ read_group levels (group_of fields.now)) }
{
    let key = fields.first.read_key(alloc)?;
    let parts = parts_of(alloc, fields)?;
    Ok(FieldGroup {
        response: fields.first.response.as_str(),
        key,
        form: fields.first.form,
        below: Cache::new(alloc, parts, levels),
    })
}

/// What stands below fields.
fn parts_of<'p>(alloc: Global, fields: &Fields<'p>) -> Result<Vec<PartAt<'p>>, NoMemory>
    ensures { IfOk result (λ below. map part_at below.items ≡ parts (group_of fields.now)) }
{
    let mut parts = Vec::new(alloc);
    parts.push(fields.first.part)?;
    put_parts(&mut parts, &fields.others)?;
    Ok(parts)
}

/// Puts what stands below each of the fields.
fn put_parts<'p>(parts: &mut Vec<PartAt<'p>>, fields: &[FieldAt<'p>]) -> Result<(), NoMemory>
    ensures { OnOk result (map part_at parts.new.items ≡ map part_at parts.old.items ++ map (λ f. part_at f.part) fields.now) }
{
    'fields: for field in fields {
        parts.push(field.part)?;
    }
    Ok(())
}

/// What is read of spreads.
fn pointers_made<'p>(
    alloc: Global,
    spreads: &[SpreadAt<'p>],
    levels: usize,
) -> Result<Vec<PointerAt<'p>>, NoMemory>
    ensures { IfOk result (λ made. map pointer_view made.items ≡ map (read_pointer levels) (map spread_at spreads.now)) }
{
    let mut made = Vec::with_capacity(alloc, spreads.len())?;
    'spreads: for spread in spreads {
        made.push(pointer_made(alloc, spread, levels)?)?;
    }
    Ok(made)
}

/// What is read of a spread. The values of its local variables are shown only where its fragment is
/// not read.
fn pointer_made<'p>(
    alloc: Global,
    spread: &SpreadAt<'p>,
    levels: usize,
) -> Result<PointerAt<'p>, NoMemory>
    ensures { IfOk result (λ made. pointer_view made ≡ read_pointer levels (spread_at spread.now)) }
{
    let mut parts = Vec::new(alloc);
    parts.push(spread.body)?;
    let scope = shown_scope(alloc, spread)?;
    Ok(PointerAt {
        fragment: spread.fragment.as_str(),
        scope,
        inline: spread.inline,
        body: Cache::new(alloc, parts, levels),
    })
}

/// The values of local variables, none where the fragment is read.
fn shown_scope(alloc: Global, spread: &SpreadAt<'_>) -> Result<Pairs, NoMemory>
    ensures { IfOk result (λ scope. scope ≡ (read_pointer 0 (spread_at spread.now)).scope) }
{
    if spread.inline {
        return Ok(Pairs::new(alloc));
    }
    spread.scope(alloc)
}
