//! What is followed from records of one type by the same parts, made once for all of them.
ghost use Rattle.std.specs.Prelude.{◌≡◌, ◌&&◌, [], map, bytes_eq, IfOk};
ghost use Rattle.store_retain.specs.PathView.{AreRight, ArePathsOf, IsMadeAt, IsPathOf, IsPlaceOf, IsRight};
ghost use Rattle.store_retain.specs.RoadView.{road_of, table_of};

use crate::roads::{Road, numbers_below, roads_from, unlike};
use crate::trail::{Trail, TrailAt};
use plan_ir::NoMemory;
use std::alloc::Global;
use std::collections::BTreeMap;

/// What is followed of a road.
#[derive(Drop)]
pub(crate) struct Path<'t> {
    /// Its trails, but none that leads to the same as the one before it.
    pub(crate) trails: Vec<TrailAt<'t>>,
    /// The numbers of the parts below all its trails.
    pub(crate) numbers: Vec<usize>,
}

/// What is followed from records of a type, by the numbers of the parts that go on there.
#[derive(Drop)]
pub(crate) struct Paths<'t, 's, 'k> {
    pub(crate) object: &'s str,
    pub(crate) numbers: &'k [usize],
    pub(crate) paths: Vec<Path<'t>>,
}

impl Paths<'_, '_, '_> {
    /// Whether they are those of a type and of parts; takes no memory.
    fn are_for(&self, object: &str, numbers: &[usize]) -> bool
        ensures { result ≡ (bytes_eq self.now.object.now object.now && bytes_eq self.now.numbers.now numbers.now) }
    {
        self.object == object && self.numbers == numbers
    }
}

/// The paths of types and parts that were met.
#[derive(Drop)]
pub(crate) struct Known<'t, 's, 'k> {
    pub(crate) made: Vec<Paths<'t, 's, 'k>>,
    /// Where the paths of a type and of parts stand.
    pub(crate) places: BTreeMap<(&'s str, &'k [usize]), usize>,
}

impl<'t, 's, 'k> Known<'t, 's, 'k> {
    /// None yet; takes no memory.
    pub(crate) fn new(alloc: Global) -> Known<'t, 's, 'k>
        ensures { result.made.items ≡ [] }
    {
        Known {
            made: Vec::new(alloc),
            places: BTreeMap::new(alloc),
        }
    }

    /// The place of the paths from records of a type by the parts of these numbers, which are made where
    /// they are not there yet. With n of them there, it takes about log n steps.
    pub(crate) fn place_of(
        &mut self,
        alloc: Global,
        parts: &'t [Vec<Trail>],
        object: &'s str,
        numbers: &'k [usize],
    ) -> Result<usize, NoMemory>
        requires { AreRight (table_of parts.now) self.old.made.items }
        ensures right { AreRight (table_of parts.now) self.new.made.items }
        ensures place { IfOk result (λ at. IsMadeAt self.new.made.items at object.now numbers.now) }
    {
        if let Some(place) = known_place(&self.places, &self.made, object, numbers) {
            return Ok(place);
        }
        let paths = paths_from(alloc, parts, object, numbers)?;
        let place = self.made.len();
        drop(self.places.insert((object, numbers), place)?);
        self.made.push(paths)?;
        Ok(place)
    }
}

/// The place of the paths of a type and of parts, where they are there; takes no memory.
fn known_place<'s, 'k>(
    places: &BTreeMap<(&'s str, &'k [usize]), usize>,
    made: &[Paths<'_, '_, '_>],
    object: &'s str,
    numbers: &'k [usize],
) -> Option<usize>
    ensures { IsPlaceOf made.now object.now numbers.now result }
{
    let place = *places.get(&(object, numbers))?;
    if place >= made.len() {
        return None;
    }
    if made[place].are_for(object, numbers) {
        return Some(place);
    }
    None
}

/// The paths from records of a type by the parts of these numbers.
fn paths_from<'t, 's, 'k>(
    alloc: Global,
    parts: &'t [Vec<Trail>],
    object: &'s str,
    numbers: &'k [usize],
) -> Result<Paths<'t, 's, 'k>, NoMemory>
    ensures right { IfOk result (IsRight (table_of parts.now)) }
    ensures object { IfOk result (λ made. made.object.now ≡ object.now) }
    ensures numbers { IfOk result (λ made. made.numbers.now ≡ numbers.now) }
{
    let roads = roads_from(alloc, parts, object, numbers)?;
    let paths = paths_of(alloc, &roads)?;
    Ok(Paths {
        object,
        numbers,
        paths,
    })
}

/// The path of each road.
fn paths_of<'t>(alloc: Global, roads: &[Road<'t>]) -> Result<Vec<Path<'t>>, NoMemory>
    ensures { IfOk result (λ paths. ArePathsOf paths.items (map road_of roads.now)) }
{
    let mut paths = Vec::with_capacity(alloc, roads.len())?;
    'roads: for road in roads {
        let path = path_of(alloc, road)?;
        paths.push(path)?;
    }
    Ok(paths)
}

/// The path of a road.
fn path_of<'t>(alloc: Global, road: &Road<'t>) -> Result<Path<'t>, NoMemory>
    ensures { IfOk result (λ path. IsPathOf path (road_of road.now)) }
{
    let trails = unlike(alloc, &road.trails)?;
    let numbers = numbers_below(alloc, &road.trails)?;
    Ok(Path { trails, numbers })
}
