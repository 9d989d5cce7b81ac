//! The trails of parts by their response keys.
ghost use Rattle.std.specs.Prelude.{◌≡◌, ◌++◌, ◌<◌, [], ◌∷◌, true, map, length, IfOk, OnOk};
ghost use Rattle.store_retain.specs.RoadView.{road_of, roads_in, table_of, IsPlaced, put_at};
ghost use Rattle.store_retain.specs.Steps.{LeadAlike};
ghost use Rattle.store_retain.specs.TrailView.{way_at, way_of};
ghost use Rattle.store_retain.specs.Ways.{below_all, roads_of, roads_onto, ways_in, ways_of, ways_on, with_way};

use crate::trail::{Trail, TrailAt};
use plan_ir::NoMemory;
use std::alloc::Global;
use std::collections::BTreeMap;

/// The trails of one response key.
#[derive(Drop)]
pub(crate) struct Road<'t> {
    pub(crate) response: &'t str,
    pub(crate) trails: Vec<TrailAt<'t>>,
}

/// Trails by their response keys, in order of first response key.
#[derive(Drop)]
pub(crate) struct Gathered<'t> {
    pub(crate) roads: Vec<Road<'t>>,
    /// Where the trails of a response key stand.
    pub(crate) places: BTreeMap<&'t str, usize>,
}

/// The roads from a record of that type, by the numbers of the parts that go on there.
pub(crate) fn roads_from<'t>(
    alloc: Global,
    parts: &'t [Vec<Trail>],
    object: &str,
    numbers: &[usize],
) -> Result<Vec<Road<'t>>, NoMemory>
    ensures { IfOk result (λ roads. map road_of roads.items ≡ roads_of (ways_of (table_of parts.now) object.now numbers.now)) }
{
    let mut gathered = Gathered::new(alloc);
    'numbers: for number in numbers {
        gathered.put_number(alloc, parts, object, *number)?;
    }
    Ok(gathered.roads)
}

impl<'t> Gathered<'t> {
    /// No trail; takes no memory.
    fn new(alloc: Global) -> Gathered<'t>
        ensures none { roads_in result ≡ [] }
        ensures placed { IsPlaced result }
    {
        Gathered {
            roads: Vec::new(alloc),
            places: BTreeMap::new(alloc),
        }
    }

    /// Puts the trails of the part of a number that are asked of objects of that type; none where there
    /// is no such part.
    fn put_number(
        &mut self,
        alloc: Global,
        parts: &'t [Vec<Trail>],
        object: &str,
        number: usize,
    ) -> Result<(), NoMemory>
        requires { IsPlaced self.old }
        ensures put { OnOk result (roads_in self.new ≡ roads_onto (roads_in self.old) (ways_on object.now (ways_in (table_of parts.now) number))) }
        ensures placed { OnOk result (IsPlaced self.new) }
    {
        match parts.get(number) {
            Some(trails) => self.put_part(alloc, object, trails),
            None => Ok(()),
        }
    }

    /// Puts the trails of a part that are asked of objects of that type.
    fn put_part(&mut self, alloc: Global, object: &str, trails: &'t [Trail]) -> Result<(), NoMemory>
        requires { IsPlaced self.old }
        ensures put { OnOk result (roads_in self.new ≡ roads_onto (roads_in self.old) (ways_on object.now (map way_of trails.now))) }
        ensures placed { OnOk result (IsPlaced self.new) }
    {
        'trails: for trail in trails {
            self.put_asked(alloc, object, trail)?;
        }
        Ok(())
    }

    /// Puts a trail where it is asked of objects of that type.
    fn put_asked(&mut self, alloc: Global, object: &str, trail: &'t Trail) -> Result<(), NoMemory>
        requires { IsPlaced self.old }
        ensures put { OnOk result (roads_in self.new ≡ roads_onto (roads_in self.old) (ways_on object.now (way_of trail.now ∷ []))) }
        ensures placed { OnOk result (IsPlaced self.new) }
    {
        if !trail.is_on(object) {
            return Ok(());
        }
        self.put(alloc, trail)?;
        Ok(())
    }

    /// Puts a trail behind those of its response key.
    fn put(&mut self, alloc: Global, trail: &'t Trail) -> Result<(), NoMemory>
        requires { IsPlaced self.old }
        ensures put { OnOk result (roads_in self.new ≡ with_way (roads_in self.old) (way_of trail.now)) }
        ensures placed { OnOk result (IsPlaced self.new) }
    {
        let response = trail.response.as_str();
        match self.places.get(response) {
            Some(place) => {
                put_behind(&mut self.roads, *place, trail)?;
                Ok(())
            }
            None => {
                let road = road_with(alloc, trail)?;
                drop(self.places.insert(response, self.roads.len())?);
                self.roads.push(road)?;
                Ok(())
            }
        }
    }
}

/// The road of a trail alone.
fn road_with<'t>(alloc: Global, trail: &'t Trail) -> Result<Road<'t>, NoMemory>
    ensures { IfOk result (λ road. road_of road ≡ record { response = (way_of trail.now).response; ways = way_of trail.now ∷ [] }) }
{
    let mut trails = Vec::with_capacity(alloc, 1)?;
    trails.push(TrailAt { trail })?;
    Ok(Road {
        response: trail.response.as_str(),
        trails,
    })
}

/// Puts a trail behind those of the road at a place.
fn put_behind<'t>(roads: &mut Vec<Road<'t>>, place: usize, trail: &'t Trail) -> Result<(), NoMemory>
    requires { place < length roads.old.items }
    ensures { OnOk result (map road_of roads.new.items ≡ put_at place (map road_of roads.old.items) (way_of trail.now)) }
{
    let road = &mut roads[place];
    road.trails.push(TrailAt { trail })?;
    Ok(())
}

/// The numbers of the parts below trails.
pub(crate) fn numbers_below(alloc: Global, trails: &[TrailAt<'_>]) -> Result<Vec<usize>, NoMemory>
    ensures { IfOk result (λ numbers. numbers.items ≡ below_all (map way_at trails.now)) }
{
    let mut numbers = Vec::with_capacity(alloc, trails.len())?;
    'trails: for trail in trails {
        numbers.push(trail.trail.below)?;
    }
    Ok(numbers)
}

/// The trails, but none that leads to the same as the one before it.
pub(crate) fn unlike<'t>(
    alloc: Global,
    trails: &[TrailAt<'t>],
) -> Result<Vec<TrailAt<'t>>, NoMemory>
    ensures { IfOk result (λ unlike. LeadAlike (map way_at unlike.items) (map way_at trails.now)) }
{
    let mut unlike = Vec::new(alloc);
    'trails: for at in trails {
        put_unlike(&mut unlike, at.trail)?;
    }
    Ok(unlike)
}

/// Puts a trail behind others, unless it leads to the same as the last of them.
fn put_unlike<'t>(trails: &mut Vec<TrailAt<'t>>, trail: &'t Trail) -> Result<(), NoMemory>
    ensures { OnOk result (LeadAlike (map way_at trails.new.items) (map way_at trails.old.items ++ way_of trail.now ∷ [])) }
{
    if is_like_last(trails, trail) {
        return Ok(());
    }
    trails.push(TrailAt { trail })?;
    Ok(())
}

/// Whether a trail leads to the same as the last of others; takes no memory.
fn is_like_last(trails: &[TrailAt<'_>], trail: &Trail) -> bool
    ensures { result ≡ true → LeadAlike (map way_at trails.now) (map way_at trails.now ++ way_of trail.now ∷ []) }
{
    match trails.last() {
        Some(last) => last.trail.is_like(trail),
        None => false,
    }
}
