//! What a walk follows from a record.
ghost use Rattle.std.specs.Prelude.{◌≡◌};
ghost use Rattle.store_retain.specs.TrailView.{way_of};
ghost use Rattle.store_retain.specs.Ways.{is_like, is_on};

use plan_ir::{Ids, Words};

/// A field that is followed.
#[derive(Drop)]
pub(crate) struct Trail {
    /// The object types that it is asked of; None where it is asked of every one.
    pub(crate) on: Option<Ids>,
    pub(crate) response: Words,
    /// The key that it is stored under.
    pub(crate) key: Words,
    /// The key of its connection.
    pub(crate) handle: Option<Words>,
    /// The possible types of what it leads to; none for a leaf.
    pub(crate) types: Ids,
    /// The number of the part that stands below.
    pub(crate) below: usize,
}

impl Trail {
    /// Whether it is asked of objects of that type; takes no memory.
    pub(crate) fn is_on(&self, object: &str) -> bool
        ensures { result ≡ is_on (way_of self.now).on object.now }
    {
        match &self.on {
            Some(types) => types.contains(object),
            None => true,
        }
    }

    /// Whether it leads from each record to the same links as the other, with the same possible types;
    /// takes no memory.
    pub(crate) fn is_like(&self, other: &Trail) -> bool
        ensures { result ≡ is_like (way_of self.now) (way_of other.now) }
    {
        self.key == other.key && self.handle == other.handle && self.types == other.types
    }
}

/// A trail that stands in a part.
#[derive(Clone, Copy)]
pub(crate) struct TrailAt<'t> {
    pub(crate) trail: &'t Trail,
}
