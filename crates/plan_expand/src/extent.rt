//! How large an operation or a fragment is, and the limits.
ghost use Rattle.std.specs.Prelude.{◌≡◌, ◌||◌, nat_le, IfOk, OnOk};
ghost use Rattle.plan_expand.specs.Extents as spec;

use crate::size::{Size, sum};
use plan_ir::NoMemory;

/// How many nodes there may be.
const MOST_NODES: usize = 100_000;

/// How many selection sets, and how many lists and objects, may stand in one another.
const MOST_LEVELS: usize = 60;

/// How many nodes there are, on how many levels they stand, and how many lists and objects stand in
/// one another.
#[derive(Clone, Copy, Debug)]
pub(crate) struct Extent {
    pub(crate) count: usize,
    pub(crate) sets: usize,
    pub(crate) values: usize,
}

impl Extent {
    /// That of values alone.
    pub(crate) fn of_values(values: Size) -> Extent
        ensures { result ≡ spec.values_extent values }
    {
        Extent {
            count: values.count,
            sets: 0,
            values: values.depth,
        }
    }

    /// Adds a node on that level, with its values, and with what is added to its set.
    pub(crate) fn put_node(
        &mut self,
        level: usize,
        values: Size,
        added: Size,
    ) -> Result<(), NoMemory>
        ensures { OnOk result (self.new ≡ spec.both self.old (spec.node_extent level values added)) }
    {
        let inside = sum(values.count, added.count)?;
        let node = sum(1, inside)?;
        let count = sum(self.count, node)?;
        let deepest = sum(level, added.depth)?;
        *self = Extent {
            count,
            sets: self.sets.max(deepest),
            values: self.values.max(values.depth),
        };
        Ok(())
    }

    /// Whether there are more nodes than there may be.
    pub(crate) fn has_too_many_nodes(self) -> bool
        ensures { result ≡ nat_le 100001 self.count }
    {
        self.count > MOST_NODES
    }

    /// Whether something nests too deep.
    pub(crate) fn is_too_deep(self) -> bool
        ensures { result ≡ (nat_le 61 self.sets || nat_le 61 self.values) }
    {
        if self.sets > MOST_LEVELS {
            return true;
        }
        self.values > MOST_LEVELS
    }
}
