//! How large values and nodes are.
ghost use Rattle.std.specs.Prelude.{◌≡◌, ◌+◌, IfOk};
ghost use Rattle.plan_expand.specs.Sizes as spec;

use plan_ir::NoMemory;

/// How many nodes something has, and how many levels stand in one another.
#[derive(Clone, Copy, Debug)]
pub(crate) struct Size {
    pub(crate) count: usize,
    pub(crate) depth: usize,
}

/// The sum. A number that does not fit is answered as out of memory.
pub(crate) fn sum(one: usize, other: usize) -> Result<usize, NoMemory>
    ensures { IfOk result (λ n. n ≡ one + other) }
{
    match one.checked_add(other) {
        Some(all) => Ok(all),
        None => Err(NoMemory),
    }
}

impl Size {
    /// Nothing.
    pub(crate) fn nothing() -> Size
        ensures { result ≡ spec.nothing }
    {
        Size { count: 0, depth: 0 }
    }

    /// One node that has no level.
    pub(crate) fn one() -> Size
        ensures { result ≡ spec.one }
    {
        Size { count: 1, depth: 0 }
    }

    /// Both beside each other.
    pub(crate) fn beside(self, other: Size) -> Result<Size, NoMemory>
        ensures { IfOk result (λ size. size ≡ spec.beside self other) }
    {
        let count = sum(self.count, other.count)?;
        Ok(Size {
            count,
            depth: self.depth.max(other.depth),
        })
    }

    /// One node with this on the level inside it.
    pub(crate) fn inside(self) -> Result<Size, NoMemory>
        ensures { IfOk result (λ size. size ≡ spec.within self) }
    {
        let count = sum(self.count, 1)?;
        let depth = sum(self.depth, 1)?;
        Ok(Size { count, depth })
    }
}
