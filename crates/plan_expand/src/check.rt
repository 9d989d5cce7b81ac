//! Whether an operation or a fragment is too large, before it is expanded.
ghost use Rattle.std.specs.Prelude.{option_copied, IfOk};
ghost use Rattle.plan_expand.specs.Adding.{IsRight};
ghost use Rattle.plan_expand.specs.Extents.{both, values_extent};
ghost use Rattle.plan_expand.specs.Measuring.{total};
ghost use Rattle.plan_expand.specs.ReadyView.{find_in};
ghost use Rattle.plan_expand.specs.Sizes.{own_sizes};
ghost use Rattle.plan_expand.specs.Verdicts.{IsEnough, IsVerdict};

use crate::additions::Adding;
use crate::extent::Extent;
use crate::fault::ExpandFault;
use crate::fragments::Fragments;
use crate::measure::{Measure, Progress, measure_pending, measure_set};
use crate::size::Size;
use crate::sizes::SizeScope;
use plan_ir::{NoMemory, Selections};
use std::alloc::Global;

/// Refuses what has more than 100,000 nodes, or else nests deeper than 60.
fn check_limits(extent: Extent) -> Result<(), ExpandFault>
    ensures { IsVerdict extent result }
{
    if extent.has_too_many_nodes() {
        return Err(ExpandFault::TooManyNodes);
    }
    if extent.is_too_deep() {
        return Err(ExpandFault::TooDeep);
    }
    Ok(())
}

/// How large a set is together with values of that size, when all its spreads are followed. The work
/// ends soon after the first node too many: what is found is then too large as well.
fn measure_all<'w, 'a>(
    alloc: Global,
    adding: &'w Adding<'a>,
    fragments: &'w Fragments<'a>,
    values: Size,
    around: Option<&'a str>,
    selections: &'a Selections,
    spreads: usize,
) -> Result<Extent, NoMemory>
    requires { IsRight adding.now }
    ensures { IfOk result (IsEnough (both (values_extent values) (total spreads adding.now.schema.now (find_in fragments.now) own_sizes 1 (option_copied around.entry) selections.now))) }
{
    let scope = SizeScope::Own;
    let extent = Extent::of_values(values);
    let pending = Vec::new(alloc);
    let mut progress = Progress { extent, pending };
    let measure = Measure {
        adding,
        fragments,
        scope: &scope,
        spreads,
    };
    measure_set(alloc, measure, around, selections, 1, &mut progress)?;
    'pending: while let Some(next) = progress.pending.pop() {
        if progress.extent.has_too_many_nodes() {
            return Ok(progress.extent);
        }
        measure_pending(alloc, adding, fragments, &next, &mut progress)?;
    }
    Ok(progress.extent)
}

/// Refuses a set that has more than 100,000 nodes together with values of that size, or else nests
/// deeper than 60, when all its spreads are followed.
pub(crate) fn check_extent<'w, 'a>(
    alloc: Global,
    adding: &'w Adding<'a>,
    fragments: &'w Fragments<'a>,
    values: Size,
    around: Option<&'a str>,
    selections: &'a Selections,
    spreads: usize,
) -> Result<(), ExpandFault>
    requires { IsRight adding.now }
    ensures { IsVerdict (both (values_extent values) (total spreads adding.now.schema.now (find_in fragments.now) own_sizes 1 (option_copied around.entry) selections.now)) result }
{
    match measure_all(
        alloc, adding, fragments, values, around, selections, spreads,
    ) {
        Ok(extent) => check_limits(extent),
        Err(NoMemory) => Err(ExpandFault::NoMemory),
    }
}
