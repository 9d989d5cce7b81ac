//! How large an operation or a fragment becomes when its spreads are followed.
//!
//! The spreads that are still to be followed wait in a list. So no call stands in another one
//! however deep spreads nest.
ghost use Rattle.std.specs.Prelude.{◌≡◌, ◌+◌, ◌-◌, ◌<◌, Some, is_some, option_copied, IfOk, OnOk};
ghost use Rattle.plan_ir.specs.gql_ast.SelectionView.{sel_of};
ghost use Rattle.plan_ir.specs.gql_graph.Rules.{each};
ghost use Rattle.plan_ir.specs.relay_marks.Connections.{connection_among};
ghost use Rattle.plan_ir.specs.Substitution.{arguments_in};
ghost use Rattle.plan_expand.specs.Adding.{IsRight};
ghost use Rattle.plan_expand.specs.Extents.{both};
ghost use Rattle.plan_expand.specs.Measuring as spec;
ghost use Rattle.plan_expand.specs.Measuring.{total, steps};
ghost use Rattle.plan_expand.specs.Printing.{shows};
ghost use Rattle.plan_expand.specs.ProgressView.{all_steps, pending_total, pending_steps, whole_total};
ghost use Rattle.plan_expand.specs.ReadyView.{find_in, ready_of};
ghost use Rattle.plan_expand.specs.Sizes.{arguments_size};
ghost use Rattle.plan_expand.specs.SizesView.{sizes_of};
ghost use Rattle.plan_ir.specs.schema_types.Sites as sites;

use crate::addition_sizes::size_of_additions;
use crate::additions::{Adding, base_of_field};
use crate::around::condition_or;
use crate::directives::is_shown;
use crate::extent::Extent;
use crate::fragments::{Fragments, ReadyFragment};
use crate::size::{Size, sum};
use crate::sizes::SizeScope;
use crate::values::size_of_arguments;
use doc_sites::around::below;
use plan_ir::{Arguments, Directive, Directives, Name, NoMemory, Selection, Selections};
use std::alloc::Global;

/// A spread that is still to be followed.
#[derive(Drop)]
pub(crate) struct Pending<'w, 'a> {
    pub(crate) fragment: &'w ReadyFragment<'a>,
    pub(crate) scope: SizeScope<'w, 'a>,
    /// How many spreads may still be entered inside it, one in another.
    pub(crate) spreads: usize,
    /// The level of its set.
    pub(crate) level: usize,
}

/// What is measured so far, and what is still to be.
#[derive(Drop)]
pub(crate) struct Progress<'w, 'a> {
    pub(crate) extent: Extent,
    pub(crate) pending: Vec<Pending<'w, 'a>>,
}

/// What a walk over the selections of an operation or a fragment looks at.
#[derive(Clone, Copy)]
pub(crate) struct Measure<'s, 'w, 'a> {
    pub(crate) adding: &'w Adding<'a>,
    pub(crate) fragments: &'w Fragments<'a>,
    pub(crate) scope: &'s SizeScope<'w, 'a>,
    /// How many spreads may still be entered, one in another.
    pub(crate) spreads: usize,
}

/// The size of the values of a directive, where it is printed.
fn size_where_shown(
    scope: &SizeScope<'_, '_>,
    directive: &Directive,
    is_spread: bool,
) -> Result<Size, NoMemory>
    ensures { IfOk result (λ size. size ≡ spec.size_where (shows is_spread) (sizes_of scope.now) directive.now) }
{
    if is_shown(directive.name.as_str(), is_spread) {
        return size_of_arguments(scope, &directive.arguments);
    }
    Ok(Size::nothing())
}

/// The size of the values of the directives that are printed.
fn size_of_printed(
    scope: &SizeScope<'_, '_>,
    directives: &Directives,
    is_spread: bool,
) -> Result<Size, NoMemory>
    ensures { IfOk result (λ size. size ≡ spec.directives_size (shows is_spread) (sizes_of scope.now) directives.now) }
{
    let mut all = Size::nothing();
    'directives: for directive in directives.as_slice() {
        let one = size_where_shown(scope, directive, is_spread)?;
        all = all.beside(one)?;
    }
    Ok(all)
}

/// The size of the values that a directive of a spread gives.
fn size_of_gifts_in(scope: &SizeScope<'_, '_>, directive: &Directive) -> Result<Size, NoMemory>
    ensures { IfOk result (λ size. size ≡ arguments_size (sizes_of scope.now) (arguments_in directive.now)) }
{
    if directive.name.as_str() == "arguments" {
        return size_of_arguments(scope, &directive.arguments);
    }
    Ok(Size::nothing())
}

/// The size of the values that a spread gives.
fn size_of_gifts(scope: &SizeScope<'_, '_>, directives: &Directives) -> Result<Size, NoMemory>
    ensures { IfOk result (λ size. size ≡ arguments_size (sizes_of scope.now) (each arguments_in directives.now)) }
{
    let mut all = Size::nothing();
    'directives: for directive in directives.as_slice() {
        let one = size_of_gifts_in(scope, directive)?;
        all = all.beside(one)?;
    }
    Ok(all)
}

/// Whether there is a `@connection`.
fn has_connection(directives: &Directives) -> bool
    ensures { result ≡ is_some (connection_among directives.now) }
{
    'directives: for directive in directives.as_slice() {
        if directive.name.as_str() == "connection" {
            return true;
        }
    }
    false
}

/// Adds a set and those inside it; puts the spreads in them.
#[cycle(measure)]
pub(crate) fn measure_set<'w, 'a>(
    alloc: Global,
    measure: Measure<'_, 'w, 'a>,
    around: Option<&'a str>,
    selections: &'a Selections,
    level: usize,
    progress: &mut Progress<'w, 'a>,
) -> Result<(), NoMemory>
    requires { IsRight measure.adding.now }
    ensures total { OnOk result (whole_total measure.entry.adding.now.schema.now (find_in measure.entry.fragments.now) progress.new
        ≡ both (whole_total measure.entry.adding.now.schema.now (find_in measure.entry.fragments.now) progress.old)
        (total measure.entry.spreads measure.entry.adding.now.schema.now (find_in measure.entry.fragments.now) (sizes_of measure.entry.scope.now) level (option_copied around.entry) selections.now)) }
    ensures steps { OnOk result (all_steps (find_in measure.entry.fragments.now) progress.new.pending.items
        ≡ all_steps (find_in measure.entry.fragments.now) progress.old.pending.items + steps measure.entry.spreads (find_in measure.entry.fragments.now) selections.now) }
{
    'selections: for selection in selections.as_slice() {
        measure_selection(alloc, measure, around, selection, level, progress)?;
    }
    Ok(())
}

/// Adds a selection and those inside it; puts the spreads in them.
#[cycle(measure)]
fn measure_selection<'w, 'a>(
    alloc: Global,
    measure: Measure<'_, 'w, 'a>,
    around: Option<&'a str>,
    selection: &'a Selection,
    level: usize,
    progress: &mut Progress<'w, 'a>,
) -> Result<(), NoMemory>
    requires { IsRight measure.adding.now }
    ensures total { OnOk result (whole_total measure.entry.adding.now.schema.now (find_in measure.entry.fragments.now) progress.new
        ≡ both (whole_total measure.entry.adding.now.schema.now (find_in measure.entry.fragments.now) progress.old)
        (total measure.entry.spreads measure.entry.adding.now.schema.now (find_in measure.entry.fragments.now) (sizes_of measure.entry.scope.now) level (option_copied around.entry) (sel_of selection.now))) }
    ensures steps { OnOk result (all_steps (find_in measure.entry.fragments.now) progress.new.pending.items
        ≡ all_steps (find_in measure.entry.fragments.now) progress.old.pending.items + steps measure.entry.spreads (find_in measure.entry.fragments.now) (sel_of selection.now)) }
{
    match selection {
        Selection::Field {
            name,
            arguments,
            directives,
            selections,
            ..
        } => {
            let added = measure_field(
                alloc, measure, around, name, arguments, directives, selections, level, progress,
            )?;
            Ok(added)
        }
        Selection::Spread { name, directives } => {
            let added = measure_spread(alloc, measure, name, directives, level, progress)?;
            Ok(added)
        }
        Selection::Inline {
            on,
            directives,
            selections,
        } => {
            let added = measure_inline(
                alloc, measure, around, on, directives, selections, level, progress,
            )?;
            Ok(added)
        }
    }
}

/// Adds a field and the selections inside it; puts the spreads in them.
#[cycle(measure)]
fn measure_field<'w, 'a>(
    alloc: Global,
    measure: Measure<'_, 'w, 'a>,
    around: Option<&'a str>,
    name: &'a Name,
    arguments: &'a Arguments,
    directives: &'a Directives,
    selections: &'a Selections,
    level: usize,
    progress: &mut Progress<'w, 'a>,
) -> Result<(), NoMemory>
    requires { IsRight measure.adding.now }
    ensures total { OnOk result (whole_total measure.entry.adding.now.schema.now (find_in measure.entry.fragments.now) progress.new
        ≡ both (whole_total measure.entry.adding.now.schema.now (find_in measure.entry.fragments.now) progress.old)
        (both (spec.field_extent measure.entry.adding.now.schema.now (sizes_of measure.entry.scope.now) level (option_copied around.entry) name.now arguments.now directives.now selections.now)
        (total measure.entry.spreads measure.entry.adding.now.schema.now (find_in measure.entry.fragments.now) (sizes_of measure.entry.scope.now) (level + 1) (sites.below measure.entry.adding.now.schema.now (option_copied around.entry) name.now) selections.now))) }
    ensures steps { OnOk result (all_steps (find_in measure.entry.fragments.now) progress.new.pending.items
        ≡ all_steps (find_in measure.entry.fragments.now) progress.old.pending.items + steps measure.entry.spreads (find_in measure.entry.fragments.now) selections.now) }
{
    put_field(
        alloc, measure, around, name, arguments, directives, selections, level, progress,
    )?;
    let inner = below(measure.adding.schema, around, name.as_str());
    let deeper = sum(level, 1)?;
    let added = measure_set(alloc, measure, inner, selections, deeper, progress)?;
    Ok(added)
}

/// Adds a field alone, with what is added to its set.
fn put_field<'w, 'a>(
    alloc: Global,
    measure: Measure<'_, 'w, 'a>,
    around: Option<&'a str>,
    name: &'a Name,
    arguments: &'a Arguments,
    directives: &'a Directives,
    selections: &'a Selections,
    level: usize,
    progress: &mut Progress<'w, 'a>,
) -> Result<(), NoMemory>
    requires { IsRight measure.adding.now }
    ensures extent { OnOk result (progress.new.extent ≡ both progress.old.extent
        (spec.field_extent measure.entry.adding.now.schema.now (sizes_of measure.entry.scope.now) level (option_copied around.entry) name.now arguments.now directives.now selections.now)) }
    ensures pending { progress.new.pending.items ≡ progress.old.pending.items }
{
    let base = base_of_field(measure.adding.schema, around, name.as_str());
    let is_connection = has_connection(directives);
    let added = size_of_additions(alloc, measure.adding, is_connection, base, selections)?;
    let given = size_of_arguments(measure.scope, arguments)?;
    let printed = size_of_printed(measure.scope, directives, false)?;
    let values = given.beside(printed)?;
    progress.extent.put_node(level, values, added)?;
    Ok(())
}

/// Adds an inline fragment and the selections inside it; puts the spreads in them.
#[cycle(measure)]
fn measure_inline<'w, 'a>(
    alloc: Global,
    measure: Measure<'_, 'w, 'a>,
    around: Option<&'a str>,
    on: &'a Option<Name>,
    directives: &'a Directives,
    selections: &'a Selections,
    level: usize,
    progress: &mut Progress<'w, 'a>,
) -> Result<(), NoMemory>
    requires { IsRight measure.adding.now }
    ensures total { OnOk result (whole_total measure.entry.adding.now.schema.now (find_in measure.entry.fragments.now) progress.new
        ≡ both (whole_total measure.entry.adding.now.schema.now (find_in measure.entry.fragments.now) progress.old)
        (both (spec.inline_extent (sizes_of measure.entry.scope.now) level directives.now)
        (total measure.entry.spreads measure.entry.adding.now.schema.now (find_in measure.entry.fragments.now) (sizes_of measure.entry.scope.now) (level + 1) (sites.condition_or (option_copied around.entry) on.now) selections.now))) }
    ensures steps { OnOk result (all_steps (find_in measure.entry.fragments.now) progress.new.pending.items
        ≡ all_steps (find_in measure.entry.fragments.now) progress.old.pending.items + steps measure.entry.spreads (find_in measure.entry.fragments.now) selections.now) }
{
    let printed = size_of_printed(measure.scope, directives, false)?;
    progress.extent.put_node(level, printed, Size::nothing())?;
    let inner = condition_or(around, on);
    let deeper = sum(level, 1)?;
    let added = measure_set(alloc, measure, inner, selections, deeper, progress)?;
    Ok(added)
}

/// Adds the node of a spread, where it may be entered; puts the spread.
fn measure_spread<'w, 'a>(
    alloc: Global,
    measure: Measure<'_, 'w, 'a>,
    name: &Name,
    directives: &'a Directives,
    level: usize,
    progress: &mut Progress<'w, 'a>,
) -> Result<(), NoMemory>
    ensures total { OnOk result (whole_total measure.entry.adding.now.schema.now (find_in measure.entry.fragments.now) progress.new
        ≡ both (whole_total measure.entry.adding.now.schema.now (find_in measure.entry.fragments.now) progress.old)
        (spec.entering_total measure.entry.spreads measure.entry.adding.now.schema.now (find_in measure.entry.fragments.now) (sizes_of measure.entry.scope.now) level name.now directives.now)) }
    ensures steps { OnOk result (all_steps (find_in measure.entry.fragments.now) progress.new.pending.items
        ≡ all_steps (find_in measure.entry.fragments.now) progress.old.pending.items + spec.entering_steps measure.entry.spreads (find_in measure.entry.fragments.now) name.now) }
{
    if measure.spreads == 0 {
        return Ok(());
    }
    match measure.fragments.find(name.as_str()) {
        Some(fragment) => {
            put_pending(alloc, measure, fragment, directives, level, progress)?;
            Ok(())
        }
        None => Ok(()),
    }
}

/// Adds the node of a spread that is entered; puts the spread.
fn put_pending<'w, 'a>(
    alloc: Global,
    measure: Measure<'_, 'w, 'a>,
    fragment: &'w ReadyFragment<'a>,
    directives: &'a Directives,
    level: usize,
    progress: &mut Progress<'w, 'a>,
) -> Result<(), NoMemory>
    requires { 0 < measure.spreads }
    ensures total { OnOk result (whole_total measure.entry.adding.now.schema.now (find_in measure.entry.fragments.now) progress.new
        ≡ both (whole_total measure.entry.adding.now.schema.now (find_in measure.entry.fragments.now) progress.old)
        (spec.enter_total (total (measure.entry.spreads - 1) measure.entry.adding.now.schema.now (find_in measure.entry.fragments.now)) (sizes_of measure.entry.scope.now) level (Some (ready_of fragment.now)) directives.now)) }
    ensures steps { OnOk result (all_steps (find_in measure.entry.fragments.now) progress.new.pending.items
        ≡ all_steps (find_in measure.entry.fragments.now) progress.old.pending.items + spec.enter_steps (steps (measure.entry.spreads - 1) (find_in measure.entry.fragments.now)) (Some (ready_of fragment.now))) }
{
    let conditions = size_of_printed(measure.scope, directives, true)?;
    let given = size_of_gifts(measure.scope, directives)?;
    let values = conditions.beside(given)?;
    let scope = measure
        .scope
        .at_spread(alloc, &fragment.locals, directives)?;
    let deeper = sum(level, 1)?;
    progress.extent.put_node(level, values, Size::nothing())?;
    progress.pending.push(Pending {
        fragment,
        scope,
        spreads: measure.spreads - 1,
        level: deeper,
    })?;
    Ok(())
}

/// Adds the set of a spread that waited; puts the spreads in it.
pub(crate) fn measure_pending<'w, 'a>(
    alloc: Global,
    adding: &'w Adding<'a>,
    fragments: &'w Fragments<'a>,
    next: &Pending<'w, 'a>,
    progress: &mut Progress<'w, 'a>,
) -> Result<(), NoMemory>
    requires { IsRight adding.now }
    ensures total { OnOk result (whole_total adding.now.schema.now (find_in fragments.now) progress.new
        ≡ both (whole_total adding.now.schema.now (find_in fragments.now) progress.old) (pending_total adding.now.schema.now (find_in fragments.now) next.now)) }
    ensures steps { OnOk result (1 + all_steps (find_in fragments.now) progress.new.pending.items
        ≡ all_steps (find_in fragments.now) progress.old.pending.items + pending_steps (find_in fragments.now) next.now) }
{
    let measure = Measure {
        adding,
        fragments,
        scope: &next.scope,
        spreads: next.spreads,
    };
    let on = Some(next.fragment.on);
    let selections = next.fragment.selections;
    let added = measure_set(alloc, measure, on, selections, next.level, progress)?;
    Ok(added)
}
