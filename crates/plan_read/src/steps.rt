//! The steps that come of selections, where the records are of known types.
ghost use Rattle.std.specs.Prelude.{◌≡◌, [], ◌∷◌, None, Some, map, option_copied, IfOk, OnOk};
ghost use Rattle.plan_ir.specs.gql_ast.SelectionView.{sel_of};
ghost use Rattle.plan_ir.specs.gql_ast.Sels as sels;
ghost use Rattle.plan_build.specs.AroundView.{IsOfComposite, types_of};
ghost use Rattle.plan_build.specs.ClassView.{class_view, target_view};
ghost use Rattle.plan_build.specs.Conditions as tests;
ghost use Rattle.plan_build.specs.KeptView.{IsRight};
ghost use Rattle.plan_expand.specs.ScopeView.{scope_of};
ghost use Rattle.plan_ir.specs.Expansion.{printed_conditions};
ghost use Rattle.plan_ir.specs.Reader.{reader_append};
ghost use Rattle.plan_ir.specs.ReaderView.{step_of};
ghost use Rattle.plan_read.specs.FieldView.{field_view};
ghost use Rattle.plan_read.specs.ReadyView.{ready_of};
ghost use Rattle.plan_read.specs.Reading as reading;
ghost use Rattle.plan_read.specs.Steps as spec;
ghost use Rattle.plan_ir.specs.schema_types.Sites as sites;
ghost use Rattle.plan_read.specs.WalkView.{below_field, fragment_in, inside_in, steps_in};

use crate::fields::{Field, behind, conditions_in, put_leaf, put_object, put_typename, text_of};
use crate::fragments::{Fragments, ReadyFragment};
use crate::masks::is_open;
use crate::pointers::pointer_arguments;
use crate::types::text_or_empty;
use plan_build::around::Around;
use plan_build::classes::{Class, Target};
use plan_build::kept::Kept;
use plan_expand::below;
use plan_expand::scope::{Scope, scope_at_spread};
use plan_ir::{
    Conditions, Directives, Ids, Name, NoMemory, ReaderList, ReaderPlan, ReaderStep, ReaderSteps,
    Schema, Selection, Selections,
};
use std::alloc::Global;

/// What a walk over selections looks at.
#[derive(Clone, Copy)]
pub(crate) struct Walk<'w, 'a> {
    pub(crate) schema: &'a Schema,
    pub(crate) fragments: &'w Fragments<'a>,
    pub(crate) scope: &'w Scope<'w, 'a>,
    /// How many spreads may still be entered, one in another.
    pub(crate) spreads: usize,
    /// The static type around the selections.
    pub(crate) over: Option<&'a str>,
}

/// What stands inside an inline fragment, or at a spread.
#[derive(Clone, Copy)]
pub(crate) enum Inside<'f, 'a> {
    Selections(&'a Selections),
    Fragment {
        name: &'f Name,
        directives: &'a Directives,
        fragment: &'f ReadyFragment<'a>,
        /// How many spreads may still be entered in it, one in another.
        spreads: usize,
    },
}

/// The static type inside an inline fragment.
fn condition_or<'a>(around: Option<&'a str>, on: Option<&'a str>) -> Option<&'a str>
    ensures { option_copied result ≡ sites.condition_or (option_copied around.entry) (option_copied on.entry) }
{
    match on {
        Some(name) => Some(name),
        None => around,
    }
}

/// The steps of selections.
#[cycle(steps)]
pub(crate) fn make_set<'a>(
    alloc: Global,
    walk: Walk<'_, 'a>,
    kept: &mut Kept<'a>,
    around: Around<'_, 'a>,
    selections: &'a Selections,
) -> Result<ReaderSteps, NoMemory>
    requires right { IsRight walk.schema.now kept.old }
    requires composite { IsOfComposite walk.schema.now around }
    ensures right { OnOk result (IsRight walk.entry.schema.now kept.new) }
    ensures made { IfOk result (λ steps. steps ≡ steps_in walk.entry (types_of walk.entry.schema.now around.entry) selections.now) }
{
    let mut steps = ReaderList::new(alloc);
    put_set(alloc, walk, kept, around, selections, &mut steps)?;
    steps.share(alloc)
}

/// Puts the steps of selections.
#[cycle(steps)]
fn put_set<'a>(
    alloc: Global,
    walk: Walk<'_, 'a>,
    kept: &mut Kept<'a>,
    around: Around<'_, 'a>,
    selections: &'a Selections,
    steps: &mut ReaderList,
) -> Result<(), NoMemory>
    requires right { IsRight walk.schema.now kept.old }
    requires composite { IsOfComposite walk.schema.now around }
    ensures right { OnOk result (IsRight walk.entry.schema.now kept.new) }
    ensures put { OnOk result (steps.new ≡ reader_append steps.old (steps_in walk.entry (types_of walk.entry.schema.now around.entry) selections.now)) }
{
    'selections: for selection in selections.as_slice() {
        put_selection(alloc, walk, kept, around, selection, steps)?;
    }
    Ok(())
}

/// Puts the steps of a selection.
#[cycle(steps)]
fn put_selection<'a>(
    alloc: Global,
    walk: Walk<'_, 'a>,
    kept: &mut Kept<'a>,
    around: Around<'_, 'a>,
    selection: &'a Selection,
    steps: &mut ReaderList,
) -> Result<(), NoMemory>
    requires right { IsRight walk.schema.now kept.old }
    requires composite { IsOfComposite walk.schema.now around }
    ensures right { OnOk result (IsRight walk.entry.schema.now kept.new) }
    ensures put { OnOk result (steps.new ≡ reader_append steps.old (steps_in walk.entry (types_of walk.entry.schema.now around.entry) (sel_of selection.now))) }
{
    match selection {
        Selection::Field {
            alias,
            name,
            arguments,
            directives,
            selections,
        } => {
            let field = Field {
                alias,
                name,
                arguments,
                directives,
                selections,
            };
            put_field(alloc, walk, kept, around, field, steps)
        }
        Selection::Spread { name, directives } => {
            put_spread(alloc, walk, kept, around, name, directives, steps)
        }
        Selection::Inline {
            on,
            directives,
            selections,
        } => {
            let on = text_of(on);
            let inner = Walk {
                schema: walk.schema,
                fragments: walk.fragments,
                scope: walk.scope,
                spreads: walk.spreads,
                over: condition_or(walk.over, on),
            };
            let inside = Inside::Selections(selections);
            put_inline(alloc, inner, kept, around, on, directives, inside, steps)
        }
    }
}

/// Puts the steps of a field, behind its conditions.
#[cycle(steps)]
fn put_field<'a>(
    alloc: Global,
    walk: Walk<'_, 'a>,
    kept: &mut Kept<'a>,
    around: Around<'_, 'a>,
    field: Field<'a>,
    steps: &mut ReaderList,
) -> Result<(), NoMemory>
    requires right { IsRight walk.schema.now kept.old }
    requires composite { IsOfComposite walk.schema.now around }
    ensures right { OnOk result (IsRight walk.entry.schema.now kept.new) }
    ensures put { OnOk result (steps.new ≡ reader_append steps.old
        (spec.behind None (tests.conditions_of (printed_conditions (scope_of walk.entry.scope.now) field.entry.directives.now))
        (spec.field_steps walk.entry.schema.now (types_of walk.entry.schema.now around.entry) (field_view (scope_of walk.entry.scope.now) field.entry) (below_field walk.entry field.entry)))) }
{
    let conditions = conditions_in(alloc, walk.scope, field.directives)?;
    if conditions.is_empty() {
        return put_field_steps(alloc, walk, kept, around, field, steps);
    }
    let mut inside = ReaderList::new(alloc);
    put_field_steps(alloc, walk, kept, around, field, &mut inside)?;
    let inside = inside.share(alloc)?;
    steps.push(behind(None, conditions, inside))
}

/// Puts the steps of a field: one for each class of the object types.
#[cycle(steps)]
fn put_field_steps<'a>(
    alloc: Global,
    walk: Walk<'_, 'a>,
    kept: &mut Kept<'a>,
    around: Around<'_, 'a>,
    field: Field<'a>,
    steps: &mut ReaderList,
) -> Result<(), NoMemory>
    requires right { IsRight walk.schema.now kept.old }
    requires composite { IsOfComposite walk.schema.now around }
    ensures right { OnOk result (IsRight walk.entry.schema.now kept.new) }
    ensures put { OnOk result (steps.new ≡ reader_append steps.old
        (spec.field_steps walk.entry.schema.now (types_of walk.entry.schema.now around.entry) (field_view (scope_of walk.entry.scope.now) field.entry) (below_field walk.entry field.entry))) }
{
    if field.name.as_str() == "__typename" {
        return put_typename(&field, steps);
    }
    let child = make_child(alloc, walk, kept, field)?;
    let one = kept.one_target(alloc, walk.schema, around, field.name.as_str())?;
    if let Some(target) = one {
        return put_target(alloc, walk, kept, &target, field, &child, steps);
    }
    let classes = around.classes_of(alloc, walk.schema, field.name.as_str())?;
    put_classes(alloc, walk, kept, &classes, field, &child, steps)
}

/// The steps of what stands below a field, for all object types that its static type may be: whichever
/// of its classes they stand in, they are the same.
#[cycle(steps)]
fn make_child<'a>(
    alloc: Global,
    walk: Walk<'_, 'a>,
    kept: &mut Kept<'a>,
    field: Field<'a>,
) -> Result<ReaderSteps, NoMemory>
    requires { IsRight walk.schema.now kept.old }
    ensures right { OnOk result (IsRight walk.entry.schema.now kept.new) }
    ensures made { IfOk result (λ child. child ≡ below_field walk.entry field.entry) }
{
    let schema = walk.schema;
    let over = below(schema, walk.over, field.name.as_str());
    let inner = Walk {
        schema,
        fragments: walk.fragments,
        scope: walk.scope,
        spreads: walk.spreads,
        over,
    };
    let of = text_or_empty(over);
    if schema.is_composite(of) {
        return make_set(alloc, inner, kept, Around::Of(of), field.selections);
    }
    let none = Ids::new(alloc);
    make_set(alloc, inner, kept, Around::Listed(&none), field.selections)
}

/// Puts a step for each class; one class alone wants no guard.
fn put_classes<'a>(
    alloc: Global,
    walk: Walk<'_, 'a>,
    kept: &mut Kept<'a>,
    classes: &[Class<'a>],
    field: Field<'a>,
    child: &ReaderSteps,
    steps: &mut ReaderList,
) -> Result<(), NoMemory>
    requires { IsRight walk.schema.now kept.old }
    ensures right { OnOk result (IsRight walk.entry.schema.now kept.new) }
    ensures put { OnOk result (steps.new ≡ reader_append steps.old (spec.class_steps
        (spec.target_step walk.entry.schema.now (field_view (scope_of walk.entry.scope.now) field.entry) child.now) (map class_view classes.now))) }
{
    if classes.len() == 1 {
        return put_target(alloc, walk, kept, &classes[0].target, field, child, steps);
    }
    'classes: for class in classes {
        put_class(alloc, walk, kept, class, field, child, steps)?;
    }
    Ok(())
}

/// Puts the step of a class behind the guard of its types.
fn put_class<'a>(
    alloc: Global,
    walk: Walk<'_, 'a>,
    kept: &mut Kept<'a>,
    class: &Class<'a>,
    field: Field<'a>,
    child: &ReaderSteps,
    steps: &mut ReaderList,
) -> Result<(), NoMemory>
    requires { IsRight walk.schema.now kept.old }
    ensures right { OnOk result (IsRight walk.entry.schema.now kept.new) }
    ensures put { OnOk result (steps.new ≡ reader_append steps.old (spec.guarded_classes
        (spec.target_step walk.entry.schema.now (field_view (scope_of walk.entry.scope.now) field.entry) child.now) (class_view class.now ∷ []))) }
{
    let mut inside = ReaderList::new(alloc);
    put_target(alloc, walk, kept, &class.target, field, child, &mut inside)?;
    let inside = inside.share(alloc)?;
    let types = class.types.copy()?;
    let conditions = Conditions::new(alloc);
    steps.push(behind(Some(types), conditions, inside))
}

/// Puts the step of a field that leads to this target.
fn put_target<'a>(
    alloc: Global,
    walk: Walk<'_, 'a>,
    kept: &mut Kept<'a>,
    target: &Target<'a>,
    field: Field<'a>,
    child: &ReaderSteps,
    steps: &mut ReaderList,
) -> Result<(), NoMemory>
    requires { IsRight walk.schema.now kept.old }
    ensures right { OnOk result (IsRight walk.entry.schema.now kept.new) }
    ensures put { OnOk result (steps.new ≡ reader_append steps.old
        (spec.target_step walk.entry.schema.now (field_view (scope_of walk.entry.scope.now) field.entry) child.now (target_view target.now))) }
{
    let schema = walk.schema;
    if !schema.is_composite(target.base) {
        return put_leaf(alloc, walk.scope, &field, steps);
    }
    let child = child.copy()?;
    put_object(
        alloc, schema, kept, walk.scope, &field, target, child, steps,
    )
}

/// Puts the steps of a spread, where it may be entered.
#[cycle(steps)]
fn put_spread<'a>(
    alloc: Global,
    walk: Walk<'_, 'a>,
    kept: &mut Kept<'a>,
    around: Around<'_, 'a>,
    name: &Name,
    directives: &'a Directives,
    steps: &mut ReaderList,
) -> Result<(), NoMemory>
    requires right { IsRight walk.schema.now kept.old }
    requires composite { IsOfComposite walk.schema.now around }
    ensures right { OnOk result (IsRight walk.entry.schema.now kept.new) }
    ensures put { OnOk result (steps.new ≡ reader_append steps.old (steps_in walk.entry (types_of walk.entry.schema.now around.entry) (sels.spread name.now directives.now sels.end))) }
{
    if walk.spreads == 0 {
        return Ok(());
    }
    match walk.fragments.find(name.as_str()) {
        Some(fragment) => {
            let inside = Inside::Fragment {
                name,
                directives,
                fragment,
                spreads: walk.spreads - 1,
            };
            let on = Some(fragment.on);
            put_inline(alloc, walk, kept, around, on, directives, inside, steps)
        }
        None => Ok(()),
    }
}

/// Puts the steps of what stands behind a type and conditions.
#[cycle(steps)]
fn put_inline<'a>(
    alloc: Global,
    walk: Walk<'_, 'a>,
    kept: &mut Kept<'a>,
    around: Around<'_, 'a>,
    on: Option<&'a str>,
    directives: &Directives,
    inside: Inside<'_, 'a>,
    steps: &mut ReaderList,
) -> Result<(), NoMemory>
    requires right { IsRight walk.schema.now kept.old }
    requires composite { IsOfComposite walk.schema.now around }
    ensures right { OnOk result (IsRight walk.entry.schema.now kept.new) }
    ensures put { OnOk result (steps.new ≡ reader_append steps.old (spec.inline_steps walk.entry.schema.now (types_of walk.entry.schema.now around.entry) (option_copied on.entry)
        (tests.conditions_of (printed_conditions (scope_of walk.entry.scope.now) directives.now)) (inside_in walk.entry inside.entry))) }
{
    let conditions = conditions_in(alloc, walk.scope, directives)?;
    match on {
        Some(on) => put_on(alloc, walk, kept, around, on, conditions, inside, steps),
        None => put_behind(alloc, walk, kept, around, conditions, inside, steps),
    }
}

/// Puts the steps of what stands behind a type.
#[cycle(steps)]
fn put_on<'a>(
    alloc: Global,
    walk: Walk<'_, 'a>,
    kept: &mut Kept<'a>,
    around: Around<'_, 'a>,
    on: &'a str,
    conditions: Conditions,
    inside: Inside<'_, 'a>,
    steps: &mut ReaderList,
) -> Result<(), NoMemory>
    requires right { IsRight walk.schema.now kept.old }
    requires composite { IsOfComposite walk.schema.now around }
    ensures right { OnOk result (IsRight walk.entry.schema.now kept.new) }
    ensures put { OnOk result (steps.new ≡ reader_append steps.old (spec.inline_steps walk.entry.schema.now (types_of walk.entry.schema.now around.entry) (Some on.now) conditions (inside_in walk.entry inside.entry))) }
{
    let schema = walk.schema;
    if !schema.is_composite(on) {
        return Ok(());
    }
    let is_within = kept.are_within(alloc, schema, around, on)?;
    if is_within {
        return put_behind(alloc, walk, kept, around, conditions, inside, steps);
    }
    if around.is_one(schema) {
        return Ok(());
    }
    let mut child = ReaderList::new(alloc);
    put_inside(alloc, walk, kept, Around::Of(on), inside, &mut child)?;
    let child = child.share(alloc)?;
    let ids = schema.possible(on);
    let guard = ids.copy()?;
    steps.push(behind(Some(guard), conditions, child))
}

/// Puts the steps of what stands behind conditions alone.
#[cycle(steps)]
fn put_behind<'a>(
    alloc: Global,
    walk: Walk<'_, 'a>,
    kept: &mut Kept<'a>,
    around: Around<'_, 'a>,
    conditions: Conditions,
    inside: Inside<'_, 'a>,
    steps: &mut ReaderList,
) -> Result<(), NoMemory>
    requires right { IsRight walk.schema.now kept.old }
    requires composite { IsOfComposite walk.schema.now around }
    ensures right { OnOk result (IsRight walk.entry.schema.now kept.new) }
    ensures put { OnOk result (steps.new ≡ reader_append steps.old (spec.behind None conditions (inside_in walk.entry inside.entry (types_of walk.entry.schema.now around.entry)))) }
{
    if conditions.is_empty() {
        return put_inside(alloc, walk, kept, around, inside, steps);
    }
    let mut child = ReaderList::new(alloc);
    put_inside(alloc, walk, kept, around, inside, &mut child)?;
    let child = child.share(alloc)?;
    steps.push(behind(None, conditions, child))
}

/// Puts the steps of what stands inside.
#[cycle(steps)]
fn put_inside<'a>(
    alloc: Global,
    walk: Walk<'_, 'a>,
    kept: &mut Kept<'a>,
    around: Around<'_, 'a>,
    inside: Inside<'_, 'a>,
    steps: &mut ReaderList,
) -> Result<(), NoMemory>
    requires right { IsRight walk.schema.now kept.old }
    requires composite { IsOfComposite walk.schema.now around }
    ensures right { OnOk result (IsRight walk.entry.schema.now kept.new) }
    ensures put { OnOk result (steps.new ≡ reader_append steps.old (inside_in walk.entry inside.entry (types_of walk.entry.schema.now around.entry))) }
{
    match inside {
        Inside::Selections(selections) => put_set(alloc, walk, kept, around, selections, steps),
        Inside::Fragment {
            name,
            directives,
            fragment,
            spreads,
        } => put_entered(
            alloc, walk, kept, around, name, directives, fragment, spreads, steps,
        ),
    }
}

/// Puts the steps of a fragment whose spread is not masked, else a pointer to it.
#[cycle(steps)]
fn put_entered<'a>(
    alloc: Global,
    walk: Walk<'_, 'a>,
    kept: &mut Kept<'a>,
    around: Around<'_, 'a>,
    name: &Name,
    directives: &'a Directives,
    fragment: &ReadyFragment<'a>,
    spreads: usize,
    steps: &mut ReaderList,
) -> Result<(), NoMemory>
    requires right { IsRight walk.schema.now kept.old }
    requires composite { IsOfComposite walk.schema.now around }
    ensures right { OnOk result (IsRight walk.entry.schema.now kept.new) }
    ensures put { OnOk result (steps.new ≡ reader_append steps.old (reading.entered_ready (scope_of walk.entry.scope.now) name.now directives.now (ready_of fragment.now)
        (fragment_in walk.entry directives.now fragment.now spreads (types_of walk.entry.schema.now around.entry)))) }
{
    if is_open(directives) {
        return put_fragment(
            alloc, walk, kept, around, directives, fragment, spreads, steps,
        );
    }
    let pointer = make_pointer(
        alloc, walk, kept, around, name, directives, fragment, spreads,
    )?;
    steps.push(pointer)
}

/// The pointer to a fragment, with its plan where it is `@inline`.
#[cycle(steps)]
fn make_pointer<'a>(
    alloc: Global,
    walk: Walk<'_, 'a>,
    kept: &mut Kept<'a>,
    around: Around<'_, 'a>,
    name: &Name,
    directives: &'a Directives,
    fragment: &ReadyFragment<'a>,
    spreads: usize,
) -> Result<ReaderStep, NoMemory>
    requires right { IsRight walk.schema.now kept.old }
    requires composite { IsOfComposite walk.schema.now around }
    ensures right { OnOk result (IsRight walk.entry.schema.now kept.new) }
    ensures made { IfOk result (λ step. step_of step ≡ spec.pointer_step name.now
        (spec.pointer_arguments (scope_of walk.entry.scope.now) directives.now (ready_of fragment.now).variables) fragment.now.is_inline
        (fragment_in walk.entry directives.now fragment.now spreads (types_of walk.entry.schema.now around.entry))) }
{
    let arguments = pointer_arguments(alloc, walk.scope, directives, &fragment.variables)?;
    let name = name.copy()?;
    if !fragment.is_inline {
        return Ok(ReaderStep::Pointer {
            fragment: name,
            arguments,
            inline: None,
        });
    }
    let mut body = ReaderList::new(alloc);
    put_fragment(
        alloc, walk, kept, around, directives, fragment, spreads, &mut body,
    )?;
    let body = body.share(alloc)?;
    Ok(ReaderStep::Pointer {
        fragment: name,
        arguments,
        inline: Some(ReaderPlan { steps: body }),
    })
}

/// Puts the steps of the selections of a fragment that is spread with these directives.
#[cycle(steps)]
fn put_fragment<'a>(
    alloc: Global,
    walk: Walk<'_, 'a>,
    kept: &mut Kept<'a>,
    around: Around<'_, 'a>,
    directives: &'a Directives,
    fragment: &ReadyFragment<'a>,
    spreads: usize,
    steps: &mut ReaderList,
) -> Result<(), NoMemory>
    requires right { IsRight walk.schema.now kept.old }
    requires composite { IsOfComposite walk.schema.now around }
    ensures right { OnOk result (IsRight walk.entry.schema.now kept.new) }
    ensures put { OnOk result (steps.new ≡ reader_append steps.old (fragment_in walk.entry directives.now fragment.now spreads (types_of walk.entry.schema.now around.entry))) }
{
    let scope = scope_at_spread(alloc, walk.scope, &fragment.locals, directives)?;
    let inner = Walk {
        schema: walk.schema,
        fragments: walk.fragments,
        scope: &scope,
        spreads,
        over: Some(fragment.on),
    };
    put_set(alloc, inner, kept, around, fragment.selections, steps)
}
