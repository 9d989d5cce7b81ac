//! The steps that come of nodes, where the objects are of known types.
ghost use Rattle.std.specs.Prelude.{◌≡◌, ◌&&◌, [], ◌∷◌, None, Some, false, true, map, codes, bytes_eq, IfOk, OnOk};
ghost use Rattle.plan_ir.specs.gql_ast.TypeView.{ty_of};
ghost use Rattle.plan_ir.specs.NodesView.{node_of};
ghost use Rattle.plan_ir.specs.Normal.{normal_append, done, guarded};
ghost use Rattle.plan_ir.specs.NormalLeads.{last_lead};
ghost use Rattle.plan_ir.specs.NormalView.{step_of};
ghost use Rattle.plan_ir.specs.schema_tables.Types as types;
ghost use Rattle.plan_build.specs.AroundView.{IsOfComposite, types_of};
ghost use Rattle.plan_build.specs.ClassView.{class_view, field_view, target_view};
ghost use Rattle.plan_build.specs.Conditions as tests;
ghost use Rattle.plan_build.specs.KeptView.{IsRight};
ghost use Rattle.plan_build.specs.Steps as spec;

use crate::around::Around;
use crate::classes::{Class, Target, is_abstract};
use crate::conditions::conditions_of;
use crate::kept::Kept;
use plan_ir::type_forms::base_of;
use plan_ir::{
    Arguments, Conditions, Conn, Directives, Guard, Ids, Name, NoMemory, Node, Nodes, NormalList,
    NormalPlan, NormalStep, NormalSteps, Schema, TypeTree, copy_of_conn,
};
use std::alloc::Global;

/// A field, with the nodes that stand below it.
#[derive(Drop)]
pub(crate) struct Field<'a> {
    pub(crate) response: &'a Name,
    pub(crate) name: &'a Name,
    pub(crate) arguments: &'a Arguments,
    pub(crate) connection: &'a Option<Conn>,
    /// Its static type.
    pub(crate) of: &'a TypeTree,
    pub(crate) selections: &'a Nodes,
}

/// Steps behind a guard.
fn behind(types: Option<Ids>, conditions: Conditions, steps: NormalSteps) -> NormalStep
    ensures { step_of result ≡ guarded (record { types = types; conditions = conditions }) steps done }
{
    NormalStep::Guarded {
        guard: Guard { types, conditions },
        child: NormalPlan { steps },
    }
}

/// Puts a leaf.
fn put_leaf(field: &Field<'_>, steps: &mut NormalList) -> Result<(), NoMemory>
    ensures { OnOk result (steps.new ≡ normal_append steps.old (spec.leaf_step (field_view field.now))) }
{
    let response = field.response.copy()?;
    let name = field.name.copy()?;
    let arguments = field.arguments.copy()?;
    steps.push(NormalStep::Leaf {
        response,
        name,
        arguments,
    })
}

/// Puts a field of the objects of a type, with the steps that stand below it.
fn put_object_step<'a>(
    alloc: Global,
    schema: &Schema,
    kept: &mut Kept<'a>,
    field: &Field<'_>,
    target: &Target<'a>,
    child: NormalSteps,
    steps: &mut NormalList,
) -> Result<(), NoMemory>
    requires right { IsRight schema.now kept.old }
    requires composite { types.is_composite schema.now target.now.base.now ≡ true }
    ensures right { OnOk result (IsRight schema.now kept.new) }
    ensures put { OnOk result (steps.new ≡ normal_append steps.old (spec.object_step schema.now (field_view field.now) (target_view target.now) child)) }
{
    let response = field.response.copy()?;
    let name = field.name.copy()?;
    let arguments = field.arguments.copy()?;
    let connection = copy_of_conn(field.connection)?;
    let types = schema.possible(target.base).copy()?;
    let identified = kept.identified(alloc, schema, target.base)?;
    steps.push(NormalStep::Object {
        response,
        name,
        arguments,
        many: target.many,
        types,
        identified,
        open_type: is_abstract(schema, target.base),
        connection,
        child: NormalPlan { steps: child },
    })
}

/// The steps of nodes.
#[cycle(steps)]
pub(crate) fn make_steps<'a>(
    alloc: Global,
    schema: &'a Schema,
    kept: &mut Kept<'a>,
    around: Around<'_, 'a>,
    nodes: &'a Nodes,
) -> Result<NormalSteps, NoMemory>
    requires right { IsRight schema.now kept.old }
    requires composite { IsOfComposite schema.now around }
    ensures right { OnOk result (IsRight schema.now kept.new) }
    ensures put { IfOk result (λ steps. steps ≡ spec.steps_of schema.now (types_of schema.now around.entry) nodes.now) }
{
    let mut steps = NormalList::new(alloc);
    put_nodes(alloc, schema, kept, around, nodes, &mut steps)?;
    steps.share(alloc)
}

/// Puts the steps of nodes.
#[cycle(steps)]
fn put_nodes<'a>(
    alloc: Global,
    schema: &'a Schema,
    kept: &mut Kept<'a>,
    around: Around<'_, 'a>,
    nodes: &'a Nodes,
    steps: &mut NormalList,
) -> Result<(), NoMemory>
    requires right { IsRight schema.now kept.old }
    requires composite { IsOfComposite schema.now around }
    ensures right { OnOk result (IsRight schema.now kept.new) }
    ensures put { OnOk result (steps.new ≡ normal_append steps.old (spec.steps_of schema.now (types_of schema.now around.entry) nodes.now)) }
{
    'nodes: for node in nodes.as_slice() {
        put_node(alloc, schema, kept, around, node, steps)?;
    }
    Ok(())
}

/// Puts the steps of a node.
#[cycle(steps)]
fn put_node<'a>(
    alloc: Global,
    schema: &'a Schema,
    kept: &mut Kept<'a>,
    around: Around<'_, 'a>,
    node: &'a Node,
    steps: &mut NormalList,
) -> Result<(), NoMemory>
    requires right { IsRight schema.now kept.old }
    requires composite { IsOfComposite schema.now around }
    ensures right { OnOk result (IsRight schema.now kept.new) }
    ensures put { OnOk result (steps.new ≡ normal_append steps.old (spec.steps_of schema.now (types_of schema.now around.entry) (node_of node.now))) }
{
    match node {
        Node::Field {
            response,
            name,
            arguments,
            directives,
            connection,
            of,
            selections,
            ..
        } => {
            let field = Field {
                response,
                name,
                arguments,
                connection,
                of,
                selections,
            };
            put_field(alloc, schema, kept, around, directives, &field, steps)
        }
        Node::Inline {
            on,
            directives,
            selections,
            ..
        } => put_inline(
            alloc, schema, kept, around, on, directives, selections, steps,
        ),
    }
}

/// Puts the steps of a field, behind its conditions.
#[cycle(steps)]
fn put_field<'a>(
    alloc: Global,
    schema: &'a Schema,
    kept: &mut Kept<'a>,
    around: Around<'_, 'a>,
    directives: &Directives,
    field: &Field<'a>,
    steps: &mut NormalList,
) -> Result<(), NoMemory>
    requires right { IsRight schema.now kept.old }
    requires composite { IsOfComposite schema.now around }
    ensures right { OnOk result (IsRight schema.now kept.new) }
    ensures put { OnOk result (steps.new ≡ normal_append steps.old (spec.behind None (tests.conditions_of directives.now)
        (spec.field_steps schema.now (types_of schema.now around.entry) (field_view field.now) (spec.steps_of schema.now (spec.types_at schema.now (types.base_of (ty_of field.now.of.now))) field.now.selections.now)))) }
{
    let conditions = conditions_of(alloc, directives)?;
    if conditions.is_empty() {
        return put_field_steps(alloc, schema, kept, around, field, steps);
    }
    let mut inside = NormalList::new(alloc);
    put_field_steps(alloc, schema, kept, around, field, &mut inside)?;
    let inside = inside.share(alloc)?;
    steps.push(behind(None, conditions, inside))
}

/// Puts the steps of a field: one for each class of the object types.
#[cycle(steps)]
fn put_field_steps<'a>(
    alloc: Global,
    schema: &'a Schema,
    kept: &mut Kept<'a>,
    around: Around<'_, 'a>,
    field: &Field<'a>,
    steps: &mut NormalList,
) -> Result<(), NoMemory>
    requires right { IsRight schema.now kept.old }
    requires composite { IsOfComposite schema.now around }
    ensures right { OnOk result (IsRight schema.now kept.new) }
    ensures put { OnOk result (steps.new ≡ normal_append steps.old
        (spec.field_steps schema.now (types_of schema.now around.entry) (field_view field.now) (spec.steps_of schema.now (spec.types_at schema.now (types.base_of (ty_of field.now.of.now))) field.now.selections.now))) }
{
    if field.name.as_str() == "__typename" {
        let response = field.response.copy()?;
        return steps.push(NormalStep::Typename { response });
    }
    let child = make_child(alloc, schema, kept, field)?;
    let one = kept.one_target(alloc, schema, around, field.name.as_str())?;
    if let Some(target) = one {
        return put_target(alloc, schema, kept, &target, field, &child, steps);
    }
    let classes = around.classes_of(alloc, schema, field.name.as_str())?;
    put_classes(alloc, schema, kept, &classes, field, &child, steps)
}

/// The steps of what stands below a field, for all object types that its static type may be: whichever
/// of its classes they stand in, they are the same.
#[cycle(steps)]
fn make_child<'a>(
    alloc: Global,
    schema: &'a Schema,
    kept: &mut Kept<'a>,
    field: &Field<'a>,
) -> Result<NormalSteps, NoMemory>
    requires { IsRight schema.now kept.old }
    ensures right { OnOk result (IsRight schema.now kept.new) }
    ensures put { IfOk result (λ child. child ≡ spec.steps_of schema.now (spec.types_at schema.now (types.base_of (ty_of field.now.of.now))) field.now.selections.now) }
{
    let of = base_of(field.of);
    if schema.is_composite(of) {
        return make_steps(alloc, schema, kept, Around::Of(of), field.selections);
    }
    let none = Ids::new(alloc);
    make_steps(alloc, schema, kept, Around::Listed(&none), field.selections)
}

/// Puts a step for each class; one class alone wants no guard.
fn put_classes<'a>(
    alloc: Global,
    schema: &'a Schema,
    kept: &mut Kept<'a>,
    classes: &[Class<'a>],
    field: &Field<'a>,
    child: &NormalSteps,
    steps: &mut NormalList,
) -> Result<(), NoMemory>
    requires { IsRight schema.now kept.old }
    ensures right { OnOk result (IsRight schema.now kept.new) }
    ensures put { OnOk result (steps.new ≡ normal_append steps.old (spec.class_steps
        (spec.target_step schema.now (field_view field.now) child.now) (map class_view classes.now))) }
{
    if classes.len() == 1 {
        return put_target(alloc, schema, kept, &classes[0].target, field, child, steps);
    }
    let mut leads = false;
    'classes: for class in classes {
        leads = put_class(alloc, schema, kept, class, field, child, leads, steps)?;
    }
    Ok(())
}

/// Puts the step of a class behind the guard of its types. It says whether the step leads to what stands
/// below the field, as is told of the step before it.
fn put_class<'a>(
    alloc: Global,
    schema: &'a Schema,
    kept: &mut Kept<'a>,
    class: &Class<'a>,
    field: &Field<'a>,
    child: &NormalSteps,
    before: bool,
    steps: &mut NormalList,
) -> Result<bool, NoMemory>
    requires right { IsRight schema.now kept.old }
    requires before { before ≡ true → last_lead steps.old ≡ Some child.now }
    ensures right { OnOk result (IsRight schema.now kept.new) }
    ensures put { OnOk result (steps.new ≡ normal_append steps.old (spec.guarded_classes
        (spec.target_step schema.now (field_view field.now) child.now) (class_view class.now ∷ []))) }
    ensures leads { IfOk result (λ leads. leads ≡ true → last_lead steps.new ≡ Some child.now) }
{
    let mut inside = NormalList::new(alloc);
    put_target(
        alloc,
        schema,
        kept,
        &class.target,
        field,
        child,
        &mut inside,
    )?;
    let inside = inside.share(alloc)?;
    let types = class.types.copy()?;
    let conditions = Conditions::new(alloc);
    let step = behind(Some(types), conditions, inside);
    let leads = schema.is_composite(class.target.base);
    let again = are_both(before, leads);
    steps.push_again(step, again)?;
    Ok(leads)
}

/// Whether both hold.
fn are_both(first: bool, second: bool) -> bool
    ensures { result ≡ (first && second) }
{
    first && second
}

/// Puts the step of a field that leads to this target.
fn put_target<'a>(
    alloc: Global,
    schema: &'a Schema,
    kept: &mut Kept<'a>,
    target: &Target<'a>,
    field: &Field<'a>,
    child: &NormalSteps,
    steps: &mut NormalList,
) -> Result<(), NoMemory>
    requires { IsRight schema.now kept.old }
    ensures right { OnOk result (IsRight schema.now kept.new) }
    ensures put { OnOk result (steps.new ≡ normal_append steps.old
        (spec.target_step schema.now (field_view field.now) child.now (target_view target.now))) }
{
    if !schema.is_composite(target.base) {
        return put_leaf(field, steps);
    }
    let child = child.copy()?;
    put_object_step(alloc, schema, kept, field, target, child, steps)
}

/// Puts the steps of an inline fragment.
#[cycle(steps)]
fn put_inline<'a>(
    alloc: Global,
    schema: &'a Schema,
    kept: &mut Kept<'a>,
    around: Around<'_, 'a>,
    on: &'a Option<Name>,
    directives: &Directives,
    selections: &'a Nodes,
    steps: &mut NormalList,
) -> Result<(), NoMemory>
    requires right { IsRight schema.now kept.old }
    requires composite { IsOfComposite schema.now around }
    ensures right { OnOk result (IsRight schema.now kept.new) }
    ensures put { OnOk result (steps.new ≡ normal_append steps.old (spec.inline_steps schema.now (types_of schema.now around.entry) on.now (tests.conditions_of directives.now)
        (λ us. spec.steps_of schema.now us selections.now))) }
{
    let conditions = conditions_of(alloc, directives)?;
    match on {
        Some(on) => put_on(
            alloc, schema, kept, around, on, conditions, selections, steps,
        ),
        None => put_inside(alloc, schema, kept, around, conditions, selections, steps),
    }
}

/// Puts the steps of an inline fragment on a type.
#[cycle(steps)]
fn put_on<'a>(
    alloc: Global,
    schema: &'a Schema,
    kept: &mut Kept<'a>,
    around: Around<'_, 'a>,
    on: &'a Name,
    conditions: Conditions,
    selections: &'a Nodes,
    steps: &mut NormalList,
) -> Result<(), NoMemory>
    requires right { IsRight schema.now kept.old }
    requires composite { IsOfComposite schema.now around }
    ensures right { OnOk result (IsRight schema.now kept.new) }
    ensures put { OnOk result (steps.new ≡ normal_append steps.old (spec.inline_steps schema.now (types_of schema.now around.entry) (Some on.now) conditions (λ us. spec.steps_of schema.now us selections.now))) }
{
    if !schema.is_composite(on.as_str()) {
        return Ok(());
    }
    let is_within = kept.are_within(alloc, schema, around, on.as_str())?;
    if is_within {
        return put_inside(alloc, schema, kept, around, conditions, selections, steps);
    }
    if around.is_one(schema) {
        return Ok(());
    }
    let inside = make_steps(alloc, schema, kept, Around::Of(on.as_str()), selections)?;
    let ids = schema.possible(on.as_str());
    let guard = ids.copy()?;
    steps.push(behind(Some(guard), conditions, inside))
}

/// Puts the steps of nodes behind conditions.
#[cycle(steps)]
fn put_inside<'a>(
    alloc: Global,
    schema: &'a Schema,
    kept: &mut Kept<'a>,
    around: Around<'_, 'a>,
    conditions: Conditions,
    selections: &'a Nodes,
    steps: &mut NormalList,
) -> Result<(), NoMemory>
    requires right { IsRight schema.now kept.old }
    requires composite { IsOfComposite schema.now around }
    ensures right { OnOk result (IsRight schema.now kept.new) }
    ensures put { OnOk result (steps.new ≡ normal_append steps.old (spec.behind None conditions (spec.steps_of schema.now (types_of schema.now around.entry) selections.now))) }
{
    if conditions.is_empty() {
        return put_nodes(alloc, schema, kept, around, selections, steps);
    }
    let inside = make_steps(alloc, schema, kept, around, selections)?;
    steps.push(behind(None, conditions, inside))
}
