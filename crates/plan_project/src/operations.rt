//! What is kept of the operations and the fragments of an accepted project, with their plans.
ghost use Rattle.std.specs.Prelude.{◌≡◌, [], ◌∷◌, Some, cond, is_some, map, option_map, true, IfOk};
ghost use Rattle.plan_read.specs.plan_expand.Answers.{whole_in};
ghost use Rattle.plan_ir.specs.Expansion.{Whole};
ghost use Rattle.plan_ir.specs.declared.form.Form.TheVariants as form;
ghost use Rattle.plan_project.specs.Filling.{IsFragmentOf, IsNamedOperation};
ghost use Rattle.plan_project.specs.Lookups.{fragment_in, operation_in};
ghost use Rattle.plan_project.specs.Planning.{CanPlan};
ghost use Rattle.plan_ir.specs.schema_tables.Types as types;

use crate::planner::Planner;
use crate::ready::expanded_operation;
use plan_ir::{
    Expanded, Form, Fragment, Ids, Kind, Name, NoMemory, NormalPlan, Schema, VariableDefs, locals,
};
use plan_order::KeptReader;
use plan_read::normal::one_type;
use plan_read::normal_plan;
use std::alloc::Global;
use std::rc::Rc;

/// What is kept of an operation, with the plan by which its responses are normalized and the plan by
/// which it is read. Both may have other owners.
#[derive(Debug, Drop)]
pub struct Compiled {
    pub name: Name,
    pub kind: Kind,
    /// The type of its selections.
    pub root: Name,
    /// That type alone.
    pub types: Ids,
    /// In written order.
    pub variables: VariableDefs,
    pub normal: Rc<NormalPlan>,
    /// The plan by which it is read.
    pub reader: Rc<KeptReader>,
}

/// What is kept of a fragment, with the plan by which it is read. The plan may have other owners.
#[derive(Debug, Drop)]
pub struct CompiledFragment {
    pub name: Name,
    /// Its type.
    pub on: Name,
    /// Its local variables in written order, with their types and their defaults.
    pub locals: VariableDefs,
    /// The object types that a value of its type may have.
    pub types: Ids,
    /// The plan by which it is read.
    pub reader: Rc<KeptReader>,
}

/// The operation of a name with its plans.
pub(crate) fn compile_operation(
    alloc: Global,
    planner: &Planner<'_>,
    name: &Name,
) -> Result<Compiled, NoMemory>
    requires ready { CanPlan planner.now }
    requires there { is_some (operation_in planner.now.expander.schema.now planner.now.expander.documents.now name.now) ≡ true }
    ensures { IfOk result (IsNamedOperation planner.now.expander.schema.now planner.now.expander.documents.now name.now) }
{
    match expanded_operation(alloc, &planner.expander, name)? {
        Some(expanded) => plan_operation(alloc, planner, name, expanded),
        None => unreachable!(),
    }
}

/// The operation of a name with its plans, by what it becomes where all spreads are followed.
fn plan_operation(
    alloc: Global,
    planner: &Planner<'_>,
    name: &Name,
    expanded: Expanded,
) -> Result<Compiled, NoMemory>
    requires ready { CanPlan planner.now }
    requires whole { Some expanded ≡ option_map (λ (w : Whole). w.expanded)
        (whole_in planner.now.expander.schema.now planner.now.expander.documents.now form.Operation name.now) }
    ensures { IfOk result (IsNamedOperation planner.now.expander.schema.now planner.now.expander.documents.now name.now) }
{
    let Some(kind) = expanded.kind else {
        unreachable!()
    };
    let plan = normal_plan(alloc, planner.expander.schema, &expanded)?;
    let normal = Rc::new(alloc, plan)?;
    let reader = planner.reader(alloc, name, Form::Operation)?;
    let types = one_type(alloc, &expanded.root)?;
    Ok(Compiled {
        name: name.copy()?,
        kind,
        root: expanded.root,
        types,
        variables: expanded.variables,
        normal,
        reader,
    })
}

/// What is kept of a fragment of the project, with its plan.
pub(crate) fn compile_fragment(
    alloc: Global,
    planner: &Planner<'_>,
    fragment: &Fragment,
) -> Result<CompiledFragment, NoMemory>
    requires ready { CanPlan planner.now }
    requires there { is_some (fragment_in planner.now.expander.schema.now planner.now.expander.documents.now fragment.now.name) ≡ true }
    ensures { IfOk result (IsFragmentOf planner.now.expander.schema.now planner.now.expander.documents.now fragment.now.name fragment.now) }
{
    let locals = locals(alloc, fragment)?;
    let types = types_of(alloc, planner.expander.schema, fragment.on.as_str())?;
    let reader = planner.reader(alloc, &fragment.name, Form::Fragment)?;
    Ok(CompiledFragment {
        name: fragment.name.copy()?,
        on: fragment.on.copy()?,
        locals,
        types,
        reader,
    })
}

/// The object types that a value of a composite type may have; none of another type.
fn types_of(alloc: Global, schema: &Schema, of: &str) -> Result<Ids, NoMemory>
    ensures { IfOk result (λ ids. ids ≡ cond (types.is_composite schema.now of.now) (types.possible schema.now of.now) []) }
{
    if schema.is_composite(of) {
        return schema.possible(of).copy();
    }
    Ok(Ids::new(alloc))
}
