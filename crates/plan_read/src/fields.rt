//! The steps of fields.
ghost use Rattle.std.specs.Prelude.{◌≡◌, None, true, option_copied, IfOk, OnOk};
ghost use Rattle.plan_build.specs.ClassView.{target_view};
ghost use Rattle.plan_build.specs.Conditions as tests;
ghost use Rattle.plan_build.specs.KeptView.{IsRight};
ghost use Rattle.plan_expand.specs.ScopeView.{scope_of};
ghost use Rattle.plan_ir.specs.Expansion as expansion;
ghost use Rattle.plan_ir.specs.Reader.{reader_append, typename, done, guarded};
ghost use Rattle.plan_ir.specs.ReaderView.{step_of};
ghost use Rattle.plan_read.specs.FieldView.{field_view};
ghost use Rattle.plan_read.specs.Steps as spec;
ghost use Rattle.plan_ir.specs.schema_tables.Types as types;

use plan_build::classes::{Target, is_abstract};
use plan_build::conditions::conditions_of;
use plan_build::kept::Kept;
use plan_expand::directives::print_directives;
use plan_expand::scope::{Scope, substitute_in};
use plan_ir::{
    Arguments, Conditions, Directives, Guard, Ids, Name, NoMemory, ReaderList, ReaderPlan,
    ReaderStep, ReaderSteps, Schema, Selections, connection_among,
};
use std::alloc::Global;

/// A field as it is written.
#[derive(Clone, Copy)]
pub(crate) struct Field<'a> {
    pub(crate) alias: &'a Option<Name>,
    pub(crate) name: &'a Name,
    pub(crate) arguments: &'a Arguments,
    pub(crate) directives: &'a Directives,
    pub(crate) selections: &'a Selections,
}

/// The response key of a field (GraphQL, October 2021, section 2.7).
fn response_key(alias: &Option<Name>, name: &Name) -> Result<Name, NoMemory>
    ensures { IfOk result (λ n. n ≡ expansion.response_key alias.now name.now) }
{
    match alias {
        Some(alias) => alias.copy(),
        None => name.copy(),
    }
}

/// The text of a name, where there is one; takes no memory.
pub(crate) fn text_of(name: &Option<Name>) -> Option<&str>
    ensures { option_copied result ≡ name.now }
{
    match name {
        Some(name) => Some(name.as_str()),
        None => None,
    }
}

/// The conditions of a selection, with local variables replaced.
pub(crate) fn conditions_in(
    alloc: Global,
    scope: &Scope<'_, '_>,
    directives: &Directives,
) -> Result<Conditions, NoMemory>
    ensures { IfOk result (λ conditions. conditions ≡ tests.conditions_of (expansion.printed_conditions (scope_of scope.now) directives.now)) }
{
    let printed = print_directives(alloc, scope, directives, true)?;
    conditions_of(alloc, &printed)
}

/// Steps behind a guard.
pub(crate) fn behind(types: Option<Ids>, conditions: Conditions, steps: ReaderSteps) -> ReaderStep
    ensures { step_of result ≡ guarded (record { types = types; conditions = conditions }) steps done }
{
    ReaderStep::Guarded {
        guard: Guard { types, conditions },
        child: ReaderPlan { steps },
    }
}

/// Puts the name of the type of the record.
pub(crate) fn put_typename(field: &Field<'_>, steps: &mut ReaderList) -> Result<(), NoMemory>
    ensures { OnOk result (steps.new ≡ reader_append steps.old (typename (expansion.response_key field.now.alias.now field.now.name.now) done)) }
{
    let response = response_key(field.alias, field.name)?;
    steps.push(ReaderStep::Typename { response })
}

/// Puts a leaf.
pub(crate) fn put_leaf(
    alloc: Global,
    scope: &Scope<'_, '_>,
    field: &Field<'_>,
    steps: &mut ReaderList,
) -> Result<(), NoMemory>
    ensures { OnOk result (steps.new ≡ reader_append steps.old (spec.leaf_step (field_view (scope_of scope.now) field.now))) }
{
    let response = response_key(field.alias, field.name)?;
    let name = field.name.copy()?;
    let arguments = substitute_in(alloc, scope, field.arguments)?;
    steps.push(ReaderStep::Leaf {
        response,
        name,
        arguments,
    })
}

/// Puts a field of the objects of a type, with the steps that stand below it.
pub(crate) fn put_object<'a>(
    alloc: Global,
    schema: &Schema,
    kept: &mut Kept<'a>,
    scope: &Scope<'_, '_>,
    field: &Field<'_>,
    target: &Target<'a>,
    child: ReaderSteps,
    steps: &mut ReaderList,
) -> Result<(), NoMemory>
    requires right { IsRight schema.now kept.old }
    requires composite { types.is_composite schema.now target.now.base.now ≡ true }
    ensures right { OnOk result (IsRight schema.now kept.new) }
    ensures put { OnOk result (steps.new ≡ reader_append steps.old (spec.object_step schema.now (field_view (scope_of scope.now) field.now) (target_view target.now) child)) }
{
    let response = response_key(field.alias, field.name)?;
    let name = field.name.copy()?;
    let arguments = substitute_in(alloc, scope, field.arguments)?;
    let connection = connection_among(alloc, field.directives)?;
    let types = schema.possible(target.base).copy()?;
    let identified = kept.identified(alloc, schema, target.base)?;
    steps.push(ReaderStep::Object {
        response,
        name,
        arguments,
        many: target.many,
        types,
        identified,
        open_type: is_abstract(schema, target.base),
        connection,
        child: ReaderPlan { steps: child },
    })
}
