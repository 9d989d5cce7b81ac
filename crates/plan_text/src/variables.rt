//! The variables of an operation (GraphQL, October 2021, section 2.10).
ghost use Rattle.std.specs.Prelude.{◌≡◌, [], ◌∷◌, ◌++◌, cond, map, option_map, string_bytes, IfOk, OnOk};
ghost use Rattle.plan_ir.specs.gql_ast.ValueView.{value_of};
ghost use Rattle.plan_ir.specs.OperationText as texts;
ghost use Rattle.plan_ir.specs.OperationText.{default_text, variable_text, variables_text};
ghost use Rattle.plan_text.specs.UsedNames.{has_name};

use crate::directives::write_directives;
use crate::separator::separate;
use crate::types::write_type;
use crate::usage::names_used;
use crate::values::write_value;
use plan_ir::{Expanded, NoMemory, ValueTree, VariableDef};
use std::alloc::Global;
use std::collections::BTreeSet;

/// The variables that the operation uses, in order of definition.
pub(crate) fn used_variables<'a>(
    alloc: Global,
    expanded: &'a Expanded,
) -> Result<Vec<&'a VariableDef>, NoMemory>
    ensures { IfOk result (λ vs. map (λ v. v.now) vs.items ≡ texts.used_variables expanded.now) }
{
    let names = names_used(alloc, expanded)?;
    let mut used = Vec::new(alloc);
    'items: for variable in &expanded.variables.items {
        push_used(&mut used, &names, variable)?;
    }
    Ok(used)
}

/// Puts a variable at the end, if its name is among those that are used.
fn push_used<'a>(
    used: &mut Vec<&'a VariableDef>,
    names: &BTreeSet<&'a str>,
    variable: &'a VariableDef,
) -> Result<(), NoMemory>
    ensures { OnOk result (map (λ v. v.now) used.new.items
        ≡ map (λ v. v.now) used.old.items ++ cond (has_name names.now variable.now.name) (variable.now ∷ []) []) }
{
    if names.contains(variable.name.as_str()) {
        used.push(variable)?;
        return Ok(());
    }
    Ok(())
}

/// Writes variables between `(` and `)`, or nothing where there is none.
pub(crate) fn write_variables(out: &mut String, variables: &[&VariableDef]) -> Result<(), NoMemory>
    ensures { OnOk result (string_bytes out.new
        ≡ string_bytes out.old ++ variables_text (map (λ v. v.now) variables.now)) }
{
    if variables.is_empty() {
        return Ok(());
    }
    out.push('(')?;
    let mut begun = false;
    'items: for variable in variables {
        separate(out, begun, ',')?;
        write_variable(out, variable)?;
        begun = true;
    }
    out.push(')')?;
    Ok(())
}

/// Writes a variable with its type, its default and its directives.
fn write_variable(out: &mut String, variable: &VariableDef) -> Result<(), NoMemory>
    ensures { OnOk result
        (string_bytes out.new ≡ string_bytes out.old ++ variable_text variable.now) }
{
    out.push('$')?;
    out.push_str(variable.name.as_str())?;
    out.push(':')?;
    write_type(out, &variable.of)?;
    write_default(out, &variable.default)?;
    write_directives(out, &variable.directives)
}

/// Writes `=` and a default, or nothing where there is none.
fn write_default(out: &mut String, default: &Option<ValueTree>) -> Result<(), NoMemory>
    ensures { OnOk result (string_bytes out.new
        ≡ string_bytes out.old ++ default_text (option_map value_of default.now)) }
{
    match default {
        Some(value) => {
            out.push('=')?;
            write_value(out, value)
        }
        None => Ok(()),
    }
}
