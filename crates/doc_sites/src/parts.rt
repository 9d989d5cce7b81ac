//! Names, arguments, directives and variables with the numbers of their nodes.
ghost use Rattle.std.specs.Prelude.{◌≡◌, ◌+◌, map, option_map, IfOk, OnOk};
ghost use Rattle.schema_types.specs.gql_ast.ValueView as tree;
ghost use Rattle.schema_types.specs.schema_trees.Located.{default_nodes, directives_nodes, value_nodes};
ghost use Rattle.schema_types.specs.schema_trees.LocatedView.{name_of};
ghost use Rattle.schema_types.specs.Sites as sites;
ghost use Rattle.schema_types.specs.Sites.{arguments_nodes, optional_name_nodes, variable_nodes, variables_nodes};
ghost use Rattle.doc_sites.specs.SitesView.{argument_of, directive_of, value_of, variable_of};
ghost use Rattle.doc_sites.specs.Firsts.{name_here, value_here};

use crate::site::{ArgumentAt, DirectiveAt, ValueAt, VariableAt};
use schema_types::located::{NameAt, name_at, pass, pass_type, pass_value};
use schema_types::{Arguments, Directives, Name, NoMemory, ValueTree, VariableDef, VariableDefs};
use std::alloc::Global;

/// A name whose own node comes next.
pub(crate) fn name_here<'a>(at: &mut usize, name: &'a Name) -> Result<NameAt<'a>, NoMemory>
    ensures named { IfOk result (λ n. name_of n ≡ name_here at.old name.now) }
    ensures passed { OnOk result (at.new ≡ at.old + 1) }
{
    let node = *at;
    pass(at, 1)?;
    Ok(NameAt {
        name: name.as_str(),
        at: node,
    })
}

/// A name whose own node comes next, where there is one.
pub(crate) fn optional_name_at<'a>(
    at: &mut usize,
    name: &'a Option<Name>,
) -> Result<Option<NameAt<'a>>, NoMemory>
    ensures named { IfOk result (λ n. option_map name_of n ≡ sites.optional_name_at at.old name.now) }
    ensures passed { OnOk result (at.new ≡ at.old + optional_name_nodes name.now) }
{
    match name {
        Some(name) => Ok(Some(name_here(at, name)?)),
        None => Ok(None),
    }
}

/// A value whose node comes next (GraphQL, October 2021, section 2.9).
fn value_at<'a>(at: &mut usize, value: &'a ValueTree) -> Result<ValueAt<'a>, NoMemory>
    ensures valued { IfOk result (λ v. value_of v ≡ value_here at.old (tree.value_of value.now)) }
    ensures passed { OnOk result (at.new ≡ at.old + value_nodes (tree.value_of value.now)) }
{
    let node = *at;
    pass_value(at, value)?;
    Ok(ValueAt {
        of: value,
        at: node,
    })
}

/// A default value, where there is one.
fn default_at<'a>(
    at: &mut usize,
    default: &'a Option<ValueTree>,
) -> Result<Option<ValueAt<'a>>, NoMemory>
    ensures valued { IfOk result (λ v. option_map value_of v ≡ sites.value_at at.old default.now) }
    ensures passed { OnOk result (at.new ≡ at.old + default_nodes default.now) }
{
    match default {
        Some(value) => Ok(Some(value_at(at, value)?)),
        None => Ok(None),
    }
}

/// Arguments (section 2.6).
pub(crate) fn arguments_at<'a>(
    alloc: Global,
    at: &mut usize,
    arguments: &'a Arguments,
) -> Result<Vec<ArgumentAt<'a>>, NoMemory>
    ensures named { IfOk result (λ xs. map argument_of xs.items ≡ sites.arguments_at at.old arguments.now) }
    ensures passed { OnOk result (at.new ≡ at.old + arguments_nodes arguments.now) }
{
    let mut located = Vec::new(alloc);
    'arguments: for argument in arguments.as_slice() {
        let name = name_at(at, &argument.name)?;
        let value = value_at(at, &argument.value)?;
        located.push(ArgumentAt { name, value })?;
    }
    Ok(located)
}

/// Directives that are applied (section 2.12).
pub(crate) fn directives_at<'a>(
    alloc: Global,
    at: &mut usize,
    directives: &'a Directives,
) -> Result<Vec<DirectiveAt<'a>>, NoMemory>
    ensures named { IfOk result (λ ds. map directive_of ds.items ≡ sites.directives_at at.old directives.now) }
    ensures passed { OnOk result (at.new ≡ at.old + directives_nodes directives.now) }
{
    let mut located = Vec::new(alloc);
    'directives: for directive in directives.as_slice() {
        let name = name_at(at, &directive.name)?;
        let arguments = arguments_at(alloc, at, &directive.arguments)?;
        located.push(DirectiveAt { name, arguments })?;
    }
    Ok(located)
}

/// The definition of a variable (section 2.10).
fn variable_at<'a>(
    alloc: Global,
    at: &mut usize,
    variable: &'a VariableDef,
) -> Result<VariableAt<'a>, NoMemory>
    ensures named { IfOk result (λ v. variable_of v ≡ sites.variable_at at.old variable.now) }
    ensures passed { OnOk result (at.new ≡ at.old + variable_nodes variable.now) }
{
    let name = name_at(at, &variable.name)?;
    pass_type(at, &variable.of)?;
    let default = default_at(at, &variable.default)?;
    let directives = directives_at(alloc, at, &variable.directives)?;
    Ok(VariableAt {
        name,
        defined: variable,
        default,
        directives,
    })
}

/// The definitions of variables.
pub(crate) fn variables_at<'a>(
    alloc: Global,
    at: &mut usize,
    variables: &'a VariableDefs,
) -> Result<Vec<VariableAt<'a>>, NoMemory>
    ensures named { IfOk result (λ vs. map variable_of vs.items ≡ sites.variables_at at.old variables.now) }
    ensures passed { OnOk result (at.new ≡ at.old + variables_nodes variables.now) }
{
    let mut located = Vec::new(alloc);
    'variables: for variable in variables.as_slice() {
        located.push(variable_at(alloc, at, variable)?)?;
    }
    Ok(located)
}
