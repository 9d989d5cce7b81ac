//! The variables that an operation uses (GraphQL, October 2021, section 2.10).
ghost use Rattle.std.specs.Prelude.{◌≡◌, ◌||◌, IfOk, OnOk};
ghost use Rattle.plan_ir.specs.gql_ast.Value.{members_of, vals_of};
ghost use Rattle.plan_ir.specs.gql_ast.ValueView.{value_of};
ghost use Rattle.plan_ir.specs.OperationText.{arguments_use, directives_use, members_use, nodes_use, value_uses, values_use};
ghost use Rattle.plan_text.specs.NodeTexts.{node_uses};
ghost use Rattle.plan_text.specs.UsedNames.{has_name};
ghost use Rattle.plan_ir.specs.schema_tables.Types.{Text};

use plan_ir::{Arguments, Directives, Expanded, NoMemory, Node, Nodes, ValueTree, ValueTrees};
use std::alloc::Global;
use std::collections::BTreeSet;

/// The names of the variables that the operation uses, by one walk.
pub(crate) fn names_used<'a>(
    alloc: Global,
    expanded: &'a Expanded,
) -> Result<BTreeSet<&'a str>, NoMemory>
    ensures { IfOk result (λ names. (n : Text) → has_name names n
        ≡ (directives_use n expanded.now.directives || nodes_use n expanded.now.selections)) }
{
    let mut names = BTreeSet::new(alloc);
    note_directives(&mut names, &expanded.directives)?;
    note_nodes(&mut names, &expanded.selections)?;
    Ok(names)
}

/// Notes the variables that are used in a selection set.
#[cycle(nodes)]
fn note_nodes<'a>(names: &mut BTreeSet<&'a str>, nodes: &'a Nodes) -> Result<(), NoMemory>
    ensures { (n : Text) → OnOk result
        (has_name names.new n ≡ (has_name names.old n || nodes_use n nodes.now)) }
{
    'items: for node in &nodes.items {
        note_node(names, node)?;
    }
    Ok(())
}

/// Notes the variables that are used in a field or an inline fragment, and in the set inside it.
#[cycle(nodes)]
fn note_node<'a>(names: &mut BTreeSet<&'a str>, node: &'a Node) -> Result<(), NoMemory>
    ensures { (n : Text) → OnOk result
        (has_name names.new n ≡ (has_name names.old n || node_uses n node.now)) }
{
    match node {
        Node::Field {
            arguments,
            directives,
            selections,
            ..
        } => {
            note_arguments(names, arguments)?;
            note_directives(names, directives)?;
            note_nodes(names, selections)?;
            Ok(())
        }
        Node::Inline {
            directives,
            selections,
            ..
        } => {
            note_directives(names, directives)?;
            note_nodes(names, selections)?;
            Ok(())
        }
    }
}

/// Notes the variables that are used in directives.
fn note_directives<'a>(
    names: &mut BTreeSet<&'a str>,
    directives: &'a Directives,
) -> Result<(), NoMemory>
    ensures { (n : Text) → OnOk result
        (has_name names.new n ≡ (has_name names.old n || directives_use n directives.now)) }
{
    'items: for directive in &directives.items {
        note_arguments(names, &directive.arguments)?;
    }
    Ok(())
}

/// Notes the variables that are used in arguments, or in the fields of an input object.
#[cycle(values)]
fn note_arguments<'a>(
    names: &mut BTreeSet<&'a str>,
    arguments: &'a Arguments,
) -> Result<(), NoMemory>
    ensures { (n : Text) → OnOk result
        (has_name names.new n ≡ (has_name names.old n || arguments_use n arguments.now)) }
{
    'items: for argument in &arguments.items {
        note_value(names, &argument.value)?;
    }
    Ok(())
}

/// Notes the variables that are used in a value.
#[cycle(values)]
fn note_value<'a>(names: &mut BTreeSet<&'a str>, value: &'a ValueTree) -> Result<(), NoMemory>
    ensures { (n : Text) → OnOk result
        (has_name names.new n ≡ (has_name names.old n || value_uses n (value_of value.now))) }
{
    match value {
        ValueTree::Variable(name) => {
            names.insert(name.as_str())?;
            Ok(())
        }
        ValueTree::List(values) => note_values(names, values),
        ValueTree::Object(fields) => note_arguments(names, fields),
        _ => Ok(()),
    }
}

/// Notes the variables that are used in values.
#[cycle(values)]
fn note_values<'a>(names: &mut BTreeSet<&'a str>, values: &'a ValueTrees) -> Result<(), NoMemory>
    ensures { (n : Text) → OnOk result
        (has_name names.new n ≡ (has_name names.old n || values_use n (vals_of values.now))) }
{
    'items: for value in &values.items {
        note_value(names, value)?;
    }
    Ok(())
}
