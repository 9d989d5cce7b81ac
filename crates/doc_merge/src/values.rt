//! V23, values of expanded operations (this project's own): each use of a variable is allowed, and
//! each literal that was put in for a local variable fits. Its place is that of the field, the inline
//! fragment or the spread in whose arguments or directives it stands.
ghost use Rattle.std.specs.Prelude.{◌≡◌, option_copied, option_map, IfOk, OnOk};
ghost use Rattle.plan_ir.specs.gql_ast.Value.{members_of, vals_of};
ghost use Rattle.plan_ir.specs.gql_ast.ValueView as tree;
ghost use Rattle.plan_ir.specs.NodesView.{node_of};
ghost use Rattle.doc_uses.specs.UseView.{fields_of_name, place_of};
ghost use Rattle.doc_merge.specs.Faults.{values_unfit};
ghost use Rattle.doc_merge.specs.Places.{least, least_from};
ghost use Rattle.doc_merge.specs.UseView.{Names};
ghost use Rattle.doc_merge.specs.Values as spec;

use crate::least::Least;
use crate::row::on_or;
use crate::variables::Variables;
use doc_uses::{Place, field_place, item_place, name_of_place, place_of_input};
use plan_ir::type_forms::base_of;
use plan_ir::{
    Argument, Arguments, Directive, Directives, Expanded, FilePlace, InputDef, InputDefs, NoMemory,
    Node, Nodes, Schema, ValueTree, ValueTrees, VariableDef,
};
use std::alloc::Global;

/// The least place in an operation where a value does not fit or a use is not allowed; none in a
/// fragment.
pub(crate) fn least_unfit(
    alloc: Global,
    schema: &Schema,
    expanded: &Expanded,
) -> Result<Option<FilePlace>, NoMemory>
    ensures { IfOk result (λ found. found ≡ least (values_unfit schema.now expanded.now.kind expanded.now)) }
{
    match expanded.kind {
        Some(_) => least_unfit_in_operation(alloc, schema, expanded),
        None => Ok(None),
    }
}

/// The least place in an operation where a value does not fit or a use is not allowed.
fn least_unfit_in_operation(
    alloc: Global,
    schema: &Schema,
    expanded: &Expanded,
) -> Result<Option<FilePlace>, NoMemory>
    ensures { IfOk result (λ found. found ≡ least (spec.nodes_unfit schema.now expanded.now.variables expanded.now.root expanded.now.selections)) }
{
    let variables = Variables::of(alloc, &expanded.variables)?;
    let around = expanded.root.as_str();
    let nodes = &expanded.selections;
    let mut least = Least::new();
    note_nodes(alloc, schema, &variables, &mut least, around, nodes)?;
    Ok(least.at)
}

/// Notes the nodes of a set on a type, and all inside them, with values that are not good.
#[cycle(nodes)]
fn note_nodes(
    alloc: Global,
    schema: &Schema,
    variables: &Variables<'_>,
    least: &mut Least,
    around: &str,
    nodes: &Nodes,
) -> Result<(), NoMemory>
    requires { Names variables.now }
    ensures { OnOk result (least.new.at ≡ least_from least.old.at (spec.nodes_unfit schema.now variables.now.defined.now around.now nodes.now)) }
{
    'nodes: for node in nodes.as_slice() {
        note_node(alloc, schema, variables, least, around, node)?;
    }
    Ok(())
}

/// Notes a node, and all inside it, with values that are not good.
#[cycle(nodes)]
fn note_node(
    alloc: Global,
    schema: &Schema,
    variables: &Variables<'_>,
    least: &mut Least,
    around: &str,
    node: &Node,
) -> Result<(), NoMemory>
    requires { Names variables.now }
    ensures { OnOk result (least.new.at ≡ least_from least.old.at (spec.nodes_unfit schema.now variables.now.defined.now around.now (node_of node.now))) }
{
    match node {
        Node::Field {
            name,
            arguments,
            directives,
            of,
            selections,
            place,
            ..
        } => {
            let inputs = field_inputs(schema, around, name.as_str());
            note_arguments(alloc, schema, variables, least, &inputs, *place, arguments)?;
            note_directives(alloc, schema, variables, least, *place, directives)?;
            note_nodes(alloc, schema, variables, least, base_of(of), selections)
        }
        Node::Inline {
            on,
            directives,
            selections,
            place,
        } => {
            note_directives(alloc, schema, variables, least, *place, directives)?;
            note_nodes(
                alloc,
                schema,
                variables,
                least,
                on_or(around, on),
                selections,
            )
        }
    }
}

/// The arguments that a field of a type takes, where that is known.
fn field_inputs<'a>(schema: &'a Schema, around: &str, name: &str) -> Option<InputDefs<'a>>
    ensures { result ≡ spec.field_inputs schema.now around.now name.now }
{
    match schema.field(around, name) {
        Some(field) => Some(field.arguments()),
        None => None,
    }
}

/// The arguments that a directive takes, where that is known.
fn directive_inputs<'a>(schema: &'a Schema, name: &str) -> Option<InputDefs<'a>>
    ensures { result ≡ spec.directive_inputs schema.now name.now }
{
    match schema.directive(name) {
        Some(directive) => Some(directive.arguments()),
        None => None,
    }
}

/// Notes the place of a node whose directives have an argument that is not good.
fn note_directives(
    alloc: Global,
    schema: &Schema,
    variables: &Variables<'_>,
    least: &mut Least,
    place: FilePlace,
    directives: &Directives,
) -> Result<(), NoMemory>
    requires { Names variables.now }
    ensures { OnOk result (least.new.at ≡ least_from least.old.at (spec.directives_unfit schema.now variables.now.defined.now place directives.now)) }
{
    'directives: for directive in directives.as_slice() {
        let inputs = directive_inputs(schema, directive.name.as_str());
        note_arguments(
            alloc,
            schema,
            variables,
            least,
            &inputs,
            place,
            &directive.arguments,
        )?;
    }
    Ok(())
}

/// Notes the place of a node which has an argument that is not good.
fn note_arguments(
    alloc: Global,
    schema: &Schema,
    variables: &Variables<'_>,
    least: &mut Least,
    inputs: &Option<InputDefs<'_>>,
    place: FilePlace,
    arguments: &Arguments,
) -> Result<(), NoMemory>
    requires { Names variables.now }
    ensures { OnOk result (least.new.at ≡ least_from least.old.at (spec.arguments_unfit schema.now variables.now.defined.now inputs.now place arguments.now)) }
{
    'arguments: for argument in arguments.as_slice() {
        let is_good = is_good_argument(alloc, schema, variables, inputs, argument)?;
        least.note_if(!is_good, place);
    }
    Ok(())
}

/// Whether the value of an argument fits, and all uses in it are allowed.
fn is_good_argument(
    alloc: Global,
    schema: &Schema,
    variables: &Variables<'_>,
    inputs: &Option<InputDefs<'_>>,
    argument: &Argument,
) -> Result<bool, NoMemory>
    requires { Names variables.now }
    ensures { IfOk result (λ b. b ≡ spec.is_good_value schema.now variables.now.defined.now (spec.input_in inputs.now argument.now.name) (tree.value_of argument.now.value)) }
{
    let input = find_input(inputs, argument.name.as_str());
    is_good_value(alloc, schema, variables, input, &argument.value)
}

/// The argument of a name among those that are taken.
fn find_input<'a>(inputs: &Option<InputDefs<'a>>, name: &str) -> Option<InputDef<'a>>
    ensures { result ≡ spec.input_in inputs.now name.now }
{
    match inputs {
        Some(inputs) => inputs.find(name),
        None => None,
    }
}

/// Whether a value fits an argument, and all uses in it are allowed.
fn is_good_value(
    alloc: Global,
    schema: &Schema,
    variables: &Variables<'_>,
    input: Option<InputDef<'_>>,
    value: &ValueTree,
) -> Result<bool, NoMemory>
    requires { Names variables.now }
    ensures { IfOk result (λ b. b ≡ spec.is_good_value schema.now variables.now.defined.now input.entry (tree.value_of value.now)) }
{
    if !fits_input(alloc, schema, &input, value)? {
        return Ok(false);
    }
    let is_good = are_allowed(schema, variables, value, place_of_input(input));
    Ok(is_good)
}

/// Whether a value fits an argument, where that is known.
fn fits_input(
    alloc: Global,
    schema: &Schema,
    input: &Option<InputDef<'_>>,
    value: &ValueTree,
) -> Result<bool, NoMemory>
    ensures { IfOk result (λ b. b ≡ spec.fits_input schema.now (tree.value_of value.now) input.now) }
{
    match input {
        Some(input) => {
            let is_fit = schema.literal_fits(alloc, value, input.of())?;
            Ok(is_fit)
        }
        None => Ok(true),
    }
}

/// Whether the use of a variable at a place is allowed.
fn is_allowed(
    schema: &Schema,
    variables: &Variables<'_>,
    name: &str,
    place: Option<Place<'_>>,
) -> bool
    requires { Names variables.now }
    ensures { result ≡ spec.is_allowed (spec.variable_named variables.now.defined.now name.now) (option_map place_of place.entry) }
{
    match variables.find(name) {
        Some(variable) => is_allowed_at(schema, variable, place),
        None => false,
    }
}

/// Whether the use of a variable that is defined is allowed at a place.
fn is_allowed_at(schema: &Schema, variable: &VariableDef, place: Option<Place<'_>>) -> bool
    ensures { result ≡ spec.is_allowed_at variable.now (option_map place_of place.entry) }
{
    match place {
        Some(place) => schema.use_allowed(variable, place.of, place.has_default),
        None => true,
    }
}

/// Whether all uses of variables in a value at a place are allowed.
#[cycle(uses)]
fn are_allowed<'a>(
    schema: &'a Schema,
    variables: &Variables<'_>,
    value: &ValueTree,
    place: Option<Place<'a>>,
) -> bool
    requires { Names variables.now }
    ensures { result ≡ spec.uses_are_allowed schema.now variables.now.defined.now (tree.value_of value.now) (option_map place_of place.entry) }
{
    match value {
        ValueTree::Variable(name) => is_allowed(schema, variables, name.as_str(), place),
        ValueTree::Int(_) => true,
        ValueTree::Text(_) => true,
        ValueTree::Bool(_) => true,
        ValueTree::Null => true,
        ValueTree::Enum(_) => true,
        ValueTree::List(values) => are_allowed_in(schema, variables, values, item_place(place)),
        ValueTree::Object(members) => {
            are_allowed_among(schema, variables, members, name_of_place(place))
        }
    }
}

/// Whether all uses of variables in the items of a list are allowed.
#[cycle(uses)]
fn are_allowed_in<'a>(
    schema: &'a Schema,
    variables: &Variables<'_>,
    values: &ValueTrees,
    place: Option<Place<'a>>,
) -> bool
    requires { Names variables.now }
    ensures { result ≡ spec.items_are_allowed schema.now variables.now.defined.now (vals_of values.now) (option_map place_of place.entry) }
{
    'items: for value in values.as_slice() {
        if !are_allowed(schema, variables, value, place) {
            return false;
        }
    }
    true
}

/// Whether all uses of variables in the fields of an object are allowed, by the name of its type.
#[cycle(uses)]
fn are_allowed_among<'a>(
    schema: &'a Schema,
    variables: &Variables<'_>,
    members: &Arguments,
    of: Option<&'a str>,
) -> bool
    requires { Names variables.now }
    ensures { result ≡ spec.members_are_allowed schema.now variables.now.defined.now (members_of members.now) (fields_of_name schema.now (option_copied of.entry)) }
{
    'members: for member in members.as_slice() {
        let place = field_place(schema, of, member.name.as_str());
        if !are_allowed(schema, variables, &member.value, place) {
            return false;
        }
    }
    true
}
