//! Expanded operations and fragments as texts.
use plan_ir::{Arguments, Directives, Expanded, Node, Nodes, ValueTree, ValueTrees};
use std::alloc::Global;
use std::test::Fail;

/// Writes a value.
#[cycle(values)]
fn put_value(text: &mut String, value: &ValueTree) -> Result<(), Fail> {
    match value {
        ValueTree::Variable(name) => {
            text.push_str("$")?;
            text.push_str(name.as_str())?;
        }
        ValueTree::Int(number) => text.push_str(&format!(in *text.allocator(); "{number}")?)?,
        ValueTree::Text(words) => {
            text.push_str("\"")?;
            text.push_str(words.as_str())?;
            text.push_str("\"")?;
        }
        ValueTree::Bool(true) => text.push_str("true")?,
        ValueTree::Bool(false) => text.push_str("false")?,
        ValueTree::Null => text.push_str("null")?,
        ValueTree::Enum(name) => text.push_str(name.as_str())?,
        ValueTree::List(values) => {
            text.push_str("[")?;
            put_values(text, values)?;
            text.push_str("]")?;
        }
        ValueTree::Object(fields) => {
            text.push_str("{")?;
            put_pairs(text, fields)?;
            text.push_str("}")?;
        }
    }
    Ok(())
}

/// Writes values in written order.
#[cycle(values)]
fn put_values(text: &mut String, values: &ValueTrees) -> Result<(), Fail> {
    let mut begun = false;
    for value in &values.items {
        if begun {
            text.push_str(",")?;
        }
        put_value(text, value)?;
        begun = true;
    }
    Ok(())
}

/// Writes names and values in written order.
#[cycle(values)]
fn put_pairs(text: &mut String, pairs: &Arguments) -> Result<(), Fail> {
    let mut begun = false;
    for pair in &pairs.items {
        if begun {
            text.push_str(",")?;
        }
        text.push_str(pair.name.as_str())?;
        text.push_str(":")?;
        put_value(text, &pair.value)?;
        begun = true;
    }
    Ok(())
}

/// Writes arguments, where there are any.
fn put_arguments(text: &mut String, arguments: &Arguments) -> Result<(), Fail> {
    if arguments.is_empty() {
        return Ok(());
    }
    text.push_str("(")?;
    put_pairs(text, arguments)?;
    text.push_str(")")?;
    Ok(())
}

/// Writes directives.
fn put_directives(text: &mut String, directives: &Directives) -> Result<(), Fail> {
    for directive in directives.as_slice() {
        text.push_str("@")?;
        text.push_str(directive.name.as_str())?;
        put_arguments(text, &directive.arguments)?;
    }
    Ok(())
}

/// Writes a set, where it has a node.
#[cycle(nodes)]
fn put_set(text: &mut String, nodes: &Nodes) -> Result<(), Fail> {
    if nodes.is_empty() {
        return Ok(());
    }
    text.push_str("{")?;
    let mut begun = false;
    for node in &nodes.items {
        if begun {
            text.push_str(" ")?;
        }
        put_node(text, node)?;
        begun = true;
    }
    text.push_str("}")?;
    Ok(())
}

/// Writes a node.
#[cycle(nodes)]
fn put_node(text: &mut String, node: &Node) -> Result<(), Fail> {
    match node {
        Node::Field {
            response,
            name,
            arguments,
            directives,
            selections,
            ..
        } => {
            if response.as_str() != name.as_str() {
                text.push_str(response.as_str())?;
                text.push_str(":")?;
            }
            text.push_str(name.as_str())?;
            put_arguments(text, arguments)?;
            put_directives(text, directives)?;
            put_set(text, selections)
        }
        Node::Inline {
            on,
            directives,
            selections,
            ..
        } => {
            text.push_str("...")?;
            if let Some(on) = on {
                text.push_str("on ")?;
                text.push_str(on.as_str())?;
            }
            put_directives(text, directives)?;
            put_set(text, selections)
        }
    }
}

/// The directives and the set of what is expanded, as a text.
pub(crate) fn text_of(alloc: Global, expanded: &Expanded) -> Result<String, Fail> {
    let mut text = String::new(alloc);
    put_directives(&mut text, &expanded.directives)?;
    put_set(&mut text, &expanded.selections)?;
    Ok(text)
}
