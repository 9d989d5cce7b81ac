//! Selection sets (GraphQL, October 2021, sections 2.4 to 2.8).
ghost use Rattle.std.specs.Prelude.{◌≡◌, ◌++◌, string_bytes, OnOk};
ghost use Rattle.plan_ir.specs.OperationText.{condition_text, directives_text, enclose, name_text, node_texts};
ghost use Rattle.plan_text.specs.NodeTexts.{node_text};

use crate::directives::{write_arguments, write_directives};
use crate::separator::separate;
use plan_ir::{Directives, Name, NoMemory, Node, Nodes};

/// Writes a selection set between `{` and `}`, with a space between each two selections.
#[cycle(selections)]
pub(crate) fn write_set(out: &mut String, nodes: &Nodes) -> Result<(), NoMemory>
    ensures { OnOk result (string_bytes out.new
        ≡ string_bytes out.old ++ enclose 123 32 125 (node_texts nodes.now)) }
{
    out.push('{')?;
    let mut begun = false;
    'items: for node in &nodes.items {
        separate(out, begun, ' ')?;
        write_node(out, node)?;
        begun = true;
    }
    out.push('}')?;
    Ok(())
}

/// Writes a field or an inline fragment, with the set inside it.
#[cycle(selections)]
fn write_node(out: &mut String, node: &Node) -> Result<(), NoMemory>
    ensures { OnOk result
        (string_bytes out.new ≡ string_bytes out.old ++ node_text node.now) }
{
    match node {
        Node::Field {
            response,
            name,
            arguments,
            directives,
            selections,
            ..
        } => {
            write_name(out, response, name)?;
            write_arguments(out, arguments)?;
            write_directives(out, directives)?;
            if selections.is_empty() {
                return Ok(());
            }
            write_set(out, selections)
        }
        Node::Inline {
            on,
            directives,
            selections,
            ..
        } => {
            write_head(out, on, directives)?;
            write_set(out, selections)
        }
    }
}

/// Writes the name of a field, behind its alias where the response key differs from it.
fn write_name(out: &mut String, response: &Name, name: &Name) -> Result<(), NoMemory>
    ensures { OnOk result
        (string_bytes out.new ≡ string_bytes out.old ++ name_text response.now name.now) }
{
    if response.as_str() == name.as_str() {
        out.push_str(name.as_str())?;
        return Ok(());
    }
    out.push_str(response.as_str())?;
    out.push(':')?;
    out.push_str(name.as_str())?;
    Ok(())
}

/// Writes what stands in front of the set of an inline fragment.
fn write_head(out: &mut String, on: &Option<Name>, directives: &Directives) -> Result<(), NoMemory>
    ensures { OnOk result (string_bytes out.new
        ≡ string_bytes out.old ++ (condition_text on.now ++ directives_text directives.now)) }
{
    write_condition(out, on)?;
    write_directives(out, directives)
}

/// Writes `...`, and the type of an inline fragment that has one.
fn write_condition(out: &mut String, on: &Option<Name>) -> Result<(), NoMemory>
    ensures { OnOk result
        (string_bytes out.new ≡ string_bytes out.old ++ condition_text on.now) }
{
    match on {
        Some(name) => {
            out.push_str("...on ")?;
            out.push_str(name.as_str())?;
            Ok(())
        }
        None => {
            out.push_str("...")?;
            Ok(())
        }
    }
}
