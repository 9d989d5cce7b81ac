//! Values (GraphQL, October 2021, section 2.9), and names with values.
ghost use Rattle.std.specs.Prelude.{◌≡◌, ◌++◌, string_bytes, OnOk};
ghost use Rattle.std.specs.Fmt.{signed_decimal};
ghost use Rattle.json.specs.Print.{quoted};
ghost use Rattle.plan_ir.specs.gql_ast.Value.{members_of, vals_of};
ghost use Rattle.plan_ir.specs.gql_ast.ValueView.{value_of};
ghost use Rattle.plan_ir.specs.OperationText.{join_texts, member_texts, pairs_text, value_text, value_texts};

use crate::order::in_order;
use crate::separator::separate;
use json::Writer;
use plan_ir::{Arguments, NoMemory, ValueTree, ValueTrees};
use std::mem;

/// Writes a value.
#[cycle(values)]
pub(crate) fn write_value(out: &mut String, value: &ValueTree) -> Result<(), NoMemory>
    ensures { OnOk result
        (string_bytes out.new ≡ string_bytes out.old ++ value_text (value_of value.now)) }
{
    match value {
        ValueTree::Variable(name) => {
            out.push('$')?;
            out.push_str(name.as_str())?;
        }
        ValueTree::Int(number) => write_int(out, *number)?,
        ValueTree::Text(text) => write_text(out, text.as_str())?,
        ValueTree::Bool(true) => out.push_str("true")?,
        ValueTree::Bool(false) => out.push_str("false")?,
        ValueTree::Null => out.push_str("null")?,
        ValueTree::Enum(name) => out.push_str(name.as_str())?,
        ValueTree::List(values) => {
            out.push('[')?;
            write_values(out, values)?;
            out.push(']')?;
        }
        ValueTree::Object(fields) => {
            out.push('{')?;
            write_pairs(out, fields)?;
            out.push('}')?;
        }
    }
    Ok(())
}

/// Writes values with a comma between each two.
#[cycle(values)]
fn write_values(out: &mut String, values: &ValueTrees) -> Result<(), NoMemory>
    ensures { OnOk result (string_bytes out.new
        ≡ string_bytes out.old ++ join_texts 44 (value_texts (vals_of values.now))) }
{
    let mut begun = false;
    'items: for value in &values.items {
        separate(out, begun, ',')?;
        write_value(out, value)?;
        begun = true;
    }
    Ok(())
}

/// Writes names with their values, in byte order of the names, with a comma between each two.
#[cycle(values)]
pub(crate) fn write_pairs(out: &mut String, arguments: &Arguments) -> Result<(), NoMemory>
    ensures { OnOk result (string_bytes out.new
        ≡ string_bytes out.old ++ join_texts 44 (pairs_text (member_texts (members_of arguments.now)))) }
{
    let pairs = in_order(arguments)?;
    let mut begun = false;
    'pairs: for pair in &pairs {
        separate(out, begun, ',')?;
        out.push_str(pair.name)?;
        out.push(':')?;
        write_value(out, pair.value)?;
        begun = true;
    }
    Ok(())
}

/// Writes an Int in decimal.
fn write_int(out: &mut String, number: i64) -> Result<(), NoMemory>
    ensures { OnOk result (string_bytes out.new ≡ string_bytes out.old ++ signed_decimal number) }
{
    write!(out, "{number}")?;
    Ok(())
}

/// Writes a text as in JSON, behind what stands in the buffer. Out of memory, the buffer is empty.
fn write_text(out: &mut String, text: &str) -> Result<(), NoMemory>
    ensures { OnOk result (string_bytes out.new ≡ string_bytes out.old ++ quoted text.now) }
{
    let alloc = *out.allocator();
    let before = mem::replace(out, String::new(alloc));
    let mut writer = Writer::new(before.into_bytes());
    writer.string(text)?;
    // Safety: what stood in the buffer is UTF-8, and a writer's text is, as its contract says.
    *out = unsafe { String::from_utf8_unchecked(writer.into_inner()) };
    Ok(())
}
