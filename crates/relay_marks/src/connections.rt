//! What the `@connection` of a selection says, after Relay.
ghost use Rattle.std.specs.Prelude.{◌≡◌, ◌++◌, Option, option_map, IfOk, OnOk};
ghost use Rattle.gql_syntax.specs.gql_ast.Value.{vals_of};
ghost use Rattle.gql_syntax.specs.gql_ast.ValueView as tree;
ghost use Rattle.relay_marks.specs.Connections as spec;

use crate::values::value_of_name;
use gql_syntax::gql_ast::{Arguments, Directives, Selection, ValueTree, ValueTrees};
use gql_syntax::gql_plain::{Conn, Ids, NoMemory, Words};
use std::alloc::Global;

/// What the `@connection` of a selection says: its key, and its filters, distinct and in byte order,
/// where there are any. None exactly where the selection has no `@connection`; of several the first
/// counts. V21 asks of each that its key is a string, and that its filters are a list of strings. A key
/// that is none counts as the empty one, and what is no string in the list is left out. This profile is
/// this project's own.
///
/// # Errors
///
/// `NoMemory`.
pub fn connection(alloc: Global, field: &Selection) -> Result<Option<Conn>, NoMemory>
    ensures { IfOk result (λ conn. conn ≡ spec.connection_of field.now) }
{
    match field {
        Selection::Field { directives, .. } => connection_among(alloc, directives),
        Selection::Spread { directives, .. } => connection_among(alloc, directives),
        Selection::Inline { directives, .. } => connection_among(alloc, directives),
    }
}

/// What the first `@connection` among directives says, as [`connection`] answers it for the selection
/// that has them.
///
/// # Errors
///
/// `NoMemory`.
pub fn connection_among(alloc: Global, directives: &Directives) -> Result<Option<Conn>, NoMemory>
    ensures { IfOk result (λ conn. conn ≡ spec.connection_among directives.now) }
{
    'directives: for directive in directives.as_slice() {
        if directive.name.as_str() == "connection" {
            let conn = connection_from(alloc, &directive.arguments)?;
            return Ok(Some(conn));
        }
    }
    Ok(None)
}

/// What the arguments of a `@connection` say.
fn connection_from(alloc: Global, arguments: &Arguments) -> Result<Conn, NoMemory>
    ensures { IfOk result (λ conn. conn ≡ spec.connection_from arguments.now) }
{
    let key = key_of_value(alloc, value_of_name(arguments, "key"))?;
    let filters = filters_of_value(alloc, value_of_name(arguments, "filters"))?;
    Ok(Conn { key, filters })
}

/// The key that a value says.
fn key_of_value(alloc: Global, value: Option<&ValueTree>) -> Result<Words, NoMemory>
    ensures { IfOk result (λ key. key ≡ spec.key_of_value (option_map (λ v. tree.value_of v.now) value.entry)) }
{
    match value {
        Some(ValueTree::Text(text)) => text.copy(),
        _ => Words::new(alloc, ""),
    }
}

/// The filters that a value says.
fn filters_of_value(alloc: Global, value: Option<&ValueTree>) -> Result<Option<Ids>, NoMemory>
    ensures { IfOk result (λ filters. filters ≡ spec.filters_of_value (option_map (λ v. tree.value_of v.now) value.entry)) }
{
    match value {
        Some(ValueTree::List(values)) => Ok(Some(sorted_texts(alloc, values)?)),
        _ => Ok(None),
    }
}

/// The texts among values, distinct and in byte order.
fn sorted_texts(alloc: Global, values: &ValueTrees) -> Result<Ids, NoMemory>
    ensures { IfOk result (λ ids. ids ≡ spec.sorted_texts_in (vals_of values.now)) }
{
    let mut texts = Vec::new(alloc);
    'values: for value in values.as_slice() {
        put_text(&mut texts, value)?;
    }
    Ids::sort(texts)
}

/// Puts a value that is a text.
fn put_text(texts: &mut Vec<Words>, value: &ValueTree) -> Result<(), NoMemory>
    ensures { OnOk result (texts.new.items ≡ texts.old.items ++ spec.text_in (tree.value_of value.now)) }
{
    match value {
        ValueTree::Text(text) => {
            texts.push(text.copy()?)?;
            Ok(())
        }
        _ => Ok(()),
    }
}
