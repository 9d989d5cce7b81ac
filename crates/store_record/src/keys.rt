//! Storage keys and generated ids (this project's own).
ghost use Rattle.std.specs.Prelude.{◌≡◌, ◌++◌, cond, codes, string_bytes, IfOk, OnOk};
ghost use Rattle.gql_plain.specs.Shown.{tree_of};
ghost use Rattle.gql_plain.specs.Order.{has_text};
ghost use Rattle.store_record.specs.Keys as keys;

use gql_plain::{Conn, Id, Name, NoMemory, Pairs, Plain, Words, text_of};
use std::alloc::Global;

/// The key under which a record stores the field of that name with those arguments. Arguments that
/// are null are left out, as if they were absent; no default of a schema is filled in.
pub fn field_key(alloc: Global, name: &Name, arguments: &Pairs) -> Result<Words, NoMemory>
    ensures { IfOk result (λ key. key ≡ keys.field_key name.now arguments.now) }
{
    let mut text = String::from_str(alloc, name.as_str())?;
    let mut begun = false;
    'arguments: for (argument, value) in &arguments.entries {
        if !is_null(value) {
            write_pair(alloc, &mut text, begun, argument, value)?;
            begun = true;
        }
    }
    if begun {
        text.push(')')?;
    }
    Ok(Words::from_string(text))
}

/// Whether a value is null.
fn is_null(value: &Plain) -> bool
    ensures { result ≡ keys.is_null (tree_of value.now) }
{
    matches!(value, Plain::Null)
}

/// Writes an argument, the first one behind `(`, another one behind `,`.
fn write_pair(
    alloc: Global,
    text: &mut String,
    begun: bool,
    argument: &Words,
    value: &Plain,
) -> Result<(), NoMemory>
    ensures { OnOk result
        (string_bytes text.new
        ≡ string_bytes text.old ++ cond begun (codes ",") (codes "(")
        ++ keys.pair_text (argument.now, tree_of value.now)) }
{
    let value_text = text_of(alloc, value)?;
    text.push(if begun { ',' } else { '(' })?;
    text.push_str(argument.as_str())?;
    text.push(':')?;
    text.push_str(value_text.as_str())?;
    Ok(())
}

/// The key under which the client keeps a connection, by what its `@connection` says and the
/// arguments of its field.
pub fn handle_key(alloc: Global, connection: &Conn, arguments: &Pairs) -> Result<Words, NoMemory>
    ensures { IfOk result (λ key. key ≡ keys.handle_key connection.now.key connection.now.filters arguments.now) }
{
    let name = format!(in alloc; "__{}_connection", connection.key.as_str())?;
    let kept = connection_arguments(alloc, connection, arguments)?;
    field_key(alloc, &Words::from_string(name), &kept)
}

/// The arguments that tell one connection from another.
fn connection_arguments(
    alloc: Global,
    connection: &Conn,
    arguments: &Pairs,
) -> Result<Pairs, NoMemory>
    ensures { IfOk result (λ kept. kept ≡ keys.connection_arguments connection.now.filters arguments.now) }
{
    let mut kept = Pairs::new(alloc);
    'arguments: for (argument, value) in &arguments.entries {
        if is_kept(connection, argument.as_str()) {
            kept.push(argument.copy()?, value.copy()?)?;
        }
    }
    Ok(kept)
}

/// Whether an argument tells one connection from another.
fn is_kept(connection: &Conn, argument: &str) -> bool
    ensures { result ≡ keys.is_kept connection.now.filters argument.now }
{
    match &connection.filters {
        Some(filters) => filters.contains(argument),
        None => !is_paging(argument),
    }
}

/// Whether an argument asks for a page of a connection (Cursor Connections, section 4).
fn is_paging(argument: &str) -> bool
    ensures { result ≡ has_text keys.paging argument.now }
{
    "after" == argument || "before" == argument || "first" == argument || "last" == argument
}

/// The id of an object that has none of its own: it stands under `key` of the record `parent`, and
/// at `index` where it is an element of a list.
pub fn client_id(
    alloc: Global,
    parent: &Id,
    key: &Words,
    index: Option<u64>,
) -> Result<Id, NoMemory>
    ensures { IfOk result (λ id. id ≡ keys.client_id parent.now key.now index) }
{
    let parent = parent.as_str();
    let key = key.as_str();
    let prefix = prefix_of(parent);
    match index {
        Some(index) => Ok(Words::from_string(format!(in alloc; "{prefix}{parent}:{key}:{index}")?)),
        None => Ok(Words::from_string(format!(in alloc; "{prefix}{parent}:{key}")?)),
    }
}

/// What stands in front of a parent's id.
fn prefix_of(parent: &str) -> &'static str
    ensures { result.now ≡ keys.prefix_of parent.now }
{
    if parent.starts_with("client:") {
        ""
    } else {
        "client:"
    }
}

/// Law: two equal field keys, made of arguments with names, are of one name with the same arguments
/// that are not null.
pub fn field_keys_differ()
    ensures { keys.FieldKeysDiffer }
{}

/// Law: a handle key is the field key of no field whose name does not begin with `__`.
pub fn handle_keys_differ()
    ensures { keys.HandleKeysDiffer }
{}
