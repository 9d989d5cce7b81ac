//! From a plain tree to its JSON text.
ghost use Rattle.std.specs.Prelude.{◌≡◌, ◌∷◌, ◌++◌, IfOk, OnOk};
ghost use Rattle.json.specs.Token.{begin_array, begin_object};
ghost use Rattle.gql_plain.specs.Shown.{tree_of};
ghost use Rattle.gql_plain.specs.ToJson.{compact, tree_tokens, trees_tokens, members_tokens};
ghost use Rattle.gql_plain.specs.Tree.{trees_of, members_of};

use crate::memory::NoMemory;
use crate::plain::{Pairs, Plain, Plains};
use crate::words::Words;
use json::Writer;
use std::alloc::Global;

/// Writes a tree as compact JSON, its keys in byte order. Out of memory, a part of it may be
/// written.
#[cycle(write_plain)]
pub fn write_plain(out: &mut Writer, plain: &Plain) -> Result<(), NoMemory>
    ensures tokens { OnOk result (out.new.tokens ≡ out.old.tokens ++ tree_tokens (tree_of plain.now)) }
    ensures before { out.new.before ≡ out.old.before }
{
    match plain {
        Plain::Null => out.null()?,
        Plain::Bool(truth) => out.boolean(*truth)?,
        Plain::Int(number) => out.i64(*number)?,
        Plain::Text(text) => out.string(text.as_str())?,
        Plain::List(plains) => return write_list(out, plains),
        Plain::Tree(pairs) => return write_object(out, pairs),
    }
    Ok(())
}

/// Writes a list.
#[cycle(write_plain)]
fn write_list(out: &mut Writer, plains: &Plains) -> Result<(), NoMemory>
    ensures tokens { OnOk result (out.new.tokens
        ≡ out.old.tokens ++ begin_array ∷ trees_tokens (trees_of plains.now)) }
    ensures before { out.new.before ≡ out.old.before }
{
    out.begin_array()?;
    'items: for plain in &plains.items {
        write_plain(out, plain)?;
    }
    out.end_array()?;
    Ok(())
}

/// Writes an object.
#[cycle(write_plain)]
fn write_object(out: &mut Writer, pairs: &Pairs) -> Result<(), NoMemory>
    ensures tokens { OnOk result (out.new.tokens
        ≡ out.old.tokens ++ begin_object ∷ members_tokens (members_of pairs.now)) }
    ensures before { out.new.before ≡ out.old.before }
{
    out.begin_object()?;
    'pairs: for (key, plain) in &pairs.entries {
        out.key(key.as_str())?;
        write_plain(out, plain)?;
    }
    out.end_object()?;
    Ok(())
}

/// The compact JSON text, its keys in byte order.
pub fn text_of(alloc: Global, plain: &Plain) -> Result<Words, NoMemory>
    ensures { IfOk result (λ text. text ≡ compact (tree_of plain.now)) }
{
    let mut out = Writer::new(Vec::new(alloc));
    write_plain(&mut out, plain)?;
    // Safety: a writer's text is UTF-8, as its contract says.
    let text = unsafe { String::from_utf8_unchecked(out.into_inner()) };
    Ok(Words::from_string(text))
}
