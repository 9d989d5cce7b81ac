//! Writing the marks of a value.
ghost use Rattle.std.specs.Prelude.{◌≡◌, ◌∷◌, ◌++◌, codes, string_bytes, IfOk, OnOk};
ghost use Rattle.json.specs.Token.{string};
ghost use Rattle.store_record.specs.gql_plain.Shown.{tree_of};
ghost use Rattle.store_record.specs.gql_plain.Tree.{list, object, trees_of, members_of};
ghost use Rattle.image_marks.specs.Values.{IsValue};
ghost use Rattle.image_marks.specs.MarkTokens.{flat_tokens, items_tokens, members_tokens};

use json::Writer;
use std::alloc::Global;
use store_record::gql_plain::{NoMemory, Pairs, Plain, Plains};

/// The text behind `'`.
fn quoted(alloc: Global, text: &str) -> Result<String, NoMemory>
    ensures { IfOk result (λ quoted. string_bytes quoted ≡ codes "'" ++ text.now) }
{
    let mut quoted = String::from_str(alloc, "'")?;
    quoted.push_str(text)?;
    Ok(quoted)
}

/// Writes the marks of a value. Out of memory, a part of them may be written.
#[cycle(write_marks)]
pub fn write_marks(alloc: Global, out: &mut Writer, plain: &Plain) -> Result<(), NoMemory>
    ensures tokens { OnOk result (out.new.tokens ≡ out.old.tokens ++ flat_tokens (tree_of plain.now)) }
    ensures before { out.new.before ≡ out.old.before }
    ensures made { OnOk result (IsValue (tree_of plain.now)) }
{
    match plain {
        Plain::Null => out.null()?,
        Plain::Bool(truth) => out.boolean(*truth)?,
        Plain::Int(number) => out.i64(*number)?,
        Plain::Text(text) => out.string(quoted(alloc, text.as_str())?.as_str())?,
        Plain::List(plains) => return write_items(alloc, out, plains),
        Plain::Tree(pairs) => return write_members(alloc, out, pairs),
    }
    Ok(())
}

/// Writes the marks of a list.
#[cycle(write_marks)]
fn write_items(alloc: Global, out: &mut Writer, plains: &Plains) -> Result<(), NoMemory>
    ensures tokens { OnOk result (out.new.tokens ≡ out.old.tokens ++ string (codes "[") ∷ items_tokens (trees_of plains.now)) }
    ensures before { out.new.before ≡ out.old.before }
    ensures made { OnOk result (IsValue (list (trees_of plains.now))) }
{
    out.string("[")?;
    'items: for plain in &plains.items {
        write_marks(alloc, out, plain)?;
    }
    out.string("]")?;
    Ok(())
}

/// Writes the marks of an object. Out of memory, a part of them may be written.
#[cycle(write_marks)]
pub fn write_members(alloc: Global, out: &mut Writer, pairs: &Pairs) -> Result<(), NoMemory>
    ensures tokens { OnOk result (out.new.tokens ≡ out.old.tokens ++ string (codes "{") ∷ members_tokens (members_of pairs.now)) }
    ensures before { out.new.before ≡ out.old.before }
    ensures made { OnOk result (IsValue (object (members_of pairs.now))) }
{
    out.string("{")?;
    'pairs: for (key, plain) in &pairs.entries {
        out.string(quoted(alloc, key.as_str())?.as_str())?;
        write_marks(alloc, out, plain)?;
    }
    out.string("}")?;
    Ok(())
}
