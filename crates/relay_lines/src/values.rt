//! The values of members that are no plain trees: lists of ids, paths, and fields.
ghost use Rattle.std.specs.Prelude.{◌≡◌, ◌++◌, map, OnOk};
ghost use Rattle.plan_ir.specs.gql_plain.ToJson.{tree_tokens};
ghost use Rattle.plan_ir.specs.gql_plain.Tree.{text, list, trees_of};
ghost use Rattle.relay_machine.specs.Refusals.{id_or_null, shown_field, shown_step};
ghost use Rattle.plan_ir.specs.store_record.declared.field.Field.TheVariants.{Link, Links};

use json::Writer;
use plan_ir::{Field, NoMemory, OptIds, PathStep, Words, write_plain};

/// Writes a list of texts.
pub(crate) fn write_texts(out: &mut Writer, texts: &[Words]) -> Result<(), NoMemory>
    ensures tokens { OnOk result
        (out.new.tokens ≡ out.old.tokens ++ tree_tokens (list (trees_of (map text texts.now)))) }
    ensures before { out.new.before ≡ out.old.before }
{
    out.begin_array()?;
    'texts: for text in texts {
        out.string(text.as_str())?;
    }
    out.end_array()?;
    Ok(())
}

/// Writes a list of borrowed texts.
pub(crate) fn write_borrowed(out: &mut Writer, texts: &[&str]) -> Result<(), NoMemory>
    ensures tokens { OnOk result
        (out.new.tokens ≡ out.old.tokens ++ tree_tokens (list (trees_of (map (λ t. text t.now) texts.now)))) }
    ensures before { out.new.before ≡ out.old.before }
{
    out.begin_array()?;
    'texts: for text in texts {
        out.string(text)?;
    }
    out.end_array()?;
    Ok(())
}

/// Writes the steps of a path: a key as a text, a place in a list as a number.
pub(crate) fn write_path(out: &mut Writer, path: &[PathStep]) -> Result<(), NoMemory>
    ensures tokens { OnOk result
        (out.new.tokens ≡ out.old.tokens ++ tree_tokens (list (trees_of (map shown_step path.now)))) }
    ensures before { out.new.before ≡ out.old.before }
{
    out.begin_array()?;
    'steps: for step in path {
        write_step(out, step)?;
    }
    out.end_array()?;
    Ok(())
}

/// Writes one step of a path.
fn write_step(out: &mut Writer, step: &PathStep) -> Result<(), NoMemory>
    ensures tokens { OnOk result
        (out.new.tokens ≡ out.old.tokens ++ tree_tokens (shown_step step.now)) }
    ensures before { out.new.before ≡ out.old.before }
{
    match step {
        PathStep::Key(key) => out.string(key.as_str())?,
        PathStep::Index(index) => out.u64(*index)?,
    }
    Ok(())
}

/// Writes a field: a leaf as its value, a link and a list of links by their ids.
pub(crate) fn write_field(out: &mut Writer, field: &Field) -> Result<(), NoMemory>
    ensures tokens { OnOk result
        (out.new.tokens ≡ out.old.tokens ++ tree_tokens (shown_field field.now)) }
    ensures before { out.new.before ≡ out.old.before }
{
    match field {
        Field::Leaf(value) => write_plain(out, value),
        Field::Link(id) => write_link(out, id),
        Field::Links(ids) => write_links(out, ids),
    }
}

/// Writes a link as an object of its id.
fn write_link(out: &mut Writer, id: &Words) -> Result<(), NoMemory>
    ensures tokens { OnOk result
        (out.new.tokens ≡ out.old.tokens ++ tree_tokens (shown_field (Link id.now))) }
    ensures before { out.new.before ≡ out.old.before }
{
    out.begin_object()?;
    out.key("__ref")?;
    out.string(id.as_str())?;
    out.end_object()?;
    Ok(())
}

/// Writes a list of links as an object of their ids.
fn write_links(out: &mut Writer, ids: &OptIds) -> Result<(), NoMemory>
    ensures tokens { OnOk result
        (out.new.tokens ≡ out.old.tokens ++ tree_tokens (shown_field (Links ids.now))) }
    ensures before { out.new.before ≡ out.old.before }
{
    out.begin_object()?;
    out.key("__refs")?;
    write_ids(out, ids.as_slice())?;
    out.end_object()?;
    Ok(())
}

/// Writes a list of ids and nulls.
fn write_ids(out: &mut Writer, ids: &[Option<Words>]) -> Result<(), NoMemory>
    ensures tokens { OnOk result
        (out.new.tokens ≡ out.old.tokens ++ tree_tokens (list (trees_of (map id_or_null ids.now)))) }
    ensures before { out.new.before ≡ out.old.before }
{
    out.begin_array()?;
    'ids: for id in ids {
        write_id(out, id)?;
    }
    out.end_array()?;
    Ok(())
}

/// Writes an id, or null where there is none.
fn write_id(out: &mut Writer, id: &Option<Words>) -> Result<(), NoMemory>
    ensures tokens { OnOk result (out.new.tokens ≡ out.old.tokens ++ tree_tokens (id_or_null id.now)) }
    ensures before { out.new.before ≡ out.old.before }
{
    match id {
        Some(id) => out.string(id.as_str())?,
        None => out.null()?,
    }
    Ok(())
}
