//! Values that no record stands below.
ghost use Rattle.std.specs.Prelude.{◌≡◌, ◌++◌, None, option_copied, OnOk};
ghost use Rattle.plan_ir.specs.store_model.Walks as walks;
ghost use Rattle.store_show.specs.Showing.{led};
ghost use Rattle.store_show.specs.Stood.{stood_onto};

use crate::lead::Lead;
use crate::standings::Standings;
use json::Writer;
use plan_ir::{Field, NoMemory, Plain, write_plain};

/// Notes that a value is missing, and writes what stands for it.
pub(crate) fn lost(
    lead: Lead<'_>,
    met: &mut Standings<'_>,
    out: &mut Writer,
) -> Result<(), NoMemory>
    ensures tokens { OnOk result (out.new.tokens ≡ out.old.tokens ++ led lead.entry None) }
    ensures before { out.new.before ≡ out.old.before }
    ensures met { met.new ≡ stood_onto met.old walks.missing_trace }
{
    met.lose();
    lead.missing(out)
}

/// Writes a leaf.
pub(crate) fn show_leaf(
    field: Option<&Field>,
    lead: Lead<'_>,
    met: &mut Standings<'_>,
    out: &mut Writer,
) -> Result<(), NoMemory>
    ensures shown { OnOk result (out.new.tokens ≡ out.old.tokens ++ led lead.entry (walks.leaf_at (option_copied field.entry)).0) }
    ensures before { out.new.before ≡ out.old.before }
    ensures met { OnOk result (met.new ≡ stood_onto met.old (walks.leaf_at (option_copied field.entry)).1) }
{
    match field {
        Some(Field::Leaf(value)) => {
            lead.begin(out)?;
            write_plain(out, value)
        }
        Some(Field::Link(_)) => lost(lead, met, out),
        Some(Field::Links(_)) => lost(lead, met, out),
        None => lost(lead, met, out),
    }
}

/// Writes a leaf under a field of objects: only null is not missing.
pub(crate) fn show_null(
    value: &Plain,
    lead: Lead<'_>,
    met: &mut Standings<'_>,
    out: &mut Writer,
) -> Result<(), NoMemory>
    ensures shown { OnOk result (out.new.tokens ≡ out.old.tokens ++ led lead.entry (walks.null_alone value.now).0) }
    ensures before { out.new.before ≡ out.old.before }
    ensures met { OnOk result (met.new ≡ stood_onto met.old (walks.null_alone value.now).1) }
{
    match value {
        Plain::Null => lead.null(out),
        Plain::Bool(_) => lost(lead, met, out),
        Plain::Int(_) => lost(lead, met, out),
        Plain::Text(_) => lost(lead, met, out),
        Plain::List(_) => lost(lead, met, out),
        Plain::Tree(_) => lost(lead, met, out),
    }
}
