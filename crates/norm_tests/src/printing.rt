//! Facts and faults as texts.
use plan_ir::{
    Cause, FactRow, Facts, Field, HandleFact, Id, PathStep, PayloadFault, Plain, text_of,
};
use std::alloc::Global;
use std::test::Fail;
use store_norm::NormFault;

/// A record a part: its id and its type, and then its fields. Behind them a page a part: the record
/// that holds it, its two keys, its cursors, and its types. `;` ends a part.
pub(crate) fn facts_text(alloc: Global, facts: &Facts) -> Result<String, Fail> {
    let mut text = String::new(alloc);
    for row in facts.facts.rows() {
        put_row(alloc, &mut text, row)?;
    }
    for page in facts.handles.as_slice() {
        text.push_str(page_text(alloc, page)?.as_str())?;
    }
    Ok(text)
}

fn put_row(alloc: Global, text: &mut String, row: &FactRow) -> Result<(), Fail> {
    text.push_str(row.id.as_str())?;
    text.push_str(":")?;
    text.push_str(row.type_name.as_str())?;
    for entry in row.fields.as_slice() {
        text.push_str(" ")?;
        text.push_str(entry.key())?;
        text.push_str("=")?;
        text.push_str(field_text(alloc, entry.field())?.as_str())?;
    }
    text.push_str(";")?;
    Ok(())
}

/// The text of a value, `->` and an id, or ids in brackets.
fn field_text(alloc: Global, field: &Field) -> Result<String, Fail> {
    match field {
        Field::Leaf(value) => plain_text(alloc, value),
        Field::Link(id) => Ok(format!(in alloc; "->{}", id.as_str())?),
        Field::Links(ids) => links_text(alloc, ids.as_slice()),
    }
}

fn plain_text(alloc: Global, value: &Plain) -> Result<String, Fail> {
    Ok(text_of(alloc, value)?.into_string())
}

fn links_text(alloc: Global, ids: &[Option<Id>]) -> Result<String, Fail> {
    let mut text = String::from_str(alloc, "[")?;
    for id in ids {
        match id {
            Some(id) => text.push_str(id.as_str())?,
            None => text.push_str("null")?,
        }
        text.push_str(",")?;
    }
    text.push_str("]")?;
    Ok(text)
}

fn page_text(alloc: Global, page: &HandleFact) -> Result<String, Fail> {
    let after = plain_text(alloc, &page.after)?;
    let before = plain_text(alloc, &page.before)?;
    Ok(format!(in alloc;
        "page {} {} {} {after} {before} {} {};",
        page.parent.as_str(),
        page.handle_key.as_str(),
        page.field_key.as_str(),
        page.page_type.as_str(),
        page.info_type.as_str()
    )?)
}

/// The cause and the steps of the path, and of a conflict the id, the key and the two values.
pub(crate) fn fault_text(alloc: Global, fault: &NormFault) -> Result<String, Fail> {
    match fault {
        NormFault::Payload(fault) => payload_fault_text(alloc, fault),
        NormFault::NoMemory => Ok(String::from_str(alloc, "out of memory")?),
    }
}

fn payload_fault_text(alloc: Global, fault: &PayloadFault) -> Result<String, Fail> {
    let mut text = String::from_str(alloc, cause_name(&fault.cause))?;
    for step in fault.path.as_slice() {
        match step {
            PathStep::Key(key) => text.push_str(format!(in alloc; " {}", key.as_str())?.as_str())?,
            PathStep::Index(at) => text.push_str(format!(in alloc; " {at}")?.as_str())?,
        }
    }
    if let Cause::Conflict {
        id,
        key,
        first,
        second,
    } = &fault.cause
    {
        let first = field_text(alloc, first)?;
        let second = field_text(alloc, second)?;
        let values = format!(in alloc; ": {} {} {first} {second}", id.as_str(), key.as_str())?;
        text.push_str(values.as_str())?;
    }
    Ok(text)
}

fn cause_name(cause: &Cause) -> &'static str {
    match cause {
        Cause::NoData => "NoData",
        Cause::Shape => "Shape",
        Cause::NotWhole => "NotWhole",
        Cause::IdShape => "IdShape",
        Cause::ReservedId => "ReservedId",
        Cause::Typename => "Typename",
        Cause::Conflict { .. } => "Conflict",
    }
}
