//! The pages of connections that a group asks for (Cursor Connections, section 4).
ghost use Rattle.std.specs.Prelude.{◌≡◌, ◌++◌, codes, IfOk, OnOk};
ghost use Rattle.plan_ir.specs.NormalMeaning.{collect_plan};
ghost use Rattle.plan_ir.specs.store_model.Items.{key_of};
ghost use Rattle.plan_ir.specs.store_model.Says as says;

use crate::group::GroupAt;
use plan_ir::{HandleFact, Id, NoMemory, Words};
use std::alloc::Global;

/// Puts the pages that a group asks of a record of that id: one for each key of the connections of
/// its fields.
pub fn put_pages(
    alloc: Global,
    group: &GroupAt<'_>,
    id: &Id,
    pages: &mut Vec<HandleFact>,
) -> Result<(), NoMemory>
    ensures { OnOk result (pages.new.items ≡ pages.old.items ++ says.pages_of collect_plan id.now group.now) }
{
    let handles = group.handles();
    if handles.is_empty() {
        return Ok(());
    }
    let page_type = group.page_type().unwrap_or("");
    let info_type = group.info_type(alloc)?;
    'handles: for handle in handles {
        pages.push(page_of(alloc, group, id, handle, page_type, info_type)?)?;
    }
    Ok(())
}

/// The page under one key of a connection.
fn page_of(
    alloc: Global,
    group: &GroupAt<'_>,
    id: &Id,
    handle: &Words,
    page_type: &str,
    info_type: &str,
) -> Result<HandleFact, NoMemory>
    ensures { IfOk result (λ page. page ≡ record { parent = id.now; handle_key = handle.now; field_key = key_of group.now.first.ask; after = says.value_of (codes "after") group.now.first.ask.arguments; before = says.value_of (codes "before") group.now.first.ask.arguments; page_type = page_type.now; info_type = info_type.now }) }
{
    Ok(HandleFact {
        parent: id.copy()?,
        handle_key: handle.copy()?,
        field_key: group.key().as_words().copy()?,
        after: group.after(alloc)?,
        before: group.before(alloc)?,
        page_type: Words::new(alloc, page_type)?,
        info_type: Words::new(alloc, info_type)?,
    })
}
