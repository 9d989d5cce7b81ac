//! The pages of connections.
ghost use Rattle.std.specs.Prelude.{◌≡◌, OnOk};
ghost use Rattle.plan_ir.specs.NormalMeaning.{collect_plan};
ghost use Rattle.plan_ir.specs.store_model.Says as says;
ghost use Rattle.store_report.specs.Gathering.{gathered_onto};

use plan_groups::{GroupAt, put_pages};
use plan_ir::{NoMemory, SharedText};
use std::alloc::Global;
use store_report::Gathered;

/// Puts the pages that a group asks of a record.
pub(crate) fn say_pages(
    alloc: Global,
    group: &GroupAt<'_>,
    id: &SharedText,
    gathered: &mut Gathered<'_>,
) -> Result<(), NoMemory>
    ensures { OnOk result (gathered.new ≡ gathered_onto gathered.old (says.report_pages (says.pages_of collect_plan id.now group.now))) }
{
    let mut pages = Vec::new(alloc);
    put_pages(alloc, group, id.as_words(), &mut pages)?;
    'pages: for page in pages {
        gathered.page(page)?;
    }
    Ok(())
}
