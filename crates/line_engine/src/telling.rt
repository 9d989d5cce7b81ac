//! The lines of notices.
ghost use Rattle.std.specs.Prelude.{◌≡◌, ◌<◌, ◌++◌, length, IfOk, OnOk};
ghost use Rattle.std.specs.List.{AllByRecursion};
ghost use Rattle.line_engine.specs.Notices.{line_of, names_of, told_lines};
ghost use Rattle.line_engine.specs.Steps.{AreSingle, written};
ghost use Rattle.store_watch.specs.Rows.{telling_of};
ghost use Rattle.store_watch.specs.Watching.{Telling};

use crate::lines::Lines;
use plan_ir::{NoMemory, Words};
use relay_lines::notice_line;
use std::alloc::Global;
use store_watch::{Notice, Notices, Watches};

/// The answer, and after it the notices of the watches whose data or missing mark differs, each a text of
/// its own.
pub(crate) fn with_notices(
    alloc: Global,
    answer: Lines,
    watches: &Watches,
    notices: &Notices,
    n: u64,
) -> Result<Lines, NoMemory>
    requires within { AllByRecursion (λ (t : Telling). t.place < length watches.now) notices.now }
    ensures text { IfOk result (λ lines. written lines.texts.items ≡ written answer.texts.items ++ told_lines (names_of watches.now) n notices.now) }
    ensures single { IfOk result (λ lines. AreSingle answer.texts.items → AreSingle lines.texts.items) }
    ensures refused { IfOk result (λ lines. lines.refused ≡ answer.refused) }
{
    let Lines { refused, mut texts } = answer;
    'notices: for notice in notices.as_slice() {
        put_notice(alloc, &mut texts, watches, notice, n)?;
    }
    Ok(Lines { refused, texts })
}

/// Puts the line of a notice to the end, if it is told.
fn put_notice(
    alloc: Global,
    texts: &mut Vec<Words>,
    watches: &Watches,
    notice: &Notice,
    n: u64,
) -> Result<(), NoMemory>
    requires within { notice.now.place < length watches.now }
    ensures text { OnOk result (written texts.new.items ≡ written texts.old.items ++ line_of (names_of watches.now) n (telling_of notice.now)) }
    ensures single { OnOk result (AreSingle texts.old.items → AreSingle texts.new.items) }
{
    if !notice.told {
        return Ok(());
    }
    let name = watches.name_at(notice.place);
    texts.push(notice_line(alloc, name, &notice.snapshot, n)?)?;
    Ok(())
}
