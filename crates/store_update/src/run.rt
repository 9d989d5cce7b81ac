//! Commands of one id in a row, and what they make of its slot.
ghost use Rattle.std.specs.Prelude.{◌≡◌, ◌++◌, ◌⊎◌, [], true, IfOk};
ghost use Rattle.std.specs.List.{list_all, prefix_len};
ghost use Rattle.std.specs.Option.{option_copied};
ghost use Rattle.store_update.specs.Slots.{id_of, slot_after, slot_by_command, slot_by_commands};
ghost use Rattle.store_update.specs.Turns.{goes_on, goes_with, is_of_record, last_id, run_behind};

use crate::command::{edit, id_of, slot_by_command};
use std::alloc::Global;
use store_conn::gql_plain::NoMemory;
use store_conn::store_model::{Command, FactRow, HandleFact};
use store_conn::store_record::Slot;

/// The new slot of an id after commands on it behind a change, or None where it stays. The record of the change, or the
/// one that the first command makes, is changed in place by those behind it.
pub(crate) fn slot_by_run(
    alloc: Global,
    found: Option<&Slot>,
    change: Option<Slot>,
    commands: &[Command],
) -> Result<Option<Slot>, NoMemory>
    ensures { IfOk result (λ after. slot_after after (option_copied found.entry) ≡ slot_by_commands commands.now (slot_after change (option_copied found.entry))) }
{
    let mut after = change;
    'commands: for command in commands {
        after = change_by_next(alloc, found, after, command)?;
    }
    Ok(after)
}

/// The new slot after one more command, or None where it stays.
fn change_by_next(
    alloc: Global,
    found: Option<&Slot>,
    change: Option<Slot>,
    command: &Command,
) -> Result<Option<Slot>, NoMemory>
    ensures { IfOk result (λ after. slot_after after (option_copied found.entry) ≡ slot_by_command command.now (slot_after change (option_copied found.entry))) }
{
    match change {
        Some(slot) => Ok(Some(edit(alloc, slot, command)?)),
        None => slot_by_command(alloc, found, command),
    }
}

/// The commands at the front that change the slot of the last row's id alone, where no page stands between, and those
/// behind them; takes no memory.
pub(crate) fn parted<'a>(
    rows: &[FactRow],
    handles: &[HandleFact],
    commands: &'a [Command],
) -> (&'a [Command], &'a [Command])
    ensures whole { commands.now ≡ result.0.now ++ result.1.now }
    ensures first { list_all (goes_on (last_id rows.now)) result.0.now ≡ true }
    ensures longest { handles.now ≡ [] → prefix_len (goes_on (last_id rows.now)) result.1.now ≡ 0 }
    ensures apart { (handles.now ≡ []) ⊎ (result.0.now ≡ []) }
{
    if !handles.is_empty() {
        return commands.split_at(0);
    }
    match rows.split_last() {
        Some((last, _)) => commands.split_at(run_of(last.id.as_str(), commands)),
        None => commands.split_at(0),
    }
}

/// How many commands behind one on a record are on the same, and none behind one on edges; takes no memory.
pub(crate) fn run_behind(first: &Command, later: &[Command]) -> usize
    ensures { result ≡ run_behind first.now later.now }
{
    if !is_of_record(first) {
        return 0;
    }
    run_of(id_of(first).as_str(), later)
}

/// How many commands from the front on change the slot of that id alone; takes no memory.
fn run_of(id: &str, commands: &[Command]) -> usize
    ensures { result ≡ prefix_len (goes_with id.now) commands.now }
{
    let mut count = 0;
    'commands: for command in commands {
        if !goes_with(id, command) {
            return count;
        }
        count += 1;
    }
    count
}

/// Whether a command changes the slot of that id alone; takes no memory.
fn goes_with(id: &str, command: &Command) -> bool
    ensures { result ≡ goes_with id.now command.now }
{
    is_of_record(command) && id_of(command).as_str() == id
}

/// Whether a command changes the slot of its own id alone; takes no memory.
fn is_of_record(command: &Command) -> bool
    ensures { result ≡ is_of_record command.now }
{
    match command {
        Command::Set { .. } => true,
        Command::Add { .. } => true,
        Command::Link { .. } => true,
        Command::Links { .. } => true,
        Command::Create { .. } => true,
        Command::Delete { .. } => true,
        Command::AppendNode(_) => false,
        Command::PrependNode(_) => false,
        Command::DeleteEdge(_) => false,
    }
}
