//! Applying an entry to a record map.
ghost use Rattle.std.specs.Prelude.{◌≡◌, ◌+◌, ◌*◌, ◌≤◌, [], length, IfOk};
ghost use Rattle.store_conn.specs.gql_plain.Counted.{next_count};
ghost use Rattle.store_conn.specs.store_model.Entries as entries;
ghost use Rattle.store_update.specs.Touched.{AreNoted, ArePicked, AreTouched};
ghost use Rattle.store_update.specs.Turns.{IsOfRecords, number_again, turns_of};

use crate::commands::act_all;
use crate::draft::Draft;
use crate::facts::put_facts;
use crate::pages::put_pages;
use crate::run::parted;
use crate::touched::touched;
use store_conn::gql_plain::{Ids, NoMemory, Steps};
use store_conn::store_model::Entry;
use store_conn::store_source::RecordSource;

/// A map after an entry, and the ids whose slot is not the one before, in byte order.
#[derive(Drop)]
pub struct Changed<S: RecordSource> {
    pub source: S,
    pub touched: Ids,
}

/// Applies an entry to a map, which stays as it is: puts the facts, then merges the pages in their
/// order, and then the commands act in theirs.
///
/// Facts and commands on records that name one id in a row are a turn of it: a turn takes one look and
/// at most one new record, and none where what it says is there already. An id that has several turns
/// takes two looks more, to compare what they left with what was there before. A page or a command on
/// edges takes one look for each edge that it asks for and at most five more, and puts at most three
/// records beside its new edges, each of which takes two looks more.
pub fn apply<S: RecordSource>(
    source: &S,
    entry: &Entry,
    steps: &mut S::Count,
) -> Result<Changed<S>, NoMemory>
    ensures records { IfOk result (λ changed. S.records changed.source ≡ entries.apply entry.now (S.records source.now)) }
    ensures touched { IfOk result (λ changed. AreTouched (S.records source.now) (S.records changed.source) changed.touched) }
    ensures applies { S.Count.applies steps.new ≡ next_count (S.Count.applies steps.old) }
    ensures looks { S.Count.looks steps.new ≤ S.Count.looks steps.old + 8 * entries.weight entry.now (S.records source.now) }
    ensures turns { IsOfRecords entry.now → S.Count.looks steps.new ≤ S.Count.looks steps.old + (length (turns_of entry.now) + number_again (turns_of entry.now)) }
{
    steps.apply();
    let draft = draft_of(source, entry, steps)?;
    let Draft {
        source: after,
        noted,
    } = draft;
    let touched = touched(source, &after, noted, steps)?;
    Ok(Changed {
        source: after,
        touched,
    })
}

/// A version of a map with the facts put, the pages merged, and after the commands.
fn draft_of<S: RecordSource>(
    source: &S,
    entry: &Entry,
    steps: &mut S::Count,
) -> Result<Draft<S>, NoMemory>
    ensures records { IfOk result (λ d. S.records d.source ≡ entries.apply entry.now (S.records source.now)) }
    ensures noted { IfOk result (λ d. AreNoted (S.records source.now) (S.records d.source) [] d.noted.items) }
    ensures few { IfOk result (λ d. length d.noted.items ≤ 4 * entries.weight entry.now (S.records source.now)) }
    ensures picked { IfOk result (λ d. IsOfRecords entry.now → ArePicked (turns_of entry.now) [] d.noted.items) }
    ensures looks { S.Count.looks steps.new ≤ S.Count.looks steps.old + 4 * entries.weight entry.now (S.records source.now) }
    ensures turns { IsOfRecords entry.now → S.Count.looks steps.new ≤ S.Count.looks steps.old + length (turns_of entry.now) }
    ensures applies { S.Count.applies steps.new ≡ S.Count.applies steps.old }
{
    let alloc = *entry.commands.items.allocator();
    let version = source.version()?;
    let draft = Draft {
        source: version,
        noted: Vec::new(alloc),
    };
    let rows = entry.facts.facts.rows();
    let handles = entry.facts.handles.as_slice();
    let (first, later) = parted(rows, handles, entry.commands.as_slice());
    let put = put_facts(alloc, draft, rows, first, steps)?;
    let merged = put_pages(alloc, put, handles, steps)?;
    let acted = act_all(alloc, merged, later, steps)?;
    Ok(acted)
}
