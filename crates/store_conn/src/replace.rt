//! Pages that replace the edges of a connection.
ghost use Rattle.std.specs.Prelude.{◌≡◌, ◌+◌, ◌≤◌, ◌∷◌, ◌++◌, [], codes, length, List, IfOk, OnOk};
ghost use Rattle.std.specs.Option.{option_copied};
ghost use Rattle.store_model.specs.store_record.declared.field.Field.TheVariants.{Link};
ghost use Rattle.store_model.specs.store_record.declared.record.Record.{Record as RowOf};
ghost use Rattle.store_model.specs.Merge as merge;
ghost use Rattle.store_model.specs.Records.{Records, with_field};
ghost use Rattle.store_conn.specs.Changes.{put_all};
ghost use Rattle.store_conn.specs.Connections as spec;
ghost use Rattle.store_conn.specs.Lists.{edges_in};
ghost use Rattle.store_conn.specs.Pages as pages;

use crate::changes::Change;
use crate::connection::{Connection, info_id, put_field};
use crate::edges::{live_edges, new_edges};
use crate::info::whole_info;
use crate::look::{below, edges_of};
use crate::made::{Page, make_edges, push_connection, push_made, with_list};
use crate::nodes::Nodes;
use std::alloc::Global;
use store_model::HandleFact;
use store_model::gql_plain::{NoMemory, OptIds};
use store_model::store_record::{Field, Record, Shared};
use store_source::RecordSource;

/// Puts a page that replaces the edges of a connection, and page information that is made whole, to
/// the end of changes.
pub(crate) fn replace_edges<S: RecordSource>(
    source: &S,
    handle: &HandleFact,
    server: &Record,
    connection: &Connection,
    changes: Vec<Change>,
    steps: &mut S::Count,
) -> Result<Vec<Change>, NoMemory>
    ensures records { (onto : Records) → IfOk result (λ all. put_all all.items onto ≡ merge.replace_edges handle.now server.now (spec.kept_of connection.now) (S.records source.now) (put_all changes.items onto)) }
    ensures few { IfOk result (λ all. length all.items ≤ length changes.items + (2 + edges_in server.now)) }
    ensures looks { S.Count.looks steps.new ≤ S.Count.looks steps.old + (1 + edges_in server.now) }
    ensures applies { S.Count.applies steps.new ≡ S.Count.applies steps.old }
{
    let alloc = *changes.allocator();
    let page = whole_page(alloc, source, server, connection, steps)?;
    let info = below(source, server, "pageInfo", steps);
    let mut all = changes;
    push_whole_page(&mut all, server, connection, page)?;
    push_whole_info(&mut all, handle, connection, info)?;
    Ok(all)
}

/// The edges that are made of a page, without those whose node is that of an earlier one.
fn whole_page<S: RecordSource>(
    alloc: Global,
    source: &S,
    server: &Record,
    connection: &Connection,
    steps: &mut S::Count,
) -> Result<Page, NoMemory>
    ensures made { IfOk result (λ page. spec.IsMade (spec.kept_of connection.now) (pages.whole_edges server.now (S.records source.now)) page.made) }
    ensures list { IfOk result (λ page. page.list ≡ [] ++ pages.whole_ids server.now (spec.kept_of connection.now) (S.records source.now) ++ []) }
    ensures looks { S.Count.looks steps.new ≤ S.Count.looks steps.old + edges_in server.now }
    ensures applies { S.Count.applies steps.new ≡ S.Count.applies steps.old }
{
    let live = live_edges(alloc, source, edges_of(server), steps)?;
    let mut nodes = Nodes::new(alloc);
    let new = new_edges(alloc, &live, &mut nodes)?;
    let made = make_edges(alloc, connection, &new)?;
    let mut list = OptIds::new(alloc);
    push_made(&mut list, &made.edges)?;
    Ok(Page { made, list })
}

/// Puts a connection with what the server's has, the list of a page and the link to its page
/// information, and the edges of the page, to the end of changes.
fn push_whole_page(
    changes: &mut Vec<Change>,
    server: &Record,
    connection: &Connection,
    page: Page,
) -> Result<(), NoMemory>
    ensures records { (new : List RowOf) → (onto : Records) → spec.IsMade (spec.kept_of connection.now) new page.made → OnOk result
        (put_all changes.new.items onto
        ≡ spec.put_connection (spec.kept_of connection.now)
        (with_field (codes "pageInfo") (Link (merge.info_id connection.now.id)) (spec.with_list server.now (spec.kept_of connection.now) new page.list)) new (put_all changes.old.items onto)) }
    ensures few { OnOk result (length changes.new.items ≡ length changes.old.items + (1 + length page.made.edges.items)) }
{
    let Page { made, list } = page;
    let alloc = *changes.allocator();
    let mut row = with_list(alloc, server, connection, &made, list)?;
    let info = info_id(alloc, &connection.id)?;
    put_field(alloc, &mut row, "pageInfo", Field::Link(info))?;
    push_connection(changes, connection, row, made)?;
    Ok(())
}

/// Puts the page information of a connection, made whole with the fields of the server's or with none,
/// to the end of changes.
fn push_whole_info(
    changes: &mut Vec<Change>,
    handle: &HandleFact,
    connection: &Connection,
    info: Option<&Shared>,
) -> Result<(), NoMemory>
    ensures { OnOk result (changes.new.items ≡ changes.old.items ++ record { id = merge.info_id connection.now.id; row = merge.whole_info handle.now.info_type (option_copied info.entry) } ∷ []) }
{
    let alloc = *changes.allocator();
    let id = info_id(alloc, &connection.id)?;
    let row = whole_info(alloc, &handle.info_type, info)?;
    let change = Change::new(alloc, id, row)?;
    changes.push(change)?;
    Ok(())
}
