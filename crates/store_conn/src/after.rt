//! Pages that go after the edges of a connection.
ghost use Rattle.std.specs.Prelude.{◌≡◌, ◌+◌, ◌≤◌, ◌++◌, [], length, IfOk};
ghost use Rattle.std.specs.Option.{option_copied};
ghost use Rattle.store_model.specs.Merge as merge;
ghost use Rattle.store_model.specs.Records.{live};
ghost use Rattle.store_conn.specs.Changes.{put_all};
ghost use Rattle.store_conn.specs.Connections as spec;
ghost use Rattle.store_conn.specs.Lists.{edges_in};
ghost use Rattle.store_conn.specs.Pages as pages;

use crate::changes::Change;
use crate::connection::Connection;
use crate::edges::{live_edges, new_edges, note_nodes, note_wanted, push_edges};
use crate::info::push_info;
use crate::look::{below, edges_of};
use crate::made::{Page, make_edges, push_made, push_page};
use crate::nodes::Nodes;
use std::alloc::Global;
use store_model::gql_plain::{NoMemory, OptIds};
use store_model::store_record::{Record, Shared};
use store_source::RecordSource;

/// What a page puts that goes after the edges of a connection. `info` is the connection's page
/// information, where it is live.
pub(crate) fn page_after<S: RecordSource>(
    alloc: Global,
    source: &S,
    server: &Record,
    connection: &Connection,
    info: Option<&Shared>,
    steps: &mut S::Count,
) -> Result<Vec<Change>, NoMemory>
    ensures records { option_copied info.entry ≡ live (merge.info_id connection.now.id) (S.records source.now)
        → IfOk result (λ changes. put_all changes.items (S.records source.now) ≡ merge.page_after server.now (spec.kept_of connection.now) (S.records source.now)) }
    ensures few { IfOk result (λ changes. length changes.items ≤ 2 + edges_in server.now) }
    ensures looks { S.Count.looks steps.new ≤ S.Count.looks steps.old + (1 + edges_in server.now + edges_in connection.now.row) }
    ensures applies { S.Count.applies steps.new ≡ S.Count.applies steps.old }
{
    let page = page_with_old(alloc, source, server, connection, steps)?;
    let server_info = below(source, server, "pageInfo", steps);
    let mut changes = Vec::new(alloc);
    push_page(&mut changes, server, connection, page)?;
    push_info(
        &mut changes,
        connection,
        info,
        "endCursor",
        "hasNextPage",
        server_info,
    )?;
    Ok(changes)
}

/// The edges that are made of a page, without those whose node is that of an earlier one or of an edge
/// of the connection. In the list they stand after those of the connection. Of the connection's nodes
/// only those are kept in memory that the page has too.
fn page_with_old<S: RecordSource>(
    alloc: Global,
    source: &S,
    server: &Record,
    connection: &Connection,
    steps: &mut S::Count,
) -> Result<Page, NoMemory>
    ensures made { IfOk result (λ page. spec.IsMade (spec.kept_of connection.now) (pages.later_edges server.now (spec.kept_of connection.now) (S.records source.now)) page.made) }
    ensures list { IfOk result (λ page. page.list ≡ merge.edges_of connection.now.row ++ pages.later_ids server.now (spec.kept_of connection.now) (S.records source.now) ++ []) }
    ensures looks { S.Count.looks steps.new ≤ S.Count.looks steps.old + (edges_in server.now + edges_in connection.now.row) }
    ensures applies { S.Count.applies steps.new ≡ S.Count.applies steps.old }
{
    let live = live_edges(alloc, source, edges_of(server), steps)?;
    let old = edges_of(connection.row.get());
    let mut wanted = Nodes::new(alloc);
    note_nodes(&live, &mut wanted)?;
    let mut nodes = Nodes::new(alloc);
    note_wanted(source, old, &wanted, &mut nodes, steps)?;
    let new = new_edges(alloc, &live, &mut nodes)?;
    let made = make_edges(alloc, connection, &new)?;
    let mut list = OptIds::new(alloc);
    push_edges(&mut list, old)?;
    push_made(&mut list, &made.edges)?;
    Ok(Page { made, list })
}
