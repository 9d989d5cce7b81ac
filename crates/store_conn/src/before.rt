//! Pages that go before the edges of a connection.
ghost use Rattle.std.specs.Prelude.{◌≡◌, ◌+◌, ◌≤◌, ◌++◌, [], length, IfOk};
ghost use Rattle.std.specs.Option.{option_copied};
ghost use Rattle.store_model.specs.Merge as merge;
ghost use Rattle.store_model.specs.Records.{live};
ghost use Rattle.store_conn.specs.Changes.{put_all};
ghost use Rattle.store_conn.specs.Connections as spec;
ghost use Rattle.store_conn.specs.Lists.{edges_in};
ghost use Rattle.store_conn.specs.Pages as pages;

use crate::changes::Change;
use crate::connection::Connection;
use crate::edges::{live_edges, new_edges, push_edges_but};
use crate::info::push_info;
use crate::look::{below, edges_of};
use crate::made::{Page, make_edges, push_made, push_page};
use crate::nodes::Nodes;
use std::alloc::Global;
use store_model::gql_plain::{NoMemory, OptIds};
use store_model::store_record::{Record, Shared};
use store_source::RecordSource;

/// What a page puts that goes before the edges of a connection. An old edge with the node of a new one
/// is left out. `info` is the connection's page information, where it is live.
pub(crate) fn page_before<S: RecordSource>(
    alloc: Global,
    source: &S,
    server: &Record,
    connection: &Connection,
    info: Option<&Shared>,
    steps: &mut S::Count,
) -> Result<Vec<Change>, NoMemory>
    ensures records { option_copied info.entry ≡ live (merge.info_id connection.now.id) (S.records source.now)
        → IfOk result (λ changes. put_all changes.items (S.records source.now) ≡ merge.page_before server.now (spec.kept_of connection.now) (S.records source.now)) }
    ensures few { IfOk result (λ changes. length changes.items ≤ 2 + edges_in server.now) }
    ensures looks { S.Count.looks steps.new ≤ S.Count.looks steps.old + (1 + edges_in server.now + edges_in connection.now.row) }
    ensures applies { S.Count.applies steps.new ≡ S.Count.applies steps.old }
{
    let page = page_before_old(alloc, source, server, connection, steps)?;
    let server_info = below(source, server, "pageInfo", steps);
    let mut changes = Vec::new(alloc);
    push_page(&mut changes, server, connection, page)?;
    push_info(
        &mut changes,
        connection,
        info,
        "startCursor",
        "hasPreviousPage",
        server_info,
    )?;
    Ok(changes)
}

/// The edges that are made of a page, without those whose node is that of an earlier one. In the list
/// they stand before those of the connection, of which those are left out whose node is that of a new
/// edge.
fn page_before_old<S: RecordSource>(
    alloc: Global,
    source: &S,
    server: &Record,
    connection: &Connection,
    steps: &mut S::Count,
) -> Result<Page, NoMemory>
    ensures made { IfOk result (λ page. spec.IsMade (spec.kept_of connection.now) (pages.whole_edges server.now (S.records source.now)) page.made) }
    ensures list { IfOk result (λ page. page.list ≡ [] ++ pages.whole_ids server.now (spec.kept_of connection.now) (S.records source.now) ++ pages.other_edges server.now (spec.kept_of connection.now) (S.records source.now)) }
    ensures looks { S.Count.looks steps.new ≤ S.Count.looks steps.old + (edges_in server.now + edges_in connection.now.row) }
    ensures applies { S.Count.applies steps.new ≡ S.Count.applies steps.old }
{
    let live = live_edges(alloc, source, edges_of(server), steps)?;
    let mut nodes = Nodes::new(alloc);
    let new = new_edges(alloc, &live, &mut nodes)?;
    let made = make_edges(alloc, connection, &new)?;
    let mut list = OptIds::new(alloc);
    push_made(&mut list, &made.edges)?;
    push_edges_but(
        source,
        edges_of(connection.row.get()),
        &nodes,
        &mut list,
        steps,
    )?;
    Ok(Page { made, list })
}
