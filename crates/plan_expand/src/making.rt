//! The nodes of operations and fragments, all spreads followed.
ghost use Rattle.std.specs.Prelude.{◌≡◌, ◌<◌, ◌+◌, ◌-◌, get_or, option_copied, IfOk, OnOk};
ghost use Rattle.plan_ir.specs.gql_ast.Sels as sels;
ghost use Rattle.plan_ir.specs.gql_ast.SelectionView.{sel_of};
ghost use Rattle.plan_ir.specs.Expansion.{response_key};
ghost use Rattle.plan_ir.specs.Nodes.{end, nodes_append};
ghost use Rattle.plan_ir.specs.NodesView.{node_of};
ghost use Rattle.plan_ir.specs.schema_types.Sites as sites;
ghost use Rattle.plan_expand.specs.Adding.{IsRight};
ghost use Rattle.plan_expand.specs.Making as spec;
ghost use Rattle.plan_ir.specs.Projects.{first_place};
ghost use Rattle.plan_expand.specs.Making.{making, selections_count, spread_node};
ghost use Rattle.plan_expand.specs.ReadyView.{find_in, ready_of};
ghost use Rattle.plan_expand.specs.ScopeView.{scope_of};

use crate::additions::{Adding, put_additions, type_of_field};
use crate::around::condition_or;
use crate::directives::print_directives;
use crate::fragments::{Fragments, ReadyFragment};
use crate::places::place_at;
use crate::scope::{Scope, scope_at_spread, substitute_in};
use doc_sites::around::below;
use plan_ir::located::pass;
use plan_ir::type_forms::base_of;
use plan_ir::{
    Arguments, Directives, FilePlace, Name, NoMemory, Node, Nodes, Selection, Selections, Words,
    connection_among,
};
use std::alloc::Global;

/// What a walk over the selections of an operation or a fragment looks at.
#[derive(Clone, Copy)]
pub(crate) struct Walk<'w, 'a> {
    pub(crate) adding: &'w Adding<'a>,
    pub(crate) fragments: &'w Fragments<'a>,
    pub(crate) scope: &'w Scope<'w, 'a>,
    /// Those of the selections, in text order.
    pub(crate) places: &'w [FilePlace],
    /// How many spreads may still be entered, one in another.
    pub(crate) spreads: usize,
}

/// The response key of a field (GraphQL, October 2021, section 2.7).
fn response_key(alias: &Option<Name>, name: &Name) -> Result<Name, NoMemory>
    ensures { IfOk result (λ n. n ≡ response_key alias.now name.now) }
{
    match alias {
        Some(alias) => alias.copy(),
        None => name.copy(),
    }
}

/// The same name, or none where there is none.
fn copy_of_name(name: &Option<Name>) -> Result<Option<Name>, NoMemory>
    ensures { IfOk result (λ copy. copy ≡ name.now) }
{
    match name {
        Some(name) => Ok(Some(name.copy()?)),
        None => Ok(None),
    }
}

/// The nodes of a set; goes past its selections. How deep it nests was measured before.
#[cycle(make)]
pub(crate) fn make_set<'a>(
    alloc: Global,
    walk: Walk<'_, 'a>,
    at: &mut usize,
    around: Option<&'a str>,
    selections: &'a Selections,
) -> Result<Nodes, NoMemory>
    requires { IsRight walk.adding.now }
    ensures made { IfOk result (λ nodes. nodes ≡ making walk.entry.spreads walk.entry.adding.now.schema.now (find_in walk.entry.fragments.now) (scope_of walk.entry.scope.now) walk.entry.places.now at.old (option_copied around.entry) selections.now) }
    ensures passed { OnOk result (at.new ≡ at.old + selections_count selections.now) }
{
    let mut nodes = Nodes::new(alloc);
    'selections: for selection in selections.as_slice() {
        put_selection(alloc, walk, at, around, &mut nodes, selection)?;
    }
    Ok(nodes)
}

/// Puts the node of a selection; goes past it.
#[cycle(make)]
fn put_selection<'a>(
    alloc: Global,
    walk: Walk<'_, 'a>,
    at: &mut usize,
    around: Option<&'a str>,
    nodes: &mut Nodes,
    selection: &'a Selection,
) -> Result<(), NoMemory>
    requires { IsRight walk.adding.now }
    ensures made { OnOk result (nodes.new ≡ nodes_append nodes.old (making walk.entry.spreads walk.entry.adding.now.schema.now (find_in walk.entry.fragments.now) (scope_of walk.entry.scope.now) walk.entry.places.now at.old (option_copied around.entry) (sel_of selection.now))) }
    ensures passed { OnOk result (at.new ≡ at.old + selections_count (sel_of selection.now)) }
{
    match selection {
        Selection::Field {
            alias,
            name,
            arguments,
            directives,
            selections,
        } => {
            let node = make_field(
                alloc, walk, at, around, alias, name, arguments, directives, selections,
            )?;
            nodes.push(node)?;
            Ok(())
        }
        Selection::Spread { name, directives } => {
            put_spread(alloc, walk, at, nodes, name, directives)?;
            Ok(())
        }
        Selection::Inline {
            on,
            directives,
            selections,
        } => {
            let node = make_inline(alloc, walk, at, around, on, directives, selections)?;
            nodes.push(node)?;
            Ok(())
        }
    }
}

/// The node of a field; goes past it.
#[cycle(make)]
fn make_field<'a>(
    alloc: Global,
    walk: Walk<'_, 'a>,
    at: &mut usize,
    around: Option<&'a str>,
    alias: &Option<Name>,
    name: &Name,
    arguments: &Arguments,
    directives: &Directives,
    selections: &'a Selections,
) -> Result<Node, NoMemory>
    requires { IsRight walk.adding.now }
    ensures made { IfOk result (λ node. node_of node ≡ making walk.entry.spreads walk.entry.adding.now.schema.now (find_in walk.entry.fragments.now) (scope_of walk.entry.scope.now) walk.entry.places.now at.old (option_copied around.entry) (sels.field alias.now name.now arguments.now directives.now selections.now sels.end)) }
    ensures passed { OnOk result (at.new ≡ at.old + (1 + selections_count selections.now)) }
{
    let place = place_at(walk.places, *at);
    pass(at, 1)?;
    let inner = below(walk.adding.schema, around, name.as_str());
    let mut inside = make_set(alloc, walk, at, inner, selections)?;
    let of = type_of_field(alloc, walk.adding.schema, around, name.as_str())?;
    let connection = connection_among(alloc, directives)?;
    let is_connection = connection.is_some();
    put_additions(
        alloc,
        walk.adding,
        &mut inside,
        is_connection,
        base_of(&of),
        selections,
        place,
    )?;
    let response = response_key(alias, name)?;
    let own = name.copy()?;
    let values = substitute_in(alloc, walk.scope, arguments)?;
    let printed = print_directives(alloc, walk.scope, directives, false)?;
    Ok(Node::Field {
        response,
        name: own,
        arguments: values,
        directives: printed,
        connection,
        of,
        selections: inside,
        place,
    })
}

/// The node of an inline fragment; goes past it.
#[cycle(make)]
fn make_inline<'a>(
    alloc: Global,
    walk: Walk<'_, 'a>,
    at: &mut usize,
    around: Option<&'a str>,
    on: &'a Option<Name>,
    directives: &Directives,
    selections: &'a Selections,
) -> Result<Node, NoMemory>
    requires { IsRight walk.adding.now }
    ensures made { IfOk result (λ node. node_of node ≡ making walk.entry.spreads walk.entry.adding.now.schema.now (find_in walk.entry.fragments.now) (scope_of walk.entry.scope.now) walk.entry.places.now at.old (option_copied around.entry) (sels.inline on.now directives.now selections.now sels.end)) }
    ensures passed { OnOk result (at.new ≡ at.old + (1 + selections_count selections.now)) }
{
    let place = place_at(walk.places, *at);
    pass(at, 1)?;
    let inner = condition_or(around, on);
    let inside = make_set(alloc, walk, at, inner, selections)?;
    let condition = copy_of_name(on)?;
    let printed = print_directives(alloc, walk.scope, directives, false)?;
    Ok(Node::Inline {
        on: condition,
        directives: printed,
        selections: inside,
        place,
    })
}

/// Puts the node of a spread, where it may be entered; goes past it.
#[cycle(make)]
fn put_spread<'a>(
    alloc: Global,
    walk: Walk<'_, 'a>,
    at: &mut usize,
    nodes: &mut Nodes,
    name: &Name,
    directives: &'a Directives,
) -> Result<(), NoMemory>
    requires { IsRight walk.adding.now }
    ensures made { OnOk result (nodes.new ≡ nodes_append nodes.old (spec.entering walk.entry.spreads walk.entry.adding.now.schema.now (find_in walk.entry.fragments.now) (scope_of walk.entry.scope.now) (get_or walk.entry.places.now at.old first_place) name.now directives.now end)) }
    ensures passed { OnOk result (at.new ≡ at.old + 1) }
{
    let place = place_at(walk.places, *at);
    pass(at, 1)?;
    if walk.spreads == 0 {
        return Ok(());
    }
    match walk.fragments.find(name.as_str()) {
        Some(fragment) => {
            let node = make_spread(alloc, walk, fragment, directives, place)?;
            nodes.push(node)?;
            Ok(())
        }
        None => Ok(()),
    }
}

/// The inline fragment that a spread becomes.
#[cycle(make)]
fn make_spread<'a>(
    alloc: Global,
    walk: Walk<'_, 'a>,
    fragment: &ReadyFragment<'a>,
    directives: &'a Directives,
    place: FilePlace,
) -> Result<Node, NoMemory>
    requires right { IsRight walk.adding.now }
    requires some { 0 < walk.spreads }
    ensures { IfOk result (λ node. node_of node ≡ spread_node (walk.entry.spreads - 1) walk.entry.adding.now.schema.now (find_in walk.entry.fragments.now) (scope_of walk.entry.scope.now) place (ready_of fragment.now) directives.now) }
{
    let scope = scope_at_spread(alloc, walk.scope, &fragment.locals, directives)?;
    let inner = Walk {
        adding: walk.adding,
        fragments: walk.fragments,
        scope: &scope,
        places: &fragment.places,
        spreads: walk.spreads - 1,
    };
    let mut at = 0;
    let on = Some(fragment.on);
    let inside = make_set(alloc, inner, &mut at, on, fragment.selections)?;
    let condition = Words::new(alloc, fragment.on)?;
    let printed = print_directives(alloc, walk.scope, directives, true)?;
    Ok(Node::Inline {
        on: Some(condition),
        directives: printed,
        selections: inside,
        place,
    })
}
