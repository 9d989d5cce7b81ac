//! S10, input types that need themselves (GraphQL, October 2021, section 3.10): no input type needs
//! itself through non-null fields that are no lists. `input I { of: I! }` breaks it at `I`.
ghost use Rattle.std.specs.Prelude.{◌≡◌, ◌++◌, map, length, List, IfOk, OnOk, option_map};
ghost use Rattle.std.specs.List.{filter_map};
ghost use Rattle.schema_trees.specs.gql_ast.Ty as ty;
ghost use Rattle.schema_trees.specs.gql_ast.TypeView.{ty_of};
ghost use Rattle.gql_graph.specs.Graphs.{Holds, Tells};
ghost use Rattle.gql_graph.specs.Leasts.{least_from};
ghost use Rattle.schema_trees.specs.LocatedView.{def_of};
ghost use Rattle.schema_rules.specs.Needing.{needing};
ghost use Rattle.gql_graph.specs.Ranks.{rank_in, NeverRises};
ghost use Rattle.gql_graph.specs.Reached.{any_leads};
ghost use Rattle.schema_rules.specs.Rules as rules;
ghost use Rattle.schema_trees.specs.schema_tables.Types.{Text, Defs};

use gql_graph::gql_plain::NoMemory;
use gql_graph::graph::Graph;
use gql_graph::least::Least;
use gql_graph::ranks::Ranks;
use schema_trees::gql_ast::{InputTrees, SchemaDef, TypeTree};
use schema_trees::located::{DefAt, NameAt};
use schema_trees::schema_tables::tables::Tables;
use std::alloc::Global;

/// S10: no input type needs itself through non-null fields that are not lists (GraphQL, October 2021,
/// section 3.10). `steps` is the number of all definitions.
///
/// An input type that needs only types of lower ranks does not need itself. The others are searched
/// from in text order, until one is found: where the ranks are those of the components, that is the
/// first.
pub(crate) fn inputs_need_themselves(
    alloc: Global,
    tables: &Tables,
    steps: usize,
    least: &mut Least,
    definitions: &[DefAt<'_>],
) -> Result<(), NoMemory>
    requires { steps ≡ length tables.now }
    ensures { OnOk result (least.new.at ≡ least_from least.old.at (rules.inputs_need_themselves tables.now (map def_of definitions.now))) }
{
    let graph = needs(alloc, tables)?;
    let ranks = Ranks::of(alloc, &graph)?;
    'definitions: for definition in definitions {
        note_needing(alloc, &graph, steps, &ranks, least, definition)?;
    }
    Ok(())
}

/// An input type that needs itself.
fn note_needing(
    alloc: Global,
    graph: &Graph<'_>,
    steps: usize,
    ranks: &Ranks<'_>,
    least: &mut Least,
    definition: &DefAt<'_>,
) -> Result<(), NoMemory>
    ensures { (defs : Defs) → Tells graph.now (rules.needs defs) → steps ≡ length defs → NeverRises (rank_in ranks.now) (rules.needs defs)
        → OnOk result (least.new.at ≡ least_from least.old.at (rules.needs_itself defs (def_of definition.now))) }
{
    match definition {
        DefAt::Input { name, .. } => note_input(alloc, graph, steps, ranks, least, name),
        DefAt::Schema { .. } => Ok(()),
        DefAt::Scalar { .. } => Ok(()),
        DefAt::Object { .. } => Ok(()),
        DefAt::Interface { .. } => Ok(()),
        DefAt::Union { .. } => Ok(()),
        DefAt::Enum { .. } => Ok(()),
        DefAt::Directive { .. } => Ok(()),
    }
}

/// An input type of this name, where it needs itself. One that stands after a place that is noted
/// already is not looked at, and one that needs only types of lower ranks does not need itself.
fn note_input(
    alloc: Global,
    graph: &Graph<'_>,
    steps: usize,
    ranks: &Ranks<'_>,
    least: &mut Least,
    name: &NameAt<'_>,
) -> Result<(), NoMemory>
    ensures { (next : Text → List Text) → Tells graph.now next → NeverRises (rank_in ranks.now) next
        → OnOk result (least.new.at ≡ least_from least.old.at (rules.wrong (any_leads next steps (next name.now.name.now) name.now.name.now) name.now.at)) }
{
    if least.is_at_most(name.at) {
        return Ok(());
    }
    if ranks.are_below(name.name, graph.next(name.name)) {
        return Ok(());
    }
    let needs_itself = graph.leads_to(alloc, steps, graph.next(name.name), name.name)?;
    least.note_if(needs_itself, name.at);
    Ok(())
}

/// What each type needs.
fn needs<'t>(alloc: Global, tables: &'t Tables) -> Result<Graph<'t>, NoMemory>
    ensures { IfOk result (λ graph. Tells graph (rules.needs tables.now)) }
{
    let mut graph = Graph::new(alloc);
    'definitions: for definition in tables.definitions() {
        put_needs(alloc, &mut graph, definition)?;
    }
    Ok(graph)
}

/// Puts the type that a definition defines with the types that it needs.
fn put_needs<'t>(
    alloc: Global,
    graph: &mut Graph<'t>,
    definition: &'t SchemaDef,
) -> Result<(), NoMemory>
    ensures { (pairs : List (Text × List Text)) → Holds graph.old pairs → OnOk result (Holds graph.new (pairs ++ needing definition.now)) }
{
    match definition {
        SchemaDef::Schema { .. } => Ok(()),
        SchemaDef::Scalar { name, .. } => graph.put(name.as_str(), Vec::new(alloc)),
        SchemaDef::Object { name, .. } => graph.put(name.as_str(), Vec::new(alloc)),
        SchemaDef::Interface { name, .. } => graph.put(name.as_str(), Vec::new(alloc)),
        SchemaDef::Union { name, .. } => graph.put(name.as_str(), Vec::new(alloc)),
        SchemaDef::Enum { name, .. } => graph.put(name.as_str(), Vec::new(alloc)),
        SchemaDef::Input { name, fields, .. } => graph.put(name.as_str(), needs_of(alloc, fields)?),
        SchemaDef::Directive { .. } => Ok(()),
    }
}

/// The types that input fields need.
fn needs_of<'t>(alloc: Global, inputs: &'t InputTrees) -> Result<Vec<&'t str>, NoMemory>
    ensures { IfOk result (λ ns. map (λ n. n.now) ns.items ≡ filter_map (λ i. rules.needed_type (ty_of i.of)) inputs.now) }
{
    let mut names = Vec::new(alloc);
    'inputs: for input in &inputs.items {
        if let Some(name) = needed_type(&input.of) {
            names.push(name)?;
        }
    }
    Ok(names)
}

/// The type that a field of this type needs.
fn needed_type(of: &TypeTree) -> Option<&str>
    ensures { option_map (λ n. n.now) result ≡ rules.needed_type (ty_of of.now) }
{
    match of {
        TypeTree::Named(_) => None,
        TypeTree::List(_) => None,
        TypeTree::NonNull(inner) => nullable_type(inner.tree()),
    }
}

/// The name of a type that is no list and may be null.
fn nullable_type(of: &TypeTree) -> Option<&str>
    ensures { option_map (λ n. n.now) result ≡ rules.needed_type (ty.non_null (ty_of of.now)) }
{
    match of {
        TypeTree::Named(name) => Some(name.as_str()),
        TypeTree::List(_) => None,
        TypeTree::NonNull(_) => None,
    }
}
