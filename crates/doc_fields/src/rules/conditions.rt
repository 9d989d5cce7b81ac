//! V10, fragment spread is possible (GraphQL, October 2021, section 5.5.2.3): a type condition and
//! the type around it have a possible type in common. `{ me { ... on Page { title } } }` breaks it
//! at the `...`, where no User is a Page; a spread breaks it at its name.
ghost use Rattle.std.specs.Prelude.{◌≡◌, Some, map, option_copied, option_map, ◌++◌, List, IfOk, OnOk};
ghost use Rattle.doc_sites.specs.schema_types.FieldRules as rules;
ghost use Rattle.doc_sites.specs.gql_graph.Graphs.{Holds, Tells};
ghost use Rattle.doc_sites.specs.gql_graph.Leasts.{least_from};
ghost use Rattle.doc_sites.specs.schema_trees.LocatedView.{name_of};
ghost use Rattle.doc_sites.specs.schema_types.NameRules.{fragment_named};
ghost use Rattle.doc_sites.specs.schema_types.NameRules as names;
ghost use Rattle.doc_sites.specs.gql_graph.Rules.{each, wrong};
ghost use Rattle.doc_sites.specs.schema_types.Sites as spec;
ghost use Rattle.doc_sites.specs.schema_tables.Types as types;
ghost use Rattle.doc_sites.specs.SitesView.{definition_of, fragment_of, site_of};
ghost use Rattle.doc_fields.specs.Common.{AreCommon};
ghost use Rattle.doc_sites.specs.Definitions.{on_fragment};
ghost use Rattle.doc_fields.specs.Fragments.{condition_in, conditions_of, leading};

use crate::common_types::CommonTypes;
use doc_sites::graph::Graph;
use doc_sites::least::Least;
use doc_sites::located::NameAt;
use doc_sites::{DefinitionAt, FragmentAt, NoMemory, Schema, Site};
use std::alloc::Global;

/// V10: the type condition of a fragment, also of an inline one, and the type around it have a
/// possible type in common (GraphQL, October 2021, section 5.5.2.3). Nothing is said of a condition
/// that is none of an object, an interface or a union. Where several fragments have one name, the
/// first counts.
pub(crate) fn conditions_never_apply(
    alloc: Global,
    schema: &Schema,
    least: &mut Least,
    definitions: &[DefinitionAt<'_>],
) -> Result<(), NoMemory>
    ensures { OnOk result (least.new.at ≡ least_from least.old.at (rules.conditions_never_apply schema.now (map definition_of definitions.now))) }
{
    let conditions = conditions(alloc, definitions)?;
    let mut common = CommonTypes::new(alloc);
    'definitions: for definition in definitions {
        note_never_in(
            alloc,
            schema,
            &conditions,
            &mut common,
            least,
            definition.sites(),
        )?;
    }
    Ok(())
}

/// Each fragment with its type condition.
fn conditions<'a>(alloc: Global, definitions: &[DefinitionAt<'a>]) -> Result<Graph<'a>, NoMemory>
    ensures { IfOk result (λ graph. Tells graph (conditions_of (names.fragments (map definition_of definitions.now)))) }
{
    let mut graph = Graph::new(alloc);
    'definitions: for definition in definitions {
        put_condition_at(alloc, &mut graph, definition)?;
    }
    Ok(graph)
}

/// Puts a definition that is a fragment with its type condition.
fn put_condition_at<'a>(
    alloc: Global,
    graph: &mut Graph<'a>,
    definition: &DefinitionAt<'a>,
) -> Result<(), NoMemory>
    ensures { (pairs : List (types.Text × List types.Text)) → Holds graph.old pairs
        → OnOk result (Holds graph.new (pairs ++ on_fragment (leading condition_in) (definition_of definition.now))) }
{
    match definition {
        DefinitionAt::Operation(_) => Ok(()),
        DefinitionAt::Fragment(fragment) => put_condition(alloc, graph, fragment),
    }
}

/// Puts a fragment with its type condition.
fn put_condition<'a>(
    alloc: Global,
    graph: &mut Graph<'a>,
    fragment: &FragmentAt<'a>,
) -> Result<(), NoMemory>
    ensures { (pairs : List (types.Text × List types.Text)) → Holds graph.old pairs
        → OnOk result (Holds graph.new (pairs ++ leading condition_in (fragment_of fragment.now))) }
{
    let mut condition = Vec::new(alloc);
    condition.push(fragment.on.name)?;
    graph.put(fragment.name.name, condition)
}

/// The type condition of the fragment of a name, where there is one.
fn condition<'a>(conditions: &Graph<'a>, name: &str) -> Option<&'a str>
    ensures { (fs : List spec.FragmentAt) → Tells conditions.now (conditions_of fs)
        → option_copied result ≡ rules.condition_of_fragment (fragment_named fs name.now) }
{
    match conditions.next(name).first() {
        Some(on) => Some(*on),
        None => None,
    }
}

/// The conditions of these selections that never apply.
fn note_never_in<'a>(
    alloc: Global,
    schema: &Schema,
    conditions: &Graph<'a>,
    common: &mut CommonTypes<'a>,
    least: &mut Least,
    sites: &[Site<'a>],
) -> Result<(), NoMemory>
    ensures noted { (fs : List spec.FragmentAt) → Tells conditions.now (conditions_of fs) → AreCommon schema.now common.old
        → OnOk result (least.new.at ≡ least_from least.old.at (each (rules.never_applies_at schema.now fs) (map site_of sites.now))) }
    ensures common { AreCommon schema.now common.old → OnOk result (AreCommon schema.now common.new) }
{
    'sites: for site in sites {
        note_never(alloc, schema, conditions, common, least, site)?;
    }
    Ok(())
}

/// A condition that never applies.
fn note_never<'a>(
    alloc: Global,
    schema: &Schema,
    conditions: &Graph<'a>,
    common: &mut CommonTypes<'a>,
    least: &mut Least,
    site: &Site<'a>,
) -> Result<(), NoMemory>
    ensures noted { (fs : List spec.FragmentAt) → Tells conditions.now (conditions_of fs) → AreCommon schema.now common.old
        → OnOk result (least.new.at ≡ least_from least.old.at (rules.never_applies_at schema.now fs (site_of site.now))) }
    ensures common { AreCommon schema.now common.old → OnOk result (AreCommon schema.now common.new) }
{
    match site {
        Site::Field { .. } => Ok(()),
        Site::Spread { around, name, .. } => {
            let on = condition(conditions, name.name);
            note_if_never(alloc, schema, common, least, *around, on, name.at)
        }
        Site::Inline {
            around,
            first,
            on,
            ..
        } => {
            let on = condition_of_inline(on);
            note_if_never(alloc, schema, common, least, *around, on, *first)
        }
    }
}

/// A condition at a place, where it never applies. One that stands after a place that is noted
/// already is not looked at.
fn note_if_never<'a>(
    alloc: Global,
    schema: &Schema,
    common: &mut CommonTypes<'a>,
    least: &mut Least,
    around: Option<&'a str>,
    on: Option<&'a str>,
    at: usize,
) -> Result<(), NoMemory>
    ensures noted { AreCommon schema.now common.old
        → OnOk result (least.new.at ≡ least_from least.old.at (wrong (rules.cannot_apply schema.now (option_copied around.entry) (option_copied on.entry)) at)) }
    ensures common { AreCommon schema.now common.old → OnOk result (AreCommon schema.now common.new) }
{
    if least.is_at_most(at) {
        return Ok(());
    }
    let never = cannot_apply(alloc, schema, common, around, on)?;
    least.note_if(never, at);
    Ok(())
}

/// The type condition of an inline fragment, where it has one.
fn condition_of_inline<'a>(on: &Option<NameAt<'a>>) -> Option<&'a str>
    ensures { option_copied result ≡ rules.condition_of_inline (option_map name_of on.now) }
{
    match on {
        Some(name) => Some(name.name),
        None => None,
    }
}

/// Whether the condition and the type around it are known and have no possible type in common.
fn cannot_apply<'a>(
    alloc: Global,
    schema: &Schema,
    common: &mut CommonTypes<'a>,
    around: Option<&'a str>,
    on: Option<&'a str>,
) -> Result<bool, NoMemory>
    ensures answer { AreCommon schema.now common.old → IfOk result (λ b. b ≡ rules.cannot_apply schema.now (option_copied around.entry) (option_copied on.entry)) }
    ensures common { AreCommon schema.now common.old → OnOk result (AreCommon schema.now common.new) }
{
    match around {
        Some(of) => cannot_apply_on(alloc, schema, common, of, on),
        None => Ok(false),
    }
}

/// Whether the condition is known and has no possible type in common with a type.
fn cannot_apply_on<'a>(
    alloc: Global,
    schema: &Schema,
    common: &mut CommonTypes<'a>,
    of: &'a str,
    on: Option<&'a str>,
) -> Result<bool, NoMemory>
    ensures answer { AreCommon schema.now common.old → IfOk result (λ b. b ≡ rules.cannot_apply schema.now (Some of.now) (option_copied on.entry)) }
    ensures common { AreCommon schema.now common.old → OnOk result (AreCommon schema.now common.new) }
{
    match on {
        Some(on) => lack_common_type(alloc, schema, common, of, on),
        None => Ok(false),
    }
}

/// Whether the condition is composite and has no possible type in common with a type.
fn lack_common_type<'a>(
    alloc: Global,
    schema: &Schema,
    common: &mut CommonTypes<'a>,
    of: &'a str,
    on: &'a str,
) -> Result<bool, NoMemory>
    ensures answer { AreCommon schema.now common.old → IfOk result (λ b. b ≡ rules.cannot_apply schema.now (Some of.now) (Some on.now)) }
    ensures common { AreCommon schema.now common.old → OnOk result (AreCommon schema.now common.new) }
{
    if !schema.is_composite(on) {
        return Ok(false);
    }
    let have = common.have_common_type(alloc, schema, of, on)?;
    Ok(!have)
}
