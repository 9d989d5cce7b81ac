//! S1, names of definitions (GraphQL, October 2021, section 3.3): the names of types differ, those
//! of directives differ, there is at most one `schema` definition, and no kind stands twice in it.
//! `type A { x: Int } type A { y: Int }` breaks it at the second `A`.
//!
//! S3, root types (section 3.3.1): there is a query root; root types are object types and differ.
//! `schema { query: ID }` breaks it at `ID`.
ghost use Rattle.std.specs.Prelude.{◌≡◌, ◌&&◌, false, [], ◌∷◌, ◌++◌, None, Some, not, map, List, IfOk, OnOk, MatchOption, is_some};
ghost use Rattle.std.specs.List.{filter_map};
ghost use Rattle.schema_trees.specs.gql_ast.declared.document.Kind.{Kind};
ghost use Rattle.schema_trees.specs.gql_ast.declared.document.Kind.TheVariants.{Query};
ghost use Rattle.schema_rules.specs.Kinds.{KnowsKinds};
ghost use Rattle.gql_graph.specs.Leasts.{least_from};
ghost use Rattle.gql_graph.specs.Seen.{Knows};
ghost use Rattle.schema_trees.specs.Located as located;
ghost use Rattle.schema_trees.specs.LocatedView.{name_of, root_of, def_of};
ghost use Rattle.schema_rules.specs.Rules as rules;
ghost use Rattle.schema_trees.specs.schema_tables.Types as types;

use crate::rules::members::{is_object, note_not_objects};
use gql_graph::gql_plain::NoMemory;
use gql_graph::least::Least;
use gql_graph::seen::Seen;
use schema_trees::gql_ast::Kind;
use schema_trees::located::{DefAt, NameAt, RootAt};
use schema_trees::repeats::{note_repeated, note_repeats};
use schema_trees::schema_tables::tables::Tables;
use std::alloc::Global;

/// S1: type names differ, directive names differ, there is one definition of the schema itself at
/// most, and no kind stands twice in one (GraphQL, October 2021, section 3.3).
#[tactic(auto, using(gql_graph::proofs::LeastSteps::noting))]
pub(crate) fn names_not_unique(
    alloc: Global,
    least: &mut Least,
    definitions: &[DefAt<'_>],
) -> Result<(), NoMemory>
    ensures { OnOk result (least.new.at ≡ least_from least.old.at (rules.names_not_unique (map def_of definitions.now))) }
{
    note_repeated_types(alloc, least, definitions)?;
    note_repeated_directives(alloc, least, definitions)?;
    note_further_schemas(least, definitions);
    note_repeated_kinds_in(least, definitions);
    Ok(())
}

/// Types whose names stand before, or are built in.
fn note_repeated_types(
    alloc: Global,
    least: &mut Least,
    definitions: &[DefAt<'_>],
) -> Result<(), NoMemory>
    ensures { OnOk result (least.new.at ≡ least_from least.old.at (rules.repeats types.built_in_scalars (filter_map rules.type_name_of (map def_of definitions.now)))) }
{
    let names = type_names(alloc, definitions)?;
    let mut seen = built_in_scalars(alloc)?;
    note_repeats(least, &mut seen, &names)
}

/// The names of the scalars that every schema has (GraphQL, October 2021, section 3.5).
fn built_in_scalars<'a>(alloc: Global) -> Result<Seen<'a>, NoMemory>
    ensures { IfOk result (λ seen. Knows seen.names types.built_in_scalars) }
{
    let mut seen = Seen::new(alloc);
    seen.insert("ID")?;
    seen.insert("Boolean")?;
    seen.insert("String")?;
    seen.insert("Float")?;
    seen.insert("Int")?;
    Ok(seen)
}

/// Directives whose names stand before.
fn note_repeated_directives(
    alloc: Global,
    least: &mut Least,
    definitions: &[DefAt<'_>],
) -> Result<(), NoMemory>
    ensures { OnOk result (least.new.at ≡ least_from least.old.at (rules.repeated_names (filter_map rules.directive_name_of (map def_of definitions.now)))) }
{
    let names = directive_names(alloc, definitions)?;
    note_repeated(alloc, least, &names)
}

/// The names of the types that are defined.
fn type_names<'a>(alloc: Global, definitions: &[DefAt<'a>]) -> Result<Vec<NameAt<'a>>, NoMemory>
    ensures { IfOk result (λ ns. map name_of ns.items ≡ filter_map rules.type_name_of (map def_of definitions.now)) }
{
    let mut names = Vec::new(alloc);
    'definitions: for definition in definitions {
        if let Some(name) = definition.type_name() {
            names.push(name)?;
        }
    }
    Ok(names)
}

/// The names of the directives that are defined.
fn directive_names<'a>(
    alloc: Global,
    definitions: &[DefAt<'a>],
) -> Result<Vec<NameAt<'a>>, NoMemory>
    ensures { IfOk result (λ ns. map name_of ns.items ≡ filter_map rules.directive_name_of (map def_of definitions.now)) }
{
    let mut names = Vec::new(alloc);
    'definitions: for definition in definitions {
        if let Some(name) = definition.directive_name() {
            names.push(name)?;
        }
    }
    Ok(names)
}

/// Definitions of the schema itself after the first one.
fn note_further_schemas(least: &mut Least, definitions: &[DefAt<'_>])
    ensures { least.new.at ≡ least_from least.old.at (rules.further_schemas false (map def_of definitions.now)) }
{
    let mut seen = false;
    'definitions: for definition in definitions {
        note_further_schema(least, &mut seen, definition);
    }
}

/// A definition of the schema itself, where one is seen already.
fn note_further_schema(least: &mut Least, seen: &mut bool, definition: &DefAt<'_>)
    ensures { (ds : List located.DefAt) → least_from least.new.at (rules.further_schemas seen.new ds)
        ≡ least_from least.old.at (rules.further_schemas seen.old (def_of definition.now ∷ ds)) }
{
    match definition {
        DefAt::Schema { at, .. } => {
            least.note_if(*seen, *at);
            *seen = true;
        }
        DefAt::Scalar { .. } => {}
        DefAt::Object { .. } => {}
        DefAt::Interface { .. } => {}
        DefAt::Union { .. } => {}
        DefAt::Enum { .. } => {}
        DefAt::Input { .. } => {}
        DefAt::Directive { .. } => {}
    }
}

/// Kinds of operations.
#[derive(Clone, Copy, Debug)]
struct Kinds {
    query: bool,
    mutation: bool,
    subscription: bool,
}

impl Kinds {
    /// Puts a kind, and says whether it was there.
    fn put(&mut self, kind: Kind) -> bool
        ensures had { (before : List Kind) → KnowsKinds self.old before → result ≡ rules.has_kind before kind }
        ensures known { (before : List Kind) → KnowsKinds self.old before → KnowsKinds self.new (kind ∷ before) }
    {
        match kind {
            Kind::Query => {
                let had = self.query;
                self.query = true;
                had
            }
            Kind::Mutation => {
                let had = self.mutation;
                self.mutation = true;
                had
            }
            Kind::Subscription => {
                let had = self.subscription;
                self.subscription = true;
                had
            }
        }
    }
}

/// Kinds that stand twice in definitions of the schema itself.
#[tactic(auto, using(gql_graph::proofs::LeastSteps::noting))]
fn note_repeated_kinds_in(least: &mut Least, definitions: &[DefAt<'_>])
    ensures { least.new.at ≡ least_from least.old.at (rules.each (λ d. rules.repeated_kinds [] (rules.roots_in d)) (map def_of definitions.now)) }
{
    'definitions: for definition in definitions {
        note_repeated_kinds(least, definition);
    }
}

/// Kinds that stand twice in a definition of the schema itself.
fn note_repeated_kinds(least: &mut Least, definition: &DefAt<'_>)
    ensures { least.new.at ≡ least_from least.old.at (rules.repeated_kinds [] (rules.roots_in (def_of definition.now))) }
{
    note_repeated_among(least, definition.roots());
}

/// Kinds that stand twice.
fn note_repeated_among(least: &mut Least, roots: &[RootAt<'_>])
    ensures { least.new.at ≡ least_from least.old.at (rules.repeated_kinds [] (map root_of roots.now)) }
{
    let mut kinds = Kinds {
        query: false,
        mutation: false,
        subscription: false,
    };
    'roots: for root in roots {
        let had = kinds.put(root.kind);
        least.note_if(had, root.name.at);
    }
}

/// S3: there is a query root; root types are object types and differ (GraphQL, October 2021, section
/// 3.3.1). Where no definition of the schema itself gives them, they are the types named Query,
/// Mutation and Subscription.
pub(crate) fn root_types_wrong(
    alloc: Global,
    tables: &Tables,
    least: &mut Least,
    definitions: &[DefAt<'_>],
) -> Result<(), NoMemory>
    ensures { OnOk result (least.new.at ≡ least_from least.old.at (rules.root_types_wrong tables.now (map def_of definitions.now))) }
{
    match roots_given(definitions) {
        Some(roots) => note_roots(alloc, tables, least, roots),
        None => note_default_roots(alloc, tables, least, definitions),
    }
}

/// The roots that the first definition of the schema itself gives.
fn roots_given<'d, 'a>(definitions: &'d [DefAt<'a>]) -> Option<&'d [RootAt<'a>]>
    ensures { MatchOption result (rules.roots_given (map def_of definitions.now) ≡ None) (λ rs. rules.roots_given (map def_of definitions.now) ≡ Some (map root_of rs.now)) }
{
    'definitions: for definition in definitions {
        if let Some(roots) = roots_of(definition) {
            return Some(roots);
        }
    }
    None
}

/// The roots that a definition of the schema itself gives.
fn roots_of<'d, 'a>(definition: &'d DefAt<'a>) -> Option<&'d [RootAt<'a>]>
    ensures { (ds : List located.DefAt) → MatchOption result (rules.roots_given (def_of definition.now ∷ ds) ≡ rules.roots_given ds)
        (λ rs. rules.roots_given (def_of definition.now ∷ ds) ≡ Some (map root_of rs.now)) }
{
    match definition {
        DefAt::Schema { roots, .. } => Some(roots),
        DefAt::Scalar { .. } => None,
        DefAt::Object { .. } => None,
        DefAt::Interface { .. } => None,
        DefAt::Union { .. } => None,
        DefAt::Enum { .. } => None,
        DefAt::Input { .. } => None,
        DefAt::Directive { .. } => None,
    }
}

/// What is wrong with the roots that are given.
#[tactic(auto, using(gql_graph::proofs::LeastSteps::noting))]
fn note_roots(
    alloc: Global,
    tables: &Tables,
    least: &mut Least,
    roots: &[RootAt<'_>],
) -> Result<(), NoMemory>
    ensures { OnOk result (least.new.at ≡ least_from least.old.at (rules.roots_wrong tables.now (map root_of roots.now))) }
{
    let names = root_names(alloc, roots)?;
    least.note_if(!gives_query(roots), 0);
    note_not_objects(tables, least, &names);
    note_repeated(alloc, least, &names)
}

/// The names of root types.
fn root_names<'a>(alloc: Global, roots: &[RootAt<'a>]) -> Result<Vec<NameAt<'a>>, NoMemory>
    ensures { IfOk result (λ ns. map name_of ns.items ≡ rules.root_names (map root_of roots.now)) }
{
    let mut names = Vec::new(alloc);
    'roots: for root in roots {
        names.push(root.name)?;
    }
    Ok(names)
}

/// Whether there is a root of queries.
fn gives_query(roots: &[RootAt<'_>]) -> bool
    ensures { result ≡ rules.gives_query (map root_of roots.now) }
{
    'roots: for root in roots {
        if is_query(root.kind) {
            return true;
        }
    }
    false
}

/// Whether a kind is that of queries.
fn is_query(kind: Kind) -> bool
    ensures { result ≡ types.same_kind kind Query }
{
    match kind {
        Kind::Query => true,
        Kind::Mutation => false,
        Kind::Subscription => false,
    }
}

/// What is wrong with the types that have the names of roots.
#[tactic(auto, using(gql_graph::proofs::LeastSteps::noting))]
fn note_default_roots(
    alloc: Global,
    tables: &Tables,
    least: &mut Least,
    definitions: &[DefAt<'_>],
) -> Result<(), NoMemory>
    ensures { OnOk result (least.new.at ≡ least_from least.old.at (rules.default_roots_wrong tables.now (map def_of definitions.now))) }
{
    let names = type_names(alloc, definitions)?;
    least.note_if(!is_defined(tables, "Query"), 0);
    note_wrong_roots(tables, least, &names);
    Ok(())
}

/// Whether the schema defines a type.
fn is_defined(tables: &Tables, name: &str) -> bool
    ensures { result ≡ is_some (types.type_named tables.now name.now) }
{
    tables.definition(name).is_some()
}

/// Types that have the name of a root and are none of objects.
#[tactic(auto, using(gql_graph::proofs::LeastSteps::noting))]
fn note_wrong_roots(tables: &Tables, least: &mut Least, names: &[NameAt<'_>])
    ensures { least.new.at ≡ least_from least.old.at (rules.each (rules.default_root_wrong tables.now) (map name_of names.now)) }
{
    'names: for name in names {
        least.note_if(is_wrong_root(tables, name.name), name.at);
    }
}

/// Whether a type has the name of a root and is none of objects.
fn is_wrong_root(tables: &Tables, name: &str) -> bool
    ensures { result ≡ (rules.is_default_root name.now && not (rules.is_object tables.now name.now)) }
{
    is_default_root(name) && !is_object(tables, name)
}

/// Whether a name is that of a root where no definition of the schema itself gives them.
fn is_default_root(name: &str) -> bool
    ensures { result ≡ rules.is_default_root name.now }
{
    if "Query" == name {
        return true;
    }
    if "Mutation" == name {
        return true;
    }
    "Subscription" == name
}
