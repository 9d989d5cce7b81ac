//! Whether a type names every interface that its interfaces implement (GraphQL, October 2021, section
//! 3.6).
//!
//! A type is closed where it does. Closed types are found from those of few interfaces to those of
//! many. Once a closed interface of a type is looked at, what it implements need not be: each of that
//! names only interfaces that the closed one names too.
ghost use Rattle.std.specs.Prelude.{◌≡◌, Bool, false, not, map, List, IfOk, OnOk, IsTrue};
ghost use Rattle.std.specs.List.{list_any};
ghost use Rattle.gql_graph.specs.gql_plain.Order.{has_text};
ghost use Rattle.gql_graph.specs.Seen.{Knows};
ghost use Rattle.schema_trees.specs.LocatedView.{name_of};
ghost use Rattle.schema_rules.specs.Inherited.{HasNone, is_open};
ghost use Rattle.schema_rules.specs.Rules as rules;
ghost use Rattle.schema_trees.specs.schema_tables.Types as types;

use gql_graph::gql_plain::{Name, NoMemory};
use gql_graph::seen::Seen;
use schema_trees::located::{DefAt, NameAt};
use schema_trees::repeats::seen_names;
use schema_trees::schema_tables::tables::Tables;
use std::alloc::Global;

/// So many interfaces of an interface are looked at again for each type that implements it.
const FEW: usize = 8;

/// Types that leave out no interface that one of their own implements: those among these definitions
/// that implement more than a few.
pub(crate) fn closed_types<'a>(
    alloc: Global,
    tables: &'a Tables,
    definitions: &[DefAt<'a>],
) -> Result<Seen<'a>, NoMemory>
    ensures { IfOk result (λ closed. HasNone closed.names (is_open tables.now)) }
{
    let mut closed = Seen::new(alloc);
    'ranked: for (_count, at) in &ranked_definitions(alloc, definitions)? {
        if let Some(definition) = definitions.get(*at) {
            put_definition(alloc, tables, &mut closed, definition)?;
        }
    }
    Ok(closed)
}

/// The numbers of the definitions that implement more than a few interfaces, from few to many.
/// Nothing is promised of it: `closed_types` looks at each.
fn ranked_definitions(
    alloc: Global,
    definitions: &[DefAt<'_>],
) -> Result<Vec<(usize, usize)>, NoMemory> {
    let mut ranked = Vec::new(alloc);
    'definitions: for (at, definition) in definitions.iter().enumerate() {
        let count = definition.interfaces().len();
        if count > FEW {
            ranked.push((count, at))?;
        }
    }
    ranked.sort()?;
    Ok(ranked)
}

/// Puts the type that a definition defines, where it leaves nothing out.
fn put_definition<'a>(
    alloc: Global,
    tables: &'a Tables,
    closed: &mut Seen<'a>,
    definition: &DefAt<'a>,
) -> Result<(), NoMemory>
    requires { HasNone closed.old.names (is_open tables.now) }
    ensures { OnOk result (HasNone closed.new.names (is_open tables.now)) }
{
    match definition {
        DefAt::Object {
            name,
            interfaces,
            ..
        } => put_closed(alloc, tables, closed, name.name, interfaces),
        DefAt::Interface {
            name,
            interfaces,
            ..
        } => put_closed(alloc, tables, closed, name.name, interfaces),
        DefAt::Schema { .. } => Ok(()),
        DefAt::Scalar { .. } => Ok(()),
        DefAt::Union { .. } => Ok(()),
        DefAt::Enum { .. } => Ok(()),
        DefAt::Input { .. } => Ok(()),
        DefAt::Directive { .. } => Ok(()),
    }
}

/// Puts a type, where it implements these interfaces and leaves nothing out.
fn put_closed<'a>(
    alloc: Global,
    tables: &'a Tables,
    closed: &mut Seen<'a>,
    name: &'a str,
    interfaces: &[NameAt<'a>],
) -> Result<(), NoMemory>
    requires { HasNone closed.old.names (is_open tables.now) }
    ensures { OnOk result (HasNone closed.new.names (is_open tables.now)) }
{
    if !are_same(interfaces, tables.interfaces(name)) {
        return Ok(());
    }
    if leave_out(alloc, tables, closed, interfaces)? {
        return Ok(());
    }
    put(closed, name)
}

/// Whether names with places are these names.
fn are_same(names: &[NameAt<'_>], others: &[Name]) -> bool
    ensures { IsTrue result → rules.names_of (map name_of names.now) ≡ others.now }
{
    if names.len() != others.len() {
        return false;
    }
    let mut at = 0;
    'names: for name in names {
        if name.name != others[at].as_str() {
            return false;
        }
        at += 1;
    }
    true
}

/// Whether an interface that one of these implements is not among them.
pub(crate) fn leave_out<'a>(
    alloc: Global,
    tables: &'a Tables,
    closed: &Seen<'_>,
    interfaces: &[NameAt<'a>],
) -> Result<bool, NoMemory>
    requires { HasNone closed.now.names (is_open tables.now) }
    ensures { IfOk result (λ b. b ≡ list_any (rules.leaves_out tables.now (rules.names_of (map name_of interfaces.now))) (rules.names_of (map name_of interfaces.now))) }
{
    let named = seen_names(alloc, interfaces)?;
    let covered = covered_types(alloc, tables, closed, &named, interfaces)?;
    Ok(one_leaves_out(tables, &named, &covered, interfaces))
}

/// Types that implement only interfaces that are named: closed ones among these, and all that such
/// a one implements.
fn covered_types<'a>(
    alloc: Global,
    tables: &'a Tables,
    closed: &Seen<'_>,
    named: &Seen<'_>,
    interfaces: &[NameAt<'a>],
) -> Result<Seen<'a>, NoMemory>
    requires { HasNone closed.now.names (is_open tables.now) }
    ensures { (ns : List types.Text) → Knows named.now.names ns → IfOk result (λ covered. HasNone covered.names (rules.leaves_out tables.now ns)) }
{
    let mut covered = Seen::new(alloc);
    'ranked: for (_count, name) in ranked_names(alloc, tables, interfaces)?.iter().rev() {
        cover(tables, closed, named, &mut covered, name)?;
    }
    Ok(covered)
}

/// The names of the types that implement more than a few interfaces, from few to many. Nothing is
/// promised of it: `covered_types` looks at each.
fn ranked_names<'a>(
    alloc: Global,
    tables: &Tables,
    interfaces: &[NameAt<'a>],
) -> Result<Vec<(usize, &'a str)>, NoMemory> {
    let mut ranked = Vec::new(alloc);
    'interfaces: for interface in interfaces {
        let count = tables.interfaces(interface.name).len();
        if count > FEW {
            ranked.push((count, interface.name))?;
        }
    }
    ranked.sort()?;
    Ok(ranked)
}

/// Puts a closed type with all that it implements, where all that is named.
fn cover<'a>(
    tables: &'a Tables,
    closed: &Seen<'_>,
    named: &Seen<'_>,
    covered: &mut Seen<'a>,
    name: &'a str,
) -> Result<(), NoMemory>
    requires { HasNone closed.now.names (is_open tables.now) }
    ensures { (ns : List types.Text) → Knows named.now.names ns → HasNone covered.old.names (rules.leaves_out tables.now ns) → OnOk result (HasNone covered.new.names (rules.leaves_out tables.now ns)) }
{
    if covered.contains(name) {
        return Ok(());
    }
    if !closed.contains(name) {
        return Ok(());
    }
    let interfaces = tables.interfaces(name);
    if lacks_any(named, interfaces) {
        return Ok(());
    }
    put(covered, name)?;
    put_all(covered, interfaces)
}

/// Puts a name.
fn put<'a>(seen: &mut Seen<'a>, name: &'a str) -> Result<(), NoMemory>
    ensures { (such : types.Text → Bool) → HasNone seen.old.names such → such name.now ≡ false → OnOk result (HasNone seen.new.names such) }
{
    let _is_new = seen.insert(name)?;
    Ok(())
}

/// Puts all names.
fn put_all<'a>(seen: &mut Seen<'a>, names: &'a [Name]) -> Result<(), NoMemory>
    ensures { (such : types.Text → Bool) → HasNone seen.old.names such → list_any such names.now ≡ false → OnOk result (HasNone seen.new.names such) }
{
    'names: for name in names {
        put(seen, name.as_str())?;
    }
    Ok(())
}

/// Whether one of these implements an interface that is not named.
fn one_leaves_out(
    tables: &Tables,
    named: &Seen<'_>,
    covered: &Seen<'_>,
    interfaces: &[NameAt<'_>],
) -> bool
    ensures { (ns : List types.Text) → Knows named.now.names ns → HasNone covered.now.names (rules.leaves_out tables.now ns) → result ≡ list_any (rules.leaves_out tables.now ns) (rules.names_of (map name_of interfaces.now)) }
{
    'interfaces: for interface in interfaces {
        if leaves_out(tables, named, covered, interface.name) {
            return true;
        }
    }
    false
}

/// Whether a type implements an interface that is not named. One that is covered does not.
fn leaves_out(tables: &Tables, named: &Seen<'_>, covered: &Seen<'_>, name: &str) -> bool
    ensures { (ns : List types.Text) → Knows named.now.names ns → HasNone covered.now.names (rules.leaves_out tables.now ns) → result ≡ rules.leaves_out tables.now ns name.now }
{
    if covered.contains(name) {
        return false;
    }
    lacks_any(named, tables.interfaces(name))
}

/// Whether one of the names is none of the set.
fn lacks_any(named: &Seen<'_>, names: &[Name]) -> bool
    ensures { (ns : List types.Text) → Knows named.now.names ns → result ≡ list_any (λ one. not (has_text ns one)) names.now }
{
    'names: for name in names {
        if !named.contains(name.as_str()) {
            return true;
        }
    }
    false
}
