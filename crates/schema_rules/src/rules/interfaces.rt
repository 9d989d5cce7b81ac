//! S7, implemented interfaces (GraphQL, October 2021, section 3.6): what is implemented is an
//! interface, not the type itself, and each interface that it implements is named too.
//! `type A implements B { x: Int }` breaks it at `B`, where B is an object type.
ghost use Rattle.std.specs.Prelude.{◌≡◌, [], ◌∷◌, ◌++◌, ◌||◌, not, map, List, OnOk};
ghost use Rattle.std.specs.Str.{bytes_eq};
ghost use Rattle.gql_graph.specs.Leasts.{least_from};
ghost use Rattle.schema_trees.specs.Located as located;
ghost use Rattle.schema_trees.specs.LocatedView.{name_of, def_of};
ghost use Rattle.schema_rules.specs.Inherited.{HasNone, is_open};
ghost use Rattle.schema_rules.specs.Rules as rules;
ghost use Rattle.schema_trees.specs.schema_tables.Types as types;

use crate::rules::inherited::{closed_types, leave_out};
use gql_graph::gql_plain::NoMemory;
use gql_graph::least::Least;
use gql_graph::seen::Seen;
use schema_trees::located::{DefAt, NameAt};
use schema_trees::schema_tables::kind::TypeKind;
use schema_trees::schema_tables::tables::Tables;
use std::alloc::Global;

/// S7: what is implemented is an interface, not the type itself, and every interface that it
/// implements is named too (GraphQL, October 2021, sections 3.6 and 3.7).
pub(crate) fn interfaces_wrong(
    alloc: Global,
    tables: &Tables,
    least: &mut Least,
    definitions: &[DefAt<'_>],
) -> Result<(), NoMemory>
    ensures { OnOk result (least.new.at ≡ least_from least.old.at (rules.interfaces_wrong tables.now (map def_of definitions.now))) }
{
    let closed = closed_types(alloc, tables, definitions)?;
    'definitions: for definition in definitions {
        note_implements_in(alloc, tables, &closed, least, definition)?;
    }
    Ok(())
}

/// What is wrong with the interfaces of a definition.
fn note_implements_in(
    alloc: Global,
    tables: &Tables,
    closed: &Seen<'_>,
    least: &mut Least,
    definition: &DefAt<'_>,
) -> Result<(), NoMemory>
    requires { HasNone closed.now.names (is_open tables.now) }
    ensures { OnOk result (least.new.at ≡ least_from least.old.at (rules.implements_wrong_in tables.now (def_of definition.now))) }
{
    match definition {
        DefAt::Object {
            name,
            interfaces,
            ..
        } => note_implements(alloc, tables, closed, least, name, interfaces),
        DefAt::Interface {
            name,
            interfaces,
            ..
        } => note_implements(alloc, tables, closed, least, name, interfaces),
        DefAt::Schema { .. } => Ok(()),
        DefAt::Scalar { .. } => Ok(()),
        DefAt::Union { .. } => Ok(()),
        DefAt::Enum { .. } => Ok(()),
        DefAt::Input { .. } => Ok(()),
        DefAt::Directive { .. } => Ok(()),
    }
}

/// What is wrong with the interfaces that a type implements.
#[tactic(auto, using(gql_graph::proofs::LeastSteps::noting))]
fn note_implements(
    alloc: Global,
    tables: &Tables,
    closed: &Seen<'_>,
    least: &mut Least,
    name: &NameAt<'_>,
    interfaces: &[NameAt<'_>],
) -> Result<(), NoMemory>
    requires { HasNone closed.now.names (is_open tables.now) }
    ensures { OnOk result (least.new.at ≡ least_from least.old.at (rules.implements_wrong tables.now (name_of name.now) (map name_of interfaces.now))) }
{
    note_cannot_implement(tables, least, name.name, interfaces);
    let leaves_out = leave_out(alloc, tables, closed, interfaces)?;
    least.note_if(leaves_out, name.at);
    Ok(())
}

/// Names that a type cannot implement.
#[tactic(auto, using(gql_graph::proofs::LeastSteps::noting))]
fn note_cannot_implement(tables: &Tables, least: &mut Least, name: &str, interfaces: &[NameAt<'_>])
    ensures { least.new.at ≡ least_from least.old.at (rules.each (rules.cannot_implement tables.now name.now) (map name_of interfaces.now)) }
{
    'interfaces: for interface in interfaces {
        least.note_if(cannot_implement(tables, name, interface.name), interface.at);
    }
}

/// Whether a type cannot implement what has this name.
fn cannot_implement(tables: &Tables, name: &str, interface: &str) -> bool
    ensures { result ≡ (not (rules.is_interface tables.now interface.now) || bytes_eq interface.now name.now) }
{
    !is_interface(tables, interface) || interface == name
}

/// Whether a type is an interface.
pub(crate) fn is_interface(tables: &Tables, name: &str) -> bool
    ensures { result ≡ rules.is_interface tables.now name.now }
{
    match tables.kind_of(name) {
        Some(kind) => is_interface_kind(kind),
        None => false,
    }
}

/// Whether a kind is that of interfaces.
fn is_interface_kind(kind: TypeKind) -> bool
    ensures { result ≡ types.is_interface_kind kind }
{
    match kind {
        TypeKind::Interface => true,
        TypeKind::Scalar | TypeKind::Object | TypeKind::Union => false,
        TypeKind::Enum | TypeKind::Input => false,
    }
}
