//! S2, known types (GraphQL, October 2021, section 3.4): every type name that is used is defined or
//! built in. `type Query { me: Usr }` breaks it at `Usr`.
//!
//! S6, input and output types (sections 3.6 and 3.10): fields have output types; arguments and
//! input fields have input types. `input I { of: Query }` breaks it at `Query`.
//!
//! S12, lists of lists (this project's own): no field has a composite type inside more than one
//! list. `type Query { rows: [[Query]] }` breaks it at the `Query` of the type.
ghost use Rattle.std.specs.Prelude.{◌≡◌, ◌++◌, map, OnOk, nat_lt, is_some, ◌&&◌};
ghost use Rattle.schema_trees.specs.gql_ast.TypeView.{ty_of};
ghost use Rattle.gql_graph.specs.Leasts.{least_from};
ghost use Rattle.schema_trees.specs.LocatedView.{name_of, input_of, field_of, root_of, type_of, def_of};
ghost use Rattle.schema_rules.specs.Rules as rules;
ghost use Rattle.schema_trees.specs.schema_tables.Types as types;

use gql_graph::gql_plain::NoMemory;
use gql_graph::least::Least;
use schema_trees::gql_ast::TypeTree;
use schema_trees::located::{DefAt, FieldAt, InputAt, NameAt, RootAt};
use schema_trees::schema_tables::kind::TypeKind;
use schema_trees::schema_tables::tables::Tables;
use schema_trees::schema_tables::type_forms::base_of;
use std::alloc::Global;

/// S2: every type name that is used is defined or built in (GraphQL, October 2021, section 3.4).
pub(crate) fn types_not_defined(
    alloc: Global,
    tables: &Tables,
    least: &mut Least,
    definitions: &[DefAt<'_>],
) -> Result<(), NoMemory>
    ensures { OnOk result (least.new.at ≡ least_from least.old.at (rules.types_not_defined tables.now (map def_of definitions.now))) }
{
    'definitions: for definition in definitions {
        note_undefined_in(alloc, tables, least, definition)?;
    }
    Ok(())
}

/// The names in a definition that are not defined.
#[tactic(auto, using(gql_graph::proofs::LeastSteps::each_noting))]
fn note_undefined_in(
    alloc: Global,
    tables: &Tables,
    least: &mut Least,
    definition: &DefAt<'_>,
) -> Result<(), NoMemory>
    ensures { OnOk result (least.new.at ≡ least_from least.old.at (rules.each (rules.not_defined tables.now) (rules.used_in (def_of definition.now)))) }
{
    note_undefined_names_in(tables, least, definition);
    note_undefined_fields_in(tables, least, definition);
    note_undefined_inputs_in(alloc, tables, least, definition)
}

/// The names in a definition that stand alone and are not defined.
#[tactic(auto, using(gql_graph::proofs::LeastSteps::each_noting))]
fn note_undefined_names_in(tables: &Tables, least: &mut Least, definition: &DefAt<'_>)
    ensures { least.new.at ≡ least_from least.old.at (rules.each (rules.not_defined tables.now)
        (rules.root_names (rules.roots_in (def_of definition.now)) ++ rules.interfaces_in (def_of definition.now) ++ rules.union_members_in (def_of definition.now))) }
{
    note_undefined_roots(tables, least, definition.roots());
    note_undefined(tables, least, definition.interfaces());
    note_undefined(tables, least, definition.union_members());
}

/// Whether a type is defined or built in.
fn is_defined(tables: &Tables, name: &str) -> bool
    ensures { result ≡ is_some (types.kind_of tables.now name.now) }
{
    tables.kind_of(name).is_some()
}

/// Names that are not defined.
#[tactic(auto, using(gql_graph::proofs::LeastSteps::noting))]
fn note_undefined(tables: &Tables, least: &mut Least, names: &[NameAt<'_>])
    ensures { least.new.at ≡ least_from least.old.at (rules.each (rules.not_defined tables.now) (map name_of names.now)) }
{
    'names: for name in names {
        least.note_if(!is_defined(tables, name.name), name.at);
    }
}

/// Root types that are not defined.
#[tactic(auto, using(gql_graph::proofs::LeastSteps::noting))]
fn note_undefined_roots(tables: &Tables, least: &mut Least, roots: &[RootAt<'_>])
    ensures { least.new.at ≡ least_from least.old.at (rules.each (rules.not_defined tables.now) (rules.root_names (map root_of roots.now))) }
{
    'roots: for root in roots {
        least.note_if(!is_defined(tables, root.name.name), root.name.at);
    }
}

/// Types of fields that are not defined.
#[tactic(auto, using(gql_graph::proofs::LeastSteps::noting))]
fn note_undefined_fields(tables: &Tables, least: &mut Least, fields: &[FieldAt<'_>])
    ensures { least.new.at ≡ least_from least.old.at (rules.each (rules.not_defined tables.now) (map (λ f. rules.named_at f.of) (map field_of fields.now))) }
{
    'fields: for field in fields {
        least.note_if(!is_defined(tables, base_of(field.of.of)), field.of.at);
    }
}

/// Types of the fields of a definition that are not defined.
fn note_undefined_fields_in(tables: &Tables, least: &mut Least, definition: &DefAt<'_>)
    ensures { least.new.at ≡ least_from least.old.at (rules.each (rules.not_defined tables.now) (map (λ f. rules.named_at f.of) (rules.fields_in (def_of definition.now)))) }
{
    note_undefined_fields(tables, least, definition.fields());
}

/// Types of the arguments or input fields of a definition that are not defined.
fn note_undefined_inputs_in(
    alloc: Global,
    tables: &Tables,
    least: &mut Least,
    definition: &DefAt<'_>,
) -> Result<(), NoMemory>
    ensures { OnOk result (least.new.at ≡ least_from least.old.at (rules.each (rules.not_defined tables.now) (map (λ i. rules.named_at i.of) (rules.inputs_in (def_of definition.now))))) }
{
    let inputs = definition.inputs(alloc)?;
    note_undefined_inputs(tables, least, &inputs);
    Ok(())
}

/// Types of arguments or input fields that are not defined.
#[tactic(auto, using(gql_graph::proofs::LeastSteps::noting))]
fn note_undefined_inputs(tables: &Tables, least: &mut Least, inputs: &[InputAt<'_>])
    ensures { least.new.at ≡ least_from least.old.at (rules.each (rules.not_defined tables.now) (map (λ i. rules.named_at i.of) (map input_of inputs.now))) }
{
    'inputs: for input in inputs {
        least.note_if(!is_defined(tables, base_of(input.of.of)), input.of.at);
    }
}

/// S6: fields have output types; arguments and input fields have input types (GraphQL, October 2021,
/// section 3.4.2).
#[tactic(auto, using(gql_graph::proofs::LeastSteps::noting))]
pub(crate) fn kinds_wrong(
    alloc: Global,
    tables: &Tables,
    least: &mut Least,
    definitions: &[DefAt<'_>],
) -> Result<(), NoMemory>
    ensures { OnOk result (least.new.at ≡ least_from least.old.at (rules.kinds_wrong tables.now (map def_of definitions.now))) }
{
    'definitions: for definition in definitions {
        note_kinds_in(alloc, tables, least, definition)?;
    }
    Ok(())
}

/// The types in a definition that are of the wrong kind.
#[tactic(auto, using(gql_graph::proofs::LeastSteps::each_noting))]
fn note_kinds_in(
    alloc: Global,
    tables: &Tables,
    least: &mut Least,
    definition: &DefAt<'_>,
) -> Result<(), NoMemory>
    ensures { OnOk result (least.new.at ≡ least_from least.old.at (rules.kinds_wrong_in tables.now (def_of definition.now))) }
{
    note_not_output(tables, least, definition.fields());
    let inputs = definition.inputs(alloc)?;
    note_not_input(tables, least, &inputs);
    Ok(())
}

/// Whether a type is one of outputs.
fn is_output(tables: &Tables, of: &TypeTree) -> bool
    ensures { result ≡ types.is_kind types.is_output_kind (types.kind_of tables.now (types.base_of (ty_of of.now))) }
{
    match tables.kind_of(base_of(of)) {
        Some(kind) => is_output_kind(kind),
        None => false,
    }
}

/// Whether a type is one of inputs.
fn is_input(tables: &Tables, of: &TypeTree) -> bool
    ensures { result ≡ types.is_kind types.is_input_kind (types.kind_of tables.now (types.base_of (ty_of of.now))) }
{
    match tables.kind_of(base_of(of)) {
        Some(kind) => is_input_kind(kind),
        None => false,
    }
}

/// Whether a kind is one of outputs.
fn is_output_kind(kind: TypeKind) -> bool
    ensures { result ≡ types.is_output_kind kind }
{
    match kind {
        TypeKind::Input => false,
        TypeKind::Scalar | TypeKind::Object | TypeKind::Interface => true,
        TypeKind::Union | TypeKind::Enum => true,
    }
}

/// Whether a kind is one of inputs.
fn is_input_kind(kind: TypeKind) -> bool
    ensures { result ≡ types.is_input_kind kind }
{
    match kind {
        TypeKind::Scalar | TypeKind::Enum | TypeKind::Input => true,
        TypeKind::Object | TypeKind::Interface | TypeKind::Union => false,
    }
}

/// Fields whose types are none of outputs.
#[tactic(auto, using(gql_graph::proofs::LeastSteps::noting))]
fn note_not_output(tables: &Tables, least: &mut Least, fields: &[FieldAt<'_>])
    ensures { least.new.at ≡ least_from least.old.at (rules.each (λ f. rules.not_of types.is_output_kind tables.now f.of) (map field_of fields.now)) }
{
    'fields: for field in fields {
        least.note_if(!is_output(tables, field.of.of), field.of.at);
    }
}

/// Arguments or input fields whose types are none of inputs.
#[tactic(auto, using(gql_graph::proofs::LeastSteps::noting))]
fn note_not_input(tables: &Tables, least: &mut Least, inputs: &[InputAt<'_>])
    ensures { least.new.at ≡ least_from least.old.at (rules.each (λ i. rules.not_of types.is_input_kind tables.now i.of) (map input_of inputs.now)) }
{
    'inputs: for input in inputs {
        least.note_if(!is_input(tables, input.of.of), input.of.at);
    }
}

/// S12: no field has a composite type inside more than one list. This project's own.
#[tactic(auto, using(gql_graph::proofs::LeastSteps::noting))]
pub(crate) fn composites_in_lists(tables: &Tables, least: &mut Least, definitions: &[DefAt<'_>])
    ensures { least.new.at ≡ least_from least.old.at (rules.composites_in_lists tables.now (map def_of definitions.now)) }
{
    'definitions: for definition in definitions {
        note_in_lists(tables, least, definition.fields());
    }
}

/// Fields of a composite type inside more than one list.
#[tactic(auto, using(gql_graph::proofs::LeastSteps::noting))]
fn note_in_lists(tables: &Tables, least: &mut Least, fields: &[FieldAt<'_>])
    ensures { least.new.at ≡ least_from least.old.at (rules.each (rules.in_lists tables.now) (map field_of fields.now)) }
{
    'fields: for field in fields {
        least.note_if(is_composite_in_lists(tables, field.of.of), field.of.at);
    }
}

/// Whether a type is a composite one inside more than one list.
fn is_composite_in_lists(tables: &Tables, of: &TypeTree) -> bool
    ensures { result ≡ (nat_lt 1 (rules.list_depth (ty_of of.now)) && types.is_composite tables.now (types.base_of (ty_of of.now))) }
{
    has_lists(of) && tables.is_composite(base_of(of))
}

/// Whether a type has more than one list.
fn has_lists(of: &TypeTree) -> bool
    ensures { result ≡ nat_lt 1 (rules.list_depth (ty_of of.now)) }
{
    match of {
        TypeTree::Named(_) => false,
        TypeTree::List(inner) => has_list(inner.tree()),
        TypeTree::NonNull(inner) => has_lists(inner.tree()),
    }
}

/// Whether a type has a list.
fn has_list(of: &TypeTree) -> bool
    ensures { result ≡ nat_lt 0 (rules.list_depth (ty_of of.now)) }
{
    match of {
        TypeTree::Named(_) => false,
        TypeTree::List(_) => true,
        TypeTree::NonNull(inner) => has_list(inner.tree()),
    }
}
