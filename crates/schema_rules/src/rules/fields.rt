//! S8, interface fields (GraphQL, October 2021, section 3.6): a type has each field of its
//! interfaces, with the same type or a narrower one, each argument with the same type, and no
//! further required argument. `interface N { id: ID } type A implements N { x: Int }` breaks it at
//! `A`.
ghost use Rattle.std.specs.Prelude.{◌≡◌, ◌==◌, [], ◌∷◌, IsTrue, ◌&&◌, not, cond, map, length, count_by, bytes_eq, List, Some, None, IfOk, OnOk, option_map, option_and_then, option_copied, is_some};
ghost use Rattle.std.specs.List.{AllByRecursion, IsDistinct};
ghost use Rattle.std.specs.Option.{option_to_list};
ghost use Rattle.schema_trees.specs.gql_ast.declared.member.FieldTree.{FieldTree};
ghost use Rattle.schema_trees.specs.gql_ast.declared.member.InputTree.{InputTree};
ghost use Rattle.schema_trees.specs.gql_ast.TypeView.{ty_of};
ghost use Rattle.gql_graph.specs.Leasts.{least_from};
ghost use Rattle.schema_trees.specs.Located as located;
ghost use Rattle.schema_trees.specs.LocatedView.{name_of, input_of, input_text, field_of, field_text, def_of};
ghost use Rattle.schema_rules.specs.NamedAt.{field_place};
ghost use Rattle.schema_rules.specs.Rules as rules;
ghost use Rattle.schema_trees.specs.schema_tables.Indexes.{IsNameIndex, input_name};
ghost use Rattle.schema_trees.specs.schema_tables.Types as types;

use crate::rules::interfaces::is_interface;
use crate::rules::members::is_object;
use gql_graph::gql_plain::NoMemory;
use gql_graph::least::Least;
use schema_trees::gql_ast::{FieldTree, InputTree, TypeTree};
use schema_trees::located::{DefAt, FieldAt, InputAt, NameAt};
use schema_trees::schema_tables::definitions::TypeFields;
use schema_trees::schema_tables::index::Index;
use schema_trees::schema_tables::tables::Tables;
use schema_trees::schema_tables::type_forms::is_non_null;
use std::alloc::Global;

/// S8: a type has each field of its interfaces, of the same type or a narrower one; it has each
/// argument with the same type, and further arguments are not required (GraphQL, October 2021,
/// sections 3.6 and 3.7).
pub(crate) fn interfaces_not_implemented(
    alloc: Global,
    tables: &Tables,
    least: &mut Least,
    definitions: &[DefAt<'_>],
) -> Result<(), NoMemory>
    ensures { OnOk result (least.new.at ≡ least_from least.old.at (rules.interfaces_not_implemented tables.now (map def_of definitions.now))) }
{
    'definitions: for definition in definitions {
        note_not_implemented(alloc, tables, least, definition)?;
    }
    Ok(())
}

/// What a definition lacks of its interfaces.
fn note_not_implemented(
    alloc: Global,
    tables: &Tables,
    least: &mut Least,
    definition: &DefAt<'_>,
) -> Result<(), NoMemory>
    ensures { OnOk result (least.new.at ≡ least_from least.old.at (rules.not_implemented_in tables.now (def_of definition.now))) }
{
    match definition {
        DefAt::Object {
            name,
            interfaces,
            fields,
        } => note_lacks(alloc, tables, least, name, fields, interfaces),
        DefAt::Interface {
            name,
            interfaces,
            fields,
        } => note_lacks(alloc, tables, least, name, fields, interfaces),
        DefAt::Schema { .. } => Ok(()),
        DefAt::Scalar { .. } => Ok(()),
        DefAt::Union { .. } => Ok(()),
        DefAt::Enum { .. } => Ok(()),
        DefAt::Input { .. } => Ok(()),
        DefAt::Directive { .. } => Ok(()),
    }
}

/// What a type lacks of the interfaces that it implements.
fn note_lacks(
    alloc: Global,
    tables: &Tables,
    least: &mut Least,
    name: &NameAt<'_>,
    fields: &[FieldAt<'_>],
    interfaces: &[NameAt<'_>],
) -> Result<(), NoMemory>
    ensures { OnOk result (least.new.at ≡ least_from least.old.at (rules.each (rules.lacks_of_interface tables.now (name_of name.now) (map field_of fields.now)) (map name_of interfaces.now))) }
{
    let places = Index::new(alloc, fields)?;
    'interfaces: for interface in interfaces {
        note_interface(alloc, tables, least, name, fields, &places, interface.name)?;
    }
    Ok(())
}

/// What a type lacks of an interface. It is looked up by the names of the type's fields, where those
/// of the interface differ, and else by the interface's.
fn note_interface(
    alloc: Global,
    tables: &Tables,
    least: &mut Least,
    name: &NameAt<'_>,
    fields: &[FieldAt<'_>],
    places: &Index,
    interface: &str,
) -> Result<(), NoMemory>
    requires { IsNameIndex field_text fields.now places.now }
    ensures { OnOk result (least.new.at ≡ least_from least.old.at (rules.each (λ w. rules.field_differs tables.now name.now.at (rules.field_found (map field_of fields.now) w.name) w) (types.fields_named (types.type_named tables.now interface.now)))) }
{
    let wanted = tables.fields(interface);
    if wanted.differ() {
        note_by_name(alloc, tables, least, name, fields, places, &wanted)
    } else {
        note_differences(alloc, tables, least, name, fields, places, wanted.items())
    }
}

/// What a type lacks of an interface whose fields have names that differ. Takes a look-up for each
/// field of the type, however many the interface has.
fn note_by_name(
    alloc: Global,
    tables: &Tables,
    least: &mut Least,
    name: &NameAt<'_>,
    fields: &[FieldAt<'_>],
    places: &Index,
    wanted: &TypeFields<'_>,
) -> Result<(), NoMemory>
    requires places { IsNameIndex field_text fields.now places.now }
    requires distinct { IsDistinct bytes_eq (map (λ (w : FieldTree). w.name) wanted.now) }
    ensures { OnOk result (least.new.at ≡ least_from least.old.at (rules.each (λ w. rules.field_differs tables.now name.now.at (rules.field_found (map field_of fields.now) w.name) w) wanted.now)) }
{
    let found = note_found(alloc, tables, least, fields, places, wanted)?;
    least.note_if(found < wanted.items().len(), name.at);
    Ok(())
}

/// What the fields of a type differ in from those of an interface, of the fields that both have, and
/// how many fields of the interface the type has.
fn note_found(
    alloc: Global,
    tables: &Tables,
    least: &mut Least,
    fields: &[FieldAt<'_>],
    places: &Index,
    wanted: &TypeFields<'_>,
) -> Result<usize, NoMemory>
    requires places { IsNameIndex field_text fields.now places.now }
    requires distinct { IsDistinct bytes_eq (map (λ (w : FieldTree). w.name) wanted.now) }
    ensures places { OnOk result (least.new.at ≡ least_from least.old.at (rules.each (λ w. rules.each (λ f. rules.field_differs tables.now 0 (Some f) w) (option_to_list (rules.field_found (map field_of fields.now) w.name))) wanted.now)) }
    ensures count { IfOk result (λ found. found ≡ count_by (λ (w : FieldTree). is_some (rules.field_found (map field_of fields.now) w.name)) wanted.now) }
{
    let mut found = 0;
    let mut at = 0;
    'fields: for field in fields {
        let due = wanted_once(fields, places, at, field.name.name, wanted);
        let count = note_pair(alloc, tables, least, field, due)?;
        found += count;
        at += 1;
    }
    Ok(found)
}

/// The field of an interface of this name, unless the type has a field of the name before this place.
#[tactic(auto, using(crate::proofs::FoundAt::named_places))]
fn wanted_once<'t>(
    fields: &[FieldAt<'_>],
    places: &Index,
    at: usize,
    name: &str,
    wanted: &TypeFields<'t>,
) -> Option<&'t FieldTree>
    requires { IsNameIndex field_text fields.now places.now }
    ensures { option_copied result ≡ option_and_then (λ first. cond (first == at) (types.field_named wanted.now name.now) None) (field_place (map field_of fields.now) name.now) }
{
    match places.find(fields, name) {
        Some(first) => { if first == at { wanted.find(name) } else { None } }
        None => None,
    }
}

/// What a field differs in from that of an interface, where there is one, and how many there are.
fn note_pair(
    alloc: Global,
    tables: &Tables,
    least: &mut Least,
    field: &FieldAt<'_>,
    wanted: Option<&FieldTree>,
) -> Result<usize, NoMemory>
    ensures places { OnOk result (least.new.at ≡ least_from least.old.at (rules.each (rules.field_differs tables.now 0 (Some (field_of field.now))) (option_to_list (option_copied wanted.entry)))) }
    ensures count { IfOk result (λ count. count ≡ length (option_to_list (option_copied wanted.entry))) }
{
    match wanted {
        Some(one) => {
            note_field(alloc, tables, least, field, one)?;
            Ok(1)
        }
        None => Ok(0),
    }
}

/// What the fields of a type differ in from those of an interface.
fn note_differences(
    alloc: Global,
    tables: &Tables,
    least: &mut Least,
    name: &NameAt<'_>,
    fields: &[FieldAt<'_>],
    places: &Index,
    wanted: &[FieldTree],
) -> Result<(), NoMemory>
    requires { IsNameIndex field_text fields.now places.now }
    ensures { OnOk result (least.new.at ≡ least_from least.old.at (rules.each (λ w. rules.field_differs tables.now name.now.at (rules.field_found (map field_of fields.now) w.name) w) wanted.now)) }
{
    'wanted: for field in wanted {
        let found = field_found(fields, places, field.name.as_str());
        note_difference(alloc, tables, least, name.at, found, field)?;
    }
    Ok(())
}

/// The first field of a name.
fn field_found<'d, 'a>(
    fields: &'d [FieldAt<'a>],
    places: &Index,
    name: &str,
) -> Option<&'d FieldAt<'a>>
    requires { IsNameIndex field_text fields.now places.now }
    ensures { option_map (λ f. field_of f.now) result ≡ rules.field_found (map field_of fields.now) name.now }
{
    places.get(fields, name)
}

/// The first argument of a name.
fn input_found<'d, 'a>(
    inputs: &'d [InputAt<'a>],
    places: &Index,
    name: &str,
) -> Option<&'d InputAt<'a>>
    requires { IsNameIndex input_text inputs.now places.now }
    ensures { option_map (λ i. input_of i.now) result ≡ rules.input_found (map input_of inputs.now) name.now }
{
    places.get(inputs, name)
}

/// What a field, if there is one, differs in from that of an interface.
fn note_difference(
    alloc: Global,
    tables: &Tables,
    least: &mut Least,
    lacks: usize,
    found: Option<&FieldAt<'_>>,
    wanted: &FieldTree,
) -> Result<(), NoMemory>
    ensures { OnOk result (least.new.at ≡ least_from least.old.at (rules.field_differs tables.now lacks (option_map (λ f. field_of f.now) found.entry) wanted.now)) }
{
    match found {
        Some(field) => note_field(alloc, tables, least, field, wanted),
        None => {
            least.note(lacks);
            Ok(())
        }
    }
}

/// What a field differs in from that of an interface.
#[tactic(auto, using(gql_graph::proofs::LeastSteps::noting))]
fn note_field(
    alloc: Global,
    tables: &Tables,
    least: &mut Least,
    field: &FieldAt<'_>,
    wanted: &FieldTree,
) -> Result<(), NoMemory>
    ensures { OnOk result (least.new.at ≡ least_from least.old.at (rules.field_differs tables.now 0 (Some (field_of field.now)) wanted.now)) }
{
    least.note_if(!is_narrower(tables, field.of.of, &wanted.of), field.of.at);
    note_arguments(alloc, least, field, wanted)?;
    note_further(alloc, least, field, wanted)
}

/// Arguments that a field lacks, or whose types differ. Those that are wanted are passed over where
/// none could be noted before the least place, as once a field before this one lacked one.
fn note_arguments(
    alloc: Global,
    least: &mut Least,
    field: &FieldAt<'_>,
    wanted: &FieldTree,
) -> Result<(), NoMemory>
    ensures { OnOk result (least.new.at ≡ least_from least.old.at (rules.each (rules.arguments_lack (field_of field.now)) wanted.now.arguments)) }
{
    if is_settled(least, field) {
        return Ok(());
    }
    let places = Index::new(alloc, &field.arguments)?;
    'arguments: for argument in wanted.arguments.as_slice() {
        let found = input_found(&field.arguments, &places, argument.name.as_str());
        note_argument(least, field.name.at, found, argument);
    }
    Ok(())
}

/// Whether no argument that a field lacks, or whose type differs, is noted before the least place,
/// whatever an interface wants.
fn is_settled(least: &Least, field: &FieldAt<'_>) -> bool
    ensures { IsTrue result → (ws : List InputTree) → least_from least.now.at (rules.each (rules.arguments_lack (field_of field.now)) ws) ≡ least.now.at }
{
    least.is_at_most(field.name.at) && are_settled(least, &field.arguments)
}

/// Whether no type of these arguments stands before the least place.
fn are_settled(least: &Least, arguments: &[InputAt<'_>]) -> bool
    ensures { IsTrue result → AllByRecursion (λ (i : located.InputAt). least_from least.now.at (i.of.at ∷ []) ≡ least.now.at) (map input_of arguments.now) }
{
    'arguments: for argument in arguments {
        if !least.is_at_most(argument.of.at) {
            return false;
        }
    }
    true
}

/// What an argument, if there is one, differs in from that of an interface.
fn note_argument(least: &mut Least, lacks: usize, found: Option<&InputAt<'_>>, wanted: &InputTree)
    ensures { least.new.at ≡ least_from least.old.at (rules.argument_differs lacks (option_map (λ i. input_of i.now) found.entry) wanted.now) }
{
    match found {
        Some(input) => least.note_if(!same_type(input.of.of, &wanted.of), input.of.at),
        None => least.note(lacks),
    }
}

/// Arguments that are required, and that the interface does not have.
fn note_further(
    alloc: Global,
    least: &mut Least,
    field: &FieldAt<'_>,
    wanted: &FieldTree,
) -> Result<(), NoMemory>
    ensures { OnOk result (least.new.at ≡ least_from least.old.at (rules.each (rules.further_argument wanted.now.arguments) (field_of field.now).arguments)) }
{
    if are_named_later(least, &field.arguments) {
        return Ok(());
    }
    let places = Index::new(alloc, wanted.arguments.as_slice())?;
    note_not_wanted(least, &places, wanted, &field.arguments);
    Ok(())
}

/// Whether no argument that is required is named before the least place.
fn are_named_later(least: &Least, arguments: &[InputAt<'_>]) -> bool
    ensures { IsTrue result → (ws : List InputTree) → least_from least.now.at (rules.each (rules.further_argument ws) (map input_of arguments.now)) ≡ least.now.at }
{
    'arguments: for argument in arguments {
        if !is_named_later(least, argument) {
            return false;
        }
    }
    true
}

/// Whether an argument is not required, or is not named before the least place.
fn is_named_later(least: &Least, argument: &InputAt<'_>) -> bool
    ensures { IsTrue result → (ws : List InputTree) → least_from least.now.at (rules.further_argument ws (input_of argument.now)) ≡ least.now.at }
{
    if !is_required(argument) {
        return true;
    }
    least.is_at_most(argument.name.at)
}

/// Arguments that are required and not wanted.
#[tactic(auto, using(gql_graph::proofs::LeastSteps::noting))]
fn note_not_wanted(least: &mut Least, places: &Index, wanted: &FieldTree, arguments: &[InputAt<'_>])
    requires { IsNameIndex input_name wanted.now.arguments places.now }
    ensures { least.new.at ≡ least_from least.old.at (rules.each (rules.further_argument wanted.now.arguments) (map input_of arguments.now)) }
{
    'arguments: for argument in arguments {
        least.note_if(is_further(places, wanted, argument), argument.name.at);
    }
}

/// Whether an argument is required and not one that the field of the interface has.
fn is_further(places: &Index, wanted: &FieldTree, argument: &InputAt<'_>) -> bool
    requires { IsNameIndex input_name wanted.now.arguments places.now }
    ensures { result ≡ (rules.is_required_at (input_of argument.now) && not (is_some (types.input_named wanted.now.arguments argument.now.name.name.now))) }
{
    is_required(argument) && !is_wanted(places, wanted, argument.name.name)
}

/// Whether an argument of this name is wanted.
fn is_wanted(places: &Index, wanted: &FieldTree, name: &str) -> bool
    requires { IsNameIndex input_name wanted.now.arguments places.now }
    ensures { result ≡ is_some (types.input_named wanted.now.arguments name.now) }
{
    places.find(wanted.arguments.as_slice(), name).is_some()
}

/// Whether an argument has to be given.
fn is_required(input: &InputAt<'_>) -> bool
    ensures { result ≡ rules.is_required_at (input_of input.now) }
{
    is_non_null(input.of.of) && input.default.is_none()
}

/// Whether a type is the same as another one, or a narrower one.
fn is_narrower(tables: &Tables, narrow: &TypeTree, wide: &TypeTree) -> bool
    ensures { result ≡ rules.is_narrower tables.now (ty_of narrow.now) (ty_of wide.now) }
{
    match narrow {
        TypeTree::Named(name) => match wide {
            TypeTree::Named(other) => is_narrower_name(tables, name.as_str(), other.as_str()),
            TypeTree::List(_) => false,
            TypeTree::NonNull(_) => false,
        },
        TypeTree::List(item) => match wide {
            TypeTree::Named(_) => false,
            TypeTree::List(other) => is_narrower(tables, item.tree(), other.tree()),
            TypeTree::NonNull(_) => false,
        },
        TypeTree::NonNull(inner) => match wide {
            TypeTree::Named(_) => is_narrower(tables, inner.tree(), wide),
            TypeTree::List(_) => is_narrower(tables, inner.tree(), wide),
            TypeTree::NonNull(other) => is_narrower(tables, inner.tree(), other.tree()),
        },
    }
}

/// Whether a type is the same as another one, a possible type of it, or an interface that implements
/// it.
fn is_narrower_name(tables: &Tables, narrow: &str, wide: &str) -> bool
    ensures { result ≡ rules.is_narrower_name tables.now narrow.now wide.now }
{
    if narrow == wide {
        return true;
    }
    if is_object(tables, narrow) && tables.applies(narrow, wide) {
        return true;
    }
    is_interface(tables, narrow) && tables.implements(narrow, wide)
}

/// Whether two types are the same.
pub fn same_type(one: &TypeTree, other: &TypeTree) -> bool
    ensures { result ≡ rules.same_type (ty_of one.now) (ty_of other.now) }
{
    match one {
        TypeTree::Named(a) => match other {
            TypeTree::Named(b) => a.as_str() == b.as_str(),
            TypeTree::List(_) => false,
            TypeTree::NonNull(_) => false,
        },
        TypeTree::List(a) => match other {
            TypeTree::Named(_) => false,
            TypeTree::List(b) => same_type(a.tree(), b.tree()),
            TypeTree::NonNull(_) => false,
        },
        TypeTree::NonNull(a) => match other {
            TypeTree::Named(_) => false,
            TypeTree::List(_) => false,
            TypeTree::NonNull(b) => same_type(a.tree(), b.tree()),
        },
    }
}
