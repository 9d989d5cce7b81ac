//! The first rule that a schema does not meet.
ghost use Rattle.std.specs.Prelude.{◌≡◌, map, length, IfOk};
ghost use Rattle.std.specs.List.{filter};
ghost use Rattle.schema_rules.specs.Checked as checked;
ghost use Rattle.schema_rules.specs.First.{first_rules, later_rules, last_rules};
ghost use Rattle.schema_trees.specs.LocatedView.{def_of};
ghost use Rattle.schema_rules.specs.Rules as rules;

use crate::fault::Rule;
use crate::rules::fields::interfaces_not_implemented;
use crate::rules::interfaces::interfaces_wrong;
use crate::rules::members::{defaults_wrong, members_missing};
use crate::rules::names::{members_not_unique, names_reserved};
use crate::rules::needs::inputs_need_themselves;
use crate::rules::roots::{names_not_unique, root_types_wrong};
use crate::rules::types::{composites_in_lists, kinds_wrong, types_not_defined};
use gql_graph::first::First;
use gql_graph::gql_plain::NoMemory;
use gql_graph::least::Least;
use schema_trees::located::{DefAt, locate};
use schema_trees::schema_tables::built_in::is_built_in_directive;
use schema_trees::schema_tables::tables::Tables;
use schema_trees::schema_tables::type_forms::is_built_in_scalar;
use std::alloc::Global;

/// The first rule that a schema does not meet, and the number of the node where it does not.
pub fn first_fault(alloc: Global, tables: &Tables) -> Result<Option<(Rule, usize)>, NoMemory>
    ensures { IfOk result (λ found. found ≡ checked.first_fault tables.now) }
{
    let mut definitions = locate(alloc, tables.definitions())?;
    keep_with_effect(&mut definitions);
    first_broken(alloc, tables, tables.definitions().len(), &definitions)
}

/// Keeps the definitions that have an effect.
fn keep_with_effect(definitions: &mut Vec<DefAt<'_>>)
    ensures { map def_of definitions.new.items ≡ filter rules.has_effect (map def_of definitions.old.items) }
{
    definitions.retain(|definition| has_effect(definition));
}

/// Whether a definition has an effect: one of a built-in scalar or directive is taken and has none.
fn has_effect(definition: &DefAt<'_>) -> bool
    ensures { result ≡ rules.has_effect (def_of definition.now) }
{
    match definition {
        DefAt::Scalar { name } => !is_built_in_scalar(name.name),
        DefAt::Directive { name, .. } => !is_built_in_directive(name.name),
        DefAt::Schema { .. } => true,
        DefAt::Object { .. } => true,
        DefAt::Interface { .. } => true,
        DefAt::Union { .. } => true,
        DefAt::Enum { .. } => true,
        DefAt::Input { .. } => true,
    }
}

/// The first rule that these definitions do not meet, which are those of the tables that have an
/// effect. `steps` is the number of all definitions.
fn first_broken(
    alloc: Global,
    tables: &Tables,
    steps: usize,
    definitions: &[DefAt<'_>],
) -> Result<Option<(Rule, usize)>, NoMemory>
    requires { steps ≡ length tables.now }
    ensures { IfOk result (λ found. found ≡ rules.first_broken (rules.rules tables.now (map def_of definitions.now))) }
{
    if let Some(found) = first_of_names(alloc, tables, definitions)? {
        return Ok(Some(found));
    }
    if let Some(found) = first_of_members(alloc, tables, definitions)? {
        return Ok(Some(found));
    }
    first_of_values(alloc, tables, steps, definitions)
}

/// The first of the rules S1 to S4 that does not hold, and the number of the node where it does not.
fn first_of_names(
    alloc: Global,
    tables: &Tables,
    definitions: &[DefAt<'_>],
) -> Result<Option<(Rule, usize)>, NoMemory>
    ensures { IfOk result (λ found. found ≡ rules.first_broken (first_rules tables.now (map def_of definitions.now))) }
{
    let mut first = First::new();
    let mut repeated = Least::new();
    names_not_unique(alloc, &mut repeated, definitions)?;
    first.settle(Rule::S1, repeated.at);
    let mut undefined = Least::new();
    types_not_defined(alloc, tables, &mut undefined, definitions)?;
    first.settle(Rule::S2, undefined.at);
    let mut roots = Least::new();
    root_types_wrong(alloc, tables, &mut roots, definitions)?;
    first.settle(Rule::S3, roots.at);
    let mut reserved = Least::new();
    names_reserved(alloc, &mut reserved, definitions)?;
    first.settle(Rule::S4, reserved.at);
    Ok(first.found)
}

/// The first of the rules S5 to S8 that does not hold, and the number of the node where it does not.
/// S8 is looked at only where the others hold: its look-ups by name need names that differ.
fn first_of_members(
    alloc: Global,
    tables: &Tables,
    definitions: &[DefAt<'_>],
) -> Result<Option<(Rule, usize)>, NoMemory>
    ensures { IfOk result (λ found. found ≡ rules.first_broken (later_rules tables.now (map def_of definitions.now))) }
{
    let mut first = First::new();
    let mut repeated = Least::new();
    members_not_unique(alloc, &mut repeated, definitions)?;
    first.settle(Rule::S5, repeated.at);
    let mut kinds = Least::new();
    kinds_wrong(alloc, tables, &mut kinds, definitions)?;
    first.settle(Rule::S6, kinds.at);
    let mut interfaces = Least::new();
    interfaces_wrong(alloc, tables, &mut interfaces, definitions)?;
    first.settle(Rule::S7, interfaces.at);
    if first.found.is_some() {
        return Ok(first.found);
    }
    let mut fields = Least::new();
    interfaces_not_implemented(alloc, tables, &mut fields, definitions)?;
    first.settle(Rule::S8, fields.at);
    Ok(first.found)
}

/// The first of the rules S9 to S12 that does not hold, and the number of the node where it does not.
fn first_of_values(
    alloc: Global,
    tables: &Tables,
    steps: usize,
    definitions: &[DefAt<'_>],
) -> Result<Option<(Rule, usize)>, NoMemory>
    requires { steps ≡ length tables.now }
    ensures { IfOk result (λ found. found ≡ rules.first_broken (last_rules tables.now (map def_of definitions.now))) }
{
    let mut first = First::new();
    let mut missing = Least::new();
    members_missing(tables, &mut missing, definitions);
    first.settle(Rule::S9, missing.at);
    let mut needs = Least::new();
    inputs_need_themselves(alloc, tables, steps, &mut needs, definitions)?;
    first.settle(Rule::S10, needs.at);
    let mut defaults = Least::new();
    defaults_wrong(alloc, tables, &mut defaults, definitions)?;
    first.settle(Rule::S11, defaults.at);
    let mut lists = Least::new();
    composites_in_lists(tables, &mut lists, definitions);
    first.settle(Rule::S12, lists.at);
    Ok(first.found)
}
