//! The uses of variables that are wrong: of an operation, and of the fragments that it reaches.
ghost use Rattle.std.specs.Prelude.{◌≡◌, ◌++◌, [], true, List, map, option_map, IsTrue, OnOk};
ghost use Rattle.doc_sites.specs.gql_plain.Order.{has_text};
ghost use Rattle.doc_sites.specs.schema_types.ArgumentRules as rules;
ghost use Rattle.doc_sites.specs.gql_graph.Leasts.{least_from};
ghost use Rattle.doc_sites.specs.gql_graph.Rules.{each};
ghost use Rattle.doc_sites.specs.gql_graph.Texts.{Text};
ghost use Rattle.doc_sites.specs.schema_types.Sites as spec;
ghost use Rattle.doc_sites.specs.SitesView.{operation_of, variable_of};
ghost use Rattle.doc_uses.specs.FragmentUses.{Describes};
ghost use Rattle.doc_uses.specs.UsesByName.{Gathers};
ghost use Rattle.doc_uses.specs.Named.{NamesVariables};
ghost use Rattle.doc_uses.specs.Needs.{AreHarmless, IsKnownHarmless, uses_needed};
ghost use Rattle.doc_uses.specs.Parts.{uses_wrong_in};
ghost use Rattle.doc_uses.specs.UseView.{place_of, use_of};

use crate::fragment_uses::FragmentUses;
use crate::needs::Needs;
use crate::uses::{Place, Use};
use crate::uses_by_name::UsesByName;
use crate::variables::Variables;
use doc_sites::least::Least;
use doc_sites::{NoMemory, OperationAt, Schema, VariableAt, spread_names};
use std::alloc::Global;

/// Notes uses of variables that are not defined, and uses that are not allowed (sections 5.8.3 and
/// 5.8.5). They are these, which stand in the operation itself, and those in the fragments that it
/// reaches. There a local variable is never wrong.
///
/// What a fragment and all that it reaches need is summed up once, and looked at for each operation
/// that spreads it. Only where that finds a fault, or is not known, are the fragments looked at that
/// the operation reaches.
///
/// # Errors
///
/// `NoMemory`.
pub fn note_wrong_uses<'a>(
    alloc: Global,
    schema: &Schema,
    known: &FragmentUses<'_, 'a>,
    least: &mut Least,
    operation: &OperationAt<'a>,
    uses: &[Use<'_, '_>],
) -> Result<(), NoMemory>
    ensures { (fs : List spec.FragmentAt) → (uses_of : spec.FragmentAt → List rules.Use) → Describes known.now uses_of fs
        → OnOk result (least.new.at ≡ least_from least.old.at (each (rules.use_wrong (operation_of operation.now).variables []) (map use_of uses.now) ++ each (uses_wrong_in uses_of fs (operation_of operation.now)) fs)) }
{
    let table = Variables::of(alloc, operation)?;
    note_uses(schema, least, &table, uses);
    note_beyond(alloc, schema, known, least, &table, operation)?;
    Ok(())
}

/// Variables that are used and not defined, or whose uses are not allowed.
fn note_uses(schema: &Schema, least: &mut Least, table: &Variables<'_, '_>, uses: &[Use<'_, '_>])
    ensures { (vs : List spec.VariableAt) → NamesVariables table.now vs → least.new.at ≡ least_from least.old.at (each (rules.use_wrong vs []) (map use_of uses.now)) }
{
    'uses: for one in uses {
        let variable = table.find(one.name.name);
        let is_good = is_allowed(schema, variable, &one.place);
        least.note_if(!is_good, one.name.at);
    }
}

/// Whether a variable is defined, and its use at a place is allowed.
fn is_allowed(schema: &Schema, variable: Option<&VariableAt<'_>>, place: &Option<Place<'_>>) -> bool
    ensures { result ≡ rules.is_allowed (option_map (λ v. variable_of v.now) variable.entry) (option_map place_of place.now) }
{
    match variable {
        Some(variable) => is_allowed_at(schema, variable, place),
        None => false,
    }
}

/// Whether the use of a variable at a place is allowed.
fn is_allowed_at(schema: &Schema, variable: &VariableAt<'_>, place: &Option<Place<'_>>) -> bool
    ensures { result ≡ rules.is_allowed_at (variable_of variable.now) (option_map place_of place.now) }
{
    match place {
        Some(place) => schema.use_allowed(variable.defined, place.of, place.has_default),
        None => true,
    }
}

/// Uses that are wrong in the fragments that an operation reaches. Where nothing is wrong with what
/// the fragments need that it spreads, none of them is looked at.
fn note_beyond<'a>(
    alloc: Global,
    schema: &Schema,
    known: &FragmentUses<'_, 'a>,
    least: &mut Least,
    table: &Variables<'_, '_>,
    operation: &OperationAt<'a>,
) -> Result<(), NoMemory>
    ensures { (fs : List spec.FragmentAt) → (uses_of : spec.FragmentAt → List rules.Use) → Describes known.now uses_of fs
        → NamesVariables table.now (operation_of operation.now).variables
        → OnOk result (least.new.at ≡ least_from least.old.at (each (uses_wrong_in uses_of fs (operation_of operation.now)) fs)) }
{
    let starts = spread_names(alloc, &operation.sites)?;
    if are_met(schema, least, table, &known.needs, &starts) {
        return Ok(());
    }
    let names = known.graph.names_reached(alloc, known.count, &starts)?;
    let names = names.as_slice();
    note_reached(schema, least, table, &known.gathered, names);
    Ok(())
}

/// Whether it is known what the fragments of these names need, and nothing of that is wrong before
/// the place that is noted.
fn are_met(
    schema: &Schema,
    least: &Least,
    table: &Variables<'_, '_>,
    needs: &Needs<'_, '_>,
    names: &[&str],
) -> bool
    ensures { (vs : List spec.VariableAt) → NamesVariables table.now vs → IsTrue result
        → (m : Text) → has_text (map (λ n. n.now) names.now) m ≡ true → IsKnownHarmless vs least.now.at (uses_needed needs.now m) }
{
    'names: for name in names {
        if !is_met(schema, least, table, needs.find(name)) {
            return false;
        }
    }
    true
}

/// Whether it is known what is needed, and nothing of that is wrong before the place that is noted.
fn is_met(
    schema: &Schema,
    least: &Least,
    table: &Variables<'_, '_>,
    needs: Option<&[Use<'_, '_>]>,
) -> bool
    ensures { (vs : List spec.VariableAt) → NamesVariables table.now vs → IsTrue result
        → IsKnownHarmless vs least.now.at (option_map (λ us. map use_of us.now) needs.entry) }
{
    match needs {
        Some(uses) => are_harmless(schema, least, table, uses),
        None => false,
    }
}

/// Whether none of these uses is wrong before the place that is noted.
fn are_harmless(
    schema: &Schema,
    least: &Least,
    table: &Variables<'_, '_>,
    uses: &[Use<'_, '_>],
) -> bool
    ensures { (vs : List spec.VariableAt) → NamesVariables table.now vs → IsTrue result → AreHarmless vs least.now.at (map use_of uses.now) }
{
    'uses: for one in uses {
        if !is_harmless(schema, least, table, one) {
            return false;
        }
    }
    true
}

/// Whether a use is allowed, or stands at the place that is noted or after it.
fn is_harmless(schema: &Schema, least: &Least, table: &Variables<'_, '_>, one: &Use<'_, '_>) -> bool
    ensures { (vs : List spec.VariableAt) → NamesVariables table.now vs → IsTrue result
        → least_from least.now.at (rules.use_wrong vs [] (use_of one.now)) ≡ least.now.at }
{
    if least.is_at_most(one.name.at) {
        return true;
    }
    let variable = table.find(one.name.name);
    is_allowed(schema, variable, &one.place)
}

/// Uses that are wrong in the fragments of these names.
fn note_reached(
    schema: &Schema,
    least: &mut Least,
    table: &Variables<'_, '_>,
    gathered: &UsesByName<'_, '_>,
    names: &[&str],
)
    ensures { (vs : List spec.VariableAt) → NamesVariables table.now vs → (tells : Text → List rules.Use) → Gathers gathered.now tells
        → least.new.at ≡ least_from least.old.at (each (λ n. each (rules.use_wrong vs []) (tells n)) (map (λ n. n.now) names.now)) }
{
    'names: for name in names {
        note_uses(schema, least, table, gathered.uses(name));
    }
}
