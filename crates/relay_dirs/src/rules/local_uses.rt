//! The part of V18 on local variables in what spreads give: a use of one is allowed by its type and its
//! default, as that of a variable is (GraphQL, October 2021, section 5.8.5).
//! `fragment F on User @argumentDefinitions(n: { type: "Int" }) { ...P @arguments(size: $n) }` breaks it
//! at `P`, where `size` is an `Int!`.
ghost use Rattle.std.specs.Prelude.{◌≡◌, List, map, option_map, OnOk};
ghost use Rattle.constant_values.specs.gql_graph.Leasts.{least_from};
ghost use Rattle.constant_values.specs.gql_graph.Rules.{each};
ghost use Rattle.constant_values.specs.schema_types.Sites as parts;
ghost use Rattle.doc_uses.specs.doc_sites.Definitions.{on_fragment};
ghost use Rattle.doc_uses.specs.doc_sites.SitesView.{definition_of, fragment_of};
ghost use Rattle.doc_uses.specs.UseView.{place_of, use_of};
ghost use Rattle.relay_marks.specs.Locals as locals;
ghost use Rattle.relay_rules.specs.Spreads as spec;
ghost use Rattle.relay_dirs.specs.Tables.{Serves, Suits};
ghost use Rattle.relay_marks.specs.View.{local_view};

use crate::fragments::{Fragments, Locals};
use crate::located_locals::locals_of;
use crate::spread_uses::uses_in_spreads;
use constant_values::Schema;
use constant_values::least::Least;
use doc_uses::{DefinitionAt, FragmentAt, Place, Use};
use gql_syntax::gql_ast::VariableDef;
use gql_syntax::gql_plain::NoMemory;
use std::alloc::Global;

/// Uses of local variables in spreads that are not allowed.
pub(crate) fn note_local_uses<'p, 'a>(
    alloc: Global,
    schema: &'p Schema,
    table: &Fragments<'p>,
    least: &mut Least,
    definitions: &[DefinitionAt<'a>],
) -> Result<(), NoMemory>
    ensures { (fs : List parts.FragmentAt) → Suits table.now fs
        → OnOk result (least.new.at ≡ least_from least.old.at (each (on_fragment (spec.local_uses_wrong schema.now fs)) (map definition_of definitions.now))) }
{
    'definitions: for definition in definitions {
        note_definition(alloc, schema, table, least, definition)?;
    }
    Ok(())
}

/// Such uses in a definition, where it is a fragment.
fn note_definition<'p, 'a>(
    alloc: Global,
    schema: &'p Schema,
    table: &Fragments<'p>,
    least: &mut Least,
    definition: &DefinitionAt<'a>,
) -> Result<(), NoMemory>
    ensures { (fs : List parts.FragmentAt) → Suits table.now fs
        → OnOk result (least.new.at ≡ least_from least.old.at (on_fragment (spec.local_uses_wrong schema.now fs) (definition_of definition.now))) }
{
    match definition {
        DefinitionAt::Operation(_) => Ok(()),
        DefinitionAt::Fragment(fragment) => note_fragment(alloc, schema, table, least, fragment),
    }
}

/// Such uses in a fragment.
fn note_fragment<'p, 'a>(
    alloc: Global,
    schema: &'p Schema,
    table: &Fragments<'p>,
    least: &mut Least,
    fragment: &FragmentAt<'a>,
) -> Result<(), NoMemory>
    ensures { (fs : List parts.FragmentAt) → Suits table.now fs
        → OnOk result (least.new.at ≡ least_from least.old.at (spec.local_uses_wrong schema.now fs (fragment_of fragment.now))) }
{
    let uses = uses_in_spreads(alloc, schema, table, &fragment.sites)?;
    let locals = locals_of(alloc, &fragment.directives)?;
    let own = Locals::of(alloc, locals.as_slice())?;
    note_uses(schema, least, &own, &uses);
    Ok(())
}

/// Uses of these local variables that are not allowed.
fn note_uses(schema: &Schema, least: &mut Least, own: &Locals<'_>, uses: &[Use<'_, '_>])
    ensures { (ls : List locals.Local) → Serves own.now ls → least.new.at ≡ least_from least.old.at (each (spec.local_use_wrong ls) (map use_of uses.now)) }
{
    'uses: for one in uses {
        let local = own.find(one.name.name);
        let is_good = is_allowed(schema, local, &one.place);
        least.note_if(!is_good, one.name.at);
    }
}

/// Whether the use of a local variable at a place is allowed, where there is such a variable.
fn is_allowed(schema: &Schema, local: Option<&VariableDef>, place: &Option<Place<'_>>) -> bool
    ensures { result ≡ spec.is_allowed (option_map (λ v. local_view v.now) local.entry) (option_map place_of place.now) }
{
    match local {
        Some(local) => is_allowed_at(schema, local, place),
        None => true,
    }
}

/// Whether the use of a local variable at a place is allowed.
fn is_allowed_at(schema: &Schema, local: &VariableDef, place: &Option<Place<'_>>) -> bool
    ensures { result ≡ spec.is_allowed_at (local_view local.now) (option_map place_of place.now) }
{
    match place {
        Some(place) => schema.use_allowed(local, place.of, place.has_default),
        None => true,
    }
}
