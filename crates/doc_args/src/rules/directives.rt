//! V15, directives (GraphQL, October 2021, section 5.7): directives are known, stand in their
//! locations, and stand once where they do not repeat. `{ me @deprecated { name } }` breaks it at
//! `deprecated`.
ghost use Rattle.std.specs.Prelude.{◌≡◌, ◌++◌, map, IfOk, OnOk};
ghost use Rattle.std.specs.List.{list_any};
ghost use Rattle.doc_uses.specs.schema_types.ArgumentRules as rules;
ghost use Rattle.doc_uses.specs.schema_tables.BuiltIn as known;
ghost use Rattle.gql_graph.specs.Leasts.{least_from};
ghost use Rattle.doc_uses.specs.schema_trees.LocatedView.{name_of};
ghost use Rattle.gql_graph.specs.Rules.{each};
ghost use Rattle.doc_uses.specs.doc_sites.SitesView.{definition_of, directive_of, site_of, variable_of};
ghost use Rattle.doc_args.specs.Directives.{directives_at, once_name};

use doc_uses::located::NameAt;
use doc_uses::repeats::note_repeated;
use doc_uses::{DefinitionAt, DirectiveAt, Kind, Location, Locations, Schema, Site, VariableAt};
use gql_graph::gql_plain::NoMemory;
use gql_graph::least::Least;
use std::alloc::Global;

/// V15: directives are known, stand where they may, and those that are not repeatable stand once at
/// one place (GraphQL, October 2021, section 5.7).
pub(crate) fn directives_wrong(
    alloc: Global,
    schema: &Schema,
    least: &mut Least,
    definitions: &[DefinitionAt<'_>],
) -> Result<(), NoMemory>
    ensures { OnOk result (least.new.at ≡ least_from least.old.at (rules.directives_wrong schema.now (map definition_of definitions.now))) }
{
    'definitions: for definition in definitions {
        note_in(alloc, schema, least, definition)?;
    }
    Ok(())
}

/// Directives in a definition.
#[tactic(auto, using(gql_graph::proofs::LeastSteps::each_noting))]
fn note_in(
    alloc: Global,
    schema: &Schema,
    least: &mut Least,
    definition: &DefinitionAt<'_>,
) -> Result<(), NoMemory>
    ensures { OnOk result (least.new.at ≡ least_from least.old.at (each (rules.directed_wrong schema.now) (rules.directed_in (definition_of definition.now)))) }
{
    match definition {
        DefinitionAt::Operation(operation) => {
            note_variables(alloc, schema, least, &operation.variables)?;
            let location = location_of(operation.kind);
            note_directed(alloc, schema, least, location, &operation.directives)?;
            note_sites(alloc, schema, least, &operation.sites)
        }
        DefinitionAt::Fragment(fragment) => {
            let location = Location::FragmentDefinition;
            note_directed(alloc, schema, least, location, &fragment.directives)?;
            note_sites(alloc, schema, least, &fragment.sites)
        }
    }
}

/// Directives of variables.
fn note_variables(
    alloc: Global,
    schema: &Schema,
    least: &mut Least,
    variables: &[VariableAt<'_>],
) -> Result<(), NoMemory>
    ensures { OnOk result (least.new.at ≡ least_from least.old.at (each (rules.directed_wrong schema.now) (map rules.directed_variable (map variable_of variables.now)))) }
{
    'variables: for variable in variables {
        let location = Location::VariableDefinition;
        note_directed(alloc, schema, least, location, &variable.directives)?;
    }
    Ok(())
}

/// Directives of selections.
fn note_sites(
    alloc: Global,
    schema: &Schema,
    least: &mut Least,
    sites: &[Site<'_>],
) -> Result<(), NoMemory>
    ensures { OnOk result (least.new.at ≡ least_from least.old.at (each (rules.directed_wrong schema.now) (map rules.directed_at (map site_of sites.now)))) }
{
    'sites: for site in sites {
        note_site(alloc, schema, least, site)?;
    }
    Ok(())
}

/// Directives of a selection.
fn note_site(
    alloc: Global,
    schema: &Schema,
    least: &mut Least,
    site: &Site<'_>,
) -> Result<(), NoMemory>
    ensures { OnOk result (least.new.at ≡ least_from least.old.at (rules.directed_wrong schema.now (rules.directed_at (site_of site.now)))) }
{
    match site {
        Site::Field { directives, .. } => {
            note_directed(alloc, schema, least, Location::Field, directives)
        }
        Site::Spread { directives, .. } => {
            note_directed(alloc, schema, least, Location::FragmentSpread, directives)
        }
        Site::Inline { directives, .. } => {
            note_directed(alloc, schema, least, Location::InlineFragment, directives)
        }
    }
}

/// Where a directive of an operation stands.
fn location_of(kind: Kind) -> Location
    ensures { result ≡ rules.location_of kind }
{
    match kind {
        Kind::Query => Location::Query,
        Kind::Mutation => Location::Mutation,
        Kind::Subscription => Location::Subscription,
    }
}

/// Directives at one place of this kind.
#[tactic(auto, using(crate::proofs::Steps::directing))]
fn note_directed(
    alloc: Global,
    schema: &Schema,
    least: &mut Least,
    location: Location,
    directives: &[DirectiveAt<'_>],
) -> Result<(), NoMemory>
    ensures { OnOk result (least.new.at ≡ least_from least.old.at (rules.directed_wrong schema.now (directives_at location (map directive_of directives.now)))) }
{
    note_standing(schema, least, location, directives);
    let names = names_once(alloc, schema, directives)?;
    note_repeated(alloc, least, &names)
}

/// Directives that are not known or may not stand there.
#[tactic(auto, using(gql_graph::proofs::LeastSteps::noting))]
fn note_standing(
    schema: &Schema,
    least: &mut Least,
    location: Location,
    directives: &[DirectiveAt<'_>],
)
    ensures { least.new.at ≡ least_from least.old.at (each (rules.stands_wrong schema.now location) (map directive_of directives.now)) }
{
    'directives: for directive in directives {
        let is_good = may_stand(schema, location, directive.name.name);
        least.note_if(!is_good, directive.name.at);
    }
}

/// Whether a directive is known and may stand there.
fn may_stand(schema: &Schema, location: Location, name: &str) -> bool
    ensures { result ≡ rules.may_stand location (known.directive schema.now name.now) }
{
    match schema.directive(name) {
        Some(directive) => has_location(directive.locations(), location),
        None => false,
    }
}

/// Whether one of these locations is this one.
fn has_location(locations: &Locations, wanted: Location) -> bool
    ensures { result ≡ list_any (λ one. rules.same_location one wanted) locations.now }
{
    'locations: for location in &locations.items {
        if is_location(*location, wanted) {
            return true;
        }
    }
    false
}

/// Whether two locations in documents are one.
fn is_location(one: Location, wanted: Location) -> bool
    ensures { result ≡ rules.same_location one wanted }
{
    match one {
        Location::Query => matches!(wanted, Location::Query),
        Location::Mutation => matches!(wanted, Location::Mutation),
        Location::Subscription => matches!(wanted, Location::Subscription),
        Location::Field => matches!(wanted, Location::Field),
        Location::FragmentDefinition => matches!(wanted, Location::FragmentDefinition),
        Location::FragmentSpread => matches!(wanted, Location::FragmentSpread),
        Location::InlineFragment => matches!(wanted, Location::InlineFragment),
        Location::VariableDefinition => matches!(wanted, Location::VariableDefinition),
        Location::Schema => false,
        Location::Scalar => false,
        Location::Object => false,
        Location::FieldDefinition => false,
        Location::ArgumentDefinition => false,
        Location::Interface => false,
        Location::Union => false,
        Location::Enum => false,
        Location::EnumValue => false,
        Location::InputObject => false,
        Location::InputFieldDefinition => false,
    }
}

/// The names of directives that may not stand twice at one place.
fn names_once<'a>(
    alloc: Global,
    schema: &Schema,
    directives: &[DirectiveAt<'a>],
) -> Result<Vec<NameAt<'a>>, NoMemory>
    ensures { IfOk result (λ ns. map name_of ns.items ≡ each (once_name schema.now) (map directive_of directives.now)) }
{
    let mut names = Vec::new(alloc);
    'directives: for directive in directives {
        put_once(schema, &mut names, directive)?;
    }
    Ok(names)
}

/// Puts the name of a directive that may not stand twice at one place.
fn put_once<'a>(
    schema: &Schema,
    names: &mut Vec<NameAt<'a>>,
    directive: &DirectiveAt<'a>,
) -> Result<(), NoMemory>
    ensures { OnOk result (map name_of names.new.items ≡ map name_of names.old.items ++ once_name schema.now (directive_of directive.now)) }
{
    if stands_once(schema, directive.name.name) {
        names.push(directive.name)?;
        return Ok(());
    }
    Ok(())
}

/// Whether a directive is known and may not stand twice at one place.
fn stands_once(schema: &Schema, name: &str) -> bool
    ensures { result ≡ rules.stands_once (known.directive schema.now name.now) }
{
    match schema.directive(name) {
        Some(directive) => !directive.is_repeatable(),
        None => false,
    }
}
