//! The directives that are known beside those of the schema: of the specification (GraphQL, October
//! 2021, section 3.13), and of this project after Relay.
ghost use Rattle.std.specs.Prelude.{◌≡◌, ℕ, List, [], ◌∷◌, ◌++◌, codes, IfOk, OnOk};
ghost use Rattle.gql_ast.specs.declared.location.Location.TheVariants as L;
ghost use Rattle.schema_tables.specs.BuiltIn as known;
ghost use Rattle.schema_tables.specs.Known as single;

use gql_ast::gql_plain::{NoMemory, Words};
use gql_ast::{
    Directives, InputTree, InputTrees, Location, Locations, SchemaDef, TypeBox, TypeTree, ValueTree,
};
use std::alloc::Global;

/// The known directives.
pub(crate) fn built_in_directives(alloc: Global) -> Result<Vec<SchemaDef>, NoMemory>
    ensures { IfOk result (λ directives. directives.items ≡ single.built_in_trees) }
{
    let mut directives = Vec::with_capacity(alloc, 9)?;
    directives.push(conditional(alloc, "skip")?)?;
    directives.push(conditional(alloc, "include")?)?;
    put_notes(alloc, &mut directives)?;
    put_relay(alloc, &mut directives)?;
    put_definitions(alloc, &mut directives)?;
    Ok(directives)
}

/// Whether it is the name of a directive that is known without a schema.
pub fn is_built_in_directive(name: &str) -> bool
    ensures { result ≡ known.is_built_in_directive name.now }
{
    if "skip" == name {
        return true;
    }
    if "include" == name {
        return true;
    }
    if "deprecated" == name {
        return true;
    }
    if "specifiedBy" == name {
        return true;
    }
    if "connection" == name {
        return true;
    }
    if "arguments" == name {
        return true;
    }
    if "relay" == name {
        return true;
    }
    if "argumentDefinitions" == name {
        return true;
    }
    "inline" == name
}

/// `@deprecated` and `@specifiedBy` (sections 3.13.3 and 3.13.4).
fn put_notes(alloc: Global, directives: &mut Vec<SchemaDef>) -> Result<(), NoMemory>
    ensures { OnOk result (directives.new.items ≡ directives.old.items ++ (single.deprecated ∷ single.specified_by ∷ [])) }
{
    directives.push(deprecated(alloc)?)?;
    directives.push(specified_by(alloc)?)?;
    Ok(())
}

/// `@connection`, `@arguments` and `@relay`.
fn put_relay(alloc: Global, directives: &mut Vec<SchemaDef>) -> Result<(), NoMemory>
    ensures { OnOk result (directives.new.items ≡ directives.old.items
        ++ (single.connection ∷ single.directive_tree (codes "arguments") [] (L.FragmentSpread ∷ []) ∷ single.relay ∷ [])) }
{
    directives.push(connection(alloc)?)?;
    directives.push(bare(alloc, "arguments", Location::FragmentSpread)?)?;
    directives.push(relay(alloc)?)?;
    Ok(())
}

/// `@argumentDefinitions` and `@inline`.
fn put_definitions(alloc: Global, directives: &mut Vec<SchemaDef>) -> Result<(), NoMemory>
    ensures { OnOk result (directives.new.items ≡ directives.old.items
        ++ (single.directive_tree (codes "argumentDefinitions") [] (L.FragmentDefinition ∷ [])
        ∷ single.directive_tree (codes "inline") [] (L.FragmentDefinition ∷ []) ∷ [])) }
{
    directives.push(bare(alloc, "argumentDefinitions", Location::FragmentDefinition)?)?;
    directives.push(bare(alloc, "inline", Location::FragmentDefinition)?)?;
    Ok(())
}

/// A directive of selections with a condition: `if: Boolean!`.
fn conditional(alloc: Global, name: &str) -> Result<SchemaDef, NoMemory>
    ensures { IfOk result (λ d. d ≡ single.directive_tree name.now single.condition known.selection_locations) }
{
    let of = required_type(alloc, "Boolean")?;
    let condition = input(alloc, "if", of, None)?;
    let arguments = vec![in alloc; condition]?;
    let locations = vec![in alloc;
        Location::Field,
        Location::FragmentSpread,
        Location::InlineFragment,
    ]?;
    directive(alloc, name, arguments, locations)
}

/// `@deprecated(reason: String = "No longer supported")`.
fn deprecated(alloc: Global) -> Result<SchemaDef, NoMemory>
    ensures { IfOk result (λ d. d ≡ single.deprecated) }
{
    let reason = deprecation_reason(alloc)?;
    let arguments = vec![in alloc; reason]?;
    let locations = vec![in alloc;
        Location::FieldDefinition,
        Location::ArgumentDefinition,
        Location::InputFieldDefinition,
        Location::EnumValue,
    ]?;
    directive(alloc, "deprecated", arguments, locations)
}

/// The argument of `@deprecated`.
fn deprecation_reason(alloc: Global) -> Result<InputTree, NoMemory>
    ensures { IfOk result (λ i. i ≡ single.deprecation_reason) }
{
    let of = TypeTree::Named(Words::new(alloc, "String")?);
    let default = ValueTree::Text(Words::new(alloc, "No longer supported")?);
    input(alloc, "reason", of, Some(default))
}

/// `@specifiedBy(url: String!)`.
fn specified_by(alloc: Global) -> Result<SchemaDef, NoMemory>
    ensures { IfOk result (λ d. d ≡ single.specified_by) }
{
    let of = required_type(alloc, "String")?;
    let url = input(alloc, "url", of, None)?;
    let arguments = vec![in alloc; url]?;
    let locations = vec![in alloc; Location::Scalar]?;
    directive(alloc, "specifiedBy", arguments, locations)
}

/// `@connection(key: String!, filters: [String!])`.
fn connection(alloc: Global) -> Result<SchemaDef, NoMemory>
    ensures { IfOk result (λ d. d ≡ single.connection) }
{
    let of = required_type(alloc, "String")?;
    let key = input(alloc, "key", of, None)?;
    let filters = connection_filters(alloc)?;
    let arguments = vec![in alloc; key, filters]?;
    let locations = vec![in alloc; Location::Field]?;
    directive(alloc, "connection", arguments, locations)
}

/// The second argument of `@connection`.
fn connection_filters(alloc: Global) -> Result<InputTree, NoMemory>
    ensures { IfOk result (λ i. i ≡ single.connection_filters) }
{
    let item = required_type(alloc, "String")?;
    let of = TypeTree::List(TypeBox::new(alloc, item)?);
    input(alloc, "filters", of, None)
}

/// `@relay(mask: Boolean!)`.
fn relay(alloc: Global) -> Result<SchemaDef, NoMemory>
    ensures { IfOk result (λ d. d ≡ single.relay) }
{
    let of = required_type(alloc, "Boolean")?;
    let mask = input(alloc, "mask", of, None)?;
    let arguments = vec![in alloc; mask]?;
    let locations = vec![in alloc; Location::FragmentSpread]?;
    directive(alloc, "relay", arguments, locations)
}

/// A directive at one location, without arguments of its own.
fn bare(alloc: Global, name: &str, location: Location) -> Result<SchemaDef, NoMemory>
    ensures { IfOk result (λ d. d ≡ single.directive_tree name.now [] (location ∷ [])) }
{
    let locations = vec![in alloc; location]?;
    directive(alloc, name, Vec::new(alloc), locations)
}

/// A directive that may stand once at a place.
fn directive(
    alloc: Global,
    name: &str,
    arguments: Vec<InputTree>,
    locations: Vec<Location>,
) -> Result<SchemaDef, NoMemory>
    ensures { IfOk result (λ d. d ≡ single.directive_tree name.now arguments.items locations.items) }
{
    Ok(SchemaDef::Directive {
        name: Words::new(alloc, name)?,
        arguments: InputTrees { items: arguments },
        repeatable: false,
        locations: Locations { items: locations },
    })
}

/// An argument.
fn input(
    alloc: Global,
    name: &str,
    of: TypeTree,
    default: Option<ValueTree>,
) -> Result<InputTree, NoMemory>
    ensures { IfOk result (λ i. i ≡ single.input_tree name.now of default) }
{
    Ok(InputTree {
        name: Words::new(alloc, name)?,
        of,
        default,
        directives: Directives::new(alloc),
    })
}

/// The non-null form of a named type.
fn required_type(alloc: Global, name: &str) -> Result<TypeTree, NoMemory>
    ensures { IfOk result (λ t. t ≡ known.required_type name.now) }
{
    let named = TypeTree::Named(Words::new(alloc, name)?);
    Ok(TypeTree::NonNull(TypeBox::new(alloc, named)?))
}
