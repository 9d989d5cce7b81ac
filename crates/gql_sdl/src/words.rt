//! The words of schemas.
ghost use Rattle.std.specs.Prelude.{◌≡◌};
ghost use Rattle.gql_sdl.specs.Machine.{executable_locations, is_reserved, location_of as location_named, find_by, type_system_locations};
ghost use Rattle.gql_sdl.specs.Schemas.{location_word};

use gql_syntax::gql_ast::Location;

/// The location that a word names (section 3.13).
pub(crate) fn location_of(word: &str) -> Option<Location>
    ensures { result ≡ location_named word.now }
{
    match executable_location_of(word) {
        Some(location) => Some(location),
        None => type_system_location_of(word),
    }
}

/// The location in a document that a word names.
fn executable_location_of(word: &str) -> Option<Location>
    ensures { result ≡ find_by location_word executable_locations word.now }
{
    if word == "QUERY" {
        return Some(Location::Query);
    }
    if word == "MUTATION" {
        return Some(Location::Mutation);
    }
    if word == "SUBSCRIPTION" {
        return Some(Location::Subscription);
    }
    if word == "FIELD" {
        return Some(Location::Field);
    }
    if word == "FRAGMENT_DEFINITION" {
        return Some(Location::FragmentDefinition);
    }
    if word == "FRAGMENT_SPREAD" {
        return Some(Location::FragmentSpread);
    }
    if word == "INLINE_FRAGMENT" {
        return Some(Location::InlineFragment);
    }
    if word == "VARIABLE_DEFINITION" {
        return Some(Location::VariableDefinition);
    }
    None
}

/// The location in a schema that a word names.
fn type_system_location_of(word: &str) -> Option<Location>
    ensures { result ≡ find_by location_word type_system_locations word.now }
{
    if word == "SCHEMA" {
        return Some(Location::Schema);
    }
    if word == "SCALAR" {
        return Some(Location::Scalar);
    }
    if word == "OBJECT" {
        return Some(Location::Object);
    }
    if word == "FIELD_DEFINITION" {
        return Some(Location::FieldDefinition);
    }
    if word == "ARGUMENT_DEFINITION" {
        return Some(Location::ArgumentDefinition);
    }
    if word == "INTERFACE" {
        return Some(Location::Interface);
    }
    if word == "UNION" {
        return Some(Location::Union);
    }
    if word == "ENUM" {
        return Some(Location::Enum);
    }
    if word == "ENUM_VALUE" {
        return Some(Location::EnumValue);
    }
    if word == "INPUT_OBJECT" {
        return Some(Location::InputObject);
    }
    if word == "INPUT_FIELD_DEFINITION" {
        return Some(Location::InputFieldDefinition);
    }
    None
}

/// Whether a word is one of `true`, `false`, `null`, and so names no value of an enum (section 2.9.6).
pub(crate) fn is_reserved_word(word: &str) -> bool
    ensures { result ≡ is_reserved word.now }
{
    if word == "true" {
        return true;
    }
    if word == "false" {
        return true;
    }
    word == "null"
}
