//! The place of the `schema` definition.
ghost use Rattle.std.specs.Prelude.{◌≡◌};
ghost use Rattle.schema_tables.specs.Parts.{is_schema};
ghost use Rattle.schema_tables.specs.Places.{first_at};

use gql_ast::SchemaDef;

/// The place of the first `schema` definition.
pub(crate) fn place_of_schema(definitions: &[SchemaDef]) -> Option<usize>
    ensures { result ≡ first_at is_schema definitions.now }
{
    'definitions: for (at, definition) in definitions.iter().enumerate() {
        if defines_schema(definition) {
            return Some(at);
        }
    }
    None
}

/// Whether it is a `schema` definition.
fn defines_schema(definition: &SchemaDef) -> bool
    ensures { result ≡ is_schema definition.now }
{
    matches!(definition, SchemaDef::Schema { .. })
}
