//! V6, root types (GraphQL, October 2021, section 3.3.1): the root type of an operation's kind
//! exists. `mutation M { rename }` breaks it at `M` where the schema has no mutation type.
ghost use Rattle.std.specs.Prelude.{◌≡◌, map, is_some};
ghost use Rattle.doc_sites.specs.SitesView.{definition_of, operation_of};
ghost use Rattle.doc_sites.specs.gql_graph.Leasts.{least_from};
ghost use Rattle.doc_sites.specs.schema_types.NameRules as names;
ghost use Rattle.doc_sites.specs.schema_tables.Types as types;
ghost use Rattle.doc_sites.specs.Definitions.{on_operation};

use doc_sites::least::Least;
use doc_sites::{DefinitionAt, Kind, OperationAt, Schema};

/// Operations of kinds that the schema has no root for, by their names.
pub(crate) fn roots_missing(schema: &Schema, least: &mut Least, definitions: &[DefinitionAt<'_>])
    ensures { least.new.at ≡ least_from least.old.at (names.roots_missing schema.now (map definition_of definitions.now)) }
{
    'definitions: for definition in definitions {
        note_without_root_in(schema, least, definition);
    }
}

/// A definition, where it is an operation that has a name and no root.
fn note_without_root_in(schema: &Schema, least: &mut Least, definition: &DefinitionAt<'_>)
    ensures { least.new.at ≡ least_from least.old.at (on_operation (λ o. names.without_root schema.now o o.name) (definition_of definition.now)) }
{
    match definition {
        DefinitionAt::Operation(operation) => note_without_root(schema, least, operation),
        DefinitionAt::Fragment(_) => {}
    }
}

/// An operation, where it has a name and no root.
fn note_without_root(schema: &Schema, least: &mut Least, operation: &OperationAt<'_>)
    ensures { least.new.at ≡ least_from least.old.at (names.without_root schema.now (operation_of operation.now) (operation_of operation.now).name) }
{
    match &operation.name {
        Some(name) => least.note_if(!has_root(schema, operation.kind), name.at),
        None => {}
    }
}

/// Whether the schema has a root for a kind.
fn has_root(schema: &Schema, kind: Kind) -> bool
    ensures { result ≡ is_some (types.root schema.now kind) }
{
    match schema.root(kind) {
        Some(_) => true,
        None => false,
    }
}
