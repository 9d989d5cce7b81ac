//! Texts of schemas and documents, and what their definitions are expanded to.
ghost use Rattle.std.specs.Prelude.{◌<◌, length};

use gql_sdl::parse_schema;
use plan_expand::{ExpandFault, Expander, Form, definitions_at, expand};
use plan_ir::{Documents, Expanded, Name, Schema, Words};
use plan_text::parse_document;
use std::alloc::Global;
use std::process::Abort;
use std::test::Fail;

/// A schema with connections of each kind of node, and a directive that may stand several times.
pub(crate) const SCHEMA: &str = "interface Node { id: ID! }
union Thing = User | Tag
scalar Any
type Query {
  me: User node(id: ID!): Node team(size: Int): [User] thing: Thing find(by: Any): Int
}
type Mutation { rename(name: String!): User }
type User implements Node {
  id: ID! name: String age: Int friend: User address: Address tags: [Tag]
  friends(first: Int, after: String, last: Int, before: String): UserConnection
  things: ThingConnection pages: TagConnection
}
type Address { city: String }
type Tag { text: String }
type UserConnection { edges: [UserEdge] pageInfo: PageInfo! }
type UserEdge { cursor: String node: User }
type ThingConnection { edges: [ThingEdge] pageInfo: PageInfo! }
type ThingEdge { cursor: String node: Thing }
type TagConnection { edges: [TagEdge!]! pageInfo: PageInfo }
type TagEdge { cursor: String! node: Tag! id: ID! }
type PageInfo {
  hasNextPage: Boolean! hasPreviousPage: Boolean! startCursor: String endCursor: String
}
directive @own(n: Int) repeatable on FIELD | FRAGMENT_SPREAD | INLINE_FRAGMENT | QUERY";

/// The bytes, or none where they are too many for a test.
fn text_within_limit(bytes: &[u8]) -> &[u8]
    ensures { length result.now < 2000000 }
{
    if bytes.len() < 2_000_000 {
        return bytes;
    }
    &[]
}

/// The schema of a text that meets all rules.
pub(crate) fn schema(alloc: Global, text: &str) -> Result<Schema, Fail> {
    let tree = parse_schema(alloc, 0, text_within_limit(text.as_bytes()))?;
    Ok(Schema::build(alloc, tree.tree.definitions)?)
}

/// The documents of one text.
pub(crate) fn documents(alloc: Global, text: &str) -> Result<Documents, Fail> {
    let mut documents = Documents::new(alloc);
    documents.push(parse_document(alloc, 1, text_within_limit(text.as_bytes()))?)?;
    Ok(documents)
}

/// The name and the form of a definition: the name of a fragment ends with `#`.
pub(crate) fn name_and_form(alloc: Global, name: &str) -> Result<(Name, Form), Fail> {
    match name.split_once('#') {
        Some((name, _)) => Ok((Words::new(alloc, name)?, Form::Fragment)),
        None => Ok((Words::new(alloc, name)?, Form::Operation)),
    }
}

/// The expansion of the definition of a name in a document, or the cause why it is not expanded;
/// nothing where there is none of that name.
pub(crate) fn expansion(
    alloc: Global,
    schema: &Schema,
    text: &str,
    name: &str,
) -> Result<Option<Result<Expanded, ExpandFault>>, Fail> {
    let documents = documents(alloc, text)?;
    let definitions = definitions_at(alloc, schema, &documents)?;
    let expander = Expander::new(alloc, schema, &documents, &definitions)?;
    let (name, form) = name_and_form(alloc, name)?;
    if !expander.has(&name, form) {
        return Ok(None);
    }
    Ok(Some(expander.expand(alloc, &name, form)))
}

/// The expansion of a definition that is there and within the limits, by one call.
pub(crate) fn expansion_alone(
    alloc: Global,
    schema: &Schema,
    documents: &Documents,
    name: &str,
) -> Result<Option<Expanded>, Fail> {
    let definitions = definitions_at(alloc, schema, documents)?;
    let expander = Expander::new(alloc, schema, documents, &definitions)?;
    let (name, form) = name_and_form(alloc, name)?;
    if !expander.has(&name, form) {
        return Ok(None);
    }
    match expand(alloc, schema, documents, &name, form) {
        Ok(expanded) => Ok(Some(expanded)),
        Err(_) => Ok(None),
    }
}
