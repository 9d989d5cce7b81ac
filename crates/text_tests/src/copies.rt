//! Copies of trees, of each form that a document or a schema has.
use crate::texts::short;
use gql_parse::gql_ast::{Documents, Placed, SchemaTree};
use gql_parse::parse_document;
use gql_sdl::parse_schema;
use std::alloc::Global;
use std::test::Fail;

const DOCUMENT: &str = "query Q($x: [T!] = 1 @d, $y: U!) @d(k: $x) {\n\
    a: f(k: -1, k: \"t\", k: true, k: null, k: E, k: [1], k: {k: 1}) @d { ...F @d }\n\
    ... on T @d { g } ... { h }\n\
    } mutation { m } subscription S { s } fragment F on T @d { h }";

const SCHEMA: &str = "schema @d { query: O mutation: M }\n\
    scalar S @d type O implements I & J @d { f(i: [T!]! = null @d, j: T): [T!]! @d }\n\
    interface I implements J @d { f: T } union U @d = O | P enum E @d { V @d W }\n\
    input In @d { i: T = {k: [1, \"t\"]} @d } directive @d(i: T) repeatable on FIELD | QUERY\n\
    directive @e on SCHEMA";

/// The document of the text, twice.
fn documents(alloc: Global) -> Result<Documents, Fail> {
    let mut documents = Documents::new(alloc);
    for file in 0..2 {
        documents.push(parse_document(alloc, file, short(DOCUMENT.as_bytes()))?)?;
    }
    Ok(documents)
}

/// The schema of the text.
fn schema(alloc: Global) -> Result<Placed<SchemaTree>, Fail> {
    Ok(parse_schema(alloc, 0, short(SCHEMA.as_bytes()))?)
}

#[test]
fn a_copy_of_documents_is_the_same(rt: HostRuntime) -> Result<(), Fail> {
    let documents = documents(rt.alloc())?;
    let copy = documents.copy()?;
    assert_eq!(rt; copy.len(), 2);
    assert_eq!(rt;
        format!(in rt.alloc(); "{copy:?}")?,
        format!(in rt.alloc(); "{documents:?}")?
    );
    Ok(())
}

#[test]
fn a_copy_of_a_schema_is_the_same(rt: HostRuntime) -> Result<(), Fail> {
    let schema = schema(rt.alloc())?;
    let copy = schema.copy()?;
    assert_eq!(rt; copy.tree.definitions.len(), 9);
    assert_eq!(rt;
        format!(in rt.alloc(); "{copy:?}")?,
        format!(in rt.alloc(); "{schema:?}")?
    );
    Ok(())
}
