//! What stands in documents, with the type around it and the numbers of its nodes.
use crate::texts::{documents, schema};
use plan_ir::NoMemory;
use plan_ir::located::NameAt;
use plan_read::{ArgumentAt, DirectiveAt, Site, definitions_at};
use std::alloc::Global;
use std::test::Fail;

const SCHEMA: &str = "type Query { me: User } type User { tag: Int }";

const DOCUMENTS: &str = "query { one: me(id: 7) @skip(if: 7) { tag } ... on User { tag } ...F };\
    fragment F on User { __typename }";

/// The number of a name; 0 where there is none.
fn number(name: &Option<NameAt<'_>>) -> usize {
    match name {
        Some(name) => name.at,
        None => 0,
    }
}

/// The number of the first value; 0 where there is none.
fn value_number(arguments: &[ArgumentAt<'_>]) -> usize {
    match arguments {
        [first, ..] => first.value.at,
        [] => 0,
    }
}

/// The number of the first directive's name; 0 where there is none.
fn directive_number(directives: &[DirectiveAt<'_>]) -> usize {
    match directives {
        [first, ..] => first.name.at,
        [] => 0,
    }
}

fn text_around<'a>(around: &Option<&'a str>) -> &'a str {
    match around {
        Some(name) => name,
        None => "?",
    }
}

/// A site as a line: the type around it, then its numbers and names.
fn line(alloc: Global, site: &Site<'_>) -> Result<String, NoMemory> {
    match site {
        Site::Field {
            around,
            alias,
            name,
            arguments,
            directives,
            has_set,
        } => {
            let around = text_around(around);
            let alias = number(alias);
            let value = value_number(arguments);
            let directive = directive_number(directives);
            Ok(format!(in alloc;
                "{around}: {alias} {} {} {value} {directive} {has_set}\n",
                name.name, name.at
            )?)
        }
        Site::Spread { around, name, .. } => {
            let around = text_around(around);
            Ok(format!(in alloc; "{around}: ...{} {}\n", name.name, name.at)?)
        }
        Site::Inline {
            around,
            first,
            on,
            ..
        } => {
            let around = text_around(around);
            let on = number(on);
            Ok(format!(in alloc; "{around}: ... {first} {on}\n")?)
        }
    }
}

/// The sites as lines.
fn lines(alloc: Global, sites: &[Site<'_>]) -> Result<String, NoMemory> {
    let mut text = String::new(alloc);
    for site in sites {
        text.push_str(&line(alloc, site)?)?;
    }
    Ok(text)
}

#[test]
fn sites_have_types_and_numbers(rt: HostRuntime) -> Result<(), Fail> {
    let alloc = rt.alloc();
    let schema = schema(alloc, SCHEMA)?;
    let documents = documents(alloc, DOCUMENTS)?;
    let definitions = definitions_at(alloc, &schema, &documents)?;
    let mut text = String::new(alloc);
    for definition in &definitions {
        text.push_str(&lines(alloc, definition.sites())?)?;
    }
    let expected = "Query: 4 me 5 8 10 true\n\
        User: 0 tag 15 0 0 false\n\
        Query: ... 16 17\n\
        User: 0 tag 19 0 0 false\n\
        Query: ...F 21\n\
        User: 0 __typename 28 0 0 false\n";
    assert_eq!(rt; text.as_str(), expected);
    Ok(())
}
