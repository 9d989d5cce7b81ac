//! What a schema says of its types. That each rule on schemas and each look-up of a rule is kept is
//! shown over whole projects.
use crate::texts::{schema, short, text_of_fault};
use plan_ir::{FilePlaces, Ids, Kind, NodeFault, RuleFault, Schema, TypeKind};
use plan_project::{ProjectFault, parse_schema};
use std::alloc::Global;
use std::test::Fail;

const SCHEMA: &str = "type Query { me: ID! } interface Node { id: ID! }\n\
    type Tag implements Node { id: ID! } type Page implements Node { id: ID! }\n\
    union Thing = Tag | Page input Filter { first: Int! } enum Color { RED GREEN }";

#[test]
fn types_are_found(rt: HostRuntime) -> Result<(), Fail> {
    let schema = schema(rt.alloc(), SCHEMA)?;
    assert!(rt; schema.has_id("Page"));
    assert!(rt; !schema.has_id("Query"));
    assert!(rt; schema.is_leaf("Color"));
    assert!(rt; schema.directive("connection").is_some());
    assert!(rt; schema.directive("required").is_none());
    assert!(rt; matches!(schema.root(Kind::Query), Some(name) if name.as_str() == "Query"));
    assert!(rt; schema.root(Kind::Mutation).is_none());
    Ok(())
}

#[test]
fn members_are_found(rt: HostRuntime) -> Result<(), Fail> {
    let schema = schema(rt.alloc(), SCHEMA)?;
    assert!(rt;
        matches!(schema.field("Query", "me"), Some(field) if field.name().as_str() == "me")
    );
    assert!(rt; schema.field("Query", "id").is_none());
    assert!(rt; matches!(schema.inputs("Filter"), Some(inputs) if inputs.items().len() == 1));
    assert!(rt; schema.inputs("Tag").is_none());
    assert!(rt; matches!(schema.enum_names("Color"), Some(names) if names.contains("GREEN")));
    assert!(rt; schema.enum_names("Query").is_none());
    Ok(())
}

/// Whether the possible types of an interface or a union are Page and Tag.
fn may_be_page_or_tag(schema: &Schema, of: &str) -> bool {
    match schema.kind_of(of) {
        Some(TypeKind::Interface) => is_page_and_tag(schema.possible(of)),
        Some(TypeKind::Union) => is_page_and_tag(schema.possible(of)),
        _ => false,
    }
}

fn is_page_and_tag(ids: &Ids) -> bool {
    match ids.as_slice() {
        [first, second] => first.as_str() == "Page" && second.as_str() == "Tag",
        _ => false,
    }
}

#[test]
fn possible_types_are_sorted(rt: HostRuntime) -> Result<(), Fail> {
    let schema = schema(rt.alloc(), SCHEMA)?;
    assert!(rt; may_be_page_or_tag(&schema, "Node"));
    assert!(rt; may_be_page_or_tag(&schema, "Thing"));
    assert!(rt; schema.applies("Tag", "Thing"));
    assert!(rt; !schema.applies("Query", "Node"));
    Ok(())
}

/// The rule of a fault, with the place of its node.
fn text_at(alloc: Global, places: &FilePlaces, fault: &NodeFault) -> Result<String, Fail> {
    match places.as_slice().get(fault.node) {
        Some(place) => text_of_fault(
            alloc,
            &ProjectFault {
                file: place.file,
                line: place.line,
                column: place.column,
                rule: fault.rule,
            },
        ),
        None => Ok(format!(in alloc; "no node")?),
    }
}

/// The fault of a text as the file with this number; nothing where the schema meets all rules.
pub(crate) fn fault_of(alloc: Global, file: u32, text: &str) -> Result<String, Fail> {
    let tree = parse_schema(alloc, file, short(text.as_bytes()))?;
    let places = tree.places;
    match Schema::build(alloc, tree.tree.definitions) {
        Ok(_) => Ok(String::new(alloc)),
        Err(RuleFault::Rule(fault)) => text_at(alloc, &places, &fault),
        Err(RuleFault::NoMemory) => Ok(format!(in alloc; "no memory")?),
    }
}

/// Without a type Query a schema is at fault as a whole.
#[test]
fn faults_have_a_place(rt: HostRuntime) -> Result<(), Fail> {
    let fault = fault_of(rt.alloc(), 2, "\n\n    enum Color { RED }")?;
    assert_eq!(rt; fault.as_str(), "S3 2 3 5");
    Ok(())
}
