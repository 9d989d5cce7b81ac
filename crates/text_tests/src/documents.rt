//! Documents with their trees and the places of their nodes, and faults with their places.
use crate::texts::{list_places, short, times};
use gql_parse::gql_ast::{Document, ParseFault, Placed};
use gql_parse::parse_document;
use std::alloc::Global;
use std::test::Fail;

/// A document, or what is wrong with its text.
fn read(alloc: Global, text: &str) -> Result<Placed<Document>, ParseFault> {
    parse_document(alloc, 7, short(text.as_bytes()))
}

/// The tree of a text, as it is printed.
fn tree(alloc: Global, text: &str) -> Result<String, Fail> {
    match read(alloc, text) {
        Ok(document) => Ok(format!(in alloc; "{:?}", document.tree)?),
        Err(fault) => Ok(format!(in alloc; "{fault:?}")?),
    }
}

/// The places of the nodes of a text.
fn places(alloc: Global, text: &str) -> Result<String, Fail> {
    match read(alloc, text) {
        Ok(document) => list_places(alloc, &document.places),
        Err(fault) => Ok(format!(in alloc; "{fault:?}")?),
    }
}

/// The code of the fault of a text, with its line and column.
fn fault(alloc: Global, text: &str) -> Result<String, Fail> {
    match read(alloc, text) {
        Ok(_) => Ok(String::new(alloc)),
        Err(ParseFault::Syntax(fault)) => {
            Ok(format!(in alloc; "{} {}:{}", fault.code, fault.line, fault.column)?)
        }
        Err(ParseFault::NoMemory) => Ok(format!(in alloc; "no memory")?),
    }
}

#[test]
fn an_operation_with_variables(rt: HostRuntime) -> Result<(), Fail> {
    let text = "query Q($a: [T!]! = [1, {b: C}] @d, $e: F) @g(h: \"i\", j: $a) { k }";
    let read = tree(rt.alloc(), text)?;
    let tree =
        "Document { definitions: Definitions { items: [Operation(Operation { kind: Query, name: \
         Some(Words { text: \"Q\" }), variables: VariableDefs { items: [VariableDef { name: Words { \
         text: \"a\" }, of: NonNull(TypeBox { of: List(TypeBox { of: NonNull(TypeBox { of: \
         Named(Words { text: \"T\" }) }) }) }), default: Some(List(ValueTrees { items: [Int(1), \
         Object(Arguments { items: [Argument { name: Words { text: \"b\" }, value: Enum(Words { \
         text: \"C\" }) }] })] })), directives: Directives { items: [Directive { name: Words { \
         text: \"d\" }, arguments: Arguments { items: [] } }] } }, VariableDef { name: Words { \
         text: \"e\" }, of: Named(Words { text: \"F\" }), default: None, directives: Directives { \
         items: [] } }] }, directives: Directives { items: [Directive { name: Words { text: \"g\" \
         }, arguments: Arguments { items: [Argument { name: Words { text: \"h\" }, value: \
         Text(Words { text: \"i\" }) }, Argument { name: Words { text: \"j\" }, value: \
         Variable(Words { text: \"a\" }) }] } }] }, selections: Selections { items: [Field { alias: \
         None, name: Words { text: \"k\" }, arguments: Arguments { items: [] }, directives: \
         Directives { items: [] }, selections: Selections { items: [] } }] } })] } }";
    assert_eq!(rt; read.as_str(), tree);
    Ok(())
}

#[test]
fn places_of_an_operation_with_variables(rt: HostRuntime) -> Result<(), Fail> {
    let text = "query Q($a: [T!]! = [1, {b: C}] @d, $e: F) @g(h: \"i\", j: $a) { k }";
    let read = places(rt.alloc(), text)?;
    let places =
        "1:1 1:1 1:1 1:7 1:9 1:10 1:13 1:13 1:14 1:14 1:14 1:21 1:22 1:25 1:26 1:26 1:29 1:29 1:33 \
         1:34 1:37 1:38 1:41 1:41 1:44 1:45 1:47 1:47 1:50 1:55 1:55 1:58 1:59 1:64 1:64 ";
    assert_eq!(rt; read.as_str(), places);
    Ok(())
}

#[test]
fn selections_of_each_form(rt: HostRuntime) -> Result<(), Fail> {
    let text = "{ k: l(m: true, n: null) @o { p } ...q @r ... on S @t { u } ... { v } }";
    let read = tree(rt.alloc(), text)?;
    let tree =
        "Document { definitions: Definitions { items: [Operation(Operation { kind: Query, name: \
         None, variables: VariableDefs { items: [] }, directives: Directives { items: [] }, \
         selections: Selections { items: [Field { alias: Some(Words { text: \"k\" }), name: Words { \
         text: \"l\" }, arguments: Arguments { items: [Argument { name: Words { text: \"m\" }, \
         value: Bool(true) }, Argument { name: Words { text: \"n\" }, value: Null }] }, directives: \
         Directives { items: [Directive { name: Words { text: \"o\" }, arguments: Arguments { \
         items: [] } }] }, selections: Selections { items: [Field { alias: None, name: Words { \
         text: \"p\" }, arguments: Arguments { items: [] }, directives: Directives { items: [] }, \
         selections: Selections { items: [] } }] } }, Spread { name: Words { text: \"q\" }, \
         directives: Directives { items: [Directive { name: Words { text: \"r\" }, arguments: \
         Arguments { items: [] } }] } }, Inline { on: Some(Words { text: \"S\" }), directives: \
         Directives { items: [Directive { name: Words { text: \"t\" }, arguments: Arguments { \
         items: [] } }] }, selections: Selections { items: [Field { alias: None, name: Words { \
         text: \"u\" }, arguments: Arguments { items: [] }, directives: Directives { items: [] }, \
         selections: Selections { items: [] } }] } }, Inline { on: None, directives: Directives { \
         items: [] }, selections: Selections { items: [Field { alias: None, name: Words { text: \
         \"v\" }, arguments: Arguments { items: [] }, directives: Directives { items: [] }, \
         selections: Selections { items: [] } }] } }] } })] } }";
    assert_eq!(rt; read.as_str(), tree);
    Ok(())
}

#[test]
fn places_of_selections_of_each_form(rt: HostRuntime) -> Result<(), Fail> {
    let text = "{ k: l(m: true, n: null) @o { p } ...q @r ... on S @t { u } ... { v } }";
    let read = places(rt.alloc(), text)?;
    let places =
        "1:1 1:1 1:1 1:3 1:3 1:6 1:8 1:8 1:11 1:17 1:17 1:20 1:26 1:27 1:31 1:31 1:35 1:38 1:40 \
         1:41 1:43 1:50 1:52 1:53 1:57 1:57 1:61 1:67 1:67 ";
    assert_eq!(rt; read.as_str(), places);
    Ok(())
}

#[test]
fn operations_and_fragments(rt: HostRuntime) -> Result<(), Fail> {
    let text = "mutation { x }\nsubscription Y { z }\nfragment A on B @c { d }";
    let read = tree(rt.alloc(), text)?;
    let tree =
        "Document { definitions: Definitions { items: [Operation(Operation { kind: Mutation, name: \
         None, variables: VariableDefs { items: [] }, directives: Directives { items: [] }, \
         selections: Selections { items: [Field { alias: None, name: Words { text: \"x\" }, \
         arguments: Arguments { items: [] }, directives: Directives { items: [] }, selections: \
         Selections { items: [] } }] } }), Operation(Operation { kind: Subscription, name: \
         Some(Words { text: \"Y\" }), variables: VariableDefs { items: [] }, directives: Directives \
         { items: [] }, selections: Selections { items: [Field { alias: None, name: Words { text: \
         \"z\" }, arguments: Arguments { items: [] }, directives: Directives { items: [] }, \
         selections: Selections { items: [] } }] } }), Fragment(Fragment { name: Words { text: \
         \"A\" }, on: Words { text: \"B\" }, directives: Directives { items: [Directive { name: \
         Words { text: \"c\" }, arguments: Arguments { items: [] } }] }, selections: Selections { \
         items: [Field { alias: None, name: Words { text: \"d\" }, arguments: Arguments { items: [] \
         }, directives: Directives { items: [] }, selections: Selections { items: [] } }] } })] } }";
    assert_eq!(rt; read.as_str(), tree);
    Ok(())
}

#[test]
fn places_of_operations_and_fragments(rt: HostRuntime) -> Result<(), Fail> {
    let text = "mutation { x }\nsubscription Y { z }\nfragment A on B @c { d }";
    let read = places(rt.alloc(), text)?;
    let places =
        "1:1 1:1 1:1 1:12 1:12 2:1 2:1 2:14 2:18 2:18 3:1 3:1 3:10 3:15 3:17 3:18 3:22 3:22 ";
    assert_eq!(rt; read.as_str(), places);
    Ok(())
}

#[test]
fn places_in_lines_and_characters(rt: HostRuntime) -> Result<(), Fail> {
    let read = places(rt.alloc(), "\u{FEFF}{\r\n a(b: \"\u{E9}\" c: 1)\r d\n}")?;
    assert_eq!(rt;
        read.as_str(),
        "1:2 1:2 1:2 2:2 2:2 2:4 2:4 2:7 2:11 2:11 2:14 3:2 3:2 "
    );
    Ok(())
}

#[test]
fn faults_with_their_places(rt: HostRuntime) -> Result<(), Fail> {
    let rows = " 6 1:1
{ a 6 1:4
{} 6 1:2
{ a {} } 6 1:6
{ a } on 6 1:7
fragment on on T { a } 6 1:10
fragment a b T { c } 6 1:12
query($a: T = $b) { c } 6 1:15
query() { a } 6 1:7
{ ... on } 6 1:10
{ ... @a } 6 1:10
{ a(b: $) } 6 1:9
{ a } ? 1 1:7
query A \u{E9} 1 1:9";
    for row in rows.lines() {
        if let Some((text, wanted)) = row.rsplit_once(' ') {
            if let Some((text, code)) = text.rsplit_once(' ') {
                let told = fault(rt.alloc(), text)?;
                let wanted = format!(in rt.alloc(); "{code} {wanted}")?;
                assert_eq!(rt; told.as_str(), wanted.as_str());
            }
        }
    }
    Ok(())
}

#[test]
fn faults_after_line_ends(rt: HostRuntime) -> Result<(), Fail> {
    let told = fault(rt.alloc(), "{\r\n a\r\n]")?;
    assert_eq!(rt; told.as_str(), "6 3:1");
    Ok(())
}

#[test]
fn sixty_one_nested_are_too_deep(rt: HostRuntime) -> Result<(), Fail> {
    let sets = fault(rt.alloc(), times(rt.alloc(), "", "{a", 61)?.as_str())?;
    assert_eq!(rt; sets.as_str(), "8 1:121");
    let lists = fault(rt.alloc(), times(rt.alloc(), "{a(b:", "[", 61)?.as_str())?;
    assert_eq!(rt; lists.as_str(), "8 1:66");
    let types = fault(
        rt.alloc(),
        times(rt.alloc(), "query($a:", "[", 61)?.as_str(),
    )?;
    assert_eq!(rt; types.as_str(), "8 1:70");
    Ok(())
}

#[test]
fn sixty_may_be_nested(rt: HostRuntime) -> Result<(), Fail> {
    let sets = fault(rt.alloc(), times(rt.alloc(), "", "{a", 60)?.as_str())?;
    assert_eq!(rt; sets.as_str(), "6 1:121");
    Ok(())
}

#[test]
fn bytes_that_are_no_text(rt: HostRuntime) -> Result<(), Fail> {
    let read = parse_document(rt.alloc(), 7, b"{ a }\xFF");
    let told = format!(in rt.alloc(); "{read:?}")?;
    assert_eq!(rt;
        told.as_str(),
        "Err(Syntax(SyntaxFault { file: 7, line: 1, column: 1, code: 7 }))"
    );
    Ok(())
}
