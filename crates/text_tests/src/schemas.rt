//! Schemas after the GraphQL specification (October 2021, section 3), with the places of their nodes, and
//! faults with theirs. The trees, the places and the faults are those of graphql-core 3.2.8.
use crate::texts::{list_places, short, times};
use gql_parse::gql_ast::ParseFault;
use gql_sdl::parse_schema;
use std::alloc::Global;
use std::test::Fail;

/// The definitions of a text, as they are printed.
fn definitions_in(alloc: Global, text: &str) -> Result<String, Fail> {
    match parse_schema(alloc, 7, short(text.as_bytes())) {
        Ok(schema) => Ok(format!(in alloc; "{:?}", schema.tree.definitions.as_slice())?),
        Err(fault) => Ok(format!(in alloc; "{fault:?}")?),
    }
}

/// The places of the nodes of a text.
fn places_in(alloc: Global, text: &str) -> Result<String, Fail> {
    match parse_schema(alloc, 7, short(text.as_bytes())) {
        Ok(schema) => list_places(alloc, &schema.places),
        Err(fault) => Ok(format!(in alloc; "{fault:?}")?),
    }
}

/// The line, the column and the code of a text's fault.
fn fault_in(alloc: Global, bytes: &[u8]) -> Result<String, Fail> {
    match parse_schema(alloc, 7, short(bytes)) {
        Err(ParseFault::Syntax(fault)) => Ok(format!(in alloc;
            "{}:{} {}",
            fault.line, fault.column, fault.code
        )?),
        Err(ParseFault::NoMemory) => Ok(format!(in alloc; "no memory")?),
        Ok(_) => Ok(format!(in alloc; "a schema")?),
    }
}

#[test]
fn definitions_of_each_form(rt: HostRuntime) -> Result<(), Fail> {
    let rows =
        "\"\"\"roots\"\"\" schema @a(x: [1, { y: RED }], z: null) { query: Q mutation: M subscription: S }  [Schema { directives: Directives { items: [Directive { name: Words { text: \"a\" }, arguments: Arguments { items: [Argument { name: Words { text: \"x\" }, value: List(ValueTrees { items: [Int(1), Object(Arguments { items: [Argument { name: Words { text: \"y\" }, value: Enum(Words { text: \"RED\" }) }] })] }) }, Argument { name: Words { text: \"z\" }, value: Null }] } }] }, roots: Roots { items: [Root { kind: Query, name: Words { text: \"Q\" } }, Root { kind: Mutation, name: Words { text: \"M\" } }, Root { kind: Subscription, name: Words { text: \"S\" } }] } }]
\"text\" scalar Date @by(url: \"u\\\"v\")  [Scalar { name: Words { text: \"Date\" }, directives: Directives { items: [Directive { name: Words { text: \"by\" }, arguments: Arguments { items: [Argument { name: Words { text: \"url\" }, value: Text(Words { text: \"u\\\"v\" }) }] } }] } }]
type Q implements & I & J @b { \"é\" f(\"d\" a: Int = -1, b: [T!]! @c): [Int] g: T! @d }  [Object { name: Words { text: \"Q\" }, implements: Names { items: [Words { text: \"I\" }, Words { text: \"J\" }] }, directives: Directives { items: [Directive { name: Words { text: \"b\" }, arguments: Arguments { items: [] } }] }, fields: FieldTrees { items: [FieldTree { name: Words { text: \"f\" }, arguments: InputTrees { items: [InputTree { name: Words { text: \"a\" }, of: Named(Words { text: \"Int\" }), default: Some(Int(-1)), directives: Directives { items: [] } }, InputTree { name: Words { text: \"b\" }, of: NonNull(TypeBox { of: List(TypeBox { of: NonNull(TypeBox { of: Named(Words { text: \"T\" }) }) }) }), default: None, directives: Directives { items: [Directive { name: Words { text: \"c\" }, arguments: Arguments { items: [] } }] } }] }, of: List(TypeBox { of: Named(Words { text: \"Int\" }) }), directives: Directives { items: [] } }, FieldTree { name: Words { text: \"g\" }, arguments: InputTrees { items: [] }, of: NonNull(TypeBox { of: Named(Words { text: \"T\" }) }), directives: Directives { items: [Directive { name: Words { text: \"d\" }, arguments: Arguments { items: [] } }] } }] } }]
interface I implements J  [Interface { name: Words { text: \"I\" }, implements: Names { items: [Words { text: \"J\" }] }, directives: Directives { items: [] }, fields: FieldTrees { items: [] } }]
union U @e = | A | B  [Union { name: Words { text: \"U\" }, directives: Directives { items: [Directive { name: Words { text: \"e\" }, arguments: Arguments { items: [] } }] }, members: Names { items: [Words { text: \"A\" }, Words { text: \"B\" }] } }]
enum E { \"first\" RED @f GREEN }  [Enum { name: Words { text: \"E\" }, directives: Directives { items: [] }, values: EnumValues { items: [EnumValue { name: Words { text: \"RED\" }, directives: Directives { items: [Directive { name: Words { text: \"f\" }, arguments: Arguments { items: [] } }] } }, EnumValue { name: Words { text: \"GREEN\" }, directives: Directives { items: [] } }] } }]
input In { a: Int = 3 b: In = { c: true } }  [Input { name: Words { text: \"In\" }, directives: Directives { items: [] }, fields: InputTrees { items: [InputTree { name: Words { text: \"a\" }, of: Named(Words { text: \"Int\" }), default: Some(Int(3)), directives: Directives { items: [] } }, InputTree { name: Words { text: \"b\" }, of: Named(Words { text: \"In\" }), default: Some(Object(Arguments { items: [Argument { name: Words { text: \"c\" }, value: Bool(true) }] })), directives: Directives { items: [] } }] } }]
directive @h(\"x\" a: Int) repeatable on | FIELD | INPUT_FIELD_DEFINITION  [Directive { name: Words { text: \"h\" }, arguments: InputTrees { items: [InputTree { name: Words { text: \"a\" }, of: Named(Words { text: \"Int\" }), default: None, directives: Directives { items: [] } }] }, repeatable: true, locations: Locations { items: [Field, InputFieldDefinition] } }]";
    for row in rows.lines() {
        let Some((text, expected)) = row.split_once("  ") else {
            continue;
        };
        let definitions = definitions_in(rt.alloc(), text)?;
        assert_eq!(rt; definitions.as_str(), expected);
    }
    Ok(())
}

#[test]
fn places_of_nodes(rt: HostRuntime) -> Result<(), Fail> {
    let text =
        "\u{feff}\"\u{e9}\" type T implements & I @a {\r\n  \"d\" f(x: [Int!] = [1, R]): T! @b(c: 2)\r}\nunion U = | A | B\ndirective @d repeatable on | FIELD";
    let expected =
        "1:2 1:2 1:11 1:26 1:28 1:29 2:7 2:7 2:9 2:9 2:12 2:13 2:13 2:13 2:21 2:22 2:25 2:25 2:30 2:30 2:30 2:33 2:34 2:36 2:36 2:39 4:1 4:7 4:13 4:17 5:1 5:12 ";
    let places = places_in(rt.alloc(), text)?;
    assert_eq!(rt; places.as_str(), expected);
    Ok(())
}

#[test]
fn first_faults(rt: HostRuntime) -> Result<(), Fail> {
    let rows = "  1:1 6
\"d\"  1:4 6
\"d\" \"e\" type T  1:5 6
type T {}  1:9 6
type T { \"d\" }  1:14 6
type T { a: Int  1:16 6
enum E { true }  1:10 6
scalar S @a(b: $c)  1:16 6
directive @a on NOPE  1:17 6
union U = |  1:12 6
input I { a: Int ) }  1:18 6
schema {}  1:9 6
extend type T  1:1 6
type T { f: Int! ! }  1:18 6";
    for row in rows.lines() {
        let Some((text, expected)) = row.split_once("  ") else {
            continue;
        };
        let fault = fault_in(rt.alloc(), text.as_bytes())?;
        assert_eq!(rt; fault.as_str(), expected);
    }
    Ok(())
}

#[test]
fn faults_after_line_ends_and_of_bytes(rt: HostRuntime) -> Result<(), Fail> {
    let lexical = fault_in(rt.alloc(), "\u{feff}type T {\r\n  \u{e9} }".as_bytes())?;
    assert_eq!(rt; lexical.as_str(), "2:3 1");
    let bytes = fault_in(rt.alloc(), &[b't', 0xff])?;
    assert_eq!(rt; bytes.as_str(), "1:1 7");
    Ok(())
}

#[test]
fn sixty_list_types_may_be_nested(rt: HostRuntime) -> Result<(), Fail> {
    let sixty = times(rt.alloc(), "", "[", 60)?;
    let deep = format!(in rt.alloc(); "type T {{ f: {}[A", sixty.as_str())?;
    let fault = fault_in(rt.alloc(), deep.as_str().as_bytes())?;
    assert_eq!(rt; fault.as_str(), "1:73 8");
    let open = format!(in rt.alloc(); "type T {{ f: {}A", sixty.as_str())?;
    let fault = fault_in(rt.alloc(), open.as_str().as_bytes())?;
    assert_eq!(rt; fault.as_str(), "1:74 6");
    Ok(())
}
