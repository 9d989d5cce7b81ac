//! Schemas of which each breaks one of the rules S4 to S12, and neighbours that are accepted. The
//! rules are those of GraphQL (October 2021, section 3), with the profile of this project.
//!
//! A row is a rule and a schema on one line. A `^` stands in front of the place where the rule does
//! not hold, and is no part of the schema. Rows begin with `ok` where no rule is broken.
use crate::rows::place_after;
use crate::schemas::fault_of;
use std::alloc::Global;
use std::process::Abort;
use std::test::Fail;

/// What is to be told of a row as `RULE 0 LINE COLUMN`; nothing where no rule is broken.
fn answer_due(alloc: Global, rule: &str, schema: &str) -> Result<String, Fail> {
    let Some((before, _)) = schema.split_once('^') else {
        return Ok(String::new(alloc));
    };
    let (line, column) = place_after(before);
    Ok(format!(in alloc; "{rule} 0 {line} {column}")?)
}

/// Compares what is told of each row with what it says.
fn compare(rt: &impl Abort, alloc: Global, rows: &str) -> Result<(), Fail> {
    for row in rows.lines() {
        if let Some((rule, schema)) = row.split_once(' ') {
            let wanted = answer_due(alloc, rule, schema)?;
            let text = schema.replace(alloc, '^', "")?;
            let found = fault_of(alloc, 0, text.as_str())?;
            assert_eq!(rt; found.as_str(), wanted.as_str(), "at {row}");
        }
    }
    Ok(())
}

#[test]
fn names_members_and_types(rt: HostRuntime) -> Result<(), Fail> {
    let rows = "S4 type Query { a: Int } type ^__T { a: Int }
S4 type Query { ^__a: Int }
S4 type Query { a(^__x: Int): Int }
S4 type Query { a: Int } interface N { a(x: Int, ^__y: Int): Int }
S4 type Query { a: Int } input I { x: Int ^__y: Int }
S4 type Query { a: Int } enum E { A ^__B }
S4 type Query { a: Int } directive @^__d on FIELD
S4 type Query { a: Int } directive @d(^__x: Int) on FIELD
S4 type Query { a: Int } scalar ^__S
S4 type Query { a: Int a: Int } union ^__U = Query
ok type Query { _a: Int a__b(_x: Int): Int _: Int } enum E { _A A__ } input _I { x__: Int }
S5 type Query { a: Int ^a: String a: Int }
S5 type Query { a(x: Int, ^x: Int): Int }
S5 type Query { a: Int } interface N { a: Int b: Int ^b: Int }
S5 type Query { a: Int } enum E { A B ^A }
S5 type Query { a: Int } union U = Query | ^Query
S5 type Query { a: Int } input I { x: Int ^x: Int }
S5 interface N { a: Int } type Query implements N & ^N { a: Int }
S5 type Query { a: I } input I { x: Int } type T { a: Int ^a: Int }
ok type Query { a(x: Int): Int b(x: Int): Int } input I { x: Int } input J { x: Int } enum E { A } enum F { A }
ok type Query { a: Int } directive @d(x: Int x: String) on FIELD
S6 type Query { a: ^I } input I { x: Int }
S6 type Query { a(x: [^Query!]): Int }
S6 type Query { a: Int } interface N { a: [^I] } input I { x: Int }
S6 type Query { a: Int } input I { x: ^Query }
S6 type Query { a: Int } union U = Query input I { x: Int y: ^U! }
S6 type Query { a: Int } interface N { a: Int } type T { b(x: Int, y: ^N): Int }
S6 type Query { a: Int } directive @d(x: ^Query) on FIELD
S6 type Query implements S { a: Int } scalar S type T { b: ^I } input I { x: Int }
ok type Query { a(x: I, y: E, z: S): E b: S c: U d: N } input I { x: I } enum E { A } scalar S union U = Query interface N { a: Int }";
    compare(&rt, rt.alloc(), rows)?;
    Ok(())
}

#[test]
fn interfaces_are_met(rt: HostRuntime) -> Result<(), Fail> {
    let rows = "S7 type Query implements ^T { a: Int } type T { a: Int }
S7 type Query implements ^S { a: Int } scalar S
S7 type Query implements ^U { a: Int } union U = Query
S7 type Query implements ^Query { a: Int }
S7 interface N implements ^N { a: Int } type Query { a: Int }
S7 interface N { a: Int } interface M implements N { a: Int } type ^Query implements M { a: Int }
S7 interface ^N implements M { a: Int } interface M implements N { a: Int } type Query { a: Int }
S7 interface N { a: Int } type Query implements N { b: Int } type T implements N & ^Query { a: Int }
ok interface N { a: Int } interface M implements N { a: Int } type Query implements M & N { a: Int }
ok interface N { a: Int } interface M implements N { a: Int } type Query implements N { a: Int }
S8 interface N { a: Int b: Int } type ^Query implements N { a: Int }
S8 interface N { a: Int } interface ^M implements N { b: Int } type Query { a: Int }
S8 interface N { a: Int } type Query implements N { a: ^String }
S8 interface N { a: Int! } type Query implements N { a: ^Int }
S8 interface N { a: [Int] } type Query implements N { a: ^Int }
S8 interface N { a: Int } type Query implements N { a: [^Int] }
S8 interface N { a: [Int!] } type Query implements N { a: [^Int]! }
S8 interface N { n: N } type Query implements N { n: ^T } type T { a: Int }
S8 interface N { n: U } union U = Query type Query implements N { n: ^T } type T { a: Int }
S8 interface N { n: T } type Query implements N { n: ^N } type T { a: Int }
S8 interface N { a(x: Int): Int } type Query implements N { ^a: Int }
S8 interface N { a(x: Int): Int } type Query implements N { a(x: ^String): Int }
S8 interface N { a(x: Int): Int } type Query implements N { a(x: ^Int!): Int }
S8 interface N { a(x: Int!): Int } type Query implements N { a(x: ^Int): Int }
S8 interface N { a: Int } type Query implements N { a(^x: Int!): Int }
S8 interface N { a: Int } interface M { b: Int } type Query implements N & M { a: Int b: ^String }
S8 interface N { a: Int } type Query implements N { a: ^String } type T
ok interface N { n: N u: U l: [N] } union U = Query type Query implements N { n: Query! u: Query l: [Query!]! }
ok interface N { n: N } interface M implements N { n: M } type Query implements M & N { n: Query }
ok interface N { a(x: Int): Int } type Query implements N { a(y: Int, x: Int, z: Int! = 1): Int! b: Int }";
    compare(&rt, rt.alloc(), rows)?;
    Ok(())
}

#[test]
fn interfaces_of_towers_are_met(rt: HostRuntime) -> Result<(), Fail> {
    let rows =
        "ok interface A { a: Int } interface B implements A { a: Int } interface C implements A & B { a: Int } interface D implements A & B & C { a: Int } interface E implements A & B & C & D { a: Int } interface F implements A & B & C & D & E { a: Int } interface G implements A & B & C & D & E & F { a: Int } interface H implements A & B & C & D & E & F & G { a: Int } interface I implements A & B & C & D & E & F & G & H { a: Int } interface J implements A & B & C & D & E & F & G & H & I { a: Int } interface K implements A & B & C & D & E & F & G & H & I & J { a: Int } type Query implements A & B & C & D & E & F & G & H & I & J & K { a: Int }
ok type Query implements K & J & I & H & G & F & E & D & C & B & A { a: Int } interface K implements A & B & C & D & E & F & G & H & I & J { a: Int } interface J implements A & B & C & D & E & F & G & H & I { a: Int } interface I implements A & B & C & D & E & F & G & H { a: Int } interface H implements A & B & C & D & E & F & G { a: Int } interface G implements A & B & C & D & E & F { a: Int } interface F implements A & B & C & D & E { a: Int } interface E implements A & B & C & D { a: Int } interface D implements A & B & C { a: Int } interface C implements A & B { a: Int } interface B implements A { a: Int } interface A { a: Int }
S7 interface A { a: Int } interface B implements A { a: Int } interface C implements A & B { a: Int } interface D implements A & B & C { a: Int } interface E implements A & B & C & D { a: Int } interface F implements A & B & C & D & E { a: Int } interface G implements A & B & C & D & E & F { a: Int } interface H implements A & B & C & D & E & F & G { a: Int } interface I implements A & B & C & D & E & F & G & H { a: Int } interface J implements A & B & C & D & E & F & G & H & I { a: Int } interface K implements A & B & C & D & E & F & G & H & I & J { a: Int } type ^Query implements A & B & D & E & F & G & H & I & J & K { a: Int }
S7 interface A { a: Int } interface B implements A { a: Int } interface C implements A & B { a: Int } interface D implements A & B & C { a: Int } interface E implements A & B & C & D { a: Int } interface F implements A & B & C & D & E { a: Int } interface G implements A & B & C & D & E & F { a: Int } interface H implements A & B & C & D & E & F & G { a: Int } interface I implements A & B & C & D & E & F & G & H { a: Int } interface J implements A & B & C & D & E & F & G & H & I { a: Int } interface ^K implements A & C & D & E & F & G & H & I & J { a: Int } type Query implements A & B & C & D & E & F & G & H & I & J & K { a: Int }
S7 type ^Query implements K & A & C & D & E & F & G & H & I & J { a: Int } interface A { a: Int } interface B implements A { a: Int } interface C implements A & B { a: Int } interface D implements A & B & C { a: Int } interface E implements A & B & C & D { a: Int } interface F implements A & B & C & D & E { a: Int } interface G implements A & B & C & D & E & F { a: Int } interface H implements A & B & C & D & E & F & G { a: Int } interface I implements A & B & C & D & E & F & G & H { a: Int } interface J implements A & B & C & D & E & F & G & H & I { a: Int } interface K implements A & C & D & E & F & G & H & I & J { a: Int }";
    compare(&rt, rt.alloc(), rows)?;
    Ok(())
}

#[test]
fn unions_inputs_and_defaults(rt: HostRuntime) -> Result<(), Fail> {
    let rows = "S9 type Query { a: Int } type ^T
S9 interface ^N type Query { a: Int }
S9 type Query { a: Int } input ^I
S9 type Query { a: Int } enum ^E
S9 type Query { a: Int } union ^U
S9 type Query { a: Int } union U = Query | ^N interface N { a: Int }
S9 type Query { a: Int } union U = ^E enum E { A }
S9 type Query { a: Int } union U = Query union V = ^U
S9 type Query { a: Int } union U = ^Int
S9 type Query { a: Int } input I { i: I! } enum ^E
ok type Query { a: Int } union U = Query scalar S
S10 type Query { a: Int } input ^I { i: I! }
S10 type Query { a: Int } input ^I { j: J! } input J { i: I! }
S10 type Query { a: Int } input J { k: K! } input ^K { x: Int k: K! }
S10 type Query { a: Int } input ^I { j: J! } input J { k: K! } input K { i: I! }
S10 type Query { a: Int } input ^I { x: Int i: I! = {x: 1} }
ok type Query { a: Int } input I { i: I } input J { j: [J!]! } input K { l: L! m: L! } input L { k: K l: [K] }
S11 type Query { a(^x: Int = \"1\"): Int }
S11 type Query { a(^x: Int! = null): Int }
S11 type Query { a(x: Int = 1, ^y: ID = true): Int }
S11 type Query { a: Int } interface N { a(^x: String = 1): Int }
S11 type Query { a: Int } directive @d(^x: Boolean = 1) on FIELD
S11 type Query { a: Int } input I { ^x: Int = 2147483648 }
S11 type Query { a: Int } input I { ^x: [Int] = [1, \"2\"] }
S11 type Query { a: Int } input I { ^x: [Int!] = [1, null] }
S11 type Query { a: Int } input I { ^x: [[Int]] = [1] }
S11 type Query { a: Int } input I { ^e: E = B } enum E { A }
S11 type Query { a: Int } input I { ^e: E = \"A\" } enum E { A }
S11 type Query { a: Int } input I { ^j: J = {} } input J { x: Int! }
S11 type Query { a: Int } input I { ^j: J = {y: 1} } input J { x: Int }
S11 type Query { a: Int } input I { ^j: J = {x: 1, x: 1} } input J { x: Int }
S11 type Query { a: Int } input I { ^j: J = 1 } input J { x: Int }
S11 type Query { a: [[Query]] b(^x: Int = \"1\"): Int }
ok type Query { a(x: [[Int]] = 1, y: ID = 1, z: Float = 1, s: S = {a: 1, a: [A]}, e: E = A): Int } enum E { A } scalar S
ok type Query { a: Int } input J { x: Int! = 1 y: J = null l: [J!] = {x: 2} m: [J] = [null, {}] }
S12 type Query { a: [[^Query]] }
S12 type Query { a: [[^U]!]! } union U = Query
S12 type Query { a: Int } interface N { n: [[[^N]]] }
ok type Query { a: [[Int]] b: [Query!]! c: [[[E]!]] } enum E { A }";
    compare(&rt, rt.alloc(), rows)?;
    Ok(())
}
