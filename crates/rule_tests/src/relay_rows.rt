//! Documents of which each breaks one rule on the directives after Relay or on aliases, and neighbours
//! that are accepted.
//!
//! A row is a rule and the documents of one project, between `;`, each on one line. A `^` stands in
//! front of the place where the rule does not hold, and is no part of the document. Rows begin with
//! `ok` where no rule is broken.
use crate::rows::{SCHEMA, compare};
use std::test::Fail;

/// Types that are, and are not, those of connections.
const CONNECTIONS: &str =
    "type Query { c1: C1 c2: [C2] c3: C3 c4: C4 c5: C5 c6: C6 c7: C7 c8: C8 c9: C9 d1: D1 d2: D2 d3: D3 d4: D4 d5(size: Int!): D5! d6: D6 }
interface Node { id: ID! }
interface Pages { edges: [E] pageInfo: P }
type C1 { edges: [E] }
type C2 { edges: [E] pageInfo: P }
type C3 { edges: E pageInfo: P }
type C4 { edges: [E4] pageInfo: P }
type C5 { edges: [E5] pageInfo: P }
type C6 { edges(first: Int!): [E] pageInfo: P }
type C7 { edges: [E] pageInfo: [P] }
type C8 { edges: [E] pageInfo: P8 }
type C9 { edges: [E9] pageInfo: P }
type D1 { edges: [E] pageInfo: P1 }
type D2 implements Pages { edges: [E] pageInfo: P }
type D3 { edges: [F3] pageInfo: P }
type D4 { edges: [F4] pageInfo: P }
type D5 { edges(first: Int! = 1, last: Int): [F5!]! pageInfo: Q! }
type D6 { edges: [N] pageInfo: P }
union N = E
type E { node: D2 cursor: String }
type E4 { node: D2 }
type E5 { node: [D2] cursor: String }
type E9 { node: D2 cursor: Float }
type F3 { node: String cursor: String }
type F4 { node: D2 cursor: E }
type F5 { node(size: Int): Node! cursor: [String!]! }
type P { hasNextPage: Boolean hasPreviousPage: Boolean startCursor: String endCursor: String }
type P8 { hasNextPage: Boolean hasPreviousPage: Boolean startCursor: Float endCursor: String }
type P1 { hasNextPage: Boolean hasPreviousPage: Boolean startCursor: String endCursor(a: Int!): String }
type Q { hasNextPage: Boolean! hasPreviousPage: [[Int]] startCursor(a: Int): ID endCursor: Color }
enum Color { RED }";

#[test]
fn local_variables(rt: HostRuntime) -> Result<(), Fail> {
    let rows = "V17 fragment F on User @argumentDefinitions(^x: {type: \"[Int\"}) { name }
V17 fragment F on User @argumentDefinitions(^x: {type: \"Int!!\"}) { name }
V17 fragment F on User @argumentDefinitions(^x: {type: \"$x\"}) { name }
V17 fragment F on User @argumentDefinitions(^x: {type: \"\"}) { name }
V17 fragment F on User @argumentDefinitions(^x: {type: \"Int Int\"}) { name }
V17 fragment F on User @argumentDefinitions(^x: {type: \"[[[[[[[[[[[[[[[[[[[[[[[[[[[[[[[[[[[[[[[[[[[[[[[[[[[[[[[[[[[[[Int]]]]]]]]]]]]]]]]]]]]]]]]]]]]]]]]]]]]]]]]]]]]]]]]]]]]]]]]]]]]]\"}) { name }
V17 fragment F on User @argumentDefinitions(^x: {type: \"1\"}) { name }
V17 fragment F on User @argumentDefinitions(^x: {type: \"Int%\"}) { name }
V17 fragment F on User @argumentDefinitions(^x: {type: \"User\"}) { name }
V17 fragment F on User @argumentDefinitions(^x: {type: \"[Thing!]\"}) { name }
V17 fragment F on User @argumentDefinitions(^x: {type: \"Nobody\"}) { name }
V17 fragment F on User @argumentDefinitions(^x: {type: Int}) { name }
V17 fragment F on User @argumentDefinitions(^x: {type: null}) { name }
V17 fragment F on User @argumentDefinitions(^x: {}) { name }
V17 fragment F on User @argumentDefinitions(^x: \"Int\") { name }
V17 fragment F on User @argumentDefinitions(^x: [{type: \"Int\"}]) { name }
V17 fragment F on User @argumentDefinitions(^x: {defaultValue: 1}) { name }
V17 fragment F on User @argumentDefinitions(^x: {type: \"Int\", of: 1}) { name }
V17 fragment F on User @argumentDefinitions(^x: {type: \"Int\", type: \"Int\"}) { name }
V17 fragment F on User @argumentDefinitions(^x: {type: \"Int\", defaultValue: 1, defaultValue: 1}) { name }
V17 fragment F on User @argumentDefinitions(^x: {type: \"Int\", defaultValue: \"a\"}) { name }
V17 fragment F on User @argumentDefinitions(^x: {type: \"Int!\", defaultValue: null}) { name }
V17 fragment F on User @argumentDefinitions(^x: {type: \"[[Int]]\", defaultValue: [1]}) { name }
V17 fragment F on User @argumentDefinitions(^x: {type: \"Filter\", defaultValue: {first: 1, first: 1}}) { name }
V17 fragment F on User @argumentDefinitions(^x: {type: \"Any\", defaultValue: {a: [$v]}}) { name }
V17 fragment F on User @argumentDefinitions(a: {type: \"Int\"}, ^x: {type: \"User\"}, b: {type: \"User\"}) { name }
V17 query A { me { id: name } } fragment F on User @argumentDefinitions(^x: {type: \"User\"}) { name }
V17 query A { me { ...G @arguments(y: 1) } } fragment G on User { name } fragment F on User @argumentDefinitions(^x: {type: \"User\"}) { name }
V17 fragment F on User { name } ; fragment G on User @argumentDefinitions(^x: {type: \"User\"}) { name } ; fragment H on User @argumentDefinitions(x: 1) { name }
ok fragment F on User @argumentDefinitions(x: {type: \"[[[[[[[[[[[[[[[[[[[[[[[[[[[[[[[[[[[[[[[[[[[[[[[[[[[[[[[[[[[[Int]]]]]]]]]]]]]]]]]]]]]]]]]]]]]]]]]]]]]]]]]]]]]]]]]]]]]]]]]]]]\"}) { name }
ok fragment F on User @argumentDefinitions(a: {type: \" [Int!] ,! \"}, b: {defaultValue: RED, type: \"\"\"Color\"\"\"}, c: {type: \"\\u0049nt\"}, d: {type: \"Filter\", defaultValue: {first: 1}}) { name }
ok fragment F on User @argumentDefinitions(a: {type: \"Any\", defaultValue: {x: 1, x: [RED]}}, b: {type: \"Int\", defaultValue: null}, c: {type: \"[[Int]]\", defaultValue: 1}) { name }";
    compare(&rt, rt.alloc(), SCHEMA, rows)?;
    Ok(())
}

#[test]
fn spreads_with_arguments(rt: HostRuntime) -> Result<(), Fail> {
    let rows =
        "V18 query A { me { ...^F @arguments(y: 1) } } fragment F on User @argumentDefinitions(x: {type: \"Int\"}) { name }
V18 query A { me { ...^F @arguments(x: 1) } } fragment F on User { name }
V18 query A { me { ...^F @arguments(x: \"a\") } } fragment F on User @argumentDefinitions(x: {type: \"Int\"}) { name }
V18 query A { me { ...^F @arguments(x: [1]) } } fragment F on User @argumentDefinitions(x: {type: \"[[Int]]\"}) { name }
V18 query A { me { ...^F } } fragment F on User @argumentDefinitions(x: {type: \"Int!\"}) { name }
V18 query A { me { ...^F @arguments } } fragment F on User @argumentDefinitions(x: {type: \"Int!\"}) { name }
V18 query A { me { ...^F @arguments(x: null) } } fragment F on User @argumentDefinitions(x: {type: \"Int!\"}) { name }
V18 query A { me { ...^F @arguments(x: null) } } fragment F on User @argumentDefinitions(x: {type: \"Int!\", defaultValue: 1}) { name }
V18 query A { me { ...^F @arguments(x: 1) } } fragment F on User @argumentDefinitions(x: {type: \"Int!\"}, y: {type: \"Int!\"}) { name }
V18 query A($v: Int) { me { ...^F @arguments(x: $v) } } fragment F on User @argumentDefinitions(x: {type: \"Int!\"}) { name }
V18 query A($v: String) { me { ...^F @arguments(x: $v) } } fragment F on User @argumentDefinitions(x: {type: \"Int\"}) { name }
V18 query A($v: Int) { me { ...^F @arguments(x: {first: $v}) } } fragment F on User @argumentDefinitions(x: {type: \"Filter\"}) { name }
V18 query A($v: String) { me { ...^F @arguments(x: [[1], [$v]]) } } fragment F on User @argumentDefinitions(x: {type: \"[[Int]]\"}) { name }
V18 query A($v: Int) { me { ...F } } fragment F on User { ...^G @arguments(x: $v) } fragment G on User @argumentDefinitions(x: {type: \"Int!\"}) { name }
V18 query A($v: Int!) { me { ...F } } query B($v: Int) { me { ...F } } fragment F on User { ...^G @arguments(x: $v) } fragment G on User @argumentDefinitions(x: {type: \"Int!\"}) { name }
V18 query A($v: Int!) { me { ...F } } query B($v: Int) { me { ...H } } fragment H on User { friend { ...F } } ; fragment F on User { ...^G @arguments(x: $v) } fragment G on User @argumentDefinitions(x: {type: \"Int!\"}) { name }
V18 fragment F on User @argumentDefinitions(v: {type: \"Int\"}) { ...^G @arguments(x: $v) } fragment G on User @argumentDefinitions(x: {type: \"Int!\"}) { name }
V18 fragment F on User @argumentDefinitions(v: {type: \"Int\", defaultValue: null}) { ...^G @arguments(x: $v) } fragment G on User @argumentDefinitions(x: {type: \"Int!\"}) { name }
V18 query A($v: Int!) { me { ...F } } fragment F on User @argumentDefinitions(v: {type: \"String\"}) { ...^G @arguments(x: $v) } fragment G on User @argumentDefinitions(x: {type: \"Int\"}) { name }
V18 query A($m: Boolean!) { me { id: name ...^F } } fragment F on User @argumentDefinitions(x: {type: \"Int!\"}) { name ...G @relay(mask: $m) } fragment G on User { name }
V18 query A($m: Boolean!) { me { ...G @relay(mask: $m) ...^F } } fragment F on User @argumentDefinitions(x: {type: \"Int!\"}) { name } fragment G on User { name }
V18 query A { me { ...F @arguments(x: 1) friend { ...^F } } } ; query B { me { ...F } } fragment F on User @argumentDefinitions(x: {type: \"Int!\"}) { name }
V18 query A { me { ...F @arguments(x: 1) ... { ...^F @arguments(x: true) ...F } } } fragment F on User @argumentDefinitions(x: {type: \"Int!\"}) { name }
ok query A($v: Int!) { me { ...F @arguments(x: $v) } } fragment F on User @argumentDefinitions(x: {type: \"Int!\"}) { name }
ok query A($v: Int) { me { ...F @arguments(x: $v) } } fragment F on User @argumentDefinitions(x: {type: \"Int!\", defaultValue: 1}) { name }
ok query A($v: Int = 2) { me { ...F @arguments(x: $v, y: [$v]) } } fragment F on User @argumentDefinitions(x: {type: \"Int!\"}, y: {type: \"[Int!]\"}) { name }
ok query A($v: Int) { me { ...F @arguments(x: {first: 1, size: $v, any: [$v]}) } } fragment F on User @argumentDefinitions(x: {type: \"Filter\"}) { name }
ok fragment F on User { ...G @arguments(x: $v) } fragment G on User @argumentDefinitions(x: {type: \"Int!\"}) { name }
ok fragment F on User @argumentDefinitions(v: {type: \"Int\", defaultValue: 1}) { ...G @arguments(x: $v) } fragment G on User @argumentDefinitions(x: {type: \"Int!\"}) { name }
ok query A($v: String) { me { ...F @arguments(v: 1) name @skip(if: false) } } fragment F on User @argumentDefinitions(v: {type: \"Int!\"}) { ...G @arguments(x: $v) } fragment G on User @argumentDefinitions(x: {type: \"Int\"}) { name } query B { me { name } }
ok query A { me { ...F @arguments(x: {a: 1, a: 1}) ...F ...F @arguments(x: null) } } fragment F on User @argumentDefinitions(x: {type: \"Any\"}) { name }";
    compare(&rt, rt.alloc(), SCHEMA, rows)?;
    Ok(())
}

#[test]
fn masks_and_aliases(rt: HostRuntime) -> Result<(), Fail> {
    let rows =
        "V19 query A($m: Boolean!) { me { ...F @^relay(mask: $m) } } fragment F on User { name }
V19 fragment F on User { ...G @^relay(mask: $m) } fragment G on User { name }
V19 query A($m: Boolean!) { me { ...F @relay(mask: true) ... { ...F @skip(if: true) @^relay(mask: $m) ...F @relay(mask: $m) } } } fragment F on User { name }
V19 query A($m: Boolean!) { me { id: name ...F @^relay(mask: $m) } } fragment F on User { name }
V19 query A { me { ...F @relay(mask: true) } } ; query B($m: Boolean!) { me { ...F @^relay(mask: $m) } } ; query C($m: Boolean!) { me { ...F @relay(mask: $m) } } fragment F on User { name }
ok query A { me { ...F @relay(mask: true) ...F @relay(mask: false) } } fragment F on User { name }
V20 query A { me { ^__a: name } }
V20 query A { ^__typename: __typename }
V20 query A { me { ^id: name } }
V20 query A { ^id: __typename }
V20 fragment F on User { name friend { ... { ^id: name } } }
V20 query A { me { friends @connection(key: \"friends\") { edges { cursor } } ^id: name } }
V20 query A { me { name } } ; query B { me { a: name ^__b: id id: name } } ; query C { me { id: name } }
ok query A { me { id: id _a: name i__d: friend { id } } a: me { ID: id } }";
    compare(&rt, rt.alloc(), SCHEMA, rows)?;
    Ok(())
}

#[test]
fn keys_and_filters(rt: HostRuntime) -> Result<(), Fail> {
    let rows = "V21 query A { me { friends @^connection(key: \"friends\") { edges { cursor } } } }
V21 query A { me { friends @^connection(key: \"_friends\") { edges { cursor } } } }
V21 query A { me { friends @^connection(key: \"A_friend\") { edges { cursor } } } }
V21 query A { me { friends @^connection(key: \"A_friends_\") { edges { cursor } } } }
V21 query A { me { friends @^connection(key: \"A-_friends\") { edges { cursor } } } }
V21 query A { me { friends @^connection(key: \"1_friends\") { edges { cursor } } } }
V21 query A { me { friends @^connection(key: \"\") { edges { cursor } } } }
V21 query A { me { a: friends @^connection(key: \"A_friends\") { edges { cursor } } } }
V21 query A($k: String!) { me { friends @^connection(key: $k) { edges { cursor } } } }
V21 query A { me { friends @^connection(key: \"A_friends\", filters: [\"size\"]) { edges { cursor } } } }
V21 query A { me { friends @^connection(key: \"A_friends\", filters: [\"first\", \"size\"]) { edges { cursor } } } }
V21 query A { me { friends @^connection(key: \"A_friends\", filters: \"first\") { edges { cursor } } } }
V21 query A { me { friends @^connection(key: \"A_friends\", filters: null) { edges { cursor } } } }
V21 query A($f: [String!]) { me { friends @^connection(key: \"A_friends\", filters: $f) { edges { cursor } } } }
V21 query A($f: String!) { me { friends @^connection(key: \"A_friends\", filters: [\"first\", $f]) { edges { cursor } } } }
V21 query A { me { name @connection(key: \"A_name\") friends @^connection(key: \"friends\") { edges { cursor } } } }
V21 query A { me { friends @connection(key: \"A_friends\") { edges { cursor } } } } ; query B { me { friends @^connection(key: \"friends\") { edges { cursor } } } } ; query C { me { friends @connection(key: \"friends\") { edges { cursor } } } }
V21 query A { me { friends @connection(key: \"A_friends\") { edges { cursor } } ... { friends @skip(if: true) @^connection(key: \"A_first\") { edges { cursor } } } } } fragment F on User { friends @connection(key: \"x\") { edges { cursor } } }
ok query A { me { a: friends @connection(key: \"A_a\", filters: []) { edges { cursor } } friends @connection(key: \"__friends\", filters: [\"after\", \"first\", \"after\"]) { edges { cursor } } } }
ok query A { me { friends(first: 1) @connection(key: \"a_b_friends\", filters: [\"first\"]) { pageInfo { endCursor } } } }
V22 query A { me { name @^connection(key: \"A_name\") } }
V22 query A { me { friend @^connection(key: \"A_friend\") { name } } }
V22 query A { __typename @^connection(key: \"A___typename\") }
V22 query A { team @^connection(key: \"A_team\") { name } }
V22 query A { me { name } } ; query B { me { name @^connection(key: \"A_name\") } } ; query C { me { name @connection(key: \"A_name\") } }
V22 query A { me { friends @connection(key: \"A_friends\") { edges { cursor } } a: friend @^connection(key: \"A_a\") { name } } } query B { me { name @connection(key: \"A_name\") } }";
    compare(&rt, rt.alloc(), SCHEMA, rows)?;
    Ok(())
}

#[test]
fn types_of_connections(rt: HostRuntime) -> Result<(), Fail> {
    let rows = "V22 query A { c1 @^connection(key: \"A_c1\") { __typename } }
V22 query A { c2 @^connection(key: \"A_c2\") { __typename } }
V22 query A { c3 @^connection(key: \"A_c3\") { __typename } }
V22 query A { c4 @^connection(key: \"A_c4\") { __typename } }
V22 query A { c5 @^connection(key: \"A_c5\") { __typename } }
V22 query A { c6 @^connection(key: \"A_c6\") { __typename } }
V22 query A { c7 @^connection(key: \"A_c7\") { __typename } }
V22 query A { c8 @^connection(key: \"A_c8\") { __typename } }
V22 query A { c9 @^connection(key: \"A_c9\") { __typename } }
V22 query A { d1 @^connection(key: \"A_d1\") { __typename } }
V22 query A { d3 @^connection(key: \"A_d3\") { __typename } }
V22 query A { d4 @^connection(key: \"A_d4\") { __typename } }
V22 query A { d6 @^connection(key: \"A_d6\") { __typename } }
ok query A { d2 @connection(key: \"A_d2\") { __typename } a: d5(size: 1) @connection(key: \"A_a\") { __typename } }
ok query A { c1 { edges { cursor } } c7 { pageInfo { endCursor } } }";
    compare(&rt, rt.alloc(), CONNECTIONS, rows)?;
    Ok(())
}
