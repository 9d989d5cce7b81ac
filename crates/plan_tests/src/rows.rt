//! Documents, and what their operations and fragments are expanded to.
//!
//! A row is the name of a definition, a document, and the expanded directives and set, with ` => `
//! between them.
use crate::printing::text_of;
use crate::texts::{SCHEMA, expansion, schema};
use plan_ir::Schema;
use std::alloc::Global;
use std::process::Abort;
use std::test::Fail;

/// What the definition of a name in a document is expanded to, as a text; `none` where there is none
/// of that name.
fn expansion_text(alloc: Global, schema: &Schema, text: &str, name: &str) -> Result<String, Fail> {
    match expansion(alloc, schema, text, name)? {
        Some(Ok(expanded)) => text_of(alloc, &expanded),
        Some(Err(fault)) => Ok(format!(in alloc; "{fault:?}")?),
        None => Ok(String::from_str(alloc, "none")?),
    }
}

/// The rows that are expanded to something else, each with what it is expanded to; nothing where
/// all are as they should be.
fn wrong_rows(alloc: Global, rows: &str) -> Result<String, Fail> {
    let schema = schema(alloc, SCHEMA)?;
    let mut wrong = String::new(alloc);
    for row in rows.lines() {
        let (name, rest) = row.trim().split_once(" => ").unwrap_or(("", ""));
        let (document, wanted) = rest.split_once(" => ").unwrap_or(("", ""));
        let got = expansion_text(alloc, &schema, document, name)?;
        if got.as_str() != wanted {
            wrong.push_str(name)?;
            wrong.push_str(" ")?;
            wrong.push_str(got.as_str())?;
            wrong.push_str("\n")?;
        }
    }
    Ok(wrong)
}

/// `id` and `__typename`, and where they are left out.
#[test]
fn fields_are_added(rt: HostRuntime) -> Result<(), Fail> {
    let rows = "X => query X($v:Boolean!){me{name@include(if:$v)}} => {me{name@include(if:$v) id}}
        Q => query Q{me{name}} => {me{name id}}
        Q => query Q{me{id}} => {me{id}}
        Q => query Q{me{x:id}} => {me{x:id id}}
        Q => query Q{me{id@include(if:true)}} => {me{id@include(if:true) id}}
        Q => query Q{me{...{id}}} => {me{...{id} id}}
        Q => query Q{node(id:4){id}} => {node(id:4){id __typename}}
        Q => query Q{node(id:4){__typename}} => {node(id:4){__typename id}}
        Q => query Q{node(id:4){__typename@include(if:true)}} => {node(id:4){__typename@include(if:true) id __typename}}
        Q => query Q{thing{...on Tag{text}}} => {thing{...on Tag{text} ...on User{id} __typename}}
        Q => query Q{thing{x:__typename __typename}} => {thing{x:__typename __typename ...on User{id}}}
        Q => query Q{__typename me{address{city}}} => {__typename me{address{city} id}}
        Q => {me{tags{text}}} => none
        R => query Q{me{id}} => none
        Q# => query Q{me{id}} => none
        M => mutation M{rename(name:\"x\"){name}} => {rename(name:\"x\"){name id}}";
    assert_eq!(rt; wrong_rows(rt.alloc(), rows)?.as_str(), "");
    Ok(())
}

/// The edges and the page of a connection, with nodes of an object type with and without an id, and
/// of a union.
#[test]
fn connections_get_pages(rt: HostRuntime) -> Result<(), Fail> {
    let rows =
        "K => query K($after:String){me{friends(after:$after,first:2)@connection(key:\"K_friends\"){edges{node{name}}}}} => {me{friends(after:$after,first:2){edges{node{name id}} edges{cursor node{id}} pageInfo{endCursor hasNextPage hasPreviousPage startCursor}} id}}
        K => query K{me{friends{edges{node{name}}}}} => {me{friends{edges{node{name id}}} id}}
        K => query K{me{x:friends@skip(if:false)@connection(key:\"K_x\"){__typename}}} => {me{x:friends@skip(if:false){__typename edges{cursor node{id}} pageInfo{endCursor hasNextPage hasPreviousPage startCursor}} id}}
        K => query K{me{things@connection(key:\"K_things\"){edges{cursor node{__typename}}}}} => {me{things{edges{cursor node{__typename ...on User{id}}} edges{cursor node{...on User{id} __typename}} pageInfo{endCursor hasNextPage hasPreviousPage startCursor}} id}}
        K => query K{me{pages@connection(key:\"K_pages\"){pageInfo{endCursor}}}} => {me{pages{pageInfo{endCursor} edges{cursor node{__typename} id} pageInfo{endCursor hasNextPage hasPreviousPage startCursor}} id}}";
    assert_eq!(rt; wrong_rows(rt.alloc(), rows)?.as_str(), "");
    Ok(())
}

/// Spreads with values, defaults and conditions, fragments in fragments, and fragments alone.
#[test]
fn spreads_are_followed(rt: HostRuntime) -> Result<(), Fail> {
    let rows = "F => query F{me{...P}} fragment P on User{name} => {me{...on User{name} id}}
        P# => query F{me{...P}} fragment P on User{name} => {name}
        S => query S($size:Int){...R@arguments(size:3) u:team(size:$size){name}} query S2{...R} fragment R on Query@argumentDefinitions(size:{type:\"Int\",defaultValue:2}){t:team(size:$size){name}} => {...on Query{t:team(size:3){name id}} u:team(size:$size){name id}}
        S2 => query S($size:Int){...R@arguments(size:3) u:team(size:$size){name}} query S2{...R} fragment R on Query@argumentDefinitions(size:{type:\"Int\",defaultValue:2}){t:team(size:$size){name}} => {...on Query{t:team(size:2){name id}}}
        R# => fragment R on Query@argumentDefinitions(size:{type:\"Int\",defaultValue:2}){t:team(size:$size){name} u:team(size:$other){id}} => {t:team(size:$:size){name id} u:team(size:$other){id}}
        R# => fragment R on Query@argumentDefinitions(n:{type:\"Int\"}){...A@arguments(n:$n)} fragment A on Query@argumentDefinitions(n:{type:\"Int\"},m:{type:\"Int\",defaultValue:7}){team(size:$n){id} m:team(size:$m){id}} => {...on Query{team(size:$:n){id} m:team(size:7){id}}}
        Q => query Q($n:Int){...A@arguments(n:$n)} fragment A on Query@argumentDefinitions(n:{type:\"Int\"}){...B@arguments(m:$n) team(size:$n){id}} fragment B on Query@argumentDefinitions(m:{type:\"Int\"},n:{type:\"Int\"}){team(size:$m){id} t:team(size:$n){id}} => {...on Query{...on Query{team(size:$n){id} t:team(size:null){id}} team(size:$n){id}}}
        Q => query Q($n:Int$o:Int){...A@arguments(n:[1,{a:$n}])} fragment A on Query@argumentDefinitions(n:{type:\"Any\"}){find(by:{b:$n,c:[$o,$n]})} => {...on Query{find(by:{b:[1,{a:$n}],c:[$o,[1,{a:$n}]]})}}
        Q => query Q@own(n:1){...A@skip(if:true)@own(n:2)@relay(mask:false)@include(if:false) me@own(n:3)@own{id}} fragment A on Query@own(n:4){me{...@own{id}}} => @own(n:1){...on Query@skip(if:true)@include(if:false){me{...@own{id} id}} me@own(n:3)@own{id}}";
    assert_eq!(rt; wrong_rows(rt.alloc(), rows)?.as_str(), "");
    Ok(())
}

/// Queries that spread several fragments, with conditions and connections.
#[test]
fn whole_queries_are_expanded(rt: HostRuntime) -> Result<(), Fail> {
    let rows =
        "Pages => query Pages($after:String$before:String$b1:Boolean!$b2:Boolean=false){k5:team{k4:friends(after:$after before:$before)@connection(key:\"__k4\"){edges{node{...{...F1 id}friend@include(if:$b1)@skip(if:$b2){...F1@include(if:$b2)@arguments(b1:false)}id@include(if:$b1)}}}}} fragment F1 on Node@argumentDefinitions(b1:{type:\"Boolean\"defaultValue:true}){...on Node@include(if:$b1)@skip(if:true){owner:id id id}n1:id id@skip(if:$b1)} => {k5:team{k4:friends(after:$after,before:$before){edges{node{...{...on Node{...on Node@include(if:true)@skip(if:true){owner:id id id} n1:id id@skip(if:true)} id} friend@include(if:$b1)@skip(if:$b2){...on Node@include(if:$b2){...on Node@include(if:false)@skip(if:true){owner:id id id} n1:id id@skip(if:false)} id} id@include(if:$b1) id}} edges{cursor node{id}} pageInfo{endCursor hasNextPage hasPreviousPage startCursor}} id}}
        ByNode => query ByNode($b1:Boolean!$id:ID!$b2:Boolean=false){x:node(id:$id){id...on User{...F1@arguments(b1:$b1)@relay(mask:false)k2:address@include(if:true)@skip(if:$b2){a:city@skip(if:$b1)@include(if:$b2)...Frag3@arguments(b0:true)@relay(mask:false)a:city@skip(if:$b1)}}...F1@arguments(b1:false)id k3:id@include(if:$b1)@skip(if:$b2)}} fragment Frag3 on Address@argumentDefinitions(b0:{type:\"Boolean\"defaultValue:false}b1:{type:\"Boolean\"defaultValue:false})@inline{city@include(if:$b0)a:city} fragment F1 on Node@argumentDefinitions(b1:{type:\"Boolean\"defaultValue:true}){...on Node@include(if:$b1)@skip(if:true){owner:id id id}n1:id id@skip(if:$b1)} => {x:node(id:$id){id ...on User{...on Node{...on Node@include(if:$b1)@skip(if:true){owner:id id id} n1:id id@skip(if:$b1)} k2:address@include(if:true)@skip(if:$b2){a:city@skip(if:$b1)@include(if:$b2) ...on Address{city@include(if:true) a:city} a:city@skip(if:$b1)}} ...on Node{...on Node@include(if:false)@skip(if:true){owner:id id id} n1:id id@skip(if:false)} id k3:id@include(if:$b1)@skip(if:$b2) __typename}}
        ByNode => query ByNode($id:ID!$b2:Boolean=false$b1:Boolean!){k5:node(id:$id){...on User{...f_4@skip(if:false)@include(if:$b2)...on User{y:name@skip(if:$b1)@include(if:$b1)}id@include(if:$b1)@skip(if:$b1)k6:friends(before:null last:2)@connection(key:\"__k6\"){...f_1@arguments(l2:true b2:true)}id}__typename...f_4 k2:id id@include(if:$b2)}} fragment f_4 on User{friends(after:null,first:2)@connection(filters:[]key:\"__friends\"){__typename}n1:friends(before:null last:2){edges{node{age y:name@skip(if:true)@include(if:false)k0:age id}}}tags{...{a:text text b:text}}} fragment f_1 on UserConnection@argumentDefinitions(l2:{type:\"Boolean!\"defaultValue:true}b2:{type:\"Boolean!\"})@inline{pageInfo{k1:endCursor@skip(if:$l2)endCursor}} => {k5:node(id:$id){...on User{...on User@skip(if:false)@include(if:$b2){friends(after:null,first:2){__typename edges{cursor node{id}} pageInfo{endCursor hasNextPage hasPreviousPage startCursor}} n1:friends(before:null,last:2){edges{node{age y:name@skip(if:true)@include(if:false) k0:age id}}} tags{...{a:text text b:text}}} ...on User{y:name@skip(if:$b1)@include(if:$b1)} id@include(if:$b1)@skip(if:$b1) k6:friends(before:null,last:2){...on UserConnection{pageInfo{k1:endCursor@skip(if:true) endCursor}} edges{cursor node{id}} pageInfo{endCursor hasNextPage hasPreviousPage startCursor}} id} __typename ...on User{friends(after:null,first:2){__typename edges{cursor node{id}} pageInfo{endCursor hasNextPage hasPreviousPage startCursor}} n1:friends(before:null,last:2){edges{node{age y:name@skip(if:true)@include(if:false) k0:age id}}} tags{...{a:text text b:text}}} k2:id id@include(if:$b2) id}}";
    assert_eq!(rt; wrong_rows(rt.alloc(), rows)?.as_str(), "");
    Ok(())
}
