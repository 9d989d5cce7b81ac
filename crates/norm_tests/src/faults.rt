//! What is wrong in responses: each cause, which of several counts, and conflicts.
use crate::rows::wrong_rows;
use std::process::Abort;
use std::test::Fail;

/// At the root, and right below it.
#[test]
fn faults_at_the_root(rt: HostRuntime) -> Result<(), Fail> {
    let rows = r##"a => null => NoData
        a => [] => NoData
        a => "data" => NoData
        a => 7 => NoData
        a => true => NoData
        a => {"errors":[]} => NoData
        a => {"data":null} => NoData
        a => {"data":[]} => Shape
        a => {"data":"a"} => Shape
        a => {"data":7} => Shape
        a => {"data":false} => Shape
        a => {"data":{"a":1.5}} => NotWhole a
        a => {"data":{"a":[{"b":[9223372036854775808]}]}} => NotWhole a
        a b=a => {"data":{"a":1,"b":2}} => Conflict b: client:root a 1 2
        me:User!{ id } => {"data":{"me":[]}} => Shape me
        me:User!{ id } => {"data":{"me":"4"}} => Shape me
        me:User!{ id } => {"data":{"me":4}} => Shape me
        me:User!{ id } => {"data":{"me":true}} => Shape me
        me:User!*{ id } => {"data":{"me":{"id":"4"}}} => Shape me
        me:User!*{ id } => {"data":{"me":"4"}} => Shape me
        me:User!*{ id } => {"data":{"me":4}} => Shape me
        me:User!*{ id } => {"data":{"me":true}} => Shape me"##;
    assert_eq!(rt; wrong_rows(rt.alloc(), rows)?.as_str(), "");
    Ok(())
}

/// Of objects: their types and their ids.
#[test]
fn faults_of_objects(rt: HostRuntime) -> Result<(), Fail> {
    let rows = r##"me:User!{ name } => {"data":{"me":{"id":7}}} => IdShape me id
        me:User!{ name } => {"data":{"me":{"id":""}}} => IdShape me id
        me:User!{ name } => {"data":{"me":{"id":true}}} => IdShape me id
        me:User!{ name } => {"data":{"me":{"id":[]}}} => IdShape me id
        me:User!{ name } => {"data":{"me":{"id":{}}}} => IdShape me id
        me:User!{ name } => {"data":{"me":{"id":"client:"}}} => ReservedId me id
        me:User!{ name } => {"data":{"me":{"id":"client:root"}}} => ReservedId me id
        me:User!{ #__typename } => {"data":{"me":{"__typename":"Tag"}}} => Typename me __typename
        me:User!{ #__typename } => {"data":{"me":{"__typename":5}}} => Typename me __typename
        me:User!{ #__typename } => {"data":{"me":{"__typename":[]}}} => Typename me __typename
        node:Tag|User!?{ id } => {"data":{"node":{"id":"4"}}} => Typename node __typename
        node:Tag|User!?{ id } => {"data":{"node":{"__typename":null}}} => Typename node __typename
        node:Tag|User!?{ id } => {"data":{"node":{"__typename":5}}} => Typename node __typename
        node:Tag|User!?{ id } => {"data":{"node":{"__typename":"Page"}}} => Typename node __typename
        node:Tag|User!?{ #t } => {"data":{"node":{"t":"User"}}} => Typename node __typename"##;
    assert_eq!(rt; wrong_rows(rt.alloc(), rows)?.as_str(), "");
    Ok(())
}

/// In a list, below guards, and under aliases.
#[test]
fn faults_below(rt: HostRuntime) -> Result<(), Fail> {
    let rows = r##"team:User!*{ age } => {"data":{"team":[{"age":1},5]}} => Shape team 1
        team:User!*{ age } => {"data":{"team":[null,[]]}} => Shape team 1
        team:User!*{ age } => {"data":{"team":[{"age":[1.5]}]}} => NotWhole team 0 age
        team:User!*{ age } => {"data":{"team":[null,{"id":7}]}} => IdShape team 1 id
        team:User!*{ age } => {"data":{"team":[{},{"id":"client:4"}]}} => ReservedId team 1 id
        node:User!?*{ id } => {"data":{"node":[{"__typename":"User"},{"id":"4"}]}} => Typename node 1 __typename
        team:User!*{ age } => {"data":{"team":[{"id":"4","age":1},{"id":"4","age":2}]}} => Conflict team 1 age: 4 age 1 2
        ~Query{ me:User!{ age } } => {"data":{"me":5}} => Shape me
        me:User!{ ~User{ +$yes{ age } } } => {"data":{"me":{"age":1.5}}} => NotWhole me age
        -$n{ me:User!{ age } } => {"data":{"me":{"id":7}}} => IdShape me id
        -$no{ me:User!{ age } } => {"data":{"me":{"id":"client:4"}}} => ReservedId me id
        +true{ node:User!?{ id } } => {"data":{"node":{}}} => Typename node __typename
        me:User!{ ~User{ #__typename } } => {"data":{"me":{"__typename":"Tag"}}} => Typename me __typename
        me:User!{ ~Tag{ #__typename } } => {"data":{"me":{"__typename":"Tag","id":"4"}}} => 4:User;client:root:__Root me=->4;
        me:User!{ age ~User{ b=age } } => {"data":{"me":{"id":"4","age":1,"b":2}}} => Conflict me b: 4 age 1 2
        -true{ a me:User!{ age } } => {"data":{"a":1.5,"me":5}} => client:root:__Root;
        m=me:User!{ age } => {"data":{"m":5,"me":{"id":7}}} => Shape m
        m=me:User!{ a=age } => {"data":{"m":{"a":1.5}}} => NotWhole m a
        m=me:User!{ i=id } => {"data":{"m":{"i":"5","id":7}}} => IdShape m id
        m=me:User!{ i=id } => {"data":{"m":{"i":"5","id":"client:4"}}} => ReservedId m id
        m=node:User!?{ i=id } => {"data":{"m":{"__typename":"Tag"}}} => Typename m __typename
        m=me:User!{ a=age b=age } => {"data":{"m":{"id":"4","b":1,"a":2}}} => Conflict m b: 4 age 2 1"##;
    assert_eq!(rt; wrong_rows(rt.alloc(), rows)?.as_str(), "");
    Ok(())
}

/// The least path counts, and of one path the least cause. A fault counts before a conflict.
#[test]
fn the_least_fault_counts(rt: HostRuntime) -> Result<(), Fail> {
    let rows = r##"b a c => {"data":{"b":1.5,"c":1.5,"a":1.5}} => NotWhole a
        team:User!*{ age } => {"data":{"team":[null,null,{"age":1.5},null,null,null,null,null,null,null,5]}} => NotWhole team 2 age
        team:User!*{ age } => {"data":{"team":[null,null,{},null,null,null,null,null,null,5,6]}} => Shape team 9
        a:User!{ z y } b => {"data":{"b":1.5,"a":{"z":1.5,"y":1.5}}} => NotWhole a y
        me:User!{ id } => {"data":{"me":{"id":1.5}}} => NotWhole me id
        me:User!{ id=friend:User!{ age } } => {"data":{"me":{"id":5}}} => Shape me id
        me:User!{ age } => {"data":{"me":{"id":"client:4","age":1.5}}} => NotWhole me age
        node:User!?{ age } => {"data":{"node":{"age":1.5,"id":7}}} => Typename node __typename
        a b=a c => {"data":{"a":1,"b":2,"c":1.5}} => NotWhole c
        a=node:User!?{ id } b=me:User!{ id } => {"data":{"b":[],"a":{"id":5}}} => Typename a __typename"##;
    assert_eq!(rt; wrong_rows(rt.alloc(), rows)?.as_str(), "");
    Ok(())
}

/// Of several values, of values of several kinds, and of several records.
#[test]
fn conflicts_have_two_values(rt: HostRuntime) -> Result<(), Fail> {
    let rows =
        r##"a=x b=x c=x d=x => {"data":{"a":1,"b":1,"c":2,"d":3}} => Conflict c: client:root x 1 2
        d=x b=x a=x c=x => {"data":{"a":1,"b":3,"c":2,"d":1}} => Conflict b: client:root x 1 3
        c=x b=x a=x => {"data":{"a":"z","b":"z","c":null}} => Conflict c: client:root x "z" null
        a=x b=x => {"data":{"a":{"p":1,"q":[2]},"b":{"q":[2],"p":1}}} => client:root:__Root x={"p":1,"q":[2]};
        a=me:User!{ id } b=me:User!{ id } => {"data":{"a":{"id":"4"},"b":null}} => Conflict b: client:root me ->4 null
        b=me:User!{ id } a=me:User!{ id } => {"data":{"b":{"id":"4"},"a":{"id":"5"}}} => Conflict b: client:root me ->5 ->4
        a=we:User!*{ id } b=we:User!*{ id } => {"data":{"a":[{"id":"4"},{"id":"5"}],"b":[{"id":"5"},{"id":"4"}]}} => Conflict b: client:root we [4,5,] [5,4,]
        a=we:User!*{ id } b=we:User!*{ id } => {"data":{"a":[{"id":"4"},null],"b":[{"id":"4"}]}} => Conflict b: client:root we [4,null,] [4,]
        a=we:User!*{ id } b=we:User!*{ id } => {"data":{"a":[],"b":null}} => Conflict b: client:root we [] null
        we:User!*{ x } => {"data":{"we":[{"id":"5","x":1},{"id":"5","x":2},{"id":"4","x":1},{"id":"4","x":2}]}} => Conflict we 3 x: 4 x 1 2
        we:User!*{ y x } => {"data":{"we":[{"id":"5","y":1,"x":1},{"id":"5","y":2},{"id":"5","x":2}]}} => Conflict we 2 x: 5 x 1 2
        me:User!{ id } node:Page!|User!?{ id } => {"data":{"me":{"id":"4"},"node":{"__typename":"Page","id":"4"}}} => Conflict node: 4 __typename "User" "Page"
        a(n:1) b=a(n:2) c=a(n:$n) d=a => {"data":{"a":1,"b":2,"c":3,"d":4}} => Conflict d: client:root a 3 4"##;
    assert_eq!(rt; wrong_rows(rt.alloc(), rows)?.as_str(), "");
    Ok(())
}

/// Whole responses to three queries: of a node of an interface, of a field three times, and of a leaf.
#[test]
fn faults_of_whole_responses(rt: HostRuntime) -> Result<(), Fail> {
    let rows =
        r##"node(id:$id):User!?{ id #__typename } => {"data":{"node":{"__typename":"Tag","id":"1"}}} => Typename node __typename
        node(id:$id):User!?{ id #__typename } => {"data":{"node":{"__typename":5,"id":""}}} => Typename node __typename
        node(id:$id):User!?{ id #__typename } => {"data":{"node":{"__typename":"User","id":"client:1"}}} => ReservedId node id
        a=team(size:2):User!*{ name id } b=team(size:$n):User!*{ name id } c=team:User!*{ name id } => {"data":{"a":[],"b":[],"c":[1]}} => Shape c 0
        a=team(size:2):User!*{ name id } b=team(size:$n):User!*{ name id } c=team:User!*{ name id } => {"data":{"a":[1],"b":5}} => Shape a 0
        me:User!{ age id } => {"data":{"me":{"id":7,"age":1.5}}} => NotWhole me age
        me:User!{ age id } => {"data":{"me":{"id":7,"age":1}}} => IdShape me id"##;
    assert_eq!(rt; wrong_rows(rt.alloc(), rows)?.as_str(), "");
    Ok(())
}
