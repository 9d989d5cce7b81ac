//! What responses without a fault say: facts and pages.
use crate::rows::wrong_rows;
use std::process::Abort;
use std::test::Fail;

/// Leaves, objects, null, and what is absent; a leaf has any shape. The keys of a response but `data`
/// are not looked at.
#[test]
fn fields_give_facts(rt: HostRuntime) -> Result<(), Fail> {
    let rows =
        r##"me:User!{ id name } => {"data":{"me":{"id":"4","name":"Ann"}}} => 4:User id="4" name="Ann";client:root:__Root me=->4;
        a b c d e => {"data":{"e":{"y":[1,{"x":null}]},"a":null,"b":true,"d":-7}} => client:root:__Root a=null b=true d=-7 e={"y":[1,{"x":null}]};
        me:User!{ id } you:User!{ id } we:User!*{ id } they:User!*{ id } => {"data":{"me":null,"we":null,"they":[]}} => client:root:__Root me=null they=[] we=null;
        me:User!{ id friend:User!{ id age } name } => {"data":{"me":{"id":"4","name":"Ann","friend":{"id":"4","age":7}}}} => 4:User age=7 friend=->4 id="4" name="Ann";client:root:__Root me=->4;
        me:User!{ id } ~Query{ me:User!{ name } } => {"data":{"me":{"id":"4","name":"Ann","age":1.5}}} => 4:User id="4" name="Ann";client:root:__Root me=->4;
        me:User!{ id } => {"errors":[1.5],"data":{"you":5},"extensions":{"data":null}} => client:root:__Root;"##;
    assert_eq!(rt; wrong_rows(rt.alloc(), rows)?.as_str(), "");
    Ok(())
}

/// Lists, below aliases, of objects with and without ids of their own.
#[test]
fn lists_give_facts(rt: HostRuntime) -> Result<(), Fail> {
    let rows =
        r##"boss=me:User!{ who=name kin=tags:Tag*{ t=text } } => {"data":{"boss":{"who":"Ann","name":5,"kin":[{"t":"x"},null,{"t":"y","text":1.5}]}}} => client:root:__Root me=->client:root:me;client:root:me:User name="Ann" tags=[client:root:me:tags:0,null,client:root:me:tags:2,];client:root:me:tags:0:Tag text="x";client:root:me:tags:2:Tag text="y";
        a=team(size:2):User!*{ name } b=team(size:$n):User!*{ name } c=team:User!*{ name } => {"data":{"a":[{"id":"9","name":"Eve"}],"b":[{"name":"Bo"},null],"c":[{"id":null,"name":"Bo"},null]}} => 9:User name="Eve";client:root:__Root team=[client:root:team:0,null,] team(size:2)=[9,];client:root:team:0:User name="Bo";
        team:User!*{ friend:User!{ home:Address{ city } } } => {"data":{"team":[{"id":"5","friend":{"home":{"city":"Ur"}}}]}} => 5:User friend=->client:5:friend;client:5:friend:User home=->client:5:friend:home;client:5:friend:home:Address city="Ur";client:root:__Root team=[5,];"##;
    assert_eq!(rt; wrong_rows(rt.alloc(), rows)?.as_str(), "");
    Ok(())
}

/// Steps behind guards: null leaves one out for `@include`, and in for `@skip`.
#[test]
fn guards_leave_steps_out(rt: HostRuntime) -> Result<(), Fail> {
    let rows =
        r##"~User|Tag{ a } ~Query{ b } ~Query|User{ c } => {"data":{"a":1,"b":2,"c":3}} => client:root:__Root b=2 c=3;
        -$yes{ a } -$no{ b } -$n{ c } +$yes{ d } +$no{ e } +$n{ f } => {"data":{"a":1,"b":2,"c":3,"d":4,"e":5,"f":6}} => client:root:__Root b=2 c=3 d=4;
        -true{ a } -false{ b } -null{ c } +true{ d } +false{ e } +null{ f } => {"data":{"a":1,"b":2,"c":3,"d":4,"e":5,"f":6}} => client:root:__Root b=2 c=3 d=4;
        +true{ -true{ a } ~Query{ b } +false{ c } } -$yes{ +true{ d } } => {"data":{"a":1,"b":2,"c":3,"d":4}} => client:root:__Root b=2;
        node:Page|User!?{ #__typename ~User{ a=name } ~Page{ a=size } } => {"data":{"node":{"__typename":"User","id":"4","a":"x"}}} => 4:User name="x";client:root:__Root node=->4;
        node:Page|User!?{ #__typename ~User{ a=name } ~Page{ a=size } } => {"data":{"node":{"__typename":"Page","id":"4","a":"x"}}} => client:root:__Root node=->client:root:node;client:root:node:Page size="x";"##;
    assert_eq!(rt; wrong_rows(rt.alloc(), rows)?.as_str(), "");
    Ok(())
}

/// What stands under an alias of `__typename` is not looked at, and what stands under `__typename` only
/// where it is asked for or tells the type. The root has its id and type, whatever is said.
#[test]
fn type_names_and_ids_are_facts(rt: HostRuntime) -> Result<(), Fail> {
    let rows =
        r##"me:User!{ #t id } => {"data":{"me":{"t":7,"__typename":"Tag","id":"4"}}} => 4:User id="4";client:root:__Root me=->4;
        me:User!{ #__typename #t id } => {"data":{"me":{"t":"Tag","__typename":null,"id":"4"}}} => 4:User id="4";client:root:__Root me=->4;
        me:User!{ #__typename id } => {"data":{"me":{"__typename":"User","id":"4"}}} => 4:User id="4";client:root:__Root me=->4;
        node:Tag|User!?{ #t id } => {"data":{"node":{"t":5,"__typename":"Tag","id":"9"}}} => client:root:__Root node=->client:root:node;client:root:node:Tag id="9";
        tag:Tag{ id } => {"data":{"tag":{"id":7}}} => client:root:__Root tag=->client:root:tag;client:root:tag:Tag id=7;
        #__typename id age => {"data":{"__typename":5,"id":"client:x","age":7}} => client:root:__Root age=7 id="client:x";
        me:User!{ i=id } => {"data":{"me":{"i":7,"id":"4"}}} => 4:User id=7;client:root:__Root me=->4;"##;
    assert_eq!(rt; wrong_rows(rt.alloc(), rows)?.as_str(), "");
    Ok(())
}

/// A field with a connection gives a page where it is there, once for each key. The type of the page
/// information is empty where it is not asked for.
#[test]
fn connections_give_pages(rt: HostRuntime) -> Result<(), Fail> {
    let rows =
        r##"list(after:c,first:1):Con@all{ info:Info{ end } pageInfo:Info{ end } } => {"data":{"list":{"pageInfo":{"end":"c"}}}} => client:root:__Root list(after:"c",first:1)=->client:root:list(after:"c",first:1);client:root:list(after:"c",first:1):Con pageInfo=->client:root:list(after:"c",first:1):pageInfo;client:root:list(after:"c",first:1):pageInfo:Info end="c";page client:root __all_connection list(after:"c",first:1) "c" null Con Info;
        me:User!{ list(before:$id,last:2,size:3):Con@all{ n } } => {"data":{"me":{"id":"4","list":null}}} => 4:User list(before:"u1",last:2,size:3)=null;client:root:__Root me=->4;page 4 __all_connection(size:3) list(before:"u1",last:2,size:3) null "u1" Con ;
        list(order:2,size:3):Con@all/size{ n } => {"data":{"list":null}} => client:root:__Root list(order:2,size:3)=null;page client:root __all_connection(size:3) list(order:2,size:3) null null Con ;
        list:Con@b{ n } list:Con{ n } list:Con@a{ n } list:Con@b{ pageInfo:Info{ n } } => {"data":{"list":null}} => client:root:__Root list=null;page client:root __a_connection list null null Con Info;page client:root __b_connection list null null Con Info;
        a=list:Con@all{ n } b=list:Con@all{ n } => {"data":{"a":null,"b":null}} => client:root:__Root list=null;page client:root __all_connection list null null Con ;
        a=list:Con@all{ n } list:Con{ n } +false{ list:Con@all{ n } } => {"data":{"list":null}} => client:root:__Root list=null;"##;
    assert_eq!(rt; wrong_rows(rt.alloc(), rows)?.as_str(), "");
    Ok(())
}

/// Plans that are not ones that responses are normalized by.
#[test]
fn plans_may_not_be_formed(rt: HostRuntime) -> Result<(), Fail> {
    let rows = r##"t=__typename => {} => not formed
        me:User!{ +false{ __typename } } => {} => not formed
        __typename:User!{ id } => {} => not formed
        me:User!{ a:User|4!*{ id } } => {} => not formed"##;
    assert_eq!(rt; wrong_rows(rt.alloc(), rows)?.as_str(), "");
    Ok(())
}
