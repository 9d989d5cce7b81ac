//! Texts of operations, and artifact lines.
//!
//! An operation that is given has no spread. It stands for the expanded operation that has its
//! selections.
ghost use Rattle.std.specs.Prelude.{◌<◌, length};

use plan_ir::{
    Definition, Expanded, FilePlace, Kind, Name, Node, Nodes, Operation, Selection, Selections,
    TypeTree, Words,
};
use plan_text::{Artifact, artifact_line, operation_text, parse_document};
use std::alloc::Global;
use std::test::Fail;

/// Operations, each with its text behind `=>`.
const OPERATIONS: &str = r#"query Q{me{name id}} => query Q{me{name id}}
query F{me{...on User{name}id}} => query F{me{...on User{name} id}}
query S($size:Int){...on Query{t:team(size:3){name id}}u:team(size:$size){name id}} => query S($size:Int){...on Query{t:team(size:3){name id}} u:team(size:$size){name id}}
query S2{...on Query{t:team(size:2){name,id}}} => query S2{...on Query{t:team(size:2){name id}}}
query X($v:Boolean!){me{name@include(if:$v)id}} => query X($v:Boolean!){me{name@include(if:$v) id}}
query K($after:String){me{friends(first:2,after:$after){edges{node{name id}}edges{cursor node{id}}pageInfo{endCursor hasNextPage hasPreviousPage startCursor}}id}} => query K($after:String){me{friends(after:$after,first:2){edges{node{name id}} edges{cursor node{id}} pageInfo{endCursor hasNextPage hasPreviousPage startCursor}} id}}
query Q2($unused :Int $ b1:Boolean!){ x :all@include(if :$b1){ ... on Node@include( if:$ b1 )@skip ( if: $b1 ) { ...on _b { d1:fragment } ...on Tag{ d1:id } ...on _b{ data k2 :input(where:[7]id:"\"") } }id } id } => query Q2($b1:Boolean!){x:all@include(if:$b1){...on Node@include(if:$b1)@skip(if:$b1){...on _b{d1:fragment} ...on Tag{d1:id} ...on _b{data k2:input(id:"\"",where:[7])}} id} id}
query Q1($v3:[ Int!]$b2 :Boolean= true$b1 :Boolean!$v1:String="\u001f"){ id@include(if:$b2)...on Query{ ... on Query{ id } __typename@ include (if : $b1 )x:all{ input(id:"\n" where:null )@ include(if :$ b1)@skip(if:$b2)_x n1:input(where:$ v3 id:$v1 )a :url id } } } => query Q1($v3:[Int!],$b2:Boolean=true,$b1:Boolean!,$v1:String="\u001f"){id@include(if:$b2) ...on Query{...on Query{id} __typename@include(if:$b1) x:all{input(id:"\n",where:null)@include(if:$b1)@skip(if:$b2) _x n1:input(id:$v1,where:$v3) a:url id}}}
mutation Op1($b2:Boolean=false){b:rename(name:"""\ """){y:friends{edges{node{k0:address{city city k1:__typename city}id}cursor}edges{cursor node{id}}pageInfo{endCursor hasNextPage hasPreviousPage startCursor}}friend{__typename@include(if:$b2)id}id}__typename} => mutation Op1($b2:Boolean=false){b:rename(name:"\\ "){y:friends{edges{node{k0:address{city city k1:__typename city} id} cursor} edges{cursor node{id}} pageInfo{endCursor hasNextPage hasPreviousPage startCursor}} friend{__typename@include(if:$b2) id} id} __typename}
query Pages($v1:[ID, ]!$after:String $x5 :Int ,,$ before:String ){k23: search{friends(after:$after before:$before, ){edges{node{k20:_x(first:[{z:1 c : true}]z:[4]by:2 )k21:count(first:{}size:[ -1 ,,null 7])k22:_x(z:$ v1 by:$x5 first:[type A"\b\f\r", ])id}}edges{cursor node{id}}pageInfo{endCursor hasNextPage hasPreviousPage startCursor}}id}} => query Pages($v1:[ID]!,$after:String,$x5:Int,$before:String){k23:search{friends(after:$after,before:$before){edges{node{k20:_x(by:2,first:[{c:true,z:1}],z:[4]) k21:count(first:{},size:[-1,null,7]) k22:_x(by:$x5,first:[type,A,"\b\f\r"],z:$v1) id}} edges{cursor node{id}} pageInfo{endCursor hasNextPage hasPreviousPage startCursor}} id}}
query A{a:a b:a(z:1 a:{x:1 b:2 x:0})} => query A{a b:a(a:{b:2,x:1,x:0},z:1)}
query B($x:Int=-0@d(z:"/"),$y:Int,$z:[[Int!]]!){a(p:{q:[{r:$z}]},n:-0)@e(i:$x)} => query B($x:Int=0@d(z:"/"),$z:[[Int!]]!){a(n:0,p:{q:[{r:$z}]})@e(i:$x)}
query C($x:Int,$y:Int)@d(a:$y){...@skip(if:true){a}} => query C($y:Int)@d(a:$y){...@skip(if:true){a}}"#;

/// Texts of operations: each is its own text.
const TEXTS: &str =
    r#"query Q0($x6:In!={sub:[2147483647,true]}){viewer{text@cache(on:"")@cache(on:3,z:$x6) ...on Either{__typename}}}
query Q2($b2:Boolean=true,$count:Int=2){...{k7:me@include(if:$b2){__typename ...on Item{id} ...on Page{id}}} search(id:-1,on:"\u001f",where:true){k8:feed(first:$count){edges{node{age title ...on Named{input input} ...on Named{input input} id} cursor} edges{cursor node{id}} pageInfo{endCursor hasNextPage hasPreviousPage startCursor id}} friend@include(if:$b2){__typename id} id}}
subscription Op0($b1:Boolean!,$b2:Boolean=true){k3:tick@skip(if:$b1)@include(if:$b2){...on A1{flag@include(if:true)@skip(if:true)} flag items{...on A1@skip(if:true)@include(if:$b1){flag@include(if:$b1)@skip(if:$b1)} id} id title}}
subscription Q0{y:changed{tags(by:-2147483648,size:[3]){__typename} ...on union{__typename}}}
query Op2($v3:ID@tag(where:null,z:9223372036854775807),$id:ID!){k13:node(id:$id){...on Node{fragment@tag(where:7,z:$v3)@tag(z:4) tags{score b:nick id} k2:id ...on Item{id@tag(where:-2147483648,z:"4")@tag} k2:id} tags{k14:nick@tag(where:9223372036854775807)@tag score id} id __typename}}
query ByNode($id:ID!@tag(where:null),$b2:Boolean=false){k13:node(id:$id){id id@include(if:$b2)@tag(where:7)@tag(where:1,z:$id) id@include(if:false) __typename}}
query Q2($count:Int=2,$after:String,$b1:Boolean!)@log{feed(after:$after,first:$count){edges{node{...on Named@include(if:$b1){query ...on Named{k3:query query} ...on Tag{d2:name} ...on Address{d2:input}} ...on Tag{d3:query} ...on Address{d3:input} k3:query kind ...on Address{id} ...on Tag{id} __typename}} edges{cursor node{...on Address{id} ...on Tag{id} __typename}} pageInfo{endCursor hasNextPage hasPreviousPage startCursor}} count}
subscription Q0@on{b:tick{true id}}
query Op2{count ...on Query{y:search{name:title(by:1,on:-1)}} a:node(id:"u1"){k0:age id __typename} search{b:title(on:0)}}
mutation A_1{rename{...on Named{null(by:2,z:[B_1])} id}}
query Q0{count ...on Root{owner:count(where:RED) x:count}}
query ByNode($id:ID!){owner:node(id:$id){...on Node{id} id __typename}}
query Zo{...on Query{...on Query{__typename}}}
query Op1{...{...on Query{all{k4:fragment k5:query(first:[],on:1) query(first:["\"\"\""],on:2147483647) k6:id}}} k7:me(id:{on:RED}){id}}
query ByNode($id:ID!){k8:node(id:$id){id id __typename}}
query Q2($b1:Boolean!){x:all@include(if:$b1){...on Node@include(if:$b1)@skip(if:$b1){...on _b{d1:fragment} ...on Tag{d1:id} ...on _b{data k2:input(id:"\"",where:[7])}} id} id}
query A_3($v0:[Int!]=[0,-1],$v2:Boolean!=false,$b1:Boolean!){id all{...on Tag{__typename k3:type{k4:data k1:input(id:null) __typename k5:input(where:$v0) id} _x true} _x _x@skip(if:$b1)@include(if:$v2) fragment(z:$v2) id}}
query Op0($b1:Boolean!,$b2:Boolean=true,$before:String){me@include(if:$b1){friends{edges{node{owner:flag(on:1,size:{}) id}} total@skip(if:$b1)@include(if:$b1) edges{cursor node{id}} pageInfo{endCursor hasNextPage hasPreviousPage startCursor}} id} best@skip(if:$b2){tags{id b:null(where:$before) ...on type{id name:related{__typename ...on type{id}}}} __typename} ...{n1:me@skip(if:$b1){k1:id@skip(if:$b2) title(by:2147483647) id}}}
query Op1($b2:Boolean=true,$x5:[Int]!=[7],$b1:Boolean!){__typename best{age@include(if:$b2)@skip(if:$b1) k2:age(id:null,size:null) y:tags{text id} a:age(id:$x5,size:9223372036854775807) __typename}}
query A_0($b2:Boolean=false@tag,$b1:Boolean!,$v4:In={}@tag(where:{}),$count:Int=2)@tag(where:null){n1:best(on:$count)@tag(where:$v4,z:$count){owner:id related(id:{sub:null},z:"u1"){true@tag} id} best(on:$count){title ...@include(if:$b1){title@tag} name:id ...on union{__typename@include(if:$b2) __typename __typename} ...@include(if:$b1){title@tag} id}}
query ByNode($b2:Boolean=true,$v1:[ID]!,$id:ID!){k8:node(id:$id){id k19:_x(first:["\n",{},{a:true,c:1}],z:$v1)@skip(if:$b2) __typename}}
query Pages($v1:[ID]!,$after:String,$x5:Int,$before:String){k23:search{friends(after:$after,before:$before){edges{node{k20:_x(by:2,first:[{c:true,z:1}],z:[4]) k21:count(first:{},size:[-1,null,7]) k22:_x(by:$x5,first:[type,A,"\b\f\r"],z:$v1) id}} edges{cursor node{id}} pageInfo{endCursor hasNextPage hasPreviousPage startCursor}} id}}
query Op0($x0:ID!){x:node(id:$x0){url ...{url id} url id __typename} count(first:-2147483648,z:0) count(first:-2147483648,z:0)}
query ByNode($id:ID!,$b2:Boolean=false){name:node(id:$id){true ...on Zed{...on Node{...on Node{n1:__typename} url ...on Node@skip(if:false)@include(if:false){true ...{...on Node{n1:__typename}} __typename true@skip(if:$b2)@include(if:false)}} best(where:null){a:flag(by:"\\",id:0) ...on Photo{type{__typename} ...{b:text b:text}}}} id __typename}}
query ByNode($id:ID!@log,$b1:Boolean!@log){k8:node(id:$id){k4:query@log data@skip(if:$b1)@log k4:query@log id __typename}}
query Op2($v0:Int@log){k6:feed{edges{node{k8:items{count on@tag id} k9:age(where:$v0)} cursor} edges{cursor node{__typename}} pageInfo{endCursor hasNextPage hasPreviousPage startCursor}}}
query A_0{y:__typename __typename}
query Q2($id:ID!){me{k4:kind id} k5:best{k6:owner(id:{tag:[]})@cache(first:$id,z:[2147483647,2,null]){title id}}}
query Op3($b2:Boolean=true){k5:best{k7:fragment ...on A1{fragment} fragment@include(if:$b2)} __typename}
query A_2($b1:Boolean!){__typename viewer@on(id:GREEN,on:"\n"){...{on on@include(if:$b1)@skip(if:true)} on on@on(id:GREEN,on:"") ...on Item{id} __typename} __typename@include(if:false)}
subscription Op1($size2:Boolean=false){changed{place@include(if:$size2){__typename ...on Item{id}} grid __typename ...on union{__typename}}}
subscription Q0($b2:Boolean=false)@log{...on S{x:tick{b:on age ...{...on Base{age age} ...{a:age} parent{fragment@include(if:$b2)} name:on} on}}}
query Q2($b2:Boolean=true){viewer@include(if:$b2){__typename}}
query A_0{viewer{__typename __typename}}"#;

/// The bytes, or none where they are too many for a test.
fn text_within_limit(bytes: &[u8]) -> &[u8]
    ensures { length result.now < 2000 }
{
    if bytes.len() < 2000 {
        return bytes;
    }
    &[]
}

/// The response key of a field.
fn response_key(alias: &Option<Name>, name: &Name) -> Result<Name, Fail> {
    match alias {
        Some(alias) => Ok(alias.copy()?),
        None => Ok(name.copy()?),
    }
}

/// The same name, where there is one.
fn copy_of(name: &Option<Name>) -> Result<Option<Name>, Fail> {
    match name {
        Some(name) => Ok(Some(name.copy()?)),
        None => Ok(None),
    }
}

/// A place that no text tells.
fn some_place() -> FilePlace {
    FilePlace {
        file: 0,
        line: 1,
        column: 1,
    }
}

/// Selections as nodes; spreads are left out.
#[cycle(nodes)]
fn nodes_of(alloc: Global, selections: &Selections) -> Result<Nodes, Fail> {
    let mut nodes = Nodes::new(alloc);
    for selection in &selections.items {
        if let Some(node) = node_of(alloc, selection)? {
            nodes.push(node)?;
        }
    }
    Ok(nodes)
}

/// A selection as a node, unless it is a spread.
#[cycle(nodes)]
fn node_of(alloc: Global, selection: &Selection) -> Result<Option<Node>, Fail> {
    match selection {
        Selection::Field {
            alias,
            name,
            arguments,
            directives,
            selections,
        } => Ok(Some(Node::Field {
            response: response_key(alias, name)?,
            name: name.copy()?,
            arguments: arguments.copy()?,
            directives: directives.copy()?,
            connection: None,
            of: TypeTree::Named(Words::new(alloc, "T")?),
            selections: nodes_of(alloc, selections)?,
            place: some_place(),
        })),
        Selection::Inline {
            on,
            directives,
            selections,
        } => Ok(Some(Node::Inline {
            on: copy_of(on)?,
            directives: directives.copy()?,
            selections: nodes_of(alloc, selections)?,
            place: some_place(),
        })),
        Selection::Spread { .. } => Ok(None),
    }
}

/// The expanded operation that has the selections of an operation.
fn expansion_of(alloc: Global, operation: &Operation) -> Result<Expanded, Fail> {
    let nodes = nodes_of(alloc, &operation.selections)?;
    let name = match &operation.name {
        Some(name) => name.copy()?,
        None => Words::new(alloc, "")?,
    };
    Ok(Expanded {
        kind: Some(operation.kind),
        name,
        root: Words::new(alloc, "T")?,
        variables: operation.variables.copy()?,
        directives: operation.directives.copy()?,
        selections: nodes,
    })
}

/// The text of the first definition of a document, if it is an operation.
fn text_of(alloc: Global, document: &str) -> Result<Words, Fail> {
    let document = parse_document(alloc, 0, text_within_limit(document.as_bytes()))?;
    if let Some(Definition::Operation(operation)) = document.tree.definitions.as_slice().first() {
        return Ok(operation_text(alloc, &expansion_of(alloc, operation)?)?);
    }
    Ok(Words::new(alloc, "no operation")?)
}

#[test]
fn operations_have_one_text(rt: HostRuntime) -> Result<(), Fail> {
    let alloc = rt.alloc();
    for row in OPERATIONS.lines() {
        if let Some((operation, text)) = row.split_once(" => ") {
            assert_eq!(rt; text_of(alloc, operation)?.as_str(), text);
        }
    }
    Ok(())
}

#[test]
fn a_text_is_its_own_text(rt: HostRuntime) -> Result<(), Fail> {
    let alloc = rt.alloc();
    for text in TEXTS.lines() {
        assert_eq!(rt; text_of(alloc, text)?.as_str(), text);
    }
    Ok(())
}

#[test]
fn characters_above_the_controls_stand_as_they_are(rt: HostRuntime) -> Result<(), Fail> {
    let alloc = rt.alloc();
    assert_eq!(rt;
        text_of(alloc, "query Q{a(b:\"\\u007f\\/\\u2028\\u001F\\uFEFF\")}")?.as_str(),
        "query Q{a(b:\"\u{7f}/\u{2028}\\u001f\u{feff}\")}"
    );
    Ok(())
}

#[test]
fn an_artifact_is_a_line(rt: HostRuntime) -> Result<(), Fail> {
    let alloc = rt.alloc();
    let operation = Artifact::Operation {
        kind: Kind::Subscription,
        name: Words::new(alloc, "S")?,
        text: Words::new(alloc, "subscription S{f(a:\"\\n\")}")?,
    };
    assert_eq!(rt;
        artifact_line(alloc, &operation)?.as_str(),
        "{\"kind\":\"subscription\",\"name\":\"S\",\"text\":\"subscription S{f(a:\\\"\\\\n\\\")}\"}"
    );
    let fragment = Artifact::Fragment {
        name: Words::new(alloc, "P")?,
        on: Words::new(alloc, "User")?,
    };
    assert_eq!(rt;
        artifact_line(alloc, &fragment)?.as_str(),
        "{\"kind\":\"fragment\",\"name\":\"P\",\"type\":\"User\"}"
    );
    Ok(())
}
