//! Responses at fault: each cause, and what counts first.
use crate::replaying::replayed;
use std::test::Fail;

const DOCUMENT: &str = "query Q{me{name}}
query C{me{name friend{name}}}
query O($id:ID!){node(id:$id){id}}
query T($n:Int){a:team(size:2){name} b:team(size:$n){name} c:team{name}}";

const CAUSES: &str = r#"> {"do":"retain","handle":"h","op":"Q"}
{"n":1,"ok":"retain"}
> {"do":"payload","handle":"h","response":{"data":null}}
{"cause":"NoData","code":16,"error":"Payload","n":2,"path":[]}
> {"do":"payload","handle":"h","response":[]}
{"cause":"NoData","code":16,"error":"Payload","n":3,"path":[]}
> {"do":"payload","handle":"h","response":{"data":3}}
{"cause":"Shape","code":16,"error":"Payload","n":4,"path":[]}
> {"do":"payload","handle":"h","response":{"data":{"me":[]}}}
{"cause":"Shape","code":16,"error":"Payload","n":5,"path":["me"]}
> {"do":"payload","handle":"h","response":{"data":{"me":{"id":"4","name":1.5}}}}
{"cause":"NotWhole","code":16,"error":"Payload","n":6,"path":["me","name"]}
> {"do":"payload","handle":"h","response":{"data":{"me":{"id":"","name":"Ann"}}}}
{"cause":"IdShape","code":16,"error":"Payload","n":7,"path":["me","id"]}
> {"do":"payload","handle":"h","response":{"data":{"me":{"id":"client:root","name":"Ann"}}}}
{"cause":"ReservedId","code":16,"error":"Payload","n":8,"path":["me","id"]}
> {"do":"payload","handle":"h","response":{"data":{"me":{"name":1.5,"id":""}}}}
{"cause":"IdShape","code":16,"error":"Payload","n":9,"path":["me","id"]}
> {"do":"read","handle":"h"}
{"data":null,"missing":true,"n":10,"ok":"read","seen":["client:root"]}
> {"do":"payload","handle":"h","response":{"data":{"me":{"id":"4","name":"Ann"}},"extensions":{"t":1.5}}}
{"n":11,"ok":"payload"}
> {"do":"read","handle":"h"}
{"data":{"me":{"name":"Ann"}},"missing":false,"n":12,"ok":"read","seen":["4","client:root"]}
"#;

#[test]
fn a_fault_has_its_cause_and_its_path(rt: HostRuntime) -> Result<(), Fail> {
    let alloc = rt.alloc();
    assert_eq!(rt; replayed(alloc, DOCUMENT, CAUSES)?.as_str(), CAUSES);
    Ok(())
}

const TYPE_NAMES: &str = r#"> {"do":"retain","handle":"h","op":"O","vars":{"id":"u1"}}
{"n":1,"ok":"retain"}
> {"do":"payload","handle":"h","response":{"data":{"node":{"id":"u1"}}}}
{"cause":"Typename","code":16,"error":"Payload","n":2,"path":["node","__typename"]}
> {"do":"payload","handle":"h","response":{"data":{"node":{"__typename":"Tag","id":"u1"}}}}
{"cause":"Typename","code":16,"error":"Payload","n":3,"path":["node","__typename"]}
> {"do":"payload","handle":"h","response":{"data":{"node":{"__typename":null,"id":"u1"}}}}
{"cause":"Typename","code":16,"error":"Payload","n":4,"path":["node","__typename"]}
> {"do":"read","handle":"h"}
{"data":null,"missing":true,"n":5,"ok":"read","seen":["client:root"]}
> {"do":"payload","handle":"h","response":{"data":{"node":{"__typename":"User","id":"u1"}}}}
{"n":6,"ok":"payload"}
> {"do":"read","handle":"h"}
{"data":{"node":{"id":"u1"}},"missing":false,"n":7,"ok":"read","seen":["client:root","u1"]}
"#;

#[test]
fn an_object_under_an_abstract_type_has_a_possible_type(rt: HostRuntime) -> Result<(), Fail> {
    let alloc = rt.alloc();
    assert_eq!(rt; replayed(alloc, DOCUMENT, TYPE_NAMES)?.as_str(), TYPE_NAMES);
    Ok(())
}

const CONFLICTS: &str = r#"> {"do":"retain","handle":"h","op":"C"}
{"n":1,"ok":"retain"}
> {"do":"payload","handle":"h","response":{"data":{"me":{"id":"4","name":"Ann","friend":{"id":"4","name":"Eve"}}}}}
{"cause":"Conflict","code":16,"error":"Payload","first":"Eve","id":"4","key":"name","n":2,"path":["me","name"],"second":"Ann"}
> {"do":"read","handle":"h"}
{"data":null,"missing":true,"n":3,"ok":"read","seen":["client:root"]}
> {"do":"retain","handle":"i","op":"T","vars":{"n":null}}
{"n":4,"ok":"retain"}
> {"do":"payload","handle":"i","response":{"data":{"a":[{"id":"1","name":"A"}],"b":[],"c":[{"id":"1","name":"A"}]}}}
{"cause":"Conflict","code":16,"error":"Payload","first":{"__refs":[]},"id":"client:root","key":"team","n":5,"path":["c"],"second":{"__refs":["1"]}}
> {"do":"payload","handle":"i","response":{"data":{"a":[{"id":"1","name":"A"}],"b":[],"c":[]}}}
{"n":6,"ok":"payload"}
> {"do":"read","handle":"i"}
{"data":{"a":[{"name":"A"}],"b":[],"c":[]},"missing":false,"n":7,"ok":"read","seen":["1","client:root"]}
"#;

#[test]
fn two_values_of_one_field_are_a_conflict(rt: HostRuntime) -> Result<(), Fail> {
    let alloc = rt.alloc();
    assert_eq!(rt; replayed(alloc, DOCUMENT, CONFLICTS)?.as_str(), CONFLICTS);
    Ok(())
}
