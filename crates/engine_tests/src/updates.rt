//! Commands: what they do, what they leave, and the order of refusals.
use crate::replaying::{replayed, replayed_flat};
use std::test::Fail;

const DOCUMENT: &str = "query G{me{age}} fragment P on User{name}";

const NOT_ALIVE: &str = r#"> {"do":"retain","handle":"h","op":"G"}
{"n":1,"ok":"retain"}
> {"do":"update","updates":[{"set":{"id":"9","field":"name","value":"x"}},{"add":{"id":"9","field":"age","by":1}},{"link":{"id":"9","field":"friend","to":"4"}},{"links":{"id":"9","field":"tags","to":[]}},{"delete":{"id":"9"}}]}
{"n":2,"ok":"update"}
> {"do":"read","handle":"h","fragment":"P","id":"9"}
{"data":null,"missing":true,"n":3,"ok":"read","seen":["9"]}
> {"do":"update","updates":[{"create":{"id":"9","type":"User"}},{"set":{"id":"9","field":"name","value":"Eve"}}]}
{"n":4,"ok":"update"}
> {"do":"read","handle":"h","fragment":"P","id":"9"}
{"data":{"name":"Eve"},"missing":false,"n":5,"ok":"read","seen":["9"]}
> {"do":"update","updates":[{"create":{"id":"9","type":"Tag"}}]}
{"n":6,"ok":"update"}
> {"do":"read","handle":"h","fragment":"P","id":"9"}
{"data":{"name":"Eve"},"missing":false,"n":7,"ok":"read","seen":["9"]}
> {"do":"update","updates":[{"delete":{"id":"9"}},{"set":{"id":"9","field":"name","value":"x"}},{"delete":{"id":"9"}}]}
{"n":8,"ok":"update"}
> {"do":"read","handle":"h","fragment":"P","id":"9"}
{"data":null,"missing":false,"n":9,"ok":"read","seen":["9"]}
> {"do":"update","updates":[{"create":{"id":"9","type":"User"}}]}
{"n":10,"ok":"update"}
> {"do":"read","handle":"h","fragment":"P","id":"9"}
{"data":{},"missing":true,"n":11,"ok":"read","seen":["9"]}
"#;

#[test]
fn commands_on_records_that_are_not_alive_change_nothing(rt: HostRuntime) -> Result<(), Fail> {
    let alloc = rt.alloc();
    assert_eq!(rt; replayed(alloc, DOCUMENT, NOT_ALIVE)?.as_str(), NOT_ALIVE);
    assert_eq!(rt;
        replayed_flat(alloc, DOCUMENT, NOT_ALIVE)?.as_str(),
        NOT_ALIVE
    );
    Ok(())
}

const SUMS: &str = r#"> {"do":"retain","handle":"h","op":"G"}
{"n":1,"ok":"retain"}
> {"do":"payload","handle":"h","response":{"data":{"me":{"id":"4","age":5}}}}
{"n":2,"ok":"payload"}
> {"do":"update","updates":[{"set":{"id":"4","field":"age","value":9223372036854775807}},{"add":{"id":"4","field":"age","by":1}}]}
{"n":3,"ok":"update"}
> {"do":"read","handle":"h"}
{"data":{"me":{"age":9223372036854775807}},"missing":false,"n":4,"ok":"read","seen":["4","client:root"]}
> {"do":"update","updates":[{"add":{"id":"4","field":"age","by":-1}}]}
{"n":5,"ok":"update"}
> {"do":"read","handle":"h"}
{"data":{"me":{"age":9223372036854775806}},"missing":false,"n":6,"ok":"read","seen":["4","client:root"]}
> {"do":"update","updates":[{"set":{"id":"4","field":"age","value":-9223372036854775808}},{"add":{"id":"4","field":"age","by":-1}}]}
{"n":7,"ok":"update"}
> {"do":"read","handle":"h"}
{"data":{"me":{"age":-9223372036854775808}},"missing":false,"n":8,"ok":"read","seen":["4","client:root"]}
> {"do":"update","updates":[{"add":{"id":"4","field":"age","by":9223372036854775807}}]}
{"n":9,"ok":"update"}
> {"do":"read","handle":"h"}
{"data":{"me":{"age":-1}},"missing":false,"n":10,"ok":"read","seen":["4","client:root"]}
> {"do":"update","updates":[{"set":{"id":"4","field":"age","value":"x"}},{"add":{"id":"4","field":"age","by":1}}]}
{"n":11,"ok":"update"}
> {"do":"read","handle":"h"}
{"data":{"me":{"age":"x"}},"missing":false,"n":12,"ok":"read","seen":["4","client:root"]}
"#;

#[test]
fn a_sum_beyond_64_bits_changes_nothing(rt: HostRuntime) -> Result<(), Fail> {
    let alloc = rt.alloc();
    assert_eq!(rt; replayed(alloc, DOCUMENT, SUMS)?.as_str(), SUMS);
    Ok(())
}

const TYPES: &str = r#"> {"do":"update","updates":[{"create":{"id":"t","type":"X"}}]}
{"code":14,"error":"UnknownType","n":1,"name":"X"}
> {"do":"update","updates":[{"create":{"id":"t","type":"Node"}}]}
{"code":14,"error":"UnknownType","n":2,"name":"Node"}
> {"do":"update","updates":[{"create":{"id":"t","type":"User"}},{"create":{"id":"t","type":"Int"}},{"create":{"id":"t","type":"X"}}]}
{"code":14,"error":"UnknownType","n":3,"name":"Int"}
> {"do":"retain","handle":"h","op":"G"}
{"n":4,"ok":"retain"}
> {"do":"read","handle":"h","fragment":"P","id":"t"}
{"data":null,"missing":true,"n":5,"ok":"read","seen":["t"]}
> {"do":"payload","handle":"h","response":{"data":{"me":{"id":"4","age":5}}},"updates":[{"create":{"id":"t","type":"__Root"}}]}
{"code":14,"error":"UnknownType","n":6,"name":"__Root"}
> {"do":"read","handle":"h"}
{"data":null,"missing":true,"n":7,"ok":"read","seen":["client:root"]}
> {"do":"begin","layer":"a","updates":[{"create":{"id":"t","type":""}}]}
{"code":14,"error":"UnknownType","n":8,"name":""}
> {"do":"begin","layer":"a","updates":[{"append_node":{"id":"4","key":"K_friends","node":"5","edge_type":"X"}}]}
{"code":14,"error":"UnknownType","n":9,"name":"X"}
> {"do":"begin","layer":"a","updates":[{"prepend_node":{"id":"4","key":"K_friends","node":"5","edge_type":"user"}}]}
{"code":14,"error":"UnknownType","n":10,"name":"user"}
> {"do":"begin","layer":"a","updates":[{"create":{"id":"t","type":"Address"}}]}
{"n":11,"ok":"begin"}
> {"do":"finish","layer":"a","updates":[{"create":{"id":"t","type":"String"}}]}
{"code":14,"error":"UnknownType","n":12,"name":"String"}
> {"do":"finish","layer":"a"}
{"n":13,"ok":"finish"}
"#;

#[test]
fn records_are_of_object_types(rt: HostRuntime) -> Result<(), Fail> {
    let alloc = rt.alloc();
    assert_eq!(rt; replayed(alloc, DOCUMENT, TYPES)?.as_str(), TYPES);
    Ok(())
}

const SHAPES: &str = r#"> {"do":"update","updates":{}}
{"code":3,"error":"UpdateShape","n":1}
> {"do":"update","updates":[{}]}
{"code":3,"error":"UpdateShape","n":2}
> {"do":"update","updates":[{"fly":{}}]}
{"code":3,"error":"UpdateShape","n":3}
> {"do":"update","updates":[{"set":{"id":"","field":"name","value":1}}]}
{"code":3,"error":"UpdateShape","n":4}
> {"do":"update","updates":[{"set":{"id":"4","field":"__typename","value":"Tag"}}]}
{"code":3,"error":"UpdateShape","n":5}
> {"do":"update","updates":[{"set":{"id":"4","field":"name","value":[1.5]}}]}
{"code":3,"error":"UpdateShape","n":6}
> {"do":"update","updates":[{"add":{"id":"4","field":"age","by":"1"}}]}
{"code":3,"error":"UpdateShape","n":7}
> {"do":"update","updates":[{"create":{"id":"client:root","type":"User"}}]}
{"code":3,"error":"UpdateShape","n":8}
> {"do":"update","updates":[{"delete":{"id":"client:root"}}]}
{"code":3,"error":"UpdateShape","n":9}
> {"do":"update","updates":[{"delete":{"id":"4","field":"name"}}]}
{"code":3,"error":"UpdateShape","n":10}
> {"do":"update","updates":[{"delete":{"id":"4"},"create":{"id":"4","type":"User"}}]}
{"code":3,"error":"UpdateShape","n":11}
> {"do":"update","updates":[{"links":{"id":"4","field":"tags","to":"5"}}]}
{"code":3,"error":"UpdateShape","n":12}
> {"do":"update","updates":[{"link":{"id":"4","field":"friend","to":5}}]}
{"code":3,"error":"UpdateShape","n":13}
> {"do":"begin","layer":"a","updates":[{"set":{"id":"4","field":"a b","value":1}}]}
{"code":3,"error":"UpdateShape","n":14}
> {"do":"fly","updates":3}
{"code":2,"error":"EventShape","n":15}
> {"do":"update","updates":[{"set":{"id":"4","field":"name","value":{"a":[{"b":0.5}]}}}]}
{"code":3,"error":"UpdateShape","n":16}
> {"do":"update","updates":[{"set":{"id":"4","field":"name","value":[[-0]]}}]}
{"code":3,"error":"UpdateShape","n":17}
> {"do":"update","updates":[{"set":{"id":"4","field":"name","value":1,"args":{"x":[1e2]}}}]}
{"code":3,"error":"UpdateShape","n":18}
> {"do":"update","updates":[{"add":{"id":"4","field":"age","by":9223372036854775808}}]}
{"code":3,"error":"UpdateShape","n":19}
> {"do":"update","updates":[{"add":{"id":"4","field":"age","by":1.0}}]}
{"code":3,"error":"UpdateShape","n":20}
> {"do":"update","updates":[{"append_node":{"id":"4","key":"K_friends","node":"5","edge_type":"UserEdge","cursor":{"n":1.5}}}]}
{"code":3,"error":"UpdateShape","n":21}
> {"do":"update","updates":[{"delete_edge":{"id":"4","key":"K_friends","node":"5","cursor":null}}]}
{"code":3,"error":"UpdateShape","n":22}
> {"do":"payload","handle":"z","response":1,"updates":null}
{"code":3,"error":"UpdateShape","n":23}
> {"do":"update","more":1,"updates":null}
{"code":2,"error":"EventShape","n":24}
> {"do":"update","updates":[]}
{"n":25,"ok":"update"}
"#;

#[test]
fn updates_are_a_list_of_commands(rt: HostRuntime) -> Result<(), Fail> {
    let alloc = rt.alloc();
    assert_eq!(rt; replayed(alloc, DOCUMENT, SHAPES)?.as_str(), SHAPES);
    Ok(())
}

const ORDER: &str = r#"> {"do":"payload","handle":"z","response":null,"updates":[{"fly":{}}]}
{"code":3,"error":"UpdateShape","n":1}
> {"do":"payload","handle":"z","response":null,"updates":[{"create":{"id":"t","type":"X"}}]}
{"code":7,"error":"UnknownHandle","n":2,"name":"z"}
> {"do":"retain","handle":"h","op":"G"}
{"n":3,"ok":"retain"}
> {"do":"payload","handle":"h","response":null,"updates":[{"create":{"id":"t","type":"X"}}]}
{"code":14,"error":"UnknownType","n":4,"name":"X"}
> {"do":"payload","handle":"h","response":null}
{"cause":"NoData","code":16,"error":"Payload","n":5,"path":[]}
> {"do":"begin","layer":"a"}
{"n":6,"ok":"begin"}
> {"do":"begin","layer":"a","handle":"z","response":null,"updates":[{"create":{"id":"t","type":"X"}}]}
{"code":11,"error":"LayerTaken","n":7,"name":"a"}
> {"do":"begin","layer":"b","handle":"z","response":null,"updates":[{"create":{"id":"t","type":"X"}}]}
{"code":7,"error":"UnknownHandle","n":8,"name":"z"}
> {"do":"begin","layer":"b","handle":"h","response":null,"updates":[{"create":{"id":"t","type":"X"}}]}
{"code":14,"error":"UnknownType","n":9,"name":"X"}
> {"do":"begin","layer":"b","handle":"h","response":null}
{"cause":"NoData","code":16,"error":"Payload","n":10,"path":[]}
> {"do":"finish","layer":"b","handle":"z","response":null,"updates":[{"create":{"id":"t","type":"X"}}]}
{"code":10,"error":"UnknownLayer","n":11,"name":"b"}
> {"do":"finish","layer":"a","handle":"z","response":null,"updates":[{"create":{"id":"t","type":"X"}}]}
{"code":7,"error":"UnknownHandle","n":12,"name":"z"}
> {"do":"finish","layer":"a","handle":"h","response":null,"updates":[{"create":{"id":"t","type":"X"}}]}
{"code":14,"error":"UnknownType","n":13,"name":"X"}
> {"do":"finish","layer":"a","handle":"h","response":null}
{"cause":"NoData","code":16,"error":"Payload","n":14,"path":[]}
> {"do":"revert","layer":"a"}
{"n":15,"ok":"revert"}
"#;

#[test]
fn of_two_refusals_the_first_of_the_row_counts(rt: HostRuntime) -> Result<(), Fail> {
    let alloc = rt.alloc();
    assert_eq!(rt; replayed(alloc, DOCUMENT, ORDER)?.as_str(), ORDER);
    Ok(())
}
