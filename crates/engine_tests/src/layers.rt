//! Optimistic layers: over the base, and dropped from below and from above.
use crate::replaying::{replayed, replayed_flat};
use std::test::Fail;

const DOCUMENT: &str = "query G{me{age}} query L{me{friend{name}}}";

const DROPPED: &str = r#"> {"do":"retain","handle":"h","op":"G"}
{"n":1,"ok":"retain"}
> {"do":"payload","handle":"h","response":{"data":{"me":{"id":"4","age":5}}}}
{"n":2,"ok":"payload"}
> {"do":"begin","layer":"a","updates":[{"add":{"id":"4","field":"age","by":1}}]}
{"n":3,"ok":"begin"}
> {"do":"read","handle":"h"}
{"data":{"me":{"age":6}},"missing":false,"n":4,"ok":"read","seen":["4","client:root"]}
> {"do":"payload","handle":"h","response":{"data":{"me":{"id":"4","age":7}}}}
{"n":5,"ok":"payload"}
> {"do":"read","handle":"h"}
{"data":{"me":{"age":8}},"missing":false,"n":6,"ok":"read","seen":["4","client:root"]}
> {"do":"begin","layer":"b","updates":[{"set":{"id":"4","field":"age","value":20}}]}
{"n":7,"ok":"begin"}
> {"do":"revert","layer":"a"}
{"n":8,"ok":"revert"}
> {"do":"read","handle":"h"}
{"data":{"me":{"age":20}},"missing":false,"n":9,"ok":"read","seen":["4","client:root"]}
> {"do":"begin","layer":"a","updates":[{"add":{"id":"4","field":"age","by":1}}]}
{"n":10,"ok":"begin"}
> {"do":"read","handle":"h"}
{"data":{"me":{"age":21}},"missing":false,"n":11,"ok":"read","seen":["4","client:root"]}
> {"do":"revert","layer":"b"}
{"n":12,"ok":"revert"}
> {"do":"read","handle":"h"}
{"data":{"me":{"age":8}},"missing":false,"n":13,"ok":"read","seen":["4","client:root"]}
> {"do":"revert","layer":"a"}
{"n":14,"ok":"revert"}
> {"do":"read","handle":"h"}
{"data":{"me":{"age":7}},"missing":false,"n":15,"ok":"read","seen":["4","client:root"]}
"#;

#[test]
fn a_dropped_layer_leaves_what_would_be_there_without_it(rt: HostRuntime) -> Result<(), Fail> {
    let alloc = rt.alloc();
    assert_eq!(rt; replayed(alloc, DOCUMENT, DROPPED)?.as_str(), DROPPED);
    assert_eq!(rt; replayed_flat(alloc, DOCUMENT, DROPPED)?.as_str(), DROPPED);
    Ok(())
}

const FINISHED: &str = r#"> {"do":"retain","handle":"h","op":"G"}
{"n":1,"ok":"retain"}
> {"do":"payload","handle":"h","response":{"data":{"me":{"id":"4","age":5}}}}
{"n":2,"ok":"payload"}
> {"do":"begin","layer":"a","updates":[{"add":{"id":"4","field":"age","by":1}}]}
{"n":3,"ok":"begin"}
> {"do":"begin","layer":"b","updates":[{"add":{"id":"4","field":"age","by":2}}]}
{"n":4,"ok":"begin"}
> {"do":"read","handle":"h"}
{"data":{"me":{"age":8}},"missing":false,"n":5,"ok":"read","seen":["4","client:root"]}
> {"do":"finish","layer":"a","updates":[{"set":{"id":"4","field":"age","value":100}}]}
{"n":6,"ok":"finish"}
> {"do":"read","handle":"h"}
{"data":{"me":{"age":102}},"missing":false,"n":7,"ok":"read","seen":["4","client:root"]}
> {"do":"finish","layer":"b"}
{"n":8,"ok":"finish"}
> {"do":"read","handle":"h"}
{"data":{"me":{"age":100}},"missing":false,"n":9,"ok":"read","seen":["4","client:root"]}
> {"do":"begin","layer":"a","handle":"h","response":{"data":{"me":{"id":"4","age":1}}},"updates":[{"add":{"id":"4","field":"age","by":3}}]}
{"n":10,"ok":"begin"}
> {"do":"read","handle":"h"}
{"data":{"me":{"age":4}},"missing":false,"n":11,"ok":"read","seen":["4","client:root"]}
> {"do":"finish","layer":"a","handle":"h","response":{"data":{"me":{"id":"4","age":2}}},"updates":[{"add":{"id":"4","field":"age","by":5}}]}
{"n":12,"ok":"finish"}
> {"do":"read","handle":"h"}
{"data":{"me":{"age":7}},"missing":false,"n":13,"ok":"read","seen":["4","client:root"]}
> {"do":"finish","layer":"a"}
{"code":10,"error":"UnknownLayer","n":14,"name":"a"}
"#;

#[test]
fn a_finished_layer_confirms_what_came(rt: HostRuntime) -> Result<(), Fail> {
    let alloc = rt.alloc();
    assert_eq!(rt; replayed(alloc, DOCUMENT, FINISHED)?.as_str(), FINISHED);
    Ok(())
}

const BUILT_ON: &str = r#"> {"do":"retain","handle":"h","op":"L"}
{"n":1,"ok":"retain"}
> {"do":"payload","handle":"h","response":{"data":{"me":{"id":"4","friend":null}}}}
{"n":2,"ok":"payload"}
> {"do":"begin","layer":"a","updates":[{"create":{"id":"t1","type":"User"}}]}
{"n":3,"ok":"begin"}
> {"do":"begin","layer":"b","updates":[{"link":{"field":"friend","id":"4","to":"t1"}}]}
{"n":4,"ok":"begin"}
> {"do":"begin","layer":"c","updates":[{"set":{"field":"name","id":"t1","value":"Bo"}}]}
{"n":5,"ok":"begin"}
> {"do":"read","handle":"h"}
{"data":{"me":{"friend":{"name":"Bo"}}},"missing":false,"n":6,"ok":"read","seen":["4","client:root","t1"]}
> {"do":"revert","layer":"b"}
{"n":7,"ok":"revert"}
> {"do":"revert","layer":"a"}
{"n":8,"ok":"revert"}
> {"do":"read","handle":"h"}
{"data":{"me":{"friend":null}},"missing":false,"n":9,"ok":"read","seen":["4","client:root"]}
> {"do":"begin","layer":"a","updates":[{"link":{"field":"friend","id":"4","to":"t1"}}]}
{"n":10,"ok":"begin"}
> {"do":"read","handle":"h"}
{"data":{"me":{}},"missing":true,"n":11,"ok":"read","seen":["4","client:root","t1"]}
"#;

#[test]
fn a_layer_that_built_on_a_dropped_one_does_nothing(rt: HostRuntime) -> Result<(), Fail> {
    let alloc = rt.alloc();
    assert_eq!(rt; replayed(alloc, DOCUMENT, BUILT_ON)?.as_str(), BUILT_ON);
    Ok(())
}

const REFUSED: &str = r#"> {"do":"revert","layer":"a"}
{"code":10,"error":"UnknownLayer","n":1,"name":"a"}
> {"do":"finish","layer":"a"}
{"code":10,"error":"UnknownLayer","n":2,"name":"a"}
> {"do":"begin","layer":"a","handle":"h","response":{"data":{}}}
{"code":7,"error":"UnknownHandle","n":3,"name":"h"}
> {"do":"revert","layer":"a"}
{"code":10,"error":"UnknownLayer","n":4,"name":"a"}
> {"do":"retain","handle":"h","op":"G"}
{"n":5,"ok":"retain"}
> {"do":"begin","layer":"a","handle":"h","response":{"data":{"me":{"id":"4","age":0.5}}}}
{"cause":"NotWhole","code":16,"error":"Payload","n":6,"path":["me","age"]}
> {"do":"revert","layer":"a"}
{"code":10,"error":"UnknownLayer","n":7,"name":"a"}
> {"do":"begin","layer":"a"}
{"n":8,"ok":"begin"}
> {"do":"begin","layer":"a"}
{"code":11,"error":"LayerTaken","n":9,"name":"a"}
> {"do":"revert","layer":"a"}
{"n":10,"ok":"revert"}
> {"do":"revert","layer":"a"}
{"code":10,"error":"UnknownLayer","n":11,"name":"a"}
"#;

#[test]
fn a_refused_begin_leaves_no_layer(rt: HostRuntime) -> Result<(), Fail> {
    let alloc = rt.alloc();
    assert_eq!(rt; replayed(alloc, DOCUMENT, REFUSED)?.as_str(), REFUSED);
    Ok(())
}
