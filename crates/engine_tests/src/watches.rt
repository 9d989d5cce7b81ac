//! Watches: what they tell and in which order, and the refusals of starting and ending them.
use crate::replaying::{replayed, replayed_flat};
use std::test::Fail;

const NAMES: &str = r#"query G{me{age}}
fragment M on Query@argumentDefinitions(size:{type:"Int!"}){m:team(size:$size){name}}"#;

const REFUSED: &str = r#"> {"do":"unwatch","watch":"w"}
{"code":12,"error":"UnknownWatch","n":1,"name":"w"}
> {"do":"watch","watch":"w","handle":"h"}
{"code":7,"error":"UnknownHandle","n":2,"name":"h"}
> {"do":"unwatch","watch":"w"}
{"code":12,"error":"UnknownWatch","n":3,"name":"w"}
> {"do":"retain","handle":"h","op":"G"}
{"n":4,"ok":"retain"}
> {"do":"watch","watch":"w","handle":"h","fragment":"G","id":"4"}
{"code":6,"error":"UnknownFragment","n":5,"name":"G"}
> {"do":"watch","watch":"w","handle":"z","fragment":"X","id":"4"}
{"code":7,"error":"UnknownHandle","n":6,"name":"z"}
> {"do":"watch","watch":"w","handle":"z","fragment":"M","id":"client:root"}
{"code":7,"error":"UnknownHandle","n":7,"name":"z"}
> {"do":"watch","watch":"w","handle":"h","fragment":"M","id":"client:root"}
{"cause":"Missing","code":15,"error":"Variables","n":8,"variable":"size"}
> {"do":"watch","watch":"w","handle":"h","fragment":"M","id":"client:root","args":{"size":"3"}}
{"cause":"Unfit","code":15,"error":"Variables","n":9,"variable":"size"}
> {"do":"watch","watch":"w","handle":"h"}
{"data":null,"missing":true,"n":10,"ok":"watch","seen":["client:root"]}
> {"do":"watch","watch":"w","handle":"z"}
{"code":13,"error":"WatchTaken","n":11,"name":"w"}
> {"do":"watch","watch":"w","handle":"h","fragment":"X","id":"4"}
{"code":13,"error":"WatchTaken","n":12,"name":"w"}
> {"do":"watch","watch":"w","handle":"h","fragment":"M","id":"4"}
{"code":13,"error":"WatchTaken","n":13,"name":"w"}
> {"do":"unwatch","watch":"w"}
{"n":14,"ok":"unwatch"}
> {"do":"unwatch","watch":"w"}
{"code":12,"error":"UnknownWatch","n":15,"name":"w"}
> {"do":"watch","watch":"w","handle":"h"}
{"data":null,"missing":true,"n":16,"ok":"watch","seen":["client:root"]}
"#;

#[test]
fn a_watch_is_started_with_a_free_name_and_ended_once(rt: HostRuntime) -> Result<(), Fail> {
    let alloc = rt.alloc();
    assert_eq!(rt; replayed(alloc, NAMES, REFUSED)?.as_str(), REFUSED);
    Ok(())
}

const ON_FRAGMENT: &str = "query N{me{name}} fragment P on User{name}";

const COMES_BACK: &str = r#"> {"do":"retain","handle":"h","op":"N"}
{"n":1,"ok":"retain"}
> {"do":"watch","watch":"w","handle":"h","fragment":"P","id":"9"}
{"data":null,"missing":true,"n":2,"ok":"watch","seen":["9"]}
> {"do":"update","updates":[{"create":{"id":"9","type":"User"}}]}
{"n":3,"ok":"update"}
{"data":{},"missing":true,"n":3,"notice":"w","seen":["9"]}
> {"do":"update","updates":[{"set":{"id":"9","field":"name","value":"Eve"}}]}
{"n":4,"ok":"update"}
{"data":{"name":"Eve"},"missing":false,"n":4,"notice":"w","seen":["9"]}
> {"do":"update","updates":[{"delete":{"id":"9"}}]}
{"n":5,"ok":"update"}
{"data":null,"missing":false,"n":5,"notice":"w","seen":["9"]}
> {"do":"update","updates":[{"set":{"id":"9","field":"name","value":"Al"}}]}
{"n":6,"ok":"update"}
> {"do":"update","updates":[{"create":{"id":"9","type":"User"}}]}
{"n":7,"ok":"update"}
{"data":{},"missing":true,"n":7,"notice":"w","seen":["9"]}
> {"do":"update","updates":[{"delete":{"id":"9"}},{"create":{"id":"9","type":"Tag"}}]}
{"n":8,"ok":"update"}
{"data":null,"missing":true,"n":8,"notice":"w","seen":["9"]}
"#;

#[test]
fn a_watched_record_is_absent_then_deleted_then_back(rt: HostRuntime) -> Result<(), Fail> {
    let alloc = rt.alloc();
    assert_eq!(rt;
        replayed(alloc, ON_FRAGMENT, COMES_BACK)?.as_str(),
        COMES_BACK
    );
    assert_eq!(rt;
        replayed_flat(alloc, ON_FRAGMENT, COMES_BACK)?.as_str(),
        COMES_BACK
    );
    Ok(())
}

const MARKS: &str = r#"> {"do":"retain","handle":"h","op":"N"}
{"n":1,"ok":"retain"}
> {"do":"watch","watch":"w","handle":"h","fragment":"P","id":"9"}
{"data":null,"missing":true,"n":2,"ok":"watch","seen":["9"]}
> {"do":"update","updates":[{"create":{"id":"9","type":"User"}},{"delete":{"id":"9"}}]}
{"n":3,"ok":"update"}
{"data":null,"missing":false,"n":3,"notice":"w","seen":["9"]}
> {"do":"collect"}
{"dropped":1,"n":4,"ok":"collect","waiting":false}
{"data":null,"missing":true,"n":4,"notice":"w","seen":["9"]}
> {"do":"collect"}
{"dropped":0,"n":5,"ok":"collect","waiting":false}
> {"do":"begin","layer":"a","updates":[{"create":{"id":"9","type":"User"}},{"delete":{"id":"9"}}]}
{"n":6,"ok":"begin"}
{"data":null,"missing":false,"n":6,"notice":"w","seen":["9"]}
> {"do":"revert","layer":"a"}
{"n":7,"ok":"revert"}
{"data":null,"missing":true,"n":7,"notice":"w","seen":["9"]}
"#;

#[test]
fn a_watch_tells_where_the_missing_mark_alone_changes(rt: HostRuntime) -> Result<(), Fail> {
    let alloc = rt.alloc();
    assert_eq!(rt; replayed(alloc, ON_FRAGMENT, MARKS)?.as_str(), MARKS);
    Ok(())
}

const AGES: &str = "query G{me{age}}";

const ENDED: &str = r#"> {"do":"retain","handle":"h","op":"G"}
{"n":1,"ok":"retain"}
> {"do":"payload","handle":"h","response":{"data":{"me":{"id":"4","age":5}}}}
{"n":2,"ok":"payload"}
> {"do":"watch","watch":"w","handle":"h"}
{"data":{"me":{"age":5}},"missing":false,"n":3,"ok":"watch","seen":["4","client:root"]}
> {"do":"update","updates":[{"set":{"id":"4","field":"age","value":6}}]}
{"n":4,"ok":"update"}
{"data":{"me":{"age":6}},"missing":false,"n":4,"notice":"w","seen":["4","client:root"]}
> {"do":"unwatch","watch":"w"}
{"n":5,"ok":"unwatch"}
> {"do":"update","updates":[{"set":{"id":"4","field":"age","value":7}}]}
{"n":6,"ok":"update"}
> {"do":"watch","watch":"w","handle":"h"}
{"data":{"me":{"age":7}},"missing":false,"n":7,"ok":"watch","seen":["4","client:root"]}
> {"do":"update","updates":[{"set":{"id":"4","field":"age","value":7}}]}
{"n":8,"ok":"update"}
> {"do":"update","updates":[{"set":{"id":"4","field":"age","value":8}},{"set":{"id":"4","field":"age","value":7}}]}
{"n":9,"ok":"update"}
> {"do":"update","updates":[{"add":{"id":"4","field":"age","by":1}}]}
{"n":10,"ok":"update"}
{"data":{"me":{"age":8}},"missing":false,"n":10,"notice":"w","seen":["4","client:root"]}
"#;

#[test]
fn a_watch_tells_nothing_once_it_has_ended(rt: HostRuntime) -> Result<(), Fail> {
    let alloc = rt.alloc();
    assert_eq!(rt; replayed(alloc, AGES, ENDED)?.as_str(), ENDED);
    Ok(())
}

const IN_ORDER: &str = r#"> {"do":"retain","handle":"h","op":"G"}
{"n":1,"ok":"retain"}
> {"do":"watch","watch":"b","handle":"h"}
{"data":null,"missing":true,"n":2,"ok":"watch","seen":["client:root"]}
> {"do":"watch","watch":"a","handle":"h"}
{"data":null,"missing":true,"n":3,"ok":"watch","seen":["client:root"]}
> {"do":"payload","handle":"h","response":{"data":{"me":{"id":"4","age":5}}}}
{"n":4,"ok":"payload"}
{"data":{"me":{"age":5}},"missing":false,"n":4,"notice":"b","seen":["4","client:root"]}
{"data":{"me":{"age":5}},"missing":false,"n":4,"notice":"a","seen":["4","client:root"]}
> {"do":"unwatch","watch":"b"}
{"n":5,"ok":"unwatch"}
> {"do":"watch","watch":"b","handle":"h"}
{"data":{"me":{"age":5}},"missing":false,"n":6,"ok":"watch","seen":["4","client:root"]}
> {"do":"begin","layer":"l","updates":[{"add":{"id":"4","field":"age","by":1}}]}
{"n":7,"ok":"begin"}
{"data":{"me":{"age":6}},"missing":false,"n":7,"notice":"a","seen":["4","client:root"]}
{"data":{"me":{"age":6}},"missing":false,"n":7,"notice":"b","seen":["4","client:root"]}
> {"do":"begin","layer":"m","updates":[{"add":{"id":"4","field":"age","by":1}},{"create":{"id":"9","type":"X"}}]}
{"code":14,"error":"UnknownType","n":8,"name":"X"}
> {"do":"finish","layer":"l","updates":[{"add":{"id":"4","field":"age","by":1}}]}
{"n":9,"ok":"finish"}
> {"do":"revert","layer":"l"}
{"code":10,"error":"UnknownLayer","n":10,"name":"l"}
> {"do":"payload","handle":"h","response":{"data":{"me":null}}}
{"n":11,"ok":"payload"}
{"data":{"me":null},"missing":false,"n":11,"notice":"a","seen":["client:root"]}
{"data":{"me":null},"missing":false,"n":11,"notice":"b","seen":["client:root"]}
"#;

#[test]
fn watches_are_told_in_the_order_of_their_start(rt: HostRuntime) -> Result<(), Fail> {
    let alloc = rt.alloc();
    assert_eq!(rt; replayed(alloc, AGES, IN_ORDER)?.as_str(), IN_ORDER);
    Ok(())
}

const MASKED: &str = "query F{me{friend{...P}}} query L{me{friend{name}}} fragment P on User{name}";

const SHOWN: &str = r#"> {"do":"retain","handle":"h","op":"L"}
{"n":1,"ok":"retain"}
> {"do":"payload","handle":"h","response":{"data":{"me":{"id":"4","friend":{"id":"5","name":"Bo"}}}}}
{"n":2,"ok":"payload"}
> {"do":"watch","watch":"w","handle":"h"}
{"data":{"me":{"friend":{"name":"Bo"}}},"missing":false,"n":3,"ok":"watch","seen":["4","5","client:root"]}
> {"do":"payload","handle":"h","response":{"data":{"me":{"id":"4","friend":{"id":"6","name":"Bo"}}}}}
{"n":4,"ok":"payload"}
> {"do":"update","updates":[{"set":{"id":"5","field":"name","value":"Al"}}]}
{"n":5,"ok":"update"}
> {"do":"retain","handle":"i","op":"F"}
{"n":6,"ok":"retain"}
> {"do":"watch","watch":"v","handle":"i"}
{"data":{"me":{"friend":{"__fragments":{"P":{}},"__id":"6","__owner":"i"}}},"missing":false,"n":7,"ok":"watch","seen":["4","6","client:root"]}
> {"do":"update","updates":[{"set":{"id":"6","field":"name","value":"Cy"}}]}
{"n":8,"ok":"update"}
{"data":{"me":{"friend":{"name":"Cy"}}},"missing":false,"n":8,"notice":"w","seen":["4","6","client:root"]}
> {"do":"update","updates":[{"link":{"id":"4","field":"friend","to":"5"}},{"set":{"id":"5","field":"name","value":"Cy"}}]}
{"n":9,"ok":"update"}
{"data":{"me":{"friend":{"__fragments":{"P":{}},"__id":"5","__owner":"i"}}},"missing":false,"n":9,"notice":"v","seen":["4","5","client:root"]}
"#;

#[test]
fn a_watch_tells_of_what_it_shows_alone(rt: HostRuntime) -> Result<(), Fail> {
    let alloc = rt.alloc();
    assert_eq!(rt; replayed(alloc, MASKED, SHOWN)?.as_str(), SHOWN);
    Ok(())
}
