//! Retention: what a released operation keeps, and what a sweep takes out. An engine keeps the last two
//! operations that were released.
use crate::replaying::{replayed, replayed_flat};
use std::test::Fail;

const WATCHED: &str = "query G{me{age}} query N{me{name}} fragment P on User{name}";

const IN_USE: &str = r#"> {"do":"release","handle":"h"}
{"code":7,"error":"UnknownHandle","n":1,"name":"h"}
> {"do":"retain","handle":"h","op":"G"}
{"n":2,"ok":"retain"}
> {"do":"watch","watch":"w","handle":"h"}
{"data":null,"missing":true,"n":3,"ok":"watch","seen":["client:root"]}
> {"do":"release","handle":"h"}
{"code":9,"error":"HandleInUse","n":4,"name":"h"}
> {"do":"watch","watch":"v","handle":"h","fragment":"P","id":"4"}
{"data":null,"missing":true,"n":5,"ok":"watch","seen":["4"]}
> {"do":"unwatch","watch":"w"}
{"n":6,"ok":"unwatch"}
> {"do":"release","handle":"h"}
{"code":9,"error":"HandleInUse","n":7,"name":"h"}
> {"do":"unwatch","watch":"v"}
{"n":8,"ok":"unwatch"}
> {"do":"release","handle":"h"}
{"n":9,"ok":"release"}
> {"do":"release","handle":"h"}
{"code":7,"error":"UnknownHandle","n":10,"name":"h"}
> {"do":"read","handle":"h"}
{"code":7,"error":"UnknownHandle","n":11,"name":"h"}
> {"do":"payload","handle":"h","response":{"data":{"me":null}}}
{"code":7,"error":"UnknownHandle","n":12,"name":"h"}
> {"do":"retain","handle":"h","op":"N"}
{"n":13,"ok":"retain"}
> {"do":"read","handle":"h"}
{"data":null,"missing":true,"n":14,"ok":"read","seen":["client:root"]}
"#;

#[test]
fn a_handle_is_released_once_and_while_no_watch_uses_it(rt: HostRuntime) -> Result<(), Fail> {
    let alloc = rt.alloc();
    assert_eq!(rt; replayed(alloc, WATCHED, IN_USE)?.as_str(), IN_USE);
    Ok(())
}

const NODES: &str = "query A($id:ID!){node(id:$id){id}}";

const OLDEST: &str = r#"> {"do":"retain","handle":"a","op":"A","vars":{"id":"1"}}
{"n":1,"ok":"retain"}
> {"do":"payload","handle":"a","response":{"data":{"node":{"__typename":"User","id":"1"}}}}
{"n":2,"ok":"payload"}
> {"do":"retain","handle":"b","op":"A","vars":{"id":"2"}}
{"n":3,"ok":"retain"}
> {"do":"payload","handle":"b","response":{"data":{"node":{"__typename":"User","id":"2"}}}}
{"n":4,"ok":"payload"}
> {"do":"retain","handle":"c","op":"A","vars":{"id":"3"}}
{"n":5,"ok":"retain"}
> {"do":"payload","handle":"c","response":{"data":{"node":{"__typename":"User","id":"3"}}}}
{"n":6,"ok":"payload"}
> {"do":"release","handle":"b"}
{"n":7,"ok":"release"}
> {"do":"release","handle":"a"}
{"n":8,"ok":"release"}
> {"do":"collect"}
{"dropped":0,"n":9,"ok":"collect","waiting":false}
> {"do":"release","handle":"c"}
{"n":10,"ok":"release"}
> {"do":"collect"}
{"dropped":1,"n":11,"ok":"collect","waiting":false}
> {"do":"retain","handle":"b","op":"A","vars":{"id":"2"}}
{"n":12,"ok":"retain"}
> {"do":"read","handle":"b"}
{"data":{},"missing":true,"n":13,"ok":"read","seen":["2","client:root"]}
> {"do":"retain","handle":"a","op":"A","vars":{"id":"1"}}
{"n":14,"ok":"retain"}
> {"do":"read","handle":"a"}
{"data":{"node":{"id":"1"}},"missing":false,"n":15,"ok":"read","seen":["1","client:root"]}
> {"do":"release","handle":"b"}
{"n":16,"ok":"release"}
> {"do":"collect"}
{"dropped":0,"n":17,"ok":"collect","waiting":false}
> {"do":"retain","handle":"b","op":"A","vars":{"id":"2"}}
{"n":18,"ok":"retain"}
> {"do":"release","handle":"b"}
{"n":19,"ok":"release"}
> {"do":"collect"}
{"dropped":1,"n":20,"ok":"collect","waiting":false}
> {"do":"release","handle":"a"}
{"n":21,"ok":"release"}
> {"do":"collect"}
{"dropped":0,"n":22,"ok":"collect","waiting":false}
"#;

#[test]
fn the_operation_that_was_released_first_is_let_go_first(rt: HostRuntime) -> Result<(), Fail> {
    let alloc = rt.alloc();
    assert_eq!(rt; replayed(alloc, NODES, OLDEST)?.as_str(), OLDEST);
    assert_eq!(rt; replayed_flat(alloc, NODES, OLDEST)?.as_str(), OLDEST);
    Ok(())
}

const FRIENDS: &str = "query M{me{name friend{name}}} query N{me{friend{id}}}";

const FEWER: &str = r#"> {"do":"retain","handle":"h","op":"M"}
{"n":1,"ok":"retain"}
> {"do":"retain","handle":"k","op":"N"}
{"n":2,"ok":"retain"}
> {"do":"payload","handle":"h","response":{"data":{"me":{"id":"4","name":"Ann","friend":{"id":"9","name":"Zoe"}}}}}
{"n":3,"ok":"payload"}
> {"do":"payload","handle":"h","response":{"data":{"me":{"id":"4","name":"Ann","friend":{"id":"8","name":"Al"}}}}}
{"n":4,"ok":"payload"}
> {"do":"collect"}
{"dropped":1,"n":5,"ok":"collect","waiting":false}
> {"do":"payload","handle":"k","response":{"data":{"me":{"id":"4","friend":{"id":"9"}}}}}
{"n":6,"ok":"payload"}
> {"do":"read","handle":"h"}
{"data":{"me":{"friend":{},"name":"Ann"}},"missing":true,"n":7,"ok":"read","seen":["4","9","client:root"]}
> {"do":"update","updates":[{"delete":{"id":"9"}}]}
{"n":8,"ok":"update"}
> {"do":"collect"}
{"dropped":1,"n":9,"ok":"collect","waiting":false}
> {"do":"read","handle":"h"}
{"data":{"me":{"friend":null,"name":"Ann"}},"missing":false,"n":10,"ok":"read","seen":["4","9","client:root"]}
> {"do":"update","updates":[{"link":{"id":"4","field":"friend","to":null}}]}
{"n":11,"ok":"update"}
> {"do":"collect"}
{"dropped":1,"n":12,"ok":"collect","waiting":false}
> {"do":"update","updates":[{"link":{"id":"4","field":"friend","to":"9"}}]}
{"n":13,"ok":"update"}
> {"do":"read","handle":"h"}
{"data":{"me":{"name":"Ann"}},"missing":true,"n":14,"ok":"read","seen":["4","9","client:root"]}
"#;

#[test]
fn a_record_that_was_taken_out_comes_back_without_its_fields(rt: HostRuntime) -> Result<(), Fail> {
    let alloc = rt.alloc();
    assert_eq!(rt; replayed(alloc, FRIENDS, FEWER)?.as_str(), FEWER);
    Ok(())
}

const SPREADS: &str = "query A{me{friend{...P}}} query B{me{friend{id}}} query E{me{id}}
fragment P on User{friend{name}}";

const THROUGH_LINKS: &str = r#"> {"do":"retain","handle":"a","op":"A"}
{"n":1,"ok":"retain"}
> {"do":"retain","handle":"b","op":"B"}
{"n":2,"ok":"retain"}
> {"do":"payload","handle":"b","response":{"data":{"me":{"id":"4","friend":{"id":"5"}}}},"updates":[{"create":{"id":"6","type":"User"}},{"create":{"id":"7","type":"User"}},{"link":{"id":"5","field":"friend","to":"6"}},{"link":{"id":"6","field":"friend","to":"7"}}]}
{"n":3,"ok":"payload"}
> {"do":"release","handle":"b"}
{"n":4,"ok":"release"}
> {"do":"retain","handle":"e","op":"E"}
{"n":5,"ok":"retain"}
> {"do":"retain","handle":"f","op":"E"}
{"n":6,"ok":"retain"}
> {"do":"release","handle":"e"}
{"n":7,"ok":"release"}
> {"do":"release","handle":"f"}
{"n":8,"ok":"release"}
> {"do":"collect"}
{"dropped":1,"n":9,"ok":"collect","waiting":false}
> {"do":"update","updates":[{"set":{"id":"6","field":"name","value":"Cy"}}]}
{"n":10,"ok":"update"}
> {"do":"read","handle":"a","fragment":"P","id":"5"}
{"data":{"friend":{"name":"Cy"}},"missing":false,"n":11,"ok":"read","seen":["5","6"]}
> {"do":"update","updates":[{"set":{"id":"4","field":"friend","value":"5"}}]}
{"n":12,"ok":"update"}
> {"do":"collect"}
{"dropped":2,"n":13,"ok":"collect","waiting":false}
"#;

#[test]
fn a_walk_goes_through_spreads_and_links_of_others(rt: HostRuntime) -> Result<(), Fail> {
    let alloc = rt.alloc();
    assert_eq!(rt;
        replayed(alloc, SPREADS, THROUGH_LINKS)?.as_str(),
        THROUGH_LINKS
    );
    Ok(())
}

const PAGES: &str =
    r#"query K($after:String){me{friends(first:2,after:$after)@connection(key:"K_friends"){edges{node{name}}}}}
query E{me{id}} fragment P on User{name}"#;

const BOTH_KEYS: &str = r#"> {"do":"retain","handle":"h","op":"K"}
{"n":1,"ok":"retain"}
> {"do":"payload","handle":"h","response":{"data":{"me":{"id":"4","friends":{"edges":[{"cursor":"c1","node":{"id":"5","name":"Al"}},{"cursor":"c2","node":{"id":"6","name":"Bo"}}],"pageInfo":{"endCursor":"c2"}}}}}}
{"n":2,"ok":"payload"}
> {"do":"retain","handle":"i","op":"K","vars":{"after":"c2"}}
{"n":3,"ok":"retain"}
> {"do":"payload","handle":"i","response":{"data":{"me":{"id":"4","friends":{"edges":[{"cursor":"c3","node":{"id":"6","name":"Bo"}},{"cursor":"c4","node":{"id":"7","name":"Cy"}}],"pageInfo":{}}}}}}
{"n":4,"ok":"payload"}
> {"do":"collect"}
{"dropped":0,"n":5,"ok":"collect","waiting":false}
> {"do":"release","handle":"i"}
{"n":6,"ok":"release"}
> {"do":"retain","handle":"e","op":"E"}
{"n":7,"ok":"retain"}
> {"do":"release","handle":"e"}
{"n":8,"ok":"release"}
> {"do":"collect"}
{"dropped":0,"n":9,"ok":"collect","waiting":false}
> {"do":"retain","handle":"e","op":"E"}
{"n":10,"ok":"retain"}
> {"do":"release","handle":"e"}
{"n":11,"ok":"release"}
> {"do":"collect"}
{"dropped":4,"n":12,"ok":"collect","waiting":false}
> {"do":"read","handle":"h"}
{"data":{"me":{"friends":{"edges":[{"node":{"name":"Al"}},{"node":{"name":"Bo"}},{"node":{"name":"Cy"}}]}}},"missing":false,"n":13,"ok":"read","seen":["4","5","6","7","client:4:__K_friends_connection","client:4:__K_friends_connection:edges:0","client:4:__K_friends_connection:edges:1","client:4:__K_friends_connection:edges:2","client:root"]}
> {"do":"update","updates":[{"delete_edge":{"id":"4","key":"K_friends","node":"5"}},{"delete_edge":{"id":"4","key":"K_friends","node":"7"}}]}
{"n":14,"ok":"update"}
> {"do":"collect"}
{"dropped":3,"n":15,"ok":"collect","waiting":false}
> {"do":"read","handle":"h","fragment":"P","id":"5"}
{"data":{"name":"Al"},"missing":false,"n":16,"ok":"read","seen":["5"]}
> {"do":"read","handle":"h","fragment":"P","id":"7"}
{"data":null,"missing":true,"n":17,"ok":"read","seen":["7"]}
"#;

#[test]
fn a_walk_follows_both_keys_of_a_connection(rt: HostRuntime) -> Result<(), Fail> {
    let alloc = rt.alloc();
    assert_eq!(rt; replayed(alloc, PAGES, BOTH_KEYS)?.as_str(), BOTH_KEYS);
    Ok(())
}
