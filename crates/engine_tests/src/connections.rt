//! Connections: their pages, and the commands on their edges.
use crate::replaying::{replayed, replayed_flat};
use std::test::Fail;

const DOCUMENT: &str =
    r#"query K($after:String,$before:String){me{friends(first:2,after:$after,before:$before)@connection(key:"K_friends"){edges{node{name}}}}}"#;

const NEXT: &str = r#"> {"do":"retain","handle":"h","op":"K"}
{"n":1,"ok":"retain"}
> {"do":"payload","handle":"h","response":{"data":{"me":{"id":"4","friends":{"edges":[{"cursor":"c1","node":{"id":"5","name":"Al"}},{"cursor":"c2","node":{"id":"6","name":"Bo"}}],"pageInfo":{"endCursor":"c2"}}}}}}
{"n":2,"ok":"payload"}
> {"do":"retain","handle":"i","op":"K","vars":{"after":"c2"}}
{"n":3,"ok":"retain"}
> {"do":"payload","handle":"i","response":{"data":{"me":{"id":"4","friends":{"edges":[{"cursor":"c3","node":{"id":"6","name":"Bo"}},{"cursor":"c4","node":{"id":"7","name":"Cy"}}],"pageInfo":{}}}}}}
{"n":4,"ok":"payload"}
> {"do":"read","handle":"h"}
{"data":{"me":{"friends":{"edges":[{"node":{"name":"Al"}},{"node":{"name":"Bo"}},{"node":{"name":"Cy"}}]}}},"missing":false,"n":5,"ok":"read","seen":["4","5","6","7","client:4:__K_friends_connection","client:4:__K_friends_connection:edges:0","client:4:__K_friends_connection:edges:1","client:4:__K_friends_connection:edges:2","client:root"]}
> {"do":"retain","handle":"j","op":"K","vars":{"after":"c9"}}
{"n":6,"ok":"retain"}
> {"do":"payload","handle":"j","response":{"data":{"me":{"id":"4","friends":{"edges":[{"cursor":"c10","node":{"id":"8","name":"Di"}}],"pageInfo":{}}}}}}
{"n":7,"ok":"payload"}
> {"do":"read","handle":"h"}
{"data":{"me":{"friends":{"edges":[{"node":{"name":"Al"}},{"node":{"name":"Bo"}},{"node":{"name":"Cy"}}]}}},"missing":false,"n":8,"ok":"read","seen":["4","5","6","7","client:4:__K_friends_connection","client:4:__K_friends_connection:edges:0","client:4:__K_friends_connection:edges:1","client:4:__K_friends_connection:edges:2","client:root"]}
"#;

#[test]
fn a_page_behind_the_last_cursor_goes_to_the_end(rt: HostRuntime) -> Result<(), Fail> {
    let alloc = rt.alloc();
    assert_eq!(rt; replayed(alloc, DOCUMENT, NEXT)?.as_str(), NEXT);
    assert_eq!(rt; replayed_flat(alloc, DOCUMENT, NEXT)?.as_str(), NEXT);
    Ok(())
}

const PREVIOUS: &str = r#"> {"do":"retain","handle":"h","op":"K"}
{"n":1,"ok":"retain"}
> {"do":"payload","handle":"h","response":{"data":{"me":{"id":"4","friends":{"edges":[{"cursor":"c1","node":{"id":"5","name":"Al"}}],"pageInfo":{"startCursor":"c1"}}}}}}
{"n":2,"ok":"payload"}
> {"do":"retain","handle":"i","op":"K","vars":{"before":"c1"}}
{"n":3,"ok":"retain"}
> {"do":"payload","handle":"i","response":{"data":{"me":{"id":"4","friends":{"edges":[{"cursor":"c0","node":{"id":"6","name":"Bo"}}],"pageInfo":{"startCursor":"c0"}}}}}}
{"n":4,"ok":"payload"}
> {"do":"read","handle":"i"}
{"data":{"me":{"friends":{"edges":[{"node":{"name":"Bo"}},{"node":{"name":"Al"}}]}}},"missing":false,"n":5,"ok":"read","seen":["4","5","6","client:4:__K_friends_connection","client:4:__K_friends_connection:edges:0","client:4:__K_friends_connection:edges:1","client:root"]}
> {"do":"payload","handle":"i","response":{"data":{"me":{"id":"4","friends":{"edges":[{"cursor":"c","node":{"id":"7","name":"Cy"}}],"pageInfo":{}}}}}}
{"n":6,"ok":"payload"}
> {"do":"read","handle":"h"}
{"data":{"me":{"friends":{"edges":[{"node":{"name":"Bo"}},{"node":{"name":"Al"}}]}}},"missing":false,"n":7,"ok":"read","seen":["4","5","6","client:4:__K_friends_connection","client:4:__K_friends_connection:edges:0","client:4:__K_friends_connection:edges:1","client:root"]}
> {"do":"payload","handle":"h","response":{"data":{"me":{"id":"4","friends":{"edges":[{"cursor":"c1","node":{"id":"7","name":"Cy"}}],"pageInfo":{"startCursor":"c1"}}}}}}
{"n":8,"ok":"payload"}
> {"do":"read","handle":"h"}
{"data":{"me":{"friends":{"edges":[{"node":{"name":"Cy"}}]}}},"missing":false,"n":9,"ok":"read","seen":["4","7","client:4:__K_friends_connection","client:4:__K_friends_connection:edges:2","client:root"]}
"#;

#[test]
fn a_page_goes_in_front_and_a_refetch_replaces_all(rt: HostRuntime) -> Result<(), Fail> {
    let alloc = rt.alloc();
    assert_eq!(rt; replayed(alloc, DOCUMENT, PREVIOUS)?.as_str(), PREVIOUS);
    Ok(())
}

const EDGES: &str = r#"> {"do":"retain","handle":"h","op":"K"}
{"n":1,"ok":"retain"}
> {"do":"payload","handle":"h","response":{"data":{"me":{"id":"4","friends":{"edges":[{"cursor":"c1","node":{"id":"5","name":"Al"}},{"cursor":"c2","node":{"id":"5","name":"Al"}}],"pageInfo":{}}}}}}
{"n":2,"ok":"payload"}
> {"do":"update","updates":[{"create":{"id":"6","type":"User"}},{"set":{"id":"6","field":"name","value":"Bo"}},{"append_node":{"id":"4","key":"K_friends","node":"6","edge_type":"UserEdge"}}]}
{"n":3,"ok":"update"}
> {"do":"update","updates":[{"create":{"id":"7","type":"User"}},{"set":{"id":"7","field":"name","value":"Cy"}},{"prepend_node":{"id":"4","key":"K_friends","node":"7","edge_type":"UserEdge","cursor":"c0"}}]}
{"n":4,"ok":"update"}
> {"do":"update","updates":[{"append_node":{"id":"4","key":"K_friends","node":"5","edge_type":"UserEdge"}},{"prepend_node":{"id":"5","key":"K_friends","node":"6","edge_type":"UserEdge"}},{"append_node":{"id":"4","key":"K_others","node":"8","edge_type":"UserEdge"}}]}
{"n":5,"ok":"update"}
> {"do":"read","handle":"h"}
{"data":{"me":{"friends":{"edges":[{"node":{"name":"Cy"}},{"node":{"name":"Al"}},{"node":{"name":"Bo"}}]}}},"missing":false,"n":6,"ok":"read","seen":["4","5","6","7","client:4:__K_friends_connection","client:4:__K_friends_connection:edges:0","client:4:__K_friends_connection:edges:1","client:4:__K_friends_connection:edges:2","client:root"]}
> {"do":"update","updates":[{"delete_edge":{"id":"4","key":"K_friends","node":"5"}}]}
{"n":7,"ok":"update"}
> {"do":"read","handle":"h"}
{"data":{"me":{"friends":{"edges":[{"node":{"name":"Cy"}},{"node":{"name":"Bo"}}]}}},"missing":false,"n":8,"ok":"read","seen":["4","6","7","client:4:__K_friends_connection","client:4:__K_friends_connection:edges:1","client:4:__K_friends_connection:edges:2","client:root"]}
> {"do":"update","updates":[{"append_node":{"id":"4","key":"K_friends","node":"5","edge_type":"UserEdge"}},{"delete":{"id":"7"}}]}
{"n":9,"ok":"update"}
> {"do":"read","handle":"h"}
{"data":{"me":{"friends":{"edges":[{"node":null},{"node":{"name":"Bo"}},{"node":{"name":"Al"}}]}}},"missing":false,"n":10,"ok":"read","seen":["4","5","6","7","client:4:__K_friends_connection","client:4:__K_friends_connection:edges:1","client:4:__K_friends_connection:edges:2","client:4:__K_friends_connection:edges:3","client:root"]}
"#;

#[test]
fn edges_are_put_and_taken_and_no_node_stands_twice(rt: HostRuntime) -> Result<(), Fail> {
    let alloc = rt.alloc();
    assert_eq!(rt; replayed(alloc, DOCUMENT, EDGES)?.as_str(), EDGES);
    Ok(())
}
