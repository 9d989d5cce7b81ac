//! Pages of connections at their edges: what stands in them, and which cursors match.
use crate::replaying::{replayed, replayed_flat};
use std::test::Fail;

const DOCUMENT: &str =
    r#"query K($after:String,$before:String){me{friends(first:2,after:$after,before:$before)@connection(key:"K_friends"){edges{node{name}}}}}"#;

const STRANGE: &str = r#"> {"do":"retain","handle":"h","op":"K"}
{"n":1,"ok":"retain"}
> {"do":"payload","handle":"h","response":{"data":{"me":{"id":"4","friends":{"edges":[null,{"cursor":"c1","node":{"id":"5","name":"Al"}},{"cursor":"c2","node":null},{"cursor":"c3"}],"pageInfo":{"endCursor":"c3"}}}}}}
{"n":2,"ok":"payload"}
> {"do":"read","handle":"h"}
{"data":{"me":{"friends":{"edges":[{"node":{"name":"Al"}},{"node":null},{}]}}},"missing":true,"n":3,"ok":"read","seen":["4","5","client:4:__K_friends_connection","client:4:__K_friends_connection:edges:0","client:4:__K_friends_connection:edges:1","client:4:__K_friends_connection:edges:2","client:root"]}
> {"do":"update","updates":[{"delete":{"id":"client:4:friends(first:2):edges:2"}},{"create":{"id":"9","type":"User"}},{"links":{"id":"client:4:friends(first:2)","field":"edges","to":["client:4:friends(first:2):edges:1","client:4:friends(first:2):edges:2",null,"9","8"]}}]}
{"n":4,"ok":"update"}
> {"do":"payload","handle":"h","response":{"data":{"me":{"id":"4","friends":{"pageInfo":{"endCursor":"c3"}}}}}}
{"n":5,"ok":"payload"}
> {"do":"read","handle":"h"}
{"data":{"me":{"friends":{"edges":[{"node":{"name":"Al"}},null]}}},"missing":true,"n":6,"ok":"read","seen":["4","5","client:4:__K_friends_connection","client:4:__K_friends_connection:edges:3","client:4:__K_friends_connection:edges:4","client:root"]}
> {"do":"update","updates":[{"delete":{"id":"client:4:__K_friends_connection:edges:3"}},{"links":{"id":"client:4:__K_friends_connection","field":"edges","to":[null,"client:4:__K_friends_connection:edges:3","9"]}}]}
{"n":7,"ok":"update"}
> {"do":"retain","handle":"i","op":"K","vars":{"after":"c3"}}
{"n":8,"ok":"retain"}
> {"do":"payload","handle":"i","response":{"data":{"me":{"id":"4","friends":{"edges":[{"cursor":"c4","node":{"id":"6","name":"Bo"}}],"pageInfo":{}}}}}}
{"n":9,"ok":"payload"}
> {"do":"read","handle":"h"}
{"data":{"me":{"friends":{"edges":[null,null,null,{"node":{"name":"Bo"}}]}}},"missing":true,"n":10,"ok":"read","seen":["4","6","9","client:4:__K_friends_connection","client:4:__K_friends_connection:edges:3","client:4:__K_friends_connection:edges:5","client:root"]}
"#;

#[test]
fn new_edges_are_live_and_old_ones_all_stay(rt: HostRuntime) -> Result<(), Fail> {
    let alloc = rt.alloc();
    assert_eq!(rt; replayed(alloc, DOCUMENT, STRANGE)?.as_str(), STRANGE);
    assert_eq!(rt; replayed_flat(alloc, DOCUMENT, STRANGE)?.as_str(), STRANGE);
    Ok(())
}

const DOUBLE: &str = r#"> {"do":"retain","handle":"h","op":"K"}
{"n":1,"ok":"retain"}
> {"do":"payload","handle":"h","response":{"data":{"me":{"id":"4","friends":{"edges":[{"cursor":"c1","node":{"id":"5","name":"Al"}},{"cursor":"c2","node":{"id":"6","name":"Bo"}},{"cursor":"c3","node":{"id":"5","name":"Al"}}],"pageInfo":{"endCursor":"c3","startCursor":"c1"}}}}}}
{"n":2,"ok":"payload"}
> {"do":"retain","handle":"i","op":"K","vars":{"before":"c1"}}
{"n":3,"ok":"retain"}
> {"do":"payload","handle":"i","response":{"data":{"me":{"id":"4","friends":{"edges":[{"cursor":"b1","node":{"id":"6","name":"Bo"}},{"cursor":"b2","node":{"id":"7","name":"Cy"}},{"cursor":"b3","node":{"id":"6","name":"Bo"}}],"pageInfo":{"endCursor":"b3","startCursor":"b1"}}}}}}
{"n":4,"ok":"payload"}
> {"do":"read","handle":"h"}
{"data":{"me":{"friends":{"edges":[{"node":{"name":"Bo"}},{"node":{"name":"Cy"}},{"node":{"name":"Al"}}]}}},"missing":false,"n":5,"ok":"read","seen":["4","5","6","7","client:4:__K_friends_connection","client:4:__K_friends_connection:edges:0","client:4:__K_friends_connection:edges:2","client:4:__K_friends_connection:edges:3","client:root"]}
> {"do":"retain","handle":"j","op":"K","vars":{"after":"c3"}}
{"n":6,"ok":"retain"}
> {"do":"payload","handle":"j","response":{"data":{"me":{"id":"4","friends":{"edges":[{"cursor":"c4","node":{"id":"8","name":"Di"}},{"cursor":"c5","node":{"id":"7","name":"Cy"}},{"cursor":"c6","node":{"id":"8","name":"Di"}}],"pageInfo":{"endCursor":"c6","startCursor":"c4"}}}}}}
{"n":7,"ok":"payload"}
> {"do":"read","handle":"h"}
{"data":{"me":{"friends":{"edges":[{"node":{"name":"Bo"}},{"node":{"name":"Cy"}},{"node":{"name":"Al"}},{"node":{"name":"Di"}}]}}},"missing":false,"n":8,"ok":"read","seen":["4","5","6","7","8","client:4:__K_friends_connection","client:4:__K_friends_connection:edges:0","client:4:__K_friends_connection:edges:2","client:4:__K_friends_connection:edges:3","client:4:__K_friends_connection:edges:4","client:root"]}
"#;

#[test]
fn a_node_stands_once_in_and_across_pages(rt: HostRuntime) -> Result<(), Fail> {
    let alloc = rt.alloc();
    assert_eq!(rt; replayed(alloc, DOCUMENT, DOUBLE)?.as_str(), DOUBLE);
    Ok(())
}

const CURSORS: &str = r#"> {"do":"retain","handle":"h","op":"K"}
{"n":1,"ok":"retain"}
> {"do":"payload","handle":"h","response":{"data":{"me":{"id":"4","friends":{"edges":[{"cursor":1,"node":{"id":"5","name":"Al"}}],"pageInfo":{"endCursor":1,"startCursor":["c0"]}}}}}}
{"n":2,"ok":"payload"}
> {"do":"retain","handle":"i","op":"K","vars":{"after":"1"}}
{"n":3,"ok":"retain"}
> {"do":"payload","handle":"i","response":{"data":{"me":{"id":"4","friends":{"edges":[{"cursor":"2","node":{"id":"6","name":"Bo"}}],"pageInfo":{}}}}}}
{"n":4,"ok":"payload"}
> {"do":"retain","handle":"j","op":"K","vars":{"before":"c0"}}
{"n":5,"ok":"retain"}
> {"do":"payload","handle":"j","response":{"data":{"me":{"id":"4","friends":{"edges":[{"cursor":"0","node":{"id":"7","name":"Cy"}}],"pageInfo":{}}}}}}
{"n":6,"ok":"payload"}
> {"do":"read","handle":"h"}
{"data":{"me":{"friends":{"edges":[{"node":{"name":"Al"}}]}}},"missing":false,"n":7,"ok":"read","seen":["4","5","client:4:__K_friends_connection","client:4:__K_friends_connection:edges:0","client:root"]}
> {"do":"payload","handle":"h","response":{"data":{"me":{"id":"4","friends":{"edges":[{"cursor":"1","node":{"id":"5","name":"Al"}}],"pageInfo":{"endCursor":"1","startCursor":"c0"}}}}}}
{"n":8,"ok":"payload"}
> {"do":"retain","handle":"k","op":"K","vars":{"after":"1","before":"c0"}}
{"n":9,"ok":"retain"}
> {"do":"payload","handle":"k","response":{"data":{"me":{"id":"4","friends":{"edges":[{"cursor":"2","node":{"id":"8","name":"Di"}}],"pageInfo":{}}}}}}
{"n":10,"ok":"payload"}
> {"do":"payload","handle":"i","response":{"data":{"me":{"id":"4","friends":{"edges":[{"cursor":"2","node":{"id":"6","name":"Bo"}}],"pageInfo":{}}}}}}
{"n":11,"ok":"payload"}
> {"do":"read","handle":"h"}
{"data":{"me":{"friends":{"edges":[{"node":{"name":"Al"}},{"node":{"name":"Bo"}}]}}},"missing":false,"n":12,"ok":"read","seen":["4","5","6","client:4:__K_friends_connection","client:4:__K_friends_connection:edges:1","client:4:__K_friends_connection:edges:2","client:root"]}
> {"do":"payload","handle":"i","response":{"data":{"me":{"id":"4","friends":{"edges":[{"cursor":"3","node":{"id":"7","name":"Cy"}}],"pageInfo":{"endCursor":null}}}}}}
{"n":13,"ok":"payload"}
> {"do":"payload","handle":"i","response":{"data":{"me":{"id":"4","friends":{"edges":[{"cursor":"4","node":{"id":"8","name":"Di"}}],"pageInfo":{}}}}}}
{"n":14,"ok":"payload"}
> {"do":"read","handle":"h"}
{"data":{"me":{"friends":{"edges":[{"node":{"name":"Al"}},{"node":{"name":"Bo"}},{"node":{"name":"Cy"}}]}}},"missing":false,"n":15,"ok":"read","seen":["4","5","6","7","client:4:__K_friends_connection","client:4:__K_friends_connection:edges:1","client:4:__K_friends_connection:edges:2","client:4:__K_friends_connection:edges:3","client:root"]}
"#;

#[test]
fn a_page_is_put_where_its_cursor_is_the_kept_one(rt: HostRuntime) -> Result<(), Fail> {
    let alloc = rt.alloc();
    assert_eq!(rt; replayed(alloc, DOCUMENT, CURSORS)?.as_str(), CURSORS);
    Ok(())
}

const INFO: &str =
    r#"query I{me{friends(first:1)@connection(key:"I_friends"){edges{node{name}} pageInfo{endCursor}}}}"#;

const WITHOUT: &str = r#"> {"do":"retain","handle":"h","op":"I"}
{"n":1,"ok":"retain"}
> {"do":"payload","handle":"h","response":{"data":{"me":{"id":"4","friends":{"edges":[{"cursor":"c1","node":{"id":"5","name":"Al"}}]}}}}}
{"n":2,"ok":"payload"}
> {"do":"read","handle":"h"}
{"data":{"me":{"friends":{"edges":[{"node":{"name":"Al"}}],"pageInfo":{}}}},"missing":true,"n":3,"ok":"read","seen":["4","5","client:4:__I_friends_connection","client:4:__I_friends_connection:edges:0","client:4:__I_friends_connection:pageInfo","client:root"]}
> {"do":"payload","handle":"h","response":{"data":{"me":{"id":"4","friends":{"edges":null,"pageInfo":{"endCursor":"c1"}}}}}}
{"n":4,"ok":"payload"}
> {"do":"read","handle":"h"}
{"data":{"me":{"friends":{"edges":[],"pageInfo":{"endCursor":"c1"}}}},"missing":false,"n":5,"ok":"read","seen":["4","client:4:__I_friends_connection","client:4:__I_friends_connection:pageInfo","client:root"]}
> {"do":"payload","handle":"h","response":{"data":{"me":{"id":"4","friends":{"edges":[{"cursor":"c1","node":{"id":"5","name":"Al"}}],"pageInfo":null}}}}}
{"n":6,"ok":"payload"}
> {"do":"read","handle":"h"}
{"data":{"me":{"friends":{"edges":[{"node":{"name":"Al"}}],"pageInfo":{}}}},"missing":true,"n":7,"ok":"read","seen":["4","5","client:4:__I_friends_connection","client:4:__I_friends_connection:edges:1","client:4:__I_friends_connection:pageInfo","client:root"]}
> {"do":"payload","handle":"h","response":{"data":{"me":{"id":"4"}}}}
{"n":8,"ok":"payload"}
> {"do":"read","handle":"h"}
{"data":{"me":{"friends":{"edges":[{"node":{"name":"Al"}}],"pageInfo":{}}}},"missing":true,"n":9,"ok":"read","seen":["4","5","client:4:__I_friends_connection","client:4:__I_friends_connection:edges:1","client:4:__I_friends_connection:pageInfo","client:root"]}
> {"do":"payload","handle":"h","response":{"data":{"me":{"id":"4","friends":null}}}}
{"n":10,"ok":"payload"}
> {"do":"read","handle":"h"}
{"data":{"me":{"friends":null}},"missing":false,"n":11,"ok":"read","seen":["4","client:root"]}
> {"do":"update","updates":[{"append_node":{"id":"4","key":"I_friends","node":"5","edge_type":"UserEdge"}}]}
{"n":12,"ok":"update"}
> {"do":"read","handle":"h"}
{"data":{"me":{"friends":null}},"missing":false,"n":13,"ok":"read","seen":["4","client:root"]}
> {"do":"payload","handle":"h","response":{"data":{"me":{"id":"4","friends":{"edges":[{"cursor":"c1","node":{"id":"5","name":"Al"}}],"pageInfo":{"endCursor":"c1"}}}}}}
{"n":14,"ok":"payload"}
> {"do":"read","handle":"h"}
{"data":{"me":{"friends":{"edges":[{"node":{"name":"Al"}}],"pageInfo":{"endCursor":"c1"}}}},"missing":false,"n":15,"ok":"read","seen":["4","5","client:4:__I_friends_connection","client:4:__I_friends_connection:edges:0","client:4:__I_friends_connection:pageInfo","client:root"]}
"#;

#[test]
fn a_page_has_no_information_or_no_edges_or_is_null(rt: HostRuntime) -> Result<(), Fail> {
    let alloc = rt.alloc();
    assert_eq!(rt; replayed(alloc, INFO, WITHOUT)?.as_str(), WITHOUT);
    Ok(())
}

const FILTERS: &str =
    r#"query A{me{friends(first:1)@connection(key:"A_friends",filters:["first"]){edges{node{name}}}}}
query B{me{friends(first:2)@connection(key:"A_friends",filters:["first"]){edges{node{name}}}}}"#;

const TWO: &str = r#"> {"do":"retain","handle":"a","op":"A"}
{"n":1,"ok":"retain"}
> {"do":"retain","handle":"b","op":"B"}
{"n":2,"ok":"retain"}
> {"do":"payload","handle":"a","response":{"data":{"me":{"id":"4","friends":{"edges":[{"cursor":"c1","node":{"id":"5","name":"Al"}}],"pageInfo":{}}}}}}
{"n":3,"ok":"payload"}
> {"do":"read","handle":"b"}
{"data":{"me":{}},"missing":true,"n":4,"ok":"read","seen":["4","client:root"]}
> {"do":"payload","handle":"b","response":{"data":{"me":{"id":"4","friends":{"edges":[{"cursor":"c1","node":{"id":"6","name":"Bo"}}],"pageInfo":{}}}}}}
{"n":5,"ok":"payload"}
> {"do":"update","updates":[{"append_node":{"id":"4","key":"A_friends","filters":{"first":2},"node":"5","edge_type":"UserEdge"}}]}
{"n":6,"ok":"update"}
> {"do":"update","updates":[{"append_node":{"id":"4","key":"A_friends","node":"6","edge_type":"UserEdge"}},{"delete_edge":{"id":"4","key":"A_friends","filters":{"first":3},"node":"6"}}]}
{"n":7,"ok":"update"}
> {"do":"read","handle":"a"}
{"data":{"me":{"friends":{"edges":[{"node":{"name":"Al"}}]}}},"missing":false,"n":8,"ok":"read","seen":["4","5","client:4:__A_friends_connection(first:1)","client:4:__A_friends_connection(first:1):edges:0","client:root"]}
> {"do":"read","handle":"b"}
{"data":{"me":{"friends":{"edges":[{"node":{"name":"Bo"}},{"node":{"name":"Al"}}]}}},"missing":false,"n":9,"ok":"read","seen":["4","5","6","client:4:__A_friends_connection(first:2)","client:4:__A_friends_connection(first:2):edges:0","client:4:__A_friends_connection(first:2):edges:1","client:root"]}
> {"do":"update","updates":[{"delete_edge":{"id":"4","key":"A_friends","filters":{"first":1},"node":"5"}}]}
{"n":10,"ok":"update"}
> {"do":"read","handle":"a"}
{"data":{"me":{"friends":{"edges":[]}}},"missing":false,"n":11,"ok":"read","seen":["4","client:4:__A_friends_connection(first:1)","client:root"]}
> {"do":"read","handle":"b"}
{"data":{"me":{"friends":{"edges":[{"node":{"name":"Bo"}},{"node":{"name":"Al"}}]}}},"missing":false,"n":12,"ok":"read","seen":["4","5","6","client:4:__A_friends_connection(first:2)","client:4:__A_friends_connection(first:2):edges:0","client:4:__A_friends_connection(first:2):edges:1","client:root"]}
"#;

#[test]
fn connections_with_other_filters_are_kept_apart(rt: HostRuntime) -> Result<(), Fail> {
    let alloc = rt.alloc();
    assert_eq!(rt; replayed(alloc, FILTERS, TWO)?.as_str(), TWO);
    Ok(())
}

const NOT_THERE: &str = r#"> {"do":"retain","handle":"h","op":"K"}
{"n":1,"ok":"retain"}
> {"do":"payload","handle":"h","response":{"data":{"me":{"id":"4"}}},"updates":[{"create":{"id":"6","type":"User"}},{"set":{"id":"6","field":"name","value":"Bo"}},{"append_node":{"id":"4","key":"K_friends","node":"6","edge_type":"UserEdge"}},{"prepend_node":{"id":"4","key":"K_friends","node":"6","edge_type":"UserEdge"}},{"delete_edge":{"id":"4","key":"K_friends","node":"6"}}]}
{"n":2,"ok":"payload"}
> {"do":"read","handle":"h"}
{"data":{"me":{}},"missing":true,"n":3,"ok":"read","seen":["4","client:root"]}
> {"do":"payload","handle":"h","response":{"data":{"me":{"id":"4","friends":{"edges":[{"cursor":"c1","node":{"id":"5","name":"Al"}}],"pageInfo":{}}}}},"updates":[{"delete":{"id":"client:4:__K_friends_connection"}},{"append_node":{"id":"4","key":"K_friends","node":"6","edge_type":"UserEdge"}}]}
{"n":4,"ok":"payload"}
> {"do":"read","handle":"h"}
{"data":{"me":{"friends":null}},"missing":false,"n":5,"ok":"read","seen":["4","client:4:__K_friends_connection","client:root"]}
> {"do":"update","updates":[{"create":{"id":"client:4:__K_friends_connection","type":"UserConnection"}}]}
{"n":6,"ok":"update"}
> {"do":"read","handle":"h"}
{"data":{"me":{"friends":{}}},"missing":true,"n":7,"ok":"read","seen":["4","client:4:__K_friends_connection","client:root"]}
> {"do":"update","updates":[{"delete_edge":{"id":"4","key":"K_friends","node":"5"}},{"prepend_node":{"id":"4","key":"K_friends","node":"6","edge_type":"UserEdge"}},{"prepend_node":{"id":"4","key":"K_friends","node":"6","edge_type":"UserEdge"}}]}
{"n":8,"ok":"update"}
> {"do":"read","handle":"h"}
{"data":{"me":{"friends":{"edges":[{"node":{"name":"Bo"}}]}}},"missing":false,"n":9,"ok":"read","seen":["4","6","client:4:__K_friends_connection","client:4:__K_friends_connection:edges:0","client:root"]}
"#;

#[test]
fn commands_on_edges_need_a_live_connection(rt: HostRuntime) -> Result<(), Fail> {
    let alloc = rt.alloc();
    assert_eq!(rt; replayed(alloc, DOCUMENT, NOT_THERE)?.as_str(), NOT_THERE);
    Ok(())
}
