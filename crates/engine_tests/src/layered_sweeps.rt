//! Sweeps under live layers. What is expected was worked out by hand, in this way: what was confirmed so far
//! gives the ids of the base, deleted ones too. Of these a sweep keeps the ids that the walk of a retained
//! operation visits in the base, and those that the live layers lead to there: the ids that their responses
//! and commands name, what the live records among them link to, and so on, and beside each id that of its
//! page information. The others are the dropped ones. A read is then made over what was kept, with the layers
//! applied to it in order of start.
use crate::replaying::{replayed, replayed_flat};
use std::test::Fail;

const DOCUMENT: &str = "query G{me{age}} query L{me{friend{name}}}
query M{me{friend{friend{name}}}} fragment P on User{name}";

const SHOWN: &str = r#"> {"do":"retain","handle":"h","op":"G"}
{"n":1,"ok":"retain"}
> {"do":"payload","handle":"h","response":{"data":{"me":{"id":"4","age":5}}}}
{"n":2,"ok":"payload"}
> {"do":"watch","watch":"w","handle":"h"}
{"data":{"me":{"age":5}},"missing":false,"n":3,"ok":"watch","seen":["4","client:root"]}
> {"do":"begin","layer":"a","updates":[{"add":{"id":"4","field":"age","by":1}}]}
{"n":4,"ok":"begin"}
{"data":{"me":{"age":6}},"missing":false,"n":4,"notice":"w","seen":["4","client:root"]}
> {"do":"release","handle":"h"}
{"code":9,"error":"HandleInUse","n":5,"name":"h"}
> {"do":"collect"}
{"dropped":0,"n":6,"ok":"collect","waiting":false}
"#;

#[test]
fn a_sweep_does_not_wait_for_a_layer_that_a_watch_shows(rt: HostRuntime) -> Result<(), Fail> {
    let alloc = rt.alloc();
    assert_eq!(rt; replayed(alloc, DOCUMENT, SHOWN)?.as_str(), SHOWN);
    Ok(())
}

const RETAINED: &str = r#"> {"do":"retain","handle":"h","op":"G"}
{"n":1,"ok":"retain"}
> {"do":"payload","handle":"h","response":{"data":{"me":{"id":"4","age":5}}}}
{"n":2,"ok":"payload"}
> {"do":"begin","layer":"a","updates":[{"add":{"id":"4","field":"age","by":1}}]}
{"n":3,"ok":"begin"}
> {"do":"collect"}
{"dropped":0,"n":4,"ok":"collect","waiting":false}
"#;

#[test]
fn a_sweep_under_a_layer_keeps_what_is_retained(rt: HostRuntime) -> Result<(), Fail> {
    let alloc = rt.alloc();
    assert_eq!(rt; replayed(alloc, DOCUMENT, RETAINED)?.as_str(), RETAINED);
    Ok(())
}

const LINKED: &str = r#"> {"do":"retain","handle":"h","op":"L"}
{"n":1,"ok":"retain"}
> {"do":"payload","handle":"h","response":{"data":{"me":{"id":"4","friend":{"id":"9","name":"Zoe"}}}}}
{"n":2,"ok":"payload"}
> {"do":"payload","handle":"h","response":{"data":{"me":{"id":"4","friend":null}}}}
{"n":3,"ok":"payload"}
> {"do":"begin","layer":"a","updates":[{"link":{"field":"friend","id":"4","to":"9"}}]}
{"n":4,"ok":"begin"}
> {"do":"collect"}
{"dropped":0,"n":5,"ok":"collect","waiting":false}
> {"do":"read","handle":"h"}
{"data":{"me":{"friend":{"name":"Zoe"}}},"missing":false,"n":6,"ok":"read","seen":["4","9","client:root"]}
> {"do":"revert","layer":"a"}
{"n":7,"ok":"revert"}
> {"do":"read","handle":"h"}
{"data":{"me":{"friend":null}},"missing":false,"n":8,"ok":"read","seen":["4","client:root"]}
> {"do":"collect"}
{"dropped":1,"n":9,"ok":"collect","waiting":false}
> {"do":"begin","layer":"b","updates":[{"link":{"field":"friend","id":"4","to":"9"}}]}
{"n":10,"ok":"begin"}
> {"do":"read","handle":"h"}
{"data":{"me":{}},"missing":true,"n":11,"ok":"read","seen":["4","9","client:root"]}
"#;

#[test]
fn a_sweep_keeps_the_record_that_a_layer_links_to(rt: HostRuntime) -> Result<(), Fail> {
    let alloc = rt.alloc();
    assert_eq!(rt; replayed(alloc, DOCUMENT, LINKED)?.as_str(), LINKED);
    assert_eq!(rt; replayed_flat(alloc, DOCUMENT, LINKED)?.as_str(), LINKED);
    Ok(())
}

const LED_ON: &str = r#"> {"do":"retain","handle":"h","op":"M"}
{"n":1,"ok":"retain"}
> {"do":"payload","handle":"h","response":{"data":{"me":{"id":"4","friend":{"id":"9","friend":{"id":"8","name":"Al"}}}}}}
{"n":2,"ok":"payload"}
> {"do":"payload","handle":"h","response":{"data":{"me":{"id":"4","friend":null}}}}
{"n":3,"ok":"payload"}
> {"do":"begin","layer":"a","updates":[{"link":{"field":"friend","id":"4","to":"9"}}]}
{"n":4,"ok":"begin"}
> {"do":"collect"}
{"dropped":0,"n":5,"ok":"collect","waiting":false}
> {"do":"read","handle":"h"}
{"data":{"me":{"friend":{"friend":{"name":"Al"}}}},"missing":false,"n":6,"ok":"read","seen":["4","8","9","client:root"]}
"#;

#[test]
fn a_sweep_keeps_what_the_record_that_a_layer_links_to_leads_to(
    rt: HostRuntime,
) -> Result<(), Fail> {
    let alloc = rt.alloc();
    assert_eq!(rt; replayed(alloc, DOCUMENT, LED_ON)?.as_str(), LED_ON);
    Ok(())
}

// Line 7: the base has client:root, 4, 9 and 8, which is deleted; the operation visits the first two, the layer
// names 7. Line 10: the layer `b` names nothing.
const UNLED: &str = r#"> {"do":"update","updates":[{"create":{"id":"7","type":"User"}}]}
{"n":1,"ok":"update"}
> {"do":"collect"}
{"dropped":1,"n":2,"ok":"collect","waiting":false}
> {"do":"retain","handle":"h","op":"G"}
{"n":3,"ok":"retain"}
> {"do":"payload","handle":"h","response":{"data":{"me":{"id":"4","age":5}}},"updates":[{"create":{"id":"9","type":"User"}},{"create":{"id":"8","type":"User"}},{"delete":{"id":"8"}}]}
{"n":4,"ok":"payload"}
> {"do":"watch","watch":"w","handle":"h","fragment":"P","id":"9"}
{"data":{},"missing":true,"n":5,"ok":"watch","seen":["9"]}
> {"do":"begin","layer":"a","updates":[{"create":{"id":"7","type":"User"}}]}
{"n":6,"ok":"begin"}
> {"do":"collect"}
{"dropped":2,"n":7,"ok":"collect","waiting":false}
{"data":null,"missing":true,"n":7,"notice":"w","seen":["9"]}
> {"do":"begin","layer":"b"}
{"n":8,"ok":"begin"}
> {"do":"revert","layer":"a"}
{"n":9,"ok":"revert"}
> {"do":"collect"}
{"dropped":0,"n":10,"ok":"collect","waiting":false}
> {"do":"read","handle":"h","fragment":"P","id":"8"}
{"data":null,"missing":true,"n":11,"ok":"read","seen":["8"]}
> {"do":"finish","layer":"b"}
{"n":12,"ok":"finish"}
> {"do":"collect"}
{"dropped":0,"n":13,"ok":"collect","waiting":false}
> {"do":"read","handle":"h"}
{"data":{"me":{"age":5}},"missing":false,"n":14,"ok":"read","seen":["4","client:root"]}
"#;

#[test]
fn a_sweep_under_a_layer_takes_out_what_nothing_leads_to(rt: HostRuntime) -> Result<(), Fail> {
    let alloc = rt.alloc();
    assert_eq!(rt; replayed(alloc, DOCUMENT, UNLED)?.as_str(), UNLED);
    Ok(())
}

// Line 6: the base has client:root, 4, 6, 7, 8 and 9. The operation visits client:root and 4, whose friend is
// null in the base. The layers name 8, 9 and 4; in the base 9 links to 7, which no read shows while `a` is live.
// Line 10: `b` names 4 and 9, and 9 links to 7. Line 13: no layer is live.
const REVERTED: &str = r#"> {"do":"retain","handle":"h","op":"M"}
{"n":1,"ok":"retain"}
> {"do":"payload","handle":"h","response":{"data":{"me":{"id":"4","friend":{"id":"9","friend":{"id":"7","name":"Cy"}}}}},"updates":[{"create":{"id":"8","type":"User"}},{"set":{"id":"8","field":"name","value":"Al"}},{"create":{"id":"6","type":"User"}}]}
{"n":2,"ok":"payload"}
> {"do":"payload","handle":"h","response":{"data":{"me":{"id":"4","friend":null}}}}
{"n":3,"ok":"payload"}
> {"do":"begin","layer":"a","updates":[{"link":{"id":"9","field":"friend","to":"8"}}]}
{"n":4,"ok":"begin"}
> {"do":"begin","layer":"b","updates":[{"link":{"id":"4","field":"friend","to":"9"}}]}
{"n":5,"ok":"begin"}
> {"do":"collect"}
{"dropped":1,"n":6,"ok":"collect","waiting":false}
> {"do":"read","handle":"h"}
{"data":{"me":{"friend":{"friend":{"name":"Al"}}}},"missing":false,"n":7,"ok":"read","seen":["4","8","9","client:root"]}
> {"do":"revert","layer":"a"}
{"n":8,"ok":"revert"}
> {"do":"read","handle":"h"}
{"data":{"me":{"friend":{"friend":{"name":"Cy"}}}},"missing":false,"n":9,"ok":"read","seen":["4","7","9","client:root"]}
> {"do":"collect"}
{"dropped":1,"n":10,"ok":"collect","waiting":false}
> {"do":"read","handle":"h"}
{"data":{"me":{"friend":{"friend":{"name":"Cy"}}}},"missing":false,"n":11,"ok":"read","seen":["4","7","9","client:root"]}
> {"do":"revert","layer":"b"}
{"n":12,"ok":"revert"}
> {"do":"collect"}
{"dropped":2,"n":13,"ok":"collect","waiting":false}
> {"do":"read","handle":"h"}
{"data":{"me":{"friend":null}},"missing":false,"n":14,"ok":"read","seen":["4","client:root"]}
"#;

#[test]
fn a_layer_that_is_reverted_after_a_sweep_brings_no_loss_to_light(
    rt: HostRuntime,
) -> Result<(), Fail> {
    let alloc = rt.alloc();
    assert_eq!(rt; replayed(alloc, DOCUMENT, REVERTED)?.as_str(), REVERTED);
    assert_eq!(rt;
        replayed_flat(alloc, DOCUMENT, REVERTED)?.as_str(),
        REVERTED
    );
    Ok(())
}

// Line 3: nothing is kept. Line 6: the layer names 7, which links to 8; 9 is deleted and not named.
const NOTHING_RETAINED: &str = r#"> {"do":"collect"}
{"dropped":0,"n":1,"ok":"collect","waiting":false}
> {"do":"update","updates":[{"create":{"id":"7","type":"User"}},{"create":{"id":"8","type":"User"}},{"link":{"id":"7","field":"friend","to":"8"}},{"create":{"id":"9","type":"User"}},{"delete":{"id":"9"}}]}
{"n":2,"ok":"update"}
> {"do":"collect"}
{"dropped":3,"n":3,"ok":"collect","waiting":false}
> {"do":"update","updates":[{"create":{"id":"7","type":"User"}},{"create":{"id":"8","type":"User"}},{"link":{"id":"7","field":"friend","to":"8"}},{"create":{"id":"9","type":"User"}},{"delete":{"id":"9"}}]}
{"n":4,"ok":"update"}
> {"do":"begin","layer":"a","updates":[{"set":{"id":"7","field":"name","value":"Cy"}}]}
{"n":5,"ok":"begin"}
> {"do":"collect"}
{"dropped":1,"n":6,"ok":"collect","waiting":false}
> {"do":"revert","layer":"a"}
{"n":7,"ok":"revert"}
> {"do":"collect"}
{"dropped":2,"n":8,"ok":"collect","waiting":false}
> {"do":"collect"}
{"dropped":0,"n":9,"ok":"collect","waiting":false}
"#;

#[test]
fn a_sweep_takes_out_all_where_nothing_is_retained_and_no_layer_is_live(
    rt: HostRuntime,
) -> Result<(), Fail> {
    let alloc = rt.alloc();
    assert_eq!(rt;
        replayed(alloc, DOCUMENT, NOTHING_RETAINED)?.as_str(),
        NOTHING_RETAINED
    );
    Ok(())
}

const PAGES: &str =
    r#"query K($after:String){me{friends(first:2,after:$after)@connection(key:"K_friends"){edges{node{name}}}}}
fragment E on UserEdge{cursor} fragment I on PageInfo{endCursor}"#;

// Line 3 deletes the kept connection, and leaves its edge and its page information. So the page of the layer
// makes the connection again, counts its edges from 0, and makes the edge whole with the fields that it has in
// the base. Line 6: the walk of the operation ends at the deleted connection. The layer names client:root, 4,
// the server's connection with its edge and page information, and 5; of these 4 links to the deleted connection,
// beside which stands its page information. The edge alone is dropped, and the layer makes it again.
const MADE_WHOLE: &str = r#"> {"do":"retain","handle":"h","op":"K"}
{"n":1,"ok":"retain"}
> {"do":"payload","handle":"h","response":{"data":{"me":{"id":"4","friends":{"edges":[{"cursor":"c1","node":{"id":"5","name":"Al"}}],"pageInfo":{"endCursor":"c1"}}}}}}
{"n":2,"ok":"payload"}
> {"do":"update","updates":[{"delete":{"id":"client:4:__K_friends_connection"}}]}
{"n":3,"ok":"update"}
> {"do":"begin","layer":"a","handle":"h","response":{"data":{"me":{"id":"4","friends":{"edges":[{"cursor":"c1","node":{"id":"5","name":"Al"}}],"pageInfo":{"endCursor":"c1"}}}}}}
{"n":4,"ok":"begin"}
> {"do":"read","handle":"h"}
{"data":{"me":{"friends":{"edges":[{"node":{"name":"Al"}}]}}},"missing":false,"n":5,"ok":"read","seen":["4","5","client:4:__K_friends_connection","client:4:__K_friends_connection:edges:0","client:root"]}
> {"do":"collect"}
{"dropped":1,"n":6,"ok":"collect","waiting":false}
> {"do":"read","handle":"h"}
{"data":{"me":{"friends":{"edges":[{"node":{"name":"Al"}}]}}},"missing":false,"n":7,"ok":"read","seen":["4","5","client:4:__K_friends_connection","client:4:__K_friends_connection:edges:0","client:root"]}
> {"do":"read","handle":"h","fragment":"E","id":"client:4:__K_friends_connection:edges:0"}
{"data":{"cursor":"c1"},"missing":false,"n":8,"ok":"read","seen":["client:4:__K_friends_connection:edges:0"]}
> {"do":"revert","layer":"a"}
{"n":9,"ok":"revert"}
> {"do":"read","handle":"h","fragment":"E","id":"client:4:__K_friends_connection:edges:0"}
{"data":null,"missing":true,"n":10,"ok":"read","seen":["client:4:__K_friends_connection:edges:0"]}
> {"do":"read","handle":"h"}
{"data":{"me":{"friends":null}},"missing":false,"n":11,"ok":"read","seen":["4","client:4:__K_friends_connection","client:root"]}
"#;

#[test]
fn a_record_that_a_layer_makes_whole_is_not_lost_with_that_of_the_base(
    rt: HostRuntime,
) -> Result<(), Fail> {
    let alloc = rt.alloc();
    assert_eq!(rt; replayed(alloc, PAGES, MADE_WHOLE)?.as_str(), MADE_WHOLE);
    assert_eq!(rt;
        replayed_flat(alloc, PAGES, MADE_WHOLE)?.as_str(),
        MADE_WHOLE
    );
    Ok(())
}

// The kept connection is deleted in the base, so that no walk goes on to its edge and its page information.
// Line 5: the layer `a` names 5 and the connection, beside which stands the page information; the edge is
// dropped. Line 9: the layer `b` names 4, which links to the connection. Line 13: a page after the end cursor of
// the page information goes to the end of the connection, which the layer `c` has made without edges. Line 18: no
// layer is live.
const LINKED_PAGES: &str = r#"> {"do":"retain","handle":"h","op":"K"}
{"n":1,"ok":"retain"}
> {"do":"payload","handle":"h","response":{"data":{"me":{"id":"4","friends":{"edges":[{"cursor":"c1","node":{"id":"5","name":"Al"}}],"pageInfo":{"endCursor":"c1"}}}}}}
{"n":2,"ok":"payload"}
> {"do":"update","updates":[{"delete":{"id":"client:4:__K_friends_connection"}}]}
{"n":3,"ok":"update"}
> {"do":"begin","layer":"a","updates":[{"link":{"id":"5","field":"friend","to":"client:4:__K_friends_connection"}}]}
{"n":4,"ok":"begin"}
> {"do":"collect"}
{"dropped":1,"n":5,"ok":"collect","waiting":false}
> {"do":"read","handle":"h","fragment":"I","id":"client:4:__K_friends_connection:pageInfo"}
{"data":{"endCursor":"c1"},"missing":false,"n":6,"ok":"read","seen":["client:4:__K_friends_connection:pageInfo"]}
> {"do":"begin","layer":"b","updates":[{"set":{"id":"4","field":"name","value":"Ann"}}]}
{"n":7,"ok":"begin"}
> {"do":"revert","layer":"a"}
{"n":8,"ok":"revert"}
> {"do":"collect"}
{"dropped":0,"n":9,"ok":"collect","waiting":false}
> {"do":"read","handle":"h","fragment":"I","id":"client:4:__K_friends_connection:pageInfo"}
{"data":{"endCursor":"c1"},"missing":false,"n":10,"ok":"read","seen":["client:4:__K_friends_connection:pageInfo"]}
> {"do":"begin","layer":"c","updates":[{"create":{"id":"client:4:__K_friends_connection","type":"UserConnection"}}]}
{"n":11,"ok":"begin"}
> {"do":"retain","handle":"i","op":"K","vars":{"after":"c1"}}
{"n":12,"ok":"retain"}
> {"do":"begin","layer":"d","handle":"i","response":{"data":{"me":{"id":"4","friends":{"edges":[{"cursor":"c2","node":{"id":"6","name":"Bo"}}],"pageInfo":{"endCursor":"c2"}}}}}}
{"n":13,"ok":"begin"}
> {"do":"read","handle":"h"}
{"data":{"me":{"friends":{"edges":[{"node":{"name":"Bo"}}]}}},"missing":false,"n":14,"ok":"read","seen":["4","6","client:4:__K_friends_connection","client:4:__K_friends_connection:edges:0","client:root"]}
> {"do":"revert","layer":"d"}
{"n":15,"ok":"revert"}
> {"do":"revert","layer":"c"}
{"n":16,"ok":"revert"}
> {"do":"revert","layer":"b"}
{"n":17,"ok":"revert"}
> {"do":"collect"}
{"dropped":1,"n":18,"ok":"collect","waiting":false}
> {"do":"read","handle":"h","fragment":"I","id":"client:4:__K_friends_connection:pageInfo"}
{"data":null,"missing":true,"n":19,"ok":"read","seen":["client:4:__K_friends_connection:pageInfo"]}
"#;

#[test]
fn a_sweep_keeps_the_page_information_of_a_connection_that_a_layer_links_to(
    rt: HostRuntime,
) -> Result<(), Fail> {
    let alloc = rt.alloc();
    assert_eq!(rt;
        replayed(alloc, PAGES, LINKED_PAGES)?.as_str(),
        LINKED_PAGES
    );
    Ok(())
}
