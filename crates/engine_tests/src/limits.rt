//! How many handles, layers and watches may be live.
use crate::replaying::replayed_behind;
use std::test::Fail;

const DOCUMENT: &str = "query Q{me{name}} query O($id:ID!){node(id:$id){id}}
fragment M on Query@argumentDefinitions(size:{type:\"Int!\"}){m:team(size:$size){name}}";

const FIRST: &str = r#"{"do":"retain","handle":"h","op":"Q"}"#;

const LAYERS: &str =
    r#"> {"do":"begin","layer":"z","handle":"h","response":null,"updates":[{"create":{"id":"t","type":"X"}}]}
{"code":17,"error":"TooMany","kind":"layers","limit":1000,"n":1002}
> {"do":"begin","layer":"z","handle":"y","response":null}
{"code":7,"error":"UnknownHandle","n":1003,"name":"y"}
> {"do":"begin","layer":"l7"}
{"code":11,"error":"LayerTaken","n":1004,"name":"l7"}
> {"do":"revert","layer":"l7"}
{"n":1005,"ok":"revert"}
> {"do":"begin","layer":"z"}
{"n":1006,"ok":"begin"}
> {"do":"begin","layer":"l7"}
{"code":17,"error":"TooMany","kind":"layers","limit":1000,"n":1007}
"#;

#[test]
fn a_thousand_layers_are_live_at_most(rt: HostRuntime) -> Result<(), Fail> {
    let alloc = rt.alloc();
    let other = (r#"{"do":"begin","layer":"l"#, r#""}"#);
    assert_eq!(rt;
        replayed_behind(alloc, DOCUMENT, FIRST, other, 1001, LAYERS)?.as_str(),
        LAYERS
    );
    Ok(())
}

const HANDLES: &str = r#"> {"do":"retain","handle":"z","op":"O"}
{"code":17,"error":"TooMany","kind":"handles","limit":10000,"n":10001}
> {"do":"retain","handle":"z","op":"X"}
{"code":5,"error":"UnknownOperation","n":10002,"name":"X"}
> {"do":"retain","handle":"h7","op":"Q"}
{"code":8,"error":"HandleTaken","n":10003,"name":"h7"}
> {"do":"release","handle":"h7"}
{"n":10004,"ok":"release"}
> {"do":"retain","handle":"z","op":"Q"}
{"n":10005,"ok":"retain"}
> {"do":"retain","handle":"h7","op":"Q"}
{"code":17,"error":"TooMany","kind":"handles","limit":10000,"n":10006}
"#;

#[test]
fn ten_thousand_handles_are_live_at_most(rt: HostRuntime) -> Result<(), Fail> {
    let alloc = rt.alloc();
    let other = (r#"{"do":"retain","op":"Q","handle":"h"#, r#""}"#);
    assert_eq!(rt;
        replayed_behind(alloc, DOCUMENT, FIRST, other, 10_000, HANDLES)?.as_str(),
        HANDLES
    );
    Ok(())
}

const WATCHES: &str = r#"> {"do":"watch","watch":"z","handle":"h","fragment":"M","id":"4"}
{"code":17,"error":"TooMany","kind":"watches","limit":10000,"n":10002}
> {"do":"watch","watch":"z","handle":"h","fragment":"X","id":"4"}
{"code":6,"error":"UnknownFragment","n":10003,"name":"X"}
> {"do":"watch","watch":"w7","handle":"h"}
{"code":13,"error":"WatchTaken","n":10004,"name":"w7"}
> {"do":"unwatch","watch":"w7"}
{"n":10005,"ok":"unwatch"}
> {"do":"watch","watch":"z","handle":"h"}
{"data":null,"missing":true,"n":10006,"ok":"watch","seen":["client:root"]}
> {"do":"watch","watch":"w7","handle":"h"}
{"code":17,"error":"TooMany","kind":"watches","limit":10000,"n":10007}
"#;

#[test]
fn ten_thousand_watches_are_live_at_most(rt: HostRuntime) -> Result<(), Fail> {
    let alloc = rt.alloc();
    let other = (r#"{"do":"watch","handle":"h","watch":"w"#, r#""}"#);
    assert_eq!(rt;
        replayed_behind(alloc, DOCUMENT, FIRST, other, 10_001, WATCHES)?.as_str(),
        WATCHES
    );
    Ok(())
}
