//! Lines that are no events.
use crate::replaying::{answered, replayed};
use std::alloc::Global;
use std::test::Fail;

const DOCUMENT: &str = "query Q{me{name}} fragment P on User{name}";

/// The most bytes of a line: 8 MiB.
const LONGEST: usize = 8_388_608;

const NOT_JSON: &str = "{\"code\":1,\"error\":\"NotJson\",\"n\":1}\n";

const TOO_LONG: &str = "{\"code\":4,\"error\":\"LineTooLong\",\"n\":1}\n";

/// So many spaces.
fn spaces(alloc: Global, count: usize) -> Result<Vec<u8>, Fail> {
    Ok(vec![in alloc; b' '; count]?)
}

#[test]
fn a_line_of_more_than_8_mib_is_too_long(rt: HostRuntime) -> Result<(), Fail> {
    let alloc = rt.alloc();
    let line = spaces(alloc, LONGEST + 1)?;
    assert_eq!(rt; answered(alloc, DOCUMENT, &line)?.as_str(), TOO_LONG);
    Ok(())
}

#[test]
fn a_line_is_json_in_utf_8(rt: HostRuntime) -> Result<(), Fail> {
    let alloc = rt.alloc();
    assert_eq!(rt; answered(alloc, DOCUMENT, b"")?.as_str(), NOT_JSON);
    assert_eq!(rt;
        answered(alloc, DOCUMENT, b"{\"do\":\"\xFF\"}")?.as_str(),
        NOT_JSON
    );
    Ok(())
}

const SHAPES: &str = r#"> {"do":"retain","handle":"h","op":"Q"
{"code":1,"error":"NotJson","n":1}
> 3
{"code":2,"error":"EventShape","n":2}
> {}
{"code":2,"error":"EventShape","n":3}
> {"do":"fly"}
{"code":2,"error":"EventShape","n":4}
> {"do":"read"}
{"code":2,"error":"EventShape","n":5}
> {"do":"read","handle":""}
{"code":2,"error":"EventShape","n":6}
> {"do":"read","handle":"h","more":1}
{"code":2,"error":"EventShape","n":7}
> {"do":"read","handle":"h","id":"4"}
{"code":2,"error":"EventShape","n":8}
> {"do":"read","handle":"h","fragment":"P"}
{"code":2,"error":"EventShape","n":9}
> {"do":"read","handle":"h","fragment":"P","id":""}
{"code":2,"error":"EventShape","n":10}
> {"do":"read","handle":"h","args":{}}
{"code":2,"error":"EventShape","n":11}
> {"do":"retain","handle":"h","op":"Q","vars":{"n":1.0}}
{"code":2,"error":"EventShape","n":12}
> {"do":"begin","layer":"a","handle":"h"}
{"code":2,"error":"EventShape","n":13}
> {"do":"finish","layer":"a","response":null}
{"code":2,"error":"EventShape","n":14}
> {"do":"collect","handle":"h"}
{"code":2,"error":"EventShape","n":15}
> {"do":"begin","layer":"a","response":{"data":{}}}
{"code":2,"error":"EventShape","n":16}
> {"do":"retain","handle":"h","op":"Q","vars":[]}
{"code":2,"error":"EventShape","n":17}
> {"do":"retain","handle":"h","op":1}
{"code":2,"error":"EventShape","n":18}
> {"do":"read","handle":"h","fragment":"P","id":"4","args":{"n":-0}}
{"code":2,"error":"EventShape","n":19}
> {"do":"watch","handle":"h"}
{"code":2,"error":"EventShape","n":20}
> {"do":"watch","watch":"","handle":"h"}
{"code":2,"error":"EventShape","n":21}
> {"do":"watch","watch":"w","handle":"h","id":"4"}
{"code":2,"error":"EventShape","n":22}
> {"do":"unwatch","watch":1}
{"code":2,"error":"EventShape","n":23}
> {"do":"release"}
{"code":2,"error":"EventShape","n":24}
> {"do":"revert","layer":"a","updates":[]}
{"code":2,"error":"EventShape","n":25}
> {"do":"update"}
{"code":2,"error":"EventShape","n":26}
> {"do":"payload","handle":"h","updates":3}
{"code":2,"error":"EventShape","n":27}
> {"do":["read"],"handle":"h"}
{"code":2,"error":"EventShape","n":28}
> {"do":"fly","do":"collect"}
{"dropped":0,"n":29,"ok":"collect","waiting":false}
"#;

#[test]
fn a_line_that_is_no_event_is_refused(rt: HostRuntime) -> Result<(), Fail> {
    let alloc = rt.alloc();
    assert_eq!(rt; replayed(alloc, DOCUMENT, SHAPES)?.as_str(), SHAPES);
    Ok(())
}
