//! Want of memory: a line for which it is lacking changes nothing, so that the same line can be given
//! again.
use crate::replaying::{begun, put_lines};
use plan_ir::Counts;
use relay_engine::{Engine, Lines, Versions};
use std::alloc::Global;
use std::test::Fail;

const DOCUMENT: &str =
    r#"query K($after:String){me{age friends(first:1,after:$after)@connection(key:"K_friends"){edges{node{name}}}}} query A{me{age}}"#;

const EVERY_EVENT: &str = r#"> {"do":"retain","handle":"h","op":"K"}
{"n":1,"ok":"retain"}
> {"do":"retain","handle":"i","op":"A"}
{"n":2,"ok":"retain"}
> {"do":"watch","watch":"w","handle":"h"}
{"data":null,"missing":true,"n":3,"ok":"watch","seen":["client:root"]}
> {"do":"watch","watch":"v","handle":"i"}
{"data":null,"missing":true,"n":4,"ok":"watch","seen":["client:root"]}
> {"do":"payload","handle":"h","response":{"data":{"me":{"id":"4","age":5,"friends":{"edges":[{"cursor":"c1","node":{"id":"5","name":"Al"}}],"pageInfo":{"endCursor":"c1"}}}}},"updates":[{"create":{"id":"6","type":"User"}}]}
{"n":5,"ok":"payload"}
{"data":{"me":{"age":5,"friends":{"edges":[{"node":{"name":"Al"}}]}}},"missing":false,"n":5,"notice":"w","seen":["4","5","client:4:__K_friends_connection","client:4:__K_friends_connection:edges:0","client:root"]}
{"data":{"me":{"age":5}},"missing":false,"n":5,"notice":"v","seen":["4","client:root"]}
> {"do":"begin","layer":"a","updates":[{"add":{"id":"4","field":"age","by":1}}]}
{"n":6,"ok":"begin"}
{"data":{"me":{"age":6,"friends":{"edges":[{"node":{"name":"Al"}}]}}},"missing":false,"n":6,"notice":"w","seen":["4","5","client:4:__K_friends_connection","client:4:__K_friends_connection:edges:0","client:root"]}
{"data":{"me":{"age":6}},"missing":false,"n":6,"notice":"v","seen":["4","client:root"]}
> {"do":"update","updates":[{"add":{"id":"4","field":"age","by":1}}]}
{"n":7,"ok":"update"}
{"data":{"me":{"age":7,"friends":{"edges":[{"node":{"name":"Al"}}]}}},"missing":false,"n":7,"notice":"w","seen":["4","5","client:4:__K_friends_connection","client:4:__K_friends_connection:edges:0","client:root"]}
{"data":{"me":{"age":7}},"missing":false,"n":7,"notice":"v","seen":["4","client:root"]}
> {"do":"begin","layer":"b","updates":[{"add":{"id":"4","field":"age","by":0.5}}]}
{"code":3,"error":"UpdateShape","n":8}
> {"do":"begin","layer":"b","updates":[{"set":{"id":"4","field":"age","value":1}}]}
{"n":9,"ok":"begin"}
{"data":{"me":{"age":1,"friends":{"edges":[{"node":{"name":"Al"}}]}}},"missing":false,"n":9,"notice":"w","seen":["4","5","client:4:__K_friends_connection","client:4:__K_friends_connection:edges:0","client:root"]}
{"data":{"me":{"age":1}},"missing":false,"n":9,"notice":"v","seen":["4","client:root"]}
> {"do":"revert","layer":"b"}
{"n":10,"ok":"revert"}
{"data":{"me":{"age":7,"friends":{"edges":[{"node":{"name":"Al"}}]}}},"missing":false,"n":10,"notice":"w","seen":["4","5","client:4:__K_friends_connection","client:4:__K_friends_connection:edges:0","client:root"]}
{"data":{"me":{"age":7}},"missing":false,"n":10,"notice":"v","seen":["4","client:root"]}
> {"do":"finish","layer":"a","updates":[{"delete_edge":{"id":"4","key":"K_friends","node":"5"}}]}
{"n":11,"ok":"finish"}
{"data":{"me":{"age":6,"friends":{"edges":[]}}},"missing":false,"n":11,"notice":"w","seen":["4","client:4:__K_friends_connection","client:root"]}
{"data":{"me":{"age":6}},"missing":false,"n":11,"notice":"v","seen":["4","client:root"]}
> {"do":"collect"}
{"dropped":2,"n":12,"ok":"collect","waiting":false}
> {"do":"read","handle":"h"}
{"data":{"me":{"age":6,"friends":{"edges":[]}}},"missing":false,"n":13,"ok":"read","seen":["4","client:4:__K_friends_connection","client:root"]}
> {"do":"unwatch","watch":"w"}
{"n":14,"ok":"unwatch"}
> {"do":"release","handle":"h"}
{"n":15,"ok":"release"}
> {"do":"release","handle":"h"}
{"code":7,"error":"UnknownHandle","n":16,"name":"h"}
> {"do":"release","handle":"i"}
{"code":9,"error":"HandleInUse","n":17,"name":"i"}
> {"do":"begin","layer":"c","updates":[{"create":{"id":"8","type":"User"}}]}
{"n":18,"ok":"begin"}
> {"do":"update","updates":[{"create":{"id":"8","type":"User"}},{"create":{"id":"9","type":"User"}}]}
{"n":19,"ok":"update"}
> {"do":"collect"}
{"dropped":1,"n":20,"ok":"collect","waiting":false}
> {"do":"revert","layer":"c"}
{"n":21,"ok":"revert"}
> {"do":"collect"}
{"dropped":1,"n":22,"ok":"collect","waiting":false}
"#;

/// What an engine answers to a line, which it is given once more where memory is lacking.
fn step_again(
    engine: &mut Engine<Versions>,
    line: &[u8],
    n: u32,
    steps: &mut Counts,
) -> Result<Lines, Fail> {
    match engine.step(line, n as u64, steps) {
        Ok(lines) => Ok(lines),
        Err(_) => Ok(engine.step(line, n as u64, steps)?),
    }
}

/// Puts an event of a transcript, and below it what an engine answers as line `n`.
fn put_event(
    text: &mut String,
    engine: &mut Engine<Versions>,
    event: &str,
    n: u32,
    steps: &mut Counts,
) -> Result<(), Fail> {
    text.push_str("> ")?;
    text.push_str(event)?;
    text.push_str("\n")?;
    let lines = step_again(engine, event.as_bytes(), n, steps)?;
    put_lines(text, &lines)
}

/// As `replaying::replayed`, with each line given once more where memory is lacking.
fn replayed_again(alloc: Global, document: &str, transcript: &str) -> Result<String, Fail> {
    let mut engine = begun(alloc, document)?;
    let mut steps = Counts::new();
    let mut text = String::new(alloc);
    let mut n = 0_u32;
    for line in transcript.lines() {
        if let Some(event) = line.strip_prefix("> ") {
            n = n.saturating_add(1);
            put_event(&mut text, &mut engine, event, n, &mut steps)?;
        }
    }
    Ok(text)
}

#[test]
fn a_line_is_given_again_where_memory_is_lacking(rt: HostRuntime) -> Result<(), Fail> {
    let alloc = rt.alloc();
    assert_eq!(rt;
        replayed_again(alloc, DOCUMENT, EVERY_EVENT)?.as_str(),
        EVERY_EVENT
    );
    Ok(())
}
