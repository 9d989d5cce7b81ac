//! The top call over the large inputs, each of which ends within the time that a test has. A body that
//! folds its lines afresh at each line does not.
use crate::running::Repeating;
use relay_io::{MemSink, MemSource, MemVault};
use relay_top::{Counts, Status, Words, relay_top};
use std::alloc::Global;
use std::test::Fail;

#[test]
fn two_hundred_thousand_drawn_lines_are_summed_up(rt: HostRuntime) -> Result<(), Fail> {
    let alloc = rt.alloc();
    let mut vault = MemVault::new(Vec::new(alloc), Vec::new(alloc));
    let mut script = MemSource::new(Vec::new(alloc), 1, Vec::new(alloc));
    let mut out = MemSink::new(alloc, 4096, 65_536, Vec::new(alloc))?;
    let mut steps = Counts::new();
    let words = ["bulk", "7", "200000"];
    let status = relay_top(alloc, &words, &mut vault, &mut script, &mut out, &mut steps);
    assert_eq!(rt; status, Status::Done);
    assert_eq!(rt;
        out.contents(),
        b"{\"bytes\":25123205,\"lines\":200000,\"notices\":149940,\"refused\":0}\n".as_slice()
    );
    Ok(())
}

const SCHEMA: &str = "type Query{me:User} type User{id:ID! age:Int}";

const DOCUMENT: &str = "query G{me{age}}";

const WATCHED: &str = "{\"do\":\"retain\",\"handle\":\"h\",\"op\":\"G\"}\n\
    {\"do\":\"payload\",\"handle\":\"h\",\"response\":{\"data\":{\"me\":{\"id\":\"4\",\"age\":5}}}}\n\
    {\"do\":\"watch\",\"watch\":\"w\",\"handle\":\"h\"}\n";

const UPDATE: &str =
    "{\"do\":\"update\",\"updates\":[{\"add\":{\"id\":\"4\",\"field\":\"age\",\"by\":1}}]}\n";

const LAST_LINES: &str = "\n{\"n\":100003,\"ok\":\"update\"}\n\
    {\"data\":{\"me\":{\"age\":100005}},\"missing\":false,\"n\":100003,\"notice\":\"w\",\"seen\":[\"4\",\"client:root\"]}\n";

// A vault of the schema and the document.
fn watched_vault(alloc: Global) -> Result<MemVault, Fail> {
    let mut files = Vec::new(alloc);
    files.push((
        Words::new(alloc, "s.graphql")?,
        SCHEMA.as_bytes().to_vec(alloc)?,
    ))?;
    files.push((
        Words::new(alloc, "d.graphql")?,
        DOCUMENT.as_bytes().to_vec(alloc)?,
    ))?;
    Ok(MemVault::new(files, Vec::new(alloc)))
}

// Each update has an answer and a notice, and each of the three lines before has an answer.
#[test]
fn a_hundred_thousand_updates_are_told_to_a_watch(rt: HostRuntime) -> Result<(), Fail> {
    let alloc = rt.alloc();
    let mut vault = watched_vault(alloc)?;
    let mut script = Repeating {
        text: WATCHED.as_bytes(),
        line: UPDATE.as_bytes(),
        times: 100_000,
        end: b"",
        calls: 0,
    };
    let mut out = MemSink::new(alloc, 1 << 24, 65_536, Vec::new(alloc))?;
    let mut steps = Counts::new();
    let words = ["run", "10", "s.graphql", "d.graphql"];
    let status = relay_top(alloc, &words, &mut vault, &mut script, &mut out, &mut steps);
    assert_eq!(rt; status, Status::Done);
    let held = out.contents();
    assert_eq!(rt; held.len(), 12_166_873);
    assert_eq!(rt; held.iter().filter(|byte| **byte == b'\n').count(), 200_003);
    assert!(rt; held.ends_with(LAST_LINES.as_bytes()));
    Ok(())
}
