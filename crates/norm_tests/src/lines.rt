//! Tests of the printed lines: each line once.
use plan_ir::{Cause, Field, Ids, OptIds, Pairs, PathStep, PathSteps, PayloadFault, Plain, Words};
use relay_lines::{
    Limited, Refusal, Snapshot, collect_line, event_line, fault_line, notice_line, read_line,
    refusal_line, watch_line,
};
use std::alloc::Global;
use std::test::Fail;

const REFUSALS: &str = r#"{"code":1,"error":"NotJson","n":1}
{"code":2,"error":"EventShape","n":2}
{"code":3,"error":"UpdateShape","n":3}
{"code":4,"error":"LineTooLong","n":4}
{"code":5,"error":"UnknownOperation","n":5,"name":"X"}
{"code":6,"error":"UnknownFragment","n":6,"name":"X"}
{"code":7,"error":"UnknownHandle","n":7,"name":"X"}
{"code":8,"error":"HandleTaken","n":8,"name":"X"}
{"code":9,"error":"HandleInUse","n":9,"name":"X"}
{"code":10,"error":"UnknownLayer","n":10,"name":"X"}
{"code":11,"error":"LayerTaken","n":11,"name":"X"}
{"code":12,"error":"UnknownWatch","n":12,"name":"X"}
{"code":13,"error":"WatchTaken","n":13,"name":"X"}
{"code":14,"error":"UnknownType","n":14,"name":"X"}
{"cause":"Missing","code":15,"error":"Variables","n":15,"variable":"id"}
{"cause":"Unfit","code":15,"error":"Variables","n":16,"variable":"id"}
{"code":17,"error":"TooMany","kind":"handles","limit":10000,"n":17}
{"code":17,"error":"TooMany","kind":"layers","limit":1000,"n":18}
{"code":17,"error":"TooMany","kind":"watches","limit":10000,"n":19}
"#;

const CONFLICT: &str =
    r#"{"cause":"Conflict","code":16,"error":"Payload","first":{"__refs":["1",null]},"id":"client:root","key":"team","n":2,"path":["c"],"second":{"__ref":"2"}}"#;

// The lines of refusals, numbered from 1.
fn lines_of(alloc: Global, refusals: &[Refusal<'static>]) -> Result<String, Fail> {
    let mut text = String::new(alloc);
    let mut n = 0_u32;
    for refusal in refusals {
        n = n.saturating_add(1);
        text.push_str(refusal_line(alloc, *refusal, n as u64)?.as_str())?;
        text.push('\n')?;
    }
    Ok(text)
}

// The line of a payload's fault at a key.
fn line_of(alloc: Global, key: &str, cause: Cause) -> Result<Words, Fail> {
    let mut path = PathSteps::new(alloc);
    path.push(PathStep::Key(Words::new(alloc, key)?))?;
    let fault = PayloadFault { path, cause };
    Ok(refusal_line(alloc, Refusal::Payload(&fault), 2)?)
}

// The line of a payload's fault of this cause, which stands in a list.
fn place_of(alloc: Global, cause: Cause) -> Result<Words, Fail> {
    let mut path = PathSteps::new(alloc);
    path.push(PathStep::Key(Words::new(alloc, "tags")?))?;
    path.push(PathStep::Index(18_446_744_073_709_551_615))?;
    let fault = PayloadFault { path, cause };
    Ok(refusal_line(alloc, Refusal::Payload(&fault), 2)?)
}

// Two links, one of them to nothing.
fn links_of(alloc: Global) -> Result<Field, Fail> {
    let mut ids = OptIds::new(alloc);
    ids.push(Some(Words::new(alloc, "1")?))?;
    ids.push(None)?;
    Ok(Field::Links(ids))
}

// A conflict of a list of links and a link.
fn conflict_of(alloc: Global) -> Result<Cause, Fail> {
    let first = links_of(alloc)?;
    let second = Field::Link(Words::new(alloc, "2")?);
    let key = Words::new(alloc, "team")?;
    let id = Words::new(alloc, "client:root")?;
    Ok(Cause::Conflict {
        id,
        key,
        first,
        second,
    })
}

// What a read of a name shows.
fn snapshot_of(alloc: Global) -> Result<Snapshot, Fail> {
    let mut members = Pairs::new(alloc);
    members.push(
        Words::new(alloc, "name")?,
        Plain::Text(Words::new(alloc, "Ann")?),
    )?;
    let seen = seen_of(alloc)?;
    Ok(Snapshot {
        shown: Plain::Tree(members),
        missing: false,
        seen,
    })
}

// Two ids.
fn seen_of(alloc: Global) -> Result<Ids, Fail> {
    let mut ids = Vec::new(alloc);
    ids.push(Words::new(alloc, "client:root")?)?;
    ids.push(Words::new(alloc, "4")?)?;
    Ok(Ids::sort(ids)?)
}

#[test]
fn answers_are_lines(rt: HostRuntime) -> Result<(), Fail> {
    let alloc = rt.alloc();
    assert_eq!(rt;
        event_line(alloc, "begin", 4)?.as_str(),
        r#"{"n":4,"ok":"begin"}"#
    );
    assert_eq!(rt;
        fault_line(alloc, "d.graphql", 1, 12, "V7")?.as_str(),
        r#"{"column":12,"file":"d.graphql","line":1,"rule":"V7"}"#
    );
    Ok(())
}

#[test]
fn snapshots_are_lines(rt: HostRuntime) -> Result<(), Fail> {
    let alloc = rt.alloc();
    let snapshot = snapshot_of(alloc)?;
    assert_eq!(rt;
        read_line(alloc, &snapshot, 3)?.as_str(),
        r#"{"data":{"name":"Ann"},"missing":false,"n":3,"ok":"read","seen":["4","client:root"]}"#
    );
    assert_eq!(rt;
        watch_line(alloc, &snapshot, 4)?.as_str(),
        r#"{"data":{"name":"Ann"},"missing":false,"n":4,"ok":"watch","seen":["4","client:root"]}"#
    );
    assert_eq!(rt;
        notice_line(alloc, "w", &snapshot, 5)?.as_str(),
        r#"{"data":{"name":"Ann"},"missing":false,"n":5,"notice":"w","seen":["4","client:root"]}"#
    );
    Ok(())
}

#[test]
fn sweeps_are_lines(rt: HostRuntime) -> Result<(), Fail> {
    let alloc = rt.alloc();
    assert_eq!(rt;
        collect_line(alloc, 1, 34)?.as_str(),
        r#"{"dropped":1,"n":34,"ok":"collect","waiting":false}"#
    );
    assert_eq!(rt;
        collect_line(alloc, 0, 6)?.as_str(),
        r#"{"dropped":0,"n":6,"ok":"collect","waiting":false}"#
    );
    Ok(())
}

#[test]
fn refusals_are_lines(rt: HostRuntime) -> Result<(), Fail> {
    let alloc = rt.alloc();
    let refusals = [
        Refusal::NotJson,
        Refusal::EventShape,
        Refusal::UpdateShape,
        Refusal::LineTooLong,
        Refusal::UnknownOperation("X"),
        Refusal::UnknownFragment("X"),
        Refusal::UnknownHandle("X"),
        Refusal::HandleTaken("X"),
        Refusal::HandleInUse("X"),
        Refusal::UnknownLayer("X"),
        Refusal::LayerTaken("X"),
        Refusal::UnknownWatch("X"),
        Refusal::WatchTaken("X"),
        Refusal::UnknownType("X"),
        Refusal::MissingVariable("id"),
        Refusal::UnfitVariable("id"),
        Refusal::TooMany(Limited::Handles),
        Refusal::TooMany(Limited::Layers),
        Refusal::TooMany(Limited::Watches),
    ];
    assert_eq!(rt; lines_of(alloc, &refusals)?.as_str(), REFUSALS);
    Ok(())
}

#[test]
fn faults_of_payloads_are_lines(rt: HostRuntime) -> Result<(), Fail> {
    let alloc = rt.alloc();
    assert_eq!(rt;
        line_of(alloc, "c", conflict_of(alloc)?)?.as_str(),
        CONFLICT
    );
    assert_eq!(rt;
        place_of(alloc, Cause::NotWhole)?.as_str(),
        r#"{"cause":"NotWhole","code":16,"error":"Payload","n":2,"path":["tags",18446744073709551615]}"#
    );
    Ok(())
}
