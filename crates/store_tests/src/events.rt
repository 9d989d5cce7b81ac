use event_script::gql_plain::NoMemory;
use event_script::{Command, Event, LineFault, LineReader, read_event};
use serde_json::Value;
use std::alloc::{AllocError, Global};
use std::test::Fail;

/// The `do` of an event, or the name of a fault.
fn text_of_answer(answer: &Result<Event, LineFault>) -> &'static str {
    match answer {
        Ok(Event::Retain { .. }) => "retain",
        Ok(Event::Release { .. }) => "release",
        Ok(Event::Payload { .. }) => "payload",
        Ok(Event::Update { .. }) => "update",
        Ok(Event::Begin { .. }) => "begin",
        Ok(Event::Finish { .. }) => "finish",
        Ok(Event::Revert { .. }) => "revert",
        Ok(Event::Read { .. }) => "read",
        Ok(Event::Watch { .. }) => "watch",
        Ok(Event::Unwatch { .. }) => "unwatch",
        Ok(Event::Collect) => "collect",
        Err(LineFault::NotJson) => "NotJson",
        Err(LineFault::EventShape) => "EventShape",
        Err(LineFault::UpdateShape) => "UpdateShape",
        Err(LineFault::LineTooLong) => "LineTooLong",
        Err(LineFault::NoMemory) => "NoMemory",
    }
}

/// What lines say that are events: the event's `do`, a blank and the line.
const EVENTS: &str = r#"retain {"do":"retain","handle":"h","op":"Q"}
retain {"do":"retain","handle":"h","op":"","vars":{}}
retain {"do":"retain","handle":"h","op":"Q","vars":{"n":null}}
retain {"do":"retain","handle":"h","op":"Q","vars":{"a":{"b":[1,null,true,"x"]},"c":-9223372036854775808}}
retain {"vars":{"n":9223372036854775807},"op":"Q","handle":"h","do":"retain"}
release {"do":"release","handle":"h"}
payload {"do":"payload","handle":"h","response":{}}
payload {"do":"payload","handle":"h","response":null}
payload {"do":"payload","handle":"h","response":1.5,"updates":[]}
payload {"do":"payload","handle":"h","response":[1e308,-0,18446744073709551616,"\u00e9"]}
payload {"do":"payload","handle":"h","response":[[[[[[[[[[[[[[[[[[[[[[[[[[[[[[[[[[[[[[[[[[[[[[[[[[[[[[[[[[[[[[[[[[[[[[[[[[[[[[[[[[[[[[[[[[[[[[[[[[[[[[[[[[[[[[[[[[[[[[[[[[[[[[]]]]]]]]]]]]]]]]]]]]]]]]]]]]]]]]]]]]]]]]]]]]]]]]]]]]]]]]]]]]]]]]]]]]]]]]]]]]]]]]]]]]]]]]]]]]]]]]]]]]]]]]]]]]]]]]]]]]]]]]]]]]]]}
payload {"do":"payload","handle":"h","response":true,"updates":[{"delete":{"id":"4"}}]}
update {"do":"update","updates":[]}
update {"do":"update","updates":[{"delete":{"id":"4"}}]}
update {"do":"update","updates":[{"delete":{"id":"4"}},{"create":{"id":"4","type":"T"}},{"delete":{"id":"5"}}]}
begin {"do":"begin","layer":"a"}
begin {"do":"begin","layer":"a","updates":[]}
begin {"do":"begin","layer":"a","handle":"h","response":null}
begin {"do":"begin","layer":"a","handle":"h","response":null,"updates":[{"delete":{"id":"4"}}]}
finish {"do":"finish","layer":"a"}
finish {"do":"finish","layer":"a","updates":[]}
finish {"do":"finish","layer":"a","handle":"h","response":[1]}
finish {"do":"finish","layer":"a","handle":"h","response":[1],"updates":[{"delete":{"id":"4"}}]}
revert {"do":"revert","layer":"a"}
read {"do":"read","handle":"h"}
read {"do":"read","handle":"h","fragment":"P","id":"4"}
read {"do":"read","handle":"h","fragment":"","id":"client:root","args":{}}
read {"do":"read","handle":"h","fragment":"P","id":"4","args":{"n":1}}
watch {"do":"watch","handle":"h","watch":"w"}
watch {"do":"watch","handle":"h","watch":"w","fragment":"P","id":"4"}
watch {"do":"watch","handle":"h","watch":"w","fragment":"P","id":"4","args":{}}
unwatch {"do":"unwatch","watch":"w"}
collect {"do":"collect"}
collect  { "do" : "collect" }
collect {"\u0064o":"coll\u0065ct"}
collect {"do":"fly","do":"collect"}"#;

/// What lines say that are no events: the fault, a blank and the line.
const FAULTS: &str = r#"NotJson
NotJson nul
NotJson {"do":"collect"
NotJson {"do":"collect",}
NotJson {"do":"collect"} 1
NotJson {do:"collect"}
NotJson {"do":"\q"}
NotJson {"do":"\ud800"}
NotJson {"do":"payload","handle":"h","response":01}
NotJson {"do":"payload","handle":"h","response":1e999}
NotJson {"do":"fly","n":-1e999}
NotJson {"do":"payload","handle":"h","response":[[[[[[[[[[[[[[[[[[[[[[[[[[[[[[[[[[[[[[[[[[[[[[[[[[[[[[[[[[[[[[[[[[[[[[[[[[[[[[[[[[[[[[[[[[[[[[[[[[[[[[[[[[[[[[[[[[[[[[[[[[[[[[[]]]]]]]]]]]]]]]]]]]]]]]]]]]]]]]]]]]]]]]]]]]]]]]]]]]]]]]]]]]]]]]]]]]]]]]]]]]]]]]]]]]]]]]]]]]]]]]]]]]]]]]]]]]]]]]]]]]]]]]]]]]]]]]}
EventShape null
EventShape true
EventShape 1
EventShape "collect"
EventShape []
EventShape {}
EventShape {"do":null}
EventShape {"do":""}
EventShape {"do":"fly"}
EventShape {"do":"Collect"}
EventShape {"do":"collect","do":"fly"}
EventShape {"do":"retain","handle":"","op":"Q"}
EventShape {"do":"release","handle":""}
EventShape {"do":"payload","handle":"","response":1}
EventShape {"do":"begin","layer":""}
EventShape {"do":"begin","layer":"a","handle":"","response":1}
EventShape {"do":"finish","layer":""}
EventShape {"do":"finish","layer":"a","handle":"","response":1}
EventShape {"do":"revert","layer":""}
EventShape {"do":"read","handle":""}
EventShape {"do":"watch","handle":"","watch":"w"}
EventShape {"do":"watch","handle":"h","watch":""}
EventShape {"do":"unwatch","watch":""}
EventShape {"do":"retain","op":"Q"}
EventShape {"do":"retain","handle":"h"}
EventShape {"do":"retain","handle":1,"op":"Q"}
EventShape {"do":"retain","handle":"h","op":null}
EventShape {"do":"retain","handle":"h","op":"Q","vars":null}
EventShape {"do":"retain","handle":"h","op":"Q","vars":[]}
EventShape {"do":"retain","handle":"h","op":"Q","vars":{"n":1.0}}
EventShape {"do":"retain","handle":"h","op":"Q","vars":{"n":[1e2]}}
EventShape {"do":"retain","handle":"h","op":"Q","vars":{"n":{"m":-0}}}
EventShape {"do":"retain","handle":"h","op":"Q","vars":{"n":9223372036854775808}}
EventShape {"do":"retain","handle":"h","op":"Q","vars":{"n":-9223372036854775809}}
EventShape {"do":"retain","handle":"h","op":"Q","updates":[]}
EventShape {"do":"release"}
EventShape {"do":"release","handle":null}
EventShape {"do":"release","handle":"h","op":"Q"}
EventShape {"do":"payload","handle":"h"}
EventShape {"do":"payload","response":1}
EventShape {"do":"payload","handle":[],"response":1}
EventShape {"do":"payload","handle":"h","response":1,"layer":"a"}
EventShape {"do":"payload","handle":"h","updates":1}
EventShape {"do":"update"}
EventShape {"do":"update","n":1,"updates":1}
EventShape {"do":"update","handle":"h","response":1,"updates":[]}
EventShape {"do":"begin"}
EventShape {"do":"begin","layer":1}
EventShape {"do":"begin","layer":"a","handle":"h"}
EventShape {"do":"begin","layer":"a","response":1}
EventShape {"do":"begin","layer":"a","handle":1,"response":1}
EventShape {"do":"begin","layer":"a","op":"Q"}
EventShape {"do":"finish","updates":[]}
EventShape {"do":"finish","layer":null}
EventShape {"do":"finish","layer":"a","handle":"h"}
EventShape {"do":"finish","layer":"a","response":null,"updates":1}
EventShape {"do":"finish","layer":"a","watch":"w"}
EventShape {"do":"revert"}
EventShape {"do":"revert","layer":{}}
EventShape {"do":"revert","layer":"a","updates":[]}
EventShape {"do":"read"}
EventShape {"do":"read","handle":1}
EventShape {"do":"read","handle":"h","fragment":"P"}
EventShape {"do":"read","handle":"h","id":"4"}
EventShape {"do":"read","handle":"h","args":{}}
EventShape {"do":"read","handle":"h","id":"4","args":{}}
EventShape {"do":"read","handle":"h","fragment":1,"id":"4"}
EventShape {"do":"read","handle":"h","fragment":"P","id":""}
EventShape {"do":"read","handle":"h","fragment":"P","id":4}
EventShape {"do":"read","handle":"h","fragment":"P","id":"4","args":null}
EventShape {"do":"read","handle":"h","fragment":"P","id":"4","args":{"n":0.5}}
EventShape {"do":"read","handle":"h","watch":"w"}
EventShape {"do":"watch","handle":"h"}
EventShape {"do":"watch","watch":"w"}
EventShape {"do":"watch","handle":"h","watch":1}
EventShape {"do":"watch","handle":"h","watch":"w","id":"4"}
EventShape {"do":"watch","handle":"h","watch":"w","op":"Q"}
EventShape {"do":"unwatch"}
EventShape {"do":"unwatch","watch":null}
EventShape {"do":"unwatch","watch":"w","handle":"h"}
EventShape {"do":"collect","n":1}
UpdateShape {"do":"update","updates":1}
UpdateShape {"do":"update","updates":null}
UpdateShape {"do":"payload","handle":"h","response":1,"updates":{}}
UpdateShape {"do":"begin","layer":"a","updates":[1]}
UpdateShape {"do":"begin","layer":"a","handle":"h","response":1,"updates":"x"}
UpdateShape {"do":"finish","layer":"a","updates":null}
UpdateShape {"do":"update","updates":[{"delete":{"id":"4"}},{"delete":{"id":""}}]}"#;

/// A name of 200 bytes.
const NAME: &str =
    "nnnnnnnnnnnnnnnnnnnnnnnnnnnnnnnnnnnnnnnnnnnnnnnnnnnnnnnnnnnnnnnnnnnnnnnnnnnnnnnnnnnnnnnnnnnnnnnnnnnnnnnnnnnnnnnnnnnnnnnnnnnnnnnnnnnnnnnnnnnnnnnnnnnnnnnnnnnnnnnnnnnnnnnnnnnnnnnnnnnnnnnnnnnnnnnnnnnnnnnn";

/// What lines say with that name in the place of the star: the event's `do` or the fault, a blank
/// and the line.
const NAMED: &str = r#"retain {"do":"retain","handle":"*","op":"Q"}
EventShape {"do":"retain","handle":"*n","op":"Q"}
release {"do":"release","handle":"*"}
EventShape {"do":"release","handle":"*n"}
payload {"do":"payload","handle":"*","response":1}
EventShape {"do":"payload","handle":"*n","response":1}
begin {"do":"begin","layer":"*"}
EventShape {"do":"begin","layer":"*n"}
begin {"do":"begin","layer":"a","handle":"*","response":1}
EventShape {"do":"begin","layer":"a","handle":"*n","response":1}
finish {"do":"finish","layer":"*"}
EventShape {"do":"finish","layer":"*n"}
finish {"do":"finish","layer":"a","handle":"*","response":1}
EventShape {"do":"finish","layer":"a","handle":"*n","response":1}
revert {"do":"revert","layer":"*"}
EventShape {"do":"revert","layer":"*n"}
read {"do":"read","handle":"*"}
EventShape {"do":"read","handle":"*n"}
watch {"do":"watch","handle":"*","watch":"w"}
EventShape {"do":"watch","handle":"*n","watch":"w"}
watch {"do":"watch","handle":"h","watch":"*"}
EventShape {"do":"watch","handle":"h","watch":"*n"}
unwatch {"do":"unwatch","watch":"*"}
EventShape {"do":"unwatch","watch":"*n"}"#;

/// What an update says whose one command this is.
const COMMANDS: &str = r#"update {"set":{"id":"4","field":"name","args":{"n":1},"value":[null]}}
update {"set":{"id":"4","field":"_","value":{"a":[-1,"x",false]}}}
update {"set":{"id":"client:root","field":"me","args":{},"value":null}}
update {"add":{"id":"4","field":"age","by":-1}}
update {"add":{"id":"4","field":"age","args":{"n":1},"by":9223372036854775807}}
update {"add":{"id":"4","field":"age","by":-9223372036854775808}}
update {"link":{"id":"4","field":"friend","to":null}}
update {"link":{"id":"4","field":"friend","args":{"n":1},"to":"5"}}
update {"links":{"id":"4","field":"friends","to":[]}}
update {"links":{"id":"4","field":"friends","to":["5"]}}
update {"links":{"id":"4","field":"friends","args":{"n":1},"to":["5",null,"5"]}}
update {"create":{"id":"t1","type":"User"}}
update {"create":{"id":"t1","type":""}}
update {"delete":{"id":"t1"}}
update {"append_node":{"id":"4","key":"F","node":"5","edge_type":"E"}}
update {"append_node":{"id":"4","key":"F","filters":{"n":1},"node":"5","edge_type":"E","cursor":null}}
update {"prepend_node":{"id":"4","key":"F","node":"5","edge_type":"E"}}
update {"prepend_node":{"id":"4","key":"F","filters":{},"node":"5","edge_type":"","cursor":1}}
update {"delete_edge":{"id":"4","key":"F","node":"5"}}
update {"delete_edge":{"id":"4","key":"F","filters":{"n":"x"},"node":"5"}}
UpdateShape 1
UpdateShape "delete"
UpdateShape []
UpdateShape {}
UpdateShape {"fly":{}}
UpdateShape {"delete":null}
UpdateShape {"delete":["t1"]}
UpdateShape {"create":{"id":"t1","type":"User"},"delete":{"id":"t1"}}
UpdateShape {"set":{"field":"name","value":"x"}}
UpdateShape {"set":{"id":"4","value":"x"}}
UpdateShape {"set":{"id":"4","field":"name"}}
UpdateShape {"set":{"id":"","field":"name","value":"x"}}
UpdateShape {"set":{"id":4,"field":"name","value":"x"}}
UpdateShape {"set":{"id":"4","field":"__typename","value":"x"}}
UpdateShape {"set":{"id":"4","field":"a b","value":"x"}}
UpdateShape {"set":{"id":"4","field":"","value":"x"}}
UpdateShape {"set":{"id":"4","field":"name","args":null,"value":"x"}}
UpdateShape {"set":{"id":"4","field":"name","args":{"n":0.5},"value":"x"}}
UpdateShape {"set":{"id":"4","field":"name","value":[0.5]}}
UpdateShape {"set":{"id":"4","field":"name","value":"x","by":1}}
UpdateShape {"add":{"id":"4","field":"age"}}
UpdateShape {"add":{"id":"4","field":"age","by":1.5}}
UpdateShape {"add":{"id":"4","field":"age","by":"1"}}
UpdateShape {"add":{"id":"4","field":"age","by":9223372036854775808}}
UpdateShape {"add":{"id":"4","field":"age","by":1,"value":1}}
UpdateShape {"link":{"id":"4","field":"friend"}}
UpdateShape {"link":{"id":"4","field":"friend","to":""}}
UpdateShape {"link":{"id":"4","field":"friend","to":["5"]}}
UpdateShape {"link":{"id":"4","field":"friend","to":"5","key":"F"}}
UpdateShape {"links":{"id":"4","field":"friends"}}
UpdateShape {"links":{"id":"4","field":"friends","to":null}}
UpdateShape {"links":{"id":"4","field":"friends","to":["5",""]}}
UpdateShape {"links":{"id":"4","field":"friends","to":["5",6]}}
UpdateShape {"links":{"id":"4","field":"friends","to":[],"type":"T"}}
UpdateShape {"create":{"id":"t1"}}
UpdateShape {"create":{"type":"User"}}
UpdateShape {"create":{"id":"t1","type":null}}
UpdateShape {"create":{"id":"t1","type":"User","args":{}}}
UpdateShape {"create":{"id":"client:root","type":"User"}}
UpdateShape {"delete":{}}
UpdateShape {"delete":{"id":null}}
UpdateShape {"delete":{"id":"client:root"}}
UpdateShape {"delete":{"id":"t1","type":"User"}}
UpdateShape {"append_node":{"key":"F","node":"5","edge_type":"E"}}
UpdateShape {"append_node":{"id":"4","node":"5","edge_type":"E"}}
UpdateShape {"append_node":{"id":"4","key":"F","edge_type":"E"}}
UpdateShape {"append_node":{"id":"4","key":"F","node":"5"}}
UpdateShape {"append_node":{"id":"4","key":"__F","node":"5","edge_type":"E"}}
UpdateShape {"append_node":{"id":"4","key":"F","node":"","edge_type":"E"}}
UpdateShape {"append_node":{"id":"4","key":"F","filters":[],"node":"5","edge_type":"E"}}
UpdateShape {"append_node":{"id":"4","key":"F","node":"5","edge_type":1}}
UpdateShape {"append_node":{"id":"4","key":"F","node":"5","edge_type":"E","cursor":1.5}}
UpdateShape {"append_node":{"id":"4","key":"F","node":"5","edge_type":"E","args":{}}}
UpdateShape {"prepend_node":{"id":"4","key":"F","node":"5","edge_type":null}}
UpdateShape {"prepend_node":{"id":"4","key":"F","node":"5","edge_type":"E","to":null}}
UpdateShape {"delete_edge":{"id":"4","key":"F"}}
UpdateShape {"delete_edge":{"id":"4","key":"F","node":"5","cursor":null}}
UpdateShape {"delete_edge":{"id":"4","key":"F","node":"5","edge_type":"E"}}
UpdateShape {"delete_edge":{"id":"4","key":"F","filters":null,"node":"5"}}"#;

/// The first of the rows whose line says another word than the row's first; empty where none is.
/// One reader reads them all, so that no line changes what the next one says.
fn first_wrong(alloc: Global, rows: &'static str) -> Result<&'static str, NoMemory> {
    let mut reader = LineReader::new(alloc)?;
    for row in rows.lines() {
        let (word, line) = row.split_once(' ').unwrap_or((row, ""));
        if text_of_answer(&reader.read(line.as_bytes())) != word {
            return Ok(row);
        }
    }
    Ok("")
}

#[test]
fn each_line_is_an_event(rt: HostRuntime) -> Result<(), Fail> {
    assert_eq!(rt; first_wrong(rt.alloc(), EVENTS)?, "");
    Ok(())
}

#[test]
fn each_line_is_its_fault(rt: HostRuntime) -> Result<(), Fail> {
    assert_eq!(rt; first_wrong(rt.alloc(), FAULTS)?, "");
    Ok(())
}

#[test]
fn a_line_is_utf8(rt: HostRuntime) -> Result<(), Fail> {
    let answer = read_event(rt.alloc(), b"\"\xff\"");
    assert_eq!(rt; text_of_answer(&answer), "NotJson");
    Ok(())
}

#[test]
fn each_command_is_one_or_a_fault(rt: HostRuntime) -> Result<(), Fail> {
    for row in COMMANDS.lines() {
        let (word, command) = row.split_once(' ').unwrap_or((row, ""));
        let line = format!(in rt.alloc(); r#"{{"do":"update","updates":[{command}]}}"#)?;
        let answer = read_event(rt.alloc(), line.as_bytes());
        assert_eq!(rt; text_of_answer(&answer), word, "at {command}");
    }
    Ok(())
}

#[test]
fn a_name_has_at_most_200_bytes(rt: HostRuntime) -> Result<(), Fail> {
    for row in NAMED.lines() {
        let (word, line) = row.split_once(' ').unwrap_or((row, ""));
        let (before, after) = line.split_once('*').unwrap_or((line, ""));
        let line = format!(in rt.alloc(); "{before}{NAME}{after}")?;
        let answer = read_event(rt.alloc(), line.as_bytes());
        assert_eq!(rt; text_of_answer(&answer), word, "at {before}");
    }
    Ok(())
}

#[test]
fn an_event_holds_what_its_line_says(rt: HostRuntime) -> Result<(), Fail> {
    let line = br#"{"do":"begin","layer":"t","updates":[{"add":{"by":1,"field":"age","id":"m"}}]}"#;
    let event = read_event(rt.alloc(), line)?;
    assert!(rt; is_the_start(&event));
    let line = br#"{"do":"payload","handle":"h","response":{"data":{"age":1.5}}}"#;
    let event = read_event(rt.alloc(), line)?;
    let response = Value::from_str(rt.alloc(), r#"{"data":{"age":1.5}}"#)?;
    assert!(rt; is_the_payload(&event, &response));
    Ok(())
}

fn is_the_start(event: &Event) -> bool {
    match event {
        Event::Begin {
            layer,
            answer: None,
            updates,
        } => {
            layer.as_str() == "t"
                && updates.items.len() == 1
                && updates.items.iter().all(is_the_sum)
        }
        _ => false,
    }
}

fn is_the_sum(command: &Command) -> bool {
    match command {
        Command::Add {
            id,
            field,
            args,
            by,
        } => { id.as_str() == "m" && field.as_str() == "age" && args.is_empty() && *by == 1 }
        _ => false,
    }
}

fn is_the_payload(event: &Event, response: &Value) -> bool {
    match event {
        Event::Payload { answer, updates } => {
            answer.handle.as_str() == "h"
                && answer.response == *response
                && updates.items.is_empty()
        }
        _ => false,
    }
}

#[test]
fn a_line_has_at_most_8_mebibytes(rt: HostRuntime) -> Result<(), Fail> {
    let mut line = pad(rt.alloc(), br#"{"do":"collect"}"#, 8_388_608)?;
    let answer = read_event(rt.alloc(), &line);
    assert_eq!(rt; text_of_answer(&answer), "collect");
    line.push(b' ')?;
    let answer = read_event(rt.alloc(), &line);
    assert_eq!(rt; text_of_answer(&answer), "LineTooLong");
    Ok(())
}

/// The bytes, followed by as many blanks as the length wants.
fn pad(alloc: Global, bytes: &[u8], length: usize) -> Result<Vec<u8>, AllocError> {
    let mut line = Vec::new(alloc);
    line.extend_from_slice(bytes)?;
    line.resize(length, b' ')?;
    Ok(line)
}
