//! Payloads and variables that are at fault, through the whole program.
use crate::running::{WHOLE, answers_over};
use relay_top::Status;
use std::alloc::Global;
use std::test::Fail;

const NODE: &str = "query O($id:ID!){node(id:$id){id}}";

const TEAMS: &str = "query T($n:Int){a:team(size:2){name} b:team(size:$n){name} c:team{name}}";

const AGE: &str = "query N{me{age}}";

// What the data of a payload is answered, for an operation that is retained with these variables; the
// answer of its retention comes before.
fn paid(
    alloc: Global,
    document: &str,
    retain: &str,
    data: &str,
) -> Result<(Status, Vec<u8>), Fail> {
    let script = format!(in alloc;
        "{{\"do\":\"retain\",\"handle\":\"h\",{retain}}}\n\
         {{\"do\":\"payload\",\"handle\":\"h\",\"response\":{{\"data\":{data}}}}}\n"
    )?;
    answers_over(alloc, document, script.as_bytes(), WHOLE, WHOLE)
}

// The two lines where the payload is refused for this cause at this path.
fn refusal(alloc: Global, cause: &str, path: &str) -> Result<String, Fail> {
    Ok(format!(in alloc;
        "{{\"n\":1,\"ok\":\"retain\"}}\n\
         {{\"cause\":\"{cause}\",\"code\":16,\"error\":\"Payload\",\"n\":2,\"path\":[{path}]}}\n"
    )?)
}

const NODE_HELD: &str = "\"op\":\"O\",\"vars\":{\"id\":\"u1\"}";

const TEAMS_HELD: &str = "\"op\":\"T\"";

const AGE_HELD: &str = "\"op\":\"N\"";

#[test]
fn a_type_that_is_not_possible_is_refused(rt: HostRuntime) -> Result<(), Fail> {
    let alloc = rt.alloc();
    let data = r#"{"node":{"__typename":"Tag","id":"1"}}"#;
    let (status, held) = paid(alloc, NODE, NODE_HELD, data)?;
    let wanted = refusal(alloc, "Typename", r#""node","__typename""#)?;
    assert_eq!(rt; status, Status::DoneWithRefusals);
    assert_eq!(rt; held.as_slice(), wanted.as_bytes());
    Ok(())
}

#[test]
fn a_type_that_is_no_text_is_refused_before_an_empty_id(rt: HostRuntime) -> Result<(), Fail> {
    let alloc = rt.alloc();
    let data = r#"{"node":{"__typename":5,"id":""}}"#;
    let (status, held) = paid(alloc, NODE, NODE_HELD, data)?;
    let wanted = refusal(alloc, "Typename", r#""node","__typename""#)?;
    assert_eq!(rt; status, Status::DoneWithRefusals);
    assert_eq!(rt; held.as_slice(), wanted.as_bytes());
    Ok(())
}

#[test]
fn an_id_of_the_client_is_refused(rt: HostRuntime) -> Result<(), Fail> {
    let alloc = rt.alloc();
    let data = r#"{"node":{"__typename":"User","id":"client:1"}}"#;
    let (status, held) = paid(alloc, NODE, NODE_HELD, data)?;
    let wanted = refusal(alloc, "ReservedId", r#""node","id""#)?;
    assert_eq!(rt; status, Status::DoneWithRefusals);
    assert_eq!(rt; held.as_slice(), wanted.as_bytes());
    Ok(())
}

#[test]
fn an_item_that_is_no_object_is_refused(rt: HostRuntime) -> Result<(), Fail> {
    let alloc = rt.alloc();
    let (status, held) = paid(alloc, TEAMS, TEAMS_HELD, r#"{"a":[],"b":[],"c":[1]}"#)?;
    let wanted = refusal(alloc, "Shape", r#""c",0"#)?;
    assert_eq!(rt; status, Status::DoneWithRefusals);
    assert_eq!(rt; held.as_slice(), wanted.as_bytes());
    Ok(())
}

#[test]
fn of_two_wrong_shapes_the_one_at_the_least_path_is_refused(rt: HostRuntime) -> Result<(), Fail> {
    let alloc = rt.alloc();
    let (status, held) = paid(alloc, TEAMS, TEAMS_HELD, r#"{"a":[1],"b":5}"#)?;
    let wanted = refusal(alloc, "Shape", r#""a",0"#)?;
    assert_eq!(rt; status, Status::DoneWithRefusals);
    assert_eq!(rt; held.as_slice(), wanted.as_bytes());
    Ok(())
}

#[test]
fn a_number_that_is_not_whole_is_refused_before_an_id_at_a_later_path(
    rt: HostRuntime,
) -> Result<(), Fail> {
    let alloc = rt.alloc();
    let (status, held) = paid(alloc, AGE, AGE_HELD, r#"{"me":{"id":7,"age":1.5}}"#)?;
    let wanted = refusal(alloc, "NotWhole", r#""me","age""#)?;
    assert_eq!(rt; status, Status::DoneWithRefusals);
    assert_eq!(rt; held.as_slice(), wanted.as_bytes());
    Ok(())
}

#[test]
fn an_id_that_is_no_text_is_refused(rt: HostRuntime) -> Result<(), Fail> {
    let alloc = rt.alloc();
    let (status, held) = paid(alloc, AGE, AGE_HELD, r#"{"me":{"id":7,"age":1}}"#)?;
    let wanted = refusal(alloc, "IdShape", r#""me","id""#)?;
    assert_eq!(rt; status, Status::DoneWithRefusals);
    assert_eq!(rt; held.as_slice(), wanted.as_bytes());
    Ok(())
}

// A line that retains an operation with a variable that it does not define, of so many lists one in
// another.
fn nested(alloc: Global, lists: usize) -> Result<Vec<u8>, Fail> {
    let mut line = String::from_str(
        alloc,
        "{\"do\":\"retain\",\"handle\":\"h\",\"op\":\"N\",\"vars\":{\"x\":",
    )?;
    for _ in 0..lists {
        line.push('[')?;
    }
    for _ in 0..lists {
        line.push(']')?;
    }
    line.push_str("}}\n")?;
    Ok(line.into_bytes())
}

#[test]
fn a_variable_of_100_nested_lists_is_taken(rt: HostRuntime) -> Result<(), Fail> {
    let alloc = rt.alloc();
    let (status, held) = answers_over(alloc, AGE, &nested(alloc, 100)?, WHOLE, WHOLE)?;
    assert_eq!(rt; status, Status::Done);
    assert_eq!(rt;
        held.as_slice(),
        b"{\"n\":1,\"ok\":\"retain\"}\n".as_slice()
    );
    Ok(())
}

#[test]
fn a_variable_of_200_nested_lists_is_no_json(rt: HostRuntime) -> Result<(), Fail> {
    let alloc = rt.alloc();
    let (status, held) = answers_over(alloc, AGE, &nested(alloc, 200)?, WHOLE, WHOLE)?;
    assert_eq!(rt; status, Status::DoneWithRefusals);
    assert_eq!(rt;
        held.as_slice(),
        b"{\"code\":1,\"error\":\"NotJson\",\"n\":1}\n".as_slice()
    );
    Ok(())
}
