use gql_parse::gql_plain::{
    Conn, Ids, NoMemory, OptIds, Pairs, Plain, PlainFault, SharedText, Words, is_name, plain_of,
    text_of, value_of,
};
use serde_json::Value;
use std::alloc::Global;
use std::test::Fail;

#[test]
fn whole_trees_come_back(rt: HostRuntime) -> Result<(), Fail> {
    let alloc = rt.alloc();
    for (written, compact) in [
        ("null", "null"),
        ("-9223372036854775808", "-9223372036854775808"),
        (
            " { \"b\" : [ 1 , { } , true ] , \"B\" : \"\\u000a\\u0001\\\"\" , \"\" : [ ] } ",
            "{\"\":[],\"B\":\"\\n\\u0001\\\"\",\"b\":[1,{},true]}",
        ),
    ] {
        let value = Value::from_str(alloc, written)?;
        let plain = plain_of(alloc, &value)?;
        assert_eq!(rt; text_of(alloc, &plain)?.as_str(), compact);
        let copy = plain.copy()?;
        assert!(rt; copy == plain);
        assert!(rt; value_of(alloc, &copy)? == value);
    }
    Ok(())
}

#[test]
fn other_numbers_are_not_whole(rt: HostRuntime) -> Result<(), Fail> {
    for written in [
        "1.5",
        "1.0",
        "-0",
        "1e2",
        "9223372036854775808",
        "[{\"a\":[2.5]}]",
    ] {
        let value = Value::from_str(rt.alloc(), written)?;
        let answer = plain_of(rt.alloc(), &value);
        assert!(rt; matches!(answer, Err(PlainFault::NotWhole)), "at {written}");
    }
    Ok(())
}

#[test]
fn keys_find_their_values(rt: HostRuntime) -> Result<(), Fail> {
    let alloc = rt.alloc();
    let mut pairs = Pairs::new(alloc);
    pairs.push(Words::new(alloc, "a")?, Plain::Int(1))?;
    let copy = pairs.copy()?;
    assert!(rt; copy == pairs);
    assert!(rt; copy.get("a") == Some(&Plain::Int(1)));
    assert!(rt; copy.get("b").is_none());
    Ok(())
}

/// The distinct lines of a text, as ids.
fn ids_of(alloc: Global, text: &str) -> Result<Ids, NoMemory> {
    let mut words = Vec::new(alloc);
    for line in text.lines() {
        words.push(Words::new(alloc, line)?)?;
    }
    Ids::sort(words)
}

#[test]
fn ids_stand_in_byte_order(rt: HostRuntime) -> Result<(), Fail> {
    let alloc = rt.alloc();
    for (given, sorted) in [("b", "b"), ("b\na:1\nb\na\nB", "B\na\na:1\nb")] {
        let ids = ids_of(alloc, given)?;
        assert!(rt; ids.copy()? == ids);
        assert_eq!(rt; ids.len(), sorted.lines().count());
        for (id, text) in ids.as_slice().iter().zip(sorted.lines()) {
            assert_eq!(rt; id.as_str(), text);
        }
        assert!(rt; ids.contains("b") && !ids.contains("a:"));
    }
    let none = Ids::new(alloc);
    assert!(rt; none.copy()? == ids_of(alloc, "")? && none.is_empty());
    Ok(())
}

#[test]
fn connections_are_copied(rt: HostRuntime) -> Result<(), Fail> {
    let alloc = rt.alloc();
    for filters in [None, Some(ids_of(alloc, "tag")?)] {
        let key = Words::new(alloc, "Posts")?;
        let conn = Conn { key, filters };
        assert!(rt; conn.copy()? == conn);
    }
    Ok(())
}

#[test]
fn links_are_copied(rt: HostRuntime) -> Result<(), Fail> {
    let alloc = rt.alloc();
    let mut links = OptIds::new(alloc);
    assert!(rt; links.copy()? == links);
    links.push(None)?;
    links.push(Some(Words::new(alloc, "1")?))?;
    let copy = links.copy()?;
    assert!(rt; copy.as_slice() == [None, Some(Words::new(alloc, "1")?)].as_slice());
    Ok(())
}

#[test]
fn texts_are_shared(rt: HostRuntime) -> Result<(), Fail> {
    let alloc = rt.alloc();
    let text = SharedText::new(alloc, Words::new(alloc, "_a1")?)?;
    let copy = text.copy()?;
    assert!(rt; copy == text && copy.as_str() == "_a1" && is_name(copy.as_str()));
    assert!(rt; !is_name("1a") && !is_name("a-b") && !is_name(""));
    Ok(())
}
