//! Texts of the GraphQL specification (October 2021, section 2) with the places of their nodes, and
//! faults with their offsets.
use crate::texts::{list_places, times};
use gql_parse::gql_ast::Kind;
use gql_parse::gql_syntax::{
    Cursor, Fault, NESTING_LIMIT, expect_word, kind_of, read_arguments, read_default,
    read_directives, read_type, read_value,
};
use std::alloc::Global;
use std::test::Fail;

/// The start of a text, or of none where it is too long for a test.
fn start(alloc: Global, text: &str) -> Cursor<'_> {
    let text = if text.len() < 1000 { text } else { "" };
    Cursor::new(alloc, 7, text)
}

/// The value of a text, as it is printed.
fn value_in(alloc: Global, constant: bool, text: &str) -> Result<String, Fail> {
    let mut cursor = start(alloc, text);
    let value = read_value(alloc, constant, NESTING_LIMIT, &mut cursor);
    Ok(format!(in alloc; "{value:?}")?)
}

/// The type of a text, as it is printed.
fn type_in(alloc: Global, text: &str) -> Result<String, Fail> {
    let mut cursor = start(alloc, text);
    let read = read_type(alloc, &mut cursor);
    Ok(format!(in alloc; "{read:?}")?)
}

/// The places of a value's nodes.
fn value_places(alloc: Global, text: &str) -> Result<String, Fail> {
    let mut cursor = start(alloc, text);
    let _ = read_value(alloc, false, NESTING_LIMIT, &mut cursor);
    list_places(alloc, &cursor.into_places())
}

/// The places of a type's nodes.
fn type_places(alloc: Global, text: &str) -> Result<String, Fail> {
    let mut cursor = start(alloc, text);
    let _ = read_type(alloc, &mut cursor);
    list_places(alloc, &cursor.into_places())
}

#[test]
fn values_of_each_form(rt: HostRuntime) -> Result<(), Fail> {
    let rows = "$a  Ok(Variable(Words { text: \"a\" }))
-7  Ok(Int(-7))
\"b\\u0021\"  Ok(Text(Words { text: \"b!\" }))
\"\"\"c\"\"\"  Ok(Text(Words { text: \"c\" }))
true  Ok(Bool(true))
false  Ok(Bool(false))
null  Ok(Null)
d  Ok(Enum(Words { text: \"d\" }))
[1, []]  Ok(List(ValueTrees { items: [Int(1), List(ValueTrees { items: [] })] }))
{e: 2}  Ok(Object(Arguments { items: [Argument { name: Words { text: \"e\" }, value: Int(2) }] }))";
    for row in rows.lines() {
        let Some((text, expected)) = row.split_once("  ") else {
            continue;
        };
        let value = value_in(rt.alloc(), false, text)?;
        assert_eq!(rt; value.as_str(), expected);
    }
    Ok(())
}

#[test]
fn faults_of_constants(rt: HostRuntime) -> Result<(), Fail> {
    let rows =
        "$a 6 0\n[1 6 2\n{d,3} 6 3\n{d:} 6 3\n[} 6 1\n{] 6 1\n[[[ 6 3\n{a:$b} 6 3\n[\u{E9} 1 1\n:1.5 6 0\n[1.5 3 1";
    for row in rows.lines() {
        let Some((text, fault)) = row.split_once(' ') else {
            continue;
        };
        let Some((code, at)) = fault.split_once(' ') else {
            continue;
        };
        let expected = format!(in rt.alloc(); "Err(Wrong {{ code: {code}, at: {at} }})")?;
        let value = value_in(rt.alloc(), true, text)?;
        assert_eq!(rt; value.as_str(), expected.as_str());
    }
    Ok(())
}

#[test]
fn places_in_lines_and_characters(rt: HostRuntime) -> Result<(), Fail> {
    let value = value_places(rt.alloc(), "# \u{E9}\r\n [\"\u{E9}\", $b\r {c: D}]")?;
    assert_eq!(rt; value.as_str(), "2:2 2:3 2:8 2:9 3:2 3:3 3:3 3:6 3:6 ");
    let read = type_places(rt.alloc(), "\u{FEFF}[A!]!")?;
    assert_eq!(rt; read.as_str(), "1:2 1:2 1:3 1:3 1:3 ");
    Ok(())
}

#[test]
fn sixty_lists(rt: HostRuntime) -> Result<(), Fail> {
    let brackets = times(rt.alloc(), "", "[", 60)?;
    let value = value_in(rt.alloc(), true, brackets.as_str())?;
    assert_eq!(rt; value.as_str(), "Err(Wrong { code: 6, at: 60 })");
    let read = type_in(rt.alloc(), brackets.as_str())?;
    assert_eq!(rt; read.as_str(), "Err(Wrong { code: 6, at: 60 })");
    let more = times(rt.alloc(), "", "[", 61)?;
    let value = value_in(rt.alloc(), true, more.as_str())?;
    assert_eq!(rt; value.as_str(), "Err(Wrong { code: 8, at: 60 })");
    let read = type_in(rt.alloc(), more.as_str())?;
    assert_eq!(rt; read.as_str(), "Err(Wrong { code: 8, at: 60 })");
    Ok(())
}

#[test]
fn types(rt: HostRuntime) -> Result<(), Fail> {
    let read = type_in(rt.alloc(), "[A!]")?;
    assert_eq!(rt;
        read.as_str(),
        "Ok(List(TypeBox { of: NonNull(TypeBox { of: Named(Words { text: \"A\" }) }) }))"
    );
    let read = type_in(rt.alloc(), "[A!!]")?;
    assert_eq!(rt; read.as_str(), "Err(Wrong { code: 6, at: 3 })");
    Ok(())
}

#[test]
fn directives_and_arguments(rt: HostRuntime) -> Result<(), Fail> {
    let mut cursor = start(rt.alloc(), "@a(b: $c) @d e: 1)");
    let directives = read_directives(rt.alloc(), false, &mut cursor);
    let shown = format!(in rt.alloc(); "{directives:?}")?;
    assert_eq!(rt;
        shown.as_str(),
        "Ok(Directives { items: [Directive { name: Words { text: \"a\" }, arguments: Arguments { items: [Argument { name: Words { text: \"b\" }, value: Variable(Words { text: \"c\" }) }] } }, Directive { name: Words { text: \"d\" }, arguments: Arguments { items: [] } }] })"
    );
    let arguments = read_arguments(rt.alloc(), true, &mut cursor);
    let shown = format!(in rt.alloc(); "{arguments:?}")?;
    assert_eq!(rt;
        shown.as_str(),
        "Ok(Arguments { items: [Argument { name: Words { text: \"e\" }, value: Int(1) }] })"
    );
    Ok(())
}

#[test]
fn defaults_and_words(rt: HostRuntime) -> Result<(), Fail> {
    let mut cursor = start(rt.alloc(), "= 3 on mutation");
    let default = read_default(rt.alloc(), &mut cursor);
    let shown = format!(in rt.alloc(); "{default:?}")?;
    assert_eq!(rt; shown.as_str(), "Ok(Some(Int(3)))");
    let none = read_default(rt.alloc(), &mut cursor);
    let shown = format!(in rt.alloc(); "{none:?}")?;
    assert_eq!(rt; shown.as_str(), "Ok(None)");
    assert_eq!(rt; expect_word(&mut cursor, "on", 0), Ok(()));
    assert_eq!(rt; cursor.next_word().and_then(kind_of), Some(Kind::Mutation));
    assert_eq!(rt; cursor.fault(), Fault::Wrong { code: 6, at: 7 });
    Ok(())
}
