//! Texts of the GraphQL specification (October 2021, section 2), and faults with their places.
use gql_parse::gql_lex::{LexFault, Lexer, Place, TokenKind, place, string_value};
use std::alloc::Global;
use std::test::Fail;

/// The texts of a source's tokens, each after the letter of its kind and before a space, and then
/// the code of its fault.
fn list_places(alloc: Global, text: &str) -> Result<String, Fail> {
    let mut lexer = Lexer::new(text);
    let mut list = String::new(alloc);
    for _ in 0..40 {
        match lexer.next() {
            Ok(None) => return Ok(list),
            Ok(Some(token)) => {
                let kind = match token.kind {
                    TokenKind::Punct => 'P',
                    TokenKind::Name => 'N',
                    TokenKind::Int => 'I',
                    TokenKind::Text => 'T',
                    TokenKind::Block => 'B',
                };
                list.push(kind)?;
                list.push_str(token.text)?;
                list.push(' ')?;
            }
            Err(fault) => {
                list.push(char::from(b'0'.saturating_add(fault.code)))?;
                return Ok(list);
            }
        }
    }
    Ok(list)
}

/// A source's fault, found by calling again and again.
fn fault_of(text: &str) -> Option<LexFault> {
    let mut lexer = Lexer::new(text);
    let mut found = None;
    for _ in 0..40 {
        if let Err(fault) = lexer.next() {
            found = Some(fault);
        }
    }
    found
}

/// The place of a byte, where a character begins there.
fn place_at(text: &str, at: usize) -> Option<Place> {
    if text.len() < 1000 && text.is_char_boundary(at) {
        Some(place(text, at))
    } else {
        None
    }
}

/// The code of a source's fault, where it begins, and the line and column of that; nothing where there
/// is none.
fn fault_shown(alloc: Global, text: &str) -> Result<String, Fail> {
    let Some(fault) = fault_of(text) else {
        return Ok(String::new(alloc));
    };
    let Some(place) = place_at(text, fault.at) else {
        return Ok(String::new(alloc));
    };
    Ok(format!(in alloc;
        "{} {} {}:{}",
        fault.code, fault.at, place.line, place.column
    )?)
}

/// What a source says that is one string; nothing of another.
fn text_of_tokens(alloc: Global, text: &str) -> Result<String, Fail> {
    let mut lexer = Lexer::new(text);
    match lexer.next() {
        Ok(Some(token)) => match token.kind {
            TokenKind::Text => Ok(string_value(alloc, &token)?.into_string()),
            TokenKind::Block => Ok(string_value(alloc, &token)?.into_string()),
            _ => Ok(String::new(alloc)),
        },
        _ => Ok(String::new(alloc)),
    }
}

/// What stands before the last semicolon of a row, and what follows it.
fn parts(row: &str) -> (&str, &str) {
    row.rsplit_once(';').unwrap_or((row, ""))
}

/// A source and its tokens a row; rows end at `~`.
const TOKENS: &str = ";~\
    \u{FEFF} ,\t\r\n# a comment \u{7F} \u{E9}\r;~\
    !$&()...:=@[]{|};P! P$ P& P( P) P... P: P= P@ P[ P] P{ P| P} ~\
    query _q1($a: [Int!] = -12) {...F};Nquery N_q1 P( P$ Na P: P[ NInt P! P] P= I-12 P) P{ P... NF P} ~\
    f(s: \"a\\u00e9\\n\", t: \"\"\"b\"\"\") \"\";Nf P( Ns P: T\"a\\u00e9\\n\" Nt P: B\"\"\"b\"\"\" P) T\"\" ~\
    -0 0 -9223372036854775808;I-0 I0 I-9223372036854775808 ~\
    9223372036854775807,a;I9223372036854775807 Na ~\
    1 .;I1 1~\
    a1\u{E9};Na1 1~\
    1\u{E9};I1 1";

#[test]
fn tokens_of_documents(rt: HostRuntime) -> Result<(), Fail> {
    for row in TOKENS.split('~') {
        let (text, wanted) = parts(row);
        let list = list_places(rt.alloc(), text)?;
        assert_eq!(rt; list.as_str(), wanted);
    }
    Ok(())
}

/// A source and its fault a row; rows end at `~`.
const FAULTS: &str = "a\n ?;1 3 2:2~\
    ..;1 0 1:1~\
    \r\n#ab\u{1}\n;1 5 2:4~\
    a\u{FEFF}\u{E9};1 4 1:3~\
    { -a;2 2 1:3~\
    01;2 0 1:1~\
    1_;2 0 1:1~\
    9223372036854775808 1.5;2 0 1:1~\
    -9223372036854775809;2 0 1:1~\
    9223372036854775808.5;3 0 1:1~\
    1...;3 0 1:1~\
    \r1e5;3 1 2:1~\
    \"a;4 0 1:1~\
    \"a\n\";4 0 1:1~\
    \"\\a\";4 0 1:1~\
    \"\\u12g4\";4 0 1:1~\
    \"\"\"a\"\";4 0 1:1~\
    \"\"\"a\u{1}\"\"\";4 0 1:1~\
    \u{E9};1 0 1:1~\
    a \"\\uD800\\q\";5 2 1:3~\
    \"\\q\\uD800\";4 0 1:1";

#[test]
fn faults_and_their_places(rt: HostRuntime) -> Result<(), Fail> {
    for row in FAULTS.split('~') {
        let (text, wanted) = parts(row);
        let fault = fault_shown(rt.alloc(), text)?;
        assert_eq!(rt; fault.as_str(), wanted);
    }
    Ok(())
}

/// A string and what it says a row; rows end at `~`.
const STRINGS: &str = "\"\";~\
    \"\\\"\\\\\\/\\b\\f\\n\\r\\t\\u0041\\u20aC\u{E9}\";\"\\/\u{8}\u{C}\n\r\tA\u{20AC}\u{E9}~\
    \"\"\"\"\"\";~\
    \"\"\"\n    Hello,\n      World!\n\n    Yours,\n      GraphQL.\n  \"\"\";Hello,\n  World!\n\nYours,\n  GraphQL.~\
    \"\"\"  a\r\n\t\t\r b\\\"\"\"\n  c \\n\"\"\";  a\n\t\nb\"\"\"\n c \\n";

#[test]
fn values_of_strings(rt: HostRuntime) -> Result<(), Fail> {
    for row in STRINGS.split('~') {
        let (text, wanted) = parts(row);
        let value = text_of_tokens(rt.alloc(), text)?;
        assert_eq!(rt; value.as_str(), wanted);
    }
    Ok(())
}
