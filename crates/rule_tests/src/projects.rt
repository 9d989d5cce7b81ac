//! Projects of a schema and two documents. What is wanted is worked out by hand; the rules stand in
//! `docs/LANGUAGE.md`.
use crate::texts::{file, text_of_fault};
use plan_ir::{Definition, Document, Name, Placed};
use plan_project::{Artifacts, CompileFault, Project, ProjectFile, compile};
use std::alloc::Global;
use std::test::Fail;

/// The number of the file and the name of the first fragment of a document.
fn first_fragment(alloc: Global, document: &Placed<Document>) -> Result<String, Fail> {
    let file = match document.places.as_slice().first() {
        Some(place) => place.file,
        None => 0,
    };
    let name = match document.tree.definitions.as_slice().first() {
        Some(Definition::Fragment(fragment)) => fragment.name.as_str(),
        _ => "",
    };
    Ok(format!(in alloc; "{file} {name} ")?)
}

/// The documents of a project in their order.
fn documents_in(alloc: Global, project: &Project) -> Result<String, Fail> {
    let mut all = String::new(alloc);
    for document in project.documents().as_slice() {
        all.push_str(first_fragment(alloc, document)?.as_str())?;
    }
    Ok(all)
}

/// The documents of the project that these texts are; else the rule, the file, the line and the
/// column of their first fault.
fn verdict(alloc: Global, schema: &str, first: &str, second: &str) -> Result<String, Fail> {
    let files = [
        file(alloc, "s.graphql", schema)?,
        file(alloc, "d.graphql", first)?,
        file(alloc, "e.graphql", second)?,
    ];
    match compile(alloc, &files) {
        Ok(project) => documents_in(alloc, &project),
        Err(CompileFault::Refused(fault)) => text_of_fault(alloc, &fault),
        Err(CompileFault::NoMemory) => Ok(format!(in alloc; "no memory")?),
    }
}

/// What is kept of the operation of a name; nothing where there is none.
fn operation(alloc: Global, project: &Project, name: &str) -> Result<String, Fail> {
    let Some(found) = project.operation(name) else {
        return Ok(String::new(alloc));
    };
    let mut text = format!(in alloc;
        "{} {:?} {} {}",
        found.name.as_str(),
        found.kind,
        found.root.as_str(),
        found.variables.len()
    )?;
    for object in found.types.as_slice() {
        text.push_str(" ")?;
        text.push_str(object.as_str())?;
    }
    Ok(text)
}

/// What is kept of the fragment of a name; nothing where there is none.
fn fragment(alloc: Global, project: &Project, name: &str) -> Result<String, Fail> {
    let Some(found) = project.fragment(name) else {
        return Ok(String::new(alloc));
    };
    let mut text = format!(in alloc; "{} {}", found.name.as_str(), found.on.as_str())?;
    for local in found.locals.as_slice() {
        text.push_str(" $")?;
        text.push_str(local.name.as_str())?;
        text.push_str(if local.default.is_some() { "=" } else { "" })?;
    }
    for object in found.types.as_slice() {
        text.push_str(" ")?;
        text.push_str(object.as_str())?;
    }
    Ok(text)
}

/// The operation and the fragment of a name, between `/`, in the project that these texts are.
fn look_up(alloc: Global, first: &str, second: &str, name: &str) -> Result<String, Fail> {
    let files = [
        file(alloc, "s.graphql", SCHEMA)?,
        file(alloc, "d.graphql", first)?,
        file(alloc, "e.graphql", second)?,
    ];
    match compile(alloc, &files) {
        Ok(project) => {
            let operation = operation(alloc, &project, name)?;
            let fragment = fragment(alloc, &project, name)?;
            Ok(format!(in alloc; "{}/{}", operation.as_str(), fragment.as_str())?)
        }
        Err(_) => Ok(format!(in alloc; "no project")?),
    }
}

/// The text of the operation of a name; nothing where there is none.
fn text_of(alloc: Global, project: &Project, name: &str) -> Result<String, Fail> {
    let artifacts = Artifacts::of(alloc, project)?;
    let name = Name::new(alloc, name)?;
    match artifacts.text(alloc, &name)? {
        Some(text) => Ok(format!(in alloc; "{}", text.as_str())?),
        None => Ok(String::new(alloc)),
    }
}

/// The text of the operation of a name in the project that these texts are.
fn text_among(alloc: Global, first: &str, second: &str, name: &str) -> Result<String, Fail> {
    let files = [
        file(alloc, "s.graphql", SCHEMA)?,
        file(alloc, "d.graphql", first)?,
        file(alloc, "e.graphql", second)?,
    ];
    match compile(alloc, &files) {
        Ok(project) => text_of(alloc, &project, name),
        Err(_) => Ok(format!(in alloc; "no project")?),
    }
}

/// What stands before a semicolon, and what follows it.
fn parts(row: &str) -> (&str, &str) {
    row.split_once(';').unwrap_or((row, ""))
}

const SCHEMA: &str = "type Query{me:User pick(of:Int!):Int rate:Float any:Any}\
    interface Named{name:String}type User implements Named{name:String}type Cat{name:String}\
    union Any=User|Cat type Subscription{on:Int off:Int}";

#[test]
fn accepted_documents_are_kept_in_order(rt: HostRuntime) -> Result<(), Fail> {
    let alloc = rt.alloc();
    let first = "fragment B on Named{name ...on User{name}}";
    let second = "fragment A on User{...B} query Q($of:Int!){pick(of:$of)me@skip(if:false){...A}}";
    assert_eq!(rt; verdict(alloc, SCHEMA, first, second)?.as_str(), "1 B 2 A ");
    assert_eq!(rt;
        file(alloc, "s.graphql", SCHEMA)?.name().as_str(),
        "s.graphql"
    );
    Ok(())
}

/// A name, and what is found of it, a row: an operation with the number of its variables and its type,
/// and a fragment with its local variables, with `=` those that have a default, and its types.
const FOUND: &str = "Q;Q Query Query 2 Query/\n\
    A;A Subscription Subscription 0 Subscription/A Named User\n\
    B;/B Any $x $y= Cat User\n\
    User;/\n\
    C;/";

#[test]
fn operations_and_fragments_are_found(rt: HostRuntime) -> Result<(), Fail> {
    let alloc = rt.alloc();
    let first =
        "fragment B on Any@argumentDefinitions(x:{type:\"Int\"},y:{type:\"Int\",defaultValue:1}){...A}";
    let second = "query Q($of:Int!,$no:Int){pick(of:$of)any{...B}}fragment A on Named{name} \
        subscription A{on}";
    for row in FOUND.lines() {
        let (name, wanted) = parts(row);
        assert_eq!(rt;
            look_up(alloc, first, second, name)?.as_str(),
            wanted,
            "at {row}"
        );
    }
    Ok(())
}

/// Two documents a row. The second breaks the rule that is told, and the first a later one; in the
/// two last rows both break the same. `\r` ends a line.
const DOCUMENTS: &str =
    "V1 2 1 19;fragment F on User{name}fragment F on User{name};query A{me{name}} {me{name}}\n\
    V2 2 1 10;fragment F on Int{name};fragment F on User{name}\n\
    V3 2 2 2;query A{me{...G}};fragment F on\r Int{name}\n\
    V4 2 1 15;fragment F on User{...F};query A{me{...G}}\n\
    V5 2 1 23;mutation M{me{name}};fragment F on User{...H}fragment H on User{...F}\n\
    V6 2 1 10;query A{nope};mutation M{nope}\n\
    V7 2 2 1;query A{me};query B{me{name\rnope}}\n\
    V8 2 1 9;query A{rate};query B{me}\n\
    V9 2 1 17;query A{me{...on Cat{name}}};query B{me{name}rate}\n\
    V10 2 1 12;subscription S{on off};query A{me{...on Cat{name}}}\n\
    V11 2 1 14;query A{me(x:1){name}};subscription S{on off}\n\
    V12 2 1 12;query A{pick};query B{me(x:1){name}}\n\
    V13 2 1 9;query A{pick(of:\"a\")};query B{pick}\n\
    V14 2 1 17;query A{me@nope{name}};query B{pick(of:\"a\")}\n\
    V15 2 1 12;query A{pick(of:$x)};query B{me@nope{name}}\n\
    V16 1 3 18;query A{me{name}}\r\rquery B{pick(of:$x)};query C{pick(of:$x)}\n\
    V7 1 3 10;query A{me{name}}\r\r query B{nope};query C{nope}query D{nope}";

#[test]
fn the_first_rule_counts_before_the_first_place(rt: HostRuntime) -> Result<(), Fail> {
    let alloc = rt.alloc();
    for row in DOCUMENTS.lines() {
        let (wanted, documents) = parts(row);
        let (first, second) = parts(documents);
        assert_eq!(rt;
            verdict(alloc, SCHEMA, first, second)?.as_str(),
            wanted,
            "at {row}"
        );
    }
    Ok(())
}

/// A schema and two documents a row: faults of texts in the order of the files, then rules of
/// schemas in their order, then those of documents.
const PROJECTS: &str = "L6 0 1 24;type Query{me:Uzer}type;query Q{;{\n\
    L1 0 2 1;type Query{me:Int}\r?;query Q{me};query Q{me}\n\
    L2 1 2 15;type Query{me:Uzer};query Q{me}\rquery R{me(of:01)};?\n\
    L3 2 1 15;type Query{me:Uzer};query Q{me};query R{me(of:1.5)}\n\
    L4 1 1 15;type Query{me:Uzer};query Q{me(of:\"x)};query Q{me}\n\
    L5 1 1 15;type Query{me:Uzer};query Q{me(of:\"\\uD800\")};query Q{me}\n\
    L6 2 1 12;type Query{me:Uzer};query Q{me};query Q{me}}\n\
    S1 0 1 25;type Query{me:Uzer}type Query{ok:Int};{me};{me}\n\
    S2 0 1 23;type Query{__a:Int me:Uzer};{me};{me}\n\
    S12 0 1 17;type Query{me:[[Query]]};{me};{nope}";

#[test]
fn texts_count_before_the_schema_and_the_schema_before_documents(
    rt: HostRuntime,
) -> Result<(), Fail> {
    let alloc = rt.alloc();
    for row in PROJECTS.lines() {
        let (wanted, files) = parts(row);
        let (schema, documents) = parts(files);
        let (first, second) = parts(documents);
        assert_eq!(rt;
            verdict(alloc, schema, first, second)?.as_str(),
            wanted,
            "at {row}"
        );
    }
    Ok(())
}

/// The document of this number: a query, and a fragment that the next document may spread.
fn numbered_file(alloc: Global, number: usize) -> Result<ProjectFile, Fail> {
    let text = format!(in alloc;
        "query Q{number}{{me{{...F{number}}}}}fragment F{number} on User{{name}}"
    )?;
    file(alloc, "numbered.graphql", text.as_str())
}

/// A schema, so many documents by their numbers, and one more.
fn many(alloc: Global, count: usize, last: &str) -> Result<Vec<ProjectFile>, Fail> {
    let mut files = Vec::new(alloc);
    files.push(file(alloc, "s.graphql", SCHEMA)?)?;
    for number in 0..count {
        files.push(numbered_file(alloc, number)?)?;
    }
    files.push(file(alloc, "last.graphql", last)?)?;
    Ok(files)
}

/// How many documents the project of these files has; else the rule, the file, the line and the
/// column of their first fault.
fn count_files(alloc: Global, files: &[ProjectFile]) -> Result<String, Fail> {
    if files.len() < 2 || files.len() > 10_000 {
        return Ok(format!(in alloc; "no project")?);
    }
    match compile(alloc, files) {
        Ok(project) => Ok(format!(in alloc; "{}", project.documents().as_slice().len())?),
        Err(CompileFault::Refused(fault)) => text_of_fault(alloc, &fault),
        Err(CompileFault::NoMemory) => Ok(format!(in alloc; "no memory")?),
    }
}

#[test]
fn a_thousand_documents_are_one_project(rt: HostRuntime) -> Result<(), Fail> {
    let alloc = rt.alloc();
    let files = many(alloc, 999, "query Last{me{...F0 ...F998}}")?;
    assert_eq!(rt; count_files(alloc, &files)?.as_str(), "1000");
    let files = many(alloc, 999, "query Q500{me{name}}")?;
    assert_eq!(rt; count_files(alloc, &files)?.as_str(), "V1 1000 1 7");
    let files = many(alloc, 999, "fragment F998 on User{...F999}")?;
    assert_eq!(rt; count_files(alloc, &files)?.as_str(), "V2 1000 1 10");
    Ok(())
}

/// A fragment has no text, and no operation has the last name.
#[test]
fn texts_are_found_by_name(rt: HostRuntime) -> Result<(), Fail> {
    let alloc = rt.alloc();
    let first = "query Q($of:Int!){me{...A}pick(of:$of)}";
    let second = "fragment A on User{name}query R{any{...on Cat{x:name}}}";
    assert_eq!(rt;
        text_among(alloc, first, second, "Q")?.as_str(),
        "query Q($of:Int!){me{...on User{name}} pick(of:$of)}"
    );
    assert_eq!(rt;
        text_among(alloc, first, second, "R")?.as_str(),
        "query R{any{...on Cat{x:name} __typename}}"
    );
    assert_eq!(rt; text_among(alloc, first, second, "A")?.as_str(), "");
    assert_eq!(rt; text_among(alloc, first, second, "S")?.as_str(), "");
    Ok(())
}
