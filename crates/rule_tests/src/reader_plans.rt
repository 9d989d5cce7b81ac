//! Documents of a project, and the plans by which their operations and fragments are read.
//!
//! A row is the name of an operation, or of a fragment before `#`, the document, and the plan, with
//! ` => ` before it. A step is written as its response key, behind `#` where it is the type name. An
//! object has `*` if it is a list, the possible types with `!` behind those that have an id and `?`
//! behind all if the type is abstract, the key of its connection, and the plan below it. A guard has
//! its types, `-` and `+` for `@skip` and `@include`, and its steps. A pointer is written as the spread
//! of its fragment with its arguments, and has the plan of the fragment if that is `@inline`.
use crate::texts::file;
use plan_ir::{
    Arguments, Conn, Form, Guard, Ids, Name, ReaderPlan, ReaderStep, ReaderSteps, ValueTree,
};
use plan_project::{Project, compile};
use plan_read::reader_plan;
use std::alloc::Global;
use std::test::Fail;

const SCHEMA: &str = "interface Node{id:ID! next:Node} union Thing=User|Tag scalar Any
    type Query{me:User node(id:ID!):Node thing:Thing team(size:Int):[User] find(by:Any):Int}
    type User implements Node{id:ID! next:User name:String age:Int friends(first:Int,after:String):UserConnection}
    type Cat implements Node{id:ID! next:Node} type Tag{text:String}
    type UserConnection{edges:[UserEdge] pageInfo:PageInfo!} type UserEdge{cursor:String node:User}
    type PageInfo{hasNextPage:Boolean! hasPreviousPage:Boolean! startCursor:String endCursor:String}";

/// Writes types, with a mark behind those that are marked.
fn put_types(text: &mut String, types: &Ids, marked: &Ids) -> Result<(), Fail> {
    let mut begun = false;
    for name in types.as_slice() {
        if begun {
            text.push_str("|")?;
        }
        text.push_str(name.as_str())?;
        if marked.contains(name.as_str()) {
            text.push_str("!")?;
        }
        begun = true;
    }
    Ok(())
}

/// Writes what a guard asks for.
fn put_guard(text: &mut String, guard: &Guard) -> Result<(), Fail> {
    text.push_str("[")?;
    if let Some(types) = &guard.types {
        put_types(text, types, &Ids::new(*text.allocator()))?;
    }
    for condition in guard.conditions.as_slice() {
        text.push_str(if condition.skip { "-" } else { "+" })?;
    }
    text.push_str("]")?;
    Ok(())
}

/// Writes a variable, a number or null.
fn put_value(text: &mut String, value: &ValueTree) -> Result<(), Fail> {
    match value {
        ValueTree::Variable(name) => {
            text.push_str("$")?;
            Ok(text.push_str(name.as_str())?)
        }
        ValueTree::Int(number) => {
            let digits = format!(in *text.allocator(); "{number}")?;
            Ok(text.push_str(digits.as_str())?)
        }
        ValueTree::Null => Ok(text.push_str("null")?),
        _ => Ok(text.push_str("other")?),
    }
}

/// Writes an argument.
fn put_argument(text: &mut String, name: &Name, value: &ValueTree) -> Result<(), Fail> {
    text.push_str(name.as_str())?;
    text.push_str(":")?;
    put_value(text, value)
}

/// Writes arguments, where there are any.
fn put_arguments(text: &mut String, arguments: &Arguments) -> Result<(), Fail> {
    if arguments.is_empty() {
        return Ok(());
    }
    text.push_str("(")?;
    let mut begun = false;
    for argument in &arguments.items {
        if begun {
            text.push_str(",")?;
        }
        put_argument(text, &argument.name, &argument.value)?;
        begun = true;
    }
    Ok(text.push_str(")")?)
}

/// Writes the fragment of a pointer and its arguments.
fn put_spread(text: &mut String, fragment: &Name, arguments: &Arguments) -> Result<(), Fail> {
    text.push_str("...")?;
    text.push_str(fragment.as_str())?;
    put_arguments(text, arguments)
}

/// Writes the types of a field and the key of its connection.
fn put_object(
    text: &mut String,
    types: &Ids,
    identified: &Ids,
    open_type: bool,
    connection: &Option<Conn>,
) -> Result<(), Fail> {
    text.push_str("<")?;
    put_types(text, types, identified)?;
    text.push_str(if open_type { "?>" } else { ">" })?;
    if let Some(connection) = connection {
        text.push_str(connection.key.as_str())?;
    }
    Ok(())
}

/// Writes a plan.
#[cycle(plans)]
fn put_plan(text: &mut String, steps: &ReaderSteps) -> Result<(), Fail> {
    text.push_str("{")?;
    let mut begun = false;
    'steps: for step in steps.as_slice() {
        if begun {
            text.push_str(" ")?;
        }
        put_step(text, step)?;
        begun = true;
    }
    Ok(text.push_str("}")?)
}

/// Writes a step.
#[cycle(plans)]
fn put_step(text: &mut String, step: &ReaderStep) -> Result<(), Fail> {
    match step {
        ReaderStep::Typename { response } => {
            text.push_str("#")?;
            Ok(text.push_str(response.as_str())?)
        }
        ReaderStep::Leaf { response, .. } => Ok(text.push_str(response.as_str())?),
        ReaderStep::Object {
            response,
            many,
            types,
            identified,
            open_type,
            connection,
            child,
            ..
        } => {
            text.push_str(response.as_str())?;
            text.push_str(if *many { "*" } else { "" })?;
            put_object(text, types, identified, *open_type, connection)?;
            put_plan(text, &child.steps)
        }
        ReaderStep::Guarded { guard, child } => {
            put_guard(text, guard)?;
            put_plan(text, &child.steps)
        }
        ReaderStep::Pointer {
            fragment,
            arguments,
            inline: None,
        } => put_spread(text, fragment, arguments),
        ReaderStep::Pointer {
            fragment,
            arguments,
            inline: Some(child),
        } => {
            put_spread(text, fragment, arguments)?;
            put_plan(text, &child.steps)
        }
    }
}

/// The plan of the operation of a name; None where the project has none.
fn operation_plan(
    alloc: Global,
    project: &Project,
    name: &Name,
) -> Result<Option<ReaderPlan>, Fail> {
    if project.operation(name.as_str()).is_none() {
        return Ok(None);
    }
    let plan = reader_plan(
        alloc,
        project.schema(),
        project.documents(),
        name,
        Form::Operation,
    )?;
    Ok(Some(plan))
}

/// The plan of the fragment of a name; None where the project has none.
fn fragment_plan(
    alloc: Global,
    project: &Project,
    name: &Name,
) -> Result<Option<ReaderPlan>, Fail> {
    project.is_accepted();
    if project.fragment(name.as_str()).is_none() {
        return Ok(None);
    }
    let plan = reader_plan(
        alloc,
        project.schema(),
        project.documents(),
        name,
        Form::Fragment,
    )?;
    Ok(Some(plan))
}

/// The plan of what a row names; None where the project has none.
fn named_plan(alloc: Global, project: &Project, name: &str) -> Result<Option<ReaderPlan>, Fail> {
    match name.split_once('#') {
        Some((fragment, _)) => fragment_plan(alloc, project, &Name::new(alloc, fragment)?),
        None => operation_plan(alloc, project, &Name::new(alloc, name)?),
    }
}

/// The plan of what a row names in a project, as a text; `none` where the project has none.
fn text_in(alloc: Global, project: &Project, name: &str) -> Result<String, Fail> {
    let mut text = String::new(alloc);
    match named_plan(alloc, project, name)? {
        Some(plan) => put_plan(&mut text, &plan.steps)?,
        None => text.push_str("none")?,
    }
    Ok(text)
}

/// The plan of what a row names in a document.
fn plan_text(alloc: Global, name: &str, document: &str) -> Result<String, Fail> {
    let files = [
        file(alloc, "s.graphql", SCHEMA)?,
        file(alloc, "d.graphql", document)?,
    ];
    match compile(alloc, &files) {
        Ok(project) => text_in(alloc, &project, name),
        Err(_) => Ok(format!(in alloc; "no project")?),
    }
}

/// The rows whose plans are others, each with its plan; nothing where all are as they should be.
fn wrong_rows(alloc: Global, rows: &str) -> Result<String, Fail> {
    let mut wrong = String::new(alloc);
    for row in rows.lines() {
        let (asked, wanted) = row.trim().split_once(" => ").unwrap_or(("", ""));
        let (name, document) = asked.split_once(' ').unwrap_or(("", ""));
        let got = plan_text(alloc, name, document)?;
        if got.as_str() != wanted {
            wrong.push_str(got.as_str())?;
            wrong.push_str("\n")?;
        }
    }
    Ok(wrong)
}

/// Leaves, objects, lists and connections, of which nothing stands there but what is written.
#[test]
fn operations_are_read_by_what_is_written(rt: HostRuntime) -> Result<(), Fail> {
    let rows = "Q query Q{me{name}} => {me<User!>{name}}
        Q query Q{x:__typename me{a:age}} => {#x me<User!>{a}}
        Q query Q{team(size:2){name}find(by:1)} => {team*<User!>{name} find}
        Q query Q{node(id:4){id}} => {node<Cat!|User!?>{id}}
        Q query Q{me{friends(first:1)@connection(key:\"Q_friends\"){edges{node{name}}}}} => {me<User!>{friends<UserConnection>Q_friends{edges*<UserEdge>{node<User!>{name}}}}}
        Q query Q($v:Boolean!){me{name@include(if:$v) a:age@skip(if:$v)@include(if:true)}} => {me<User!>{[+]{name} [-+]{a}}}
        R query Q{me{name}} => none";
    assert_eq!(rt; wrong_rows(rt.alloc(), rows)?.as_str(), "");
    Ok(())
}

/// A type condition is a guard where some type around is not of it, and goes where no type is.
#[test]
fn type_conditions_are_guards(rt: HostRuntime) -> Result<(), Fail> {
    let rows =
        "Q query Q{thing{...on Tag{text}...on User{name}}} => {thing<Tag|User!?>{[Tag]{text} [User]{name}}}
        Q query Q{me{...on Node{id}}} => {me<User!>{id}}
        Q query Q{node(id:4){...on User{...on Node{...on Cat{id}}}}} => {node<Cat!|User!?>{[User]{}}}
        Q query Q($v:Boolean!){thing{...on Tag@skip(if:$v){text}}} => {thing<Tag|User!?>{[Tag-]{text}}}
        Q query Q{node(id:4){next{id}}} => {node<Cat!|User!?>{[Cat]{next<Cat!|User!?>{id}} [User]{next<User!>{id}}}}
        Q query Q{node(id:4){next{...on Cat{id}}}} => {node<Cat!|User!?>{[Cat]{next<Cat!|User!?>{[Cat]{id}}} [User]{next<User!>{[Cat]{id}}}}}";
    assert_eq!(rt; wrong_rows(rt.alloc(), rows)?.as_str(), "");
    Ok(())
}

/// A spread is a pointer, but one that is not masked gives the steps of its fragment.
#[test]
fn spreads_are_pointers(rt: HostRuntime) -> Result<(), Fail> {
    let rows = "Q query Q{me{...F name}}fragment F on User{age} => {me<User!>{...F name}}
        Q query Q{thing{...T}}fragment T on Tag{text} => {thing<Tag|User!?>{[Tag]{...T}}}
        Q query Q{me{...N}}fragment N on Node{id} => {me<User!>{...N}}
        Q query Q($v:Boolean!){me{...F@skip(if:$v)}}fragment F on User{age} => {me<User!>{[-]{...F}}}
        Q query Q{me{...F@relay(mask:false)name}}fragment F on User{age} => {me<User!>{age name}}
        Q query Q{me{...J}}fragment J on User@inline{age ...F}fragment F on User{name} => {me<User!>{...J{age ...F}}}
        T# fragment T on Thing{...on Tag{text}} => {[Tag]{text}}
        Q# fragment T on Thing{...on Tag{text}} => none";
    assert_eq!(rt; wrong_rows(rt.alloc(), rows)?.as_str(), "");
    Ok(())
}

/// A pointer has the value of each local variable. In the plan of a fragment its own ones are marked;
/// where it is entered they give way to their values.
#[test]
fn pointers_have_arguments(rt: HostRuntime) -> Result<(), Fail> {
    let rows =
        "Q query Q($v:Int){me{...F@arguments(a:$v)}}fragment F on User@argumentDefinitions(a:{type:\"Int\"},b:{type:\"Int\",defaultValue:1},c:{type:\"Int\"}){age} => {me<User!>{...F(a:$v,b:1,c:null)}}
        F# fragment F on User@argumentDefinitions(a:{type:\"Int\"}){...G@arguments(b:$a)}fragment G on User@argumentDefinitions(b:{type:\"Int\"}){age} => {...G(b:$:a)}
        Q query Q{me{...F@relay(mask:false)@arguments(a:7)}}fragment F on User@argumentDefinitions(a:{type:\"Int\"}){...G@arguments(b:$a)}fragment G on User@argumentDefinitions(b:{type:\"Int\"}){age} => {me<User!>{...G(b:7)}}
        Q query Q{me{...J@arguments(a:2)}}fragment J on User@inline@argumentDefinitions(a:{type:\"Int\",defaultValue:1}){...G@arguments(b:$a)}fragment G on User@argumentDefinitions(b:{type:\"Int\"}){age} => {me<User!>{...J(a:2){...G(b:2)}}}";
    assert_eq!(rt; wrong_rows(rt.alloc(), rows)?.as_str(), "");
    Ok(())
}
