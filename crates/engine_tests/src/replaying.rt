//! Transcripts: the events of a script, a line each behind `> `, and below each what it is answered.
ghost use Rattle.std.specs.Prelude.{◌<◌, length};

use plan_ir::{Counts, Words};
use plan_project::{CompileFault, Project, ProjectFile, compile};
use relay_engine::{Engine, Flat, Lines, RecordSource, Versions};
use std::alloc::Global;
use std::test::Fail;

const SCHEMA: &str = "interface Node { id: ID! }
type Query { me: User  node(id: ID!): Node  team(size: Int): [User] }
type Mutation { rename(name: String!): User }
type User implements Node {
  id: ID!  name: String  age: Int  friend: User  address: Address
  tags: [Tag]
  friends(first: Int, after: String, last: Int, before: String): UserConnection
}
type Address { city: String }
type Tag { text: String }
type UserConnection { edges: [UserEdge]  pageInfo: PageInfo! }
type UserEdge { cursor: String  node: User }
type PageInfo { hasNextPage: Boolean!  hasPreviousPage: Boolean!
  startCursor: String  endCursor: String }
";

/// How many released operations an engine keeps.
const BUFFER: u64 = 2;

/// The bytes, or none where they are too many for a test.
fn short(bytes: &[u8]) -> &[u8]
    ensures { length result.now < 2000000 }
{
    if bytes.len() < 2_000_000 {
        return bytes;
    }
    &[]
}

/// A file of this name that holds this text.
fn file(alloc: Global, name: &str, text: &str) -> Result<ProjectFile, Fail> {
    let bytes = short(text.as_bytes()).to_vec(alloc)?;
    Ok(ProjectFile::new(Words::new(alloc, name)?, bytes))
}

/// The project of a document.
fn project(alloc: Global, document: &str) -> Result<Project, Fail> {
    let files = [
        file(alloc, "s.graphql", SCHEMA)?,
        file(alloc, "d.graphql", document)?,
    ];
    Ok(compile(alloc, &files)?)
}

/// Puts what a line gives, a text a line.
pub(crate) fn put_lines(text: &mut String, lines: &Lines) -> Result<(), Fail> {
    for line in &lines.texts {
        text.push_str(line.as_str())?;
        text.push_str("\n")?;
    }
    Ok(())
}

/// Puts an event of a transcript, and below it what an engine answers as line `n`.
fn put_event<S: RecordSource>(
    text: &mut String,
    engine: &mut Engine<S>,
    event: &str,
    n: u32,
    steps: &mut S::Count,
) -> Result<(), Fail> {
    text.push_str("> ")?;
    text.push_str(event)?;
    text.push_str("\n")?;
    let lines = engine.step(event.as_bytes(), n as u64, steps)?;
    put_lines(text, &lines)
}

/// The events of a transcript with what an engine answers them behind its first `before` lines.
fn replay<S: RecordSource>(
    alloc: Global,
    engine: &mut Engine<S>,
    before: u32,
    transcript: &str,
    steps: &mut S::Count,
) -> Result<String, Fail> {
    let mut text = String::new(alloc);
    let mut n = before;
    for line in transcript.lines() {
        if let Some(event) = line.strip_prefix("> ") {
            n = n.saturating_add(1);
            put_event(&mut text, engine, event, n, steps)?;
        }
    }
    Ok(text)
}

/// An engine of a document.
pub(crate) fn begun(alloc: Global, document: &str) -> Result<Engine<Versions>, Fail> {
    let project = project(alloc, document)?;
    Ok(Engine::new(alloc, project, BUFFER, Versions::new(alloc))?)
}

/// The events of a transcript with what an engine of a document answers them: the transcript, where
/// all answers are as they should be.
pub(crate) fn replayed(alloc: Global, document: &str, transcript: &str) -> Result<String, Fail> {
    let mut engine = begun(alloc, document)?;
    replay(alloc, &mut engine, 0, transcript, &mut Counts::new())
}

/// As `replayed`, with records that are copied at each change.
pub(crate) fn replayed_flat(
    alloc: Global,
    document: &str,
    transcript: &str,
) -> Result<String, Fail> {
    let project = project(alloc, document)?;
    let mut engine = Engine::new(alloc, project, BUFFER, Flat::new(alloc)?)?;
    replay(alloc, &mut engine, 0, transcript, &mut Counts::new())
}

/// What an engine of a document answers to its first line.
pub(crate) fn answered(alloc: Global, document: &str, line: &[u8]) -> Result<String, Fail> {
    let mut engine = begun(alloc, document)?;
    let mut text = String::new(alloc);
    put_lines(&mut text, &engine.step(line, 1, &mut Counts::new())?)?;
    Ok(text)
}

/// Gives an engine the line `n`, an event with the number in it, and drops the answer.
fn step_numbered<S: RecordSource>(
    alloc: Global,
    engine: &mut Engine<S>,
    event: (&str, &str),
    n: u32,
    steps: &mut S::Count,
) -> Result<(), Fail> {
    let line = format!(in alloc; "{}{n}{}", event.0, event.1)?;
    drop(engine.step(line.as_bytes(), n as u64, steps)?);
    Ok(())
}

/// The events of a transcript with what an engine of a document answers them behind `count` lines. The
/// first of these is an event, and each further one stands between the parts of another with the number
/// of its line.
pub(crate) fn replayed_behind(
    alloc: Global,
    document: &str,
    first: &str,
    other: (&str, &str),
    count: u32,
    transcript: &str,
) -> Result<String, Fail> {
    let mut engine = begun(alloc, document)?;
    let mut steps = Counts::new();
    drop(engine.step(first.as_bytes(), 1, &mut steps)?);
    for n in 2..=count {
        step_numbered(alloc, &mut engine, other, n, &mut steps)?;
    }
    replay(alloc, &mut engine, count, transcript, &mut steps)
}
