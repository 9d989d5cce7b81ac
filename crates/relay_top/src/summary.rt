//! The summary of what is written for the large script.
ghost use Rattle.std.specs.Prelude.{◌≡◌, ◌≤◌, ◌<◌, ◌+◌, ◌-◌, ◌*◌, ◌^◌, ◌∷◌, [], ℕ, List, cond, length, IfOk};
ghost use Rattle.bulk_laws.specs.BulkProject.{bulk_project};
ghost use Rattle.relay_engine.specs.Stands.{StandsFor};
ghost use Rattle.relay_forms.specs.relay_io.Causes.{Rose};
ghost use Rattle.relay_forms.specs.relay_machine.Bulk as model;
ghost use Rattle.relay_forms.specs.relay_machine.Machine as machine;
ghost use Rattle.relay_forms.specs.relay_machine.Printed.{summary_line};
ghost use Rattle.relay_forms.specs.Projects.{project_shown};
ghost use Rattle.relay_forms.specs.Words.{max_lines};
ghost use Rattle.relay_top.specs.Answers.{AnsweringBulk, Wrote};

use plan_ir::{Counts, NoMemory, Words};
use relay_engine::{Engine, Versions, summary_line};
use relay_forms::{
    Bulk, CompileFault, Project, ProjectFile, Sink, Status, Stop, bytes_of, compile, put_line,
};
use std::alloc::Global;

const SCHEMA: &str = "type Query{me:User} type User{id:ID! age:Int friend:User}";

const DOCUMENT: &str = "query B{me{age friend{age}}}";

/// How many released operations are kept.
const BUFFER: u64 = 10;

/// What is written for some lines: its bytes and its lines; and how many of the lines are refused.
#[derive(Clone, Copy, Debug)]
struct Tally {
    bytes: u64,
    lines: u64,
    refused: u64,
}

/// Runs the first `count` lines of the script of a seed against its project, and puts the summary as
/// one piece.
pub fn put_summary<K: Sink>(
    alloc: Global,
    seed: u64,
    count: u64,
    out: &mut K,
    steps: &mut Counts,
) -> Status
    requires { count ≤ max_lines }
    ensures answers { AnsweringBulk result (Rose (K.faults out.old) (K.faults out.new)) }
    ensures wrote { Wrote (model.bulk_summary bulk_project seed count) result (K.contents out.old) (K.contents out.new) (K.calls out.old) (K.calls out.new) }
{
    let Ok(project) = bulk_project(alloc) else {
        return Status::NoMemory;
    };
    match tally_script(alloc, project, seed, count, steps) {
        Ok(tally) => put_tally(alloc, count, tally, out),
        Err(NoMemory) => Status::NoMemory,
    }
}

/// The project that the script is run against. It is accepted.
fn bulk_project(alloc: Global) -> Result<Project, NoMemory>
    ensures { IfOk result (λ p. project_shown p ≡ bulk_project) }
{
    let files = bulk_files(alloc)?;
    match compile(alloc, &files) {
        Ok(project) => Ok(project),
        Err(CompileFault::Refused(_)) => unreachable!(),
        Err(CompileFault::NoMemory) => Err(NoMemory),
    }
}

/// The files of the project.
fn bulk_files(alloc: Global) -> Result<Vec<ProjectFile>, NoMemory>
    ensures { IfOk result (λ files. (schema : List ℕ) × (document : List ℕ) × (files.items ≡ (schema, model.bulk_schema) ∷ (document, model.bulk_document) ∷ [])) }
{
    let mut files = Vec::new(alloc);
    files.push(file_of(alloc, "schema", SCHEMA)?)?;
    files.push(file_of(alloc, "document", DOCUMENT)?)?;
    Ok(files)
}

/// The file of a name that holds a text.
fn file_of(alloc: Global, name: &str, text: &str) -> Result<ProjectFile, NoMemory>
    requires { length text.now < 2 ^ 32 - 1 }
    ensures { IfOk result (λ file. file ≡ (name.now, text.now)) }
{
    let name = Words::new(alloc, name)?;
    let bytes = text.as_bytes().to_vec(alloc)?;
    Ok(ProjectFile::new(name, bytes))
}

/// What is written for the first `count` lines of the script of a seed.
fn tally_script(
    alloc: Global,
    project: Project,
    seed: u64,
    count: u64,
    steps: &mut Counts,
) -> Result<Tally, NoMemory>
    requires { count ≤ max_lines }
    ensures bytes { IfOk result (λ tally. tally.bytes ≡ length (model.bulk_output (project_shown project) seed count)) }
    ensures lines { IfOk result (λ tally. tally.lines ≡ model.line_count (model.bulk_output (project_shown project) seed count)) }
    ensures refused { IfOk result (λ tally. tally.refused ≡ model.bulk_refusals (project_shown project) seed count) }
{
    let mut engine = Engine::new(alloc, project, BUFFER, Versions::new(alloc))?;
    let mut script = Bulk::new(seed);
    let mut tally = Tally {
        bytes: 0,
        lines: 0,
        refused: 0,
    };
    'lines: for n in 0..count {
        let line = script.line(alloc)?;
        tally = tally_line(alloc, &mut engine, &line, n + 1, tally, steps)?;
    }
    Ok(tally)
}

/// Answers the line with the number `n`, and adds what is written for it.
fn tally_line(
    alloc: Global,
    engine: &mut Engine<Versions>,
    line: &[u8],
    n: u64,
    tally: Tally,
    steps: &mut Counts,
) -> Result<Tally, NoMemory>
    requires { n < 2 ^ 63 }
    ensures { IfOk result (λ sum. (p : machine.Project) (buffer : ℕ) (s : machine.State) → engine.old.buffer ≡ buffer → StandsFor engine.old p s
        → let step = machine.step p buffer s n line.now in
        (engine.new.buffer ≡ buffer) × StandsFor engine.new p step.state
        × (sum.bytes ≡ tally.bytes + length step.text) × (sum.lines ≡ tally.lines + model.line_count step.text)
        × (sum.refused ≡ tally.refused + cond step.refused 1 0)) }
{
    let lines = engine.step(line, n, steps)?;
    let written = bytes_of(alloc, &lines.texts)?;
    let bytes = sum(tally.bytes, written.len() as u64)?;
    let ended = sum(tally.lines, line_count(&written))?;
    let refused = sum(tally.refused, lines.refused as u64)?;
    Ok(Tally {
        bytes,
        lines: ended,
        refused,
    })
}

/// How many lines a text has, each of which LF ends.
fn line_count(text: &[u8]) -> u64
    ensures { result ≡ model.line_count text.now }
{
    text.iter().filter(|byte| **byte == b'\n').count() as u64
}

/// The sum of two counts. `NoMemory` where a count has no room for it.
fn sum(one: u64, other: u64) -> Result<u64, NoMemory>
    ensures { IfOk result (λ sum. sum ≡ one + other) }
{
    match one.checked_add(other) {
        Some(sum) => Ok(sum),
        None => Err(NoMemory),
    }
}

/// Puts the summary of so many lines.
fn put_tally<K: Sink>(alloc: Global, count: u64, tally: Tally, out: &mut K) -> Status
    ensures answers { AnsweringBulk result (Rose (K.faults out.old) (K.faults out.new)) }
    ensures wrote { Wrote (summary_line tally.bytes count (tally.lines - count) tally.refused) result (K.contents out.old) (K.contents out.new) (K.calls out.old) (K.calls out.new) }
{
    let notices = tally.lines.saturating_sub(count);
    let Ok(line) = summary_line(alloc, tally.bytes, count, notices, tally.refused) else {
        return Status::NoMemory;
    };
    match put_line(line, out) {
        Ok(()) => Status::Done,
        Err(Stop::WriteFault) => Status::WriteFault,
        Err(Stop::NoMemory) => Status::NoMemory,
    }
}
