//! The artifacts of a project: a line for each of its operations and fragments.
ghost use Rattle.std.specs.Prelude.{◌≡◌, ◌⊎◌, ◌≤◌, ◌+◌, ◌++◌, [], ℕ, List, length, take, get_or, IfOk, IfErr};
ghost use Rattle.plan_project.specs.Expansions.{line_lists};
ghost use Rattle.relay_io.specs.Causes.{Rose};
ghost use Rattle.relay_io.specs.Streams.{append};
ghost use Rattle.relay_forms.specs.Artifacts.{EndsLine, artifacts_text, text_of_lines};

use crate::put::{Stop, put_line};
use crate::status::Status;
use plan_ir::NoMemory;
use plan_project::{Artifacts, Project};
use relay_io::Sink;
use std::alloc::Global;

/// Puts the artifact lines of a project one after the other, each as one piece.
pub fn put_artifacts<K: Sink>(alloc: Global, project: &Project, out: &mut K) -> Status
    ensures added { (added : List ℕ) × (K.contents out.new ≡ append (K.contents out.old) added)
        × (K.calls out.new ≤ K.calls out.old + length added + 1)
        × ((result ≡ Status.WriteFault) ⊎ EndsLine added)
        × (more : List ℕ) × (added ++ more ≡ artifacts_text project.now.0 project.now.1) × (result ≡ Status.Done → more ≡ []) }
    ensures form { (result ≡ Status.Done) ⊎ (((result ≡ Status.WriteFault) × Rose (K.faults out.old) (K.faults out.new)) ⊎ (result ≡ Status.NoMemory)) }
{
    match Artifacts::of(alloc, project) {
        Ok(artifacts) => put_each(alloc, &artifacts, out),
        Err(NoMemory) => Status::NoMemory,
    }
}

/// Puts these artifact lines.
fn put_each<K: Sink>(alloc: Global, artifacts: &Artifacts<'_>, out: &mut K) -> Status
    ensures added { (added : List ℕ) × (K.contents out.new ≡ append (K.contents out.old) added)
        × (K.calls out.new ≤ K.calls out.old + length added + 1)
        × ((result ≡ Status.WriteFault) ⊎ EndsLine added)
        × (more : List ℕ) × (added ++ more ≡ artifacts_text artifacts.now.project.now.0 artifacts.now.project.now.1) × (result ≡ Status.Done → more ≡ []) }
    ensures form { (result ≡ Status.Done) ⊎ (((result ≡ Status.WriteFault) × Rose (K.faults out.old) (K.faults out.new)) ⊎ (result ≡ Status.NoMemory)) }
{
    'artifacts: for n in 0..artifacts.len() {
        match put_artifact(alloc, artifacts, n, out) {
            Ok(()) => {}
            Err(Stop::WriteFault) => return Status::WriteFault,
            Err(Stop::NoMemory) => return Status::NoMemory,
        }
    }
    Status::Done
}

/// Puts the line of the artifact of a definition, by its number from 0, where there is one.
fn put_artifact<K: Sink>(
    alloc: Global,
    artifacts: &Artifacts<'_>,
    n: usize,
    out: &mut K,
) -> Result<(), Stop>
    ensures ok { IfOk result (λ _.
        let text = text_of_lines (get_or (line_lists artifacts.now.project.now.0 artifacts.now.project.now.1) n []) in
        (K.contents out.new ≡ append (K.contents out.old) text) × (K.calls out.new ≤ K.calls out.old + length text)) }
    ensures err { IfErr result (λ stop.
        let text = text_of_lines (get_or (line_lists artifacts.now.project.now.0 artifacts.now.project.now.1) n []) in
        (k : ℕ) × (k ≤ length text) × (K.contents out.new ≡ append (K.contents out.old) (take k text))
        × (K.calls out.new ≤ K.calls out.old + k + 1) × (stop ≡ Stop.NoMemory → k ≡ 0)) }
    ensures write_fault { result ≡ Err Stop.WriteFault → Rose (K.faults out.old) (K.faults out.new) }
    ensures later { K.faults out.old ≤ K.faults out.new }
{
    let Ok(line) = artifacts.line(alloc, n) else {
        return Err(Stop::NoMemory);
    };
    match line {
        Some(line) => put_line(line, out),
        None => Ok(()),
    }
}
