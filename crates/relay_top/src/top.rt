//! The top call: from the words, the files and the script to what is written.
ghost use Rattle.std.specs.Prelude.{◌≡◌, ◌⊎◌, ◌↔◌, ℕ, ◌+◌, ◌≤◌, ◌∷◌, List, length, map, take, Bool, true, false, Option, None, Some, IsTrue};
ghost use Rattle.bulk_laws.specs.BulkProject.{bulk_project};
ghost use Rattle.relay_forms.specs.relay_io.Causes.{Rose};
ghost use Rattle.relay_forms.specs.relay_io.Streams.{append, prepend};
ghost use Rattle.relay_forms.specs.relay_machine.Bulk.{bulk_buffer, bulk_lines, bulk_summary};
ghost use Rattle.relay_forms.specs.relay_machine.Machine as machine;
ghost use Rattle.relay_forms.specs.relay_machine.Printed.{project_fault};
ghost use Rattle.relay_forms.specs.Artifacts.{EndsLine};
ghost use Rattle.relay_forms.specs.Files.{Files, contents_of, IsProject, IsFault, IsFirstAbsent, IsTheFaultOf, IsTheProjectOf};
ghost use Rattle.relay_forms.specs.FormShown.{asked_shown, form_shown};
ghost use Rattle.relay_forms.specs.Projects.{project_shown};
ghost use Rattle.relay_forms.specs.Reads.{IsClosedBy};
ghost use Rattle.relay_forms.specs.Scripts.{max_script};
ghost use Rattle.relay_forms.specs.Statuses.{IsDone};
ghost use Rattle.relay_forms.specs.Words as forms;
ghost use Rattle.relay_top.specs.Answers as answers;
ghost use Rattle.relay_top.specs.Output.{AddsPartOf};

use crate::project_fault::refuse;
use crate::session::Session;
use crate::summary::put_summary;
use plan_ir::Counts;
use relay_engine::{Engine, Versions};
use relay_forms::{
    Asked, Closed, Form, Project, Sink, Source, Status, Vault, asked_by, name_at, open_project,
    put_artifacts, rule_text,
};
use std::alloc::Global;

/// Runs the program.
pub fn relay_top<V: Vault, S: Source, K: Sink>(
    alloc: Global,
    words: &[&str],
    vault: &mut V,
    script: &mut S,
    out: &mut K,
    steps: &mut Counts,
) -> Status
    // All that follows of a form of words comes from this one relation.
    ensures answered { (asked : forms.Asked) → forms.asked_by (map (λ w. w.now) words.now) ≡ Some asked
        → answers.IsAnswered (V.files vault.old) asked result
        (Rose (V.faults vault.old) (V.faults vault.new)) (Rose (S.faults script.old) (S.faults script.new)) (Rose (K.faults out.old) (K.faults out.new))
        (V.calls vault.old) (V.calls vault.new) (S.left script.old) (S.left script.new) (S.calls script.old) (S.calls script.new)
        (K.contents out.old) (K.contents out.new) (K.calls out.old) (K.calls out.new) }
    // The words are no form exactly where Usage is answered, and then nothing outside is called.
    ensures usage { (result ≡ Status.Usage) ↔ (forms.asked_by (map (λ w. w.now) words.now) ≡ None) }
    ensures untouched { result ≡ Status.Usage
        → (V.calls vault.new ≡ V.calls vault.old) × (S.calls script.new ≡ S.calls script.old) × (K.calls out.new ≡ K.calls out.old)
        × (S.left script.new ≡ S.left script.old) × (K.contents out.new ≡ K.contents out.old) }
    // What is written is what is due of the form: for `run` what the machine writes, line by line, for
    // `compile` the artifact lines.
    ensures done { (files : Files) (form : forms.Form) (project : machine.Project) (bytes : List ℕ)
        → forms.asked_by (map (λ w. w.now) words.now) ≡ Some (forms.on_files form)
        → V.files vault.old ≡ Some files → IsProject (contents_of form files) project
        → S.left script.old ≡ Some bytes → IsDone result
        → (S.left script.new ≡ Some (answers.left_over form bytes)) × (K.contents out.new ≡ append (K.contents out.old) (answers.due form (answers.accepted project) bytes true))
        × ((result ≡ Status.DoneWithRefusals) ↔ IsTrue (answers.refuses form (answers.accepted project) bytes)) }
    ensures whole { (form : forms.Form) → forms.asked_by (map (λ w. w.now) words.now) ≡ Some (forms.on_files form) → IsDone result
        → (project : machine.Project) × IsTheProjectOf (V.files vault.old) form project
        × (taken : List ℕ) × (S.left script.old ≡ prepend taken (S.left script.new)) × answers.IsReadWhole form taken (S.left script.new)
        × (K.contents out.new ≡ append (K.contents out.old) (answers.due form (answers.accepted project) taken true))
        × ((result ≡ Status.DoneWithRefusals) ↔ IsTrue (answers.refuses form (answers.accepted project) taken)) }
    // Where nothing fails and memory is had, all is written.
    ensures complete { (files : Files) (form : forms.Form) (project : machine.Project) (bytes : List ℕ)
        → forms.asked_by (map (λ w. w.now) words.now) ≡ Some (forms.on_files form)
        → V.files vault.old ≡ Some files → IsProject (contents_of form files) project
        → S.left script.old ≡ Some bytes → answers.IsScriptFor form bytes
        → ¬ Rose (V.faults vault.old) (V.faults vault.new) → ¬ Rose (S.faults script.old) (S.faults script.new) → ¬ Rose (K.faults out.old) (K.faults out.new)
        → (result ≡ Status.NoMemory)
        ⊎ (IsDone result × (S.left script.new ≡ Some (answers.left_over form bytes)) × (K.contents out.new ≡ append (K.contents out.old) (answers.due form (answers.accepted project) bytes true))) }
    // At each answer what is written is a part of what is due, from its beginning on: of the line of the
    // project's fault, or by the first 2^30 bytes that the script gave. A script that is too long gave a byte more.
    ensures part { (form : forms.Form) → forms.asked_by (map (λ w. w.now) words.now) ≡ Some (forms.on_files form)
        → (course : answers.Course) × answers.IsCourse (V.files vault.old) form course
        × (taken : List ℕ) × (ended : Bool) × answers.Took form course result (S.left script.old) (S.left script.new) taken ended
        × AddsPartOf (K.contents out.old) (K.contents out.new) (answers.due form course (take max_script taken) ended) }
    // Where the script cannot be read further, or is too long, the answers of all lines are written whose LF was among the
    // first 2^30 bytes that it gave, and no other.
    ensures streamed { (form : forms.Form) → forms.asked_by (map (λ w. w.now) words.now) ≡ Some (forms.on_files form)
        → (result ≡ Status.ReadFault) ⊎ (result ≡ Status.ScriptTooLong)
        → (course : answers.Course) × answers.IsCourse (V.files vault.old) form course
        × (taken : List ℕ) × answers.Took form course result (S.left script.old) (S.left script.new) taken false
        × (K.contents out.new ≡ append (K.contents out.old) (answers.due form course (take max_script taken) false)) }
    // A script is too long exactly where it gave 2^30 bytes and one more, and no put failed and no memory lacked after them.
    ensures too_long { (form : forms.Form) → forms.asked_by (map (λ w. w.now) words.now) ≡ Some (forms.on_files form)
        → (taken : List ℕ) × (S.left script.old ≡ prepend taken (S.left script.new))
        × (result ≡ Status.ScriptTooLong → length taken ≡ max_script + 1)
        × (length taken ≡ max_script + 1
        → (result ≡ Status.ScriptTooLong) ⊎ (((result ≡ Status.WriteFault) × Rose (K.faults out.old) (K.faults out.new)) ⊎ (result ≡ Status.NoMemory))) }
    ensures ends { (result ≡ Status.WriteFault) ⊎ ((added : List ℕ) × (K.contents out.new ≡ append (K.contents out.old) added) × EndsLine added) }
    // What is outside is called so often, and files stay as they are.
    ensures files { V.files vault.new ≡ V.files vault.old }
    ensures vault_calls { (form : forms.Form) → forms.asked_by (map (λ w. w.now) words.now) ≡ Some (forms.on_files form) → V.calls vault.new ≤ V.calls vault.old + length (forms.file_names form) }
    ensures script_calls { (taken : List ℕ) × (S.left script.old ≡ prepend taken (S.left script.new)) × (S.calls script.new ≤ S.calls script.old + length taken + 1) }
    ensures sink_calls { (added : List ℕ) × (K.contents out.new ≡ append (K.contents out.old) added) × (K.calls out.new ≤ K.calls out.old + length added + 1) }
    // The script is not read of a project that is refused.
    ensures unread { result ≡ Status.ProjectRefused → (S.left script.new ≡ S.left script.old) × (S.calls script.new ≡ S.calls script.old) }
    // To compile, the script is never called.
    ensures compile_unread { (schema : List ℕ) (documents : List (List ℕ)) → forms.asked_by (map (λ w. w.now) words.now) ≡ Some (forms.on_files (forms.compile schema documents))
        → (S.left script.new ≡ S.left script.old) × (S.calls script.new ≡ S.calls script.old) }
    // Where a file could not be read, nothing is read of the script and nothing is written.
    ensures unopened { result ≡ Status.ReadFault → ¬ Rose (S.faults script.old) (S.faults script.new)
        → (S.left script.new ≡ S.left script.old) × (S.calls script.new ≡ S.calls script.old)
        × (K.contents out.new ≡ K.contents out.old) × (K.calls out.new ≡ K.calls out.old) }
    // Each other answer has its cause.
    ensures refused { (form : forms.Form) → forms.asked_by (map (λ w. w.now) words.now) ≡ Some (forms.on_files form) → result ≡ Status.ProjectRefused
        → (file : List ℕ) × (line : ℕ) × (column : ℕ) × (rule : List ℕ) × IsTheFaultOf (V.files vault.old) form file line column rule
        × (K.contents out.new ≡ append (K.contents out.old) (project_fault file line column rule)) }
    ensures faulty { (files : Files) (form : forms.Form) (file : List ℕ) (line column : ℕ) (rule : List ℕ)
        → forms.asked_by (map (λ w. w.now) words.now) ≡ Some (forms.on_files form)
        → V.files vault.old ≡ Some files → IsFault form (contents_of form files) file line column rule
        → ((result ≡ Status.ProjectRefused) × (K.contents out.new ≡ append (K.contents out.old) (project_fault file line column rule)))
        ⊎ (((result ≡ Status.ReadFault) × Rose (V.faults vault.old) (V.faults vault.new)) ⊎ ((result ≡ Status.WriteFault) ⊎ (result ≡ Status.NoMemory))) }
    ensures read_fault { (form : forms.Form) → forms.asked_by (map (λ w. w.now) words.now) ≡ Some (forms.on_files form) → result ≡ Status.ReadFault
        → Rose (V.faults vault.old) (V.faults vault.new) ⊎ Rose (S.faults script.old) (S.faults script.new)
        ⊎ IsFirstAbsent (V.files vault.old) form }
    ensures write_fault { result ≡ Status.WriteFault → Rose (K.faults out.old) (K.faults out.new) }
    // For `bulk` neither files nor the script are called. No line of that script is refused. Where the work is
    // done the summary is added, and else a part of it, from its beginning on.
    ensures bulk_unread { (seed count : ℕ) → forms.asked_by (map (λ w. w.now) words.now) ≡ Some (forms.bulk seed count)
        → (V.calls vault.new ≡ V.calls vault.old) × (S.left script.new ≡ S.left script.old) × (S.calls script.new ≡ S.calls script.old) }
    ensures bulk_answers { (seed count : ℕ) → forms.asked_by (map (λ w. w.now) words.now) ≡ Some (forms.bulk seed count)
        → (result ≡ Status.Done) ⊎ (((result ≡ Status.WriteFault) × Rose (K.faults out.old) (K.faults out.new)) ⊎ (result ≡ Status.NoMemory)) }
    ensures bulk_done { (seed count : ℕ) → forms.asked_by (map (λ w. w.now) words.now) ≡ Some (forms.bulk seed count) → result ≡ Status.Done
        → (K.contents out.new ≡ append (K.contents out.old) (bulk_summary bulk_project seed count)) × (machine.some_refused bulk_project bulk_buffer (bulk_lines seed count) ≡ false) }
    ensures bulk_complete { (seed count : ℕ) → forms.asked_by (map (λ w. w.now) words.now) ≡ Some (forms.bulk seed count) → ¬ Rose (K.faults out.old) (K.faults out.new)
        → (result ≡ Status.NoMemory) ⊎ ((result ≡ Status.Done) × (K.contents out.new ≡ append (K.contents out.old) (bulk_summary bulk_project seed count))) }
    ensures bulk_part { (seed count : ℕ) → forms.asked_by (map (λ w. w.now) words.now) ≡ Some (forms.bulk seed count)
        → AddsPartOf (K.contents out.old) (K.contents out.new) (bulk_summary bulk_project seed count) }
{
    match asked_by(words) {
        Some(asked) => answer(alloc, asked, vault, script, out, steps),
        None => Status::Usage,
    }
}

/// Does what the words ask for.
fn answer<V: Vault, S: Source, K: Sink>(
    alloc: Global,
    asked: Asked<'_, '_>,
    vault: &mut V,
    script: &mut S,
    out: &mut K,
    steps: &mut Counts,
) -> Status
    requires { forms.IsAskedWithin (asked_shown asked) }
    ensures ran { answers.IsAnswered (V.files vault.old) (asked_shown asked.entry) result
        (Rose (V.faults vault.old) (V.faults vault.new)) (Rose (S.faults script.old) (S.faults script.new)) (Rose (K.faults out.old) (K.faults out.new))
        (V.calls vault.old) (V.calls vault.new) (S.left script.old) (S.left script.new) (S.calls script.old) (S.calls script.new)
        (K.contents out.old) (K.contents out.new) (K.calls out.old) (K.calls out.new) }
    ensures files { V.files vault.new ≡ V.files vault.old }
{
    match asked {
        Asked::OnFiles(form) => answer_form(alloc, form, vault, script, out, steps),
        Asked::Bulk { seed, count } => put_summary(alloc, seed, count, out, steps),
    }
}

/// Does what the words ask for over files.
fn answer_form<V: Vault, S: Source, K: Sink>(
    alloc: Global,
    form: Form<'_, '_>,
    vault: &mut V,
    script: &mut S,
    out: &mut K,
    steps: &mut Counts,
) -> Status
    requires { forms.IsWithin (form_shown form) }
    ensures ran { answers.IsCall (V.files vault.old) (form_shown form.entry) result
        (Rose (V.faults vault.old) (V.faults vault.new)) (Rose (S.faults script.old) (S.faults script.new)) (Rose (K.faults out.old) (K.faults out.new))
        (S.left script.old) (S.left script.new) (S.calls script.old) (S.calls script.new)
        (K.contents out.old) (K.contents out.new) (K.calls out.old) (K.calls out.new) }
    ensures files { V.files vault.new ≡ V.files vault.old }
    ensures vault_calls { V.calls vault.new ≤ V.calls vault.old + length (forms.file_names (form_shown form.entry)) }
{
    match form {
        Form::Run {
            buffer,
            schema,
            documents,
        } => run(alloc, buffer, schema, documents, vault, script, out, steps),
        Form::Compile { schema, documents } => compile(alloc, schema, documents, vault, out),
    }
}

/// Runs the script against the project of these files, and keeps at most so many released operations.
fn run<V: Vault, S: Source, K: Sink>(
    alloc: Global,
    buffer: u64,
    schema: &str,
    documents: &[&str],
    vault: &mut V,
    script: &mut S,
    out: &mut K,
    steps: &mut Counts,
) -> Status
    requires least { 1 ≤ buffer }
    requires most { buffer ≤ 100 }
    requires some { 1 ≤ length documents.now }
    requires few { length documents.now ≤ forms.max_documents }
    ensures ran { answers.IsCall (V.files vault.old) (forms.run buffer schema.now (map (λ w. w.now) documents.now)) result
        (Rose (V.faults vault.old) (V.faults vault.new)) (Rose (S.faults script.old) (S.faults script.new)) (Rose (K.faults out.old) (K.faults out.new))
        (S.left script.old) (S.left script.new) (S.calls script.old) (S.calls script.new)
        (K.contents out.old) (K.contents out.new) (K.calls out.old) (K.calls out.new) }
    ensures files { V.files vault.new ≡ V.files vault.old }
    ensures vault_calls { V.calls vault.new ≤ V.calls vault.old + (length documents.now + 1) }
{
    match open_project(alloc, vault, schema, documents) {
        Ok(project) => run_project(alloc, project, buffer, script, out, steps),
        Err(closed) => answer_closed(alloc, schema, documents, closed, out),
    }
}

/// Writes the artifact lines of the project of these files.
fn compile<V: Vault, K: Sink>(
    alloc: Global,
    schema: &str,
    documents: &[&str],
    vault: &mut V,
    out: &mut K,
) -> Status
    requires least { 1 ≤ length documents.now }
    requires most { length documents.now ≤ forms.max_documents }
    ensures ran { (left : Option (List ℕ)) (reads misses misses_now : ℕ) → answers.IsCall (V.files vault.old) (forms.compile schema.now (map (λ w. w.now) documents.now)) result
        (Rose (V.faults vault.old) (V.faults vault.new)) (Rose misses misses_now) (Rose (K.faults out.old) (K.faults out.new))
        left left reads reads (K.contents out.old) (K.contents out.new) (K.calls out.old) (K.calls out.new) }
    ensures files { V.files vault.new ≡ V.files vault.old }
    ensures vault_calls { V.calls vault.new ≤ V.calls vault.old + (length documents.now + 1) }
{
    match open_project(alloc, vault, schema, documents) {
        Ok(project) => put_artifacts(alloc, &project, out),
        Err(closed) => answer_closed(alloc, schema, documents, closed, out),
    }
}

/// Answers that there is no project of these files.
fn answer_closed<K: Sink>(
    alloc: Global,
    schema: &str,
    documents: &[&str],
    closed: Closed<'_>,
    out: &mut K,
) -> Status
    ensures { (files : Option Files) (form : forms.Form) (faults faults_now misses misses_now : ℕ) (left : Option (List ℕ)) (reads : ℕ)
        → forms.file_names form ≡ schema.now ∷ map (λ w. w.now) documents.now → IsClosedBy files form closed.entry (Rose faults faults_now)
        → answers.IsCall files form result (Rose faults faults_now) (Rose misses misses_now) (Rose (K.faults out.old) (K.faults out.new))
        left left reads reads (K.contents out.old) (K.contents out.new) (K.calls out.old) (K.calls out.new) }
{
    match closed {
        Closed::TooLong(name) => refuse(alloc, name, 1, 1, "F1", out),
        Closed::Fault(fault) => {
            let name = name_at(schema, documents, fault.file);
            let rule = rule_text(fault.rule);
            refuse(alloc, name, fault.line, fault.column, rule, out)
        }
        Closed::Unread => Status::ReadFault,
        Closed::NoMemory => Status::NoMemory,
    }
}

/// Runs the script, each of whose lines is answered as soon as it is there.
fn run_project<S: Source, K: Sink>(
    alloc: Global,
    project: Project,
    buffer: u64,
    script: &mut S,
    out: &mut K,
    steps: &mut Counts,
) -> Status
    requires least { 1 ≤ buffer }
    requires most { buffer ≤ 100 }
    ensures answering { (schema : List ℕ) (documents : List (List ℕ)) → answers.Answering (forms.run buffer schema documents) (answers.accepted (project_shown project)) result ⊥
        (Rose (S.faults script.old) (S.faults script.new)) (Rose (K.faults out.old) (K.faults out.new)) }
    ensures ran { (schema : List ℕ) (documents : List (List ℕ))
        → answers.Ran (forms.run buffer schema documents) (answers.accepted (project_shown project)) result (S.left script.old) (S.left script.new) (S.calls script.old) (S.calls script.new)
        (K.contents out.old) (K.contents out.new) (K.calls out.old) (K.calls out.new) }
{
    let Ok(engine) = Engine::new(alloc, project, buffer, Versions::new(alloc)) else {
        return Status::NoMemory;
    };
    let mut session = Session::new(alloc, engine, 1);
    session.answer_script(script, out, steps)
}
