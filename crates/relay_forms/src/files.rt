//! The project of files.
ghost use Rattle.std.specs.Prelude.{◌≡◌, ◌≤◌, ◌+◌, ◌-◌, ◌∷◌, map, min, length, IfOk, IfErr};
ghost use Rattle.plan_ir.specs.gql_plain.Counted.{next_count};
ghost use Rattle.relay_io.specs.Causes.{Rose};
ghost use Rattle.relay_io.specs.Files.{GivesFile};
ghost use Rattle.relay_forms.specs.Files.{IsTheProjectOf, max_all, max_file, name_under};
ghost use Rattle.relay_forms.specs.Projects.{project_shown};
ghost use Rattle.relay_forms.specs.Reads as reads;
ghost use Rattle.relay_forms.specs.Words as forms;

use plan_ir::{NoMemory, Words};
use plan_project::{CompileFault, Project, ProjectFault, ProjectFile, compile};
use relay_io::{Vault, VaultFault};
use std::alloc::Global;

/// The most bytes that a file holds: 4 MiB.
const MAX_FILE: usize = 1 << 22;

/// The most bytes that all files hold: 64 MiB.
const MAX_ALL: usize = 1 << 26;

/// Why there is no project.
#[derive(Clone, Copy, Debug, Drop)]
pub enum Closed<'a> {
    /// A file could not be read, or there is none of its name.
    Unread,
    /// The file of this name holds more bytes than are taken of it.
    TooLong(&'a str),
    /// The project does not meet a rule.
    Fault(ProjectFault),
    NoMemory,
}

/// The project of the files of these names.
pub fn open_project<'a, V: Vault>(
    alloc: Global,
    vault: &mut V,
    schema: &'a str,
    documents: &[&'a str],
) -> Result<Project, Closed<'a>>
    requires least { 1 ≤ length documents.now }
    requires most { length documents.now ≤ forms.max_documents }
    ensures same { V.files vault.new ≡ V.files vault.old }
    ensures project { IfOk result (λ p. (form : forms.Form) → forms.file_names form ≡ schema.now ∷ map (λ w. w.now) documents.now
        → IsTheProjectOf (V.files vault.old) form (project_shown p)) }
    ensures closed { IfErr result (λ closed. (form : forms.Form) → forms.file_names form ≡ schema.now ∷ map (λ w. w.now) documents.now
        → reads.IsClosedBy (V.files vault.old) form closed (Rose (V.faults vault.old) (V.faults vault.new))) }
    ensures later { V.faults vault.old ≤ V.faults vault.new }
    ensures calls { V.calls vault.new ≤ V.calls vault.old + (length documents.now + 1) }
{
    let files = match read_files(alloc, vault, schema, documents) {
        Ok(files) => files,
        Err(closed) => return Err(closed),
    };
    match compile(alloc, &files) {
        Ok(project) => Ok(project),
        Err(CompileFault::Refused(fault)) => Err(Closed::Fault(fault)),
        Err(CompileFault::NoMemory) => Err(Closed::NoMemory),
    }
}

/// The schema and the documents of these names, which are read in this order.
fn read_files<'a, V: Vault>(
    alloc: Global,
    vault: &mut V,
    schema: &'a str,
    documents: &[&'a str],
) -> Result<Vec<ProjectFile>, Closed<'a>>
    ensures same { V.files vault.new ≡ V.files vault.old }
    ensures files { IfOk result (λ files. reads.AreRead (V.files vault.old) (schema.now ∷ map (λ w. w.now) documents.now) files.items) }
    ensures closed { IfErr result (λ closed. reads.AreUnreadBy (V.files vault.old) (schema.now ∷ map (λ w. w.now) documents.now) closed
        (Rose (V.faults vault.old) (V.faults vault.new))) }
    ensures later { V.faults vault.old ≤ V.faults vault.new }
    ensures calls { V.calls vault.new ≤ V.calls vault.old + (length documents.now + 1) }
{
    let first = match read_file(alloc, vault, schema, MAX_ALL) {
        Ok(file) => file,
        Err(closed) => return Err(closed),
    };
    match read_documents(alloc, vault, first, documents) {
        Ok(files) => Ok(files),
        Err(closed) => Err(closed),
    }
}

/// The files of a project: its schema, which was read before, and the documents of these names.
fn read_documents<'a, V: Vault>(
    alloc: Global,
    vault: &mut V,
    schema: ProjectFile,
    names: &[&'a str],
) -> Result<Vec<ProjectFile>, Closed<'a>>
    requires { length schema.1 ≤ max_file }
    ensures same { V.files vault.new ≡ V.files vault.old }
    ensures files { IfOk result (λ files. reads.GivesFiles (V.files vault.old) schema (map (λ w. w.now) names.now) files.items) }
    ensures closed { IfErr result (λ closed. reads.AreClosedBy (V.files vault.old) (max_all - length schema.1) (map (λ w. w.now) names.now) closed
        (Rose (V.faults vault.old) (V.faults vault.new))) }
    ensures later { V.faults vault.old ≤ V.faults vault.new }
    ensures calls { V.calls vault.new ≤ V.calls vault.old + length names.now }
{
    let mut left = MAX_ALL - schema.as_bytes().len();
    let mut files = Vec::new(alloc);
    if files.push(schema).is_err() {
        return Err(Closed::NoMemory);
    }
    'names: for name in names {
        let file = match read_file(alloc, vault, name, left) {
            Ok(file) => file,
            Err(closed) => return Err(closed),
        };
        let taken = file.as_bytes().len();
        left -= taken;
        if files.push(file).is_err() {
            return Err(Closed::NoMemory);
        }
    }
    Ok(files)
}

/// The file of a name, of which at most 4 MiB and at most `left` bytes are taken.
fn read_file<'a, V: Vault>(
    alloc: Global,
    vault: &mut V,
    name: &'a str,
    left: usize,
) -> Result<ProjectFile, Closed<'a>>
    ensures same { V.files vault.new ≡ V.files vault.old }
    ensures bytes { IfOk result (λ file. GivesFile (V.files vault.old) name.now file.1 × (length file.1 ≤ min max_file left)) }
    ensures closed { IfErr result (λ closed. reads.IsFileClosedBy (V.files vault.old) left name.now closed (Rose (V.faults vault.old) (V.faults vault.new))) }
    ensures later { V.faults vault.old ≤ V.faults vault.new }
    ensures counted { V.calls vault.new ≡ next_count (V.calls vault.old) }
{
    let bytes = match vault.read(alloc, name, left.min(MAX_FILE) as u64) {
        Ok(bytes) => bytes,
        Err(VaultFault::Absent | VaultFault::Failed) => return Err(Closed::Unread),
        Err(VaultFault::TooLong) => return Err(Closed::TooLong(name)),
        Err(VaultFault::NoMemory) => return Err(Closed::NoMemory),
    };
    match Words::new(alloc, name) {
        Ok(name) => Ok(ProjectFile::new(name, bytes)),
        Err(NoMemory) => Err(Closed::NoMemory),
    }
}

/// The name of a file by its number: the schema is 0, documents are numbered from 1. The empty text
/// where there is none; takes no memory.
pub fn name_at<'a>(schema: &'a str, documents: &[&'a str], file: u32) -> &'a str
    ensures { result.now ≡ name_under (schema.now ∷ map (λ w. w.now) documents.now) file }
{
    if file == 0 {
        return schema;
    }
    match documents.get(file as usize - 1) {
        Some(name) => name,
        None => "",
    }
}
