//! The artifacts of an accepted project: a line for each operation and each fragment (this project's
//! own).
ghost use Rattle.std.specs.Prelude.{◌≡◌, [], get_or, length, IfOk};
ghost use Rattle.plan_project.specs.Expansions.{line_lists, list_of, text_named};
ghost use Rattle.plan_project.specs.TextLaws.{SaysNamed};

use crate::project::Project;
use crate::ready::ReadyProject;
use plan_ir::{Name, NoMemory, Words};
use std::alloc::Global;

/// What stands ready to write the artifacts of a project.
#[derive(Drop)]
pub struct Artifacts<'p> {
    pub project: &'p Project,
    ready: ReadyProject<'p>,
    ghost same: { ready ≡ project.now },
}

impl<'p> Artifacts<'p> {
    /// What stands ready for a project: it is made once, and a line then costs what its text needs.
    /// Its only error is that memory is lacking.
    pub fn of(alloc: Global, project: &'p Project) -> Result<Artifacts<'p>, NoMemory>
        ensures { IfOk result (λ artifacts. artifacts.project.now ≡ project.now) }
    {
        let ready = ReadyProject::of(alloc, project)?;
        Ok(Artifacts { project, ready })
    }

    /// The number of definitions: the operations and the fragments.
    pub fn len(&self) -> usize
        ensures { result ≡ length (line_lists self.now.project.now.0 self.now.project.now.1) }
    {
        self.ready.len()
    }

    /// The line of a definition by its number, from 0, in the order of the files and of their texts,
    /// without the end of the line; `None` from `len` on. Its only error is that memory is lacking.
    /// No text is kept, and one expansion at a time is in memory.
    pub fn line(&self, alloc: Global, n: usize) -> Result<Option<Words>, NoMemory>
        ensures { IfOk result (λ line. list_of line ≡ get_or (line_lists self.now.project.now.0 self.now.project.now.1) n []) }
    {
        self.ready.line(alloc, n)
    }

    /// The text of the operation of a name, as it is sent; `None` where the project has no operation
    /// of that name. It says that operation: who reads it reads the one document of the operation
    /// printed, and that asks for what the operation and its fragments ask for. Its only error is that
    /// memory is lacking.
    pub fn text(&self, alloc: Global, name: &Name) -> Result<Option<Words>, NoMemory>
        ensures named { IfOk result (λ text. text ≡ text_named self.now.project.now.0 self.now.project.now.1 name.now) }
        ensures says { IfOk result (λ text. SaysNamed self.now.project.now.0 self.now.project.now.1 name.now text) }
    {
        self.project.is_accepted();
        let text = self.ready.text(alloc, name)?;
        Ok(text)
    }
}
