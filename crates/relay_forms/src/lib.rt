//! What the program does beside its engine: the forms of its words, the files of a project, the lines
//! of artifacts, the names of rules, the statuses, the bytes that are read and put, and the large
//! script.
#![tactic(auto)]

pub mod bulk;
mod compiling;
pub mod files;
pub mod put;
mod rules;
pub mod script;
pub mod status;
pub mod words;

pub use bulk::Bulk;
pub use compiling::put_artifacts;
pub use files::{Closed, name_at, open_project};
pub use plan_project::{CompileFault, Project, ProjectFile, compile};
pub use put::{Stop, bytes_of, put_line, put_lines};
pub use relay_io::{Sink, Source, Vault};
pub use rules::rule_text;
pub use script::{MAX_SCRIPT, PIECE, cut, first_line, room};
pub use status::{Status, exit_of};
pub use words::{Asked, Form, asked_by};
