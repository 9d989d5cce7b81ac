//! A client of a GraphQL server: it compiles a project, and runs a script of events against its store.
#![tactic(auto)]

ghost use Rattle.std.specs.Prelude.{◌≡◌, ◌⊎◌, IfErr};

use relay_io::{FileVault, StdSink, StdSource};
pub use relay_top::relay_top;
use relay_top::{Counts, Status, exit_of};
use std::process::ExitCode;
use std::{env, io};

const USAGE: &str = "usage: relay_run run B SCHEMA DOC.. | compile SCHEMA DOC.. | bulk SEED COUNT";

fn main(rt: HostRuntime) -> ExitCode {
    let status = run(&rt);
    say_usage(&rt, status);
    ExitCode::from(exit_of(status))
}

// Runs the arguments over files, standard input and standard output.
fn run(rt: &HostRuntime) -> Status {
    match words_of(rt) {
        Ok(words) => run_words(rt, &words),
        Err(status) => status,
    }
}

// Says on standard error which words there are, where the words were no form.
fn say_usage(rt: &HostRuntime, status: Status) {
    if status == Status::Usage {
        let _ = eprintln!(rt; "{}", USAGE);
    }
}

// The arguments after the program's name. One that is not UTF-8 is no word.
fn words_of(rt: &HostRuntime) -> Result<Vec<String>, Status>
    ensures { IfErr result (λ status. (status ≡ Status.NoMemory) ⊎ (status ≡ Status.Usage)) }
{
    match env::args(rt) {
        Ok(words) => {
            let mut rest = Vec::new(rt.alloc());
            'words: for word in words.skip(1) {
                if rest.push(word).is_err() {
                    return Err(Status::NoMemory);
                }
            }
            Ok(rest)
        }
        Err(error) if error.kind() == io::ErrorKind::OutOfMemory => Err(Status::NoMemory),
        Err(_) => Err(Status::Usage),
    }
}

// Runs these words over files, standard input and standard output.
fn run_words(rt: &HostRuntime, words: &[String]) -> Status {
    let mut borrowed = Vec::new(rt.alloc());
    'words: for word in words {
        if borrowed.push(word.as_str()).is_err() {
            return Status::NoMemory;
        }
    }
    let mut vault = FileVault::new(rt);
    let mut script = StdSource::new(rt.reader());
    let mut out = StdSink::new(io::writer(rt));
    let mut steps = Counts::new();
    relay_top(
        rt.alloc(),
        &borrowed,
        &mut vault,
        &mut script,
        &mut out,
        &mut steps,
    )
}
