//! The lines of artifacts (this project's own).
ghost use Rattle.std.specs.Prelude.{◌≡◌, IfOk};
ghost use Rattle.plan_ir.specs.gql_syntax.Words.{kind_word};
ghost use Rattle.plan_text.specs.Lines.{line_of, three_texts};

use json::Writer;
use plan_ir::{Kind, Name, NoMemory, Words};
use std::alloc::Global;

/// What a project gives to a server: an operation with its text, or a fragment with its type.
#[derive(Debug, Drop)]
pub enum Artifact {
    Operation { kind: Kind, name: Name, text: Words },
    Fragment { name: Name, on: Name },
}

/// The line of an artifact: compact JSON, without the end of the line. Its only error is that
/// memory is lacking.
pub fn artifact_line(alloc: Global, artifact: &Artifact) -> Result<Words, NoMemory>
    ensures { IfOk result (λ line. line ≡ line_of artifact.now) }
{
    match artifact {
        Artifact::Operation { kind, name, text } => {
            let member = Member {
                key: "text",
                value: text.as_str(),
            };
            write_line(alloc, kind_word(*kind), name.as_str(), member)
        }
        Artifact::Fragment { name, on } => {
            let member = Member {
                key: "type",
                value: on.as_str(),
            };
            write_line(alloc, "fragment", name.as_str(), member)
        }
    }
}

/// A member of an object whose value is a text.
#[derive(Clone, Copy)]
struct Member<'a> {
    key: &'a str,
    value: &'a str,
}

/// The object of a kind, a name and one more member.
fn write_line(alloc: Global, kind: &str, name: &str, member: Member<'_>) -> Result<Words, NoMemory>
    ensures { IfOk result
        (λ line. line ≡ three_texts kind.now name.now member.entry.key.now member.entry.value.now) }
{
    let mut out = Writer::new(Vec::new(alloc));
    out.begin_object()?;
    out.key("kind")?;
    out.string(kind)?;
    out.key("name")?;
    out.string(name)?;
    out.key(member.key)?;
    out.string(member.value)?;
    out.end_object()?;
    // Safety: a writer's text is UTF-8, as its contract says.
    let text = unsafe { String::from_utf8_unchecked(out.into_inner()) };
    Ok(Words::from_string(text))
}

/// The word of a kind.
pub(crate) fn kind_word(kind: Kind) -> &'static str
    ensures { result.now ≡ kind_word kind }
{
    match kind {
        Kind::Query => "query",
        Kind::Mutation => "mutation",
        Kind::Subscription => "subscription",
    }
}
