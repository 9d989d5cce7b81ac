//! The large script that is drawn from a number.
ghost use Rattle.std.specs.Prelude.{◌≡◌, ◌<◌, ◌/◌, ◌%◌, ◌^◌, false, IfOk, OnErr};
ghost use Rattle.relay_machine.specs.Bulk as model;
ghost use Rattle.relay_forms.specs.BulkShown.{bulk_shown};

use plan_ir::NoMemory;
use std::alloc::Global;

/// Which line comes next.
#[derive(Clone, Copy, Debug, PartialEq, Eq)]
pub enum Stage {
    /// The one that retains the operation.
    Retaining,
    /// The one that starts the watch.
    Watching,
    /// One that is drawn.
    Drawing,
}

/// The lines of a large script, one after the other, which are drawn from a seed.
#[derive(Clone, Copy, Debug)]
pub struct Bulk {
    stage: Stage,
    /// The number that was drawn last; the seed at first.
    drawn: u64,
    /// Whether the layer is live.
    live: bool,
}

const RETAIN: &str = r#"{"do":"retain","handle":"h","op":"B"}"#;

const WATCH: &str = r#"{"do":"watch","handle":"h","watch":"w"}"#;

const BEGIN: &str =
    r#"{"do":"begin","layer":"t","updates":[{"add":{"by":1,"field":"age","id":"m"}}]}"#;

const REVERT: &str = r#"{"do":"revert","layer":"t"}"#;

const COLLECT: &str = r#"{"do":"collect"}"#;

/// The kind of the lines that begin and revert the layer.
const LAYERING: u64 = 2;

impl Bulk {
    /// The script of this seed, at its first line.
    pub fn new(seed: u64) -> Bulk
        ensures { bulk_shown result ≡ model.begun seed }
    {
        Bulk {
            stage: Stage::Retaining,
            drawn: seed,
            live: false,
        }
    }

    /// The next line, without a line end.
    pub fn line(&mut self, alloc: Global) -> Result<Vec<u8>, NoMemory>
        ensures line { IfOk result (λ line. line.items ≡ model.next_line (bulk_shown self.old)) }
        ensures next { IfOk result (λ _. bulk_shown self.new ≡ model.next_bulk (bulk_shown self.old)) }
        ensures err { OnErr result (self.new ≡ self.old) }
    {
        match self.stage {
            Stage::Retaining => {
                let line = RETAIN.as_bytes().to_vec(alloc)?;
                self.stage = Stage::Watching;
                Ok(line)
            }
            Stage::Watching => {
                let line = WATCH.as_bytes().to_vec(alloc)?;
                self.stage = Stage::Drawing;
                Ok(line)
            }
            Stage::Drawing => self.draw(alloc),
        }
    }

    /// The next line that is drawn.
    fn draw(&mut self, alloc: Global) -> Result<Vec<u8>, NoMemory>
        requires { self.old.stage ≡ Stage.Drawing }
        ensures line { IfOk result (λ line. line.items ≡ model.line_of_kind (model.kind_of (model.next_number self.old.drawn)) (model.age_of (model.next_number self.old.drawn)) self.old.live) }
        ensures next { IfOk result (λ _. bulk_shown self.new ≡ model.draw (model.next_number self.old.drawn) self.old.live) }
        ensures err { OnErr result (self.new ≡ self.old) }
    {
        let drawn = next_number(self.drawn);
        let kind = kind_of(drawn);
        let line = line_of_kind(alloc, kind, age_of(drawn), self.live)?;
        self.drawn = drawn;
        if kind == LAYERING {
            self.live = !self.live;
        }
        Ok(line.into_bytes())
    }
}

/// The number that is drawn after another one.
fn next_number(number: u64) -> u64
    ensures { result ≡ model.next_number number }
{
    number
        .wrapping_mul(6_364_136_223_846_793_005)
        .wrapping_add(1_442_695_040_888_963_407)
}

/// The kind of line that a number gives: 0 to 3.
fn kind_of(number: u64) -> u64
    ensures { result ≡ model.kind_of number }
{
    (number >> 33) / 1_000 % 4
}

/// The age that a number gives: 0 to 999.
fn age_of(number: u64) -> u64
    ensures { result ≡ model.age_of number }
{
    (number >> 33) % 1_000
}

/// The line of a kind.
fn line_of_kind(alloc: Global, kind: u64, age: u64, live: bool) -> Result<String, NoMemory>
    ensures { IfOk result (λ line. line.bytes.items ≡ model.line_of_kind kind age live) }
{
    match kind {
        0 => Ok(format!(in alloc;
            r#"{{"do":"payload","handle":"h","response":{{"data":{{"me":{{"age":{age},"friend":{{"age":{age},"id":"u{age}"}},"id":"m"}}}}}}}}"#
        )?),
        1 => Ok(format!(in alloc;
            r#"{{"do":"payload","handle":"h","response":{{"data":{{"me":{{"age":{age},"id":"m"}}}}}}}}"#
        )?),
        LAYERING if live => Ok(String::from_str(alloc, REVERT)?),
        LAYERING => Ok(String::from_str(alloc, BEGIN)?),
        _ => Ok(String::from_str(alloc, COLLECT)?),
    }
}
