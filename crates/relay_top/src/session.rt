//! Answering a script as it comes.
ghost use Rattle.std.specs.Prelude.{◌≡◌, ◌⊎◌, ◌↔◌, ◌≤◌, ◌<◌, ◌+◌, ◌^◌, [], ℕ, List, length, take, false, IfOk, IfErr, OnOk, IsTrue};
ghost use Rattle.std.specs.Io.KnownBytes.{IsAtEnd};
ghost use Rattle.plan_ir.specs.gql_plain.Counted.{next_count};
ghost use Rattle.relay_forms.specs.relay_io.Causes.{Rose};
ghost use Rattle.relay_forms.specs.relay_io.Streams.{prepend};
ghost use Rattle.relay_forms.specs.Progress.{Progress, after, ended, ended_line, longer, step_of, told, told_at_end};
ghost use Rattle.relay_forms.specs.Puts.{IsPut, IsPutInPart};
ghost use Rattle.relay_forms.specs.Statuses.{IsDone};
ghost use Rattle.relay_forms.specs.relay_machine.Machine as machine;
ghost use Rattle.relay_top.specs.Sessions.{IsAt};
ghost use Rattle.relay_top.specs.Streamed.{Streamed};

use plan_ir::{Counts, NoMemory};
use relay_engine::{Engine, Versions};
use relay_forms::{
    MAX_SCRIPT, PIECE, Sink, Source, Status, Stop, cut, first_line, put_lines, room,
};
use std::alloc::Global;

/// Why the answering of a piece stops.
#[derive(Clone, Copy, Debug, Drop)]
enum Halt {
    /// A reading failed.
    ReadFault,
    /// A put failed; the sink has taken a part, from the beginning on.
    WriteFault,
    NoMemory,
}

/// An engine, and how far it has come in a script.
#[derive(Drop)]
pub struct Session {
    alloc: Global,
    engine: Engine<Versions>,
    /// The number of the line that comes.
    n: u64,
    /// As much of that line as is looked at: of one that is too long, a byte more than the most.
    part: Vec<u8>,
    /// Whether a line was refused.
    refused: bool,
}

impl Session {
    /// A session that goes on with the line that has the number `n`.
    pub fn new(alloc: Global, engine: Engine<Versions>, n: u64) -> Session
        ensures engine { result.engine ≡ engine }
        ensures number { result.n ≡ n }
        ensures part { result.part.items ≡ [] }
        ensures refused { result.refused ≡ false }
    {
        Session {
            alloc,
            engine,
            n,
            part: Vec::new(alloc),
            refused: false,
        }
    }

    /// Answers a script, each line as soon as its LF is there, and each answer as one piece. It is read by pieces of at most
    /// 65,536 bytes, to its end, or to 1 GiB and one byte, which is no part of a line.
    pub fn answer_script<S: Source, K: Sink>(
        &mut self,
        script: &mut S,
        out: &mut K,
        steps: &mut Counts,
    ) -> Status
        requires { self.old.n ≤ 2 ^ 62 }
        ensures streamed { (p : machine.Project) (buffer : ℕ) (q : Progress) → IsAt p buffer self.old q
            → Streamed p buffer q result (S.left script.old) (S.left script.new) (S.calls script.old) (S.calls script.new)
            (K.contents out.old) (K.contents out.new) (K.calls out.old) (K.calls out.new) }
        ensures form { IsDone result ⊎ (((result ≡ Status.ReadFault) × Rose (S.faults script.old) (S.faults script.new))
            ⊎ (((result ≡ Status.WriteFault) × Rose (K.faults out.old) (K.faults out.new)) ⊎ ((result ≡ Status.NoMemory) ⊎ (result ≡ Status.ScriptTooLong)))) }
    {
        let Ok(mut piece) = room(self.alloc, PIECE) else {
            return Status::NoMemory;
        };
        let mut taken = 0;
        'pieces: while taken <= MAX_SCRIPT {
            let ask = (MAX_SCRIPT + 1 - taken).min(piece.len());
            match self.next_piece(script, &mut piece[..ask], MAX_SCRIPT - taken, out, steps) {
                Ok(0) => return self.finish(out, steps),
                Ok(count) => taken += count,
                Err(Halt::ReadFault) => return Status::ReadFault,
                Err(Halt::WriteFault) => return Status::WriteFault,
                Err(Halt::NoMemory) => return Status::NoMemory,
            }
        }
        Status::ScriptTooLong
    }

    /// Reads a piece and answers the lines that end in it, and tells how many bytes were read: of these at most `most` are
    /// parts of lines.
    fn next_piece<S: Source, K: Sink>(
        &mut self,
        script: &mut S,
        piece: &mut [u8],
        most: usize,
        out: &mut K,
        steps: &mut Counts,
    ) -> Result<usize, Halt>
        requires some { 0 < length piece.old }
        requires number { self.old.n + length piece.old < 2 ^ 63 }
        ensures ok { IfOk result (λ count. (given : List ℕ) × (length given ≡ count) × (count ≤ length piece.new)
            × (S.left script.old ≡ prepend given (S.left script.new)) × (count ≡ 0 → IsAtEnd (S.left script.new)) × (self.new.n ≤ self.old.n + count)
            × ((p : machine.Project) (buffer : ℕ) (q : Progress) → IsAt p buffer self.old q → IsAt p buffer self.new (after p buffer q (take most given))
            × IsPut (told p buffer q (take most given)) (K.contents out.old) (K.contents out.new) (K.calls out.old) (K.calls out.new))) }
        ensures err { IfErr result (λ halt. (given : List ℕ) × (length given ≤ length piece.new) × (S.left script.old ≡ prepend given (S.left script.new))
            × (halt ≡ Halt.ReadFault → (given ≡ []) × (K.contents out.new ≡ K.contents out.old) × (K.calls out.new ≡ K.calls out.old))
            × ((p : machine.Project) (buffer : ℕ) (q : Progress) → IsAt p buffer self.old q
            → IsPutInPart (told p buffer q (take most given)) (halt ≡ Halt.WriteFault) (K.contents out.old) (K.contents out.new) (K.calls out.old) (K.calls out.new))) }
        ensures counted { S.calls script.new ≡ next_count (S.calls script.old) }
        ensures read_fault { result ≡ Err Halt.ReadFault → Rose (S.faults script.old) (S.faults script.new) }
        ensures write_fault { result ≡ Err Halt.WriteFault → Rose (K.faults out.old) (K.faults out.new) }
        ensures read_later { S.faults script.old ≤ S.faults script.new }
        ensures put_later { K.faults out.old ≤ K.faults out.new }
    {
        let Ok(count) = script.read(piece) else {
            return Err(Halt::ReadFault);
        };
        match self.take_piece(&piece[..count.min(most)], out, steps) {
            Ok(()) => Ok(count),
            Err(Stop::WriteFault) => Err(Halt::WriteFault),
            Err(Stop::NoMemory) => Err(Halt::NoMemory),
        }
    }

    /// Answers the lines that end in a piece, and keeps what is behind them.
    fn take_piece<K: Sink>(
        &mut self,
        piece: &[u8],
        out: &mut K,
        steps: &mut Counts,
    ) -> Result<(), Stop>
        requires { self.old.n + length piece.now < 2 ^ 63 }
        ensures ok { OnOk result ((p : machine.Project) (buffer : ℕ) (q : Progress) → IsAt p buffer self.old q → IsAt p buffer self.new (after p buffer q piece.now)
            × IsPut (told p buffer q piece.now) (K.contents out.old) (K.contents out.new) (K.calls out.old) (K.calls out.new)) }
        ensures err { IfErr result (λ stop. (p : machine.Project) (buffer : ℕ) (q : Progress) → IsAt p buffer self.old q
            → IsPutInPart (told p buffer q piece.now) (stop ≡ Stop.WriteFault) (K.contents out.old) (K.contents out.new) (K.calls out.old) (K.calls out.new)) }
        ensures number { OnOk result (self.new.n ≤ self.old.n + length piece.now) }
        ensures write_fault { result ≡ Err Stop.WriteFault → Rose (K.faults out.old) (K.faults out.new) }
        ensures later { K.faults out.old ≤ K.faults out.new }
    {
        let mut rest = piece;
        'lines: while let Some((line, behind)) = first_line(rest) {
            let Ok(()) = self.keep(line) else {
                return Err(Stop::NoMemory);
            };
            if let Err(stop) = self.answer(out, steps) {
                return Err(stop);
            }
            rest = behind;
        }
        let Ok(()) = self.keep(rest) else {
            return Err(Stop::NoMemory);
        };
        Ok(())
    }

    /// Keeps these bytes of the line that comes, as far as they are looked at.
    fn keep(&mut self, bytes: &[u8]) -> Result<(), NoMemory>
        ensures longer { OnOk result ((p : machine.Project) (buffer : ℕ) (q : Progress) → IsAt p buffer self.old q → IsAt p buffer self.new (longer q bytes.now)) }
        ensures number { OnOk result (self.new.n ≡ self.old.n) }
    {
        let more = cut(bytes, self.part.len());
        self.part.extend_from_slice(more)?;
        Ok(())
    }

    /// Answers the line that is kept, and puts the answer as one piece.
    fn answer<K: Sink>(&mut self, out: &mut K, steps: &mut Counts) -> Result<(), Stop>
        requires { self.old.n < 2 ^ 63 }
        ensures ok { OnOk result ((p : machine.Project) (buffer : ℕ) (q : Progress) → IsAt p buffer self.old q → IsAt p buffer self.new (ended_line p buffer q)
            × IsPut (step_of p buffer q).text (K.contents out.old) (K.contents out.new) (K.calls out.old) (K.calls out.new)) }
        ensures err { IfErr result (λ stop. (p : machine.Project) (buffer : ℕ) (q : Progress) → IsAt p buffer self.old q
            → IsPutInPart (step_of p buffer q).text (stop ≡ Stop.WriteFault) (K.contents out.old) (K.contents out.new) (K.calls out.old) (K.calls out.new)) }
        ensures number { OnOk result (self.new.n ≡ self.old.n + 1) }
        ensures write_fault { result ≡ Err Stop.WriteFault → Rose (K.faults out.old) (K.faults out.new) }
        ensures later { K.faults out.old ≤ K.faults out.new }
    {
        let n = self.n;
        let Ok(lines) = self.engine.step(&self.part, n, steps) else {
            return Err(Stop::NoMemory);
        };
        if let Err(stop) = put_lines(self.alloc, &lines.texts, out) {
            return Err(stop);
        }
        self.refused |= lines.refused;
        self.n += 1;
        self.part.clear();
        Ok(())
    }

    /// Answers a last line that no LF ends, if it is not empty, and tells how the work was done.
    fn finish<K: Sink>(&mut self, out: &mut K, steps: &mut Counts) -> Status
        requires { self.old.n < 2 ^ 63 }
        ensures put { (p : machine.Project) (buffer : ℕ) (q : Progress) → IsAt p buffer self.old q
            → (put : IsPutInPart (told_at_end p buffer q) (result ≡ Status.WriteFault) (K.contents out.old) (K.contents out.new) (K.calls out.old) (K.calls out.new))
            × (IsDone result → put.rest ≡ []) }
        ensures refusals { IsDone result → (p : machine.Project) (buffer : ℕ) (q : Progress) → IsAt p buffer self.old q
            → (result ≡ Status.DoneWithRefusals) ↔ IsTrue (ended p buffer q).refused }
        ensures form { IsDone result ⊎ (((result ≡ Status.WriteFault) × Rose (K.faults out.old) (K.faults out.new)) ⊎ (result ≡ Status.NoMemory)) }
        ensures later { K.faults out.old ≤ K.faults out.new }
    {
        match self.answer_last(out, steps) {
            Ok(()) => done(self.refused),
            Err(Stop::WriteFault) => Status::WriteFault,
            Err(Stop::NoMemory) => Status::NoMemory,
        }
    }

    /// Answers a last line that no LF ends, if it is not empty.
    fn answer_last<K: Sink>(&mut self, out: &mut K, steps: &mut Counts) -> Result<(), Stop>
        requires { self.old.n < 2 ^ 63 }
        ensures ok { OnOk result ((p : machine.Project) (buffer : ℕ) (q : Progress) → IsAt p buffer self.old q → IsAt p buffer self.new (ended p buffer q)
            × IsPut (told_at_end p buffer q) (K.contents out.old) (K.contents out.new) (K.calls out.old) (K.calls out.new)) }
        ensures err { IfErr result (λ stop. (p : machine.Project) (buffer : ℕ) (q : Progress) → IsAt p buffer self.old q
            → IsPutInPart (told_at_end p buffer q) (stop ≡ Stop.WriteFault) (K.contents out.old) (K.contents out.new) (K.calls out.old) (K.calls out.new)) }
        ensures write_fault { result ≡ Err Stop.WriteFault → Rose (K.faults out.old) (K.faults out.new) }
        ensures later { K.faults out.old ≤ K.faults out.new }
    {
        if self.part.is_empty() {
            return Ok(());
        }
        match self.answer(out, steps) {
            Ok(()) => Ok(()),
            Err(stop) => Err(stop),
        }
    }
}

/// How a script that was answered whole ends.
fn done(refused: bool) -> Status
    ensures done { IsDone result }
    ensures refusals { (result ≡ Status.DoneWithRefusals) ↔ IsTrue refused }
{
    if refused {
        Status::DoneWithRefusals
    } else {
        Status::Done
    }
}
