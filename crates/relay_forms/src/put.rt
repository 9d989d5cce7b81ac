//! Putting pieces whole.
ghost use Rattle.std.specs.Prelude.{◌≡◌, ◌≤◌, ◌+◌, ◌++◌, ◌∷◌, [], ℕ, length, take, IfOk, IfErr, OnOk, OnErr};
ghost use Rattle.relay_forms.specs.Artifacts.{text_of_lines};
ghost use Rattle.relay_io.specs.Causes.{Rose};
ghost use Rattle.relay_io.specs.Streams.{append};

use plan_ir::{NoMemory, Words};
use relay_io::{Failed, Sink};
use std::alloc::Global;

/// Why a text is not put whole.
#[derive(Clone, Copy, Debug, Drop)]
pub enum Stop {
    /// A put failed; the sink has taken a part, from the beginning on.
    WriteFault,
    /// Out of memory; the sink was not called.
    NoMemory,
}

/// Puts a line and its LF as one piece.
pub fn put_line<K: Sink>(line: Words, out: &mut K) -> Result<(), Stop>
    ensures ok { IfOk result (λ _. (K.contents out.new ≡ append (K.contents out.old) (line ++ 10 ∷ []))
        × (K.calls out.new ≤ K.calls out.old + length (line ++ 10 ∷ []))) }
    ensures err { IfErr result (λ stop. (k : ℕ) × (k ≤ length (line ++ 10 ∷ []))
        × (K.contents out.new ≡ append (K.contents out.old) (take k (line ++ 10 ∷ [])))
        × (K.calls out.new ≤ K.calls out.old + k + 1) × (stop ≡ Stop.NoMemory → k ≡ 0)) }
    ensures write_fault { result ≡ Err Stop.WriteFault → Rose (K.faults out.old) (K.faults out.new) }
    ensures later { K.faults out.old ≤ K.faults out.new }
{
    let mut text = line.into_string();
    let Ok(()) = text.push('\n') else {
        return Err(Stop::NoMemory);
    };
    let Ok(()) = put_all(out, text.as_bytes()) else {
        return Err(Stop::WriteFault);
    };
    Ok(())
}

/// Puts lines, each with its LF, all as one piece.
pub fn put_lines<K: Sink>(alloc: Global, lines: &[Words], out: &mut K) -> Result<(), Stop>
    ensures ok { IfOk result (λ _. (K.contents out.new ≡ append (K.contents out.old) (text_of_lines lines.now))
        × (K.calls out.new ≤ K.calls out.old + length (text_of_lines lines.now))) }
    ensures err { IfErr result (λ stop. (k : ℕ) × (k ≤ length (text_of_lines lines.now))
        × (K.contents out.new ≡ append (K.contents out.old) (take k (text_of_lines lines.now)))
        × (K.calls out.new ≤ K.calls out.old + k + 1) × (stop ≡ Stop.NoMemory → k ≡ 0)) }
    ensures write_fault { result ≡ Err Stop.WriteFault → Rose (K.faults out.old) (K.faults out.new) }
    ensures later { K.faults out.old ≤ K.faults out.new }
{
    let Ok(bytes) = bytes_of(alloc, lines) else {
        return Err(Stop::NoMemory);
    };
    let Ok(()) = put_all(out, &bytes) else {
        return Err(Stop::WriteFault);
    };
    Ok(())
}

/// The bytes of lines, each with its LF.
pub fn bytes_of(alloc: Global, lines: &[Words]) -> Result<Vec<u8>, NoMemory>
    ensures { IfOk result (λ bytes. bytes.items ≡ text_of_lines lines.now) }
{
    let mut bytes = Vec::new(alloc);
    'lines: for line in lines {
        bytes.extend_from_slice(line.as_str().as_bytes())?;
        bytes.push(b'\n')?;
    }
    Ok(bytes)
}

/// Puts the bytes, and goes on until the sink has taken them whole.
///
/// # Errors
///
/// `Failed` where a put failed; the sink has taken a part, from the beginning on.
fn put_all<K: Sink>(out: &mut K, bytes: &[u8]) -> Result<(), Failed>
    ensures ok { OnOk result (K.contents out.new ≡ append (K.contents out.old) bytes.now) }
    ensures calls { OnOk result (K.calls out.new ≤ K.calls out.old + length bytes.now) }
    ensures err { OnErr result ((k : ℕ) × (k ≤ length bytes.now)
        × (K.contents out.new ≡ append (K.contents out.old) (take k bytes.now)) × (K.calls out.new ≤ K.calls out.old + k + 1)) }
    ensures failed { OnErr result (Rose (K.faults out.old) (K.faults out.new)) }
    ensures later { K.faults out.old ≤ K.faults out.new }
{
    let mut taken = 0;
    'puts: while taken < bytes.len() {
        let Ok(count) = out.put(&bytes[taken..]) else {
            return Err(Failed);
        };
        taken += count;
    }
    Ok(())
}
