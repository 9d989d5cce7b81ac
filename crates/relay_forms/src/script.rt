//! The bytes of a script: its lines, and how much of each is looked at.
ghost use Rattle.std.specs.Prelude.{◌≡◌, ◌+◌, ◌-◌, ◌++◌, ◌∷◌, ◌==◌, None, take, vec_len, IfOk, IfSome};
ghost use Rattle.std.specs.List.{position};
ghost use Rattle.plan_ir.specs.gql_plain.Limits.{max_line};
ghost use Rattle.relay_forms.specs.Scripts.{HasNoEnd};

use plan_ir::{MAX_LINE, NoMemory};
use std::alloc::Global;

/// The most bytes that a script has: 1 GiB.
pub const MAX_SCRIPT: usize = 1 << 30;

/// The most bytes of a script that are asked for at once.
pub const PIECE: usize = 65_536;

/// Room for so many bytes.
pub fn room(alloc: Global, count: usize) -> Result<Vec<u8>, NoMemory>
    ensures { IfOk result (λ room. vec_len room ≡ count) }
{
    Ok(vec![in alloc; 0u8; count]?)
}

/// Of bytes of a line, of which so many came before, as much as is looked at: of the whole line at most
/// 8 MiB and one byte; takes no memory.
pub fn cut(bytes: &[u8], before: usize) -> &[u8]
    ensures { result.now ≡ take (max_line + 1 - before) bytes.now }
{
    &bytes[..bytes.len().min((MAX_LINE + 1).saturating_sub(before))]
}

/// The first line that ends in some bytes, without its LF, and the bytes behind it. None where no line
/// ends in them; takes no memory.
pub fn first_line(bytes: &[u8]) -> Option<(&[u8], &[u8])>
    ensures some { IfSome result (λ found. (bytes.now ≡ found.0.now ++ 10 ∷ found.1.now) × HasNoEnd found.0.now) }
    ensures none { result ≡ None → HasNoEnd bytes.now }
{
    match end_of_line(bytes) {
        Some(end) => Some((&bytes[..end], &bytes[end + 1..])),
        None => None,
    }
}

/// Where the first LF stands.
fn end_of_line(bytes: &[u8]) -> Option<usize>
    ensures { result ≡ position (λ b. b == 10) bytes.now }
{
    bytes.iter().position(|b| *b == b'\n')
}
