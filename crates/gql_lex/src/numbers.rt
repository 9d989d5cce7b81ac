//! Whole numbers.
ghost use Rattle.std.specs.Prelude.{◌≡◌, ◌≤◌, ◌<◌, length, drop, take};
ghost use Rattle.std.specs.List.{prefix_len};
ghost use Rattle.std.specs.Str.Parse.{AllDigits};
ghost use Rattle.gql_lex.specs.Characters.{is_digit};
ghost use Rattle.gql_lex.specs.Numbers.{digits_len, is_in_i64, sign_len};

use crate::bytes::{byte_at, is_digit};

/// How many digits stand in front.
#[tactic(auto, using(crate::proofs::Digits::digit_runs))]
fn digit_run(bytes: &[u8]) -> usize
    ensures is { result ≡ prefix_len is_digit bytes.now }
    ensures within { result ≤ length bytes.now }
{
    bytes.iter().take_while(|b| is_digit(**b)).count()
}

/// How many bytes the sign of a number has.
pub fn sign_len(bytes: &[u8]) -> usize
    ensures is { result ≡ sign_len bytes.now }
    ensures within { result ≤ length bytes.now }
{
    if byte_at(bytes, 0) == b'-' { 1 } else { 0 }
}

/// How many bytes `0`, or a digit 1 to 9 with further digits, has; 0 where no digit stands.
#[tactic(auto, using(crate::proofs::Digits::digit_runs))]
pub fn digits_len(bytes: &[u8]) -> usize
    ensures is { result ≡ digits_len bytes.now }
    ensures within { result ≤ length bytes.now }
    ensures digits { AllDigits 10 (take result bytes.now) }
{
    if byte_at(bytes, 0) == b'0' {
        1
    } else {
        digit_run(bytes)
    }
}

/// Whether the number that a sign and digits write lies within i64.
pub fn is_in_i64(text: &[u8]) -> bool
    requires some { sign_len text.now < length text.now }
    requires digits { AllDigits 10 (drop (sign_len text.now) text.now) }
    ensures { result ≡ is_in_i64 text.now }
{
    match std::str::from_utf8(text) {
        Ok(digits) => digits.parse::<i64>().is_ok(),
        Err(_) => false,
    }
}
