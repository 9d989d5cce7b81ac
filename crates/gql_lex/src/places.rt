//! Places in a text.
ghost use Rattle.std.specs.Prelude.{◌≡◌, ◌<◌, ◌-◌, ◌^◌, ◌≤◌, chars, length, IsCharBoundary};
ghost use Rattle.gql_lex.specs.Lines.{place_at};

use crate::locator::Locator;
use crate::tokens::Place;

/// The place of a byte: lines end at LF, CR or CR LF, and columns count characters, the byte order
/// mark too.
pub fn place(text: &str, at: usize) -> Place
    requires short { length text.now < 2 ^ 32 - 1 }
    requires between { IsCharBoundary text.now at }
    ensures { result ≡ place_at text.now at }
{
    let mut locator = Locator::new(text);
    locator.advance(at)
}

/// How many characters a text has.
pub(crate) fn char_count(text: &str) -> usize
    ensures count { result ≡ length (chars text.now) }
    ensures within { result ≤ length text.now }
{
    text.chars().count()
}
