//! Lists between two punctuators (GraphQL, October 2021, sections 2 and 3).
ghost use Rattle.gql_syntax.specs.Enclosed.{Encloses, TakesTokens};

use crate::cursor::Cursor;
use crate::fault::Fault;
use crate::names::expect;
use std::alloc::Global;

/// Reads a list between two punctuators and returns its members, one or more, in text order.
///
/// Each punctuator is given by its first byte, and no node begins at it. `read` reads a member where
/// the closing one does not stand. A fault is reported where the opening one does not stand, where
/// the closing one follows it at once, or in a member.
pub fn read_members<T: Drop, F: Fn(Global, &mut Cursor<'_>) -> Result<T, Fault>>(
    alloc: Global,
    opening: u8,
    closing: u8,
    cursor: &mut Cursor<'_>,
    read: F,
) -> Result<Vec<T>, Fault>
    requires callable { F.IsAlwaysCallable read }
    requires taken { TakesTokens (F.post read alloc) }
    ensures reads { Encloses opening closing (F.post read alloc) cursor.old cursor.new result }
{
    expect(cursor, opening, 0)?;
    if cursor.next_is(closing) {
        return Err(cursor.fault());
    }
    // Most lists of a text have one member.
    let mut members = Vec::with_capacity(alloc, 1)?;
    'members: loop {
        let member = read(alloc, cursor)?;
        members.push(member)?;
        if cursor.next_is(closing) {
            cursor.skip(0)?;
            members.shrink_to_fit();
            return Ok(members);
        }
    }
}
