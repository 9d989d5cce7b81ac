//! Lists with `&` or `|` between, and perhaps one in front (GraphQL, October 2021, sections 3.6, 3.8 and
//! 3.13).
ghost use Rattle.std.specs.Prelude.{◌≡◌, ◌∷◌, ◌<◌, ℕ, List, length, Bool, Some, OnOk, IfOk, IfErr};
ghost use Rattle.gql_syntax.specs.gql_ast.declared.location.Location.{Location};
ghost use Rattle.gql_sdl.specs.Reads.{Anywhere, behind_implements, Led, behind_led_locations, led_locating, behind_led_names, led_names, behind_locations, MayList, MayLocate, MayNames, behind_names, NoDirective, Reads, set_repeatable, spell_led, spell_locations, spell_names, behind_union_members, before_locations, before_repeatable, before_names, before_implements, before_union_members};
ghost use Rattle.gql_sdl.specs.Schemas.{location_word, NotEmpty, spell_implements, spell_members_part, spell_repeatable};
ghost use Rattle.gql_syntax.specs.Answers.{Misses, node_count};
ghost use Rattle.gql_syntax.specs.Nexts.{behind, next_word, stopped_at};
ghost use Rattle.gql_syntax.specs.Places.{lay};

use crate::words::location_of;
use gql_syntax::gql_ast::{Location, Locations, Names};
use gql_syntax::{Cursor, Fault, expect_word, read_name};
use std::alloc::Global;

/// Reads one or more names with a separator between them, and perhaps one in front.
fn read_names(alloc: Global, separator: u8, cursor: &mut Cursor<'_>) -> Result<Names, Fault>
    ensures reads { Reads (MayList separator) before_names behind_names spell_names (λ (w : Led (List ℕ)). w.all) cursor.old cursor.new result }
    ensures some { IfOk result NotEmpty }
{
    if cursor.next_is(separator) {
        cursor.skip(0)?;
        return read_led_names(alloc, separator, cursor);
    }
    read_led_names(alloc, separator, cursor)
}

/// Reads one or more names with a separator between them.
fn read_led_names(alloc: Global, separator: u8, cursor: &mut Cursor<'_>) -> Result<Names, Fault>
    ensures reads { Reads (MayNames separator) led_names behind_led_names (spell_led 1 (λ (n : List ℕ). n)) (λ (ns : List (List ℕ)). ns) cursor.old cursor.new result }
    ensures some { IfOk result NotEmpty }
{
    let mut names = Names::new(alloc);
    let first = read_name(alloc, cursor, 1)?;
    names.push(first)?;
    'names: while cursor.next_is(separator) {
        cursor.skip(0)?;
        let name = read_name(alloc, cursor, 1)?;
        names.push(name)?;
    }
    names.items.shrink_to_fit();
    Ok(names)
}

/// Reads `implements` and the names of interfaces, where that word stands.
pub(crate) fn read_implements(alloc: Global, cursor: &mut Cursor<'_>) -> Result<Names, Fault>
    ensures reads { Reads Anywhere before_implements behind_implements (λ (w : Led (List ℕ)) (ns : List ℕ). spell_implements node_count w.leading w.all ns) (λ w. w.all) cursor.old cursor.new result }
{
    let Some(word) = cursor.next_word() else {
        return Ok(Names::new(alloc));
    };
    if word != "implements" {
        return Ok(Names::new(alloc));
    }
    cursor.skip(0)?;
    read_names(alloc, b'&', cursor)
}

/// Reads `=` and the names of the members of a union, where `=` stands.
pub(crate) fn read_union_members(alloc: Global, cursor: &mut Cursor<'_>) -> Result<Names, Fault>
    ensures reads { Reads NoDirective before_union_members behind_union_members (λ (w : Led (List ℕ)) (ns : List ℕ). spell_members_part node_count w.leading w.all ns) (λ w. w.all) cursor.old cursor.new result }
{
    if !cursor.next_is(b'=') {
        return Ok(Names::new(alloc));
    }
    cursor.skip(0)?;
    read_names(alloc, b'|', cursor)
}

/// Reads a location.
fn read_location(cursor: &mut Cursor<'_>) -> Result<Location, Fault>
    ensures name { IfOk result (λ l. next_word cursor.old.source ≡ Some (location_word l)) }
    ensures source { OnOk result (cursor.new.source ≡ behind cursor.old.source) }
    ensures places { OnOk result ((ns : List ℕ) → lay (0 ∷ ns) cursor.old ≡ lay ns cursor.new) }
    ensures same { cursor.new.text ≡ cursor.old.text }
    ensures fault { IfErr result (λ f. Misses f ((l : Location) → next_word cursor.old.source ≡ Some (location_word l) → ⊥) (stopped_at (length cursor.old.text) cursor.old.source)) }
{
    let Some(word) = cursor.next_word() else {
        return Err(cursor.fault());
    };
    let Some(location) = location_of(word) else {
        return Err(cursor.fault());
    };
    cursor.skip(0)?;
    Ok(location)
}

/// Reads one or more locations with `|` between them, and perhaps one in front.
pub(crate) fn read_locations(alloc: Global, cursor: &mut Cursor<'_>) -> Result<Locations, Fault>
    ensures reads { Reads Anywhere before_locations behind_locations spell_locations (λ (w : Led Location). w.all) cursor.old cursor.new result }
{
    if cursor.next_is(b'|') {
        cursor.skip(0)?;
        return read_led_locations(alloc, cursor);
    }
    read_led_locations(alloc, cursor)
}

/// Reads one or more locations with `|` between them.
fn read_led_locations(alloc: Global, cursor: &mut Cursor<'_>) -> Result<Locations, Fault>
    ensures reads { Reads MayLocate led_locating behind_led_locations (spell_led 0 location_word) (λ (ls : List Location). ls) cursor.old cursor.new result }
    ensures some { IfOk result NotEmpty }
{
    let mut locations = Locations::new(alloc);
    let first = read_location(cursor)?;
    locations.push(first)?;
    'locations: while cursor.next_is(b'|') {
        cursor.skip(0)?;
        let location = read_location(cursor)?;
        locations.push(location)?;
    }
    locations.items.shrink_to_fit();
    Ok(locations)
}

/// Reads `on`, and `repeatable` before it where that word stands.
pub(crate) fn read_repeatable(cursor: &mut Cursor<'_>) -> Result<bool, Fault>
    ensures reads { Reads Anywhere before_repeatable set_repeatable (λ (r : Bool) (ns : List ℕ). spell_repeatable node_count r (0 ∷ ns)) (λ r. r) cursor.old cursor.new result }
{
    let Some(word) = cursor.next_word() else {
        return Err(cursor.fault());
    };
    if word != "repeatable" {
        expect_word(cursor, "on", 0)?;
        return Ok(false);
    }
    cursor.skip(0)?;
    expect_word(cursor, "on", 0)?;
    Ok(true)
}
