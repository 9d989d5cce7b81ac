//! Places in a text, from its start to its end.
ghost use Rattle.std.specs.Prelude.{◌≡◌, ◌<◌, ◌-◌, ◌^◌, ◌≤◌, length, IsCharBoundary};
ghost use Rattle.gql_lex.specs.Lines.{place_at};

use crate::bytes::ends_line;
use crate::places::char_count;
use crate::tokens::Place;
use std::marker::Model;

/// A text of which a first part has been counted: lines, and the characters of the last one.
#[derive(Drop)]
pub struct Locator<'a> {
    text: &'a str,
    at: usize,
    line: u32,
    column: u32,
}

impl<'a> Model for Locator<'a> {
    ghost use Rattle.gql_lex.specs.Codes.{Progress, coded_progress};
    ghost use Rattle.gql_lex.specs.Counted.{IsCounted};

    ghost Value = { Progress };

    ghost coded = { coded_progress };

    ghost view = { λ l. record { text = l.text.now; at = l.at } };

    ghost invariant = { λ l. IsCounted l.text.now l.at l.line l.column };
}

impl<'a> Locator<'a> {
    /// The start of a text.
    pub fn new(text: &'a str) -> Locator<'a>
        requires short { length text.now < 2 ^ 32 - 1 }
        ensures { result ≡ record { text = text.now; at = 0 } }
    {
        Locator {
            text,
            at: 0,
            line: 1,
            column: 1,
        }
    }

    /// Goes forward to the start of a character, and tells its place.
    pub fn advance(&mut self, to: usize) -> Place
        requires forward { self.old.at ≤ to }
        requires between { IsCharBoundary self.old.text to }
        ensures is { result ≡ place_at self.old.text to }
        ensures moved { self.new ≡ record { text = self.old.text; at = to } }
    {
        let text = self.text;
        let bytes = text.as_bytes();
        let mut line = self.line;
        let mut column = self.column;
        let mut start = self.at;
        'ends: for i in self.at..to {
            if ends_line(bytes[i], &bytes[i + 1..]) {
                line += 1;
                column = 1;
                start = i + 1;
            }
        }
        column += char_count(&text[start..to]) as u32;
        self.at = to;
        self.line = line;
        self.column = column;
        Place { line, column }
    }
}
