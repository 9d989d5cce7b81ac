//! A text read token by token, with the places of the nodes that its tokens begin.
ghost use Rattle.std.specs.Prelude.{◌≡◌, ◌≢◌, true, false, ◌<◌, ◌-◌, ◌^◌, [], ◌∷◌, ◌++◌, ℕ, List, length, OnOk, IfSome, None, Some, replicate};
ghost use Rattle.gql_lex.specs.Answers.{piece_of};
ghost use Rattle.gql_lex.specs.Heads.{IsToken};
ghost use Rattle.gql_lex.specs.Sources.{ended, lex_from, token};
ghost use Rattle.gql_syntax.specs.Answers.{wrong_at};
ghost use Rattle.gql_syntax.specs.Nexts.{behind, IsLast, next_is, next_is_text, next_word, repeat, stopped_at, too_deep_at};
ghost use Rattle.gql_syntax.specs.Places.{lay};

use crate::fault::{Fault, TOO_DEEP, UNEXPECTED};
use gql_ast::gql_plain::NoMemory;
use gql_ast::{FilePlace, FilePlaces};
use gql_lex::{LexFault, Lexer, Locator, Token, TokenKind};
use std::alloc::Global;
use std::marker::Model;

/// The text of a file, of which the next token has been read.
///
/// Contracts see the file and its text, the tokens that lie ahead with the fault after them where
/// there is one, and the places so far.
#[derive(Drop)]
pub struct Cursor<'a> {
    file: u32,
    text: &'a str,
    lexer: Lexer<'a>,
    next: Result<Option<Token<'a>>, LexFault>,
    locator: Locator<'a>,
    places: FilePlaces,
}

impl<'a> Model for Cursor<'a> {
    ghost use Rattle.std.specs.Prelude.{◌≡◌};
    ghost use Rattle.gql_syntax.specs.Codes.{coded_ahead};
    ghost use Rattle.gql_syntax.specs.Nexts.{source_of, InOrder};
    ghost use Rattle.gql_syntax.specs.Places.{Ahead};

    ghost Value = { Ahead };

    ghost coded = { coded_ahead };

    ghost view = { λ c. record { file = c.file; text = c.text.now; source = source_of c.next c.lexer; places = c.places } };

    ghost invariant = { λ c. (c.locator.text ≡ c.text.now) × InOrder c.text.now c.locator.at (source_of c.next c.lexer) };
}

impl<'a> Cursor<'a> {
    /// The start of a text, with no places; takes no memory.
    pub fn new(alloc: Global, file: u32, text: &'a str) -> Cursor<'a>
        requires short { length text.now < 2 ^ 32 - 1 }
        ensures { result ≡ record { file = file; text = text.now; source = lex_from 0 text.now; places = [] } }
    {
        let mut lexer = Lexer::new(text);
        let next = lexer.next();
        Cursor {
            file,
            text,
            lexer,
            next,
            locator: Locator::new(text),
            places: FilePlaces::new(alloc),
        }
    }

    /// The next token, or None where the text ends or has a lexical fault next.
    pub fn peek(&self) -> Option<Token<'a>>
        ensures some { IfSome result (λ t. self.now.source ≡ token (piece_of t) (behind self.now.source)) }
        ensures form { IfSome result (λ t. IsToken t.kind t.text.now) }
        ensures none { result ≡ None → IsLast self.now.source }
    {
        match self.next {
            Ok(next) => next,
            Err(_) => None,
        }
    }

    /// Whether the next token is the punctuator that begins with this byte.
    pub fn next_is(&self, punctuator: u8) -> bool
        ensures { result ≡ next_is punctuator self.now.source }
    {
        match self.peek() {
            Some(token) => match token.kind {
                TokenKind::Punct => token.text.as_bytes()[0] == punctuator,
                _ => false,
            },
            None => false,
        }
    }

    /// The next token where it is a Name.
    pub fn next_word(&self) -> Option<&'a str>
        ensures some { IfSome result (λ w. next_word self.now.source ≡ Some w.now) }
        ensures none { result ≡ None → next_word self.now.source ≡ None }
    {
        match self.peek() {
            Some(token) => match token.kind {
                TokenKind::Name => Some(token.text),
                _ => None,
            },
            None => None,
        }
    }

    /// Whether the next token is a string, in either form.
    pub fn next_is_text(&self) -> bool
        ensures { result ≡ next_is_text self.now.source }
    {
        match self.peek() {
            Some(token) => match token.kind {
                TokenKind::Text => true,
                TokenKind::Block => true,
                _ => false,
            },
            None => false,
        }
    }

    /// Takes the next token, at which so many nodes begin. Where there is none, nothing is taken.
    pub fn skip(&mut self, nodes: usize) -> Result<(), NoMemory>
        ensures source { OnOk result (self.new.source ≡ behind self.old.source) }
        ensures places { OnOk result ((ns : List ℕ) → lay (nodes ∷ ns) self.old ≡ lay ns self.new) }
        ensures same { self.new.text ≡ self.old.text }
        ensures file { self.new.file ≡ self.old.file }
    {
        match self.next {
            Ok(Some(token)) => {
                let place = self.locator.advance(token.start);
                let place = FilePlace {
                    file: self.file,
                    line: place.line,
                    column: place.column,
                };
                push_times(&mut self.places, place, nodes)?;
                self.next = self.lexer.next();
                Ok(())
            }
            Ok(None) => Ok(()),
            Err(_) => Ok(()),
        }
    }

    /// What is wrong with the text if the next token may not stand where it stands, or the text may
    /// not end there.
    pub fn fault(&self) -> Fault
        ensures { result ≡ wrong_at (stopped_at (length self.now.text) self.now.source) }
    {
        match self.next {
            Ok(Some(token)) => Fault::Wrong {
                code: UNEXPECTED,
                at: token.start,
            },
            Ok(None) => Fault::Wrong {
                code: UNEXPECTED,
                at: self.text.len(),
            },
            Err(fault) => Fault::Wrong {
                code: fault.code,
                at: fault.at,
            },
        }
    }

    /// What is wrong with the text if the next token opens too much.
    pub fn too_deep(&self) -> Fault
        ensures { result ≡ wrong_at (too_deep_at (length self.now.text) self.now.source) }
    {
        match self.next {
            Ok(Some(token)) => Fault::Wrong {
                code: TOO_DEEP,
                at: token.start,
            },
            _ => self.fault(),
        }
    }

    /// Whether the text ends, with no fault, where the next token would stand.
    pub fn is_at_end(&self) -> bool
        ensures is { result ≡ true → self.now.source ≡ ended }
        ensures not { result ≡ false → self.now.source ≢ ended }
    {
        match self.next {
            Ok(None) => true,
            Ok(Some(_)) => false,
            Err(_) => false,
        }
    }

    /// How many places there are so far.
    pub fn place_count(&self) -> usize
        ensures { result ≡ length self.now.places }
    {
        self.places.len()
    }

    /// One node more begins where the one does that has this number: an outer one that is found
    /// later.
    pub fn repeat_place(&mut self, number: usize) -> Result<(), NoMemory>
        requires { number < length self.old.places }
        ensures { OnOk result (self.new ≡ record self.old { places = repeat number self.old.places }) }
    {
        repeat_at(&mut self.places, number)?;
        Ok(())
    }

    /// The places of the nodes, in text order.
    pub fn into_places(self) -> FilePlaces
        ensures { result ≡ self.entry.places }
    {
        let mut places = self.places;
        places.items.shrink_to_fit();
        places
    }
}

/// Puts a place at the end, so many times.
fn push_times(places: &mut FilePlaces, place: FilePlace, times: usize) -> Result<(), NoMemory>
    ensures { OnOk result (places.new ≡ places.old ++ replicate times place) }
{
    'times: for _ in 0..times {
        places.push(place)?;
    }
    Ok(())
}

/// Puts a place once more before itself.
fn repeat_at(places: &mut FilePlaces, number: usize) -> Result<(), NoMemory>
    requires { number < length places.old }
    ensures { OnOk result (places.new ≡ repeat number places.old) }
{
    let place = places.items[number];
    places.items.insert(number, place)?;
    Ok(())
}
