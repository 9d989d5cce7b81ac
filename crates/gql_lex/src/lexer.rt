//! The tokens of a text, one by one.
ghost use Rattle.std.specs.Prelude.{◌≡◌, IfOk, IfSome};
ghost use Rattle.gql_lex.specs.Answers.{Gives};
ghost use Rattle.gql_lex.specs.Descriptions.{Describes};
ghost use Rattle.gql_lex.specs.Heads.{IsToken};
ghost use Rattle.gql_lex.specs.Sources.{lex_from};

use crate::heads::head;
use crate::tokens::{Head, LexFault, Token};
use std::marker::Model;

/// A text whose tokens are read one by one: seen as the tokens that lie ahead, and the fault after
/// them where there is one.
#[derive(Drop)]
pub struct Lexer<'a> {
    text: &'a str,
    at: usize,
}

impl<'a> Model for Lexer<'a> {
    ghost use Rattle.std.specs.Prelude.{◌≤◌, length, drop};
    ghost use Rattle.gql_lex.specs.Codes.{coded_source};
    ghost use Rattle.gql_lex.specs.Sources.{Source, lex_from};

    ghost Value = { Source };

    ghost coded = { coded_source };

    ghost view = { λ l. lex_from l.at (drop l.at l.text.now) };

    ghost invariant = { λ l. l.at ≤ length l.text.now };
}

impl<'a> Lexer<'a> {
    /// A lexer at the start of a text.
    pub fn new(text: &'a str) -> Lexer<'a>
        ensures ahead { result ≡ lex_from 0 text.now }
        ensures describes { Describes text.now 0 result }
    {
        Lexer { text, at: 0 }
    }

    /// The next token, or None where only ignored text is left. A fault comes again at each later
    /// call.
    pub fn next(&mut self) -> Result<Option<Token<'a>>, LexFault>
        ensures gives { Gives result self.new self.old }
        ensures form { IfOk result (λ next. IfSome next (λ token. IsToken token.kind token.text.now)) }
    {
        let text = self.text;
        let bytes = text.as_bytes();
        let mut at = self.at;
        'ignored: while at < bytes.len() {
            match head(bytes, at) {
                Head::Ignored(more) => at += 1 + more,
                Head::Found(kind, more) => {
                    let end = at + (1 + more);
                    self.at = end;
                    return Ok(Some(Token {
                        kind,
                        text: &text[at..end],
                        start: at,
                        end,
                    }));
                }
                Head::Wrong(code, ahead) => {
                    self.at = at;
                    return Err(LexFault {
                        code,
                        at: at + ahead,
                    });
                }
            }
        }
        self.at = bytes.len();
        Ok(None)
    }
}
