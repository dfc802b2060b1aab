//! The tokens that are still to be read, and the steps of one token.
ghost use Rattle.std.specs.Prelude.{◌≡◌, ◌==◌, List, length};
ghost use Rattle.std.specs.List.{list_any};
ghost use Rattle.sql_grammar_laws.specs.Kinds.{among};
ghost use Rattle.sql_grammar_laws.specs.Readings.{Outcome, Reads, crowded, is_err, one, opens, starts};
ghost use Rattle.sql_lexer.specs.Kinds.{is};
ghost use Rattle.sql_parser_steps.specs.Kinds.{kinds};
ghost use Rattle.sql_parser_steps.specs.Reads.{seen};

use sql_grammar_laws::{SyntaxError, SyntaxFault};
use sql_lexer::{Kind, Token};
use std::marker::Model;

/// How many elements a list or a chain has at most, without its first one.
pub const MAX_MORE: usize = 1023;

/// How many levels a statement nests at most.
pub const MAX_DEPTH: usize = 64;

/// The tokens that are still to be read.
#[derive(Drop)]
pub struct Parser<'a> {
    pub(crate) rest: &'a [Token],
}

impl<'a> Model for Parser<'a> {
    ghost use Rattle.std.specs.Prelude.{List};
    ghost use Rattle.sql_lexer.specs.declared.token.Token.{Token};

    ghost Value = { List Token };

    ghost view = { λ p. p.rest.now };
}

/// Whether the token is of one of these kinds.
fn is_any(token: &Token, choice: &[Kind]) -> bool
    ensures { result ≡ list_any (λ k. is k token.now) choice.now }
{
    choice.iter().any(|kind| token.is(*kind))
}

impl<'a> Parser<'a> {
    /// All of these tokens.
    pub fn new(rest: &'a [Token]) -> Parser<'a>
        ensures { result ≡ rest.now }
    {
        Parser { rest }
    }

    /// The tokens that are still to be read.
    pub fn rest(&self) -> &'a [Token]
        ensures { result.now ≡ self.now }
    {
        self.rest
    }

    /// Whether all tokens are read.
    pub fn is_done(&self) -> bool
        ensures { result ≡ (length self.now == 0) }
    {
        self.rest.is_empty()
    }

    /// Whether a token of this kind comes next.
    pub fn starts(&self, kind: Kind) -> bool
        ensures { result ≡ starts (is kind) self.now }
    {
        match self.rest {
            [] => false,
            [token, ..] => token.is(kind),
        }
    }

    /// Whether a token of one of these kinds comes next.
    pub fn starts_any(&self, choice: &[Kind]) -> bool
        ensures { result ≡ starts (among kinds choice.now) self.now }
    {
        match self.rest {
            [] => false,
            [token, ..] => is_any(token, choice),
        }
    }

    /// One token of this kind.
    pub fn one(&mut self, kind: Kind) -> Result<&'a Token, SyntaxError>
        ensures { Reads (one (is kind) self.old) (seen result) self.new }
    {
        match self.rest {
            [token, rest @ ..] if token.is(kind) => {
                self.rest = rest;
                Ok(token)
            }
            _ => Err(SyntaxError::Refused(SyntaxFault::Unexpected)),
        }
    }

    /// One token that opens a level, where `room` levels may still be opened.
    pub fn opens(&mut self, room: usize, kind: Kind) -> Result<&'a Token, SyntaxError>
        ensures { Reads (opens room (is kind) self.old) (seen result) self.new }
    {
        if room == 0 && self.starts(kind) {
            return Err(SyntaxError::Refused(SyntaxFault::TooDeep));
        }
        self.one(kind)
    }

    /// What is wrong with an element that is one too many.
    pub fn one_too_many<T: Drop>(
        &mut self,
        here: &'a [Token],
        element: Result<T, SyntaxError>,
    ) -> SyntaxError
        ensures { (o : Outcome Token T) → Reads o element self.old
            → Reads (crowded here.now o) (is_err {A = T} result) self.new }
    {
        let len = self.rest.len();
        self.rest = here;
        match element {
            Err(SyntaxError::Refused(refusal)) if len == here.len() => SyntaxError::Refused(
                refusal,
            ),
            Err(SyntaxError::OutOfMemory) => SyntaxError::OutOfMemory,
            _ => SyntaxError::Refused(SyntaxFault::TooWide),
        }
    }
}
