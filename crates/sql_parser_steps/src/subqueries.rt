//! Queries in parentheses, one level further in.
ghost use Rattle.sql_grammar_laws.specs.Readings.{Reads};
ghost use Rattle.sql_parser_steps.specs.Nests.{Below};
ghost use Rattle.sql_parser_steps.specs.ExpressionReadings as readings;
ghost use Rattle.sql_parser_steps.specs.Readings.{inner_query, query_at};

use crate::parser::Parser;
use crate::test::Compared;
use sql_ast::{Block, Expr};
use sql_grammar_laws::SyntaxError;
use sql_lexer::Kind;
use sqlite_items::Boxed;
use std::alloc::Global;

/// What holds a query of the level below. `query` reads it; `room` is how many levels may still be
/// opened.
#[derive(Clone, Copy)]
pub struct Subqueries<Q> {
    /// The allocator of what is read.
    pub alloc: Global,
    /// How many levels may still be opened.
    pub room: usize,
    /// Reads a query.
    pub query: Q,
}

impl<Q: Fn(Global, &mut Parser<'_>, usize) -> Result<Boxed<Block>, SyntaxError>> Subqueries<Q> {
    /// `"(" query ")"`.
    #[tactic(auto, using(crate::proofs::Inner::rules_inner), unfolding(crate::specs::ExpressionReadings::read_subquery))]
    pub fn subquery(&self, parser: &mut Parser<'_>) -> Result<Boxed<Block>, SyntaxError>
        requires query { Below (query_at 1023) self.now.room (Q.pre self.now.query)
            (Q.post self.now.query) }
        ensures { Reads (readings.read_subquery self.now.room (inner_query 1023 self.now.room)
            parser.old) result parser.new }
    {
        parser.opens(self.room, Kind::OpenParen)?;
        let query = (self.query)(self.alloc, parser, self.room - 1)?;
        parser.one(Kind::CloseParen)?;
        Ok(query)
    }

    /// `exists "(" query ")"`.
    #[tactic(auto, unfolding(crate::specs::ExpressionReadings::read_exists))]
    pub fn exists(&self, parser: &mut Parser<'_>) -> Result<Boxed<Expr>, SyntaxError>
        requires query { Below (query_at 1023) self.now.room (Q.pre self.now.query)
            (Q.post self.now.query) }
        ensures { Reads (readings.read_exists self.now.room (inner_query 1023 self.now.room)
            parser.old) result parser.new }
    {
        parser.one(Kind::Exists)?;
        let query = self.subquery(parser)?;
        Ok(Boxed::new(self.alloc, Expr::Exists(query))?)
    }

    /// `(any | some | all) "(" query ")"`.
    #[tactic(auto, unfolding(crate::specs::ExpressionReadings::read_compared_query))]
    pub fn compared(&self, parser: &mut Parser<'_>) -> Result<Compared, SyntaxError>
        requires query { Below (query_at 1023) self.now.room (Q.pre self.now.query)
            (Q.post self.now.query) }
        ensures { Reads (readings.read_compared_query self.now.room
            (inner_query 1023 self.now.room) parser.old) result parser.new }
    {
        let quantifier = parser.quantifier()?;
        let query = self.subquery(parser)?;
        Ok(Compared::Query(quantifier, query))
    }
}
