//! Parentheses that may hold a query: operands, EXISTS and IN.
ghost use Rattle.sql_grammar_laws.specs.Readings.{Reads, both, one};
ghost use Rattle.sql_lexer.specs.Kinds.{is};
ghost use Rattle.sql_lexer.specs.declared.kind.Kind.TheVariants as k;
ghost use Rattle.sql_parser_steps.specs.Nests.{Below};
ghost use Rattle.sql_parser_steps.specs.ExpressionReadings as readings;
ghost use Rattle.sql_parser_steps.specs.Readings.{inner_part, inner_query, part_at, query_at};
ghost use Rattle.sql_parser_steps.specs.Values as values;
ghost use Rattle.std.specs.Prelude.{◌<◌};

use crate::calls::Calls;
use crate::level::Level;
use sql_ast::{Block, Expr};
use sql_grammar_laws::SyntaxError;
use sql_lexer::Kind;
use sql_parser_steps::{Parser, Subqueries, Test};
use sqlite_items::Boxed;
use std::alloc::Global;

/// What holds queries and expressions of the level below. `part` and `query` read them; `room` is
/// how many levels may still be opened.
#[derive(Clone, Copy)]
pub(crate) struct Nested<P, Q> {
    pub(crate) alloc: Global,
    pub(crate) room: usize,
    pub(crate) part: P,
    pub(crate) query: Q,
}

impl<
    P: Copy + Fn(Global, &mut Parser<'_>, usize) -> Result<Boxed<Expr>, SyntaxError>,
    Q: Copy + Fn(Global, &mut Parser<'_>, usize) -> Result<Boxed<Block>, SyntaxError>,
> Nested<P, Q> {
    /// `query | e`, where `room` levels may still be opened.
    #[tactic(auto, unfolding(sql_parser_steps::specs::ExpressionReadings::read_parens_inside))]
    fn parens_inside(
        &self,
        parser: &mut Parser<'_>,
        room: usize,
    ) -> Result<Boxed<Expr>, SyntaxError>
        requires room { room < self.now.room }
        requires part { Below (part_at 1023) self.now.room (P.pre self.now.part)
            (P.post self.now.part) }
        requires query { Below (query_at 1023) self.now.room (Q.pre self.now.query)
            (Q.post self.now.query) }
        ensures { Reads (readings.read_parens_inside 1023 (part_at 1023 room) (query_at 1023 room)
            parser.old) result parser.new }
    {
        if parser.starts(Kind::Select) {
            let query = (self.query)(self.alloc, parser, room)?;
            return Ok(Boxed::new(self.alloc, Expr::Scalar(query))?);
        }
        let level = Level {
            alloc: self.alloc,
            room,
            part: self.part,
        };
        let value = level.whole(parser)?;
        Ok(value)
    }

    /// `"(" (query | e) ")"`.
    #[tactic(auto, using(sql_parser_steps::proofs::Inner::rules_inner), unfolding(sql_parser_steps::specs::ExpressionReadings::read_parens))]
    fn parens(&self, parser: &mut Parser<'_>) -> Result<Boxed<Expr>, SyntaxError>
        requires part { Below (part_at 1023) self.now.room (P.pre self.now.part)
            (P.post self.now.part) }
        requires query { Below (query_at 1023) self.now.room (Q.pre self.now.query)
            (Q.post self.now.query) }
        ensures { Reads (readings.read_parens 1023 self.now.room (inner_part 1023 self.now.room)
            (inner_query 1023 self.now.room) parser.old) result parser.new }
    {
        parser.opens(self.room, Kind::OpenParen)?;
        let value = self.parens_inside(parser, self.room - 1)?;
        parser.one(Kind::CloseParen)?;
        Ok(value)
    }

    /// What a unary part is without a sign.
    #[tactic(auto, unfolding(sql_parser_steps::specs::ExpressionReadings::read_operand))]
    pub(crate) fn operand(&self, parser: &mut Parser<'_>) -> Result<Boxed<Expr>, SyntaxError>
        requires part { Below (part_at 1023) self.now.room (P.pre self.now.part)
            (P.post self.now.part) }
        requires query { Below (query_at 1023) self.now.room (Q.pre self.now.query)
            (Q.post self.now.query) }
        ensures { Reads (readings.read_operand 1023 self.now.room (inner_part 1023 self.now.room)
            (inner_query 1023 self.now.room) parser.old) result parser.new }
    {
        if parser.starts(Kind::OpenParen) {
            return self.parens(parser);
        }
        if parser.starts(Kind::Exists) {
            let subqueries = Subqueries {
                alloc: self.alloc,
                room: self.room,
                query: self.query,
            };
            return subqueries.exists(parser);
        }
        let calls = Calls {
            alloc: self.alloc,
            room: self.room,
            part: self.part,
        };
        if parser.starts(Kind::Case) {
            return calls.case(parser);
        }
        if parser.starts_any(&[
            Kind::Extract,
            Kind::Substring,
            Kind::Count,
            Kind::Sum,
            Kind::Avg,
            Kind::Min,
            Kind::Max,
        ]) {
            return calls.call(parser);
        }
        let leaf = parser.leaf(self.alloc, self.room)?;
        Ok(Boxed::new(self.alloc, leaf)?)
    }

    /// `(query | e {"," e}) ")"`, where `room` levels may still be opened.
    #[tactic(auto, unfolding(sql_parser_steps::specs::ExpressionReadings::read_in_inside))]
    fn in_inside(&self, parser: &mut Parser<'_>, room: usize) -> Result<Test, SyntaxError>
        requires room { room < self.now.room }
        requires part { Below (part_at 1023) self.now.room (P.pre self.now.part)
            (P.post self.now.part) }
        requires query { Below (query_at 1023) self.now.room (Q.pre self.now.query)
            (Q.post self.now.query) }
        ensures { Reads (both values.first (readings.read_in_inside 1023 (part_at 1023 room)
            (query_at 1023 room)) (one (is k.CloseParen)) parser.old) result parser.new }
    {
        if parser.starts(Kind::Select) {
            let query = (self.query)(self.alloc, parser, room)?;
            parser.one(Kind::CloseParen)?;
            return Ok(Test::InQuery(false, query));
        }
        let level = Level {
            alloc: self.alloc,
            room,
            part: self.part,
        };
        let list = level.expr_list(parser)?;
        parser.one(Kind::CloseParen)?;
        Ok(Test::InList(false, list))
    }

    /// `in "(" (query | e {"," e}) ")"`.
    #[tactic(auto, using(sql_parser_steps::proofs::Inner::rules_inner), unfolding(sql_parser_steps::specs::ExpressionReadings::read_in))]
    pub(crate) fn in_test(&self, parser: &mut Parser<'_>) -> Result<Test, SyntaxError>
        requires part { Below (part_at 1023) self.now.room (P.pre self.now.part)
            (P.post self.now.part) }
        requires query { Below (query_at 1023) self.now.room (Q.pre self.now.query)
            (Q.post self.now.query) }
        ensures { Reads (readings.read_in 1023 self.now.room (inner_part 1023 self.now.room)
            (inner_query 1023 self.now.room) parser.old) result parser.new }
    {
        parser.one(Kind::In)?;
        parser.opens(self.room, Kind::OpenParen)?;
        self.in_inside(parser, self.room - 1)
    }
}
