//! Predicates: a sum, and what is asked of it.
ghost use Rattle.sql_grammar_laws.specs.Readings.{Reads};
ghost use Rattle.sql_parser_steps.specs.Nests.{At, Below};
ghost use Rattle.sql_parser_steps.specs.ExpressionReadings as readings;
ghost use Rattle.sql_parser_steps.specs.Readings.{inner_part, inner_query, part_at, query_at, unary_at};

use crate::nested::Nested;
use crate::sums::Sums;
use sql_ast::{Block, Expr};
use sql_grammar_laws::SyntaxError;
use sql_lexer::Kind;
use sql_parser_steps::parts::{opposite, tested};
use sql_parser_steps::{Compared, Parser, Subqueries, Test};
use sqlite_items::Boxed;
use std::alloc::Global;

/// What holds unary parts of one level, and parts of levels below. `room` is how many levels may
/// still be opened.
#[derive(Clone, Copy)]
pub(crate) struct Predicates<U, P, Q> {
    pub(crate) alloc: Global,
    pub(crate) room: usize,
    pub(crate) unary: U,
    pub(crate) part: P,
    pub(crate) query: Q,
}

impl<
    U: Copy + Fn(Global, &mut Parser<'_>, usize) -> Result<Boxed<Expr>, SyntaxError>,
    P: Copy + Fn(Global, &mut Parser<'_>, usize) -> Result<Boxed<Expr>, SyntaxError>,
    Q: Copy + Fn(Global, &mut Parser<'_>, usize) -> Result<Boxed<Block>, SyntaxError>,
> Predicates<U, P, Q> {
    /// What a NOT may stand before.
    #[tactic(auto, unfolding(sql_parser_steps::specs::ExpressionReadings::read_deny_test))]
    fn deny_test(&self, parser: &mut Parser<'_>) -> Result<Test, SyntaxError>
        requires unary { At (unary_at 1023) self.now.room (U.pre self.now.unary)
            (U.post self.now.unary) }
        requires part { Below (part_at 1023) self.now.room (P.pre self.now.part)
            (P.post self.now.part) }
        requires query { Below (query_at 1023) self.now.room (Q.pre self.now.query)
            (Q.post self.now.query) }
        ensures { Reads (readings.read_deny_test 1023 self.now.room (unary_at 1023 self.now.room)
            (inner_part 1023 self.now.room) (inner_query 1023 self.now.room) parser.old) result
            parser.new }
    {
        if parser.starts(Kind::Between) {
            let sums = Sums {
                alloc: self.alloc,
                room: self.room,
                unary: self.unary,
            };
            return sums.between(parser);
        }
        if parser.starts(Kind::Like) {
            return parser.like(self.alloc);
        }
        let nested = Nested {
            alloc: self.alloc,
            room: self.room,
            part: self.part,
            query: self.query,
        };
        nested.in_test(parser)
    }

    /// What a sum is compared with.
    #[tactic(auto, unfolding(sql_parser_steps::specs::ExpressionReadings::read_compared))]
    fn compared(&self, parser: &mut Parser<'_>) -> Result<Compared, SyntaxError>
        requires unary { At (unary_at 1023) self.now.room (U.pre self.now.unary)
            (U.post self.now.unary) }
        requires query { Below (query_at 1023) self.now.room (Q.pre self.now.query)
            (Q.post self.now.query) }
        ensures { Reads (readings.read_compared 1023 self.now.room (unary_at 1023 self.now.room)
            (inner_query 1023 self.now.room) parser.old) result parser.new }
    {
        if parser.starts_any(&[Kind::Any, Kind::Some, Kind::All]) {
            let subqueries = Subqueries {
                alloc: self.alloc,
                room: self.room,
                query: self.query,
            };
            return subqueries.compared(parser);
        }
        let sums = Sums {
            alloc: self.alloc,
            room: self.room,
            unary: self.unary,
        };
        let value = sums.sum(parser)?;
        Ok(Compared::Sum(value))
    }

    /// A comparison and its right side.
    #[tactic(auto, unfolding(sql_parser_steps::specs::ExpressionReadings::read_compare))]
    fn compare(&self, parser: &mut Parser<'_>) -> Result<Test, SyntaxError>
        requires unary { At (unary_at 1023) self.now.room (U.pre self.now.unary)
            (U.post self.now.unary) }
        requires query { Below (query_at 1023) self.now.room (Q.pre self.now.query)
            (Q.post self.now.query) }
        ensures { Reads (readings.read_compare 1023 self.now.room (unary_at 1023 self.now.room)
            (inner_query 1023 self.now.room) parser.old) result parser.new }
    {
        let comparison = parser.comparison()?;
        let compared = self.compared(parser)?;
        Ok(Test::Compare(comparison, compared))
    }

    /// What is asked of a sum.
    #[tactic(auto, unfolding(sql_parser_steps::specs::ExpressionReadings::read_test))]
    fn test(&self, parser: &mut Parser<'_>) -> Result<Test, SyntaxError>
        requires unary { At (unary_at 1023) self.now.room (U.pre self.now.unary)
            (U.post self.now.unary) }
        requires part { Below (part_at 1023) self.now.room (P.pre self.now.part)
            (P.post self.now.part) }
        requires query { Below (query_at 1023) self.now.room (Q.pre self.now.query)
            (Q.post self.now.query) }
        ensures { Reads (readings.read_test 1023 self.now.room (unary_at 1023 self.now.room)
            (inner_part 1023 self.now.room) (inner_query 1023 self.now.room) parser.old) result
            parser.new }
    {
        if parser.starts_any(&[
            Kind::Equal,
            Kind::NotEqual,
            Kind::Less,
            Kind::LessOrEqual,
            Kind::Greater,
            Kind::GreaterOrEqual,
        ]) {
            return self.compare(parser);
        }
        if parser.starts(Kind::Is) {
            return parser.null();
        }
        if parser.starts(Kind::Not) {
            parser.one(Kind::Not)?;
            let test = self.deny_test(parser)?;
            return Ok(opposite(test));
        }
        if parser.starts_any(&[Kind::Between, Kind::Like, Kind::In]) {
            return self.deny_test(parser);
        }
        Ok(Test::Absent)
    }

    /// A sum, and what is asked of it.
    #[tactic(auto, unfolding(sql_parser_steps::specs::ExpressionReadings::read_predicate))]
    pub(crate) fn predicate(&self, parser: &mut Parser<'_>) -> Result<Boxed<Expr>, SyntaxError>
        requires unary { At (unary_at 1023) self.now.room (U.pre self.now.unary)
            (U.post self.now.unary) }
        requires part { Below (part_at 1023) self.now.room (P.pre self.now.part)
            (P.post self.now.part) }
        requires query { Below (query_at 1023) self.now.room (Q.pre self.now.query)
            (Q.post self.now.query) }
        ensures { Reads (readings.read_predicate 1023 self.now.room (unary_at 1023 self.now.room)
            (inner_part 1023 self.now.room) (inner_query 1023 self.now.room) parser.old) result
            parser.new }
    {
        let sums = Sums {
            alloc: self.alloc,
            room: self.room,
            unary: self.unary,
        };
        let value = sums.sum(parser)?;
        let test = self.test(parser)?;
        Ok(tested(self.alloc, value, test)?)
    }
}
