//! The parts that lead back to themselves. `room` is how many levels may still be opened. All else
//! that is read of a query is read by rules that take these functions as values, so that each rule
//! is proved alone.
ghost use Rattle.sql_grammar_laws.specs.Readings.{Reads};
ghost use Rattle.sql_parser_steps.specs.Readings.{part_at, query_at, unary_at};

use crate::blocks::Blocks;
use crate::nested::Nested;
use crate::predicates::Predicates;
use sql_ast::{Block, Expr};
use sql_grammar_laws::SyntaxError;
use sql_lexer::Kind;
use sql_parser_steps::Parser;
use sqlite_items::Boxed;
use std::alloc::Global;

/// What a sign, parentheses or a word may begin, or a name, number or text.
#[cycle(knot)]
#[tactic(auto, using(crate::proofs::Unfold::unary_is), unfolding(sql_parser_steps::specs::ExpressionReadings::read_unary_line))]
pub(crate) fn unary(
    alloc: Global,
    parser: &mut Parser<'_>,
    room: usize,
) -> Result<Boxed<Expr>, SyntaxError>
    ensures { Reads (unary_at 1023 room parser.old) result parser.new }
{
    if parser.starts(Kind::Minus) {
        parser.opens(room, Kind::Minus)?;
        let inner = unary(alloc, parser, room - 1)?;
        return Ok(Boxed::new(alloc, Expr::Negative(inner))?);
    }
    let nested = Nested {
        alloc,
        room,
        part,
        query,
    };
    let value = nested.operand(parser)?;
    Ok(value)
}

/// `not not-part`, or a predicate.
#[cycle(knot)]
#[tactic(auto, using(crate::proofs::Unfold::part_is), unfolding(sql_parser_steps::specs::ExpressionReadings::read_part_line))]
pub(crate) fn part(
    alloc: Global,
    parser: &mut Parser<'_>,
    room: usize,
) -> Result<Boxed<Expr>, SyntaxError>
    ensures { Reads (part_at 1023 room parser.old) result parser.new }
{
    if parser.starts(Kind::Not) {
        parser.opens(room, Kind::Not)?;
        let inner = part(alloc, parser, room - 1)?;
        return Ok(Boxed::new(alloc, Expr::Not(inner))?);
    }
    let predicates = Predicates {
        alloc,
        room,
        unary,
        part,
        query,
    };
    let value = predicates.predicate(parser)?;
    Ok(value)
}

/// A query: SELECTs with their clauses, joined by set operations.
#[cycle(knot)]
#[tactic(auto, using(crate::proofs::Unfold::query_is))]
pub(crate) fn query(
    alloc: Global,
    parser: &mut Parser<'_>,
    room: usize,
) -> Result<Boxed<Block>, SyntaxError>
    ensures { Reads (query_at 1023 room parser.old) result parser.new }
{
    let blocks = Blocks {
        alloc,
        room,
        part,
        query,
    };
    let query = blocks.query(parser)?;
    Ok(query)
}
