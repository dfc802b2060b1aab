//! The queries of WITH, before a statement's own. `room` is how many levels may be opened.
ghost use Rattle.std.specs.Prelude.{◌∷◌};
ghost use Rattle.sql_grammar_laws.specs.Readings.{Reads, links, mapped, one};
ghost use Rattle.sql_lexer.specs.Kinds.{is};
ghost use Rattle.sql_lexer.specs.declared.kind.Kind.TheVariants as k;
ghost use Rattle.sql_parser_steps.specs.ExpressionReadings as expressions;
ghost use Rattle.sql_parser_steps.specs.Readings as readings;
ghost use Rattle.sql_parser_steps.specs.Readings.{inner_query};
ghost use Rattle.sql_parser_steps.specs.Values as values;

use crate::knot::query;
use sql_ast::{Block, WithQuery};
use sql_grammar_laws::SyntaxError;
use sql_lexer::Kind;
use sql_parser_steps::clauses::column_names;
use sql_parser_steps::{MAX_MORE, Parser};
use sqlite_items::{Boxed, Items};
use std::alloc::Global;

/// `"(" query ")"`.
#[tactic(auto, using(sql_parser_steps::proofs::Inner::rules_inner), unfolding(sql_parser_steps::specs::ExpressionReadings::read_subquery))]
fn inner_block(
    alloc: Global,
    parser: &mut Parser<'_>,
    room: usize,
) -> Result<Boxed<Block>, SyntaxError>
    ensures { Reads (expressions.read_subquery room (inner_query 1023 room) parser.old) result
        parser.new }
{
    parser.opens(room, Kind::OpenParen)?;
    let block = query(alloc, parser, room - 1)?;
    parser.one(Kind::CloseParen)?;
    Ok(block)
}

/// `name ["(" name {"," name} ")"] as "(" query ")"`.
#[tactic(auto, unfolding(sql_parser_steps::specs::Readings::read_with_query))]
fn with_query(alloc: Global, parser: &mut Parser<'_>, room: usize) -> Result<WithQuery, SyntaxError>
    ensures { Reads (readings.read_with_query 1023 room (inner_query 1023 room) parser.old) result
        parser.new }
{
    let name = parser.name(alloc)?;
    let columns = column_names(alloc, parser, room)?;
    parser.one(Kind::As)?;
    let block = inner_block(alloc, parser, room)?;
    Ok(WithQuery {
        name,
        columns,
        block: block.into_inner(),
    })
}

/// The queries of WITH, of which the first is read.
fn more_with_queries(
    alloc: Global,
    parser: &mut Parser<'_>,
    room: usize,
    first: WithQuery,
) -> Result<Items<WithQuery>, SyntaxError>
    ensures { Reads (mapped (λ xs. first ∷ xs) (links (is k.Comma) (one (is k.Comma)) values.second
        (readings.read_with_query 1023 room (inner_query 1023 room)) 1023) parser.old) result
        parser.new }
{
    let mut found = Items::new(alloc);
    found.push(first)?;
    let mut width = MAX_MORE;
    'more: while parser.starts(Kind::Comma) {
        parser.one(Kind::Comma)?;
        let here = parser.rest();
        let element = with_query(alloc, parser, room);
        if width == 0 {
            return Err(parser.one_too_many(here, element));
        }
        found.push(element?)?;
        width -= 1;
    }
    Ok(found)
}

/// `with name .. as "(" query ")" {"," name .. as "(" query ")"}`.
#[tactic(auto, unfolding(sql_parser_steps::specs::Readings::read_with))]
pub(crate) fn with_queries(
    alloc: Global,
    parser: &mut Parser<'_>,
    room: usize,
) -> Result<Items<WithQuery>, SyntaxError>
    ensures { Reads (readings.read_with 1023 room (inner_query 1023 room) parser.old) result
        parser.new }
{
    parser.one(Kind::With)?;
    let first = with_query(alloc, parser, room)?;
    more_with_queries(alloc, parser, room, first)
}
