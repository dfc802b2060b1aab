//! Statements, told by their first tokens. `room` is how many levels may be opened.
ghost use Rattle.sql_grammar_laws.specs.Readings.{Reads};
ghost use Rattle.sql_parser_steps.specs.Readings as readings;
ghost use Rattle.sql_parser_steps.specs.Readings.{ended_at, inner_query, query_at};

use crate::knot::query;
use crate::with::with_queries;
use sql_ast::{Query, Statement};
use sql_grammar_laws::SyntaxError;
use sql_lexer::Kind;
use sql_parser_steps::Parser;
use sql_parser_steps::clauses::order;
use sql_parser_steps::statements::{run, view_name};
use sqlite_items::{Boxed, Items};
use std::alloc::Global;

/// `query [order by ..] [limit ..] [at version N]`.
#[tactic(auto, unfolding(sql_parser_steps::specs::Readings::read_ordered))]
fn ordered(alloc: Global, parser: &mut Parser<'_>, room: usize) -> Result<Query, SyntaxError>
    ensures { Reads (readings.read_ordered 1023 (query_at 1023 room) parser.old) result parser.new }
{
    let block = query(alloc, parser, room)?;
    let order = order(alloc, parser)?;
    let limit = parser.limit()?;
    let version = parser.version()?;
    Ok(Query {
        with_queries: Items::new(alloc),
        block: block.into_inner(),
        order,
        limit,
        version,
    })
}

/// `with .. query [order by ..] [limit ..] [at version N]`.
#[tactic(auto, unfolding(sql_parser_steps::specs::Readings::read_with_ordered))]
fn with_ordered(
    alloc: Global,
    parser: &mut Parser<'_>,
    room: usize,
) -> Result<Statement, SyntaxError>
    ensures { Reads (readings.read_with_ordered 1023 room (query_at 1023 room)
        (inner_query 1023 room) parser.old) result parser.new }
{
    let with_queries = with_queries(alloc, parser, room)?;
    let mut query = ordered(alloc, parser, room)?;
    query.with_queries = with_queries;
    Ok(Statement::Query(query))
}

/// `create view name ["(" name {"," name} ")"] as query`.
#[tactic(auto, unfolding(sql_parser_steps::specs::Readings::read_create))]
fn create(alloc: Global, parser: &mut Parser<'_>, room: usize) -> Result<Statement, SyntaxError>
    ensures { Reads (readings.read_create 1023 room (query_at 1023 room) parser.old) result
        parser.new }
{
    let (name, columns) = view_name(alloc, parser, room)?;
    parser.one(Kind::As)?;
    let block = query(alloc, parser, room)?;
    Ok(Statement::CreateView(name, columns, block.into_inner()))
}

/// A statement without its semicolon.
#[tactic(auto, unfolding(sql_parser_steps::specs::Readings::read_statement))]
fn statement(alloc: Global, parser: &mut Parser<'_>, room: usize) -> Result<Statement, SyntaxError>
    ensures { Reads (readings.read_statement 1023 room (query_at 1023 room)
        (inner_query 1023 room) parser.old) result parser.new }
{
    if parser.starts(Kind::Select) {
        let query = ordered(alloc, parser, room)?;
        return Ok(Statement::Query(query));
    }
    if parser.starts(Kind::With) {
        return with_ordered(alloc, parser, room);
    }
    if parser.starts(Kind::Create) {
        return create(alloc, parser, room);
    }
    if parser.starts(Kind::Drop) {
        return parser.drop_view(alloc);
    }
    if parser.starts(Kind::Refresh) {
        return parser.refresh();
    }
    run(alloc, parser, room)
}

/// `statement ";"`.
#[tactic(auto, unfolding(sql_parser_steps::specs::Readings::read_ended))]
pub(crate) fn ended_statement(
    alloc: Global,
    parser: &mut Parser<'_>,
    room: usize,
) -> Result<Statement, SyntaxError>
    ensures { Reads (ended_at 1023 room parser.old) result parser.new }
{
    let statement = Boxed::new(alloc, statement(alloc, parser, room)?)?;
    parser.one(Kind::Semicolon)?;
    Ok(statement.into_inner())
}
