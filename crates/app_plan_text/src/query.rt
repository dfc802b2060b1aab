//! Bound queries, a line a clause. Each query in another has a number, and its lines stand after
//! those of the query around it.
use crate::block::{Block, ShownQuery, end_select, end_set, put_clause, put_table};
use crate::expr::{comparison_sign, function_start, push_expr};
use crate::line::PlanLine;
use crate::names::{NameList, Row, rest_from};
use crate::numbering::Numbering;
use crate::page::Page;
use crate::row_writer::RowWriter;
use crate::writer::{Piece, TextWriter};
use base_order_limit::OrderKey;
use expr_scalar::{Comparison, Expr};
use sql_bound_query::{BoundAggregate, BoundBlock, BoundExpr, BoundQuery, BoundSource, Input};
use std::alloc::{AllocError, Global};

/// Appends what stands between a value and the query whose any value it is compared with.
fn push_any(text: &mut TextWriter, comparison: Comparison) {
    if comparison == Comparison::Equal {
        text.put(b" in (");
    } else {
        text.put(comparison_sign(comparison).as_bytes());
        text.put(b"any (");
    }
}

/// Shows a query in another one, a step deeper.
#[cycle(query_lines)]
fn put_deeper(alloc: Global, page: &mut Page, q: &BoundBlock) -> ShownQuery {
    let depth = page.depth;
    page.depth = depth.saturating_add(1);
    let shown = put_block(alloc, page, q);
    page.depth = depth;
    shown
}

/// Shows a query in another one, and appends it by its number, between these words and a
/// parenthesis.
#[cycle(query_lines)]
fn put_query(
    alloc: Global,
    page: &mut Page,
    text: &mut TextWriter,
    before: &[u8],
    q: &BoundBlock,
) -> ShownQuery {
    let shown = put_deeper(alloc, page, q);
    text.put_all(&[
        Piece::Text(before),
        Piece::Text(b"q"),
        Piece::Number(shown.number),
        Piece::Text(b")"),
    ]);
    shown
}

/// Appends what an input reads. A query in it is written by its number.
#[cycle(query_lines)]
fn put_input(alloc: Global, page: &mut Page, text: &mut TextWriter, input: &Input) {
    match input {
        Input::Column(level, place) => text.put(page.row(*level).name(*place)),
        Input::Exists(q) => {
            let _shown = put_query(alloc, page, text, b"exists (", q.get());
        }
        Input::Any(comparison, e, q) => {
            text.put_byte(b'(');
            put_expr(alloc, page, text, e.get());
            push_any(text, *comparison);
            let _shown = put_query(alloc, page, text, b"", q.get());
            text.put_byte(b')');
        }
        Input::Scalar(q) => {
            let _shown = put_query(alloc, page, text, b"(", q.get());
        }
    }
}

/// Appends an expression over the rows in sight, once what its inputs read is shown.
#[cycle(query_lines)]
fn put_expr(alloc: Global, page: &mut Page, text: &mut TextWriter, e: &BoundExpr) {
    let mut inputs = NameList::new(alloc);
    for input in e.inputs.as_slice() {
        let mut written = TextWriter::new(alloc);
        put_input(alloc, page, &mut written, input);
        inputs.give(written.finish());
    }
    let inputs = page.names(alloc, inputs.finish());
    push_expr(text, &Row::of(inputs.as_slice()), e.expr.get());
}

/// The word between the sides of a join.
fn join_word(source: &BoundSource) -> &'static str {
    match source {
        BoundSource::Outer(_, _, _, _) => " left join ",
        _ => " join ",
    }
}

/// The name of the column that an expression is, where it is one.
fn plain_name<'a>(page: &'a Page, e: &BoundExpr) -> &'a [u8] {
    if let (Expr::Column(0), [Input::Column(level, place)]) = (e.expr.get(), e.inputs.as_slice()) {
        return page.row(*level).name(*place);
    }
    &[]
}

/// Appends an item of FROM, behind the columns of the row so far.
#[cycle(query_lines)]
fn put_source(alloc: Global, page: &mut Page, from: &mut RowWriter, source: &BoundSource) {
    let place = from.columns.names().len();
    match source {
        BoundSource::Table(table) => put_table(alloc, &mut page.numbering, from, *table),
        BoundSource::Derived(_, q) => {
            let shown = put_query(alloc, page, &mut from.detail, b"(", q.get());
            shown.give_columns(&mut from.columns);
        }
        BoundSource::Lateral(q) => {
            page.enter_copy(alloc, from.columns.names());
            let shown = put_query(alloc, page, &mut from.detail, b"lateral (", q.get());
            page.leave();
            shown.give_columns(&mut from.columns);
        }
        BoundSource::Cross(l, r) => {
            put_source(alloc, page, from, l.get());
            from.detail.put(b", ");
            put_source(alloc, page, from, r.get());
        }
        BoundSource::Inner(l, r, c) | BoundSource::Outer(l, r, _, c) => {
            put_source(alloc, page, from, l.get());
            from.detail.put(join_word(source).as_bytes());
            put_source(alloc, page, from, r.get());
            put_on(alloc, page, from, place, c);
        }
    }
}

/// Appends the condition of a join, after the word ON. The columns of its sides are those from a
/// place on.
#[cycle(query_lines)]
fn put_on(alloc: Global, page: &mut Page, from: &mut RowWriter, place: usize, c: &BoundExpr) {
    page.enter_copy(alloc, rest_from(from.columns.names(), place));
    from.detail.put(b" on ");
    put_expr(alloc, page, &mut from.detail, c);
    page.leave();
}

/// Puts the clause of a condition, unless it always holds.
#[cycle(query_lines)]
fn put_condition(alloc: Global, page: &mut Page, block: &mut Block, kind: &[u8], c: &BoundExpr) {
    let mut text = TextWriter::new(alloc);
    put_expr(alloc, page, &mut text, c);
    if !text.equals(b"true") {
        put_clause(alloc, page, block, kind, text);
    }
}

/// Puts FROM, and WHERE where a condition stands there. The rows are in sight behind them.
#[cycle(query_lines)]
fn put_rows(alloc: Global, page: &mut Page, block: &mut Block, q: &BoundBlock) {
    let mut from = RowWriter::new(alloc);
    if let BoundBlock::Plain(source, _, _) | BoundBlock::Grouped(source, _, _, _, _, _) = q {
        put_source(alloc, page, &mut from, source.get());
    }
    let RowWriter { detail, columns } = from;
    put_clause(alloc, page, block, b"from", detail);
    page.enter(alloc, columns);
    if let BoundBlock::Plain(_, c, _) | BoundBlock::Grouped(_, c, _, _, _, _) = q {
        put_condition(alloc, page, block, b"where", c);
    }
}

/// Puts what groups are by and their aggregates over the innermost rows. The groups are in sight
/// behind them, in the place of the rows.
#[cycle(query_lines)]
fn put_groups(
    alloc: Global,
    page: &mut Page,
    block: &mut Block,
    by: &[u32],
    aggregates: &[BoundAggregate],
) {
    let mut groups = RowWriter::new(alloc);
    groups.put_places(alloc, &page.row(0), by, b"");
    for (place, aggregate) in aggregates.iter().enumerate() {
        groups.put_comma();
        groups.put_computed(alloc, b"q", block.number, b".a", place);
        put_aggregate(alloc, page, &mut groups.detail, aggregate);
    }
    let RowWriter { detail, columns } = groups;
    put_clause(alloc, page, block, b"group by", detail);
    page.leave();
    page.enter(alloc, columns);
}

/// Appends an aggregate.
#[cycle(query_lines)]
fn put_aggregate(
    alloc: Global,
    page: &mut Page,
    text: &mut TextWriter,
    aggregate: &BoundAggregate,
) {
    match aggregate {
        BoundAggregate::CountRows => text.put(b"count(*)"),
        BoundAggregate::Of(function, _, argument) => {
            text.put(function_start(*function).as_bytes());
            put_expr(alloc, page, text, argument);
            text.put_byte(b')');
        }
    }
}

/// Puts SELECT before the other clauses, which ends the query: a column keeps its name, and
/// anything else is named after the query.
#[cycle(query_lines)]
fn put_select(alloc: Global, page: &mut Page, block: Block, es: &[BoundExpr]) -> ShownQuery {
    let mut list = RowWriter::new(alloc);
    for (place, e) in es.iter().enumerate() {
        list.put_comma();
        let name = plain_name(page, e);
        if name.is_empty() {
            list.put_computed(alloc, b"q", block.number, b".c", place);
            put_expr(alloc, page, &mut list.detail, e);
        } else {
            list.put_name(alloc, name);
        }
    }
    end_select(alloc, page, block, list)
}

/// A query, and after its lines those of the queries in it.
#[cycle(query_lines)]
fn put_block(alloc: Global, page: &mut Page, q: &BoundBlock) -> ShownQuery {
    match q {
        BoundBlock::Plain(_, _, es) => {
            let mut block = Block::begun(page);
            put_rows(alloc, page, &mut block, q);
            put_select(alloc, page, block, es.as_slice())
        }
        BoundBlock::Grouped(_, _, by, aggregates, having, es) => {
            let (by, aggregates) = (by.as_slice(), aggregates.as_slice());
            let mut block = Block::begun(page);
            put_rows(alloc, page, &mut block, q);
            put_groups(alloc, page, &mut block, by, aggregates);
            put_condition(alloc, page, &mut block, b"having", having);
            put_select(alloc, page, block, es.as_slice())
        }
        BoundBlock::Distinct(q) => {
            let place = page.end();
            let shown = put_block(alloc, page, q.get());
            let mut block = Block::of(shown.number, place);
            put_clause(alloc, page, &mut block, b"distinct", TextWriter::new(alloc));
            shown
        }
        BoundBlock::Set(a, b, columns, operation) => {
            let block = Block::begun(page);
            let left = put_deeper(alloc, page, a.get());
            let right = put_deeper(alloc, page, b.get());
            let columns = columns.as_slice();
            end_set(alloc, page, block, left, right, columns, *operation)
        }
    }
}

/// The lines of a bound query, a line a clause, and of the queries in it; then its order and its
/// limit.
pub fn query_lines(alloc: Global, query: &BoundQuery) -> Result<Vec<PlanLine>, AllocError> {
    let mut first = Page::new(alloc, Numbering::new(1));
    let _shown = put_block(alloc, &mut first, query.block.get());
    let mut page = Page::new(alloc, first.numbering.again(1));
    let shown = put_block(alloc, &mut page, query.block.get());
    let mut order = TextWriter::new(alloc);
    push_order(&mut order, shown.columns.as_slice(), query.order.as_slice());
    push_limit(&mut order, query.limit);
    if !order.is_empty() {
        let mut last = Block::of(shown.number, page.end());
        put_clause(alloc, &mut page, &mut last, b"order", order);
    }
    page.finish()
}

/// Appends the keys of an order by the names of their columns.
fn push_order(text: &mut TextWriter, names: &[Vec<u8>], order: &[OrderKey]) {
    let row = Row::of(names);
    for (place, key) in order.iter().enumerate() {
        if place > 0 {
            text.put(b", ");
        }
        text.put(row.name(key.column));
        if key.is_descending {
            text.put(b" desc");
        }
    }
}

/// Appends a limit.
fn push_limit(text: &mut TextWriter, limit: Option<u32>) {
    if let Some(most) = limit {
        if !text.is_empty() {
            text.put(b", ");
        }
        text.put(b"limit ");
        text.put_number(most as usize);
    }
}
