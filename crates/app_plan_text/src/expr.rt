//! Expressions as SQL writes them, over the names of their columns.
use crate::literal::{push_literal, push_quoted};
use crate::names::Row;
use crate::writer::TextWriter;
use expr_aggregates::AggregateFunction;
use expr_scalar::{Arithmetic, Branch, Comparison, DatePart, Expr, Operation};
use plan_algebra::Aggregate;

/// How tightly an operator binds. A looser expression in its place stands in parentheses.
type Level = u8;

const OR: Level = 1;

const AND: Level = 2;

const NOT: Level = 3;

const TEST: Level = 4;

const SUM: Level = 5;

const PRODUCT: Level = 6;

const SIGN: Level = 7;

const ATOM: Level = 8;

/// How tightly a chain of operations binds.
fn chain_level(operations: &[Operation]) -> Level {
    for operation in operations {
        if let Arithmetic::Add | Arithmetic::Subtract = operation.operator {
            return SUM;
        }
    }
    PRODUCT
}

/// How tightly a list of conditions binds.
fn list_level(conditions: &[Expr], level: Level) -> Level {
    if conditions.is_empty() { ATOM } else { level }
}

/// How tightly an expression binds.
fn level(e: &Expr) -> Level {
    match e {
        Expr::Any(es) => list_level(es.as_slice(), OR),
        Expr::All(es) => list_level(es.as_slice(), AND),
        Expr::Not(_) => NOT,
        Expr::Compare(_, _, _)
        | Expr::Between(_, _, _)
        | Expr::Like(_, _)
        | Expr::InList(_, _)
        | Expr::IsNull(_) => TEST,
        Expr::Arithmetic(_, operations) => chain_level(operations.as_slice()),
        Expr::Negative(_) => SIGN,
        Expr::Column(_)
        | Expr::Literal(_)
        | Expr::Case(_, _, _)
        | Expr::Extract(_, _)
        | Expr::Substring(_, _, _)
        | Expr::IsMarked(_) => ATOM,
    }
}

/// The sign of an operation.
fn arithmetic_sign(operator: Arithmetic) -> &'static str {
    match operator {
        Arithmetic::Add => " + ",
        Arithmetic::Subtract => " - ",
        Arithmetic::Multiply => " * ",
        Arithmetic::Divide => " / ",
    }
}

/// The sign of a comparison.
pub fn comparison_sign(comparison: Comparison) -> &'static str {
    match comparison {
        Comparison::Equal => " = ",
        Comparison::NotEqual => " <> ",
        Comparison::Less => " < ",
        Comparison::LessOrEqual => " <= ",
        Comparison::Greater => " > ",
        Comparison::GreaterOrEqual => " >= ",
    }
}

/// The start of an EXTRACT, up to the date.
fn extract_start(part: DatePart) -> &'static str {
    match part {
        DatePart::Year => "extract(year from ",
        DatePart::Month => "extract(month from ",
        DatePart::Day => "extract(day from ",
    }
}

/// Appends an expression.
pub fn push_expr(text: &mut TextWriter, row: &Row<'_>, e: &Expr) {
    put(text, row, OR, e);
}

/// Appends what stands before the parts of an expression, or all of one that has none.
fn put_start(text: &mut TextWriter, row: &Row<'_>, e: &Expr) {
    match e {
        Expr::Column(place) => text.put(row.name(*place)),
        Expr::Literal(value) => push_literal(text, value),
        Expr::All(es) => text.put(empty_word(es.as_slice(), b"true")),
        Expr::Any(es) => text.put(empty_word(es.as_slice(), b"false")),
        Expr::Negative(_) => text.put_byte(b'-'),
        Expr::Not(_) => text.put(b"not "),
        Expr::Case(_, _, _) => text.put(b"case"),
        Expr::Substring(_, _, _) => text.put(b"substring("),
        Expr::Extract(part, _) => text.put(extract_start(*part).as_bytes()),
        _ => {}
    }
}

/// Appends what stands behind the parts of an expression.
fn put_end(text: &mut TextWriter, e: &Expr) {
    match e {
        Expr::Case(_, _, _) => text.put(b" end"),
        Expr::Extract(_, _) | Expr::InList(_, _) => text.put_byte(b')'),
        Expr::Substring(_, from, count) => {
            text.put(b" from ");
            text.put_number(*from as usize);
            text.put(b" for ");
            text.put_number(*count as usize);
            text.put_byte(b')');
        }
        Expr::Like(_, pattern) => {
            text.put(b" like ");
            push_quoted(text, pattern.bytes());
        }
        Expr::IsNull(_) => text.put(b" is null"),
        _ => {}
    }
}

/// How tightly the one part of an expression has to bind.
fn part_level(e: &Expr) -> Level {
    match e {
        Expr::Negative(_) | Expr::IsMarked(_) => ATOM,
        Expr::Not(_) => TEST,
        Expr::Extract(_, _) | Expr::Substring(_, _, _) => OR,
        _ => SUM,
    }
}

/// Appends an expression, in parentheses where it binds more loosely than its place asks for.
#[cycle(expr_text)]
fn put(text: &mut TextWriter, row: &Row<'_>, least: Level, e: &Expr) {
    let is_looser = level(e) < least;
    if is_looser {
        text.put_byte(b'(');
    }
    put_start(text, row, e);
    put_parts(text, row, e);
    put_end(text, e);
    if is_looser {
        text.put_byte(b')');
    }
}

/// Appends the parts of an expression, with what stands between them.
#[cycle(expr_text)]
fn put_parts(text: &mut TextWriter, row: &Row<'_>, e: &Expr) {
    match e {
        Expr::Column(_) | Expr::Literal(_) => {}
        Expr::Negative(part)
        | Expr::Not(part)
        | Expr::IsMarked(part)
        | Expr::IsNull(part)
        | Expr::Like(part, _)
        | Expr::Extract(_, part)
        | Expr::Substring(part, _, _) => put(text, row, part_level(e), part.get()),
        Expr::Arithmetic(first, operations) => {
            put(text, row, SIGN, first.get());
            put_operations(text, row, operations.as_slice());
        }
        Expr::Case(_, branches, other) => {
            put_branches(text, row, branches.as_slice());
            text.put(b" else ");
            put(text, row, OR, other.get());
        }
        Expr::Compare(comparison, a, b) => {
            put(text, row, SUM, a.get());
            text.put(comparison_sign(*comparison).as_bytes());
            put(text, row, SUM, b.get());
        }
        Expr::Between(e, low, high) => {
            put(text, row, SUM, e.get());
            text.put(b" between ");
            put(text, row, SUM, low.get());
            text.put(b" and ");
            put(text, row, SUM, high.get());
        }
        Expr::InList(e, es) => {
            put(text, row, SUM, e.get());
            text.put(b" in (");
            put_all(text, row, es.as_slice(), b", ", SUM);
        }
        Expr::All(es) => put_all(text, row, es.as_slice(), b" and ", NOT),
        Expr::Any(es) => put_all(text, row, es.as_slice(), b" or ", AND),
    }
}

/// What an empty list of conditions is.
fn empty_word<'a>(es: &[Expr], word: &'a [u8]) -> &'a [u8] {
    if es.is_empty() { word } else { &[] }
}

/// Appends expressions with a word between two.
#[cycle(expr_text)]
fn put_all(text: &mut TextWriter, row: &Row<'_>, es: &[Expr], between: &[u8], least: Level) {
    for (place, e) in es.iter().enumerate() {
        if place > 0 {
            text.put(between);
        }
        put(text, row, least, e);
    }
}

/// Appends the operations of a chain.
#[cycle(expr_text)]
fn put_operations(text: &mut TextWriter, row: &Row<'_>, operations: &[Operation]) {
    for operation in operations {
        text.put(arithmetic_sign(operation.operator).as_bytes());
        put(text, row, SIGN, &operation.operand);
    }
}

/// Appends the branches of a CASE.
#[cycle(expr_text)]
fn put_branches(text: &mut TextWriter, row: &Row<'_>, branches: &[Branch]) {
    for branch in branches {
        text.put(b" when ");
        put(text, row, OR, &branch.when);
        text.put(b" then ");
        put(text, row, OR, &branch.gives);
    }
}

/// The start of an aggregate, up to its argument.
pub fn function_start(function: AggregateFunction) -> &'static str {
    match function {
        AggregateFunction::Count => "count(",
        AggregateFunction::CountDistinct => "count(distinct ",
        AggregateFunction::Sum => "sum(",
        AggregateFunction::Avg => "avg(",
        AggregateFunction::Min => "min(",
        AggregateFunction::Max => "max(",
    }
}

/// Appends an aggregate.
pub fn push_aggregate(text: &mut TextWriter, row: &Row<'_>, aggregate: &Aggregate) {
    match aggregate {
        Aggregate::CountRows => text.put(b"count(*)"),
        Aggregate::Of(function, _, argument) => {
            text.put(function_start(*function).as_bytes());
            push_expr(text, row, argument.get());
            text.put_byte(b')');
        }
    }
}
