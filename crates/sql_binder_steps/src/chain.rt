//! Chains of operations, and date literals that are moved by intervals.
ghost use Rattle.std.specs.Prelude.{◌≡◌, ◌<◌, ◌^◌, IfOk, IfSome};
ghost use Rattle.sql_binder_steps.specs.Steps.{Gives};
ghost use Rattle.sql_binder_steps.specs.Values as spec;

use crate::collected::{BoundKind, Chain, Typed};
use crate::fault::BindFault;
use crate::kinds::operated_kind;
use crate::values::{dated, typed};
use base_date::{CivilDate, Interval, IntervalUnit};
use base_refusals::BindRefusal;
use base_text::Text;
use expr_operators::Arithmetic;
use expr_scalar::{Expr, Operation};
use sql_ast::{Adding, Multiplying, Span};
use sqlite_items::Items;
use std::alloc::{AllocError, Global};

/// `+` and `-`.
pub fn adding_of(operator: Adding) -> Arithmetic
    ensures { result ≡ spec.adding_of operator }
{
    match operator {
        Adding::Plus => Arithmetic::Add,
        Adding::Minus => Arithmetic::Subtract,
    }
}

/// `*` and `/`.
pub fn multiplying_of(operator: Multiplying) -> Arithmetic
    ensures { result ≡ spec.multiplying_of operator }
{
    match operator {
        Multiplying::Times => Arithmetic::Multiply,
        Multiplying::Divide => Arithmetic::Divide,
    }
}

/// The first operand.
pub fn begun(alloc: Global, a: Typed) -> Chain
    ensures { result ≡ spec.begun a }
{
    Chain {
        value: a.value,
        operations: Items::new(alloc),
        kind: a.kind,
        date: a.date,
    }
}

/// One operation more.
#[tactic(auto, unfolding(crate::specs::Values::operated))]
pub fn operated(operator: Arithmetic, c: Chain, b: Typed) -> Result<Chain, BindFault>
    ensures { Gives (spec.operated operator c b) result }
{
    let kind = operated_kind(operator, c.kind, b.kind)?;
    let mut operations = c.operations;
    operations.push(Operation {
        operator,
        operand: b.value.into_inner(),
    })?;
    Ok(Chain {
        value: c.value,
        operations,
        kind: BoundKind::Value(kind),
        date: None,
    })
}

/// The number that up to six digits spell.
fn interval_count(text: &[u8]) -> Option<u32>
    ensures value { result ≡ spec.interval_count text.now }
    ensures bound { IfSome result (λ n. n < 10 ^ 6) }
{
    if text.len() > 6 {
        return None;
    }
    let mut number: u32 = 0;
    for digit in text {
        if !digit.is_ascii_digit() {
            return None;
        }
        number = 10 * number + (*digit - b'0') as u32;
    }
    if number < 1_000_000 {
        Some(number)
    } else {
        None
    }
}

fn unit_of(s: Span) -> IntervalUnit
    ensures { result ≡ spec.unit_of s }
{
    match s {
        Span::Year => IntervalUnit::Year,
        Span::Month => IntervalUnit::Month,
        Span::Day => IntervalUnit::Day,
    }
}

fn signed(operator: Adding, count: u32) -> i32
    requires { count < 10 ^ 6 }
    ensures { result ≡ spec.signed operator count }
{
    match operator {
        Adding::Plus => count as i32,
        Adding::Minus => -(count as i32),
    }
}

fn moved_by(
    date: Option<CivilDate>,
    operator: Adding,
    count: Option<u32>,
    s: Span,
) -> Result<CivilDate, BindFault>
    requires { IfSome count (λ n. n < 10 ^ 6) }
    ensures { Gives (spec.moved_by date operator count s) result }
{
    let Some(date) = date else {
        return Err(BindFault::Refused(BindRefusal::IntervalOnColumn));
    };
    let Some(count) = count else {
        return Err(BindFault::Refused(BindRefusal::IntervalOnColumn));
    };
    let by = Interval {
        count: signed(operator, count),
        unit: unit_of(s),
    };
    match date.plus(by) {
        Ok(moved) => Ok(moved),
        Err(_) => Err(BindFault::Refused(BindRefusal::DateRange)),
    }
}

/// An interval added or taken away: the chain has to be a date literal.
#[tactic(auto, unfolding(crate::specs::Values::shifted))]
pub fn shifted(
    alloc: Global,
    operator: Adding,
    c: Chain,
    text: &Text,
    s: Span,
) -> Result<Chain, BindFault>
    ensures { Gives (spec.shifted operator c text.now s) result }
{
    let date = moved_by(c.date, operator, interval_count(text.bytes()), s)?;
    let t = dated(alloc, date)?;
    Ok(begun(alloc, t))
}

/// The whole chain.
#[tactic(auto, unfolding(crate::specs::Values::ended))]
pub fn ended(alloc: Global, c: Chain) -> Result<Typed, AllocError>
    ensures { IfOk result (λ t. t ≡ spec.ended c) }
{
    let Chain {
        value,
        operations,
        kind,
        date,
    } = c;
    if operations.is_empty() {
        return Ok(Typed { value, kind, date });
    }
    let t = typed(alloc, Expr::Arithmetic(value, operations), kind)?;
    Ok(t)
}
