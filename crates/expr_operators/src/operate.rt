//! What operators make of the values of their operands.
ghost use Rattle.std.specs.Prelude.{◌≡◌, ◌↔◌, IfOk, IsTrue};
ghost use Rattle.std.specs.Cow.{cow_value};
ghost use Rattle.expr_operators.specs.Operators.{number_or_fault, computed, negative, at_scale};
ghost use Rattle.expr_operators.specs.Operators.{extracted, part_of, product, arithmetic, holds};
ghost use Rattle.expr_operators.specs.Operators.{compared, between, liked, null_test, truth_of, mark_of};
ghost use Rattle.expr_operators.specs.Operators.{truth_of_mark};

use crate::operator::{Arithmetic, Comparison, DatePart};
use base_decimal::{NumberFault, Scale, add, compare, mul, quotient, rescale, sub};
use base_text::{Text, like, substring};
use base_value::{Fault, Standing, Truth, Value};
use std::alloc::AllocError;
use std::borrow::Cow;
use std::cmp::Ordering;

// A coefficient of that scale, or the fault, as a value.
fn number_or_fault(scale: Scale, coefficient: Result<i128, NumberFault>) -> Value
    ensures { result ≡ number_or_fault scale coefficient }
{
    match coefficient {
        Ok(coefficient) => Value::Number(scale, coefficient),
        Err(NumberFault::NumberRange) => Value::Fault(Fault::NumberRange),
        Err(NumberFault::DivideByZero) => Value::Fault(Fault::DivideByZero),
    }
}

fn product(s: Scale, a: i128, t: Scale, b: i128) -> Value
    ensures { result ≡ product s a t b }
{
    let places = s.places() + t.places();
    if places <= 18 {
        number_or_fault(Scale::new(places), mul(a, s, b, t))
    } else {
        Value::Null
    }
}

fn arithmetic(operator: Arithmetic, s: Scale, a: i128, t: Scale, b: i128) -> Value
    ensures { result ≡ arithmetic operator s a t b }
{
    match operator {
        Arithmetic::Add => number_or_fault(s.larger(t), add(a, s, b, t)),
        Arithmetic::Subtract => number_or_fault(s.larger(t), sub(a, s, b, t)),
        Arithmetic::Multiply => product(s, a, t, b),
        Arithmetic::Divide => number_or_fault(s.larger(Scale::new(6)), quotient(a, s, b, t)),
    }
}

/// An operator of arithmetic at two values.
pub fn computed(operator: Arithmetic, x: &Value, y: &Value) -> Value
    ensures { result ≡ computed operator x.now y.now }
{
    match (x, y) {
        (Value::Null, _) | (_, Value::Null) => Value::Null,
        (Value::Fault(a), Value::Fault(b)) => Value::Fault((*a).min(*b)),
        (Value::Fault(a), _) | (_, Value::Fault(a)) => Value::Fault(*a),
        (Value::Number(s, a), Value::Number(t, b)) => arithmetic(operator, *s, *a, *t, *b),
        _ => Value::Null,
    }
}

/// Minus at a value.
pub fn negative(x: &Value) -> Value
    ensures { result ≡ negative x.now }
{
    match x {
        Value::Fault(fault) => Value::Fault(*fault),
        Value::Number(scale, c) => {
            number_or_fault(*scale, c.checked_neg().ok_or(NumberFault::NumberRange))
        }
        _ => Value::Null,
    }
}

/// A value as CASE gives it: a number is rescaled to its scale.
pub fn at_scale<'a>(scale: Scale, x: Cow<'a, Value>) -> Cow<'a, Value>
    ensures { cow_value result ≡ at_scale scale (cow_value x.entry) }
{
    match &*x {
        Value::Number(from, c) => {
            if *from <= scale {
                Cow::Owned(number_or_fault(scale, rescale(*c, *from, scale)))
            } else {
                Cow::Owned(Value::Null)
            }
        }
        _ => x,
    }
}

/// A part of a date.
pub fn extracted(part: DatePart, x: &Value) -> Value
    ensures { result ≡ extracted part x.now }
{
    match x {
        Value::Fault(fault) => Value::Fault(*fault),
        Value::Date(date) => {
            let number = match part {
                DatePart::Year => date.year(),
                DatePart::Month => date.month(),
                DatePart::Day => date.day(),
            };
            Value::Number(Scale::WHOLE, i128::from(number))
        }
        _ => Value::Null,
    }
}

/// The bytes of places `from` to `from + count - 1` of a text.
pub fn part_of(x: &Value, from: u32, count: u32) -> Result<Value, AllocError>
    ensures { IfOk result (λ v. v ≡ part_of from count x.now) }
{
    match x {
        Value::Fault(fault) => Ok(Value::Fault(*fault)),
        Value::Text(text) => {
            let part = substring(text, from, count)?;
            Ok(Value::Text(part))
        }
        _ => Ok(Value::Null),
    }
}

/// True where a test passes, else False.
pub fn truth_of(is_true: bool) -> Truth
    ensures { result ≡ truth_of is_true }
{
    if is_true {
        Truth::Stands(Standing::AtTrue)
    } else {
        Truth::False
    }
}

/// Whether a truth is the least of all.
pub fn is_false(truth: Truth) -> bool
    ensures { IsTrue result ↔ (truth ≡ Truth.False) }
{
    matches!(truth, Truth::False)
}

/// Whether a truth is the greatest of all.
pub fn is_true(truth: Truth) -> bool
    ensures { IsTrue result ↔ (truth ≡ Truth.Stands Standing.AtTrue) }
{
    matches!(truth, Truth::Stands(Standing::AtTrue))
}

/// A fault as a truth.
pub fn fault_truth(fault: Fault) -> Truth
    ensures { result ≡ Truth.Stands (Standing.AtFault fault) }
{
    Truth::Stands(Standing::AtFault(fault))
}

/// The truth of a comparison of two values in this order.
pub fn holds(comparison: Comparison, order: Ordering) -> Truth
    ensures { result ≡ truth_of (holds comparison order) }
{
    truth_of(match comparison {
        Comparison::Equal => order.is_eq(),
        Comparison::NotEqual => order.is_ne(),
        Comparison::Less => order.is_lt(),
        Comparison::LessOrEqual => order.is_le(),
        Comparison::Greater => order.is_gt(),
        Comparison::GreaterOrEqual => order.is_ge(),
    })
}

/// A comparison of two values.
pub fn compared(comparison: Comparison, x: &Value, y: &Value) -> Truth
    ensures { result ≡ compared comparison x.now y.now }
{
    match (x, y) {
        (Value::Null, _) | (_, Value::Null) => Truth::Unknown,
        (Value::Fault(a), Value::Fault(b)) => fault_truth((*a).min(*b)),
        (Value::Fault(a), _) | (_, Value::Fault(a)) => fault_truth(*a),
        (Value::Number(s, a), Value::Number(t, b)) => holds(comparison, compare(*a, *s, *b, *t)),
        (Value::Text(a), Value::Text(b)) => holds(comparison, a.cmp(b)),
        (Value::Date(a), Value::Date(b)) => holds(comparison, a.cmp(b)),
        _ => Truth::Unknown,
    }
}

/// Whether a value is no less than the least that it may be, and no greater than the greatest.
pub fn between(x: &Value, least: &Value, greatest: &Value) -> Truth
    ensures { result ≡ between x.now least.now greatest.now }
{
    let above = compared(Comparison::GreaterOrEqual, x, least);
    above.and(compared(Comparison::LessOrEqual, x, greatest))
}

/// LIKE.
pub fn liked(x: &Value, pattern: &Text) -> Truth
    ensures { result ≡ liked pattern.now x.now }
{
    match x {
        Value::Fault(fault) => fault_truth(*fault),
        Value::Text(text) => truth_of(like(text, pattern)),
        _ => Truth::Unknown,
    }
}

/// IS NULL.
pub fn null_test(x: &Value) -> Truth
    ensures { result ≡ null_test x.now }
{
    match x {
        Value::Null => Truth::Stands(Standing::AtTrue),
        Value::Fault(fault) => fault_truth(*fault),
        _ => Truth::False,
    }
}

/// The truth that a mark stands for.
pub fn truth_of_mark(x: &Value) -> Truth
    ensures { result ≡ truth_of_mark x.now }
{
    match x {
        Value::Fault(fault) => fault_truth(*fault),
        Value::Number(_, c) => truth_of(*c != 0),
        _ => Truth::Unknown,
    }
}

/// A truth as a mark: 1 for True, 0 for False, null for Unknown, and a fault as a value.
pub fn mark_of(truth: Truth) -> Value
    ensures { result ≡ mark_of truth }
{
    match truth {
        Truth::False => Value::Number(Scale::WHOLE, 0),
        Truth::Unknown => Value::Null,
        Truth::Stands(Standing::AtFault(fault)) => Value::Fault(fault),
        Truth::Stands(Standing::AtTrue) => Value::Number(Scale::WHOLE, 1),
    }
}
