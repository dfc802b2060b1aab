//! The numbers that spell values, operators and lists of places.
ghost use Rattle.std.specs.Prelude.{◌≡◌, ◌++◌, ◌∷◌, [], OnOk};
ghost use Rattle.plan_spelling.specs.Exprs as spec;
ghost use Rattle.plan_spelling.specs.Exprs.{spelled, value_numbers};
ghost use Rattle.plan_spelling.specs.Plans.{function_number, pair_numbers};
ghost use Rattle.plan_spelling.specs.Plans as plans;

use base_set_rows::{ClassKind, SetOperation};
use base_value::{Fault, Value};
use expr_aggregates::AggregateFunction;
use expr_operators::{Arithmetic, Comparison, DatePart};
use std::alloc::AllocError;

fn fault_number(fault: Fault) -> u128
    ensures { result ≡ spec.fault_number fault }
{
    match fault {
        Fault::TooManyRows => 0,
        Fault::DivideByZero => 1,
        Fault::NumberRange => 2,
    }
}

pub fn arithmetic_number(operator: Arithmetic) -> u128
    ensures { result ≡ spec.arithmetic_number operator }
{
    match operator {
        Arithmetic::Add => 0,
        Arithmetic::Subtract => 1,
        Arithmetic::Multiply => 2,
        Arithmetic::Divide => 3,
    }
}

pub fn comparison_number(comparison: Comparison) -> u128
    ensures { result ≡ spec.comparison_number comparison }
{
    match comparison {
        Comparison::Equal => 0,
        Comparison::NotEqual => 1,
        Comparison::Less => 2,
        Comparison::LessOrEqual => 3,
        Comparison::Greater => 4,
        Comparison::GreaterOrEqual => 5,
    }
}

pub fn part_number(part: DatePart) -> u128
    ensures { result ≡ spec.part_number part }
{
    match part {
        DatePart::Year => 0,
        DatePart::Month => 1,
        DatePart::Day => 2,
    }
}

pub fn aggregate_number(function: AggregateFunction) -> u128
    ensures { result ≡ function_number function }
{
    match function {
        AggregateFunction::Count => 0,
        AggregateFunction::CountDistinct => 1,
        AggregateFunction::Sum => 2,
        AggregateFunction::Avg => 3,
        AggregateFunction::Min => 4,
        AggregateFunction::Max => 5,
    }
}

pub fn operation_number(operation: SetOperation) -> u128
    ensures { result ≡ plans.operation_number operation }
{
    match operation {
        SetOperation::Union => 0,
        SetOperation::Classes(ClassKind::Intersect, false) => 1,
        SetOperation::Classes(ClassKind::Intersect, true) => 2,
        SetOperation::Classes(ClassKind::Except, false) => 3,
        SetOperation::Classes(ClassKind::Except, true) => 4,
    }
}

fn sign_number(coefficient: i128) -> u128
    ensures { result ≡ spec.sign_number coefficient }
{
    if coefficient < 0 { 1 } else { 0 }
}

/// Appends the bytes of a text.
pub fn put_bytes(numbers: &mut Vec<u128>, bytes: &[u8]) -> Result<(), AllocError>
    ensures { OnOk result (numbers.new.items ≡ numbers.old.items ++ bytes.now) }
{
    for byte in bytes {
        numbers.push(*byte as u128)?;
    }
    Ok(())
}

/// Appends places of columns.
pub fn put_places(numbers: &mut Vec<u128>, places: &[u32]) -> Result<(), AllocError>
    ensures { OnOk result (numbers.new.items ≡ numbers.old.items ++ places.now) }
{
    for place in places {
        numbers.push(*place as u128)?;
    }
    Ok(())
}

/// Appends pairs of matched columns.
pub fn put_pairs(numbers: &mut Vec<u128>, pairs: &[(u32, u32)]) -> Result<(), AllocError>
    ensures { OnOk result (numbers.new.items ≡ numbers.old.items ++ pair_numbers pairs.now) }
{
    for pair in pairs {
        numbers.push(pair.0 as u128)?;
        numbers.push(pair.1 as u128)?;
    }
    Ok(())
}

/// Appends what spells a value, with this number before its own ones.
pub fn put_value(numbers: &mut Vec<u128>, tag: u128, value: &Value) -> Result<(), AllocError>
    ensures { OnOk result (numbers.new.items
        ≡ numbers.old.items ++ spelled (tag ∷ value_numbers value.now) []) }
{
    match value {
        Value::Fault(fault) => numbers.extend_from_slice(&[3, tag, 0, fault_number(*fault), 0]),
        Value::Number(scale, coefficient) => {
            let scale = scale.places() as u128;
            let (sign, size) = (sign_number(*coefficient), coefficient.unsigned_abs());
            numbers.extend_from_slice(&[5, tag, 1, scale, sign, size, 0])
        }
        Value::Text(text) => {
            let bytes = text.bytes();
            numbers.extend_from_slice(&[bytes.len() as u128 + 2, tag, 2])?;
            put_bytes(numbers, bytes)?;
            numbers.extend_from_slice(&[0])
        }
        Value::Date(date) => numbers.extend_from_slice(&[3, tag, 3, date.number() as u128, 0]),
        Value::Null => numbers.extend_from_slice(&[2, tag, 4, 0]),
    }
}
