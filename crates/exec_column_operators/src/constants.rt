//! Operators of a column and one value.
ghost use Rattle.std.specs.Prelude.{◌≡◌, IfOk, IfSome, length, map};
ghost use Rattle.expr_operators.specs.Operators.{compared, computed};
ghost use Rattle.exec_column_operators.specs.Constants.{StandsFor};
ghost use Rattle.exec_column_operators.specs.Zips.{zip_with};

use crate::arithmetic::computed_columns;
use crate::comparison::compared_columns;
use base_columns::Column;
use base_decimal::{Scale, rescale};
use base_value::{Truth, Value};
use expr_operators::{Arithmetic, Comparison};
use std::alloc::{AllocError, Global};

/// A comparison of a column's values with one value, row by row.
#[tactic(auto, using(crate::proofs::Zips::ones))]
pub fn compared_with(
    alloc: Global,
    comparison: Comparison,
    a: &Column,
    y: &Value,
) -> Result<Vec<Truth>, AllocError>
    ensures { IfOk result (λ v. v.items ≡ map (λ x. compared comparison x y.now) a.now) }
{
    let b = Column::repeated(alloc, y, a.len())?;
    compared_columns(alloc, comparison, a, &b)
}

// The number of a scale that stands for another one in sums and differences with numbers of that
// scale.
fn number_at(scale: Scale, y: &Value) -> Option<Value>
    ensures { IfSome result (λ w. StandsFor scale w y.now) }
{
    let Value::Number(from, coefficient) = y else {
        return None;
    };
    if *from > scale {
        return None;
    }
    match rescale(*coefficient, *from, scale) {
        Ok(rescaled) => Some(Value::Number(scale, rescaled)),
        Err(_) => None,
    }
}

// The value that stands for another one in sums and differences with a column's numbers: of their
// scale.
fn of_its_scale(operator: Arithmetic, a: &Column, y: &Value) -> Option<Value>
    ensures after { IfSome result (λ w. map (λ x. computed operator x w) a.now
        ≡ map (λ x. computed operator x y.now) a.now) }
    ensures before { IfSome result (λ w. map (computed operator w) a.now
        ≡ map (computed operator y.now) a.now) }
{
    let Some(numbers) = a.marked_numbers() else {
        return None;
    };
    let number = number_at(numbers.0, y)?;
    match operator {
        Arithmetic::Add => Some(number),
        Arithmetic::Subtract => Some(number),
        Arithmetic::Multiply | Arithmetic::Divide => None,
    }
}

// As many times the value as the column is long.
#[tactic(auto, using(crate::proofs::Zips::ones))]
fn alongside(
    alloc: Global,
    operator: Arithmetic,
    a: &Column,
    y: &Value,
) -> Result<Column, AllocError>
    ensures long { IfOk result (λ b. length b ≡ length a.now) }
    ensures after { IfOk result (λ b. zip_with (computed operator) a.now b
        ≡ map (λ x. computed operator x y.now) a.now) }
    ensures before { IfOk result (λ b. zip_with (computed operator) b a.now
        ≡ map (computed operator y.now) a.now) }
{
    match of_its_scale(operator, a, y) {
        Some(number) => Column::repeated(alloc, &number, a.len()),
        None => Column::repeated(alloc, y, a.len()),
    }
}

/// An operator of arithmetic at a column's values and one value, row by row.
pub fn computed_with(
    alloc: Global,
    operator: Arithmetic,
    a: &Column,
    y: &Value,
) -> Result<Column, AllocError>
    ensures { IfOk result (λ c. c ≡ map (λ x. computed operator x y.now) a.now) }
{
    let b = alongside(alloc, operator, a, y)?;
    computed_columns(alloc, operator, a, &b)
}

/// An operator of arithmetic at one value and a column's values, row by row.
pub fn computed_from(
    alloc: Global,
    operator: Arithmetic,
    x: &Value,
    b: &Column,
) -> Result<Column, AllocError>
    ensures { IfOk result (λ c. c ≡ map (computed operator x.now) b.now) }
{
    let a = alongside(alloc, operator, b, x)?;
    computed_columns(alloc, operator, &a, b)
}
