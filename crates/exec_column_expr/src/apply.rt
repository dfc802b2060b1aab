//! Operators at the values of expressions: at one value for all rows, or column by column.
ghost use Rattle.std.specs.Prelude.{◌≡◌, IfOk, length, map};
ghost use Rattle.expr_operators.specs.Operators.{at_scale, compared, computed, extracted, liked};
ghost use Rattle.expr_operators.specs.Operators.{negative, null_test, part_of, truth_of_mark};
ghost use Rattle.exec_column_operators.specs.Choices.{choice};
ghost use Rattle.exec_column_operators.specs.Zips.{zip_three, zip_with};
ghost use Rattle.exec_column_expr.specs.Lanes.{over, shape_lanes};

use crate::operand::{Operand, Shape};
use base_columns::Column;
use base_decimal::Scale;
use base_text::Text;
use base_value::{Truth, Value};
use exec_column_operators::{
    compared_columns, compared_with, computed_columns, computed_from, computed_with,
    extracted_column, liked_column, marked_truths, negative_column, null_tests, part_column,
    scaled_column,
};
use expr_operators::{
    Arithmetic, Comparison, DatePart, at_scale, compared, computed, extracted, liked, negative,
    null_test, part_of, truth_of_mark,
};
use std::alloc::{AllocError, Global};
use std::borrow::Cow;

/// Minus.
#[tactic(auto, using(crate::proofs::Lists::ones))]
pub(crate) fn negative_operand<'a>(
    alloc: Global,
    x: Shape<'_>,
    n: usize,
) -> Result<Operand<'a>, AllocError>
    ensures { IfOk result (λ o. over n o ≡ map negative (over n (shape_lanes x.entry))) }
{
    match x {
        Shape::One(value) => Ok(Operand::one(negative(value))),
        Shape::Each(column) => {
            let column = negative_column(alloc, column)?;
            Ok(Operand::made(column))
        }
    }
}

/// A part of dates.
#[tactic(auto, using(crate::proofs::Lists::ones))]
pub(crate) fn extracted_operand<'a>(
    alloc: Global,
    part: DatePart,
    x: Shape<'_>,
    n: usize,
) -> Result<Operand<'a>, AllocError>
    ensures { IfOk result (λ o. over n o ≡ map (extracted part) (over n (shape_lanes x.entry))) }
{
    match x {
        Shape::One(value) => Ok(Operand::one(extracted(part, value))),
        Shape::Each(column) => {
            let column = extracted_column(alloc, part, column)?;
            Ok(Operand::made(column))
        }
    }
}

/// The bytes of places `from` to `from + count - 1` of texts.
#[tactic(auto, using(crate::proofs::Lists::ones))]
pub(crate) fn part_operand<'a>(
    alloc: Global,
    x: Shape<'_>,
    from: u32,
    count: u32,
    n: usize,
) -> Result<Operand<'a>, AllocError>
    ensures { IfOk result (λ o. over n o
        ≡ map (part_of from count) (over n (shape_lanes x.entry))) }
{
    match x {
        Shape::One(value) => {
            let part = part_of(value, from, count)?;
            Ok(Operand::one(part))
        }
        Shape::Each(column) => {
            let column = part_column(alloc, column, from, count)?;
            Ok(Operand::made(column))
        }
    }
}

// A value as CASE gives it.
fn scaled(scale: Scale, x: &Value) -> Result<Value, AllocError>
    ensures { IfOk result (λ v. v ≡ at_scale scale x.now) }
{
    at_scale(scale, Cow::Borrowed(x)).into_owned()
}

/// Values as CASE gives them.
#[tactic(auto, using(crate::proofs::Lists::ones))]
pub(crate) fn scaled_operand<'a>(
    alloc: Global,
    scale: Scale,
    x: Shape<'_>,
    n: usize,
) -> Result<Operand<'a>, AllocError>
    ensures { IfOk result (λ o. over n o ≡ map (at_scale scale) (over n (shape_lanes x.entry))) }
{
    match x {
        Shape::One(value) => {
            let value = scaled(scale, value)?;
            Ok(Operand::one(value))
        }
        Shape::Each(column) => {
            let column = scaled_column(alloc, scale, column)?;
            Ok(Operand::made(column))
        }
    }
}

/// An operator of arithmetic.
#[tactic(auto, using(crate::proofs::Lists::ones))]
pub(crate) fn computed_operand<'a>(
    alloc: Global,
    operator: Arithmetic,
    x: Shape<'_>,
    y: Shape<'_>,
    n: usize,
) -> Result<Operand<'a>, AllocError>
    requires x { length (over n (shape_lanes x)) ≡ n }
    requires y { length (over n (shape_lanes y)) ≡ n }
    ensures { IfOk result (λ o. over n o
        ≡ zip_with (computed operator) (over n (shape_lanes x.entry))
        (over n (shape_lanes y.entry))) }
{
    match (x, y) {
        (Shape::One(v), Shape::One(w)) => Ok(Operand::one(computed(operator, v, w))),
        (Shape::One(v), Shape::Each(b)) => {
            let column = computed_from(alloc, operator, v, b)?;
            Ok(Operand::made(column))
        }
        (Shape::Each(a), Shape::One(w)) => {
            let column = computed_with(alloc, operator, a, w)?;
            Ok(Operand::made(column))
        }
        (Shape::Each(a), Shape::Each(b)) => {
            let column = computed_columns(alloc, operator, a, b)?;
            Ok(Operand::made(column))
        }
    }
}

/// A comparison.
#[tactic(auto, using(crate::proofs::Lists::ones))]
pub(crate) fn compared_truths(
    alloc: Global,
    comparison: Comparison,
    x: Shape<'_>,
    y: Shape<'_>,
    n: usize,
) -> Result<Vec<Truth>, AllocError>
    requires x { length (over n (shape_lanes x)) ≡ n }
    requires y { length (over n (shape_lanes y)) ≡ n }
    ensures { IfOk result (λ v. v.items
        ≡ zip_with (compared comparison) (over n (shape_lanes x.entry))
        (over n (shape_lanes y.entry))) }
{
    match (x, y) {
        (Shape::One(v), Shape::One(w)) => Vec::from_elem(alloc, compared(comparison, v, w), n),
        (Shape::One(v), Shape::Each(b)) => {
            let a = Column::repeated(alloc, v, n)?;
            compared_columns(alloc, comparison, &a, b)
        }
        (Shape::Each(a), Shape::One(w)) => compared_with(alloc, comparison, a, w),
        (Shape::Each(a), Shape::Each(b)) => compared_columns(alloc, comparison, a, b),
    }
}

/// LIKE.
#[tactic(auto, using(crate::proofs::Lists::ones))]
pub(crate) fn liked_truths(
    alloc: Global,
    x: Shape<'_>,
    pattern: &Text,
    n: usize,
) -> Result<Vec<Truth>, AllocError>
    ensures { IfOk result (λ v. v.items ≡ map (liked pattern.now) (over n (shape_lanes x.entry))) }
{
    match x {
        Shape::One(value) => Vec::from_elem(alloc, liked(value, pattern), n),
        Shape::Each(column) => liked_column(alloc, column, pattern),
    }
}

/// IS NULL.
#[tactic(auto, using(crate::proofs::Lists::ones))]
pub(crate) fn null_truths(alloc: Global, x: Shape<'_>, n: usize) -> Result<Vec<Truth>, AllocError>
    ensures { IfOk result (λ v. v.items ≡ map null_test (over n (shape_lanes x.entry))) }
{
    match x {
        Shape::One(value) => Vec::from_elem(alloc, null_test(value), n),
        Shape::Each(column) => null_tests(alloc, column),
    }
}

/// The truths that marks stand for.
#[tactic(auto, using(crate::proofs::Lists::ones))]
pub(crate) fn mark_truths(alloc: Global, x: Shape<'_>, n: usize) -> Result<Vec<Truth>, AllocError>
    ensures { IfOk result (λ v. v.items ≡ map truth_of_mark (over n (shape_lanes x.entry))) }
{
    match x {
        Shape::One(value) => Vec::from_elem(alloc, truth_of_mark(value), n),
        Shape::Each(column) => marked_truths(alloc, column),
    }
}
