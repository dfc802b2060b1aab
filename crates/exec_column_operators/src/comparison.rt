//! Comparison of two columns, row by row.
ghost use Rattle.std.specs.Prelude.{◌≡◌, ◌<◌, IfOk, IfSome, length, map, slice_index_or};
ghost use Rattle.base_null_marks.specs.Marks.{marked};
ghost use Rattle.base_value.specs.declared.truth.Truth.TheVariants.{Unknown};
ghost use Rattle.base_value.specs.declared.value.Value.TheVariants.{Number, Date as DateOf, Null};
ghost use Rattle.expr_operators.specs.Operators.{compared};
ghost use Rattle.exec_column_operators.specs.Exact.{number_compared, dates_compared};
ghost use Rattle.exec_column_operators.specs.Zips.{zip_with};

use crate::texts::compared_codes;
use base_columns::Column;
use base_date::CivilDate;
use base_decimal::Scale;
use base_null_marks::{Marks, masked};
use base_value::{Truth, Value};
use expr_operators::{Comparison, compared, holds};
use std::alloc::{AllocError, Global};

/// A comparison of the values of two columns, row by row.
pub fn compared_columns(
    alloc: Global,
    comparison: Comparison,
    a: &Column,
    b: &Column,
) -> Result<Vec<Truth>, AllocError>
    requires { length a.now ≡ length b.now }
    ensures { IfOk result (λ v. v.items ≡ zip_with (compared comparison) a.now b.now) }
{
    if let Some(truths) = compared_numbers(alloc, comparison, a, b)? {
        return Ok(truths);
    }
    if let Some(truths) = compared_dates(alloc, comparison, a, b)? {
        return Ok(truths);
    }
    if let Some(truths) = compared_codes(alloc, comparison, a, b)? {
        return Ok(truths);
    }
    compared_values(alloc, comparison, a, b)
}

// The same, value by value.
fn compared_values(
    alloc: Global,
    comparison: Comparison,
    a: &Column,
    b: &Column,
) -> Result<Vec<Truth>, AllocError>
    requires { length a.now ≡ length b.now }
    ensures { IfOk result (λ v. v.items ≡ zip_with (compared comparison) a.now b.now) }
{
    let mut truths = Vec::with_capacity(alloc, a.len())?;
    for i in 0..a.len() {
        let truth = compared_at(alloc, comparison, a, b, i)?;
        truths.push(truth)?;
    }
    Ok(truths)
}

// A comparison of the values at a place: of two texts their bytes are compared where they lie.
fn compared_at(
    alloc: Global,
    comparison: Comparison,
    a: &Column,
    b: &Column,
    i: usize,
) -> Result<Truth, AllocError>
    requires left { i < length a.now }
    requires right { i < length b.now }
    ensures { IfOk result (λ t.
        t ≡ compared comparison (slice_index_or a.now i Null) (slice_index_or b.now i Null)) }
{
    if let Some(x) = a.text(i) {
        if let Some(y) = b.text(i) {
            return Ok(holds(comparison, x.cmp(&y)));
        }
    }
    let x = a.at(alloc, i)?;
    let y = b.at(alloc, i)?;
    Ok(compared(comparison, &x, &y))
}

// The truths, but Unknown where either of two operands is null.
fn unknown_at(ms: &Marks, ns: &Marks, truths: Vec<Truth>) -> Vec<Truth>
    ensures { result.items ≡ marked Unknown ms.now (marked Unknown ns.now truths.items) }
{
    masked(masked(truths, ns, Truth::Unknown), ms, Truth::Unknown)
}

// The same for columns that keep numbers.
fn compared_numbers(
    alloc: Global,
    comparison: Comparison,
    a: &Column,
    b: &Column,
) -> Result<Option<Vec<Truth>>, AllocError>
    requires { length a.now ≡ length b.now }
    ensures { IfOk result (λ r.
        IfSome r (λ v. v.items ≡ zip_with (compared comparison) a.now b.now)) }
{
    let Some(left) = a.marked_numbers() else {
        return Ok(None);
    };
    let Some(right) = b.marked_numbers() else {
        return Ok(None);
    };
    let truths = numbers(alloc, comparison, left.0, left.1, right.0, right.1)?;
    Ok(Some(unknown_at(left.2, right.2, truths)))
}

// The same for numbers of two scales.
fn numbers(
    alloc: Global,
    comparison: Comparison,
    s: Scale,
    xs: &[i64],
    t: Scale,
    ys: &[i64],
) -> Result<Vec<Truth>, AllocError>
    requires { length xs.now ≡ length ys.now }
    ensures { IfOk result
        (λ v. v.items ≡ zip_with (λ x y. number_compared comparison s x t y) xs.now ys.now) }
{
    let mut truths = Vec::with_capacity(alloc, xs.len())?;
    for i in 0..xs.len() {
        truths.push(compared_number(comparison, s, &xs[i], t, &ys[i]))?;
    }
    Ok(truths)
}

// A comparison of two numbers.
#[tactic(auto, using(crate::proofs::Words64::orders), unfolding(crate::specs::Exact::number_compared))]
fn compared_number(comparison: Comparison, s: Scale, x: &i64, t: Scale, y: &i64) -> Truth
    ensures { result ≡ number_compared comparison s x.now t y.now }
{
    let (a, b) = (*x, *y);
    if s == t {
        return holds(comparison, a.cmp(&b));
    }
    compared(
        comparison,
        &Value::Number(s, i128::from(a)),
        &Value::Number(t, i128::from(b)),
    )
}

// The same for columns that keep dates.
fn compared_dates(
    alloc: Global,
    comparison: Comparison,
    a: &Column,
    b: &Column,
) -> Result<Option<Vec<Truth>>, AllocError>
    requires { length a.now ≡ length b.now }
    ensures { IfOk result (λ r.
        IfSome r (λ v. v.items ≡ zip_with (compared comparison) a.now b.now)) }
{
    let Some((xs, ms)) = a.marked_dates() else {
        return Ok(None);
    };
    let Some((ys, ns)) = b.marked_dates() else {
        return Ok(None);
    };
    let truths = dates(alloc, comparison, xs, ys)?;
    Ok(Some(unknown_at(ms, ns, truths)))
}

// The same for dates.
fn dates(
    alloc: Global,
    comparison: Comparison,
    xs: &[CivilDate],
    ys: &[CivilDate],
) -> Result<Vec<Truth>, AllocError>
    requires { length xs.now ≡ length ys.now }
    ensures { IfOk result (λ v. v.items ≡ zip_with (dates_compared comparison) xs.now ys.now) }
{
    let mut truths = Vec::with_capacity(alloc, xs.len())?;
    for i in 0..xs.len() {
        truths.push(compared_date(comparison, xs[i], ys[i]))?;
    }
    Ok(truths)
}

// A comparison of two dates.
#[tactic(auto, unfolding(crate::specs::Exact::dates_compared))]
fn compared_date(comparison: Comparison, x: CivilDate, y: CivilDate) -> Truth
    ensures { result ≡ dates_compared comparison x y }
{
    holds(comparison, x.cmp(&y))
}
