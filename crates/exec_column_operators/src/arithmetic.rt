//! Arithmetic of two columns.
ghost use Rattle.std.specs.Prelude.{◌≡◌, IfOk, IfSome, length, map, true};
ghost use Rattle.base_value.specs.declared.value.Value.TheVariants.{Number};
ghost use Rattle.expr_operators.specs.Operators.{computed};
ghost use Rattle.exec_column_operators.specs.Zips.{zip_with};
ghost use Rattle.exec_column_operators.specs.Exact.{is_exact, exact_scale};

use base_columns::Column;
use base_decimal::Scale;
use expr_operators::{Arithmetic, computed};
use std::alloc::{AllocError, Global};

/// An operator of arithmetic at the values of two columns, row by row.
pub fn computed_columns(
    alloc: Global,
    operator: Arithmetic,
    a: &Column,
    b: &Column,
) -> Result<Column, AllocError>
    requires { length a.now ≡ length b.now }
    ensures { IfOk result (λ c. c ≡ zip_with (computed operator) a.now b.now) }
{
    match computed_numbers(alloc, operator, a, b)? {
        Some(column) => Ok(column),
        None => computed_values(alloc, operator, a, b),
    }
}

// The same, value by value.
fn computed_values(
    alloc: Global,
    operator: Arithmetic,
    a: &Column,
    b: &Column,
) -> Result<Column, AllocError>
    requires { length a.now ≡ length b.now }
    ensures { IfOk result (λ c. c ≡ zip_with (computed operator) a.now b.now) }
{
    let mut values = Vec::with_capacity(alloc, a.len())?;
    for i in 0..a.len() {
        let x = a.at(alloc, i)?;
        let y = b.at(alloc, i)?;
        values.push(computed(operator, &x, &y))?;
    }
    Ok(Column::from_values(values))
}

// The same for columns that keep numbers, where 64 bits hold each result.
fn computed_numbers(
    alloc: Global,
    operator: Arithmetic,
    a: &Column,
    b: &Column,
) -> Result<Option<Column>, AllocError>
    requires { length a.now ≡ length b.now }
    ensures { IfOk result (λ r. IfSome r (λ c. c ≡ zip_with (computed operator) a.now b.now)) }
{
    let Some(left) = a.marked_numbers() else {
        return Ok(None);
    };
    let Some(right) = b.marked_numbers() else {
        return Ok(None);
    };
    if !is_exact(operator, left.0, right.0) {
        return Ok(None);
    }
    match numbers(alloc, operator, left.0, left.1, right.0, right.1)? {
        Some(zs) => {
            let scale = exact_scale(operator, left.0, right.0);
            let marks = left.2.either(alloc, right.2)?;
            Ok(Some(Column::from_marked_numbers(scale, zs, marks)))
        }
        None => Ok(None),
    }
}

// Whether the operator is taken at coefficients of these scales as they are.
fn is_exact(operator: Arithmetic, s: Scale, t: Scale) -> bool
    ensures { result ≡ is_exact operator s t }
{
    match operator {
        Arithmetic::Add | Arithmetic::Subtract => s == t,
        Arithmetic::Multiply => s.places() + t.places() <= 18,
        Arithmetic::Divide => false,
    }
}

// The scale of what it gives.
fn exact_scale(operator: Arithmetic, s: Scale, t: Scale) -> Scale
    requires { is_exact operator s t ≡ true }
    ensures { result ≡ exact_scale operator s t }
{
    match operator {
        Arithmetic::Multiply => Scale::new(s.places() + t.places()),
        _ => s,
    }
}

// The number that the operator makes of two, where 64 bits hold it.
#[tactic(auto, using(crate::proofs::Words64::words))]
fn number(operator: Arithmetic, s: Scale, x: i64, t: Scale, y: i64) -> Option<i64>
    requires { is_exact operator s t ≡ true }
    ensures { IfSome result
        (λ z. computed operator (Number s x) (Number t y) ≡ Number (exact_scale operator s t) z) }
{
    match operator {
        Arithmetic::Add => x.checked_add(y),
        Arithmetic::Subtract => x.checked_sub(y),
        Arithmetic::Multiply => x.checked_mul(y),
        Arithmetic::Divide => None,
    }
}

// The numbers that the operator makes of two slices, where 64 bits hold each.
fn numbers(
    alloc: Global,
    operator: Arithmetic,
    s: Scale,
    xs: &[i64],
    t: Scale,
    ys: &[i64],
) -> Result<Option<Vec<i64>>, AllocError>
    requires long { length xs.now ≡ length ys.now }
    requires exact { is_exact operator s t ≡ true }
    ensures { IfOk result
        (λ r. IfSome r
        (λ v. map (Number (exact_scale operator s t)) v.items
        ≡ zip_with (computed operator) (map (Number s) xs.now) (map (Number t) ys.now))) }
{
    let mut zs = Vec::with_capacity(alloc, xs.len())?;
    for i in 0..xs.len() {
        let Some(z) = number(operator, s, xs[i], t, ys[i]) else {
            return Ok(None);
        };
        zs.push(z)?;
    }
    Ok(Some(zs))
}
