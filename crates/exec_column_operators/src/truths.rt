//! Truths of rows, row by row.
ghost use Rattle.std.specs.Prelude.{◌≡◌, IfOk, length, map, replicate};
ghost use Rattle.base_null_marks.specs.Marks.{marked};
ghost use Rattle.base_value.specs.declared.truth.Standing.TheVariants.{AtTrue};
ghost use Rattle.base_value.specs.declared.truth.Truth.TheVariants.{Stands, False as Never};
ghost use Rattle.base_value.specs.Truth.{lesser, greater, negated};
ghost use Rattle.expr_operators.specs.Operators.{liked, null_test, truth_of_mark};
ghost use Rattle.exec_column_operators.specs.Zips.{zip_with};

use crate::likes::liked_values;
use crate::texts::liked_codes;
use base_columns::Column;
use base_null_marks::{Marks, masked};
use base_text::Text;
use base_value::{Standing, Truth};
use expr_operators::{null_test, truth_of_mark};
use std::alloc::{AllocError, Global};

/// AND, row by row.
pub fn both(alloc: Global, a: &[Truth], b: &[Truth]) -> Result<Vec<Truth>, AllocError>
    requires { length a.now ≡ length b.now }
    ensures { IfOk result (λ v. v.items ≡ zip_with lesser a.now b.now) }
{
    let mut truths = Vec::with_capacity(alloc, a.len())?;
    for i in 0..a.len() {
        truths.push(a[i].and(b[i]))?;
    }
    Ok(truths)
}

/// OR, row by row.
pub fn either(alloc: Global, a: &[Truth], b: &[Truth]) -> Result<Vec<Truth>, AllocError>
    requires { length a.now ≡ length b.now }
    ensures { IfOk result (λ v. v.items ≡ zip_with greater a.now b.now) }
{
    let mut truths = Vec::with_capacity(alloc, a.len())?;
    for i in 0..a.len() {
        truths.push(a[i].or(b[i]))?;
    }
    Ok(truths)
}

/// NOT, row by row.
pub fn negated_truths(alloc: Global, a: &[Truth]) -> Result<Vec<Truth>, AllocError>
    ensures { IfOk result (λ v. v.items ≡ map negated a.now) }
{
    let mut truths = Vec::with_capacity(alloc, a.len())?;
    for truth in a {
        truths.push(truth.negated())?;
    }
    Ok(truths)
}

/// LIKE, row by row.
pub fn liked_column(alloc: Global, a: &Column, pattern: &Text) -> Result<Vec<Truth>, AllocError>
    ensures { IfOk result (λ v. v.items ≡ map (liked pattern.now) a.now) }
{
    match liked_codes(alloc, a, pattern)? {
        Some(truths) => Ok(truths),
        None => liked_values(alloc, a, pattern),
    }
}

/// IS NULL, row by row.
pub fn null_tests(alloc: Global, a: &Column) -> Result<Vec<Truth>, AllocError>
    ensures { IfOk result (λ v. v.items ≡ map null_test a.now) }
{
    if let Some(numbers) = a.marked_numbers() {
        return true_at(alloc, numbers.1.len(), numbers.2);
    }
    if let Some((dates, marks)) = a.marked_dates() {
        return true_at(alloc, dates.len(), marks);
    }
    if let Some((codes, _dictionary, marks)) = a.marked_codes() {
        return true_at(alloc, codes.len(), marks);
    }
    null_values(alloc, a)
}

// True where a place is marked, n truths in all.
fn true_at(alloc: Global, n: usize, marks: &Marks) -> Result<Vec<Truth>, AllocError>
    ensures { IfOk result (λ v. v.items ≡ marked (Stands AtTrue) marks.now (replicate n Never)) }
{
    let truths = Vec::from_elem(alloc, Truth::False, n)?;
    Ok(masked(truths, marks, Truth::Stands(Standing::AtTrue)))
}

// IS NULL, value by value.
fn null_values(alloc: Global, a: &Column) -> Result<Vec<Truth>, AllocError>
    ensures { IfOk result (λ v. v.items ≡ map null_test a.now) }
{
    let mut truths = Vec::with_capacity(alloc, a.len())?;
    for i in 0..a.len() {
        let x = a.at(alloc, i)?;
        truths.push(null_test(&x))?;
    }
    Ok(truths)
}

/// The truths that marks stand for, row by row.
pub fn marked_truths(alloc: Global, a: &Column) -> Result<Vec<Truth>, AllocError>
    ensures { IfOk result (λ v. v.items ≡ map truth_of_mark a.now) }
{
    let mut truths = Vec::with_capacity(alloc, a.len())?;
    for i in 0..a.len() {
        let x = a.at(alloc, i)?;
        truths.push(truth_of_mark(&x))?;
    }
    Ok(truths)
}
