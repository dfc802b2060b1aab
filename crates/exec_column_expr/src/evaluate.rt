//! Evaluation over the rows of a batch. Each node is evaluated over all rows at once; a fault is a
//! value like any other, so that what a row doesn't ask for does no harm.
ghost use Rattle.std.specs.Prelude.{◌≡◌, IfOk, length, map, replicate};
ghost use Rattle.base_value.specs.declared.truth.Standing.TheVariants.{AtTrue as True};
ghost use Rattle.base_value.specs.declared.truth.Truth.TheVariants.{False as Never, Stands as At};
ghost use Rattle.base_columns.specs.Batches.{column_at};
ghost use Rattle.expr_operators.specs.Operators.{compared, liked, null_test, truth_of_mark};
ghost use Rattle.exec_column_operators.specs.Zips.{zip_with};
ghost use Rattle.exec_column_expr.specs.Lanes.{over};
ghost use Rattle.exec_column_expr.specs.Rows.{chosen_over, equal_over, greatest_over, least_over};
ghost use Rattle.exec_column_expr.specs.Rows.{operated_over, truths_over, values_over};

use crate::apply::{
    compared_truths, computed_operand, extracted_operand, liked_truths, mark_truths,
    negative_operand, null_truths, part_operand, scaled_operand,
};
use crate::choose::chosen_operand;
use crate::operand::Operand;
use base_columns::Batch;
use base_text::Text;
use base_value::{Standing, Truth, Value};
use exec_column_operators::{both, either, negated_truths};
use expr_operators::Comparison;
use expr_scalar::{Branch, Expr, Operation};
use std::alloc::{AllocError, Global};

// The values at a place of the rows; null past their end.
#[tactic(auto, using(crate::proofs::Nodes::past_end))]
fn column_operand<'a>(place: u32, batch: &'a Batch, n: usize) -> Operand<'a>
    requires { n ≡ length batch.now.rows }
    ensures { over n result ≡ column_at batch.now.rows place }
{
    let place = place as usize;
    if place < batch.width() {
        Operand::lent(batch.column(place))
    } else {
        Operand::one(Value::Null)
    }
}

/// The values of an expression over the n rows of a batch.
#[cycle(evaluate)]
#[tactic(auto, using(crate::proofs::Nodes::lengths))]
pub(crate) fn operand<'a>(
    alloc: Global,
    e: &Expr,
    batch: &'a Batch,
    n: usize,
) -> Result<Operand<'a>, AllocError>
    requires { n ≡ length batch.now.rows }
    ensures values { IfOk result (λ o. over n o ≡ values_over e.now batch.now.rows) }
    ensures long { IfOk result (λ o. length (over n o) ≡ n) }
{
    let x = node(alloc, e, batch, n)?;
    Ok(x)
}

// The values of any node.
#[cycle(evaluate)]
#[tactic(auto, using(crate::proofs::Nodes::values_opened))]
fn node<'a>(alloc: Global, e: &Expr, batch: &'a Batch, n: usize) -> Result<Operand<'a>, AllocError>
    requires { n ≡ length batch.now.rows }
    ensures { IfOk result (λ o. over n o ≡ values_over e.now batch.now.rows) }
{
    match e {
        Expr::Column(place) => Ok(column_operand(*place, batch, n)),
        Expr::Literal(value) => {
            let value = value.clone()?;
            Ok(Operand::one(value))
        }
        Expr::Negative(e) => {
            let x = operand(alloc, e.get(), batch, n)?;
            negative_operand(alloc, x.shape(), n)
        }
        Expr::Arithmetic(first, operations) => {
            let x = operand(alloc, first.get(), batch, n)?;
            operated(alloc, x, operations.as_slice(), batch, n)
        }
        Expr::Case(scale, branches, other) => {
            let rest = operand(alloc, other.get(), batch, n)?;
            let x = chosen(alloc, branches.as_slice(), rest, batch, n)?;
            scaled_operand(alloc, *scale, x.shape(), n)
        }
        Expr::Extract(part, e) => {
            let x = operand(alloc, e.get(), batch, n)?;
            extracted_operand(alloc, *part, x.shape(), n)
        }
        Expr::Substring(e, from, count) => {
            let x = operand(alloc, e.get(), batch, n)?;
            part_operand(alloc, x.shape(), *from, *count, n)
        }
        Expr::Compare(_, _, _)
        | Expr::Between(_, _, _)
        | Expr::Like(_, _)
        | Expr::InList(_, _)
        | Expr::IsNull(_)
        | Expr::Not(_)
        | Expr::All(_)
        | Expr::Any(_)
        | Expr::IsMarked(_) => Ok(Operand::one(Value::Null)),
    }
}

// What the operations make of values, from left to right.
#[cycle(evaluate)]
fn operated<'a>(
    alloc: Global,
    first: Operand<'a>,
    operations: &[Operation],
    batch: &'a Batch,
    n: usize,
) -> Result<Operand<'a>, AllocError>
    requires rows { n ≡ length batch.now.rows }
    requires long { length (over n first) ≡ n }
    ensures { IfOk result (λ o. over n o
        ≡ operated_over (over n first.entry) operations.now batch.now.rows) }
{
    let mut x = first;
    for operation in operations {
        let y = operand(alloc, &operation.operand, batch, n)?;
        x = computed_operand(alloc, operation.operator, x.shape(), y.shape(), n)?;
    }
    Ok(x)
}

// What the first branch that decides gives, or else the rest: from the last branch to the first.
#[cycle(evaluate)]
fn chosen<'a>(
    alloc: Global,
    branches: &[Branch],
    rest: Operand<'a>,
    batch: &'a Batch,
    n: usize,
) -> Result<Operand<'a>, AllocError>
    requires rows { n ≡ length batch.now.rows }
    requires long { length (over n rest) ≡ n }
    ensures { IfOk result (λ o. over n o
        ≡ chosen_over branches.now (over n rest.entry) batch.now.rows) }
{
    let mut x = rest;
    for i in 0..branches.len() {
        let branch = &branches[branches.len() - 1 - i];
        let truths = condition(alloc, &branch.when, batch, n)?;
        let gives = operand(alloc, &branch.gives, batch, n)?;
        x = chosen_operand(alloc, truths.as_slice(), gives.shape(), x.shape(), n)?;
    }
    Ok(x)
}

/// The truths of a condition over the n rows of a batch.
#[cycle(evaluate)]
#[tactic(auto, using(crate::proofs::Nodes::lengths))]
pub(crate) fn condition(
    alloc: Global,
    e: &Expr,
    batch: &Batch,
    n: usize,
) -> Result<Vec<Truth>, AllocError>
    requires { n ≡ length batch.now.rows }
    ensures truths { IfOk result (λ v. v.items ≡ truths_over e.now batch.now.rows) }
    ensures long { IfOk result (λ v. length v.items ≡ n) }
{
    let truths = tested(alloc, e, batch, n)?;
    Ok(truths)
}

// The truths of any node.
#[cycle(evaluate)]
#[tactic(auto, using(crate::proofs::Nodes::truths_opened))]
fn tested(alloc: Global, e: &Expr, batch: &Batch, n: usize) -> Result<Vec<Truth>, AllocError>
    requires { n ≡ length batch.now.rows }
    ensures { IfOk result (λ v. v.items ≡ truths_over e.now batch.now.rows) }
{
    match e {
        Expr::Compare(comparison, a, b) => {
            let x = operand(alloc, a.get(), batch, n)?;
            comparison_of(alloc, *comparison, &x, b.get(), batch, n)
        }
        Expr::Between(e, low, high) => {
            let x = operand(alloc, e.get(), batch, n)?;
            let above = comparison_of(alloc, Comparison::GreaterOrEqual, &x, low.get(), batch, n)?;
            let below = comparison_of(alloc, Comparison::LessOrEqual, &x, high.get(), batch, n)?;
            both(alloc, above.as_slice(), below.as_slice())
        }
        Expr::Like(e, pattern) => like_of(alloc, e.get(), pattern, batch, n),
        Expr::InList(e, es) => {
            let x = operand(alloc, e.get(), batch, n)?;
            equal_to_any(alloc, &x, es.as_slice(), batch, n)
        }
        Expr::IsNull(e) => null_test_of(alloc, e.get(), batch, n),
        Expr::Not(e) => {
            let truths = condition(alloc, e.get(), batch, n)?;
            negated_truths(alloc, truths.as_slice())
        }
        Expr::All(es) => least(alloc, es.as_slice(), batch, n),
        Expr::Any(es) => greatest(alloc, es.as_slice(), batch, n),
        Expr::IsMarked(e) => mark_of(alloc, e.get(), batch, n),
        Expr::Column(_)
        | Expr::Literal(_)
        | Expr::Negative(_)
        | Expr::Arithmetic(_, _)
        | Expr::Case(_, _, _)
        | Expr::Extract(_, _)
        | Expr::Substring(_, _, _) => Vec::from_elem(alloc, Truth::Unknown, n),
    }
}

// A comparison of values with those of an expression.
#[cycle(evaluate)]
#[tactic(auto, using(crate::proofs::Nodes::lengths))]
fn comparison_of(
    alloc: Global,
    comparison: Comparison,
    x: &Operand<'_>,
    e: &Expr,
    batch: &Batch,
    n: usize,
) -> Result<Vec<Truth>, AllocError>
    requires rows { n ≡ length batch.now.rows }
    requires long { length (over n x.now) ≡ n }
    ensures truths { IfOk result (λ v. v.items ≡ zip_with (compared comparison)
        (over n x.now) (values_over e.now batch.now.rows)) }
    ensures long { IfOk result (λ v. length v.items ≡ n) }
{
    let y = operand(alloc, e, batch, n)?;
    let truths = compared_truths(alloc, comparison, x.shape(), y.shape(), n)?;
    Ok(truths)
}

// LIKE.
#[cycle(evaluate)]
#[tactic(auto, using(crate::proofs::Nodes::lengths))]
fn like_of(
    alloc: Global,
    e: &Expr,
    pattern: &Text,
    batch: &Batch,
    n: usize,
) -> Result<Vec<Truth>, AllocError>
    requires { n ≡ length batch.now.rows }
    ensures { IfOk result (λ v. v.items
        ≡ map (liked pattern.now) (values_over e.now batch.now.rows)) }
{
    let x = operand(alloc, e, batch, n)?;
    liked_truths(alloc, x.shape(), pattern, n)
}

// IS NULL.
#[cycle(evaluate)]
#[tactic(auto, using(crate::proofs::Nodes::lengths))]
fn null_test_of(alloc: Global, e: &Expr, batch: &Batch, n: usize) -> Result<Vec<Truth>, AllocError>
    requires { n ≡ length batch.now.rows }
    ensures { IfOk result (λ v. v.items ≡ map null_test (values_over e.now batch.now.rows)) }
{
    let x = operand(alloc, e, batch, n)?;
    null_truths(alloc, x.shape(), n)
}

// The truth that a mark stands for.
#[cycle(evaluate)]
#[tactic(auto, using(crate::proofs::Nodes::lengths))]
fn mark_of(alloc: Global, e: &Expr, batch: &Batch, n: usize) -> Result<Vec<Truth>, AllocError>
    requires { n ≡ length batch.now.rows }
    ensures { IfOk result (λ v. v.items ≡ map truth_of_mark (values_over e.now batch.now.rows)) }
{
    let x = operand(alloc, e, batch, n)?;
    mark_truths(alloc, x.shape(), n)
}

// AND.
#[cycle(evaluate)]
fn least(alloc: Global, es: &[Expr], batch: &Batch, n: usize) -> Result<Vec<Truth>, AllocError>
    requires { n ≡ length batch.now.rows }
    ensures { IfOk result (λ v. v.items
        ≡ least_over (replicate n (At True)) es.now batch.now.rows) }
{
    let mut truths = Vec::from_elem(alloc, Truth::Stands(Standing::AtTrue), n)?;
    for e in es {
        let more = condition(alloc, e, batch, n)?;
        truths = both(alloc, truths.as_slice(), more.as_slice())?;
    }
    Ok(truths)
}

// OR.
#[cycle(evaluate)]
fn greatest(alloc: Global, es: &[Expr], batch: &Batch, n: usize) -> Result<Vec<Truth>, AllocError>
    requires { n ≡ length batch.now.rows }
    ensures { IfOk result (λ v. v.items ≡ greatest_over (replicate n Never) es.now batch.now.rows) }
{
    let mut truths = Vec::from_elem(alloc, Truth::False, n)?;
    for e in es {
        let more = condition(alloc, e, batch, n)?;
        truths = either(alloc, truths.as_slice(), more.as_slice())?;
    }
    Ok(truths)
}

// The OR of the equalities of values with those of a list.
#[cycle(evaluate)]
fn equal_to_any(
    alloc: Global,
    x: &Operand<'_>,
    es: &[Expr],
    batch: &Batch,
    n: usize,
) -> Result<Vec<Truth>, AllocError>
    requires rows { n ≡ length batch.now.rows }
    requires long { length (over n x.now) ≡ n }
    ensures { IfOk result (λ v. v.items
        ≡ equal_over (over n x.now) (replicate n Never) es.now batch.now.rows) }
{
    let mut truths = Vec::from_elem(alloc, Truth::False, n)?;
    for e in es {
        let y = operand(alloc, e, batch, n)?;
        let more = compared_truths(alloc, Comparison::Equal, x.shape(), y.shape(), n)?;
        truths = either(alloc, truths.as_slice(), more.as_slice())?;
    }
    Ok(truths)
}
