//! Expressions over batches: their values, their truths, and the rows that they make.
ghost use Rattle.std.specs.Prelude.{◌≡◌, ◌<◌, ◌^◌, IfOk, length, map};
ghost use Rattle.base_row_laws.specs.Operators.{select};
ghost use Rattle.base_value.specs.Truth.{truth_rank};
ghost use Rattle.expr_scalar.specs.Meaning.{truth, value};
ghost use Rattle.expr_conditions.specs.Ranks.{rank_of};

use crate::evaluate::{condition, operand};
use base_columns::{Batch, Column};
use base_value::Truth;
use expr_scalar::Expr;
use std::alloc::{AllocError, Global};

/// The values of an expression over the rows of a batch, row by row.
#[tactic(auto, unfolding(crate::specs::Rows::values_over))]
pub fn values_of(alloc: Global, e: &Expr, batch: &Batch) -> Result<Column, AllocError>
    ensures { IfOk result (λ c. c ≡ map (λ r. value e.now r.values) batch.now.rows) }
{
    let n = batch.len();
    let x = operand(alloc, e, batch, n)?;
    let column = x.into_column(alloc, n)?;
    Ok(column)
}

/// The truths of a condition over the rows of a batch, row by row.
#[tactic(auto, using(crate::proofs::Ranks::ranks_are), unfolding(crate::specs::Rows::truths_over))]
pub fn truths_of(alloc: Global, e: &Expr, batch: &Batch) -> Result<Vec<Truth>, AllocError>
    ensures truths { IfOk result (λ v. v.items ≡ map (λ r. truth e.now r.values) batch.now.rows) }
    ensures ranks { IfOk result
        (λ v. map truth_rank v.items ≡ map (λ r. rank_of e.now r.values) batch.now.rows) }
{
    let truths = condition(alloc, e, batch, batch.len())?;
    Ok(truths)
}

/// The rows that a condition keeps: each at the lesser of its standing and the condition's truth.
pub fn selected(alloc: Global, e: &Expr, batch: &Batch) -> Result<Batch, AllocError>
    requires { length batch.now.rows < 2 ^ 32 }
    ensures width { IfOk result (λ b. b.width ≡ batch.now.width) }
    ensures rows { IfOk result (λ b. b.rows ≡ select (rank_of e.now) batch.now.rows) }
{
    let truths = truths_of(alloc, e, batch)?;
    let kept = batch.select(alloc, truths.as_slice())?;
    Ok(kept)
}
