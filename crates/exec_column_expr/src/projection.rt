//! The rows that expressions make.
ghost use Rattle.std.specs.Prelude.{◌≡◌, IfOk, length};
ghost use Rattle.base_row_laws.specs.Operators.{project};
ghost use Rattle.expr_scalar.specs.Meaning.{values};
ghost use Rattle.exec_column_expr.specs.Rows.{columns_over};

use crate::batches::values_of;
use base_columns::{Batch, Column};
use expr_scalar::Expr;
use std::alloc::{AllocError, Global};

// The values of each expression.
fn columns_of(alloc: Global, es: &[Expr], batch: &Batch) -> Result<Vec<Column>, AllocError>
    ensures { IfOk result (λ v. v.items ≡ columns_over es.now batch.now.rows) }
{
    let mut columns = Vec::with_capacity(alloc, es.len())?;
    for e in es {
        let column = values_of(alloc, e, batch)?;
        columns.push(column)?;
    }
    Ok(columns)
}

/// The rows of these expressions' values, standings kept.
#[tactic(auto, using(crate::proofs::MadeRows::projections))]
pub fn projected(alloc: Global, es: &[Expr], batch: &Batch) -> Result<Batch, AllocError>
    ensures width { IfOk result (λ b. b.width ≡ length es.now) }
    ensures rows { IfOk result (λ b. b.rows ≡ project (values es.now) batch.now.rows) }
{
    let columns = columns_of(alloc, es, batch)?;
    let rows = batch.with_columns(alloc, columns)?;
    Ok(rows)
}
