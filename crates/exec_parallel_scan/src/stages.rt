//! Selections and select lists, one after the other.
ghost use Rattle.std.specs.Prelude.{◌≡◌, IfOk};
ghost use Rattle.exec_parallel_scan.specs.Stages.{stage_rows, stage_width, staged, staged_width};

use crate::kept::kept_batch;
use base_columns::Batch;
use exec_column_expr::projected;
use expr_scalar::Expr;
use std::alloc::{AllocError, Global};

/// A selection or a select list.
#[derive(Clone, Copy)]
pub enum Stage<'a> {
    /// The rows that the condition keeps.
    Select(&'a Expr),
    /// The values of these expressions over each row.
    Project(&'a [Expr]),
}

// How many values each row has after a stage.
fn stage_width(stage: &Stage<'_>, width: usize) -> usize
    ensures { result ≡ stage_width stage.now width }
{
    match stage {
        Stage::Select(_) => width,
        Stage::Project(es) => es.len(),
    }
}

/// How many values each row has after all stages.
pub(crate) fn staged_width(stages: &[Stage<'_>], width: usize) -> usize
    ensures { result ≡ staged_width stages.now width }
{
    let mut after = width;
    for stage in stages {
        after = stage_width(stage, after);
    }
    after
}

// The rows of a batch after one stage.
fn stage_batch(alloc: Global, stage: &Stage<'_>, batch: &Batch) -> Result<Batch, AllocError>
    ensures width { IfOk result (λ b. b.width ≡ stage_width stage.now batch.now.width) }
    ensures rows { IfOk result (λ b. b.rows ≡ stage_rows stage.now batch.now.rows) }
{
    match stage {
        Stage::Select(e) => {
            let kept = kept_batch(alloc, e, batch)?;
            Ok(kept)
        }
        Stage::Project(es) => {
            let listed = projected(alloc, es, batch)?;
            Ok(listed)
        }
    }
}

/// The rows of a batch after all stages.
pub(crate) fn staged_batch(
    alloc: Global,
    stages: &[Stage<'_>],
    batch: &Batch,
) -> Result<Batch, AllocError>
    ensures width { IfOk result (λ b. b.width ≡ staged_width stages.now batch.now.width) }
    ensures rows { IfOk result (λ b. b.rows ≡ staged stages.now batch.now.rows) }
{
    if stages.is_empty() {
        let all = batch.share(alloc)?;
        return Ok(all);
    }
    let mut rows = stage_batch(alloc, &stages[0], batch)?;
    for k in 1..stages.len() {
        rows = stage_batch(alloc, &stages[k], &rows)?;
    }
    Ok(rows)
}
