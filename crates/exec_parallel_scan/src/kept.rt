//! The rows of a batch that a condition keeps. The parts of an AND are asked one after the other,
//! the later ones of the rows alone that are left.
ghost use Rattle.std.specs.Prelude.{◌≡◌, ℕ, ◌<◌, List, IfOk, length, map, min};
ghost use Rattle.base_row_laws.specs.Ranked.{Ranked};
ghost use Rattle.base_row_laws.specs.Operators.{select};
ghost use Rattle.base_value.specs.declared.value.Value.{Value as Datum};
ghost use Rattle.base_value.specs.Truth.{truth_rank};
ghost use Rattle.expr_conditions.specs.Ranks.{rank_of, all_rank};
ghost use Rattle.exec_parallel_scan.specs.Kept.{StandFor};

use base_columns::Batch;
use base_value::{Standing, Truth};
use exec_column_expr::truths_of;
use exec_column_operators::both;
use expr_scalar::Expr;
use std::alloc::{AllocError, Global};

// Rows, and what the parts of an AND that were asked since they were gathered say of them.
#[derive(Drop)]
struct Remaining {
    rows: Batch,
    truths: Vec<Truth>,
}

// Whether each truth is True: then columns are shared and not gathered.
fn are_all_true(truths: &[Truth]) -> bool {
    for truth in truths {
        if *truth != Truth::Stands(Standing::AtTrue) {
            return false;
        }
    }
    true
}

// Whether the truths keep less than half of the rows: then it is cheaper to gather these before the
// next part is asked.
fn keep_few(truths: &[Truth]) -> bool {
    let mut kept: usize = 0;
    for truth in truths {
        if let Truth::Stands(_) = truth {
            kept = kept.saturating_add(1);
        }
    }
    kept < truths.len() / 2
}

// The rows of a batch that truths keep: a share of the batch where each is True. `AllocError` at
// 2^32 rows: row numbers are `u32`.
fn rows_kept(alloc: Global, batch: &Batch, truths: &[Truth]) -> Result<Batch, AllocError>
    requires { length truths.now ≡ length batch.now.rows }
    ensures width { IfOk result (λ b. b.width ≡ batch.now.width) }
    ensures rows { IfOk result
        (λ b. (c : List Datum → ℕ)
        → map truth_rank truths.now ≡ map (λ r. c r.values) batch.now.rows
        → b.rows ≡ select c batch.now.rows) }
{
    if batch.len() >= 1 << 32 {
        return Err(AllocError);
    }
    if are_all_true(truths) {
        let all = batch.share(alloc)?;
        let kept = all.keep(alloc, truths)?;
        return Ok(kept);
    }
    let kept = batch.select(alloc, truths)?;
    Ok(kept)
}

// What the first part of an AND says of the rows of a batch.
fn asked_first(alloc: Global, e: &Expr, batch: &Batch) -> Result<Remaining, AllocError>
    ensures width { IfOk result (λ k. k.rows.width ≡ batch.now.width) }
    ensures rows { IfOk result
        (λ k. StandFor batch.now.rows (rank_of e.now) k.rows.rows k.truths.items) }
{
    let truths = truths_of(alloc, e, batch)?;
    let rows = batch.share(alloc)?;
    Ok(Remaining { rows, truths })
}

// What one part more says, of the rows that are left.
fn asked_of_rest(alloc: Global, kept: Remaining, e: &Expr) -> Result<Remaining, AllocError>
    requires { length kept.truths.items ≡ length kept.rows.rows }
    ensures width { IfOk result (λ k. k.rows.width ≡ kept.rows.width) }
    ensures rows { IfOk result (λ k.
        (f : List Datum → ℕ) (all : List (Ranked Datum))
        → StandFor all f kept.rows.rows kept.truths.items
        → StandFor all (λ row. min (f row) (rank_of e.now row)) k.rows.rows k.truths.items) }
{
    if keep_few(kept.truths.as_slice()) {
        let rows = rows_kept(alloc, &kept.rows, kept.truths.as_slice())?;
        let truths = truths_of(alloc, e, &rows)?;
        return Ok(Remaining { rows, truths });
    }
    let more = truths_of(alloc, e, &kept.rows)?;
    let truths = both(alloc, kept.truths.as_slice(), more.as_slice())?;
    let rows = kept.rows;
    Ok(Remaining { rows, truths })
}

// The rows of a batch that each part of an AND keeps.
fn kept_by_all(alloc: Global, es: &[Expr], batch: &Batch) -> Result<Batch, AllocError>
    requires { 0 < length es.now }
    ensures width { IfOk result (λ b. b.width ≡ batch.now.width) }
    ensures rows { IfOk result (λ b. b.rows ≡ select (all_rank es.now) batch.now.rows) }
{
    let mut kept = asked_first(alloc, &es[0], batch)?;
    for k in 1..es.len() {
        kept = asked_of_rest(alloc, kept, &es[k])?;
    }
    let rows = rows_kept(alloc, &kept.rows, kept.truths.as_slice())?;
    Ok(rows)
}

/// The rows of a batch that a condition keeps: a share of the batch where it is True for each row.
/// `AllocError` at 2^32 rows: row numbers are `u32`.
pub(crate) fn kept_batch(alloc: Global, e: &Expr, batch: &Batch) -> Result<Batch, AllocError>
    ensures width { IfOk result (λ b. b.width ≡ batch.now.width) }
    ensures rows { IfOk result (λ b. b.rows ≡ select (rank_of e.now) batch.now.rows) }
{
    if let Expr::All(es) = e {
        if !es.is_empty() {
            let kept = kept_by_all(alloc, es.as_slice(), batch)?;
            return Ok(kept);
        }
    }
    let truths = truths_of(alloc, e, batch)?;
    let kept = rows_kept(alloc, batch, truths.as_slice())?;
    Ok(kept)
}
