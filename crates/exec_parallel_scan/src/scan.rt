//! Stages over the rows of a table, by several threads.
ghost use Rattle.std.specs.Prelude.{◌≡◌, IfOk, length};
ghost use Rattle.std.specs.List.{All};
ghost use Rattle.base_row_laws.specs.Rows.{scanned};
ghost use Rattle.base_row_laws.specs.Operators.{select, project};
ghost use Rattle.base_columns.specs.Lists.{one_list};
ghost use Rattle.expr_conditions.specs.Ranks.{rank_of};
ghost use Rattle.expr_scalar.specs.Meaning.{values};
ghost use Rattle.exec_parallel_scan.specs.Stages.{staged, staged_width, AreScanned, GiveWidth};

use crate::parts::{joined, put_batch};
use crate::stages::{Stage, staged_batch, staged_width};
use base_columns::{Bag, Batch};
use exec_threads::{map_parts, part_len};
use expr_scalar::Expr;
use plan_algebra::Piece;
use std::alloc::{AllocError, Global};
use std::thread::Threads;

// What stages make of each piece; pieces of which no row is kept are left out.
fn staged_pieces(
    alloc: Global,
    pieces: &[Piece],
    stages: &[Stage<'_>],
) -> Result<Vec<Batch>, AllocError>
    ensures { IfOk result (λ v. AreScanned stages.now pieces.now v.items) }
{
    let mut made = Vec::new(alloc);
    for piece in pieces {
        if piece.len() > 0 {
            let batch = piece.batch(alloc)?;
            let rows = staged_batch(alloc, stages, &batch)?;
            put_batch(&mut made, rows)?;
        }
    }
    Ok(made)
}

// The rows of pieces after these stages, which give rows of that width.
fn scan_parts<R: Threads + Sync>(
    rt: &R,
    alloc: Global,
    width: usize,
    pieces: &[Piece],
    stages: &[Stage<'_>],
) -> Result<Bag, AllocError>
    requires { GiveWidth stages.now width pieces.now }
    ensures width { IfOk result (λ b. b.width ≡ width) }
    ensures rows { IfOk result (λ b. b.rows ≡ staged stages.now (scanned (one_list pieces.now))) }
{
    let size = part_len(rt, pieces.len());
    let parts = map_parts(
        rt,
        alloc,
        pieces,
        size,
        &|_start: usize, part: &[Piece]| -> Result<Vec<Batch>, AllocError>
            ensures { IfOk result (λ v. AreScanned stages.entry.now part.now v.items) }
        { staged_pieces(alloc, part, stages) },
    )?;
    let bag = joined(alloc, width, parts)?;
    Ok(bag)
}

/// The rows of a table of that width after these stages, in the order in which one thread has them,
/// for every number of pieces. Several threads take parts of the pieces, where there are more than
/// a few. No bag of the table's rows is made.
pub fn staged_scan<R: Threads + Sync>(
    rt: &R,
    alloc: Global,
    width: usize,
    pieces: &[Piece],
    stages: &[Stage<'_>],
) -> Result<Bag, AllocError>
    requires { All (λ row. length row ≡ width) (one_list pieces.now) }
    ensures width { IfOk result (λ b. b.width ≡ staged_width stages.now width) }
    ensures rows { IfOk result (λ b. b.rows ≡ staged stages.now (scanned (one_list pieces.now))) }
{
    let after = staged_width(stages, width);
    let bag = scan_parts(rt, alloc, after, pieces, stages)?;
    Ok(bag)
}

/// The rows of a table that a condition keeps, with the values of these columns: those of one
/// thread, in its order, for every number of pieces.
pub fn scan_rows<R: Threads + Sync>(
    rt: &R,
    alloc: Global,
    pieces: &[Piece],
    condition: &Expr,
    columns: &[Expr],
) -> Result<Bag, AllocError>
    ensures width { IfOk result (λ b. b.width ≡ length columns.now) }
    ensures rows { IfOk result (λ b. b.rows ≡ project (values columns.now)
        (select (rank_of condition.now) (scanned (one_list pieces.now)))) }
{
    let stages = [Stage::Select(condition), Stage::Project(columns)];
    let bag = scan_parts(rt, alloc, columns.len(), pieces, &stages)?;
    Ok(bag)
}
