//! What a plan reads of the rows of a part.
ghost use Rattle.std.specs.Prelude.{◌≡◌, ◌<◌, ◌^◌, IfOk, IfSome, length};
ghost use Rattle.base_columns.specs.Tables.{standing_rows};
ghost use Rattle.plan_algebra.specs.KeptPlans.{selected};

use crate::placed::PlacedReading;
use crate::reading::Reading;
use base_columns::Batch;
use expr_scalar::Expr;
use plan_algebra::{KeptPlan, Piece};
use sqlite_items::Items;
use std::alloc::{AllocError, Global};
use store_state::Part;

/// From so many rows of a segment on they are read where they lie. Of fewer, the columns are
/// gathered first, so that no expression is computed over rows that aren't there.
const MANY_ROWS: usize = 1024;

// A part's rows as a piece, of which nothing is copied.
fn piece_of(alloc: Global, part: &Part) -> Result<Piece, AllocError>
    ensures { IfOk result (λ piece. piece ≡ part.now) }
{
    let (segment, places) = part.stored(alloc)?;
    match places {
        None => Ok(Piece::whole(segment)),
        Some(places) => Ok(Piece::at(segment, Items::from_vec(places))),
    }
}

// The rows of a part as a batch, all at True.
fn batch_of(alloc: Global, part: &Part) -> Result<Batch, AllocError>
    ensures rows { IfOk result (λ b. b.rows ≡ standing_rows part.now) }
    ensures short { IfOk result (λ b. length b.rows < 2 ^ 32) }
{
    let _count = part.len();
    let piece = piece_of(alloc, part)?;
    let batch = piece.batch(alloc)?;
    Ok(batch)
}

// What a plan reads of a part.
fn reading_of<'a>(alloc: Global, plan: &'a KeptPlan, part: &Part) -> Result<Reading<'a>, AllocError>
    ensures plan { IfOk result (λ r. r.plan ≡ plan.now) }
    ensures rows { IfOk result (λ r. r.rows ≡ selected plan.now part.now) }
{
    let batch = batch_of(alloc, part)?;
    let reading = Reading::new(alloc, plan, batch)?;
    Ok(reading)
}

// Whether a plan has no WHERE.
fn keeps_all(plan: &KeptPlan) -> bool {
    match plan.condition.get() {
        Expr::All(conditions) => conditions.is_empty(),
        _ => false,
    }
}

// What a plan reads of a part, where it lies: none of the segment's columns is gathered. None where
// the part is the whole segment, of which nothing is gathered anyway, or where WHERE drops a row of
// the segment.
fn read_in_place<'a>(
    alloc: Global,
    plan: &'a KeptPlan,
    part: &Part,
) -> Result<Option<PlacedReading<'a>>, AllocError>
    ensures plan { IfOk result (λ found. IfSome found (λ r. r.plan ≡ plan.now)) }
    ensures rows { IfOk result (λ found. IfSome found (λ r. r.rows ≡ selected plan.now part.now)) }
{
    let (segment, places) = part.stored(alloc)?;
    let Some(places) = places else {
        return Ok(None);
    };
    let batch = segment.batch().share(alloc)?;
    let reading = Reading::new(alloc, plan, batch)?;
    if reading.len() < segment.len() {
        return Ok(None);
    }
    let rows = PlacedReading::at(alloc, reading, places.as_slice())?;
    Ok(Some(rows))
}

/// What a plan reads of a part.
pub(crate) fn read_of<'a>(
    alloc: Global,
    plan: &'a KeptPlan,
    part: &Part,
) -> Result<PlacedReading<'a>, AllocError>
    ensures plan { IfOk result (λ r. r.plan ≡ plan.now) }
    ensures rows { IfOk result (λ r. r.rows ≡ selected plan.now part.now) }
{
    if part.len() >= MANY_ROWS && keeps_all(plan) {
        if let Some(rows) = read_in_place(alloc, plan, part)? {
            return Ok(rows);
        }
    }
    let reading = reading_of(alloc, plan, part)?;
    let rows = PlacedReading::whole(alloc, reading)?;
    Ok(rows)
}
