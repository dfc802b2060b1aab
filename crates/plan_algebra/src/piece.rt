//! Pieces of a table, as a scan hands them out.
ghost use Rattle.std.specs.Prelude.{◌≡◌, [], length, IfOk};
ghost use Rattle.std.specs.List.{All};
ghost use Rattle.base_columns.specs.Lists.{AreBelow, gathered};
ghost use Rattle.base_columns.specs.Tables.{standing_rows};

use base_columns::{Batch, Segment};
use sqlite_items::Items;
use std::alloc::{AllocError, Global};
use std::marker::Model;

// Which rows of a segment are there.
enum Live {
    // Each of them.
    Whole,
    // Those at these places, in this order.
    At(Items<u32>),
}

impl Drop for Live {
    #[inline]
    fn drop(self) {
        match self {
            Live::Whole => {}
            Live::At(kept) => drop(kept),
        }
    }
}

/// A part of a table: a share of a stored segment, and which of its rows are there. It is seen as
/// the list of these rows.
#[derive(Drop)]
pub struct Piece {
    segment: Segment,
    live: Live,
}

impl Model for Piece {
    ghost use Rattle.std.specs.Prelude.{List};
    ghost use Rattle.base_value.specs.declared.value.Value.{Value as Datum};
    ghost use Rattle.plan_algebra.specs.Pieces.{live_rows, AreLive};

    ghost Value = { List (List Datum) };

    ghost view = { λ p. live_rows p.live p.segment };

    ghost invariant = { λ p. AreLive p.live p.segment };
}

// The rows of a segment at these places, as a batch.
#[tactic(auto, using(crate::proofs::LiveRows::live))]
fn live_batch(alloc: Global, segment: &Segment, places: &[u32]) -> Result<Batch, AllocError>
    requires { AreBelow (length segment.now) places.now }
    ensures rows { IfOk result (λ b.
        b.rows ≡ standing_rows (gathered [] segment.now places.now)) }
    ensures width { IfOk result (λ b.
        All (λ row. length row ≡ b.width) (gathered [] segment.now places.now)) }
{
    let batch = segment.batch().gather(alloc, places)?;
    Ok(batch)
}

#[tactic(auto, using(crate::proofs::LiveRows::live))]
impl Piece {
    /// A segment's rows.
    pub fn whole(segment: Segment) -> Piece
        ensures { result ≡ segment }
    {
        let live = Live::Whole;
        Piece { segment, live }
    }

    /// A segment's rows at these places, in this order.
    pub fn at(segment: Segment, places: Items<u32>) -> Piece
        requires { AreBelow (length segment) places }
        ensures { result ≡ gathered [] segment places }
    {
        let live = Live::At(places);
        Piece { segment, live }
    }

    /// How many rows there are.
    pub fn len(&self) -> usize
        ensures { result ≡ length self.now }
    {
        match &self.live {
            Live::Whole => self.segment.len(),
            Live::At(places) => places.len(),
        }
    }

    /// The rows as a batch, all at True. Of a whole segment nothing is copied.
    pub fn batch(&self, alloc: Global) -> Result<Batch, AllocError>
        ensures rows { IfOk result (λ b. b.rows ≡ standing_rows self.now) }
        ensures width { IfOk result (λ b. All (λ row. length row ≡ b.width) self.now) }
    {
        match &self.live {
            Live::Whole => {
                let batch = self.segment.batch().share(alloc)?;
                Ok(batch)
            }
            Live::At(places) => {
                let batch = live_batch(alloc, &self.segment, places.as_slice())?;
                Ok(batch)
            }
        }
    }
}
