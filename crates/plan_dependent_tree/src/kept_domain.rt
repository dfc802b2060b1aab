//! The domain of a right side whose rows an ON condition with subqueries keeps.
ghost use Rattle.std.specs.Prelude.{◌≡◌, IfOk};
ghost use Rattle.plan_dependent_nodes.specs.FromGrowth.{IsKeptDomain};

use crate::outer::join_columns;
use crate::so_far::so_far_places;
use plan_dependent_nodes::{OuterColumn, SourceSight, right_places, with_left_row};
use sql_bound_query::{BoundExpr, BoundSource};
use sqlite_items::Items;
use std::alloc::{AllocError, Global};

/// What such a domain row has: the columns that the right side and ON read, and then the left row.
#[derive(Drop)]
pub struct KeptDomain {
    /// The columns of the rows around that it begins with.
    pub outer: Items<OuterColumn>,
    /// The places, in the row so far, of the columns that stand after them. The left row is the
    /// last part of the row so far.
    pub so_far: Items<u32>,
    /// Where all its columns stand, in the domain row around with the left row after it.
    pub columns: Items<u32>,
    /// How many columns the row so far has.
    pub before: u32,
    /// Where the left row begins.
    pub begin: u32,
    /// How many columns it has.
    pub start: u32,
}

impl KeptDomain {
    /// What an item of FROM sees of the domain row.
    pub fn sight(&self) -> SourceSight<'_>
        ensures outer { result.outer.now ≡ self.now.outer }
        ensures so_far { result.so_far.now ≡ self.now.so_far }
        ensures before { result.before ≡ self.now.before }
        ensures start { result.start ≡ self.now.start }
    {
        SourceSight {
            outer: self.outer.as_slice(),
            so_far: self.so_far.as_slice(),
            before: self.before,
            start: self.start,
        }
    }
}

/// The domain of a source to the right of a left row of `width` columns, and of an ON condition on
/// both.
pub fn kept_domain(
    alloc: Global,
    s: &BoundSource,
    on: &BoundExpr,
    sight: &SourceSight,
    width: u32,
) -> Result<KeptDomain, AllocError>
    ensures { IfOk result (λ d. IsKeptDomain s.now on.now sight.now.outer.now sight.now.so_far.now
        sight.now.before sight.now.start width d.outer d.so_far d.columns d.before d.begin
        d.start) }
{
    let outer = join_columns(alloc, s, on)?;
    let so_far = so_far_places(alloc, s)?;
    let places = right_places(alloc, sight, outer.as_slice(), so_far.as_slice())?;
    let begin = u32::try_from(places.len()).map_err(|_| AllocError)?;
    let columns = with_left_row(places, sight.start, width)?;
    let start = begin.checked_add(width).ok_or(AllocError)?;
    let before = sight.before.checked_add(width).ok_or(AllocError)?;
    Ok(KeptDomain {
        outer,
        so_far,
        columns,
        before,
        begin,
        start,
    })
}
