//! Where the items of FROM find the columns of the rows around and of the row so far.
ghost use Rattle.std.specs.Prelude.{◌≡◌, ◌<◌, ◌++◌, ℕ, Some, IfOk, IsTrue, slice_get};
ghost use Rattle.expr_conditions.specs.Ranks.{columns_from};
ghost use Rattle.plan_dependent_nodes.specs.FromGrowth.{AreRightPlaces, IsRightPlace};
ghost use Rattle.plan_dependent_nodes.specs.FromGrowth as spec;
ghost use Rattle.plan_dependent_nodes.specs.Seeks.{has, has_place};

use crate::sight::{OuterColumn, place_in};
use sqlite_items::Items;
use std::alloc::{AllocError, Global};

/// What an item of FROM sees of its domain row: first columns of the rows around its query, then
/// columns of the row so far, which is that of all items to its left.
#[derive(Clone, Copy)]
pub struct SourceSight<'a> {
    /// The columns of the rows around that the domain row begins with.
    pub outer: &'a [OuterColumn],
    /// The places, in the row so far, of the columns that stand after them.
    pub so_far: &'a [u32],
    /// How many columns the row so far has.
    pub before: u32,
    /// How many columns the domain row has.
    pub start: u32,
}

/// The columns that a domain row begins with, as a lateral item's query sees them: its nearest row
/// is the row so far.
pub fn lateral_columns(alloc: Global, sight: &SourceSight) -> Result<Items<OuterColumn>, AllocError>
    ensures { IfOk result (λ all.
        all ≡ spec.lateral_columns sight.now.outer.now sight.now.so_far.now) }
{
    let mut all = Items::new(alloc);
    for column in sight.outer {
        let level = column.level.checked_add(1).ok_or(AllocError)?;
        let place = column.place;
        all.push(OuterColumn { level, place })?;
    }
    for place in sight.so_far {
        let place = *place;
        all.push(OuterColumn { level: 0, place })?;
    }
    Ok(all)
}

// The index of a place in a list, or 0 where the list hasn't it.
fn index_of(places: &[u32], place: u32) -> Result<u32, AllocError>
    ensures { IfOk result (λ at. IsTrue (has_place places.now place)
        → slice_get places.now at ≡ Some place) }
{
    for (i, other) in places.iter().enumerate() {
        if *other == place {
            return u32::try_from(i).map_err(|_| AllocError);
        }
    }
    Ok(0)
}

// The place of a column of the row so far and the left row behind it, in the domain row with the
// left row after it.
fn right_place(sight: &SourceSight, place: u32) -> Result<u32, AllocError>
    ensures { IfOk result (λ at.
        (place < sight.now.before → IsTrue (has_place sight.now.so_far.now place))
        → IsRightPlace sight.now.outer.now sight.now.so_far.now sight.now.before sight.now.start
        place at) }
{
    if place < sight.before {
        let index = index_of(sight.so_far, place)?;
        let outer = u32::try_from(sight.outer.len()).map_err(|_| AllocError)?;
        let at = outer.checked_add(index).ok_or(AllocError)?;
        Ok(at)
    } else {
        let at = sight
            .start
            .checked_add(place - sight.before)
            .ok_or(AllocError)?;
        Ok(at)
    }
}

/// The places of columns of the rows around and of columns of the row so far, with the left row
/// behind it, in the domain row with the left row after it.
pub fn right_places(
    alloc: Global,
    sight: &SourceSight,
    outer: &[OuterColumn],
    so_far: &[u32],
) -> Result<Items<u32>, AllocError>
    ensures { IfOk result (λ places.
        ((level place : ℕ) → IsTrue (has outer.now level place)
        → IsTrue (has sight.now.outer.now level place))
        → ((place : ℕ) → IsTrue (has_place so_far.now place) → place < sight.now.before
        → IsTrue (has_place sight.now.so_far.now place))
        → AreRightPlaces sight.now.outer.now sight.now.so_far.now sight.now.before sight.now.start
        outer.now so_far.now places) }
{
    let mut places = Items::new(alloc);
    for column in outer {
        let at = place_in(sight.outer, *column)?;
        places.push(at)?;
    }
    for place in so_far {
        let at = right_place(sight, *place)?;
        places.push(at)?;
    }
    Ok(places)
}

/// These places, and then those of a left row of `width` columns that begins at `start`.
pub fn with_left_row(places: Items<u32>, start: u32, width: u32) -> Result<Items<u32>, AllocError>
    ensures { IfOk result (λ all. all ≡ places ++ columns_from start width) }
{
    let mut all = places;
    for i in 0..width {
        let at = start.checked_add(i).ok_or(AllocError)?;
        all.push(at)?;
    }
    Ok(all)
}
