//! Where an expression of a query finds its columns in a flat row.
ghost use Rattle.std.specs.Prelude.{◌≡◌, Some, IfOk, IsTrue, slice_get};
ghost use Rattle.plan_dependent_nodes.specs.Growth.{IsAt};
ghost use Rattle.plan_dependent_nodes.specs.Seeks.{has};
ghost use Rattle.plan_dependent_nodes.specs.Supplied.{IsSeen};

use std::alloc::AllocError;

/// A column of a row around a query.
#[derive(Clone, Copy, Debug, PartialEq, Eq)]
pub struct OuterColumn {
    /// How many rows out, 0 being the nearest one.
    pub level: u32,
    /// The place in that row, from 0.
    pub place: u32,
}

/// What an expression of a query sees of a flat row: first columns of the rows around, and further
/// on the query's own row.
#[derive(Clone, Copy)]
pub struct Sight<'a> {
    /// The columns of the rows around that the flat row begins with.
    pub outer: &'a [OuterColumn],
    /// Where the query's row begins.
    pub start: u32,
    /// How many columns the query's row has.
    pub width: u32,
}

/// The place of a column of the rows around, or 0 where the list has no such column.
pub fn place_in(outer: &[OuterColumn], column: OuterColumn) -> Result<u32, AllocError>
    ensures { IfOk result (λ at. IsTrue (has outer.now column.level column.place)
        → slice_get outer.now at ≡ Some column) }
{
    for (i, other) in outer.iter().enumerate() {
        if *other == column {
            return u32::try_from(i).map_err(|_| AllocError);
        }
    }
    Ok(0)
}

/// The place of a column that an expression reads. A well-typed one reads only what it sees.
pub fn place_of(sight: &Sight, level: u32, place: u32) -> Result<u32, AllocError>
    ensures { IfOk result (λ at. IsSeen sight.now.outer.now sight.now.width level place
        → IsAt sight.now.outer.now sight.now.start sight.now.width level place at) }
{
    if level > 0 {
        let column = OuterColumn {
            level: level - 1,
            place,
        };
        let at = place_in(sight.outer, column)?;
        Ok(at)
    } else {
        let at = sight.start.checked_add(place).ok_or(AllocError)?;
        Ok(at)
    }
}
