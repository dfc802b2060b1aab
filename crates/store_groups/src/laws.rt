//! What is kept of values, worked out by hand. The function does nothing: its contract is the
//! cases.
ghost use Rattle.store_groups.specs.Cases.{CellCases};

/// What is kept of values, with one more and without one again.
pub fn worked_cells()
    ensures { CellCases }
{}
