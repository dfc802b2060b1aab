//! Groups worked out by hand. The function does nothing: its contract is the cases.
ghost use Rattle.store_kept_views.specs.Cases.{ShownCases};

/// What aggregates show of what is kept.
pub fn worked_groups()
    ensures { ShownCases }
{}
