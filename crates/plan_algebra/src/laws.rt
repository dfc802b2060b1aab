//! Laws of a plan's nodes, and worked kept plans.
ghost use Rattle.plan_algebra.specs.KeptPlans.{KeptCases};
ghost use Rattle.plan_algebra.specs.NodeLaws.{NodesAlike, RowsAreWide};

/// A node gives one bag for one bag, so a plan may be run node by node.
pub fn nodes_alike()
    ensures { NodesAlike }
{}

/// Each row of a node has as many values as the node has columns.
pub fn rows_are_wide()
    ensures { RowsAreWide }
{}

/// Kept plans give the rows that were worked out by hand.
pub fn worked_kept_plans()
    ensures { KeptCases }
{}
