//! Small cases of the definitions. The function does nothing: its contract is what they compute to.
ghost use Rattle.plan_planner.specs.Examples.{Examples};

/// The definitions have the values that were worked out by hand.
pub fn examples_hold()
    ensures { Examples }
{}
