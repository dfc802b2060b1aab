//! Laws of the aggregates. Each function has an empty body: its contract is the law.
ghost use Rattle.expr_aggregates.specs.Laws.{AggregatesOfBags, BeforeIsOrder, NullsAreRead};
ghost use Rattle.expr_aggregates.specs.Laws.{FaultsAreWritten};

/// Each aggregate depends on the bag of values only, and so does count(*).
pub fn aggregates_of_bags()
    ensures { AggregatesOfBags }
{}

/// The ascending order, by which `min` and `max` choose, is a total one.
pub fn before_is_order()
    ensures { BeforeIsOrder }
{}

/// Null is no fault and no term of a sum.
pub fn nulls_are_read()
    ensures { NullsAreRead }
{}

/// A fault is written at its own rank, and the rank is read back; Unknown is written as null.
pub fn faults_are_written()
    ensures { FaultsAreWritten }
{}
