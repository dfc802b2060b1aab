//! Rules that fail, each shown by two sides that are computed.

ghost use Rattle.base_row_laws.specs.FalseRules.{NoHavingBelowTotal, NoConditionOutOfMark};
ghost use Rattle.base_row_laws.specs.FalseRules.{NoWhereBelowOuterRight, NoOnBelowOuterLeft};

/// HAVING above aggregates without GROUP BY is no WHERE below them: the group of no rows stays.
pub fn no_having_below_total()
    ensures { NoHavingBelowTotal }
{}

/// A part of a mark's condition that reads the right side only is no selection of it.
pub fn no_condition_out_of_mark()
    ensures { NoConditionOutOfMark }
{}

/// WHERE on the right side of a left outer join is no selection of it.
pub fn no_where_below_outer_right()
    ensures { NoWhereBelowOuterRight }
{}

/// A part of ON on the left side is no selection of it, also where it is a fault.
pub fn no_on_below_outer_left()
    ensures { NoOnBelowOuterLeft }
{}
