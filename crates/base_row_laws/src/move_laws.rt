//! What may be moved over joins.

ghost use Rattle.std.specs.Prelude.{Bool};
ghost use Rattle.base_row_laws.specs.Bags.{IsIdentity};
ghost use Rattle.base_row_laws.specs.MoveLaws.{SelectTwice, SelectBelowDistinct, SelectBelowGroup};
ghost use Rattle.base_row_laws.specs.MoveLaws.{ProjectTwice, SelectThroughProject, JoinIsSelectedCross};
ghost use Rattle.base_row_laws.specs.MoveLaws.{SelectIntoJoin, SelectBelowLeft, SelectBelowRight};
ghost use Rattle.base_row_laws.specs.MoveLaws.{SelectBelowOuter, SelectBelowAttach, OnBelowRight};
ghost use Rattle.base_row_laws.specs.MoveLaws.{SidesExchanged, LastSidesExchanged, ProjectOutOfLeft};
ghost use Rattle.base_row_laws.specs.MoveLaws.{ProjectOutOfRight, CrossUnit, CrossAssoc, AndOverOr};
ghost use Rattle.base_row_laws.specs.MoveLaws.{ProjectOutOfJoin, ProjectOutOfOuter, ProjectOutOfAttach};
ghost use Rattle.base_row_laws.specs.MoveLaws.{SelectReadsAttached, ProjectReadsAttached};
ghost use Rattle.base_row_laws.specs.MoveLaws.{AttachedReadAndDropped};

/// Two selections are one, under the AND of their conditions.
pub fn select_twice<V>()
    ensures { SelectTwice V }
{}

/// A selection above DISTINCT is one below it.
pub fn select_below_distinct<V>()
    ensures { (same : V → V → Bool) → IsIdentity same → SelectBelowDistinct same }
{}

/// A selection above GROUP BY that reads the keys only is one below it, where the aggregates don't
/// read standings.
pub fn select_below_group<V>()
    ensures { (same : V → V → Bool) → IsIdentity same → SelectBelowGroup same }
{}

/// Two projections are one.
pub fn project_twice<V>()
    ensures { ProjectTwice V }
{}

/// A selection above a projection is one below it that reads the projected row.
pub fn select_through_project<V>()
    ensures { SelectThroughProject V }
{}

/// JOIN ON is the selection of all combinations.
pub fn join_is_selected_cross<V>()
    ensures { JoinIsSelectedCross V }
{}

/// A selection above an inner join is part of its condition, also where the right side is taken
/// anew under each left row.
pub fn select_into_join<V>()
    ensures { SelectIntoJoin V }
{}

/// A selection above an inner join moves to the left side, where it reads that side's columns only.
pub fn select_below_left<V>()
    ensures { SelectBelowLeft V }
{}

/// A selection above an inner join moves to the right side, where it reads that side's columns
/// only.
pub fn select_below_right<V>()
    ensures { SelectBelowRight V }
{}

/// A selection above a left outer join moves to the left side, where it reads that side's columns
/// only.
pub fn select_below_outer<V>()
    ensures { SelectBelowOuter V }
{}

/// A selection above a mark or a scalar value moves below it, where it doesn't read the attached
/// column.
pub fn select_below_attach<V>()
    ensures { SelectBelowAttach V }
{}

/// A part of a left outer join's ON moves to the right side, where it reads that side's columns
/// only.
/// To the left side no part may move: a small case shows it.
pub fn on_below_right<V>()
    ensures { OnBelowRight V }
{}

/// The sides of a product exchanged, where f puts the columns back.
pub fn sides_exchanged<V>()
    ensures { SidesExchanged V }
{}

/// The last two sides of a product of three exchanged; so items of FROM may be joined in any order.
pub fn last_sides_exchanged<V>()
    ensures { LastSidesExchanged V }
{}

/// A projection of a product's left side is one above the product, where g does to the combined row
/// what f does to its left part.
pub fn project_out_of_left<V>()
    ensures { ProjectOutOfLeft V }
{}

/// A projection of a product's right side is one above the product, where g does to the combined
/// row what f does to its right part.
pub fn project_out_of_right<V>()
    ensures { ProjectOutOfRight V }
{}

/// A projection of an inner join's left side is one above the join, also where the right side is
/// taken anew under each left row.
pub fn project_out_of_join<V>()
    ensures { ProjectOutOfJoin V }
{}

/// A projection of a left outer join's left side is one above the join.
pub fn project_out_of_outer<V>()
    ensures { ProjectOutOfOuter V }
{}

/// A projection below a mark or a scalar value is one above it.
pub fn project_out_of_attach<V>()
    ensures { ProjectOutOfAttach V }
{}

/// A selection that reads an attached column is one below it that reads the value.
pub fn select_reads_attached<V>()
    ensures { SelectReadsAttached V }
{}

/// A select list that reads an attached column is one that reads the value.
pub fn project_reads_attached<V>()
    ensures { ProjectReadsAttached V }
{}

/// An attached column that a selection reads and a select list drops is a selection that reads the
/// value.
pub fn attached_read_and_dropped<V>()
    ensures { AttachedReadAndDropped V }
{}

/// The one row of no columns, which FROM begins with, adds nothing.
pub fn cross_unit<V>()
    ensures { CrossUnit V }
{}

/// The product of three sides, however it is bracketed.
pub fn cross_assoc<V>()
    ensures { CrossAssoc V }
{}

/// AND distributes over OR on the chain, and OR over AND, so common factors may be taken out.
pub fn and_over_or()
    ensures { AndOverOr }
{}
