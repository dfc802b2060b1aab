//! Aggregates, marks and scalar values don't depend on the order of the rows.

ghost use Rattle.std.specs.Prelude.{Bool};
ghost use Rattle.base_row_laws.specs.Bags.{IsIdentity};
ghost use Rattle.base_row_laws.specs.ValueLaws.{StandingsInAnyOrder, MeasuresInAnyOrder};
ghost use Rattle.base_row_laws.specs.ValueLaws.{CountsInAnyOrder, SumInAnyOrder, AvgInAnyOrder};
ghost use Rattle.base_row_laws.specs.ValueLaws.{ExtremesInAnyOrder, AggregatesInAnyOrder};
ghost use Rattle.base_row_laws.specs.ValueLaws.{MarkInAnyOrder, ScalarInAnyOrder, FoldInAnyOrder};
ghost use Rattle.base_row_laws.specs.ValueLaws.{ThenInAnyOrder, BothInAnyOrder, OfImagesInAnyOrder};
ghost use Rattle.base_row_laws.specs.ValueLaws.{OfKeptInAnyOrder, OfDistinctInAnyOrder, OneListInOrder};
ghost use Rattle.base_row_laws.specs.ValueLaws.{AllGiveLeastFault, AllSkipNulls};

/// The standing of a group, and that of a DISTINCT row, don't depend on the order of the rows.
pub fn standings_in_any_order<V>()
    ensures { StandingsInAnyOrder V }
{}

/// The sum, the greatest and the least of any measure of the rows don't depend on the order of the
/// rows.
pub fn measures_in_any_order<X>()
    ensures { MeasuresInAnyOrder X }
{}

/// count(*), count(e) and count(distinct e) don't depend on the order of the rows.
pub fn counts_in_any_order<V>()
    ensures { (same : V → V → Bool) → IsIdentity same → CountsInAnyOrder same }
{}

/// sum(e) doesn't depend on the order of the rows:
/// it is exact, and NumberRange where the sum of the terms above 0, or of the others negated,
/// passes the largest number.
pub fn sum_in_any_order<V>()
    ensures { SumInAnyOrder V }
{}

/// avg(e) doesn't depend on the order of the rows, however the sum is divided by the number of
/// terms and rounded.
pub fn avg_in_any_order<V>()
    ensures { AvgInAnyOrder V }
{}

/// min(e) and max(e) by a total order don't depend on the order of the rows.
pub fn extremes_in_any_order<V>()
    ensures { ExtremesInAnyOrder V }
{}

/// All aggregates of a grouped query together don't depend on the order of the rows, where each of
/// them doesn't.
pub fn aggregates_in_any_order<V>()
    ensures { AggregatesInAnyOrder V }
{}

/// The mark of EXISTS and IN doesn't depend on the order of the rows.
pub fn mark_in_any_order<V>()
    ensures { MarkInAnyOrder V }
{}

/// A scalar subquery's value doesn't depend on the order of the rows. `same` only witnesses that
/// the values have an identity.
pub fn scalar_in_any_order<V>()
    ensures { (same : V → V → Bool) → IsIdentity same → ScalarInAnyOrder same }
{}

/// A fold whose steps may be exchanged doesn't depend on the order of the rows. `same` only
/// witnesses that the elements have an identity.
pub fn fold_in_any_order<X, S>()
    ensures { (same : X → X → Bool) → IsIdentity same → FoldInAnyOrder S same }
{}

/// A function of a function of the bag is a function of the bag.
pub fn then_in_any_order<X, Y, Z>()
    ensures { ThenInAnyOrder X Y Z }
{}

/// A function of two functions of the bag is a function of the bag.
pub fn both_in_any_order<X, Y, Z, W>()
    ensures { BothInAnyOrder X Y Z W }
{}

/// A function of the bag of images, as of an aggregate's arguments, is a function of the bag.
pub fn of_images_in_any_order<X, Y, Z>()
    ensures { OfImagesInAnyOrder X Y Z }
{}

/// A function of the bag of what a test keeps is a function of the bag.
pub fn of_kept_in_any_order<X, Z>()
    ensures { OfKeptInAnyOrder X Z }
{}

/// A function of the bag of distinct elements is a function of the bag.
pub fn of_distinct_in_any_order<X, Z>()
    ensures { (same : X → X → Bool) → IsIdentity same → OfDistinctInAnyOrder Z same }
{}

/// A bag in order is one list: two lists in order by a total order that are the same bag are equal.
pub fn one_list_in_order<X>()
    ensures { OneListInOrder X }
{}

/// Every aggregate but count(*) is the least fault of the values, where a fault stands among them.
pub fn faults_first<V>()
    ensures { (same : V → V → Bool) → IsIdentity same → AllGiveLeastFault same }
{}

/// Every aggregate but count(*) is that of the values that aren't null.
pub fn nulls_skipped<V>()
    ensures { (same : V → V → Bool) → IsIdentity same → AllSkipNulls same }
{}
