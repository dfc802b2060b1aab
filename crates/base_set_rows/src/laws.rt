//! The laws of set operations.
ghost use Rattle.std.specs.Prelude.{Bool};
ghost use Rattle.base_row_laws.specs.Bags.{IsIdentity};
ghost use Rattle.base_set_rows.specs.SetLaws.{ByClassesAlike, ByClassesMeets, ByClassesAnswers};
ghost use Rattle.base_set_rows.specs.SetLaws.{ByClassesCounts, ByClassesStandings, ByClassesStand};
ghost use Rattle.base_set_rows.specs.SetLaws.{ByClassesKeep, UnionKeeps, UnionStands, UnionAlike};
ghost use Rattle.base_set_rows.specs.SetLaws.{SelectBelowUnion, SelectBelowClasses};
ghost use Rattle.base_set_rows.specs.SetLaws.{UnionMeets, UnionAnswers};
ghost use Rattle.base_set_rows.specs.SetLaws.{SetRowsAlike, SetRowsAnswer, SetRowsStand};
ghost use Rattle.base_set_rows.specs.SetLaws.{SetRowsKeep, SelectBelowSetRows};
ghost use Rattle.base_set_rows.specs.Numbered.{ByNumbers};
ghost use Rattle.base_set_rows.specs.Cases.{OfTwoAndOne, OfDuplicates, OfFaults, OfDomains};

/// One bag on each side gives one bag.
pub fn by_classes_alike<V>()
    ensures { (same : V → V → Bool) → IsIdentity same → ByClassesAlike same }
{}

/// INTERSECT and EXCEPT under one domain row.
pub fn by_classes_meets<V>()
    ensures { (same : V → V → Bool) → IsIdentity same → ByClassesMeets same }
{}

/// INTERSECT and EXCEPT over a domain.
pub fn by_classes_answers<V>()
    ensures { (same : V → V → Bool) → IsIdentity same → ByClassesAnswers same }
{}

/// UNION under one domain row.
pub fn union_meets<V>()
    ensures { (same : V → V → Bool) → IsIdentity same → UnionMeets same }
{}

/// UNION over a domain.
pub fn union_answers<V>()
    ensures { (same : V → V → Bool) → IsIdentity same → UnionAnswers same }
{}

/// Of each row there are as many as the operation says of its numbers on the two sides.
pub fn by_classes_counts<V>()
    ensures { (same : V → V → Bool) → IsIdentity same → ByClassesCounts same }
{}

/// Each row stands at the least of the standings of its class.
pub fn by_classes_standings<V>()
    ensures { (same : V → V → Bool) → IsIdentity same → ByClassesStandings same }
{}

/// INTERSECT and EXCEPT leave rows at True or at a fault.
pub fn by_classes_stand<V>()
    ensures { (same : V → V → Bool) → IsIdentity same → ByClassesStand same }
{}

/// UNION leaves rows at True or at a fault.
pub fn union_stands<V>()
    ensures { (same : V → V → Bool) → IsIdentity same → UnionStands same }
{}

/// What is so of the values of both sides' rows is so of the result's.
pub fn by_classes_keep<V>()
    ensures { (same : V → V → Bool) → IsIdentity same → ByClassesKeep same }
{}

/// The same of UNION.
pub fn union_keeps<V>()
    ensures { (same : V → V → Bool) → IsIdentity same → UnionKeeps same }
{}

/// One bag on each side of UNION gives one bag.
pub fn union_alike<V>()
    ensures { (same : V → V → Bool) → IsIdentity same → UnionAlike same }
{}

/// Rows numbered by identity give INTERSECT and EXCEPT, list for list.
pub fn by_numbers<V>()
    ensures { (same : V → V → Bool) → IsIdentity same → ByNumbers same }
{}

/// Small cases.
pub fn small_cases()
    ensures of_two_and_one { OfTwoAndOne }
    ensures of_duplicates { OfDuplicates }
    ensures of_faults { OfFaults }
    ensures of_domains { OfDomains }
{}

/// A selection sinks below UNION.
pub fn select_below_union<V>()
    ensures { (same : V → V → Bool) → IsIdentity same → SelectBelowUnion same }
{}

/// A selection sinks below INTERSECT and EXCEPT.
pub fn select_below_classes<V>()
    ensures { (same : V → V → Bool) → IsIdentity same → SelectBelowClasses same }
{}

/// One bag on each side of a set operation gives one bag.
pub fn set_rows_alike<V>()
    ensures { (same : V → V → Bool) → IsIdentity same → SetRowsAlike same }
{}

/// A set operation over a domain that is pushed into both sides.
pub fn set_rows_answer<V>()
    ensures { (same : V → V → Bool) → IsIdentity same → SetRowsAnswer same }
{}

/// A set operation leaves rows at True or at a fault.
pub fn set_rows_stand<V>()
    ensures { (same : V → V → Bool) → IsIdentity same → SetRowsStand same }
{}

/// What is so of the values of both sides' rows is so of a set operation's.
pub fn set_rows_keep<V>()
    ensures { (same : V → V → Bool) → IsIdentity same → SetRowsKeep same }
{}

/// A selection sinks below a set operation.
pub fn select_below_set_rows<V>()
    ensures { (same : V → V → Bool) → IsIdentity same → SelectBelowSetRows same }
{}
