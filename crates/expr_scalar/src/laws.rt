//! Laws of the definitions that the contracts cite. Each function does nothing: its contract is the
//! law.
ghost use Rattle.expr_scalar.specs.Laws.{MarkIsRead, InListIsOr, BetweenIsAnd};
ghost use Rattle.expr_scalar.specs.Examples.{WorkedNumbers, WorkedValues, WorkedConditions};
ghost use Rattle.expr_scalar.specs.Examples.{WorkedTests};
ghost use Rattle.expr_scalar.specs.Cases.{Arithmetics, Comparisons, Conditions, Cases, Parts};
ghost use Rattle.expr_scalar.specs.Cases.{MoreArithmetics, MoreComparisons, MoreConditions};
ghost use Rattle.expr_scalar.specs.Cases.{Typings};

/// A truth that was written as a mark is read as the same truth.
pub fn mark_is_read()
    ensures { MarkIsRead }
{}

/// BETWEEN is the AND of two comparisons, and an IN list the OR of equalities.
pub fn chains_of_comparisons()
    ensures between { BetweenIsAnd }
    ensures in_list { InListIsOr }
{}

/// Small cases, computed.
pub fn small_cases()
    ensures arithmetic { Arithmetics }
    ensures comparisons { Comparisons }
    ensures conditions { Conditions }
    ensures cases { Cases }
    ensures parts { Parts }
{}

/// More small cases, computed: the ends of the operators, and kinds.
pub fn more_cases()
    ensures arithmetic { MoreArithmetics }
    ensures comparisons { MoreComparisons }
    ensures conditions { MoreConditions }
    ensures typings { Typings }
{}

/// Expressions worked out by hand, at least one for each node.
pub fn worked_examples()
    ensures numbers { WorkedNumbers }
    ensures values { WorkedValues }
    ensures conditions { WorkedConditions }
    ensures tests { WorkedTests }
{}
