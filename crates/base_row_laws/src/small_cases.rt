//! Small cases, and wrong definitions shown false by them.

ghost use Rattle.base_row_laws.specs.TreeLaws.{Unnesting};
ghost use Rattle.base_row_laws.specs.Cases.{same_number, CellsHaveIdentity, NullBinding, CountOfNoRows};
ghost use Rattle.base_row_laws.specs.Cases.{DuplicateInADomain, NotInWithANull, StandingOfAPartner};
ghost use Rattle.base_row_laws.specs.Cases.{MarkOfFaultsAndNulls, ScalarOfRows, ScalarOfFaults};
ghost use Rattle.base_row_laws.specs.Cases.{StandingsOfWhere, StandingsOfJoins, StandingsOfOuterJoins};
ghost use Rattle.base_row_laws.specs.Cases.{StandingsOfGroups, KeysOfFaults, FaultInADomain};
ghost use Rattle.base_row_laws.specs.Cases.{OnOfTheLeftSide};
ghost use Rattle.base_row_laws.specs.AggregateCases.{SumAtItsEdges, AverageOfTerms, LeastFaultOfTwo};
ghost use Rattle.base_row_laws.specs.AggregateCases.{AggregatesOfNulls, CountsOfDuplicates};
ghost use Rattle.base_row_laws.specs.AggregateCases.{ExtremesOfAmounts};

use crate::tree_laws::unnesting;

/// The cells of these cases have an identity, count(*) of them does not depend on the order of the
/// rows, and unnesting holds of them.
pub fn cells_have_identity()
    ensures { CellsHaveIdentity }
{}

/// A null binding is met by identity.
/// Wrong: matching by SQL's equality loses it.
pub fn null_binding()
    ensures { NullBinding }
{}

/// count(*) of no rows is 0, also under a left row without partners: loops and nodes give the same
/// answer.
/// Wrong: without the fill such left rows are lost.
pub fn count_of_no_rows()
    ensures { CountOfNoRows }
{}

/// Identical left rows have one row in the domain.
/// Wrong: a domain that keeps duplicates counts their partners twice.
pub fn duplicate_in_a_domain()
    ensures { DuplicateInADomain }
{}

/// 3 in (1, null) is Unknown, and so is 3 not in (1, null): WHERE keeps no row. 1 in (1, null) is
/// True. In no rows it is False.
pub fn not_in_with_a_null()
    ensures { NotInWithANull }
{}

/// A partner at a fault's standing makes the mark that fault, where no other is above it; of two
/// faults the greater.
/// Under a condition that is False or Unknown such a partner counts as False or Unknown.
/// Wrong: where the partners' standings are ignored the mark is True.
pub fn standing_of_a_partner()
    ensures { StandingOfAPartner }
{}

/// 1 in (DivideByZero, 2, null) is that fault, whose rank is above those of False and Unknown; with
/// 1 too it is True.
pub fn mark_of_faults_and_nulls()
    ensures { MarkOfFaultsAndNulls }
{}

/// A scalar subquery is null for no row, TooManyRows for two, also where they are identical, and
/// the one row's value for one.
pub fn scalar_of_rows()
    ensures { ScalarOfRows }
{}

/// A scalar subquery of one row is the standing's fault, or the value's, or where both are faults
/// the lesser of the two, whichever it is.
pub fn scalar_of_faults()
    ensures { ScalarOfFaults }
{}

/// A row at True stands after WHERE at its condition's fault, the least of which is kept too;
/// where that is Unknown or False the row is dropped.
/// A row at a fault is dropped likewise, and kept at the lesser fault where the condition is one.
pub fn standings_of_where()
    ensures { StandingsOfWhere }
{}

/// A combination of two rows stands at the lesser of their faults, and under ON at the least of
/// these and the condition's.
pub fn standings_of_joins()
    ensures { StandingsOfJoins }
{}

/// A left row with no kept partner stands in a left outer join at its own standing, a fault's too;
/// one with a kept partner at the lesser fault.
pub fn standings_of_outer_joins()
    ensures { StandingsOfOuterJoins }
{}

/// A group stands at the least standing of its rows, a DISTINCT row at the greatest.
pub fn standings_of_groups()
    ensures { StandingsOfGroups }
{}

/// Keys that are null or the same fault are one group, and one row of a domain; two faults are two.
/// All rows of a group count, also those at a fault.
/// A domain row stands at True whatever its left rows do; the fill leaves groups of no domain row
/// out.
pub fn keys_of_faults()
    ensures { KeysOfFaults }
{}

/// A fault in a domain's column is met by identity. select a, (select count(*) from table_1 where b
/// = a) from table_0: under the fault the comparison with the number is that fault, so one row
/// counts, at the fault's standing; loops and nodes give the same.
pub fn fault_in_a_domain()
    ensures { FaultInADomain }
{}

/// left outer join .. on a = b and a = 2: the left row with 1 stays, filled with a null.
/// Wrong: a part of ON that reads the left side only, moved into the left side, loses it.
pub fn on_of_the_left_side()
    ensures { OnOfTheLeftSide }
{}

/// sum(e) is exact up to the largest number, above 0 and below 0.
/// It is NumberRange where the terms above 0 pass that, or the others negated,
/// also where the sum of them all does not.
pub fn sum_at_its_edges()
    ensures { SumAtItsEdges }
{}

/// avg(e) of 9, -3, null and 0 is 2: the null is no term, the 0 is one. Its range is judged as that
/// of the sum.
pub fn average_of_terms()
    ensures { AverageOfTerms }
{}

/// Where faults are among the values each aggregate is the least of them; count(*) alone counts the
/// rows.
pub fn least_fault_of_two()
    ensures { LeastFaultOfTwo }
{}

/// Over nothing but nulls, as over no rows, counts of values are 0 and the other aggregates null;
/// count(*) counts the rows.
pub fn aggregates_of_nulls()
    ensures { AggregatesOfNulls }
{}

/// Of 1, null, 1 and 2 count(e) is 3, count(distinct e) 2 and count(*) 4.
pub fn counts_of_duplicates()
    ensures { CountsOfDuplicates }
{}

/// Of 5, null, -2, 9 and 2 the least is -2 and the greatest 9.
pub fn extremes_of_amounts()
    ensures { ExtremesOfAmounts }
{}

/// Unnesting at a type of the language, as a caller instantiates it.
pub fn unnesting_of_numbers()
    ensures { Unnesting same_number }
{
    unnesting::<u64>()
}
