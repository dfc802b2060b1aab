//! Laws of bound queries, and queries worked out by hand. Each function does nothing: its contract
//! is the law.
ghost use Rattle.sql_bound_query.specs.Typing.{KeepsKinds};
ghost use Rattle.sql_bound_query.specs.Examples.{FaultsOfConditions, SumsAtTheEnd, Counts, NotIn};
ghost use Rattle.sql_bound_query.specs.Examples.{ScalarSubqueries, NestedExists, Finished, Reading};
ghost use Rattle.sql_bound_query.specs.SetExamples.{SetOperations, Quantified, SetKinds, SetReads};
ghost use Rattle.sql_bound_query.specs.LateralExamples.{LateralItems, LateralKinds, LateralReads};

/// Over tables of their kinds, each row of a well-typed query has values of its columns' kinds and
/// scales, nulls or faults.
pub fn well_typed_keeps_its_kinds()
    ensures { KeepsKinds }
{}

/// Queries worked out by hand over small tables.
pub fn worked_queries()
    ensures conditions { FaultsOfConditions }
    ensures sums { SumsAtTheEnd }
    ensures counts { Counts }
    ensures not_in { NotIn }
    ensures scalars { ScalarSubqueries }
    ensures nested { NestedExists }
    ensures finished { Finished }
    ensures reading { Reading }
{}

/// Queries with lateral items worked out by hand over small tables.
pub fn worked_lateral_items()
    ensures items { LateralItems }
    ensures kinds { LateralKinds }
    ensures reads { LateralReads }
{}

/// Set operations and ANY and ALL worked out by hand over small tables.
pub fn worked_set_operations()
    ensures operations { SetOperations }
    ensures quantified { Quantified }
    ensures kinds { SetKinds }
    ensures reads { SetReads }
{}
