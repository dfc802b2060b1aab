//! Laws of what is bound. Each function does nothing: its contract is the law.
ghost use Rattle.sql_binder_laws.specs.WellTyped.{TableIsWellTyped, ViewIsWellTyped};
ghost use Rattle.sql_binder_laws.specs.WellTyped.{BoundIsWellTyped};
ghost use Rattle.sql_binder_laws.specs.WellTyped.{BoundKeepsKinds};
ghost use Rattle.sql_binder_laws.specs.Names.{NamesStand};
ghost use Rattle.sql_binder_laws.specs.Settled.{ItemsOfFrom, OrderOfIn, OperandsFirst};
ghost use Rattle.sql_binder_laws.specs.Settled.{NamesFurtherOut, RepeatedKeys, OutputNames};
ghost use Rattle.sql_binder_laws.specs.Settled.{PlacesOfAggregates, ValuesAsConditions, NamesOfOn};
ghost use Rattle.sql_binder_laws.specs.Settled.{TurnsOfColumns};
ghost use Rattle.sql_binder_laws.specs.AnsweredCases.{PlainStatements, Balances, DividedConditions};
ghost use Rattle.sql_binder_laws.specs.AnsweredCases.{SumsOfLargest, CountsOfOrders, KeysNotIn};
ghost use Rattle.sql_binder_laws.specs.AnsweredCases.{OneOrder, RegionsOfOrders, GroupOfNoRows};
ghost use Rattle.sql_binder_laws.specs.AnsweredCases.{SubqueriesOfOn, AnsweredLaterals};
ghost use Rattle.sql_binder_laws.specs.AnsweredCases.{Distribution};

/// Over views that are well typed, what is bound is well typed: a query's columns are of the kinds
/// that are said of them, a view may stand beside the others, and a statement keeps the kinds and
/// scales of its columns over tables of their kinds.
pub fn bound_is_well_typed()
    ensures table { TableIsWellTyped }
    ensures view { ViewIsWellTyped }
    ensures query { BoundIsWellTyped }
    ensures keeps { BoundKeepsKinds }
{}

/// A name that is resolved stands for the one column of the innermost query that has it.
pub fn names_stand_for_columns()
    ensures { NamesStand }
{}

/// What the order of binding settles, by small queries.
pub fn settled_bindings()
    ensures items { ItemsOfFrom }
    ensures conditions { ValuesAsConditions }
    ensures order_of_in { OrderOfIn }
    ensures operands { OperandsFirst }
    ensures names { NamesFurtherOut }
    ensures names_of_on { NamesOfOn }
    ensures keys { RepeatedKeys }
    ensures outputs { OutputNames }
    ensures aggregates { PlacesOfAggregates }
    ensures turns { TurnsOfColumns }
{}

/// Statements over small tables, bound and then answered.
pub fn answered_statements()
    ensures plain { PlainStatements }
    ensures balances { Balances }
    ensures divided { DividedConditions }
    ensures sums { SumsOfLargest }
    ensures counts { CountsOfOrders }
    ensures not_in { KeysNotIn }
    ensures one { OneOrder }
    ensures nested { RegionsOfOrders }
    ensures joins { SubqueriesOfOn }
    ensures laterals { AnsweredLaterals }
    ensures groups { GroupOfNoRows }
    ensures distribution { Distribution }
{}
