//! Queries with subqueries worked out by hand.
ghost use Rattle.plan_unnesting.specs.WorkedRows.{WorkedRows};

/// A law: what some trees give by nested loops over small tables, and how many rows they read.
pub fn worked_rows()
    ensures { WorkedRows }
{}
