//! The clauses of a query after FROM.
use sql_ast::{Clause, Column};
use sqlite_items::Items;

/// What stands after FROM.
#[derive(Drop)]
pub struct Filters {
    /// WHERE.
    pub condition: Clause,
    /// The columns of GROUP BY; none where it is absent.
    pub group: Items<Column>,
    /// HAVING.
    pub having: Clause,
}
