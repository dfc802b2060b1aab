//! Laws of identity, order and rank. Each function has an empty body: its contract is the law.
ghost use Rattle.base_value.specs.Laws.{IdentityIsTold, OrderIsTotal, TiesAreIdentical, NullIsLast};
ghost use Rattle.base_value.specs.Laws.{RanksTellApart, OrderIsOfDecimals};

/// The test of identity holds of each value and each row with itself, and of no two that differ:
/// null is identical to null, and a fault to the same fault.
pub fn identity_is_told()
    ensures { IdentityIsTold }
{}

/// The order of values is total, and so is that of rows by all their columns.
pub fn order_is_total()
    ensures { OrderIsTotal }
{}

/// Rows that tie in the order by all columns are the same row, so that an answer's rows have one
/// order.
pub fn ties_are_identical()
    ensures { TiesAreIdentical }
{}

/// Null comes after every other value.
pub fn null_is_last()
    ensures { NullIsLast }
{}

/// A standing's rank, and a truth's, tells which it is.
pub fn ranks_tell_apart()
    ensures { RanksTellApart }
{}

/// Numbers of one scale, as those of a column are, come in the order of the decimals that they
/// stand for.
pub fn order_is_of_decimals()
    ensures { OrderIsOfDecimals }
{}
