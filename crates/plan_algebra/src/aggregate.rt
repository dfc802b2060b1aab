//! Aggregates of a grouped query as plain data.
ghost use Rattle.std.specs.Prelude.{◌≡◌, [], IfOk};
ghost use Rattle.plan_algebra.specs.Aggregates.{aggregates_of, value_of_none};

use base_decimal::Scale;
use base_value::Value;
use expr_aggregates::AggregateFunction;
use expr_scalar::Expr;
use sqlite_items::{Boxed, Items};
use std::alloc::{AllocError, Global};

/// An aggregate of a group's rows.
pub enum Aggregate {
    /// How many rows there are.
    CountRows,
    /// The function, the scale of its argument's numbers (0 where it has none), and the argument,
    /// read from each row.
    Of(AggregateFunction, Scale, Boxed<Expr>),
}

impl Drop for Aggregate {
    #[inline]
    fn drop(self) {
        match self {
            Aggregate::CountRows => {}
            Aggregate::Of(_, _, kept) => drop(kept),
        }
    }
}

impl Aggregate {
    // A count of no rows is 0, and any other aggregate of them null.
    fn of_none(&self) -> Value
        ensures { result ≡ value_of_none self.now }
    {
        match self {
            Aggregate::CountRows
            | Aggregate::Of(AggregateFunction::Count, _, _)
            | Aggregate::Of(AggregateFunction::CountDistinct, _, _) => {
                Value::Number(Scale::WHOLE, 0)
            }
            Aggregate::Of(AggregateFunction::Sum, _, _)
            | Aggregate::Of(AggregateFunction::Avg, _, _)
            | Aggregate::Of(AggregateFunction::Min, _, _)
            | Aggregate::Of(AggregateFunction::Max, _, _) => Value::Null,
        }
    }
}

/// The aggregates of no rows: a count is 0, any other one null.
pub fn values_of_none(alloc: Global, aggregates: &[Aggregate]) -> Result<Items<Value>, AllocError>
    ensures { IfOk result (λ values. values ≡ aggregates_of aggregates.now []) }
{
    let mut values = Items::new(alloc);
    for aggregate in aggregates {
        values.push(aggregate.of_none())?;
    }
    Ok(values)
}
