//! Numbers of rows and of values.
use crate::accumulator::Accumulator;
use crate::term::{least_with, terms_of, unless_fault};
use base_decimal::Scale;
use base_value::{Standing, Value};
use std::alloc::{AllocError, Global};

/// count(*): how many rows there are, whatever stands in them.
#[derive(Clone, Copy, Debug)]
pub struct CountRows {
    rows: u64,
}

impl Accumulator for CountRows {
    ghost use Rattle.base_row_laws.specs.Aggregates.{count_rows};
    ghost use Rattle.expr_aggregates.specs.Values.{reading};
    ghost use Rattle.exec_accumulators.specs.Accumulators.{GiveTheSame, CountedRows};

    ghost has_taken = { λ s aggregate vs. GiveTheSame aggregate (count_rows (reading 0))
        × CountedRows s.rows vs };

    ghost terms = { λ s. s.rows };

    ghost aggregate = { λ scale. count_rows (reading 0) };

    fn new(_alloc: Global, _scale: Scale) -> CountRows {
        CountRows { rows: 0 }
    }

    fn of_sums(_scale: Scale, _count: u64, _above: u128, _below: u128) -> Option<CountRows> {
        None
    }

    fn put(&mut self, _value: &Value) -> Result<(), AllocError> {
        self.rows += 1;
        Ok(())
    }

    fn merge(&mut self, other: CountRows) -> Result<(), AllocError> {
        self.rows += other.rows;
        Ok(())
    }

    fn value(&self) -> Result<Value, AllocError> {
        Ok(Value::Number(Scale::WHOLE, i128::from(self.rows)))
    }
}

/// count(e): how many values aren't null.
#[derive(Clone, Copy, Debug)]
pub struct Count {
    least: Standing,
    terms: u64,
}

impl Accumulator for Count {
    ghost use Rattle.base_row_laws.specs.Aggregates.{count_of};
    ghost use Rattle.base_value.specs.Truth.{standing_rank};
    ghost use Rattle.expr_aggregates.specs.Values.{reading};
    ghost use Rattle.exec_accumulators.specs.Accumulators.{GiveTheSame, Counted};

    ghost has_taken = { λ s aggregate vs. GiveTheSame aggregate (count_of (reading 0))
        × Counted (standing_rank s.least) s.terms vs };

    ghost terms = { λ s. s.terms };

    ghost aggregate = { λ scale. count_of (reading 0) };

    fn new(_alloc: Global, _scale: Scale) -> Count {
        Count {
            least: Standing::AtTrue,
            terms: 0,
        }
    }

    fn of_sums(_scale: Scale, count: u64, _above: u128, _below: u128) -> Option<Count> {
        Some(Count {
            least: Standing::AtTrue,
            terms: count,
        })
    }

    fn put(&mut self, value: &Value) -> Result<(), AllocError> {
        self.least = least_with(self.least, value);
        self.terms += terms_of(value);
        Ok(())
    }

    fn merge(&mut self, other: Count) -> Result<(), AllocError> {
        self.least = self.least.lesser(other.least);
        self.terms += other.terms;
        Ok(())
    }

    fn value(&self) -> Result<Value, AllocError> {
        let count = Value::Number(Scale::WHOLE, i128::from(self.terms));
        Ok(unless_fault(self.least, count))
    }
}
