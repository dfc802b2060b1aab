//! Sums and averages of numbers.
use crate::accumulator::Accumulator;
use crate::terms::Terms;
use base_decimal::Scale;
use base_value::Value;
use std::alloc::{AllocError, Global};

/// sum(e): the exact sum of the values that are not null, null of none.
#[derive(Clone, Copy)]
pub struct Sum {
    terms: Terms,
}

impl Accumulator for Sum {
    ghost use Rattle.base_row_laws.specs.Aggregates.{sum_of};
    ghost use Rattle.base_value.specs.Truth.{standing_rank};
    ghost use Rattle.expr_aggregates.specs.Values.{reading};
    ghost use Rattle.exec_accumulators.specs.Accumulators.{GiveTheSame, Summed};

    ghost has_taken = { λ s aggregate vs. GiveTheSame aggregate (sum_of (reading s.terms.scale))
        × Summed (standing_rank s.terms.least) s.terms.terms s.terms.above
        s.terms.below vs };

    ghost terms = { λ s. s.terms.terms };

    ghost aggregate = { λ scale. sum_of (reading scale) };

    fn new(_alloc: Global, scale: Scale) -> Sum {
        Sum {
            terms: Terms::new(scale),
        }
    }

    fn of_sums(scale: Scale, count: u64, above: u128, below: u128) -> Option<Sum> {
        Some(Sum {
            terms: Terms::of_sums(scale, count, above, below),
        })
    }

    fn put(&mut self, value: &Value) -> Result<(), AllocError> {
        self.terms.put(value);
        Ok(())
    }

    fn merge(&mut self, other: Sum) -> Result<(), AllocError> {
        self.terms.merge(&other.terms);
        Ok(())
    }

    fn value(&self) -> Result<Value, AllocError> {
        Ok(self.terms.sum())
    }
}

/// avg(e): their sum divided by their number, null of none.
#[derive(Clone, Copy)]
pub struct Average {
    terms: Terms,
}

impl Accumulator for Average {
    ghost use Rattle.base_row_laws.specs.Aggregates.{avg_of};
    ghost use Rattle.base_value.specs.Truth.{standing_rank};
    ghost use Rattle.expr_aggregates.specs.Values.{reading, divided};
    ghost use Rattle.exec_accumulators.specs.Accumulators.{GiveTheSame, Summed};

    ghost has_taken = { λ s aggregate vs. GiveTheSame aggregate
        (avg_of (reading s.terms.scale) (divided s.terms.scale))
        × Summed (standing_rank s.terms.least) s.terms.terms s.terms.above
        s.terms.below vs };

    ghost terms = { λ s. s.terms.terms };

    ghost aggregate = { λ scale. avg_of (reading scale) (divided scale) };

    fn new(_alloc: Global, scale: Scale) -> Average {
        Average {
            terms: Terms::new(scale),
        }
    }

    fn of_sums(scale: Scale, count: u64, above: u128, below: u128) -> Option<Average> {
        Some(Average {
            terms: Terms::of_sums(scale, count, above, below),
        })
    }

    fn put(&mut self, value: &Value) -> Result<(), AllocError> {
        self.terms.put(value);
        Ok(())
    }

    fn merge(&mut self, other: Average) -> Result<(), AllocError> {
        self.terms.merge(&other.terms);
        Ok(())
    }

    fn value(&self) -> Result<Value, AllocError> {
        Ok(self.terms.average())
    }
}
