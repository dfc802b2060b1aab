//! Numbers of distinct values.
ghost use Rattle.std.specs.Prelude.{◌≡◌, OnOk};
ghost use Rattle.base_key_tables.specs.Distinct.{added};
ghost use Rattle.base_value.specs.Value.{same_value};
ghost use Rattle.exec_accumulators.specs.Accumulators.{added_all};

use crate::accumulator::Accumulator;
use crate::term::{is_null, least_with, unless_fault};
use base_decimal::Scale;
use base_key_tables::KeySet;
use base_value::{Standing, Value};
use std::alloc::{AllocError, Global};

/// count(distinct e): how many values that aren't null differ from each other.
#[derive(Drop)]
pub struct CountDistinct {
    least: Standing,
    seen: KeySet<Value>,
}

impl Accumulator for CountDistinct {
    ghost use Rattle.base_row_laws.specs.Aggregates.{count_distinct_of};
    ghost use Rattle.base_value.specs.Truth.{standing_rank};
    ghost use Rattle.base_value.specs.Value.{same_value};
    ghost use Rattle.expr_aggregates.specs.Values.{reading};
    ghost use Rattle.exec_accumulators.specs.Accumulators.{GiveTheSame, CountedDistinct};

    ghost has_taken = { λ s aggregate vs.
        GiveTheSame aggregate (count_distinct_of (reading 0) same_value)
        × CountedDistinct (standing_rank s.least) s.seen vs };

    ghost terms = { λ s. 0 };

    ghost aggregate = { λ scale. count_distinct_of (reading 0) same_value };

    fn new(alloc: Global, _scale: Scale) -> CountDistinct {
        CountDistinct {
            least: Standing::AtTrue,
            seen: KeySet::new(alloc),
        }
    }

    fn of_sums(_scale: Scale, _count: u64, _above: u128, _below: u128) -> Option<CountDistinct> {
        None
    }

    fn put(&mut self, value: &Value) -> Result<(), AllocError> {
        if is_null(value) {
            return Ok(());
        }
        self.least = least_with(self.least, value);
        put_value(&mut self.seen, value)?;
        Ok(())
    }

    fn merge(&mut self, other: CountDistinct) -> Result<(), AllocError> {
        self.least = self.least.lesser(other.least);
        put_values(&mut self.seen, other.seen.as_slice())?;
        Ok(())
    }

    fn value(&self) -> Result<Value, AllocError> {
        let count = Value::Number(Scale::WHOLE, self.seen.len() as i128);
        Ok(unless_fault(self.least, count))
    }
}

// Puts a value after the others, if it isn't there yet.
fn put_value(seen: &mut KeySet<Value>, value: &Value) -> Result<(), AllocError>
    ensures { OnOk result (seen.new ≡ added same_value seen.old value.now) }
{
    let value = value.clone()?;
    seen.put(value)?;
    Ok(())
}

// The same of each of the values.
fn put_values(seen: &mut KeySet<Value>, values: &[Value]) -> Result<(), AllocError>
    ensures { OnOk result (seen.new ≡ added_all same_value seen.old values.now) }
{
    for value in values {
        put_value(seen, value)?;
    }
    Ok(())
}
