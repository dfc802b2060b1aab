//! The least and the greatest value.
ghost use Rattle.std.specs.Prelude.{◌≡◌, [], ◌∷◌, ◌++◌, if◌then◌else◌};
ghost use Rattle.exec_accumulators.specs.Accumulators.{extreme_order, first_value, present};

use crate::accumulator::Accumulator;
use crate::term::{is_null, least_with, unless_fault};
use base_decimal::Scale;
use base_value::{Standing, Value};
use std::alloc::{AllocError, Global};

/// min(e): the first in ascending order of the values that aren't null, null of none.
#[derive(Drop)]
pub struct Least {
    standing: Standing,
    best: Value,
}

impl Accumulator for Least {
    ghost use Rattle.std.specs.Prelude.{Bool, true, false};
    ghost use Rattle.base_row_laws.specs.Aggregates.{min_of};
    ghost use Rattle.base_value.specs.Truth.{standing_rank};
    ghost use Rattle.expr_aggregates.specs.Values.{reading, is_before};
    ghost use Rattle.exec_accumulators.specs.Accumulators.{GiveTheSame, Compared};

    ghost has_taken = { λ s aggregate vs. GiveTheSame aggregate (min_of (reading 0) is_before)
        × Compared (standing_rank s.standing) false s.best vs };

    ghost terms = { λ s. 0 };

    ghost aggregate = { λ scale. min_of (reading 0) is_before };

    fn new(_alloc: Global, _scale: Scale) -> Least {
        Least {
            standing: Standing::AtTrue,
            best: Value::Null,
        }
    }

    fn of_sums(_scale: Scale, _count: u64, _above: u128, _below: u128) -> Option<Least> {
        None
    }

    fn put(&mut self, value: &Value) -> Result<(), AllocError> {
        self.standing = least_with(self.standing, value);
        if replaces(&self.best, value, false) {
            self.best = value.clone()?;
        }
        Ok(())
    }

    fn merge(&mut self, other: Least) -> Result<(), AllocError> {
        self.standing = self.standing.lesser(other.standing);
        if replaces(&self.best, &other.best, false) {
            self.best = other.best;
        }
        Ok(())
    }

    fn value(&self) -> Result<Value, AllocError> {
        let best = self.best.clone()?;
        Ok(unless_fault(self.standing, best))
    }
}

/// max(e): the first in descending order of the values that aren't null, null of none.
#[derive(Drop)]
pub struct Greatest {
    standing: Standing,
    best: Value,
}

impl Accumulator for Greatest {
    ghost use Rattle.std.specs.Prelude.{Bool, true, false};
    ghost use Rattle.base_row_laws.specs.Aggregates.{max_of};
    ghost use Rattle.base_value.specs.Truth.{standing_rank};
    ghost use Rattle.expr_aggregates.specs.Values.{reading, is_before};
    ghost use Rattle.exec_accumulators.specs.Accumulators.{GiveTheSame, Compared};

    ghost has_taken = { λ s aggregate vs. GiveTheSame aggregate (max_of (reading 0) is_before)
        × Compared (standing_rank s.standing) true s.best vs };

    ghost terms = { λ s. 0 };

    ghost aggregate = { λ scale. max_of (reading 0) is_before };

    fn new(_alloc: Global, _scale: Scale) -> Greatest {
        Greatest {
            standing: Standing::AtTrue,
            best: Value::Null,
        }
    }

    fn of_sums(_scale: Scale, _count: u64, _above: u128, _below: u128) -> Option<Greatest> {
        None
    }

    fn put(&mut self, value: &Value) -> Result<(), AllocError> {
        self.standing = least_with(self.standing, value);
        if replaces(&self.best, value, true) {
            self.best = value.clone()?;
        }
        Ok(())
    }

    fn merge(&mut self, other: Greatest) -> Result<(), AllocError> {
        self.standing = self.standing.lesser(other.standing);
        if replaces(&self.best, &other.best, true) {
            self.best = other.best;
        }
        Ok(())
    }

    fn value(&self) -> Result<Value, AllocError> {
        let best = self.best.clone()?;
        Ok(unless_fault(self.standing, best))
    }
}

// Whether the first of two values is no later than the second.
fn comes_first(first: &Value, second: &Value, is_greatest: bool) -> bool
    ensures { result ≡ extreme_order is_greatest first.now second.now }
{
    if is_greatest {
        second.order(first).is_le()
    } else {
        first.order(second).is_le()
    }
}

// Whether a value takes the place of the best so far.
fn replaces(best: &Value, value: &Value, is_greatest: bool) -> bool
    ensures { first_value is_greatest (present (best.now ∷ []) ++ present (value.now ∷ []))
        ≡ (if result then value.now else best.now) }
{
    if is_null(value) {
        return false;
    }
    if is_null(best) {
        return true;
    }
    !comes_first(best, value, is_greatest)
}
