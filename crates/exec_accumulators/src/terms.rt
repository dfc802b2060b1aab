//! Terms that are added up.
ghost use Rattle.std.specs.Prelude.{◌≡◌, [], ◌^◌, ◌<◌, ◌+◌, ◌≤◌, ◌∷◌, ◌++◌, min, List, pos};
ghost use Rattle.base_decimal.specs.Decimal.{in_range, nearest};
ghost use Rattle.base_decimal.specs.Tally.{sums, total_of, average_of, average_scale};
ghost use Rattle.base_row_laws.specs.Ranked.{true_rank};
ghost use Rattle.base_row_laws.specs.Aggregates.{sum_of, avg_of};
ghost use Rattle.base_value.specs.declared.value.Value.{Value as Datum};
ghost use Rattle.base_value.specs.Truth.{standing_rank};
ghost use Rattle.expr_aggregates.specs.Values.{reading, divided};
ghost use Rattle.exec_accumulators.specs.Accumulators.{Summed, unless_empty};

use crate::term::{above, below, least_with, number_or_fault, terms_of, unless_fault};
use base_decimal::{NumberFault, Scale, quotient, rescale};
use base_value::{Standing, Value};

/// Terms of one scale, added up.
#[derive(Clone, Copy)]
pub(crate) struct Terms {
    pub(crate) scale: Scale,
    pub(crate) least: Standing,
    pub(crate) terms: u64,
    // The sums of the numbers at or above 0, and of the others negated: u128::MAX for more.
    pub(crate) above: u128,
    pub(crate) below: u128,
}

impl Terms {
    pub(crate) fn new(scale: Scale) -> Terms
        ensures scale { result.scale ≡ scale }
        ensures terms { result.terms ≡ 0 }
        ensures taken { Summed (standing_rank result.least) result.terms result.above result.below
            [] }
    {
        Terms::of_sums(scale, 0, 0, 0)
    }

    // Of this number of terms, with these sums.
    pub(crate) fn of_sums(scale: Scale, terms: u64, above: u128, below: u128) -> Terms
        ensures scale { result.scale ≡ scale }
        ensures terms { result.terms ≡ terms }
        ensures taken { (vs : List Datum) → Summed true_rank terms above below vs
            → Summed (standing_rank result.least) result.terms result.above result.below vs }
    {
        Terms {
            scale,
            least: Standing::AtTrue,
            terms,
            above,
            below,
        }
    }

    pub(crate) fn put(&mut self, value: &Value)
        requires { self.old.terms + 1 < 2 ^ 64 }
        ensures terms { self.new.terms ≤ self.old.terms + 1 }
        ensures scale { self.new.scale ≡ self.old.scale }
        ensures taken { (vs : List Datum)
            → Summed (standing_rank self.old.least) self.old.terms self.old.above self.old.below vs
            → Summed (standing_rank self.new.least) self.new.terms self.new.above self.new.below
            (vs ++ value.now ∷ []) }
    {
        self.least = least_with(self.least, value);
        self.terms += terms_of(value);
        self.above = self.above.saturating_add(above(value));
        self.below = self.below.saturating_add(below(value));
    }

    pub(crate) fn merge(&mut self, other: &Terms)
        requires { self.old.terms + other.now.terms < 2 ^ 64 }
        ensures terms { self.new.terms ≤ self.old.terms + other.now.terms }
        ensures scale { self.new.scale ≡ self.old.scale }
        ensures taken { (vs ws : List Datum)
            → Summed (standing_rank self.old.least) self.old.terms self.old.above self.old.below vs
            → Summed (standing_rank other.now.least) other.now.terms other.now.above
            other.now.below ws
            → Summed (standing_rank self.new.least) self.new.terms self.new.above self.new.below
            (vs ++ ws) }
    {
        self.least = self.least.lesser(other.least);
        self.terms += other.terms;
        self.above = self.above.saturating_add(other.above);
        self.below = self.below.saturating_add(other.below);
    }

    // Their sum, in range where both its parts are.
    fn total(&self) -> Result<i128, NumberFault>
        ensures { result ≡ total_of (sums self.now.terms self.now.above self.now.below) }
    {
        if self.above < 1 << 127 && self.below < 1 << 127 {
            Ok(self.above as i128 - self.below as i128)
        } else {
            Err(NumberFault::NumberRange)
        }
    }

    // The sum, rescaled to four places more (18 at most) and divided by the number of terms.
    fn mean(&self) -> Result<i128, NumberFault>
        requires { 1 ≤ self.now.terms }
        ensures { result
            ≡ average_of (sums self.now.terms self.now.above self.now.below) self.now.scale }
    {
        let total = self.total()?;
        let scaled = rescale(total, self.scale, average_scale(self.scale))?;
        whole_quotient(scaled, self.terms)
    }

    fn unless_empty(&self, value: Value) -> Value
        ensures { result ≡ unless_empty self.now.terms value }
    {
        if self.terms == 0 { Value::Null } else { value }
    }

    pub(crate) fn sum(&self) -> Value
        ensures { (vs : List Datum)
            → Summed (standing_rank self.now.least) self.now.terms self.now.above self.now.below vs
            → result ≡ sum_of (reading self.now.scale) vs }
    {
        let total = number_or_fault(self.scale, self.total());
        unless_fault(self.least, self.unless_empty(total))
    }

    pub(crate) fn average(&self) -> Value
        ensures { (vs : List Datum)
            → Summed (standing_rank self.now.least) self.now.terms self.now.above self.now.below vs
            → result ≡ avg_of (reading self.now.scale) (divided self.now.scale) vs }
    {
        if self.terms == 0 {
            return unless_fault(self.least, Value::Null);
        }
        let mean = number_or_fault(average_scale(self.scale), self.mean());
        unless_fault(self.least, mean)
    }
}

// The whole number nearest to a / n, a half away from zero.
fn whole_quotient(a: i128, n: u64) -> Result<i128, NumberFault>
    requires { 1 ≤ n }
    ensures { result ≡ in_range (nearest a (pos n)) }
{
    // A quotient has the scale of its dividend from six places on.
    quotient(a, Scale::new(18), n as i128, Scale::WHOLE)
}

// Four places more, 18 at most.
fn average_scale(scale: Scale) -> Scale
    ensures value { result ≡ average_scale scale }
    ensures no_less { scale ≤ result }
{
    Scale::new((scale.places() + 4).min(18))
}
