//! Sum, difference, product and quotient of decimals, and their rescaling.
ghost use Rattle.std.specs.Prelude.{◌≡◌, ℕ, ◌+◌, ◌-◌, ◌*◌, ◌^◌, ◌≤◌, ◌<◌, max, pos, ◌+ℤ◌, ◌-ℤ◌};
ghost use Rattle.std.specs.Prelude.{◌*ℤ◌, unsigned_abs};
ghost use Rattle.base_decimal.specs.Decimal.{in_range, rescaled, sum_of, difference_of};
ghost use Rattle.base_decimal.specs.Decimal.{product_of, nearest, nearest_of, signed_of};
ghost use Rattle.base_decimal.specs.Decimal.{quotient_of, quotient_scale};

use crate::Scale;
use crate::power::signed_power;

/// Why arithmetic has no number as its answer.
#[derive(Clone, Copy, PartialEq, Eq, Debug)]
pub enum NumberFault {
    /// A coefficient leaves the signed 128-bit range.
    NumberRange,
    /// The divisor is 0.
    DivideByZero,
}

fn plus(a: i128, b: i128) -> Result<i128, NumberFault>
    ensures { result ≡ in_range (a +ℤ b) }
{
    a.checked_add(b).ok_or(NumberFault::NumberRange)
}

fn minus(a: i128, b: i128) -> Result<i128, NumberFault>
    ensures { result ≡ in_range (a -ℤ b) }
{
    a.checked_sub(b).ok_or(NumberFault::NumberRange)
}

fn times(a: i128, b: i128) -> Result<i128, NumberFault>
    ensures { result ≡ in_range (a *ℤ b) }
{
    a.checked_mul(b).ok_or(NumberFault::NumberRange)
}

/// The coefficient at a scale that is no less; NumberRange where it leaves 128 bits.
#[tactic(auto, unfolding(crate::specs::Decimal::rescaled), using(crate::proofs::Powers::same_scale))]
pub fn rescale(a: i128, from: Scale, to: Scale) -> Result<i128, NumberFault>
    requires { from ≤ to }
    ensures { result ≡ rescaled a from to }
{
    if from == to {
        return Ok(a);
    }
    times(a, signed_power(to.places() - from.places()))
}

/// The sum, at the larger of the two scales.
#[tactic(auto, unfolding(crate::specs::Decimal::sum_of))]
pub fn add(a: i128, s: Scale, b: i128, t: Scale) -> Result<i128, NumberFault>
    ensures { result ≡ sum_of a s b t }
{
    let larger = s.larger(t);
    let x = rescale(a, s, larger)?;
    let y = rescale(b, t, larger)?;
    plus(x, y)
}

/// The difference, at the larger of the two scales.
#[tactic(auto, unfolding(crate::specs::Decimal::difference_of))]
pub fn sub(a: i128, s: Scale, b: i128, t: Scale) -> Result<i128, NumberFault>
    ensures { result ≡ difference_of a s b t }
{
    let larger = s.larger(t);
    let x = rescale(a, s, larger)?;
    let y = rescale(b, t, larger)?;
    minus(x, y)
}

/// The product, at the sum of the two scales.
pub fn mul(a: i128, s: Scale, b: i128, t: Scale) -> Result<i128, NumberFault>
    requires { s + t ≤ 18 }
    ensures { result ≡ product_of a b }
{
    times(a, b)
}

// m / n, a half upwards.
fn nearest_parts(m: u128, n: u128) -> u128
    requires { 0 < n }
    ensures { result ≡ nearest_of m n }
{
    let quotient = m / n;
    let rest = m % n;
    if rest >= n - rest {
        quotient + 1
    } else {
        quotient
    }
}

// The number of that size and sign.
pub(crate) fn signed(size: u128, is_negative: bool) -> Result<i128, NumberFault>
    ensures { result ≡ in_range (signed_of is_negative size) }
{
    if is_negative {
        if size == 1 << 127 {
            Ok(i128::MIN)
        } else if size < 1 << 127 {
            Ok(-(size as i128))
        } else {
            Err(NumberFault::NumberRange)
        }
    } else if size < 1 << 127 {
        Ok(size as i128)
    } else {
        Err(NumberFault::NumberRange)
    }
}

// a / b, rounded to the nearest, a half away from zero.
pub(crate) fn divide(a: i128, b: i128) -> Result<i128, NumberFault>
    requires { 0 < unsigned_abs b }
    ensures { result ≡ in_range (nearest a b) }
{
    let size = nearest_parts(a.unsigned_abs(), b.unsigned_abs());
    signed(size, (a < 0) != (b < 0))
}

/// The quotient at the larger of s and 6, rounded half away from zero: the dividend is scaled
/// first. A zero divisor is DivideByZero before anything else.
#[tactic(auto, unfolding(crate::specs::Decimal::quotient_of))]
pub fn quotient(a: i128, s: Scale, b: i128, t: Scale) -> Result<i128, NumberFault>
    ensures { result ≡ quotient_of a s b t }
{
    if b == 0 {
        return Err(NumberFault::DivideByZero);
    }
    let s = s.places();
    let scaled = times(a, signed_power(s.max(6) - s + t.places()))?;
    divide(scaled, b)
}
