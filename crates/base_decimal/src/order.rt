//! The order of decimals by their values.
ghost use Rattle.std.specs.Prelude.{◌≡◌, ◌^◌, ◌≤◌, pos, ◌*ℤ◌};
ghost use Rattle.std.specs.Ordering.{int_cmp};
ghost use Rattle.base_decimal.specs.Decimal.{decimal_cmp};

use crate::Scale;
use crate::power::signed_power;
use std::cmp::Ordering;

// By the values, where the first is to be scaled by 10^places; past 128 bits its sign decides.
fn compare_scaled(a: i128, places: u8, b: i128) -> Ordering
    requires { places ≤ 18 }
    ensures { result ≡ int_cmp (a *ℤ pos (10 ^ places)) b }
{
    match a.checked_mul(signed_power(places)) {
        Some(scaled) => scaled.cmp(&b),
        None => {
            if a < 0 {
                Ordering::Less
            } else {
                Ordering::Greater
            }
        }
    }
}

/// Compares a at scale s with b at scale t by their values a / 10^s and b / 10^t, without a fault.
#[tactic(auto, using(crate::proofs::Powers::scaled_less, crate::proofs::Powers::scaled_more, crate::proofs::Powers::scaled_alike))]
pub fn compare(a: i128, s: Scale, b: i128, t: Scale) -> Ordering
    ensures { result ≡ decimal_cmp a s b t }
{
    if s == t {
        return a.cmp(&b);
    }
    let s = s.places();
    let t = t.places();
    if s <= t {
        compare_scaled(a, t - s, b)
    } else {
        compare_scaled(b, s - t, a).reverse()
    }
}
