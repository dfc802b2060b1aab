//! Decimals read from their digits.
ghost use Rattle.std.specs.Prelude.{◌≡◌, ℕ, ◌+◌, ◌*◌, ◌^◌, ◌<◌, ◌≤◌, List, length, Option, Some};
ghost use Rattle.std.specs.Prelude.{None, true, position, ◌==◌, IfSome};
ghost use Rattle.std.specs.Str.{all_ascii_digits};
ghost use Rattle.std.specs.Str.Parse.{digits_value_after};
ghost use Rattle.base_decimal.specs.Written.{is_digits, read_parts, read_size, decimal_read};
ghost use Rattle.base_decimal.specs.Written.{below_limit, size_answer, with_sign, coefficient_of};

use crate::power::power;
use crate::{Scale, arithmetic};

/// Why bytes are no decimal of a scale.
#[derive(Clone, Copy, PartialEq, Eq, Debug)]
pub enum Spelling {
    /// Not an optional minus, one or more digits, and where the scale has places, optionally a
    /// point and one digit or more, at most as many as it has places.
    NotANumber,
    /// The coefficient leaves the signed 128-bit range.
    TooWide,
}

// Digits and nothing else.
#[tactic(auto, using(crate::proofs::Digits::digits_more))]
fn all_digits(bytes: &[u8]) -> bool
    ensures { result ≡ all_ascii_digits bytes.now }
{
    for byte in bytes {
        if !byte.is_ascii_digit() {
            return false;
        }
    }
    true
}

// One digit or more, and nothing else.
fn is_digits(bytes: &[u8]) -> bool
    ensures { result ≡ is_digits bytes.now }
{
    0 < bytes.len() && all_digits(bytes)
}

// The number that the digits write after those of another, where it is below 2^128.
#[tactic(auto, using(crate::proofs::Digits::digits_more, crate::proofs::Digits::value_more, crate::proofs::Digits::value_ge))]
fn value_after(before: u128, digits: &[u8]) -> Option<u128>
    requires { all_ascii_digits digits.now ≡ true }
    ensures { result ≡ below_limit (digits_value_after 10 before digits.now) }
{
    let mut value = before;
    for digit in digits {
        value = value.checked_mul(10)?.checked_add((*digit - b'0') as u128)?;
    }
    Some(value)
}

// The coefficient of digits before and after a point.
#[tactic(auto, using(crate::proofs::Digits::whole_too_large, crate::proofs::Digits::both_too_large, crate::proofs::Digits::coefficient_is))]
fn size_of_parts(whole: &[u8], fraction: &[u8], places: u8) -> Option<u128>
    requires whole { all_ascii_digits whole.now ≡ true }
    requires fraction { all_ascii_digits fraction.now ≡ true }
    requires short { length fraction.now ≤ places }
    requires places { places ≤ 18 }
    ensures { result ≡ below_limit (coefficient_of places whole.now fraction.now) }
{
    let value = value_after(0, whole)?;
    let value = value_after(value, fraction)?;
    value.checked_mul(power(places - fraction.len() as u8))
}

// The size of a number of digits alone.
fn whole_size(text: &[u8], places: u8) -> Result<u128, Spelling>
    requires { places ≤ 18 }
    ensures { result ≡ size_answer (read_parts places text.now None) }
{
    if !is_digits(text) {
        return Err(Spelling::NotANumber);
    }
    size_of_parts(text, &[], places).ok_or(Spelling::TooWide)
}

// The size of a number with digits before and after the point.
fn parted_size(text: &[u8], places: u8, point: usize) -> Result<u128, Spelling>
    requires places { places ≤ 18 }
    requires inside { point < length text.now }
    ensures { result ≡ size_answer (read_parts places text.now (Some point)) }
{
    let whole = &text[..point];
    let fraction = &text[point + 1..];
    if !is_digits(whole) || !is_digits(fraction) || fraction.len() > places as usize {
        return Err(Spelling::NotANumber);
    }
    size_of_parts(whole, fraction, places).ok_or(Spelling::TooWide)
}

// The place of the first point.
fn point_place(text: &[u8]) -> Option<usize>
    ensures place { result ≡ position (λ byte. byte == 46) text.now }
    ensures inside { IfSome result (λ place. place < length text.now) }
{
    text.iter().position(|byte| *byte == b'.')
}

// The size of a number without its sign.
fn size(text: &[u8], places: u8) -> Result<u128, Spelling>
    requires { places ≤ 18 }
    ensures { result ≡ size_answer (read_size text.now places) }
{
    match point_place(text) {
        None => whole_size(text, places),
        Some(point) => parted_size(text, places, point),
    }
}

// The number of a size and a sign.
fn read_signed(text: &[u8], places: u8, is_negative: bool) -> Result<i128, Spelling>
    requires { places ≤ 18 }
    ensures { result ≡ with_sign is_negative (read_size text.now places) }
{
    let size = size(text, places)?;
    arithmetic::signed(size, is_negative).map_err(|_| Spelling::TooWide)
}

/// The coefficient, at that scale, of the number that the bytes write.
pub fn read_decimal(text: &[u8], places: Scale) -> Result<i128, Spelling>
    ensures { result ≡ decimal_read text.now places }
{
    match text {
        [b'-', rest @ ..] => read_signed(rest, places.places(), true),
        _ => read_signed(text, places.places(), false),
    }
}
