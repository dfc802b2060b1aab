//! Numbers of 64 bits as an answer has them.
ghost use Rattle.std.specs.Prelude.{◌≡◌, ◌≤◌, ◌+◌, ◌-◌, ◌%◌, ◌++◌, ◌∷◌, OnOk, length, take, drop};
ghost use Rattle.std.specs.Prelude.{replicate};
ghost use Rattle.base_decimal.specs.Written.{decimal_written, size_written};

use base_decimal::Scale;
use itoa::Buffer;
use std::alloc::AllocError;

// What stands before the digits of a number below 1, with as many zeros as a scale has places.
const ZEROS: [u8; 20] = *b"0.000000000000000000";

/// The digit of a number's last place.
pub(crate) fn digit(number: u64) -> u8
    ensures { result ≡ 48 + number % 10 }
{
    b'0' + (number % 10) as u8
}

/// Appends digits with a point after so many of them.
fn push_parted(text: &mut Vec<u8>, digits: &[u8], whole: usize) -> Result<(), AllocError>
    requires { whole ≤ length digits.now }
    ensures { OnOk result (text.new.items
        ≡ text.old.items ++ (take whole digits.now ++ 46 ∷ drop whole digits.now)) }
{
    text.extend_from_slice(&digits[..whole])?;
    text.push(b'.')?;
    text.extend_from_slice(&digits[whole..])
}

/// Appends the digits of a number below 1, of which the last one stands at this place after the
/// point.
fn push_fraction(text: &mut Vec<u8>, digits: &[u8], places: usize) -> Result<(), AllocError>
    requires few { length digits.now ≤ places }
    requires bound { places ≤ 18 }
    ensures { OnOk result (text.new.items ≡ text.old.items
        ++ (48 ∷ 46 ∷ replicate (places - length digits.now) 48 ++ digits.now)) }
{
    text.extend_from_slice(&ZEROS[..2 + (places - digits.len())])?;
    text.extend_from_slice(digits)
}

/// Appends a number without a sign, with all the places of a scale.
fn push_size(text: &mut Vec<u8>, size: u64, places: u8) -> Result<(), AllocError>
    requires { places ≤ 18 }
    ensures { OnOk result (text.new.items ≡ text.old.items ++ size_written size places) }
{
    let mut buffer = Buffer::new();
    let digits = buffer.format(size).as_bytes();
    let places = places as usize;
    if places == 0 {
        return text.extend_from_slice(digits);
    }
    if digits.len() > places {
        return push_parted(text, digits, digits.len() - places);
    }
    push_fraction(text, digits, places)
}

/// Appends a number of 64 bits, with all the places of its scale.
pub(crate) fn push_small_decimal(
    text: &mut Vec<u8>,
    number: i64,
    scale: Scale,
) -> Result<(), AllocError>
    ensures { OnOk result (text.new.items ≡ text.old.items ++ decimal_written number scale) }
{
    if number < 0 {
        text.push(b'-')?;
    }
    push_size(text, number.unsigned_abs(), scale.places())
}
