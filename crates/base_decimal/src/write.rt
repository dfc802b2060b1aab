//! Decimals written by their digits, after what a text holds already.
ghost use Rattle.std.specs.Prelude.{◌≡◌, ◌++◌, ◌≤◌, ◌<◌, ◌^◌, IfOk, OnOk};
ghost use Rattle.base_decimal.specs.Written.{decimal_written, last_digits, size_written};

use crate::Scale;
use itoa::Buffer;
use std::alloc::{AllocError, Global};

/// Appends a number's last `places` digits, the highest of them first: zeros where it has fewer.
#[tactic(auto, using(crate::proofs::Digits::last_digit_behind))]
pub fn push_last_digits(text: &mut Vec<u8>, number: u64, places: u8) -> Result<(), AllocError>
    ensures { OnOk result (text.new.items ≡ text.old.items ++ last_digits places number) }
{
    if places == 0 {
        return Ok(());
    }
    push_last_digits(text, number / 10, places - 1)?;
    text.push(b'0' + (number % 10) as u8)?;
    Ok(())
}

// Appends a number without a sign: its whole part, and all the places after a point.
#[tactic(auto, using(crate::proofs::Powers::power_of_places, crate::proofs::Powers::power_above, crate::proofs::Digits::number_behind))]
fn push_size(text: &mut Vec<u8>, size: u128, places: u8) -> Result<(), AllocError>
    requires { places ≤ 18 }
    ensures { OnOk result (text.new.items ≡ text.old.items ++ size_written size places) }
{
    let mut buffer = Buffer::new();
    if places == 0 {
        text.extend_from_slice(buffer.format(size).as_bytes())?;
        return Ok(());
    }
    let one = 10u64.pow(places as u32) as u128;
    text.extend_from_slice(buffer.format(size / one).as_bytes())?;
    text.push(b'.')?;
    push_last_digits(text, (size % one) as u64, places)
}

/// Appends the number c / 10^s with all the digits of its scale and at least one before the point;
/// a minus stands first where it is below zero. Only the text's own memory is wanted.
pub fn push_decimal(text: &mut Vec<u8>, c: i128, s: Scale) -> Result<(), AllocError>
    ensures { OnOk result (text.new.items ≡ text.old.items ++ decimal_written c s) }
{
    if c < 0 {
        text.push(b'-')?;
    }
    push_size(text, c.unsigned_abs(), s.places())
}

/// The number c / 10^s in a text of its own, as `push_decimal` writes it.
pub fn write_decimal(alloc: Global, c: i128, s: Scale) -> Result<Vec<u8>, AllocError>
    ensures { IfOk result (λ text. text.items ≡ decimal_written c s) }
{
    let mut text = Vec::new(alloc);
    push_decimal(&mut text, c, s)?;
    Ok(text)
}
