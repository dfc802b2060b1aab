//! Fields appended to a text, each with the bar that ends it.
ghost use Rattle.std.specs.Prelude.{◌≡◌, ◌<◌, ◌≤◌, ◌^◌, ◌++◌, ◌∷◌, [], ◌-ℤ◌, pos, OnOk, codes};
ghost use Rattle.std.specs.Prelude.{decimal};
ghost use Rattle.app_sample_data.specs.Fields.{address, field, labelled, money, phone};
ghost use Rattle.app_sample_data.specs.Lines.{balance, fields, residence};

use crate::draw::draw;
use base_decimal::{Scale, push_decimal, push_last_digits};
use itoa::Buffer;
use std::alloc::AllocError;

/// Ends the field.
#[tactic(auto)]
pub fn push_bar(text: &mut Vec<u8>) -> Result<(), AllocError>
    ensures { OnOk result (text.new.items ≡ text.old.items ++ 124 ∷ []) }
{
    text.push(b'|')?;
    Ok(())
}

/// Ends the line.
pub fn end_line(text: &mut Vec<u8>) -> Result<(), AllocError>
    ensures { OnOk result (text.new.items ≡ text.old.items ++ 10 ∷ []) }
{
    text.push(b'\n')?;
    Ok(())
}

/// Appends a word, without a bar.
pub fn push_part(text: &mut Vec<u8>, word: &str) -> Result<(), AllocError>
    ensures { OnOk result (text.new.items ≡ text.old.items ++ word.now) }
{
    text.extend_from_slice(word.as_bytes())?;
    Ok(())
}

/// Appends a number's digits, without a bar.
pub fn push_digits_of(text: &mut Vec<u8>, number: u64) -> Result<(), AllocError>
    ensures { OnOk result (text.new.items ≡ text.old.items ++ decimal number) }
{
    let mut buffer = Buffer::new();
    text.extend_from_slice(buffer.format(number).as_bytes())?;
    Ok(())
}

/// Appends a field of that word.
#[tactic(auto, unfolding(crate::specs::Fields::field))]
pub fn push_word(text: &mut Vec<u8>, word: &str) -> Result<(), AllocError>
    ensures { OnOk result (text.new.items ≡ text.old.items ++ field word.now) }
{
    push_part(text, word)?;
    push_bar(text)?;
    Ok(())
}

/// Appends a field of that number.
#[tactic(auto, unfolding(crate::specs::Fields::field))]
pub fn push_number(text: &mut Vec<u8>, number: u64) -> Result<(), AllocError>
    ensures { OnOk result (text.new.items ≡ text.old.items ++ field (decimal number)) }
{
    push_digits_of(text, number)?;
    push_bar(text)?;
    Ok(())
}

/// Appends a field of a label and a key in nine digits.
#[tactic(auto, unfolding(crate::specs::Fields::field))]
pub fn push_labelled(text: &mut Vec<u8>, label: &str, key: u64) -> Result<(), AllocError>
    ensures { OnOk result (text.new.items ≡ text.old.items ++ field (labelled label.now key)) }
{
    push_part(text, label)?;
    push_last_digits(text, key, 9)?;
    push_bar(text)?;
    Ok(())
}

/// Appends a field of an amount in hundredths.
#[tactic(auto, unfolding(crate::specs::Fields::field))]
pub fn push_money(text: &mut Vec<u8>, hundredths: i64) -> Result<(), AllocError>
    ensures { OnOk result (text.new.items ≡ text.old.items ++ field (money hundredths)) }
{
    push_decimal(text, hundredths as i128, Scale::new(2))?;
    push_bar(text)?;
    Ok(())
}

/// Appends the field of a key's address.
#[tactic(auto, unfolding(crate::specs::Fields::field))]
fn push_address(text: &mut Vec<u8>, key: u64) -> Result<(), AllocError>
    ensures { OnOk result (text.new.items ≡ text.old.items ++ field (address key)) }
{
    push_part(text, "A")?;
    push_digits_of(text, key)?;
    push_bar(text)?;
    Ok(())
}

/// Appends the field of the phone number of somebody of that nation.
#[tactic(auto, unfolding(crate::specs::Fields::field))]
fn push_phone(text: &mut Vec<u8>, nation: u64) -> Result<(), AllocError>
    requires { nation < 25 }
    ensures { OnOk result (text.new.items ≡ text.old.items ++ field (phone nation)) }
{
    push_digits_of(text, 10 + nation)?;
    push_part(text, "-100-200-3000")?;
    push_bar(text)?;
    Ok(())
}

/// Appends the address, the nation and the phone number, drawn for that column.
#[tactic(auto, unfolding(crate::specs::Lines::residence))]
pub fn push_residence(
    text: &mut Vec<u8>,
    number: u64,
    column: u64,
    key: u64,
) -> Result<(), AllocError>
    requires number { number ≤ 1000 }
    requires column { column < 100 }
    requires key { key < 2 ^ 20 }
    ensures { OnOk result (text.new.items ≡ text.old.items ++ residence number column key) }
{
    let nation = draw(number, column, key, 25);
    push_address(text, key)?;
    push_number(text, nation)?;
    push_phone(text, nation)?;
    Ok(())
}

/// Appends the field of the balance of an account, drawn for that column.
#[tactic(auto, unfolding(crate::specs::Lines::balance))]
pub fn push_balance(
    text: &mut Vec<u8>,
    number: u64,
    column: u64,
    key: u64,
) -> Result<(), AllocError>
    requires number { number ≤ 1000 }
    requires column { column < 100 }
    requires key { key < 2 ^ 20 }
    ensures { OnOk result (text.new.items ≡ text.old.items ++ field (balance number column key)) }
{
    let drawn = draw(number, column, key, 1_100_000);
    push_money(text, drawn as i64 - 99_999)?;
    Ok(())
}
