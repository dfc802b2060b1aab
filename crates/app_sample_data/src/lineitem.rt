//! Lineitems. The fields of line j of order k are drawn by the place 4k + j.
ghost use Rattle.std.specs.Prelude.{◌≡◌, ◌<◌, ◌≤◌, ◌+◌, ◌*◌, ◌^◌, ◌++◌, OnOk, IfOk};
ghost use Rattle.app_sample_data.specs.Choices.{line_statuses, return_flags, ship_instructions};
ghost use Rattle.app_sample_data.specs.Choices.{ship_modes, word};
ghost use Rattle.app_sample_data.specs.Fields.{draw, field};
ghost use Rattle.app_sample_data.specs.Lines.{
  line_part,
  line_quantity,
  lineitem_amounts,
  lineitem_dates,
  lineitem_keys,
  lineitem_line,
  lineitem_shipping,
  lineitem_statuses,
  lines,
  order_lineitems,
  ship_day,
};
ghost use Rattle.app_sample_data.specs.Numbers.{IsDataNumber};

use crate::choices::{LINE_STATUSES, RETURN_FLAGS, SHIP_INSTRUCTIONS, SHIP_MODES, word};
use crate::dates::push_date;
use crate::draw::{draw, supplier_of};
use crate::fields::{end_line, push_money, push_number, push_word};
use crate::orders::order_day;
use crate::part::retail_price;
use std::alloc::{AllocError, Global};

/// The part of a line.
#[tactic(auto, unfolding(crate::specs::Lines::line_part))]
fn line_part(number: u64, place: u64) -> u64
    requires number { IsDataNumber number }
    requires place { place < 2 ^ 19 }
    ensures value { result ≡ line_part number place }
    ensures below { result < 2 ^ 15 }
{
    1 + draw(number, 24, place, 20 * number)
}

/// The quantity of a line.
#[tactic(auto, unfolding(crate::specs::Lines::line_quantity))]
fn line_quantity(number: u64, place: u64) -> u64
    requires number { IsDataNumber number }
    requires place { place < 2 ^ 19 }
    ensures value { result ≡ line_quantity number place }
    ensures below { result ≤ 50 }
{
    1 + draw(number, 26, place, 50)
}

/// Appends the fields of a line's keys.
#[tactic(auto, unfolding(crate::specs::Lines::lineitem_keys))]
fn push_keys(
    text: &mut Vec<u8>,
    number: u64,
    key: u64,
    line: u64,
    place: u64,
) -> Result<(), AllocError>
    requires number { IsDataNumber number }
    requires place { place < 2 ^ 19 }
    ensures { OnOk result (text.new.items ≡ text.old.items ++ lineitem_keys number key line place) }
{
    let part = line_part(number, place);
    push_number(text, key)?;
    push_number(text, part)?;
    push_number(text, supplier_of(number, part, draw(number, 25, place, 4)))?;
    push_number(text, line)?;
    Ok(())
}

/// Appends the fields of a line's amounts.
#[tactic(auto, unfolding(crate::specs::Lines::lineitem_amounts))]
fn push_amounts(text: &mut Vec<u8>, number: u64, place: u64) -> Result<(), AllocError>
    requires number { IsDataNumber number }
    requires place { place < 2 ^ 19 }
    ensures { OnOk result (text.new.items ≡ text.old.items ++ lineitem_amounts number place) }
{
    let quantity = line_quantity(number, place);
    let price = retail_price(line_part(number, place));
    push_money(text, (100 * quantity) as i64)?;
    push_money(text, (quantity * price) as i64)?;
    push_money(text, draw(number, 27, place, 11) as i64)?;
    push_money(text, draw(number, 28, place, 9) as i64)?;
    Ok(())
}

/// The return flag at a place of their list.
fn return_flag(place: u64) -> &'static str
    requires { place < 3 }
    ensures { result.now ≡ word return_flags place }
{
    word(&RETURN_FLAGS, place)
}

/// Appends the field of a line's return flag.
fn push_flag(text: &mut Vec<u8>, number: u64, place: u64) -> Result<(), AllocError>
    requires number { IsDataNumber number }
    requires place { place < 2 ^ 19 }
    ensures { OnOk result (text.new.items ≡ text.old.items
        ++ field (word return_flags (draw number 29 place 3))) }
{
    push_word(text, return_flag(draw(number, 29, place, 3)))?;
    Ok(())
}

/// The status at a place of their list.
fn line_status(place: u64) -> &'static str
    requires { place < 2 }
    ensures { result.now ≡ word line_statuses place }
{
    word(&LINE_STATUSES, place)
}

/// Appends the field of a line's status.
fn push_status(text: &mut Vec<u8>, number: u64, place: u64) -> Result<(), AllocError>
    requires number { IsDataNumber number }
    requires place { place < 2 ^ 19 }
    ensures { OnOk result (text.new.items ≡ text.old.items
        ++ field (word line_statuses (draw number 30 place 2))) }
{
    push_word(text, line_status(draw(number, 30, place, 2)))?;
    Ok(())
}

/// Appends the fields of a line's flag and status.
#[tactic(auto, unfolding(crate::specs::Lines::lineitem_statuses))]
fn push_statuses(text: &mut Vec<u8>, number: u64, place: u64) -> Result<(), AllocError>
    requires number { IsDataNumber number }
    requires place { place < 2 ^ 19 }
    ensures { OnOk result (text.new.items ≡ text.old.items ++ lineitem_statuses number place) }
{
    push_flag(text, number, place)?;
    push_status(text, number, place)?;
    Ok(())
}

/// The days from the first one to the line's shipping.
#[tactic(auto, unfolding(crate::specs::Lines::ship_day))]
fn ship_day(number: u64, key: u64, place: u64) -> u64
    requires key { key < 2 ^ 16 }
    requires number { IsDataNumber number }
    requires place { place < 2 ^ 19 }
    ensures value { result ≡ ship_day number key place }
    ensures below { result < 2527 }
{
    order_day(number, key) + 1 + draw(number, 31, place, 121)
}

/// Appends the fields of a line's dates.
#[tactic(auto, unfolding(crate::specs::Lines::lineitem_dates))]
fn push_dates(text: &mut Vec<u8>, number: u64, key: u64, place: u64) -> Result<(), AllocError>
    requires key { key < 2 ^ 16 }
    requires number { IsDataNumber number }
    requires place { place < 2 ^ 19 }
    ensures { OnOk result (text.new.items ≡ text.old.items ++ lineitem_dates number key place) }
{
    let shipped = ship_day(number, key, place);
    push_date(text, shipped)?;
    push_date(
        text,
        order_day(number, key) + 30 + draw(number, 32, place, 61),
    )?;
    push_date(text, shipped + 1 + draw(number, 33, place, 30))?;
    Ok(())
}

/// The instruction at a place of their list.
fn ship_instruction(place: u64) -> &'static str
    requires { place < 4 }
    ensures { result.now ≡ word ship_instructions place }
{
    word(&SHIP_INSTRUCTIONS, place)
}

/// Appends the field of a line's instruction.
fn push_instruction(text: &mut Vec<u8>, number: u64, place: u64) -> Result<(), AllocError>
    requires number { IsDataNumber number }
    requires place { place < 2 ^ 19 }
    ensures { OnOk result (text.new.items ≡ text.old.items
        ++ field (word ship_instructions (draw number 34 place 4))) }
{
    push_word(text, ship_instruction(draw(number, 34, place, 4)))?;
    Ok(())
}

/// The mode at a place of their list.
fn ship_mode(place: u64) -> &'static str
    requires { place < 7 }
    ensures { result.now ≡ word ship_modes place }
{
    word(&SHIP_MODES, place)
}

/// Appends the field of a line's mode.
fn push_mode(text: &mut Vec<u8>, number: u64, place: u64) -> Result<(), AllocError>
    requires number { IsDataNumber number }
    requires place { place < 2 ^ 19 }
    ensures { OnOk result (text.new.items ≡ text.old.items
        ++ field (word ship_modes (draw number 35 place 7))) }
{
    push_word(text, ship_mode(draw(number, 35, place, 7)))?;
    Ok(())
}

/// Appends the fields of a line's shipping, and its empty comment.
#[tactic(auto, unfolding(crate::specs::Lines::lineitem_shipping))]
fn push_shipping(text: &mut Vec<u8>, number: u64, place: u64) -> Result<(), AllocError>
    requires number { IsDataNumber number }
    requires place { place < 2 ^ 19 }
    ensures { OnOk result (text.new.items ≡ text.old.items ++ lineitem_shipping number place) }
{
    push_instruction(text, number, place)?;
    push_mode(text, number, place)?;
    push_word(text, "")?;
    Ok(())
}

/// Appends one line of an order.
#[tactic(auto, unfolding(crate::specs::Lines::lineitem_line))]
fn push_lineitem(text: &mut Vec<u8>, number: u64, key: u64, line: u64) -> Result<(), AllocError>
    requires number { IsDataNumber number }
    requires key { key < 2 ^ 16 }
    requires line { line < 2 ^ 16 }
    ensures { OnOk result (text.new.items ≡ text.old.items ++ lineitem_line number key line) }
{
    let place = 4 * key + line;
    push_keys(text, number, key, line, place)?;
    push_amounts(text, number, place)?;
    push_statuses(text, number, place)?;
    push_dates(text, number, key, place)?;
    push_shipping(text, number, place)?;
    end_line(text)?;
    Ok(())
}

/// Appends the lines of an order.
fn push_order_lineitems(text: &mut Vec<u8>, number: u64, key: u64) -> Result<(), AllocError>
    requires number { IsDataNumber number }
    requires key { key < 2 ^ 16 }
    ensures { OnOk result (text.new.items ≡ text.old.items ++ order_lineitems number key) }
{
    for line in 1..2 + key % 4 {
        push_lineitem(text, number, key, line)?;
    }
    Ok(())
}

/// The text of the lines of the orders from the first key to the one before the end.
pub fn lineitem_text(
    alloc: Global,
    number: u64,
    first: u64,
    end: u64,
) -> Result<Vec<u8>, AllocError>
    requires number { IsDataNumber number }
    requires keys { (first ≤ end) × (end ≤ 2 ^ 16) }
    ensures { IfOk result (λ text. text.items ≡ lines (order_lineitems number) first end) }
{
    let mut text = Vec::new(alloc);
    for key in first..end {
        push_order_lineitems(&mut text, number, key)?;
    }
    Ok(text)
}
