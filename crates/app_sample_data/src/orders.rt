//! Orders.
ghost use Rattle.std.specs.Prelude.{◌≡◌, ◌<◌, ◌≤◌, ◌+◌, ◌*◌, ◌^◌, ◌++◌, OnOk, IfOk};
ghost use Rattle.app_sample_data.specs.Choices.{order_priorities, order_statuses, word};
ghost use Rattle.app_sample_data.specs.Fields.{draw, field};
ghost use Rattle.app_sample_data.specs.Lines.{delete_line, lines, order_comment, order_day};
ghost use Rattle.app_sample_data.specs.Lines.{order_head};
ghost use Rattle.app_sample_data.specs.Lines.{order_line, order_tail};
ghost use Rattle.app_sample_data.specs.Numbers.{IsDataNumber};

use crate::choices::{ORDER_PRIORITIES, ORDER_STATUSES, word};
use crate::dates::push_date;
use crate::draw::{draw, not_third};
use crate::fields::{end_line, push_labelled, push_money, push_number, push_word};
use std::alloc::{AllocError, Global};

/// The days from the first one to the order.
#[tactic(auto, unfolding(crate::specs::Lines::order_day))]
pub fn order_day(number: u64, key: u64) -> u64
    requires number { IsDataNumber number }
    requires key { key < 2 ^ 16 }
    ensures value { result ≡ order_day number key }
    ensures below { result < 2406 }
{
    draw(number, 21, key, 2_406)
}

/// What is said of an order.
#[tactic(auto, unfolding(crate::specs::Lines::order_comment))]
fn order_comment(key: u64) -> &'static str
    ensures { result.now ≡ order_comment key }
{
    if key % 5 == 0 {
        "special requests"
    } else {
        "plain"
    }
}

/// The status at a place of their list.
fn order_status(place: u64) -> &'static str
    requires { place < 3 }
    ensures { result.now ≡ word order_statuses place }
{
    word(&ORDER_STATUSES, place)
}

/// Appends the field of an order's status.
fn push_status(text: &mut Vec<u8>, number: u64, key: u64) -> Result<(), AllocError>
    requires number { IsDataNumber number }
    requires key { key < 2 ^ 16 }
    ensures { OnOk result (text.new.items ≡ text.old.items
        ++ field (word order_statuses (draw number 19 key 3))) }
{
    push_word(text, order_status(draw(number, 19, key, 3)))?;
    Ok(())
}

/// The priority at a place of their list.
fn order_priority(place: u64) -> &'static str
    requires { place < 5 }
    ensures { result.now ≡ word order_priorities place }
{
    word(&ORDER_PRIORITIES, place)
}

/// Appends the field of an order's priority.
fn push_priority(text: &mut Vec<u8>, number: u64, key: u64) -> Result<(), AllocError>
    requires number { IsDataNumber number }
    requires key { key < 2 ^ 16 }
    ensures { OnOk result (text.new.items ≡ text.old.items
        ++ field (word order_priorities (draw number 22 key 5))) }
{
    push_word(text, order_priority(draw(number, 22, key, 5)))?;
    Ok(())
}

/// Appends the fields of an order up to its price.
#[tactic(auto, unfolding(crate::specs::Lines::order_head))]
fn push_head(text: &mut Vec<u8>, number: u64, key: u64) -> Result<(), AllocError>
    requires number { IsDataNumber number }
    requires key { key < 2 ^ 16 }
    ensures { OnOk result (text.new.items ≡ text.old.items ++ order_head number key) }
{
    push_number(text, key)?;
    push_number(text, not_third(1 + draw(number, 18, key, 15 * number)))?;
    push_status(text, number, key)?;
    push_money(text, (100_000 + draw(number, 20, key, 40_000_000)) as i64)?;
    Ok(())
}

/// Appends the last fields of an order.
#[tactic(auto, unfolding(crate::specs::Lines::order_tail))]
fn push_order_tail(text: &mut Vec<u8>, number: u64, key: u64) -> Result<(), AllocError>
    requires number { IsDataNumber number }
    requires key { key < 2 ^ 16 }
    ensures { OnOk result (text.new.items ≡ text.old.items ++ order_tail number key) }
{
    push_priority(text, number, key)?;
    push_labelled(text, "Clerk#", 1 + draw(number, 23, key, 10))?;
    push_number(text, 0)?;
    push_word(text, order_comment(key))?;
    Ok(())
}

/// Appends an order's line.
#[tactic(auto, unfolding(crate::specs::Lines::order_line))]
fn push_order(text: &mut Vec<u8>, number: u64, key: u64) -> Result<(), AllocError>
    requires number { IsDataNumber number }
    requires key { key < 2 ^ 16 }
    ensures { OnOk result (text.new.items ≡ text.old.items ++ order_line number key) }
{
    push_head(text, number, key)?;
    push_date(text, order_day(number, key))?;
    push_order_tail(text, number, key)?;
    end_line(text)?;
    Ok(())
}

/// The text of the orders from the first key to the one before the end.
pub fn order_text(alloc: Global, number: u64, first: u64, end: u64) -> Result<Vec<u8>, AllocError>
    requires number { IsDataNumber number }
    requires keys { (first ≤ end) × (end ≤ 2 ^ 16) }
    ensures { IfOk result (λ text. text.items ≡ lines (order_line number) first end) }
{
    let mut text = Vec::new(alloc);
    for key in first..end {
        push_order(&mut text, number, key)?;
    }
    Ok(text)
}

/// Appends the line that deletes an order.
#[tactic(auto, unfolding(crate::specs::Lines::delete_line))]
fn push_delete(text: &mut Vec<u8>, key: u64) -> Result<(), AllocError>
    ensures { OnOk result (text.new.items ≡ text.old.items ++ delete_line key) }
{
    push_number(text, key)?;
    end_line(text)?;
    Ok(())
}

/// The text that deletes the orders up to the one before the end.
pub fn delete_text(alloc: Global, end: u64) -> Result<Vec<u8>, AllocError>
    requires { 1 ≤ end }
    ensures { IfOk result (λ text. text.items ≡ lines delete_line 1 end) }
{
    let mut text = Vec::new(alloc);
    for key in 1..end {
        push_delete(&mut text, key)?;
    }
    Ok(text)
}
