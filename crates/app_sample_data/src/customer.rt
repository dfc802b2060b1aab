//! Customers.
ghost use Rattle.std.specs.Prelude.{◌≡◌, ◌<◌, ◌≤◌, ◌+◌, ◌*◌, ◌^◌, ◌++◌, OnOk, IfOk};
ghost use Rattle.app_sample_data.specs.Choices.{market_segments, word};
ghost use Rattle.app_sample_data.specs.Fields.{draw, field};
ghost use Rattle.app_sample_data.specs.Lines.{customer_line, customer_tail, lines};
ghost use Rattle.app_sample_data.specs.Numbers.{IsDataNumber};

use crate::choices::{MARKET_SEGMENTS, word};
use crate::draw::draw;
use crate::fields::{
    end_line, push_balance, push_labelled, push_number, push_residence, push_word,
};
use std::alloc::{AllocError, Global};

/// The market segment at a place of their list.
fn market_segment(place: u64) -> &'static str
    requires { place < 5 }
    ensures { result.now ≡ word market_segments place }
{
    word(&MARKET_SEGMENTS, place)
}

/// Appends the field of a customer's market segment.
fn push_segment(text: &mut Vec<u8>, number: u64, key: u64) -> Result<(), AllocError>
    requires number { IsDataNumber number }
    requires key { key < 2 ^ 16 }
    ensures { OnOk result (text.new.items ≡ text.old.items
        ++ field (word market_segments (draw number 17 key 5))) }
{
    push_word(text, market_segment(draw(number, 17, key, 5)))?;
    Ok(())
}

/// Appends the last fields of a customer.
#[tactic(auto, unfolding(crate::specs::Lines::customer_tail))]
fn push_customer_tail(text: &mut Vec<u8>, number: u64, key: u64) -> Result<(), AllocError>
    requires number { IsDataNumber number }
    requires key { key < 2 ^ 16 }
    ensures { OnOk result (text.new.items ≡ text.old.items ++ customer_tail number key) }
{
    push_balance(text, number, 16, key)?;
    push_segment(text, number, key)?;
    push_word(text, "")?;
    Ok(())
}

/// Appends a customer's line.
#[tactic(auto, unfolding(crate::specs::Lines::customer_line))]
fn push_customer(text: &mut Vec<u8>, number: u64, key: u64) -> Result<(), AllocError>
    requires number { IsDataNumber number }
    requires key { key < 2 ^ 16 }
    ensures { OnOk result (text.new.items ≡ text.old.items ++ customer_line number key) }
{
    push_number(text, key)?;
    push_labelled(text, "Customer#", key)?;
    push_residence(text, number, 15, key)?;
    push_customer_tail(text, number, key)?;
    end_line(text)?;
    Ok(())
}

/// The text of the customers.
pub fn customer_text(alloc: Global, number: u64) -> Result<Vec<u8>, AllocError>
    requires { IsDataNumber number }
    ensures { IfOk result (λ text. text.items ≡ lines (customer_line number) 1 (15 * number + 1)) }
{
    let mut text = Vec::new(alloc);
    for key in 1..15 * number + 1 {
        push_customer(&mut text, number, key)?;
    }
    Ok(text)
}
