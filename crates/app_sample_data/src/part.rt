//! Parts.
ghost use Rattle.std.specs.Prelude.{◌≡◌, ◌<◌, ◌≤◌, ◌+◌, ◌*◌, ◌^◌, ◌++◌, OnOk, IfOk};
ghost use Rattle.app_sample_data.specs.Choices.{
  colours,
  container_kinds,
  container_sizes,
  type_finishes,
  type_metals,
  type_sizes,
  word,
};
ghost use Rattle.app_sample_data.specs.Fields.{draw, field};
ghost use Rattle.app_sample_data.specs.Lines.{
  brand,
  lines,
  maker_of,
  manufacturer,
  part_container,
  part_head,
  part_line,
  part_name,
  part_tail,
  part_type,
  retail_price,
};
ghost use Rattle.app_sample_data.specs.Numbers.{IsDataNumber};

use crate::choices::{
    COLOURS, CONTAINER_KINDS, CONTAINER_SIZES, TYPE_FINISHES, TYPE_METALS, TYPE_SIZES, word,
};
use crate::draw::draw;
use crate::fields::{end_line, push_digits_of, push_money, push_number, push_part, push_word};
use std::alloc::{AllocError, Global};

/// The colour at a place of their list.
fn colour(place: u64) -> &'static str
    requires { place < 8 }
    ensures { result.now ≡ word colours place }
{
    word(&COLOURS, place)
}

/// The first word of a type.
fn type_size(place: u64) -> &'static str
    requires { place < 6 }
    ensures { result.now ≡ word type_sizes place }
{
    word(&TYPE_SIZES, place)
}

/// The second word of a type.
fn type_finish(place: u64) -> &'static str
    requires { place < 5 }
    ensures { result.now ≡ word type_finishes place }
{
    word(&TYPE_FINISHES, place)
}

/// The third word of a type.
fn type_metal(place: u64) -> &'static str
    requires { place < 5 }
    ensures { result.now ≡ word type_metals place }
{
    word(&TYPE_METALS, place)
}

/// The first word of a container.
fn container_size(place: u64) -> &'static str
    requires { place < 5 }
    ensures { result.now ≡ word container_sizes place }
{
    word(&CONTAINER_SIZES, place)
}

/// The second word of a container.
fn container_kind(place: u64) -> &'static str
    requires { place < 8 }
    ensures { result.now ≡ word container_kinds place }
{
    word(&CONTAINER_KINDS, place)
}

/// Appends the field of a part's name: two colours.
#[tactic(auto, unfolding(crate::specs::Lines::part_name, crate::specs::Fields::field))]
fn push_name(text: &mut Vec<u8>, number: u64, key: u64) -> Result<(), AllocError>
    requires number { IsDataNumber number }
    requires key { key < 2 ^ 16 }
    ensures { OnOk result (text.new.items ≡ text.old.items ++ field (part_name number key)) }
{
    push_part(text, colour(draw(number, 3, key, 8)))?;
    push_part(text, " ")?;
    push_word(text, colour(draw(number, 4, key, 8)))?;
    Ok(())
}

/// The digit of a part's maker, from 1 to 5.
fn maker_of(number: u64, key: u64) -> u64
    requires number { IsDataNumber number }
    requires key { key < 2 ^ 16 }
    ensures { result ≡ maker_of number key }
{
    1 + draw(number, 5, key, 5)
}

/// Appends the field of a part's manufacturer.
#[tactic(auto, unfolding(crate::specs::Lines::manufacturer, crate::specs::Fields::field))]
fn push_manufacturer(text: &mut Vec<u8>, number: u64, key: u64) -> Result<(), AllocError>
    requires number { IsDataNumber number }
    requires key { key < 2 ^ 16 }
    ensures { OnOk result (text.new.items ≡ text.old.items ++ field (manufacturer number key)) }
{
    push_part(text, "Manufacturer#")?;
    push_number(text, maker_of(number, key))?;
    Ok(())
}

/// Appends the field of a part's brand.
#[tactic(auto, unfolding(crate::specs::Lines::brand, crate::specs::Fields::field))]
fn push_brand(text: &mut Vec<u8>, number: u64, key: u64) -> Result<(), AllocError>
    requires number { IsDataNumber number }
    requires key { key < 2 ^ 16 }
    ensures { OnOk result (text.new.items ≡ text.old.items ++ field (brand number key)) }
{
    push_part(text, "Brand#")?;
    push_digits_of(text, maker_of(number, key))?;
    push_number(text, 1 + draw(number, 6, key, 5))?;
    Ok(())
}

/// Appends the field of a part's type: three words.
#[tactic(auto, unfolding(crate::specs::Lines::part_type, crate::specs::Fields::field))]
fn push_type(text: &mut Vec<u8>, number: u64, key: u64) -> Result<(), AllocError>
    requires number { IsDataNumber number }
    requires key { key < 2 ^ 16 }
    ensures { OnOk result (text.new.items ≡ text.old.items ++ field (part_type number key)) }
{
    push_part(text, type_size(draw(number, 7, key, 6)))?;
    push_part(text, " ")?;
    push_part(text, type_finish(draw(number, 8, key, 5)))?;
    push_part(text, " ")?;
    push_word(text, type_metal(draw(number, 9, key, 5)))?;
    Ok(())
}

/// Appends the field of a part's container: two words.
#[tactic(auto, unfolding(crate::specs::Lines::part_container, crate::specs::Fields::field))]
fn push_container(text: &mut Vec<u8>, number: u64, key: u64) -> Result<(), AllocError>
    requires number { IsDataNumber number }
    requires key { key < 2 ^ 16 }
    ensures { OnOk result (text.new.items ≡ text.old.items ++ field (part_container number key)) }
{
    push_part(text, container_size(draw(number, 11, key, 5)))?;
    push_part(text, " ")?;
    push_word(text, container_kind(draw(number, 12, key, 8)))?;
    Ok(())
}

/// The retail price of a part, in hundredths.
pub fn retail_price(part: u64) -> u64
    requires { part < 2 ^ 16 }
    ensures { result ≡ retail_price part }
{
    90_000 + part
}

/// Appends the fields of a part up to its brand.
#[tactic(auto, unfolding(crate::specs::Lines::part_head))]
fn push_part_head(text: &mut Vec<u8>, number: u64, key: u64) -> Result<(), AllocError>
    requires number { IsDataNumber number }
    requires key { key < 2 ^ 16 }
    ensures { OnOk result (text.new.items ≡ text.old.items ++ part_head number key) }
{
    push_number(text, key)?;
    push_name(text, number, key)?;
    push_manufacturer(text, number, key)?;
    push_brand(text, number, key)?;
    Ok(())
}

/// Appends the fields of a part from its type on.
#[tactic(auto, unfolding(crate::specs::Lines::part_tail))]
fn push_part_tail(text: &mut Vec<u8>, number: u64, key: u64) -> Result<(), AllocError>
    requires number { IsDataNumber number }
    requires key { key < 2 ^ 16 }
    ensures { OnOk result (text.new.items ≡ text.old.items ++ part_tail number key) }
{
    push_type(text, number, key)?;
    push_number(text, 1 + draw(number, 10, key, 50))?;
    push_container(text, number, key)?;
    push_money(text, retail_price(key) as i64)?;
    push_word(text, "")?;
    Ok(())
}

/// Appends a part's line.
#[tactic(auto, unfolding(crate::specs::Lines::part_line))]
fn push_part_line(text: &mut Vec<u8>, number: u64, key: u64) -> Result<(), AllocError>
    requires number { IsDataNumber number }
    requires key { key < 2 ^ 16 }
    ensures { OnOk result (text.new.items ≡ text.old.items ++ part_line number key) }
{
    push_part_head(text, number, key)?;
    push_part_tail(text, number, key)?;
    end_line(text)?;
    Ok(())
}

/// The text of the parts.
pub fn part_text(alloc: Global, number: u64) -> Result<Vec<u8>, AllocError>
    requires { IsDataNumber number }
    ensures { IfOk result (λ text. text.items ≡ lines (part_line number) 1 (20 * number + 1)) }
{
    let mut text = Vec::new(alloc);
    for key in 1..20 * number + 1 {
        push_part_line(&mut text, number, key)?;
    }
    Ok(text)
}
