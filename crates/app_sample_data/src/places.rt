//! Regions and nations.
ghost use Rattle.std.specs.Prelude.{◌≡◌, ◌<◌, ◌++◌, OnOk, IfOk};
ghost use Rattle.app_sample_data.specs.Choices.{nations, region_of, regions, word};
ghost use Rattle.app_sample_data.specs.Fields.{field};
ghost use Rattle.app_sample_data.specs.Lines.{lines, nation_line, region_line};

use crate::choices::{NATION_REGIONS, NATIONS, REGIONS, word};
use crate::fields::{end_line, push_number, push_word};
use std::alloc::{AllocError, Global};

/// The key of the region of a nation.
#[tactic(auto, unfolding(crate::specs::Choices::region_of))]
fn region_of(nation: u64) -> u64
    requires { nation < 25 }
    ensures { result ≡ region_of nation }
{
    NATION_REGIONS[nation as usize]
}

/// The region's name.
fn region_name(place: u64) -> &'static str
    requires { place < 5 }
    ensures { result.now ≡ word regions place }
{
    word(&REGIONS, place)
}

/// Appends the field of a region's name.
fn push_region(text: &mut Vec<u8>, key: u64) -> Result<(), AllocError>
    requires { key < 5 }
    ensures { OnOk result (text.new.items ≡ text.old.items ++ field (word regions key)) }
{
    push_word(text, region_name(key))?;
    Ok(())
}

/// The nation's name.
fn nation_name(place: u64) -> &'static str
    requires { place < 25 }
    ensures { result.now ≡ word nations place }
{
    word(&NATIONS, place)
}

/// Appends the field of a nation's name.
fn push_nation(text: &mut Vec<u8>, key: u64) -> Result<(), AllocError>
    requires { key < 25 }
    ensures { OnOk result (text.new.items ≡ text.old.items ++ field (word nations key)) }
{
    push_word(text, nation_name(key))?;
    Ok(())
}

/// Appends a region's line.
#[tactic(auto, unfolding(crate::specs::Lines::region_line))]
fn push_region_line(text: &mut Vec<u8>, key: u64) -> Result<(), AllocError>
    requires { key < 5 }
    ensures { OnOk result (text.new.items ≡ text.old.items ++ region_line key) }
{
    push_number(text, key)?;
    push_region(text, key)?;
    push_word(text, "")?;
    end_line(text)?;
    Ok(())
}

/// Appends a nation's line.
#[tactic(auto, unfolding(crate::specs::Lines::nation_line))]
fn push_nation_line(text: &mut Vec<u8>, key: u64) -> Result<(), AllocError>
    requires { key < 25 }
    ensures { OnOk result (text.new.items ≡ text.old.items ++ nation_line key) }
{
    push_number(text, key)?;
    push_nation(text, key)?;
    push_number(text, region_of(key))?;
    push_word(text, "")?;
    end_line(text)?;
    Ok(())
}

/// The text of the regions.
pub fn region_text(alloc: Global) -> Result<Vec<u8>, AllocError>
    ensures { IfOk result (λ text. text.items ≡ lines region_line 0 5) }
{
    let mut text = Vec::new(alloc);
    for key in 0..5 {
        push_region_line(&mut text, key)?;
    }
    Ok(text)
}

/// The text of the nations.
pub fn nation_text(alloc: Global) -> Result<Vec<u8>, AllocError>
    ensures { IfOk result (λ text. text.items ≡ lines nation_line 0 25) }
{
    let mut text = Vec::new(alloc);
    for key in 0..25 {
        push_nation_line(&mut text, key)?;
    }
    Ok(text)
}
