//! Parts with their suppliers.
ghost use Rattle.std.specs.Prelude.{◌≡◌, ◌<◌, ◌≤◌, ◌+◌, ◌*◌, ◌^◌, ◌++◌, ◌∷◌, [], OnOk, IfOk};
ghost use Rattle.app_sample_data.specs.Lines.{by_supplier, lines, partsupp_line, partsupp_lines};
ghost use Rattle.app_sample_data.specs.Numbers.{IsDataNumber};

use crate::draw::{draw, supplier_of};
use crate::fields::{end_line, push_money, push_number, push_word};
use std::alloc::{AllocError, Global};

/// The places of a part's four suppliers, by ascending supplier. The suppliers stand a fifth of the
/// ring of all suppliers apart, so the lowest is the first one past the ring's end.
#[tactic(auto, using(crate::proofs::Ring::none_past, crate::proofs::Ring::one_past, crate::proofs::Ring::two_past, crate::proofs::Ring::three_past))]
fn by_supplier(number: u64, part: u64) -> (u64, u64, u64, u64)
    requires number { IsDataNumber number }
    requires part { part < 2 ^ 16 }
    ensures order { result.0 ∷ result.1 ∷ result.2 ∷ result.3 ∷ [] ≡ by_supplier number part }
    ensures below { (result.0 < 4) × (result.1 < 4) × (result.2 < 4) × (result.3 < 4) }
{
    let start = part % (10 * number);
    if start < 4 * number {
        (0, 1, 2, 3)
    } else if start < 6 * number {
        (3, 0, 1, 2)
    } else if start < 8 * number {
        (2, 3, 0, 1)
    } else {
        (1, 2, 3, 0)
    }
}

/// Appends the line of a part with the supplier at one of its places.
#[tactic(auto, unfolding(crate::specs::Lines::partsupp_line))]
fn push_partsupp(text: &mut Vec<u8>, number: u64, key: u64, place: u64) -> Result<(), AllocError>
    requires number { IsDataNumber number }
    requires key { key < 2 ^ 16 }
    requires place { place < 4 }
    ensures { OnOk result (text.new.items ≡ text.old.items ++ partsupp_line number key place) }
{
    let pair = 4 * key + place;
    push_number(text, key)?;
    push_number(text, supplier_of(number, key, place))?;
    push_number(text, 1 + draw(number, 13, pair, 9_999))?;
    push_money(text, (100 + draw(number, 14, pair, 99_901)) as i64)?;
    push_word(text, "")?;
    end_line(text)?;
    Ok(())
}

/// Appends the lines of a part, by ascending supplier.
fn push_partsupps(text: &mut Vec<u8>, number: u64, key: u64) -> Result<(), AllocError>
    requires number { IsDataNumber number }
    requires key { key < 2 ^ 16 }
    ensures { OnOk result (text.new.items ≡ text.old.items ++ partsupp_lines number key) }
{
    let (first, second, third, fourth) = by_supplier(number, key);
    push_partsupp(text, number, key, first)?;
    push_partsupp(text, number, key, second)?;
    push_partsupp(text, number, key, third)?;
    push_partsupp(text, number, key, fourth)?;
    Ok(())
}

/// The text of the parts with their suppliers.
pub fn partsupp_text(alloc: Global, number: u64) -> Result<Vec<u8>, AllocError>
    requires { IsDataNumber number }
    ensures { IfOk result (λ text. text.items ≡ lines (partsupp_lines number) 1 (20 * number + 1)) }
{
    let mut text = Vec::new(alloc);
    for key in 1..20 * number + 1 {
        push_partsupps(&mut text, number, key)?;
    }
    Ok(text)
}
