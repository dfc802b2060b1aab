//! Values that look random, and numbers made of them.
ghost use Rattle.std.specs.Prelude.{◌≡◌, ◌<◌, ◌≤◌, ◌^◌, ◌*◌, ◌+◌};
ghost use Rattle.app_sample_data.specs.Fields.{draw, supplier_of, not_third};
ghost use Rattle.app_sample_data.specs.Numbers.{IsDataNumber};

/// A value below `count` for a column and a key of the data of that number.
#[tactic(auto, unfolding(crate::specs::Fields::draw))]
pub fn draw(number: u64, column: u64, key: u64, count: u64) -> u64
    requires number { number ≤ 1000 }
    requires column { column < 100 }
    requires key { key < 2 ^ 20 }
    requires count { 0 < count }
    ensures value { result ≡ draw number column key count }
    ensures below { result < count }
{
    (key * 2_654_435_761 + column * 40_503 + number * 97) % 4_294_967_296 / 256 % count
}

/// The supplier of a part at one of its four places, from 0.
#[tactic(auto, unfolding(crate::specs::Fields::supplier_of))]
pub fn supplier_of(number: u64, part: u64, place: u64) -> u64
    requires number { IsDataNumber number }
    requires part { part < 2 ^ 20 }
    requires place { place < 4 }
    ensures { result ≡ supplier_of number part place }
{
    1 + (part + 2 * number * place) % (10 * number)
}

/// The key, or the one before it where three divides it.
#[tactic(auto, unfolding(crate::specs::Fields::not_third))]
pub fn not_third(key: u64) -> u64
    requires { 1 ≤ key }
    ensures { result ≡ not_third key }
{
    if key % 3 == 0 { key - 1 } else { key }
}
