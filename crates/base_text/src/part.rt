//! Parts of texts.
ghost use Rattle.std.specs.Prelude.{◌≡◌, IfOk};
ghost use Rattle.base_text.specs.Pattern.{places};

use crate::Text;
use std::alloc::AllocError;

/// The bytes of places `from` to `from + count - 1` that are there, places counted from 1 (SQL's
/// SUBSTRING), as a further share of the text's buffer.
#[tactic(auto, using(crate::proofs::Printables::part_printable, crate::proofs::Printables::places_is))]
pub fn substring(text: &Text, from: u32, count: u32) -> Result<Text, AllocError>
    ensures { IfOk result (λ part. part ≡ places from count text.now) }
{
    let bytes = text.bytes();
    let end = (from as usize + count as usize)
        .saturating_sub(1)
        .min(bytes.len());
    let start = (from as usize).saturating_sub(1).min(end);
    text.share(start, end)
}
