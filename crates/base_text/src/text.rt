//! The type `Text`: its making, its bytes, its order, equality and hash.
ghost use Rattle.std.specs.Prelude.{◌≡◌, ◌≤◌, ◌-◌, ℕ, List, IfOk, ◌↔◌, ◌==◌, Some, length, take};
ghost use Rattle.std.specs.Prelude.{drop};
ghost use Rattle.std.specs.Ordering.{nat_cmp, as_partial_cmp};
ghost use Rattle.std.proofs.Common.{rules};
ghost use Rattle.std.specs.Arc.{arc_slice_items};
ghost use Rattle.std.specs.Hash as fed;
ghost use Rattle.std.specs.Cmp.Rules.{comparing, hashing};
ghost use Rattle.std.specs.Cmp.{partial_order_from_own_ties};
ghost use Rattle.std.specs.Cmp.Lexicographic.{pointwise, slice_cmp};
ghost use Rattle.base_text.specs.Printable.{AllPrintable, first_unprintable};

use std::alloc::{AllocError, Global};
use std::cmp::Ordering;
use std::hash::{Hash, Hasher};
use std::marker::Model;
use std::sync::ArcSlice;

/// Why bytes are no text.
#[derive(Clone, Copy, PartialEq, Eq, Debug)]
pub enum TextFault {
    /// The first byte outside 0x20 to 0x7E stands at this place, counted from 0.
    BadText(usize),
    /// Memory was wanted.
    OutOfMemory,
}

impl From<AllocError> for TextFault {
    ghost use Rattle.base_text.specs.declared.text.TextFault.TheVariants.{OutOfMemory};

    ghost from_gives = { λ _ e. e ≡ OutOfMemory };

    fn from(_: AllocError) -> Self {
        TextFault::OutOfMemory
    }
}

/// A text of bytes 0x20 to 0x7E, which contracts see as the list of its bytes: a part of a buffer
/// that others may share. A clone and a part are further shares of the same buffer, which stays as
/// long as any of them. Order, equality and hash are those of the bytes, without padding.
#[derive(Drop)]
pub struct Text {
    buffer: ArcSlice<u8>,
    /// Where the text begins in the buffer, and where it ends.
    start: usize,
    end: usize,
}

// A value holds a text beside its kind, and is to take no more than 32 bytes.
const _: () = prove!(size_of::<Text>() <= 24);

impl Model for Text {
    ghost use Rattle.std.specs.Prelude.{List, ℕ};
    ghost use Rattle.std.specs.Arc.{arc_slice_items};
    ghost use Rattle.base_text.specs.Buffer.{part_of, IsPart};

    ghost Value = { List ℕ };

    ghost view = { λ t. part_of (arc_slice_items t.buffer) t.start t.end };

    ghost invariant = { λ t. IsPart (arc_slice_items t.buffer) t.start t.end };
}

#[tactic(auto, using(crate::proofs::Parts::parts))]
impl Text {
    /// The text of these bytes, which are copied once.
    pub fn new(alloc: Global, bytes: &[u8]) -> Result<Text, TextFault>
        ensures text { IfOk result (λ t. t ≡ bytes.now) }
        ensures bad { (place : ℕ) → (result ≡ Err (TextFault.BadText place))
            ↔ (first_unprintable bytes.now ≡ Some place) }
    {
        match first_unprintable(bytes) {
            Some(place) => Err(TextFault::BadText(place)),
            None => {
                let text = Text::of_printable(alloc, bytes)?;
                Ok(text)
            }
        }
    }

    /// The text of bytes that the caller has tested.
    pub fn of_printable(alloc: Global, bytes: &[u8]) -> Result<Text, AllocError>
        requires { AllPrintable bytes.now }
        ensures { IfOk result (λ t. t ≡ bytes.now) }
    {
        let buffer = ArcSlice::from_slice(alloc, bytes)?;
        Ok(Text::whole(buffer))
    }

    /// The text of bytes that the caller has tested, which are not copied.
    pub fn from_vec(bytes: Vec<u8>) -> Result<Text, AllocError>
        requires { AllPrintable bytes.items }
        ensures { IfOk result (λ t. t ≡ bytes.items) }
    {
        let buffer = ArcSlice::from_vec(bytes)?;
        Ok(Text::whole(buffer))
    }

    // All bytes of a buffer.
    fn whole(buffer: ArcSlice<u8>) -> Text
        requires { AllPrintable (arc_slice_items buffer) }
        ensures { result ≡ arc_slice_items buffer }
    {
        let end = buffer.len();
        Text {
            buffer,
            start: 0,
            end,
        }
    }

    /// The bytes, of which nothing is copied.
    #[tactic(auto, using(crate::proofs::Parts::parts), unfolding(crate::specs::Buffer::part_of))]
    pub fn bytes(&self) -> &[u8]
        ensures text { result.now ≡ self.now }
        ensures printable { AllPrintable result.now }
    {
        &self.buffer.as_slice()[self.start..self.end]
    }

    /// The bytes from one place to another, counted from 0, as a text: a further share of the same
    /// buffer.
    pub fn share(&self, from: usize, to: usize) -> Result<Text, AllocError>
        requires order { from ≤ to }
        requires within { to ≤ length self.now }
        ensures { IfOk result (λ t. t ≡ take (to - from) (drop from self.now)) }
    {
        let start = self.start;
        let _end = self.end;
        let buffer = self.buffer.clone()?;
        Ok(Text {
            buffer,
            start: start + from,
            end: start + to,
        })
    }
}

/// The place of the first byte that no text holds.
fn first_unprintable(bytes: &[u8]) -> Option<usize>
    ensures { result ≡ first_unprintable bytes.now }
{
    bytes.iter().position(|byte| !(0x20..=0x7e).contains(byte))
}

impl Clone for Text {
    ghost is_clone = { λ t u. u ≡ t };

    fn clone(&self) -> Result<Text, AllocError>
        ensures { IfOk result (λ t. t ≡ self.now) }
    {
        let buffer = self.buffer.clone()?;
        Ok(Text {
            buffer,
            start: self.start,
            end: self.end,
        })
    }
}

impl PartialEq for Text {
    ghost eq = { pointwise ◌==◌ };

    ghost laws = { Prim.search (comparing, rules) };

    fn eq(&self, other: &Text) -> bool {
        self.bytes() == other.bytes()
    }
}

impl Eq for Text {
    ghost laws = { Prim.search (comparing, rules) };
}

impl Ord for Text {
    ghost cmp = { slice_cmp nat_cmp };

    ghost total = { Prim.search (comparing, rules) };

    ghost matches_partial_cmp = { Prim.search (comparing, rules) };

    ghost matches_eq = { Prim.search (comparing, rules) };

    fn cmp(&self, other: &Text) -> Ordering {
        self.bytes().cmp(&other.bytes())
    }
}

impl PartialOrd for Text {
    ghost partial_cmp = { as_partial_cmp (slice_cmp nat_cmp) };

    ghost laws = { partial_order_from_own_ties (Prim.search (comparing, rules)) (Prim.search (comparing, rules)) };

    fn partial_cmp(&self, other: &Text) -> Option<Ordering> {
        Some(self.cmp(other))
    }
}

impl Hash for Text {
    ghost hash_input = { fed.slice fed.u8 };

    ghost respects_eq = { Prim.search (hashing, rules) };

    fn hash<H: Hasher>(&self, state: &mut H) {
        self.bytes().hash(state);
    }
}
