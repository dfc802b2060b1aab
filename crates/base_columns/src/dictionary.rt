//! A short list of texts, which columns refer to by their places.
ghost use Rattle.std.specs.Prelude.{◌≡◌, ◌<◌, ◌≤◌, ◌++◌, ◌∷◌, [], IfOk, IfSome, length};
ghost use Rattle.std.specs.Prelude.{slice_index_or, take, true};
ghost use Rattle.base_text.specs.Printable.{AllPrintable};

use base_text::Text;
use std::alloc::{AllocError, Global};
use std::marker::Model;

/// The most texts that a dictionary has, so that a place takes one byte.
pub const DICTIONARY_TEXTS: usize = 256;

// How many slots the texts are looked up in, and how many of them a look-up tries.
const SLOTS: usize = 1024;

const TRIES: usize = 16;

/// At most 256 texts, seen as their list.
#[derive(Drop)]
pub struct Dictionary {
    texts: Vec<Text>,
    // One more than a text's place, or 0 in a free slot. Slots only speed a look-up: what they name
    // is compared.
    slots: Vec<u16>,
}

impl Model for Dictionary {
    ghost use Rattle.std.specs.Prelude.{List, ℕ, ◌≤◌, ◌≡◌, length};

    ghost Value = { List (List ℕ) };

    ghost view = { λ d. d.texts.items };

    ghost invariant = { λ d. (length d.texts.items ≤ 256) × (length d.slots.items ≡ 1024) };
}

// The slot that a look-up of these bytes tries first.
fn first_slot(text: &[u8]) -> usize
    ensures { result < 1024 }
{
    let mut hash: usize = text.len();
    if text.len() > 0 {
        let first = text[0] as usize;
        let middle = text[text.len() / 2] as usize;
        let last = text[text.len() - 1] as usize;
        hash = hash.wrapping_add(first * 31 + middle * 67 + last * 131);
    }
    hash % SLOTS
}

impl Dictionary {
    /// No texts.
    pub(crate) fn new(alloc: Global) -> Result<Dictionary, AllocError>
        ensures { IfOk result (λ d. d ≡ []) }
    {
        let slots = Vec::from_elem(alloc, 0u16, SLOTS)?;
        Ok(Dictionary {
            texts: Vec::new(alloc),
            slots,
        })
    }

    /// How many texts there are.
    pub fn len(&self) -> usize
        ensures value { result ≡ length self.now }
        ensures most { result ≤ 256 }
    {
        self.texts.len()
    }

    /// The text at a place.
    pub fn text(&self, i: usize) -> &Text
        requires { i < length self.now }
        ensures { result.now ≡ slice_index_or self.now i [] }
    {
        &self.texts[i]
    }

    /// All texts.
    pub fn texts(&self) -> &[Text]
        ensures { result.now ≡ self.now }
    {
        self.texts.as_slice()
    }

    // Whether the text at a place, if there is one, is of these bytes.
    fn is_at(&self, i: usize, text: &[u8]) -> bool
        ensures { result ≡ true → (i < length self.now)
            × (slice_index_or self.now i [] ≡ text.now) }
    {
        i < self.texts.len() && self.texts[i].bytes() == text
    }

    /// The place of a text, if a look-up finds it.
    pub(crate) fn find(&self, text: &[u8]) -> Option<u8>
        ensures { IfSome result (λ i. (i < length self.now)
            × (slice_index_or self.now i [] ≡ text.now)) }
    {
        let mut slot = first_slot(text);
        for _try in 0..TRIES {
            let named = self.slots[slot] as usize;
            if named == 0 {
                return None;
            }
            if self.is_at(named - 1, text) {
                return Some((named - 1) as u8);
            }
            slot = (slot + 1) % SLOTS;
        }
        None
    }

    // The slots with one for a text that will have that place, if a free one is near.
    fn with_slot(&self, alloc: Global, text: &[u8], place: u16) -> Result<Vec<u16>, AllocError>
        requires { place < 256 }
        ensures { IfOk result (λ slots. length slots.items ≡ 1024) }
    {
        let mut slots = Vec::from_slice(alloc, self.slots.as_slice())?;
        let mut slot = first_slot(text);
        for _try in 0..TRIES {
            if slots[slot] == 0 {
                slots[slot] = place + 1;
                return Ok(slots);
            }
            slot = (slot + 1) % SLOTS;
        }
        Ok(slots)
    }

    /// The same texts and one more.
    pub(crate) fn with(&self, alloc: Global, text: &[u8]) -> Result<Dictionary, AllocError>
        requires room { length self.now < 256 }
        requires printable { AllPrintable text.now }
        ensures { IfOk result (λ d. d ≡ self.now ++ text.now ∷ []) }
    {
        let mut texts = Vec::with_capacity(alloc, self.texts.len() + 1)?;
        for known in &self.texts {
            let known = known.clone()?;
            texts.push(known)?;
        }
        let added = Text::of_printable(alloc, text)?;
        texts.push(added)?;
        let slots = self.with_slot(alloc, text, self.texts.len() as u16)?;
        Ok(Dictionary { texts, slots })
    }

    /// Whether the other one has the same texts in the same places, and maybe more after them.
    #[tactic(auto, using(crate::proofs::CodeLists::same_texts))]
    pub(crate) fn begins(&self, other: &Dictionary) -> bool
        ensures { result ≡ true → take (length self.now) other.now ≡ self.now }
    {
        let n = self.texts.len();
        if other.texts.len() < n {
            return false;
        }
        let first = &other.texts.as_slice()[..n];
        first == self.texts.as_slice()
    }
}
