//! Texts that lie one after the other in one buffer of bytes.
ghost use Rattle.std.specs.Prelude.{◌≡◌, ◌<◌, ◌≤◌, ◌++◌, ◌∷◌, [], IfOk, OnErr, IsTrue, length};
ghost use Rattle.std.specs.Prelude.{take, if◌then◌else◌, slice_index_or, IfSome};
ghost use Rattle.base_text.specs.Printable.{AllPrintable};
ghost use Rattle.base_columns.specs.Texts.{start_of, buffer_bytes, texts_of, AreTexts, ends_of};
ghost use Rattle.base_columns.specs.Lists.{gathered, AreBelow, one_list};

use base_text::Text;
use std::alloc::{AllocError, Global};
use std::marker::Model;

// The bytes of texts: a vector that grows, or a text that shares of single ones are taken from.
pub(crate) enum Buffer {
    Own(Vec<u8>),
    Shared(Text),
}

impl Drop for Buffer {
    #[inline]
    fn drop(self) {
        match self {
            Buffer::Own(kept) => drop(kept),
            Buffer::Shared(kept) => drop(kept),
        }
    }
}

/// Texts, seen as the list of them. A push that fails leaves it as before.
#[derive(Drop)]
pub(crate) struct Texts {
    buffer: Buffer,
    // Where each text ends in the buffer. It begins where the one before it ends.
    ends: Vec<u32>,
}

impl Model for Texts {
    ghost use Rattle.std.specs.Prelude.{List, ℕ};
    ghost use Rattle.base_columns.specs.Texts.{buffer_bytes, texts_of, AreTexts};

    ghost Value = { List (List ℕ) };

    ghost view = { λ t. texts_of (buffer_bytes t.buffer) t.ends.items };

    ghost invariant = { λ t. AreTexts (buffer_bytes t.buffer) t.ends.items };
}

// All bytes of a buffer.
fn all_bytes(buffer: &Buffer) -> &[u8]
    ensures { result.now ≡ buffer_bytes buffer.now }
{
    match buffer {
        Buffer::Own(bytes) => bytes.as_slice(),
        Buffer::Shared(text) => text.bytes(),
    }
}

// Where the text of a place begins.
fn start_of(ends: &[u32], i: usize) -> usize
    requires { i ≤ length ends.now }
    ensures { result ≡ start_of ends.now i }
{
    if i == 0 { 0 } else { ends[i - 1] as usize }
}

// One text more, unless the bytes would be more than 32 bits count.
#[tactic(auto, using(crate::proofs::TextLists::texts))]
fn push_text(bytes: &mut Vec<u8>, ends: &mut Vec<u32>, text: &[u8]) -> Result<bool, AllocError>
    requires texts { AreTexts bytes.old.items ends.old.items }
    requires printable { AllPrintable text.now }
    ensures texts { AreTexts bytes.new.items ends.new.items }
    ensures ok { IfOk result
        (λ done. texts_of bytes.new.items ends.new.items
        ≡ (if done then texts_of bytes.old.items ends.old.items ++ text.now ∷ []
        else texts_of bytes.old.items ends.old.items)) }
    ensures err { OnErr result
        (texts_of bytes.new.items ends.new.items ≡ texts_of bytes.old.items ends.old.items) }
{
    let start = start_of(ends.as_slice(), ends.len());
    bytes.truncate(start);
    let Some(end) = start.checked_add(text.len()) else {
        return Ok(false);
    };
    let Ok(end) = u32::try_from(end) else {
        return Ok(false);
    };
    bytes.extend_from_slice(text)?;
    ends.push(end)?;
    Ok(true)
}

#[tactic(auto, using(crate::proofs::TextLists::texts))]
impl Texts {
    /// No texts.
    pub(crate) fn new(alloc: Global) -> Texts
        ensures { result ≡ [] }
    {
        Texts {
            buffer: Buffer::Own(Vec::new(alloc)),
            ends: Vec::new(alloc),
        }
    }

    /// No texts, with room for n.
    pub(crate) fn with_room(alloc: Global, n: usize) -> Result<Texts, AllocError>
        ensures { IfOk result (λ t. t ≡ []) }
    {
        let ends = Vec::with_capacity(alloc, n)?;
        Ok(Texts {
            buffer: Buffer::Own(Vec::new(alloc)),
            ends,
        })
    }

    /// How many there are.
    pub(crate) fn len(&self) -> usize
        ensures { result ≡ length self.now }
    {
        self.ends.len()
    }

    /// The bytes of the text at a place, of which nothing is copied.
    pub(crate) fn bytes(&self, i: usize) -> &[u8]
        requires { i < length self.now }
        ensures value { result.now ≡ slice_index_or self.now i [] }
        ensures printable { AllPrintable result.now }
    {
        let start = start_of(self.ends.as_slice(), i);
        let end = self.ends[i] as usize;
        &all_bytes(&self.buffer)[start..end]
    }

    /// The text at a place: a share of the buffer, where that is shared.
    pub(crate) fn text(&self, alloc: Global, i: usize) -> Result<Text, AllocError>
        requires { i < length self.now }
        ensures { IfOk result (λ t. t ≡ slice_index_or self.now i []) }
    {
        match &self.buffer {
            Buffer::Own(_) => Text::of_printable(alloc, self.bytes(i)),
            Buffer::Shared(whole) => {
                let start = start_of(self.ends.as_slice(), i);
                let end = self.ends[i] as usize;
                whole.share(start, end)
            }
        }
    }

    /// One text more, unless the buffer is shared, or the bytes would be more than 32 bits count.
    pub(crate) fn push(&mut self, text: &[u8]) -> Result<bool, AllocError>
        requires { AllPrintable text.now }
        ensures ok { IfOk result
            (λ done. self.new ≡ (if done then self.old ++ text.now ∷ [] else self.old)) }
        ensures err { OnErr result (self.new ≡ self.old) }
    {
        match &mut self.buffer {
            Buffer::Own(bytes) => push_text(bytes, &mut self.ends, text),
            Buffer::Shared(_) => Ok(false),
        }
    }

    /// The first n texts alone.
    pub(crate) fn truncate(&mut self, n: usize)
        requires { n ≤ length self.old }
        ensures { self.new ≡ take n self.old }
    {
        self.ends.truncate(n);
    }

    /// The texts at these places, unless the bytes would be more than 32 bits count.
    pub(crate) fn gather(&self, alloc: Global, places: &[u32]) -> Result<Option<Texts>, AllocError>
        requires { AreBelow (length self.now) places.now }
        ensures { IfOk result (λ r. IfSome r (λ t. t ≡ gathered [] self.now places.now)) }
    {
        // A field that is used tells that the texts lie as they should.
        let _ends = &self.ends;
        let Some((ends, count)) = self.ends_at(alloc, places)? else {
            return Ok(None);
        };
        let bytes = self.bytes_at(alloc, places, count)?;
        Ok(Some(Texts {
            buffer: Buffer::Own(bytes),
            ends,
        }))
    }

    // Where the texts at these places end when they lie one after the other, and how many bytes
    // they have together, unless these are more than 32 bits count.
    fn ends_at(
        &self,
        alloc: Global,
        places: &[u32],
    ) -> Result<Option<(Vec<u32>, usize)>, AllocError>
        requires { AreBelow (length self.now) places.now }
        ensures { IfOk result
            (λ r. IfSome r (λ p. p.0.items ≡ ends_of 0 (gathered [] self.now places.now))) }
    {
        let mut ends = Vec::with_capacity(alloc, places.len())?;
        let mut total: usize = 0;
        for place in places {
            let text = self.bytes(*place as usize);
            let Some(next) = total.checked_add(text.len()) else {
                return Ok(None);
            };
            let Ok(end) = u32::try_from(next) else {
                return Ok(None);
            };
            ends.push(end)?;
            total = next;
        }
        Ok(Some((ends, total)))
    }

    // The bytes of the texts at these places, one after the other, `count` in all.
    fn bytes_at(&self, alloc: Global, places: &[u32], count: usize) -> Result<Vec<u8>, AllocError>
        requires { AreBelow (length self.now) places.now }
        ensures { IfOk result (λ v. v.items ≡ one_list (gathered [] self.now places.now)) }
    {
        let mut bytes = Vec::with_capacity(alloc, count)?;
        for place in places {
            bytes.extend_from_slice(self.bytes(*place as usize))?;
        }
        Ok(bytes)
    }

    /// All texts of another list at the end, unless the buffer is shared, or the bytes would be
    /// more than 32 bits count.
    pub(crate) fn append(&mut self, other: &Texts) -> Result<bool, AllocError>
        ensures ok { IfOk result
            (λ done. self.new ≡ (if done then self.old ++ other.now else self.old)) }
        ensures err { OnErr result (self.new ≡ self.old) }
    {
        let before = self.len();
        let done = self.push_all(other);
        if !matches!(done, Ok(true)) {
            self.truncate(before);
        }
        done
    }

    // All texts of another list, one by one, as far as the bytes are counted and memory goes.
    fn push_all(&mut self, other: &Texts) -> Result<bool, AllocError>
        ensures ok { IfOk result (λ done. IsTrue done → self.new ≡ self.old ++ other.now) }
        ensures kept { take (length self.old) self.new ≡ self.old }
        ensures longer { length self.old ≤ length self.new }
    {
        for i in 0..other.len() {
            if !self.push(other.bytes(i))? {
                return Ok(false);
            }
        }
        Ok(true)
    }

    /// The same texts in a shared buffer, without room for more.
    pub(crate) fn stored(&self, alloc: Global) -> Result<Texts, AllocError>
        ensures { IfOk result (λ t. t ≡ self.now) }
    {
        let ends = self.ends.as_slice();
        let end = start_of(ends, ends.len());
        let whole = Text::of_printable(alloc, &all_bytes(&self.buffer)[..end])?;
        let ends = Vec::from_slice(alloc, ends)?;
        Ok(Texts {
            buffer: Buffer::Shared(whole),
            ends,
        })
    }
}
