//! Texts as places of a dictionary that they share.
ghost use Rattle.std.specs.Prelude.{◌≡◌, ◌<◌, ◌≤◌, ◌++◌, ◌∷◌, [], IfOk, IfSome, OnErr, length};
ghost use Rattle.std.specs.Prelude.{take, if◌then◌else◌, slice_index_or, replicate};
ghost use Rattle.std.specs.Arc.{arc_value};
ghost use Rattle.base_text.specs.Printable.{AllPrintable};
ghost use Rattle.base_columns.specs.Lists.{gathered, AreBelow, IsPadded};

use crate::dictionary::{DICTIONARY_TEXTS, Dictionary};
use crate::places::copies;
use crate::texts::Texts;
use base_text::Text;
use std::alloc::{AllocError, Global};
use std::marker::Model;
use std::sync::Arc;

/// Texts, seen as the list of them, of which at most 256 differ. A push that fails leaves it as
/// before.
#[derive(Drop)]
pub(crate) struct Codes {
    codes: Vec<u8>,
    dictionary: Arc<Dictionary>,
}

impl Model for Codes {
    ghost use Rattle.std.specs.Prelude.{List, ℕ, [], length};
    ghost use Rattle.std.specs.Arc.{arc_value};
    ghost use Rattle.base_columns.specs.Lists.{gathered, AreBelow};

    ghost Value = { List (List ℕ) };

    ghost view = { λ c. gathered [] (arc_value c.dictionary) c.codes.items };

    ghost invariant = { λ c. AreBelow (length (arc_value c.dictionary)) c.codes.items };
}

#[tactic(auto, using(crate::proofs::CodeLists::codes))]
impl Codes {
    /// No texts.
    pub(crate) fn new(alloc: Global) -> Result<Codes, AllocError>
        ensures { IfOk result (λ c. c ≡ []) }
    {
        let dictionary = Dictionary::new(alloc)?;
        let dictionary = Arc::new(alloc, dictionary)?;
        Ok(Codes {
            codes: Vec::new(alloc),
            dictionary,
        })
    }

    /// The same text n times.
    pub(crate) fn repeated(alloc: Global, text: &[u8], n: usize) -> Result<Codes, AllocError>
        requires { AllPrintable text.now }
        ensures { IfOk result (λ c. c ≡ replicate n text.now) }
    {
        let dictionary = Dictionary::new(alloc)?.with(alloc, text)?;
        let dictionary = Arc::new(alloc, dictionary)?;
        let codes = Vec::from_elem(alloc, 0u8, n)?;
        Ok(Codes { codes, dictionary })
    }

    /// How many there are.
    pub(crate) fn len(&self) -> usize
        ensures { result ≡ length self.now }
    {
        self.codes.len()
    }

    /// Each text's place, and the dictionary.
    pub(crate) fn parts(&self) -> (&[u8], &Dictionary)
        ensures texts { self.now ≡ gathered [] result.1.now result.0.now }
        ensures below { AreBelow (length result.1.now) result.0.now }
    {
        (self.codes.as_slice(), &*self.dictionary)
    }

    /// The text at a place.
    pub(crate) fn text(&self, i: usize) -> &Text
        requires { i < length self.now }
        ensures { result.now ≡ slice_index_or self.now i [] }
    {
        let (codes, dictionary) = self.parts();
        dictionary.text(codes[i] as usize)
    }

    /// One text more, unless it would be one too many for the dictionary.
    pub(crate) fn push(&mut self, alloc: Global, text: &[u8]) -> Result<bool, AllocError>
        requires { AllPrintable text.now }
        ensures ok { IfOk result
            (λ done. self.new ≡ (if done then self.old ++ text.now ∷ [] else self.old)) }
        ensures err { OnErr result (self.new ≡ self.old) }
    {
        if let Some(code) = self.dictionary.find(text) {
            self.codes.push(code)?;
            return Ok(true);
        }
        let code = self.dictionary.len();
        if code == DICTIONARY_TEXTS {
            return Ok(false);
        }
        let dictionary = self.dictionary.with(alloc, text)?;
        let dictionary = Arc::new(alloc, dictionary)?;
        self.codes.push(code as u8)?;
        self.dictionary = dictionary;
        Ok(true)
    }

    /// One text more, the dictionary's first, if it has one.
    pub(crate) fn push_first(&mut self) -> Result<bool, AllocError>
        ensures ok { IfOk result (λ done. IsPadded done self.old self.new) }
        ensures err { OnErr result (self.new ≡ self.old) }
    {
        if self.dictionary.len() == 0 {
            return Ok(false);
        }
        self.codes.push(0)?;
        Ok(true)
    }

    /// The first n texts alone.
    pub(crate) fn truncate(&mut self, n: usize)
        requires { n ≤ length self.old }
        ensures { self.new ≡ take n self.old }
    {
        self.codes.truncate(n);
    }

    /// The texts at these places.
    pub(crate) fn gather(&self, alloc: Global, places: &[u32]) -> Result<Codes, AllocError>
        requires { AreBelow (length self.now) places.now }
        ensures { IfOk result (λ c. c ≡ gathered [] self.now places.now) }
    {
        let codes = copies(alloc, self.codes.as_slice(), places)?;
        let dictionary = self.dictionary.clone()?;
        Ok(Codes { codes, dictionary })
    }

    /// All texts of another list at the end, if one of their dictionaries begins with the other.
    pub(crate) fn append(&mut self, other: &Codes) -> Result<bool, AllocError>
        ensures ok { IfOk result
            (λ done. self.new ≡ (if done then self.old ++ other.now else self.old)) }
        ensures err { OnErr result (self.new ≡ self.old) }
    {
        if self.dictionary.begins(&other.dictionary) {
            let dictionary = other.dictionary.clone()?;
            self.codes.extend_from_slice(other.codes.as_slice())?;
            self.dictionary = dictionary;
            return Ok(true);
        }
        if !other.dictionary.begins(&self.dictionary) {
            return Ok(false);
        }
        self.codes.extend_from_slice(other.codes.as_slice())?;
        Ok(true)
    }

    /// No texts, with room for n with the same dictionary.
    pub(crate) fn emptied(&self, alloc: Global, n: usize) -> Result<Codes, AllocError>
        ensures { IfOk result (λ c. c ≡ []) }
    {
        let codes = Vec::with_capacity(alloc, n)?;
        let dictionary = self.dictionary.clone()?;
        Ok(Codes { codes, dictionary })
    }

    /// The same texts without room for more.
    pub(crate) fn stored(&self, alloc: Global) -> Result<Codes, AllocError>
        ensures { IfOk result (λ c. c ≡ self.now) }
    {
        let codes = Vec::from_slice(alloc, self.codes.as_slice())?;
        let dictionary = self.dictionary.clone()?;
        Ok(Codes { codes, dictionary })
    }

    /// The same texts one after the other, unless the bytes would be more than 32 bits count.
    pub(crate) fn spelled(&self, alloc: Global) -> Result<Option<Texts>, AllocError>
        ensures { IfOk result (λ r. IfSome r (λ t. t ≡ self.now)) }
    {
        let mut texts = Texts::new(alloc);
        for i in 0..self.len() {
            if !texts.push(self.text(i).bytes())? {
                return Ok(None);
            }
        }
        Ok(Some(texts))
    }
}
