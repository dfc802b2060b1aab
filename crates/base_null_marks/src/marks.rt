//! Marks of places.
ghost use Rattle.std.specs.Prelude.{◌≡◌, ◌<◌, ◌≤◌, ◌+◌, ◌*◌, ◌/◌, ◌^◌, ◌||◌, ℕ, Bool, true, false};
ghost use Rattle.std.specs.Prelude.{[], IfOk, OnOk, OnErr, IsTrue, cond, nat_eq, length};
ghost use Rattle.std.specs.Prelude.{slice_index_or};
ghost use Rattle.std.specs.List.{All};
ghost use Rattle.base_null_marks.specs.Marks.{has, in_word, is_marked, marked, marks_of, SameMarks};
ghost use Rattle.base_null_marks.specs.Marks.{IsMarkSet, AreEither, AreMarksAt, AreAppended};
ghost use Rattle.base_null_marks.specs.Marks.{AreFirst};

use std::alloc::{AllocError, Global};
use std::marker::Model;

/// Marks of places, seen as a list that says of each whether it is marked. Past its end none is.
#[derive(Drop)]
pub struct Marks {
    words: Vec<u64>,
}

impl Model for Marks {
    ghost use Rattle.std.specs.Prelude.{List, Bool};
    ghost use Rattle.base_null_marks.specs.Marks.{marks_of};

    ghost Value = { List Bool };

    ghost view = { λ m. marks_of m.words.items };
}

#[tactic(auto, using(crate::proofs::Words::marks))]
impl Marks {
    /// No marks.
    pub fn none(alloc: Global) -> Marks
        ensures { result ≡ [] }
    {
        Marks {
            words: Vec::new(alloc),
        }
    }

    /// Marks of each of the first n places, and maybe of some after them.
    pub fn all(alloc: Global, n: usize) -> Result<Marks, AllocError>
        ensures { IfOk result (λ m. (i : ℕ) → i < n → has m i ≡ true) }
    {
        let words = ones(alloc, n / 64 + 1)?;
        Ok(Marks { words })
    }

    /// The marks of the first n places alone. None are kept where none of these is marked.
    pub fn first(&self, alloc: Global, n: usize) -> Result<Marks, AllocError>
        ensures { IfOk result (λ m. AreFirst n self.now m) }
    {
        let mut marks = Marks::none(alloc);
        if self.are_none() {
            return Ok(marks);
        }
        for i in 0..n {
            if self.has(i) {
                marks.set(i)?;
            }
        }
        Ok(marks)
    }

    /// Forgets marks past the first n places, all of them where n is 0.
    pub fn truncate(&mut self, n: usize)
        ensures kept { (i : ℕ) → i < n → has self.new i ≡ has self.old i }
        ensures none { n ≡ 0 → self.new ≡ [] }
    {
        cut(&mut self.words, n);
    }

    /// Whether no mark is kept at all.
    pub fn are_none(&self) -> bool
        ensures { IsTrue result → self.now ≡ [] }
    {
        if self.words.len() > 0 {
            return false;
        }
        true
    }

    /// Whether the same places are marked, as the marks are kept: marks of the same places may be
    /// kept in more room.
    pub fn is_same(&self, other: &Marks) -> bool
        ensures { IsTrue result → self.now ≡ other.now }
    {
        are_same(self.words.as_slice(), other.words.as_slice())
    }

    /// Whether a place is marked.
    pub fn has(&self, i: usize) -> bool
        ensures { result ≡ has self.now i }
    {
        if i / 64 >= self.words.len() {
            return false;
        }
        has_bit(self.words.as_slice(), i)
    }

    /// The marks of either.
    pub fn either(&self, alloc: Global, other: &Marks) -> Result<Marks, AllocError>
        ensures { IfOk result (λ m. AreEither self.now other.now m) }
    {
        let words = either_words(alloc, self.words.as_slice(), other.words.as_slice())?;
        Ok(Marks { words })
    }

    /// Of each of these places of a list of n values whether it is marked or past the end.
    pub fn at_places(&self, alloc: Global, n: usize, places: &[u32]) -> Result<Marks, AllocError>
        ensures { IfOk result (λ m. AreMarksAt n self.now places.now m) }
    {
        let mut marks = Marks::none(alloc);
        for k in 0..places.len() {
            let place = places[k] as usize;
            if place >= n || self.has(place) {
                marks.set(k)?;
            }
        }
        Ok(marks)
    }

    /// Of each of these places, which are all below n, whether it is marked. Nothing is done where
    /// no marks are kept.
    pub fn at_places_below(
        &self,
        alloc: Global,
        n: usize,
        places: &[u32],
    ) -> Result<Marks, AllocError>
        requires { All (λ i. i < n) places.now }
        ensures { IfOk result (λ m. AreMarksAt n self.now places.now m) }
    {
        if self.are_none() {
            return Ok(Marks::none(alloc));
        }
        self.at_places(alloc, n, places)
    }

    /// The marks of m places after those of n. Marks that lay past the n places don't count.
    pub fn append(&mut self, n: usize, other: &Marks, m: usize) -> Result<(), AllocError>
        requires { n + m < 2 ^ 64 }
        ensures ok { OnOk result (AreAppended n self.old m other.now self.new) }
        ensures err { (i : ℕ) → i < n → has self.new i ≡ has self.old i }
    {
        for k in 0..m {
            if other.has(k) {
                self.set(n + k)?;
            } else {
                self.clear(n + k);
            }
        }
        Ok(())
    }

    /// Marks a place.
    pub fn set(&mut self, i: usize) -> Result<(), AllocError>
        ensures ok { OnOk result (IsMarkSet self.old self.new i true) }
        ensures err { OnErr result (SameMarks self.old self.new) }
    {
        grow(&mut self.words, i / 64)?;
        set_bit(&mut self.words, i);
        Ok(())
    }

    /// Takes a place's mark away.
    pub fn clear(&mut self, i: usize)
        ensures { IsMarkSet self.old self.new i false }
    {
        if i / 64 < self.words.len() {
            clear_bit(&mut self.words, i);
        }
    }
}

// Whether these are the same words.
fn are_same(words: &[u64], others: &[u64]) -> bool
    ensures { IsTrue result → words.now ≡ others.now }
{
    words == others
}

// Words of ones alone.
#[tactic(auto, using(crate::proofs::Words::full))]
fn ones(alloc: Global, n: usize) -> Result<Vec<u64>, AllocError>
    ensures { IfOk result (λ v. (i : ℕ) → i < n * 64 → is_marked v.items i ≡ true) }
{
    let words = Vec::from_elem(alloc, u64::MAX, n)?;
    Ok(words)
}

// No words past those of the first n places.
#[tactic(auto, using(crate::proofs::Words::cuts))]
fn cut(words: &mut Vec<u64>, n: usize)
    ensures kept { (i : ℕ) → i < n → is_marked words.new.items i ≡ is_marked words.old.items i }
    ensures none { n ≡ 0 → words.new.items ≡ [] }
{
    if n == 0 {
        words.truncate(0);
    } else {
        words.truncate((n - 1) / 64 + 1);
    }
}

// A word, of zeros past the end.
fn word(words: &[u64], k: usize) -> u64
    ensures { result ≡ slice_index_or words.now k 0 }
{
    if k < words.len() {
        return words[k];
    }
    0
}

// The larger of two numbers.
fn larger(a: usize, b: usize) -> usize
    ensures first { a ≤ result }
    ensures second { b ≤ result }
{
    if a < b {
        return b;
    }
    a
}

// The ones of either's words.
fn either_words(alloc: Global, a: &[u64], b: &[u64]) -> Result<Vec<u64>, AllocError>
    ensures { IfOk result
        (λ v. (i : ℕ) → is_marked v.items i ≡ (is_marked a.now i || is_marked b.now i)) }
{
    let n = larger(a.len(), b.len());
    let mut words = Vec::with_capacity(alloc, n)?;
    for k in 0..n {
        words.push(word(a, k) | word(b, k))?;
    }
    Ok(words)
}

// Whether words have a one at a place.
#[tactic(auto, using(crate::proofs::Words::bits), unfolding(crate::specs::Marks::is_marked))]
fn has_bit(words: &[u64], i: usize) -> bool
    requires { i / 64 < length words.now }
    ensures { result ≡ is_marked words.now i }
{
    (words[i / 64] >> (i % 64)) & 1 == 1
}

// As many words as that place asks for.
fn grow(words: &mut Vec<u64>, place: usize) -> Result<(), AllocError>
    ensures same { (i : ℕ) → is_marked words.new.items i ≡ is_marked words.old.items i }
    ensures ok { OnOk result (place < length words.new.items) }
{
    let n = words.len();
    if place < n {
        return Ok(());
    }
    for _k in n..place {
        words.push(0)?;
    }
    words.push(0)?;
    Ok(())
}

// A one at a place.
fn set_bit(words: &mut Vec<u64>, i: usize)
    requires { i / 64 < length words.old.items }
    ensures { (j : ℕ)
        → is_marked words.new.items j ≡ cond (nat_eq j i) true (is_marked words.old.items j) }
{
    words[i / 64] |= 1 << (i % 64);
}

// A zero at a place.
fn clear_bit(words: &mut Vec<u64>, i: usize)
    requires { i / 64 < length words.old.items }
    ensures { (j : ℕ)
        → is_marked words.new.items j ≡ cond (nat_eq j i) false (is_marked words.old.items j) }
{
    words[i / 64] &= !(1 << (i % 64));
}

// Another item at each place of a word that has a one, counted from a start.
fn mask_word<T: Copy>(items: &mut Vec<T>, word: u64, start: usize, other: T)
    requires { start ≤ length items.old.items }
    ensures long { length items.new.items ≡ length items.old.items }
    ensures each { (k : ℕ) → slice_index_or items.new.items k other
        ≡ cond (in_word word start k) other (slice_index_or items.old.items k other) }
{
    let mut rest = word;
    while rest != 0 {
        let bit = rest.trailing_zeros();
        let place = start + bit as usize;
        if place < items.len() {
            items[place] = other;
        }
        rest &= !(1 << bit);
    }
}

/// The same items, another where a place is marked.
pub fn masked<T: Copy>(items: Vec<T>, marks: &Marks, other: T) -> Vec<T>
    ensures { result.items ≡ marked other marks.now items.items }
{
    if marks.are_none() {
        return items;
    }
    let mut items = items;
    let n = items.len() / 64 + 1;
    for w in 0..n {
        let word = word(marks.words.as_slice(), w);
        mask_word(&mut items, word, w * 64, other);
    }
    items
}
