//! Sums and averages of many coefficients of one scale.
ghost use Rattle.std.specs.Prelude.{◌≡◌, ℕ, ◌+◌, ◌*◌, ◌^◌, ◌<◌, ◌≤◌, ℤ, pos};
ghost use Rattle.base_decimal.specs.Tally.{no_terms, sums, with_term, joined, total_of, average_of};
ghost use Rattle.base_decimal.specs.Tally.{average_scale, small_sum};
ghost use Rattle.base_decimal.specs.Tally.{HasTerm, IsInRange, without_term};

use crate::arithmetic::divide;
use crate::wide::Wide;
use crate::{NumberFault, Scale, rescale};
use std::marker::Model;

/// What was added up so far. Contracts see how many terms there were, the sum of those at or
/// above 0, and the sum of the others negated.
#[derive(Clone, Copy)]
pub struct Tally {
    terms: u64,
    above: Wide,
    below: Wide,
}

impl Model for Tally {
    ghost use Rattle.std.specs.Prelude.{ℕ, ◌*◌, ◌^◌, ◌≤◌};
    ghost use Rattle.base_decimal.specs.Tally.{Sums, sums};

    ghost Value = { Sums };

    ghost view = { λ t. sums t.terms t.above t.below };

    ghost invariant = { λ t. (t.above ≤ t.terms * 2 ^ 127) × (t.below ≤ t.terms * 2 ^ 127) };

    ghost inverse = { λ s. record { terms = s.terms; above = s.above; below = s.below } };
}

impl Tally {
    /// The tally of no terms.
    pub fn new() -> Tally
        ensures { result ≡ no_terms }
    {
        Tally {
            terms: 0,
            above: Wide::zero(),
            below: Wide::zero(),
        }
    }

    /// The tally of so many terms, which have these two sums.
    pub fn of(terms: u64, above: u64, below: u64) -> Tally
        requires above { above ≤ terms * 2 ^ 127 }
        requires below { below ≤ terms * 2 ^ 127 }
        ensures { result ≡ sums terms above below }
    {
        Tally {
            terms,
            above: Wide::of(above),
            below: Wide::of(below),
        }
    }

    /// How many terms there were.
    pub fn terms(&self) -> u64
        ensures { result ≡ self.now.terms }
    {
        self.terms
    }

    /// Adds a term.
    pub fn put(&mut self, term: i128)
        requires { self.old.terms + 1 < 2 ^ 64 }
        ensures { self.new ≡ with_term self.old term }
    {
        if term < 0 {
            self.below.add(term.unsigned_abs());
        } else {
            self.above.add(term as u128);
        }
        self.terms += 1;
    }

    /// Takes out a term that it holds, while its total is a number.
    pub fn remove(&mut self, term: i128)
        requires number { IsInRange self.old }
        requires holds { HasTerm self.old term }
        ensures { self.new ≡ without_term self.old term }
    {
        if term < 0 {
            self.below.take_away(term.unsigned_abs());
        } else {
            self.above.take_away(term as u128);
        }
        self.terms -= 1;
    }

    /// Adds the terms of another.
    pub fn merge(&mut self, other: &Tally)
        requires { self.old.terms + other.now.terms < 2 ^ 64 }
        ensures { self.new ≡ joined self.old other.now }
    {
        self.above.add_wide(other.above);
        self.below.add_wide(other.below);
        self.terms += other.terms;
    }

    /// The sum of the terms. It is NumberRange exactly where the sum of those at or above 0, or
    /// of the others negated, passes 2^127 - 1.
    pub fn total(&self) -> Result<i128, NumberFault>
        ensures { result ≡ total_of self.now }
    {
        match (coefficient(self.above), coefficient(self.below)) {
            (Some(above), Some(below)) => Ok(above - below),
            _ => Err(NumberFault::NumberRange),
        }
    }

    /// The sum of the terms of scale s, rescaled to four places more (18 at most) and divided by
    /// their number, rounded half away from zero.
    pub fn average(&self, s: Scale) -> Result<i128, NumberFault>
        requires { 1 ≤ self.now.terms }
        ensures { result ≡ average_of self.now s }
    {
        let total = self.total()?;
        let scaled = rescale(total, s, average_scale(s))?;
        divide(scaled, self.terms as i128)
    }
}

// A sum of one sign, where a coefficient holds it.
fn coefficient(sum: Wide) -> Option<i128>
    ensures { result ≡ small_sum sum }
{
    match sum.narrow() {
        Some(sum) if sum < 1 << 127 => Some(sum as i128),
        _ => None,
    }
}

// Four places more, 18 at most.
fn average_scale(s: Scale) -> Scale
    ensures { result ≡ average_scale s }
{
    Scale::new((s.places() + 4).min(18))
}
