//! A cell of few bytes.
ghost use Rattle.std.specs.Prelude.{◌≡◌, IfSome};
ghost use Rattle.base_row_laws.specs.Ranked.{true_rank};
ghost use Rattle.base_decimal.specs.Tally.{HasTerm, no_terms, with_term, without_term};
ghost use Rattle.store_groups.specs.Groups.{HasValue, cell, is_plain, with_value, without_value};
ghost use Rattle.store_groups.specs.Stored.{cell_in};

use crate::cell::Cell;
use crate::value::{is_null, term_of};
use base_decimal::Tally;
use base_value::{Standing, Value};
use std::marker::Model;

/// What is kept of values that hold no fault, while their sums have 64 bits.
#[derive(Clone, Copy)]
pub struct SmallCell {
    terms: u64,
    above: u64,
    below: u64,
}

impl Model for SmallCell {
    ghost use Rattle.std.specs.Prelude.{◌≡◌};
    ghost use Rattle.base_row_laws.specs.Ranked.{true_rank};
    ghost use Rattle.base_decimal.specs.Tally.{sums};
    ghost use Rattle.store_groups.specs.Groups.{Cell as Kept, cell};

    ghost Value = { Kept };

    ghost view = { λ c. cell true_rank (sums c.terms c.above c.below) };

    ghost invariant = { λ c. c.terms ≡ 0 → (c.above ≡ 0) × (c.below ≡ 0) };

    ghost inverse = { λ c. record {
      terms = c.sums.terms;
      above = c.sums.above;
      below = c.sums.below;
    } };
}

impl SmallCell {
    /// Of no values.
    pub(crate) fn none() -> SmallCell
        ensures { result ≡ cell true_rank no_terms }
    {
        SmallCell {
            terms: 0,
            above: 0,
            below: 0,
        }
    }

    /// With one term more, where the sums keep 64 bits.
    fn with_term(&self, term: i128) -> Option<SmallCell>
        ensures { IfSome result (λ c. c ≡ cell true_rank (with_term self.now.sums term)) }
    {
        let terms = self.terms.checked_add(1)?;
        let size = u64::try_from(term.unsigned_abs()).ok()?;
        let (mut above, mut below) = (self.above, self.below);
        if term < 0 {
            below = below.checked_add(size)?;
        } else {
            above = above.checked_add(size)?;
        }
        Some(SmallCell {
            terms,
            above,
            below,
        })
    }

    /// With one value more, where it is no fault and the sums keep 64 bits.
    pub(crate) fn with(&self, value: &Value) -> Option<SmallCell>
        ensures { IfSome result (λ c. c ≡ with_value self.now value.now) }
    {
        // A field that is used tells the least standing.
        let _terms = self.terms;
        match value {
            Value::Null => Some(*self),
            Value::Fault(_) => None,
            Value::Number(_, coefficient) => self.with_term(*coefficient),
            Value::Text(_) | Value::Date(_) => self.with_term(0),
        }
    }

    /// Takes out a term that it holds.
    fn remove_term(&mut self, term: i128)
        requires { HasTerm self.old.sums term }
        ensures { self.new ≡ cell true_rank (without_term self.old.sums term) }
    {
        if term < 0 {
            self.below -= term.unsigned_abs() as u64;
        } else {
            self.above -= term as u64;
        }
        self.terms -= 1;
    }

    /// Takes one of its values out.
    pub(crate) fn remove(&mut self, value: &Value)
        requires { HasValue self.old value.now }
        ensures { self.new ≡ without_value self.old value.now }
    {
        let _terms = self.terms;
        if !is_null(value) {
            self.remove_term(term_of(value));
        }
    }

    /// The same as a cell of any values.
    pub(crate) fn enlarged(&self) -> Cell
        ensures { cell_in result ≡ self.now }
    {
        Cell::new(
            Standing::AtTrue,
            Tally::of(self.terms, self.above, self.below),
        )
    }

    /// Whether the sum is a number, which it is.
    pub(crate) fn is_plain(&self) -> bool
        ensures { result ≡ is_plain self.now }
    {
        // A field that is used tells its bits.
        let (_above, _below) = (self.above, self.below);
        true
    }
}
