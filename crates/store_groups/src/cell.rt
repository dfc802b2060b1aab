//! What is kept of the values of an aggregate's argument.
ghost use Rattle.std.specs.Prelude.{◌≡◌, OnOk};
ghost use Rattle.base_value.specs.Truth.{standing_rank};
ghost use Rattle.store_groups.specs.Groups.{HasValue, cell, is_plain, with_value, without_value};
ghost use Rattle.store_groups.specs.Stored.{cell_in};

use crate::value::{is_null, standing_of, term_of};
use base_decimal::Tally;
use base_value::{Standing, Value};
use std::alloc::AllocError;

/// The least standing of the values, True's for one that is no fault, and the tally of those that
/// are not null. What is no number counts as 0.
#[derive(Clone, Copy)]
pub struct Cell {
    least: Standing,
    tally: Tally,
}

impl Cell {
    /// Of this least standing and this tally.
    pub(crate) fn new(least: Standing, tally: Tally) -> Cell
        ensures { cell_in result ≡ cell (standing_rank least) tally }
    {
        Cell { least, tally }
    }

    /// Puts a value in. More values than are counted are an error, as memory that isn't there.
    pub(crate) fn put(&mut self, value: &Value) -> Result<(), AllocError>
        ensures { OnOk result (cell_in self.new ≡ with_value (cell_in self.old) value.now) }
    {
        self.least = self.least.lesser(standing_of(value));
        if !is_null(value) {
            if self.tally.terms() == u64::MAX {
                return Err(AllocError);
            }
            self.tally.put(term_of(value));
        }
        Ok(())
    }

    /// Takes one of its values out.
    pub(crate) fn remove(&mut self, value: &Value)
        requires { HasValue (cell_in self.old) value.now }
        ensures { cell_in self.new ≡ without_value (cell_in self.old) value.now }
    {
        if !is_null(value) {
            self.tally.remove(term_of(value));
        }
    }

    /// The least standing of the values, True's for one that is no fault.
    pub fn standing(&self) -> Standing
        ensures { standing_rank result ≡ (cell_in self.now).least }
    {
        self.least
    }

    /// The tally of the values that are not null.
    pub fn tally(&self) -> Tally
        ensures { result ≡ (cell_in self.now).sums }
    {
        self.tally
    }

    /// Whether no fault is among the values, and their sum is a number.
    pub(crate) fn is_plain(&self) -> bool
        ensures { result ≡ is_plain (cell_in self.now) }
    {
        matches!(self.least, Standing::AtTrue) && self.tally.total().is_ok()
    }
}
