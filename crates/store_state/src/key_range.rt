//! Between which keys the orders of a segment lie.
ghost use Rattle.std.specs.Prelude.{◌≡◌, ◌&&◌, true, filter, int_le, IfOk, length};
ghost use Rattle.std.specs.Int.{int_max, int_min};
ghost use Rattle.std.specs.List.{list_any};
ghost use Rattle.store_state.specs.Parts.{Ascend, AreBetween, is_between};

use crate::keys::number_at;
use base_columns::Segment;
use std::alloc::{AllocError, Global};

/// A least and a greatest key of orders, and whether it is known that the keys ascend.
#[derive(Clone, Copy)]
pub(crate) struct KeyRange {
    least: i64,
    greatest: i64,
    ascends: bool,
}

impl KeyRange {
    /// The range with a key more.
    fn with(self, key: i64) -> KeyRange
        ensures least { result.least ≡ int_min self.least key }
        ensures greatest { result.greatest ≡ int_max self.greatest key }
        ensures ascends { result.ascends ≡ (self.ascends && int_le self.greatest key) }
    {
        KeyRange {
            least: self.least.min(key),
            greatest: self.greatest.max(key),
            ascends: self.ascends && self.greatest <= key,
        }
    }

    /// The range of the keys of a segment's orders.
    pub(crate) fn of(segment: &Segment) -> KeyRange
        ensures between { AreBetween result.least result.greatest segment.now }
        ensures ascend { result.ascends ≡ true → Ascend (length segment.now) segment.now }
    {
        let mut range = KeyRange {
            least: i64::MAX,
            greatest: i64::MIN,
            ascends: true,
        };
        for i in 0..segment.len() {
            range = range.with(number_at(segment, i, 0));
        }
        range
    }

    /// Whether the keys are known to ascend.
    pub(crate) fn ascends(&self) -> bool
        ensures { result ≡ self.now.ascends }
    {
        self.ascends
    }

    /// Whether a key lies in the range.
    pub(crate) fn has(&self, key: i64) -> bool
        ensures { result ≡ is_between self.now.least self.now.greatest key }
    {
        self.least <= key && key <= self.greatest
    }

    /// Those of the keys that lie in the range.
    pub(crate) fn near(&self, alloc: Global, keys: &[i64]) -> Result<Vec<i64>, AllocError>
        ensures { IfOk result (λ near. near.items
            ≡ filter (is_between self.now.least self.now.greatest) keys.now) }
    {
        let mut near = Vec::new(alloc);
        for key in keys {
            if self.has(*key) {
                near.push(*key)?;
            }
        }
        Ok(near)
    }

    /// Whether one of the keys lies in the range.
    pub(crate) fn has_one_of(&self, keys: &[i64]) -> bool
        ensures { result ≡ list_any (is_between self.now.least self.now.greatest) keys.now }
    {
        for key in keys {
            if self.has(*key) {
                return true;
            }
        }
        false
    }
}
