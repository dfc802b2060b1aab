//! Values and texts where they lie as the keys of a set.
ghost use Rattle.std.specs.Prelude.{◌≡◌};

use base_value::Value;
use std::hash::{Hash, Hasher};
use std::marker::Model;

/// A borrowed value as the key of a set. Equality and hash are those of identity.
#[derive(Drop)]
pub(crate) struct ValueKey<'a> {
    value: &'a Value,
}

impl<'a> Model for ValueKey<'a> {
    ghost use Rattle.base_value.specs.declared.value.Value.{Value as Datum};

    ghost Value = { Datum };

    ghost view = { λ k. k.value.now };
}

impl<'a> ValueKey<'a> {
    /// The key that this value makes.
    pub(crate) fn new(value: &'a Value) -> Self
        ensures { result ≡ value.now }
    {
        ValueKey { value }
    }
}

impl<'a> PartialEq for ValueKey<'a> {
    ghost use Rattle.base_value.specs.contracts.value.ValuePartialEq.TheImpl.Laws as value_per;

    ghost eq = { ⟦<Value as PartialEq>⟧.eq };

    ghost laws = { value_per.laws-law };

    fn eq(&self, other: &Self) -> bool {
        self.value == other.value
    }
}

impl<'a> Eq for ValueKey<'a> {
    ghost use Rattle.base_value.specs.contracts.value.ValueEq.TheImpl.Laws as value_equiv;

    ghost laws = { value_equiv.laws-law };
}

impl<'a> Hash for ValueKey<'a> {
    ghost use Rattle.base_value.specs.contracts.value.ValueHash.TheImpl.Laws as value_hash;

    ghost hash_input = { ⟦<Value as Hash>⟧.hash_input };

    ghost respects_eq = { value_hash.respects_eq-law };

    fn hash<H: Hasher>(&self, state: &mut H) {
        self.value.hash(state);
    }
}
